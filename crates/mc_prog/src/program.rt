// The resolved program: modules, types, variables, procedures and processes by their numbers, and the texts that run as
// nodes, each behind its parts.

ghost use Rattle.std.specs.Prelude.{◌≡◌};

use mc_tree::place::Place;
use mc_word::Word;
use mc_word::bytes::Text;
use std::marker::Model;

/// The three kinds of modules.
#[derive(Clone, Copy, PartialEq, Eq, Debug)]
pub enum ModuleKind {
    Plain,
    Interface,
    Device,
}

/// A module. The program is module 0.
#[derive(Debug, Drop)]
pub struct ModuleInfo {
    pub kind: ModuleKind,
    /// The priority of a device module; 0 for one of another kind.
    pub priority: u16,
    /// Where the priority stands, or the module's name where it has none.
    pub priority_at: Place,
    /// The number of the module around it; 0 for the program.
    pub outer: u16,
    pub body: CodeInfo,
}

/// A type, by whose number it is the same as another.
#[derive(Debug, Drop)]
pub struct TypeInfo {
    /// How many words a variable of it takes, 1 to 20,000.
    pub words: u32,
    pub shape: Shape,
    /// Whether it is a signal or an array that holds signals.
    pub holds_signal: bool,
}

/// What a type is made of.
#[derive(Debug, Drop)]
pub enum Shape {
    Integer,
    Boolean,
    Char,
    Bits,
    Signal,
    /// An enumeration of so many values.
    Enumeration(u16),
    /// The type of the indices, the least and the greatest of them, and the type of the elements.
    Array(u32, i16, i16, u32),
    Record(Fields),
}

/// The fields of a record in the order of the text, which contracts see as a list.
#[derive(Debug, Drop)]
pub struct Fields {
    pub fields: Vec<FieldInfo>,
}

impl Model for Fields {
    ghost use Rattle.std.specs.Prelude.{List};
    ghost use Rattle.mc_prog.specs.declared.program.FieldInfo.{FieldInfo};

    ghost Value = { List FieldInfo };

    ghost view = { λ f. f.fields.items };
}

/// A field of a record.
#[derive(Debug, Drop)]
pub struct FieldInfo {
    pub name: Text,
    pub type_of: u32,
    /// How many words of the record stand before it.
    pub offset: u32,
}

/// A variable of a module.
#[derive(Clone, Copy, PartialEq, Eq, Debug)]
pub struct CellInfo {
    /// Where its name is declared.
    pub at: Place,
    pub type_of: u32,
    pub module: u16,
    /// The address of a device register.
    pub register: Option<Word>,
}

/// What a word of an activation belongs to.
#[derive(Clone, Copy, PartialEq, Eq, Debug)]
pub enum SlotKind {
    /// A parameter that is read alone.
    Constant,
    /// A parameter that stands for a variable.
    Variable,
    Local,
    /// The result of a function.
    Result,
}

/// A parameter, a local variable or the result of a procedure or a process.
#[derive(Clone, Copy, PartialEq, Eq, Debug)]
pub struct Slot {
    /// Where its name is declared; for a result, the function's name.
    pub at: Place,
    pub type_of: u32,
    pub kind: SlotKind,
    /// The address of a local variable that is declared as a device register.
    pub register: Option<Word>,
}

/// Slots in the order of the text, the result last, which contracts see as a list.
#[derive(Debug, Drop)]
pub struct Slots {
    pub slots: Vec<Slot>,
}

impl Model for Slots {
    ghost use Rattle.std.specs.Prelude.{List};
    ghost use Rattle.mc_prog.specs.declared.program.Slot.{Slot};

    ghost Value = { List Slot };

    ghost view = { λ s. s.slots.items };
}

/// A text that runs: that of a procedure, a process, a module's body or the main process.
#[derive(Debug, Drop)]
pub struct CodeInfo {
    /// Where its name is declared, for a body that of its module; line 0 and column 0 for the main process.
    pub at: Place,
    /// The module that it stands in, for a body its own.
    pub module: u16,
    /// How many words its parameters take: one each, and for a structured constant one those of its type besides.
    pub params: u32,
    /// How many words its local variables take.
    pub locals: u32,
    /// How many words of a workspace an activation is counted for.
    pub frame: u32,
    pub slots: Slots,
    /// The number of the node of its body.
    pub body: u32,
}

/// A process.
#[derive(Debug, Drop)]
pub struct ProcessInfo {
    pub code: CodeInfo,
    /// The vector of a device process.
    pub vector: Option<Word>,
    /// Where the vector stands, or the process's name where it has none.
    pub vector_at: Place,
}

/// A standard name that can be called.
#[derive(Clone, Copy, PartialEq, Eq, Debug)]
pub enum Standard {
    Integer,
    Char,
    Bits,
    Wait,
    Send,
    Awaited,
    Doio,
}

/// What a node is.
#[derive(Debug, Drop)]
pub enum Form {
    /// The designator, the value.
    Assign,
    /// The called name, then the arguments.
    CallStatement,
    /// Conditions, each with its body, and the body behind `else` where there is one.
    If,
    /// The condition, the body.
    While,
    /// The body, the condition.
    Repeat,
    /// The body, then each `when`.
    Loop,
    /// The choice, then each arm.
    Case,
    /// The statements.
    Body,
    /// The labels, then the body.
    Arm,
    /// The condition, the body behind `do` where there is one, and the body behind `exit`.
    When,
    /// The bodies that the main process runs, in their order.
    Bodies,
    /// A field of a designator: the designator, the field.
    Select,
    /// An element or a bit of a designator: the designator, the index.
    Index,
    Equal,
    Unequal,
    Less,
    LessEqual,
    Greater,
    GreaterEqual,
    /// The sign `+` or `-`: the term.
    Plus,
    Minus,
    Add,
    Subtract,
    Or,
    Xor,
    Multiply,
    Divide,
    Modulo,
    And,
    Not,
    Parenthesis,
    /// The called name, then the arguments.
    CallValue,
    /// The word of a constant expression.
    Constant(Word),
    /// A text of two or more bytes.
    Literal(Text),
    /// A variable of a module, by its number.
    Cell(u32),
    /// A parameter, a local variable or the result, by its number in the slots of the text around.
    Slot(u32),
    Procedure(u32),
    Process(u32),
    /// A field, by its number in its record.
    Field(u32),
    Standard(Standard),
}

/// The numbers of a node's parts in the order of the text, which contracts see as a list.
#[derive(Debug, Drop)]
pub struct Parts {
    pub parts: Vec<u32>,
}

impl Model for Parts {
    ghost use Rattle.std.specs.Prelude.{ℕ, List};

    ghost Value = { List ℕ };

    ghost view = { λ p. p.parts.items };
}

/// A node of a text that runs.
#[derive(Debug, Drop)]
pub struct Node {
    /// The first token of what it stands for.
    pub place: Place,
    /// The type of a value or a variable; none for a text and for what is neither.
    pub type_of: Option<u32>,
    pub form: Form,
    /// Each less than the node's own number.
    pub parts: Parts,
}

/// What a resolved program is made of.
#[derive(Debug, Drop)]
pub struct ProgramParts {
    pub modules: Vec<ModuleInfo>,
    pub types: Vec<TypeInfo>,
    pub cells: Vec<CellInfo>,
    pub procedures: Vec<CodeInfo>,
    pub processes: Vec<ProcessInfo>,
    pub nodes: Vec<Node>,
    pub main: CodeInfo,
    pub size: u32,
}

/// The resolved program, which contracts see as one record of its lists.
#[derive(Debug, Drop)]
pub struct Program {
    modules: Vec<ModuleInfo>,
    types: Vec<TypeInfo>,
    cells: Vec<CellInfo>,
    procedures: Vec<CodeInfo>,
    processes: Vec<ProcessInfo>,
    nodes: Vec<Node>,
    main: CodeInfo,
    size: u32,
}

impl Model for Program {
    ghost use Rattle.mc_prog.specs.Resolved.{Resolved};

    ghost Value = { Resolved };

    ghost view = { λ p. record { modules = p.modules.items; types = p.types.items; cells = p.cells.items; procedures = p.procedures.items; processes = p.processes.items; nodes = p.nodes.items; main = p.main; size = p.size } };
}

impl Program {
    /// The program of these parts, which keep their memory.
    pub fn from_parts(parts: ProgramParts) -> Program
        ensures { result ≡ record { modules = parts.modules.items; types = parts.types.items; cells = parts.cells.items; procedures = parts.procedures.items; processes = parts.processes.items; nodes = parts.nodes.items; main = parts.main; size = parts.size } }
    {
        let ProgramParts {
            modules,
            types,
            cells,
            procedures,
            processes,
            nodes,
            main,
            size,
        } = parts;
        Program {
            modules,
            types,
            cells,
            procedures,
            processes,
            nodes,
            main,
            size,
        }
    }

    /// The modules by their numbers, the program itself first.
    pub fn modules(&self) -> &[ModuleInfo]
        ensures { result.now ≡ self.now.modules }
    {
        self.modules.as_slice()
    }

    /// The types by their numbers, those that every source knows first.
    pub fn types(&self) -> &[TypeInfo]
        ensures { result.now ≡ self.now.types }
    {
        self.types.as_slice()
    }

    /// The variables of modules by their numbers.
    pub fn cells(&self) -> &[CellInfo]
        ensures { result.now ≡ self.now.cells }
    {
        self.cells.as_slice()
    }

    /// The procedures by their numbers.
    pub fn procedures(&self) -> &[CodeInfo]
        ensures { result.now ≡ self.now.procedures }
    {
        self.procedures.as_slice()
    }

    /// The processes by their numbers.
    pub fn processes(&self) -> &[ProcessInfo]
        ensures { result.now ≡ self.now.processes }
    {
        self.processes.as_slice()
    }

    /// The nodes by their numbers, each behind its parts; the bodies that the main process runs are the last.
    pub fn nodes(&self) -> &[Node]
        ensures { result.now ≡ self.now.nodes }
    {
        self.nodes.as_slice()
    }

    /// The text of the main process.
    pub fn main(&self) -> &CodeInfo
        ensures { result.now ≡ self.now.main }
    {
        &self.main
    }

    /// How many words the program and its variables take.
    pub fn size(&self) -> u32
        ensures { result ≡ self.now.size }
    {
        self.size
    }
}
