// What the typing rules say of the pieces of a tree.

use crate::program::Standard;
use mc_tree::expression::Relation;
use mc_tree::fault::Fault;
use mc_tree::place::Place;
use mc_word::Word;
use std::marker::Model;

/// The types that every source knows, by their numbers.
pub const INTEGER: u32 = 0;

pub const BOOLEAN: u32 = 1;

pub const CHAR: u32 = 2;

pub const BITS: u32 = 3;

pub const SIGNAL: u32 = 4;

/// Whether a variable may be changed where it stands.
#[derive(Clone, Copy, PartialEq, Eq, Debug)]
pub enum Change {
    May,
    /// A constant parameter.
    Never,
    /// A variable of another module that only defines it.
    Elsewhere,
}

/// A variable, or an element or a field of one.
#[derive(Clone, Copy, PartialEq, Eq, Debug)]
pub struct Variable {
    pub type_of: u32,
    pub change: Change,
    /// Whether it is a device register.
    pub register: bool,
}

/// A procedure.
#[derive(Clone, Copy, PartialEq, Eq, Debug)]
pub struct Callable {
    pub number: u32,
    pub result: Answer,
}

/// What a procedure gives.
#[derive(Clone, Copy, PartialEq, Eq, Debug)]
pub enum Answer {
    Nothing,
    /// A value of this type; of an unknown one where the heading has a fault.
    Value(Option<u32>),
}

/// What a declared name stands for.
#[derive(Clone, Copy, PartialEq, Eq, Debug)]
pub enum Entity {
    /// What is declared further behind.
    Ahead,
    /// A declaration with a fault.
    Faulty,
    /// A constant, by its type and its word.
    Constant(u32, Word),
    Type(u32),
    /// A variable of a module, by its number and the module's, and whether it is a device register.
    Cell(u32, u32, u16, bool),
    /// A parameter or a local variable, by its number and its type; whether it can be changed, and whether it is
    /// declared as a device register.
    Slot(u32, u32, bool, bool),
    Procedure(Callable),
    Process(u32),
    Module(u16),
}

/// What a piece means.
#[derive(Clone, Copy, PartialEq, Eq, Debug)]
pub enum Meaning {
    /// A statement, a declaration, or something without a value.
    Nothing,
    /// An expression with a fault in it.
    Faulty,
    /// A designator with a fault in it, and whether its variable may be changed. Of a written type with a fault in it
    /// this says whether variables of it could be declared: `Elsewhere` than in procedures, processes and records, where
    /// it is an array of signals, and `Never` where it is or holds a record with a signal.
    Unknown(Change),
    /// A name that is no value where it stands alone.
    NoValue,
    /// A constant, by its type and its word.
    Constant(u32, Word),
    /// A constant expression whose evaluation traps, by its type.
    Trap(u32),
    Value(u32),
    /// A text of so many bytes, not one, by where it stands.
    Text(u32, Place),
    Variable(Variable),
    /// A bit of a variable.
    Bit(Change),
    /// The name of the function around, whose result may be assigned.
    Own(Callable),
    /// A bit of the result of the function around.
    OwnBit,
    Procedure(Callable),
    Process(u32),
    Standard(Standard),
    /// A type, or the name of one.
    Type(u32),
    /// The bounds of a range, by their type and their words.
    Bounds(u32, Word, Word),
}

/// The operators of two operands.
#[derive(Clone, Copy, PartialEq, Eq, Debug)]
pub enum Operator {
    Add,
    Subtract,
    Multiply,
    Divide,
    Modulo,
    And,
    Or,
    Xor,
    Compare(Relation),
}

/// The types that a place allows.
#[derive(Clone, Copy, PartialEq, Eq, Debug)]
pub enum Allowed {
    /// One type.
    Only(u32),
    /// Boolean and bits.
    Logical,
    /// The types of indices, of choices and of what is ordered.
    Ordered,
    /// What an operator takes.
    Operand(Operator),
    /// What a conversion to a type takes.
    Converted(u32),
}

/// What a procedure or a process takes in one place.
#[derive(Clone, Copy, PartialEq, Eq, Debug)]
pub struct Wanted {
    /// The parameter.
    pub at: Place,
    /// Not known where its declaration has a fault.
    pub type_of: Option<u32>,
    /// Whether it takes a variable, and not a value.
    pub by_name: bool,
}

/// What a procedure or a process takes, which contracts see as a list.
#[derive(Debug, Drop)]
pub struct Takes {
    pub wanted: Vec<Wanted>,
}

impl Model for Takes {
    ghost use Rattle.std.specs.Prelude.{List};
    ghost use Rattle.mc_prog.specs.declared.typing.Wanted.{Wanted};

    ghost Value = { List Wanted };

    ghost view = { λ t. t.wanted.items };
}

/// What a rule says of a piece.
#[derive(Clone, Copy, PartialEq, Eq, Debug)]
pub struct Said {
    pub meaning: Meaning,
    /// The first fault of the piece itself, not of its parts.
    pub fault: Option<Fault>,
}

/// What is known of a piece.
#[derive(Clone, Copy, PartialEq, Eq, Debug)]
pub struct Typed {
    /// Its first token.
    pub place: Place,
    pub meaning: Meaning,
    /// Whether it has only constants in it.
    pub fixed: bool,
    /// The greatest number of factors that are open at once in it.
    pub nest: u32,
    /// The greatest number of arguments of a call in it.
    pub arguments: u32,
    /// The number of the node that it stands for.
    pub node: u32,
}
