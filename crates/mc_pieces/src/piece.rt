// The pieces of a tree.

ghost use Rattle.std.specs.Prelude.{◌≡◌};
ghost use Rattle.mc_pieces.specs.Constructs.{around_of, construct_of};

use mc_prog::program::Parts;
use mc_tree::expression::{Adding, Multiplying, Relation, Sign};
use mc_tree::place::Place;
use mc_tree::tree::{Id, Ids};
use mc_word::Word;
use mc_word::bytes::Text;
use std::marker::Model;

/// Which kind of module a module is.
#[derive(Clone, Copy, PartialEq, Eq, Debug)]
pub enum ModuleSort {
    Plain,
    Interface,
    Device,
}

/// How a parameter is passed.
#[derive(Clone, Copy, PartialEq, Eq, Debug)]
pub enum Passing {
    /// It is read alone.
    ByValue,
    /// It stands for a variable.
    ByName,
}

/// What has declarations and a body of its own.
#[derive(Clone, Copy, PartialEq, Eq, Debug)]
pub enum CodeSort {
    Procedure,
    Process,
    /// A device process.
    Driver,
}

/// Where a piece stands: in which module, and in which procedure or process, by the places of their names.
#[derive(Clone, Copy, PartialEq, Eq, Debug)]
pub struct Around {
    pub module_at: Place,
    pub code_at: Option<Place>,
}

/// What a piece is; its parts in their order behind it.
#[derive(Clone, Copy)]
pub enum Construct<'a> {
    Number(Word),
    Character(u8),
    Text(&'a Text),
    /// A name at the front of a designator.
    Name(&'a Id),
    /// A field of a designator.
    Select(&'a Id),
    /// An element or a bit of a designator: the designator, the index.
    Index,
    /// A designator in the place of a factor.
    Designated,
    /// A call with arguments in the place of a factor: the arguments.
    Calling(&'a Id),
    /// An expression between ( and ).
    Group,
    Negation,
    /// A bits constant: its elements.
    Bits,
    /// One bit, or the first and the last of several.
    Element,
    Signed(Sign),
    Sum(Adding),
    Product(Multiplying),
    Comparison(Relation),
    /// The designator, the value.
    Assignment,
    /// A call in the place of a statement: the arguments.
    Statement(&'a Id),
    /// Conditions, each with its body, and the body behind `else` where there is one.
    If,
    /// The condition, the body.
    While,
    /// The body, the condition.
    Repeat,
    /// The body, then each `when`.
    Loop,
    /// The condition, the body behind `do` where there is one, and the body behind `exit`.
    When,
    /// The choice, then each arm.
    Case,
    /// The labels, then the body.
    Arm,
    /// A label of an arm: the expression.
    Label,
    /// The statements, without those that are empty.
    Body,
    TypeName(&'a Id),
    /// An enumeration of so many values.
    Enumeration(usize),
    /// A value of the enumeration that is its part.
    EnumerationValue(&'a Id),
    /// The bounds.
    Range,
    /// The ranges, then the type of the elements.
    Array,
    /// The fields by groups.
    Record,
    /// Fields of one type: that type.
    FieldGroup(&'a Ids),
    /// The value.
    Constant(&'a Id),
    /// The type.
    TypeDeclaration(&'a Id),
    /// A variable: its type, and its address where it has one.
    Variable(&'a Id),
    /// A parameter: its type.
    Parameter(Passing, &'a Id),
    /// The type of a function's result: that type.
    ResultType,
    /// The heading of a procedure or a process, behind its parameters and its result: the vector of a driver.
    Heading(CodeSort, &'a Id),
    /// The end of the declarations of a procedure or a process.
    Ending(CodeSort, &'a Id),
    /// A module: its priority where it has one.
    Module(ModuleSort, &'a Id),
    /// The text of a procedure, a process or a module that runs: its body.
    Running,
}

/// A piece of a tree, which stands behind its parts.
#[derive(Drop)]
pub struct Piece<'a> {
    /// Its first token, where that belongs to none of its parts.
    pub front: Option<Place>,
    pub construct: Construct<'a>,
    /// The numbers of its parts, which all stand before it.
    pub parts: Parts,
    pub around: Around,
}

impl<'a> Model for Piece<'a> {
    ghost use Rattle.mc_prog.specs.Pieces.{Piece as TreePiece};

    ghost Value = { TreePiece };

    ghost use Rattle.mc_pieces.specs.Constructs.{around_of, construct_of};

    ghost view = { λ p. record { front = p.front; construct = construct_of p.construct; parts = p.parts; around = around_of p.around } };
}

impl<'a> Piece<'a> {
    /// What it is.
    pub fn construct(&self) -> Construct<'a>
        ensures { construct_of result ≡ self.now.construct }
    {
        self.construct
    }

    /// Where it stands.
    pub fn around(&self) -> Around
        ensures { around_of result ≡ self.now.around }
    {
        self.around
    }

    /// The numbers of its parts.
    pub fn numbers(&self) -> &[u32]
        ensures { result.now ≡ self.now.parts }
    {
        self.parts.parts.as_slice()
    }
}
