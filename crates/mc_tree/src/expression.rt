// Expressions, as the grammar has them.

use crate::place::Place;
use crate::tree::{After, Id};
use mc_word::Word;
use mc_word::bytes::Text;
use sqlite_items::{Boxed, Items};

/// The relations `= <> < <= > >=`.
#[derive(Clone, Copy, PartialEq, Eq, Debug)]
pub enum Relation {
    Equal,
    Unequal,
    Less,
    LessEqual,
    Greater,
    GreaterEqual,
}

/// The sign of a sum.
#[derive(Clone, Copy, PartialEq, Eq, Debug)]
pub enum Sign {
    Plus,
    Minus,
}

/// The operators of a sum, `+ - or xor`.
#[derive(Clone, Copy, PartialEq, Eq, Debug)]
pub enum Adding {
    Plus,
    Minus,
    Or,
    Xor,
}

/// The operators of a product, `* div mod and`.
#[derive(Clone, Copy, PartialEq, Eq, Debug)]
pub enum Multiplying {
    Times,
    Div,
    Mod,
    And,
}

/// `Simple [ relation Simple ]`
#[cycle(expression)]
#[derive(Drop)]
pub struct Expr {
    pub left: Simple,
    pub compared: Option<Compared>,
}

/// A relation and its right side.
#[cycle(expression)]
#[derive(Drop)]
pub struct Compared {
    pub relation: Relation,
    pub place: Place,
    pub right: Simple,
}

/// `[ sign ] Term { operator Term }`
#[cycle(expression)]
#[derive(Drop)]
pub struct Simple {
    pub sign: Option<(Sign, Place)>,
    pub first: Term,
    pub more: Items<AddedTerm>,
}

/// An operator of a sum and the term after it.
#[cycle(expression)]
#[derive(Drop)]
pub struct AddedTerm {
    pub operator: Adding,
    pub place: Place,
    pub term: Term,
}

/// `Factor { operator Factor }`
#[cycle(expression)]
#[derive(Drop)]
pub struct Term {
    pub first: Factor,
    pub more: Items<MultipliedFactor>,
}

/// An operator of a product and the factor after it.
#[cycle(expression)]
#[derive(Drop)]
pub struct MultipliedFactor {
    pub operator: Multiplying,
    pub place: Place,
    pub factor: Factor,
}

/// A factor.
#[cycle(expression)]
#[derive(Drop)]
pub enum Factor {
    Number(Word, Place),
    Character(u8, Place),
    Text(Text, Place),
    Designator(Designator),
    /// A call with arguments. One without stands as a designator that is the name alone.
    Call(Id, Args),
    /// `( Expr )`
    Group(Place, Boxed<Expr>, Place),
    Not(Place, Boxed<Factor>),
    /// `[ [ Element { , Element } ] ]`
    Bits(Place, Option<Elements>, Place),
}

/// `id { . id | [ Expr { , Expr } ] }`
#[cycle(expression)]
#[derive(Drop)]
pub struct Designator {
    pub name: Id,
    pub selectors: Items<Selector>,
}

/// `. id` or `[ Expr { , Expr } ]`
#[cycle(expression)]
#[derive(Drop)]
pub enum Selector {
    Field(Place, Id),
    Index(Place, Boxed<Expr>, Items<After<Expr>>, Place),
}

/// `( Expr { , Expr } )`
#[cycle(expression)]
#[derive(Drop)]
pub struct Args {
    pub opening: Place,
    pub first: Boxed<Expr>,
    pub more: Items<After<Expr>>,
    pub closing: Place,
}

/// `Element { , Element }`
#[cycle(expression)]
#[derive(Drop)]
pub struct Elements {
    pub first: Boxed<Element>,
    pub more: Items<After<Element>>,
}

/// `Expr [ : Expr ]`
#[cycle(expression)]
#[derive(Drop)]
pub struct Element {
    pub first: Expr,
    pub last: Option<After<Expr>>,
}
