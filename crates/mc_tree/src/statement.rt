// Statements, as the grammar has them.

use crate::expression::{Args, Designator, Expr};
use crate::place::Place;
use crate::tree::{After, Id};
use sqlite_items::{Boxed, Items};

/// `Statement { ; Statement }`
#[cycle(statement)]
#[derive(Drop)]
pub struct Body {
    pub first: Boxed<Statement>,
    pub more: Items<After<Statement>>,
}

/// A statement.
#[cycle(statement)]
#[derive(Drop)]
pub enum Statement {
    /// Nothing, which has no tokens.
    Empty,
    /// `Designator := Expr`
    Assignment(Designator, Place, Expr),
    /// A call without arguments is the name alone.
    Call(Id, Option<Args>),
    If(If),
    While(While),
    Repeat(Repeat),
    Loop(Loop),
    Case(Case),
}

/// `if Expr then Body { elsif Expr then Body } [ else Body ] end`
#[cycle(statement)]
#[derive(Drop)]
pub struct If {
    pub word: Place,
    pub condition: Expr,
    pub then: Place,
    pub body: Body,
    pub elsifs: Items<Elsif>,
    pub otherwise: Option<After<Body>>,
    pub end: Place,
}

/// `elsif Expr then Body`
#[cycle(statement)]
#[derive(Drop)]
pub struct Elsif {
    pub word: Place,
    pub condition: Expr,
    pub then: Place,
    pub body: Body,
}

/// `while Expr do Body end`
#[cycle(statement)]
#[derive(Drop)]
pub struct While {
    pub word: Place,
    pub condition: Expr,
    pub do_: Place,
    pub body: Body,
    pub end: Place,
}

/// `repeat Body until Expr`
#[cycle(statement)]
#[derive(Drop)]
pub struct Repeat {
    pub word: Place,
    pub body: Body,
    pub until: Place,
    pub condition: Expr,
}

/// `loop Body { when Expr [ do Body ] exit Body } end`
#[cycle(statement)]
#[derive(Drop)]
pub struct Loop {
    pub word: Place,
    pub body: Body,
    pub exits: Items<Exit>,
    pub end: Place,
}

/// `when Expr [ do Body ] exit Body`
#[cycle(statement)]
#[derive(Drop)]
pub struct Exit {
    pub when: Place,
    pub condition: Expr,
    pub last: Option<After<Body>>,
    pub exit: Place,
    pub body: Body,
}

/// `case Expr of Arm { ; Arm } end`
#[cycle(statement)]
#[derive(Drop)]
pub struct Case {
    pub word: Place,
    pub choice: Expr,
    pub of: Place,
    pub first: Arm,
    pub more: Items<After<Arm>>,
    pub end: Place,
}

/// `Expr { , Expr } : begin Body end`
#[cycle(statement)]
#[derive(Drop)]
pub struct Arm {
    pub first: Expr,
    pub more: Items<After<Expr>>,
    pub colon: Place,
    pub begin: Place,
    pub body: Body,
    pub end: Place,
}
