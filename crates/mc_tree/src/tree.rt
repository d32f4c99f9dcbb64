// The tree of a program: one type for each production of the grammar, which docs/LANGUAGE.md gives.
// Each token keeps its place. Expressions and statements stand in `expression` and `statement`.

use crate::expression::Expr;
use crate::place::Place;
use crate::statement::Body;
use mc_word::bytes::Text;
use sqlite_items::{Boxed, Items};

/// A name where it stands.
#[derive(Debug, Drop)]
pub struct Id {
    pub text: Text,
    pub place: Place,
}

/// What stands after a mark, as a comma, a semicolon or a colon.
#[derive(Debug, Drop)]
pub struct After<T> {
    /// Where the mark stands.
    pub mark: Place,
    pub item: T,
}

/// A program, which is a plain or a device module that ends with a dot.
#[derive(Drop)]
pub enum Tree {
    Plain(PlainProgram),
    Device(DeviceProgram),
}

/// `module id ; Plain end id .`
#[derive(Drop)]
pub struct PlainProgram {
    pub module_word: Place,
    pub name: Id,
    pub semicolon: Place,
    pub block: Plain,
    pub end: Place,
    pub end_name: Id,
    pub dot: Place,
}

/// `device module id Bracket ; Device end id .`
#[derive(Drop)]
pub struct DeviceProgram {
    pub device_word: Place,
    pub module_word: Place,
    pub name: Id,
    pub bracket: Bracket,
    pub semicolon: Place,
    pub block: Device,
    pub end: Place,
    pub end_name: Id,
    pub dot: Place,
}

/// A module within a module.
#[cycle(module)]
#[derive(Drop)]
pub enum Module {
    Plain(PlainModule),
    Interface(InterfaceModule),
    Device(DeviceModule),
}

/// `module id ; Lists Plain end id ;`
#[cycle(module)]
#[derive(Drop)]
pub struct PlainModule {
    pub module_word: Place,
    pub name: Id,
    pub semicolon: Place,
    pub lists: Lists,
    pub block: Plain,
    pub end: Place,
    pub end_name: Id,
    pub end_semicolon: Place,
}

/// `interface module id ; Lists Face end id ;`
#[derive(Drop)]
pub struct InterfaceModule {
    pub interface_word: Place,
    pub module_word: Place,
    pub name: Id,
    pub semicolon: Place,
    pub lists: Lists,
    pub block: Face,
    pub end: Place,
    pub end_name: Id,
    pub end_semicolon: Place,
}

/// `device module id Bracket ; Lists Device end id ;`
#[derive(Drop)]
pub struct DeviceModule {
    pub device_word: Place,
    pub module_word: Place,
    pub name: Id,
    pub bracket: Bracket,
    pub semicolon: Place,
    pub lists: Lists,
    pub block: Device,
    pub end: Place,
    pub end_name: Id,
    pub end_semicolon: Place,
}

/// `[ Expr ]`: a priority, a vector or an address.
#[derive(Drop)]
pub struct Bracket {
    pub opening: Place,
    pub value: Expr,
    pub closing: Place,
}

/// `[ define Ids ; ] [ use Ids ; ]`
#[derive(Drop)]
pub struct Lists {
    pub define: Option<NameList>,
    pub use_: Option<NameList>,
}

/// `define Ids ;` or `use Ids ;`
#[derive(Drop)]
pub struct NameList {
    pub word: Place,
    pub names: Ids,
    pub semicolon: Place,
}

/// `id { , id }`
#[derive(Drop)]
pub struct Ids {
    pub first: Id,
    pub more: Items<After<Id>>,
}

/// `{ Decl | Procedure | Process | Module } [ begin Body ]`
#[cycle(module)]
#[derive(Drop)]
pub struct Plain {
    pub parts: Items<PlainPart>,
    pub body: Option<Begun>,
}

#[cycle(module)]
#[derive(Drop)]
pub enum PlainPart {
    Decl(Decl),
    Procedure(Procedure),
    Process(Process),
    Module(Module),
}

/// `{ Decl | Procedure } [ begin Body ]`
#[derive(Drop)]
pub struct Face {
    pub parts: Items<FacePart>,
    pub body: Option<Begun>,
}

#[derive(Drop)]
pub enum FacePart {
    Decl(Decl),
    Procedure(Procedure),
}

/// `{ Decl | Procedure | Driver } [ begin Body ]`
#[derive(Drop)]
pub struct Device {
    pub parts: Items<DevicePart>,
    pub body: Option<Begun>,
}

#[derive(Drop)]
pub enum DevicePart {
    Decl(Decl),
    Procedure(Procedure),
    Driver(Driver),
}

/// `begin Body`
#[derive(Drop)]
pub struct Begun {
    pub begin: Place,
    pub body: Body,
}

/// `const Const { Const }`, `type TypeDecl { TypeDecl }` or `var Var { Var }`
#[derive(Drop)]
pub enum Decl {
    Const(Place, Const, Items<Const>),
    Type(Place, TypeDecl, Items<TypeDecl>),
    Var(Place, Var, Items<Var>),
}

/// `id = Expr ;`
#[derive(Drop)]
pub struct Const {
    pub name: Id,
    pub equal: Place,
    pub value: Expr,
    pub semicolon: Place,
}

/// `id = Type ;`
#[derive(Drop)]
pub struct TypeDecl {
    pub name: Id,
    pub equal: Place,
    pub meaning: TypeTree,
    pub semicolon: Place,
}

/// `VarId { , VarId } : Type ;`
#[derive(Drop)]
pub struct Var {
    pub first: VarId,
    pub more: Items<After<VarId>>,
    pub colon: Place,
    pub of: TypeTree,
    pub semicolon: Place,
}

/// `id [ Bracket ]`
#[derive(Drop)]
pub struct VarId {
    pub name: Id,
    pub address: Option<Bracket>,
}

/// A type: a name, `( Ids )`, `array Range { , Range } of Type` or `record Fields { ; Fields } end`.
#[cycle(type_tree)]
#[derive(Drop)]
pub enum TypeTree {
    Name(Id),
    Values(Place, Ids, Place),
    Array(Place, Range, Items<After<Range>>, Place, Boxed<TypeTree>),
    Record(Place, Boxed<Fields>, Items<After<Fields>>, Place),
}

/// `Expr : Expr`
#[derive(Drop)]
pub struct Range {
    pub low: Expr,
    pub colon: Place,
    pub high: Expr,
}

/// `Ids : Type`
#[cycle(type_tree)]
#[derive(Drop)]
pub struct Fields {
    pub names: Ids,
    pub colon: Place,
    pub of: TypeTree,
}

/// `procedure id [ Params ] [ : id ] ; Local end id ;`
#[derive(Drop)]
pub struct Procedure {
    pub procedure: Place,
    pub name: Id,
    pub params: Option<Params>,
    pub answer: Option<After<Id>>,
    pub semicolon: Place,
    pub local: Local,
    pub end: Place,
    pub end_name: Id,
    pub end_semicolon: Place,
}

/// `process id [ Params ] ; Local end id ;`
#[derive(Drop)]
pub struct Process {
    pub process: Place,
    pub name: Id,
    pub params: Option<Params>,
    pub semicolon: Place,
    pub local: Local,
    pub end: Place,
    pub end_name: Id,
    pub end_semicolon: Place,
}

/// `process id Bracket ; Local end id ;`
#[derive(Drop)]
pub struct Driver {
    pub process: Place,
    pub name: Id,
    pub bracket: Bracket,
    pub semicolon: Place,
    pub local: Local,
    pub end: Place,
    pub end_name: Id,
    pub end_semicolon: Place,
}

/// `( Section { ; Section } )`
#[derive(Drop)]
pub struct Params {
    pub opening: Place,
    pub first: Section,
    pub more: Items<After<Section>>,
    pub closing: Place,
}

/// `[ const | var ] Ids : id`
#[derive(Drop)]
pub struct Section {
    pub mode: Option<Mode>,
    pub names: Ids,
    pub colon: Place,
    pub of: Id,
}

/// How a parameter is passed, where a word says so.
#[derive(Clone, Copy, PartialEq, Eq, Debug)]
pub enum Mode {
    Const(Place),
    Var(Place),
}

/// `{ Decl } begin Body`
#[derive(Drop)]
pub struct Local {
    pub declarations: Items<Decl>,
    pub begin: Place,
    pub body: Body,
}
