// The names that types and declarations declare and use.
#![tactic(auto, using(crate::proofs::TypeLaws::type_laws, std::proofs::lemmas::Grind::common_steps))]

ghost use Rattle.std.specs.Prelude.{OnOk};
ghost use Rattle.mc_prog.specs.DeclarationNames.{bracket, const_, declaration, driver, fields, local, params, procedure, process, range, section, type_decl, type_tree, var_, var_id};
ghost use Rattle.mc_resolve.specs.Adds.{Adds};

use crate::expression::expr;
use crate::item::{Item, Note, ScopeKind};
use crate::put::{Naming, ids, put};
use crate::statement::body;
use mc_tree::tree::{
    Bracket, Const, Decl, Driver, Fields, Id, Local, Params, Procedure, Process, Range, Section,
    TypeDecl, TypeTree, Var, VarId,
};
use mc_word::bytes::Memory;

/// The names of a priority, a vector or an address.
pub fn bracket<'a>(out: &mut Vec<Item<'a>>, tree: &'a Bracket) -> Result<(), Memory>
    ensures { OnOk result (Adds out.old.items out.new.items (bracket tree.now)) }
{
    expr(out, &tree.value)
}

fn range<'a>(out: &mut Vec<Item<'a>>, tree: &'a Range) -> Result<(), Memory>
    ensures { OnOk result (Adds out.old.items out.new.items (range tree.now)) }
{
    expr(out, &tree.low)?;
    expr(out, &tree.high)
}

// The values of an enumeration are known behind it. The fields of a record have a scope of their
// own.
#[cycle(type_tree)]
fn type_tree<'a>(out: &mut Vec<Item<'a>>, tree: &'a TypeTree) -> Result<(), Memory>
    ensures { OnOk result (Adds out.old.items out.new.items (type_tree tree.now)) }
{
    match tree {
        TypeTree::Name(id) => put(out, Note::Uses(id)),
        TypeTree::Values(_, values, _) => {
            ids(out, Naming::Declares, values)?;
            ids(out, Naming::Knows, values)
        }
        TypeTree::Array(_, first, more, _, element) => {
            range(out, first)?;
            for index in more.as_slice() {
                range(out, &index.item)?;
            }
            type_tree(out, element.get())
        }
        TypeTree::Record(_, first, more, _) => {
            put(out, Note::Opens(ScopeKind::Record))?;
            fields(out, first.get())?;
            for next in more.as_slice() {
                fields(out, &next.item)?;
            }
            put(out, Note::Closes)
        }
    }
}

#[cycle(type_tree)]
fn fields<'a>(out: &mut Vec<Item<'a>>, tree: &'a Fields) -> Result<(), Memory>
    ensures { OnOk result (Adds out.old.items out.new.items (fields tree.now)) }
{
    ids(out, Naming::Field, &tree.names)?;
    type_tree(out, &tree.of)
}

// A constant, a type and a variable are known behind the whole declaration.
fn const_<'a>(out: &mut Vec<Item<'a>>, tree: &'a Const) -> Result<(), Memory>
    ensures { OnOk result (Adds out.old.items out.new.items (const_ tree.now)) }
{
    put(out, Note::Declares(&tree.name))?;
    expr(out, &tree.value)?;
    put(out, Note::Knows(&tree.name))
}

fn type_decl<'a>(out: &mut Vec<Item<'a>>, tree: &'a TypeDecl) -> Result<(), Memory>
    ensures { OnOk result (Adds out.old.items out.new.items (type_decl tree.now)) }
{
    put(out, Note::Declares(&tree.name))?;
    type_tree(out, &tree.meaning)?;
    put(out, Note::Knows(&tree.name))
}

fn var_id<'a>(out: &mut Vec<Item<'a>>, tree: &'a VarId) -> Result<(), Memory>
    ensures { OnOk result (Adds out.old.items out.new.items (var_id tree.now)) }
{
    put(out, Note::Declares(&tree.name))?;
    match &tree.address {
        Some(address) => bracket(out, address),
        None => Ok(()),
    }
}

fn var_<'a>(out: &mut Vec<Item<'a>>, tree: &'a Var) -> Result<(), Memory>
    ensures { OnOk result (Adds out.old.items out.new.items (var_ tree.now)) }
{
    var_id(out, &tree.first)?;
    for next in tree.more.as_slice() {
        var_id(out, &next.item)?;
    }
    type_tree(out, &tree.of)?;
    put(out, Note::Knows(&tree.first.name))?;
    for known in tree.more.as_slice() {
        put(out, Note::Knows(&known.item.name))?;
    }
    Ok(())
}

/// The names of declarations behind one word.
pub fn declaration<'a>(out: &mut Vec<Item<'a>>, tree: &'a Decl) -> Result<(), Memory>
    ensures { OnOk result (Adds out.old.items out.new.items (declaration tree.now)) }
{
    match tree {
        Decl::Const(_, first, more) => {
            const_(out, first)?;
            for constant in more.as_slice() {
                const_(out, constant)?;
            }
        }
        Decl::Type(_, first, more) => {
            type_decl(out, first)?;
            for named in more.as_slice() {
                type_decl(out, named)?;
            }
        }
        Decl::Var(_, first, more) => {
            var_(out, first)?;
            for variables in more.as_slice() {
                var_(out, variables)?;
            }
        }
    }
    Ok(())
}

// The parameters of a section are known behind it.
fn section<'a>(out: &mut Vec<Item<'a>>, tree: &'a Section) -> Result<(), Memory>
    ensures { OnOk result (Adds out.old.items out.new.items (section tree.now)) }
{
    ids(out, Naming::Declares, &tree.names)?;
    put(out, Note::Uses(&tree.of))?;
    ids(out, Naming::Knows, &tree.names)
}

fn params<'a>(out: &mut Vec<Item<'a>>, tree: &'a Params) -> Result<(), Memory>
    ensures { OnOk result (Adds out.old.items out.new.items (params tree.now)) }
{
    section(out, &tree.first)?;
    for next in tree.more.as_slice() {
        section(out, &next.item)?;
    }
    Ok(())
}

fn local<'a>(out: &mut Vec<Item<'a>>, tree: &'a Local) -> Result<(), Memory>
    ensures { OnOk result (Adds out.old.items out.new.items (local tree.now)) }
{
    for one in tree.declarations.as_slice() {
        declaration(out, one)?;
    }
    body(out, &tree.body)
}

/// The names of a procedure, which is declared in the block around it. Its parameters, its result's
/// type, its declarations and its body stand in a scope of their own.
pub fn procedure<'a>(out: &mut Vec<Item<'a>>, tree: &'a Procedure) -> Result<(), Memory>
    ensures { OnOk result (Adds out.old.items out.new.items (procedure tree.now)) }
{
    put(out, Note::Declares(&tree.name))?;
    put(out, Note::Opens(ScopeKind::Code))?;
    if let Some(inner) = &tree.params {
        params(out, inner)?;
    }
    if let Some(answer) = &tree.answer {
        put(out, Note::Uses(&answer.item))?;
    }
    local(out, &tree.local)?;
    put(out, Note::Closes)?;
    put(out, Note::Ends(&tree.name, &tree.end_name))
}

/// The names of a process.
pub fn process<'a>(out: &mut Vec<Item<'a>>, tree: &'a Process) -> Result<(), Memory>
    ensures { OnOk result (Adds out.old.items out.new.items (process tree.now)) }
{
    put(out, Note::Declares(&tree.name))?;
    put(out, Note::Opens(ScopeKind::Code))?;
    if let Some(inner) = &tree.params {
        params(out, inner)?;
    }
    local(out, &tree.local)?;
    put(out, Note::Closes)?;
    put(out, Note::Ends(&tree.name, &tree.end_name))
}

/// The names of a driver.
pub fn driver<'a>(out: &mut Vec<Item<'a>>, tree: &'a Driver) -> Result<(), Memory>
    ensures { OnOk result (Adds out.old.items out.new.items (driver tree.now)) }
{
    put(out, Note::Declares(&tree.name))?;
    put(out, Note::Opens(ScopeKind::Code))?;
    bracket(out, &tree.bracket)?;
    local(out, &tree.local)?;
    put(out, Note::Closes)?;
    put(out, Note::Ends(&tree.name, &tree.end_name))
}
