// The pieces of types and declarations.
#![tactic(auto, using(crate::proofs::TypeLaws::type_laws, std::proofs::lemmas::Grind::common_steps))]

ghost use Rattle.std.specs.Prelude.{◌≡◌, OnOk};
ghost use Rattle.mc_prog.specs.DeclarationPieces.{answer, bracket, const_, declaration, driver, fields, local, params, passing, procedure, process, range, section, type_decl, type_tree, var_, var_id};
ghost use Rattle.mc_pieces.specs.Constructs.{code_sort_of, passing_of};

use crate::expression::expr;
use crate::named::{Naming, names};
use crate::piece::{CodeSort, Construct, Passing};
use crate::walk::Walk;
use mc_tree::tree::{
    After, Bracket, Const, Decl, Driver, Fields, Id, Local, Mode, Params, Procedure, Process,
    Range, Section, TypeDecl, TypeTree, Var, VarId,
};
use mc_word::bytes::Memory;

/// The pieces of a priority, a vector or an address.
pub fn bracket<'a>(walk: &mut Walk<'a>, tree: &'a Bracket) -> Result<(), Memory>
    ensures { OnOk result (walk.new ≡ bracket tree.now walk.old) }
{
    expr(walk, &tree.value)
}

fn range<'a>(walk: &mut Walk<'a>, tree: &'a Range) -> Result<(), Memory>
    ensures { OnOk result (walk.new ≡ range tree.now walk.old) }
{
    let outer = walk.begin();
    expr(walk, &tree.low)?;
    expr(walk, &tree.high)?;
    walk.node(outer, None, Construct::Range)
}

// The values of an enumeration stand directly behind it.
#[cycle(type_tree)]
fn type_tree<'a>(walk: &mut Walk<'a>, tree: &'a TypeTree) -> Result<(), Memory>
    ensures { OnOk result (walk.new ≡ type_tree tree.now walk.old) }
{
    match tree {
        TypeTree::Name(id) => walk.leaf(id.place, Construct::TypeName(id)),
        TypeTree::Values(opening, values, _) => {
            let outer = walk.begin();
            let count = 1 + values.more.as_slice().len();
            walk.leaf(*opening, Construct::Enumeration(count))?;
            names(walk, Naming::EnumerationValue, values)?;
            walk.end(outer)
        }
        TypeTree::Array(word, first, more, _, element) => {
            let outer = walk.begin();
            range(walk, first)?;
            for index in more.as_slice() {
                range(walk, &index.item)?;
            }
            type_tree(walk, element.get())?;
            walk.node(outer, Some(*word), Construct::Array)
        }
        TypeTree::Record(word, first, more, _) => {
            let outer = walk.begin();
            fields(walk, first.get())?;
            for next in more.as_slice() {
                fields(walk, &next.item)?;
            }
            walk.node(outer, Some(*word), Construct::Record)
        }
    }
}

#[cycle(type_tree)]
fn fields<'a>(walk: &mut Walk<'a>, tree: &'a Fields) -> Result<(), Memory>
    ensures { OnOk result (walk.new ≡ fields tree.now walk.old) }
{
    let outer = walk.begin();
    type_tree(walk, &tree.of)?;
    walk.node(
        outer,
        Some(tree.names.first.place),
        Construct::FieldGroup(&tree.names),
    )
}

fn const_<'a>(walk: &mut Walk<'a>, tree: &'a Const) -> Result<(), Memory>
    ensures { OnOk result (walk.new ≡ const_ tree.now walk.old) }
{
    let outer = walk.begin();
    expr(walk, &tree.value)?;
    walk.apart(
        outer,
        Some(tree.name.place),
        Construct::Constant(&tree.name),
    )
}

fn type_decl<'a>(walk: &mut Walk<'a>, tree: &'a TypeDecl) -> Result<(), Memory>
    ensures { OnOk result (walk.new ≡ type_decl tree.now walk.old) }
{
    let outer = walk.begin();
    type_tree(walk, &tree.meaning)?;
    walk.apart(
        outer,
        Some(tree.name.place),
        Construct::TypeDeclaration(&tree.name),
    )
}

// A variable has the type that is the part so far, and its address where it has one.
fn var_id<'a>(walk: &mut Walk<'a>, tree: &'a VarId) -> Result<(), Memory>
    ensures { OnOk result (walk.new ≡ var_id tree.now walk.old) }
{
    let so_far = walk.so_far()?;
    if let Some(address) = &tree.address {
        bracket(walk, address)?;
    }
    walk.beside(so_far, tree.name.place, Construct::Variable(&tree.name))
}

fn var_<'a>(walk: &mut Walk<'a>, tree: &'a Var) -> Result<(), Memory>
    ensures { OnOk result (walk.new ≡ var_ tree.now walk.old) }
{
    let outer = walk.begin();
    type_tree(walk, &tree.of)?;
    var_id(walk, &tree.first)?;
    for next in tree.more.as_slice() {
        var_id(walk, &next.item)?;
    }
    walk.resume(outer);
    Ok(())
}

/// The pieces of declarations behind one word.
pub fn declaration<'a>(walk: &mut Walk<'a>, tree: &'a Decl) -> Result<(), Memory>
    ensures { OnOk result (walk.new ≡ declaration tree.now walk.old) }
{
    match tree {
        Decl::Const(_, first, more) => {
            const_(walk, first)?;
            for constant in more.as_slice() {
                const_(walk, constant)?;
            }
        }
        Decl::Type(_, first, more) => {
            type_decl(walk, first)?;
            for named in more.as_slice() {
                type_decl(walk, named)?;
            }
        }
        Decl::Var(_, first, more) => {
            var_(walk, first)?;
            for variables in more.as_slice() {
                var_(walk, variables)?;
            }
        }
    }
    Ok(())
}

// A parameter is constant without the word `var`.
fn passing(mode: Option<Mode>) -> Passing
    ensures { passing_of result ≡ passing mode }
{
    match mode {
        None | Some(Mode::Const(_)) => Passing::ByValue,
        Some(Mode::Var(_)) => Passing::ByName,
    }
}

fn section<'a>(walk: &mut Walk<'a>, tree: &'a Section) -> Result<(), Memory>
    ensures { OnOk result (walk.new ≡ section tree.now walk.old) }
{
    let outer = walk.begin();
    walk.leaf(tree.of.place, Construct::TypeName(&tree.of))?;
    names(walk, Naming::Parameter(passing(tree.mode)), &tree.names)?;
    walk.resume(outer);
    Ok(())
}

fn params<'a>(walk: &mut Walk<'a>, tree: &'a Params) -> Result<(), Memory>
    ensures { OnOk result (walk.new ≡ params tree.now walk.old) }
{
    section(walk, &tree.first)?;
    for next in tree.more.as_slice() {
        section(walk, &next.item)?;
    }
    Ok(())
}

// The type of a function's result.
fn answer<'a>(walk: &mut Walk<'a>, tree: &'a After<Id>) -> Result<(), Memory>
    ensures { OnOk result (walk.new ≡ answer tree.now walk.old) }
{
    let outer = walk.begin();
    walk.leaf(tree.item.place, Construct::TypeName(&tree.item))?;
    walk.apart(outer, None, Construct::ResultType)
}

fn local<'a>(
    walk: &mut Walk<'a>,
    sort: CodeSort,
    name: &'a Id,
    tree: &'a Local,
) -> Result<(), Memory>
    ensures { OnOk result (walk.new ≡ local (code_sort_of sort) name.now tree.now walk.old) }
{
    for one in tree.declarations.as_slice() {
        declaration(walk, one)?;
    }
    walk.alone(name.place, Construct::Ending(sort, name))
}

/// The pieces of a procedure, whose heading stands behind its parameters and its result.
pub fn procedure<'a>(walk: &mut Walk<'a>, tree: &'a Procedure) -> Result<(), Memory>
    ensures { OnOk result (walk.new ≡ procedure tree.now walk.old) }
{
    let sort = CodeSort::Procedure;
    let around = walk.enter_code(tree.name.place);
    if let Some(inner) = &tree.params {
        params(walk, inner)?;
    }
    if let Some(inner) = &tree.answer {
        answer(walk, inner)?;
    }
    walk.alone(tree.name.place, Construct::Heading(sort, &tree.name))?;
    local(walk, sort, &tree.name, &tree.local)?;
    walk.leave(around);
    Ok(())
}

/// The pieces of a process.
pub fn process<'a>(walk: &mut Walk<'a>, tree: &'a Process) -> Result<(), Memory>
    ensures { OnOk result (walk.new ≡ process tree.now walk.old) }
{
    let sort = CodeSort::Process;
    let around = walk.enter_code(tree.name.place);
    if let Some(inner) = &tree.params {
        params(walk, inner)?;
    }
    walk.alone(tree.name.place, Construct::Heading(sort, &tree.name))?;
    local(walk, sort, &tree.name, &tree.local)?;
    walk.leave(around);
    Ok(())
}

/// The pieces of a driver, whose heading has its vector.
pub fn driver<'a>(walk: &mut Walk<'a>, tree: &'a Driver) -> Result<(), Memory>
    ensures { OnOk result (walk.new ≡ driver tree.now walk.old) }
{
    let sort = CodeSort::Driver;
    let around = walk.enter_code(tree.name.place);
    let outer = walk.begin();
    bracket(walk, &tree.bracket)?;
    walk.apart(
        outer,
        Some(tree.name.place),
        Construct::Heading(sort, &tree.name),
    )?;
    local(walk, sort, &tree.name, &tree.local)?;
    walk.leave(around);
    Ok(())
}
