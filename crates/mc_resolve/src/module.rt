// The names of modules and of a whole tree.
#![tactic(auto, using(crate::proofs::ModuleLaws::module_laws, std::proofs::lemmas::Grind::common_steps))]

ghost use Rattle.std.specs.Prelude.{◌≡◌, ◌∷◌, IfOk, OnOk};
ghost use Rattle.mc_prog.specs.Notes.{Block, Closes, Declares, Ends, Opens, each, maybe};
ghost use Rattle.mc_prog.specs.Names.{begun, defined, device_ahead, device_block, device_module, device_one, face_ahead, face_block, face_one, interface_module, module_, names_of, part_ahead, part_own, plain, plain_module, plain_part, program, used};
ghost use Rattle.mc_resolve.specs.Adds.{Adds};

use crate::declaration::{bracket, declaration, driver, procedure, process};
use crate::item::{Item, Note, ScopeKind};
use crate::put::{Naming, ids, put};
use crate::statement::body;
use mc_tree::tree::{
    Begun, Device, DeviceModule, DevicePart, Face, FacePart, Id, InterfaceModule, Lists, Module,
    Plain, PlainModule, PlainPart, Tree,
};
use mc_word::bytes::Memory;
use std::alloc::Global;

/// The names of a tree, in the order in which they come to be known.
pub fn names<'a>(alloc: Global, tree: &'a Tree) -> Result<Vec<Item<'a>>, Memory>
    ensures { IfOk result (λ found. found.items ≡ names_of tree.now) }
{
    let mut out = Vec::new(alloc);
    program(&mut out, tree)?;
    Ok(out)
}

// The program is a block of its own, whose name is declared in itself.
fn program<'a>(out: &mut Vec<Item<'a>>, tree: &'a Tree) -> Result<(), Memory>
    ensures { OnOk result (Adds out.old.items out.new.items (program tree.now)) }
{
    put(out, Note::Opens(ScopeKind::Block))?;
    match tree {
        Tree::Plain(inner) => {
            put(out, Note::Declares(&inner.name))?;
            plain(out, &inner.block)?;
            close(out, &inner.name, &inner.end_name)
        }
        Tree::Device(inner) => {
            put(out, Note::Declares(&inner.name))?;
            device_ahead(out, &inner.block)?;
            bracket(out, &inner.bracket)?;
            device_block(out, &inner.block)?;
            close(out, &inner.name, &inner.end_name)
        }
    }
}

#[cycle(module)]
fn module_<'a>(out: &mut Vec<Item<'a>>, tree: &'a Module) -> Result<(), Memory>
    ensures { OnOk result (Adds out.old.items out.new.items (module_ tree.now)) }
{
    match tree {
        Module::Plain(inner) => plain_module(out, inner),
        Module::Interface(inner) => interface_module(out, inner),
        Module::Device(inner) => device_module(out, inner),
    }
}

// The name of a module is declared in the block around it.
#[cycle(module)]
fn plain_module<'a>(out: &mut Vec<Item<'a>>, tree: &'a PlainModule) -> Result<(), Memory>
    ensures { OnOk result (Adds out.old.items out.new.items (plain_module tree.now)) }
{
    open(out, &tree.name, &tree.lists)?;
    plain(out, &tree.block)?;
    defined(out, &tree.lists)?;
    close(out, &tree.name, &tree.end_name)
}

fn interface_module<'a>(out: &mut Vec<Item<'a>>, tree: &'a InterfaceModule) -> Result<(), Memory>
    ensures { OnOk result (Adds out.old.items out.new.items (interface_module tree.now)) }
{
    open(out, &tree.name, &tree.lists)?;
    face_ahead(out, &tree.block)?;
    face_block(out, &tree.block)?;
    defined(out, &tree.lists)?;
    close(out, &tree.name, &tree.end_name)
}

// The bracket of a device module stands in its block.
fn device_module<'a>(out: &mut Vec<Item<'a>>, tree: &'a DeviceModule) -> Result<(), Memory>
    ensures { OnOk result (Adds out.old.items out.new.items (device_module tree.now)) }
{
    open(out, &tree.name, &tree.lists)?;
    device_ahead(out, &tree.block)?;
    bracket(out, &tree.bracket)?;
    device_block(out, &tree.block)?;
    defined(out, &tree.lists)?;
    close(out, &tree.name, &tree.end_name)
}

// A module begins with its use list, since the names of that are known in the whole of the module.
fn open<'a>(out: &mut Vec<Item<'a>>, name: &'a Id, lists: &'a Lists) -> Result<(), Memory>
    ensures { OnOk result (Adds out.old.items out.new.items
        (λ rest. Declares name.now ∷ Opens Block ∷ maybe used lists.now.use_ rest)) }
{
    put(out, Note::Declares(name))?;
    put(out, Note::Opens(ScopeKind::Block))?;
    match &lists.use_ {
        Some(list) => ids(out, Naming::Lists, &list.names),
        None => Ok(()),
    }
}

// The define list of a module acts at its end.
fn defined<'a>(out: &mut Vec<Item<'a>>, lists: &'a Lists) -> Result<(), Memory>
    ensures { OnOk result (Adds out.old.items out.new.items (maybe defined lists.now.define)) }
{
    match &lists.define {
        Some(list) => ids(out, Naming::Defines, &list.names),
        None => Ok(()),
    }
}

fn close<'a>(out: &mut Vec<Item<'a>>, name: &'a Id, end_name: &'a Id) -> Result<(), Memory>
    ensures { OnOk result (Adds out.old.items out.new.items
        (λ rest. Closes ∷ Ends name.now end_name.now ∷ rest)) }
{
    put(out, Note::Closes)?;
    put(out, Note::Ends(name, end_name))
}

fn begun<'a>(out: &mut Vec<Item<'a>>, tree: &'a Option<Begun>) -> Result<(), Memory>
    ensures { OnOk result (Adds out.old.items out.new.items (maybe begun tree.now)) }
{
    match tree {
        Some(inner) => body(out, &inner.body),
        None => Ok(()),
    }
}

#[cycle(module)]
fn plain<'a>(out: &mut Vec<Item<'a>>, tree: &'a Plain) -> Result<(), Memory>
    ensures { OnOk result (Adds out.old.items out.new.items (plain tree.now)) }
{
    for part in tree.parts.as_slice() {
        plain_part_ahead(out, part)?;
    }
    for own in tree.parts.as_slice() {
        plain_part(out, own)?;
    }
    begun(out, &tree.body)
}

// Procedures and processes are known in the whole of their block: their names stand in front of its
// parts.
fn plain_part_ahead<'a>(out: &mut Vec<Item<'a>>, part: &'a PlainPart) -> Result<(), Memory>
    ensures { OnOk result (Adds out.old.items out.new.items (part_ahead (plain_part part.now))) }
{
    match part {
        PlainPart::Decl(_) | PlainPart::Module(_) => Ok(()),
        PlainPart::Procedure(inner) => put(out, Note::Knows(&inner.name)),
        PlainPart::Process(inner) => put(out, Note::Knows(&inner.name)),
    }
}

#[cycle(module)]
fn plain_part<'a>(out: &mut Vec<Item<'a>>, part: &'a PlainPart) -> Result<(), Memory>
    ensures { OnOk result (Adds out.old.items out.new.items (part_own (plain_part part.now))) }
{
    match part {
        PlainPart::Decl(inner) => declaration(out, inner),
        PlainPart::Procedure(inner) => procedure(out, inner),
        PlainPart::Process(inner) => process(out, inner),
        PlainPart::Module(inner) => module_(out, inner),
    }
}

fn face_ahead<'a>(out: &mut Vec<Item<'a>>, tree: &'a Face) -> Result<(), Memory>
    ensures { OnOk result (Adds out.old.items out.new.items (each face_ahead tree.now.parts)) }
{
    for part in tree.parts.as_slice() {
        face_part_ahead(out, part)?;
    }
    Ok(())
}

fn face_part_ahead<'a>(out: &mut Vec<Item<'a>>, part: &'a FacePart) -> Result<(), Memory>
    ensures { OnOk result (Adds out.old.items out.new.items (face_ahead part.now)) }
{
    match part {
        FacePart::Decl(_) => Ok(()),
        FacePart::Procedure(inner) => put(out, Note::Knows(&inner.name)),
    }
}

fn face_block<'a>(out: &mut Vec<Item<'a>>, tree: &'a Face) -> Result<(), Memory>
    ensures { OnOk result (Adds out.old.items out.new.items (face_block tree.now)) }
{
    for part in tree.parts.as_slice() {
        face_part(out, part)?;
    }
    begun(out, &tree.body)
}

fn face_part<'a>(out: &mut Vec<Item<'a>>, part: &'a FacePart) -> Result<(), Memory>
    ensures { OnOk result (Adds out.old.items out.new.items (face_one part.now)) }
{
    match part {
        FacePart::Decl(inner) => declaration(out, inner),
        FacePart::Procedure(inner) => procedure(out, inner),
    }
}

fn device_ahead<'a>(out: &mut Vec<Item<'a>>, tree: &'a Device) -> Result<(), Memory>
    ensures { OnOk result (Adds out.old.items out.new.items (each device_ahead tree.now.parts)) }
{
    for part in tree.parts.as_slice() {
        device_part_ahead(out, part)?;
    }
    Ok(())
}

fn device_part_ahead<'a>(out: &mut Vec<Item<'a>>, part: &'a DevicePart) -> Result<(), Memory>
    ensures { OnOk result (Adds out.old.items out.new.items (device_ahead part.now)) }
{
    match part {
        DevicePart::Decl(_) => Ok(()),
        DevicePart::Procedure(inner) => put(out, Note::Knows(&inner.name)),
        DevicePart::Driver(inner) => put(out, Note::Knows(&inner.name)),
    }
}

fn device_block<'a>(out: &mut Vec<Item<'a>>, tree: &'a Device) -> Result<(), Memory>
    ensures { OnOk result (Adds out.old.items out.new.items (device_block tree.now)) }
{
    for part in tree.parts.as_slice() {
        device_part(out, part)?;
    }
    begun(out, &tree.body)
}

fn device_part<'a>(out: &mut Vec<Item<'a>>, part: &'a DevicePart) -> Result<(), Memory>
    ensures { OnOk result (Adds out.old.items out.new.items (device_one part.now)) }
{
    match part {
        DevicePart::Decl(inner) => declaration(out, inner),
        DevicePart::Procedure(inner) => procedure(out, inner),
        DevicePart::Driver(inner) => driver(out, inner),
    }
}
