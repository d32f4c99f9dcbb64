// The pieces of all texts of a tree that run.
#![tactic(auto, using(crate::proofs::TextLaws::text_laws, std::proofs::lemmas::Grind::common_steps))]

ghost use Rattle.std.specs.Prelude.{◌≡◌, IfOk, OnOk};
ghost use Rattle.mc_prog.specs.Pieces.{each};
ghost use Rattle.mc_prog.specs.TextPieces.{begun, code, device_module, device_one, face_one, interface_module, module_, plain, plain_module, plain_part, program, texts_of};

use crate::piece::{Construct, Piece};
use crate::statement::body_behind;
use crate::walk::Walk;
use mc_tree::tree::{
    Begun, Device, DeviceModule, DevicePart, FacePart, Id, InterfaceModule, Local, Module, Plain,
    PlainModule, PlainPart, Tree,
};
use mc_word::bytes::Memory;
use std::alloc::Global;

/// The pieces of the texts that run: those of procedures, processes and modules, in the order of the text.
pub fn texts<'a>(alloc: Global, tree: &'a Tree) -> Result<Vec<Piece<'a>>, Memory>
    ensures { IfOk result (λ pieces. pieces.items ≡ texts_of tree.now) }
{
    let mut walk = Walk::new(alloc, tree);
    program(&mut walk, tree)?;
    Ok(walk.into_pieces())
}

fn program<'a>(walk: &mut Walk<'a>, tree: &'a Tree) -> Result<(), Memory>
    ensures { OnOk result (walk.new ≡ program tree.now walk.old) }
{
    match tree {
        Tree::Plain(inner) => plain(walk, &inner.name, &inner.block),
        Tree::Device(inner) => device_block(walk, &inner.name, &inner.block),
    }
}

// A module without `begin` has an empty body, which stands where its name does.
fn begun<'a>(walk: &mut Walk<'a>, name: &'a Id, tree: &'a Option<Begun>) -> Result<(), Memory>
    ensures { OnOk result (walk.new ≡ begun name.now tree.now walk.old) }
{
    let outer = walk.begin();
    match tree {
        Some(inner) => body_behind(walk, inner.begin, &inner.body)?,
        None => walk.leaf(name.place, Construct::Body)?,
    }
    walk.apart(outer, Some(name.place), Construct::Running)
}

fn code<'a>(walk: &mut Walk<'a>, name: &'a Id, tree: &'a Local) -> Result<(), Memory>
    ensures { OnOk result (walk.new ≡ code name.now tree.now walk.old) }
{
    let around = walk.enter_code(name.place);
    let outer = walk.begin();
    body_behind(walk, tree.begin, &tree.body)?;
    walk.apart(outer, Some(name.place), Construct::Running)?;
    walk.leave(around);
    Ok(())
}

#[cycle(module)]
fn module_<'a>(walk: &mut Walk<'a>, tree: &'a Module) -> Result<(), Memory>
    ensures { OnOk result (walk.new ≡ module_ tree.now walk.old) }
{
    match tree {
        Module::Plain(inner) => plain_module(walk, inner),
        Module::Interface(inner) => interface_module(walk, inner),
        Module::Device(inner) => device_module(walk, inner),
    }
}

#[cycle(module)]
fn plain_module<'a>(walk: &mut Walk<'a>, tree: &'a PlainModule) -> Result<(), Memory>
    ensures { OnOk result (walk.new ≡ plain_module tree.now walk.old) }
{
    let around = walk.enter_module(tree.name.place);
    plain(walk, &tree.name, &tree.block)?;
    walk.leave(around);
    Ok(())
}

// The body of a module runs behind those of the modules in it.
#[cycle(module)]
fn plain<'a>(walk: &mut Walk<'a>, name: &'a Id, tree: &'a Plain) -> Result<(), Memory>
    ensures { OnOk result (walk.new ≡ plain tree.now name.now walk.old) }
{
    for part in tree.parts.as_slice() {
        plain_part(walk, part)?;
    }
    begun(walk, name, &tree.body)
}

#[cycle(module)]
fn plain_part<'a>(walk: &mut Walk<'a>, part: &'a PlainPart) -> Result<(), Memory>
    ensures { OnOk result (walk.new ≡ plain_part part.now walk.old) }
{
    match part {
        PlainPart::Decl(_) => Ok(()),
        PlainPart::Procedure(inner) => code(walk, &inner.name, &inner.local),
        PlainPart::Process(inner) => code(walk, &inner.name, &inner.local),
        PlainPart::Module(inner) => module_(walk, inner),
    }
}

fn interface_module<'a>(walk: &mut Walk<'a>, tree: &'a InterfaceModule) -> Result<(), Memory>
    ensures { OnOk result (walk.new ≡ interface_module tree.now walk.old) }
{
    let around = walk.enter_module(tree.name.place);
    for part in tree.block.parts.as_slice() {
        face_part(walk, part)?;
    }
    begun(walk, &tree.name, &tree.block.body)?;
    walk.leave(around);
    Ok(())
}

fn face_part<'a>(walk: &mut Walk<'a>, part: &'a FacePart) -> Result<(), Memory>
    ensures { OnOk result (walk.new ≡ face_one part.now walk.old) }
{
    match part {
        FacePart::Decl(_) => Ok(()),
        FacePart::Procedure(inner) => code(walk, &inner.name, &inner.local),
    }
}

fn device_module<'a>(walk: &mut Walk<'a>, tree: &'a DeviceModule) -> Result<(), Memory>
    ensures { OnOk result (walk.new ≡ device_module tree.now walk.old) }
{
    let around = walk.enter_module(tree.name.place);
    device_block(walk, &tree.name, &tree.block)?;
    walk.leave(around);
    Ok(())
}

fn device_block<'a>(walk: &mut Walk<'a>, name: &'a Id, tree: &'a Device) -> Result<(), Memory>
    ensures { OnOk result (walk.new ≡ begun name.now tree.now.body (each device_one tree.now.parts walk.old)) }
{
    for part in tree.parts.as_slice() {
        device_part(walk, part)?;
    }
    begun(walk, name, &tree.body)
}

fn device_part<'a>(walk: &mut Walk<'a>, part: &'a DevicePart) -> Result<(), Memory>
    ensures { OnOk result (walk.new ≡ device_one part.now walk.old) }
{
    match part {
        DevicePart::Decl(_) => Ok(()),
        DevicePart::Procedure(inner) => code(walk, &inner.name, &inner.local),
        DevicePart::Driver(inner) => code(walk, &inner.name, &inner.local),
    }
}
