// The pieces of all declarations of a tree.
#![tactic(auto, using(crate::proofs::TreeLaws::tree_laws, std::proofs::lemmas::Grind::common_steps))]

ghost use Rattle.std.specs.Prelude.{◌≡◌, IfOk, OnOk};
ghost use Rattle.mc_prog.specs.Pieces.{each, nothing, DeviceModule as DeviceSort};
ghost use Rattle.mc_prog.specs.DeclarationPieces.{bracket};
ghost use Rattle.mc_prog.specs.TreePieces.{declarations_of, device_module, device_one, face_one, interface_module, module_, opening, plain, plain_module, plain_part, program};
ghost use Rattle.mc_pieces.specs.Constructs.{module_sort_of};

use crate::declaration::{bracket, declaration, driver, procedure, process};
use crate::piece::{Construct, ModuleSort, Piece};
use crate::walk::Walk;
use mc_tree::tree::{
    Bracket, Device, DeviceModule, DevicePart, Face, FacePart, Id, InterfaceModule, Module, Plain,
    PlainModule, PlainPart, Tree,
};
use mc_word::bytes::Memory;
use std::alloc::Global;

/// The pieces of what a tree declares, in the order of the text. A module stands before what is declared in it.
pub fn declarations<'a>(alloc: Global, tree: &'a Tree) -> Result<Vec<Piece<'a>>, Memory>
    ensures { IfOk result (λ pieces. pieces.items ≡ declarations_of tree.now) }
{
    let mut walk = Walk::new(alloc, tree);
    program(&mut walk, tree)?;
    Ok(walk.into_pieces())
}

fn program<'a>(walk: &mut Walk<'a>, tree: &'a Tree) -> Result<(), Memory>
    ensures { OnOk result (walk.new ≡ program tree.now walk.old) }
{
    match tree {
        Tree::Plain(inner) => {
            open(walk, ModuleSort::Plain, &inner.name)?;
            plain(walk, &inner.block)
        }
        Tree::Device(inner) => {
            open_device(walk, &inner.name, &inner.bracket)?;
            device_block(walk, &inner.block)
        }
    }
}

// A module without a priority.
fn open<'a>(walk: &mut Walk<'a>, sort: ModuleSort, name: &'a Id) -> Result<(), Memory>
    ensures { OnOk result (walk.new ≡ opening (module_sort_of sort) name.now nothing walk.old) }
{
    walk.alone(name.place, Construct::Module(sort, name))
}

// A device module, which has a priority.
fn open_device<'a>(walk: &mut Walk<'a>, name: &'a Id, priority: &'a Bracket) -> Result<(), Memory>
    ensures { OnOk result (walk.new ≡ opening DeviceSort name.now (bracket priority.now) walk.old) }
{
    let outer = walk.begin();
    bracket(walk, priority)?;
    walk.apart(
        outer,
        Some(name.place),
        Construct::Module(ModuleSort::Device, name),
    )
}

#[cycle(module)]
fn module_<'a>(walk: &mut Walk<'a>, tree: &'a Module) -> Result<(), Memory>
    ensures { OnOk result (walk.new ≡ module_ tree.now walk.old) }
{
    match tree {
        Module::Plain(inner) => plain_module(walk, inner),
        Module::Interface(inner) => interface_module(walk, inner),
        Module::Device(inner) => device_module(walk, inner),
    }
}

// A module is declared in the block around it.
#[cycle(module)]
fn plain_module<'a>(walk: &mut Walk<'a>, tree: &'a PlainModule) -> Result<(), Memory>
    ensures { OnOk result (walk.new ≡ plain_module tree.now walk.old) }
{
    open(walk, ModuleSort::Plain, &tree.name)?;
    let around = walk.enter_module(tree.name.place);
    plain(walk, &tree.block)?;
    walk.leave(around);
    Ok(())
}

#[cycle(module)]
fn plain<'a>(walk: &mut Walk<'a>, tree: &'a Plain) -> Result<(), Memory>
    ensures { OnOk result (walk.new ≡ plain tree.now walk.old) }
{
    for part in tree.parts.as_slice() {
        plain_part(walk, part)?;
    }
    Ok(())
}

#[cycle(module)]
fn plain_part<'a>(walk: &mut Walk<'a>, part: &'a PlainPart) -> Result<(), Memory>
    ensures { OnOk result (walk.new ≡ plain_part part.now walk.old) }
{
    match part {
        PlainPart::Decl(inner) => declaration(walk, inner),
        PlainPart::Procedure(inner) => procedure(walk, inner),
        PlainPart::Process(inner) => process(walk, inner),
        PlainPart::Module(inner) => module_(walk, inner),
    }
}

fn interface_module<'a>(walk: &mut Walk<'a>, tree: &'a InterfaceModule) -> Result<(), Memory>
    ensures { OnOk result (walk.new ≡ interface_module tree.now walk.old) }
{
    open(walk, ModuleSort::Interface, &tree.name)?;
    let around = walk.enter_module(tree.name.place);
    face_block(walk, &tree.block)?;
    walk.leave(around);
    Ok(())
}

fn face_block<'a>(walk: &mut Walk<'a>, tree: &'a Face) -> Result<(), Memory>
    ensures { OnOk result (walk.new ≡ each face_one tree.now.parts walk.old) }
{
    for part in tree.parts.as_slice() {
        face_part(walk, part)?;
    }
    Ok(())
}

fn face_part<'a>(walk: &mut Walk<'a>, part: &'a FacePart) -> Result<(), Memory>
    ensures { OnOk result (walk.new ≡ face_one part.now walk.old) }
{
    match part {
        FacePart::Decl(inner) => declaration(walk, inner),
        FacePart::Procedure(inner) => procedure(walk, inner),
    }
}

fn device_module<'a>(walk: &mut Walk<'a>, tree: &'a DeviceModule) -> Result<(), Memory>
    ensures { OnOk result (walk.new ≡ device_module tree.now walk.old) }
{
    open_device(walk, &tree.name, &tree.bracket)?;
    let around = walk.enter_module(tree.name.place);
    device_block(walk, &tree.block)?;
    walk.leave(around);
    Ok(())
}

fn device_block<'a>(walk: &mut Walk<'a>, tree: &'a Device) -> Result<(), Memory>
    ensures { OnOk result (walk.new ≡ each device_one tree.now.parts walk.old) }
{
    for part in tree.parts.as_slice() {
        device_part(walk, part)?;
    }
    Ok(())
}

fn device_part<'a>(walk: &mut Walk<'a>, part: &'a DevicePart) -> Result<(), Memory>
    ensures { OnOk result (walk.new ≡ device_one part.now walk.old) }
{
    match part {
        DevicePart::Decl(inner) => declaration(walk, inner),
        DevicePart::Procedure(inner) => procedure(walk, inner),
        DevicePart::Driver(inner) => driver(walk, inner),
    }
}
