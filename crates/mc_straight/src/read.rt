// Finds the straight-line form in the tree of a source.

ghost use Rattle.std.specs.Prelude.{◌≡◌, ◌∷◌, ℕ, List, [], IfOk, MatchOption};
ghost use Rattle.mc_tree.specs.declared.place.Place.{Place};
ghost use Rattle.mc_tree.specs.declared.tree.Var.{Var};
ghost use Rattle.mc_straight.specs.Form.{Straight, Declares, IsStraight, IsStraightProgram};

use crate::form::StraightLine;
use crate::lists::{puts, variables};
use crate::names::are_own;
use crate::parts::priority_of;
use mc_tree::tree::{Decl, Device, DevicePart, DeviceProgram, Tree, Var};
use mc_word::bytes::Memory;
use std::alloc::Global;

/// The variables of a block whose one part is a `var` declaration.
fn declared(block: &Device) -> Option<(&Var, &[Var])>
    ensures { MatchOption result ((first : Var) (more : List Var) → Declares block.now first more → ⊥) (λ vars. Declares block.now vars.0.now vars.1.now) }
{
    if block.parts.len() != 1 {
        return None;
    }
    match block.parts.get(0)? {
        DevicePart::Decl(part) => match part {
            Decl::Var(_, first, more) => Some((first, more.as_slice())),
            _ => None,
        },
        _ => None,
    }
}

/// What a device module says, where it is of the straight-line form; none exactly where it is not.
fn device_line(alloc: Global, program: &DeviceProgram) -> Result<Option<StraightLine>, Memory>
    ensures { IfOk result (λ found. MatchOption found ((form : Straight) → IsStraightProgram program.now form → ⊥) (λ form. IsStraightProgram program.now form)) }
{
    let name = program.name.text.as_slice();
    let Some(priority) = priority_of(&program.bracket) else {
        return Ok(None);
    };
    let Some((first, more)) = declared(&program.block) else {
        return Ok(None);
    };
    let Some(begun) = &program.block.body else {
        return Ok(None);
    };
    if program.end_name.text.as_slice() != name {
        return Ok(None);
    }
    if !are_own(name, first, more) {
        return Ok(None);
    }
    let Some(variables) = variables(alloc, first, more)? else {
        return Ok(None);
    };
    let Some(puts) = puts(alloc, &begun.body, first, more, &variables)? else {
        return Ok(None);
    };
    Ok(Some(StraightLine {
        priority,
        variables,
        puts,
    }))
}

/// What a tree says, where it is of the straight-line form; none exactly where it is not.
///
/// # Errors
///
/// `Memory` alone.
pub fn straight_line(alloc: Global, tree: &Tree) -> Result<Option<StraightLine>, Memory>
    ensures { IfOk result (λ found. MatchOption found ((form : Straight) → IsStraight tree.now form → ⊥) (λ form. IsStraight tree.now form)) }
{
    match tree {
        Tree::Device(program) => device_line(alloc, program),
        Tree::Plain(_) => Ok(None),
    }
}
