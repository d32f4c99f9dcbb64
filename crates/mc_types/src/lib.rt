// Types: the resolved program of a tree, or the first type fault.
#![tactic(auto)]

mod assembly;
mod calls;
mod constants;
mod declare;
mod declared;
mod declaring;
mod designators;
mod expressions;
mod fault;
mod first;
mod known;
mod lookup;
mod members;
mod names;
mod nodes;
mod operators;
mod parts;
mod placed;
mod rule;
mod running;
mod said;
mod scope;
mod statements;
mod texts;
mod types;
mod typing;
mod words;
mod written;

ghost use Rattle.std.specs.Prelude.{◌≡◌, IfOk, IfErr};
ghost use Rattle.mc_prog.specs.Resolved.{program_of};
ghost use Rattle.mc_types.specs.TypeRefusals.{HasNoTypeFault, IsRefused};

use crate::assembly::assembled;
use crate::declare::known;
use crate::first::first_of;
use crate::names::uses_of;
use crate::running::all_texts;
use crate::scope::{Scope, scope_of};
pub use fault::TypeFault;
use mc_pieces::text_pieces::texts;
use mc_pieces::tree_pieces::declarations;
use mc_prog::program::Program;
use mc_prog::scoped::Scoped;
use mc_tree::tree::Tree;
use std::alloc::Global;

/// The resolved program of a tree of so many tokens, whose names are used as `scoped` says.
///
/// # Errors
///
/// `Refused` has the first fault of types: that of the least place, and at one place that of the least number; `Y1` comes
/// only where no other type fault stands.
pub fn type_program(
    alloc: Global,
    tree: &Tree,
    scoped: &Scoped,
    tokens: u32,
) -> Result<Program, TypeFault>
    ensures ok { IfOk result (λ program. program ≡ program_of tree.now scoped.now tokens) }
    ensures without_fault { IfOk result (λ program. HasNoTypeFault tree.now scoped.now) }
    ensures refused { IfErr result (λ fault. IsRefused tree.now scoped.now fault) }
{
    let uses = uses_of(alloc, scoped.as_slice())?;
    let declared_pieces = declarations(alloc, tree)?;
    let scope = scope_of(alloc, &uses, declared_pieces.as_slice())?;
    let Scope {
        entities,
        declared,
        fault,
        ..
    } = scope;
    let text_pieces = texts(alloc, tree)?;
    let running = all_texts(
        alloc,
        known(&uses, &entities, &declared),
        declared.procedures(),
        text_pieces.as_slice(),
    )?;
    match first_of(fault, running.fault) {
        Some(fault) => Err(TypeFault::Refused(fault)),
        None => Ok(assembled(
            alloc,
            declared,
            running.texts,
            tokens,
            text_pieces.as_slice(),
        )?),
    }
}
