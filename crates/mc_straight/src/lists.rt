// The lists of the straight-line form: its variables and its statements.

ghost use Rattle.std.specs.Prelude.{◌≡◌, ◌+◌, ◌∷◌, List, IfOk, MatchOption, length};
ghost use Rattle.mc_tree.specs.declared.statement.Statement.TheViews.{out-Body};
ghost use Rattle.pdp_dev.specs.declared.entry.Port.{Port};
ghost use Rattle.mc_straight.specs.declared.form.Put.{Put};
ghost use Rattle.mc_straight.specs.Form.{statements_of, ArePaired, IsPut, IsVariable};

use crate::form::Put;
use crate::parts::{port, put};
use mc_tree::statement::Body;
use mc_tree::tree::Var;
use mc_word::bytes::Memory;
use pdp_dev::entry::Port;
use std::alloc::Global;

/// The registers of the variables.
pub fn variables(alloc: Global, first: &Var, more: &[Var]) -> Result<Option<Vec<Port>>, Memory>
    ensures { IfOk result (λ found. MatchOption found ((ports : List Port) → ArePaired IsVariable (first.now ∷ more.now) ports → ⊥) (λ ports. ArePaired IsVariable (first.now ∷ more.now) ports.items)) }
{
    let mut ports = Vec::new(alloc);
    match port(first) {
        Some(port) => ports.push(port)?,
        None => return Ok(None),
    }
    for var in more {
        match port(var) {
            Some(port) => ports.push(port)?,
            None => return Ok(None),
        }
    }
    Ok(Some(ports))
}

/// What the statements of a body assign.
pub fn puts(
    alloc: Global,
    body: &Body,
    first: &Var,
    more: &[Var],
    variables: &[Port],
) -> Result<Option<Vec<Put>>, Memory>
    requires { length variables.now ≡ length more.now + 1 }
    ensures { IfOk result (λ found. MatchOption found ((puts : List Put) → ArePaired (IsPut (first.now ∷ more.now) variables.now) (statements_of body.now) puts → ⊥) (λ puts. ArePaired (IsPut (first.now ∷ more.now) variables.now) (statements_of body.now) puts.items)) }
{
    let mut puts = Vec::new(alloc);
    match put(body.first.get(), first, more, variables) {
        Some(put) => puts.push(put)?,
        None => return Ok(None),
    }
    for statement in body.more.as_slice() {
        match put(&statement.item, first, more, variables) {
            Some(put) => puts.push(put)?,
            None => return Ok(None),
        }
    }
    Ok(Some(puts))
}
