// The parts of the straight-line form: the priority, a variable and a statement.

ghost use Rattle.std.specs.Prelude.{◌≡◌, ◌≢◌, ◌+◌, ◌∷◌, ℕ, Some, MatchOption, length};
ghost use Rattle.pdp_dev.specs.declared.entry.Port.{Port};
ghost use Rattle.mc_straight.specs.declared.form.Put.{Put};
ghost use Rattle.mc_straight.specs.Form.{address_of, HasAddress, IsPriority, IsPut, IsVariable};

use crate::alone::{assigned, is_char, number_of};
use crate::form::Put;
use crate::names::number_of_name;
use mc_tree::statement::Statement;
use mc_tree::tree::{Bracket, Var, VarId};
use mc_word::Word;
use pdp_dev::entry::Port;

/// The priority that the bracket names, 4 to 7.
pub fn priority_of(bracket: &Bracket) -> Option<Word>
    ensures { MatchOption result ((priority : ℕ) → IsPriority bracket.now priority → ⊥) (λ priority. IsPriority bracket.now priority) }
{
    let priority = number_of(&bracket.value)?;
    if (4..=7).contains(&priority) {
        Some(priority)
    } else {
        None
    }
}

/// The register at an address.
fn port_of(address: Word) -> Option<Port>
    ensures { MatchOption result ((port : Port) → address_of port ≢ address) (λ port. address_of port ≡ address) }
{
    match address {
        0o177566 => Some(Port::Printer),
        0o177556 => Some(Port::Punch),
        _ => None,
    }
}

/// The address of a variable's name.
fn address_of(id: &VarId) -> Option<Word>
    ensures { MatchOption result ((address : ℕ) → HasAddress id.now address → ⊥) (λ address. HasAddress id.now address) }
{
    match &id.address {
        Some(bracket) => number_of(&bracket.value),
        None => None,
    }
}

/// The register of the variable.
pub fn port(var: &Var) -> Option<Port>
    ensures { MatchOption result ((port : Port) → IsVariable var.now port → ⊥) (λ port. IsVariable var.now port) }
{
    let port = port_of(address_of(&var.first)?)?;
    if var.more.is_empty() && is_char(&var.of) {
        Some(port)
    } else {
        None
    }
}

/// What the statement assigns.
pub fn put(statement: &Statement, first: &Var, more: &[Var], variables: &[Port]) -> Option<Put>
    requires { length variables.now ≡ length more.now + 1 }
    ensures { MatchOption result ((put : Put) → IsPut (first.now ∷ more.now) variables.now statement.now put → ⊥) (λ put. IsPut (first.now ∷ more.now) variables.now statement.now put) }
{
    let (name, byte) = assigned(statement)?;
    let variable = number_of_name(name.text.as_slice(), first, more)?;
    let port = variables[variable];
    Some(Put {
        variable,
        port,
        byte,
    })
}
