// The declared names.

ghost use Rattle.std.specs.Prelude.{◌≡◌, ◌≢◌, ◌↔◌, ◌∷◌, ℕ, IsTrue, MatchOption, Some, map, slice_get};
ghost use Rattle.mc_straight.specs.Form.{is_standard, name_of, AreOwn, IsOwn};

use mc_tree::tree::Var;

/// The number of the first of these variables that has the name.
fn place_of(name: &[u8], vars: &[Var]) -> Option<usize>
    ensures { MatchOption result ((i : ℕ) → slice_get (map name_of vars.now) i ≢ Some name.now) (λ i. slice_get (map name_of vars.now) i ≡ Some name.now) }
{
    for (i, var) in vars.iter().enumerate() {
        if var.first.name.text.as_slice() == name {
            return Some(i);
        }
    }
    None
}

/// The number of the first of all variables that has the name.
pub fn number_of_name(name: &[u8], first: &Var, more: &[Var]) -> Option<usize>
    ensures { MatchOption result ((i : ℕ) → slice_get (map name_of (first.now ∷ more.now)) i ≢ Some name.now) (λ i. slice_get (map name_of (first.now ∷ more.now)) i ≡ Some name.now) }
{
    if first.first.name.text.as_slice() == name {
        return Some(0);
    }
    match place_of(name, more) {
        Some(i) => Some(i + 1),
        None => None,
    }
}

/// Whether a name is a standard one, which no source declares.
fn is_standard(name: &[u8]) -> bool
    ensures { result ≡ is_standard name.now }
{
    name == b"integer".as_slice()
        || name == b"Boolean".as_slice()
        || name == b"char".as_slice()
        || name == b"bits".as_slice()
        || name == b"signal".as_slice()
        || name == b"true".as_slice()
        || name == b"false".as_slice()
        || name == b"wait".as_slice()
        || name == b"send".as_slice()
        || name == b"awaited".as_slice()
        || name == b"doio".as_slice()
}

/// Whether a name is none of these variables' and no standard one.
fn is_own(name: &[u8], vars: &[Var]) -> bool
    ensures { IsTrue result ↔ IsOwn name.now (map name_of vars.now) }
{
    place_of(name, vars).is_none() && !is_standard(name)
}

/// Whether the variables have names of their own.
fn have_own(vars: &[Var]) -> bool
    ensures { IsTrue result ↔ AreOwn (map name_of vars.now) }
{
    for (i, var) in vars.iter().enumerate() {
        if !is_own(var.first.name.text.as_slice(), &vars[i + 1..]) {
            return false;
        }
    }
    true
}

/// Whether a name is none of all variables' and no standard one.
fn is_own_module(name: &[u8], first: &Var, more: &[Var]) -> bool
    ensures { IsTrue result ↔ IsOwn name.now (map name_of (first.now ∷ more.now)) }
{
    number_of_name(name, first, more).is_none() && !is_standard(name)
}

/// Whether the module and its variables have names of their own.
pub fn are_own(name: &[u8], first: &Var, more: &[Var]) -> bool
    ensures { IsTrue result ↔ AreOwn (name.now ∷ map name_of (first.now ∷ more.now)) }
{
    is_own_module(name, first, more)
        && is_own(first.first.name.text.as_slice(), more)
        && have_own(more)
}
