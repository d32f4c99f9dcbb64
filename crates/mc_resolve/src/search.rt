// Seeking a name in the scopes around a place, from the innermost out.

ghost use Rattle.std.specs.Prelude.{◌≡◌, is_some};
ghost use Rattle.mc_prog.specs.Scopes.{near as near_of, far as far_of, numbers};
ghost use Rattle.mc_resolve.specs.Around.{around};
ghost use Rattle.mc_resolve.specs.Table.{first_found};

use crate::item::ScopeKind;
use crate::scope::Scope;
use crate::table::Table;
use mc_tree::place::Place;

/// The place that the name has in the first of the scopes that know it, up to the module around.
pub fn near<'a>(known: &Table<'a>, scopes: &[Scope], name: &'a [u8]) -> Option<Place>
    ensures { result ≡ first_found known.now.places (near_of (around scopes.now)) name.now }
{
    let Some((scope, further)) = scopes.split_last() else {
        return None;
    };
    match known.find(scope.number, name) {
        Some(place) => Some(place),
        None => match scope.kind {
            ScopeKind::Block => None,
            ScopeKind::Code | ScopeKind::Record => near(known, further, name),
        },
    }
}

// The place that the name has in the first of these scopes that know it.
fn anywhere<'a>(known: &Table<'a>, scopes: &[Scope], name: &'a [u8]) -> Option<Place>
    ensures { result ≡ first_found known.now.places (numbers (around scopes.now)) name.now }
{
    let Some((scope, further)) = scopes.split_last() else {
        return None;
    };
    match known.find(scope.number, name) {
        Some(place) => Some(place),
        None => anywhere(known, further, name),
    }
}

/// The place that the name has in the first block that knows it, further out than the module around.
pub fn far<'a>(known: &Table<'a>, scopes: &[Scope], name: &'a [u8]) -> Option<Place>
    ensures { result ≡ first_found known.now.places (far_of (around scopes.now)) name.now }
{
    let Some((scope, further)) = scopes.split_last() else {
        return None;
    };
    match scope.kind {
        ScopeKind::Block => anywhere(known, further, name),
        ScopeKind::Code | ScopeKind::Record => far(known, further, name),
    }
}
