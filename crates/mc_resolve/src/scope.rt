// The scopes that are open at a place, the innermost last.

ghost use Rattle.std.specs.Prelude.{◌≡◌, List, map};
ghost use Rattle.mc_prog.specs.Scopes.{home as home_of, innermost as innermost_of, outer};
ghost use Rattle.mc_resolve.specs.Around.{around};

use crate::item::ScopeKind;

/// An open scope.
#[derive(Clone, Copy, PartialEq, Eq, Debug)]
pub struct Scope {
    pub kind: ScopeKind,
    /// How many items stand before the one that opens it.
    pub number: usize,
}

/// The innermost scope.
pub fn innermost(scopes: &[Scope]) -> Option<usize>
    ensures { result ≡ innermost_of (around scopes.now) }
{
    match scopes.split_last() {
        Some((scope, _)) => Some(scope.number),
        None => None,
    }
}

/// The scope around the innermost one.
pub fn second(scopes: &[Scope]) -> Option<usize>
    ensures { result ≡ innermost_of (outer (around scopes.now)) }
{
    match scopes.split_last() {
        Some((_, further)) => innermost(further),
        None => None,
    }
}

/// The scope that declares: the innermost one but for records.
pub fn home(scopes: &[Scope]) -> Option<usize>
    ensures { result ≡ home_of (around scopes.now) }
{
    match scopes.split_last() {
        Some((scope, further)) => match scope.kind {
            ScopeKind::Record => home(further),
            ScopeKind::Block | ScopeKind::Code => Some(scope.number),
        },
        None => None,
    }
}
