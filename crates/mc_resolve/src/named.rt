// What an item declares, what is a scope's own by it, and what it makes known.

ghost use Rattle.std.specs.Prelude.{◌≡◌, option_map};
ghost use Rattle.mc_prog.specs.Scopes.{named_in, declared_by as declared_by_item, own_by as own_by_item, known_by as known_by_item};
ghost use Rattle.mc_resolve.specs.Around.{around};
ghost use Rattle.mc_resolve.specs.Items.{item_of};
ghost use Rattle.mc_resolve.specs.Views.{named_of};

use crate::item::Note;
use crate::scope::{Scope, home, innermost, second};
use mc_tree::tree::Id;

/// A name in a scope.
#[derive(Clone, Copy)]
pub struct Named<'a> {
    pub scope: usize,
    pub name: &'a Id,
}

// The name in that scope, where there is one.
fn named_at<'a>(scope: Option<usize>, name: &'a Id) -> Option<Named<'a>>
    ensures { option_map named_of result ≡ named_in scope name.now }
{
    match scope {
        Some(scope) => Some(Named { scope, name }),
        None => None,
    }
}

/// What counts as declared by the item, and where.
pub fn declared_by<'a>(note: &Note<'a>, scopes: &[Scope]) -> Option<Named<'a>>
    ensures { option_map named_of result ≡ declared_by_item (item_of note.now) (around scopes.now) }
{
    match note {
        Note::Declares(name) => named_at(home(scopes), name),
        Note::Field(name) | Note::Lists(name) => named_at(innermost(scopes), name),
        Note::Defines(name) => named_at(second(scopes), name),
        _ => None,
    }
}

/// What the item declares in a scope itself.
pub fn own_by<'a>(note: &Note<'a>, scopes: &[Scope]) -> Option<Named<'a>>
    ensures { option_map named_of result ≡ own_by_item (item_of note.now) (around scopes.now) }
{
    match note {
        Note::Declares(name) => named_at(home(scopes), name),
        _ => None,
    }
}

/// What comes to be known by the item, if it does, and where.
pub fn known_by<'a>(note: &Note<'a>, scopes: &[Scope]) -> Option<Named<'a>>
    ensures { option_map named_of result ≡ known_by_item (item_of note.now) (around scopes.now) }
{
    match note {
        Note::Knows(name) => named_at(home(scopes), name),
        Note::Lists(name) => named_at(innermost(scopes), name),
        Note::Defines(name) => named_at(second(scopes), name),
        _ => None,
    }
}
