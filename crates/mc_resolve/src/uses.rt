// The uses of names, and the scopes that open and close.

ghost use Rattle.std.specs.Prelude.{◌≡◌, ◌++◌, IfOk};
ghost use Rattle.mc_prog.specs.Scopes.{outer, scopes_behind};
ghost use Rattle.mc_resolve.specs.Around.{around};
ghost use Rattle.mc_resolve.specs.Items.{item_of};
ghost use Rattle.mc_resolve.specs.Uses.{naming_of};

use crate::item::Note;
use crate::scope::Scope;
use crate::search::near;
use crate::table::{NOWHERE, Table};
use mc_prog::scoped::Naming;
use mc_word::bytes::Memory;

/// Adds the use of a name, where the item is one.
pub fn add_use<'a>(
    names: &mut Vec<Naming>,
    known: &Table<'a>,
    scopes: &[Scope],
    note: &Note<'a>,
) -> Result<(), Memory>
    ensures { IfOk result (λ u. names.new.items ≡ names.old.items ++ naming_of known.now.places (around scopes.now) (item_of note.now)) }
{
    if let Note::Uses(name) = note {
        let declared = near(known, scopes, name.text.as_slice()).unwrap_or(NOWHERE);
        names.push(Naming {
            at: name.place,
            declared,
        })?;
    }
    Ok(())
}

// Closes the innermost scope, where one is open.
fn close(scopes: &mut Vec<Scope>)
    ensures { around scopes.new.items ≡ outer (around scopes.old.items) }
{
    if scopes.as_slice().is_empty() {
        return;
    }
    scopes.pop();
}

/// Opens or closes a scope, where the item does. So many items stand before it.
pub fn enter(scopes: &mut Vec<Scope>, number: usize, note: &Note) -> Result<(), Memory>
    ensures { IfOk result (λ u. around scopes.new.items ≡ scopes_behind number (item_of note.now) (around scopes.old.items)) }
{
    match note {
        Note::Opens(kind) => scopes.push(Scope {
            kind: *kind,
            number,
        })?,
        Note::Closes => close(scopes),
        _ => {}
    }
    Ok(())
}
