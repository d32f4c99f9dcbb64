// What every walk through the tree shares: a note goes behind those so far.

ghost use Rattle.std.specs.Prelude.{◌∷◌, OnOk};
ghost use Rattle.mc_prog.specs.Notes.{one, ids};
ghost use Rattle.mc_resolve.specs.Items.{item_of};
ghost use Rattle.mc_resolve.specs.Adds.{Adds};
ghost use Rattle.mc_resolve.specs.Naming.{naming_of};

use crate::item::{Item, Note};
use mc_tree::tree::{Id, Ids};
use mc_word::bytes::Memory;

/// What each name of a list does.
#[derive(Clone, Copy, PartialEq, Eq, Debug)]
pub enum Naming {
    Declares,
    Field,
    Knows,
    Lists,
    Defines,
}

/// One more note.
pub fn put<'a>(out: &mut Vec<Item<'a>>, note: Note<'a>) -> Result<(), Memory>
    ensures { OnOk result (Adds out.old.items out.new.items (λ rest. item_of note.entry ∷ rest)) }
{
    out.push(Item { note })?;
    Ok(())
}

// One more note, of this name.
fn name<'a>(out: &mut Vec<Item<'a>>, naming: Naming, id: &'a Id) -> Result<(), Memory>
    ensures { OnOk result (Adds out.old.items out.new.items (one (naming_of naming) id.now)) }
{
    let note = match naming {
        Naming::Declares => Note::Declares(id),
        Naming::Field => Note::Field(id),
        Naming::Knows => Note::Knows(id),
        Naming::Lists => Note::Lists(id),
        Naming::Defines => Note::Defines(id),
    };
    put(out, note)
}

/// A note of each name of a list, in their order.
pub fn ids<'a>(out: &mut Vec<Item<'a>>, naming: Naming, list: &'a Ids) -> Result<(), Memory>
    ensures { OnOk result (Adds out.old.items out.new.items (ids (naming_of naming) list.now)) }
{
    name(out, naming, &list.first)?;
    for more in list.more.as_slice() {
        name(out, naming, &more.item)?;
    }
    Ok(())
}
