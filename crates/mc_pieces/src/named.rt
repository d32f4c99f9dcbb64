// Lists of names that say the same.

ghost use Rattle.std.specs.Prelude.{◌≡◌, OnOk};
ghost use Rattle.mc_prog.specs.Pieces.{each_name, named};
ghost use Rattle.mc_pieces.specs.Naming.{naming_of};

use crate::piece::{Construct, Passing};
use crate::walk::Walk;
use mc_tree::tree::{Id, Ids};
use mc_word::bytes::Memory;

/// What each name of a list is.
#[derive(Clone, Copy, PartialEq, Eq, Debug)]
pub enum Naming {
    EnumerationValue,
    Parameter(Passing),
}

// A piece of this name, which has the parts so far.
fn name<'a>(walk: &mut Walk<'a>, naming: Naming, id: &'a Id) -> Result<(), Memory>
    ensures { OnOk result (walk.new ≡ named (naming_of naming) id.now walk.old) }
{
    let so_far = walk.so_far()?;
    match naming {
        Naming::EnumerationValue => {
            walk.beside(so_far, id.place, Construct::EnumerationValue(id))
        }
        Naming::Parameter(passing) => {
            walk.beside(so_far, id.place, Construct::Parameter(passing, id))
        }
    }
}

/// A piece of each name of a list, in their order. Each has the parts so far.
pub fn names<'a>(walk: &mut Walk<'a>, naming: Naming, list: &'a Ids) -> Result<(), Memory>
    ensures { OnOk result (walk.new ≡ each_name (naming_of naming) list.now walk.old) }
{
    name(walk, naming, &list.first)?;
    for more in list.more.as_slice() {
        name(walk, naming, &more.item)?;
    }
    Ok(())
}
