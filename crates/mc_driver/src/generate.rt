// The command `generate`.

ghost use Rattle.std.specs.Prelude.{[], None};
ghost use Rattle.mc_report.specs.Ring.{ring_text};
ghost use Rattle.mc_driver.specs.Outside.{EndsSaving};
ghost use Rattle.mc_driver.specs.Refusal.{IsLine};
ghost use Rattle.mc_driver.specs.Stages.{AsksNothing, SavesNothing};

use crate::files::say;
use crate::status::{DONE, NO_MEMORY};
use mc_report::ring::ring_source;
use mc_shelf::shelf::Shelf;
use std::alloc::Global;

/// The command `generate`.
pub fn generate<S: Shelf>(alloc: Global, members: u8, shelf: &mut S) -> u8
    ensures { EndsSaving (S.seen shelf.old) [] None (SavesNothing (λ files. AsksNothing (IsLine 0 (ring_text members)))) result (S.seen shelf.new) }
{
    match ring_source(alloc, members) {
        Ok(text) => say(shelf, text.as_slice(), DONE),
        Err(_) => NO_MEMORY,
    }
}
