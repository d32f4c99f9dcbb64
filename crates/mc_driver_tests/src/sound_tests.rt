// The shelf that never fails.

use crate::calls::{Answered, asks_of, files_of, status_of};
use crate::expected::{Expected, Printed, judged};
use crate::rows::message;
use crate::sources::{PRINTED_A, PRINTS_A};
use mc_shelf::sound::SoundShelf;
use mc_word::bytes::Memory;
use std::alloc::Global;
use std::test::Fail;

/// What `run a b` answers on a sound shelf.
fn answered_on_sound(alloc: Global, shelf: &mut SoundShelf) -> Result<Answered, Memory> {
    let status = status_of(alloc, "run a b", shelf)?;
    Ok(Answered {
        status,
        printed: Vec::from_slice(alloc, shelf.printed())?,
        asked: asks_of(alloc, shelf.asked())?,
        saved: shelf.file("i").map(|bytes| bytes.len()),
        kept: shelf
            .file("a")
            .is_some_and(|now| now == PRINTS_A.as_bytes()),
    })
}

/// What is expected of `run a b` on a sound shelf and what is found, where they differ.
fn difference_on_sound(alloc: Global, shelf: &mut SoundShelf) -> Result<Option<String>, Memory> {
    let expected = Expected {
        status: 0,
        printed: Printed::Text(PRINTED_A),
        asked: "load a, load b",
        saved: None,
    };
    match answered_on_sound(alloc, shelf) {
        Ok(found) => judged(alloc, "run a b", &expected, &found),
        Err(memory) => Err(memory),
    }
}

/// The same on a sound shelf with a file `a` alone.
fn difference_without_script(alloc: Global) -> Result<Option<String>, Memory> {
    let only_a = files_of(alloc, &[("a", PRINTS_A.as_bytes())])?;
    let mut shelf = SoundShelf::new(alloc, only_a);
    difference_on_sound(alloc, &mut shelf)
}

#[test]
fn a_sound_shelf_has_an_empty_script(rt: HostRuntime) -> Result<(), Fail> {
    let difference = difference_without_script(rt.alloc())?;
    assert!(rt; difference.is_none(), "{}", message(&difference));
    Ok(())
}
