// Images that are saved.

use crate::calls::{Call, shelf_of};
use crate::expected::{Expected, Printed, compared, compared_on};
use crate::rows::{Row, message, mismatch};
use crate::sources::{PRINTS_A, shelf_files};
use mc_shelf::mem::MemShelf;
use mc_word::bytes::Memory;
use std::alloc::Global;
use std::test::Fail;

/// The number of a call that fails while `PRINTS_A` is compiled, the status, what is printed and asked, and how many
/// bytes the image has, where it is there.
#[derive(Debug)]
struct SavingRow(u64, u8, &'static str, &'static str, Option<usize>);

impl Row for SavingRow {
    fn difference(&self, alloc: Global) -> Result<Option<String>, Memory> {
        let SavingRow(failing, status, printed, asked, saved) = self;
        let call = Call {
            command: "compile a i",
            files: &shelf_files(PRINTS_A.as_bytes(), b"limit 9"),
            failing: &[*failing],
        };
        let expected = Expected {
            status: *status,
            printed: Printed::Text(printed),
            asked,
            saved: *saved,
        };
        compared(alloc, &call, &expected)
    }
}

/// A block of the word at 50 octal has 9 bytes, one of 13 words of code has 33, and the start block has 7. The calls are
/// a load, a save and a print.
const SAVES: &[SavingRow] = &[
    SavingRow(0, 0, "image 49\n", "load a, save i", Some(49)),
    SavingRow(1, 11, "", "load a", None),
    SavingRow(2, 11, "", "load a, save i", None),
    SavingRow(3, 11, "imag", "load a, save i", Some(49)),
];

#[test]
fn saves_images(rt: HostRuntime) -> Result<(), Fail> {
    let mismatch = mismatch(rt.alloc(), SAVES)?;
    assert!(rt; mismatch.is_none(), "{}", message(&mismatch));
    Ok(())
}

/// A command with its status, and what all commands up to it printed and asked on their one shelf.
type TurnRow = (&'static str, u8, &'static str, &'static str);

/// A source is compiled, its image runs, and the source runs.
const TURNS: &[TurnRow] = &[
    ("compile a i", 0, "image 49\n", "load a, save i"),
    // As a foreign image it is silent where the program is at its end.
    (
        "exec i b",
        8,
        "image 49\nprint 101\ninstructions 5\nsilent\n",
        "load a, save i, load i, load b",
    ),
    (
        "run a b",
        0,
        "image 49\nprint 101\ninstructions 5\nsilent\nprint 101\ninstructions 5\nend\n",
        "load a, save i, load i, load b, load a, load b",
    ),
];

/// The script of these commands.
const TURN_SCRIPT: &[u8] = b"limit 100000";

/// What is expected and what is found at the first command that is answered otherwise.
fn turns_mismatch(alloc: Global, shelf: &mut MemShelf) -> Result<Option<String>, Memory> {
    for (command, status, printed, asked) in TURNS {
        let call = Call {
            command,
            files: &shelf_files(PRINTS_A.as_bytes(), TURN_SCRIPT),
            failing: &[],
        };
        let expected = Expected {
            status: *status,
            printed: Printed::Text(printed),
            asked,
            saved: Some(49),
        };
        let mismatch = compared_on(alloc, &call, shelf, &expected)?;
        if mismatch.is_some() {
            return Ok(mismatch);
        }
    }
    Ok(None)
}

/// The same on a shelf of its own.
fn own_turns_mismatch(alloc: Global) -> Result<Option<String>, Memory> {
    let files = shelf_files(PRINTS_A.as_bytes(), TURN_SCRIPT);
    match shelf_of(alloc, &files, &[]) {
        Ok(mut shelf) => turns_mismatch(alloc, &mut shelf),
        Err(memory) => Err(memory),
    }
}

#[test]
fn runs_an_image_that_was_saved(rt: HostRuntime) -> Result<(), Fail> {
    let mismatch = own_turns_mismatch(rt.alloc())?;
    assert!(rt; mismatch.is_none(), "{}", message(&mismatch));
    Ok(())
}
