// Tables: rows that are looked at one by one.

use crate::calls::Call;
use crate::expected::{Expected, Printed, compared};
use crate::sources::shelf_files;
use mc_word::bytes::Memory;
use std::alloc::Global;
use std::fmt::Debug;

/// A row of a table.
pub trait Row: Debug {
    /// What is expected and what is found, where the row does not hold.
    fn difference(&self, alloc: Global) -> Result<Option<String>, Memory>;
}

/// What is found, with its row.
fn located<R: Row>(alloc: Global, row: &R, found: &str) -> Result<String, Memory> {
    format!(in alloc; "{found}, at {row:?}").map_err(|_| Memory)
}

/// What is expected and what is found at the first row that does not hold.
pub fn mismatch<R: Row>(alloc: Global, rows: &[R]) -> Result<Option<String>, Memory> {
    for row in rows {
        if let Some(found) = row.difference(alloc)? {
            return located(alloc, row, found.as_str()).map(Some);
        }
    }
    Ok(None)
}

/// The text of a mismatch.
pub fn message(mismatch: &Option<String>) -> &str {
    match mismatch {
        Some(text) => text.as_str(),
        None => "",
    }
}

/// A source and a script, the status that `run` answers, and what it prints.
#[derive(Debug)]
pub struct RunRow<'a>(pub &'a str, pub &'a str, pub u8, pub &'a str);

impl Row for RunRow<'_> {
    fn difference(&self, alloc: Global) -> Result<Option<String>, Memory> {
        let RunRow(source, script, status, printed) = self;
        let call = Call {
            command: "run a b",
            files: &shelf_files(source.as_bytes(), script.as_bytes()),
            failing: &[],
        };
        let expected = Expected {
            status: *status,
            printed: Printed::Text(printed),
            asked: "load a, load b",
            saved: None,
        };
        compared(alloc, &call, &expected)
    }
}

/// What is expected of a command over the source `a`, with an empty script `b`, and what is found, where they differ.
/// Nothing is saved.
pub fn read_difference(
    alloc: Global,
    command: &str,
    source: &str,
    status: u8,
    line: &str,
) -> Result<Option<String>, Memory> {
    let call = Call {
        command,
        files: &shelf_files(source.as_bytes(), b""),
        failing: &[],
    };
    let expected = Expected {
        status,
        printed: Printed::Text(line),
        asked: if command == "run a b" {
            "load a, load b"
        } else {
            "load a"
        },
        saved: None,
    };
    compared(alloc, &call, &expected)
}
