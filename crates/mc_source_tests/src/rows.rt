// Tables of sources: a line for each, with what a stage finds, a colon, a space and the source.

use crate::stages::{fault_of, faultless, program_of};
use mc_tree::fault::Fault;
use mc_word::bytes::Memory;
use std::alloc::Global;

/// The last stage that looks at a source.
#[derive(Clone, Copy, PartialEq, Eq, Debug)]
pub enum Stage {
    Types,
    Rules,
}

/// The first fault of a source in the stages up to this one.
fn first_fault(alloc: Global, stage: Stage, source: &str) -> Result<Option<Fault>, Memory> {
    match stage {
        Stage::Types => fault_of(program_of(alloc, source.as_bytes())),
        Stage::Rules => fault_of(faultless(alloc, source.as_bytes())),
    }
}

/// A fault, as the tables say it: its code and its column, or `ok` where there is none.
fn word(alloc: Global, fault: Option<Fault>) -> Result<String, Memory> {
    let text = match fault {
        None => format!(in alloc; "ok"),
        Some(fault) => format!(in alloc; "{:?} {}", fault.code, fault.place.column),
    };
    text.map_err(|_| Memory)
}

/// The first line of a table that does not hold, with what is found.
pub fn mismatch(alloc: Global, stage: Stage, table: &str) -> Result<Option<String>, Memory> {
    for line in table.lines() {
        let (expected, source) = line.split_once(": ").unwrap_or(("no row", line));
        let found = word(alloc, first_fault(alloc, stage, source)?)?;
        if found.as_str() != expected {
            return format!(in alloc; "{line}, found {found}")
                .map(Some)
                .map_err(|_| Memory);
        }
    }
    Ok(None)
}
