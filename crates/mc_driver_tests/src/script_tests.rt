// Sources under scripts.

use crate::calls::Call;
use crate::expected::{Expected, Printed, compared};
use crate::rows::{RunRow, message, mismatch};
use crate::sources::{PRINTED_A, PRINTS_A, PRINTS_A_B, PUNCHES_A, shelf_files};
use mc_word::bytes::Memory;
use std::alloc::Global;
use std::test::Fail;

/// The instructions of a program are one for the priority, one for each statement, and three behind them: for the
/// priority again, for the number of processes, and a wait.
const RUNS: &[RunRow] = &[
    RunRow(PRINTS_A, "limit 100000", 0, PRINTED_A),
    RunRow(PRINTS_A, "limit 100000\n", 0, PRINTED_A),
    RunRow(PRINTS_A, "limit 20000000", 0, PRINTED_A),
    RunRow(PRINTS_A, "", 0, "print 101\ninstructions 5\nend\n"),
    RunRow(PRINTS_A, "limit 1", 7, "instructions 1\nlimit\n"),
    RunRow(
        PRINTS_A_B,
        "limit 100000",
        0,
        "print 101\nlost printer 102\ninstructions 6\nend\n",
    ),
    RunRow(PUNCHES_A, "", 0, "punch 101\ninstructions 5\nend\n"),
    RunRow(PRINTS_A, "limit 0", 3, "script 1 OutOfRange\n"),
    RunRow(PRINTS_A, "limit 20000001", 3, "script 1 OutOfRange\n"),
    RunRow(PRINTS_A, "limit 1\n\nlimit 1\n", 3, "script 3 Twice\n"),
    RunRow(
        PRINTS_A,
        "at 5 key 101\nat 5 key 102",
        3,
        "script 2 Backwards\n",
    ),
    RunRow(PRINTS_A, "; nothing\nlimits 1", 3, "script 2 BadLine\n"),
    RunRow("(* a", "limit 0", 3, "script 1 OutOfRange\n"),
    RunRow(PRINTS_A, "\n", 0, PRINTED_A),
    RunRow("module m; begin end m.", "", 15, "not yet source\n"),
    RunRow("(* a", "", 2, "source 1 1 OpenComment\n"),
    RunRow("'", "", 2, "source 1 1 OpenText\n"),
    RunRow("65536", "", 2, "source 1 1 NumberTooLarge\n"),
    RunRow("?", "", 2, "source 1 1 BadByte\n"),
    RunRow("", "", 2, "source 1 1 Unexpected\n"),
];

#[test]
fn answers_sources_and_scripts(rt: HostRuntime) -> Result<(), Fail> {
    let mismatch = mismatch(rt.alloc(), RUNS)?;
    assert!(rt; mismatch.is_none(), "{}", message(&mismatch));
    Ok(())
}

/// The script `clock 25`, and the first bytes of it.
const CUT_SCRIPTS: &[RunRow] = &[
    RunRow(PRINTS_A, "", 0, PRINTED_A),
    RunRow(PRINTS_A, "c", 3, "script 1 BadLine\n"),
    RunRow(PRINTS_A, "cl", 3, "script 1 BadLine\n"),
    RunRow(PRINTS_A, "clo", 3, "script 1 BadLine\n"),
    RunRow(PRINTS_A, "cloc", 3, "script 1 BadLine\n"),
    RunRow(PRINTS_A, "clock", 3, "script 1 BadLine\n"),
    RunRow(PRINTS_A, "clock ", 3, "script 1 BadLine\n"),
    RunRow(PRINTS_A, "clock 2", 0, PRINTED_A),
    RunRow(PRINTS_A, "clock 25", 0, PRINTED_A),
];

#[test]
fn answers_scripts_that_are_cut(rt: HostRuntime) -> Result<(), Fail> {
    let mismatch = mismatch(rt.alloc(), CUT_SCRIPTS)?;
    assert!(rt; mismatch.is_none(), "{}", message(&mismatch));
    Ok(())
}

/// What is expected of a run with the journal and what is found, where they differ.
fn journal_difference(alloc: Global) -> Result<Option<String>, Memory> {
    let call = Call {
        command: "run --journal a b",
        files: &shelf_files(PRINTS_A.as_bytes(), b"at 400 key 101\n"),
        failing: &[],
    };
    // The key comes at its time, and the printer is ready 300 after its byte was written at time 1.
    let expected = Expected {
        status: 0,
        printed: Printed::Text("print 101\nevent printer\nevent key 101\ninstructions 5\nend\n"),
        asked: "load a, load b",
        saved: None,
    };
    compared(alloc, &call, &expected)
}

#[test]
fn shows_events_with_the_journal(rt: HostRuntime) -> Result<(), Fail> {
    let difference = journal_difference(rt.alloc())?;
    assert!(rt; difference.is_none(), "{}", message(&difference));
    Ok(())
}
