// Calls of the shelf that fail.

use crate::calls::Call;
use crate::expected::{Expected, Printed, compared};
use crate::rows::{Row, message, mismatch};
use crate::sources::PRINTS_A;
use mc_word::bytes::Memory;
use std::alloc::Global;
use std::test::Fail;

/// A command and the number of a call that fails, the status, and what is printed and asked.
#[derive(Debug)]
struct FailingRow(&'static str, u64, u8, &'static str, &'static str);

impl Row for FailingRow {
    fn difference(&self, alloc: Global) -> Result<Option<String>, Memory> {
        let FailingRow(command, failing, status, printed, asked) = self;
        let call = Call {
            command,
            files: &[("a", PRINTS_A.as_bytes()), ("b", b""), ("c", b"")],
            failing: &[*failing],
        };
        let expected = Expected {
            status: *status,
            printed: Printed::Text(printed),
            asked,
            saved: None,
        };
        compared(alloc, &call, &expected)
    }
}

/// A load, and the print of a report of 29 bytes.
const RUNS: &[FailingRow] = &[
    // A load that fails ends the command before anything is printed.
    FailingRow("run a b", 1, 11, "", "load a"),
    // The print is the third call; half of the report stands there when it fails.
    FailingRow("run a b", 3, 11, "print 101\ninst", "load a, load b"),
];

#[test]
fn answers_calls_that_fail(rt: HostRuntime) -> Result<(), Fail> {
    let mismatch = mismatch(rt.alloc(), RUNS)?;
    assert!(rt; mismatch.is_none(), "{}", message(&mismatch));
    Ok(())
}

/// What is expected of a run without a script and what is found, where they differ.
fn lacking_difference(alloc: Global) -> Result<Option<String>, Memory> {
    let call = Call {
        command: "run a b",
        files: &[("a", PRINTS_A.as_bytes())],
        failing: &[],
    };
    // A load that finds no file ends the command before anything is printed.
    let expected = Expected {
        status: 11,
        printed: Printed::Text(""),
        asked: "load a, load b",
        saved: None,
    };
    compared(alloc, &call, &expected)
}

#[test]
fn answers_a_file_that_is_lacking(rt: HostRuntime) -> Result<(), Fail> {
    let difference = lacking_difference(rt.alloc())?;
    assert!(rt; difference.is_none(), "{}", message(&difference));
    Ok(())
}

/// A load, and the print of 3 bytes.
const CHECKS: &[FailingRow] = &[
    FailingRow("check a", 0, 0, "ok\n", "load a"),
    FailingRow("check a", 1, 11, "", "load a"),
    FailingRow("check a", 2, 11, "o", "load a"),
];

#[test]
fn answers_calls_of_check_that_fail(rt: HostRuntime) -> Result<(), Fail> {
    let mismatch = mismatch(rt.alloc(), CHECKS)?;
    assert!(rt; mismatch.is_none(), "{}", message(&mismatch));
    Ok(())
}

/// Three loads, and the print of a report of 29 bytes.
const RUNS_WITH_SETTINGS: &[FailingRow] = &[
    FailingRow("run a b --settings c", 1, 11, "", "load c"),
    FailingRow("run a b --settings c", 2, 11, "", "load c, load a"),
    FailingRow("run a b --settings c", 3, 11, "", "load c, load a, load b"),
    FailingRow(
        "run a b --settings c",
        4,
        11,
        "print 101\ninst",
        "load c, load a, load b",
    ),
];

#[test]
fn answers_calls_that_fail_with_settings(rt: HostRuntime) -> Result<(), Fail> {
    let mismatch = mismatch(rt.alloc(), RUNS_WITH_SETTINGS)?;
    assert!(rt; mismatch.is_none(), "{}", message(&mismatch));
    Ok(())
}
