// Sources with faults: the first one is named, whatever the command.

use crate::rows::{Row, message, mismatch, read_difference};
use crate::sources::with_words;
use mc_word::bytes::Memory;
use std::alloc::Global;
use std::test::Fail;

/// Words of `PRINTS_A` and others in their place, with the line and the column of the fault and its code.
#[derive(Debug)]
struct FaultRow(&'static str, &'static str, &'static str);

/// What is expected and what is found at the first command over a source that says another line.
fn line_mismatch(alloc: Global, source: &str, line: &str) -> Result<Option<String>, Memory> {
    for command in ["check a", "run a b", "compile a i"] {
        let mismatch = read_difference(alloc, command, source, 2, line)?;
        if mismatch.is_some() {
            return Ok(mismatch);
        }
    }
    Ok(None)
}

/// The same at a fault.
fn fault_mismatch(alloc: Global, source: &str, fault: &str) -> Result<Option<String>, Memory> {
    match format!(in alloc; "source {fault}\n") {
        Ok(line) => line_mismatch(alloc, source, line.as_str()),
        Err(_) => Err(Memory),
    }
}

impl Row for FaultRow {
    fn difference(&self, alloc: Global) -> Result<Option<String>, Memory> {
        match with_words(alloc, self.0, self.1) {
            Ok(source) => fault_mismatch(alloc, source.as_str(), self.2),
            Err(memory) => Err(memory),
        }
    }
}

/// One or more faults of each stage.
const FAULTS: &[FaultRow] = &[
    // rules
    FaultRow("[4]", "[3]", "1 18 M1"),
    FaultRow("[4]", "[8]", "1 18 M1"),
    FaultRow("device module m [4]", "module m", "1 15 M9"),
    // types
    FaultRow("[4]", "[4 = 4]", "1 18 Y5"),
    FaultRow("char;", "bits;", "1 60 Y1"),
    FaultRow("char;", "array 0: 1 of char;", "1 74 Y1"),
    FaultRow("'A'", "65", "1 60 Y1"),
    FaultRow("'A'", "'AB'", "1 60 Y1"),
    FaultRow("'A'", "-'A'", "1 61 Y1"),
    FaultRow("'A'", "'A' + 'A'", "1 60 Y1"),
    FaultRow("'A'", "'A' and 'A'", "1 60 Y1"),
    FaultRow("'A'", "'A' = 'A'", "1 60 Y1"),
    FaultRow("TPB :=", "TPB[0] :=", "1 53 Y1"),
    FaultRow("TPB :=", "TPB.x :=", "1 53 Y1"),
    FaultRow("TPB := 'A'", "TPB", "1 53 Y6"),
    // scopes
    FaultRow("var TPB [177566B]: char;", "", "1 29 S1"),
    FaultRow("TPB :=", "TPC :=", "1 53 S1"),
    FaultRow("TPB :=", "m :=", "1 53 S1"),
    FaultRow("char;", "char; TPB [177556B]: char;", "1 47 S2"),
    FaultRow("char;", "char; m [177556B]: char;", "1 47 S2"),
    FaultRow("char;", "char; send [177556B]: char;", "1 47 S2"),
    FaultRow("device module m", "device module char", "1 15 S2"),
    FaultRow("end m", "end n", "1 68 S5"),
    FaultRow("end m", "end TPB", "1 68 S5"),
    // the grammar
    FaultRow("'A'", "'A' TPB := 'B'", "1 64 Unexpected"),
    FaultRow("TPB [177566B]: char;", "", "1 27 Unexpected"),
    FaultRow("m.", "m", "1 69 Unexpected"),
    FaultRow("m.", "m. x", "1 71 Unexpected"),
];

#[test]
fn names_the_first_fault(rt: HostRuntime) -> Result<(), Fail> {
    let mismatch = mismatch(rt.alloc(), FAULTS)?;
    assert!(rt; mismatch.is_none(), "{}", message(&mismatch));
    Ok(())
}
