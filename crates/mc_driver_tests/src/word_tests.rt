// The words of the command.

use crate::calls::Call;
use crate::expected::{Expected, Printed, compared};
use crate::rows::{Row, message, mismatch};
use crate::sources::{PRINTED_A, PRINTS_A, RING_OF_3, shelf_files};
use mc_word::bytes::Memory;
use std::alloc::Global;
use std::test::Fail;

/// Words that are answered before any file is loaded, the status, and what is printed.
#[derive(Debug)]
struct WordRow(&'static str, u8, &'static str);

impl Row for WordRow {
    fn difference(&self, alloc: Global) -> Result<Option<String>, Memory> {
        let WordRow(command, status, line) = self;
        let call = Call {
            command,
            // The words come before the files, which would be refused too.
            files: &shelf_files(b"(* a", b"limit 0"),
            failing: &[],
        };
        let expected = Expected {
            status: *status,
            printed: Printed::Text(line),
            asked: "",
            saved: None,
        };
        compared(alloc, &call, &expected)
    }
}

/// Words that are no command, one that is not built yet, or one that loads no file.
const WORDS: &[WordRow] = &[
    WordRow("", 1, "words\n"),
    WordRow("run a", 1, "words\n"),
    WordRow("run a --", 1, "words\n"),
    WordRow("run a b c", 1, "words\n"),
    WordRow("exec a b --settings c", 1, "words\n"),
    WordRow("compile --journal a b", 1, "words\n"),
    WordRow("check", 1, "words\n"),
    WordRow("check --journal a", 1, "words\n"),
    WordRow("generate 27", 1, "words\n"),
    WordRow("generate 3", 0, RING_OF_3),
    WordRow("generate 03", 0, RING_OF_3),
    WordRow("self 3", 15, "not yet words\n"),
];

#[test]
fn answers_words(rt: HostRuntime) -> Result<(), Fail> {
    let mismatch = mismatch(rt.alloc(), WORDS)?;
    assert!(rt; mismatch.is_none(), "{}", message(&mismatch));
    Ok(())
}

/// Words that run `PRINTS_A` under an empty script, and the loads that they ask for.
#[derive(Debug)]
struct NameRow(&'static str, &'static str);

impl Row for NameRow {
    fn difference(&self, alloc: Global) -> Result<Option<String>, Memory> {
        let NameRow(command, asked) = self;
        let call = Call {
            command,
            files: &shelf_files(PRINTS_A.as_bytes(), b""),
            failing: &[],
        };
        let expected = Expected {
            status: 0,
            printed: Printed::Text(PRINTED_A),
            asked,
            saved: None,
        };
        compared(alloc, &call, &expected)
    }
}

/// The name `-`, and names behind `--`.
const NAMES: &[NameRow] = &[
    NameRow("run a b", "load a, load b"),
    NameRow("run - b", "load -, load b"),
    NameRow("run -- a b", "load a, load b"),
];

#[test]
fn loads_the_files_of_these_names(rt: HostRuntime) -> Result<(), Fail> {
    let mismatch = mismatch(rt.alloc(), NAMES)?;
    assert!(rt; mismatch.is_none(), "{}", message(&mismatch));
    Ok(())
}
