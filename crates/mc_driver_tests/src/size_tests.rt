// Files by their length, and sources by their size and their depth.

use crate::calls::Call;
use crate::expected::{Expected, Printed, compared};
use crate::rows::{Row, message, mismatch, read_difference};
use crate::sources::{shelf_files, with_words};
use mc_word::bytes::Memory;
use std::alloc::Global;
use std::test::Fail;

/// A command over files of blanks, how many blanks `a` and `b` have, the status, and what is printed and asked.
#[derive(Debug)]
struct LengthRow(&'static str, usize, usize, u8, &'static str, &'static str);

/// So many blanks.
fn blanks(alloc: Global, count: usize) -> Result<Vec<u8>, Memory> {
    Ok(vec![in alloc; b' '; count]?)
}

/// What is expected of a command over these files and what is found, where they differ.
fn length_difference(
    alloc: Global,
    row: &LengthRow,
    source: &[u8],
    script: &[u8],
) -> Result<Option<String>, Memory> {
    let LengthRow(command, _, _, status, line, asked) = row;
    let call = Call {
        command,
        files: &shelf_files(source, script),
        failing: &[],
    };
    let expected = Expected {
        status: *status,
        printed: Printed::Text(line),
        asked,
        saved: None,
    };
    compared(alloc, &call, &expected)
}

/// The same over this file `a`.
fn source_difference(
    alloc: Global,
    row: &LengthRow,
    source: &[u8],
) -> Result<Option<String>, Memory> {
    match blanks(alloc, row.2) {
        Ok(script) => length_difference(alloc, row, source, script.as_slice()),
        Err(memory) => Err(memory),
    }
}

impl Row for LengthRow {
    fn difference(&self, alloc: Global) -> Result<Option<String>, Memory> {
        match blanks(alloc, self.1) {
            Ok(source) => source_difference(alloc, self, source.as_slice()),
            Err(memory) => Err(memory),
        }
    }
}

/// Files up to the longest that are read, and files of one byte more.
const LENGTHS: &[LengthRow] = &[
    LengthRow(
        "run a b",
        262_144,
        0,
        2,
        "source 1 262145 Unexpected\n",
        "load a, load b",
    ),
    LengthRow("run a b", 262_145, 1, 14, "too long source\n", "load a"),
    LengthRow(
        "run a b",
        1,
        1_048_577,
        14,
        "too long script\n",
        "load a, load b",
    ),
    LengthRow("exec a b", 131_073, 1, 14, "too long image\n", "load a"),
    LengthRow(
        "run a a --settings b",
        1,
        4_097,
        14,
        "too long settings\n",
        "load b",
    ),
    LengthRow("compile a i", 262_145, 1, 14, "too long source\n", "load a"),
    LengthRow("compile a i", 1, 1, 2, "source 1 2 Unexpected\n", "load a"),
    LengthRow(
        "check a",
        262_144,
        1,
        2,
        "source 1 262145 Unexpected\n",
        "load a",
    ),
    LengthRow("check a", 262_145, 1, 14, "too long source\n", "load a"),
];

#[test]
fn answers_files_that_are_too_long(rt: HostRuntime) -> Result<(), Fail> {
    let mismatch = mismatch(rt.alloc(), LENGTHS)?;
    assert!(rt; mismatch.is_none(), "{}", message(&mismatch));
    Ok(())
}

/// How many semicolons a source has, a command over it, the status, and what is printed.
#[derive(Debug)]
struct SizeRow(usize, &'static str, u8, &'static str);

/// A source of so many semicolons and seven tokens around them.
fn with_semicolons(alloc: Global, count: usize) -> Result<String, Memory> {
    match ";".repeat(alloc, count) {
        Ok(empty) => format!(in alloc; "module m; begin {empty} end m.").map_err(|_| Memory),
        Err(_) => Err(Memory),
    }
}

impl Row for SizeRow {
    fn difference(&self, alloc: Global) -> Result<Option<String>, Memory> {
        let SizeRow(count, command, status, line) = self;
        match with_semicolons(alloc, *count) {
            Ok(source) => read_difference(alloc, command, source.as_str(), *status, line),
            Err(memory) => Err(memory),
        }
    }
}

/// Seven tokens stand around the semicolons: 1666 are within the limit, at 12 words for each, and one more is not.
const SIZES: &[SizeRow] = &[
    SizeRow(1659, "check a", 0, "ok\n"),
    SizeRow(1659, "run a b", 15, "not yet source\n"),
    SizeRow(1660, "check a", 13, "too large\n"),
    SizeRow(1660, "run a b", 13, "too large\n"),
    SizeRow(1660, "compile a i", 13, "too large\n"),
];

#[test]
fn answers_sources_by_their_size(rt: HostRuntime) -> Result<(), Fail> {
    let mismatch = mismatch(rt.alloc(), SIZES)?;
    assert!(rt; mismatch.is_none(), "{}", message(&mismatch));
    Ok(())
}

/// How many statements stand behind the first one, the status, and the end of what is printed.
#[derive(Debug)]
struct LongRow(usize, u8, &'static str);

/// So many statements, and the end of their block.
fn statements(alloc: Global, count: usize) -> Result<String, Memory> {
    match "; TPB := 'B'".repeat(alloc, count) {
        Ok(statements) => format!(in alloc; "{statements} end").map_err(|_| Memory),
        Err(_) => Err(Memory),
    }
}

/// `PRINTS_A` with so many statements behind its own.
fn with_statements(alloc: Global, count: usize) -> Result<String, Memory> {
    match statements(alloc, count) {
        Ok(statements) => with_words(alloc, " end", statements.as_str()),
        Err(memory) => Err(memory),
    }
}

/// What is expected of a run of a source and what is found, where they differ.
fn long_difference(alloc: Global, row: &LongRow, source: &str) -> Result<Option<String>, Memory> {
    let LongRow(_, status, end) = row;
    let call = Call {
        command: "run a b",
        files: &shelf_files(source.as_bytes(), b""),
        failing: &[],
    };
    let expected = Expected {
        status: *status,
        printed: Printed::End(end),
        asked: "load a, load b",
        saved: None,
    };
    compared(alloc, &call, &expected)
}

impl Row for LongRow {
    fn difference(&self, alloc: Global) -> Result<Option<String>, Memory> {
        match with_statements(alloc, self.0) {
            Ok(source) => long_difference(alloc, self, source.as_str()),
            Err(memory) => Err(memory),
        }
    }
}

/// 11 + 7 * 1 + 4 * 412 tokens are 1666, and one statement more is one too many. The instructions are 1 + 412 + 3.
const LONG: &[LongRow] = &[
    LongRow(411, 0, "\ninstructions 416\nend\n"),
    LongRow(412, 13, "too large\n"),
];

#[test]
fn runs_at_most_1666_tokens(rt: HostRuntime) -> Result<(), Fail> {
    let mismatch = mismatch(rt.alloc(), LONG)?;
    assert!(rt; mismatch.is_none(), "{}", message(&mismatch));
    Ok(())
}

/// How many parentheses stand around the character, the status that `run` answers, and what it prints.
#[derive(Debug)]
struct DeepRow(usize, u8, &'static str);

/// The character in so many parentheses.
fn nested(alloc: Global, count: usize) -> Result<String, Memory> {
    let mut text = String::new(alloc);
    for _ in 0..count {
        text.push_str("(")?;
    }
    text.push_str("'A'")?;
    for _ in 0..count {
        text.push_str(")")?;
    }
    Ok(text)
}

/// `PRINTS_A` with its character in so many parentheses.
fn with_nested(alloc: Global, count: usize) -> Result<String, Memory> {
    match nested(alloc, count) {
        Ok(value) => with_words(alloc, "'A'", value.as_str()),
        Err(memory) => Err(memory),
    }
}

impl Row for DeepRow {
    fn difference(&self, alloc: Global) -> Result<Option<String>, Memory> {
        let DeepRow(count, status, line) = self;
        match with_nested(alloc, *count) {
            Ok(source) => read_difference(alloc, "run a b", source.as_str(), *status, line),
            Err(memory) => Err(memory),
        }
    }
}

/// The statement has depth 1, and each parenthesis is one deeper: behind 62 the character has depth 64, behind 63 it is
/// too deep, and of 64 the last is. The first parenthesis stands in column 60.
const DEEP: &[DeepRow] = &[
    DeepRow(62, 15, "not yet source\n"),
    DeepRow(63, 2, "source 1 123 TooDeep\n"),
    DeepRow(64, 2, "source 1 123 TooDeep\n"),
];

#[test]
fn runs_no_deep_source(rt: HostRuntime) -> Result<(), Fail> {
    let mismatch = mismatch(rt.alloc(), DEEP)?;
    assert!(rt; mismatch.is_none(), "{}", message(&mismatch));
    Ok(())
}
