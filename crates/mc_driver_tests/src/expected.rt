// What is expected of a call, beside what is found.

use crate::calls::{Answered, Call, answer_of, answer_on};
use mc_shelf::mem::MemShelf;
use mc_word::bytes::Memory;
use std::alloc::Global;

/// What is expected to be printed.
#[derive(Clone, Copy, Debug)]
pub enum Printed<'a> {
    /// This text, where `#` stands for digits.
    Text(&'a str),
    /// A text that ends with this one.
    End(&'a str),
    /// So many bytes.
    Bytes(usize),
}

/// What is expected of a call. The files that were there are expected to stay as they were.
#[derive(Clone, Copy, Debug)]
pub struct Expected<'a> {
    pub status: u8,
    pub printed: Printed<'a>,
    /// The loads and saves in their order, as `load a, save i`.
    pub asked: &'a str,
    /// How many bytes the file `i` has afterwards, where there is one.
    pub saved: Option<usize>,
}

/// Whether the bytes are this text, where `#` stands for digits.
fn is_like(bytes: &[u8], text: &str) -> bool {
    match text.split_once("#") {
        None => bytes == text.as_bytes(),
        Some((before, after)) => bytes
            .strip_prefix(before.as_bytes())
            .and_then(|rest| rest.strip_suffix(after.as_bytes()))
            .is_some_and(|digits| !digits.is_empty() && digits.iter().all(|b| b.is_ascii_digit())),
    }
}

/// Whether the bytes are those that are expected.
fn is_printed(bytes: &[u8], printed: &Printed) -> bool {
    match printed {
        Printed::Text(text) => is_like(bytes, text),
        Printed::End(end) => bytes.strip_suffix(end.as_bytes()).is_some(),
        Printed::Bytes(count) => bytes.len() == *count,
    }
}

/// Whether what is found is what is expected.
fn holds(expected: &Expected, found: &Answered) -> bool {
    found.status == expected.status
        && is_printed(found.printed.as_slice(), &expected.printed)
        && found.asked.as_slice() == expected.asked.as_bytes()
        && found.saved == expected.saved
        && found.kept
}

/// What is expected of a command and what is found, in words.
fn beside(
    alloc: Global,
    command: &str,
    expected: &Expected,
    found: &Answered,
) -> Result<String, Memory> {
    let printed = str::from_utf8(found.printed.as_slice()).unwrap_or("no UTF-8");
    let asked = str::from_utf8(found.asked.as_slice()).unwrap_or("no UTF-8");
    format!(in alloc;
        "`{command}`: {expected:?}, found {}, {} bytes {printed:?}, asked {asked:?}, saved {:?}, kept {}",
        found.status,
        found.printed.len(),
        found.saved,
        found.kept
    )
    .map_err(|_| Memory)
}

/// What is expected of a command and what is found, where they differ.
pub fn judged(
    alloc: Global,
    command: &str,
    expected: &Expected,
    found: &Answered,
) -> Result<Option<String>, Memory> {
    if holds(expected, found) {
        return Ok(None);
    }
    beside(alloc, command, expected, found).map(Some)
}

/// What is expected of a call on a shelf that is there and what is found, where they differ.
pub fn compared_on(
    alloc: Global,
    call: &Call,
    shelf: &mut MemShelf,
    expected: &Expected,
) -> Result<Option<String>, Memory> {
    match answer_on(alloc, call, shelf) {
        Ok(found) => judged(alloc, call.command, expected, &found),
        Err(memory) => Err(memory),
    }
}

/// What is expected of a call and what is found, where they differ.
pub fn compared(alloc: Global, call: &Call, expected: &Expected) -> Result<Option<String>, Memory> {
    match answer_of(alloc, call) {
        Ok(found) => judged(alloc, call.command, expected, &found),
        Err(memory) => Err(memory),
    }
}
