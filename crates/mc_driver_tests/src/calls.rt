// Calls of the command on a shelf in memory, and what is kept of each: plain data.

use mc_driver::modula;
use mc_shelf::ask::Ask;
use mc_shelf::files::MemFile;
use mc_shelf::mem::MemShelf;
use mc_shelf::shelf::Shelf;
use mc_word::bytes::{Bytes, Memory, Text};
use std::alloc::Global;

/// A call of the command.
#[derive(Clone, Copy)]
pub struct Call<'a> {
    /// Its words, which have no blanks in them.
    pub command: &'a str,
    /// The files that are there, with their bytes.
    pub files: &'a [(&'a str, &'a [u8])],
    /// The numbers of the shelf's calls that fail.
    pub failing: &'a [u64],
}

/// What a call answered, and what it left behind.
#[derive(Drop)]
pub struct Answered {
    pub status: u8,
    /// All bytes that were printed.
    pub printed: Vec<u8>,
    /// The loads and saves in their order, as `load a, save i`.
    pub asked: Vec<u8>,
    /// How many bytes the file `i` has, where there is one.
    pub saved: Option<usize>,
    /// Whether the files that were there have the bytes that they had.
    pub kept: bool,
}

// A shelf and a list of words are handed on by reference: a function that holds one by value over several exits is slow
// to prove.

/// The words of a command.
fn words_of(alloc: Global, command: &str) -> Result<Vec<String>, Memory> {
    let mut words = Vec::new(alloc);
    for word in command.split_whitespace() {
        words.push(String::from_str(alloc, word)?)?;
    }
    Ok(words)
}

/// A file of this name and these bytes.
fn file(alloc: Global, name: &str, bytes: &[u8]) -> Result<MemFile, Memory> {
    Ok(MemFile {
        name: Text::from_slice(alloc, name.as_bytes())?,
        bytes: Bytes::from_slice(alloc, bytes)?,
    })
}

/// Files of these names and bytes.
pub fn files_of(alloc: Global, contents: &[(&str, &[u8])]) -> Result<Vec<MemFile>, Memory> {
    let mut files = Vec::new(alloc);
    for (name, bytes) in contents {
        files.push(file(alloc, name, bytes)?)?;
    }
    Ok(files)
}

/// A shelf with files of these names and bytes, on which only calls of these numbers fail.
pub fn shelf_of(
    alloc: Global,
    contents: &[(&str, &[u8])],
    failing: &[u64],
) -> Result<MemShelf, Memory> {
    let failing = Vec::from_slice(alloc, failing)?;
    let files = files_of(alloc, contents)?;
    Ok(MemShelf::new(alloc, files, failing))
}

/// The status that is answered to a command.
pub fn status_of<S: Shelf>(alloc: Global, command: &str, shelf: &mut S) -> Result<u8, Memory> {
    match words_of(alloc, command) {
        Ok(words) => Ok(modula(alloc, words.as_slice(), shelf)),
        Err(memory) => Err(memory),
    }
}

/// Adds a load or a save to the text of those before it.
fn add_ask(text: &mut Vec<u8>, ask: &Ask) -> Result<(), Memory> {
    let (verb, name) = match ask {
        Ask::Load(name) => (b"load ", name),
        Ask::Save(name) => (b"save ", name),
    };
    if !text.is_empty() {
        text.extend_from_slice(b", ")?;
    }
    text.extend_from_slice(verb)?;
    text.extend_from_slice(name.as_slice())?;
    Ok(())
}

/// The loads and saves in their order, as `load a, save i`.
pub fn asks_of(alloc: Global, asked: &[Ask]) -> Result<Vec<u8>, Memory> {
    let mut text = Vec::new(alloc);
    for ask in asked {
        add_ask(&mut text, ask)?;
    }
    Ok(text)
}

/// Whether these files have these bytes.
fn has_files(shelf: &MemShelf, contents: &[(&str, &[u8])]) -> bool {
    for (name, bytes) in contents {
        if !shelf.file(name).is_some_and(|now| now == *bytes) {
            return false;
        }
    }
    true
}

/// What a call left behind on its shelf.
fn left_behind(
    alloc: Global,
    call: &Call,
    status: u8,
    shelf: &MemShelf,
) -> Result<Answered, Memory> {
    Ok(Answered {
        status,
        printed: Vec::from_slice(alloc, shelf.printed())?,
        asked: asks_of(alloc, shelf.asked())?,
        saved: shelf.file("i").map(|bytes| bytes.len()),
        kept: has_files(shelf, call.files),
    })
}

/// What a call answers on a shelf that is there, and all that was printed and asked on it so far.
pub fn answer_on(alloc: Global, call: &Call, shelf: &mut MemShelf) -> Result<Answered, Memory> {
    let status = status_of(alloc, call.command, shelf)?;
    left_behind(alloc, call, status, shelf)
}

/// What a call answers on a shelf of its own.
pub fn answer_of(alloc: Global, call: &Call) -> Result<Answered, Memory> {
    match shelf_of(alloc, call.files, call.failing) {
        Ok(mut shelf) => answer_on(alloc, call, &mut shelf),
        Err(memory) => Err(memory),
    }
}
