// Addresses put in: the words of the code and of the table of processes.

ghost use Rattle.std.specs.Prelude.{◌≡◌, ◌%◌, ◌++◌, OnOk, slice_get};
ghost use Rattle.mc_pcode.specs.declared.program.PEntry.{PEntry};
ghost use Rattle.mc_expand.specs.Templates.{status_of, params_of};
ghost use Rattle.mc_expand.specs.Expanded.{put, spot, slot_of, process_words, code_words, table_words};

use crate::line::Item;
use mc_kernel::memory::slot_at;
use mc_pcode::program::{PEntry, PProcess, PProgram};
use mc_word::Word;
use mc_word::bytes::Memory;
use std::marker::Model;

/// Where what the words name stands: the code's first word, the instructions of process code and the entries in words from
/// there, the table of processes, and the end of the main process's workspace.
#[derive(Drop)]
pub struct Spots {
    pub code: Word,
    pub places: Vec<usize>,
    pub entries: Vec<usize>,
    pub table: Word,
    pub top: Word,
}

impl Model for Spots {
    ghost use Rattle.mc_expand.specs.Expanded.{Spots};

    ghost Value = { Spots };

    ghost view = { λ s. record { code = s.code; places = s.places.items; entries = s.entries.items; table = s.table; top = s.top } };
}

// The address of one of these, which stand so many words behind an address.
fn spot(at: Word, offsets: &[usize], i: u16) -> Word
    ensures { result ≡ spot at (slice_get offsets.now i) }
{
    match offsets.get(i as usize) {
        None => 0,
        Some(n) => at.wrapping_add((n % 32768 * 2) as Word),
    }
}

// A word, with the address that it names.
fn put(s: &Spots, item: Item) -> Word
    ensures { result ≡ put s.now item }
{
    match item {
        Item::Plain(w) => w,
        Item::Place(l) => spot(s.code, s.places.as_slice(), l),
        Item::Entry(e) => spot(s.code, s.entries.as_slice(), e),
        Item::Record(q) => ((u32::from(s.table) + 8 * u32::from(q)) % 65536) as Word,
        Item::Data(n) => ((0o20000 + 2 * u32::from(n)) % 65536) as Word,
        Item::MainTop => s.top.wrapping_add(65532),
    }
}

/// Adds the words of the code.
#[tactic(auto, unfolding(crate::specs::Expanded::code_words))]
pub fn push_code(words: &mut Vec<Word>, s: &Spots, items: &[Item]) -> Result<(), Memory>
    ensures { OnOk result (words.new.items ≡ words.old.items ++ code_words s.now items.now) }
{
    for item in items {
        words.push(put(s, *item))?;
    }
    Ok(())
}

// The slot of a process's vector.
fn slot_of(vector: Option<Word>) -> Word
    ensures { result ≡ slot_of vector }
{
    match vector {
        None => 0,
        Some(vector) => slot_at(vector),
    }
}

// How many words are handed to an entry, modulo 65536.
fn params_at(entries: &[PEntry], e: u16) -> Word
    ensures { result ≡ params_of (slice_get entries.now e) % 65536 }
{
    match entries.get(e as usize) {
        None => 0,
        Some(e) => (e.params % 65536) as Word,
    }
}

// Adds the record of a process.
fn push_process(
    words: &mut Vec<Word>,
    s: &Spots,
    entries: &[PEntry],
    q: &PProcess,
) -> Result<(), Memory>
    ensures { OnOk result (words.new.items ≡ words.old.items ++ process_words s.now entries.now q.now) }
{
    let entry = spot(s.code, s.entries.as_slice(), q.entry);
    let params = params_at(entries, q.entry);
    words.extend_from_slice(&[entry, params, slot_of(q.vector), q.priority % 8 * 32])?;
    Ok(())
}

/// Adds the table of processes.
#[tactic(auto, unfolding(crate::specs::Expanded::table_words))]
pub fn push_table(words: &mut Vec<Word>, s: &Spots, p: &PProgram) -> Result<(), Memory>
    ensures { OnOk result (words.new.items ≡ words.old.items ++ table_words s.now p.now) }
{
    for q in p.processes.as_slice() {
        push_process(words, s, p.entries.as_slice(), q)?;
    }
    Ok(())
}

/// The address of the main process's entry.
pub fn start_of(s: &Spots) -> Word
    ensures { result ≡ spot s.now.code (slice_get s.now.entries 0) }
{
    spot(s.code, s.entries.as_slice(), 0)
}
