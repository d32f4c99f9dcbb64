// The lines of a report. Their form is this project's own.

ghost use Rattle.std.specs.Prelude.{◌≡◌, ◌≤◌, ◌++◌, length, codes, decimal, IfOk};
ghost use Rattle.mc_report.specs.Report.{line, three_octal, six_octal, vector_octal, event_text, name_of_trap, ending_line, count_line, report_of, IsNamed};

use crate::digits::{decimal_digits, put, six_digits, three_digits};
use crate::ending::Ending;
use arrayvec::ArrayVec;
use mc_word::Word;
use mc_word::bytes::Memory;
use pdp_dev::entry::{Entry, Event, Port};
use std::alloc::Global;

/// The line of a journal entry, with LF at its end.
///
/// Events and grants have a line only with `journal`; without it theirs is empty.
/// Bytes and vectors are three octal digits, a vector above 777 is six.
pub fn line_of(entry: Entry, journal: bool) -> ArrayVec<u8, 24>
    ensures { result.items ≡ line entry journal }
{
    match entry {
        Entry::Event(event) if journal => line_of_event(event),
        Entry::Grant(vector) if journal => line_of_grant(vector),
        Entry::Event(_) | Entry::Grant(_) => ArrayVec::new(),
        Entry::Print(byte) => line_with_byte(b"print ", byte),
        Entry::Punch(byte) => line_with_byte(b"punch ", byte),
        Entry::Lost(Port::Printer, byte) => line_with_byte(b"lost printer ", byte),
        Entry::Lost(Port::Punch, byte) => line_with_byte(b"lost punch ", byte),
    }
}

/// The last two lines of a report: the number of executed instructions, and the ending.
pub fn last_lines(instructions: u64, ending: Ending) -> ArrayVec<u8, 64>
    requires { IsNamed ending }
    ensures { result.items ≡ count_line instructions ++ ending_line ending }
{
    let mut lines = ArrayVec::new();
    put(&mut lines, b"instructions ");
    put(&mut lines, decimal_digits(instructions).as_slice());
    put(&mut lines, b"\n");
    put(&mut lines, line_of_ending(ending).as_slice());
    lines
}

/// The whole report of a journal, a number of executed instructions and an ending.
pub fn report(
    alloc: Global,
    entries: &[Entry],
    instructions: u64,
    ending: Ending,
    journal: bool,
) -> Result<Vec<u8>, Memory>
    requires { IsNamed ending }
    ensures { IfOk result (λ text. text.items ≡ report_of entries.now instructions ending journal) }
{
    let mut text = Vec::new(alloc);
    for entry in entries {
        text.extend_from_slice(line_of(*entry, journal).as_slice())?;
    }
    text.extend_from_slice(last_lines(instructions, ending).as_slice())?;
    Ok(text)
}

/// The name of a trap, in ASCII.
pub fn trap_name(n: u16) -> &'static [u8]
    requires low { 1 ≤ n }
    requires high { n ≤ 9 }
    ensures { result.now ≡ name_of_trap n }
{
    match n {
        1 => b"index",
        2 => b"overflow",
        3 => b"divide",
        4 => b"case",
        5 => b"rank",
        6 => b"range",
        7 => b"twice",
        8 => b"workspace",
        _ => b"room",
    }
}

// A line of these words alone.
fn line_with(words: &[u8]) -> ArrayVec<u8, 24>
    requires { length words.now ≤ 23 }
    ensures { result.items ≡ words.now ++ codes "\n" }
{
    let mut line = ArrayVec::new();
    put(&mut line, words);
    put(&mut line, b"\n");
    line
}

// A line of these words and a byte.
fn line_with_byte(words: &[u8], byte: u8) -> ArrayVec<u8, 24>
    requires { length words.now ≤ 20 }
    ensures { result.items ≡ words.now ++ three_octal byte ++ codes "\n" }
{
    let mut line = ArrayVec::new();
    put(&mut line, words);
    put(&mut line, &three_digits(u16::from(byte)));
    put(&mut line, b"\n");
    line
}

// A line of these words and a machine word.
fn line_with_word(words: &[u8], word: Word) -> ArrayVec<u8, 24>
    requires { length words.now ≤ 17 }
    ensures { result.items ≡ words.now ++ six_octal word ++ codes "\n" }
{
    let mut line = ArrayVec::new();
    put(&mut line, words);
    put(&mut line, &six_digits(word));
    put(&mut line, b"\n");
    line
}

fn line_of_event(event: Event) -> ArrayVec<u8, 24>
    ensures { result.items ≡ codes "event " ++ event_text event ++ codes "\n" }
{
    match event {
        Event::Key(byte) => line_with_byte(b"event key ", byte),
        Event::Printer => line_with(b"event printer"),
        Event::Punch => line_with(b"event punch"),
        Event::Reader(Some(byte)) => line_with_byte(b"event reader ", byte),
        Event::Reader(None) => line_with(b"event reader end"),
        Event::Clock => line_with(b"event clock"),
    }
}

fn line_of_grant(vector: Word) -> ArrayVec<u8, 24>
    ensures { result.items ≡ codes "grant " ++ vector_octal vector ++ codes "\n" }
{
    if vector > 0o777 {
        return line_with_word(b"grant ", vector);
    }
    let mut line = ArrayVec::new();
    put(&mut line, b"grant ");
    put(&mut line, &three_digits(vector));
    put(&mut line, b"\n");
    line
}

fn line_of_ending(ending: Ending) -> ArrayVec<u8, 24>
    requires { IsNamed ending }
    ensures { result.items ≡ ending_line ending }
{
    match ending {
        Ending::End => line_with(b"end"),
        Ending::Stuck => line_with(b"stuck"),
        Ending::Trap(n) => line_of_trap(n),
        Ending::Limit => line_with(b"limit"),
        Ending::Halt => line_with(b"halt"),
        Ending::BusFault(address) => line_with_word(b"bus fault ", address),
        Ending::Reserved(word) => line_with_word(b"reserved ", word),
        Ending::Silent => line_with(b"silent"),
    }
}

#[tactic(auto, using(std::proofs::lemmas::Fmt::decimal_digit))]
fn line_of_trap(n: u16) -> ArrayVec<u8, 24>
    requires low { 1 ≤ n }
    requires high { n ≤ 9 }
    ensures { result.items ≡ codes "trap " ++ decimal n ++ codes " " ++ name_of_trap n ++ codes "\n" }
{
    let mut line = ArrayVec::new();
    put(&mut line, b"trap ");
    put(&mut line, decimal_digits(u64::from(n)).as_slice());
    put(&mut line, b" ");
    put(&mut line, trap_name(n));
    put(&mut line, b"\n");
    line
}
