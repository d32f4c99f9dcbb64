// The machine runs to its stop, and its report is printed in pieces meanwhile.

ghost use Rattle.std.specs.Prelude.{◌≡◌, ◌+◌, ◌<◌, ℕ, [], ◌∷◌, length, IfOk, IfErr, OnOk, Some};
ghost use Rattle.pdp_machine.specs.Run.{advances};
ghost use Rattle.mc_driver.specs.Outside.{Streams, Prints, Breaks, lines_of};
ghost use Rattle.mc_driver.specs.Run.{ending_for, text_of};

use crate::ending::{Origin, ending_at};
use mc_report::ending::Ending;
use mc_report::lines::{last_lines, line_of};
use mc_report::pieces::Pieces;
use mc_shelf::shelf::{PutFault, Shelf};
use mc_word::Word;
use pdp_dev::entry::Entry;
use pdp_machine::machine::Machine;
use pdp_machine::stop::Stop;

/// The address of the word that holds the number of a trap after its halt.
const TRAP: Word = 0o46;

/// The address of the word that holds the number of processes that have not ended.
const LIVE: Word = 0o50;

// Prints the held bytes, and lets them go.
fn flush<S: Shelf>(pieces: &mut Pieces, shelf: &mut S) -> Result<(), PutFault>
    ensures ok { OnOk result (Prints (S.seen shelf.old) pieces.old (S.seen shelf.new)) }
    ensures none { OnOk result (pieces.new ≡ []) }
    ensures refused { IfErr result (λ fault. Breaks (S.seen shelf.old) pieces.old [] fault (S.seen shelf.new)) }
{
    shelf.print(pieces.held())?;
    pieces.clear();
    Ok(())
}

// Puts a byte behind the held ones, and prints them where they are a whole piece.
fn put_byte<S: Shelf>(byte: u8, pieces: &mut Pieces, shelf: &mut S) -> Result<(), PutFault>
    requires { length pieces.old < 4096 }
    ensures ok { OnOk result (Streams (S.seen shelf.old) pieces.old (byte ∷ []) (S.seen shelf.new) pieces.new) }
    ensures fits { OnOk result (length pieces.new < 4096) }
    ensures refused { IfErr result (λ fault. Breaks (S.seen shelf.old) pieces.old (byte ∷ []) fault (S.seen shelf.new)) }
{
    pieces.push(byte);
    if pieces.is_full() {
        shelf.print(pieces.held())?;
        pieces.clear();
    }
    Ok(())
}

// Puts bytes behind the held ones, and prints each whole piece.
fn put<S: Shelf>(bytes: &[u8], pieces: &mut Pieces, shelf: &mut S) -> Result<(), PutFault>
    requires { length pieces.old < 4096 }
    ensures ok { OnOk result (Streams (S.seen shelf.old) pieces.old bytes.now (S.seen shelf.new) pieces.new) }
    ensures fits { OnOk result (length pieces.new < 4096) }
    ensures refused { IfErr result (λ fault. Breaks (S.seen shelf.old) pieces.old bytes.now fault (S.seen shelf.new)) }
{
    for byte in bytes {
        put_byte(*byte, pieces, shelf)?;
    }
    Ok(())
}

// Puts the lines of entries.
fn put_lines<S: Shelf>(
    entries: &[Entry],
    journal: bool,
    pieces: &mut Pieces,
    shelf: &mut S,
) -> Result<(), PutFault>
    requires { length pieces.old < 4096 }
    ensures ok { OnOk result (Streams (S.seen shelf.old) pieces.old (lines_of journal entries.now) (S.seen shelf.new) pieces.new) }
    ensures fits { OnOk result (length pieces.new < 4096) }
    ensures refused { IfErr result (λ fault. Breaks (S.seen shelf.old) pieces.old (lines_of journal entries.now) fault (S.seen shelf.new)) }
{
    for entry in entries {
        put(line_of(*entry, journal).as_slice(), pieces, shelf)?;
    }
    Ok(())
}

/// Lets the machine run to its stop, which is answered. The lines of its entries are printed in pieces of 4,096 bytes;
/// what does not make a whole piece is held in `pieces`. Events and grants have lines where `journal` says so.
///
/// # Errors
///
/// `Failed` and `Memory` of a print. Then a first part of the lines was printed, at `Memory` in whole pieces, and the machine
/// stands after some of its advances.
#[tactic(auto, unfolding(pdp_machine::specs::Run::advances))]
pub fn drive<S: Shelf>(
    machine: &mut Machine,
    pieces: &mut Pieces,
    journal: bool,
    shelf: &mut S,
) -> Result<Stop, PutFault>
    requires { pieces.old ≡ [] }
    ensures stop { IfOk result (λ stop. machine.new.stop ≡ Some stop) }
    ensures machine { OnOk result (machine.new ≡ (advances (machine.old.limit + 1) machine.old).machine) }
    ensures stands { (n : ℕ) × (machine.new ≡ (advances n machine.old).machine) }
    ensures ok { OnOk result (Streams (S.seen shelf.old) [] (lines_of journal (advances (machine.old.limit + 1) machine.old).entries) (S.seen shelf.new) pieces.new) }
    ensures fits { OnOk result (length pieces.new < 4096) }
    ensures refused { IfErr result (λ fault. Breaks (S.seen shelf.old) [] (lines_of journal (advances (machine.old.limit + 1) machine.old).entries) fault (S.seen shelf.new)) }
{
    for _i in 0..u64::from(machine.limit()) + 1 {
        let more = machine.advance();
        put_lines(more.entries.as_slice(), journal, pieces, shelf)?;
        if let Some(stop) = more.stop {
            return Ok(stop);
        }
    }
    let _time = machine.time();
    unreachable!()
}

/// Runs a machine to its stop, and prints its report in pieces. Answers how the run ended.
///
/// # Errors
///
/// `Failed` and `Memory` of a print. Then a first part of the report was printed, at `Memory` in whole pieces.
pub fn print_report<S: Shelf>(
    machine: &mut Machine,
    pieces: &mut Pieces,
    origin: Origin,
    journal: bool,
    shelf: &mut S,
) -> Result<Ending, PutFault>
    requires { pieces.old ≡ [] }
    ensures ending { IfOk result (λ ending. ending ≡ ending_for origin (advances (machine.old.limit + 1) machine.old).machine) }
    ensures ok { OnOk result (Prints (S.seen shelf.old) (text_of origin journal (advances (machine.old.limit + 1) machine.old)) (S.seen shelf.new)) }
    ensures refused { IfErr result (λ fault. Breaks (S.seen shelf.old) [] (text_of origin journal (advances (machine.old.limit + 1) machine.old)) fault (S.seen shelf.new)) }
{
    let stop = drive(machine, pieces, journal, shelf)?;
    let ending = ending_at(origin, stop, machine.peek(TRAP), machine.peek(LIVE));
    let lines = last_lines(machine.instructions(), ending);
    put(lines.as_slice(), pieces, shelf)?;
    flush(pieces, shelf)?;
    Ok(ending)
}
