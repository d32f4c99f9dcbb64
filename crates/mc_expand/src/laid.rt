// The pieces laid out: their words, and where each instruction of process code and each entry stands.

ghost use Rattle.std.specs.Prelude.{◌≡◌, ◌++◌, IfOk, OnOk};
ghost use Rattle.std.specs.List.{flat_map};
ghost use Rattle.mc_expand.specs.Lines.{option_items, line_items};
ghost use Rattle.mc_expand.specs.Pieces.{entry_lines, piece_lines, piece_items, items_of, place_at, entry_at, places_from, entries_from};

use crate::line::{Item, Line};
use crate::parts::{jump, single};
use crate::pieces::Piece;
use crate::prologue::prologue;
use crate::template::template;
use mc_pcode::program::{PEntry, PProgram};
use mc_word::bytes::Memory;
use std::alloc::Global;

/// The words of the code, and where each instruction of process code and each entry stands among them.
#[derive(Drop)]
pub struct Laid {
    pub items: Vec<Item>,
    pub places: Vec<usize>,
    pub entries: Vec<usize>,
}

// What stands in front of an entry; and a jump, where its first instruction does not follow.
fn entry_lines(
    alloc: Global,
    workspace: u16,
    p: &PProgram,
    n: usize,
    e: &PEntry,
    direct: bool,
) -> Result<Vec<Line>, Memory>
    ensures { IfOk result (λ lines. lines.items ≡ entry_lines workspace p.now n e.now direct) }
{
    let mut lines = prologue(alloc, workspace, p.processes.len(), n, e)?;
    if !direct {
        lines.push(jump(e.at))?;
    }
    Ok(lines)
}

// The instructions of a piece.
fn piece_lines(
    alloc: Global,
    workspace: u16,
    p: &PProgram,
    piece: &Piece,
) -> Result<Vec<Line>, Memory>
    ensures { IfOk result (λ lines. lines.items ≡ piece_lines workspace p.now piece.now) }
{
    match piece {
        Piece::Passes(c) => single(alloc, jump(*c)),
        Piece::Enters(n, e, direct) => entry_lines(alloc, workspace, p, *n, e, *direct),
        Piece::Runs(i) => template(alloc, p, i),
    }
}

// Adds the further word of an operand.
fn push_option(items: &mut Vec<Item>, item: Option<Item>) -> Result<(), Memory>
    ensures { OnOk result (items.new.items ≡ items.old.items ++ option_items item) }
{
    if let Some(item) = item {
        items.push(item)?;
    }
    Ok(())
}

// Adds the words of an instruction.
fn push_line(items: &mut Vec<Item>, line: &Line) -> Result<(), Memory>
    ensures { OnOk result (items.new.items ≡ items.old.items ++ line_items line.now) }
{
    items.push(Item::Plain(line.word))?;
    push_option(items, line.source)?;
    push_option(items, line.target)?;
    Ok(())
}

// Adds the words of instructions.
fn push_lines(items: &mut Vec<Item>, lines: &[Line]) -> Result<(), Memory>
    ensures { OnOk result (items.new.items ≡ items.old.items ++ flat_map line_items lines.now) }
{
    for line in lines {
        push_line(items, line)?;
    }
    Ok(())
}

// Adds the words of a piece.
#[tactic(auto, unfolding(crate::specs::Pieces::piece_items))]
fn push_piece(
    alloc: Global,
    items: &mut Vec<Item>,
    workspace: u16,
    p: &PProgram,
    piece: &Piece,
) -> Result<(), Memory>
    ensures { OnOk result (items.new.items ≡ items.old.items ++ piece_items workspace p.now piece.now) }
{
    let lines = piece_lines(alloc, workspace, p, piece)?;
    push_lines(items, lines.as_slice())
}

// Notes where an instruction of process code stands.
fn note_place(places: &mut Vec<usize>, at: usize, piece: &Piece) -> Result<(), Memory>
    ensures { OnOk result (places.new.items ≡ places.old.items ++ place_at at piece.now) }
{
    match piece {
        Piece::Passes(_) | Piece::Enters(_, _, _) => {}
        Piece::Runs(_) => places.push(at)?,
    }
    Ok(())
}

// Notes where an entry stands.
fn note_entry(entries: &mut Vec<usize>, at: usize, piece: &Piece) -> Result<(), Memory>
    ensures { OnOk result (entries.new.items ≡ entries.old.items ++ entry_at at piece.now) }
{
    match piece {
        Piece::Passes(_) | Piece::Runs(_) => {}
        Piece::Enters(_, _, _) => entries.push(at)?,
    }
    Ok(())
}

/// The pieces of a program, laid out.
pub fn lay_out(
    alloc: Global,
    workspace: u16,
    p: &PProgram,
    pieces: &[Piece],
) -> Result<Laid, Memory>
    ensures items { IfOk result (λ laid. laid.items.items ≡ items_of workspace p.now pieces.now) }
    ensures places { IfOk result (λ laid. laid.places.items ≡ places_from workspace p.now 0 pieces.now) }
    ensures entries { IfOk result (λ laid. laid.entries.items ≡ entries_from workspace p.now 0 pieces.now) }
{
    let mut items = Vec::new(alloc);
    let mut places = Vec::new(alloc);
    let mut entries = Vec::new(alloc);
    for piece in pieces {
        note_place(&mut places, items.len(), piece)?;
        note_entry(&mut entries, items.len(), piece)?;
        push_piece(alloc, &mut items, workspace, p, piece)?;
    }
    Ok(Laid {
        items,
        places,
        entries,
    })
}
