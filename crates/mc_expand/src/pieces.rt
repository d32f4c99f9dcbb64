// The pieces of a program's code in their order: what stands in front of its entries, and the instructions of process code.

ghost use Rattle.std.specs.Prelude.{◌≡◌, ◌+◌, ◌<◌, ◌≤◌, ◌^◌, ◌++◌, length, IfOk, OnOk};
ghost use Rattle.mc_expand.specs.Pieces.{goes_on, due, fronts, passing, pieces_of};

use mc_pcode::instruction::PInstr;
use mc_pcode::program::{PEntry, PProgram};
use mc_word::bytes::Memory;
use std::alloc::Global;

/// A piece of the code.
#[derive(Clone, Copy)]
pub enum Piece {
    /// A jump to the instruction at this place, over what stands in front of an entry.
    Passes(u16),
    /// What stands in front of the entry of this number; and whether its first instruction follows directly.
    Enters(usize, PEntry, bool),
    /// The instruction.
    Runs(PInstr),
}

// Whether what stands behind an instruction is reached from it.
fn goes_on(i: &PInstr) -> bool
    ensures { result ≡ goes_on i.now }
{
    match i {
        PInstr::Jump(_) | PInstr::TrapNow(_) | PInstr::Return(_) | PInstr::EndProcess => false,
        PInstr::Move(_, _)
        | PInstr::Store(_, _)
        | PInstr::Push(_)
        | PInstr::Pop(_)
        | PInstr::Address(_, _)
        | PInstr::LoadAt(_, _)
        | PInstr::StoreAt(_, _)
        | PInstr::CopyAt(_)
        | PInstr::ReadRegister(_, _, _)
        | PInstr::WriteRegister(_, _)
        | PInstr::BitTest(_, _)
        | PInstr::BitPut(_, _, _)
        | PInstr::BitPutAt(_, _, _)
        | PInstr::BitPutRegister(_, _, _)
        | PInstr::Index(_, _, _, _, _)
        | PInstr::BitIndex(_)
        | PInstr::Field(_, _)
        | PInstr::Add(_, _)
        | PInstr::Subtract(_, _)
        | PInstr::Multiply(_, _)
        | PInstr::Divide(_, _)
        | PInstr::Modulo(_, _)
        | PInstr::Negate(_)
        | PInstr::And(_, _)
        | PInstr::Or(_, _)
        | PInstr::Xor(_, _)
        | PInstr::NotBits(_)
        | PInstr::Not(_)
        | PInstr::Compare(_, _, _)
        | PInstr::ToChar(_)
        | PInstr::JumpFalse(_, _)
        | PInstr::JumpTrue(_, _)
        | PInstr::CaseTest(_, _, _)
        | PInstr::Argument(_)
        | PInstr::Call(_)
        | PInstr::ZeroLocal(_)
        | PInstr::Result(_)
        | PInstr::Enter(_)
        | PInstr::Leave(_)
        | PInstr::Start(_)
        | PInstr::Wait
        | PInstr::Send
        | PInstr::Awaited(_)
        | PInstr::Doio => true,
    }
}

// How many of the next entries begin at this place, or at one before it.
fn due(c: usize, entries: &[PEntry]) -> usize
    ensures value { result ≡ due c entries.now }
    ensures within { result ≤ length entries.now }
{
    for (k, e) in entries.iter().enumerate() {
        if c < e.at as usize {
            return k;
        }
    }
    entries.len()
}

// Adds what stands in front of these entries, where they are due at the place c and the first of them has the number n.
fn push_fronts(
    pieces: &mut Vec<Piece>,
    c: usize,
    n: usize,
    entries: &[PEntry],
) -> Result<(), Memory>
    requires { n + length entries.now < 2 ^ 64 }
    ensures { OnOk result (pieces.new.items ≡ pieces.old.items ++ fronts c n entries.now) }
{
    for (k, e) in entries.iter().enumerate() {
        let direct = k + 1 == entries.len() && e.at as usize == c;
        pieces.push(Piece::Enters(n + k, *e, direct))?;
    }
    Ok(())
}

// Adds a jump over so many entries at a place, where what is before them goes on.
fn push_passing(pieces: &mut Vec<Piece>, on: bool, c: usize, k: usize) -> Result<(), Memory>
    ensures { OnOk result (pieces.new.items ≡ pieces.old.items ++ passing on c k) }
{
    if on && 0 < k {
        pieces.push(Piece::Passes((c % 65536) as u16))?;
    }
    Ok(())
}

/// The pieces of a program.
pub fn pieces(alloc: Global, p: &PProgram) -> Result<Vec<Piece>, Memory>
    ensures { IfOk result (λ pieces. pieces.items ≡ pieces_of p.now) }
{
    let entries = p.entries.as_slice();
    let mut pieces = Vec::new(alloc);
    let mut n = 0;
    let mut on = false;
    for (c, i) in p.code.iter().enumerate() {
        let k = due(c, &entries[n..]);
        push_passing(&mut pieces, on, c, k)?;
        push_fronts(&mut pieces, c, n, &entries[n..n + k])?;
        pieces.push(Piece::Runs(*i))?;
        n += k;
        on = goes_on(i);
    }
    push_fronts(&mut pieces, p.code.len(), n, &entries[n..])?;
    Ok(pieces)
}
