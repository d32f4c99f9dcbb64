// What stands in front of the code of an entry.

ghost use Rattle.std.specs.Prelude.{◌≡◌, nat_lt, IfOk};
ghost use Rattle.mc_expand.specs.Templates.{entered, opened, main_opened, main_full, is_full, prologue};

use crate::line::{Argument, Item, Line, bare, two};
use crate::parts::{
    BCC, CMP, MOV, PUSHED, R4, R5, SP, SUB, address, doubled, number, single, trap,
};
use mc_pcode::program::PEntry;
use mc_word::bytes::Memory;
use std::alloc::Global;

/// The address of the bound of what acts: below it no frame goes.
const BOUND_AT: u16 = 0o2002;

// Room for the frame is checked; the locals lie below the place of return and the R4 before.
fn entered(alloc: Global, e: &PEntry) -> Result<Vec<Line>, Memory>
    ensures { IfOk result (λ lines. lines.items ≡ entered e.now) }
{
    Ok(vec![in alloc;
        two(MOV, SP, R5),
        two(SUB, number(doubled(e.frame)), R5),
        two(CMP, R5, address(BOUND_AT)),
        bare(BCC + 1),
        trap(8),
        two(MOV, R4, PUSHED),
        two(SUB, number(doubled(e.locals)), SP),
        two(MOV, SP, R4),
    ]?)
}

// The locals of a process's text.
fn opened(alloc: Global, e: &PEntry) -> Result<Vec<Line>, Memory>
    ensures { IfOk result (λ lines. lines.items ≡ opened e.now) }
{
    Ok(vec![in alloc; two(SUB, number(doubled(e.locals)), SP), two(MOV, SP, R4)]?)
}

// The stack pointer is that of the main process's workspace, below it its locals.
fn main_opened(alloc: Global, e: &PEntry) -> Result<Vec<Line>, Memory>
    ensures { IfOk result (λ lines. lines.items ≡ main_opened e.now) }
{
    let top = two(MOV, Argument::Immediate(Item::MainTop), SP);
    Ok(vec![in alloc;
        top,
        two(SUB, number(doubled(e.locals)), SP),
        two(MOV, SP, R4),
    ]?)
}

// The main process's frame does not fit.
fn main_full(alloc: Global) -> Result<Vec<Line>, Memory>
    ensures { IfOk result (λ lines. lines.items ≡ main_full) }
{
    Ok(vec![in alloc; two(MOV, Argument::Immediate(Item::MainTop), SP), trap(8)]?)
}

// Whether a frame does not fit into a workspace of so many words.
fn is_full(workspace: u16, e: &PEntry) -> bool
    ensures { result ≡ is_full workspace e.now }
{
    u64::from(workspace) < 40 + u64::from(e.frame)
}

/// What stands in front of the code of the entry of this number, where workspaces have so many words. The main process's
/// entry is number 0, and those of so many processes follow.
pub fn prologue(
    alloc: Global,
    workspace: u16,
    processes: usize,
    n: usize,
    e: &PEntry,
) -> Result<Vec<Line>, Memory>
    ensures { IfOk result (λ lines. lines.items ≡ prologue workspace processes n e.now) }
{
    let full = is_full(workspace, e);
    if n == 0 {
        if full {
            main_full(alloc)
        } else {
            main_opened(alloc, e)
        }
    } else if full {
        single(alloc, trap(8))
    } else if n <= processes {
        opened(alloc, e)
    } else {
        entered(alloc, e)
    }
}
