// The kernel's words and entries.

ghost use Rattle.std.specs.Prelude.{◌≡◌, ◌+◌, ◌*◌, ◌≤◌, length, IfOk};
ghost use Rattle.mc_kernel.specs.Kernel.{kernel_entries};
ghost use Rattle.mc_kernel.specs.Words.{kernel_words};

use crate::layout::{Kernel, Layout};
use crate::words::WORDS;
use mc_word::Word;
use mc_word::bytes::Memory;
use std::alloc::Global;

/// The address of the entry that delays a process: the signal's address in R0, the rank in R1.
pub const WAIT: Word = 0o710;
/// Of the entry that sends to the signal whose address is in R0.
pub const SEND: Word = 0o610;
/// Of the entry by which a device process waits for its interrupt.
pub const DOIO: Word = 0o746;
/// Of the entry that starts the process whose record's address is in R0.
pub const START: Word = 0o772;
/// Of the entry that ends a process.
pub const END: Word = 0o754;

/// The addresses of wait, send, awaited, doio, start, end, enter, leave, interrupt, choose and trap, in this order.
const ENTRIES: [Word; 11] = [
    0o710, 0o610, 0o672, 0o746, 0o772, 0o754, 0o672, 0o672, 0o474, 0o536, 0o1126,
];

// The kernel's words.
#[tactic(auto, unfolding(crate::specs::Words::kernel_words))]
fn words(alloc: Global) -> Result<Vec<Word>, Memory>
    ensures value { IfOk result (λ words. words.items ≡ kernel_words) }
    ensures length { IfOk result (λ words. length words.items ≡ 179) }
{
    Ok(Vec::from_slice(alloc, &WORDS)?)
}

// The addresses of its entries.
#[tactic(auto, unfolding(crate::specs::Kernel::kernel_entries))]
fn entries(alloc: Global) -> Result<Vec<Word>, Memory>
    ensures { IfOk result (λ entries. entries.items ≡ kernel_entries) }
{
    Ok(Vec::from_slice(alloc, &ENTRIES)?)
}

/// The kernel for a layout. Its words are the same for every program and all settings.
pub fn kernel(alloc: Global, layout: &Layout) -> Result<Kernel, Memory>
    requires kernel_at { layout.now.kernel_at ≡ 0o400 }
    requires data_at { layout.now.data_at ≡ 0o20000 }
    ensures words { IfOk result (λ k. k.words.items ≡ kernel_words) }
    ensures entries { IfOk result (λ k. k.entries.items ≡ kernel_entries) }
    ensures fits { IfOk result (λ k. layout.now.kernel_at + 2 * length k.words.items ≤ layout.now.data_at) }
{
    Ok(Kernel {
        words: words(alloc)?,
        entries: entries(alloc)?,
    })
}
