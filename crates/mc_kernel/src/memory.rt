// The memory below the data when a compiled program begins.

ghost use Rattle.std.specs.Prelude.{◌≡◌, ◌+◌, ◌*◌, ◌≤◌, ◌<◌, ◌++◌, length, IfOk, OnOk};
ghost use Rattle.mc_kernel.specs.Words.{kernel_words};
ghost use Rattle.mc_kernel.specs.Memory.{zeros, live_of, descriptor_at, top_of, bound_of, vectors, free_of, variables, link_of, descriptor, descriptors, low_of, low_memory, slot_at};

use crate::words::WORDS;
use mc_word::Word;
use mc_word::bytes::Memory;
use mc_word::word::Settings;
use std::alloc::Global;

/// From 0 to 103 (octal): EMT and TRAP, the number of live processes, and the five vectors of devices.
const VECTORS: [Word; 34] = [
    0, 0, 0, 0, 0, 0, 0, 0, 0, 0, 0, 0, //
    0o400, 0o340, 0o1126, 0o340, 0, 0, 0, 0, //
    1, 0, 0, 0, //
    0o446, 0o340, 0o456, 0o340, 0o426, 0o340, 0o436, 0o340, 0o466, 0o340,
];

/// Adds so many zeros.
#[tactic(auto, unfolding(crate::specs::Memory::zeros))]
pub fn push_zeros(words: &mut Vec<Word>, n: usize) -> Result<(), Memory>
    ensures { OnOk result (words.new.items ≡ words.old.items ++ zeros n) }
{
    for _i in 0..n {
        words.push(0)?;
    }
    Ok(())
}

// How many processes can be live in the memory from this address on.
fn live_of(settings: &Settings, work_at: Word) -> Word
    requires { work_at ≤ 57344 }
    ensures { result ≡ live_of settings.now.workspace_words settings.now.processes work_at }
{
    settings
        .processes
        .min((0o160000 - work_at) / (2 * settings.workspace_words))
}

// The address of a descriptor.
fn descriptor_at(i: Word) -> Word
    requires { i ≤ 32 }
    ensures { result ≡ descriptor_at i }
{
    0o4000 + 32 * i
}

// The first free descriptor.
fn free_of(live: Word) -> Word
    ensures { result ≡ free_of live }
{
    if 1 < live { descriptor_at(1) } else { 0 }
}

// The free descriptor behind this one.
fn link_of(live: Word, i: Word) -> Word
    requires { i < 32 }
    ensures { result ≡ link_of live i }
{
    if i == 0 {
        0
    } else if i + 1 < live {
        descriptor_at(i + 1)
    } else {
        0
    }
}

// The address behind the workspace of a descriptor.
fn top_of(workspace: Word, work_at: Word, i: Word) -> Word
    requires { work_at + 2 * workspace * (i + 1) ≤ 57344 }
    ensures { result ≡ top_of workspace work_at i }
{
    (u32::from(work_at) + 2 * u32::from(workspace) * (u32::from(i) + 1)) as Word
}

// The address that no frame in the workspace of a descriptor passes.
fn bound_of(workspace: Word, work_at: Word, i: Word) -> Word
    requires { work_at + 2 * workspace * (i + 1) ≤ 57344 }
    ensures { result ≡ bound_of workspace work_at i }
{
    (u32::from(work_at) + 2 * u32::from(workspace) * u32::from(i) + 80) as Word
}

// Adds the words from 0 to 103 (octal).
#[tactic(auto, unfolding(crate::specs::Memory::vectors))]
fn push_vectors(words: &mut Vec<Word>) -> Result<(), Memory>
    ensures { OnOk result (words.new.items ≡ words.old.items ++ vectors) }
{
    words.extend_from_slice(&VECTORS)?;
    Ok(())
}

// Adds the kernel.
#[tactic(auto, unfolding(crate::specs::Words::kernel_words))]
fn push_kernel(words: &mut Vec<Word>) -> Result<(), Memory>
    ensures { OnOk result (words.new.items ≡ words.old.items ++ kernel_words) }
{
    words.extend_from_slice(&WORDS)?;
    Ok(())
}

// Adds the kernel's variables.
#[tactic(auto, unfolding(crate::specs::Memory::variables))]
fn push_variables(
    words: &mut Vec<Word>,
    workspace: Word,
    work_at: Word,
    live: Word,
) -> Result<(), Memory>
    requires { work_at + 2 * workspace ≤ 57344 }
    ensures { OnOk result (words.new.items ≡ words.old.items ++ variables workspace work_at live) }
{
    let bound = bound_of(workspace, work_at, 0);
    words.extend_from_slice(&[descriptor_at(0), bound, 0, 0o2004, free_of(live)])?;
    Ok(())
}

// Adds a descriptor: what leads to the next free one, its bound and its top.
#[tactic(auto, unfolding(crate::specs::Memory::descriptor))]
fn push_descriptor(
    words: &mut Vec<Word>,
    workspace: Word,
    work_at: Word,
    live: Word,
    i: Word,
) -> Result<(), Memory>
    requires number { i < 32 }
    requires fits { i < live → work_at + 2 * workspace * (i + 1) ≤ 57344 }
    ensures { OnOk result (words.new.items ≡ words.old.items ++ descriptor workspace work_at live i) }
{
    if i < live {
        let link = link_of(live, i);
        let bound = bound_of(workspace, work_at, i);
        let top = top_of(workspace, work_at, i);
        words.extend_from_slice(&[link, 0, 0, bound, 0, 0, top, 0, 0, 0, 0, 0, 0, 0, 0, 0])?;
    } else {
        words.extend_from_slice(&[0, 0, 0, 0, 0, 0, 0, 0, 0, 0, 0, 0, 0, 0, 0, 0])?;
    }
    Ok(())
}

// Adds all descriptors.
fn push_descriptors(
    words: &mut Vec<Word>,
    workspace: Word,
    work_at: Word,
    live: Word,
) -> Result<(), Memory>
    requires { work_at + 2 * workspace * live ≤ 57344 }
    ensures { OnOk result (words.new.items ≡ words.old.items ++ descriptors workspace work_at live 32) }
{
    for i in 0..32 {
        push_descriptor(words, workspace, work_at, live, i)?;
    }
    Ok(())
}

/// The words from 0 up to 20000 (octal) where workspaces begin at this address: the main process acts, in the first one.
pub fn low_memory(alloc: Global, settings: &Settings, work_at: Word) -> Result<Vec<Word>, Memory>
    requires { work_at ≤ 49152 }
    ensures value { IfOk result (λ words. words.items ≡ low_memory settings.now.workspace_words settings.now.processes work_at) }
    ensures length { IfOk result (λ words. length words.items ≡ 4096) }
{
    let workspace = settings.workspace_words;
    let live = live_of(settings, work_at);
    let mut words = Vec::new(alloc);
    push_vectors(&mut words)?;
    push_zeros(&mut words, 94)?;
    push_kernel(&mut words)?;
    push_zeros(&mut words, 205)?;
    push_variables(&mut words, workspace, work_at, live)?;
    push_zeros(&mut words, 507)?;
    push_descriptors(&mut words, workspace, work_at, live)?;
    push_zeros(&mut words, 2560)?;
    Ok(words)
}

/// The slot of a vector: two words of the kernel, the descriptor that stands at doio or 0, and whether it was started.
pub fn slot_at(vector: Word) -> Word
    ensures { result ≡ slot_at vector }
{
    match vector {
        0o60 => 0o2030,
        0o64 => 0o2034,
        0o70 => 0o2020,
        0o74 => 0o2024,
        0o100 => 0o2040,
        _ => 0,
    }
}
