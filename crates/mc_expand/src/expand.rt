// From a program of process code to its image.

ghost use Rattle.std.specs.Prelude.{◌≡◌, ◌↔◌, ◌+◌, ◌*◌, ◌≤◌, ◌<◌, length, IsTrue, IfOk, IfErr};
ghost use Rattle.std.specs.List.{flat_map};
ghost use Rattle.mc_image.specs.Format.{word_bytes};
ghost use Rattle.mc_expand.specs.Expanded.{code_items, place_offsets, entry_offsets, spots_of, words_of, memory_of, expanded};

use crate::fault::ExpandFault;
use crate::laid::{Laid, lay_out};
use crate::line::Item;
use crate::pieces::pieces;
use crate::put::{Spots, push_code, push_table, start_of};
use mc_image::image::{Block, Image};
use mc_kernel::layout::Layout;
use mc_kernel::memory::{low_memory, push_zeros};
use mc_pcode::program::PProgram;
use mc_word::Word;
use mc_word::bytes::{Bytes, Memory};
use std::alloc::Global;

/// How many words data and code may have.
const MOST: usize = 20_000;

// The words of the code of a program, and where its instructions and entries stand.
#[tactic(auto, unfolding(crate::specs::Expanded::code_items, crate::specs::Expanded::place_offsets, crate::specs::Expanded::entry_offsets))]
fn laid_program(alloc: Global, workspace: u16, p: &PProgram) -> Result<Laid, Memory>
    ensures items { IfOk result (λ laid. laid.items.items ≡ code_items workspace p.now) }
    ensures places { IfOk result (λ laid. laid.places.items ≡ place_offsets workspace p.now) }
    ensures entries { IfOk result (λ laid. laid.entries.items ≡ entry_offsets workspace p.now) }
{
    let pieces = pieces(alloc, p)?;
    lay_out(alloc, workspace, p, pieces.as_slice())
}

// Whether data, texts, so many words of code, and the table of processes are too many words.
fn is_too_large(p: &PProgram, items: usize) -> bool
    ensures { IsTrue result ↔ 20000 < p.now.data_words + length p.now.texts + items + 4 * length p.now.processes }
{
    let texts = p.texts.len();
    let processes = p.processes.len();
    texts > MOST
        || items > MOST
        || processes > MOST
        || p.data_words as usize + texts + items + 4 * processes > MOST
}

// Where what the words name stands.
fn spots(
    workspace: u16,
    p: &PProgram,
    items: usize,
    places: Vec<usize>,
    entries: Vec<usize>,
) -> Spots
    requires small { workspace ≤ 4096 }
    requires items { items ≡ length (code_items workspace p.now) }
    requires places { places.items ≡ place_offsets workspace p.now }
    requires entries { entries.items ≡ entry_offsets workspace p.now }
    requires fits { p.now.data_words + length p.now.texts + items + 4 * length p.now.processes ≤ 20000 }
    ensures { result ≡ spots_of workspace p.now }
{
    let code = 0o20000 + 2 * (p.data_words + p.texts.len() as Word);
    let table = code + 2 * items as Word;
    let top = table + 8 * p.processes.len() as Word + 2 * workspace;
    Spots {
        code,
        places,
        entries,
        table,
        top,
    }
}

// All words from address 0 to the end of the table of processes.
fn memory(
    alloc: Global,
    layout: &Layout,
    p: &PProgram,
    s: &Spots,
    items: &[Item],
) -> Result<Vec<Word>, Memory>
    requires spots { s.now ≡ spots_of layout.now.settings.workspace_words p.now }
    requires items { items.now ≡ code_items layout.now.settings.workspace_words p.now }
    requires fits { words_of layout.now.settings.workspace_words p.now ≤ 20000 }
    ensures value { IfOk result (λ words. words.items ≡ memory_of layout.now p.now) }
{
    let work_at = s.top - 2 * layout.settings.workspace_words;
    let mut words = low_memory(alloc, &layout.settings, work_at)?;
    push_zeros(&mut words, p.data_words as usize)?;
    words.extend_from_slice(p.texts.as_slice())?;
    push_code(&mut words, s, items)?;
    push_table(&mut words, s, p)?;
    Ok(words)
}

// The bytes of words, the low one of each first.
fn bytes_of(alloc: Global, words: &[Word]) -> Result<Vec<u8>, Memory>
    ensures { IfOk result (λ bytes. bytes.items ≡ flat_map word_bytes words.now) }
{
    let mut bytes = Vec::new(alloc);
    for word in words {
        bytes.extend_from_slice(&[(word % 256) as u8, (word / 256) as u8])?;
    }
    Ok(bytes)
}

/// The image of a program: one block from address 0 with vectors, the kernel, its variables, data, texts, code and the table of
/// processes; behind it lie the workspaces. It begins at the main process's entry.
#[tactic(auto, unfolding(crate::specs::Expanded::words_of))]
pub fn expand(alloc: Global, p: &PProgram, layout: &Layout) -> Result<Image, ExpandFault>
    requires kernel_at { layout.now.kernel_at ≡ 0o400 }
    requires data_at { layout.now.data_at ≡ 0o20000 }
    ensures ok { IfOk result (λ image. image ≡ expanded p.now layout.now) }
    ensures fits { IfOk result (λ image. words_of layout.now.settings.workspace_words p.now ≤ 20000) }
    ensures too_large { IfErr result (λ fault. fault ≡ ExpandFault.TooLarge → 20000 < words_of layout.now.settings.workspace_words p.now) }
{
    let workspace = layout.settings.workspace_words;
    let Laid {
        items,
        places,
        entries,
    } = laid_program(alloc, workspace, p)?;
    if is_too_large(p, items.len()) {
        return Err(ExpandFault::TooLarge);
    }
    let s = spots(workspace, p, items.len(), places, entries);
    let words = memory(alloc, layout, p, &s, items.as_slice())?;
    let bytes = Bytes::from_vec(bytes_of(alloc, words.as_slice())?);
    let mut blocks = Vec::with_capacity(alloc, 1)?;
    blocks.push(Block { address: 0, bytes })?;
    Ok(Image::new(blocks, start_of(&s)))
}
