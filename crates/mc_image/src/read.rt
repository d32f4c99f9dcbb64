// Reading an image.

ghost use Rattle.std.specs.Prelude.{◌≡◌, ◌≢◌, ℕ, ◌+◌, ◌%◌, ◌<◌, ◌^◌, ◌⊎◌, List, [], ◌∷◌, ◌++◌, length, slice_index, replicate, IfOk, IfErr, OnOk, MatchResult, MatchBool, IsTrue};
ghost use Rattle.mc_image.specs.declared.image.Block.{Block};
ghost use Rattle.mc_image.specs.declared.fault.ImageFault.{ImageFault};
ghost use Rattle.mc_image.specs.Blocks.{IsApartFrom, AreBlocks};
ghost use Rattle.mc_image.specs.Image.{ImageState};
ghost use Rattle.mc_image.specs.Format.{block_bytes, start_bytes, IsImage};
ghost use Rattle.mc_image.specs.Faults.{StandsAt, HasFirstFault};
ghost use Rattle.mc_image.specs.Steps.{IsHeaded, MayStand, IsRefusal};

use crate::bytes::{sum_of, word_at};
use crate::fault::ImageFault;
use crate::image::{Block, Image};
use mc_word::Word;
use mc_word::bytes::Bytes;
use std::alloc::Global;

/// How many bytes a block's header has: 001, 000, the count and the address.
const HEADER: usize = 6;

/// How many bytes the start block has.
const START: usize = 7;

/// How many bytes memory has: its last byte is at 157777 octal.
const MEMORY: usize = 0o160000;

/// The count and the address of the block that begins at the front, where all counted bytes and the
/// checksum are there.
fn header(rest: &[u8], at: usize) -> Result<(usize, Word), ImageFault>
    requires some { 0 < length rest.now }
    requires no_null { slice_index rest.now 0 ≢ 0 }
    requires place { at + length rest.now < 2 ^ 64 }
    ensures ok { IfOk result (λ header. IsHeaded header.0 header.1 rest.now) }
    ensures refused { IfErr result (λ fault. (blocks : List Block) → StandsAt fault at blocks rest.now) }
{
    if rest[0] != 1 {
        return Err(ImageFault::BadHeader(at));
    }
    if rest.len() == 1 {
        return Err(ImageFault::Truncated(at));
    }
    if rest[1] != 0 {
        return Err(ImageFault::BadHeader(at + 1));
    }
    if rest.len() < HEADER {
        return Err(ImageFault::Truncated(at));
    }
    let count = usize::from(word_at(&rest[2..]));
    if count < HEADER {
        return Err(ImageFault::BadCount(at));
    }
    if rest.len() <= count {
        return Err(ImageFault::Truncated(at));
    }
    Ok((count, word_at(&rest[4..])))
}

/// The address and the data of the block at the front, and what stands behind it.
fn whole_block(rest: &[u8], at: usize) -> Result<(Word, &[u8], &[u8]), ImageFault>
    requires some { 0 < length rest.now }
    requires no_null { slice_index rest.now 0 ≢ 0 }
    requires place { at + length rest.now < 2 ^ 64 }
    ensures ok { IfOk result (λ block. rest.now ≡ block_bytes block.0 block.1.now ++ block.2.now) }
    ensures refused { IfErr result (λ fault. (blocks : List Block) → StandsAt fault at blocks rest.now) }
{
    let (count, address) = header(rest, at)?;
    if sum_of(&rest[..count + 1]) != 0 {
        return Err(ImageFault::BadSum(at));
    }
    Ok((address, &rest[HEADER..count], &rest[count + 1..]))
}

/// Whether these bytes, from this address on, overlap none of the blocks.
fn is_apart(blocks: &[Block], address: Word, bytes: &[u8]) -> bool
    requires placed { AreBlocks blocks.now }
    requires short { length bytes.now < 65536 }
    ensures { MatchBool result (IsApartFrom (record { address = address; bytes = bytes.now }) blocks.now) (¬ IsApartFrom (record { address = address; bytes = bytes.now }) blocks.now) }
{
    let begin = usize::from(address);
    let end = begin + bytes.len();
    for block in blocks {
        let other = usize::from(block.address);
        if end > other && other + block.bytes.as_slice().len() > begin {
            return false;
        }
    }
    true
}

/// Adds a block of data, which begins at the place `at`.
fn place_block(
    alloc: Global,
    blocks: &mut Vec<Block>,
    address: Word,
    bytes: &[u8],
    at: usize,
) -> Result<(), ImageFault>
    requires some { bytes.now ≢ [] }
    requires placed { AreBlocks blocks.old.items }
    ensures added { OnOk result (blocks.new.items ≡ blocks.old.items ++ record { address = address; bytes = bytes.now } ∷ []) }
    ensures placed { OnOk result (AreBlocks blocks.new.items) }
    ensures refused { IfErr result (λ fault. (left : List ℕ) → MayStand fault at blocks.old.items (block_bytes address bytes.now ++ left)) }
{
    if usize::from(address) >= MEMORY || bytes.len() > MEMORY - usize::from(address) {
        return Err(ImageFault::OutOfMemoryRange(at));
    }
    if !is_apart(blocks, address, bytes) {
        return Err(ImageFault::Overlap(at));
    }
    blocks.push(Block {
        address,
        bytes: Bytes::from_slice(alloc, bytes)?,
    })?;
    Ok(())
}

/// The image of these blocks, where the start block stands at the place `at` and `left` behind it.
fn finish(blocks: Vec<Block>, start: Word, left: &[u8], at: usize) -> Result<Image, ImageFault>
    requires placed { AreBlocks blocks.items }
    requires place { at + 7 + length left.now < 2 ^ 64 }
    ensures ok { IfOk result (λ image. image ≡ record { blocks = blocks.items; start = start }) }
    ensures even { OnOk result (start % 2 ≡ 0) }
    ensures nulls { OnOk result (left.now ≡ replicate (length left.now) 0) }
    ensures refused { IfErr result (λ fault. StandsAt fault at blocks.items (start_bytes start ++ left.now)) }
{
    if start % 2 == 1 {
        return Err(ImageFault::NoStart);
    }
    for (i, b) in left.iter().enumerate() {
        if *b != 0 {
            return Err(ImageFault::Trailing(at + START + i));
        }
    }
    Ok(Image::new(blocks, start))
}

/// The image that these bytes are.
///
/// The answer is `Ok` exactly where the bytes are an image, and otherwise their first fault; want of memory may
/// come in place of either.
pub fn read_image(alloc: Global, bytes: &[u8]) -> Result<Image, ImageFault>
    ensures ok { IfOk result (λ image. IsImage bytes.now image) }
    ensures refused { IfErr result (λ fault. (fault ≡ ImageFault.Memory) ⊎ HasFirstFault bytes.now fault) }

    // and so all bytes are answered in one way
    ensures accepts { (image : ImageState) → IsImage bytes.now image → MatchResult result (λ i. i ≡ image) (λ fault. fault ≡ ImageFault.Memory) }
    ensures refuses { (fault : ImageFault) → HasFirstFault bytes.now fault → MatchResult result (λ _. ⊥) (λ f. (f ≡ ImageFault.Memory) ⊎ (f ≡ fault)) }
{
    read_blocks(alloc, bytes)
}

/// Reads nulls and blocks one after the other.
fn read_blocks(alloc: Global, bytes: &[u8]) -> Result<Image, ImageFault>
    ensures ok { IfOk result (λ image. IsImage bytes.now image) }
    ensures refused { IfErr result (λ fault. IsRefusal fault bytes.now) }
{
    let mut blocks = Vec::new(alloc);
    let mut at = 0;
    while at < bytes.len() {
        let rest = &bytes[at..];
        if rest[0] == 0 {
            at += 1;
            continue;
        }
        let (address, data, left) = whole_block(rest, at)?;
        if data.is_empty() {
            return finish(blocks, address, left, at);
        }
        place_block(alloc, &mut blocks, address, data, at)?;
        at = bytes.len() - left.len();
    }
    Err(ImageFault::NoStart)
}
