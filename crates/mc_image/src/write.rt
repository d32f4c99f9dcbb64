// Writing an image.

ghost use Rattle.std.specs.Prelude.{◌≡◌, ◌+◌, ◌<◌, ◌++◌, length, IfOk, OnOk};
ghost use Rattle.mc_image.specs.Format.{block_bytes, image_bytes, IsImage};

use crate::bytes::{sum_of, word_bytes};
use crate::image::Image;
use mc_word::Word;
use mc_word::bytes::Memory;
use std::alloc::Global;

/// Adds a block with its checksum.
fn put_block(out: &mut Vec<u8>, address: Word, bytes: &[u8]) -> Result<(), Memory>
    requires { 6 + length bytes.now < 65536 }
    ensures { OnOk result (out.new.items ≡ out.old.items ++ block_bytes address bytes.now) }
{
    let begin = out.len();
    out.extend_from_slice(&[1, 0])?;
    out.extend_from_slice(&word_bytes(6 + bytes.len() as u16))?;
    out.extend_from_slice(&word_bytes(address))?;
    out.extend_from_slice(bytes)?;
    let sum = sum_of(&out[begin..]);
    out.push(sum.wrapping_neg())?;
    Ok(())
}

/// The bytes of an image, without nulls: its blocks in their order, and the start block.
pub fn write_image(alloc: Global, image: &Image) -> Result<Vec<u8>, Memory>
    ensures written { IfOk result (λ bytes. bytes.items ≡ image_bytes image.now) }

    // and so `read_image` gives the image back
    ensures reads_back { IfOk result (λ bytes. IsImage bytes.items image.now) }
{
    let mut out = Vec::new(alloc);
    for block in image.blocks() {
        put_block(&mut out, block.address, block.bytes.as_slice())?;
    }
    put_block(&mut out, image.start(), &[])?;
    Ok(out)
}
