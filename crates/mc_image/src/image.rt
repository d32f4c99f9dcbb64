// What an image says, apart from how it is written.

ghost use Rattle.std.specs.Prelude.{◌≡◌, ◌%◌};
ghost use Rattle.mc_image.specs.Blocks.{AreBlocks};
ghost use Rattle.mc_image.specs.declared.image.Block.{Block};

use mc_word::Word;
use mc_word::bytes::Bytes;
use std::marker::Model;

/// Bytes that stand in memory from an address on, which may be odd.
#[derive(Debug, Drop)]
pub struct Block {
    pub address: Word,
    pub bytes: Bytes,
}

/// An image. Its blocks are not empty, lie in memory (below 160000 octal) and do not overlap; its start is even.
#[derive(Drop)]
pub struct Image {
    blocks: Vec<Block>,
    start: Word,
}

impl Model for Image {
    ghost use Rattle.std.specs.Prelude.{◌≡◌, ◌%◌};
    ghost use Rattle.mc_image.specs.Blocks.{AreBlocks};
    ghost use Rattle.mc_image.specs.Image.{ImageState};

    ghost Value = { ImageState };

    ghost view = { λ i. record { blocks = i.blocks.items; start = i.start } };

    ghost invariant = { λ i. AreBlocks i.blocks.items × (i.start % 2 ≡ 0) };
}

impl Image {
    /// The image of these blocks, which keep their order.
    pub fn new(blocks: Vec<Block>, start: Word) -> Image
        requires blocks { AreBlocks blocks.items }
        requires even { start % 2 ≡ 0 }
        ensures { result ≡ record { blocks = blocks.items; start = start } }
    {
        Image { blocks, start }
    }

    /// The blocks, in their order.
    pub fn blocks(&self) -> &[Block]
        ensures value { result.now ≡ self.now.blocks }
        ensures placed { AreBlocks result.now }
    {
        self.blocks.as_slice()
    }

    /// The address of the first instruction.
    pub fn start(&self) -> Word
        ensures value { result ≡ self.now.start }
        ensures even { result % 2 ≡ 0 }
    {
        self.start
    }
}
