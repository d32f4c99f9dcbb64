// Words and sums of bytes.

ghost use Rattle.std.specs.Prelude.{◌≡◌, ◌≤◌, ◌+◌, ◌*◌, ◌%◌, length, slice_index, sum};
ghost use Rattle.mc_image.specs.Format.{word_bytes};

use byteorder::{ByteOrder, LittleEndian};
use mc_word::Word;

/// The word whose low byte is the first.
pub fn word_at(bytes: &[u8]) -> Word
    requires { 2 ≤ length bytes.now }
    ensures { result ≡ slice_index bytes.now 0 + 256 * slice_index bytes.now 1 }
{
    LittleEndian::read_u16(bytes)
}

/// The two bytes of a word, the low one first.
pub fn word_bytes(word: Word) -> [u8; 2]
    ensures { result ≡ word_bytes word }
{
    let mut bytes = [0; 2];
    LittleEndian::write_u16(&mut bytes, word);
    bytes
}

/// The sum of the bytes, modulo 256.
pub fn sum_of(bytes: &[u8]) -> u8
    ensures { result ≡ sum bytes.now % 256 }
{
    let mut sum = 0u8;
    for b in bytes {
        sum = sum.wrapping_add(*b);
    }
    sum
}
