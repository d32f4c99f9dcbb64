// The words of a straight-line program, and its image.

ghost use Rattle.std.specs.Prelude.{◌≡◌, ◌≤◌, ◌+◌, ◌++◌, OnOk, IfOk, length};
ghost use Rattle.std.specs.List.{flat_map};
ghost use Rattle.mc_straight.specs.Form.{address_of};
ghost use Rattle.mc_compile.specs.Code.{move_code, put_code, code_of, word_bytes, image_of};

use mc_image::image::{Block, Image};
use mc_straight::form::{Put, StraightLine};
use mc_word::Word;
use mc_word::bytes::{Bytes, Memory};
use pdp_dev::entry::Port;
use std::alloc::Global;

/// Where the code begins: the kernel's room ends there.
const CODE: Word = 0o20000;

/// The address of the status word.
const PS: Word = 0o177776;

/// The address of the word that holds the number of processes that have not ended.
const LIVE: Word = 0o50;

/// WAIT
const WAIT: Word = 1;

/// The words of a straight-line program.
pub fn code(alloc: Global, form: &StraightLine) -> Result<Vec<Word>, Memory>
    requires { form.now.priority ≤ 7 }
    ensures { IfOk result (λ words. words.items ≡ code_of form.now) }
{
    let mut words = Vec::new(alloc);
    emit_move(&mut words, form.priority * 32, PS)?;
    emit_puts(&mut words, form.puts.as_slice())?;
    emit_move(&mut words, 0, PS)?;
    emit_move(&mut words, 0, LIVE)?;
    words.push(WAIT)?;
    Ok(words)
}

// The statements, one after the other.
fn emit_puts(words: &mut Vec<Word>, puts: &[Put]) -> Result<(), Memory>
    ensures { OnOk result (words.new.items ≡ words.old.items ++ flat_map put_code puts.now) }
{
    for put in puts {
        emit_move(words, u16::from(put.byte), address_of(put.port))?;
    }
    Ok(())
}

// The address of a port's byte register.
fn address_of(port: Port) -> Word
    ensures { result ≡ address_of port }
{
    match port {
        Port::Printer => 0o177566,
        Port::Punch => 0o177556,
    }
}

// MOV #word, @#address
fn emit_move(words: &mut Vec<Word>, word: Word, address: Word) -> Result<(), Memory>
    ensures { OnOk result (words.new.items ≡ words.old.items ++ move_code word address) }
{
    words.push(0o012737)?;
    words.push(word)?;
    words.push(address)?;
    Ok(())
}

/// The image of these words, with one process that has not ended.
pub fn image(alloc: Global, words: &[Word]) -> Result<Image, Memory>
    requires some { 1 ≤ length words.now }
    requires room { 4096 + length words.now ≤ 28672 }
    ensures { IfOk result (λ i. i ≡ image_of words.now) }
{
    let mut blocks = Vec::with_capacity(alloc, 2)?;
    blocks.push(Block {
        address: LIVE,
        bytes: Bytes::from_slice(alloc, &[1, 0])?,
    })?;
    blocks.push(Block {
        address: CODE,
        bytes: Bytes::from_vec(bytes_of(alloc, words)?),
    })?;
    Ok(Image::new(blocks, CODE))
}

// The bytes of words, the low one of each first.
fn bytes_of(alloc: Global, words: &[Word]) -> Result<Vec<u8>, Memory>
    ensures { IfOk result (λ bytes. bytes.items ≡ flat_map word_bytes words.now) }
{
    let mut bytes = Vec::new(alloc);
    for word in words {
        emit_word(&mut bytes, *word)?;
    }
    Ok(bytes)
}

fn emit_word(bytes: &mut Vec<u8>, word: Word) -> Result<(), Memory>
    ensures { OnOk result (bytes.new.items ≡ bytes.old.items ++ word_bytes word) }
{
    bytes.push((word % 256) as u8)?;
    bytes.push((word / 256) as u8)?;
    Ok(())
}
