// What names, elements, fields and bits name, and the words of bits.

ghost use Rattle.std.specs.Prelude.{◌≡◌, ◌<◌, ◌+◌, ◌*◌, ◌^◌, IfOk, MatchOption, Some, None, int_lt, if◌then◌else◌, ◌-ℤ◌};
ghost use Rattle.mc_prog.specs.Values.{truth};
ghost use Rattle.mc_word.specs.Word.{signed_of};
ghost use Rattle.mc_meaning.specs.Access.{bit_of, cell_target, element_offset, field_in, field_offset, moved, moved_name, reference_of, slot_target, value_of, with_bit, words_above};

use crate::parts::{CHAR, part_at, type_at, words_of};
use crate::process::{Process, Reference};
use crate::store::{Name, Target};
use mc_prog::program::{Form, Program, Shape};
use mc_word::Word;
use mc_word::bytes::Memory;
use mc_word::word::signed;

/// The value of a word of this type: of a register that is a character the low byte.
pub(crate) fn value_of(type_of: u32, there: Target, word: Word) -> Word
    ensures { result ≡ value_of type_of there word }
{
    match there {
        Target::Stored(_) => word,
        Target::Register(_) => { if type_of == CHAR { word % 256 } else { word } }
    }
}

// The word that stands so many words further, where its number can be kept.
fn further(word: u32, k: u64) -> Result<u32, Memory>
    ensures { IfOk result (λ sum. sum ≡ word + k) }
{
    let Some(sum) = u64::from(word).checked_add(k) else {
        return Err(Memory);
    };
    match u32::try_from(sum) {
        Ok(sum) => Ok(sum),
        Err(_) => Err(Memory),
    }
}

/// The name of the word that stands so many words further.
pub(crate) fn moved_name(name: Name, k: u64) -> Result<Name, Memory>
    ensures { IfOk result (λ moved. moved ≡ moved_name name k) }
{
    match name {
        Name::Variable(cell, word) => Ok(Name::Variable(cell, further(word, k)?)),
        Name::Private(process, activation, slot, word) => {
            Ok(Name::Private(process, activation, slot, further(word, k)?))
        }
    }
}

/// What stands so many words further.
pub(crate) fn moved(there: Target, k: u64) -> Result<Target, Memory>
    ensures { IfOk result (λ there_. there_ ≡ moved there k) }
{
    match there {
        Target::Stored(name) => Ok(Target::Stored(moved_name(name, k)?)),
        Target::Register(a) => Ok(Target::Register(a)),
    }
}

/// What a variable of a module names: its register, or its first word.
pub(crate) fn cell_target(program: &Program, cell: u32) -> Target
    ensures { result ≡ cell_target program.now cell }
{
    match program.cells().get(cell as usize) {
        Some(info) => match info.register {
            Some(a) => Target::Register(a),
            None => Target::Stored(Name::Variable(cell, 0)),
        },
        None => Target::Stored(Name::Variable(cell, 0)),
    }
}

// What a `var` parameter stands for; a slot that is none names its own first word.
fn reference_of(references: &[Reference], slot: u32, own: Target) -> Target
    ensures { result ≡ reference_of references.now slot own }
{
    for reference in references {
        if reference.slot == slot {
            return reference.target;
        }
    }
    own
}

/// What a slot names in the last activation of the process of this number.
pub(crate) fn slot_target(n: u32, q: &Process, slot: u32) -> Target
    ensures { result ≡ slot_target n q.now.activations slot }
{
    match q.last_activation() {
        Some(activation) => {
            let own = Target::Stored(Name::Private(n, q.depth() - 1, slot, 0));
            reference_of(activation.references.references.as_slice(), slot, own)
        }
        None => Target::Stored(Name::Private(n, 0, slot, 0)),
    }
}

// How many words of a record stand before a field of it.
fn field_in(shape: &Shape, form: &Form) -> u32
    ensures { result ≡ field_in shape.now form.now }
{
    match (shape, form) {
        (Shape::Record(fields), Form::Field(k)) => match fields.fields.get(*k as usize) {
            Some(field) => field.offset,
            None => 0,
        },
        _ => 0,
    }
}

/// How many words of a record stand before the selected field.
pub(crate) fn field_offset(program: &Program, n: u32) -> u32
    ensures { result ≡ field_offset program.now n }
{
    let type_of = type_at(program, part_at(program, n, 0));
    let shape = program.types().get(type_of as usize);
    let field = program.nodes().get(part_at(program, n, 1) as usize);
    match (shape, field) {
        (Some(info), Some(node)) => field_in(&info.shape, &node.form),
        _ => 0,
    }
}

// How many words of an array with these bounds stand before an element.
fn element_in(low: i16, high: i16, words: u32, index: Word) -> Option<u64>
    ensures { result ≡ (if int_lt (signed_of index) low then None else (if int_lt high (signed_of index) then None else Some (words_above (signed_of index -ℤ low) * words))) }
{
    let i = signed(index);
    if i < low || high < i {
        None
    } else {
        let above = i32::from(i) - i32::from(low);
        Some(above as u64 * u64::from(words))
    }
}

/// How many words of an array stand before the element of this index; none outside the bounds.
pub(crate) fn element_offset(program: &Program, n: u32, index: Word) -> Option<u64>
    ensures { result ≡ element_offset program.now n index }
{
    let type_of = type_at(program, part_at(program, n, 0));
    match program.types().get(type_of as usize) {
        Some(info) => match &info.shape {
            Shape::Array(_, low, high, element) => {
                element_in(*low, *high, words_of(program, *element), index)
            }
            _ => None,
        },
        None => None,
    }
}

/// The word that has a bit of this number alone.
pub(crate) fn unit_of(i: u16) -> Option<Word>
    ensures { MatchOption result (15 < i) (λ unit. unit ≡ 2 ^ i) }
{
    if i < 16 { Some(1 << i) } else { None }
}

/// A bit of a word.
pub(crate) fn bit_of(word: Word, i: u16) -> Word
    ensures { result ≡ bit_of word i }
{
    match unit_of(i) {
        Some(unit) => word / unit % 2,
        None => 0,
    }
}

/// The word with this bit; past the bits of a word there is none.
pub(crate) fn with_bit(word: Word, i: u16, is_set: bool) -> Word
    ensures { result ≡ with_bit word i (truth is_set) }
{
    let Some(unit) = unit_of(i) else {
        return word;
    };
    let other = word - word / unit % 2 * unit;
    if is_set {
        other.wrapping_add(unit)
    } else {
        other
    }
}
