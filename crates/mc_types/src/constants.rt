// Expressions that must be constant: those of constant declarations, of bits in brackets, of labels and of addresses,
// vectors and priorities.

ghost use Rattle.std.specs.Prelude.{◌≡◌, ◌<◌, None};
ghost use Rattle.mc_prog.specs.Known.{bits};
ghost use Rattle.mc_prog.specs.declared.typing.Meaning.TheVariants.{Constant};
ghost use Rattle.mc_prog.specs.Constants.{address_fault, bit_fault, bits_between, bits_of, bits_with, element, element_with, fixed_fault, is_constant, is_constant_of, number_fault, order_fault, word_of};

use crate::said::{fault_at, fine, wants_type};
use mc_prog::program::TypeInfo;
use mc_prog::typing::{BITS, INTEGER, Meaning, Said, Typed};
use mc_tree::fault::{Code, Fault};
use mc_word::Word;

/// The fault of an expression that is not constant, or whose evaluation traps.
pub fn fixed_fault(part: Typed) -> Option<Fault>
    ensures { result ≡ fixed_fault part }
{
    match part.meaning {
        Meaning::Trap(_) => fault_at(Code::Y5, part.place),
        _ if part.fixed => None,
        _ => fault_at(Code::Y5, part.place),
    }
}

/// The word of a constant; 0 where there is none.
pub fn word_of(meaning: Meaning) -> Word
    ensures { result ≡ word_of meaning }
{
    match meaning {
        Meaning::Constant(_, word) => word,
        _ => 0,
    }
}

/// Whether something is a constant.
pub fn is_constant(meaning: Meaning) -> bool
    ensures { result ≡ is_constant meaning }
{
    matches!(meaning, Meaning::Constant(_, _))
}

/// Whether something is a constant of a type.
pub fn is_constant_of(t: u32, meaning: Meaning) -> bool
    ensures { result ≡ is_constant_of t meaning }
{
    match meaning {
        Meaning::Constant(type_of, _) => type_of == t,
        _ => false,
    }
}

/// The fault of an address, a vector or a priority that is no integer constant.
pub fn address_fault(part: Typed) -> Option<Fault>
    ensures { result ≡ address_fault part }
{
    if part.fixed && is_constant_of(INTEGER, part.meaning) {
        None
    } else {
        fault_at(Code::Y5, part.place)
    }
}

// The fault of a constant past 15.
fn number_fault(part: Typed) -> Option<Fault>
    ensures fault { result ≡ number_fault part }
    ensures within { result ≡ None → word_of part.meaning < 16 }
{
    match part.meaning {
        Meaning::Constant(_, number) if number >= 16 => fault_at(Code::Y5, part.place),
        _ => None,
    }
}

// The fault of what is not the number of a bit, an integer constant from 0 to 15.
fn bit_fault(types: &[TypeInfo], part: Typed) -> Option<Fault>
    ensures fault { result ≡ bit_fault types.now part }
    ensures within { result ≡ None → word_of part.meaning < 16 }
{
    fixed_fault(part)
        .or(wants_type(types, INTEGER, Code::Y1, part))
        .or(number_fault(part))
}

// The fault of bits whose last is before their first.
fn order_fault(first: Typed, last: Typed) -> Option<Fault>
    ensures { result ≡ order_fault first last }
{
    match (first.meaning, last.meaning) {
        (Meaning::Constant(_, low), Meaning::Constant(_, high)) if high < low => {
            fault_at(Code::Y4, first.place)
        }
        _ => None,
    }
}

// The word whose bits from one to another are set.
fn bits_between(first: Word, last: Word) -> Word
    ensures { last < 16 → result ≡ bits_between first last }
{
    // The bit behind the last one may be one more than a word has.
    let behind = 2_u32.saturating_pow(u32::from(last) + 1);
    let before = 2_u32.saturating_pow(u32::from(first));
    Word::try_from(behind.saturating_sub(before)).unwrap_or(Word::MAX)
}

// One bit, or those from one to another, where the numbers have this fault.
fn element_with(fault: Option<Fault>, first: Typed, last: Typed) -> Said
    ensures { (fault ≡ None → word_of last.meaning < 16) → result ≡ element_with fault first last }
{
    let meaning = match (fault, first.meaning, last.meaning) {
        (None, Meaning::Constant(_, low), Meaning::Constant(_, high)) => {
            Meaning::Constant(BITS, bits_between(low, high))
        }
        _ => Meaning::Faulty,
    };
    Said { meaning, fault }
}

/// What is said of one bit, or of those from one to another.
pub fn element(types: &[TypeInfo], parts: &[Typed]) -> Said
    ensures { result ≡ element types.now parts.now }
{
    match parts {
        [] => fine(Meaning::Faulty),
        [bit] => element_with(bit_fault(types, *bit), *bit, *bit),
        [first, last, ..] => {
            let fault = bit_fault(types, *first)
                .or(bit_fault(types, *last))
                .or(order_fault(*first, *last));
            element_with(fault, *first, *last)
        }
    }
}

// The bits so far, and those of one more element.
fn bits_with(so_far: Meaning, element: Meaning) -> Meaning
    ensures { result ≡ bits_with so_far element }
{
    match (so_far, element) {
        (Meaning::Constant(_, so_far), Meaning::Constant(_, element)) => {
            Meaning::Constant(BITS, so_far | element)
        }
        _ => Meaning::Faulty,
    }
}

/// A bits constant, from its elements.
pub fn bits_of(parts: &[Typed]) -> Meaning
    ensures { result ≡ bits_of (Constant bits 0) parts.now }
{
    let mut so_far = Meaning::Constant(BITS, 0);
    for part in parts {
        so_far = bits_with(so_far, part.meaning);
    }
    so_far
}
