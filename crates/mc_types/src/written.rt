// Written types: what they mean, the types that they add, and their faults.

ghost use Rattle.std.specs.Prelude.{◌≡◌, ◌++◌, [], IfOk};
ghost use Rattle.mc_word.specs.Word.{signed_of};
ghost use Rattle.mc_prog.specs.Declarations.{Built, arrays, array_over, bounds_by, bounds_of, built, enumeration, field_meaning, field_type, has_signal, left_of, ordered_words, signal_fault, span, spoiled, type_in, type_named};
ghost use Rattle.mc_types.specs.Views.{built_of};

use crate::said::{UNKNOWN, fault_at, fine, wrong};
use crate::types::{holds_signal, is_ordered, words_of};
use mc_prog::program::{Shape, TypeInfo};
use mc_prog::typing::{Change, INTEGER, Meaning, Said, Typed};
use mc_tree::fault::{Code, Fault};
use mc_tree::place::Place;
use mc_word::Word;
use mc_word::bytes::Memory;
use mc_word::word::signed;

/// The greatest number of words of a type, and of values of an enumeration.
const LIMIT: u32 = 20_000;

/// What the name of a type means in the place of a type.
pub fn type_named(place: Place, meaning: Meaning) -> Said
    ensures { result ≡ type_named place meaning }
{
    match meaning {
        Meaning::Type(_) => fine(meaning),
        Meaning::Unknown(_) => fine(UNKNOWN),
        _ => wrong(UNKNOWN, Code::Y1, place),
    }
}

/// The type that is named or written, where it is known.
pub fn type_in(meaning: Meaning) -> Option<u32>
    ensures { result ≡ type_in meaning }
{
    match meaning {
        Meaning::Type(number) => Some(number),
        _ => None,
    }
}

// What is left of a type with a fault in it, by whether a signal was to stand there.
fn left_of(signal: bool) -> Meaning
    ensures { result ≡ left_of signal }
{
    if signal {
        Meaning::Unknown(Change::Elsewhere)
    } else {
        UNKNOWN
    }
}

/// One more type, unless it is too large.
pub fn built(types: &mut Vec<TypeInfo>, place: Place, info: TypeInfo) -> Result<Said, Memory>
    ensures { IfOk result (λ said. built_of said types.new.items ≡ built types.old.items place info) }
{
    if info.words > LIMIT {
        return Ok(wrong(left_of(info.holds_signal), Code::Y4, place));
    }
    let number = u32::try_from(types.len()).map_err(|_| Memory)?;
    types.push(info)?;
    Ok(fine(Meaning::Type(number)))
}

/// An enumeration of so many values.
pub fn enumeration(types: &mut Vec<TypeInfo>, place: Place, values: usize) -> Result<Said, Memory>
    ensures { IfOk result (λ said. built_of said types.new.items ≡ enumeration types.old.items place values) }
{
    match u16::try_from(values) {
        Ok(values) if u32::from(values) <= LIMIT => {
            let info = TypeInfo {
                words: 1,
                shape: Shape::Enumeration(values),
                holds_signal: false,
            };
            built(types, place, info)
        }
        _ => Ok(wrong(UNKNOWN, Code::Y4, place)),
    }
}

// Whether one word of a type is not greater than another.
fn ordered_words(t: u32, low: Word, high: Word) -> bool
    ensures { result ≡ ordered_words t low high }
{
    if t == INTEGER {
        return signed(low) <= signed(high);
    }
    low <= high
}

/// The bounds of a range: constants of one type for indices, the first not greater than the second.
pub fn bounds_of(types: &[TypeInfo], low: Typed, high: Typed) -> Said
    ensures { result ≡ bounds_of types.now low high }
{
    if low.fixed
        && high.fixed
        && let Meaning::Constant(t, first) = low.meaning
        && let Meaning::Constant(other, last) = high.meaning
        && is_ordered(types, t)
        && other == t
        && ordered_words(t, first, last)
    {
        return fine(Meaning::Bounds(t, first, last));
    }
    wrong(UNKNOWN, Code::Y4, low.place)
}

/// Whether a signal stands, or was to stand, in what a written type means.
pub fn has_signal(types: &[TypeInfo], meaning: Meaning) -> bool
    ensures { result ≡ has_signal types.now meaning }
{
    match meaning {
        Meaning::Type(t) => holds_signal(types, t),
        Meaning::Unknown(change) => change != Change::May,
        _ => false,
    }
}

/// The fault of a type that has a signal, where none may be.
pub fn signal_fault(types: &[TypeInfo], part: Typed) -> Option<Fault>
    ensures { result ≡ signal_fault types.now part.place part.meaning }
{
    if has_signal(types, part.meaning) {
        fault_at(Code::Y1, part.place)
    } else {
        None
    }
}

// What the type of fields means.
fn field_meaning(meaning: Meaning) -> Meaning
    ensures { result ≡ field_meaning meaning }
{
    match meaning {
        Meaning::Type(_) | Meaning::Unknown(_) => meaning,
        _ => UNKNOWN,
    }
}

/// The type of fields, which have no signals.
pub fn field_type(types: &[TypeInfo], part: Typed) -> Said
    ensures { result ≡ field_type types.now part }
{
    Said {
        meaning: field_meaning(part.meaning),
        fault: signal_fault(types, part),
    }
}

// What is left of the elements of an array with a fault.
fn spoiled(types: &[TypeInfo], element: Meaning) -> Meaning
    ensures { result ≡ spoiled types.now element }
{
    match element {
        Meaning::Type(t) => left_of(holds_signal(types, t)),
        Meaning::Unknown(_) => element,
        _ => UNKNOWN,
    }
}

// How many values stand from one word to another.
fn span(low: Word, high: Word) -> u32
    ensures { result ≡ span low high }
{
    u32::from(high.wrapping_sub(low)) + 1
}

// An array of such elements over a range.
fn array_over(
    types: &mut Vec<TypeInfo>,
    place: Place,
    range: Meaning,
    inner: Said,
) -> Result<Said, Memory>
    ensures { IfOk result (λ said. built_of said types.new.items ≡ array_over place range (built_of inner types.old.items) inner.meaning) }
{
    let (Meaning::Bounds(t, low, high), Meaning::Type(element)) = (range, inner.meaning) else {
        return Ok(Said {
            meaning: spoiled(types.as_slice(), inner.meaning),
            fault: inner.fault,
        });
    };
    let words = words_of(types.as_slice(), element);
    let signals = holds_signal(types.as_slice(), element);
    match span(low, high).checked_mul(words) {
        Some(words) => {
            let info = TypeInfo {
                words,
                shape: Shape::Array(t, signed(low), signed(high), element),
                holds_signal: signals,
            };
            built(types, place, info)
        }
        None => Ok(wrong(left_of(signals), Code::Y4, place)),
    }
}

/// An array of arrays, for its ranges and the type of its elements behind them.
pub fn arrays(types: &mut Vec<TypeInfo>, place: Place, parts: &[Typed]) -> Result<Said, Memory>
    ensures { IfOk result (λ said. built_of said types.new.items ≡ arrays types.old.items place parts.now) }
{
    let Some(last) = parts.last() else {
        return Ok(fine(UNKNOWN));
    };
    let mut said = fine(last.meaning);
    let mut left = parts.len() - 1;
    while left > 0 {
        left -= 1;
        said = array_over(types, place, parts[left].meaning, said)?;
    }
    Ok(said)
}
