// What is said of the pieces of an expression, apart from designators, calls and operators.

ghost use Rattle.std.specs.Prelude.{◌≡◌};
ghost use Rattle.mc_prog.specs.ExpressionTypes.{all_fixed, converts, greater, greatest_nest, most_arguments, text_said};

use crate::calls::is_conversion;
use crate::said::{fine, wrong};
use mc_prog::typing::{Meaning, Said, Typed};
use mc_tree::fault::Code;
use mc_tree::place::Place;

/// What is said of a text of so many bytes: one without any is a fault of its own.
pub fn text_said(place: Place, length: u32) -> Said
    ensures { result ≡ text_said place length }
{
    let meaning = Meaning::Text(length, place);
    if length == 0 {
        wrong(meaning, Code::Y8, place)
    } else {
        fine(meaning)
    }
}

/// Whether something is called as a conversion, by what its name means.
pub fn converts(meaning: Meaning) -> bool
    ensures { result ≡ converts meaning }
{
    match meaning {
        Meaning::Type(t) => is_conversion(t),
        _ => false,
    }
}

/// Whether all parts have only constants in them.
pub fn all_fixed(parts: &[Typed]) -> bool
    ensures { result ≡ all_fixed parts.now }
{
    parts.iter().all(|part| part.fixed)
}

/// The greater of two numbers.
pub fn greater(a: u32, b: u32) -> u32
    ensures { result ≡ greater a b }
{
    if a < b { b } else { a }
}

/// The greatest number of factors that are open at once in the parts.
pub fn greatest_nest(parts: &[Typed]) -> u32
    ensures { result ≡ greatest_nest parts.now }
{
    let mut greatest = 0;
    for part in parts {
        greatest = greater(greatest, part.nest);
    }
    greatest
}

/// The greatest number of arguments of a call in the parts.
pub fn most_arguments(parts: &[Typed]) -> u32
    ensures { result ≡ most_arguments parts.now }
{
    let mut most = 0;
    for part in parts {
        most = greater(most, part.arguments);
    }
    most
}
