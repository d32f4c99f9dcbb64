// The rules of evaluation for single values. A value is a word; an integer is the number that its word stands for.

ghost use Rattle.std.specs.Prelude.{◌≡◌, MatchResult};
ghost use Rattle.mc_prog.specs.Values.{Gives, Traps, added, subtracted, multiplied, negated, divided, remainder, character, holds, integer};
ghost use Rattle.mc_prog.specs.Traps.{number_of};

use mc_tree::expression::Relation;
use mc_word::Word;
use mc_word::word::signed;

/// The traps of single values.
#[derive(Clone, Copy, PartialEq, Eq, Debug)]
pub enum Trap {
    /// An integer outside -32768 to 32767: trap 2.
    Overflow,
    /// A divisor that is 0: trap 3.
    Divide,
    /// A character outside 0 to 255: trap 6.
    Range,
}

// The word of an integer.
fn integer(number: i32) -> Result<Word, Trap>
    ensures { MatchResult result (λ w. integer number ≡ Gives w) (λ trap. integer number ≡ Traps (number_of trap)) }
{
    match i16::try_from(number) {
        Ok(number) => Ok(number.cast_unsigned()),
        Err(_) => Err(Trap::Overflow),
    }
}

/// The sum of two integers.
pub fn add(a: Word, b: Word) -> Result<Word, Trap>
    ensures { MatchResult result (λ w. added a b ≡ Gives w) (λ trap. added a b ≡ Traps (number_of trap)) }
{
    integer(i32::from(signed(a)) + i32::from(signed(b)))
}

/// The difference of two integers.
pub fn subtract(a: Word, b: Word) -> Result<Word, Trap>
    ensures { MatchResult result (λ w. subtracted a b ≡ Gives w) (λ trap. subtracted a b ≡ Traps (number_of trap)) }
{
    integer(i32::from(signed(a)) - i32::from(signed(b)))
}

/// The product of two integers.
pub fn multiply(a: Word, b: Word) -> Result<Word, Trap>
    ensures { MatchResult result (λ w. multiplied a b ≡ Gives w) (λ trap. multiplied a b ≡ Traps (number_of trap)) }
{
    integer(i32::from(signed(a)) * i32::from(signed(b)))
}

/// The negation of an integer.
pub fn negate(a: Word) -> Result<Word, Trap>
    ensures { MatchResult result (λ w. negated a ≡ Gives w) (λ trap. negated a ≡ Traps (number_of trap)) }
{
    integer(0 - i32::from(signed(a)))
}

/// The character of an integer or of a character.
pub fn to_char(a: Word) -> Result<Word, Trap>
    ensures { MatchResult result (λ w. character a ≡ Gives w) (λ trap. character a ≡ Traps (number_of trap)) }
{
    if a > 255 {
        return Err(Trap::Range);
    }
    Ok(a)
}

/// The quotient of two integers, which truncates.
pub fn divide(a: Word, b: Word) -> Result<Word, Trap>
    ensures { MatchResult result (λ w. divided a b ≡ Gives w) (λ trap. divided a b ≡ Traps (number_of trap)) }
{
    if b == 0 {
        return Err(Trap::Divide);
    }
    integer(i32::from(signed(a)) / i32::from(signed(b)))
}

/// The remainder of two integers, which has the dividend's sign.
pub fn modulo(a: Word, b: Word) -> Result<Word, Trap>
    ensures { MatchResult result (λ w. remainder a b ≡ Gives w) (λ trap. remainder a b ≡ Traps (number_of trap)) }
{
    divide(a, b)?;
    integer(i32::from(signed(a)) % i32::from(signed(b)))
}

/// Whether a relation holds of two scalars, which are compared by the integers that their words stand for.
pub fn holds(relation: Relation, a: Word, b: Word) -> bool
    ensures { result ≡ holds relation a b }
{
    let (a, b) = (signed(a), signed(b));
    match relation {
        Relation::Equal => a == b,
        Relation::Unequal => a != b,
        Relation::Less => a < b,
        Relation::LessEqual => a <= b,
        Relation::Greater => a > b,
        Relation::GreaterEqual => a >= b,
    }
}
