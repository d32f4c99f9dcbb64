// Numbers, and characters that are written as octal numbers.

ghost use Rattle.std.specs.Prelude.{◌≡◌, ◌<◌, ◌≤◌, ◌+◌, ◌-◌, true, length, slice_index, take, min, IfOk, IfErr};
ghost use Rattle.mc_tree.specs.Spellings.{is_digit, base_of, greatest_of, mark_of, value_of, Each};
ghost use Rattle.mc_scan.specs.Pieces.{IsTaken, IsRefusal};
ghost use Rattle.mc_scan.specs.Numerals.{form_of, kind_of, IsNumeralFront};

use crate::bytes::{Class, byte_at, run_length};
use crate::fault::ScanFault;
use crate::taken::Taken;
use mc_tree::place::Place;
use mc_tree::token::Kind;

/// How a number is written: decimal, octal with `B`, or as an octal character with `C`.
#[derive(Clone, Copy)]
enum Form {
    Decimal,
    Octal,
    Character,
}

impl Form {
    fn base(self) -> u32
        ensures { result ≡ base_of (form_of self) }
    {
        match self {
            Form::Decimal => 10,
            Form::Octal | Form::Character => 8,
        }
    }

    /// The greatest value of a number in this form.
    fn greatest(self) -> u32
        ensures { result ≡ greatest_of (form_of self) }
    {
        match self {
            Form::Decimal => 32767,
            Form::Octal => 0o177777,
            Form::Character => 0o377,
        }
    }

    /// How many bytes stand behind the digits.
    fn mark_length(self) -> usize
        ensures { result ≡ length (mark_of (form_of self)) }
    {
        match self {
            Form::Decimal => 0,
            Form::Octal | Form::Character => 1,
        }
    }
}

/// The kind of a number of this form, where the value is in range.
fn kind_of(form: Form, value: u32) -> Kind
    requires { value ≤ greatest_of (form_of form) }
    ensures { result ≡ kind_of (form_of form) value }
{
    match form {
        Form::Decimal | Form::Octal => Kind::Number(value as u16),
        Form::Character => Kind::Char(value as u8),
    }
}

/// A value past the bounds of all forms stands for all such values.
const PAST_ALL: u32 = 65536;

fn value_of_digit(digit: u8) -> u32
    requires { is_digit digit ≡ true }
    ensures { result ≡ digit - 48 }
{
    u32::from(digit - b'0')
}

/// The value of the digits, or `PAST_ALL` where it is greater.
fn value_of(digits: &[u8], base: u32) -> u32
    requires low { 0 < base }
    requires high { base ≤ 10 }
    requires digits { Each is_digit digits.now }
    ensures { result ≡ min (value_of base digits.now) PAST_ALL }
{
    let mut value = 0;
    for digit in digits {
        value = (value * base + value_of_digit(*digit)).min(PAST_ALL);
    }
    value
}

/// The form of the number at the front, and how many digits it has.
fn numeral(rest: &[u8]) -> (Form, usize)
    requires some { 0 < length rest.now }
    requires digit { is_digit (slice_index rest.now 0) ≡ true }
    ensures { IsNumeralFront (form_of result.0) result.1 rest.now }
{
    let octal = run_length(rest, Class::OctalDigit);
    match byte_at(rest, octal) {
        Some(b'B') => (Form::Octal, octal),
        Some(b'C') => (Form::Character, octal),
        _ => (Form::Decimal, run_length(rest, Class::Digit)),
    }
}

/// The number or the octal character at the front.
pub fn number(rest: &[u8], place: Place) -> Result<Taken, ScanFault>
    requires some { 0 < length rest.now }
    requires digit { is_digit (slice_index rest.now 0) ≡ true }
    ensures ok { IfOk result (λ taken. IsTaken taken.kind taken.length rest.now) }
    ensures refused { IfErr result (λ fault. IsRefusal fault place rest.now) }
{
    let (form, digits) = numeral(rest);
    let value = value_of(&rest[..digits], form.base());
    if value > form.greatest() {
        return Err(ScanFault::NumberTooLarge(place));
    }
    Ok(Taken {
        kind: kind_of(form, value),
        length: digits + form.mark_length(),
    })
}
