// What the operations compute of bytes and words, with the condition codes (DEC's Processor Handbook).

ghost use Rattle.std.specs.Prelude.{◌≡◌, ◌<◌, ◌≤◌, ◌%◌};
ghost use Rattle.pdp_def.specs.Codes.{size, half, is_minus, bit, with_codes, moved_in, cleared_codes, added_codes, extension_codes, codes_of, computed, sum_in, difference_in, shifted_by_one, combined, altered, holds};

use mc_word::Word;
use mc_word::word::Codes;
use pdp_def::operation::{BinaryOperation, Computed, Condition, UnaryOperation, Width};

/// How many values a width has.
pub fn size(width: Width) -> u32
    ensures size { result ≡ size width }
    ensures most { result ≤ 65536 }
{
    match width {
        Width::Byte => 256,
        Width::Word => 65536,
    }
}

/// The first value of a width that is negative.
pub fn half(width: Width) -> Word
    ensures half { result ≡ half width }
    ensures most { result ≤ 32768 }
{
    match width {
        Width::Byte => 128,
        Width::Word => 32768,
    }
}

// The low part of a number, as a value of this width.
fn cut(width: Width, x: u32) -> Word
    ensures { result ≡ x % size width }
{
    match width {
        Width::Byte => (x % 256) as u16,
        Width::Word => (x % 65536) as u16,
    }
}

fn is_minus(width: Width, a: Word) -> bool
    ensures { result ≡ is_minus width a }
{
    a >= half(width)
}

fn bit(b: bool, unit: Word) -> Word
    ensures value { result ≡ bit b unit }
    ensures most { result ≤ unit }
{
    if b { unit } else { 0 }
}

/// The status word with other codes: N 8, Z 4, V 2, C 1.
pub fn with_codes(ps: Word, codes: Codes) -> Word
    ensures { result ≡ with_codes ps codes }
{
    ps / 16 * 16 + (bit(codes.n, 8) + bit(codes.z, 4) + bit(codes.v, 2) + bit(codes.c, 1))
}

/// N and Z by the result, with this V and this C.
pub fn codes_of(width: Width, r: Word, v: bool, c: bool) -> Codes
    ensures { result ≡ codes_of width r v c }
{
    Codes {
        n: is_minus(width, r),
        z: r == 0,
        v,
        c,
    }
}

/// The codes of a value that is moved: N and Z by it, V clear, C as before.
pub fn moved_in(width: Width, a: Word, ps: Word) -> Codes
    ensures { result ≡ moved_in width a ps }
{
    codes_of(width, a, false, ps % 2 == 1)
}

/// The codes that SXT sets, by N as it was.
pub fn extension_codes(ps: Word) -> Codes
    ensures { result ≡ extension_codes ps }
{
    let n = ps / 8 % 2 == 1;
    Codes {
        n,
        z: !n,
        v: false,
        c: ps % 2 == 1,
    }
}

/// The codes of a status word, but for those whose bits the mask has.
pub fn cleared_codes(mask: Word, ps: Word) -> Codes
    ensures { result ≡ cleared_codes mask ps }
{
    Codes {
        n: ps / 8 % 2 == 1 && mask / 8 % 2 != 1,
        z: ps / 4 % 2 == 1 && mask / 4 % 2 != 1,
        v: ps / 2 % 2 == 1 && mask / 2 % 2 != 1,
        c: ps % 2 == 1 && mask % 2 != 1,
    }
}

/// The codes of a status word, with those whose bits the mask has.
pub fn added_codes(mask: Word, ps: Word) -> Codes
    ensures { result ≡ added_codes mask ps }
{
    Codes {
        n: ps / 8 % 2 == 1 || mask / 8 % 2 == 1,
        z: ps / 4 % 2 == 1 || mask / 4 % 2 == 1,
        v: ps / 2 % 2 == 1 || mask / 2 % 2 == 1,
        c: ps % 2 == 1 || mask % 2 == 1,
    }
}

// A result, with N and Z by it.
fn computed(width: Width, r: Word, v: bool, c: bool) -> Computed
    ensures { result ≡ computed width r v c }
{
    Computed {
        word: r,
        codes: codes_of(width, r, v, c),
    }
}

// A sum: V where equal signs give another sign, C where it carries.
fn sum_in(width: Width, a: Word, b: Word) -> Computed
    ensures { result ≡ sum_in width a b }
{
    let whole = u32::from(a) + u32::from(b);
    let r = cut(width, whole);
    let v = is_minus(width, a) == is_minus(width, b) && is_minus(width, a) != is_minus(width, r);
    computed(width, r, v, whole >= size(width))
}

// A difference: V where the signs differ and the result has the second's, C where it borrows.
fn difference_in(width: Width, a: Word, b: Word) -> Computed
    requires { b < size width }
    ensures { result ≡ difference_in width a b }
{
    let r = cut(width, u32::from(a) + (size(width) - u32::from(b)));
    let v = is_minus(width, a) != is_minus(width, b) && is_minus(width, b) == is_minus(width, r);
    computed(width, r, v, a < b)
}

/// What a two-operand instruction computes of its source, its target and C.
#[tactic(auto, unfolding(pdp_def::specs::Codes::combined))]
pub fn combined(
    operation: BinaryOperation,
    width: Width,
    source: Word,
    target: Word,
    c: bool,
) -> Computed
    requires source { source < size width }
    requires target { target < size width }
    ensures { result ≡ combined operation width source target c }
{
    match operation {
        BinaryOperation::Compare => difference_in(width, source, target),
        BinaryOperation::And => computed(width, source & target, false, c),
        BinaryOperation::AndNot => computed(width, target & !source, false, c),
        BinaryOperation::Or => computed(width, target | source, false, c),
        BinaryOperation::ExclusiveOr => computed(width, target ^ source, false, c),
        BinaryOperation::Plus => sum_in(width, target, source),
        BinaryOperation::Minus => difference_in(width, target, source),
    }
}

// A result that was shifted by one place: V is N xor C.
fn shifted_by_one(width: Width, r: Word, c: bool) -> Computed
    ensures { result ≡ shifted_by_one width r c }
{
    computed(width, r, is_minus(width, r) != c, c)
}

/// What a one-operand instruction computes of its target and C.
#[tactic(auto, unfolding(pdp_def::specs::Codes::altered))]
pub fn altered(operation: UnaryOperation, width: Width, a: Word, c: bool) -> Computed
    requires { a < size width }
    ensures { result ≡ altered operation width a c }
{
    let whole = u32::from(a);
    let greatest = a == half(width) - 1;
    let least = a == half(width);
    match operation {
        UnaryOperation::Complement => {
            computed(width, cut(width, size(width) - 1 - whole), false, true)
        }
        UnaryOperation::Increment => computed(width, cut(width, whole + 1), greatest, c),
        UnaryOperation::Decrement => {
            computed(width, cut(width, whole + (size(width) - 1)), least, c)
        }
        UnaryOperation::Negate => {
            let r = cut(width, size(width) - whole);
            computed(width, r, r == half(width), r != 0)
        }
        UnaryOperation::AddCarry => computed(
            width,
            cut(width, whole + u32::from(bit(c, 1))),
            c && greatest,
            c && whole == size(width) - 1,
        ),
        UnaryOperation::SubtractCarry => computed(
            width,
            cut(width, whole + (size(width) - u32::from(bit(c, 1)))),
            c && least,
            c && a == 0,
        ),
        UnaryOperation::RotateRight => {
            shifted_by_one(width, a / 2 + bit(c, half(width)), a % 2 == 1)
        }
        UnaryOperation::RotateLeft => shifted_by_one(
            width,
            cut(width, 2 * whole + u32::from(bit(c, 1))),
            is_minus(width, a),
        ),
        UnaryOperation::ShiftRight => {
            shifted_by_one(
                width,
                a / 2 + bit(is_minus(width, a), half(width)),
                a % 2 == 1,
            )
        }
        UnaryOperation::ShiftLeft => {
            shifted_by_one(width, cut(width, 2 * whole), is_minus(width, a))
        }
        UnaryOperation::SwapBytes => Computed {
            word: a % 256 * 256 + a / 256,
            codes: codes_of(Width::Byte, a / 256, false, false),
        },
    }
}

/// Whether the status word meets what a branch tests.
#[tactic(auto, unfolding(pdp_def::specs::Codes::holds))]
pub fn holds(condition: Condition, ps: Word) -> bool
    ensures { result ≡ holds condition ps }
{
    let n = ps / 8 % 2 == 1;
    let z = ps / 4 % 2 == 1;
    let v = ps / 2 % 2 == 1;
    let c = ps % 2 == 1;
    match condition {
        Condition::Always => true,
        Condition::NotEqual => !z,
        Condition::Equal => z,
        Condition::GreaterOrEqual => n == v,
        Condition::Less => n != v,
        Condition::Greater => !z && n == v,
        Condition::LessOrEqual => z || n != v,
        Condition::NotNegative => !n,
        Condition::Negative => n,
        Condition::Higher => !c && !z,
        Condition::LowerOrSame => c || z,
        Condition::OverflowClear => !v,
        Condition::OverflowSet => v,
        Condition::CarryClear => !c,
        Condition::CarrySet => c,
    }
}
