// Products, quotients and shifts of signed numbers (DEC's Processor Handbook; the codes of DIV, ASH and ASHC are own).

ghost use Rattle.std.specs.Prelude.{◌≡◌, ◌<◌, ◌≤◌, ◌↔◌, ℕ, ◌+◌, ◌-◌, ◌*◌, ◌^◌, pos, ◌*ℤ◌, false, true};
ghost use Rattle.pdp_def.specs.SignedLaws.{number, pair_number, Divides};
ghost use Rattle.pdp_def.specs.ShiftLaws.{SameSigns, IsFloor};
ghost use Rattle.pdp_def.specs.Signed.{word_half, pair_half, magnitude, value_of, fits_word, pair_of, product, quotient, shifted_left, shifted_right, shifted, shift_codes, shifted_word, shifted_pair, paired};

use mc_word::Word;
use mc_word::word::Codes;
use pdp_def::operation::{Computed, ComputedPair, PairOperation, Shifted};

// The first value that stands for a negative number, of a word and of two words.
const WORD_HALF: u32 = 0o100000;

const PAIR_HALF: u32 = 0o20000000000;

// The size of the number that a word stands for.
fn word_magnitude(a: Word) -> u32
    ensures value { result ≡ magnitude word_half a }
    ensures most { result ≤ 32768 }
{
    let a = u32::from(a);
    if a >= WORD_HALF { 65536 - a } else { a }
}

// The size of the number that two words stand for.
fn pair_magnitude(x: u32) -> u32
    ensures value { result ≡ magnitude pair_half x }
    ensures most { result ≤ 2147483648 }
{
    if x >= PAIR_HALF { !x + 1 } else { x }
}

// The word of a number by its sign and its size.
fn word_value(minus: bool, m: u32) -> Word
    requires { m ≤ 32768 }
    ensures { result ≡ value_of word_half minus m }
{
    if minus {
        ((65536 - m) % 65536) as u16
    } else {
        m as u16
    }
}

// The two words of a number by its sign and its size.
fn pair_value(minus: bool, m: u32) -> u32
    requires { m ≤ 2147483648 }
    ensures { result ≡ value_of pair_half minus m }
{
    if minus { m.wrapping_neg() } else { m }
}

// Whether a signed word holds the number.
fn fits_word(minus: bool, m: u32) -> bool
    ensures { result ≡ fits_word minus m }
{
    if minus { m <= WORD_HALF } else { m < WORD_HALF }
}

fn pair_of(x: u32, codes: Codes) -> ComputedPair
    ensures { result ≡ pair_of x codes }
{
    ComputedPair {
        high: (x / 65536) as u16,
        low: (x % 65536) as u16,
        codes,
    }
}

// MUL
#[tactic(auto, unfolding(pdp_def::specs::Signed::product))]
fn product(a: Word, b: Word) -> ComputedPair
    ensures { result ≡ product a b }
{
    let minus = (a >= 0o100000) != (b >= 0o100000);
    let m = word_magnitude(a) * word_magnitude(b);
    let x = pair_value(minus, m);
    let codes = Codes {
        n: x >= PAIR_HALF,
        z: x == 0,
        v: false,
        c: !fits_word(minus, m),
    };
    pair_of(x, codes)
}

// DIV where there is no quotient: the dividend stays, V is set, and C where the divisor is 0.
fn undivided(high: Word, low: Word, by_zero: bool) -> ComputedPair
    ensures { result ≡ record { high = high; low = low; codes = record { n = false; z = false; v = true; c = by_zero } } }
{
    ComputedPair {
        high,
        low,
        codes: Codes {
            n: false,
            z: false,
            v: true,
            c: by_zero,
        },
    }
}

// DIV
#[tactic(auto, unfolding(pdp_def::specs::Signed::quotient))]
fn quotient(high: Word, low: Word, divisor: Word) -> ComputedPair
    ensures { result ≡ quotient high low divisor }
{
    if divisor == 0 {
        return undivided(high, low, true);
    }
    let dividend = pair_magnitude(u32::from(high) * 65536 + u32::from(low));
    let by = word_magnitude(divisor);
    let minus = (high >= 0o100000) != (divisor >= 0o100000);
    let m = dividend / by;
    if !fits_word(minus, m) {
        return undivided(high, low, false);
    }
    let q = word_value(minus, m);
    ComputedPair {
        high: q,
        low: word_value(high >= 0o100000, dividend % by),
        codes: Codes {
            n: q >= 0o100000,
            z: q == 0,
            v: false,
            c: false,
        },
    }
}

// A shift to the left: the sign at each moment of it is one of the n + 1 bits from half on.
fn shifted_left(half: u64, x: u64, n: u32) -> Shifted
    requires half { (0 < half) × (half ≤ 2147483648) }
    requires x { x < 2 * half }
    requires n { n < 32 }
    ensures value { result ≡ shifted_left half x n }
    ensures below { result.number < 2 * half }
{
    let y = x * (1 << n);
    let signs = y / half;
    Shifted {
        number: y % (2 * half),
        out: y / (2 * half) % 2 == 1,
        changed: signs != 0 && signs != (1 << (n + 1)) - 1,
    }
}

// A shift to the right: the sign stands in front 32 times more.
fn shifted_right(half: u64, x: u64, n: u32) -> Shifted
    requires half { (0 < half) × (half ≤ 2147483648) }
    requires x { x < 2 * half }
    requires n { (0 < n) × (n ≤ 32) }
    ensures value { result ≡ shifted_right half x n }
    ensures below { result.number < 2 * half }
{
    let signs = if x >= half {
        0o37777777777 * (2 * half)
    } else {
        0
    };
    let y = x + signs;
    Shifted {
        number: y / (1 << n) % (2 * half),
        out: y / (1 << (n - 1)) % 2 == 1,
        changed: false,
    }
}

// A shift by a count of six bits, which is signed: to the left it multiplies the number by a power of 2 unless the sign
// changes at some moment, to the right it divides it, towards the lesser side.
#[tactic(auto, unfolding(pdp_def::specs::Signed::shifted))]
fn shifted(half: u64, x: u64, count: Word) -> Shifted
    requires half { (0 < half) × (half ≤ 2147483648) }
    requires x { x < 2 * half }
    requires count { count < 64 }
    ensures value { result ≡ shifted half x count }
    ensures signs { count < 32 → (h : ℕ) → half ≡ 2 ^ h → (result.changed ≡ false) ↔ SameSigns h x count }
    ensures left { count < 32 → result.changed ≡ false → number half result.number ≡ number half x *ℤ pos (2 ^ count) }
    ensures right { 32 ≤ count → IsFloor (number half x) (number half result.number) (2 ^ (64 - count)) }
    ensures below { result.number < 2 * half }
{
    if count < 32 {
        shifted_left(half, x, u32::from(count))
    } else {
        shifted_right(half, x, u32::from(64 - count))
    }
}

// N and Z by the result, V where the sign changed, C the last bit that fell out.
fn shift_codes(half: u64, shifted: Shifted) -> Codes
    ensures { result ≡ shift_codes half shifted }
{
    Codes {
        n: shifted.number >= half,
        z: shifted.number == 0,
        v: shifted.changed,
        c: shifted.out,
    }
}

/// ASH: a word, shifted by the low six bits of the source.
#[tactic(auto, unfolding(pdp_def::specs::Signed::shifted_word))]
pub fn shifted_word(a: Word, source: Word) -> Computed
    ensures { result ≡ shifted_word a source }
{
    let half = u64::from(WORD_HALF);
    let shifted = shifted(half, u64::from(a), source % 64);
    Computed {
        word: shifted.number as u16,
        codes: shift_codes(half, shifted),
    }
}

// ASHC
#[tactic(auto, unfolding(pdp_def::specs::Signed::shifted_pair))]
fn shifted_pair(high: Word, low: Word, source: Word) -> ComputedPair
    ensures { result ≡ shifted_pair high low source }
{
    let half = u64::from(PAIR_HALF);
    let x = u64::from(high) * 65536 + u64::from(low);
    let shifted = shifted(half, x, source % 64);
    pair_of(shifted.number as u32, shift_codes(half, shifted))
}

/// What MUL, DIV and ASHC compute of a register, its partner and the source.
///
/// MUL gives the product of the numbers, and DIV, where V is clear, a quotient that truncates and a remainder that has
/// the dividend's sign.
#[tactic(auto, unfolding(pdp_def::specs::Signed::paired))]
pub fn paired(operation: PairOperation, high: Word, low: Word, source: Word) -> ComputedPair
    ensures value { result ≡ paired operation high low source }
    ensures multiplies { operation ≡ PairOperation.Multiply → pair_number result.high result.low ≡ number word_half high *ℤ number word_half source }
    ensures divides { operation ≡ PairOperation.Divide → result.codes.v ≡ false → Divides (pair_number high low) (number word_half source) (number word_half result.high) (number word_half result.low) }
{
    match operation {
        PairOperation::Multiply => product(high, source),
        PairOperation::Divide => quotient(high, low, source),
        PairOperation::Shift => shifted_pair(high, low, source),
    }
}
