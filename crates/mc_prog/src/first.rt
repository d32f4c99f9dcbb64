// Which of two faults is the first: that of the earlier place, and at one place that of the lesser number.

ghost use Rattle.std.specs.Prelude.{◌≡◌};
ghost use Rattle.std.specs.Bool.{OnTrue, OnFalse};
ghost use Rattle.mc_prog.specs.First.{number_of, IsNotAfter, IsEarlierOf};

use mc_tree::fault::{Code, Fault};

/// The order of codes at one place.
pub fn number(code: Code) -> u32
    ensures { result ≡ number_of code }
{
    match code {
        Code::BadByte => 0,
        Code::NumberTooLarge => 1,
        Code::OpenComment => 2,
        Code::OpenText => 3,
        Code::Unexpected => 4,
        Code::TooDeep => 5,
        Code::S1 => 6,
        Code::S2 => 7,
        Code::S3 => 8,
        Code::S4 => 9,
        Code::S5 => 10,
        Code::Y1 => 11,
        Code::Y2 => 12,
        Code::Y3 => 13,
        Code::Y4 => 14,
        Code::Y5 => 15,
        Code::Y6 => 16,
        Code::Y7 => 17,
        Code::Y8 => 18,
        Code::M1 => 19,
        Code::M2 => 20,
        Code::M3 => 21,
        Code::M4 => 22,
        Code::M5 => 23,
        Code::M6 => 24,
        Code::M7 => 25,
        Code::M8 => 26,
        Code::M9 => 27,
        Code::M10 => 28,
    }
}

// Whether one fault comes no later than another.
fn is_not_after(one: Fault, other: Fault) -> bool
    ensures yes { OnTrue result (IsNotAfter one other) }
    ensures no { OnFalse result (IsNotAfter other one) }
{
    if one.place.line != other.place.line {
        return one.place.line < other.place.line;
    }
    if one.place.column != other.place.column {
        return one.place.column < other.place.column;
    }
    number(one.code) <= number(other.code)
}

/// The first of two faults, or the one that is there.
pub fn earlier(one: Option<Fault>, other: Option<Fault>) -> Option<Fault>
    ensures { IsEarlierOf one other result }
{
    match (one, other) {
        (Some(f), Some(g)) => Some(if is_not_after(f, g) { f } else { g }),
        (Some(f), None) => Some(f),
        (None, g) => g,
    }
}
