// Numerals and their values.

ghost use Rattle.std.specs.Prelude.{◌≡◌, ◌<◌, ◌≤◌, min};
ghost use Rattle.std.specs.List.{list_all};
ghost use Rattle.mc_script.specs.Forms.{is_digit, value};
ghost use Rattle.mc_script.specs.Reading.{is_numeral};

/// A value that is past all ranges stands for all such values.
pub const PAST_ALL: u32 = 20_000_001;

fn is_digit(b: u8, base: u8) -> bool
    requires { base ≤ 10 }
    ensures { result ≡ is_digit base b }
{
    b >= b'0' && b < b'0' + base
}

/// Whether all bytes are digits of a base.
fn are_digits(field: &[u8], base: u8) -> bool
    requires { base ≤ 10 }
    ensures { result ≡ list_all (is_digit base) field.now }
{
    field.iter().all(|b| is_digit(*b, base))
}

/// Whether a field is one or more digits of a base.
#[tactic(auto, unfolding(crate::specs::Reading::is_numeral))]
pub fn is_numeral(field: &[u8], base: u8) -> bool
    requires { base ≤ 10 }
    ensures { result ≡ is_numeral base field.now }
{
    match field {
        [] => false,
        [_, ..] => are_digits(field, base),
    }
}

/// The value of digits, or `PAST_ALL` where it is greater.
pub fn value_of(digits: &[u8], base: u8) -> u32
    requires low { 0 < base }
    requires high { base ≤ 10 }
    ensures { result ≡ min (value base digits.now) PAST_ALL }
{
    let mut value = 0;
    for digit in digits {
        let next = value * u32::from(base) + u32::from(digit.saturating_sub(b'0'));
        value = next.min(PAST_ALL);
    }
    value
}
