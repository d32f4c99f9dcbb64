// The form of a line.

ghost use Rattle.std.specs.Prelude.{◌≡◌, ◌≤◌, List, ℕ};
ghost use Rattle.std.specs.List.{list_all};
ghost use Rattle.mc_script.specs.Lines.{fields};
ghost use Rattle.mc_script.specs.Reading.{Finds, is_numeral, numeral_of, behind_of, ended_of, sets_of, delay_of, strikes_of, tape_of, form_of, form_in};

use crate::fields::next_field;
use crate::line::Line;
use crate::number::is_numeral;
use crate::setting::Setting;

/// The numeral in the first field, and what stands behind it.
#[tactic(auto, unfolding(crate::specs::Reading::numeral_of))]
fn numeral(line: &[u8], base: u8) -> Option<(&[u8], &[u8])>
    requires { base ≤ 10 }
    ensures { Finds (λ x. (x.0.now, fields x.1.now)) result (numeral_of base (fields line.now)) }
{
    let (field, rest) = next_field(line)?;
    if is_numeral(field, base) {
        Some((field, rest))
    } else {
        None
    }
}

/// What stands behind this word, where it is the first field.
#[tactic(auto, unfolding(crate::specs::Reading::behind_of))]
fn behind<'a>(line: &'a [u8], word: &[u8]) -> Option<&'a [u8]>
    ensures { Finds (λ x. fields x.now) result (behind_of word.now (fields line.now)) }
{
    let (field, rest) = next_field(line)?;
    if field == word { Some(rest) } else { None }
}

/// Whether no field is left.
#[tactic(auto, unfolding(crate::specs::Reading::ended_of))]
fn ended(line: &[u8]) -> Option<()>
    ensures { Finds (λ x. x) result (ended_of (fields line.now)) }
{
    match next_field(line) {
        None => Some(()),
        Some(_) => None,
    }
}

/// A value for a setting, and no more.
#[tactic(auto, unfolding(crate::specs::Reading::sets_of))]
fn sets(setting: Setting, line: &[u8]) -> Option<Line<'_>>
    ensures { Finds form_in result (sets_of setting (fields line.now)) }
{
    let (digits, rest) = numeral(line, 10)?;
    ended(rest)?;
    Some(Line::Sets(setting, digits))
}

/// A device, and its delay.
#[tactic(auto, unfolding(crate::specs::Reading::delay_of))]
fn delay(line: &[u8]) -> Option<Line<'_>>
    ensures { Finds form_in result (delay_of (fields line.now)) }
{
    let (device, rest) = next_field(line)?;
    if device == b"printer".as_slice() {
        sets(Setting::Printer, rest)
    } else if device == b"reader".as_slice() {
        sets(Setting::Reader, rest)
    } else if device == b"punch".as_slice() {
        sets(Setting::Punch, rest)
    } else {
        None
    }
}

/// The time and the byte of a key.
#[tactic(auto, unfolding(crate::specs::Reading::strikes_of))]
fn strikes(line: &[u8]) -> Option<Line<'_>>
    ensures { Finds form_in result (strikes_of (fields line.now)) }
{
    let (time, rest) = numeral(line, 10)?;
    let rest = behind(rest, b"key")?;
    let (byte, rest) = numeral(rest, 8)?;
    ended(rest)?;
    Some(Line::Strikes(time, byte))
}

/// Whether all fields are octal numerals.
fn are_octal(line: &[u8]) -> bool
    ensures { result ≡ list_all (is_numeral 8) (fields line.now) }
{
    let mut rest = line;
    while let Some((field, more)) = next_field(rest) {
        if !is_numeral(field, 8) {
            return false;
        }
        rest = more;
    }
    true
}

/// The bytes of a tape.
#[tactic(auto, unfolding(crate::specs::Reading::tape_of))]
fn tape(line: &[u8]) -> Option<Line<'_>>
    ensures { Finds form_in result (tape_of (fields line.now)) }
{
    next_field(line)?;
    if are_octal(line) {
        Some(Line::Tape(line))
    } else {
        None
    }
}

/// What a line without comment says, where it is of a form.
#[tactic(auto, unfolding(crate::specs::Reading::form_of))]
pub fn form(line: &[u8]) -> Option<Line<'_>>
    ensures { Finds form_in result (form_of (fields line.now)) }
{
    let (word, rest) = next_field(line)?;
    if word == b"at".as_slice() {
        strikes(rest)
    } else if word == b"tape".as_slice() {
        tape(rest)
    } else if word == b"delay".as_slice() {
        delay(rest)
    } else if word == b"clock".as_slice() {
        sets(Setting::Clock, rest)
    } else if word == b"limit".as_slice() {
        sets(Setting::Limit, rest)
    } else {
        None
    }
}
