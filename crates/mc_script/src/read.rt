// Reading a script.

ghost use Rattle.std.specs.Prelude.{◌≡◌, ◌⊎◌, ◌<◌, ◌+◌, ◌∷◌, ◌++◌, [], List, ℕ, length, take, drop, map, MatchBool, MatchOption, MatchResult, OnOk, IfOk, IfErr};
ghost use Rattle.mc_script.specs.declared.fault.ScriptFault.{ScriptFault};
ghost use Rattle.mc_script.specs.Script.{ScriptState};
ghost use Rattle.mc_script.specs.Lines.{fields, fields_of};
ghost use Rattle.mc_script.specs.Script.{AreBytes};
ghost use Rattle.mc_script.specs.Forms.{Form, Strikes, Tape, Sets, value, greatest_of};
ghost use Rattle.mc_script.specs.Texts.{IsText, HasFirstFault};
ghost use Rattle.mc_script.specs.Reading.{form_in};
ghost use Rattle.mc_script.specs.Drafts.{draft_of, with_form, IsAllowed, IsFaultOf};
ghost use Rattle.mc_script.specs.Steps.{HasNoFeed, GoesOn, MayStand, IsRefusal};

use crate::draft::Draft;
use crate::fault::ScriptFault;
use crate::fields::{before_comment, next_field, without_return};
use crate::form::form;
use crate::line::Line;
use crate::number::value_of;
use crate::script::{Key, Script};
use crate::setting::Setting;
use std::alloc::Global;

/// The longest delay.
const LONGEST_DELAY: u32 = 1_000_000;

/// The greatest value of a setting.
fn greatest(setting: Setting) -> u32
    ensures { result ≡ greatest_of setting }
{
    match setting {
        Setting::Printer | Setting::Reader | Setting::Punch => LONGEST_DELAY,
        Setting::Clock | Setting::Limit => Script::LONGEST,
    }
}

/// Adds a key.
fn strike(draft: &mut Draft, time: &[u8], byte: &[u8], number: usize) -> Result<(), ScriptFault>
    ensures allowed { OnOk result (IsAllowed (Strikes (value 10 time.now) (value 8 byte.now)) draft.old) }
    ensures added { OnOk result (draft.new ≡ with_form draft.old (Strikes (value 10 time.now) (value 8 byte.now))) }
    ensures refused { IfErr result (λ fault. (fault ≡ ScriptFault.Memory) ⊎ IsFaultOf fault number (Strikes (value 10 time.now) (value 8 byte.now)) draft.old) }
{
    let at = value_of(time, 10);
    let byte = value_of(byte, 8);
    if at < 1 || at > Script::LONGEST || byte > 0o377 {
        return Err(ScriptFault::OutOfRange(number));
    }
    if at <= draft.last() {
        return Err(ScriptFault::Backwards(number));
    }
    draft.strike(Key {
        at,
        byte: byte as u8,
    })?;
    Ok(())
}

/// Whether the values of these octal fields are bytes.
fn are_bytes(line: &[u8]) -> bool
    ensures { MatchBool result (AreBytes (map (value 8) (fields line.now))) (¬ AreBytes (map (value 8) (fields line.now))) }
{
    let mut rest = line;
    while let Some((field, more)) = next_field(rest) {
        if value_of(field, 8) > 0o377 {
            return false;
        }
        rest = more;
    }
    true
}

/// Adds bytes to the tape.
fn add_tape(draft: &mut Draft, line: &[u8], number: usize) -> Result<(), ScriptFault>
    ensures allowed { OnOk result (IsAllowed (Tape (map (value 8) (fields line.now))) draft.old) }
    ensures added { OnOk result (draft.new ≡ with_form draft.old (Tape (map (value 8) (fields line.now)))) }
    ensures refused { IfErr result (λ fault. (fault ≡ ScriptFault.Memory) ⊎ IsFaultOf fault number (Tape (map (value 8) (fields line.now))) draft.old) }
{
    if !are_bytes(line) {
        return Err(ScriptFault::OutOfRange(number));
    }
    draft.add_tape(line)?;
    Ok(())
}

/// Gives a setting its value.
fn give(
    draft: &mut Draft,
    setting: Setting,
    digits: &[u8],
    number: usize,
) -> Result<(), ScriptFault>
    ensures allowed { OnOk result (IsAllowed (Sets setting (value 10 digits.now)) draft.old) }
    ensures added { OnOk result (draft.new ≡ with_form draft.old (Sets setting (value 10 digits.now))) }
    ensures refused { IfErr result (λ fault. (fault ≡ ScriptFault.Memory) ⊎ IsFaultOf fault number (Sets setting (value 10 digits.now)) draft.old) }
{
    let value = value_of(digits, 10);
    if value < 1 || value > greatest(setting) {
        return Err(ScriptFault::OutOfRange(number));
    }
    if draft.given(setting).is_some() {
        return Err(ScriptFault::Twice(number));
    }
    draft.give(setting, value);
    Ok(())
}

/// Adds what a line says, which has this number.
fn add(draft: &mut Draft, said: Line<'_>, number: usize) -> Result<(), ScriptFault>
    ensures allowed { OnOk result (IsAllowed (form_in said.entry) draft.old) }
    ensures added { OnOk result (draft.new ≡ with_form draft.old (form_in said.entry)) }
    ensures refused { IfErr result (λ fault. (fault ≡ ScriptFault.Memory) ⊎ IsFaultOf fault number (form_in said.entry) draft.old) }
{
    match said {
        Line::Strikes(time, byte) => strike(draft, time, byte, number),
        Line::Tape(numerals) => add_tape(draft, numerals, number),
        Line::Sets(setting, digits) => give(draft, setting, digits, number),
    }
}

/// Reads a line, which has this number.
fn read_line(draft: &mut Draft, line: &[u8], number: usize) -> Result<(), ScriptFault>
    ensures ok { (forms : List Form) → draft.old ≡ draft_of forms → OnOk result ((after : List Form) × GoesOn (fields_of line.now) forms after × (draft.new ≡ draft_of after)) }
    ensures refused { (forms : List Form) → draft.old ≡ draft_of forms → IfErr result (λ fault. MayStand fault number (fields_of line.now) forms) }
{
    let line = before_comment(line);
    match form(line) {
        Some(said) => add(draft, said, number),
        None => {
            if next_field(line).is_some() {
                return Err(ScriptFault::BadLine(number));
            }
            Ok(())
        }
    }
}

/// How many bytes stand before the first line feed, where there is one.
fn line_length(text: &[u8]) -> Option<usize>
    ensures none { MatchOption result (HasNoFeed text.now) (λ n. HasNoFeed (take n text.now)) }
    ensures some { MatchOption result (Unit {0}) (λ n. text.now ≡ take n text.now ++ 10 ∷ drop (n + 1) text.now) }
    ensures within { MatchOption result (Unit {0}) (λ n. n < length text.now) }
{
    for (i, b) in text.iter().enumerate() {
        if *b == b'\n' {
            return Some(i);
        }
    }
    None
}

/// Reads the text line by line.
fn read_lines(alloc: Global, text: &[u8]) -> Result<Script, ScriptFault>
    ensures ok { IfOk result (λ script. IsText text.now script) }
    ensures refused { IfErr result (λ fault. IsRefusal fault text.now) }
{
    let mut draft = Draft::new(alloc);
    let mut rest = text;
    let mut number = 1;
    while let Some(length) = line_length(rest) {
        read_line(&mut draft, without_return(&rest[..length]), number)?;
        rest = &rest[length + 1..];
        number += 1;
    }
    read_line(&mut draft, rest, number)?;
    Ok(draft.into_script())
}

/// The script of this text.
///
/// The answer is `Ok` exactly where no line of the text is refused, and otherwise the fault of the first refused
/// line; want of memory may come in place of either.
pub fn read_script(alloc: Global, text: &[u8]) -> Result<Script, ScriptFault>
    ensures ok { IfOk result (λ script. IsText text.now script) }
    ensures refused { IfErr result (λ fault. (fault ≡ ScriptFault.Memory) ⊎ HasFirstFault text.now fault) }

    // and so each text is answered in one way
    ensures accepts { (script : ScriptState) → IsText text.now script → MatchResult result (λ s. s ≡ script) (λ fault. fault ≡ ScriptFault.Memory) }
    ensures refuses { (fault : ScriptFault) → HasFirstFault text.now fault → MatchResult result (λ _. ⊥) (λ f. (f ≡ ScriptFault.Memory) ⊎ (f ≡ fault)) }
{
    read_lines(alloc, text)
}
