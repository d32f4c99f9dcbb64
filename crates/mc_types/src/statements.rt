// What is said of the pieces of a statement.

ghost use Rattle.std.specs.Prelude.{◌≡◌, ℕ, List, [], IfOk};
ghost use Rattle.mc_prog.specs.StatementTypes.{assigned_by, assigned_result, assigned_variable, assignment_fault, changed, condition_fault, conditions_fault, labels_fault, twice_fault, with_word};
ghost use Rattle.mc_types.specs.Words.{IsSetOf};

use crate::constants::{is_constant_of, word_of};
use crate::said::{fault_at, wants_type};
use crate::types::{holds_signal, is_text_type, words_of};
use crate::words::Words;
use mc_prog::program::TypeInfo;
use mc_prog::typing::{Answer, BOOLEAN, Change, Meaning, Typed};
use mc_tree::fault::{Code, Fault};
use mc_tree::place::Place;
use mc_word::bytes::Memory;
use std::alloc::Global;

// The fault of what is assigned and may not be changed there.
fn changed(change: Change, place: Place) -> Option<Fault>
    ensures { result ≡ changed change place }
{
    match change {
        Change::May => None,
        Change::Never => fault_at(Code::Y2, place),
        Change::Elsewhere => fault_at(Code::Y3, place),
    }
}

// The fault of a value for a variable of a type: it is of the same type, or a text of as many bytes.
fn assigned_by(types: &[TypeInfo], t: u32, value: Typed) -> Option<Fault>
    ensures { result ≡ assigned_by types.now t value value.meaning }
{
    match value.meaning {
        Meaning::Text(_, _) if !is_text_type(types, t) => fault_at(Code::Y1, value.place),
        Meaning::Text(length, _) if length == words_of(types, t) => None,
        Meaning::Text(_, place) => fault_at(Code::Y8, place),
        _ => wants_type(types, t, Code::Y1, value),
    }
}

// The fault of a value for a variable. What holds a signal is not assigned.
fn assigned_variable(types: &[TypeInfo], t: u32, place: Place, value: Typed) -> Option<Fault>
    ensures { result ≡ assigned_variable types.now t place value }
{
    if holds_signal(types, t) {
        fault_at(Code::Y1, place)
    } else {
        assigned_by(types, t, value)
    }
}

// The fault of a value for the result of the function around.
fn assigned_result(types: &[TypeInfo], value: Typed, answer: Answer) -> Option<Fault>
    ensures { result ≡ assigned_result types.now value answer }
{
    match answer {
        Answer::Value(Some(t)) => assigned_by(types, t, value),
        Answer::Value(None) | Answer::Nothing => None,
    }
}

/// The fault of an assignment to what means this.
pub fn assignment_fault(
    types: &[TypeInfo],
    place: Place,
    value: Typed,
    meaning: Meaning,
) -> Option<Fault>
    ensures { result ≡ assignment_fault types.now place value meaning }
{
    match meaning {
        Meaning::Variable(variable) => changed(variable.change, place).or(assigned_variable(
            types,
            variable.type_of,
            place,
            value,
        )),
        Meaning::Bit(change) => {
            changed(change, place).or(wants_type(types, BOOLEAN, Code::Y1, value))
        }
        Meaning::Own(callable) => assigned_result(types, value, callable.result),
        Meaning::OwnBit => wants_type(types, BOOLEAN, Code::Y1, value),
        Meaning::Unknown(change) => changed(change, place),
        _ => fault_at(Code::Y2, place),
    }
}

/// The fault of a condition.
pub fn condition_fault(types: &[TypeInfo], part: Typed) -> Option<Fault>
    ensures { result ≡ condition_fault types.now part }
{
    wants_type(types, BOOLEAN, Code::Y1, part)
}

/// The first fault of conditions, each with its body, and of the body behind `else` where there is one.
pub fn conditions_fault(types: &[TypeInfo], parts: &[Typed]) -> Option<Fault>
    ensures { result ≡ conditions_fault types.now parts.now }
{
    let mut left = parts;
    while let [condition, _, further @ ..] = left {
        let fault = condition_fault(types, *condition);
        if fault.is_some() {
            return fault;
        }
        left = further;
    }
    None
}

// The fault of a label that stands twice.
fn twice_fault(t: u32, words: &Words, label: Typed) -> Option<Fault>
    ensures { (before : List ℕ) → IsSetOf words.now.words before → result ≡ twice_fault t before label }
{
    if is_constant_of(t, label.meaning) && words.has(word_of(label.meaning)) {
        fault_at(Code::Y7, label.place)
    } else {
        None
    }
}

// The word of one more label, where it is a constant.
fn put_word(words: &mut Words, meaning: Meaning) -> Result<(), Memory>
    ensures { IfOk result (λ u. (before : List ℕ) → IsSetOf words.old.words before → IsSetOf words.new.words (with_word meaning before)) }
{
    match meaning {
        Meaning::Constant(_, word) => words.put(word),
        _ => Ok(()),
    }
}

/// The first fault of the labels of a `case`, by the type of its choice.
pub fn labels_fault(
    alloc: Global,
    types: &[TypeInfo],
    t: u32,
    labels: &[Typed],
) -> Result<Option<Fault>, Memory>
    ensures { IfOk result (λ fault. fault ≡ labels_fault types.now t [] labels.now) }
{
    let mut words = Words::new(alloc);
    for label in labels {
        let fault = wants_type(types, t, Code::Y1, *label).or(twice_fault(t, &words, *label));
        if fault.is_some() {
            return Ok(fault);
        }
        put_word(&mut words, label.meaning)?;
    }
    Ok(None)
}
