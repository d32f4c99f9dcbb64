// Designators: fields, elements and bits, and what a designator is in the place of a factor.

ghost use Rattle.std.specs.Prelude.{◌≡◌, option_copied, slice_get};
ghost use Rattle.mc_prog.specs.Known.{Known, shape_of};
ghost use Rattle.mc_prog.specs.Said.{type_of};
ghost use Rattle.mc_prog.specs.Designators.{unknown, bit_of, called_alone_by, constant_bit, designated, element_by, field_by, field_in, field_said, grouped, indexed, lost, no_part, no_value, own_bit, picked, picked_by, picked_or, selected, wanted_or};

use crate::said::{UNKNOWN, fine, type_of, value_by, wants_type, wrong};
use crate::types::shape_of;
use mc_prog::program::{FieldInfo, Shape, TypeInfo};
use mc_prog::typing::{
    Answer, BITS, BOOLEAN, Callable, Change, INTEGER, Meaning, Said, Takes, Typed, Variable, Wanted,
};
use mc_tree::fault::Code;
use mc_tree::tree::Id;
use mc_word::Word;

/// The field of a name, where the record has it.
pub fn field_in<'a>(fields: &'a [FieldInfo], name: &[u8]) -> Option<&'a FieldInfo>
    ensures { option_copied result ≡ field_in fields.now name.now }
{
    for field in fields {
        if field.name.as_slice() == name {
            return Some(field);
        }
    }
    None
}

// A part of what has none: whether a variable's may be changed is known, and what is no variable has no value.
fn lost(meaning: Meaning) -> Meaning
    ensures { result ≡ lost meaning }
{
    match meaning {
        Meaning::Variable(variable) => Meaning::Unknown(variable.change),
        Meaning::Bit(change) | Meaning::Unknown(change) => Meaning::Unknown(change),
        Meaning::Own(_) | Meaning::OwnBit => UNKNOWN,
        _ => Meaning::NoValue,
    }
}

// A part with a fault in it; whether it may be changed is known where it is one of a variable. A bit of a constant may not,
// and a bit of the function around stays one.
fn unknown(part: Meaning) -> Meaning
    ensures { result ≡ unknown part }
{
    match part {
        Meaning::Variable(variable) => Meaning::Unknown(variable.change),
        Meaning::Bit(change) => Meaning::Unknown(change),
        Meaning::Constant(_, _) | Meaning::Trap(_) | Meaning::Value(_) => {
            Meaning::Unknown(Change::Never)
        }
        Meaning::OwnBit => part,
        _ => UNKNOWN,
    }
}

// A field or an index of what has none is a fault of the whole designator.
fn no_part(base: Typed) -> Said
    ensures { result ≡ no_part base }
{
    wrong(lost(base.meaning), Code::Y1, base.place)
}

// The field of a variable, by the fields that its type has.
fn field_said(variable: Variable, id: &Id, fields: &[FieldInfo]) -> Said
    ensures { result ≡ field_said variable id.now (field_in fields.now id.now.text) }
{
    match field_in(fields, id.text.as_slice()) {
        Some(field) => fine(Meaning::Variable(Variable {
            type_of: field.type_of,
            ..variable
        })),
        None => wrong(Meaning::Unknown(variable.change), Code::Y1, id.place),
    }
}

/// What is said of a field of a designator.
pub fn selected(types: &[TypeInfo], base: Typed, id: &Id) -> Said
    ensures { result ≡ selected types.now base id.now base.meaning }
{
    match base.meaning {
        Meaning::Variable(variable) => match shape_of(types, variable.type_of) {
            Some(Shape::Record(fields)) => field_said(variable, id, fields.fields.as_slice()),
            _ => no_part(base),
        },
        Meaning::Unknown(_) => fine(base.meaning),
        _ => no_part(base),
    }
}

// The part that an index of this type picks out; none where the index has a fault.
fn picked(types: &[TypeInfo], index: Typed, t: u32, part: Meaning) -> Said
    ensures { result ≡ picked types.now index t part }
{
    match wants_type(types, t, Code::Y1, index) {
        Some(fault) => Said {
            meaning: unknown(part),
            fault: Some(fault),
        },
        None => match type_of(index.meaning) {
            Some(_) => fine(part),
            None => fine(unknown(part)),
        },
    }
}

// An element or a bit of a variable, by its shape.
fn element_by(types: &[TypeInfo], base: Typed, index: Typed, variable: Variable) -> Said
    ensures { result ≡ element_by types.now base index variable (shape_of types.now variable.type_of) }
{
    match shape_of(types, variable.type_of) {
        Some(Shape::Bits) => picked(types, index, INTEGER, Meaning::Bit(variable.change)),
        Some(Shape::Array(of_index, _, _, element)) => {
            let part = Variable {
                type_of: *element,
                ..variable
            };
            picked(types, index, *of_index, Meaning::Variable(part))
        }
        _ => no_part(base),
    }
}

// A bit of a constant.
fn bit_of(word: Word, index: Word) -> Meaning
    ensures { result ≡ bit_of word index }
{
    if index < 16 {
        Meaning::Constant(BOOLEAN, word >> index & 1)
    } else {
        Meaning::Trap(BOOLEAN)
    }
}

// A bit of a constant, by what is known of the index.
fn constant_bit(word: Word, index: Meaning) -> Meaning
    ensures { result ≡ constant_bit word index }
{
    match index {
        Meaning::Constant(_, index) => bit_of(word, index),
        Meaning::Trap(_) => Meaning::Trap(BOOLEAN),
        _ => Meaning::Value(BOOLEAN),
    }
}

// A bit of the result of the function around.
fn own_bit(types: &[TypeInfo], base: Typed, index: Typed, answer: Answer) -> Said
    ensures { result ≡ own_bit types.now base index answer }
{
    match answer {
        Answer::Value(Some(BITS)) => picked(types, index, INTEGER, Meaning::OwnBit),
        Answer::Value(None) => fine(UNKNOWN),
        Answer::Value(Some(_)) | Answer::Nothing => no_part(base),
    }
}

/// What is said of an index of a designator.
pub fn indexed(types: &[TypeInfo], base: Typed, index: Typed) -> Said
    ensures { result ≡ indexed types.now base index base.meaning }
{
    match base.meaning {
        Meaning::Variable(variable) => element_by(types, base, index, variable),
        Meaning::Constant(BITS, word) => {
            picked(types, index, INTEGER, constant_bit(word, index.meaning))
        }
        Meaning::Own(callable) => own_bit(types, base, index, callable.result),
        Meaning::Unknown(_) => fine(base.meaning),
        _ => no_part(base),
    }
}

// A name that is no value.
fn no_value(t: Typed) -> Said
    ensures { result ≡ no_value t }
{
    wrong(Meaning::NoValue, Code::Y1, t.place)
}

/// What a procedure or a process takes, by its number.
pub fn wanted_or(all: &[Takes], number: u32) -> &[Wanted]
    ensures { result.now ≡ wanted_or (slice_get all.now number) }
{
    match all.get(number as usize) {
        Some(takes) => takes.wanted.as_slice(),
        None => &[],
    }
}

// The name of a function without parameters is a call.
fn called_alone(procedures: &[Takes], t: Typed, callable: Callable) -> Said
    ensures { result ≡ called_alone_by t callable.result (wanted_or (slice_get procedures.now callable.number)) }
{
    match callable.result {
        Answer::Value(type_of) if wanted_or(procedures, callable.number).is_empty() => {
            fine(value_by(type_of))
        }
        _ => no_value(t),
    }
}

/// What is said of a designator in the place of a factor.
pub fn designated(procedures: &[Takes], t: Typed) -> Said
    ensures { (known : Known) → known.procedures ≡ procedures.now → result ≡ designated known t t.meaning }
{
    match t.meaning {
        Meaning::Own(callable) | Meaning::Procedure(callable) => {
            called_alone(procedures, t, callable)
        }
        Meaning::NoValue
        | Meaning::OwnBit
        | Meaning::Process(_)
        | Meaning::Standard(_)
        | Meaning::Type(_) => no_value(t),
        Meaning::Nothing | Meaning::Faulty | Meaning::Bounds(_, _, _) => fine(UNKNOWN),
        Meaning::Unknown(_)
        | Meaning::Constant(_, _)
        | Meaning::Trap(_)
        | Meaning::Value(_)
        | Meaning::Text(_, _)
        | Meaning::Variable(_)
        | Meaning::Bit(_) => fine(t.meaning),
    }
}

/// What an expression between ( and ) means: it is no variable any more.
pub fn grouped(meaning: Meaning) -> Meaning
    ensures { result ≡ grouped meaning }
{
    match meaning {
        Meaning::Constant(_, _) | Meaning::Trap(_) | Meaning::Value(_) => meaning,
        Meaning::Text(length, _) if length != 0 => meaning,
        Meaning::Variable(variable) => Meaning::Value(variable.type_of),
        Meaning::Bit(_) => Meaning::Value(BOOLEAN),
        _ => Meaning::Faulty,
    }
}
