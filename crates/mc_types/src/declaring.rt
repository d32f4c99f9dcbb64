// The rules of declarations: their faults, and what they declare.

ghost use Rattle.std.specs.Prelude.{◌≡◌, IfOk};
ghost use Rattle.mc_prog.specs.Declarations.{address_of, addresses_fault, constant_entity, constant_fault, fixed_entity, heading_fault, local_fault, local_type_fault, parameter_fault, priority_fault, process_fault, process_parameter, result_said, text_fault, type_entity};
ghost use Rattle.mc_prog.specs.Said.{or_else};
ghost use Rattle.mc_prog.specs.DeclarationTypes.{ordinal, scalar_in, value_entity, value_of};
ghost use Rattle.mc_pieces.specs.Constructs.{code_sort_of};

use crate::constants::{address_fault, fixed_fault, word_of};
use crate::said::{UNKNOWN, fault_at, fine, wrong};
use crate::types::{holds_signal, is_scalar};
use crate::written::signal_fault;
use mc_pieces::piece::CodeSort;
use mc_prog::program::TypeInfo;
use mc_prog::typing::{Change, Entity, Meaning, Said, Typed, Wanted};
use mc_tree::fault::{Code, Fault};
use mc_tree::place::Place;
use mc_word::Word;
use mc_word::bytes::Memory;

// A text is no constant; one without bytes has its own fault.
fn text_fault(place: Place, meaning: Meaning) -> Option<Fault>
    ensures { result ≡ text_fault place meaning }
{
    match meaning {
        Meaning::Text(length, _) if length != 0 => fault_at(Code::Y1, place),
        _ => None,
    }
}

/// The fault of a constant's value.
pub fn constant_fault(value: Typed) -> Option<Fault>
    ensures { result ≡ constant_fault value }
{
    match fixed_fault(value) {
        Some(fault) => Some(fault),
        None => text_fault(value.place, value.meaning),
    }
}

/// What a constant is.
pub fn constant_entity(value: Typed) -> Entity
    ensures { result ≡ fixed_entity value }
{
    match value.meaning {
        Meaning::Constant(type_of, word) if value.fixed => Entity::Constant(type_of, word),
        _ => Entity::Faulty,
    }
}

/// What a declared type is.
pub fn type_entity(meaning: Meaning) -> Entity
    ensures { result ≡ type_entity meaning }
{
    match meaning {
        Meaning::Type(number) => Entity::Type(number),
        _ => Entity::Faulty,
    }
}

// A local variable has no signal.
fn local_fault(types: &[TypeInfo], code: Option<Place>, part: Typed) -> Option<Fault>
    ensures { result ≡ local_fault types.now code part }
{
    code?;
    signal_fault(types, part)
}

/// The fault of a declared type: a local one has no record with a signal.
pub fn local_type_fault(code: Option<Place>, part: Typed) -> Option<Fault>
    ensures { result ≡ local_type_fault code part }
{
    code?;
    match part.meaning {
        Meaning::Unknown(Change::Never) => fault_at(Code::Y1, part.place),
        _ => None,
    }
}

/// The fault of a variable: of its address, or of its type.
pub fn variable_fault(
    types: &[TypeInfo],
    code: Option<Place>,
    parts: &[Typed],
    part: Typed,
) -> Option<Fault>
    ensures { result ≡ or_else (addresses_fault parts.now) (local_fault types.now code part) }
{
    if let Some(address) = parts.get(1)
        && let Some(fault) = address_fault(*address)
    {
        return Some(fault);
    }
    local_fault(types, code, part)
}

/// The address of a variable, where it has one.
pub fn address_of(parts: &[Typed]) -> Option<Word>
    ensures { result ≡ address_of parts.now }
{
    let address = parts.get(1)?;
    Some(word_of(address.meaning))
}

/// The fault of a parameter, which holds no signal.
pub fn parameter_fault(types: &[TypeInfo], place: Place, type_of: Option<u32>) -> Option<Fault>
    ensures { result ≡ parameter_fault types.now place type_of }
{
    match type_of {
        Some(t) if holds_signal(types, t) => fault_at(Code::Y6, place),
        _ => None,
    }
}

/// The type of a result, which is scalar.
pub fn result_said(types: &[TypeInfo], part: Typed) -> Said
    ensures { result ≡ result_said types.now part part.meaning }
{
    match part.meaning {
        Meaning::Type(t) if is_scalar(types, t) => fine(Meaning::Type(t)),
        Meaning::Type(_) => wrong(UNKNOWN, Code::Y1, part.place),
        _ => fine(UNKNOWN),
    }
}

// A process takes scalar values alone; `var` is a fault also where the type is not known.
fn process_parameter(types: &[TypeInfo], wanted: Wanted) -> Option<Fault>
    ensures { result ≡ process_parameter types.now wanted }
{
    if wanted.by_name {
        return fault_at(Code::Y6, wanted.at);
    }
    match wanted.type_of {
        Some(t) if !is_scalar(types, t) => fault_at(Code::Y6, wanted.at),
        _ => None,
    }
}

// The first fault of a process's parameters.
fn process_fault(types: &[TypeInfo], wanted: &[Wanted]) -> Option<Fault>
    ensures { result ≡ process_fault types.now wanted.now }
{
    for parameter in wanted {
        let fault = process_parameter(types, *parameter);
        if fault.is_some() {
            return fault;
        }
    }
    None
}

/// The fault of a heading: of a process's parameters, or of a vector.
pub fn heading_fault(
    types: &[TypeInfo],
    wanted: &[Wanted],
    sort: CodeSort,
    vector: Typed,
) -> Option<Fault>
    ensures { result ≡ heading_fault types.now wanted.now (code_sort_of sort) vector }
{
    match sort {
        CodeSort::Procedure => None,
        CodeSort::Process => process_fault(types, wanted),
        CodeSort::Driver => address_fault(vector),
    }
}

/// The fault of a priority.
pub fn priority_fault(parts: &[Typed]) -> Option<Fault>
    ensures { result ≡ priority_fault parts.now }
{
    let priority = parts.first()?;
    address_fault(*priority)
}

/// What a value of an enumeration is. The values stand behind it and count from 0.
pub fn value_entity(number: usize, numbers: &[u32], meaning: Meaning) -> Result<Entity, Memory>
    ensures { IfOk result (λ e. e ≡ value_entity number numbers.now meaning) }
{
    let Meaning::Type(type_of) = meaning else {
        return Ok(Entity::Faulty);
    };
    let ordinal = match numbers.first() {
        Some(enumeration) => number
            .saturating_sub(*enumeration as usize)
            .saturating_sub(1),
        None => 0,
    };
    let word = u16::try_from(ordinal).map_err(|_| Memory)?;
    Ok(Entity::Constant(type_of, word))
}
