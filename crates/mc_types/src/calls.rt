// Calls: what can be called in which place, and what arguments are taken.

ghost use Rattle.std.specs.Prelude.{◌≡◌};
ghost use Rattle.mc_prog.specs.Known.{Known};
ghost use Rattle.mc_prog.specs.Calls.{answered, any_faulty, argument_fault, arguments_fault, call_fault, called_statement, called_value, change_fault, converted, converted_word, function_said, is_conversion, is_text_of, is_variable_of, name_fault, no_arguments, one_signal, procedure_said, signal_and_rank, signal_fault, standard_statement, standard_value, type_fault, uncallable, value_fault, with_type};
ghost use Rattle.mc_prog.specs.Operators.{unless};
ghost use Rattle.mc_types.specs.Outcomes.{outcome_of};

use crate::designators::wanted_or;
use crate::operators::{constant_by, unless};
use crate::said::{fault_at, fine, is_faulty, value_by, wants, wants_type, wrong};
use crate::types::{is_scalar, is_text_type, words_of};
use mc_prog::program::{Standard, TypeInfo};
use mc_prog::typing::{
    Allowed, Answer, BITS, BOOLEAN, CHAR, Callable, Change, INTEGER, Meaning, SIGNAL, Said, Takes,
    Typed, Variable, Wanted,
};
use mc_prog::values::{Trap, to_char};
use mc_tree::fault::{Code, Fault};
use mc_tree::place::Place;
use mc_word::Word;

// Whether something is a variable of a type, and no value of one.
fn is_variable_of(t: u32, meaning: Meaning) -> bool
    ensures { result ≡ is_variable_of t meaning }
{
    match meaning {
        Meaning::Variable(variable) => variable.type_of == t,
        _ => false,
    }
}

// Whether something is a text that stands as it is, of as many bytes as the type has words.
fn is_text_of(types: &[TypeInfo], t: u32, part: Typed) -> bool
    ensures { result ≡ is_text_of types.now t part part.meaning }
{
    match part.meaning {
        Meaning::Text(length, place) => {
            is_text_type(types, t) && length == words_of(types, t) && place == part.place
        }
        _ => false,
    }
}

// The fault of an argument for a parameter of a type that is read alone.
fn value_fault(types: &[TypeInfo], t: u32, argument: Typed) -> Option<Fault>
    ensures { result ≡ value_fault types.now t argument }
{
    if is_scalar(types, t) {
        return wants_type(types, t, Code::Y6, argument);
    }
    let is_taken = is_faulty(argument.meaning)
        || is_variable_of(t, argument.meaning)
        || is_text_of(types, t, argument);
    if is_taken {
        None
    } else {
        fault_at(Code::Y6, argument.place)
    }
}

// The fault of what is given for `var` and may not be changed there.
fn change_fault(change: Change, register: bool, place: Place) -> Option<Fault>
    ensures { result ≡ change_fault change register place }
{
    match change {
        Change::Never => fault_at(Code::Y2, place),
        Change::May | Change::Elsewhere if register => fault_at(Code::Y2, place),
        Change::May => None,
        Change::Elsewhere => fault_at(Code::Y3, place),
    }
}

// The fault of a variable of another type.
fn type_fault(variable: Variable, t: Option<u32>, place: Place) -> Option<Fault>
    ensures { result ≡ type_fault variable t place }
{
    match t {
        Some(t) if variable.type_of != t => fault_at(Code::Y6, place),
        _ => None,
    }
}

// The fault of an argument for a `var` parameter.
fn name_fault(t: Option<u32>, place: Place, meaning: Meaning) -> Option<Fault>
    ensures { result ≡ name_fault t place meaning }
{
    match meaning {
        Meaning::Variable(variable) => change_fault(variable.change, variable.register, place).or(
            type_fault(variable, t, place),
        ),
        Meaning::Unknown(change) => change_fault(change, false, place),
        _ => fault_at(Code::Y2, place),
    }
}

// The fault of an argument in a place.
fn argument_fault(types: &[TypeInfo], wanted: Wanted, argument: Typed) -> Option<Fault>
    ensures { result ≡ argument_fault types.now wanted argument }
{
    if wanted.by_name {
        return name_fault(wanted.type_of, argument.place, argument.meaning);
    }
    match wanted.type_of {
        Some(t) => value_fault(types, t, argument),
        None => None,
    }
}

// The first fault of arguments, of which there are as many as wanted.
fn arguments_fault(types: &[TypeInfo], wanted: &[Wanted], arguments: &[Typed]) -> Option<Fault>
    ensures { result ≡ arguments_fault types.now wanted.now arguments.now }
{
    for (taken, argument) in wanted.iter().zip(arguments) {
        let fault = argument_fault(types, *taken, *argument);
        if fault.is_some() {
            return fault;
        }
    }
    None
}

// The fault of a call of what takes these. A wrong number of arguments is one of the called name.
fn call_fault(
    types: &[TypeInfo],
    place: Place,
    wanted: &[Wanted],
    arguments: &[Typed],
) -> Option<Fault>
    ensures { result ≡ call_fault types.now place wanted.now arguments.now }
{
    if arguments.len() == wanted.len() {
        arguments_fault(types, wanted, arguments)
    } else {
        fault_at(Code::Y6, place)
    }
}

// A call of what takes these, by what it means where it has no fault.
fn called(
    types: &[TypeInfo],
    place: Place,
    wanted: &[Wanted],
    arguments: &[Typed],
    meaning: Meaning,
) -> Said
    ensures { result ≡ unless (call_fault types.now place wanted.now arguments.now) meaning }
{
    unless(call_fault(types, place, wanted, arguments), meaning)
}

// A call that there is not in its place.
fn uncallable(place: Place) -> Said
    ensures { result ≡ uncallable place }
{
    wrong(Meaning::Faulty, Code::Y6, place)
}

// The fault of what is no signal: the standard calls take a variable or an element.
fn signal_fault(argument: Typed) -> Option<Fault>
    ensures { result ≡ signal_fault argument }
{
    if is_faulty(argument.meaning) || is_variable_of(SIGNAL, argument.meaning) {
        None
    } else {
        fault_at(Code::Y6, argument.place)
    }
}

// Whether one of the arguments has a fault in it.
fn any_faulty(arguments: &[Typed]) -> bool
    ensures { result ≡ any_faulty arguments.now }
{
    let mut left = arguments;
    while let [argument, further @ ..] = left {
        if is_faulty(argument.meaning) {
            return true;
        }
        left = further;
    }
    false
}

// A call with a fault in its arguments has no value.
fn answered(meaning: Meaning, arguments: &[Typed]) -> Meaning
    ensures { result ≡ answered meaning arguments.now }
{
    if any_faulty(arguments) {
        Meaning::Faulty
    } else {
        meaning
    }
}

// A standard call that takes a signal.
fn one_signal(place: Place, meaning: Meaning, arguments: &[Typed]) -> Said
    ensures { result ≡ one_signal place meaning arguments.now }
{
    match arguments {
        [signal] => unless(signal_fault(*signal), answered(meaning, arguments)),
        _ => uncallable(place),
    }
}

// A standard call that takes a signal, and a rank where there is one.
fn signal_and_rank(types: &[TypeInfo], place: Place, arguments: &[Typed]) -> Said
    ensures { result ≡ signal_and_rank types.now place arguments.now }
{
    match arguments {
        [signal] => unless(signal_fault(*signal), Meaning::Nothing),
        [signal, rank] => unless(
            signal_fault(*signal).or(wants_type(types, INTEGER, Code::Y6, *rank)),
            Meaning::Nothing,
        ),
        _ => uncallable(place),
    }
}

// A standard call that takes nothing.
fn no_arguments(place: Place, arguments: &[Typed]) -> Said
    ensures { result ≡ no_arguments place arguments.now }
{
    if arguments.is_empty() {
        fine(Meaning::Nothing)
    } else {
        uncallable(place)
    }
}

// What a conversion gives of a constant.
fn converted_word(target: u32, w: Word) -> Result<Word, Trap>
    ensures { outcome_of result ≡ converted_word target w }
{
    if target == CHAR { to_char(w) } else { Ok(w) }
}

// What a conversion to a type gives.
fn with_type(target: u32, meaning: Meaning) -> Meaning
    ensures { result ≡ with_type target meaning }
{
    match meaning {
        Meaning::Constant(_, w) => constant_by(target, converted_word(target, w)),
        Meaning::Trap(_) => Meaning::Trap(target),
        Meaning::Value(_) | Meaning::Variable(_) | Meaning::Bit(_) => Meaning::Value(target),
        _ => Meaning::Faulty,
    }
}

// A conversion to a type.
fn converted(types: &[TypeInfo], target: u32, place: Place, arguments: &[Typed]) -> Said
    ensures { result ≡ converted types.now target place arguments.now }
{
    match arguments {
        [argument] => unless(
            wants(types, Allowed::Converted(target), Code::Y6, *argument),
            with_type(target, argument.meaning),
        ),
        _ => uncallable(place),
    }
}

/// Whether a type is called as a conversion: integer, char and bits are.
pub fn is_conversion(t: u32) -> bool
    ensures { result ≡ is_conversion t }
{
    t == INTEGER || t == CHAR || t == BITS
}

// A call of a procedure in the place of a factor.
fn function_said(
    types: &[TypeInfo],
    procedures: &[Takes],
    place: Place,
    callable: Callable,
    arguments: &[Typed],
) -> Said
    ensures { (known : Known) → known.types ≡ types.now → known.procedures ≡ procedures.now → result ≡ function_said known place callable callable.result arguments.now }
{
    match callable.result {
        Answer::Value(result) => {
            let wanted = wanted_or(procedures, callable.number);
            called(
                types,
                place,
                wanted,
                arguments,
                answered(value_by(result), arguments),
            )
        }
        Answer::Nothing => uncallable(place),
    }
}

// A call of a standard name in the place of a factor.
fn standard_value(place: Place, standard: Standard, arguments: &[Typed]) -> Said
    ensures { result ≡ standard_value place standard arguments.now }
{
    match standard {
        Standard::Awaited => one_signal(place, Meaning::Value(BOOLEAN), arguments),
        _ => uncallable(place),
    }
}

/// What is said of a call in the place of a factor, where the called name means this.
pub fn called_value(
    types: &[TypeInfo],
    procedures: &[Takes],
    is_standard: bool,
    place: Place,
    meaning: Meaning,
    arguments: &[Typed],
) -> Said
    ensures { (known : Known) → known.types ≡ types.now → known.procedures ≡ procedures.now → result ≡ called_value known is_standard place meaning arguments.now }
{
    match meaning {
        Meaning::Procedure(callable) | Meaning::Own(callable) => {
            function_said(types, procedures, place, callable, arguments)
        }
        Meaning::Standard(standard) => standard_value(place, standard, arguments),
        Meaning::Type(t) if is_standard && is_conversion(t) => {
            converted(types, t, place, arguments)
        }
        Meaning::Unknown(_) => fine(Meaning::Faulty),
        _ => uncallable(place),
    }
}

// A call of a procedure in the place of a statement.
fn procedure_said(
    types: &[TypeInfo],
    procedures: &[Takes],
    place: Place,
    callable: Callable,
    arguments: &[Typed],
) -> Said
    ensures { (known : Known) → known.types ≡ types.now → known.procedures ≡ procedures.now → result ≡ procedure_said known place callable callable.result arguments.now }
{
    match callable.result {
        Answer::Nothing => {
            let wanted = wanted_or(procedures, callable.number);
            called(types, place, wanted, arguments, Meaning::Nothing)
        }
        Answer::Value(_) => uncallable(place),
    }
}

// A call of a standard name in the place of a statement.
fn standard_statement(
    types: &[TypeInfo],
    place: Place,
    standard: Standard,
    arguments: &[Typed],
) -> Said
    ensures { result ≡ standard_statement types.now place standard arguments.now }
{
    match standard {
        Standard::Wait => signal_and_rank(types, place, arguments),
        Standard::Send => one_signal(place, Meaning::Nothing, arguments),
        Standard::Doio => no_arguments(place, arguments),
        _ => uncallable(place),
    }
}

/// What is said of a call in the place of a statement, where the called name means this.
pub fn called_statement(
    types: &[TypeInfo],
    procedures: &[Takes],
    processes: &[Takes],
    place: Place,
    meaning: Meaning,
    arguments: &[Typed],
) -> Said
    ensures { (known : Known) → known.types ≡ types.now → known.procedures ≡ procedures.now → known.processes ≡ processes.now → result ≡ called_statement known place meaning arguments.now }
{
    match meaning {
        Meaning::Procedure(callable) | Meaning::Own(callable) => {
            procedure_said(types, procedures, place, callable, arguments)
        }
        Meaning::Process(number) => {
            let wanted = wanted_or(processes, number);
            called(types, place, wanted, arguments, Meaning::Nothing)
        }
        Meaning::Standard(standard) => standard_statement(types, place, standard, arguments),
        Meaning::Unknown(_) => fine(Meaning::Nothing),
        _ => uncallable(place),
    }
}
