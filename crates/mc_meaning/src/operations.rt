// The values of operators and conversions.

ghost use Rattle.std.specs.Prelude.{◌≡◌, MatchResult};
ghost use Rattle.mc_prog.specs.Traps.{number_of};
ghost use Rattle.mc_prog.specs.Values.{Gives, Traps, truth};
ghost use Rattle.mc_meaning.specs.Operations.{compared, binary, converted, unary, is_binary};

use crate::parts::{BOOLEAN, part_at};
use mc_prog::program::{Form, Program, Standard};
use mc_prog::values::{Trap, add, divide, holds, modulo, multiply, negate, subtract, to_char};
use mc_tree::expression::Relation;
use mc_word::Word;

/// The word of a truth.
pub(crate) fn truth(holds: bool) -> Word
    ensures { result ≡ truth holds }
{
    if holds { 1 } else { 0 }
}

// Compares two values.
fn compared(relation: Relation, a: Word, b: Word) -> Result<Word, Trap>
    ensures { MatchResult result (λ w. compared relation a b ≡ Gives w) (λ trap. compared relation a b ≡ Traps (number_of trap)) }
{
    Ok(truth(holds(relation, a, b)))
}

/// What an operator gives of two values.
pub(crate) fn binary(form: &Form, a: Word, b: Word) -> Result<Word, Trap>
    ensures { MatchResult result (λ w. binary form.now a b ≡ Gives w) (λ trap. binary form.now a b ≡ Traps (number_of trap)) }
{
    match form {
        Form::Equal => compared(Relation::Equal, a, b),
        Form::Unequal => compared(Relation::Unequal, a, b),
        Form::Less => compared(Relation::Less, a, b),
        Form::LessEqual => compared(Relation::LessEqual, a, b),
        Form::Greater => compared(Relation::Greater, a, b),
        Form::GreaterEqual => compared(Relation::GreaterEqual, a, b),
        Form::Add => add(a, b),
        Form::Subtract => subtract(a, b),
        Form::Multiply => multiply(a, b),
        Form::Divide => divide(a, b),
        Form::Modulo => modulo(a, b),
        Form::And => Ok(a & b),
        Form::Or => Ok(a | b),
        Form::Xor => Ok(a ^ b),
        _ => Ok(a),
    }
}

// What a conversion gives.
fn converted(form: &Form, a: Word) -> Result<Word, Trap>
    ensures { MatchResult result (λ w. converted form.now a ≡ Gives w) (λ trap. converted form.now a ≡ Traps (number_of trap)) }
{
    match form {
        Form::Standard(Standard::Char) => to_char(a),
        _ => Ok(a),
    }
}

/// What an operator or a conversion gives of one value of this type.
pub(crate) fn unary(
    program: &Program,
    n: u32,
    type_of: u32,
    form: &Form,
    a: Word,
) -> Result<Word, Trap>
    ensures { MatchResult result (λ w. unary program.now n type_of form.now a ≡ Gives w) (λ trap. unary program.now n type_of form.now a ≡ Traps (number_of trap)) }
{
    match form {
        Form::Minus => negate(a),
        Form::Not => Ok(if type_of == BOOLEAN {
            1u16.saturating_sub(a)
        } else {
            65535 - a
        }),
        Form::CallValue => match program.nodes().get(part_at(program, n, 0) as usize) {
            Some(node) => converted(&node.form, a),
            None => Ok(a),
        },
        _ => Ok(a),
    }
}

/// Whether an operator takes two values.
pub(crate) fn is_binary(form: &Form) -> bool
    ensures { result ≡ is_binary form.now }
{
    match form {
        Form::Equal
        | Form::Unequal
        | Form::Less
        | Form::LessEqual
        | Form::Greater
        | Form::GreaterEqual => true,
        Form::Add | Form::Subtract | Form::Multiply | Form::Divide | Form::Modulo => true,
        Form::And | Form::Or | Form::Xor => true,
        _ => false,
    }
}
