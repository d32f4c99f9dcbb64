// The operators: what types they take and give, and what they give of constants.

ghost use Rattle.std.specs.Prelude.{◌≡◌};
ghost use Rattle.mc_prog.specs.Operators.{alone, combined, combined_right, computed, constant_by, gives, is_decided, not_, operands_fault, operated, signed, trapped_right, unless, value_right};
ghost use Rattle.mc_prog.specs.Takes.{of_product, of_sum};
ghost use Rattle.mc_prog.specs.Said.{type_of};
ghost use Rattle.mc_types.specs.Outcomes.{outcome_of, word_by};

use crate::said::{fine, type_of, wants, wants_type};
use mc_prog::program::TypeInfo;
use mc_prog::typing::{Allowed, BOOLEAN, INTEGER, Meaning, Operator, Said, Typed};
use mc_prog::values::{Trap, add, divide, holds, modulo, multiply, negate, subtract};
use mc_tree::expression::{Adding, Multiplying, Sign};
use mc_tree::fault::{Code, Fault};
use mc_word::Word;

/// An operator of one operand.
#[derive(Clone, Copy, PartialEq, Eq, Debug)]
pub enum Single {
    Signed(Sign),
    Not,
}

/// The operator of a sum.
pub fn of_sum(adding: Adding) -> Operator
    ensures { result ≡ of_sum adding }
{
    match adding {
        Adding::Plus => Operator::Add,
        Adding::Minus => Operator::Subtract,
        Adding::Or => Operator::Or,
        Adding::Xor => Operator::Xor,
    }
}

/// The operator of a product.
pub fn of_product(multiplying: Multiplying) -> Operator
    ensures { result ≡ of_product multiplying }
{
    match multiplying {
        Multiplying::Times => Operator::Multiply,
        Multiplying::Div => Operator::Divide,
        Multiplying::Mod => Operator::Modulo,
        Multiplying::And => Operator::And,
    }
}

// The type of what an operator gives of operands of a type.
fn gives(operator: Operator, t: u32) -> u32
    ensures { result ≡ gives operator t }
{
    match operator {
        Operator::Compare(_) => BOOLEAN,
        _ => t,
    }
}

// Of two operands that differ, the right one has the fault. Where the left one's type is not known, the right one's is one that
// the operator takes.
fn operands_fault(
    types: &[TypeInfo],
    operator: Operator,
    left: Typed,
    right: Typed,
) -> Option<Fault>
    ensures { result ≡ operands_fault types.now operator left right }
{
    match wants(types, Allowed::Operand(operator), Code::Y1, left) {
        Some(fault) => Some(fault),
        None => match type_of(left.meaning) {
            Some(t) => wants_type(types, t, Code::Y1, right),
            None => wants(types, Allowed::Operand(operator), Code::Y1, right),
        },
    }
}

// What an operator gives of two words of a type.
fn computed(operator: Operator, t: u32, a: Word, b: Word) -> Result<Word, Trap>
    ensures { outcome_of result ≡ computed operator t a b }
{
    match operator {
        Operator::Add => add(a, b),
        Operator::Subtract => subtract(a, b),
        Operator::Multiply => multiply(a, b),
        Operator::Divide => divide(a, b),
        Operator::Modulo => modulo(a, b),
        Operator::And => Ok(a & b),
        Operator::Or => Ok(a | b),
        Operator::Xor => Ok(a ^ b),
        Operator::Compare(relation) => Ok(Word::from(holds(relation, a, b))),
    }
}

/// A constant of a type, or a trap in its place.
pub fn constant_by(t: u32, outcome: Result<Word, Trap>) -> Meaning
    ensures { result ≡ constant_by t (outcome_of outcome) }
{
    match outcome {
        Ok(word) => Meaning::Constant(t, word),
        Err(_) => Meaning::Trap(t),
    }
}

// Whether the left side of a Boolean `and` or `or` decides, so that the right one is not evaluated.
fn is_decided(operator: Operator, t: u32, a: Word) -> bool
    ensures { result ≡ is_decided operator t a }
{
    match operator {
        Operator::And => t == BOOLEAN && a == 0,
        Operator::Or => t == BOOLEAN && a == 1,
        _ => false,
    }
}

// What an operator gives of a constant left side.
fn combined_right(operator: Operator, t: u32, a: Word, right: Meaning) -> Meaning
    ensures { result ≡ combined_right operator t a right }
{
    match right {
        Meaning::Constant(_, b) => constant_by(gives(operator, t), computed(operator, t, a, b)),
        Meaning::Trap(_) if is_decided(operator, t, a) => Meaning::Constant(t, a),
        Meaning::Trap(_) => Meaning::Trap(gives(operator, t)),
        Meaning::Value(_) | Meaning::Variable(_) | Meaning::Bit(_) => {
            Meaning::Value(gives(operator, t))
        }
        _ => Meaning::Faulty,
    }
}

// What an operator gives of a left side that traps.
fn trapped_right(operator: Operator, t: u32, right: Typed) -> Meaning
    ensures { result ≡ trapped_right operator t (type_of right.meaning) right.fixed }
{
    match type_of(right.meaning) {
        Some(_) if right.fixed => Meaning::Trap(gives(operator, t)),
        Some(_) => Meaning::Value(gives(operator, t)),
        None => Meaning::Faulty,
    }
}

// What an operator gives of a left side of which only the type is known.
fn value_right(operator: Operator, t: u32, right: Meaning) -> Meaning
    ensures { result ≡ value_right operator t (type_of right) }
{
    match type_of(right) {
        Some(_) => Meaning::Value(gives(operator, t)),
        None => Meaning::Faulty,
    }
}

// What an operator gives of two operands.
fn combined(operator: Operator, left: Meaning, right: Typed) -> Meaning
    ensures { result ≡ combined operator left right }
{
    match left {
        Meaning::Constant(t, a) => combined_right(operator, t, a, right.meaning),
        Meaning::Trap(t) => trapped_right(operator, t, right),
        Meaning::Value(t) => value_right(operator, t, right.meaning),
        Meaning::Variable(variable) => value_right(operator, variable.type_of, right.meaning),
        Meaning::Bit(_) => value_right(operator, BOOLEAN, right.meaning),
        _ => Meaning::Faulty,
    }
}

/// What has this meaning unless there is a fault.
pub fn unless(fault: Option<Fault>, meaning: Meaning) -> Said
    ensures { result ≡ unless fault meaning }
{
    match fault {
        None => fine(meaning),
        Some(_) => Said {
            meaning: Meaning::Faulty,
            fault,
        },
    }
}

/// What is said of an operator between two operands.
pub fn operated(types: &[TypeInfo], operator: Operator, left: Typed, right: Typed) -> Said
    ensures { result ≡ operated types.now operator left right }
{
    unless(
        operands_fault(types, operator, left, right),
        combined(operator, left.meaning, right),
    )
}

// What an operator of one operand gives of a word of a type.
fn word_by(single: Single, t: u32, w: Word) -> Result<Word, Trap>
    ensures { outcome_of result ≡ word_by single t w }
{
    match single {
        Single::Signed(Sign::Plus) => Ok(w),
        Single::Signed(Sign::Minus) => negate(w),
        Single::Not => {
            let greatest: Word = if t == BOOLEAN { 1 } else { Word::MAX };
            Ok(greatest.saturating_sub(w))
        }
    }
}

// What it gives of a constant, and a value of the operand's type else.
fn alone(single: Single, operand: Meaning) -> Meaning
    ensures { result ≡ alone (word_by single) operand }
{
    match operand {
        Meaning::Constant(t, w) => constant_by(t, word_by(single, t, w)),
        Meaning::Trap(t) => Meaning::Trap(t),
        Meaning::Value(t) => Meaning::Value(t),
        Meaning::Variable(variable) => Meaning::Value(variable.type_of),
        Meaning::Bit(_) => Meaning::Value(BOOLEAN),
        _ => Meaning::Faulty,
    }
}

/// What is said of a sign before an operand.
pub fn signed(types: &[TypeInfo], sign: Sign, operand: Typed) -> Said
    ensures { result ≡ signed types.now sign operand }
{
    unless(
        wants_type(types, INTEGER, Code::Y1, operand),
        alone(Single::Signed(sign), operand.meaning),
    )
}

/// What is said of `not` before an operand: it gives the other truth, or the other bits.
pub fn not_(types: &[TypeInfo], operand: Typed) -> Said
    ensures { result ≡ not_ types.now operand }
{
    unless(
        wants(types, Allowed::Logical, Code::Y1, operand),
        alone(Single::Not, operand.meaning),
    )
}
