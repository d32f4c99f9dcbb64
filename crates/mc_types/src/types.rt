// What types there are, and which of them a place allows.

ghost use Rattle.std.specs.Prelude.{◌≡◌, option_copied};
ghost use Rattle.mc_prog.specs.Known.{is_logical, is_ordered, is_scalar, is_text_type, holds_signal, shape_of, words_of};
ghost use Rattle.mc_prog.specs.Takes.{allows, converts_from, relates, takes};

use mc_prog::program::{Shape, TypeInfo};
use mc_prog::typing::{Allowed, BITS, BOOLEAN, CHAR, INTEGER, Operator};
use mc_tree::expression::Relation;

/// What a type is made of.
pub fn shape_of(types: &[TypeInfo], t: u32) -> Option<&Shape>
    ensures { option_copied result ≡ shape_of types.now t }
{
    match types.get(t as usize) {
        Some(info) => Some(&info.shape),
        None => None,
    }
}

/// How many words a value of a type takes.
pub fn words_of(types: &[TypeInfo], t: u32) -> u32
    ensures { result ≡ words_of types.now t }
{
    match types.get(t as usize) {
        Some(info) => info.words,
        None => 0,
    }
}

/// Whether a type is a signal, or an array that holds signals.
pub fn holds_signal(types: &[TypeInfo], t: u32) -> bool
    ensures { result ≡ holds_signal types.now t }
{
    match types.get(t as usize) {
        Some(info) => info.holds_signal,
        None => false,
    }
}

/// Whether a type is integer, Boolean, char, bits or an enumeration.
pub fn is_scalar(types: &[TypeInfo], t: u32) -> bool
    ensures { result ≡ is_scalar types.now t }
{
    match shape_of(types, t) {
        Some(Shape::Integer | Shape::Boolean | Shape::Char | Shape::Bits | Shape::Enumeration(_)) =>
            true,
        Some(Shape::Signal | Shape::Array(_, _, _, _) | Shape::Record(_)) | None => false,
    }
}

/// Whether a type is one of indices, of choices and of what is ordered.
pub fn is_ordered(types: &[TypeInfo], t: u32) -> bool
    ensures { result ≡ is_ordered types.now t }
{
    is_scalar(types, t) && t != BITS
}

/// Whether a type is Boolean or bits.
pub fn is_logical(t: u32) -> bool
    ensures { result ≡ is_logical t }
{
    t == BOOLEAN || t == BITS
}

/// Whether texts are values of a type, where their length is that of the type.
pub fn is_text_type(types: &[TypeInfo], t: u32) -> bool
    ensures { result ≡ is_text_type types.now t }
{
    match shape_of(types, t) {
        Some(Shape::Array(_, _, _, element)) => *element == CHAR,
        _ => false,
    }
}

// Whether a relation is one of values of a type.
fn relates(types: &[TypeInfo], relation: Relation, t: u32) -> bool
    ensures { result ≡ relates types.now relation t }
{
    match relation {
        Relation::Equal | Relation::Unequal => is_scalar(types, t),
        Relation::Less | Relation::LessEqual | Relation::Greater | Relation::GreaterEqual => {
            is_ordered(types, t)
        }
    }
}

// Whether an operator takes operands of a type.
fn takes(types: &[TypeInfo], operator: Operator, t: u32) -> bool
    ensures { result ≡ takes types.now operator t }
{
    match operator {
        Operator::Add
        | Operator::Subtract
        | Operator::Multiply
        | Operator::Divide
        | Operator::Modulo => t == INTEGER,
        Operator::And | Operator::Or => is_logical(t),
        Operator::Xor => t == BITS,
        Operator::Compare(relation) => relates(types, relation, t),
    }
}

// Whether a conversion to a type takes values of another.
fn converts_from(types: &[TypeInfo], target: u32, t: u32) -> bool
    ensures { result ≡ converts_from types.now target t }
{
    match target {
        INTEGER => is_scalar(types, t),
        CHAR => t == INTEGER || t == CHAR,
        _ => t == INTEGER || t == CHAR || t == BITS,
    }
}

/// Whether a place allows a type.
pub fn allows(types: &[TypeInfo], allowed: Allowed, t: u32) -> bool
    ensures { result ≡ allows types.now allowed t }
{
    match allowed {
        Allowed::Only(only) => t == only,
        Allowed::Logical => is_logical(t),
        Allowed::Ordered => is_ordered(types, t),
        Allowed::Operand(operator) => takes(types, operator, t),
        Allowed::Converted(target) => converts_from(types, target, t),
    }
}
