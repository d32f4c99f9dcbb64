// Expressions, types and statements of one leaf.

ghost use Rattle.std.specs.Prelude.{◌≡◌, ◌≢◌, ◌↔◌, ℕ, IsTrue, MatchOption};
ghost use Rattle.mc_tree.specs.declared.expression.Factor.{Factor};
ghost use Rattle.mc_tree.specs.declared.tree.Id.{Id};
ghost use Rattle.mc_straight.specs.Alone.{IsAssigned, IsChar, IsCharacter, IsNumber, expr_of, named};

use mc_tree::expression::{Designator, Expr, Factor};
use mc_tree::statement::Statement;
use mc_tree::tree::{Id, TypeTree};
use mc_word::Word;

/// The factor that the expression is, where it is one alone.
fn factor_of(expr: &Expr) -> Option<&Factor>
    ensures { MatchOption result ((factor : Factor) → expr.now ≢ expr_of factor) (λ factor. expr.now ≡ expr_of factor.now) }
{
    let simple = &expr.left;
    let term = &simple.first;
    if expr.compared.is_some() {
        return None;
    }
    if simple.sign.is_some() {
        return None;
    }
    if !simple.more.is_empty() {
        return None;
    }
    if !term.more.is_empty() {
        return None;
    }
    Some(&term.first)
}

/// The number that the expression is, where it is one alone.
pub fn number_of(expr: &Expr) -> Option<Word>
    ensures { MatchOption result ((n : ℕ) → IsNumber expr.now n → ⊥) (λ n. IsNumber expr.now n) }
{
    match factor_of(expr)? {
        Factor::Number(number, _) => Some(*number),
        _ => None,
    }
}

/// The character that the expression is, where it is one alone.
pub fn character_of(expr: &Expr) -> Option<u8>
    ensures { MatchOption result ((byte : ℕ) → IsCharacter expr.now byte → ⊥) (λ byte. IsCharacter expr.now byte) }
{
    match factor_of(expr)? {
        Factor::Character(byte, _) => Some(*byte),
        _ => None,
    }
}

/// Whether the type is the standard name `char`.
pub fn is_char(of: &TypeTree) -> bool
    ensures { IsTrue result ↔ IsChar of.now }
{
    match of {
        TypeTree::Name(id) => id.text.as_slice() == b"char".as_slice(),
        _ => false,
    }
}

/// The name that the designator is, where it has no selectors.
fn name_of(designator: &Designator) -> Option<&Id>
    ensures { MatchOption result ((id : Id) → designator.now ≢ named id) (λ id. designator.now ≡ named id.now) }
{
    if designator.selectors.is_empty() {
        Some(&designator.name)
    } else {
        None
    }
}

/// The name and the character of an assignment of a character alone to a name alone.
pub fn assigned(statement: &Statement) -> Option<(&Id, u8)>
    ensures { MatchOption result ((id : Id) (byte : ℕ) → IsAssigned statement.now id byte → ⊥) (λ found. IsAssigned statement.now found.0.now found.1) }
{
    match statement {
        Statement::Assignment(target, _, value) => Some((name_of(target)?, character_of(value)?)),
        _ => None,
    }
}
