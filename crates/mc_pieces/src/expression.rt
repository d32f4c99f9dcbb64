// The pieces of expressions.
#![tactic(auto, using(crate::proofs::ExpressionLaws::expression_laws, std::proofs::lemmas::Grind::common_steps))]

ghost use Rattle.std.specs.Prelude.{◌≡◌, OnOk};
ghost use Rattle.mc_prog.specs.ExpressionPieces.{added_term, args, compared, designator, element, elements, expr, factor, multiplied_factor, selector, signed, simple, term};
ghost use Rattle.mc_pieces.specs.Walks.{indexed};

use crate::piece::Construct;
use crate::walk::Walk;
use mc_tree::expression::{
    AddedTerm, Args, Compared, Designator, Element, Elements, Expr, Factor, MultipliedFactor,
    Selector, Sign, Simple, Term,
};
use mc_tree::place::Place;
use mc_word::bytes::Memory;

/// The pieces of an expression.
#[cycle(expression)]
pub fn expr<'a>(walk: &mut Walk<'a>, tree: &'a Expr) -> Result<(), Memory>
    ensures { OnOk result (walk.new ≡ expr tree.now walk.old) }
{
    let outer = walk.begin();
    simple(walk, &tree.left)?;
    if let Some(part) = &tree.compared {
        compared(walk, part)?;
    }
    walk.end(outer)
}

// What is compared becomes the left part of the comparison.
#[cycle(expression)]
fn compared<'a>(walk: &mut Walk<'a>, tree: &'a Compared) -> Result<(), Memory>
    ensures { OnOk result (walk.new ≡ compared tree.now walk.old) }
{
    simple(walk, &tree.right)?;
    walk.close(None, Construct::Comparison(tree.relation))
}

#[cycle(expression)]
fn simple<'a>(walk: &mut Walk<'a>, tree: &'a Simple) -> Result<(), Memory>
    ensures { OnOk result (walk.new ≡ simple tree.now walk.old) }
{
    let outer = walk.begin();
    term(walk, &tree.first)?;
    signed(walk, tree.sign)?;
    for added in tree.more.as_slice() {
        added_term(walk, added)?;
    }
    walk.end(outer)
}

// The sign, where there is one, stands over the first term.
fn signed<'a>(walk: &mut Walk<'a>, tree: Option<(Sign, Place)>) -> Result<(), Memory>
    ensures { OnOk result (walk.new ≡ signed tree walk.old) }
{
    match tree {
        Some((sign, place)) => walk.close(Some(place), Construct::Signed(sign)),
        None => Ok(()),
    }
}

// The sum so far becomes the left part of this one.
#[cycle(expression)]
fn added_term<'a>(walk: &mut Walk<'a>, tree: &'a AddedTerm) -> Result<(), Memory>
    ensures { OnOk result (walk.new ≡ added_term tree.now walk.old) }
{
    term(walk, &tree.term)?;
    walk.close(None, Construct::Sum(tree.operator))
}

#[cycle(expression)]
fn term<'a>(walk: &mut Walk<'a>, tree: &'a Term) -> Result<(), Memory>
    ensures { OnOk result (walk.new ≡ term tree.now walk.old) }
{
    let outer = walk.begin();
    factor(walk, &tree.first)?;
    for multiplied in tree.more.as_slice() {
        multiplied_factor(walk, multiplied)?;
    }
    walk.end(outer)
}

// The product so far becomes the left part of this one.
#[cycle(expression)]
fn multiplied_factor<'a>(walk: &mut Walk<'a>, tree: &'a MultipliedFactor) -> Result<(), Memory>
    ensures { OnOk result (walk.new ≡ multiplied_factor tree.now walk.old) }
{
    factor(walk, &tree.factor)?;
    walk.close(None, Construct::Product(tree.operator))
}

#[cycle(expression)]
fn factor<'a>(walk: &mut Walk<'a>, tree: &'a Factor) -> Result<(), Memory>
    ensures { OnOk result (walk.new ≡ factor tree.now walk.old) }
{
    match tree {
        Factor::Number(value, place) => walk.leaf(*place, Construct::Number(*value)),
        Factor::Character(value, place) => walk.leaf(*place, Construct::Character(*value)),
        Factor::Text(text, place) => walk.leaf(*place, Construct::Text(text)),
        Factor::Designator(inner) => {
            let outer = walk.begin();
            designator(walk, inner)?;
            walk.node(outer, None, Construct::Designated)
        }
        Factor::Call(id, inner) => {
            let outer = walk.begin();
            args(walk, inner)?;
            walk.node(outer, Some(id.place), Construct::Calling(id))
        }
        Factor::Group(opening, inner, _) => {
            let outer = walk.begin();
            expr(walk, inner.get())?;
            walk.node(outer, Some(*opening), Construct::Group)
        }
        Factor::Not(word, inner) => {
            let outer = walk.begin();
            factor(walk, inner.get())?;
            walk.node(outer, Some(*word), Construct::Negation)
        }
        Factor::Bits(opening, inner, _) => {
            let outer = walk.begin();
            if let Some(inner) = inner {
                elements(walk, inner)?;
            }
            walk.node(outer, Some(*opening), Construct::Bits)
        }
    }
}

/// The pieces of a designator.
#[cycle(expression)]
pub fn designator<'a>(walk: &mut Walk<'a>, tree: &'a Designator) -> Result<(), Memory>
    ensures { OnOk result (walk.new ≡ designator tree.now walk.old) }
{
    let outer = walk.begin();
    walk.leaf(tree.name.place, Construct::Name(&tree.name))?;
    for inner in tree.selectors.as_slice() {
        selector(walk, inner)?;
    }
    walk.end(outer)
}

// The designator so far becomes the first part of what is selected from it.
#[cycle(expression)]
fn selector<'a>(walk: &mut Walk<'a>, tree: &'a Selector) -> Result<(), Memory>
    ensures { OnOk result (walk.new ≡ selector tree.now walk.old) }
{
    match tree {
        Selector::Field(_, field) => walk.close(None, Construct::Select(field)),
        Selector::Index(_, first, more, _) => {
            index(walk, first.get())?;
            for next in more.as_slice() {
                index(walk, &next.item)?;
            }
            Ok(())
        }
    }
}

#[cycle(expression)]
fn index<'a>(walk: &mut Walk<'a>, tree: &'a Expr) -> Result<(), Memory>
    ensures { OnOk result (walk.new ≡ indexed tree.now walk.old) }
{
    expr(walk, tree)?;
    walk.close(None, Construct::Index)
}

/// The pieces of the arguments of a call.
#[cycle(expression)]
pub fn args<'a>(walk: &mut Walk<'a>, tree: &'a Args) -> Result<(), Memory>
    ensures { OnOk result (walk.new ≡ args tree.now walk.old) }
{
    expr(walk, tree.first.get())?;
    for next in tree.more.as_slice() {
        expr(walk, &next.item)?;
    }
    Ok(())
}

#[cycle(expression)]
fn elements<'a>(walk: &mut Walk<'a>, tree: &'a Elements) -> Result<(), Memory>
    ensures { OnOk result (walk.new ≡ elements tree.now walk.old) }
{
    element(walk, tree.first.get())?;
    for next in tree.more.as_slice() {
        element(walk, &next.item)?;
    }
    Ok(())
}

#[cycle(expression)]
fn element<'a>(walk: &mut Walk<'a>, tree: &'a Element) -> Result<(), Memory>
    ensures { OnOk result (walk.new ≡ element tree.now walk.old) }
{
    let outer = walk.begin();
    expr(walk, &tree.first)?;
    if let Some(last) = &tree.last {
        expr(walk, &last.item)?;
    }
    walk.node(outer, None, Construct::Element)
}
