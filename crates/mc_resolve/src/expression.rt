// The names that expressions use.
#![tactic(auto, using(crate::proofs::ExpressionLaws::expression_laws, std::proofs::lemmas::Grind::common_steps))]

ghost use Rattle.std.specs.Prelude.{OnOk};
ghost use Rattle.mc_prog.specs.ExpressionNames.{args, designator, element, elements, expr, factor, selector, simple, term};
ghost use Rattle.mc_resolve.specs.Adds.{Adds};

use crate::item::{Item, Note};
use crate::put::put;
use mc_tree::expression::{
    Args, Designator, Element, Elements, Expr, Factor, Selector, Simple, Term,
};
use mc_word::bytes::Memory;

/// The names of an expression.
#[cycle(expression)]
pub fn expr<'a>(out: &mut Vec<Item<'a>>, tree: &'a Expr) -> Result<(), Memory>
    ensures { OnOk result (Adds out.old.items out.new.items (expr tree.now)) }
{
    simple(out, &tree.left)?;
    match &tree.compared {
        Some(compared) => simple(out, &compared.right),
        None => Ok(()),
    }
}

#[cycle(expression)]
fn simple<'a>(out: &mut Vec<Item<'a>>, tree: &'a Simple) -> Result<(), Memory>
    ensures { OnOk result (Adds out.old.items out.new.items (simple tree.now)) }
{
    term(out, &tree.first)?;
    for added in tree.more.as_slice() {
        term(out, &added.term)?;
    }
    Ok(())
}

#[cycle(expression)]
fn term<'a>(out: &mut Vec<Item<'a>>, tree: &'a Term) -> Result<(), Memory>
    ensures { OnOk result (Adds out.old.items out.new.items (term tree.now)) }
{
    factor(out, &tree.first)?;
    for multiplied in tree.more.as_slice() {
        factor(out, &multiplied.factor)?;
    }
    Ok(())
}

#[cycle(expression)]
fn factor<'a>(out: &mut Vec<Item<'a>>, tree: &'a Factor) -> Result<(), Memory>
    ensures { OnOk result (Adds out.old.items out.new.items (factor tree.now)) }
{
    match tree {
        Factor::Number(_, _) | Factor::Character(_, _) | Factor::Text(_, _) => Ok(()),
        Factor::Designator(inner) => designator(out, inner),
        Factor::Call(id, inner) => {
            put(out, Note::Uses(id))?;
            args(out, inner)
        }
        Factor::Group(_, inner, _) => expr(out, inner.get()),
        Factor::Not(_, inner) => factor(out, inner.get()),
        Factor::Bits(_, inner, _) => match inner {
            Some(inner) => elements(out, inner),
            None => Ok(()),
        },
    }
}

/// The names of a designator.
#[cycle(expression)]
pub fn designator<'a>(out: &mut Vec<Item<'a>>, tree: &'a Designator) -> Result<(), Memory>
    ensures { OnOk result (Adds out.old.items out.new.items (designator tree.now)) }
{
    put(out, Note::Uses(&tree.name))?;
    for inner in tree.selectors.as_slice() {
        selector(out, inner)?;
    }
    Ok(())
}

// The name of a field is no use: it is sought in the record.
#[cycle(expression)]
fn selector<'a>(out: &mut Vec<Item<'a>>, tree: &'a Selector) -> Result<(), Memory>
    ensures { OnOk result (Adds out.old.items out.new.items (selector tree.now)) }
{
    match tree {
        Selector::Field(_, _) => Ok(()),
        Selector::Index(_, first, more, _) => {
            expr(out, first.get())?;
            for next in more.as_slice() {
                expr(out, &next.item)?;
            }
            Ok(())
        }
    }
}

/// The names of the arguments of a call.
#[cycle(expression)]
pub fn args<'a>(out: &mut Vec<Item<'a>>, tree: &'a Args) -> Result<(), Memory>
    ensures { OnOk result (Adds out.old.items out.new.items (args tree.now)) }
{
    expr(out, tree.first.get())?;
    for next in tree.more.as_slice() {
        expr(out, &next.item)?;
    }
    Ok(())
}

#[cycle(expression)]
fn elements<'a>(out: &mut Vec<Item<'a>>, tree: &'a Elements) -> Result<(), Memory>
    ensures { OnOk result (Adds out.old.items out.new.items (elements tree.now)) }
{
    element(out, tree.first.get())?;
    for next in tree.more.as_slice() {
        element(out, &next.item)?;
    }
    Ok(())
}

#[cycle(expression)]
fn element<'a>(out: &mut Vec<Item<'a>>, tree: &'a Element) -> Result<(), Memory>
    ensures { OnOk result (Adds out.old.items out.new.items (element tree.now)) }
{
    expr(out, &tree.first)?;
    match &tree.last {
        Some(last) => expr(out, &last.item),
        None => Ok(()),
    }
}
