// The names that statements use.
#![tactic(auto, using(crate::proofs::StatementLaws::statement_laws, std::proofs::lemmas::Grind::common_steps))]

ghost use Rattle.std.specs.Prelude.{OnOk};
ghost use Rattle.mc_prog.specs.StatementNames.{arm, body, case_, exit, if_, loop_, repeat_, statement, while_};
ghost use Rattle.mc_resolve.specs.Adds.{Adds};

use crate::expression::{args, designator, expr};
use crate::item::{Item, Note};
use crate::put::put;
use mc_tree::statement::{Arm, Body, Case, Exit, If, Loop, Repeat, Statement, While};
use mc_word::bytes::Memory;

/// The names of statements.
#[cycle(statement)]
pub fn body<'a>(out: &mut Vec<Item<'a>>, tree: &'a Body) -> Result<(), Memory>
    ensures { OnOk result (Adds out.old.items out.new.items (body tree.now)) }
{
    statement(out, tree.first.get())?;
    for next in tree.more.as_slice() {
        statement(out, &next.item)?;
    }
    Ok(())
}

#[cycle(statement)]
fn statement<'a>(out: &mut Vec<Item<'a>>, tree: &'a Statement) -> Result<(), Memory>
    ensures { OnOk result (Adds out.old.items out.new.items (statement tree.now)) }
{
    match tree {
        Statement::Empty => Ok(()),
        Statement::Assignment(target, _, value) => {
            designator(out, target)?;
            expr(out, value)
        }
        Statement::Call(id, arguments) => {
            put(out, Note::Uses(id))?;
            match arguments {
                Some(arguments) => args(out, arguments),
                None => Ok(()),
            }
        }
        Statement::If(inner) => if_(out, inner),
        Statement::While(inner) => while_(out, inner),
        Statement::Repeat(inner) => repeat_(out, inner),
        Statement::Loop(inner) => loop_(out, inner),
        Statement::Case(inner) => case_(out, inner),
    }
}

#[cycle(statement)]
fn if_<'a>(out: &mut Vec<Item<'a>>, tree: &'a If) -> Result<(), Memory>
    ensures { OnOk result (Adds out.old.items out.new.items (if_ tree.now)) }
{
    expr(out, &tree.condition)?;
    body(out, &tree.body)?;
    for elsif in tree.elsifs.as_slice() {
        expr(out, &elsif.condition)?;
        body(out, &elsif.body)?;
    }
    match &tree.otherwise {
        Some(otherwise) => body(out, &otherwise.item),
        None => Ok(()),
    }
}

#[cycle(statement)]
fn while_<'a>(out: &mut Vec<Item<'a>>, tree: &'a While) -> Result<(), Memory>
    ensures { OnOk result (Adds out.old.items out.new.items (while_ tree.now)) }
{
    expr(out, &tree.condition)?;
    body(out, &tree.body)
}

#[cycle(statement)]
fn repeat_<'a>(out: &mut Vec<Item<'a>>, tree: &'a Repeat) -> Result<(), Memory>
    ensures { OnOk result (Adds out.old.items out.new.items (repeat_ tree.now)) }
{
    body(out, &tree.body)?;
    expr(out, &tree.condition)
}

#[cycle(statement)]
fn loop_<'a>(out: &mut Vec<Item<'a>>, tree: &'a Loop) -> Result<(), Memory>
    ensures { OnOk result (Adds out.old.items out.new.items (loop_ tree.now)) }
{
    body(out, &tree.body)?;
    for way_out in tree.exits.as_slice() {
        exit(out, way_out)?;
    }
    Ok(())
}

#[cycle(statement)]
fn exit<'a>(out: &mut Vec<Item<'a>>, tree: &'a Exit) -> Result<(), Memory>
    ensures { OnOk result (Adds out.old.items out.new.items (exit tree.now)) }
{
    expr(out, &tree.condition)?;
    if let Some(last) = &tree.last {
        body(out, &last.item)?;
    }
    body(out, &tree.body)
}

#[cycle(statement)]
fn case_<'a>(out: &mut Vec<Item<'a>>, tree: &'a Case) -> Result<(), Memory>
    ensures { OnOk result (Adds out.old.items out.new.items (case_ tree.now)) }
{
    expr(out, &tree.choice)?;
    arm(out, &tree.first)?;
    for next in tree.more.as_slice() {
        arm(out, &next.item)?;
    }
    Ok(())
}

#[cycle(statement)]
fn arm<'a>(out: &mut Vec<Item<'a>>, tree: &'a Arm) -> Result<(), Memory>
    ensures { OnOk result (Adds out.old.items out.new.items (arm tree.now)) }
{
    expr(out, &tree.first)?;
    for next in tree.more.as_slice() {
        expr(out, &next.item)?;
    }
    body(out, &tree.body)
}
