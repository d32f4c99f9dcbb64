// The pieces of statements.
#![tactic(auto, using(crate::proofs::StatementLaws::statement_laws, std::proofs::lemmas::Grind::common_steps))]

ghost use Rattle.std.specs.Prelude.{◌≡◌, OnOk};
ghost use Rattle.mc_prog.specs.StatementPieces.{arm, body, body_behind, case_, elsif, exit, if_, label, loop_, repeat_, statement, while_};

use crate::expression::{args, designator, expr};
use crate::piece::Construct;
use crate::walk::Walk;
use mc_tree::expression::Expr;
use mc_tree::place::Place;
use mc_tree::statement::{Arm, Body, Case, Elsif, Exit, If, Loop, Repeat, Statement, While};
use mc_word::bytes::Memory;

/// One piece of the statements behind a word.
#[cycle(statement)]
pub fn body_behind<'a>(walk: &mut Walk<'a>, word: Place, tree: &'a Body) -> Result<(), Memory>
    ensures { OnOk result (walk.new ≡ body_behind word (body tree.now) walk.old) }
{
    let outer = walk.begin();
    body(walk, tree)?;
    walk.node(outer, Some(word), Construct::Body)
}

#[cycle(statement)]
fn body<'a>(walk: &mut Walk<'a>, tree: &'a Body) -> Result<(), Memory>
    ensures { OnOk result (walk.new ≡ body tree.now walk.old) }
{
    statement(walk, tree.first.get())?;
    for next in tree.more.as_slice() {
        statement(walk, &next.item)?;
    }
    Ok(())
}

#[cycle(statement)]
fn statement<'a>(walk: &mut Walk<'a>, tree: &'a Statement) -> Result<(), Memory>
    ensures { OnOk result (walk.new ≡ statement tree.now walk.old) }
{
    match tree {
        Statement::Empty => Ok(()),
        Statement::Assignment(target, _, value) => {
            let outer = walk.begin();
            designator(walk, target)?;
            expr(walk, value)?;
            walk.node(outer, None, Construct::Assignment)
        }
        Statement::Call(id, arguments) => {
            let outer = walk.begin();
            if let Some(arguments) = arguments {
                args(walk, arguments)?;
            }
            walk.node(outer, Some(id.place), Construct::Statement(id))
        }
        Statement::If(inner) => if_(walk, inner),
        Statement::While(inner) => while_(walk, inner),
        Statement::Repeat(inner) => repeat_(walk, inner),
        Statement::Loop(inner) => loop_(walk, inner),
        Statement::Case(inner) => case_(walk, inner),
    }
}

#[cycle(statement)]
fn if_<'a>(walk: &mut Walk<'a>, tree: &'a If) -> Result<(), Memory>
    ensures { OnOk result (walk.new ≡ if_ tree.now walk.old) }
{
    let outer = walk.begin();
    expr(walk, &tree.condition)?;
    body_behind(walk, tree.then, &tree.body)?;
    for part in tree.elsifs.as_slice() {
        elsif(walk, part)?;
    }
    if let Some(otherwise) = &tree.otherwise {
        body_behind(walk, otherwise.mark, &otherwise.item)?;
    }
    walk.node(outer, Some(tree.word), Construct::If)
}

#[cycle(statement)]
fn elsif<'a>(walk: &mut Walk<'a>, tree: &'a Elsif) -> Result<(), Memory>
    ensures { OnOk result (walk.new ≡ elsif tree.now walk.old) }
{
    expr(walk, &tree.condition)?;
    body_behind(walk, tree.then, &tree.body)
}

#[cycle(statement)]
fn while_<'a>(walk: &mut Walk<'a>, tree: &'a While) -> Result<(), Memory>
    ensures { OnOk result (walk.new ≡ while_ tree.now walk.old) }
{
    let outer = walk.begin();
    expr(walk, &tree.condition)?;
    body_behind(walk, tree.do_, &tree.body)?;
    walk.node(outer, Some(tree.word), Construct::While)
}

#[cycle(statement)]
fn repeat_<'a>(walk: &mut Walk<'a>, tree: &'a Repeat) -> Result<(), Memory>
    ensures { OnOk result (walk.new ≡ repeat_ tree.now walk.old) }
{
    let outer = walk.begin();
    body_behind(walk, tree.word, &tree.body)?;
    expr(walk, &tree.condition)?;
    walk.node(outer, Some(tree.word), Construct::Repeat)
}

#[cycle(statement)]
fn loop_<'a>(walk: &mut Walk<'a>, tree: &'a Loop) -> Result<(), Memory>
    ensures { OnOk result (walk.new ≡ loop_ tree.now walk.old) }
{
    let outer = walk.begin();
    body_behind(walk, tree.word, &tree.body)?;
    for way_out in tree.exits.as_slice() {
        exit(walk, way_out)?;
    }
    walk.node(outer, Some(tree.word), Construct::Loop)
}

#[cycle(statement)]
fn exit<'a>(walk: &mut Walk<'a>, tree: &'a Exit) -> Result<(), Memory>
    ensures { OnOk result (walk.new ≡ exit tree.now walk.old) }
{
    let outer = walk.begin();
    expr(walk, &tree.condition)?;
    if let Some(last) = &tree.last {
        body_behind(walk, last.mark, &last.item)?;
    }
    body_behind(walk, tree.exit, &tree.body)?;
    walk.node(outer, Some(tree.when), Construct::When)
}

#[cycle(statement)]
fn case_<'a>(walk: &mut Walk<'a>, tree: &'a Case) -> Result<(), Memory>
    ensures { OnOk result (walk.new ≡ case_ tree.now walk.old) }
{
    let outer = walk.begin();
    expr(walk, &tree.choice)?;
    arm(walk, &tree.first)?;
    for next in tree.more.as_slice() {
        arm(walk, &next.item)?;
    }
    walk.node(outer, Some(tree.word), Construct::Case)
}

#[cycle(statement)]
fn arm<'a>(walk: &mut Walk<'a>, tree: &'a Arm) -> Result<(), Memory>
    ensures { OnOk result (walk.new ≡ arm tree.now walk.old) }
{
    let outer = walk.begin();
    label(walk, &tree.first)?;
    for next in tree.more.as_slice() {
        label(walk, &next.item)?;
    }
    body_behind(walk, tree.begin, &tree.body)?;
    walk.node(outer, None, Construct::Arm)
}

fn label<'a>(walk: &mut Walk<'a>, tree: &'a Expr) -> Result<(), Memory>
    ensures { OnOk result (walk.new ≡ label tree.now walk.old) }
{
    let outer = walk.begin();
    expr(walk, tree)?;
    walk.node(outer, None, Construct::Label)
}
