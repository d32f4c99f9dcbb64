// One evaluation step of a statement: conditions, loops and labels.

ghost use Rattle.std.specs.Prelude.{◌≡◌, ◌+◌, ◌++◌, IfOk, OnOk, OnErr, drop, map, slice_get};
ghost use Rattle.mc_meaning.specs.Kept.{configuration_of};
ghost use Rattle.mc_meaning.specs.Parts.{form_at, parts_at};
ghost use Rattle.mc_meaning.specs.Selected.{selected};
ghost use Rattle.mc_meaning.specs.Steps.{arm_labels, branch_on, labels_of, leave_parts, loop_items, repeat_items, try, try_label, turn_items, word_in};

use crate::configuration::Config;
use crate::evaluation::{finds, replaced};
use crate::parts::{branch_items, form_at, number, part_at, parts_at};
use crate::process::{Item, Process};
use crate::store::Found;
use mc_prog::program::{Form, Program};
use mc_word::Word;
use mc_word::bytes::Memory;
use std::alloc::Global;
use std::collections::VecDeque;

// The body of a `while` and the `while` again, where the condition holds.
fn turn_items(alloc: Global, program: &Program, node: u32, holds: bool) -> Result<Vec<Item>, Memory>
    ensures { IfOk result (λ items. items.items ≡ turn_items program.now node holds) }
{
    if holds {
        Ok(vec![in alloc; Item::Runs(part_at(program, node, 1)), Item::Runs(node)]?)
    } else {
        Ok(Vec::new(alloc))
    }
}

// The `repeat` again, where the condition does not hold.
fn repeat_items(alloc: Global, node: u32, holds: bool) -> Result<Vec<Item>, Memory>
    ensures { IfOk result (λ items. items.items ≡ repeat_items node holds) }
{
    if holds {
        Ok(Vec::new(alloc))
    } else {
        Ok(vec![in alloc; Item::Runs(node)]?)
    }
}

/// Goes on to the `when` of this number of a `loop`; behind the last one the loop begins again.
pub(crate) fn loop_items(
    alloc: Global,
    program: &Program,
    node: u32,
    k: u32,
) -> Result<Vec<Item>, Memory>
    ensures { IfOk result (λ items. items.items ≡ loop_items program.now node k (slice_get (parts_at program.now node) (k + 1))) }
{
    match parts_at(program, node).get(k as usize + 1) {
        Some(part) => {
            let condition = part_at(program, *part, 0);
            Ok(vec![in alloc; Item::Evaluates(condition), Item::Leaves(node, k)]?)
        }
        None => Ok(vec![in alloc; Item::Runs(node)]?),
    }
}

// What stands behind the condition of a `when`.
fn leave_parts(
    alloc: Global,
    node: u32,
    k: u32,
    parts: &[u32],
    holds: bool,
) -> Result<Vec<Item>, Memory>
    ensures { IfOk result (λ items. items.items ≡ leave_parts node k parts.now holds) }
{
    match parts {
        [_, behind] => {
            if holds {
                Ok(Vec::new(alloc))
            } else {
                Ok(vec![in alloc;
                    Item::Runs(*behind),
                    Item::Loops(node, number(k as usize + 1)?),
                ]?)
            }
        }
        [_, does, behind, ..] => {
            if holds {
                Ok(vec![in alloc; Item::Runs(*does)]?)
            } else {
                Ok(vec![in alloc;
                    Item::Runs(*behind),
                    Item::Loops(node, number(k as usize + 1)?),
                ]?)
            }
        }
        _ => Ok(Vec::new(alloc)),
    }
}

/// What a condition selects.
#[derive(Clone, Copy, PartialEq, Eq, Debug)]
pub(crate) enum Selection {
    /// A branch of an `if`, by the number of its condition.
    Branch(u32),
    Turn,
    Again,
    /// The end of a `loop`, by the number of its `when`.
    Leave(u32),
}

// The items that a condition's value selects.
fn selected(
    alloc: Global,
    program: &Program,
    node: u32,
    selection: Selection,
    holds: bool,
) -> Result<Vec<Item>, Memory>
    ensures { IfOk result (λ items. items.items ≡ selected program.now node selection holds) }
{
    match selection {
        Selection::Branch(k) => branch_items(alloc, program, node, k, holds),
        Selection::Turn => turn_items(alloc, program, node, holds),
        Selection::Again => repeat_items(alloc, node, holds),
        Selection::Leave(k) => {
            let parts = parts_at(program, part_at(program, node, k as usize + 1));
            leave_parts(alloc, node, k, parts, holds)
        }
    }
}

/// Goes on by the value of a condition.
pub(crate) fn branch_on(
    program: &Program,
    config: &mut Config,
    n: u32,
    q: &mut Process,
    rest: &mut VecDeque<Item>,
    node: u32,
    selection: Selection,
) -> Result<(), Memory>
    ensures ok { OnOk result (configuration_of config.new ≡ branch_on (configuration_of config.old) n q.old rest.old.items (selected program.now node selection) q.old.found) }
    ensures err { OnErr result (configuration_of config.new ≡ configuration_of config.old) }
{
    match q.pop_found() {
        Some(Found::Value(word)) => {
            let items = selected(*rest.allocator(), program, node, selection, word != 0)?;
            replaced(config, n, q, items.as_slice(), rest)
        }
        _ => Ok(()),
    }
}

// Puts labels, each with this body, behind others.
fn put_pairs(labels: &mut Vec<(u32, u32)>, names: &[u32], body: u32) -> Result<(), Memory>
    ensures { OnOk result (labels.new.items ≡ labels.old.items ++ map (λ name. (name, body)) names.now) }
{
    for name in names {
        labels.push((*name, body))?;
    }
    Ok(())
}

// Puts the labels of an arm, each with the arm's body, behind others.
fn put_labels(labels: &mut Vec<(u32, u32)>, parts: &[u32]) -> Result<(), Memory>
    ensures { OnOk result (labels.new.items ≡ labels.old.items ++ arm_labels parts.now) }
{
    let Some(last) = parts.len().checked_sub(1) else {
        return Ok(());
    };
    put_pairs(labels, &parts[..last], parts[last])
}

// The labels of arms, each with the body of its arm.
fn labels_of(alloc: Global, program: &Program, arms: &[u32]) -> Result<Vec<(u32, u32)>, Memory>
    ensures { IfOk result (λ labels. labels.items ≡ labels_of program.now arms.now) }
{
    let mut labels = Vec::new(alloc);
    let mut i = 0;
    while i < arms.len() {
        put_labels(&mut labels, parts_at(program, arms[i]))?;
        i += 1;
    }
    Ok(labels)
}

// The arms of a `case`.
fn arms_of(program: &Program, node: u32) -> &[u32]
    ensures { result.now ≡ drop 1 (parts_at program.now node) }
{
    match parts_at(program, node) {
        [_, arms @ ..] => arms,
        [] => &[],
    }
}

// The word of a label.
fn word_at(program: &Program, n: u32) -> Word
    ensures { result ≡ word_in (form_at program.now n) }
{
    match form_at(program, n) {
        Some(Form::Constant(word)) => *word,
        _ => 0,
    }
}

// Compares with a label, or traps 4 where none is left.
fn try_label(
    program: &Program,
    config: &mut Config,
    n: u32,
    q: &mut Process,
    rest: &mut VecDeque<Item>,
    node: u32,
    k: u32,
    word: Word,
    label: Option<(u32, u32)>,
) -> Result<(), Memory>
    ensures ok { OnOk result (configuration_of config.new ≡ try_label program.now (configuration_of config.old) n q.old node k rest.old.items word q.old.found label) }
    ensures err { OnErr result (configuration_of config.new ≡ configuration_of config.old) }
{
    let Some((at, body)) = label else {
        config.traps(4);
        return Ok(());
    };
    if word_at(program, at) == word {
        rest.push_front(Item::Runs(body))?;
        config.goes_on(n, q, rest);
        return Ok(());
    }
    rest.push_front(Item::Tries(node, number(k as usize + 1)?))?;
    finds(config, n, q, Found::Value(word), rest)
}

// The label of this number, with its body.
fn label_at(labels: &[(u32, u32)], k: u32) -> Option<(u32, u32)>
    ensures { result ≡ slice_get labels.now k }
{
    labels.get(k as usize).copied()
}

/// Compares with the label of this number of a `case`.
pub(crate) fn try_next(
    program: &Program,
    config: &mut Config,
    n: u32,
    q: &mut Process,
    rest: &mut VecDeque<Item>,
    node: u32,
    k: u32,
) -> Result<(), Memory>
    ensures ok { OnOk result (configuration_of config.new ≡ try program.now (configuration_of config.old) n q.old node k rest.old.items q.old.found) }
    ensures err { OnErr result (configuration_of config.new ≡ configuration_of config.old) }
{
    match q.pop_found() {
        Some(Found::Value(word)) => {
            let labels = labels_of(*rest.allocator(), program, arms_of(program, node))?;
            let label = label_at(labels.as_slice(), k);
            try_label(program, config, n, q, rest, node, k, word, label)
        }
        _ => Ok(()),
    }
}
