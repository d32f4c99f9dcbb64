// One evaluation step: designators, expressions, assignments and statements.

ghost use Rattle.std.specs.Prelude.{◌≡◌, ◌++◌, IfOk, OnOk, OnErr, true, false, nat_lt, if◌then◌else◌};
ghost use Rattle.mc_meaning.specs.Actions.{trapped};
ghost use Rattle.mc_meaning.specs.Operations.{binary, is_binary, unary};
ghost use Rattle.mc_meaning.specs.Parts.{form_at, named_parts, part_at, type_at, value_parts};
ghost use Rattle.mc_prog.specs.Traps.{number_of};
ghost use Rattle.mc_meaning.specs.Kept.{configuration_of, outcome_of};
ghost use Rattle.mc_meaning.specs.Steps.{gives, replaced, finds, evaluate, name, read, index, select, test_bit, read_bit, operate, is_decided, decide, write, write_bit, spread, goes_on};
ghost use Rattle.mc_meaning.specs.Access.{moved_word};
ghost use Rattle.mc_meaning.specs.Configuration.{stored};

use crate::access::{
    bit_of, cell_target, element_offset, field_offset, moved, slot_target, value_of,
};
use crate::calling::moves;
use crate::configuration::Config;
use crate::operations::{binary, is_binary, unary};
use crate::parts::{form_at, named_parts, part_at, type_at, value_parts};
use crate::process::{Item, Process};
use crate::store::{Found, Name, Source, Target};
use mc_prog::program::{Form, Program};
use mc_prog::values::Trap;
use mc_word::Word;
use mc_word::bytes::Memory;
use std::collections::VecDeque;

/// Puts items in front of what is still to do.
pub(crate) fn put_in_front(rest: &mut VecDeque<Item>, items: &[Item]) -> Result<(), Memory>
    ensures { OnOk result (rest.new.items ≡ items.now ++ rest.old.items) }
{
    let mut i = items.len();
    while i > 0 {
        i -= 1;
        rest.push_front(items[i])?;
    }
    Ok(())
}

/// A process goes on with these items in front of what is still to do.
pub(crate) fn replaced(
    config: &mut Config,
    n: u32,
    q: &mut Process,
    items: &[Item],
    rest: &mut VecDeque<Item>,
) -> Result<(), Memory>
    ensures ok { OnOk result (configuration_of config.new ≡ replaced (configuration_of config.old) n q.old items.now rest.old.items) }
    ensures err { OnErr result (configuration_of config.new ≡ configuration_of config.old) }
{
    put_in_front(rest, items)?;
    config.goes_on(n, q, rest);
    Ok(())
}

/// A process has found this and goes on.
pub(crate) fn finds(
    config: &mut Config,
    n: u32,
    q: &mut Process,
    found: Found,
    rest: &mut VecDeque<Item>,
) -> Result<(), Memory>
    ensures ok { OnOk result (configuration_of config.new ≡ finds (configuration_of config.old) n q.old found rest.old.items) }
    ensures err { OnErr result (configuration_of config.new ≡ configuration_of config.old) }
{
    q.push_found(found)?;
    config.goes_on(n, q, rest);
    Ok(())
}

// Replaces an expression by its parts.
fn goes_on_with_parts(
    program: &Program,
    config: &mut Config,
    n: u32,
    q: &mut Process,
    node: u32,
    rest: &mut VecDeque<Item>,
    form: &Form,
) -> Result<(), Memory>
    ensures ok { OnOk result (configuration_of config.new ≡ replaced (configuration_of config.old) n q.old (value_parts program.now node form.now) rest.old.items) }
    ensures err { OnErr result (configuration_of config.new ≡ configuration_of config.old) }
{
    let items = value_parts(*rest.allocator(), program, node, form)?;
    replaced(config, n, q, items.as_slice(), rest)
}

/// Evaluates an expression of this form.
pub(crate) fn evaluate(
    program: &Program,
    config: &mut Config,
    n: u32,
    q: &mut Process,
    node: u32,
    rest: &mut VecDeque<Item>,
) -> Result<(), Memory>
    ensures ok { OnOk result (configuration_of config.new ≡ evaluate program.now (configuration_of config.old) n q.old node rest.old.items (form_at program.now node)) }
    ensures err { OnErr result (configuration_of config.new ≡ configuration_of config.old) }
{
    let Some(form) = form_at(program, node) else {
        return replaced(config, n, q, &[], rest);
    };
    match form {
        Form::Constant(word) => finds(config, n, q, Found::Value(*word), rest),
        _ => goes_on_with_parts(program, config, n, q, node, rest, form),
    }
}

// Replaces a designator by its parts.
fn goes_on_with_names(
    program: &Program,
    config: &mut Config,
    n: u32,
    q: &mut Process,
    node: u32,
    rest: &mut VecDeque<Item>,
    form: &Form,
) -> Result<(), Memory>
    ensures ok { OnOk result (configuration_of config.new ≡ replaced (configuration_of config.old) n q.old (named_parts program.now node form.now) rest.old.items) }
    ensures err { OnErr result (configuration_of config.new ≡ configuration_of config.old) }
{
    let items = named_parts(*rest.allocator(), program, node, form)?;
    replaced(config, n, q, items.as_slice(), rest)
}

/// Finds what a designator or a text of this form names.
pub(crate) fn name(
    program: &Program,
    config: &mut Config,
    n: u32,
    q: &mut Process,
    node: u32,
    rest: &mut VecDeque<Item>,
) -> Result<(), Memory>
    ensures ok { OnOk result (configuration_of config.new ≡ name program.now (configuration_of config.old) n q.old node rest.old.items (form_at program.now node)) }
    ensures err { OnErr result (configuration_of config.new ≡ configuration_of config.old) }
{
    let Some(form) = form_at(program, node) else {
        return replaced(config, n, q, &[], rest);
    };
    match form {
        Form::Cell(k) => finds(config, n, q, Found::Named(cell_target(program, *k)), rest),
        Form::Slot(k) => {
            let there = slot_target(n, q, *k);
            finds(config, n, q, Found::Named(there), rest)
        }
        Form::Literal(_) => finds(config, n, q, Found::Text(node), rest),
        _ => goes_on_with_names(program, config, n, q, node, rest, form),
    }
}

/// Reads the word of what was named, which has this type.
pub(crate) fn read(
    config: &mut Config,
    n: u32,
    q: &mut Process,
    type_of: u32,
    rest: &mut VecDeque<Item>,
) -> Result<(), Memory>
    ensures ok { OnOk result (configuration_of config.new ≡ read (configuration_of config.old) n q.old type_of rest.old.items q.old.found) }
    ensures err { OnErr result (configuration_of config.new ≡ configuration_of config.old) }
{
    match q.pop_found() {
        Some(Found::Named(there)) => {
            let word = config.word_at(there);
            q.push_found(Found::Value(value_of(type_of, there, word)))?;
            config.reads(there);
            config.goes_on(n, q, rest);
            Ok(())
        }
        _ => Ok(()),
    }
}

/// Goes on to an element; an index outside the bounds traps 1.
pub(crate) fn index(
    program: &Program,
    config: &mut Config,
    n: u32,
    q: &mut Process,
    node: u32,
    rest: &mut VecDeque<Item>,
) -> Result<(), Memory>
    ensures ok { OnOk result (configuration_of config.new ≡ index program.now (configuration_of config.old) n q.old node rest.old.items q.old.found) }
    ensures err { OnErr result (configuration_of config.new ≡ configuration_of config.old) }
{
    match q.pop_found() {
        Some(Found::Value(word)) => match q.pop_found() {
            Some(Found::Named(there)) => match element_offset(program, node, word) {
                Some(k) => finds(config, n, q, Found::Named(moved(there, k)?), rest),
                None => {
                    config.traps(1);
                    Ok(())
                }
            },
            _ => Ok(()),
        },
        _ => Ok(()),
    }
}

/// Goes on to a field.
pub(crate) fn select(
    program: &Program,
    config: &mut Config,
    n: u32,
    q: &mut Process,
    node: u32,
    rest: &mut VecDeque<Item>,
) -> Result<(), Memory>
    ensures ok { OnOk result (configuration_of config.new ≡ select program.now (configuration_of config.old) n q.old node rest.old.items q.old.found) }
    ensures err { OnErr result (configuration_of config.new ≡ configuration_of config.old) }
{
    match q.pop_found() {
        Some(Found::Named(there)) => {
            let field = moved(there, u64::from(field_offset(program, node)))?;
            finds(config, n, q, Found::Named(field), rest)
        }
        _ => Ok(()),
    }
}

/// Tests the index of a bit; outside 0 to 15 it traps 1.
pub(crate) fn test_bit(
    config: &mut Config,
    n: u32,
    q: &mut Process,
    rest: &mut VecDeque<Item>,
) -> Result<(), Memory>
    ensures ok { OnOk result (configuration_of config.new ≡ test_bit (configuration_of config.old) n q.old rest.old.items q.old.found) }
    ensures err { OnErr result (configuration_of config.new ≡ configuration_of config.old) }
{
    match q.pop_found() {
        Some(Found::Value(i)) => match q.pop_found() {
            Some(Found::Named(there)) => found_bit(config, n, q, Found::Bit(there, i), i, rest),
            Some(Found::Value(word)) => found_bit(config, n, q, Found::BitOf(word, i), i, rest),
            _ => Ok(()),
        },
        _ => Ok(()),
    }
}

// A bit of this number was found; outside 0 to 15 it traps 1.
fn found_bit(
    config: &mut Config,
    n: u32,
    q: &mut Process,
    found: Found,
    i: u16,
    rest: &mut VecDeque<Item>,
) -> Result<(), Memory>
    ensures ok { OnOk result (configuration_of config.new ≡ (if nat_lt i 16 then finds (configuration_of config.old) n q.old found rest.old.items else trapped (configuration_of config.old) 1)) }
    ensures err { OnErr result (configuration_of config.new ≡ configuration_of config.old) }
{
    if i < 16 {
        finds(config, n, q, found, rest)
    } else {
        config.traps(1);
        Ok(())
    }
}

/// Reads the word that a bit is of.
pub(crate) fn read_bit(
    config: &mut Config,
    n: u32,
    q: &mut Process,
    rest: &mut VecDeque<Item>,
) -> Result<(), Memory>
    ensures ok { OnOk result (configuration_of config.new ≡ read_bit (configuration_of config.old) n q.old rest.old.items q.old.found) }
    ensures err { OnErr result (configuration_of config.new ≡ configuration_of config.old) }
{
    match q.pop_found() {
        Some(Found::Bit(there, i)) => {
            let word = config.word_at(there);
            q.push_found(Found::Value(bit_of(word, i)))?;
            config.reads(there);
            config.goes_on(n, q, rest);
            Ok(())
        }
        Some(Found::BitOf(word, i)) => finds(config, n, q, Found::Value(bit_of(word, i)), rest),
        _ => Ok(()),
    }
}

// The number of a trap of single values.
fn trap_number(trap: Trap) -> u16
    ensures { result ≡ number_of trap }
{
    match trap {
        Trap::Overflow => 2,
        Trap::Divide => 3,
        Trap::Range => 6,
    }
}

// What an operation gives: a word, or a trap.
fn gives(
    config: &mut Config,
    n: u32,
    q: &mut Process,
    rest: &mut VecDeque<Item>,
    outcome: Result<Word, Trap>,
) -> Result<(), Memory>
    ensures ok { OnOk result (configuration_of config.new ≡ gives (configuration_of config.old) n q.old q.old.found rest.old.items (outcome_of outcome)) }
    ensures err { OnErr result (configuration_of config.new ≡ configuration_of config.old) }
{
    match outcome {
        Ok(word) => finds(config, n, q, Found::Value(word), rest),
        Err(trap) => {
            config.traps(trap_number(trap));
            Ok(())
        }
    }
}

// What the operator at a node gives of two values.
fn binary_at(program: &Program, node: u32, a: Word, b: Word) -> Result<Word, Trap>
    ensures { outcome_of result ≡ binary (form_at program.now node) a b }
{
    match form_at(program, node) {
        Some(form) => binary(form, a, b),
        None => Ok(a),
    }
}

// What the operator or the conversion at a node gives of one value.
fn unary_at(program: &Program, node: u32, a: Word) -> Result<Word, Trap>
    ensures { outcome_of result ≡ unary program.now node (type_at program.now (part_at program.now node 0)) (form_at program.now node) a }
{
    let type_of = type_at(program, part_at(program, node, 0));
    match form_at(program, node) {
        Some(form) => unary(program, node, type_of, form, a),
        None => Ok(a),
    }
}

// Whether the operator at a node takes two values.
fn is_binary_at(program: &Program, node: u32) -> bool
    ensures { result ≡ is_binary (form_at program.now node) }
{
    match form_at(program, node) {
        Some(form) => is_binary(form),
        None => false,
    }
}

// Gives the value of an operator that takes two values.
fn operate_two(
    program: &Program,
    config: &mut Config,
    n: u32,
    q: &mut Process,
    node: u32,
    rest: &mut VecDeque<Item>,
) -> Result<(), Memory>
    ensures ok { OnOk result (configuration_of config.new ≡ operate program.now (configuration_of config.old) n q.old node rest.old.items true q.old.found) }
    ensures err { OnErr result (configuration_of config.new ≡ configuration_of config.old) }
{
    match q.pop_found() {
        Some(Found::Value(b)) => match q.pop_found() {
            Some(Found::Value(a)) => {
                let outcome = binary_at(program, node, a, b);
                gives(config, n, q, rest, outcome)
            }
            _ => Ok(()),
        },
        _ => Ok(()),
    }
}

// Gives the value of an operator or a conversion that takes one value.
fn operate_one(
    program: &Program,
    config: &mut Config,
    n: u32,
    q: &mut Process,
    node: u32,
    rest: &mut VecDeque<Item>,
) -> Result<(), Memory>
    ensures ok { OnOk result (configuration_of config.new ≡ operate program.now (configuration_of config.old) n q.old node rest.old.items false q.old.found) }
    ensures err { OnErr result (configuration_of config.new ≡ configuration_of config.old) }
{
    match q.pop_found() {
        Some(Found::Value(a)) => {
            let outcome = unary_at(program, node, a);
            gives(config, n, q, rest, outcome)
        }
        _ => Ok(()),
    }
}

/// Gives the value of an operator or of a conversion.
pub(crate) fn operate(
    program: &Program,
    config: &mut Config,
    n: u32,
    q: &mut Process,
    node: u32,
    rest: &mut VecDeque<Item>,
) -> Result<(), Memory>
    ensures ok { OnOk result (configuration_of config.new ≡ operate program.now (configuration_of config.old) n q.old node rest.old.items (is_binary (form_at program.now node)) q.old.found) }
    ensures err { OnErr result (configuration_of config.new ≡ configuration_of config.old) }
{
    if is_binary_at(program, node) {
        operate_two(program, config, n, q, node, rest)
    } else {
        operate_one(program, config, n, q, node, rest)
    }
}

// Whether the left side alone decides.
fn is_decided(program: &Program, node: u32, word: Word) -> bool
    ensures { result ≡ is_decided (form_at program.now node) word }
{
    match form_at(program, node) {
        Some(Form::And) => word == 0,
        _ => word != 0,
    }
}

/// Goes on behind the left side of `and` or `or`.
pub(crate) fn decide(
    program: &Program,
    config: &mut Config,
    n: u32,
    q: &mut Process,
    node: u32,
    rest: &mut VecDeque<Item>,
) -> Result<(), Memory>
    ensures ok { OnOk result (configuration_of config.new ≡ decide program.now (configuration_of config.old) n q.old node rest.old.items q.old.found) }
    ensures err { OnErr result (configuration_of config.new ≡ configuration_of config.old) }
{
    match q.pop_found() {
        Some(Found::Value(word)) => {
            if is_decided(program, node, word) {
                finds(config, n, q, Found::Value(word), rest)
            } else {
                rest.push_front(Item::Evaluates(part_at(program, node, 1)))?;
                config.goes_on(n, q, rest);
                Ok(())
            }
        }
        _ => Ok(()),
    }
}

/// Writes a word.
pub(crate) fn write(
    config: &mut Config,
    n: u32,
    q: &mut Process,
    rest: &mut VecDeque<Item>,
) -> Result<(), Memory>
    ensures ok { OnOk result (configuration_of config.new ≡ write (configuration_of config.old) n q.old rest.old.items q.old.found) }
    ensures err { OnErr result (configuration_of config.new ≡ configuration_of config.old) }
{
    match q.pop_found() {
        Some(Found::Value(word)) => match q.pop_found() {
            Some(Found::Named(there)) => {
                config.writes(there, word)?;
                config.goes_on(n, q, rest);
                Ok(())
            }
            _ => Ok(()),
        },
        _ => Ok(()),
    }
}

/// Writes a bit.
pub(crate) fn write_bit(
    config: &mut Config,
    n: u32,
    q: &mut Process,
    rest: &mut VecDeque<Item>,
) -> Result<(), Memory>
    ensures ok { OnOk result (configuration_of config.new ≡ write_bit (configuration_of config.old) n q.old rest.old.items q.old.found) }
    ensures err { OnErr result (configuration_of config.new ≡ configuration_of config.old) }
{
    match q.pop_found() {
        Some(Found::Value(word)) => match q.pop_found() {
            Some(Found::Bit(there, i)) => {
                config.writes_bit(there, i, word != 0)?;
                config.goes_on(n, q, rest);
                Ok(())
            }
            _ => Ok(()),
        },
        _ => Ok(()),
    }
}

/// Spreads a structured assignment into the moves of its words.
pub(crate) fn spread(
    program: &Program,
    config: &mut Config,
    n: u32,
    q: &mut Process,
    words: u32,
    rest: &mut VecDeque<Item>,
) -> Result<(), Memory>
    ensures ok { OnOk result (configuration_of config.new ≡ spread program.now (configuration_of config.old) n q.old words rest.old.items q.old.found) }
    ensures err { OnErr result (configuration_of config.new ≡ configuration_of config.old) }
{
    match q.pop_found() {
        Some(from) => match q.pop_found() {
            Some(Found::Named(Target::Stored(to))) => {
                let mut items = Vec::new(*rest.allocator());
                moves(&mut items, program, to, from, words)?;
                replaced(config, n, q, items.as_slice(), rest)
            }
            _ => Ok(()),
        },
        None => Ok(()),
    }
}

/// Moves a word.
pub(crate) fn move_word(
    config: &mut Config,
    n: u32,
    q: &mut Process,
    to: Name,
    from: Source,
    rest: &mut VecDeque<Item>,
) -> Result<(), Memory>
    ensures ok { OnOk result (configuration_of config.new ≡ record (goes_on (configuration_of config.old) n q.old q.old.found rest.old.items) { store = stored (configuration_of config.old).store to (moved_word (configuration_of config.old) from) }) }
    ensures err { OnErr result (configuration_of config.new ≡ configuration_of config.old) }
{
    config.put_word(to, config.moved_word(from))?;
    config.goes_on(n, q, rest);
    Ok(())
}

/// Sets a word to zero.
pub(crate) fn clear_word(
    config: &mut Config,
    n: u32,
    q: &mut Process,
    there: Name,
    rest: &mut VecDeque<Item>,
) -> Result<(), Memory>
    ensures ok { OnOk result (configuration_of config.new ≡ record (goes_on (configuration_of config.old) n q.old q.old.found rest.old.items) { store = stored (configuration_of config.old).store there 0 }) }
    ensures err { OnErr result (configuration_of config.new ≡ configuration_of config.old) }
{
    config.put_word(there, 0)?;
    config.goes_on(n, q, rest);
    Ok(())
}
