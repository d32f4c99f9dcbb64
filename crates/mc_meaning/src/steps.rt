// One evaluation step of the topmost process.

ghost use Rattle.std.specs.Prelude.{◌≡◌, ◌∷◌, IfOk, OnOk, OnErr, Some};
ghost use Rattle.mc_meaning.specs.Kept.{configuration_of};
ghost use Rattle.mc_meaning.specs.Parts.{form_at, statement_parts};
ghost use Rattle.mc_meaning.specs.declared.process.Item.TheVariants.{Calls, Loops, Runs, Starts};
ghost use Rattle.mc_meaning.specs.Steps.{count_of, next, step_at};
ghost use Rattle.mc_meaning.specs.Stepping.{IsActed};

use crate::actions::{await_, finish, send, stand_at_doio, start, wait};
use crate::calling::{enter_body, enter_procedure, leave};
use crate::configuration::Config;
use crate::evaluation::{
    clear_word, decide, evaluate, index, move_word, name, operate, read, read_bit, replaced,
    select, spread, test_bit, write, write_bit,
};
use crate::parts::{form_at, part_at, parts_at, statement_parts};
use crate::process::{Item, Process};
use crate::statements::{Selection, branch_on, loop_items, try_next};
use mc_prog::program::{Form, Program};
use mc_word::bytes::Memory;
use std::alloc::Global;
use std::collections::VecDeque;

/// What `step_process` did.
#[derive(Clone, Copy, PartialEq, Eq, Debug)]
pub enum Acted {
    /// The topmost process made one evaluation step.
    Stepped,
    /// That step traps, or the trap was set before: its number, 1 to 7.
    Trapped(u16),
    /// No process acts.
    Nothing,
}

// The parts of a statement or a body, and what is done with them.
fn items_of(alloc: Global, program: &Program, node: u32) -> Result<Vec<Item>, Memory>
    ensures { IfOk result (λ items. items.items ≡ statement_parts program.now node (form_at program.now node)) }
{
    match form_at(program, node) {
        Some(form) => statement_parts(alloc, program, node, form),
        None => statement_parts(alloc, program, node, &Form::Body),
    }
}

// Replaces a statement or a body by its parts.
fn run(
    program: &Program,
    config: &mut Config,
    n: u32,
    q: &mut Process,
    node: u32,
    rest: &mut VecDeque<Item>,
) -> Result<(), Memory>
    ensures ok { OnOk result (configuration_of config.new ≡ next program.now (configuration_of config.old) n q.old (Runs node ∷ rest.old.items)) }
    ensures err { OnErr result (configuration_of config.new ≡ configuration_of config.old) }
{
    let items = items_of(*rest.allocator(), program, node)?;
    replaced(config, n, q, items.as_slice(), rest)
}

// Goes on to the `when` of this number of a `loop`.
fn go_through(
    program: &Program,
    config: &mut Config,
    n: u32,
    q: &mut Process,
    node: u32,
    k: u32,
    rest: &mut VecDeque<Item>,
) -> Result<(), Memory>
    ensures ok { OnOk result (configuration_of config.new ≡ next program.now (configuration_of config.old) n q.old (Loops node k ∷ rest.old.items)) }
    ensures err { OnErr result (configuration_of config.new ≡ configuration_of config.old) }
{
    let items = loop_items(*rest.allocator(), program, node, k)?;
    replaced(config, n, q, items.as_slice(), rest)
}

// How many arguments a call has.
fn count_of(program: &Program, node: u32) -> usize
    ensures { result ≡ count_of program.now node }
{
    parts_at(program, node).len().saturating_sub(1)
}

// Makes an activation of the procedure that is called.
fn call(
    program: &Program,
    config: &mut Config,
    n: u32,
    q: &mut Process,
    node: u32,
    rest: &mut VecDeque<Item>,
) -> Result<(), Memory>
    ensures ok { OnOk result (configuration_of config.new ≡ next program.now (configuration_of config.old) n q.old (Calls node ∷ rest.old.items)) }
    ensures err { OnErr result (configuration_of config.new ≡ configuration_of config.old) }
{
    match form_at(program, part_at(program, node, 0)) {
        Some(Form::Procedure(k)) => {
            enter_procedure(program, config, n, q, *k, count_of(program, node), rest)
        }
        _ => Ok(()),
    }
}

// Starts the process that is called.
fn start_process(
    program: &Program,
    config: &mut Config,
    n: u32,
    q: &mut Process,
    node: u32,
    rest: &mut VecDeque<Item>,
) -> Result<(), Memory>
    ensures ok { OnOk result (configuration_of config.new ≡ next program.now (configuration_of config.old) n q.old (Starts node ∷ rest.old.items)) }
    ensures err { OnErr result (configuration_of config.new ≡ configuration_of config.old) }
{
    match form_at(program, part_at(program, node, 0)) {
        Some(Form::Process(k)) => start(program, config, n, q, *k, count_of(program, node), rest),
        _ => Ok(()),
    }
}

// What a process does next.
fn next(
    program: &Program,
    config: &mut Config,
    n: u32,
    q: &mut Process,
    item: Item,
    rest: &mut VecDeque<Item>,
) -> Result<(), Memory>
    ensures ok { OnOk result (configuration_of config.new ≡ next program.now (configuration_of config.old) n q.old (item ∷ rest.old.items)) }
    ensures err { OnErr result (configuration_of config.new ≡ configuration_of config.old) }
{
    match item {
        Item::Runs(node) => run(program, config, n, q, node, rest),
        Item::CallsBody(m) => enter_body(program, config, n, q, m, rest),
        Item::Evaluates(node) => evaluate(program, config, n, q, node, rest),
        Item::Names(node) => name(program, config, n, q, node, rest),
        Item::Reads(t) => read(config, n, q, t, rest),
        Item::Indexes(node) => index(program, config, n, q, node, rest),
        Item::Selects(node) => select(program, config, n, q, node, rest),
        Item::TestsBit => test_bit(config, n, q, rest),
        Item::ReadsBit => read_bit(config, n, q, rest),
        Item::Operates(node) => operate(program, config, n, q, node, rest),
        Item::Decides(node) => decide(program, config, n, q, node, rest),
        Item::Writes => write(config, n, q, rest),
        Item::WritesBit => write_bit(config, n, q, rest),
        Item::Spreads(words) => spread(program, config, n, q, words, rest),
        Item::Moves(to, from) => move_word(config, n, q, to, from, rest),
        Item::Clears(there) => clear_word(config, n, q, there, rest),
        Item::Branches(node, k) => {
            branch_on(program, config, n, q, rest, node, Selection::Branch(k))
        }
        Item::Turns(node) => branch_on(program, config, n, q, rest, node, Selection::Turn),
        Item::Repeats(node) => branch_on(program, config, n, q, rest, node, Selection::Again),
        Item::Loops(node, k) => go_through(program, config, n, q, node, k, rest),
        Item::Leaves(node, k) => branch_on(program, config, n, q, rest, node, Selection::Leave(k)),
        Item::Tries(node, k) => try_next(program, config, n, q, rest, node, k),
        Item::Calls(node) => call(program, config, n, q, node, rest),
        Item::Starts(node) => start_process(program, config, n, q, node, rest),
        Item::Waits(ranked) => wait(config, n, q, ranked, rest),
        Item::Sends => send(config, n, q, rest),
        Item::Awaits => await_(config, n, q, rest),
        Item::StandsAtDoio => {
            stand_at_doio(config, n, q, rest);
            Ok(())
        }
        Item::Returns(slot) => leave(config, n, q, slot),
        Item::Ends => {
            finish(config, n, q, rest);
            Ok(())
        }
    }
}

// A process makes its next step.
fn make_next(program: &Program, config: &mut Config, n: u32, q: &mut Process) -> Result<(), Memory>
    ensures ok { OnOk result (configuration_of config.new ≡ next program.now (configuration_of config.old) n q.old q.old.rest) }
    ensures err { OnErr result (configuration_of config.new ≡ configuration_of config.old) }
{
    let mut rest = q.rest()?;
    match rest.pop_front() {
        Some(item) => next(program, config, n, q, item, &mut rest),
        None => Ok(()),
    }
}

// The process of this number makes its next step.
fn step_at(program: &Program, config: &mut Config, n: u32) -> Result<(), Memory>
    ensures ok { OnOk result (configuration_of config.new ≡ step_at program.now (configuration_of config.old) (Some n)) }
    ensures err { OnErr result (configuration_of config.new ≡ configuration_of config.old) }
{
    let Some(process) = config.process(n) else {
        return Ok(());
    };
    let mut q = process.copy()?;
    make_next(program, config, n, &mut q)
}

/// The topmost process makes one evaluation step, or its step traps. Where a trap was set before, or no process acts,
/// nothing changes. Nothing is granted and no process is chosen. After Memory the configuration is as it was.
pub fn step_process(program: &Program, config: &mut Config) -> Result<Acted, Memory>
    ensures acted { IfOk result (λ acted. IsActed program.now (configuration_of config.old) (configuration_of config.new) acted) }
    ensures memory { OnErr result (configuration_of config.new ≡ configuration_of config.old) }
{
    if let Some(n) = config.trap() {
        return Ok(Acted::Trapped(n));
    }
    let Some(top) = config.topmost() else {
        return Ok(Acted::Nothing);
    };
    step_at(program, config, top)?;
    match config.trap() {
        Some(n) => Ok(Acted::Trapped(n)),
        None => Ok(Acted::Stepped),
    }
}
