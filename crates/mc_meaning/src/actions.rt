// What processes do to one another: starts, waits, sends, doio and ends.

ghost use Rattle.std.specs.Prelude.{◌≡◌, OnOk, OnErr, Some, ◌&&◌, false, is_some, slice_get, true};
ghost use Rattle.mc_meaning.specs.Actions.{chosen, delayed, finish, first_of_rank, is_driver, is_waited_for, kind_at, least_rank, lesser, released, send, stand_at_doio, start, started, wait, wakes, was_started};
ghost use Rattle.mc_meaning.specs.Calling.{arguments_of};
ghost use Rattle.mc_meaning.specs.Configuration.{same_name};
ghost use Rattle.mc_meaning.specs.Kept.{configuration_of};
ghost use Rattle.mc_meaning.specs.Steps.{await, goes_on};

use crate::config::{Mark, Waiter};
use crate::configuration::Config;
use crate::evaluation::finds;
use crate::operations::truth;
use crate::parts::process_at;
use crate::process::{Item, Process, ProcessKind, State};
use crate::store::{Found, Name, Target};
use mc_prog::program::{ProcessInfo, Program};
use mc_word::bytes::Memory;
use std::collections::VecDeque;

// Whether two names are one.
fn same_name(a: Name, b: Name) -> bool
    ensures { result ≡ same_name a b }
{
    match (a, b) {
        (Name::Variable(c, w), Name::Variable(d, v)) => c == d && w == v,
        (Name::Private(p, a, s, w), Name::Private(q, b, t, v)) => {
            p == q && a == b && s == t && w == v
        }
        _ => false,
    }
}

// The lesser of two ranks.
fn lesser(least: Option<u16>, rank: u16) -> Option<u16>
    ensures { result ≡ lesser least rank }
{
    match least {
        None => Some(rank),
        Some(other) => {
            if rank < other {
                Some(rank)
            } else {
                Some(other)
            }
        }
    }
}

/// The least rank of the waiters of a signal.
pub(crate) fn least_rank(waiters: &[Waiter], signal: Name) -> Option<u16>
    ensures { result ≡ least_rank waiters.now signal }
{
    let mut least = None;
    let mut i = waiters.len();
    while i > 0 {
        i -= 1;
        if same_name(waiters[i].signal, signal) {
            least = lesser(least, waiters[i].rank);
        }
    }
    least
}

// The first waiter of a signal with a rank.
fn first_of_rank(waiters: &[Waiter], signal: Name, rank: u16) -> Option<Waiter>
    ensures { result ≡ first_of_rank waiters.now signal (Some rank) }
{
    for waiter in waiters {
        if same_name(waiter.signal, signal) && waiter.rank == rank {
            return Some(*waiter);
        }
    }
    None
}

/// Among the waiters of a signal, the one that has waited longest of those with the least rank.
pub(crate) fn chosen(waiters: &[Waiter], signal: Name) -> Option<Waiter>
    ensures { result ≡ chosen waiters.now signal }
{
    match least_rank(waiters, signal) {
        Some(rank) => first_of_rank(waiters, signal, rank),
        None => None,
    }
}

/// Whether it is the kind of a device process.
pub(crate) fn is_driver(kind: ProcessKind) -> bool
    ensures { result ≡ is_driver kind }
{
    match kind {
        ProcessKind::Main | ProcessKind::Regular => false,
        ProcessKind::Driver(_) => true,
    }
}

/// Whether some process waits on a signal.
pub(crate) fn is_waited_for(waiters: &[Waiter], signal: Name) -> bool
    ensures { result ≡ is_waited_for waiters.now signal }
{
    least_rank(waiters, signal).is_some()
}

// Starts a process with these arguments.
fn start_with(
    program: &Program,
    config: &mut Config,
    n: u32,
    q: &mut Process,
    k: u32,
    info: &ProcessInfo,
    arguments: &[Found],
    rest: &mut VecDeque<Item>,
) -> Result<(), Memory>
    ensures ok { OnOk result (configuration_of config.new ≡ started program.now (configuration_of config.old) n q.old k arguments.now rest.old.items info.now) }
    ensures err { OnErr result (configuration_of config.new ≡ configuration_of config.old) }
{
    let number = config.next_number()?;
    let process = Process::started(*rest.allocator(), program, number, k, info)?;
    q.set_rest(rest);
    let slots = info.code.slots.slots.as_slice();
    config.starts(n, q, process, number, slots, info.vector, arguments)
}

// Whether it is a second start of a device process.
fn is_twice(config: &Config, info: &ProcessInfo, k: u32) -> bool
    ensures { result ≡ (is_some info.now.vector && was_started (configuration_of config.now).processes k) }
{
    info.vector.is_some() && config.was_started(k)
}

/// Starts a process with as many arguments as are counted; a device process that was started before traps 7.
pub(crate) fn start(
    program: &Program,
    config: &mut Config,
    n: u32,
    q: &mut Process,
    k: u32,
    count: usize,
    rest: &mut VecDeque<Item>,
) -> Result<(), Memory>
    ensures ok { OnOk result (configuration_of config.new ≡ start program.now (configuration_of config.old) n q.old k count rest.old.items (slice_get program.now.processes k)) }
    ensures err { OnErr result (configuration_of config.new ≡ configuration_of config.old) }
{
    let Some(info) = process_at(program, k) else {
        return Ok(());
    };
    if is_twice(config, info, k) {
        config.traps(7);
        return Ok(());
    }
    let arguments = q.take_arguments(*rest.allocator(), count)?;
    start_with(program, config, n, q, k, info, arguments.as_slice(), rest)
}

// A process is delayed on a signal.
fn delay(
    config: &mut Config,
    n: u32,
    q: &mut Process,
    signal: Name,
    rank: u16,
    rest: &mut VecDeque<Item>,
) -> Result<(), Memory>
    ensures ok { OnOk result (configuration_of config.new ≡ delayed (configuration_of config.old) n q.old signal rank q.old.found rest.old.items) }
    ensures err { OnErr result (configuration_of config.new ≡ configuration_of config.old) }
{
    let process = n;
    config.adds_waiter(Waiter {
        signal,
        rank,
        process,
    })?;
    q.set_state(State::Delayed);
    config.goes_on(n, q, rest);
    config.vacates();
    Ok(())
}

// Waits with a rank; a negative one traps 5.
fn wait_ranked(
    config: &mut Config,
    n: u32,
    q: &mut Process,
    rest: &mut VecDeque<Item>,
) -> Result<(), Memory>
    ensures ok { OnOk result (configuration_of config.new ≡ wait (configuration_of config.old) n q.old true rest.old.items q.old.found) }
    ensures err { OnErr result (configuration_of config.new ≡ configuration_of config.old) }
{
    match q.pop_found() {
        Some(Found::Value(rank)) => match q.pop_found() {
            Some(Found::Named(Target::Stored(signal))) => {
                if rank > 32767 {
                    config.traps(5);
                    Ok(())
                } else {
                    delay(config, n, q, signal, rank, rest)
                }
            }
            _ => Ok(()),
        },
        _ => Ok(()),
    }
}

// Waits without a rank, which is rank 1.
fn wait_first(
    config: &mut Config,
    n: u32,
    q: &mut Process,
    rest: &mut VecDeque<Item>,
) -> Result<(), Memory>
    ensures ok { OnOk result (configuration_of config.new ≡ wait (configuration_of config.old) n q.old false rest.old.items q.old.found) }
    ensures err { OnErr result (configuration_of config.new ≡ configuration_of config.old) }
{
    match q.pop_found() {
        Some(Found::Named(Target::Stored(signal))) => delay(config, n, q, signal, 1, rest),
        _ => Ok(()),
    }
}

/// Waits on a signal, with or without a rank that was found.
pub(crate) fn wait(
    config: &mut Config,
    n: u32,
    q: &mut Process,
    ranked: bool,
    rest: &mut VecDeque<Item>,
) -> Result<(), Memory>
    ensures ok { OnOk result (configuration_of config.new ≡ wait (configuration_of config.old) n q.old ranked rest.old.items q.old.found) }
    ensures err { OnErr result (configuration_of config.new ≡ configuration_of config.old) }
{
    if ranked {
        wait_ranked(config, n, q, rest)
    } else {
        wait_first(config, n, q, rest)
    }
}

// The sender goes on, and the receiver waits no longer.
fn release(config: &mut Config, n: u32, q: &mut Process, waiter: u32, rest: &mut VecDeque<Item>)
    ensures { configuration_of config.new ≡ released (goes_on (configuration_of config.old) n q.old q.old.found rest.old.items) waiter }
{
    config.goes_on(n, q, rest);
    config.removes_waiter(waiter);
}

// A regular process wakes another, which acts in its place.
fn wake_regular(
    config: &mut Config,
    n: u32,
    q: &mut Process,
    waiter: u32,
    rest: &mut VecDeque<Item>,
)
    ensures { configuration_of config.new ≡ wakes (released (goes_on (configuration_of config.old) n q.old q.old.found rest.old.items) waiter) n waiter false false }
{
    release(config, n, q, waiter, rest);
    config.puts_at_foot(waiter);
    config.sets_state(waiter, State::Acting);
    config.sets_state(n, State::Ready);
}

// A regular process wakes a device process, which acts above it.
fn wake_driver(
    config: &mut Config,
    n: u32,
    q: &mut Process,
    waiter: u32,
    rest: &mut VecDeque<Item>,
) -> Result<(), Memory>
    ensures ok { OnOk result (configuration_of config.new ≡ wakes (released (goes_on (configuration_of config.old) n q.old q.old.found rest.old.items) waiter) n waiter false true) }
    ensures err { OnErr result (configuration_of config.new ≡ configuration_of config.old) }
{
    config.joins(waiter, Mark::Woken)?;
    release(config, n, q, waiter, rest);
    config.sets_state(waiter, State::Acting);
    Ok(())
}

// A device process makes a regular one ready.
fn from_driver(
    config: &mut Config,
    n: u32,
    q: &mut Process,
    waiter: u32,
    to_driver: bool,
    rest: &mut VecDeque<Item>,
)
    ensures { configuration_of config.new ≡ wakes (released (goes_on (configuration_of config.old) n q.old q.old.found rest.old.items) waiter) n waiter true to_driver }
{
    release(config, n, q, waiter, rest);
    if !to_driver {
        config.sets_state(waiter, State::Ready);
    }
}

// Sends to a waiter.
fn send_to(
    config: &mut Config,
    n: u32,
    q: &mut Process,
    waiter: u32,
    rest: &mut VecDeque<Item>,
) -> Result<(), Memory>
    ensures ok { OnOk result (configuration_of config.new ≡ wakes (released (goes_on (configuration_of config.old) n q.old q.old.found rest.old.items) waiter) n waiter (is_driver q.old.standing.kind) (is_driver (kind_at (slice_get (configuration_of config.old).processes waiter)))) }
    ensures err { OnErr result (configuration_of config.new ≡ configuration_of config.old) }
{
    let to_driver = is_driver(config.kind_of(waiter));
    if is_driver(q.kind()) {
        from_driver(config, n, q, waiter, to_driver, rest);
        return Ok(());
    }
    if to_driver {
        wake_driver(config, n, q, waiter, rest)
    } else {
        wake_regular(config, n, q, waiter, rest);
        Ok(())
    }
}

/// Sends a signal.
pub(crate) fn send(
    config: &mut Config,
    n: u32,
    q: &mut Process,
    rest: &mut VecDeque<Item>,
) -> Result<(), Memory>
    ensures ok { OnOk result (configuration_of config.new ≡ send (configuration_of config.old) n q.old rest.old.items q.old.found) }
    ensures err { OnErr result (configuration_of config.new ≡ configuration_of config.old) }
{
    match q.pop_found() {
        Some(Found::Named(Target::Stored(signal))) => match chosen(config.waiters(), signal) {
            Some(waiter) => send_to(config, n, q, waiter.process, rest),
            None => {
                config.goes_on(n, q, rest);
                Ok(())
            }
        },
        _ => Ok(()),
    }
}

/// Finds whether some process waits on a signal.
pub(crate) fn await_(
    config: &mut Config,
    n: u32,
    q: &mut Process,
    rest: &mut VecDeque<Item>,
) -> Result<(), Memory>
    ensures ok { OnOk result (configuration_of config.new ≡ await (configuration_of config.old) n q.old rest.old.items q.old.found) }
    ensures err { OnErr result (configuration_of config.new ≡ configuration_of config.old) }
{
    match q.pop_found() {
        Some(Found::Named(Target::Stored(signal))) => {
            let word = truth(is_waited_for(config.waiters(), signal));
            finds(config, n, q, Found::Value(word), rest)
        }
        _ => Ok(()),
    }
}

/// A device process stands at its `doio`, out of the nest.
pub(crate) fn stand_at_doio(config: &mut Config, n: u32, q: &mut Process, rest: &mut VecDeque<Item>)
    ensures { configuration_of config.new ≡ stand_at_doio (configuration_of config.old) n q.old rest.old.items }
{
    q.set_state(State::AtDoio);
    config.goes_on(n, q, rest);
    config.vacates();
}

/// A process ends, and keeps its last activation and its priority.
pub(crate) fn finish(config: &mut Config, n: u32, q: &mut Process, rest: &mut VecDeque<Item>)
    ensures { configuration_of config.new ≡ finish (configuration_of config.old) n q.old rest.old.items }
{
    q.set_state(State::Ended);
    config.goes_on(n, q, rest);
    config.vacates();
}
