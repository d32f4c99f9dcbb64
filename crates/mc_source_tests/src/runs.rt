// Runs of programs whose moves are written out.

use crate::stages::{Refusal, program_of};
use mc_meaning::configuration::Config;
use mc_meaning::process::State;
use mc_meaning::steps::{Acted, step_process};
use mc_prog::program::Program;
use mc_word::bytes::Memory;
use pdp_dev::entry::{Entry, Event};
use std::alloc::Global;

/// A move of a run.
#[derive(Clone, Copy, PartialEq, Eq, Debug)]
pub enum Move {
    /// The topmost process makes evaluation steps, as long as it may, and at most so many.
    Steps(u32),
    /// A device does something.
    Happens(Event),
    /// The pending request is granted.
    Grants,
    /// The ready process of this number is chosen.
    Chooses(u32),
}

/// How a run ends.
#[derive(Clone, Copy, PartialEq, Eq, Debug)]
pub enum End {
    /// Every process has ended.
    Ended,
    /// Nothing can go on but by an event, and some process has not ended.
    Stuck,
    Trapped(u16),
    /// It can go on, with so many processes that have not ended.
    Going(u32),
    /// The move of this number, from 0, is not possible.
    Impossible(u32),
}

/// What a run brings about.
#[derive(Debug, Drop)]
pub struct Run {
    pub journal: Vec<Entry>,
    pub end: End,
}

/// Makes evaluation steps, and says whether there was one.
fn steps(program: &Program, config: &mut Config, most: u32) -> Result<bool, Memory> {
    let mut is_one = false;
    for _ in 0..most {
        if !config.can_eval() {
            return Ok(is_one);
        }
        step_process(program, config)?;
        is_one = true;
    }
    Ok(is_one)
}

/// Makes a move, and says whether it was possible.
fn moves(program: &Program, config: &mut Config, one: Move) -> Result<bool, Memory> {
    match one {
        Move::Steps(most) => steps(program, config, most),
        Move::Happens(event) => {
            config.event(event)?;
            Ok(true)
        }
        Move::Grants => config.grant(),
        Move::Chooses(n) => Ok(config.choose(n)),
    }
}

/// How many processes have not ended, and whether one is ready.
fn live_and_ready(config: &Config) -> (u32, bool) {
    let mut live = 0_u32;
    let mut is_ready = false;
    for process in config.processes() {
        if process.state() != State::Ended {
            live = live.saturating_add(1);
        }
        if process.state() == State::Ready {
            is_ready = true;
        }
    }
    (live, is_ready)
}

/// Where a configuration stands.
fn end_of(config: &Config) -> End {
    let (live, is_ready) = live_and_ready(config);
    match config.trap() {
        Some(n) => End::Trapped(n),
        None => {
            if config.can_grant() || config.topmost().is_some() || is_ready {
                End::Going(live)
            } else if live == 0 {
                End::Ended
            } else {
                End::Stuck
            }
        }
    }
}

/// Makes all moves, up to the first that is not possible.
fn play(program: &Program, config: &mut Config, written: &[Move]) -> Result<End, Memory> {
    let mut number = 0_u32;
    for one in written {
        if !moves(program, config, *one)? {
            return Ok(End::Impossible(number));
        }
        number = number.saturating_add(1);
    }
    Ok(end_of(config))
}

/// The run of a program with these moves.
fn run_of_program(alloc: Global, program: &Program, written: &[Move]) -> Result<Run, Memory> {
    let mut config = Config::open(alloc, program)?;
    let end = play(program, &mut config, written)?;
    Ok(Run {
        journal: Vec::from_slice(alloc, config.journal())?,
        end,
    })
}

/// The run of a source with these moves.
pub fn run_of(alloc: Global, source: &str, written: &[Move]) -> Result<Run, Refusal> {
    match program_of(alloc, source.as_bytes()) {
        Ok(program) => run_of_program(alloc, &program, written).map_err(Refusal::from),
        Err(refusal) => Err(refusal),
    }
}

/// What single steps answer.
#[derive(Clone, Copy, PartialEq, Eq, Debug)]
pub struct Answers {
    /// How many answered Stepped, and what the next two answered.
    pub stepped: u32,
    pub first: Acted,
    pub second: Acted,
}

/// What the steps of a program answer, where at most so many answer Stepped.
fn answers_of_program(alloc: Global, program: &Program, most: u32) -> Result<Answers, Memory> {
    let mut config = Config::open(alloc, program)?;
    let mut stepped = 0_u32;
    let mut first = Acted::Stepped;
    for _ in 0..most {
        first = step_process(program, &mut config)?;
        if first != Acted::Stepped {
            let second = step_process(program, &mut config)?;
            return Ok(Answers {
                stepped,
                first,
                second,
            });
        }
        stepped = stepped.saturating_add(1);
    }
    Ok(Answers {
        stepped,
        first,
        second: first,
    })
}

/// What the steps of a source answer, where at most so many answer Stepped.
pub fn answers_of(alloc: Global, source: &str, most: u32) -> Result<Answers, Refusal> {
    match program_of(alloc, source.as_bytes()) {
        Ok(program) => answers_of_program(alloc, &program, most).map_err(Refusal::from),
        Err(refusal) => Err(refusal),
    }
}
