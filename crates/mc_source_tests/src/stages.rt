// The stages of a source, each over what the one before it found: tokens, tree, names, program and rules.

use mc_parse::{ParseFault, parse};
use mc_prog::program::Program;
use mc_prog::scoped::Scoped;
use mc_resolve::{ResolveFault, resolve};
use mc_rules::{RuleFault, check};
use mc_scan::{ScanFault, Scanned, scan};
use mc_tree::fault::{Code, Fault};
use mc_tree::place::Place;
use mc_tree::tree::Tree;
use mc_types::{TypeFault, type_program};
use mc_word::bytes::Memory;
use std::alloc::Global;

/// The longest source that is scanned.
const SOURCE_BYTES: usize = 262_144;

/// Why a source has no answer of a stage.
#[derive(Clone, Copy, PartialEq, Eq, Debug)]
pub enum Refusal {
    /// Its first fault, of this stage or of one before it.
    Fault(Fault),
    Memory,
}

impl From<Memory> for Refusal {
    fn from(_error: Memory) -> Refusal {
        Refusal::Memory
    }
}

impl From<ScanFault> for Refusal {
    fn from(error: ScanFault) -> Refusal {
        match error.fault() {
            Some(fault) => Refusal::Fault(fault),
            None => Refusal::Memory,
        }
    }
}

impl From<ParseFault> for Refusal {
    fn from(error: ParseFault) -> Refusal {
        match error.fault() {
            Some(fault) => Refusal::Fault(fault),
            None => Refusal::Memory,
        }
    }
}

impl From<ResolveFault> for Refusal {
    fn from(error: ResolveFault) -> Refusal {
        match error {
            ResolveFault::Refused(fault) => Refusal::Fault(fault),
            ResolveFault::Memory => Refusal::Memory,
        }
    }
}

impl From<TypeFault> for Refusal {
    fn from(error: TypeFault) -> Refusal {
        match error {
            TypeFault::Refused(fault) => Refusal::Fault(fault),
            TypeFault::Memory => Refusal::Memory,
        }
    }
}

impl From<RuleFault> for Refusal {
    fn from(error: RuleFault) -> Refusal {
        match error {
            RuleFault::Refused(fault) => Refusal::Fault(fault),
            RuleFault::Memory => Refusal::Memory,
        }
    }
}

/// A fault in the first line.
pub fn fault_at(code: Code, column: u32) -> Fault {
    Fault {
        code,
        place: Place { line: 1, column },
    }
}

/// The first fault, where there is one.
pub fn fault_of<T: Drop>(answer: Result<T, Refusal>) -> Result<Option<Fault>, Memory> {
    match answer {
        Ok(_) => Ok(None),
        Err(Refusal::Fault(fault)) => Ok(Some(fault)),
        Err(Refusal::Memory) => Err(Memory),
    }
}

// Each stage is handed what it reads by reference: a function that holds a tree by value over several exits is slow
// to prove.

/// The tokens of a source.
fn tokens_of(alloc: Global, source: &[u8]) -> Result<Scanned, Refusal> {
    if source.len() > SOURCE_BYTES {
        return Err(Refusal::Memory);
    }
    scan(alloc, source).map_err(Refusal::from)
}

/// The tree of a source's tokens.
fn parsed(alloc: Global, scanned: &Scanned) -> Result<Tree, Refusal> {
    parse(alloc, scanned.tokens.as_slice(), scanned.end).map_err(Refusal::from)
}

/// The names of a tree.
fn resolved(alloc: Global, tree: &Tree) -> Result<Scoped, Refusal> {
    resolve(alloc, tree).map_err(Refusal::from)
}

/// The program of a tree of so many tokens, and of its names.
fn typed(alloc: Global, tree: &Tree, scoped: &Scoped, tokens: u32) -> Result<Program, Refusal> {
    type_program(alloc, tree, scoped, tokens).map_err(Refusal::from)
}

/// The program of a tree of so many tokens.
fn program_of_tree(alloc: Global, tree: &Tree, tokens: u32) -> Result<Program, Refusal> {
    match resolved(alloc, tree) {
        Ok(scoped) => typed(alloc, tree, &scoped, tokens),
        Err(refusal) => Err(refusal),
    }
}

/// The program of a source's tokens.
fn program_of_tokens(alloc: Global, scanned: &Scanned) -> Result<Program, Refusal> {
    let tokens = u32::try_from(scanned.tokens.as_slice().len()).map_err(|_| Refusal::Memory)?;
    match parsed(alloc, scanned) {
        Ok(tree) => program_of_tree(alloc, &tree, tokens),
        Err(refusal) => Err(refusal),
    }
}

/// The tree of a source without faults of words and grammar, or its first one.
pub fn tree_of(alloc: Global, source: &[u8]) -> Result<Tree, Refusal> {
    match tokens_of(alloc, source) {
        Ok(scanned) => parsed(alloc, &scanned),
        Err(refusal) => Err(refusal),
    }
}

/// The names of a source without faults of words, grammar and scopes, or its first one.
pub fn names_of(alloc: Global, source: &[u8]) -> Result<Scoped, Refusal> {
    match tree_of(alloc, source) {
        Ok(tree) => resolved(alloc, &tree),
        Err(refusal) => Err(refusal),
    }
}

/// The program of a source without faults, or its first fault of words, grammar, scopes and types.
pub fn program_of(alloc: Global, source: &[u8]) -> Result<Program, Refusal> {
    match tokens_of(alloc, source) {
        Ok(scanned) => program_of_tokens(alloc, &scanned),
        Err(refusal) => Err(refusal),
    }
}

/// Looks whether a program keeps the rules of modules and devices.
fn kept(alloc: Global, program: &Program) -> Result<(), Refusal> {
    check(alloc, program).map_err(Refusal::from)
}

/// Looks for faults in all stages.
pub fn faultless(alloc: Global, source: &[u8]) -> Result<(), Refusal> {
    match program_of(alloc, source) {
        Ok(program) => kept(alloc, &program),
        Err(refusal) => Err(refusal),
    }
}
