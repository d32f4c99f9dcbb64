// Which sources are accepted.

ghost use Rattle.std.specs.Prelude.{◌≡◌, ◌⊎◌, ◌≤◌, length, IfOk, IfErr, MatchResult};
ghost use Rattle.mc_tree.specs.declared.fault.Fault.{Fault};
ghost use Rattle.mc_prog.specs.Namings.{AreNamingsOf};
ghost use Rattle.mc_prog.specs.Resolved.{Resolved};
ghost use Rattle.mc_resolve.specs.Refusals.{HasNoScopeFault};
ghost use Rattle.mc_rules.specs.RuleFaults.{HasNoRuleFault};
ghost use Rattle.mc_compile.specs.Accepted.{IsAccepted, IsAcceptedTree, IsSourceFault, IsTooLarge, IsRefused, IsRefusedProgram, IsRefusedTree};

use crate::front::parse_source;
use crate::refusal::Refusal;
use mc_prog::program::Program;
use mc_prog::scoped::Scoped;
use mc_resolve::{ResolveFault, resolve};
use mc_rules::{RuleFault, check};
use mc_tree::tree::Tree;
use mc_types::{TypeFault, type_program};
use std::alloc::Global;

/// How many words an accepted program takes at most.
const MOST_WORDS: u32 = 20_000;

/// The program of a source, through all stages: its tokens, their tree, its names, its types, and the rules of modules and
/// devices.
///
/// # Errors
///
/// `Source` has the first fault of the first stage that finds one, `TooLarge` comes where none does and the program takes
/// more than 20,000 words, and `Memory`. `NotYet` never comes.
pub fn accept(alloc: Global, source: &[u8]) -> Result<Program, Refusal>
    requires { length source.now ≤ 262144 }
    ensures ok { IfOk result (λ program. IsAccepted source.now program) }
    ensures refused { IfErr result (λ refusal. IsRefused source.now refusal) }

    // a source is one of three, and so that is answered, unless memory is wanting
    ensures accepts { (program : Resolved) → IsAccepted source.now program → MatchResult result (λ p. p ≡ program) (λ refusal. refusal ≡ Refusal.Memory) }
    ensures refuses { (fault : Fault) → IsSourceFault source.now fault → MatchResult result (λ program. ⊥) (λ refusal. (refusal ≡ Refusal.Memory) ⊎ (refusal ≡ Refusal.Source fault.code fault.place)) }
    ensures is_too_large { IsTooLarge source.now → MatchResult result (λ program. ⊥) (λ refusal. (refusal ≡ Refusal.Memory) ⊎ (refusal ≡ Refusal.TooLarge)) }
{
    accept_source(alloc, source)
}

// The program of a source, by its tree.
fn accept_source(alloc: Global, source: &[u8]) -> Result<Program, Refusal>
    requires { length source.now ≤ 262144 }
    ensures ok { IfOk result (λ program. IsAccepted source.now program) }
    ensures refused { IfErr result (λ refusal. IsRefused source.now refusal) }
{
    match parse_source(alloc, source) {
        Ok(parsed) => accept_tree(alloc, &parsed.tree, parsed.tokens),
        Err(refusal) => Err(refusal),
    }
}

/// The program of a tree of so many tokens.
pub fn accept_tree(alloc: Global, tree: &Tree, tokens: u32) -> Result<Program, Refusal>
    ensures ok { IfOk result (λ program. IsAcceptedTree tree.now tokens program) }
    ensures refused { IfErr result (λ refusal. IsRefusedTree tree.now tokens refusal) }
{
    match resolve(alloc, tree) {
        Ok(scoped) => accept_names(alloc, tree, &scoped, tokens),
        Err(ResolveFault::Refused(fault)) => Err(Refusal::Source(fault.code, fault.place)),
        Err(ResolveFault::Memory) => Err(Refusal::Memory),
    }
}

// The program of a tree whose names are used like this.
fn accept_names(
    alloc: Global,
    tree: &Tree,
    scoped: &Scoped,
    tokens: u32,
) -> Result<Program, Refusal>
    requires names { AreNamingsOf tree.now scoped.now }
    requires no_scope_fault { HasNoScopeFault tree.now }
    ensures ok { IfOk result (λ program. IsAcceptedTree tree.now tokens program) }
    ensures refused { IfErr result (λ refusal. IsRefusedTree tree.now tokens refusal) }
{
    match type_program(alloc, tree, scoped, tokens) {
        Ok(program) => accept_program(alloc, program),
        Err(TypeFault::Refused(fault)) => Err(Refusal::Source(fault.code, fault.place)),
        Err(TypeFault::Memory) => Err(Refusal::Memory),
    }
}

// The program, where it keeps the rules and is not too large.
fn accept_program(alloc: Global, program: Program) -> Result<Program, Refusal>
    ensures ok { IfOk result (λ kept. (kept ≡ program) × HasNoRuleFault kept × (kept.size ≤ 20000)) }
    ensures refused { IfErr result (λ refusal. IsRefusedProgram program refusal) }
{
    match keeps_rules(alloc, &program) {
        Ok(()) => Ok(program),
        Err(refusal) => Err(refusal),
    }
}

// Looks whether a program keeps the rules and is not too large.
fn keeps_rules(alloc: Global, program: &Program) -> Result<(), Refusal>
    ensures ok { IfOk result (λ done. HasNoRuleFault program.now × (program.now.size ≤ 20000)) }
    ensures refused { IfErr result (λ refusal. IsRefusedProgram program.now refusal) }
{
    match check(alloc, program) {
        Ok(()) => {}
        Err(RuleFault::Refused(fault)) => return Err(Refusal::Source(fault.code, fault.place)),
        Err(RuleFault::Memory) => return Err(Refusal::Memory),
    }
    if program.size() > MOST_WORDS {
        return Err(Refusal::TooLarge);
    }
    Ok(())
}
