// The tree of a source.

ghost use Rattle.std.specs.Prelude.{◌≡◌, ◌≤◌, ℕ, List, length, IfOk, IfErr};
ghost use Rattle.mc_tree.specs.Sources.{Spells};
ghost use Rattle.mc_compile.specs.Accepted.{IsParsed, IsRefusedText, refusal_of};

use crate::refusal::Refusal;
use mc_parse::parse;
use mc_scan::{Scanned, scan};
use mc_tree::fault::Fault;
use mc_tree::tree::Tree;
use std::alloc::Global;

/// The tree of a source, and the number of its tokens.
#[derive(Drop)]
pub struct Parsed {
    pub tree: Tree,
    pub tokens: u32,
}

// The refusal with a fault, or for want of memory where there is none.
fn refusal_of(fault: Option<Fault>) -> Refusal
    ensures { result ≡ refusal_of fault }
{
    match fault {
        Some(fault) => Refusal::Source(fault.code, fault.place),
        None => Refusal::Memory,
    }
}

// The tree of the tokens of a source.
fn parse_tokens(alloc: Global, scanned: &Scanned) -> Result<Parsed, Refusal>
    ensures ok { (source : List ℕ) → Spells scanned.now.tokens scanned.now.end source → IfOk result (λ parsed. IsParsed source parsed.tree parsed.tokens) }
    ensures refused { (source : List ℕ) → Spells scanned.now.tokens scanned.now.end source → IfErr result (λ refusal. IsRefusedText source refusal) }
{
    let read = scanned.tokens.as_slice();
    let Ok(tokens) = u32::try_from(read.len()) else {
        return Err(Refusal::Memory);
    };
    match parse(alloc, read, scanned.end) {
        Ok(tree) => Ok(Parsed { tree, tokens }),
        Err(fault) => Err(refusal_of(fault.fault())),
    }
}

/// The tree of a source, or the first fault of its text.
pub fn parse_source(alloc: Global, source: &[u8]) -> Result<Parsed, Refusal>
    requires { length source.now ≤ 262144 }
    ensures ok { IfOk result (λ parsed. IsParsed source.now parsed.tree parsed.tokens) }
    ensures refused { IfErr result (λ refusal. IsRefusedText source.now refusal) }
{
    match scan(alloc, source) {
        Ok(scanned) => parse_tokens(alloc, &scanned),
        Err(fault) => Err(refusal_of(fault.fault())),
    }
}
