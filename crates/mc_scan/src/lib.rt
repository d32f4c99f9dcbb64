// The scanner: the tokens of a source, or its first lexical fault.
#![tactic(auto)]

mod bytes;
mod fault;
mod gap;
mod number;
mod quoted;
mod symbol;
mod taken;
mod token;
mod word;

ghost use Rattle.std.specs.Prelude.{◌≡◌, ◌≤◌, List, length, IfOk, IfErr, IfSome, MatchResult, None};
ghost use Rattle.mc_tree.specs.declared.place.Place.{Place};
ghost use Rattle.mc_tree.specs.declared.token.Token.{Token};
ghost use Rattle.mc_tree.specs.declared.fault.Code.{Code};
ghost use Rattle.mc_tree.specs.Sources.{Spells, HasFirstFault};
ghost use Rattle.mc_scan.specs.Refusals.{fault_of};

use crate::token::{advance, place_after};
pub use fault::ScanFault;
use mc_tree::place::Place;
use mc_tree::token::Tokens;
use std::alloc::Global;

/// The tokens of a source, and the place after its last byte.
#[derive(Debug, Drop)]
pub struct Scanned {
    pub tokens: Tokens,
    pub end: Place,
}

/// The tokens of a source of at most 262,144 bytes.
///
/// The answer is `Ok` exactly where the whole source is tokens, blanks and comments, and otherwise
/// its first lexical fault; want of memory may come in place of either.
pub fn scan(alloc: Global, source: &[u8]) -> Result<Scanned, ScanFault>
    requires { length source.now ≤ 262144 }
    ensures ok { IfOk result (λ scanned. Spells scanned.tokens scanned.end source.now) }
    ensures refused { IfErr result (λ refusal. IfSome (fault_of refusal) (λ fault. HasFirstFault fault.code fault.place source.now)) }

    // and so each source is answered in one way
    ensures accepts { (tokens : List Token) (end : Place) → Spells tokens end source.now → MatchResult result (λ scanned. (scanned.tokens ≡ tokens) × (scanned.end ≡ end)) (λ refusal. fault_of refusal ≡ None) }
    ensures refuses { (code : Code) (place : Place) → HasFirstFault code place source.now → MatchResult result (λ _. ⊥) (λ refusal. IfSome (fault_of refusal) (λ fault. fault ≡ record { code = code; place = place })) }
{
    scan_tokens(alloc, source)
}

/// Reads the source piece by piece.
fn scan_tokens(alloc: Global, source: &[u8]) -> Result<Scanned, ScanFault>
    requires { length source.now ≤ 262144 }
    ensures ok { IfOk result (λ scanned. Spells scanned.tokens scanned.end source.now) }
    ensures refused { IfErr result (λ refusal. IfSome (fault_of refusal) (λ fault. HasFirstFault fault.code fault.place source.now)) }
{
    let mut tokens = Vec::new(alloc);
    let mut place = Place { line: 1, column: 1 };
    let mut rest = source;
    while !rest.is_empty() {
        let length = advance(alloc, rest, place, &mut tokens)?;
        let (front, left) = rest.split_at(length);
        place = place_after(place, front);
        rest = left;
    }
    Ok(Scanned {
        tokens: Tokens::from_vec(tokens),
        end: place,
    })
}
