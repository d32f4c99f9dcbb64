// Texts, and characters that are written as texts of one byte.

ghost use Rattle.std.specs.Prelude.{◌≡◌, ◌<◌, ℕ, List, true, length, slice_index, IfOk, IfErr};
ghost use Rattle.mc_tree.specs.Spellings.{is_quote, IsQuoted, IsSpelling};
ghost use Rattle.mc_scan.specs.Pieces.{IsTaken, IsRefusal};

use crate::bytes::{Class, run_length};
use crate::fault::ScanFault;
use crate::taken::Taken;
use mc_tree::place::Place;
use mc_tree::token::Kind;
use mc_word::bytes::{Memory, Text};
use std::alloc::Global;

/// What stands between two quotes: a character where it is one byte, and else a text.
fn kind_of(alloc: Global, inside: &[u8]) -> Result<Kind, Memory>
    ensures { IfOk result (λ kind. (bytes : List ℕ) → IsQuoted inside.now bytes → IsSpelling kind bytes) }
{
    if inside.len() == 1 {
        Ok(Kind::Char(inside[0]))
    } else {
        Ok(Kind::Text(Text::from_slice(alloc, inside)?))
    }
}

/// The text at the front, or the character where it has one byte.
pub fn quoted(alloc: Global, rest: &[u8], place: Place) -> Result<Taken, ScanFault>
    requires some { 0 < length rest.now }
    requires quote { is_quote (slice_index rest.now 0) ≡ true }
    ensures ok { IfOk result (λ taken. IsTaken taken.kind taken.length rest.now) }
    ensures refused { IfErr result (λ fault. IsRefusal fault place rest.now) }
{
    let quote = rest[0];
    let behind = &rest[1..];
    let inside = run_length(behind, Class::Inside(quote));
    if inside == behind.len() || behind[inside] != quote {
        return Err(ScanFault::OpenText(place));
    }
    Ok(Taken {
        kind: kind_of(alloc, &behind[..inside])?,
        length: inside + 2,
    })
}
