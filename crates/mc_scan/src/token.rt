// The token at the front of the bytes that are left, and the next piece of a source.

ghost use Rattle.std.specs.Prelude.{◌≡◌, ◌<◌, ◌+◌, ◌^◌, length, IfOk, IfErr};
ghost use Rattle.mc_tree.specs.Sources.{place_after, place_after_byte};
ghost use Rattle.mc_scan.specs.Pieces.{IsTaken, IsRefusal, HasNoGap, Advances};

use crate::bytes::{is_digit, is_letter, is_quote};
use crate::fault::ScanFault;
use crate::gap::gap_length;
use crate::number::number;
use crate::quoted::quoted;
use crate::symbol::symbol;
use crate::taken::Taken;
use crate::word::word;
use mc_tree::place::Place;
use mc_tree::token::Token;
use std::alloc::Global;

/// The token at the front, where no gap stands.
fn token(alloc: Global, rest: &[u8], place: Place) -> Result<Taken, ScanFault>
    requires some { 0 < length rest.now }
    requires no_gap { HasNoGap rest.now }
    ensures ok { IfOk result (λ taken. IsTaken taken.kind taken.length rest.now) }
    ensures refused { IfErr result (λ fault. IsRefusal fault place rest.now) }
{
    let first = rest[0];
    if is_letter(first) {
        Ok(word(alloc, rest)?)
    } else if is_digit(first) {
        number(rest, place)
    } else if is_quote(first) {
        quoted(alloc, rest, place)
    } else {
        symbol(rest).ok_or(ScanFault::BadByte(place))
    }
}

/// Takes the blank, the comment or the token at the front, and answers its length. A token is
/// added to `tokens`.
pub fn advance(
    alloc: Global,
    rest: &[u8],
    place: Place,
    tokens: &mut Vec<Token>,
) -> Result<usize, ScanFault>
    requires { 0 < length rest.now }
    ensures ok { IfOk result (λ n. Advances tokens.old.items tokens.new.items place n rest.now) }
    ensures refused { IfErr result (λ fault. IsRefusal fault place rest.now) }
{
    if let Some(length) = gap_length(rest, place)? {
        return Ok(length);
    }
    let Taken { kind, length } = token(alloc, rest, place)?;
    tokens.push(Token { kind, place })?;
    Ok(length)
}

/// The place behind this byte, which stands at `here`.
fn place_behind(here: Place, b: u8) -> Place
    requires line { here.line + 1 < 2 ^ 32 }
    requires column { here.column + 1 < 2 ^ 32 }
    ensures { result ≡ place_after_byte here b }
{
    if b == b'\n' {
        Place {
            line: here.line + 1,
            column: 1,
        }
    } else {
        Place {
            line: here.line,
            column: here.column + 1,
        }
    }
}

/// The place behind these bytes, which begin at `place`.
pub fn place_after(place: Place, bytes: &[u8]) -> Place
    requires lines { place.line + length bytes.now < 2 ^ 32 }
    requires columns { place.column + length bytes.now < 2 ^ 32 }
    ensures { result ≡ place_after place bytes.now }
{
    let mut here = place;
    for b in bytes {
        here = place_behind(here, *b);
    }
    here
}
