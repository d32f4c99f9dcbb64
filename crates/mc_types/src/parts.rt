// What is known of the parts of a piece, by their numbers.

ghost use Rattle.std.specs.Prelude.{◌≡◌, IfOk, map};
ghost use Rattle.mc_prog.specs.Known.{blank, part, typed_at};

use crate::names::NOWHERE;
use mc_prog::typing::{Meaning, Typed};
use mc_word::bytes::Memory;
use std::alloc::Global;

/// What is said where there is no such part.
pub const BLANK: Typed = Typed {
    place: NOWHERE,
    meaning: Meaning::Nothing,
    fixed: true,
    nest: 0,
    arguments: 0,
    node: 0,
};

/// What is known of the piece of a number.
pub fn typed_at(typed: &[Typed], number: u32) -> Typed
    ensures { result ≡ typed_at typed.now number }
{
    typed.get(number as usize).copied().unwrap_or(BLANK)
}

/// What is known of a part, by its position.
pub fn part(typed: &[Typed], parts: &[u32], position: usize) -> Typed
    ensures { result ≡ part typed.now parts.now position }
{
    match parts.get(position) {
        Some(number) => typed_at(typed, *number),
        None => BLANK,
    }
}

/// What is known of pieces, by their numbers.
pub fn typed_of(alloc: Global, typed: &[Typed], numbers: &[u32]) -> Result<Vec<Typed>, Memory>
    ensures { IfOk result (λ parts. parts.items ≡ map (typed_at typed.now) numbers.now) }
{
    let mut parts = Vec::new(alloc);
    for number in numbers {
        parts.push(typed_at(typed, *number))?;
    }
    Ok(parts)
}
