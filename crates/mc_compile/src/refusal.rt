// Why a source is not accepted, or not compiled.

use mc_tree::fault::Code;
use mc_tree::place::Place;
use mc_word::bytes::Memory;
use thiserror::Error;

/// Why a source is not accepted, or no image is made of it.
#[derive(Clone, Copy, PartialEq, Eq, Debug, Error)]
pub enum Refusal {
    /// The first fault of the source, and its place.
    #[error("refused")]
    Source(Code, Place),
    /// The source has no fault, and its size is greater than the limit.
    #[error("too large")]
    TooLarge,
    /// The source is accepted, and not of a form that is compiled today.
    #[error("not yet source")]
    NotYet,
    #[error("memory")]
    Memory,
}

impl From<Memory> for Refusal {
    ghost use Rattle.std.specs.Prelude.{◌≡◌};
    ghost use Rattle.mc_compile.specs.declared.refusal.Refusal.TheVariants.{Memory as MemoryWanted};

    ghost from_gives = { λ _ refusal. refusal ≡ MemoryWanted };

    fn from(_error: Memory) -> Refusal {
        Refusal::Memory
    }
}
