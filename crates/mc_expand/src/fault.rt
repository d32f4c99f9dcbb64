// Why a program has no image.

use mc_word::bytes::Memory;
use std::alloc::{AllocError, AllocFailed};
use thiserror::Error;

/// Why a program is not expanded.
#[derive(Clone, Copy, PartialEq, Eq, Debug, Error)]
pub enum ExpandFault {
    /// Its data and code have more than 20,000 words.
    #[error("too large")]
    TooLarge,
    #[error("memory")]
    Memory,
}

impl From<Memory> for ExpandFault {
    ghost use Rattle.mc_expand.specs.declared.fault.ExpandFault.TheVariants.{Memory};
    ghost use Rattle.std.specs.Prelude.{◌≡◌};

    ghost from_gives = { λ _ fault. fault ≡ Memory };

    fn from(_error: Memory) -> ExpandFault {
        ExpandFault::Memory
    }
}

impl From<AllocError> for ExpandFault {
    ghost use Rattle.mc_expand.specs.declared.fault.ExpandFault.TheVariants.{Memory};
    ghost use Rattle.std.specs.Prelude.{◌≡◌};

    ghost from_gives = { λ _ fault. fault ≡ Memory };

    fn from(_error: AllocError) -> ExpandFault {
        ExpandFault::Memory
    }
}

impl<T: Drop> From<AllocFailed<T>> for ExpandFault {
    ghost use Rattle.mc_expand.specs.declared.fault.ExpandFault.TheVariants.{Memory};
    ghost use Rattle.std.specs.Prelude.{◌≡◌};

    ghost from_gives = { λ _ fault. fault ≡ Memory };

    fn from(_error: AllocFailed<T>) -> ExpandFault {
        ExpandFault::Memory
    }
}
