// Why a script is refused.

use mc_word::bytes::Memory;
use std::alloc::{AllocError, AllocFailed};
use thiserror::Error;

/// Why a text is no script: the fault of its first refused line with that line's number, from 1, or want of
/// memory. Within a line the first of these in their order is meant.
#[derive(Clone, Copy, PartialEq, Eq, Debug, Error)]
pub enum ScriptFault {
    /// The line has fields, and is of no form.
    #[error("bad line")]
    BadLine(usize),
    /// A value is not in its range.
    #[error("out of range")]
    OutOfRange(usize),
    /// The same delay, the clock or the limit stood in an earlier line.
    #[error("twice")]
    Twice(usize),
    /// The key's time is not greater than that of the key before it.
    #[error("backwards")]
    Backwards(usize),
    #[error("memory")]
    Memory,
}

impl From<Memory> for ScriptFault {
    ghost use Rattle.mc_script.specs.declared.fault.ScriptFault.TheVariants.{Memory};
    ghost use Rattle.std.specs.Prelude.{◌≡◌};

    ghost from_gives = { λ _ fault. fault ≡ Memory };

    fn from(_error: Memory) -> ScriptFault {
        ScriptFault::Memory
    }
}

impl From<AllocError> for ScriptFault {
    ghost use Rattle.mc_script.specs.declared.fault.ScriptFault.TheVariants.{Memory};
    ghost use Rattle.std.specs.Prelude.{◌≡◌};

    ghost from_gives = { λ _ fault. fault ≡ Memory };

    fn from(_error: AllocError) -> ScriptFault {
        ScriptFault::Memory
    }
}

impl<T: Drop> From<AllocFailed<T>> for ScriptFault {
    ghost use Rattle.mc_script.specs.declared.fault.ScriptFault.TheVariants.{Memory};
    ghost use Rattle.std.specs.Prelude.{◌≡◌};

    ghost from_gives = { λ _ fault. fault ≡ Memory };

    fn from(_error: AllocFailed<T>) -> ScriptFault {
        ScriptFault::Memory
    }
}
