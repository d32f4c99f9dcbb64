// Why a program breaks the rules of modules and devices.

use mc_tree::fault::Fault;
use mc_word::bytes::Memory;
use std::alloc::AllocError;
use thiserror::Error;

/// Why a program is refused: its first fault against the rules, or want of memory.
#[derive(Clone, Copy, PartialEq, Eq, Debug, Error)]
pub enum RuleFault {
    /// The first fault against the rules of modules and devices.
    #[error("refused")]
    Refused(Fault),
    #[error("memory")]
    Memory,
}

impl From<Memory> for RuleFault {
    ghost use Rattle.mc_rules.specs.declared.fault.RuleFault.TheVariants.{Memory};
    ghost use Rattle.std.specs.Prelude.{◌≡◌};

    ghost from_gives = { λ _ fault. fault ≡ Memory };

    fn from(_error: Memory) -> RuleFault {
        RuleFault::Memory
    }
}
