// Why the names of a tree are not resolved.

use mc_tree::fault::Fault;
use mc_word::bytes::Memory;
use thiserror::Error;

/// Why the names of a tree are not resolved: its first scope fault, or want of memory.
#[derive(Clone, Copy, PartialEq, Eq, Debug, Error)]
pub enum ResolveFault {
    /// The first fault of scopes.
    #[error("refused")]
    Refused(Fault),
    #[error("memory")]
    Memory,
}

impl From<Memory> for ResolveFault {
    ghost use Rattle.mc_resolve.specs.declared.fault.ResolveFault.TheVariants.{Memory};
    ghost use Rattle.std.specs.Prelude.{◌≡◌};

    ghost from_gives = { λ _ fault. fault ≡ Memory };

    fn from(_error: Memory) -> ResolveFault {
        ResolveFault::Memory
    }
}
