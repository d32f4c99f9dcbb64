// Why a program is not typed.

use mc_tree::fault::Fault;
use mc_word::bytes::Memory;
use thiserror::Error;

/// Why a program is not typed: its first type fault, or want of memory.
#[derive(Clone, Copy, PartialEq, Eq, Debug, Error)]
pub enum TypeFault {
    /// The first fault of types.
    #[error("refused")]
    Refused(Fault),
    #[error("memory")]
    Memory,
}

impl From<Memory> for TypeFault {
    ghost use Rattle.mc_types.specs.declared.fault.TypeFault.TheVariants.{Memory};
    ghost use Rattle.std.specs.Prelude.{◌≡◌};

    ghost from_gives = { λ _ fault. fault ≡ Memory };

    fn from(_error: Memory) -> TypeFault {
        TypeFault::Memory
    }
}
