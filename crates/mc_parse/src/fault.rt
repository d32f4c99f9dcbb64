// Why tokens are refused.

use mc_tree::fault::{Code, Fault};
use mc_tree::place::Place;
use mc_word::bytes::Memory;
use std::alloc::{AllocError, AllocFailed};
use thiserror::Error;

/// Why a list of tokens is no program of allowed depth: its first fault with its place, or want of memory.
#[derive(Clone, Copy, PartialEq, Eq, Debug, Error)]
pub enum ParseFault {
    /// No program has the token there, or the tokens end there before the program does.
    #[error("unexpected")]
    Unexpected(Place),
    /// The token there begins a node deeper than 64.
    #[error("too deep")]
    TooDeep(Place),
    #[error("memory")]
    Memory,
}

impl ParseFault {
    ghost use Rattle.std.specs.Prelude.{◌≡◌};
    ghost use Rattle.mc_parse.specs.Refusals.{fault_of};

    /// The fault of the tokens; none for want of memory.
    pub fn fault(self) -> Option<Fault>
        ensures { result ≡ fault_of self }
    {
        match self {
            ParseFault::Unexpected(place) => Some(Fault {
                code: Code::Unexpected,
                place,
            }),
            ParseFault::TooDeep(place) => Some(Fault {
                code: Code::TooDeep,
                place,
            }),
            ParseFault::Memory => None,
        }
    }
}

impl From<Memory> for ParseFault {
    ghost use Rattle.mc_parse.specs.declared.fault.ParseFault.TheVariants.{Memory};
    ghost use Rattle.std.specs.Prelude.{◌≡◌};

    ghost from_gives = { λ _ fault. fault ≡ Memory };

    fn from(_error: Memory) -> ParseFault {
        ParseFault::Memory
    }
}

impl From<AllocError> for ParseFault {
    ghost use Rattle.mc_parse.specs.declared.fault.ParseFault.TheVariants.{Memory};
    ghost use Rattle.std.specs.Prelude.{◌≡◌};

    ghost from_gives = { λ _ fault. fault ≡ Memory };

    fn from(_error: AllocError) -> ParseFault {
        ParseFault::Memory
    }
}

impl<T: Drop> From<AllocFailed<T>> for ParseFault {
    ghost use Rattle.mc_parse.specs.declared.fault.ParseFault.TheVariants.{Memory};
    ghost use Rattle.std.specs.Prelude.{◌≡◌};

    ghost from_gives = { λ _ fault. fault ≡ Memory };

    fn from(_error: AllocFailed<T>) -> ParseFault {
        ParseFault::Memory
    }
}
