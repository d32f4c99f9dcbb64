// Why settings are refused.

use mc_word::bytes::Memory;
use thiserror::Error;

/// Why settings are refused, in the order in which the causes are looked for.
#[derive(Clone, Copy, PartialEq, Eq, Debug, Error)]
pub enum SettingFault {
    /// The bytes are no UTF-8, or no TOML document.
    #[error("no TOML document")]
    NotToml,
    /// The document has a key that is no setting.
    #[error("unknown key")]
    UnknownKey,
    /// A value is no integer.
    #[error("not an integer")]
    BadKind,
    /// A value is outside its range.
    #[error("out of range")]
    OutOfRange,
    #[error("memory")]
    Memory,
}

impl From<Memory> for SettingFault {
    fn from(_memory: Memory) -> SettingFault {
        SettingFault::Memory
    }
}
