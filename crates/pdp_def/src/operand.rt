// Where an operand stands.

use mc_word::Word;

/// The place that an operand names.
#[derive(Clone, Copy, PartialEq, Eq, Debug)]
pub enum Place {
    /// The register of this number, 0 to 7.
    InRegister(u16),
    /// The address on the bus.
    InMemory(Word),
}
