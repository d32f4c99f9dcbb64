// What becomes of an instruction.

use mc_word::Word;

/// What became of an instruction, or of a grant.
#[derive(Clone, Copy, PartialEq, Eq, Debug)]
pub enum Outcome {
    /// It ran, and the next one follows.
    Ran,
    /// It was WAIT: the processor waits for a grant.
    Idle,
    /// It was HALT.
    Halt,
    /// It met this bad address, and changed nothing (own: the machine stops by name).
    BusFault(Word),
    /// This word is no instruction, and changed nothing (own: the machine stops by name).
    Reserved(Word),
}
