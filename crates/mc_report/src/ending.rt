// How a run ends.

use mc_word::Word;

/// How a run ended.
#[derive(Clone, Copy, PartialEq, Eq, Debug)]
pub enum Ending {
    /// All processes have ended.
    End,
    /// Nothing can happen any more, and some process has not ended.
    Stuck,
    /// The trap of this number, from 1 to 9.
    Trap(u16),
    /// The time that the script allows was over.
    Limit,
    /// The machine met HALT.
    Halt,
    /// The machine used a bad address, this one.
    BusFault(Word),
    /// The machine met this word, which is no instruction or a reserved one.
    Reserved(Word),
    /// The machine waited for events, and none was left.
    Silent,
}
