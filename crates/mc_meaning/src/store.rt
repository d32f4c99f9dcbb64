// What a word of a program is kept under, and what can be written.

use mc_word::Word;

/// A word of the store. It has a name and no address.
#[derive(Clone, Copy, PartialEq, Eq, Debug)]
pub enum Name {
    /// A word of a module's variable: the number of the variable, and that of the word in it, from 0.
    Variable(u32, u32),
    /// A word that an activation has of its own: the process, the activation, the slot of its text, and the word in it.
    Private(u32, u64, u32, u32),
}

/// What can be read and written.
#[derive(Clone, Copy, PartialEq, Eq, Debug)]
pub enum Target {
    /// A word of the store, for a structured variable its first one.
    Stored(Name),
    /// A device register, by its address.
    Register(Word),
}

/// Where a word of a structured value comes from.
#[derive(Clone, Copy, PartialEq, Eq, Debug)]
pub enum Source {
    Stored(Name),
    /// A byte of a text.
    Byte(u8),
}

/// What an evaluation has found.
#[derive(Clone, Copy, PartialEq, Eq, Debug)]
pub enum Found {
    /// A word.
    Value(Word),
    /// What a designator names.
    Named(Target),
    /// A bit of what is named, from 0, the lowest.
    Bit(Target, u16),
    /// A bit of a word that is no variable's.
    BitOf(Word, u16),
    /// A text, by its node.
    Text(u32),
}
