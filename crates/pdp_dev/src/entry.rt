// What a device does by itself, and what the journal keeps.

use mc_word::Word;

/// What a device does by itself.
#[derive(Clone, Copy, PartialEq, Eq, Debug)]
pub enum Event {
    /// A key with this byte is struck at the console.
    Key(u8),
    /// The console's printer is ready again.
    Printer,
    /// The paper tape punch is ready again.
    Punch,
    /// The paper tape reader has read this byte, or met the tape's end.
    Reader(Option<u8>),
    /// The line clock ticks.
    Clock,
}

/// An output device that takes one byte at a time.
#[derive(Clone, Copy, PartialEq, Eq, Debug)]
pub enum Port {
    Printer,
    Punch,
}

/// One entry of the journal: what a user of the machine could have noticed, in order.
#[derive(Clone, Copy, PartialEq, Eq, Debug)]
pub enum Entry {
    /// A device did something.
    Event(Event),
    /// The request of this vector was granted.
    Grant(Word),
    /// The printer printed this byte.
    Print(u8),
    /// The punch punched this byte.
    Punch(u8),
    /// A byte was written to a port that was busy, and is lost.
    Lost(Port, u8),
}

// The default only fills unused places of fixed arrays.
impl Default for Entry {
    fn default() -> Self {
        Entry::Grant(0)
    }
}
