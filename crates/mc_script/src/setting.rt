// What a script sets.

/// What a line of a script gives a value.
#[derive(Clone, Copy, PartialEq, Eq, Debug)]
pub enum Setting {
    /// How long the printer takes for a byte, 1 to 1,000,000.
    Printer,
    /// How long the reader takes for a byte, 1 to 1,000,000.
    Reader,
    /// How long the punch takes for a byte, 1 to 1,000,000.
    Punch,
    /// The clock's period, 1 to 20,000,000.
    Clock,
    /// The time at which the machine is stopped, 1 to 20,000,000.
    Limit,
}
