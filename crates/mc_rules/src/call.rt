// Calls in texts, as far as the rules look at them, and where the texts stand.

use mc_tree::place::Place;

/// What is called.
#[derive(Clone, Copy, PartialEq, Eq, Debug)]
pub enum Called {
    /// A procedure, by its number.
    Procedure(u32),
    /// A process that is started, by its number.
    Process(u32),
    /// `wait`: the node of the signal, and whether a rank stands behind it.
    Wait(u32, bool),
    /// `send`: the node of the signal.
    Send(u32),
    Doio,
}

/// A call, a start among them.
#[derive(Clone, Copy, PartialEq, Eq, Debug)]
pub struct Call {
    /// Where the called name stands.
    pub place: Place,
    pub called: Called,
}

/// What a text that runs is the text of.
#[derive(Clone, Copy, PartialEq, Eq, Debug)]
pub enum SiteKind {
    Procedure,
    /// A process that is no device process.
    Process,
    /// A device process.
    Driver,
    /// The body of a module.
    Body,
}

/// Where a text that runs stands.
#[derive(Clone, Copy, PartialEq, Eq, Debug)]
pub struct Site {
    /// The module that it stands in, for a body its own.
    pub module: u16,
    pub kind: SiteKind,
}

/// What is done with a signal.
#[derive(Clone, Copy, PartialEq, Eq, Debug)]
pub enum Way {
    Wait,
    Send,
}

/// A wait on a signal variable, or a sending to it; an array of signals counts as one variable.
#[derive(Clone, Copy, PartialEq, Eq, Debug)]
pub struct Signalling {
    /// The number of the variable.
    pub variable: u32,
    /// Where the called name stands.
    pub place: Place,
}
