// Faults of a source.

use crate::place::Place;

/// What is wrong with a source. The stages in order: lexical faults, faults of the grammar,
/// scope faults (S), type faults (Y), and faults against the rules of modules (M).
#[derive(Clone, Copy, PartialEq, Eq, Debug)]
pub enum Code {
    /// A byte that is no blank and begins no token and no comment.
    BadByte,
    /// A number or a character past its greatest value.
    NumberTooLarge,
    /// A comment without its end.
    OpenComment,
    /// A text without its closing quote.
    OpenText,
    /// A token that no program has there.
    Unexpected,
    /// A node deeper than the limit.
    TooDeep,
    /// A name that is known in no block around it, or a used name that is not known around the module.
    S1,
    /// A name that is declared twice in a block, list, record or scope, or a standard name that is declared.
    S2,
    /// A defined name that is not declared in its module.
    S3,
    /// A name that is known further out only, and not by use.
    S4,
    /// A name after `end` that differs.
    S5,
    /// A type or a kind of name that its place does not allow, a missing field, or a signal where none may stand.
    Y1,
    /// What is assigned or given for `var` is no variable, or may not be changed.
    Y2,
    /// A defined variable that is assigned or given for `var` outside its module.
    Y3,
    /// Bounds that are out of order or not of a type for indices, or a type that is too large.
    Y4,
    /// An expression that must be constant and is not, or whose evaluation traps.
    Y5,
    /// A call that cannot stand there, wrong arguments, or a parameter that is not allowed.
    Y6,
    /// A case label that stands twice.
    Y7,
    /// A text without bytes, or whose length differs from the array's.
    Y8,
    /// A priority that is not 4 to 7.
    M1,
    /// A vector that no device has.
    M2,
    /// A vector that stands twice in the program.
    M3,
    /// A vector whose level is greater than the module's priority.
    M4,
    /// Code of a device module that calls or starts what is declared outside it.
    M5,
    /// A wait in device code that has a rank.
    M6,
    /// Device code that both waits on and sends to a signal variable.
    M7,
    /// `doio` outside the text of a device process.
    M8,
    /// A register outside a device module's variables, at an address without a register, or of another type.
    M9,
    /// A device process that is started elsewhere than in its module's body.
    M10,
}

/// A fault of a source: what is wrong, and where.
#[derive(Clone, Copy, PartialEq, Eq, Debug)]
pub struct Fault {
    pub code: Code,
    pub place: Place,
}
