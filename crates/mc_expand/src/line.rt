// Instructions of the machine as templates write them.

ghost use Rattle.std.specs.Prelude.{◌≡◌, ◌≤◌, ◌<◌};
ghost use Rattle.mc_expand.specs.Lines.{register_number, mode_of, word_of, two, one, onto, bare};

use mc_word::Word;

/// The registers that templates name.
#[derive(Clone, Copy, PartialEq, Eq, Debug)]
pub enum Register {
    R0,
    R1,
    R2,
    R3,
    R4,
    R5,
    Sp,
}

/// A word of a template.
#[derive(Clone, Copy, PartialEq, Eq, Debug)]
pub enum Item {
    Plain(Word),
    /// The address of the words of an instruction of process code, by its place.
    Place(u16),
    /// The address of what stands in front of an entry, by its number.
    Entry(u16),
    /// The address of a process's record, by its number.
    Record(u16),
    /// The address of a data word, or behind these of a text's word.
    Data(u16),
    /// The address two words below the top of the main process's workspace.
    MainTop,
}

/// An operand: register, deferred, autoincrement, autodecrement, index, index deferred, immediate, absolute.
#[derive(Clone, Copy, PartialEq, Eq, Debug)]
pub enum Argument {
    In(Register),
    At(Register),
    Increment(Register),
    Decrement(Register),
    Indexed(Item, Register),
    IndexedAt(Item, Register),
    Immediate(Item),
    Absolute(Item),
}

/// An instruction: its word, and the further words of its operands.
#[derive(Clone, Copy, PartialEq, Eq, Debug)]
pub struct Line {
    pub word: Word,
    pub source: Option<Item>,
    pub target: Option<Item>,
}

// The number of a register.
pub fn register_number(r: Register) -> u16
    ensures value { result ≡ register_number r }
    ensures below { result < 8 }
{
    match r {
        Register::R0 => 0,
        Register::R1 => 1,
        Register::R2 => 2,
        Register::R3 => 3,
        Register::R4 => 4,
        Register::R5 => 5,
        Register::Sp => 6,
    }
}

// Mode and register of an operand.
fn mode_of(a: Argument) -> u16
    ensures value { result ≡ mode_of a }
    ensures below { result < 64 }
{
    match a {
        Argument::In(r) => register_number(r),
        Argument::At(r) => 0o10 + register_number(r),
        Argument::Increment(r) => 0o20 + register_number(r),
        Argument::Decrement(r) => 0o40 + register_number(r),
        Argument::Indexed(_, r) => 0o60 + register_number(r),
        Argument::IndexedAt(_, r) => 0o70 + register_number(r),
        Argument::Immediate(_) => 0o27,
        Argument::Absolute(_) => 0o37,
    }
}

// The further word of an operand.
pub fn word_of(a: Argument) -> Option<Item>
    ensures { result ≡ word_of a }
{
    match a {
        Argument::In(_) | Argument::At(_) | Argument::Increment(_) | Argument::Decrement(_) => None,
        Argument::Indexed(item, _)
        | Argument::IndexedAt(item, _)
        | Argument::Immediate(item)
        | Argument::Absolute(item) => Some(item),
    }
}

/// An instruction of two operands.
pub fn two(code: Word, source: Argument, target: Argument) -> Line
    requires { code ≤ 0o160000 }
    ensures { result ≡ two code source target }
{
    Line {
        word: code + (64 * mode_of(source) + mode_of(target)),
        source: word_of(source),
        target: word_of(target),
    }
}

/// An instruction of one operand.
pub fn one(code: Word, target: Argument) -> Line
    requires { code ≤ 0o160000 }
    ensures { result ≡ one code target }
{
    Line {
        word: code + mode_of(target),
        source: None,
        target: word_of(target),
    }
}

/// An instruction of a register and an operand.
pub fn onto(code: Word, register: Register, source: Argument) -> Line
    requires { code ≤ 0o160000 }
    ensures { result ≡ onto code register source }
{
    Line {
        word: code + (64 * register_number(register) + mode_of(source)),
        source: word_of(source),
        target: None,
    }
}

/// An instruction without operands that have words of their own.
pub fn bare(word: Word) -> Line
    ensures { result ≡ bare word }
{
    Line {
        word,
        source: None,
        target: None,
    }
}
