// The instructions of process code, and what their parts name.

use mc_tree::expression::Relation;
use mc_word::Word;

/// One of the four values that a process computes with. It holds a word or an address, or is missing.
#[derive(Clone, Copy, PartialEq, Eq, Debug)]
pub enum Value {
    V0,
    V1,
    V2,
    V3,
}

/// A word that an instruction names.
#[derive(Clone, Copy, PartialEq, Eq, Debug)]
pub enum Cell {
    /// A word that all processes share, by its number: a data word, or behind these a word of a text.
    Global(u16),
    /// A word of the activation that runs, by its number: its locals, then two that are never named, then its parameters,
    /// the last one first.
    Local(u32),
    /// The word whose address this word of the activation holds.
    Through(u32),
}

/// What an instruction takes.
#[derive(Clone, Copy, PartialEq, Eq, Debug)]
pub enum Operand {
    Const(Word),
    Value(Value),
    Cell(Cell),
}

/// An instruction. What it takes stands before what it changes. A place is one in the code.
#[derive(Clone, Copy, PartialEq, Eq, Debug)]
pub enum PInstr {
    /// Puts what the operand holds into the value.
    Move(Operand, Value),
    /// Puts what the operand holds into the cell.
    Store(Operand, Cell),
    /// Puts the value aside, onto the stack.
    Push(Value),
    /// Takes back into the value what was put aside last.
    Pop(Value),
    /// Puts the address of the cell into the value.
    Address(Cell, Value),
    /// Reads the word whose address the first value holds into the second.
    LoadAt(Value, Value),
    /// Writes the operand at the address that the value holds.
    StoreAt(Operand, Value),
    /// Copies so many words, one a step and the lowest first: to the address in V0, from that in V1.
    CopyAt(u16),
    /// Reads the register of this address, and puts the bits of the mask into the value.
    ReadRegister(Word, Word, Value),
    /// Writes the operand into the register of this address.
    WriteRegister(Operand, Word),
    /// Puts a bit of the operand into the value, which holds the number of the bit.
    BitTest(Operand, Value),
    /// Writes a bit of the cell: the number of the bit, and the bit.
    BitPut(Cell, Value, Value),
    /// Writes a bit of the word at an address: the address, the number of the bit, and the bit.
    BitPutAt(Value, Value, Value),
    /// Writes a bit of the register of this address: the number of the bit, and the bit.
    BitPutRegister(Word, Value, Value),
    /// Goes on to an element: the bounds of the index, the words of an element, the value with the index, and the value
    /// with the address. An index outside the bounds traps 1.
    Index(i16, i16, u16, Value, Value),
    /// The number of a bit outside 0 to 15 traps 1.
    BitIndex(Value),
    /// Moves the address in the value so many words on.
    Field(u16, Value),
    /// Adds the operand to the value; past the integers it traps 2.
    Add(Operand, Value),
    /// Takes the operand from the value; past the integers it traps 2.
    Subtract(Operand, Value),
    /// Past the integers it traps 2.
    Multiply(Operand, Value),
    /// Divides the value by the operand; 0 traps 3, and past the integers it traps 2.
    Divide(Operand, Value),
    /// The rest of such a division; it traps alike.
    Modulo(Operand, Value),
    /// Past the integers it traps 2.
    Negate(Value),
    And(Operand, Value),
    Or(Operand, Value),
    Xor(Operand, Value),
    /// Turns every bit.
    NotBits(Value),
    /// 1 in place of 0, and 0 in place of any other word.
    Not(Value),
    /// 1 where the value has this relation to the operand, both as integers, else 0.
    Compare(Relation, Operand, Value),
    /// A word above 255 traps 6.
    ToChar(Value),
    /// Goes on at the place.
    Jump(u16),
    /// Goes on at the place where the value is 0.
    JumpFalse(Value, u16),
    /// Goes on at the place where the value is not 0.
    JumpTrue(Value, u16),
    /// Goes on at the place where the value is this word.
    CaseTest(Word, Value, u16),
    /// Traps with this number.
    TrapNow(u16),
    /// Puts what the operand holds onto the stack, as the next argument of a call or a start.
    Argument(Operand),
    /// Makes an activation of this entry, with its arguments.
    Call(u16),
    /// Ends the activation, which is one of this entry.
    Return(u16),
    /// Sets so many locals of the activation to zero, one a step, from the first one on.
    ZeroLocal(u32),
    /// Puts what the operand holds where the caller finds the result, in V0.
    Result(Operand),
    /// Puts the process's priority by, and takes that of this device module.
    Enter(u16),
    /// Takes the priority again that Enter has put by.
    Leave(u16),
    /// Starts this process, with its arguments.
    Start(u16),
    /// Waits on the signal whose address V0 holds, with the rank in V1.
    Wait,
    /// Sends to the signal whose address V0 holds.
    Send,
    /// 1 where a process waits on the signal whose address the value holds, else 0.
    Awaited(Value),
    Doio,
    EndProcess,
}
