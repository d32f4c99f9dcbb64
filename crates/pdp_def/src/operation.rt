// The operations that several rows of the instruction table share, as data.

use mc_word::Word;
use mc_word::word::Codes;

/// How much of a word an instruction works on. A byte form works on the low byte of a register, or on a byte of memory.
#[derive(Clone, Copy, PartialEq, Eq, Debug)]
pub enum Width {
    Byte,
    Word,
}

/// What is made of the values of a source and a target (DEC's Processor Handbook).
#[derive(Clone, Copy, PartialEq, Eq, Debug)]
pub enum BinaryOperation {
    /// CMP: the source less the target.
    Compare,
    /// BIT: the bits that both have.
    And,
    /// BIC: the target's bits that the source does not have.
    AndNot,
    /// BIS: the bits that one of them has.
    Or,
    /// XOR: the bits that exactly one of them has.
    ExclusiveOr,
    /// ADD: the sum.
    Plus,
    /// SUB: the target less the source.
    Minus,
}

/// What is made of a target's value (DEC's Processor Handbook).
#[derive(Clone, Copy, PartialEq, Eq, Debug)]
pub enum UnaryOperation {
    /// COM: each bit turns.
    Complement,
    /// INC.
    Increment,
    /// DEC.
    Decrement,
    /// NEG: 0 less the value.
    Negate,
    /// ADC: the value and the carry.
    AddCarry,
    /// SBC: the value less the carry.
    SubtractCarry,
    /// ROR: one place to the right; the carry comes in at the top.
    RotateRight,
    /// ROL: one place to the left; the carry comes in at the bottom.
    RotateLeft,
    /// ASR: one place to the right; the sign stays.
    ShiftRight,
    /// ASL: one place to the left; 0 comes in at the bottom.
    ShiftLeft,
    /// SWAB: the two bytes of a word change places.
    SwapBytes,
}

/// What is made of a register, its partner and a source (DEC's Processor Handbook).
#[derive(Clone, Copy, PartialEq, Eq, Debug)]
pub enum PairOperation {
    /// MUL: the product of the register and the source.
    Multiply,
    /// DIV: the quotient and the remainder of the pair by the source.
    Divide,
    /// ASHC: the pair, shifted by the source's low six bits.
    Shift,
}

/// What a branch tests in the condition codes (DEC's Processor Handbook).
#[derive(Clone, Copy, PartialEq, Eq, Debug)]
pub enum Condition {
    /// BR.
    Always,
    /// BNE: Z is clear.
    NotEqual,
    /// BEQ: Z is set.
    Equal,
    /// BGE: N equals V.
    GreaterOrEqual,
    /// BLT: N differs from V.
    Less,
    /// BGT: Z is clear, and N equals V.
    Greater,
    /// BLE: Z is set, or N differs from V.
    LessOrEqual,
    /// BPL: N is clear.
    NotNegative,
    /// BMI: N is set.
    Negative,
    /// BHI: C and Z are clear.
    Higher,
    /// BLOS: C or Z is set.
    LowerOrSame,
    /// BVC: V is clear.
    OverflowClear,
    /// BVS: V is set.
    OverflowSet,
    /// BCC: C is clear.
    CarryClear,
    /// BCS: C is set.
    CarrySet,
}

/// A result with the condition codes that it sets.
#[derive(Clone, Copy, PartialEq, Eq, Debug)]
pub struct Computed {
    pub word: Word,
    pub codes: Codes,
}

/// A result of two words with the condition codes that it sets.
#[derive(Clone, Copy, PartialEq, Eq, Debug)]
pub struct ComputedPair {
    pub high: Word,
    pub low: Word,
    pub codes: Codes,
}

/// A number after a shift by any count.
#[derive(Clone, Copy, PartialEq, Eq, Debug)]
pub struct Shifted {
    pub number: u64,
    /// The last bit that fell out; false where none did.
    pub out: bool,
    /// Whether the sign changed at any moment of the shift.
    pub changed: bool,
}
