// The operands and the short lists of instructions that templates are made of.

ghost use Rattle.std.specs.Prelude.{◌≡◌, ◌≤◌, ◌<◌, ◌+◌, ◌∷◌, [], IfOk};
ghost use Rattle.mc_expand.specs.Templates.{register_of, value, word_at, number, address, pushed, popped, doubled, cell, operand_of, trap, jump, check, truth, jump_unless, enters};

use crate::line::{Argument, Item, Line, Register, bare, one, two};
use mc_pcode::instruction::{Cell, Operand, Value};
use mc_word::Word;
use mc_word::bytes::Memory;
use std::alloc::Global;

pub const MOV: Word = 0o010000;

pub const CMP: Word = 0o020000;

pub const BIT: Word = 0o030000;

pub const BIC: Word = 0o040000;

pub const BIS: Word = 0o050000;

pub const ADD: Word = 0o060000;

pub const SUB: Word = 0o160000;

pub const CLR: Word = 0o005000;

pub const COM: Word = 0o005100;

pub const NEG: Word = 0o005400;

pub const TST: Word = 0o005700;

pub const SXT: Word = 0o006700;

pub const JMP: Word = 0o000100;

pub const MUL: Word = 0o070000;

pub const DIV: Word = 0o071000;

pub const ASH: Word = 0o072000;

pub const EXCLUSIVE_OR: Word = 0o074000;

pub const JSR: Word = 0o004000;

pub const BR: Word = 0o000400;

pub const BNE: Word = 0o001000;

pub const BEQ: Word = 0o001400;

pub const BGE: Word = 0o002000;

pub const BLT: Word = 0o002400;

pub const BGT: Word = 0o003000;

pub const BLE: Word = 0o003400;

pub const BPL: Word = 0o100000;

pub const BVC: Word = 0o102000;
/// Also known as BHIS.
pub const BCC: Word = 0o103000;

pub const EMT: Word = 0o104000;
/// SOB of R5, two words back.
pub const SOB: Word = 0o077502;
/// The address of the processor status.
pub const PS_AT: Word = 0o177776;

pub const R0: Argument = Argument::In(Register::R0);

pub const R1: Argument = Argument::In(Register::R1);

pub const R4: Argument = Argument::In(Register::R4);

pub const R5: Argument = Argument::In(Register::R5);

pub const SP: Argument = Argument::In(Register::Sp);

pub const PUSHED: Argument = Argument::Decrement(Register::Sp);

pub const POPPED: Argument = Argument::Increment(Register::Sp);

// The register that holds a value.
fn register_of(v: Value) -> Register
    ensures { result ≡ register_of v }
{
    match v {
        Value::V0 => Register::R0,
        Value::V1 => Register::R1,
        Value::V2 => Register::R2,
        Value::V3 => Register::R3,
    }
}

/// A value.
pub fn value(v: Value) -> Argument
    ensures { result ≡ value v }
{
    Argument::In(register_of(v))
}

/// The word whose address a value holds.
pub fn word_at(v: Value) -> Argument
    ensures { result ≡ word_at v }
{
    Argument::At(register_of(v))
}

/// A number.
pub fn number(n: Word) -> Argument
    ensures { result ≡ number n }
{
    Argument::Immediate(Item::Plain(n))
}

/// The word at an address.
pub fn address(a: Word) -> Argument
    ensures { result ≡ address a }
{
    Argument::Absolute(Item::Plain(a))
}

/// So many words in bytes, modulo 65536.
pub fn doubled(n: u32) -> Word
    ensures { result ≡ doubled n }
{
    (n % 32768 * 2) as Word
}

/// A word that an instruction of process code names.
pub fn cell(c: Cell) -> Argument
    ensures { result ≡ cell c }
{
    match c {
        Cell::Global(n) => Argument::Absolute(Item::Data(n)),
        Cell::Local(n) => Argument::Indexed(Item::Plain(doubled(n)), Register::R4),
        Cell::Through(n) => Argument::IndexedAt(Item::Plain(doubled(n)), Register::R4),
    }
}

/// What an instruction of process code takes.
pub fn operand_of(x: Operand) -> Argument
    ensures { result ≡ operand_of x }
{
    match x {
        Operand::Const(w) => number(w),
        Operand::Value(v) => value(v),
        Operand::Cell(c) => cell(c),
    }
}

/// TRAP with this number.
pub fn trap(n: Word) -> Line
    requires { n < 256 }
    ensures { result ≡ trap n }
{
    bare(0o104400 + n)
}

/// JMP to a place of process code.
pub fn jump(place: u16) -> Line
    ensures { result ≡ jump place }
{
    one(JMP, Argument::Absolute(Item::Place(place)))
}

/// One line.
pub fn single(alloc: Global, line: Line) -> Result<Vec<Line>, Memory>
    ensures { IfOk result (λ lines. lines.items ≡ line ∷ []) }
{
    Ok(vec![in alloc; line]?)
}

/// An instruction behind which the trap comes where the branch is not taken.
pub fn check(alloc: Global, test: Line, holds: Word, n: Word) -> Result<Vec<Line>, Memory>
    requires branch { holds ≤ 0o103000 }
    requires number { n < 256 }
    ensures { IfOk result (λ lines. lines.items ≡ check test holds n) }
{
    Ok(vec![in alloc; test, bare(holds + 1), trap(n)]?)
}

/// 1 in the value where the branch is taken, else 0.
pub fn truth(alloc: Global, test: Line, holds: Word, v: Value) -> Result<Vec<Line>, Memory>
    requires { holds ≤ 0o103000 }
    ensures { IfOk result (λ lines. lines.items ≡ truth test holds v) }
{
    let yes = two(MOV, number(1), value(v));
    Ok(vec![in alloc;
        test,
        bare(holds + 2),
        one(CLR, value(v)),
        bare(BR + 2),
        yes,
    ]?)
}

/// To the place where the branch over the jump is not taken.
pub fn jump_unless(alloc: Global, test: Line, over: Word, place: u16) -> Result<Vec<Line>, Memory>
    requires { over ≤ 0o103000 }
    ensures { IfOk result (λ lines. lines.items ≡ jump_unless test over place) }
{
    Ok(vec![in alloc; test, bare(over + 2), jump(place)]?)
}

/// The kernel's entry of this address is entered.
pub fn enters(alloc: Global, entry: Word) -> Result<Vec<Line>, Memory>
    ensures { IfOk result (λ lines. lines.items ≡ enters entry) }
{
    Ok(vec![in alloc; two(MOV, number(entry), R5), bare(EMT)]?)
}
