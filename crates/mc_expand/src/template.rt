// The instructions of the machine that stand for one of process code.

ghost use Rattle.std.specs.Prelude.{◌≡◌, ◌<◌, ◌≤◌, IfOk, slice_get};
ghost use Rattle.mc_pcode.specs.Code.{ProcessCode};
ghost use Rattle.mc_expand.specs.Templates.{address_of, read_register, bit_test, bit_put, operand_words, index, multiply, divide, branch_of, returns, priority_in, status_of, params_of_process, params_of, starts, copies, clears, and, xor, enter, wait, template};

use crate::line::{Argument, Item, Line, Register, bare, one, onto, two, word_of};
use crate::parts::{
    ADD, ASH, BCC, BEQ, BGE, BGT, BIC, BIS, BIT, BLE, BLT, BNE, BPL, BR, BVC, CLR, CMP, COM, DIV,
    EMT, EXCLUSIVE_OR, JMP, JSR, MOV, MUL, NEG, POPPED, PS_AT, PUSHED, R0, R1, R4, R5, SOB, SP,
    SUB, SXT, TST, address, cell, check, doubled, enters, jump, jump_unless, number, operand_of,
    single, trap, truth, value, word_at,
};
use mc_kernel::listing::{DOIO, END, SEND, START, WAIT};
use mc_pcode::instruction::{Cell, Operand, PInstr, Value};
use mc_pcode::program::{PEntry, PProcess, PProgram};
use mc_tree::expression::Relation;
use mc_word::Word;
use mc_word::bytes::Memory;
use std::alloc::Global;

// The address of a cell.
fn address_of(alloc: Global, c: Cell, v: Value) -> Result<Vec<Line>, Memory>
    ensures { IfOk result (λ lines. lines.items ≡ address_of c v) }
{
    match c {
        Cell::Global(n) => single(
            alloc,
            two(MOV, Argument::Immediate(Item::Data(n)), value(v)),
        ),
        Cell::Local(n) => {
            let add = two(ADD, number(doubled(n)), value(v));
            Ok(vec![in alloc; two(MOV, R4, value(v)), add]?)
        }
        Cell::Through(n) => single(alloc, two(MOV, cell(Cell::Local(n)), value(v))),
    }
}

// The bits of a mask in a register.
fn read_register(alloc: Global, a: Word, mask: Word, v: Value) -> Result<Vec<Line>, Memory>
    ensures { IfOk result (λ lines. lines.items ≡ read_register a mask v) }
{
    let read = two(MOV, address(a), value(v));
    if mask == 0o177777 {
        single(alloc, read)
    } else {
        Ok(vec![in alloc; read, two(BIC, number(0o177777 - mask), value(v))]?)
    }
}

// The bit whose number the value holds.
fn bit_test(alloc: Global, x: Operand, i: Value) -> Result<Vec<Line>, Memory>
    ensures { IfOk result (λ lines. lines.items ≡ bit_test x i) }
{
    Ok(vec![in alloc;
        two(MOV, number(1), R5),
        onto(ASH, Register::R5, value(i)),
        two(BIT, R5, operand_of(x)),
        bare(BNE + 2),
        one(CLR, value(i)),
        bare(BR + 2),
        two(MOV, number(1), value(i)),
    ]?)
}

// How many words an instruction with this one operand has.
fn operand_words(item: Option<Item>) -> Word
    ensures value { result ≡ operand_words item }
    ensures below { result < 3 }
{
    match item {
        None => 1,
        Some(_) => 2,
    }
}

// One instruction reads and writes the word.
fn bit_put(alloc: Global, word: Argument, i: Value, b: Value) -> Result<Vec<Line>, Memory>
    ensures { IfOk result (λ lines. lines.items ≡ bit_put word i b) }
{
    let size = operand_words(word_of(word));
    Ok(vec![in alloc;
        two(MOV, number(1), R5),
        onto(ASH, Register::R5, value(i)),
        one(TST, value(b)),
        bare(BEQ + (size + 1)),
        two(BIS, R5, word),
        bare(BR + size),
        two(BIC, R5, word),
    ]?)
}

// The address in the value moves to the element, or trap 1 comes.
fn index(
    alloc: Global,
    low: i16,
    high: i16,
    size: u16,
    i: Value,
    v: Value,
) -> Result<Vec<Line>, Memory>
    ensures { IfOk result (λ lines. lines.items ≡ index low high size i v) }
{
    let low = number(low.cast_unsigned());
    let high = number(high.cast_unsigned());
    Ok(vec![in alloc;
        two(CMP, value(i), low),
        bare(BGE + 1),
        trap(1),
        two(CMP, value(i), high),
        bare(BLE + 1),
        trap(1),
        two(MOV, value(i), R5),
        two(SUB, low, R5),
        onto(MUL, Register::R5, number(doubled(u32::from(size)))),
        two(ADD, R5, value(v)),
    ]?)
}

// The product, or trap 2.
fn multiply(alloc: Global, x: Operand, v: Value) -> Result<Vec<Line>, Memory>
    ensures { IfOk result (λ lines. lines.items ≡ multiply x v) }
{
    Ok(vec![in alloc;
        two(MOV, value(v), R5),
        onto(MUL, Register::R5, operand_of(x)),
        bare(BCC + 1),
        trap(2),
        two(MOV, R5, value(v)),
    ]?)
}

// The quotient or the remainder, or traps 2 and 3.
fn divide(alloc: Global, x: Operand, v: Value, from: Register) -> Result<Vec<Line>, Memory>
    ensures { IfOk result (λ lines. lines.items ≡ divide x v from) }
{
    Ok(vec![in alloc;
        two(MOV, operand_of(x), PUSHED),
        bare(BNE + 1),
        trap(3),
        two(MOV, R4, PUSHED),
        two(MOV, value(v), R5),
        one(SXT, R4),
        onto(
            DIV,
            Register::R4,
            Argument::Indexed(Item::Plain(2), Register::Sp)
        ),
        bare(BVC + 1),
        trap(2),
        two(MOV, Argument::In(from), value(v)),
        two(MOV, POPPED, R4),
        one(TST, POPPED),
    ]?)
}

// The branch that is taken where the relation holds.
fn branch_of(r: Relation) -> Word
    ensures value { result ≡ branch_of r }
    ensures small { result ≤ 0o3400 }
{
    match r {
        Relation::Equal => BEQ,
        Relation::Unequal => BNE,
        Relation::Less => BLT,
        Relation::LessEqual => BLE,
        Relation::Greater => BGT,
        Relation::GreaterEqual => BGE,
    }
}

// The activation of an entry goes.
fn returns(alloc: Global, entries: &[PEntry], e: u16) -> Result<Vec<Line>, Memory>
    ensures { IfOk result (λ lines. lines.items ≡ returns (slice_get entries.now e)) }
{
    match entries.get(e as usize) {
        None => Ok(Vec::new(alloc)),
        Some(e) => Ok(vec![in alloc;
            two(ADD, number(doubled(e.locals)), SP),
            two(MOV, POPPED, R5),
            two(MOV, POPPED, R4),
            two(ADD, number(doubled(e.params)), SP),
            one(JMP, Argument::At(Register::R5)),
        ]?),
    }
}

// The processor status with the priority of a module.
fn status_in(priorities: &[u16], m: u16) -> Word
    ensures { result ≡ status_of (priority_in (slice_get priorities.now m)) }
{
    match priorities.get(m as usize) {
        None => 0,
        Some(p) => *p % 8 * 32,
    }
}

// How many words are handed to an entry.
fn params_of(entries: &[PEntry], q: &PProcess) -> u32
    ensures { result ≡ params_of (slice_get entries.now q.now.entry) }
{
    match entries.get(q.entry as usize) {
        None => 0,
        Some(e) => e.params,
    }
}

// How many words are handed to a process.
fn params_of_process(entries: &[PEntry], processes: &[PProcess], q: u16) -> u32
    ensures { result ≡ params_of_process entries.now (slice_get processes.now q) }
{
    match processes.get(q as usize) {
        None => 0,
        Some(q) => params_of(entries, q),
    }
}

// A process is started, and its parameters are taken off the stack.
fn starts(alloc: Global, q: u16, params: u32) -> Result<Vec<Line>, Memory>
    ensures { IfOk result (λ lines. lines.items ≡ starts q params) }
{
    Ok(vec![in alloc;
        two(MOV, Argument::Immediate(Item::Record(q)), R0),
        two(MOV, number(START), R5),
        bare(EMT),
        two(ADD, number(doubled(params)), SP),
    ]?)
}

// So many times a word from where R1 leads to where R0 leads.
fn copies(alloc: Global, k: u16) -> Result<Vec<Line>, Memory>
    ensures { IfOk result (λ lines. lines.items ≡ copies k) }
{
    let copy = two(
        MOV,
        Argument::Increment(Register::R1),
        Argument::Increment(Register::R0),
    );
    Ok(vec![in alloc; two(MOV, number(k), R5), copy, bare(SOB)]?)
}

// So many words of the activation are zero.
fn clears(alloc: Global, k: u16) -> Result<Vec<Line>, Memory>
    ensures { IfOk result (λ lines. lines.items ≡ clears k) }
{
    let clear = one(CLR, Argument::Increment(Register::R0));
    Ok(vec![in alloc; two(MOV, R4, R0), two(MOV, number(k), R5), clear, bare(SOB)]?)
}

// The bits that both have.
fn and(alloc: Global, x: Operand, v: Value) -> Result<Vec<Line>, Memory>
    ensures { IfOk result (λ lines. lines.items ≡ and x v) }
{
    Ok(vec![in alloc;
        two(MOV, operand_of(x), R5),
        one(COM, R5),
        two(BIC, R5, value(v)),
    ]?)
}

// The bits that one of both has.
fn xor(alloc: Global, x: Operand, v: Value) -> Result<Vec<Line>, Memory>
    ensures { IfOk result (λ lines. lines.items ≡ xor x v) }
{
    Ok(vec![in alloc;
        two(MOV, operand_of(x), R5),
        onto(EXCLUSIVE_OR, Register::R5, value(v)),
    ]?)
}

// The processor status is put by and becomes this one.
fn enter(alloc: Global, status: Word) -> Result<Vec<Line>, Memory>
    ensures { IfOk result (λ lines. lines.items ≡ enter status) }
{
    Ok(vec![in alloc;
        two(MOV, address(PS_AT), PUSHED),
        two(MOV, number(status), address(PS_AT)),
    ]?)
}

// A process of a program is started.
fn start(alloc: Global, p: &PProgram, q: u16) -> Result<Vec<Line>, Memory>
    ensures { IfOk result (λ lines. lines.items ≡ starts q (params_of_process p.now.entries (slice_get p.now.processes q))) }
{
    let params = params_of_process(p.entries.as_slice(), p.processes.as_slice(), q);
    starts(alloc, q, params)
}

// The rank is looked at, and the kernel entered.
fn wait(alloc: Global) -> Result<Vec<Line>, Memory>
    ensures { IfOk result (λ lines. lines.items ≡ wait) }
{
    Ok(vec![in alloc;
        one(TST, R1),
        bare(BPL + 1),
        trap(5),
        two(MOV, number(WAIT), R5),
        bare(EMT),
    ]?)
}

/// The instructions of the machine that stand for one of process code, in a program whose entries, processes and
/// priorities it may name by their numbers.
pub fn template(alloc: Global, p: &PProgram, i: &PInstr) -> Result<Vec<Line>, Memory>
    ensures { IfOk result (λ lines. lines.items ≡ template p.now i.now) }
{
    match *i {
        PInstr::Move(x, v) => single(alloc, two(MOV, operand_of(x), value(v))),
        PInstr::Store(x, c) => single(alloc, two(MOV, operand_of(x), cell(c))),
        PInstr::Push(v) => single(alloc, two(MOV, value(v), PUSHED)),
        PInstr::Pop(v) => single(alloc, two(MOV, POPPED, value(v))),
        PInstr::Address(c, v) => address_of(alloc, c, v),
        PInstr::LoadAt(u, v) => single(alloc, two(MOV, word_at(u), value(v))),
        PInstr::StoreAt(x, v) => single(alloc, two(MOV, operand_of(x), word_at(v))),
        PInstr::CopyAt(k) => copies(alloc, k),
        PInstr::ReadRegister(a, mask, v) => read_register(alloc, a, mask, v),
        PInstr::WriteRegister(x, a) => single(alloc, two(MOV, operand_of(x), address(a))),
        PInstr::BitTest(x, i) => bit_test(alloc, x, i),
        PInstr::BitPut(c, i, b) => bit_put(alloc, cell(c), i, b),
        PInstr::BitPutAt(v, i, b) => bit_put(alloc, word_at(v), i, b),
        PInstr::BitPutRegister(a, i, b) => bit_put(alloc, address(a), i, b),
        PInstr::Index(low, high, size, i, v) => index(alloc, low, high, size, i, v),
        PInstr::BitIndex(v) => check(alloc, two(BIT, number(0o177760), value(v)), BEQ, 1),
        PInstr::Field(k, v) => single(alloc, two(ADD, number(doubled(u32::from(k))), value(v))),
        PInstr::Add(x, v) => check(alloc, two(ADD, operand_of(x), value(v)), BVC, 2),
        PInstr::Subtract(x, v) => check(alloc, two(SUB, operand_of(x), value(v)), BVC, 2),
        PInstr::Multiply(x, v) => multiply(alloc, x, v),
        PInstr::Divide(x, v) => divide(alloc, x, v, Register::R4),
        PInstr::Modulo(x, v) => divide(alloc, x, v, Register::R5),
        PInstr::Negate(v) => check(alloc, one(NEG, value(v)), BVC, 2),
        PInstr::And(x, v) => and(alloc, x, v),
        PInstr::Or(x, v) => single(alloc, two(BIS, operand_of(x), value(v))),
        PInstr::Xor(x, v) => xor(alloc, x, v),
        PInstr::NotBits(v) => single(alloc, one(COM, value(v))),
        PInstr::Not(v) => truth(alloc, one(TST, value(v)), BEQ, v),
        PInstr::Compare(r, x, v) => truth(
            alloc,
            two(CMP, value(v), operand_of(x)),
            branch_of(r),
            v,
        ),
        PInstr::ToChar(v) => check(alloc, two(BIT, number(0o177400), value(v)), BEQ, 6),
        PInstr::Jump(l) => single(alloc, jump(l)),
        PInstr::JumpFalse(v, l) => jump_unless(alloc, one(TST, value(v)), BNE, l),
        PInstr::JumpTrue(v, l) => jump_unless(alloc, one(TST, value(v)), BEQ, l),
        PInstr::CaseTest(w, v, l) => jump_unless(alloc, two(CMP, value(v), number(w)), BNE, l),
        PInstr::TrapNow(n) => single(alloc, trap(n % 256)),
        PInstr::Argument(x) => single(alloc, two(MOV, operand_of(x), PUSHED)),
        PInstr::Call(e) => single(
            alloc,
            onto(JSR, Register::R4, Argument::Absolute(Item::Entry(e))),
        ),
        PInstr::Return(e) => returns(alloc, p.entries.as_slice(), e),
        PInstr::ZeroLocal(k) => clears(alloc, (k % 65536) as u16),
        PInstr::Result(x) => single(alloc, two(MOV, operand_of(x), R0)),
        PInstr::Enter(m) => enter(alloc, status_in(p.priorities.as_slice(), m)),
        PInstr::Leave(_) => single(alloc, two(MOV, POPPED, address(PS_AT))),
        PInstr::Start(q) => start(alloc, p, q),
        PInstr::Wait => wait(alloc),
        PInstr::Send => enters(alloc, SEND),
        PInstr::Awaited(v) => truth(alloc, one(TST, word_at(v)), BNE, v),
        PInstr::Doio => enters(alloc, DOIO),
        PInstr::EndProcess => enters(alloc, END),
    }
}
