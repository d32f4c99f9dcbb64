// The table of instructions, and the instruction at PC.

ghost use Rattle.std.specs.Prelude.{◌≡◌, ◌<◌, ◌≤◌, ◌+◌, Some, false, IfOk, IfErr, OnErr};
ghost use Rattle.arrayvec.specs.ArrayVec.{array_vec_len};
ghost use Rattle.pdp_def.specs.Does.{bus, Kept};
ghost use Rattle.pdp_def.specs.Perform.{row, performs, attempt, effect};

use crate::compute::{added_codes, cleared_codes};
use crate::control::{branches, calls, counts_down, jumps, resumes, returns};
use crate::grant::traps;
use crate::locate::next_word;
use crate::operands::{alters, clears, combines, compares, extends, moves, set_codes, tests};
use crate::registers::{combines_register, computes_even_pair, computes_pair, shifts};
use arrayvec::ArrayVec;
use mc_word::Word;
use pdp_def::operation::BinaryOperation::{And, AndNot, Compare, Minus, Or, Plus};
use pdp_def::operation::Condition::{
    Always, CarryClear, CarrySet, Equal, Greater, GreaterOrEqual, Higher, Less, LessOrEqual,
    LowerOrSame, Negative, NotEqual, NotNegative, OverflowClear, OverflowSet,
};
use pdp_def::operation::PairOperation::{Divide, Multiply, Shift};
use pdp_def::operation::UnaryOperation::{
    AddCarry, Complement, Decrement, Increment, Negate, RotateLeft, RotateRight, ShiftLeft,
    ShiftRight, SubtractCarry, SwapBytes,
};
use pdp_def::operation::Width;
use pdp_def::outcome::Outcome;
use pdp_def::processor::Core;
use pdp_dev::devices::Devices;
use pdp_dev::entry::Entry;
use pdp_isa::instr::Instr;
use pdp_isa::table::decode;

const BYTE: Width = Width::Byte;

const WORD: Width = Width::Word;

// One instruction: an arm for each row of the table.
#[tactic(auto, unfolding(pdp_def::specs::Perform::row))]
fn row(
    core: &mut Core,
    devices: &mut Devices,
    said: &mut ArrayVec<Entry, 8>,
    w: Word,
    instruction: Instr,
) -> Result<Outcome, Outcome>
    requires room { array_vec_len said.old ≤ 6 }
    ensures ok { IfOk result (λ o. row w (Some instruction) (bus core.old devices.old said.old.items) ≡ Ok (record { value = o; bus = bus core.new devices.new said.new.items })) }
    ensures err { IfErr result (λ stop. row w (Some instruction) (bus core.old devices.old said.old.items) ≡ Err stop) }
    ensures same { OnErr result (Kept core.old core.new × (said.new.items ≡ said.old.items)) }
{
    match instruction {
        Instr::Mov { source, target } => moves(core, devices, said, WORD, source, target),
        Instr::MovByte { source, target } => moves(core, devices, said, BYTE, source, target),
        Instr::Cmp { source, target } => compares(core, devices, Compare, WORD, source, target),
        Instr::CmpByte { source, target } => compares(core, devices, Compare, BYTE, source, target),
        Instr::Bit { source, target } => compares(core, devices, And, WORD, source, target),
        Instr::BitByte { source, target } => compares(core, devices, And, BYTE, source, target),
        Instr::Bic { source, target } => combines(
            core, devices, said, AndNot, WORD, source, target,
        ),
        Instr::BicByte { source, target } => combines(
            core, devices, said, AndNot, BYTE, source, target,
        ),
        Instr::Bis { source, target } => combines(core, devices, said, Or, WORD, source, target),
        Instr::BisByte { source, target } => combines(
            core, devices, said, Or, BYTE, source, target,
        ),
        Instr::Add { source, target } => combines(core, devices, said, Plus, WORD, source, target),
        Instr::Sub { source, target } => combines(core, devices, said, Minus, WORD, source, target),
        Instr::Clr { target } => clears(core, devices, said, WORD, target),
        Instr::ClrByte { target } => clears(core, devices, said, BYTE, target),
        Instr::Com { target } => alters(core, devices, said, Complement, WORD, target),
        Instr::ComByte { target } => alters(core, devices, said, Complement, BYTE, target),
        Instr::Inc { target } => alters(core, devices, said, Increment, WORD, target),
        Instr::IncByte { target } => alters(core, devices, said, Increment, BYTE, target),
        Instr::Dec { target } => alters(core, devices, said, Decrement, WORD, target),
        Instr::DecByte { target } => alters(core, devices, said, Decrement, BYTE, target),
        Instr::Neg { target } => alters(core, devices, said, Negate, WORD, target),
        Instr::NegByte { target } => alters(core, devices, said, Negate, BYTE, target),
        Instr::Adc { target } => alters(core, devices, said, AddCarry, WORD, target),
        Instr::AdcByte { target } => alters(core, devices, said, AddCarry, BYTE, target),
        Instr::Sbc { target } => alters(core, devices, said, SubtractCarry, WORD, target),
        Instr::SbcByte { target } => alters(core, devices, said, SubtractCarry, BYTE, target),
        Instr::Tst { target } => tests(core, devices, WORD, target),
        Instr::TstByte { target } => tests(core, devices, BYTE, target),
        Instr::Ror { target } => alters(core, devices, said, RotateRight, WORD, target),
        Instr::RorByte { target } => alters(core, devices, said, RotateRight, BYTE, target),
        Instr::Rol { target } => alters(core, devices, said, RotateLeft, WORD, target),
        Instr::RolByte { target } => alters(core, devices, said, RotateLeft, BYTE, target),
        Instr::Asr { target } => alters(core, devices, said, ShiftRight, WORD, target),
        Instr::AsrByte { target } => alters(core, devices, said, ShiftRight, BYTE, target),
        Instr::Asl { target } => alters(core, devices, said, ShiftLeft, WORD, target),
        Instr::AslByte { target } => alters(core, devices, said, ShiftLeft, BYTE, target),
        Instr::Sxt { target } => extends(core, devices, said, target),
        Instr::Swab { target } => alters(core, devices, said, SwapBytes, WORD, target),
        Instr::Xor { register, target } => combines_register(core, devices, said, register, target),
        Instr::Mul { register, source } => computes_pair(core, devices, Multiply, register, source),
        Instr::Div { register, source } => computes_even_pair(
            core, devices, w, Divide, register, source,
        ),
        Instr::Ash { register, source } => shifts(core, devices, register, source),
        Instr::Ashc { register, source } => computes_even_pair(
            core, devices, w, Shift, register, source,
        ),
        Instr::Sob { register, offset } => counts_down(core, register, offset),
        Instr::Jmp { target } => jumps(core, devices, w, target),
        Instr::Jsr { register, target } => calls(core, devices, said, w, register, target),
        Instr::Rts { register } => returns(core, devices, register),
        Instr::Rti => resumes(core, devices),
        Instr::Rtt => resumes(core, devices),
        Instr::Halt => Ok(Outcome::Halt),
        Instr::Wait => {
            core.set_waiting(true);
            Ok(Outcome::Idle)
        },
        Instr::Reset => {
            devices.reset();
            Ok(Outcome::Ran)
        },
        Instr::Bpt => traps(core, devices, said, 0o14),
        Instr::Iot => traps(core, devices, said, 0o20),
        Instr::Emt { code: _ } => traps(core, devices, said, 0o30),
        Instr::Trap { code: _ } => traps(core, devices, said, 0o34),
        Instr::ClearCodes { mask } => {
            let ps = core.ps();
            set_codes(core, cleared_codes(mask.value, ps));
            Ok(Outcome::Ran)
        },
        Instr::SetCodes { mask } => {
            let ps = core.ps();
            set_codes(core, added_codes(mask.value, ps));
            Ok(Outcome::Ran)
        },
        Instr::Br { offset } => branches(core, Always, offset),
        Instr::Bne { offset } => branches(core, NotEqual, offset),
        Instr::Beq { offset } => branches(core, Equal, offset),
        Instr::Bge { offset } => branches(core, GreaterOrEqual, offset),
        Instr::Blt { offset } => branches(core, Less, offset),
        Instr::Bgt { offset } => branches(core, Greater, offset),
        Instr::Ble { offset } => branches(core, LessOrEqual, offset),
        Instr::Bpl { offset } => branches(core, NotNegative, offset),
        Instr::Bmi { offset } => branches(core, Negative, offset),
        Instr::Bhi { offset } => branches(core, Higher, offset),
        Instr::Blos { offset } => branches(core, LowerOrSame, offset),
        Instr::Bvc { offset } => branches(core, OverflowClear, offset),
        Instr::Bvs { offset } => branches(core, OverflowSet, offset),
        Instr::Bcc { offset } => branches(core, CarryClear, offset),
        Instr::Bcs { offset } => branches(core, CarrySet, offset),
    }
}

// The instruction of this word.
#[tactic(auto, unfolding(pdp_def::specs::Perform::performs, pdp_def::specs::Perform::row))]
fn performs(
    core: &mut Core,
    devices: &mut Devices,
    said: &mut ArrayVec<Entry, 8>,
    w: Word,
) -> Result<Outcome, Outcome>
    requires room { array_vec_len said.old ≤ 6 }
    ensures ok { IfOk result (λ o. performs w (bus core.old devices.old said.old.items) ≡ Ok (record { value = o; bus = bus core.new devices.new said.new.items })) }
    ensures err { IfErr result (λ stop. performs w (bus core.old devices.old said.old.items) ≡ Err stop) }
    ensures same { OnErr result (Kept core.old core.new × (said.new.items ≡ said.old.items)) }
{
    match decode(w) {
        Some(instruction) => row(core, devices, said, w, instruction),
        None => Err(Outcome::Reserved(w)),
    }
}

// The instruction at PC, where a fault may leave the devices and the registers changed.
#[tactic(auto, unfolding(pdp_def::specs::Perform::attempt))]
fn attempt(
    core: &mut Core,
    devices: &mut Devices,
    said: &mut ArrayVec<Entry, 8>,
) -> Result<Outcome, Outcome>
    requires room { array_vec_len said.old ≤ 6 }
    ensures ok { IfOk result (λ o. attempt (bus core.old devices.old said.old.items) ≡ Ok (record { value = o; bus = bus core.new devices.new said.new.items })) }
    ensures err { IfErr result (λ stop. attempt (bus core.old devices.old said.old.items) ≡ Err stop) }
    ensures same { OnErr result (Kept core.old core.new × (said.new.items ≡ said.old.items)) }
{
    let w = next_word(core, devices)?;
    performs(core, devices, said, w)
}

/// Executes the instruction at PC: `Idle` exactly for WAIT, `Halt` exactly for HALT, `BusFault` at the first
/// bad address that it meets, `Reserved` at a word that is no instruction; at the last two nothing changes.
#[tactic(auto, unfolding(pdp_def::specs::Perform::effect))]
pub fn execute(core: &mut Core, devices: &mut Devices, said: &mut ArrayVec<Entry, 8>) -> Outcome
    requires running { core.old.waiting ≡ false }
    requires room { array_vec_len said.old ≤ 6 }
    ensures effect { effect core.old devices.old said.old.items ≡ record { value = result; bus = bus core.new devices.new said.new.items } }
{
    let devices_before = *devices;
    let registers_before = core.registers();
    match attempt(core, devices, said) {
        Ok(outcome) => outcome,
        Err(stop) => {
            *devices = devices_before;
            core.set_registers(registers_before);
            stop
        }
    }
}
