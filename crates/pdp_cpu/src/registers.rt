// Instructions on a register and an operand, where the register is read last.

ghost use Rattle.std.specs.Prelude.{◌≡◌, ◌<◌, ◌≤◌, ◌+◌, ℕ, List, IfOk, IfErr, OnErr};
ghost use Rattle.arrayvec.specs.ArrayVec.{array_vec_len};
ghost use Rattle.pdp_dev.specs.declared.devices.Devices.{Devices};
ghost use Rattle.pdp_dev.specs.declared.entry.Entry.{Entry};
ghost use Rattle.pdp_def.specs.Does.{bus, Kept};
ghost use Rattle.pdp_def.specs.Operands.{IsPlace};
ghost use Rattle.pdp_def.specs.Perform.{combines_register, shifts, computes_pair, computes_even_pair};

use crate::compute::combined;
use crate::locate::{fetch, locate, put};
use crate::operands::{set_codes, sets};
use crate::signed::{paired, shifted_word};
use arrayvec::ArrayVec;
use mc_word::Word;
use pdp_def::operation::{BinaryOperation, PairOperation, Width};
use pdp_def::outcome::Outcome;
use pdp_def::processor::Core;
use pdp_dev::devices::Devices;
use pdp_dev::entry::Entry;
use pdp_isa::instr::Field;

/// XOR: the target and the register.
#[tactic(auto, unfolding(pdp_def::specs::Perform::combines_register))]
pub fn combines_register(
    core: &mut Core,
    devices: &mut Devices,
    said: &mut ArrayVec<Entry, 8>,
    register: Field<8>,
    target: Field<64>,
) -> Result<Outcome, Outcome>
    requires room { array_vec_len said.old < 8 }
    ensures ok { IfOk result (λ o. combines_register register.value target.value (bus core.old devices.old said.old.items) ≡ Ok (record { value = o; bus = bus core.new devices.new said.new.items })) }
    ensures err { IfErr result (λ stop. combines_register register.value target.value (bus core.old devices.old said.old.items) ≡ Err stop) }
    ensures same { OnErr result (Kept core.old core.new × (said.new.items ≡ said.old.items)) }
{
    let to = locate(core, devices, Width::Word, target.value)?;
    let b = fetch(core, devices, Width::Word, to)?;
    let a = core.register(usize::from(register.value));
    let c = core.ps() % 2 == 1;
    let x = combined(BinaryOperation::ExclusiveOr, Width::Word, a, b, c);
    put(core, devices, said, Width::Word, to, x.word)?;
    sets(core, to, x.codes);
    Ok(Outcome::Ran)
}

/// ASH: the register is shifted by the source.
#[tactic(auto, unfolding(pdp_def::specs::Perform::shifts))]
pub fn shifts(
    core: &mut Core,
    devices: &mut Devices,
    register: Field<8>,
    source: Field<64>,
) -> Result<Outcome, Outcome>
    ensures ok { (said : List Entry) → IfOk result (λ o. shifts register.value source.value (bus core.old devices.old said) ≡ Ok (record { value = o; bus = bus core.new devices.new said })) }
    ensures err { (said : List Entry) → IfErr result (λ stop. shifts register.value source.value (bus core.old devices.old said) ≡ Err stop) }
    ensures same { OnErr result (Kept core.old core.new) }
{
    let from = locate(core, devices, Width::Word, source.value)?;
    let s = fetch(core, devices, Width::Word, from)?;
    let x = shifted_word(core.register(usize::from(register.value)), s);
    core.set_register(usize::from(register.value), x.word);
    set_codes(core, x.codes);
    Ok(Outcome::Ran)
}

/// MUL, DIV and ASHC: the high word goes to the register and the low word to the odd register of its pair.
#[tactic(auto, unfolding(pdp_def::specs::Perform::computes_pair))]
pub fn computes_pair(
    core: &mut Core,
    devices: &mut Devices,
    operation: PairOperation,
    register: Field<8>,
    source: Field<64>,
) -> Result<Outcome, Outcome>
    ensures ok { (said : List Entry) → IfOk result (λ o. computes_pair operation register.value source.value (bus core.old devices.old said) ≡ Ok (record { value = o; bus = bus core.new devices.new said })) }
    ensures err { (said : List Entry) → IfErr result (λ stop. computes_pair operation register.value source.value (bus core.old devices.old said) ≡ Err stop) }
    ensures same { OnErr result (Kept core.old core.new) }
{
    let from = locate(core, devices, Width::Word, source.value)?;
    let s = fetch(core, devices, Width::Word, from)?;
    let partner = usize::from(register.value / 2 * 2 + 1);
    let high = core.register(usize::from(register.value));
    let low = core.register(partner);
    let x = paired(operation, high, low, s);
    core.set_register(usize::from(register.value), x.high);
    core.set_register(partner, x.low);
    set_codes(core, x.codes);
    Ok(Outcome::Ran)
}

/// DIV and ASHC: `Reserved` with the word itself where the register is odd (own).
#[tactic(auto, unfolding(pdp_def::specs::Perform::computes_even_pair))]
pub fn computes_even_pair(
    core: &mut Core,
    devices: &mut Devices,
    w: Word,
    operation: PairOperation,
    register: Field<8>,
    source: Field<64>,
) -> Result<Outcome, Outcome>
    ensures ok { (said : List Entry) → IfOk result (λ o. computes_even_pair w operation register.value source.value (bus core.old devices.old said) ≡ Ok (record { value = o; bus = bus core.new devices.new said })) }
    ensures err { (said : List Entry) → IfErr result (λ stop. computes_even_pair w operation register.value source.value (bus core.old devices.old said) ≡ Err stop) }
    ensures same { OnErr result (Kept core.old core.new) }
{
    if register.value % 2 == 1 {
        return Err(Outcome::Reserved(w));
    }
    computes_pair(core, devices, operation, register, source)
}
