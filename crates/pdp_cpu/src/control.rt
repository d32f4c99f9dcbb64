// Branches, jumps, subroutines, and the return from a routine that a trap or a grant entered.

ghost use Rattle.std.specs.Prelude.{◌≡◌, ◌<◌, ◌≤◌, ◌+◌, ℕ, List, IfOk, IfErr, OnErr};
ghost use Rattle.arrayvec.specs.ArrayVec.{array_vec_len};
ghost use Rattle.pdp_dev.specs.declared.devices.Devices.{Devices};
ghost use Rattle.pdp_dev.specs.declared.entry.Entry.{Entry};
ghost use Rattle.pdp_def.specs.Does.{bus, Kept};
ghost use Rattle.pdp_def.specs.Perform.{branches, counts_down, jumps, calls_at, calls, returns, resumes};

use crate::compute::holds;
use crate::locate::{address, pop, push};
use arrayvec::ArrayVec;
use mc_word::Word;
use mc_word::word::extend;
use pdp_def::operation::{Condition, Width};
use pdp_def::outcome::Outcome;
use pdp_def::processor::Core;
use pdp_dev::devices::Devices;
use pdp_dev::entry::Entry;
use pdp_isa::instr::Field;

/// A branch: where its test holds, PC goes on by twice the signed offset.
#[tactic(auto, unfolding(pdp_def::specs::Perform::branches))]
pub fn branches(
    core: &mut Core,
    condition: Condition,
    offset: Field<256>,
) -> Result<Outcome, Outcome>
    ensures ok { (d : Devices) (said : List Entry) → IfOk result (λ o. branches condition offset.value (bus core.old d said) ≡ Ok (record { value = o; bus = bus core.new d said })) }
    ensures err { (d : Devices) (said : List Entry) → IfErr result (λ stop. branches condition offset.value (bus core.old d said) ≡ Err stop) }
    ensures same { OnErr result (Kept core.old core.new) }
{
    if holds(condition, core.ps()) {
        let pc = u32::from(core.register(7));
        let to = pc + 2 * u32::from(extend(offset.value as u8));
        core.set_register(7, (to % 65536) as u16);
    }
    Ok(Outcome::Ran)
}

/// SOB: the register goes down by 1, and where it is not 0 then, PC goes back by twice the offset.
#[tactic(auto, unfolding(pdp_def::specs::Perform::counts_down))]
pub fn counts_down(
    core: &mut Core,
    register: Field<8>,
    offset: Field<64>,
) -> Result<Outcome, Outcome>
    ensures ok { (d : Devices) (said : List Entry) → IfOk result (λ o. counts_down register.value offset.value (bus core.old d said) ≡ Ok (record { value = o; bus = bus core.new d said })) }
    ensures err { (d : Devices) (said : List Entry) → IfErr result (λ stop. counts_down register.value offset.value (bus core.old d said) ≡ Err stop) }
    ensures same { OnErr result (Kept core.old core.new) }
{
    let left = core.register(usize::from(register.value)).wrapping_sub(1);
    core.set_register(usize::from(register.value), left);
    if left != 0 {
        let pc = core.register(7);
        core.set_register(7, pc.wrapping_sub(2 * offset.value));
    }
    Ok(Outcome::Ran)
}

/// JMP: `Reserved` with the word itself in mode 0 (own).
#[tactic(auto, unfolding(pdp_def::specs::Perform::jumps))]
pub fn jumps(
    core: &mut Core,
    devices: &mut Devices,
    w: Word,
    target: Field<64>,
) -> Result<Outcome, Outcome>
    ensures ok { (said : List Entry) → IfOk result (λ o. jumps w target.value (bus core.old devices.old said) ≡ Ok (record { value = o; bus = bus core.new devices.new said })) }
    ensures err { (said : List Entry) → IfErr result (λ stop. jumps w target.value (bus core.old devices.old said) ≡ Err stop) }
    ensures same { OnErr result (Kept core.old core.new) }
{
    if target.value / 8 == 0 {
        return Err(Outcome::Reserved(w));
    }
    let a = address(core, devices, Width::Word, target.value)?;
    core.set_register(7, a);
    Ok(Outcome::Ran)
}

// R is pushed, takes PC, and PC takes the address.
fn calls_at(
    core: &mut Core,
    devices: &mut Devices,
    said: &mut ArrayVec<Entry, 8>,
    r: u16,
    a: Word,
) -> Result<Outcome, Outcome>
    requires register { r < 8 }
    requires room { array_vec_len said.old < 8 }
    ensures ok { IfOk result (λ o. calls_at r a (bus core.old devices.old said.old.items) ≡ Ok (record { value = o; bus = bus core.new devices.new said.new.items })) }
    ensures err { IfErr result (λ stop. calls_at r a (bus core.old devices.old said.old.items) ≡ Err stop) }
    ensures same { OnErr result (Kept core.old core.new × (said.new.items ≡ said.old.items)) }
{
    let link = core.register(usize::from(r));
    push(core, devices, said, link)?;
    let pc = core.register(7);
    core.set_register(usize::from(r), pc);
    core.set_register(7, a);
    Ok(Outcome::Ran)
}

/// JSR: `Reserved` with the word itself in mode 0 (own).
#[tactic(auto, unfolding(pdp_def::specs::Perform::calls))]
pub fn calls(
    core: &mut Core,
    devices: &mut Devices,
    said: &mut ArrayVec<Entry, 8>,
    w: Word,
    register: Field<8>,
    target: Field<64>,
) -> Result<Outcome, Outcome>
    requires room { array_vec_len said.old < 8 }
    ensures ok { IfOk result (λ o. calls w register.value target.value (bus core.old devices.old said.old.items) ≡ Ok (record { value = o; bus = bus core.new devices.new said.new.items })) }
    ensures err { IfErr result (λ stop. calls w register.value target.value (bus core.old devices.old said.old.items) ≡ Err stop) }
    ensures same { OnErr result (Kept core.old core.new × (said.new.items ≡ said.old.items)) }
{
    if target.value / 8 == 0 {
        return Err(Outcome::Reserved(w));
    }
    let a = address(core, devices, Width::Word, target.value)?;
    calls_at(core, devices, said, register.value, a)
}

/// RTS: PC takes the register, which is popped.
#[tactic(auto, unfolding(pdp_def::specs::Perform::returns))]
pub fn returns(
    core: &mut Core,
    devices: &mut Devices,
    register: Field<8>,
) -> Result<Outcome, Outcome>
    ensures ok { (said : List Entry) → IfOk result (λ o. returns register.value (bus core.old devices.old said) ≡ Ok (record { value = o; bus = bus core.new devices.new said })) }
    ensures err { (said : List Entry) → IfErr result (λ stop. returns register.value (bus core.old devices.old said) ≡ Err stop) }
    ensures same { OnErr result (Kept core.old core.new) }
{
    let pc = core.register(usize::from(register.value));
    core.set_register(7, pc);
    let link = pop(core, devices)?;
    core.set_register(usize::from(register.value), link);
    Ok(Outcome::Ran)
}

/// RTI and RTT: PC is popped, and then PS, of which the low byte counts.
#[tactic(auto, unfolding(pdp_def::specs::Perform::resumes))]
pub fn resumes(core: &mut Core, devices: &mut Devices) -> Result<Outcome, Outcome>
    ensures ok { (said : List Entry) → IfOk result (λ o. resumes (bus core.old devices.old said) ≡ Ok (record { value = o; bus = bus core.new devices.new said })) }
    ensures err { (said : List Entry) → IfErr result (λ stop. resumes (bus core.old devices.old said) ≡ Err stop) }
    ensures same { OnErr result (Kept core.old core.new) }
{
    let pc = pop(core, devices)?;
    core.set_register(7, pc);
    let ps = pop(core, devices)?;
    core.set_ps(ps % 256);
    Ok(Outcome::Ran)
}
