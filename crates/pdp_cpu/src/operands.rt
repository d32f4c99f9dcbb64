// Instructions on one or two operands.

ghost use Rattle.std.specs.Prelude.{◌≡◌, ◌<◌, ◌≤◌, ◌+◌, ℕ, List, IfOk, IfErr, OnErr};
ghost use Rattle.arrayvec.specs.ArrayVec.{array_vec_len};
ghost use Rattle.mc_word.specs.declared.word.Codes.{Codes};
ghost use Rattle.pdp_dev.specs.declared.devices.Devices.{Devices};
ghost use Rattle.pdp_dev.specs.declared.entry.Entry.{Entry};
ghost use Rattle.pdp_def.specs.Does.{bus, Kept};
ghost use Rattle.pdp_def.specs.Operands.{IsPlace};
ghost use Rattle.pdp_def.specs.Codes.{with_codes};
ghost use Rattle.pdp_def.specs.Perform.{sets, moves, compares, combines, clears, tests, extends, alters};

use crate::access::PS;
use crate::compute::{altered, codes_of, combined, extension_codes, moved_in, with_codes};
use crate::locate::{fetch, locate, put, put_moved};
use arrayvec::ArrayVec;
use mc_word::Word;
use mc_word::word::Codes;
use pdp_def::operand::Place;
use pdp_def::operation::{BinaryOperation, UnaryOperation, Width};
use pdp_def::outcome::Outcome;
use pdp_def::processor::Core;
use pdp_dev::devices::Devices;
use pdp_dev::entry::Entry;
use pdp_isa::instr::Field;

/// The codes after a value was put into a place; where PS itself was written, they stay as written (own).
#[tactic(auto, unfolding(pdp_def::specs::Perform::sets))]
pub fn sets(core: &mut Core, place: Place, codes: Codes)
    ensures { (f : ℕ → Codes) (d : Devices) (said : List Entry) → f core.old.ps ≡ codes → sets place f (bus core.old d said) ≡ Ok (record { value = tt; bus = bus core.new d said }) }
{
    if let Place::InMemory(a) = place {
        if a == PS {
            return;
        }
    }
    set_codes(core, codes);
}

/// Sets the condition codes.
pub fn set_codes(core: &mut Core, codes: Codes)
    ensures { core.new ≡ record core.old { ps = with_codes core.old.ps codes } }
{
    let ps = core.ps();
    core.set_ps(with_codes(ps, codes));
}

/// MOV: the source is read before the target is addressed, and the target is not read.
#[tactic(auto, unfolding(pdp_def::specs::Perform::moves))]
pub fn moves(
    core: &mut Core,
    devices: &mut Devices,
    said: &mut ArrayVec<Entry, 8>,
    width: Width,
    source: Field<64>,
    target: Field<64>,
) -> Result<Outcome, Outcome>
    requires room { array_vec_len said.old < 8 }
    ensures ok { IfOk result (λ o. moves width source.value target.value (bus core.old devices.old said.old.items) ≡ Ok (record { value = o; bus = bus core.new devices.new said.new.items })) }
    ensures err { IfErr result (λ stop. moves width source.value target.value (bus core.old devices.old said.old.items) ≡ Err stop) }
    ensures same { OnErr result (Kept core.old core.new × (said.new.items ≡ said.old.items)) }
{
    let from = locate(core, devices, width, source.value)?;
    let a = fetch(core, devices, width, from)?;
    let to = locate(core, devices, width, target.value)?;
    put_moved(core, devices, said, width, to, a)?;
    let ps = core.ps();
    sets(core, to, moved_in(width, a, ps));
    Ok(Outcome::Ran)
}

/// CMP and BIT: the codes of both values, and nothing is written.
#[tactic(auto, unfolding(pdp_def::specs::Perform::compares))]
pub fn compares(
    core: &mut Core,
    devices: &mut Devices,
    operation: BinaryOperation,
    width: Width,
    source: Field<64>,
    target: Field<64>,
) -> Result<Outcome, Outcome>
    ensures ok { (said : List Entry) → IfOk result (λ o. compares operation width source.value target.value (bus core.old devices.old said) ≡ Ok (record { value = o; bus = bus core.new devices.new said })) }
    ensures err { (said : List Entry) → IfErr result (λ stop. compares operation width source.value target.value (bus core.old devices.old said) ≡ Err stop) }
    ensures same { OnErr result (Kept core.old core.new) }
{
    let from = locate(core, devices, width, source.value)?;
    let a = fetch(core, devices, width, from)?;
    let to = locate(core, devices, width, target.value)?;
    let b = fetch(core, devices, width, to)?;
    let c = core.ps() % 2 == 1;
    set_codes(core, combined(operation, width, a, b, c).codes);
    Ok(Outcome::Ran)
}

/// BIC, BIS, ADD and SUB: the target is read and then written.
#[tactic(auto, unfolding(pdp_def::specs::Perform::combines))]
pub fn combines(
    core: &mut Core,
    devices: &mut Devices,
    said: &mut ArrayVec<Entry, 8>,
    operation: BinaryOperation,
    width: Width,
    source: Field<64>,
    target: Field<64>,
) -> Result<Outcome, Outcome>
    requires room { array_vec_len said.old < 8 }
    ensures ok { IfOk result (λ o. combines operation width source.value target.value (bus core.old devices.old said.old.items) ≡ Ok (record { value = o; bus = bus core.new devices.new said.new.items })) }
    ensures err { IfErr result (λ stop. combines operation width source.value target.value (bus core.old devices.old said.old.items) ≡ Err stop) }
    ensures same { OnErr result (Kept core.old core.new × (said.new.items ≡ said.old.items)) }
{
    let from = locate(core, devices, width, source.value)?;
    let a = fetch(core, devices, width, from)?;
    let to = locate(core, devices, width, target.value)?;
    let b = fetch(core, devices, width, to)?;
    let c = core.ps() % 2 == 1;
    let r = combined(operation, width, a, b, c);
    put(core, devices, said, width, to, r.word)?;
    sets(core, to, r.codes);
    Ok(Outcome::Ran)
}

/// CLR: the target is not read.
#[tactic(auto, unfolding(pdp_def::specs::Perform::clears))]
pub fn clears(
    core: &mut Core,
    devices: &mut Devices,
    said: &mut ArrayVec<Entry, 8>,
    width: Width,
    target: Field<64>,
) -> Result<Outcome, Outcome>
    requires room { array_vec_len said.old < 8 }
    ensures ok { IfOk result (λ o. clears width target.value (bus core.old devices.old said.old.items) ≡ Ok (record { value = o; bus = bus core.new devices.new said.new.items })) }
    ensures err { IfErr result (λ stop. clears width target.value (bus core.old devices.old said.old.items) ≡ Err stop) }
    ensures same { OnErr result (Kept core.old core.new × (said.new.items ≡ said.old.items)) }
{
    let to = locate(core, devices, width, target.value)?;
    put(core, devices, said, width, to, 0)?;
    sets(core, to, codes_of(width, 0, false, false));
    Ok(Outcome::Ran)
}

/// TST: the codes of the target, and nothing is written.
#[tactic(auto, unfolding(pdp_def::specs::Perform::tests))]
pub fn tests(
    core: &mut Core,
    devices: &mut Devices,
    width: Width,
    target: Field<64>,
) -> Result<Outcome, Outcome>
    ensures ok { (said : List Entry) → IfOk result (λ o. tests width target.value (bus core.old devices.old said) ≡ Ok (record { value = o; bus = bus core.new devices.new said })) }
    ensures err { (said : List Entry) → IfErr result (λ stop. tests width target.value (bus core.old devices.old said) ≡ Err stop) }
    ensures same { OnErr result (Kept core.old core.new) }
{
    let to = locate(core, devices, width, target.value)?;
    let a = fetch(core, devices, width, to)?;
    set_codes(core, codes_of(width, a, false, false));
    Ok(Outcome::Ran)
}

/// SXT: the target becomes all ones where N is set, else 0, and is not read.
#[tactic(auto, unfolding(pdp_def::specs::Perform::extends))]
pub fn extends(
    core: &mut Core,
    devices: &mut Devices,
    said: &mut ArrayVec<Entry, 8>,
    target: Field<64>,
) -> Result<Outcome, Outcome>
    requires room { array_vec_len said.old < 8 }
    ensures ok { IfOk result (λ o. extends target.value (bus core.old devices.old said.old.items) ≡ Ok (record { value = o; bus = bus core.new devices.new said.new.items })) }
    ensures err { IfErr result (λ stop. extends target.value (bus core.old devices.old said.old.items) ≡ Err stop) }
    ensures same { OnErr result (Kept core.old core.new × (said.new.items ≡ said.old.items)) }
{
    let to = locate(core, devices, Width::Word, target.value)?;
    let ps = core.ps();
    let word = if ps / 8 % 2 == 1 { 65535 } else { 0 };
    put(core, devices, said, Width::Word, to, word)?;
    sets(core, to, extension_codes(ps));
    Ok(Outcome::Ran)
}

/// COM, INC, DEC, NEG, ADC, SBC, ROR, ROL, ASR, ASL and SWAB: the target is read and then written.
#[tactic(auto, unfolding(pdp_def::specs::Perform::alters))]
pub fn alters(
    core: &mut Core,
    devices: &mut Devices,
    said: &mut ArrayVec<Entry, 8>,
    operation: UnaryOperation,
    width: Width,
    target: Field<64>,
) -> Result<Outcome, Outcome>
    requires room { array_vec_len said.old < 8 }
    ensures ok { IfOk result (λ o. alters operation width target.value (bus core.old devices.old said.old.items) ≡ Ok (record { value = o; bus = bus core.new devices.new said.new.items })) }
    ensures err { IfErr result (λ stop. alters operation width target.value (bus core.old devices.old said.old.items) ≡ Err stop) }
    ensures same { OnErr result (Kept core.old core.new × (said.new.items ≡ said.old.items)) }
{
    let to = locate(core, devices, width, target.value)?;
    let a = fetch(core, devices, width, to)?;
    let c = core.ps() % 2 == 1;
    let r = altered(operation, width, a, c);
    put(core, devices, said, width, to, r.word)?;
    sets(core, to, r.codes);
    Ok(Outcome::Ran)
}
