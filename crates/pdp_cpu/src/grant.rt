// Grants and traps: the processor leaves what it does for the routine of a vector.

ghost use Rattle.std.specs.Prelude.{◌≡◌, ◌<◌, ◌≤◌, ◌+◌, IfOk, IfErr, OnErr};
ghost use Rattle.arrayvec.specs.ArrayVec.{array_vec_len};
ghost use Rattle.pdp_def.specs.Does.{bus, Kept};
ghost use Rattle.pdp_def.specs.Perform.{enters, enters_at, traps};
ghost use Rattle.pdp_def.specs.Interrupt.{is_outside, takes_over, interrupted};

use crate::access::{MEMORY_END, is_bad, put_word};
use arrayvec::ArrayVec;
use mc_word::Word;
use pdp_def::outcome::Outcome;
use pdp_def::processor::Core;
use pdp_dev::devices::{Devices, Request};
use pdp_dev::entry::Entry;

// Whether memory has no word at this address: at an odd one, or at one above it.
fn is_outside(a: Word) -> bool
    ensures { result ≡ is_outside a }
{
    a % 2 == 1 || a >= MEMORY_END
}

/// Grants a request: PS and PC are pushed, and the vector's two words are loaded into PC and PS.
/// `Ran`, or `BusFault` at the first address of these: of the vector's two words where it lies outside memory, of the two
/// pushes where it is bad. There nothing changes.
#[tactic(auto, unfolding(pdp_def::specs::Interrupt::interrupted))]
pub fn interrupt(
    core: &mut Core,
    devices: &mut Devices,
    request: Request,
    said: &mut ArrayVec<Entry, 8>,
) -> Outcome
    requires { array_vec_len said.old ≤ 5 }
    ensures { interrupted core.old devices.old said.old.items request.vector ≡ record { value = result; bus = bus core.new devices.new said.new.items } }
{
    if is_outside(request.vector) {
        return Outcome::BusFault(request.vector);
    }
    if is_outside(request.vector + 2) {
        return Outcome::BusFault(request.vector + 2);
    }
    let first = core.register(6).wrapping_sub(2);
    let second = core.register(6).wrapping_sub(4);
    if is_bad(first) {
        return Outcome::BusFault(first);
    }
    if is_bad(second) {
        return Outcome::BusFault(second);
    }
    take_over(core, devices, request, said, first, second);
    Outcome::Ran
}

// The grant itself, with the two addresses to push to.
#[tactic(auto, unfolding(pdp_def::specs::Interrupt::takes_over))]
fn take_over(
    core: &mut Core,
    devices: &mut Devices,
    request: Request,
    said: &mut ArrayVec<Entry, 8>,
    first: Word,
    second: Word,
)
    requires vector { request.vector + 2 < 57344 }
    requires room { array_vec_len said.old ≤ 5 }
    ensures { takes_over core.old devices.old said.old.items request.vector first second ≡ bus core.new devices.new said.new.items }
{
    devices.granted(request);
    said.push(Entry::Grant(request.vector));
    enter(core, devices, said, request.vector, first, second);
}

// PS and PC are pushed, and PC and PS are loaded from the vector's two words, which are read before.
#[tactic(auto, unfolding(pdp_def::specs::Perform::enters))]
fn enter(
    core: &mut Core,
    devices: &mut Devices,
    said: &mut ArrayVec<Entry, 8>,
    vector: Word,
    first: Word,
    second: Word,
)
    requires vector { vector + 2 < 57344 }
    requires room { array_vec_len said.old ≤ 6 }
    ensures { enters vector first second (bus core.old devices.old said.old.items) ≡ bus core.new devices.new said.new.items }
{
    let pc = core.word(vector);
    let ps = core.word(vector + 2);
    let old_pc = core.register(7);
    let old_ps = core.ps();
    put_word(core, devices, said, first, old_ps);
    put_word(core, devices, said, second, old_pc);
    core.set_register(6, second);
    core.set_register(7, pc);
    core.set_ps(ps % 256);
    core.set_waiting(false);
}

/// BPT, IOT, EMT and TRAP: as a grant through this vector, but without a request; `BusFault` likewise.
#[tactic(auto, unfolding(pdp_def::specs::Perform::traps))]
pub fn traps(
    core: &mut Core,
    devices: &mut Devices,
    said: &mut ArrayVec<Entry, 8>,
    vector: Word,
) -> Result<Outcome, Outcome>
    requires vector { vector < 256 }
    requires room { array_vec_len said.old ≤ 6 }
    ensures ok { IfOk result (λ o. traps vector (bus core.old devices.old said.old.items) ≡ Ok (record { value = o; bus = bus core.new devices.new said.new.items })) }
    ensures err { IfErr result (λ stop. traps vector (bus core.old devices.old said.old.items) ≡ Err stop) }
    ensures same { OnErr result (Kept core.old core.new × (said.new.items ≡ said.old.items)) }
{
    let first = core.register(6).wrapping_sub(2);
    let second = core.register(6).wrapping_sub(4);
    if is_bad(first) {
        return Err(Outcome::BusFault(first));
    }
    if is_bad(second) {
        return Err(Outcome::BusFault(second));
    }
    enter(core, devices, said, vector, first, second);
    Ok(Outcome::Ran)
}
