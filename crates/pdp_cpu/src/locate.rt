// Operands: the place that one names, and its value (DEC's Processor Handbook, addressing modes).

ghost use Rattle.std.specs.Prelude.{◌≡◌, ◌≢◌, ◌<◌, ◌≤◌, ◌+◌, ◌/◌, List, IfOk, IfErr, OnErr, OnOk};
ghost use Rattle.arrayvec.specs.ArrayVec.{array_vec_len};
ghost use Rattle.pdp_dev.specs.declared.devices.Devices.{Devices};
ghost use Rattle.pdp_dev.specs.declared.entry.Entry.{Entry};
ghost use Rattle.pdp_def.specs.Does.{bus, Kept};
ghost use Rattle.pdp_def.specs.Codes.{size};
ghost use Rattle.pdp_def.specs.Operands.{step_of, step_on, step_back, indexed, next_word, mode_of, address, locate, fetch, put, put_moved, push, pop, IsPlace};

use crate::access::{read_byte, read_word, write_byte, write_word};
use arrayvec::ArrayVec;
use mc_word::Word;
use mc_word::word::extend;
use pdp_def::operand::Place;
use pdp_def::operation::Width;
use pdp_def::outcome::Outcome;
use pdp_def::processor::Core;
use pdp_dev::devices::Devices;
use pdp_dev::entry::Entry;

// How far modes 2 and 4 step: by 2, but in byte forms by 1 on R0 to R5.
fn step_of(width: Width, r: u16) -> Word
    ensures value { result ≡ step_of width r }
    ensures most { result ≤ 2 }
{
    match width {
        Width::Byte if r < 6 => 1,
        Width::Byte | Width::Word => 2,
    }
}

// The register's word, and then it goes on by a step.
#[tactic(auto, unfolding(pdp_def::specs::Operands::step_on))]
fn step_on(core: &mut Core, step: Word, r: u16) -> Word
    requires { r < 8 }
    ensures gives { (d : Devices) (said : List Entry) → step_on step r (bus core.old d said) ≡ Ok (record { value = result; bus = bus core.new d said }) }
    ensures kept { Kept core.old core.new }
{
    let a = core.register(usize::from(r));
    core.set_register(usize::from(r), a.wrapping_add(step));
    a
}

// The register goes back by a step; its word then is given.
#[tactic(auto, unfolding(pdp_def::specs::Operands::step_back))]
fn step_back(core: &mut Core, step: Word, r: u16) -> Word
    requires { r < 8 }
    ensures gives { (d : Devices) (said : List Entry) → step_back step r (bus core.old d said) ≡ Ok (record { value = result; bus = bus core.new d said }) }
    ensures kept { Kept core.old core.new }
{
    let a = core.register(usize::from(r)).wrapping_sub(step);
    core.set_register(usize::from(r), a);
    a
}

/// The next word of the program.
pub fn next_word(core: &mut Core, devices: &mut Devices) -> Result<Word, Outcome>
    ensures ok { (said : List Entry) → IfOk result (λ w. next_word (bus core.old devices.old said) ≡ Ok (record { value = w; bus = bus core.new devices.new said })) }
    ensures err { (said : List Entry) → IfErr result (λ stop. next_word (bus core.old devices.old said) ≡ Err stop) }
    ensures kept { Kept core.old core.new }
{
    let a = step_on(core, 2, 7);
    read_word(core, devices, a)
}

// An address away from a register by the next word.
#[tactic(auto, unfolding(pdp_def::specs::Operands::indexed))]
fn indexed(core: &mut Core, devices: &mut Devices, r: u16) -> Result<Word, Outcome>
    requires { r < 8 }
    ensures ok { (said : List Entry) → IfOk result (λ w. indexed r (bus core.old devices.old said) ≡ Ok (record { value = w; bus = bus core.new devices.new said })) }
    ensures err { (said : List Entry) → IfErr result (λ stop. indexed r (bus core.old devices.old said) ≡ Err stop) }
    ensures kept { Kept core.old core.new }
{
    let x = next_word(core, devices)?;
    Ok(x.wrapping_add(core.register(usize::from(r))))
}

/// The address that an operand of six bits names, which is no register itself: mode in the high three bits, register in
/// the low three.
#[tactic(auto, unfolding(pdp_def::specs::Operands::address))]
pub fn address(
    core: &mut Core,
    devices: &mut Devices,
    width: Width,
    field: u16,
) -> Result<Word, Outcome>
    requires most { field < 64 }
    requires mode { mode_of field ≢ 0 }
    ensures ok { (said : List Entry) → IfOk result (λ a. address width field (bus core.old devices.old said) ≡ Ok (record { value = a; bus = bus core.new devices.new said })) }
    ensures err { (said : List Entry) → IfErr result (λ stop. address width field (bus core.old devices.old said) ≡ Err stop) }
    ensures kept { Kept core.old core.new }
{
    let r = field % 8;
    match field / 8 {
        1 => Ok(core.register(usize::from(r))),
        2 => Ok(step_on(core, step_of(width, r), r)),
        3 => {
            let at = step_on(core, 2, r);
            read_word(core, devices, at)
        }
        4 => Ok(step_back(core, step_of(width, r), r)),
        5 => {
            let at = step_back(core, 2, r);
            read_word(core, devices, at)
        }
        6 => indexed(core, devices, r),
        _ => {
            let at = indexed(core, devices, r)?;
            read_word(core, devices, at)
        }
    }
}

/// The place that an operand of six bits names: in mode 0 the register itself.
#[tactic(auto, unfolding(pdp_def::specs::Operands::locate))]
pub fn locate(
    core: &mut Core,
    devices: &mut Devices,
    width: Width,
    field: u16,
) -> Result<Place, Outcome>
    requires { field < 64 }
    ensures ok { (said : List Entry) → IfOk result (λ p. locate width field (bus core.old devices.old said) ≡ Ok (record { value = p; bus = bus core.new devices.new said })) }
    ensures err { (said : List Entry) → IfErr result (λ stop. locate width field (bus core.old devices.old said) ≡ Err stop) }
    ensures kept { Kept core.old core.new }
    ensures register { IfOk result IsPlace }
{
    if field / 8 == 0 {
        return Ok(Place::InRegister(field % 8));
    }
    Ok(Place::InMemory(address(core, devices, width, field)?))
}

/// The value at a place: of a register a byte form takes the low byte.
#[tactic(auto, unfolding(pdp_def::specs::Operands::fetch))]
#[inline(always)]
pub fn fetch(
    core: &Core,
    devices: &mut Devices,
    width: Width,
    place: Place,
) -> Result<Word, Outcome>
    requires { IsPlace place }
    ensures ok { (said : List Entry) → IfOk result (λ v. fetch width place (bus core.now devices.old said) ≡ Ok (record { value = v; bus = bus core.now devices.new said })) }
    ensures err { (said : List Entry) → IfErr result (λ stop. fetch width place (bus core.now devices.old said) ≡ Err stop) }
    ensures below { IfOk result (λ v. v < size width) }
{
    match (width, place) {
        (Width::Word, Place::InRegister(r)) => Ok(core.register(usize::from(r))),
        (Width::Word, Place::InMemory(a)) => read_word(core, devices, a),
        (Width::Byte, Place::InRegister(r)) => Ok(core.register(usize::from(r)) % 256),
        (Width::Byte, Place::InMemory(a)) => read_byte(core, devices, a),
    }
}

/// Puts a value into a place: in a register a byte form leaves the high byte.
#[tactic(auto, unfolding(pdp_def::specs::Operands::put))]
pub fn put(
    core: &mut Core,
    devices: &mut Devices,
    said: &mut ArrayVec<Entry, 8>,
    width: Width,
    place: Place,
    v: Word,
) -> Result<(), Outcome>
    requires place { IsPlace place }
    requires room { array_vec_len said.old < 8 }
    ensures ok { OnOk result (put width place v (bus core.old devices.old said.old.items) ≡ Ok (record { value = tt; bus = bus core.new devices.new said.new.items })) }
    ensures err { IfErr result (λ stop. put width place v (bus core.old devices.old said.old.items) ≡ Err stop) }
    ensures same { OnErr result ((core.new ≡ core.old) × (said.new.items ≡ said.old.items)) }
{
    match (width, place) {
        (Width::Word, Place::InRegister(r)) => core.set_register(usize::from(r), v),
        (Width::Word, Place::InMemory(a)) => write_word(core, devices, said, a, v)?,
        (Width::Byte, Place::InRegister(r)) => {
            let w = core.register(usize::from(r));
            core.set_register(usize::from(r), w / 256 * 256 + v % 256);
        }
        (Width::Byte, Place::InMemory(a)) => write_byte(core, devices, said, a, v)?,
    }
    Ok(())
}

/// Puts a moved value into a place: into a register a byte goes with its sign extended.
#[tactic(auto, unfolding(pdp_def::specs::Operands::put_moved))]
pub fn put_moved(
    core: &mut Core,
    devices: &mut Devices,
    said: &mut ArrayVec<Entry, 8>,
    width: Width,
    place: Place,
    v: Word,
) -> Result<(), Outcome>
    requires place { IsPlace place }
    requires room { array_vec_len said.old < 8 }
    ensures ok { OnOk result (put_moved width place v (bus core.old devices.old said.old.items) ≡ Ok (record { value = tt; bus = bus core.new devices.new said.new.items })) }
    ensures err { IfErr result (λ stop. put_moved width place v (bus core.old devices.old said.old.items) ≡ Err stop) }
    ensures same { OnErr result ((core.new ≡ core.old) × (said.new.items ≡ said.old.items)) }
{
    match (width, place) {
        (Width::Byte, Place::InRegister(r)) => {
            core.set_register(usize::from(r), extend((v % 256) as u8));
            Ok(())
        }
        (Width::Byte, Place::InMemory(a)) => write_byte(core, devices, said, a, v),
        (Width::Word, _) => put(core, devices, said, width, place, v),
    }
}

/// SP goes down by a word, and the word there is written.
#[tactic(auto, unfolding(pdp_def::specs::Operands::push))]
pub fn push(
    core: &mut Core,
    devices: &mut Devices,
    said: &mut ArrayVec<Entry, 8>,
    w: Word,
) -> Result<(), Outcome>
    requires room { array_vec_len said.old < 8 }
    ensures ok { OnOk result (push w (bus core.old devices.old said.old.items) ≡ Ok (record { value = tt; bus = bus core.new devices.new said.new.items })) }
    ensures err { IfErr result (λ stop. push w (bus core.old devices.old said.old.items) ≡ Err stop) }
    ensures same { OnErr result (Kept core.old core.new × (said.new.items ≡ said.old.items)) }
{
    let sp = step_back(core, 2, 6);
    write_word(core, devices, said, sp, w)
}

/// The word at SP, which goes up by a word.
#[tactic(auto, unfolding(pdp_def::specs::Operands::pop))]
pub fn pop(core: &mut Core, devices: &mut Devices) -> Result<Word, Outcome>
    ensures ok { (said : List Entry) → IfOk result (λ w. pop (bus core.old devices.old said) ≡ Ok (record { value = w; bus = bus core.new devices.new said })) }
    ensures err { (said : List Entry) → IfErr result (λ stop. pop (bus core.old devices.old said) ≡ Err stop) }
    ensures kept { Kept core.old core.new }
{
    let sp = step_on(core, 2, 6);
    read_word(core, devices, sp)
}
