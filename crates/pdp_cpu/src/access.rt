// Words and bytes at addresses: memory, the status word, device registers.

ghost use Rattle.std.specs.Prelude.{◌≡◌, ◌<◌, ◌+◌, ◌≤◌, false, List, IfOk, IfErr, OnErr, OnOk};
ghost use Rattle.arrayvec.specs.ArrayVec.{array_vec_len};
ghost use Rattle.pdp_dev.specs.declared.entry.Entry.{Entry};
ghost use Rattle.pdp_def.specs.Does.{bus, is_bad, read_word, put_word, write_word, read_byte, write_byte};

use arrayvec::ArrayVec;
use mc_word::Word;
use pdp_def::outcome::Outcome;
use pdp_def::processor::Core;
use pdp_dev::devices::Devices;
use pdp_dev::entry::Entry;
use pdp_dev::register::register_of;

/// The address of the status word.
pub const PS: Word = 0o177776;

/// The first address above memory.
pub const MEMORY_END: Word = 0o160000;

/// The word at an address, with what its read does to a device; a fault at a bad address.
#[tactic(auto, unfolding(pdp_def::specs::Does::read_word))]
#[inline(always)]
pub fn read_word(core: &Core, devices: &mut Devices, a: Word) -> Result<Word, Outcome>
    ensures ok { (said : List Entry) → IfOk result (λ w. read_word a (bus core.now devices.old said) ≡ Ok (record { value = w; bus = bus core.now devices.new said })) }
    ensures err { (said : List Entry) → IfErr result (λ stop. read_word a (bus core.now devices.old said) ≡ Err stop) }
{
    if a % 2 == 1 {
        return Err(Outcome::BusFault(a));
    }
    if a < MEMORY_END {
        return Ok(core.word(a));
    }
    if a == PS {
        return Ok(core.ps());
    }
    match register_of(a) {
        Some(register) => Ok(devices.read_register(register)),
        None => Err(Outcome::BusFault(a)),
    }
}

/// Whether no word has this address: an odd one, or one above memory that is neither PS nor a register.
#[tactic(auto, unfolding(pdp_def::specs::Does::is_bad))]
pub fn is_bad(a: Word) -> bool
    ensures { result ≡ is_bad a }
{
    if a % 2 == 1 {
        true
    } else if a < MEMORY_END || a == PS {
        false
    } else {
        register_of(a).is_none()
    }
}

/// Puts a word at an address that is not bad.
#[tactic(auto, unfolding(pdp_def::specs::Does::put_word))]
pub fn put_word(
    core: &mut Core,
    devices: &mut Devices,
    said: &mut ArrayVec<Entry, 8>,
    a: Word,
    w: Word,
)
    requires room { array_vec_len said.old < 8 }
    ensures after { put_word a w (bus core.old devices.old said.old.items) ≡ bus core.new devices.new said.new.items }
    ensures room { array_vec_len said.new ≤ array_vec_len said.old + 1 }
{
    if a < MEMORY_END {
        core.set_word(a, w);
        return;
    }
    if a == PS {
        core.set_ps(w % 256);
        return;
    }
    if let Some(register) = register_of(a) {
        if let Some(entry) = devices.write_register(register, w) {
            said.push(entry);
        }
    }
}

/// Writes a word to an address; a fault at a bad one, where nothing changes.
#[tactic(auto, unfolding(pdp_def::specs::Does::write_word))]
pub fn write_word(
    core: &mut Core,
    devices: &mut Devices,
    said: &mut ArrayVec<Entry, 8>,
    a: Word,
    w: Word,
) -> Result<(), Outcome>
    requires room { array_vec_len said.old < 8 }
    ensures ok { OnOk result (write_word a w (bus core.old devices.old said.old.items) ≡ Ok (record { value = tt; bus = bus core.new devices.new said.new.items })) }
    ensures err { IfErr result (λ stop. write_word a w (bus core.old devices.old said.old.items) ≡ Err stop) }
    ensures same { OnErr result ((core.new ≡ core.old) × (said.new.items ≡ said.old.items)) }
    ensures room { OnOk result (array_vec_len said.new ≤ array_vec_len said.old + 1) }
{
    if is_bad(a) {
        return Err(Outcome::BusFault(a));
    }
    put_word(core, devices, said, a, w);
    Ok(())
}

/// The byte at an address, as a word; a fault where the word around it is bad.
///
/// Above memory an even address gives the low half of a read of the word, and an odd one the high half, which no
/// device notices (own).
#[tactic(auto, unfolding(pdp_def::specs::Does::read_byte))]
pub fn read_byte(core: &Core, devices: &mut Devices, a: Word) -> Result<Word, Outcome>
    ensures ok { (said : List Entry) → IfOk result (λ v. read_byte a (bus core.now devices.old said) ≡ Ok (record { value = v; bus = bus core.now devices.new said })) }
    ensures err { (said : List Entry) → IfErr result (λ stop. read_byte a (bus core.now devices.old said) ≡ Err stop) }
    ensures byte { IfOk result (λ v. v < 256) }
{
    if a < MEMORY_END {
        return Ok(Word::from(core.byte(a)));
    }
    if a % 2 == 0 {
        return Ok(read_word(core, devices, a)? % 256);
    }
    if a == PS + 1 {
        return Ok(core.ps() / 256);
    }
    match register_of(a - 1) {
        Some(register) => Ok(devices.peek_register(register) / 256),
        None => Err(Outcome::BusFault(a)),
    }
}

/// Writes the low byte of a value to an address; a fault where the word around it is bad, where nothing changes.
///
/// Above memory an even address takes the byte as a word, and an odd one takes nothing (own).
#[tactic(auto, unfolding(pdp_def::specs::Does::write_byte))]
pub fn write_byte(
    core: &mut Core,
    devices: &mut Devices,
    said: &mut ArrayVec<Entry, 8>,
    a: Word,
    v: Word,
) -> Result<(), Outcome>
    requires room { array_vec_len said.old < 8 }
    ensures ok { OnOk result (write_byte a v (bus core.old devices.old said.old.items) ≡ Ok (record { value = tt; bus = bus core.new devices.new said.new.items })) }
    ensures err { IfErr result (λ stop. write_byte a v (bus core.old devices.old said.old.items) ≡ Err stop) }
    ensures same { OnErr result ((core.new ≡ core.old) × (said.new.items ≡ said.old.items)) }
{
    if a < MEMORY_END {
        core.set_byte(a, (v % 256) as u8);
        return Ok(());
    }
    if a % 2 == 0 {
        return write_word(core, devices, said, a, v % 256);
    }
    if is_bad(a - 1) {
        return Err(Outcome::BusFault(a));
    }
    Ok(())
}
