// Instructions and grants, worked out by hand from DEC's Processor Handbook and this project's own rules.

ghost use Rattle.std.specs.Prelude.{◌≡◌, false, IfOk};

use arrayvec::ArrayVec;
use mc_word::Word;
use mc_word::bytes::Memory;
use pdp_cpu::instruction::execute;
use pdp_def::outcome::Outcome;
use pdp_def::processor::Core;
use pdp_dev::devices::Devices;
use std::alloc::Global;
use std::process::Abort;

mod flow;
mod grants;
mod values;

// A processor at 1000, where these words stand.
pub fn core_at(alloc: Global, words: [Word; 3]) -> Result<Core, Memory>
    ensures { IfOk result (λ c. c.waiting ≡ false) }
{
    let mut core = Core::new(alloc)?;
    core.set_register(7, 0o1000);
    core.set_word(0o1000, words[0]);
    core.set_word(0o1002, words[1]);
    core.set_word(0o1004, words[2]);
    Ok(core)
}

// The processor after the instruction at 1000, which runs, with R0 to R6, PS and some words of memory before it.
pub fn run(
    rt: &impl Abort,
    alloc: Global,
    code: [Word; 3],
    before: [Word; 7],
    ps: Word,
    words: &[(Word, Word)],
) -> Result<Core, Memory> {
    let mut core = core_at(alloc, code)?;
    let mut registers = core.registers();
    registers[..7].copy_from_slice(&before);
    core.set_registers(registers);
    core.set_ps(ps);
    for (a, w) in words {
        assert!(rt; *a < 0o160000);
        core.set_word(*a, *w);
    }
    assert!(rt; !core.waiting());
    let mut devices = Devices::new();
    let mut said = ArrayVec::new();
    let outcome = execute(&mut core, &mut devices, &mut said);
    assert_eq!(rt; outcome, Outcome::Ran, "{code:?}");
    Ok(core)
}
