// Grants through vectors that no device has: where their words lie in memory they count, and else their addresses are faults.

use arrayvec::ArrayVec;
use mc_word::Word;
use mc_word::bytes::Memory;
use pdp_cpu::grant::interrupt;
use pdp_def::outcome::Outcome;
use pdp_def::processor::Core;
use pdp_dev::devices::{Devices, Request};
use pdp_dev::entry::Entry;
use std::alloc::Global;
use std::test::Fail;

// What a grant through this vector answers, PC behind it, and how many entries it adds; SP is 2000, and 56000 has 1000.
fn granted(alloc: Global, vector: Word) -> Result<(Outcome, Word, usize), Memory> {
    let mut core = Core::new(alloc)?;
    core.set_register(6, 0o2000);
    core.set_word(0o56000, 0o1000);
    let mut devices = Devices::new();
    let mut said: ArrayVec<Entry, 8> = ArrayVec::new();
    let request = Request { vector, level: 4 };
    let outcome = interrupt(&mut core, &mut devices, request, &mut said);
    Ok((outcome, core.register(7), said.len()))
}

#[test]
fn goes_through_every_vector(rt: HostRuntime) -> Result<(), Fail> {
    let rows = [
        (0o56000, (Outcome::Ran, 0o1000, 1)),
        (0o157774, (Outcome::Ran, 0, 1)),
        (0o61, (Outcome::BusFault(0o61), 0, 0)),
        (0o157776, (Outcome::BusFault(0o160000), 0, 0)),
        (0o160000, (Outcome::BusFault(0o160000), 0, 0)),
        (0o177560, (Outcome::BusFault(0o177560), 0, 0)),
        (0o177777, (Outcome::BusFault(0o177777), 0, 0)),
    ];
    for (vector, wanted) in rows {
        let answer = granted(rt.alloc(), vector);
        assert!(rt; answer == Ok(wanted), "{vector} {answer:?}");
    }
    Ok(())
}
