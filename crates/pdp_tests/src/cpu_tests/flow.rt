// Where instructions and grants lead, what they do to PS and the devices, and where they stop.

use super::{core_at, run};
use arrayvec::ArrayVec;
use pdp_cpu::grant::interrupt;
use pdp_cpu::instruction::execute;
use pdp_def::outcome::Outcome;
use pdp_dev::devices::{Devices, Request};
use pdp_dev::entry::{Entry, Event, Port};
use std::test::Fail;

#[test]
fn jumps_and_calls(rt: HostRuntime) -> Result<(), Fail> {
    // R1 and SP before, the word at 676 after, R1, SP and PC after.
    for (name, [word, next], r1, sp, pushed, after, top, pc) in [
        (
            "JMP (R)",
            [0o111, 0],
            0o2000,
            0o700,
            0,
            0o2000,
            0o700,
            0o2000,
        ),
        (
            "JMP (R)+",
            [0o121, 0],
            0o2000,
            0o700,
            0,
            0o2002,
            0o700,
            0o2000,
        ),
        ("JMP relative", [0o167, 0o10], 0, 0o700, 0, 0, 0o700, 0o1014),
        (
            "JSR",
            [0o4137, 0o2000],
            0o123,
            0o700,
            0o123,
            0o1004,
            0o676,
            0o2000,
        ),
        (
            "JSR PC",
            [0o4737, 0o2000],
            5,
            0o700,
            0o1004,
            5,
            0o676,
            0o2000,
        ),
        (
            "JSR SP pushes SP as it was",
            [0o4637, 0o2000],
            5,
            0o700,
            0o700,
            5,
            0o1004,
            0o2000,
        ),
        (
            "JSR takes the address first",
            [0o4121, 0],
            0o2000,
            0o700,
            0o2002,
            0o1002,
            0o676,
            0o2000,
        ),
        ("RTS", [0o201, 0], 0o3000, 0o676, 0, 0, 0o700, 0o3000),
        ("RTS PC", [0o207, 0], 5, 0o676, 0, 5, 0o700, 0),
        (
            "RTS SP leaves the popped word",
            [0o206, 0],
            5,
            0o676,
            0,
            5,
            0,
            0o676,
        ),
    ] {
        let core = run(
            &rt,
            rt.alloc(),
            [word, next, 0],
            [0, r1, 0, 0, 0, 0, sp],
            0o17,
            &[],
        )?;
        assert_eq!(rt; core.registers(), [0, after, 0, 0, 0, 0, top, pc], "{name}");
        assert_eq!(rt; core.word(0o676), pushed, "{name}");
        assert_eq!(rt; core.ps(), 0o17, "{name}");
    }
    Ok(())
}

#[test]
fn calls_into_the_status_word(rt: HostRuntime) -> Result<(), Fail> {
    // JSR PC, @#1010 with SP at 0 pushes the address behind it, 1004, into PS.
    let core = run(&rt, rt.alloc(), [0o004737, 0o1010, 0], [0; 7], 0, &[])?;
    assert_eq!(rt; core.registers(), [0, 0, 0, 0, 0, 0, 0o177776, 0o1010]);
    assert_eq!(rt; core.ps(), 4);
    Ok(())
}

#[test]
fn counts_down(rt: HostRuntime) -> Result<(), Fail> {
    for (word, before, after, pc) in [(0o077001, 1, 0, 0o1002), (0o077002, 0, 0o177777, 0o776)] {
        let core = run(
            &rt,
            rt.alloc(),
            [word, 0, 0],
            [before, 0, 0, 0, 0, 0, 0],
            0o17,
            &[],
        )?;
        assert_eq!(rt; core.registers(), [after, 0, 0, 0, 0, 0, 0, pc]);
        assert_eq!(rt; core.ps(), 0o17);
    }
    Ok(())
}

#[test]
fn traps_and_returns(rt: HostRuntime) -> Result<(), Fail> {
    for (word, vector) in [(3, 0o14), (4, 0o20), (0o104377, 0o30), (0o104400, 0o34)] {
        let words = [(vector, 0o3000), (vector + 2, 0o177740)];
        let core = run(
            &rt,
            rt.alloc(),
            [word, 0, 0],
            [0, 0, 0, 0, 0, 0, 0o700],
            0o17,
            &words,
        )?;
        assert_eq!(rt;
            core.registers(),
            [0, 0, 0, 0, 0, 0, 0o674, 0o3000],
            "{word:o}"
        );
        assert_eq!(rt; core.ps(), 0o340);
        assert_eq!(rt; core.word(0o676), 0o17);
        assert_eq!(rt; core.word(0o674), 0o1002);
    }
    for word in [2, 6] {
        let words = [(0o674, 0o3000), (0o676, 0o177757)];
        let core = run(
            &rt,
            rt.alloc(),
            [word, 0, 0],
            [0, 0, 0, 0, 0, 0, 0o674],
            0,
            &words,
        )?;
        assert_eq!(rt; core.registers(), [0, 0, 0, 0, 0, 0, 0o700, 0o3000]);
        assert_eq!(rt; core.ps(), 0o357);
    }
    Ok(())
}

#[test]
fn treats_the_status_word(rt: HostRuntime) -> Result<(), Fail> {
    // R0 before and after, PS before and after.
    for (name, code, before, after, ps, left) in [
        (
            "MOV to PS stands",
            [0o12737, 0o177417, 0o177776],
            0,
            0,
            0,
            0o17,
        ),
        (
            "ADD to PS stands",
            [0o62737, 1, 0o177776],
            0,
            0,
            0o341,
            0o342,
        ),
        ("CLR of PS stands", [0o5037, 0o177776, 0], 0, 0, 0o357, 0),
        (
            "INCB of PS stands",
            [0o105237, 0o177776, 0],
            0,
            0,
            0o17,
            0o20,
        ),
        (
            "MOVB to PS stands",
            [0o110037, 0o177776, 0],
            0o523,
            0o523,
            0,
            0o123,
        ),
        (
            "TST of PS sets the codes",
            [0o5737, 0o177776, 0],
            0,
            0,
            0o357,
            0o340,
        ),
        (
            "CMP with PS sets the codes",
            [0o23727, 0o177776, 0o340],
            0,
            0,
            0o340,
            0o344,
        ),
        (
            "BIT with PS sets the codes",
            [0o32737, 1, 0o177776],
            0,
            0,
            0o356,
            0o344,
        ),
        (
            "MOVB of PS",
            [0o113700, 0o177776, 0],
            0,
            0o177757,
            0o357,
            0o351,
        ),
        (
            "MOVB to the high byte of PS",
            [0o110037, 0o177777, 0],
            0,
            0,
            0o353,
            0o345,
        ),
        (
            "COMB of the high byte of PS",
            [0o105137, 0o177777, 0],
            0,
            0,
            0o342,
            0o351,
        ),
        (
            "TSTB of the high byte of PS",
            [0o105737, 0o177777, 0],
            0,
            0,
            0o353,
            0o344,
        ),
        ("clear C", [0o241, 0, 0], 0, 0, 0o357, 0o356),
        ("clear all codes", [0o257, 0, 0], 0, 0, 0o357, 0o340),
        ("no operation", [0o240, 0, 0], 0, 0, 0o357, 0o357),
        ("set V and Z", [0o266, 0, 0], 0, 0, 0o341, 0o347),
    ] {
        let core = run(&rt, rt.alloc(), code, [before, 0, 0, 0, 0, 0, 0], ps, &[])?;
        assert_eq!(rt; core.register(0), after, "{name}");
        assert_eq!(rt; core.ps(), left, "{name}");
    }
    Ok(())
}

#[test]
fn branches_where_its_test_holds(rt: HostRuntime) -> Result<(), Fail> {
    // Each branch with a status word at which it goes on by three words, and one at which it does not.
    for (word, taken, passed) in [
        (0o001003, 0o13, 4),
        (0o001403, 4, 0o13),
        (0o002003, 0o12, 2),
        (0o002403, 0o10, 0o12),
        (0o003003, 0o12, 0o16),
        (0o003403, 4, 1),
        (0o100003, 7, 0o10),
        (0o100403, 0o10, 7),
        (0o101003, 0o12, 1),
        (0o101403, 4, 0o12),
        (0o102003, 0o15, 2),
        (0o102403, 2, 0o15),
        (0o103003, 0o16, 1),
        (0o103403, 1, 0o16),
    ] {
        for (ps, pc) in [(taken, 0o1010), (passed, 0o1002)] {
            let core = run(&rt, rt.alloc(), [word, 0, 0], [0; 7], ps, &[])?;
            assert_eq!(rt;
                core.registers(),
                [0, 0, 0, 0, 0, 0, 0, pc],
                "{word:o} at {ps:o}"
            );
            assert_eq!(rt; core.ps(), ps);
        }
    }
    let core = run(&rt, rt.alloc(), [0o000600, 0, 0], [0; 7], 0o17, &[])?;
    assert_eq!(rt; core.register(7), 0o402);
    Ok(())
}

#[test]
fn stops_and_waits(rt: HostRuntime) -> Result<(), Fail> {
    for (word, want, waiting) in [(0, Outcome::Halt, false), (1, Outcome::Idle, true)] {
        let mut devices = Devices::new();
        let mut said = ArrayVec::new();
        let mut core = core_at(rt.alloc(), [word, 0, 0])?;
        let outcome = execute(&mut core, &mut devices, &mut said);
        assert_eq!(rt; outcome, want);
        assert_eq!(rt; core.waiting(), waiting);
        assert_eq!(rt; core.registers(), [0, 0, 0, 0, 0, 0, 0, 0o1002]);
    }
    Ok(())
}

#[test]
fn runs_a_word_that_it_wrote(rt: HostRuntime) -> Result<(), Fail> {
    let mut devices = Devices::new();
    let mut said = ArrayVec::new();
    let mut core = core_at(rt.alloc(), [0o012737, 0, 0o1006])?;
    core.set_word(0o1006, 1);
    let first = execute(&mut core, &mut devices, &mut said);
    assert_eq!(rt; first, Outcome::Ran);
    assert!(rt; !core.waiting());
    let mut said = ArrayVec::new();
    let second = execute(&mut core, &mut devices, &mut said);
    assert_eq!(rt; second, Outcome::Halt);
    Ok(())
}

#[test]
fn reaches_the_devices(rt: HostRuntime) -> Result<(), Fail> {
    // With a key at hand and the printer ready: what R0 is before and after, whether the key still waits, and what is said.
    for (code, before, after, waits, want) in [
        ([0o113700, 0o177562, 0], 0, 0o101, false, None),
        ([0o113700, 0o177563, 0], 0o777, 0, true, None),
        ([0o013700, 0o177562, 0], 0, 0o101, false, None),
        ([0o105737, 0o177560, 0], 0, 0, true, None),
        (
            [0o010037, 0o177566, 0],
            0o501,
            0o501,
            true,
            Some(Entry::Print(0o101)),
        ),
        (
            [0o110037, 0o177566, 0],
            0o501,
            0o501,
            true,
            Some(Entry::Print(0o101)),
        ),
        ([0o110037, 0o177567, 0], 0o501, 0o501, true, None),
        ([0o105237, 0o177566, 0], 0, 0, true, Some(Entry::Print(1))),
        (
            [0o152737, 0o177, 0o177556],
            0,
            0,
            true,
            Some(Entry::Punch(0o177)),
        ),
    ] {
        let mut devices = Devices::new();
        devices.happen(Event::Key(0o101));
        let mut said = ArrayVec::new();
        let mut core = core_at(rt.alloc(), code)?;
        core.set_register(0, before);
        let outcome = execute(&mut core, &mut devices, &mut said);
        assert_eq!(rt; outcome, Outcome::Ran);
        assert_eq!(rt; core.register(0), after, "{code:?}");
        assert_eq!(rt; devices.keyboard.flag, waits, "{code:?}");
        assert_eq!(rt; said.as_slice().first().copied(), want, "{code:?}");
    }
    Ok(())
}

#[test]
fn loses_a_byte_that_the_printer_can_not_take(rt: HostRuntime) -> Result<(), Fail> {
    let mut devices = Devices::new();
    let mut said = ArrayVec::new();
    // BPT, whose pushes both go to the printer's neighbours: PS to TPB, PC to TPS.
    let mut core = core_at(rt.alloc(), [3, 0, 0])?;
    core.set_register(6, 0o177570);
    core.set_ps(0o102);
    core.set_word(0o14, 0o3000);
    let outcome = execute(&mut core, &mut devices, &mut said);
    assert_eq!(rt; outcome, Outcome::Ran);
    assert_eq!(rt; said.as_slice(), [Entry::Print(0o102)].as_slice());
    assert!(rt; devices.printer_busy());
    let mut again = core_at(rt.alloc(), [3, 0, 0])?;
    again.set_register(6, 0o177570);
    again.set_ps(0o103);
    let outcome = execute(&mut again, &mut devices, &mut said);
    assert_eq!(rt; outcome, Outcome::Ran);
    assert_eq!(rt;
        said.as_slice(),
        [Entry::Print(0o102), Entry::Lost(Port::Printer, 0o103)].as_slice()
    );
    Ok(())
}

#[test]
fn resets_the_devices(rt: HostRuntime) -> Result<(), Fail> {
    let mut devices = Devices::new();
    devices.happen(Event::Key(0o101));
    let mut said = ArrayVec::new();
    let mut core = core_at(rt.alloc(), [5, 0, 0])?;
    let outcome = execute(&mut core, &mut devices, &mut said);
    assert_eq!(rt; outcome, Outcome::Ran);
    assert_eq!(rt; devices, Devices::new());
    Ok(())
}

#[test]
fn changes_nothing_where_it_stops(rt: HostRuntime) -> Result<(), Fail> {
    // R0 is 2000 and R1 is 2001, a key is at hand, and SP is given.
    for (words, pc, sp, want) in [
        ([7, 0, 0], 0o1000, 0o700, Outcome::Reserved(7)),
        ([7, 0, 0], 0o1001, 0o700, Outcome::BusFault(0o1001)),
        ([0o013700, 1, 0], 0o1000, 0o700, Outcome::BusFault(1)),
        ([3, 0, 0], 0o1000, 0, Outcome::BusFault(0o177774)),
        ([3, 0, 0], 0o1000, 0o701, Outcome::BusFault(0o677)),
        (
            [0o012037, 0o177570, 0],
            0o1000,
            0o700,
            Outcome::BusFault(0o177570),
        ),
        ([0o013737, 0o177562, 3], 0o1000, 0o700, Outcome::BusFault(3)),
        (
            [0o113737, 0o177562, 0o177571],
            0o1000,
            0o700,
            Outcome::BusFault(0o177571),
        ),
        (
            [0o123737, 0o177562, 0o160000],
            0o1000,
            0o700,
            Outcome::BusFault(0o160000),
        ),
        ([0o005221, 0, 0], 0o1000, 0o700, Outcome::BusFault(0o2001)),
        (
            [0o004137, 0o3000, 0],
            0o1000,
            0o160002,
            Outcome::BusFault(0o160000),
        ),
        (
            [0o000002, 0, 0],
            0o1000,
            0o157776,
            Outcome::BusFault(0o160000),
        ),
        (
            [0o000200, 0, 0],
            0o1000,
            0o160000,
            Outcome::BusFault(0o160000),
        ),
        ([0o071122, 0, 0], 0o1000, 0o700, Outcome::Reserved(0o071122)),
        ([0o073122, 0, 0], 0o1000, 0o700, Outcome::Reserved(0o073122)),
        ([0o000100, 0, 0], 0o1000, 0o700, Outcome::Reserved(0o000100)),
        ([0o004107, 0, 0], 0o1000, 0o700, Outcome::Reserved(0o004107)),
    ] {
        let mut devices = Devices::new();
        devices.happen(Event::Key(0o101));
        let before = devices;
        let mut said = ArrayVec::new();
        let mut core = core_at(rt.alloc(), words)?;
        core.set_register(0, 0o2000);
        core.set_register(1, 0o2001);
        core.set_register(6, sp);
        core.set_register(7, pc);
        core.set_ps(0o345);
        let outcome = execute(&mut core, &mut devices, &mut said);
        assert_eq!(rt; outcome, want);
        assert_eq!(rt; core.registers(), [0o2000, 0o2001, 0, 0, 0, 0, sp, pc]);
        assert_eq!(rt; core.ps(), 0o345);
        assert_eq!(rt; devices, before);
        assert!(rt; said.is_empty());
    }
    Ok(())
}

#[test]
fn grants_a_request(rt: HostRuntime) -> Result<(), Fail> {
    let mut devices = Devices::new();
    let mut said = ArrayVec::new();
    let mut core = core_at(rt.alloc(), [0, 0, 0])?;
    core.set_register(6, 0o700);
    core.set_ps(0o13);
    core.set_waiting(true);
    core.set_word(0o60, 0o3000);
    core.set_word(0o62, 0o177600);
    let request = Request {
        vector: 0o60,
        level: 4,
    };
    let outcome = interrupt(&mut core, &mut devices, request, &mut said);
    assert_eq!(rt; outcome, Outcome::Ran);
    assert_eq!(rt; said.as_slice(), [Entry::Grant(0o60)].as_slice());
    assert_eq!(rt; core.word(0o676), 0o13);
    assert_eq!(rt; core.word(0o674), 0o1000);
    assert_eq!(rt; core.register(6), 0o674);
    assert_eq!(rt; core.register(7), 0o3000);
    assert_eq!(rt; core.ps(), 0o200);
    assert!(rt; !core.waiting());
    Ok(())
}

#[test]
fn refuses_a_grant_without_a_stack(rt: HostRuntime) -> Result<(), Fail> {
    let mut devices = Devices::new();
    let mut said = ArrayVec::new();
    let mut core = core_at(rt.alloc(), [0, 0, 0])?;
    let request = Request {
        vector: 0o60,
        level: 4,
    };
    // The first push would go to PS, at 177776; the second finds no word.
    let outcome = interrupt(&mut core, &mut devices, request, &mut said);
    assert_eq!(rt; outcome, Outcome::BusFault(0o177774));
    assert_eq!(rt; core.registers(), [0, 0, 0, 0, 0, 0, 0, 0o1000]);
    assert!(rt; said.is_empty());
    Ok(())
}
