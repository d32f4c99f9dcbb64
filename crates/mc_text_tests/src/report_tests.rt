// Each form of a line, and the reports of small runs.

ghost use Rattle.std.specs.Prelude.{◌≡◌, ◌<◌, length};

use mc_report::digits::decimal_digits;
use mc_report::ending::Ending;
use mc_report::lines::{last_lines, line_of, report};
use mc_report::pieces::Pieces;
use pdp_dev::entry::{Entry, Event, Port};
use std::test::Fail;

#[test]
fn shows_output_always(rt: HostRuntime) {
    for (entry, want) in [
        (Entry::Print(0o101), "print 101\n"),
        (Entry::Punch(0o7), "punch 007\n"),
        (Entry::Lost(Port::Printer, 0o377), "lost printer 377\n"),
        (Entry::Lost(Port::Punch, 0), "lost punch 000\n"),
    ] {
        assert_eq!(rt; line_of(entry, false).as_slice(), want.as_bytes());
        assert_eq!(rt; line_of(entry, true).as_slice(), want.as_bytes());
    }
}

#[test]
fn shows_events_and_grants_in_a_journal(rt: HostRuntime) {
    for (entry, want) in [
        (Entry::Event(Event::Key(0o101)), "event key 101\n"),
        (Entry::Event(Event::Printer), "event printer\n"),
        (Entry::Event(Event::Punch), "event punch\n"),
        (
            Entry::Event(Event::Reader(Some(0o101))),
            "event reader 101\n",
        ),
        (Entry::Event(Event::Reader(None)), "event reader end\n"),
        (Entry::Event(Event::Clock), "event clock\n"),
        (Entry::Grant(0o60), "grant 060\n"),
        (Entry::Grant(0o777), "grant 777\n"),
        (Entry::Grant(0o1000), "grant 001000\n"),
    ] {
        assert_eq!(rt; line_of(entry, true).as_slice(), want.as_bytes());
        assert_eq!(rt; line_of(entry, false).len(), 0);
    }
}

#[test]
fn ends_with_the_count_and_the_ending(rt: HostRuntime) {
    for (ending, want) in [
        (Ending::End, "instructions 12\nend\n"),
        (Ending::Stuck, "instructions 12\nstuck\n"),
        (Ending::Limit, "instructions 12\nlimit\n"),
        (Ending::Halt, "instructions 12\nhalt\n"),
        (
            Ending::BusFault(0o177774),
            "instructions 12\nbus fault 177774\n",
        ),
        (Ending::Reserved(0o7), "instructions 12\nreserved 000007\n"),
        (Ending::Silent, "instructions 12\nsilent\n"),
    ] {
        if let Ending::Trap(_) = ending {
            continue;
        }
        assert_eq!(rt; last_lines(12, ending).as_slice(), want.as_bytes());
    }
}

#[test]
fn names_each_trap(rt: HostRuntime) {
    for (n, want) in [
        (1, "instructions 0\ntrap 1 index\n"),
        (2, "instructions 0\ntrap 2 overflow\n"),
        (3, "instructions 0\ntrap 3 divide\n"),
        (4, "instructions 0\ntrap 4 case\n"),
        (5, "instructions 0\ntrap 5 rank\n"),
        (6, "instructions 0\ntrap 6 range\n"),
        (7, "instructions 0\ntrap 7 twice\n"),
        (8, "instructions 0\ntrap 8 workspace\n"),
        (9, "instructions 0\ntrap 9 room\n"),
    ] {
        assert!(rt; 1 <= n && n <= 9);
        assert_eq!(rt; last_lines(0, Ending::Trap(n)).as_slice(), want.as_bytes());
    }
}

#[test]
fn counts_in_decimal(rt: HostRuntime) {
    for (n, want) in [
        (0, "0"),
        (9, "9"),
        (10, "10"),
        (20000000, "20000000"),
        (u64::MAX, "18446744073709551615"),
    ] {
        assert_eq!(rt; decimal_digits(n).as_slice(), want.as_bytes());
    }
}

#[test]
fn reports_a_run(rt: HostRuntime) -> Result<(), Fail> {
    let entries = [
        Entry::Event(Event::Key(0o101)),
        Entry::Grant(0o60),
        Entry::Print(0o101),
        Entry::Event(Event::Printer),
    ];
    let long = report(rt.alloc(), &entries, 31, Ending::Stuck, true)?;
    let want = "event key 101\ngrant 060\nprint 101\nevent printer\ninstructions 31\nstuck\n";
    assert_eq!(rt; long.as_slice(), want.as_bytes());
    let short = report(rt.alloc(), &entries, 31, Ending::Stuck, false)?;
    assert_eq!(rt;
        short.as_slice(),
        b"print 101\ninstructions 31\nstuck\n".as_slice()
    );
    Ok(())
}

#[test]
fn holds_a_piece(rt: HostRuntime) -> Result<(), Fail> {
    let mut pieces = Pieces::new(rt.alloc())?;
    for _ in 0..3 {
        for i in 0..4096u16 {
            assert!(rt; !pieces.is_full());
            assert_eq!(rt; pieces.held().len(), usize::from(i));
            pieces.push((i % 256) as u8);
        }
        assert!(rt; pieces.is_full());
        assert_eq!(rt; pieces.held().get(4095), Some(&255));
        pieces.clear();
        assert_eq!(rt; pieces.held().len(), 0);
    }
    Ok(())
}
