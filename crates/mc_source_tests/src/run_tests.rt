// Runs whose moves, journals and ends were written by hand. Bytes and vectors are octal.

use crate::runs::{End, Move, answers_of, run_of};
use crate::stages::Refusal;
use mc_meaning::steps::Acted;
use pdp_dev::entry::{Entry, Event};
use std::alloc::Global;
use std::test::Fail;

/// Whether a run of a source with these moves has this journal and this end.
fn holds(
    alloc: Global,
    source: &str,
    moves: &[Move],
    journal: &[Entry],
    end: End,
) -> Result<bool, Refusal> {
    let run = run_of(alloc, source, moves)?;
    Ok(run.journal.as_slice() == journal && run.end == end)
}

const RANKS: &str =
    "module ranks; device module console [4]; define put; var TPS [177564B]: bits; TPB [177566B]: char; procedure put(c: char); begin while not TPS[7] do end; TPB := c end put; end console; var s: signal; process a; begin b; wait(s, 2); put('a') end a; process b; begin c; wait(s, 1); put('b') end b; process c; begin d; wait(s); put('c') end c; process d; begin send(s); send(s); send(s) end d; begin a end ranks.";

#[test]
fn wakes_the_least_rank_and_then_the_longest_waiting(rt: HostRuntime) -> Result<(), Fail> {
    let moves = [
        Move::Steps(500),
        Move::Chooses(1),
        Move::Steps(500),
        Move::Chooses(2),
        Move::Steps(500),
        Move::Chooses(3),
        Move::Steps(500),
        Move::Chooses(4),
        Move::Steps(500),
        Move::Chooses(4),
        Move::Steps(500),
        Move::Happens(Event::Printer),
        Move::Steps(500),
        Move::Chooses(4),
        Move::Steps(500),
        Move::Happens(Event::Printer),
        Move::Steps(500),
        Move::Chooses(4),
        Move::Steps(500),
    ];
    let journal = [
        Entry::Print(0o142),
        Entry::Event(Event::Printer),
        Entry::Print(0o143),
        Entry::Event(Event::Printer),
        Entry::Print(0o141),
    ];
    let held = holds(rt.alloc(), RANKS, &moves, &journal, End::Ended);
    assert!(rt; held == Ok(true), "{held:?}");
    Ok(())
}

const ONE_WAITS: &str = "module m; var s: signal; begin send(s); wait(s) end m.";

#[test]
fn steps_until_the_main_process_waits(rt: HostRuntime) -> Result<(), Fail> {
    let answers = answers_of(rt.alloc(), ONE_WAITS, 100);
    let Ok(answers) = answers else {
        assert!(rt; false, "{answers:?}");
        return Ok(());
    };
    assert!(rt; answers.stepped > 0, "{answers:?}");
    assert!(rt;
        answers.first == Acted::Nothing && answers.second == Acted::Nothing,
        "{answers:?}"
    );
    let held = holds(rt.alloc(), ONE_WAITS, &[Move::Steps(100)], &[], End::Stuck);
    assert!(rt; held == Ok(true), "{held:?}");
    Ok(())
}

/// Whether the steps of a source answer Stepped this number of times, and then twice this trap.
fn traps(alloc: Global, source: &str, stepped: u32, trap: u16) -> Result<bool, Refusal> {
    let answers = answers_of(alloc, source, 1000)?;
    let last = Acted::Trapped(trap);
    Ok(answers.stepped == stepped && answers.first == last && answers.second == last)
}

/// Three steps lead to the statements. The first one takes four, and the second has made seven before it adds: it is replaced, `i`
/// is named, the sum is replaced, `i` is replaced, named and read, and 1 is given.
#[test]
fn traps_at_an_overflow(rt: HostRuntime) -> Result<(), Fail> {
    let source = "module m; var i: integer; begin i := 32767; i := i + 1 end m.";
    let held = traps(rt.alloc(), source, 14, 2);
    assert!(rt; held == Ok(true), "{held:?}");
    Ok(())
}

/// Behind the assignments of two constants, the quotient: it is replaced, `i` is named, the quotient is replaced, and each of its
/// sides is replaced, named and read. A minus takes three steps: it is replaced, its constant is given, and negated.
#[test]
fn traps_at_divisions(rt: HostRuntime) -> Result<(), Fail> {
    let overflow = "module m; var i, j: integer; begin i := 100000B; j := -1; i := i div j end m.";
    let zero = "module m; var i, j: integer; begin i := 100000B; j := 0; i := i div j end m.";
    let held = traps(rt.alloc(), overflow, 3 + 4 + 6 + 9, 2);
    assert!(rt; held == Ok(true), "{held:?}");
    let held = traps(rt.alloc(), zero, 3 + 4 + 4 + 9, 3);
    assert!(rt; held == Ok(true), "{held:?}");
    Ok(())
}

const MASK: &str =
    "module mask; device module kb [4]; define hold; var TKS [177560B]: bits; TKB [177562B]: char; TPS [177564B]: bits; TPB [177566B]: char; c: char; procedure hold; begin TPB := 'a'; while not TKS[7] do end; while not TPS[7] do end; TPB := 'b' end hold; process driver [60B]; begin TKS[6] := true; doio; c := TKB; while not TPS[7] do end; TPB := 'k' end driver; begin driver end kb; begin hold end mask.";

#[test]
fn masks_a_request_inside_its_device_module(rt: HostRuntime) -> Result<(), Fail> {
    let moves = [
        Move::Steps(500),
        Move::Happens(Event::Key(0o113)),
        Move::Steps(500),
        Move::Happens(Event::Printer),
        Move::Steps(500),
        Move::Grants,
        Move::Steps(500),
        Move::Happens(Event::Printer),
        Move::Steps(500),
    ];
    let journal = [
        Entry::Print(0o141),
        Entry::Event(Event::Key(0o113)),
        Entry::Event(Event::Printer),
        Entry::Print(0o142),
        Entry::Grant(0o60),
        Entry::Event(Event::Printer),
        Entry::Print(0o153),
    ];
    let held = holds(rt.alloc(), MASK, &moves, &journal, End::Ended);
    assert!(rt; held == Ok(true), "{held:?}");
    Ok(())
}

/// A grant before the procedure of the device module has returned.
#[test]
fn grants_nothing_inside_the_device_module(rt: HostRuntime) -> Result<(), Fail> {
    let moves = [
        Move::Steps(500),
        Move::Happens(Event::Key(0o113)),
        Move::Grants,
    ];
    let journal = [Entry::Print(0o141), Entry::Event(Event::Key(0o113))];
    let held = holds(rt.alloc(), MASK, &moves, &journal, End::Impossible(2));
    assert!(rt; held == Ok(true), "{held:?}");
    Ok(())
}

const NEST: &str =
    "module nest; device module clk [6]; define ticked; var LKS [177546B]: bits; ticked: Boolean; process driver [100B]; begin LKS[6] := true; doio; LKS[6] := false; ticked := true end driver; begin driver end clk; device module kb [4]; use ticked; var TKS [177560B]: bits; TKB [177562B]: char; TPS [177564B]: bits; TPB [177566B]: char; c: char; process driver [60B]; begin TKS[6] := true; doio; c := TKB; TPB := c; while not ticked do end; while not TPS[7] do end; TPB := '.' end driver; begin driver end kb; begin end nest.";

#[test]
fn nests_a_grant_in_another(rt: HostRuntime) -> Result<(), Fail> {
    let moves = [
        Move::Steps(500),
        Move::Happens(Event::Key(0o101)),
        Move::Grants,
        Move::Steps(500),
        Move::Happens(Event::Printer),
        Move::Steps(500),
        Move::Happens(Event::Clock),
        Move::Grants,
        Move::Steps(500),
        Move::Happens(Event::Printer),
    ];
    let journal = [
        Entry::Event(Event::Key(0o101)),
        Entry::Grant(0o60),
        Entry::Print(0o101),
        Entry::Event(Event::Printer),
        Entry::Event(Event::Clock),
        Entry::Grant(0o100),
        Entry::Print(0o56),
        Entry::Event(Event::Printer),
    ];
    let held = holds(rt.alloc(), NEST, &moves, &journal, End::Ended);
    assert!(rt; held == Ok(true), "{held:?}");
    Ok(())
}

#[test]
fn dismisses_a_grant_that_nobody_stands_at(rt: HostRuntime) -> Result<(), Fail> {
    let source =
        "device module kb [4]; var TKS [177560B]: bits; s: signal; process driver [60B]; begin TKS[6] := true; wait(s) end driver; begin driver end kb.";
    let moves = [
        Move::Steps(500),
        Move::Happens(Event::Key(0o101)),
        Move::Grants,
    ];
    let journal = [Entry::Event(Event::Key(0o101)), Entry::Grant(0o60)];
    let held = holds(rt.alloc(), source, &moves, &journal, End::Stuck);
    assert!(rt; held == Ok(true), "{held:?}");
    Ok(())
}

/// A workspace has no bound here: the calls go on.
#[test]
fn calls_itself_on_and_on(rt: HostRuntime) -> Result<(), Fail> {
    let source = "module m; procedure p; begin p end p; begin p end m.";
    let held = holds(rt.alloc(), source, &[Move::Steps(500)], &[], End::Going(1));
    assert!(rt; held == Ok(true), "{held:?}");
    Ok(())
}

const SIXTEEN: &str =
    "module m; var i: integer; s: signal; process p; begin wait(s) end p; begin i := 0; while i < 16 do p; i := i + 1 end end m.";

const FIFTEEN: &str =
    "module m; var i: integer; s: signal; process p; begin wait(s) end p; begin i := 0; while i < 15 do p; i := i + 1 end end m.";

/// Seventeen processes exist when the sixteenth is started, the main process among them: no number of them is too large here.
#[test]
fn starts_as_many_processes_as_the_text_says(rt: HostRuntime) -> Result<(), Fail> {
    let held = holds(
        rt.alloc(),
        SIXTEEN,
        &[Move::Steps(2000)],
        &[],
        End::Going(16),
    );
    assert!(rt; held == Ok(true), "{held:?}");
    let moves = [
        Move::Steps(2000),
        Move::Chooses(1),
        Move::Steps(500),
        Move::Chooses(2),
        Move::Steps(500),
        Move::Chooses(15),
        Move::Steps(500),
    ];
    let held = holds(rt.alloc(), FIFTEEN, &moves, &[], End::Going(15));
    assert!(rt; held == Ok(true), "{held:?}");
    Ok(())
}

#[test]
fn is_stuck_where_all_wait(rt: HostRuntime) -> Result<(), Fail> {
    let moves = [
        Move::Steps(2000),
        Move::Chooses(1),
        Move::Steps(500),
        Move::Chooses(2),
        Move::Steps(500),
        Move::Chooses(3),
        Move::Steps(500),
        Move::Chooses(4),
        Move::Steps(500),
        Move::Chooses(5),
        Move::Steps(500),
        Move::Chooses(6),
        Move::Steps(500),
        Move::Chooses(7),
        Move::Steps(500),
        Move::Chooses(8),
        Move::Steps(500),
        Move::Chooses(9),
        Move::Steps(500),
        Move::Chooses(10),
        Move::Steps(500),
        Move::Chooses(11),
        Move::Steps(500),
        Move::Chooses(12),
        Move::Steps(500),
        Move::Chooses(13),
        Move::Steps(500),
        Move::Chooses(14),
        Move::Steps(500),
        Move::Chooses(15),
        Move::Steps(500),
    ];
    let held = holds(rt.alloc(), FIFTEEN, &moves, &[], End::Stuck);
    assert!(rt; held == Ok(true), "{held:?}");
    Ok(())
}

#[test]
fn gives_the_turn_to_another_that_is_ready(rt: HostRuntime) -> Result<(), Fail> {
    let source =
        "module turns; device module console [4]; define put; var TPS [177564B]: bits; TPB [177566B]: char; procedure put(c: char); begin while not TPS[7] do end; TPB := c end put; end console; var s: signal; process x; begin send(s); put('x') end x; process y; begin put('y') end y; begin x; y; wait(s); put('m') end turns.";
    let moves = [
        Move::Steps(500),
        Move::Chooses(1),
        Move::Steps(500),
        Move::Chooses(2),
        Move::Steps(500),
        Move::Happens(Event::Printer),
        Move::Steps(500),
        Move::Chooses(1),
        Move::Steps(500),
        Move::Happens(Event::Printer),
        Move::Steps(500),
    ];
    let journal = [
        Entry::Print(0o155),
        Entry::Event(Event::Printer),
        Entry::Print(0o171),
        Entry::Event(Event::Printer),
        Entry::Print(0o170),
    ];
    let held = holds(rt.alloc(), source, &moves, &journal, End::Ended);
    assert!(rt; held == Ok(true), "{held:?}");
    Ok(())
}

#[test]
fn reads_the_left_operand_before_a_call_changes_it(rt: HostRuntime) -> Result<(), Fail> {
    let source =
        "module fold; device module console [4]; define put; var TPS [177564B]: bits; TPB [177566B]: char; procedure put(c: char); begin while not TPS[7] do end; TPB := c end put; end console; var i: integer; procedure f(k: integer): integer; begin i := 10; f := k end f; begin i := 1; i := i + f(1); put(char(100B + i)) end fold.";
    let journal = [Entry::Print(0o102)];
    let held = holds(
        rt.alloc(),
        source,
        &[Move::Steps(500)],
        &journal,
        End::Ended,
    );
    assert!(rt; held == Ok(true), "{held:?}");
    Ok(())
}

#[test]
fn adds_in_parentheses_six_deep(rt: HostRuntime) -> Result<(), Fail> {
    let source =
        "module deep; device module console [4]; define put; var TPS [177564B]: bits; TPB [177566B]: char; procedure put(c: char); begin while not TPS[7] do end; TPB := c end put; end console; begin put(char(100B + (1 + (2 + (3 + (4 + (5 + 6))))))) end deep.";
    let journal = [Entry::Print(0o125)];
    let held = holds(
        rt.alloc(),
        source,
        &[Move::Steps(500)],
        &journal,
        End::Ended,
    );
    assert!(rt; held == Ok(true), "{held:?}");
    Ok(())
}

#[test]
fn copies_a_structured_parameter(rt: HostRuntime) -> Result<(), Fail> {
    let source =
        "module copy; device module console [4]; define put; var TPS [177564B]: bits; TPB [177566B]: char; procedure put(c: char); begin while not TPS[7] do end; TPB := c end put; end console; type pair = array 1:2 of char; var a: pair; procedure show(p: pair; c: char); begin a[1] := c; put(p[1]); put(p[2]) end show; begin a := 'AB'; show(a, 'C'); put(a[1]) end copy.";
    let moves = [
        Move::Steps(500),
        Move::Happens(Event::Printer),
        Move::Steps(500),
        Move::Happens(Event::Printer),
        Move::Steps(500),
    ];
    let journal = [
        Entry::Print(0o101),
        Entry::Event(Event::Printer),
        Entry::Print(0o102),
        Entry::Event(Event::Printer),
        Entry::Print(0o103),
    ];
    let held = holds(rt.alloc(), source, &moves, &journal, End::Ended);
    assert!(rt; held == Ok(true), "{held:?}");
    Ok(())
}

/// The second call of each has the words of the first one, which has returned: its result and its local are 0 again.
#[test]
fn begins_each_call_with_zeros(rt: HostRuntime) -> Result<(), Fail> {
    let source =
        "module again; device module console [4]; define put; var TPS [177564B]: bits; TPB [177566B]: char; procedure put(c: char); begin while not TPS[7] do end; TPB := c end put; end console; procedure f(k: integer): integer; begin if k = 1 then f := 5 end end f; procedure p(k: integer); var x: integer; begin if k = 1 then x := 6 end; put(char(100B + x)) end p; begin put(char(100B + f(1))); put(char(100B + f(0))); p(1); p(0) end again.";
    let moves = [
        Move::Steps(500),
        Move::Happens(Event::Printer),
        Move::Steps(500),
        Move::Happens(Event::Printer),
        Move::Steps(500),
        Move::Happens(Event::Printer),
        Move::Steps(500),
    ];
    let journal = [
        Entry::Print(0o105),
        Entry::Event(Event::Printer),
        Entry::Print(0o100),
        Entry::Event(Event::Printer),
        Entry::Print(0o106),
        Entry::Event(Event::Printer),
        Entry::Print(0o100),
    ];
    let held = holds(rt.alloc(), source, &moves, &journal, End::Ended);
    assert!(rt; held == Ok(true), "{held:?}");
    Ok(())
}

/// The main process traps while the keyboard may ask; then a key comes, and nothing is granted.
#[test]
fn grants_nothing_after_a_trap(rt: HostRuntime) -> Result<(), Fail> {
    let source =
        "module m; device module kb [4]; var TKS [177560B]: bits; process driver [60B]; begin TKS[6] := true; doio end driver; begin driver end kb; var i: integer; begin i := 0; i := 1 div i end m.";
    let moves = [
        Move::Steps(500),
        Move::Happens(Event::Key(0o101)),
        Move::Grants,
    ];
    let journal = [Entry::Event(Event::Key(0o101))];
    let held = holds(rt.alloc(), source, &moves[..2], &journal, End::Trapped(3));
    assert!(rt; held == Ok(true), "{held:?}");
    let held = holds(rt.alloc(), source, &moves, &journal, End::Impossible(2));
    assert!(rt; held == Ok(true), "{held:?}");
    Ok(())
}

/// A truth that a comparison gives is written to a bit, and its opposite to another.
#[test]
fn writes_what_comparisons_give_to_bits(rt: HostRuntime) -> Result<(), Fail> {
    let source =
        "module flags; device module console [4]; define put; var TPS [177564B]: bits; TPB [177566B]: char; procedure put(c: char); begin while not TPS[7] do end; TPB := c end put; end console; type hue = (red, green); var b: bits; begin b := [0]; b[6] := 'a' < 'b'; b[1] := red < green; b[0] := not b[6]; b[2] := -1 > 1; put(char(integer(b))) end flags.";
    let journal = [Entry::Print(0o102)];
    let held = holds(
        rt.alloc(),
        source,
        &[Move::Steps(500)],
        &journal,
        End::Ended,
    );
    assert!(rt; held == Ok(true), "{held:?}");
    Ok(())
}
