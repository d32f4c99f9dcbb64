// Sources that are checked alone.

use crate::rows::{Row, message, mismatch, read_difference};
use crate::sources::PRINTS_A;
use mc_word::bytes::Memory;
use std::alloc::Global;
use std::test::Fail;

/// A keyboard, a printer and a process between them.
const TERMINAL: &str = "module terminal;
device module keyboard [4];
define getch;
const size = 8;
var TKS [177560B]: bits; TKB [177562B]: char;
n, in, out: integer;
nonempty, nonfull: signal;
buf: array 1:size of char;
procedure getch(var c: char);
begin if n = 0 then wait(nonempty) end;
c := buf[out];
out := out mod size + 1; n := n - 1; send(nonfull) end getch;
process driver [60B];
begin loop if n = size then wait(nonfull) end;
TKS[6] := true; doio; TKS[6] := false;
buf[in] := TKB;
in := in mod size + 1; n := n + 1; send(nonempty) end end driver;
begin in := 1; out := 1; driver end keyboard;
device module printer [4];
define putch;
const size = 8;
var TPS [177564B]: bits; TPB [177566B]: char;
n, in, out: integer;
nonempty, nonfull: signal;
buf: array 1:size of char;
procedure putch(c: char);
begin if n = size then wait(nonfull) end;
buf[in] := c;
in := in mod size + 1; n := n + 1; send(nonempty) end putch;
process driver [64B];
begin loop if n = 0 then wait(nonempty) end;
TPB := buf[out];
out := out mod size + 1; n := n - 1; TPS[6] := true; doio; TPS[6] := false; send(nonfull) end end driver;
begin in := 1; out := 1; driver end printer;
process echo; var c: char;
begin loop getch(c); putch(c) end end echo;
begin echo end terminal.";

/// A source, the status that `check` answers, and what it prints.
#[derive(Debug)]
struct CheckRow(&'static str, u8, &'static str);

impl Row for CheckRow {
    fn difference(&self, alloc: Global) -> Result<Option<String>, Memory> {
        let CheckRow(source, status, line) = self;
        read_difference(alloc, "check a", source, *status, line)
    }
}

/// Sources with faults, and two that are accepted.
const CHECKED: &[CheckRow] = &[
    CheckRow("", 2, "source 1 1 Unexpected\n"),
    CheckRow("module m; begin end m", 2, "source 1 22 Unexpected\n"),
    CheckRow("module m; begin end k.", 2, "source 1 21 S5\n"),
    CheckRow(
        "device module k [4]; process d [100B]; begin doio end d; begin d end k.",
        2,
        "source 1 33 M4\n",
    ),
    CheckRow(
        "device module k [4]; process a [60B]; begin doio end a; process b [60B]; begin doio end b; end k.",
        2,
        "source 1 68 M3\n",
    ),
    CheckRow(
        "module m; procedure p; begin end p; device module d [4]; use p; begin p end d; begin end m.",
        2,
        "source 1 71 M5\n",
    ),
    CheckRow("module m; begin doio end m.", 2, "source 1 17 M8\n"),
    // The lines of a source are counted, and its columns in each line.
    CheckRow("module m;\nbegin\n  doio\nend m.\n", 2, "source 3 3 M8\n"),
    CheckRow(PRINTS_A, 0, "ok\n"),
    CheckRow(TERMINAL, 0, "ok\n"),
];

#[test]
fn checks_sources(rt: HostRuntime) -> Result<(), Fail> {
    let mismatch = mismatch(rt.alloc(), CHECKED)?;
    assert!(rt; mismatch.is_none(), "{}", message(&mismatch));
    Ok(())
}
