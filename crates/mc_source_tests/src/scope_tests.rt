// The scopes on whole sources. The places were counted by hand.

use crate::stages::{Refusal, fault_at, fault_of, names_of};
use mc_prog::scoped::Scoped;
use mc_tree::fault::Code;
use mc_word::bytes::Memory;
use std::alloc::Global;
use std::test::Fail;

/// Sources of the scopes, each with the code and the column of its fault.
const SCOPES: &[(&str, Option<(Code, u32)>)] = &[
    ("module m; begin x := 1 end m.", Some((Code::S1, 17))),
    ("module m; var x: integer; begin x := 1 end m.", None),
    ("module m; begin m := 1 end m.", Some((Code::S1, 17))),
    (
        "module m; module n; end n; begin n := 1 end m.",
        Some((Code::S1, 34)),
    ),
    ("module m; var x: t; begin end m.", Some((Code::S1, 18))),
    (
        "module m; module n; use x; end n; var x: integer; begin end m.",
        Some((Code::S1, 25)),
    ),
    (
        "module m; module n; use n; end n; begin end m.",
        Some((Code::S1, 25)),
    ),
    (
        "module m; var x: integer; module n; module k; use x; end k; end n; begin end m.",
        Some((Code::S1, 51)),
    ),
    (
        "module m; var x: integer; module n; use x; module k; use x; begin x := 1 end k; end n; begin end m.",
        None,
    ),
    ("module m; const a = a; begin end m.", Some((Code::S1, 21))),
    ("module m; const a = 1; b = a; begin end m.", None),
    (
        "module m; type t = array 1:2 of t; begin end m.",
        Some((Code::S1, 33)),
    ),
    (
        "module m; type t = record a: integer end; u = t; begin end m.",
        None,
    ),
    (
        "device module m [4]; var a [a]: bits; begin end m.",
        Some((Code::S1, 29)),
    ),
    ("module m; type t = (a, b); const c = a; begin end m.", None),
    (
        "module m; const c = a; type t = (a, b); begin end m.",
        Some((Code::S1, 21)),
    ),
    (
        "module m; procedure p; begin q end p; procedure q; begin p; r end q; process r; begin end r; begin p end m.",
        None,
    ),
    (
        "module m; procedure p(a: integer; b: a1); begin end p; begin end m.",
        Some((Code::S1, 38)),
    ),
    (
        "module m; type t = integer; procedure p(t: t); begin t := 1 end p; begin end m.",
        None,
    ),
    (
        "module m; var x: integer; procedure p; const y = x; x = 1; z = x; begin end p; begin end m.",
        None,
    ),
    (
        "module m; procedure p; var a: integer; begin end p; begin a := 1 end m.",
        Some((Code::S1, 59)),
    ),
    (
        "module m; procedure f: integer; begin f := 1 end f; begin end m.",
        None,
    ),
    (
        "module m; var x: integer; x: char; begin end m.",
        Some((Code::S2, 27)),
    ),
    (
        "module m; var m: integer; begin end m.",
        Some((Code::S2, 15)),
    ),
    (
        "module m; var char: integer; begin end m.",
        Some((Code::S2, 15)),
    ),
    ("module doio; begin end doio.", Some((Code::S2, 8))),
    (
        "module m; type t = (a, a); begin end m.",
        Some((Code::S2, 24)),
    ),
    (
        "module m; type t = (a, b); var a: t; begin end m.",
        Some((Code::S2, 32)),
    ),
    (
        "module m; type t = record a, a: integer end; begin end m.",
        Some((Code::S2, 30)),
    ),
    (
        "module m; type t = record a: integer; b: record a: integer end end; begin end m.",
        None,
    ),
    (
        "module m; type t = record char: integer end; begin end m.",
        Some((Code::S2, 27)),
    ),
    (
        "module m; type t = record a: (b, c) end; var b: t; begin end m.",
        Some((Code::S2, 46)),
    ),
    (
        "module m; var a: integer; type t = record a: integer end; begin end m.",
        None,
    ),
    (
        "module m; procedure p(a, a: integer); begin end p; begin end m.",
        Some((Code::S2, 26)),
    ),
    (
        "module m; procedure p(a: integer); var a: integer; begin end p; begin end m.",
        Some((Code::S2, 40)),
    ),
    (
        "module m; var a: integer; procedure p(a: integer); var b: integer; begin end p; var b: integer; begin end m.",
        None,
    ),
    (
        "module m; procedure p(true: integer); begin end p; begin end m.",
        Some((Code::S2, 23)),
    ),
    (
        "module m; procedure p; var p: integer; begin p := 1 end p; begin end m.",
        None,
    ),
    (
        "module m; procedure p; begin end p; process p; begin end p; begin end m.",
        Some((Code::S2, 45)),
    ),
    (
        "module m; var x: integer; module n; use x, x; end n; begin end m.",
        Some((Code::S2, 44)),
    ),
    (
        "module m; var x: integer; module n; use x; var x: char; end n; begin end m.",
        Some((Code::S2, 48)),
    ),
    (
        "module m; module n; use integer; end n; begin end m.",
        Some((Code::S2, 25)),
    ),
    (
        "module m; var x: integer; module n; define x; var x: char; end n; begin end m.",
        Some((Code::S2, 44)),
    ),
    (
        "module m; module n; define x; var x: char; end n; var x: integer; begin end m.",
        Some((Code::S2, 55)),
    ),
    (
        "module m; module n; define x, x; var x: char; end n; begin end m.",
        Some((Code::S2, 31)),
    ),
    (
        "module m; module n; end n; module n; end n; begin end m.",
        Some((Code::S2, 35)),
    ),
    (
        "module m; module n; var n: integer; end n; begin end m.",
        None,
    ),
    (
        "module m; module n; define x; end n; begin end m.",
        Some((Code::S3, 28)),
    ),
    (
        "module m; var x: integer; module n; define y; use x; end n; begin end m.",
        Some((Code::S3, 44)),
    ),
    (
        "module m; module n; define x; module k; define x; var x: integer; end k; end n; begin end m.",
        Some((Code::S3, 28)),
    ),
    (
        "module m; module n; define p; procedure p; begin end p; end n; begin p end m.",
        None,
    ),
    (
        "module m; module n; define k; module k; end k; end n; begin end m.",
        None,
    ),
    (
        "module m; module n; define t; type t = (a, b); end n; var x: t; begin x := a end m.",
        Some((Code::S1, 76)),
    ),
    (
        "module m; var x: integer; module n; begin x := 1 end n; begin end m.",
        Some((Code::S4, 43)),
    ),
    (
        "module m; var x: integer; module n; use x; begin x := 1 end n; begin end m.",
        None,
    ),
    (
        "module m; module n; begin x := 1 end n; var x: integer; begin end m.",
        Some((Code::S1, 27)),
    ),
    (
        "module m; module n; begin p end n; procedure p; begin end p; begin end m.",
        Some((Code::S4, 27)),
    ),
    (
        "module m; var x: integer; module n; module k; begin x := 1 end k; end n; begin end m.",
        Some((Code::S4, 53)),
    ),
    (
        "module m; var n: integer; module k; module n; end n; begin n := 1 end k; begin end m.",
        Some((Code::S4, 60)),
    ),
    (
        "module m; const p = 4; device module d [p]; use p; end d; begin end m.",
        None,
    ),
    (
        "module m; const p = 4; device module d [p]; end d; begin end m.",
        Some((Code::S4, 41)),
    ),
    (
        "module m; module n; define x; var x: integer; end n; begin x := 1 end m.",
        None,
    ),
    (
        "module m; var y: integer; procedure q; begin x := 1 end q; module n; define x; var x: integer; end n; begin end m.",
        Some((Code::S1, 46)),
    ),
    ("module m; begin end k.", Some((Code::S5, 21))),
    (
        "module m; procedure p; begin end q; begin end m.",
        Some((Code::S5, 34)),
    ),
    (
        "module m; process p; begin end m; begin end m.",
        Some((Code::S5, 32)),
    ),
    (
        "module m; module n; end m; begin end m.",
        Some((Code::S5, 25)),
    ),
    (
        "module m; interface module n; end m; begin end m.",
        Some((Code::S5, 35)),
    ),
    (
        "device module m [4]; process p [64B]; begin end m; begin end m.",
        Some((Code::S5, 49)),
    ),
    (
        "module m; var x: integer; x: char; begin y := 1 end k.",
        Some((Code::S2, 27)),
    ),
    (
        "module m; begin y := 1; z := 1 end k.",
        Some((Code::S1, 17)),
    ),
    (
        "module m; procedure p; begin x := 1 end p; var x: integer; begin end m.",
        Some((Code::S1, 30)),
    ),
    (
        "module m; module n; begin x := 1 end n; module k; define x; var x: integer; end k; begin x := 1 end m.",
        Some((Code::S1, 27)),
    ),
    (
        "module m; module n; define k; module k; end k; end n; module o; use k; end o; begin end m.",
        Some((Code::S1, 69)),
    ),
    (
        "module m; module n; define k; module k; end k; end n; begin k end m.",
        Some((Code::S1, 61)),
    ),
    (
        "module m; module n; define k; module k; define x; var x: integer; end k; end n; begin x := 1 end m.",
        Some((Code::S1, 87)),
    ),
    (
        "module m; module n; define k; module k; end k; end n; var k: integer; begin end m.",
        Some((Code::S2, 59)),
    ),
    (
        "module m; module n; define k; module k; end k; end n; begin end m.",
        None,
    ),
    (
        "module m; module n; define k; module k; end k; end n; module o; use p; procedure q; begin p end q; end o; procedure p; begin end p; begin end m.",
        None,
    ),
];

/// Sources without faults, each with the columns of its uses and of their declarations; 0 is that of a standard name.
const NAMINGS: [(&str, &[(u32, u32)]); 9] = [
    (
        "module m; var x: integer; begin x := 1 end m.",
        &[(18, 0), (33, 15)],
    ),
    (
        "module m; var x: integer; procedure p; const y = x; x = y; z = x; begin end p; begin x := 2 end m.",
        &[(18, 0), (50, 15), (57, 46), (64, 53), (86, 15)],
    ),
    (
        "module m; procedure p; begin q end p; procedure q; begin p end q; begin p end m.",
        &[(30, 49), (58, 21), (73, 21)],
    ),
    (
        "module m; module n; define x; var x: integer; begin x := 1 end n; begin x := 2 end m.",
        &[(38, 0), (53, 35), (73, 35)],
    ),
    (
        "module m; var x: integer; module n; use x; module k; use x; begin x := 1 end k; end n; begin end m.",
        &[(18, 0), (67, 15)],
    ),
    (
        "module m; module n; define x; module k; end k; var x: char; end n; module o; use x; begin x := 'a' end o; begin end m.",
        &[(55, 0), (91, 52)],
    ),
    (
        "module m; const p = 4; device module d [p]; use p; end d; begin end m.",
        &[(41, 17)],
    ),
    (
        "module m; type t = record a, b: integer; c: array 1:2 of char end; var v, w: t; const i = 1; begin v.a := v.c[i] end m.",
        &[(33, 0), (58, 0), (78, 16), (100, 72), (107, 72), (111, 87)],
    ),
    (
        "module m; type t = integer; procedure f(t: t): integer; begin f := t + 1 end f; var x: integer; begin x := f(1) end m.",
        &[
            (20, 0),
            (44, 16),
            (48, 0),
            (63, 39),
            (68, 41),
            (88, 0),
            (103, 85),
            (108, 39),
        ],
    ),
];

/// The first source whose fault is another one, with what is found.
fn scope_mismatch(
    alloc: Global,
    rows: &[(&str, Option<(Code, u32)>)],
) -> Result<Option<String>, Memory> {
    for row in rows {
        let (source, fault) = *row;
        let expected = fault.map(|(code, column)| fault_at(code, column));
        let found = fault_of(names_of(alloc, source.as_bytes()))?;
        if found != expected {
            return format!(in alloc; "{source}: {found:?}")
                .map(Some)
                .map_err(|_| Memory);
        }
    }
    Ok(None)
}

#[test]
fn names_the_first_fault_of_scopes(rt: HostRuntime) -> Result<(), Fail> {
    let mismatch = scope_mismatch(rt.alloc(), SCOPES)?;
    assert!(rt; mismatch.is_none(), "{mismatch:?}");
    Ok(())
}

/// The columns of the uses and of their declarations; all stand in the first line, but standard names in none.
fn columns(alloc: Global, scoped: &Scoped) -> Result<Vec<(u32, u32)>, Memory> {
    let mut columns = Vec::new(alloc);
    for naming in scoped.as_slice() {
        columns.push((naming.at.column, naming.declared.column))?;
    }
    Ok(columns)
}

/// The columns of a source without faults; none of one that has a fault.
fn columns_of(alloc: Global, source: &[u8]) -> Result<Vec<(u32, u32)>, Memory> {
    match names_of(alloc, source) {
        Ok(scoped) => columns(alloc, &scoped),
        Err(Refusal::Fault(_)) => Ok(Vec::new(alloc)),
        Err(Refusal::Memory) => Err(Memory),
    }
}

#[test]
fn finds_declarations(rt: HostRuntime) -> Result<(), Fail> {
    let alloc = rt.alloc();
    for (source, expected) in NAMINGS {
        let found = columns_of(alloc, source.as_bytes())?;
        assert!(rt; found.as_slice() == expected, "{source}: {found:?}");
    }
    Ok(())
}
