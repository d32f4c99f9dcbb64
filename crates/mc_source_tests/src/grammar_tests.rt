// The parser on whole sources. The places were counted by hand.

use crate::stages::{fault_at, fault_of, tree_of};
use mc_tree::fault::Code;
use mc_word::bytes::Memory;
use std::alloc::Global;
use std::test::Fail;

/// Sources of the parser, each with the code and the column of its fault; none is a tree.
const PROGRAMS: [(&str, Option<(Code, u32)>); 21] = [
    (
        "module m; begin x := -a * b.c[1, 2] + f(x, 'y') <= [1, 2:3] or not [] end m.",
        None,
    ),
    ("module m; begin ; x[1].y := (a); p; q(1); ; end m.", None),
    ("module m; begin x := end m.", Some((Code::Unexpected, 22))),
    (
        "module m; begin x := a = b = c end m.",
        Some((Code::Unexpected, 28)),
    ),
    ("module m; begin x.y end m.", Some((Code::Unexpected, 21))),
    (
        "module m; begin x := f(a) (b) end m.",
        Some((Code::Unexpected, 27)),
    ),
    (
        "module m; begin x := [1,] end m.",
        Some((Code::Unexpected, 25)),
    ),
    (
        "module m; begin if a then b elsif c then d; e else f end; while a do b end; repeat a until b end m.",
        None,
    ),
    (
        "module m; begin loop a when b do c exit d when e exit end; case a of 1, 2: begin b end; 3: begin end end end m.",
        None,
    ),
    (
        "module m; begin if a else b end end m.",
        Some((Code::Unexpected, 22)),
    ),
    (
        "module m; begin case a of end end m.",
        Some((Code::Unexpected, 27)),
    ),
    (
        "module m; const a = 1; b = 2; type t = (x, y); u = array 1:2, 3:4 of record a, b: t; c: u end; var v, w: t; begin end m.",
        None,
    ),
    (
        "module m; procedure p(const a, b: t; var c: u; d: t): t; var x: t; begin end p; process q; begin end q; end m.",
        None,
    ),
    (
        "module m; interface module i; define a; use b, c; procedure p; begin end p; begin end i; module j; module k; end k; end j; end m.",
        None,
    ),
    (
        "device module m [4]; var a [1], b: t; process d [2]; begin end d; begin end m.",
        None,
    ),
    (
        "module m; device module d [4]; use x; process p [1]; begin doio end p; end d; end m.",
        None,
    ),
    (
        "module m; var x integer; begin end m.",
        Some((Code::Unexpected, 17)),
    ),
    ("module m; begin end m", Some((Code::Unexpected, 22))),
    ("module m; begin end m. x", Some((Code::Unexpected, 24))),
    (
        "device module m [4]; module n; end n; end m.",
        Some((Code::Unexpected, 22)),
    ),
    ("", Some((Code::Unexpected, 1))),
];

/// An assignment of a number in so many parentheses.
fn nested(alloc: Global, depth: usize) -> Result<Vec<u8>, Memory> {
    let mut text = Vec::from_slice(alloc, b"module m; begin x := ")?;
    for _ in 0..depth {
        text.push(b'(')?;
    }
    text.push(b'1')?;
    for _ in 0..depth {
        text.push(b')')?;
    }
    for b in b" end m." {
        text.push(*b)?;
    }
    Ok(text)
}

#[test]
fn names_the_first_fault_of_the_grammar(rt: HostRuntime) -> Result<(), Fail> {
    let alloc = rt.alloc();
    for (source, fault) in PROGRAMS {
        let expected = fault.map(|(code, column)| fault_at(code, column));
        let found = fault_of(tree_of(alloc, source.as_bytes()))?;
        assert!(rt; found == expected, "{source}: {found:?}");
    }
    Ok(())
}

#[test]
fn goes_as_deep_as_64_nodes(rt: HostRuntime) -> Result<(), Fail> {
    let alloc = rt.alloc();
    for (depth, expected) in [(62, None), (63, Some(fault_at(Code::TooDeep, 85)))] {
        let found = fault_of(tree_of(alloc, nested(alloc, depth)?.as_slice()))?;
        assert!(rt; found == expected, "{depth}: {found:?}");
    }
    Ok(())
}
