// Types, sizes and frames of whole sources. The places were counted by hand, and so were nodes, sizes and frames.

use crate::more_type_rows::MORE_TYPES;
use crate::rows::{Stage, mismatch};
use crate::stages::{Refusal, fault_of, program_of};
use crate::type_rows::TYPES;
use mc_prog::program::{CodeInfo, Node, Program};
use mc_word::bytes::Memory;
use std::alloc::Global;
use std::test::Fail;

#[test]
fn names_the_first_fault_of_types(rt: HostRuntime) -> Result<(), Fail> {
    let mismatch = mismatch(rt.alloc(), Stage::Types, TYPES)?;
    assert!(rt; mismatch.is_none(), "{mismatch:?}");
    Ok(())
}

#[test]
fn names_more_first_faults_of_types(rt: HostRuntime) -> Result<(), Fail> {
    let mismatch = mismatch(rt.alloc(), Stage::Types, MORE_TYPES)?;
    assert!(rt; mismatch.is_none(), "{mismatch:?}");
    Ok(())
}

/// Whole programs without type faults: a used variable that is changed, a structured parameter, ranks, a clock.
const PROGRAMS: [&str; 4] = [
    "module m; var x: integer; module n; use x; begin x := 1 end n; begin end m.",
    "module copy; device module console [4]; define put; var TPS [177564B]: bits; TPB [177566B]: char; procedure put(c: char); begin while not TPS[7] do end; TPB := c end put; end console; type pair = array 1:2 of char; var a: pair; procedure show(p: pair; c: char); begin a[1] := c; put(p[1]); put(p[2]) end show; begin a := 'AB'; show(a, 'C'); put(a[1]) end copy.",
    "module ranks; device module console [4]; define put; var TPS [177564B]: bits; TPB [177566B]: char; procedure put(c: char); begin while not TPS[7] do end; TPB := c end put; end console; var s: signal; process a; begin b; wait(s, 2); put('a') end a; process b; begin c; wait(s, 1); put('b') end b; process c; begin d; wait(s); put('c') end c; process d; begin send(s); send(s); send(s) end d; begin a end ranks.",
    "module ticks; device module clock [6]; define tick; var LKS [177546B]: bits; tick: signal; process driver [100B]; begin LKS[6] := true; doio; LKS[6] := false; while awaited(tick) do send(tick) end end driver; begin driver end clock; device module console [4]; define put; var TPS [177564B]: bits; TPB [177566B]: char; procedure put(c: char); begin while not TPS[7] do end; TPB := c end put; end console; process p; begin wait(tick); put('x') end p; begin p; p; p end ticks.",
];

#[test]
fn types_whole_programs(rt: HostRuntime) -> Result<(), Fail> {
    let alloc = rt.alloc();
    for source in PROGRAMS {
        let found = fault_of(program_of(alloc, source.as_bytes()))?;
        assert!(rt; found.is_none(), "{source}: {found:?}");
    }
    Ok(())
}

/// The nodes of a program: a line for each, with its place's column, its type, its form and its parts.
const NODES: &str = "33 Some(0) Cell(0) []
38 Some(0) Cell(0) []
42 Some(0) Constant(1) []
38 Some(0) Add [1, 2]
33 None Assign [0, 3]
27 None Body [4]
0 None Bodies [5]
";

/// A node, as the table says it.
fn node_line(alloc: Global, node: &Node) -> Result<String, Memory> {
    format!(in alloc;
        "{} {:?} {:?} {:?}\n",
        node.place.column, node.type_of, node.form, node.parts.parts
    )
    .map_err(|_| Memory)
}

/// The nodes, as the table says them.
fn node_lines(alloc: Global, nodes: &[Node]) -> Result<String, Memory> {
    let mut text = String::new(alloc);
    for node in nodes {
        text.push_str(node_line(alloc, node)?.as_str())?;
    }
    Ok(text)
}

/// The nodes of a source, as the table says them.
fn nodes_of(alloc: Global, source: &str) -> Result<String, Refusal> {
    match program_of(alloc, source.as_bytes()) {
        Ok(program) => node_lines(alloc, program.nodes()).map_err(Refusal::from),
        Err(refusal) => Err(refusal),
    }
}

#[test]
fn nodes_stand_behind_their_parts(rt: HostRuntime) -> Result<(), Fail> {
    let source = "module m; var x: integer; begin x := x + 1 end m.";
    let found = nodes_of(rt.alloc(), source)?;
    assert!(rt; found.as_str() == NODES, "{found}");
    Ok(())
}

/// Sources with their sizes, in words: 12 for each token, and the data.
const SIZES: [(&str, u32); 3] = [
    ("module m; end m.", 72),
    (
        "module m; var a: array 1:2 of char; begin a := 'ab' end m.",
        244,
    ),
    (
        "device module m [4]; var TPS [177564B]: bits; i: integer; begin end m.",
        277,
    ),
];

/// How many words the program of a source takes.
fn size_of(alloc: Global, source: &str) -> Result<u32, Refusal> {
    program_of(alloc, source.as_bytes()).map(|program| program.size())
}

#[test]
fn counts_the_words_of_a_program(rt: HostRuntime) -> Result<(), Fail> {
    let alloc = rt.alloc();
    for (source, expected) in SIZES {
        let found = size_of(alloc, source);
        assert!(rt; found == Ok(expected), "{source}: {found:?}");
    }
    Ok(())
}

/// A structured parameter takes the two words of its type and one for its address.
const FRAMES: &str =
    "module m; type pair = array 1:2 of char; procedure q(a: integer; b: integer): integer; begin q := a end q; procedure p(a: pair; var x: integer); var i: integer; begin x := q(i + 1, 2) end p; begin end m.";

/// What is counted of the texts of a program that run.
#[derive(Debug, Drop)]
struct Counted {
    /// Of each procedure the words of its parameters, of its local variables and of its frame, and its slots.
    procedures: Vec<(u32, u32, u32, usize)>,
    /// The frames of the main process and of the body of each module.
    bodies: Vec<u32>,
}

/// The counts of procedures.
fn procedures_of(
    alloc: Global,
    procedures: &[CodeInfo],
) -> Result<Vec<(u32, u32, u32, usize)>, Memory> {
    let mut counted = Vec::new(alloc);
    for code in procedures {
        counted.push((code.params, code.locals, code.frame, code.slots.slots.len()))?;
    }
    Ok(counted)
}

/// The frames of the main process and of the body of each module.
fn bodies_of(alloc: Global, program: &Program) -> Result<Vec<u32>, Memory> {
    let mut frames = Vec::new(alloc);
    frames.push(program.main().frame)?;
    for module in program.modules() {
        frames.push(module.body.frame)?;
    }
    Ok(frames)
}

/// What is counted of a program.
fn counts(alloc: Global, program: &Program) -> Result<Counted, Memory> {
    Ok(Counted {
        procedures: procedures_of(alloc, program.procedures())?,
        bodies: bodies_of(alloc, program)?,
    })
}

/// What is counted of the program of a source.
fn counts_of(alloc: Global, source: &str) -> Result<Counted, Refusal> {
    match program_of(alloc, source.as_bytes()) {
        Ok(program) => counts(alloc, &program).map_err(Refusal::from),
        Err(refusal) => Err(refusal),
    }
}

#[test]
fn counts_the_words_of_frames(rt: HostRuntime) -> Result<(), Fail> {
    let found = counts_of(rt.alloc(), FRAMES)?;
    let procedures = [(2, 0, 30, 3), (4, 1, 45, 3)];
    assert!(rt;
        found.procedures.as_slice() == procedures.as_slice(),
        "{found:?}"
    );
    assert!(rt; found.bodies.as_slice() == [22, 22].as_slice(), "{found:?}");
    Ok(())
}
