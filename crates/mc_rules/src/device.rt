// Device code: the calls in the texts of device processes, and in those of all procedures that are called there.

ghost use Rattle.std.specs.Prelude.{◌≡◌, ◌↔◌, IfOk, OnOk, slice_set, true};
ghost use Rattle.std.specs.List.{Contains};
ghost use Rattle.mc_rules.specs.declared.call.Call.{Call};
ghost use Rattle.mc_rules.specs.DeviceCode.{IsDeviceCall};
ghost use Rattle.mc_rules.specs.Following.{HasCallOf, IsDriverCall, IsReached, body_at, entered, is_unmarked, marked_by};
ghost use Rattle.mc_rules.specs.Gathering.{Adds};

use crate::call::{Call, Called};
use crate::calls::gather;
use mc_prog::program::{CodeInfo, Node, ProcessInfo, Program};
use mc_word::bytes::Memory;
use std::alloc::Global;

// The calls in the texts of device processes.
fn driver_calls(
    alloc: Global,
    nodes: &[Node],
    processes: &[ProcessInfo],
) -> Result<Vec<Call>, Memory>
    ensures { IfOk result (λ calls. (call : Call) → Contains calls.items call ↔ IsDriverCall nodes.now processes.now call) }
{
    let mut calls = Vec::new(alloc);
    for process in processes {
        if process.vector.is_some() {
            gather(alloc, nodes, process.code.body as usize, &mut calls)?;
        }
    }
    Ok(calls)
}

// Marks a procedure, and says whether it had no mark.
fn mark(marks: &mut [bool], number: usize) -> bool
    ensures first { result ≡ is_unmarked marks.old number }
    ensures marked { marks.new ≡ slice_set marks.old number true }
{
    if number >= marks.len() || marks[number] {
        return false;
    }
    marks[number] = true;
    true
}

// The body of a procedure.
fn body_at(procedures: &[CodeInfo], number: usize) -> Option<usize>
    ensures { result ≡ body_at procedures.now number }
{
    match procedures.get(number) {
        Some(code) => Some(code.body as usize),
        None => None,
    }
}

// The body of a procedure that is called, where it had no mark; it has one then.
fn enter(procedures: &[CodeInfo], marks: &mut [bool], called: Called) -> Option<usize>
    ensures body { result ≡ entered procedures.now marks.old called }
    ensures marked { marks.new ≡ marked_by marks.old called }
{
    match called {
        Called::Procedure(number) => {
            if mark(marks, number as usize) {
                body_at(procedures, number as usize)
            } else {
                None
            }
        }
        _ => None,
    }
}

// Puts the calls of the text with a body behind others, where there is one.
fn gather_from(
    alloc: Global,
    nodes: &[Node],
    body: Option<usize>,
    found: &mut Vec<Call>,
) -> Result<(), Memory>
    ensures { OnOk result (Adds (HasCallOf nodes.now body) found.old.items found.new.items) }
{
    match body {
        Some(body) => gather(alloc, nodes, body, found),
        None => Ok(()),
    }
}

// Puts behind these calls those of the procedures that they call, and of all that those call.
fn follow(
    alloc: Global,
    nodes: &[Node],
    procedures: &[CodeInfo],
    found: &mut Vec<Call>,
) -> Result<(), Memory>
    ensures { OnOk result ((call : Call) → Contains found.new.items call ↔ IsReached nodes.now procedures.now found.old.items call) }
{
    let mut cleared = vec![in alloc; false; procedures.len()]?;
    let marks = cleared.as_mut_slice();
    let mut next = 0;
    while next < found.len() {
        let body = enter(procedures, marks, found[next].called);
        gather_from(alloc, nodes, body, found)?;
        next += 1;
    }
    Ok(())
}

/// All calls in device code.
///
/// # Errors
///
/// Want of memory.
pub fn device_calls(alloc: Global, program: &Program) -> Result<Vec<Call>, Memory>
    ensures { IfOk result (λ calls. (call : Call) → Contains calls.items call ↔ IsDeviceCall program.now call) }
{
    let mut calls = driver_calls(alloc, program.nodes(), program.processes())?;
    follow(alloc, program.nodes(), program.procedures(), &mut calls)?;
    Ok(calls)
}
