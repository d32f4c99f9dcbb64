// The rules of modules and devices: the first fault of a program against them.
#![tactic(auto)]

mod call;
mod calls;
mod declared;
mod device;
mod fault;
mod signals;
mod texts;
mod vectors;

ghost use Rattle.std.specs.Prelude.{IfOk, IfErr};
ghost use Rattle.mc_rules.specs.AnyOf.{IsFirstOf};
ghost use Rattle.mc_rules.specs.RuleFaults.{HasNoRuleFault, IsRefused, IsRuleFault, IsDeclaredFault, IsDeviceFault, IsTextsFault};

use crate::call::Way;
use crate::declared::cells_fault;
use crate::device::device_calls;
pub use crate::fault::RuleFault;
use crate::signals::{both_ways_fault, ranks_fault, signallings};
use crate::texts::{modules_fault, procedures_fault, processes_fault};
use crate::vectors::vectors_fault;
use mc_prog::first::earlier;
use mc_prog::program::Program;
use mc_tree::fault::Fault;
use mc_word::bytes::Memory;
use std::alloc::Global;

// The first fault of a module, a procedure or a process, or in its text.
fn texts_fault(alloc: Global, program: &Program) -> Result<Option<Fault>, Memory>
    ensures { IfOk result (λ found. IsFirstOf (IsTextsFault program.now) found) }
{
    let modules = modules_fault(alloc, program, program.modules())?;
    let procedures = procedures_fault(alloc, program, program.procedures())?;
    let processes = processes_fault(alloc, program, program.processes())?;
    Ok(earlier(modules, earlier(procedures, processes)))
}

// The first vector that stands twice, or variable that may not be a register.
fn declared_fault(alloc: Global, program: &Program) -> Result<Option<Fault>, Memory>
    ensures { IfOk result (λ found. IsFirstOf (IsDeclaredFault program.now) found) }
{
    let vectors = vectors_fault(alloc, program.processes())?;
    let cells = cells_fault(program.modules(), program.cells());
    Ok(earlier(vectors, cells))
}

// The first fault of device code.
fn device_fault(alloc: Global, program: &Program) -> Result<Option<Fault>, Memory>
    ensures { IfOk result (λ found. IsFirstOf (IsDeviceFault program.now) found) }
{
    let calls = device_calls(alloc, program)?;
    let waits = signallings(alloc, program.nodes(), Way::Wait, calls.as_slice())?;
    let sends = signallings(alloc, program.nodes(), Way::Send, calls.as_slice())?;
    let ranks = ranks_fault(calls.as_slice());
    let both = both_ways_fault(alloc, waits.as_slice(), sends.as_slice())?;
    Ok(earlier(ranks, both))
}

// The first fault of a program.
fn first_fault(alloc: Global, program: &Program) -> Result<Option<Fault>, Memory>
    ensures { IfOk result (λ found. IsFirstOf (IsRuleFault program.now) found) }
{
    let texts = texts_fault(alloc, program)?;
    let declared = declared_fault(alloc, program)?;
    let device = device_fault(alloc, program)?;
    Ok(earlier(texts, earlier(declared, device)))
}

/// Looks for faults against the rules of modules and devices.
///
/// # Errors
///
/// `Refused` has the first fault against the rules: that of the least place, and at one place that of the least number.
pub fn check(alloc: Global, program: &Program) -> Result<(), RuleFault>
    ensures ok { IfOk result (λ done. HasNoRuleFault program.now) }
    ensures refused { IfErr result (λ fault. IsRefused program.now fault) }
{
    match first_fault(alloc, program)? {
        Some(fault) => Err(RuleFault::Refused(fault)),
        None => Ok(()),
    }
}
