// The rules of calls, text by text.

ghost use Rattle.std.specs.Prelude.{◌≡◌, IfOk};
ghost use Rattle.mc_rules.specs.AnyOf.{AnyOf, IsFirstOf};
ghost use Rattle.mc_rules.specs.Rules.{owner_of, owner_fault, outside_fault, is_driver, is_doio, doio_fault, is_body, driver_fault, start_fault};
ghost use Rattle.mc_rules.specs.RuleFaults.{IsCallFault, IsTextFault, IsModuleFault, IsProcedureFault, IsProcessFault, process_kind, site_of};

use crate::call::{Call, Called, Site, SiteKind};
use crate::calls::calls_of;
use crate::declared::{is_device_module, priority_fault, process_fault, slots_fault, unless};
use mc_prog::first::earlier;
use mc_prog::program::{CodeInfo, ModuleInfo, ProcessInfo, Program, Slot};
use mc_tree::fault::{Code, Fault};
use mc_tree::place::Place;
use mc_word::Word;
use mc_word::bytes::Memory;
use std::alloc::Global;

// The module of a called procedure or process.
fn owner_of(program: &Program, called: Called) -> Option<u16>
    ensures { result ≡ owner_of program.now called }
{
    match called {
        Called::Procedure(number) => match program.procedures().get(number as usize) {
            Some(code) => Some(code.module),
            None => None,
        },
        Called::Process(number) => match program.processes().get(number as usize) {
            Some(process) => Some(process.code.module),
            None => None,
        },
        Called::Wait(..) | Called::Send(_) | Called::Doio => None,
    }
}

// The fault of a call from a device module of what is declared outside it.
fn outside_fault(program: &Program, site: Site, call: Call) -> Option<Fault>
    ensures { result ≡ outside_fault program.now site call }
{
    if !is_device_module(program.modules(), site.module) {
        return None;
    }
    match owner_of(program, call.called) {
        Some(owner) => unless(owner == site.module, Code::M5, call.place),
        None => None,
    }
}

fn is_driver(kind: SiteKind) -> bool
    ensures { result ≡ is_driver kind }
{
    matches!(kind, SiteKind::Driver)
}

fn is_doio(called: Called) -> bool
    ensures { result ≡ is_doio called }
{
    matches!(called, Called::Doio)
}

// The fault of a `doio` that stands in no device process.
fn doio_fault(site: Site, call: Call) -> Option<Fault>
    ensures { result ≡ doio_fault site call }
{
    unless(
        !is_doio(call.called) || is_driver(site.kind),
        Code::M8,
        call.place,
    )
}

fn is_body(kind: SiteKind) -> bool
    ensures { result ≡ is_body kind }
{
    matches!(kind, SiteKind::Body)
}

fn driver_fault(site: Site, process: &ProcessInfo, place: Place) -> Option<Fault>
    ensures { result ≡ driver_fault site process.now process.now.vector place }
{
    match process.vector {
        Some(_) => unless(
            is_body(site.kind) && site.module == process.code.module,
            Code::M10,
            place,
        ),
        None => None,
    }
}

// The fault of a start of a device process elsewhere than in the body of its module.
fn start_fault(program: &Program, site: Site, call: Call) -> Option<Fault>
    ensures { result ≡ start_fault program.now site call }
{
    match call.called {
        Called::Process(number) => match program.processes().get(number as usize) {
            Some(process) => driver_fault(site, process, call.place),
            None => None,
        },
        _ => None,
    }
}

// The first fault of a call in a text.
fn call_fault(program: &Program, site: Site, call: Call) -> Option<Fault>
    ensures { IsFirstOf (IsCallFault program.now site call) result }
{
    let outside = outside_fault(program, site, call);
    let started = earlier(doio_fault(site, call), start_fault(program, site, call));
    earlier(outside, started)
}

fn calls_fault(program: &Program, site: Site, calls: &[Call]) -> Option<Fault>
    ensures { IsFirstOf (AnyOf (IsCallFault program.now site) calls.now) result }
{
    let mut first = None;
    for call in calls {
        first = earlier(first, call_fault(program, site, *call));
    }
    first
}

fn slots_of(text: &CodeInfo) -> &[Slot]
    ensures { result.now ≡ text.now.slots }
{
    text.slots.slots.as_slice()
}

// The first fault of a text: of its local variables and of its calls.
fn text_fault(
    alloc: Global,
    program: &Program,
    text: &CodeInfo,
    kind: SiteKind,
) -> Result<Option<Fault>, Memory>
    ensures { IfOk result (λ found. IsFirstOf (IsTextFault program.now text.now kind) found) }
{
    let site = Site {
        module: text.module,
        kind,
    };
    let calls = calls_of(alloc, program.nodes(), text.body as usize)?;
    let locals = slots_fault(slots_of(text));
    Ok(earlier(locals, calls_fault(program, site, calls.as_slice())))
}

fn module_fault(
    alloc: Global,
    program: &Program,
    module: &ModuleInfo,
) -> Result<Option<Fault>, Memory>
    ensures { IfOk result (λ found. IsFirstOf (IsModuleFault program.now «module».now) found) }
{
    let text = text_fault(alloc, program, &module.body, SiteKind::Body)?;
    Ok(earlier(priority_fault(module), text))
}

fn process_kind(vector: Option<Word>) -> SiteKind
    ensures { result ≡ process_kind vector }
{
    match vector {
        Some(_) => SiteKind::Driver,
        None => SiteKind::Process,
    }
}

fn one_process_fault(
    alloc: Global,
    program: &Program,
    process: &ProcessInfo,
) -> Result<Option<Fault>, Memory>
    ensures { IfOk result (λ found. IsFirstOf (IsProcessFault program.now process.now) found) }
{
    let kind = process_kind(process.vector);
    let text = text_fault(alloc, program, &process.code, kind)?;
    Ok(earlier(process_fault(program.modules(), process), text))
}

/// The first fault of a module or in its body.
pub fn modules_fault(
    alloc: Global,
    program: &Program,
    modules: &[ModuleInfo],
) -> Result<Option<Fault>, Memory>
    ensures { IfOk result (λ found. IsFirstOf (AnyOf (IsModuleFault program.now) modules.now) found) }
{
    let mut first = None;
    for module in modules {
        first = earlier(first, module_fault(alloc, program, module)?);
    }
    Ok(first)
}

/// The first fault in a procedure.
pub fn procedures_fault(
    alloc: Global,
    program: &Program,
    procedures: &[CodeInfo],
) -> Result<Option<Fault>, Memory>
    ensures { IfOk result (λ found. IsFirstOf (AnyOf (IsProcedureFault program.now) procedures.now) found) }
{
    let mut first = None;
    for code in procedures {
        first = earlier(
            first,
            text_fault(alloc, program, code, SiteKind::Procedure)?,
        );
    }
    Ok(first)
}

/// The first fault of a process or in its text.
pub fn processes_fault(
    alloc: Global,
    program: &Program,
    processes: &[ProcessInfo],
) -> Result<Option<Fault>, Memory>
    ensures { IfOk result (λ found. IsFirstOf (AnyOf (IsProcessFault program.now) processes.now) found) }
{
    let mut first = None;
    for process in processes {
        first = earlier(first, one_process_fault(alloc, program, process)?);
    }
    Ok(first)
}
