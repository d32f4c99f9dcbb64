// The rules of modules, processes and variables.

ghost use Rattle.std.specs.Prelude.{◌≡◌, List, take};
ghost use Rattle.mc_prog.specs.Passes.{passed};
ghost use Rattle.mc_rules.specs.AnyOf.{AnyOf, IsFirstOf};
ghost use Rattle.mc_rules.specs.Rules.{fault, unless, is_device, priority_fault, level_of, level_fault, priority_of, process_fault, has_vector, vectors_behind, twice_fault, is_register, is_register_type, is_device_module, cell_fault, slot_fault};
ghost use Rattle.mc_rules.specs.RuleFaults.{IsSlotFault, IsCellFault, IsTwiceFault};

use mc_prog::first::earlier;
use mc_prog::program::{CellInfo, ModuleInfo, ModuleKind, ProcessInfo, Slot};
use mc_tree::fault::{Code, Fault};
use mc_tree::place::Place;
use mc_word::Word;
use mc_word::bytes::Memory;
use std::alloc::Global;

/// A fault at a place.
pub fn fault(code: Code, place: Place) -> Option<Fault>
    ensures { result ≡ fault code place }
{
    Some(Fault { code, place })
}

/// A fault, where this is not so.
pub fn unless(holds: bool, code: Code, place: Place) -> Option<Fault>
    ensures { result ≡ unless holds code place }
{
    if holds { None } else { fault(code, place) }
}

fn is_device(kind: ModuleKind) -> bool
    ensures { result ≡ is_device kind }
{
    match kind {
        ModuleKind::Plain | ModuleKind::Interface => false,
        ModuleKind::Device => true,
    }
}

/// The fault of a device module's priority, which is 4 to 7.
pub fn priority_fault(module: &ModuleInfo) -> Option<Fault>
    ensures { result ≡ priority_fault «module».now }
{
    let holds = !is_device(module.kind) || (4 <= module.priority && module.priority <= 7);
    unless(holds, Code::M1, module.priority_at)
}

// The level of a vector, where a device has it.
fn level_of(vector: Word) -> Option<u16>
    ensures { result ≡ level_of vector }
{
    match vector {
        0o60 | 0o64 | 0o70 | 0o74 => Some(4),
        0o100 => Some(6),
        _ => None,
    }
}

fn level_fault(priority: Option<u16>, level: Option<u16>, place: Place) -> Option<Fault>
    ensures { result ≡ level_fault priority level place }
{
    match (priority, level) {
        (_, None) => fault(Code::M2, place),
        (None, Some(_)) => None,
        (Some(priority), Some(level)) => unless(level <= priority, Code::M4, place),
    }
}

fn priority_of(modules: &[ModuleInfo], number: u16) -> Option<u16>
    ensures { result ≡ priority_of modules.now number }
{
    match modules.get(usize::from(number)) {
        Some(module) => Some(module.priority),
        None => None,
    }
}

/// The fault of a device process's vector, which is that of a device of a level not above the module's priority.
pub fn process_fault(modules: &[ModuleInfo], process: &ProcessInfo) -> Option<Fault>
    ensures { result ≡ process_fault modules.now process.now }
{
    match process.vector {
        Some(vector) => level_fault(
            priority_of(modules, process.code.module),
            level_of(vector),
            process.vector_at,
        ),
        None => None,
    }
}

fn is_register(address: Word) -> bool
    ensures { result ≡ is_register address }
{
    matches!(
        address,
        0o177546
            | 0o177550
            | 0o177552
            | 0o177554
            | 0o177556
            | 0o177560
            | 0o177562
            | 0o177564
            | 0o177566
    )
}

fn is_register_type(type_of: u32) -> bool
    ensures { result ≡ is_register_type type_of }
{
    matches!(type_of, 0 | 2 | 3)
}

/// Whether the module of this number is a device module.
pub fn is_device_module(modules: &[ModuleInfo], number: u16) -> bool
    ensures { result ≡ is_device_module modules.now number }
{
    match modules.get(usize::from(number)) {
        Some(module) => is_device(module.kind),
        None => false,
    }
}

fn cell_fault(modules: &[ModuleInfo], cell: &CellInfo) -> Option<Fault>
    ensures { result ≡ cell_fault modules.now cell.now }
{
    match cell.register {
        Some(address) => unless(
            is_device_module(modules, cell.module)
                && is_register(address)
                && is_register_type(cell.type_of),
            Code::M9,
            cell.at,
        ),
        None => None,
    }
}

fn slot_fault(slot: &Slot) -> Option<Fault>
    ensures { result ≡ slot_fault slot.now }
{
    match slot.register {
        Some(_) => fault(Code::M9, slot.at),
        None => None,
    }
}

/// The first fault of a register among the variables of modules.
pub fn cells_fault(modules: &[ModuleInfo], cells: &[CellInfo]) -> Option<Fault>
    ensures { IsFirstOf (AnyOf (IsCellFault modules.now) cells.now) result }
{
    let mut first = None;
    for cell in cells {
        first = earlier(first, cell_fault(modules, cell));
    }
    first
}

/// The first local variable that is declared as a register.
pub fn slots_fault(slots: &[Slot]) -> Option<Fault>
    ensures { IsFirstOf (AnyOf IsSlotFault slots.now) result }
{
    let mut first = None;
    for slot in slots {
        first = earlier(first, slot_fault(slot));
    }
    first
}
