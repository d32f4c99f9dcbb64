// Calls: activations with their parameters, and their ends.

ghost use Rattle.std.specs.Prelude.{◌≡◌, ◌++◌, IfOk, OnOk, OnErr, slice_get};
ghost use Rattle.mc_meaning.specs.Parts.{form_at};
ghost use Rattle.mc_meaning.specs.Calling.{called, called_items, first_words, scalar_for, scalars_for, zero_for, enter_procedure, byte_moves, clears, copies, enter_body, leave, local_clears, moves, parameter_moves, priority_in, priority_inside, reference_for, references_for, result_from, result_slot, slot_clears, text_of, with_result, word_moves};
ghost use Rattle.mc_meaning.specs.Kept.{configuration_of};

use crate::access::moved_name;
use crate::configuration::Config;
use crate::parts::{module_at, number, words_of};
use crate::process::{Item, Process, Reference, References, Running};
use crate::store::{Found, Name, Source, Target};
use mc_prog::program::{CodeInfo, Form, ModuleKind, Program, Slot, SlotKind};
use mc_word::Word;
use mc_word::bytes::Memory;
use std::alloc::Global;
use std::collections::VecDeque;

/// The priority inside a module: that of a device module holds, elsewhere it stays.
pub(crate) fn priority_inside(kind: ModuleKind, own: u16, before: u16) -> u16
    ensures { result ≡ priority_inside kind own before }
{
    match kind {
        ModuleKind::Device => own,
        ModuleKind::Plain | ModuleKind::Interface => before,
    }
}

/// The priority in the module of this number.
pub(crate) fn priority_in(program: &Program, number: u16, before: u16) -> u16
    ensures { result ≡ priority_in (slice_get program.now.modules number) before }
{
    match program.modules().get(number as usize) {
        Some(info) => priority_inside(info.kind, info.priority, before),
        None => before,
    }
}

// Moves of so many words.
fn word_moves(items: &mut Vec<Item>, to: Name, from: Name, words: u32) -> Result<(), Memory>
    ensures { OnOk result (items.new.items ≡ items.old.items ++ word_moves to from 0 words) }
{
    let mut k = 0;
    while k < words {
        let offset = u64::from(k);
        let source = Source::Stored(moved_name(from, offset)?);
        items.push(Item::Moves(moved_name(to, offset)?, source))?;
        k += 1;
    }
    Ok(())
}

// Moves of the bytes of a text.
fn byte_moves(items: &mut Vec<Item>, to: Name, bytes: &[u8]) -> Result<(), Memory>
    ensures { OnOk result (items.new.items ≡ items.old.items ++ byte_moves to 0 bytes.now) }
{
    let mut k = 0;
    while k < bytes.len() {
        let name = moved_name(to, k as u64)?;
        items.push(Item::Moves(name, Source::Byte(bytes[k])))?;
        k += 1;
    }
    Ok(())
}

// The bytes of a text.
fn text_at(program: &Program, n: u32) -> &[u8]
    ensures { result.now ≡ text_of (form_at program.now n) }
{
    match program.nodes().get(n as usize) {
        Some(node) => match &node.form {
            Form::Literal(text) => text.as_slice(),
            _ => &[],
        },
        None => &[],
    }
}

/// Adds the moves of a structured value of so many words, lowest word first.
pub(crate) fn moves(
    items: &mut Vec<Item>,
    program: &Program,
    to: Name,
    found: Found,
    words: u32,
) -> Result<(), Memory>
    ensures { OnOk result (items.new.items ≡ items.old.items ++ moves program.now to found words) }
{
    match found {
        Found::Named(Target::Stored(from)) => word_moves(items, to, from, words),
        Found::Text(n) => byte_moves(items, to, text_at(program, n)),
        _ => Ok(()),
    }
}

// Sets so many words to zero.
fn clears(items: &mut Vec<Item>, name: Name, words: u32) -> Result<(), Memory>
    ensures { OnOk result (items.new.items ≡ items.old.items ++ clears name 0 words) }
{
    let mut k = 0;
    while k < words {
        items.push(Item::Clears(moved_name(name, u64::from(k))?))?;
        k += 1;
    }
    Ok(())
}

// Sets the words of a local to zero.
fn slot_clears(
    items: &mut Vec<Item>,
    program: &Program,
    name: Name,
    type_of: u32,
    kind: SlotKind,
) -> Result<(), Memory>
    ensures { OnOk result (items.new.items ≡ items.old.items ++ slot_clears program.now name type_of kind) }
{
    match kind {
        SlotKind::Local => clears(items, name, words_of(program, type_of)),
        SlotKind::Constant | SlotKind::Variable | SlotKind::Result => Ok(()),
    }
}

/// Sets the words of the locals of an activation to zero, one after the other.
pub(crate) fn local_clears(
    items: &mut Vec<Item>,
    program: &Program,
    n: u32,
    activation: u64,
    slots: &[Slot],
) -> Result<(), Memory>
    ensures { OnOk result (items.new.items ≡ items.old.items ++ local_clears program.now n activation 0 slots.now) }
{
    let mut k = 0;
    while k < slots.len() {
        let name = Name::Private(n, activation, number(k)?, 0);
        slot_clears(items, program, name, slots[k].type_of, slots[k].kind)?;
        k += 1;
    }
    Ok(())
}

// What a `var` parameter stands for.
fn reference_for(
    references: &mut Vec<Reference>,
    slot: u32,
    kind: SlotKind,
    found: Found,
) -> Result<(), Memory>
    ensures { OnOk result (references.new.items ≡ references.old.items ++ reference_for slot kind found) }
{
    match (kind, found) {
        (SlotKind::Variable, Found::Named(target)) => {
            references.push(Reference { slot, target })?;
            Ok(())
        }
        _ => Ok(()),
    }
}

/// What the `var` parameters stand for.
pub(crate) fn references_for(
    alloc: Global,
    slots: &[Slot],
    arguments: &[Found],
) -> Result<References, Memory>
    ensures { IfOk result (λ references. references ≡ references_for 0 slots.now arguments.now) }
{
    let mut references = Vec::new(alloc);
    let mut k = 0;
    while k < slots.len() && k < arguments.len() {
        reference_for(&mut references, number(k)?, slots[k].kind, arguments[k])?;
        k += 1;
    }
    Ok(References { references })
}

// The moves of a structured parameter.
fn parameter_moves(
    items: &mut Vec<Item>,
    program: &Program,
    name: Name,
    slot: Slot,
    found: Found,
) -> Result<(), Memory>
    ensures { OnOk result (items.new.items ≡ items.old.items ++ parameter_moves program.now name slot.type_of slot.kind found) }
{
    match slot.kind {
        SlotKind::Constant => moves(items, program, name, found, words_of(program, slot.type_of)),
        SlotKind::Variable | SlotKind::Local | SlotKind::Result => Ok(()),
    }
}

/// The moves of structured parameters, in the order of the parameters.
pub(crate) fn copies(
    items: &mut Vec<Item>,
    program: &Program,
    n: u32,
    activation: u64,
    slots: &[Slot],
    arguments: &[Found],
) -> Result<(), Memory>
    ensures { OnOk result (items.new.items ≡ items.old.items ++ copies program.now n activation 0 slots.now arguments.now) }
{
    let mut k = 0;
    while k < slots.len() && k < arguments.len() {
        let name = Name::Private(n, activation, number(k)?, 0);
        parameter_moves(items, program, name, slots[k], arguments[k])?;
        k += 1;
    }
    Ok(())
}

// The word of a scalar parameter.
fn scalar_for(
    words: &mut Vec<(Name, Word)>,
    name: Name,
    kind: SlotKind,
    found: Found,
) -> Result<(), Memory>
    ensures { OnOk result (words.new.items ≡ words.old.items ++ scalar_for name kind found) }
{
    match (kind, found) {
        (SlotKind::Constant, Found::Value(word)) => {
            words.push((name, word))?;
            Ok(())
        }
        _ => Ok(()),
    }
}

// The words of the scalar parameters of an activation.
fn scalars_for(
    words: &mut Vec<(Name, Word)>,
    n: u32,
    activation: u64,
    slots: &[Slot],
    arguments: &[Found],
) -> Result<(), Memory>
    ensures { OnOk result (words.new.items ≡ words.old.items ++ scalars_for n activation 0 slots.now arguments.now) }
{
    let mut k = 0;
    while k < slots.len() && k < arguments.len() {
        let name = Name::Private(n, activation, number(k)?, 0);
        scalar_for(words, name, slots[k].kind, arguments[k])?;
        k += 1;
    }
    Ok(())
}

/// The slot of the result, where there is one.
pub(crate) fn result_slot(slots: &[Slot]) -> Result<Option<u32>, Memory>
    ensures { IfOk result (λ slot. slot ≡ result_slot 0 slots.now) }
{
    let mut k = 0;
    while k < slots.len() {
        if slots[k].kind == SlotKind::Result {
            return Ok(Some(number(k)?));
        }
        k += 1;
    }
    Ok(None)
}

/// Enters the body of a module.
pub(crate) fn enter_body(
    program: &Program,
    config: &mut Config,
    n: u32,
    q: &mut Process,
    m: u32,
    rest: &mut VecDeque<Item>,
) -> Result<(), Memory>
    ensures ok { OnOk result (configuration_of config.new ≡ enter_body program.now (configuration_of config.old) n q.old m rest.old.items (slice_get program.now.modules m)) }
    ensures err { OnErr result (configuration_of config.new ≡ configuration_of config.old) }
{
    let Some(info) = module_at(program, m) else {
        return Ok(());
    };
    let alloc = *rest.allocator();
    let priority = priority_inside(info.kind, info.priority, q.priority());
    let references = References::none(alloc);
    q.enters(
        rest,
        Running::Body(m),
        m,
        info.body.frame,
        references,
        priority,
    )?;
    let mut items = VecDeque::from_vec(vec![in alloc;
        Item::Runs(info.body.body),
        Item::Returns(None),
    ]?);
    config.goes_on(n, q, &mut items);
    Ok(())
}

// The word of a result of 0, where there is one.
fn zero_for(
    alloc: Global,
    n: u32,
    activation: u64,
    slot: Option<u32>,
) -> Result<Vec<(Name, Word)>, Memory>
    ensures { IfOk result (λ words. words.items ≡ zero_for n activation slot) }
{
    match slot {
        Some(slot) => Ok(vec![in alloc; (Name::Private(n, activation, slot, 0), 0)]?),
        None => Ok(Vec::new(alloc)),
    }
}

/// The words that an activation begins with: 0 for its result, where it has one, and its scalar parameters.
pub(crate) fn first_words(
    alloc: Global,
    n: u32,
    activation: u64,
    slots: &[Slot],
    arguments: &[Found],
) -> Result<Vec<(Name, Word)>, Memory>
    ensures { IfOk result (λ words. words.items ≡ first_words n activation slots.now arguments.now) }
{
    let mut words = zero_for(alloc, n, activation, result_slot(slots)?)?;
    scalars_for(&mut words, n, activation, slots, arguments)?;
    Ok(words)
}

// What a call has to do: its copies, its locals, its body and its end.
fn called_items(
    alloc: Global,
    program: &Program,
    n: u32,
    activation: u64,
    code: &CodeInfo,
    arguments: &[Found],
) -> Result<VecDeque<Item>, Memory>
    ensures { IfOk result (λ items. items.items ≡ called_items program.now n activation code.now arguments.now) }
{
    let slots = code.slots.slots.as_slice();
    let slot = result_slot(slots)?;
    let mut items = Vec::new(alloc);
    copies(&mut items, program, n, activation, slots, arguments)?;
    local_clears(&mut items, program, n, activation, slots)?;
    items.push(Item::Runs(code.body))?;
    items.push(Item::Returns(slot))?;
    Ok(VecDeque::from_vec(items))
}

// A process makes the activation of a procedure with these arguments, and goes on.
fn call(
    program: &Program,
    config: &mut Config,
    n: u32,
    q: &mut Process,
    k: u32,
    code: &CodeInfo,
    arguments: &[Found],
    rest: &mut VecDeque<Item>,
) -> Result<(), Memory>
    ensures ok { OnOk result (configuration_of config.new ≡ called program.now (configuration_of config.old) n q.old k code.now arguments.now rest.old.items) }
    ensures err { OnErr result (configuration_of config.new ≡ configuration_of config.old) }
{
    let alloc = *rest.allocator();
    let slots = code.slots.slots.as_slice();
    let depth = q.depth();
    let mut items = called_items(alloc, program, n, depth, code, arguments)?;
    let references = references_for(alloc, slots, arguments)?;
    let priority = priority_in(program, code.module, q.priority());
    let module = u32::from(code.module);
    q.enters(
        rest,
        Running::Procedure(k),
        module,
        code.frame,
        references,
        priority,
    )?;
    config.binds(n, depth, slots, arguments)?;
    config.goes_on(n, q, &mut items);
    Ok(())
}

/// Calls a procedure with as many arguments as are counted, those that were found last.
pub(crate) fn enter_procedure(
    program: &Program,
    config: &mut Config,
    n: u32,
    q: &mut Process,
    k: u32,
    count: usize,
    rest: &mut VecDeque<Item>,
) -> Result<(), Memory>
    ensures ok { OnOk result (configuration_of config.new ≡ enter_procedure program.now (configuration_of config.old) n q.old k count rest.old.items (slice_get program.now.procedures k)) }
    ensures err { OnErr result (configuration_of config.new ≡ configuration_of config.old) }
{
    let Some(code) = program.procedures().get(k as usize) else {
        return Ok(());
    };
    let arguments = q.take_arguments(*rest.allocator(), count)?;
    call(program, config, n, q, k, code, arguments.as_slice(), rest)
}

/// The end of a call restores the priority and what its caller was at, and gives the result.
pub(crate) fn leave(
    config: &mut Config,
    n: u32,
    q: &mut Process,
    slot: Option<u32>,
) -> Result<(), Memory>
    ensures ok { OnOk result (configuration_of config.new ≡ leave (configuration_of config.old) n q.old slot q.old.activations) }
    ensures err { OnErr result (configuration_of config.new ≡ configuration_of config.old) }
{
    if !q.returns() {
        return Ok(());
    }
    let Some(slot) = slot else {
        config.put_process(n, q);
        return Ok(());
    };
    let word = config.word(Name::Private(n, q.depth(), slot, 0));
    q.push_found(Found::Value(word))?;
    config.put_process(n, q);
    Ok(())
}
