// What statements, expressions and designators are replaced by: their parts, and what is done with these.

ghost use Rattle.std.specs.Prelude.{◌≡◌, ℕ, IfOk, MatchOption, None, Some, map, slice_get};
ghost use Rattle.mc_prog.specs.declared.program.Form.TheVariants.{Body};
ghost use Rattle.mc_prog.specs.declared.program.Standard.TheVariants.{Wait};
ghost use Rattle.mc_meaning.specs.declared.process.Item.TheVariants.{Runs, CallsBody, Evaluates, Names};
ghost use Rattle.mc_prog.specs.Known.{words_of};
ghost use Rattle.mc_meaning.specs.Parts.{form_at, parts_at, part_at, type_at, is_structured, is_value, argument_item, argument_items, slots_of, standard_parts, called_parts, call_parts, begins_with_variable, bit_parts, is_bit, named_parts, binary_parts, logical_parts, read_parts, value_parts, assign_parts, module_with, statement_parts, branch_items};

use crate::process::Item;
use mc_prog::program::{Form, ModuleInfo, ProcessInfo, Program, Shape, Slot, SlotKind, Standard};
use mc_word::bytes::Memory;
use std::alloc::Global;

/// The number of the type of truths.
pub(crate) const BOOLEAN: u32 = 1;

/// The number of the type of characters.
pub(crate) const CHAR: u32 = 2;

/// The number of the type of words of bits.
pub(crate) const BITS: u32 = 3;

/// The parts of a node.
pub(crate) fn parts_at(program: &Program, n: u32) -> &[u32]
    ensures { result.now ≡ parts_at program.now n }
{
    match program.nodes().get(n as usize) {
        Some(node) => node.parts.parts.as_slice(),
        None => &[],
    }
}

/// The form of a node; a number that is none counts as that of a body.
pub(crate) fn form_at(program: &Program, n: u32) -> Option<&Form>
    ensures { MatchOption result (form_at program.now n ≡ Body) (λ form. form.now ≡ form_at program.now n) }
{
    let node = program.nodes().get(n as usize)?;
    Some(&node.form)
}

/// A module, by its number.
pub(crate) fn module_at(program: &Program, m: u32) -> Option<&ModuleInfo>
    ensures { MatchOption result (slice_get program.now.modules m ≡ None) (λ info. slice_get program.now.modules m ≡ Some info.now) }
{
    program.modules().get(m as usize)
}

/// A declared process, by its number.
pub(crate) fn process_at(program: &Program, k: u32) -> Option<&ProcessInfo>
    ensures { MatchOption result (slice_get program.now.processes k ≡ None) (λ info. slice_get program.now.processes k ≡ Some info.now) }
{
    program.processes().get(k as usize)
}

/// A part of a node, by its number from 0.
pub(crate) fn part_at(program: &Program, n: u32, i: usize) -> u32
    ensures { result ≡ part_at program.now n i }
{
    parts_at(program, n).get(i).copied().unwrap_or(0)
}

/// The type of a value or a variable.
pub(crate) fn type_at(program: &Program, n: u32) -> u32
    ensures { result ≡ type_at program.now n }
{
    match program.nodes().get(n as usize) {
        Some(node) => node.type_of.unwrap_or(0),
        None => 0,
    }
}

/// Whether a variable of this type is an array or a record.
pub(crate) fn is_structured(program: &Program, type_of: u32) -> bool
    ensures { result ≡ is_structured program.now type_of }
{
    match program.types().get(type_of as usize) {
        Some(info) => match &info.shape {
            Shape::Array(_, _, _, _) | Shape::Record(_) => true,
            _ => false,
        },
        None => false,
    }
}

/// How many words a variable of this type takes.
pub(crate) fn words_of(program: &Program, type_of: u32) -> u32
    ensures { result ≡ words_of program.now.types type_of }
{
    match program.types().get(type_of as usize) {
        Some(info) => info.words,
        None => 0,
    }
}

/// The slots of a procedure.
pub(crate) fn slots_at(program: &Program, procedure: u32) -> &[Slot]
    ensures { result.now ≡ slots_of (slice_get program.now.procedures procedure) }
{
    match program.procedures().get(procedure as usize) {
        Some(code) => code.slots.slots.as_slice(),
        None => &[],
    }
}

// Whether an argument is evaluated.
fn is_value(program: &Program, slot: Slot) -> bool
    ensures { result ≡ is_value program.now slot slot.kind }
{
    match slot.kind {
        SlotKind::Constant => !is_structured(program, slot.type_of),
        SlotKind::Variable | SlotKind::Local | SlotKind::Result => false,
    }
}

// What is done with an argument.
fn argument_item(program: &Program, slot: Slot, n: u32) -> Item
    ensures { result ≡ argument_item program.now slot n }
{
    if is_value(program, slot) {
        Item::Evaluates(n)
    } else {
        Item::Names(n)
    }
}

// What is done with arguments, in their order.
fn argument_items(
    alloc: Global,
    program: &Program,
    slots: &[Slot],
    arguments: &[u32],
) -> Result<Vec<Item>, Memory>
    ensures { IfOk result (λ items. items.items ≡ argument_items program.now slots.now arguments.now) }
{
    let mut items = Vec::new(alloc);
    let mut i = 0;
    while i < slots.len() && i < arguments.len() {
        items.push(argument_item(program, slots[i], arguments[i]))?;
        i += 1;
    }
    Ok(items)
}

// The evaluations of expressions.
fn evaluations(alloc: Global, expressions: &[u32]) -> Result<Vec<Item>, Memory>
    ensures { IfOk result (λ items. items.items ≡ map Evaluates expressions.now) }
{
    let mut items = Vec::new(alloc);
    for n in expressions {
        items.push(Item::Evaluates(*n))?;
    }
    Ok(items)
}

// What designators name.
fn namings(alloc: Global, designators: &[u32]) -> Result<Vec<Item>, Memory>
    ensures { IfOk result (λ items. items.items ≡ map Names designators.now) }
{
    let mut items = Vec::new(alloc);
    for n in designators {
        items.push(Item::Names(*n))?;
    }
    Ok(items)
}

// What statements do.
fn runs(alloc: Global, statements: &[u32]) -> Result<Vec<Item>, Memory>
    ensures { IfOk result (λ items. items.items ≡ map Runs statements.now) }
{
    let mut items = Vec::new(alloc);
    for n in statements {
        items.push(Item::Runs(*n))?;
    }
    Ok(items)
}

// The parts of a wait.
fn wait_parts(alloc: Global, arguments: &[u32]) -> Result<Vec<Item>, Memory>
    ensures { (n : ℕ) → IfOk result (λ items. items.items ≡ standard_parts n Wait arguments.now) }
{
    match arguments {
        [] => Ok(Vec::new(alloc)),
        [signal] => Ok(vec![in alloc; Item::Names(*signal), Item::Waits(false)]?),
        [signal, rank, ..] => Ok(vec![in alloc;
            Item::Names(*signal),
            Item::Evaluates(*rank),
            Item::Waits(true),
        ]?),
    }
}

// The parts of a call of what is standard.
fn standard_parts(
    alloc: Global,
    n: u32,
    standard: Standard,
    arguments: &[u32],
) -> Result<Vec<Item>, Memory>
    ensures { IfOk result (λ items. items.items ≡ standard_parts n standard arguments.now) }
{
    match standard {
        Standard::Integer | Standard::Char | Standard::Bits => {
            let mut items = evaluations(alloc, arguments)?;
            items.push(Item::Operates(n))?;
            Ok(items)
        }
        Standard::Wait => wait_parts(alloc, arguments),
        Standard::Send => {
            let mut items = namings(alloc, arguments)?;
            items.push(Item::Sends)?;
            Ok(items)
        }
        Standard::Awaited => {
            let mut items = namings(alloc, arguments)?;
            items.push(Item::Awaits)?;
            Ok(items)
        }
        Standard::Doio => Ok(vec![in alloc; Item::StandsAtDoio]?),
    }
}

// The parts of a call of what has this form.
fn called_parts(
    alloc: Global,
    program: &Program,
    n: u32,
    form: &Form,
    arguments: &[u32],
) -> Result<Vec<Item>, Memory>
    ensures { IfOk result (λ items. items.items ≡ called_parts program.now n form.now arguments.now) }
{
    match form {
        Form::Procedure(k) => {
            let mut items = argument_items(alloc, program, slots_at(program, *k), arguments)?;
            items.push(Item::Calls(n))?;
            Ok(items)
        }
        Form::Process(_) => {
            let mut items = evaluations(alloc, arguments)?;
            items.push(Item::Starts(n))?;
            Ok(items)
        }
        Form::Standard(standard) => standard_parts(alloc, n, *standard, arguments),
        _ => Ok(Vec::new(alloc)),
    }
}

// The parts of a call.
fn call_parts(alloc: Global, program: &Program, n: u32, parts: &[u32]) -> Result<Vec<Item>, Memory>
    ensures { IfOk result (λ items. items.items ≡ call_parts program.now n parts.now) }
{
    match parts {
        [] => Ok(Vec::new(alloc)),
        [name, arguments @ ..] => {
            match program.nodes().get(*name as usize) {
                Some(node) => called_parts(alloc, program, n, &node.form, arguments),
                None => Ok(Vec::new(alloc)),
            }
        }
    }
}

// Whether a designator begins with a variable.
fn begins_with_variable(program: &Program, n: u32) -> bool
    ensures { result ≡ begins_with_variable (form_at program.now n) }
{
    match program.nodes().get(n as usize) {
        Some(node) => match &node.form {
            Form::Cell(_) | Form::Slot(_) | Form::Select | Form::Index => true,
            _ => false,
        },
        None => false,
    }
}

// The parts of a bit of what is named, or of a constant.
fn bit_parts(alloc: Global, program: &Program, front: u32, index: u32) -> Result<Vec<Item>, Memory>
    ensures { IfOk result (λ items. items.items ≡ bit_parts program.now front index) }
{
    let first = if begins_with_variable(program, front) {
        Item::Names(front)
    } else {
        Item::Evaluates(front)
    };
    Ok(vec![in alloc; first, Item::Evaluates(index), Item::TestsBit]?)
}

/// Whether a node is a bit of something.
pub(crate) fn is_bit(program: &Program, n: u32) -> bool
    ensures { result ≡ is_bit program.now n }
{
    match program.nodes().get(n as usize) {
        Some(node) => match &node.form {
            Form::Index => type_at(program, part_at(program, n, 0)) == BITS,
            _ => false,
        },
        None => false,
    }
}

/// What a designator that is no name alone is replaced by.
pub(crate) fn named_parts(
    alloc: Global,
    program: &Program,
    n: u32,
    form: &Form,
) -> Result<Vec<Item>, Memory>
    ensures { IfOk result (λ items. items.items ≡ named_parts program.now n form.now) }
{
    let front = part_at(program, n, 0);
    match form {
        Form::Select => Ok(vec![in alloc; Item::Names(front), Item::Selects(n)]?),
        Form::Index => {
            let index = part_at(program, n, 1);
            Ok(vec![in alloc;
                Item::Names(front),
                Item::Evaluates(index),
                Item::Indexes(n),
            ]?)
        }
        Form::Parenthesis => Ok(vec![in alloc; Item::Names(front)]?),
        _ => Ok(Vec::new(alloc)),
    }
}

// The parts of an operator of two operands.
fn binary_parts(alloc: Global, program: &Program, n: u32) -> Result<Vec<Item>, Memory>
    ensures { IfOk result (λ items. items.items ≡ binary_parts program.now n) }
{
    let left = part_at(program, n, 0);
    let right = part_at(program, n, 1);
    Ok(vec![in alloc;
        Item::Evaluates(left),
        Item::Evaluates(right),
        Item::Operates(n),
    ]?)
}

// The parts of `and` and `or`.
fn logical_parts(alloc: Global, program: &Program, n: u32) -> Result<Vec<Item>, Memory>
    ensures { IfOk result (λ items. items.items ≡ logical_parts program.now n) }
{
    if type_at(program, n) == BOOLEAN {
        let left = part_at(program, n, 0);
        Ok(vec![in alloc; Item::Evaluates(left), Item::Decides(n)]?)
    } else {
        binary_parts(alloc, program, n)
    }
}

// The parts of what is read.
fn read_parts(alloc: Global, program: &Program, n: u32) -> Result<Vec<Item>, Memory>
    ensures { IfOk result (λ items. items.items ≡ read_parts program.now n) }
{
    if is_bit(program, n) {
        let (front, index) = (part_at(program, n, 0), part_at(program, n, 1));
        let mut items = bit_parts(alloc, program, front, index)?;
        items.push(Item::ReadsBit)?;
        Ok(items)
    } else {
        Ok(vec![in alloc; Item::Names(n), Item::Reads(type_at(program, n))]?)
    }
}

/// What an expression that is no constant is replaced by.
pub(crate) fn value_parts(
    alloc: Global,
    program: &Program,
    n: u32,
    form: &Form,
) -> Result<Vec<Item>, Memory>
    ensures { IfOk result (λ items. items.items ≡ value_parts program.now n form.now) }
{
    match form {
        Form::Cell(_) | Form::Slot(_) | Form::Select | Form::Index => read_parts(alloc, program, n),
        Form::Equal
        | Form::Unequal
        | Form::Less
        | Form::LessEqual
        | Form::Greater
        | Form::GreaterEqual => { binary_parts(alloc, program, n) }
        Form::Add | Form::Subtract | Form::Multiply | Form::Divide | Form::Modulo | Form::Xor => {
            binary_parts(alloc, program, n)
        }
        Form::And | Form::Or => logical_parts(alloc, program, n),
        Form::Plus | Form::Minus | Form::Not => {
            Ok(vec![in alloc; Item::Evaluates(part_at(program, n, 0)), Item::Operates(n)]?)
        }
        Form::Parenthesis => Ok(vec![in alloc; Item::Evaluates(part_at(program, n, 0))]?),
        Form::CallValue => call_parts(alloc, program, n, parts_at(program, n)),
        _ => Ok(Vec::new(alloc)),
    }
}

// The parts of an assignment.
fn assign_parts(
    alloc: Global,
    program: &Program,
    target: u32,
    value: u32,
) -> Result<Vec<Item>, Memory>
    ensures { IfOk result (λ items. items.items ≡ assign_parts program.now target value) }
{
    let type_of = type_at(program, target);
    if is_bit(program, target) {
        let (front, index) = (part_at(program, target, 0), part_at(program, target, 1));
        let mut items = bit_parts(alloc, program, front, index)?;
        items.push(Item::Evaluates(value))?;
        items.push(Item::WritesBit)?;
        Ok(items)
    } else if is_structured(program, type_of) {
        let words = words_of(program, type_of);
        Ok(vec![in alloc;
            Item::Names(target),
            Item::Names(value),
            Item::Spreads(words),
        ]?)
    } else {
        Ok(vec![in alloc; Item::Names(target), Item::Evaluates(value), Item::Writes]?)
    }
}

/// The number that a list's index is, where it can be kept.
pub(crate) fn number(i: usize) -> Result<u32, Memory>
    ensures { IfOk result (λ n. n ≡ i) }
{
    match u32::try_from(i) {
        Ok(n) => Ok(n),
        Err(_) => Err(Memory),
    }
}

// The number of the module that has this body.
fn module_with(modules: &[ModuleInfo], body: u32) -> Result<u32, Memory>
    ensures { IfOk result (λ m. m ≡ module_with modules.now body 0) }
{
    let mut m = 0;
    while m < modules.len() {
        if modules[m].body.body == body {
            return number(m);
        }
        m += 1;
    }
    number(m)
}

// The bodies that the main process runs.
fn body_calls(alloc: Global, program: &Program, bodies: &[u32]) -> Result<Vec<Item>, Memory>
    ensures { IfOk result (λ items. items.items ≡ map (λ body. CallsBody (module_with program.now.modules body 0)) bodies.now) }
{
    let mut items = Vec::new(alloc);
    for body in bodies {
        items.push(Item::CallsBody(module_with(program.modules(), *body)?))?;
    }
    Ok(items)
}

/// What a statement or a body is replaced by.
pub(crate) fn statement_parts(
    alloc: Global,
    program: &Program,
    n: u32,
    form: &Form,
) -> Result<Vec<Item>, Memory>
    ensures { IfOk result (λ items. items.items ≡ statement_parts program.now n form.now) }
{
    let first = part_at(program, n, 0);
    match form {
        Form::Body => runs(alloc, parts_at(program, n)),
        Form::Bodies => body_calls(alloc, program, parts_at(program, n)),
        Form::Assign => assign_parts(alloc, program, first, part_at(program, n, 1)),
        Form::CallStatement => call_parts(alloc, program, n, parts_at(program, n)),
        Form::If => Ok(vec![in alloc; Item::Evaluates(first), Item::Branches(n, 0)]?),
        Form::While => Ok(vec![in alloc; Item::Evaluates(first), Item::Turns(n)]?),
        Form::Repeat => {
            let condition = part_at(program, n, 1);
            Ok(vec![in alloc;
                Item::Runs(first),
                Item::Evaluates(condition),
                Item::Repeats(n),
            ]?)
        }
        Form::Loop => Ok(vec![in alloc; Item::Runs(first), Item::Loops(n, 0)]?),
        Form::Case => Ok(vec![in alloc; Item::Evaluates(first), Item::Tries(n, 0)]?),
        _ => Ok(Vec::new(alloc)),
    }
}

/// What stands behind the condition of this number of an `if`.
pub(crate) fn branch_items(
    alloc: Global,
    program: &Program,
    n: u32,
    k: u32,
    holds: bool,
) -> Result<Vec<Item>, Memory>
    ensures { IfOk result (λ items. items.items ≡ branch_items program.now n k holds) }
{
    let at = 2 * k as usize;
    if holds {
        return Ok(vec![in alloc; Item::Runs(part_at(program, n, at + 1))]?);
    }
    let parts = parts_at(program, n);
    match (parts.get(at + 2), parts.get(at + 3)) {
        (None, _) => Ok(Vec::new(alloc)),
        (Some(other), None) => Ok(vec![in alloc; Item::Runs(*other)]?),
        (Some(condition), Some(_)) => {
            Ok(vec![in alloc;
                Item::Evaluates(*condition),
                Item::Branches(n, number(k as usize + 1)?),
            ]?)
        }
    }
}
