// The calls of texts, and the variables that designators are of.

ghost use Rattle.std.specs.Prelude.{◌≡◌, ◌↔◌, ◌++◌, ℕ, IfOk, OnOk, option_to_list};
ghost use Rattle.mc_rules.specs.Calls.{AreCalls, HasCall, IsOfVariable, IsPartOf, call_at, call_of, called_by, is_call, is_selection, sending, standard_call, waiting};
ghost use Rattle.mc_rules.specs.Gathering.{Adds, ahead, called_at, cell_at, cell_of, front_at, parts_at};

use crate::call::{Call, Called};
use mc_prog::program::{Form, Node, Standard};
use mc_word::bytes::Memory;
use std::alloc::Global;

// Whether a node of this form calls what its first part names.
fn is_call(form: &Form) -> bool
    ensures { result ≡ is_call form.now }
{
    match form {
        Form::CallStatement | Form::CallValue => true,
        _ => false,
    }
}

// A wait on a signal, with a rank or without.
fn waiting(arguments: &[u32]) -> Option<Called>
    ensures { result ≡ waiting arguments.now }
{
    match arguments {
        [] => None,
        [signal] => Some(Called::Wait(*signal, false)),
        [signal, ..] => Some(Called::Wait(*signal, true)),
    }
}

fn sending(arguments: &[u32]) -> Option<Called>
    ensures { result ≡ sending arguments.now }
{
    match arguments {
        [] => None,
        [signal, ..] => Some(Called::Send(*signal)),
    }
}

// What a standard name calls with these arguments.
fn standard_call(standard: Standard, arguments: &[u32]) -> Option<Called>
    ensures { result ≡ standard_call standard arguments.now }
{
    match standard {
        Standard::Wait => waiting(arguments),
        Standard::Send => sending(arguments),
        Standard::Doio => Some(Called::Doio),
        _ => None,
    }
}

// What a name of this form calls with these arguments.
fn called_by(form: &Form, arguments: &[u32]) -> Option<Called>
    ensures { result ≡ called_by form.now arguments.now }
{
    match form {
        Form::Procedure(k) => Some(Called::Procedure(*k)),
        Form::Process(k) => Some(Called::Process(*k)),
        Form::Standard(standard) => standard_call(*standard, arguments),
        _ => None,
    }
}

// What the node of a name calls with these arguments.
fn named_by(nodes: &[Node], name: u32, arguments: &[u32]) -> Option<Called>
    ensures { result ≡ called_at nodes.now name arguments.now }
{
    match nodes.get(name as usize) {
        Some(node) => called_by(&node.form, arguments),
        None => None,
    }
}

// The call whose parts are a name and arguments.
fn call_of(nodes: &[Node], node: &Node) -> Option<Call>
    ensures { result ≡ call_of nodes.now node.now node.now.parts }
{
    match node.parts.parts.as_slice() {
        [] => None,
        [name, arguments @ ..] => match named_by(nodes, *name, arguments) {
            Some(called) => Some(Call {
                place: node.place,
                called,
            }),
            None => None,
        },
    }
}

// The call that a node is.
fn call_at(nodes: &[Node], n: usize) -> Option<Call>
    ensures { result ≡ call_at nodes.now n }
{
    match nodes.get(n) {
        Some(node) if is_call(&node.form) => call_of(nodes, node),
        _ => None,
    }
}

// The numbers of a node's parts.
fn parts_at(nodes: &[Node], n: usize) -> &[u32]
    ensures { result.now ≡ parts_at nodes.now n }
{
    match nodes.get(n) {
        Some(node) => node.parts.parts.as_slice(),
        None => &[],
    }
}

// Puts a call behind others, where there is one.
fn add(call: Option<Call>, calls: &mut Vec<Call>) -> Result<(), Memory>
    ensures { OnOk result (calls.new.items ≡ calls.old.items ++ option_to_list call) }
{
    if let Some(call) = call {
        calls.push(call)?;
    }
    Ok(())
}

// Puts the parts of a node that stand in front of it behind others.
fn add_parts(nodes: &[Node], n: usize, numbers: &mut Vec<usize>) -> Result<(), Memory>
    ensures { OnOk result (Adds (IsPartOf nodes.now n) numbers.old.items numbers.new.items) }
{
    for part in parts_at(nodes, n) {
        let part = *part as usize;
        if part < n {
            numbers.push(part)?;
        }
    }
    Ok(())
}

/// Puts the calls of the text with this body behind others.
///
/// Nothing bounds how deep nodes lead to nodes, so those that are still to be gone through stand in a list.
///
/// # Errors
///
/// Want of memory.
pub fn gather(alloc: Global, nodes: &[Node], n: usize, calls: &mut Vec<Call>) -> Result<(), Memory>
    ensures { OnOk result (Adds (HasCall nodes.now n) calls.old.items calls.new.items) }
{
    let mut ahead = vec![in alloc; n]?;
    while let Some(next) = ahead.pop() {
        add(call_at(nodes, next), calls)?;
        add_parts(nodes, next, &mut ahead)?;
    }
    Ok(())
}

/// The calls of the text with this body.
///
/// # Errors
///
/// Want of memory.
pub fn calls_of(alloc: Global, nodes: &[Node], body: usize) -> Result<Vec<Call>, Memory>
    ensures { IfOk result (λ calls. AreCalls nodes.now body calls.items) }
{
    let mut calls = Vec::new(alloc);
    gather(alloc, nodes, body, &mut calls)?;
    Ok(calls)
}

// Whether a node of this form selects from a designator.
fn is_selection(form: &Form) -> bool
    ensures { result ≡ is_selection form.now }
{
    match form {
        Form::Select | Form::Index => true,
        _ => false,
    }
}

// The first of some numbers, if it is less than another.
fn ahead(n: usize, parts: &[u32]) -> Option<usize>
    ensures { result ≡ ahead n parts.now }
{
    match parts {
        [front, ..] if (*front as usize) < n => Some(*front as usize),
        _ => None,
    }
}

// The node that another selects from.
fn front_at(nodes: &[Node], n: usize) -> Option<usize>
    ensures { result ≡ front_at nodes.now n }
{
    match nodes.get(n) {
        Some(node) if is_selection(&node.form) => ahead(n, node.parts.parts.as_slice()),
        _ => None,
    }
}

fn cell_of(form: &Form) -> Option<u32>
    ensures { result ≡ cell_of form.now }
{
    match form {
        Form::Cell(k) => Some(*k),
        _ => None,
    }
}

// The variable of a module that a node names.
fn cell_at(nodes: &[Node], n: usize) -> Option<u32>
    ensures { result ≡ cell_at nodes.now n }
{
    match nodes.get(n) {
        Some(node) => cell_of(&node.form),
        None => None,
    }
}

/// The variable that a designator is of.
pub fn variable_of(nodes: &[Node], n: usize) -> Option<u32>
    ensures { (cell : ℕ) → IsOfVariable nodes.now n cell ↔ (result ≡ Some cell) }
{
    let mut at = n;
    while let Some(front) = front_at(nodes, at) {
        at = front;
    }
    cell_at(nodes, at)
}
