// The rules of device code: no wait has a rank, and no signal is both waited on and sent to.

ghost use Rattle.std.specs.Prelude.{◌≡◌, ◌↔◌, ◌∷◌, ◌++◌, ℕ, List, [], OnOk, IfOk, Some};
ghost use Rattle.mc_rules.specs.declared.call.Signalling.{Signalling};
ghost use Rattle.std.specs.List.{Contains};
ghost use Rattle.mc_rules.specs.AnyOf.{AnyOf, IsFirstOf};
ghost use Rattle.mc_rules.specs.Rules.{has_rank, is_earlier, later, signal_of, rank_fault};
ghost use Rattle.mc_rules.specs.FirstPlaces.{AreFirstPlaces, HasSentFault, earliest, sent_fault};
ghost use Rattle.mc_rules.specs.Signals.{AreSignallings, HasBothFault, IsRankFaultOf, IsSignallingOf, IsVariableOf, signalling, with_signalling};

use crate::call::{Call, Called, Signalling, Way};
use crate::calls::variable_of;
use crate::declared::{fault, unless};
use mc_prog::first::earlier;
use mc_prog::program::Node;
use mc_tree::fault::{Code, Fault};
use mc_tree::place::Place;
use mc_word::bytes::Memory;
use std::alloc::Global;
use std::collections::BTreeMap;

fn has_rank(called: Called) -> bool
    ensures { result ≡ has_rank called }
{
    match called {
        Called::Wait(_, ranked) => ranked,
        _ => false,
    }
}

// The fault of a wait that has a rank.
fn rank_fault(call: Call) -> Option<Fault>
    ensures { result ≡ rank_fault call }
{
    unless(!has_rank(call.called), Code::M6, call.place)
}

/// The first wait that has a rank.
pub fn ranks_fault(calls: &[Call]) -> Option<Fault>
    ensures { IsFirstOf (AnyOf IsRankFaultOf calls.now) result }
{
    let mut first = None;
    for call in calls {
        first = earlier(first, rank_fault(*call));
    }
    first
}

fn is_earlier(one: Place, other: Place) -> bool
    ensures { result ≡ is_earlier one other }
{
    one.line < other.line || (one.line == other.line && one.column < other.column)
}

fn later(one: Place, other: Place) -> Place
    ensures { result ≡ later one other }
{
    if is_earlier(one, other) { other } else { one }
}

// The node of the signal that a call waits on, or sends to.
fn signal_of(way: Way, called: Called) -> Option<u32>
    ensures { result ≡ signal_of way called }
{
    match (way, called) {
        (Way::Wait, Called::Wait(signal, _)) | (Way::Send, Called::Send(signal)) => Some(signal),
        _ => None,
    }
}

// The variable of a signal, where there is one.
fn variable_at(nodes: &[Node], signal: Option<u32>) -> Option<u32>
    ensures { (cell : ℕ) → (result ≡ Some cell) ↔ IsVariableOf nodes.now signal cell }
{
    match signal {
        Some(signal) => variable_of(nodes, signal as usize),
        None => None,
    }
}

fn placed(variable: Option<u32>, place: Place) -> Option<Signalling>
    ensures { result ≡ signalling variable place }
{
    match variable {
        Some(variable) => Some(Signalling { variable, place }),
        None => None,
    }
}

// The variable that a call waits on, or sends to, and where.
fn signalling_of(nodes: &[Node], way: Way, call: Call) -> Option<Signalling>
    ensures { (s : Signalling) → (result ≡ Some s) ↔ IsSignallingOf nodes.now way call s }
{
    let variable = variable_at(nodes, signal_of(way, call.called));
    placed(variable, call.place)
}

fn note(signallings: &mut Vec<Signalling>, signalling: Option<Signalling>) -> Result<(), Memory>
    ensures { OnOk result (signallings.new.items ≡ with_signalling signallings.old.items signalling) }
{
    if let Some(signalling) = signalling {
        signallings.push(signalling)?;
    }
    Ok(())
}

/// What is waited on, or sent to, in these calls.
pub fn signallings(
    alloc: Global,
    nodes: &[Node],
    way: Way,
    calls: &[Call],
) -> Result<Vec<Signalling>, Memory>
    ensures { IfOk result (λ found. AreSignallings nodes.now way calls.now found.items) }
{
    let mut found = Vec::new(alloc);
    for call in calls {
        note(&mut found, signalling_of(nodes, way, *call))?;
    }
    Ok(found)
}

// The earlier of two places, or the one that is there.
fn earliest(known: Option<Place>, place: Place) -> Place
    ensures { result ≡ earliest known place }
{
    match known {
        Some(first) if !is_earlier(place, first) => first,
        _ => place,
    }
}

// Notes one more place of a variable, where none that is known comes before it.
fn note_first(firsts: &mut BTreeMap<u32, Place>, signalling: Signalling) -> Result<(), Memory>
    ensures { OnOk result ((list : List Signalling) → AreFirstPlaces list firsts.old → AreFirstPlaces (list ++ (signalling ∷ [])) firsts.new) }
{
    let known = firsts.get(&signalling.variable).copied();
    firsts.insert(signalling.variable, earliest(known, signalling.place))?;
    Ok(())
}

// The first place of each variable.
fn first_places(alloc: Global, signallings: &[Signalling]) -> Result<BTreeMap<u32, Place>, Memory>
    ensures { IfOk result (λ firsts. AreFirstPlaces signallings.now firsts) }
{
    let mut firsts = BTreeMap::new(alloc);
    for signalling in signallings {
        note_first(&mut firsts, *signalling)?;
    }
    Ok(firsts)
}

// The fault of a sending there to a variable whose first wait stands here.
fn sent_fault(first: Option<Place>, place: Place) -> Option<Fault>
    ensures { result ≡ sent_fault first place }
{
    match first {
        Some(first) => fault(Code::M7, later(first, place)),
        None => None,
    }
}

// The first fault of one sending with the waits that these places are the first of.
fn send_fault(firsts: &BTreeMap<u32, Place>, send: Signalling) -> Option<Fault>
    ensures { (waits : List Signalling) → AreFirstPlaces waits firsts.now → IsFirstOf (HasSentFault waits send) result }
{
    sent_fault(firsts.get(&send.variable).copied(), send.place)
}

/// The first fault of these waits with these sendings.
///
/// A later wait on a variable has no earlier fault than the first one, so each sending is compared with that one alone.
///
/// # Errors
///
/// Want of memory.
pub fn both_ways_fault(
    alloc: Global,
    waits: &[Signalling],
    sends: &[Signalling],
) -> Result<Option<Fault>, Memory>
    ensures { IfOk result (λ found. IsFirstOf (AnyOf (HasBothFault sends.now) waits.now) found) }
{
    let firsts = first_places(alloc, waits)?;
    let mut first = None;
    for send in sends {
        first = earlier(first, send_fault(&firsts, *send));
    }
    Ok(first)
}
