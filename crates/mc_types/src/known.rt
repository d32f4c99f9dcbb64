// What names mean where they stand.

ghost use Rattle.std.specs.Prelude.{◌≡◌, length};
ghost use Rattle.mc_prog.specs.Known.{Known as WhatIsKnown, change_of, is_code, is_nowhere, meaning_of, module_around, module_number, name_meaning, outer_of, own_or, same_place, standard_meaning, stands_in};
ghost use Rattle.mc_prog.specs.ExpressionTypes.{is_standard_use};
ghost use Rattle.mc_pieces.specs.Constructs.{around_of};
ghost use Rattle.mc_types.specs.IsKnown.{IsKnown};

use crate::lookup::Known;
use mc_pieces::piece::Around;
use mc_prog::program::{ModuleInfo, Standard};
use mc_prog::typing::{
    Answer, BITS, BOOLEAN, CHAR, Callable, Change, Entity, INTEGER, Meaning, SIGNAL, Variable,
};
use mc_tree::place::Place;
use mc_tree::tree::Id;

fn same_place(one: Place, other: Place) -> bool
    ensures { result ≡ same_place one other }
{
    one.line == other.line && one.column == other.column
}

/// Whether a place is that of a standard name.
pub fn is_nowhere(place: Place) -> bool
    ensures { result ≡ is_nowhere place }
{
    place.line == 0 && place.column == 0
}

// What a standard name means.
fn standard_meaning(name: &[u8]) -> Meaning
    ensures { result ≡ standard_meaning name.now }
{
    if name == b"integer".as_slice() {
        Meaning::Type(INTEGER)
    } else if name == b"Boolean".as_slice() {
        Meaning::Type(BOOLEAN)
    } else if name == b"char".as_slice() {
        Meaning::Type(CHAR)
    } else if name == b"bits".as_slice() {
        Meaning::Type(BITS)
    } else if name == b"signal".as_slice() {
        Meaning::Type(SIGNAL)
    } else if name == b"true".as_slice() {
        Meaning::Constant(BOOLEAN, 1)
    } else if name == b"false".as_slice() {
        Meaning::Constant(BOOLEAN, 0)
    } else if name == b"wait".as_slice() {
        Meaning::Standard(Standard::Wait)
    } else if name == b"send".as_slice() {
        Meaning::Standard(Standard::Send)
    } else if name == b"awaited".as_slice() {
        Meaning::Standard(Standard::Awaited)
    } else {
        Meaning::Standard(Standard::Doio)
    }
}

fn outer_of(modules: &[ModuleInfo], number: u16) -> u16
    ensures { result ≡ outer_of modules.now number }
{
    match modules.get(usize::from(number)) {
        Some(info) => info.outer,
        None => 0,
    }
}

// Whether a module is another one or stands in it, by so many steps outward.
fn stands_in(modules: &[ModuleInfo], steps: usize, inner: u16, outer: u16) -> bool
    ensures { result ≡ stands_in modules.now steps inner outer }
{
    if steps == 0 {
        return false;
    }
    if inner == outer {
        return true;
    }
    if inner == 0 {
        return false;
    }
    stands_in(modules, steps - 1, outer_of(modules, inner), outer)
}

fn module_number(entity: Entity) -> u16
    ensures { result ≡ module_number entity }
{
    match entity {
        Entity::Module(number) => number,
        _ => 0,
    }
}

/// The number of the module around.
pub fn module_around(known: Known, around: Around) -> u16
    ensures { (k : WhatIsKnown) → IsKnown k known.entry → result ≡ module_around k (around_of around) }
{
    module_number(known.entities.at(around.module_at))
}

// A variable may be changed in its own module and in those within it.
fn change_of(known: Known, around: Around, number: u16) -> Change
    ensures { (k : WhatIsKnown) → IsKnown k known.entry → result ≡ change_of k (around_of around) number }
{
    let modules = known.modules;
    if stands_in(modules, modules.len(), module_around(known, around), number) {
        Change::May
    } else {
        Change::Elsewhere
    }
}

/// Whether a place is that of the name of the procedure or the process around.
pub fn is_code(code: Option<Place>, place: Place) -> bool
    ensures { result ≡ is_code code place }
{
    match code {
        Some(code) => same_place(code, place),
        None => false,
    }
}

// The name of a function in its own text stands for its result too.
fn own_or(own: bool, callable: Callable) -> Meaning
    ensures { result ≡ own_or own callable callable.result }
{
    match callable.result {
        Answer::Value(_) if own => Meaning::Own(callable),
        _ => Meaning::Procedure(callable),
    }
}

fn meaning_of(known: Known, around: Around, declared: Place, entity: Entity) -> Meaning
    ensures { (k : WhatIsKnown) → IsKnown k known.entry → result ≡ meaning_of k (around_of around) declared entity }
{
    match entity {
        Entity::Ahead | Entity::Module(_) => Meaning::NoValue,
        Entity::Faulty => Meaning::Unknown(Change::May),
        Entity::Constant(type_of, word) => Meaning::Constant(type_of, word),
        Entity::Type(number) => Meaning::Type(number),
        Entity::Cell(_, type_of, module, register) => Meaning::Variable(Variable {
            type_of,
            change: change_of(known, around, module),
            register,
        }),
        Entity::Slot(_, type_of, changes, register) => Meaning::Variable(Variable {
            type_of,
            change: if changes { Change::May } else { Change::Never },
            register,
        }),
        Entity::Procedure(callable) => own_or(is_code(around.code_at, declared), callable),
        Entity::Process(number) => Meaning::Process(number),
    }
}

/// What a name means where it stands.
pub fn name_meaning(known: Known, around: Around, id: &Id) -> Meaning
    ensures { (k : WhatIsKnown) → IsKnown k known.entry → result ≡ name_meaning k (around_of around) id.now }
{
    let declared = known.uses.declared_at(id.place);
    if is_nowhere(declared) {
        return standard_meaning(id.text.as_slice());
    }
    meaning_of(known, around, declared, known.entities.at(declared))
}

/// Whether it is a standard name that is used.
pub fn is_standard_use(known: Known, id: &Id) -> bool
    ensures { (k : WhatIsKnown) → IsKnown k known.entry → result ≡ is_standard_use k id.now }
{
    is_nowhere(known.uses.declared_at(id.place))
}
