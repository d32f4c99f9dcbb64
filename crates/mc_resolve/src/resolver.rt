// Going through the items of a text: what is declared and known so far, the uses, and the first fault.

ghost use Rattle.std.specs.Prelude.{◌≡◌, ◌⊎◌, ℕ, [], length, IfOk, IfErr, None, Some, option_map};
ghost use Rattle.mc_tree.specs.declared.fault.Fault.{Fault};
ghost use Rattle.mc_prog.specs.Scopes.{Before, placed, scopes, IsTwice, IsUndefined, IsUnlisted, IsUnknown, IsFurther, IsOtherEnd, IsFaultOf, declared_by as declared_by_item, own_by as own_by_item};
ghost use Rattle.mc_resolve.specs.Items.{item_of};
ghost use Rattle.mc_resolve.specs.Stands.{Stands, IsOnly, IsLeastOf, with_item};
ghost use Rattle.mc_resolve.specs.Refusals.{IsItsFault};
ghost use Rattle.mc_resolve.specs.Around.{around};
ghost use Rattle.mc_resolve.specs.Table.{made_known, known_place};
ghost use Rattle.mc_resolve.specs.Views.{named_of};

use crate::fault::ResolveFault;
use crate::item::{Item, Note};
use crate::named::{Named, declared_by, known_by, own_by};
use crate::scope::{Scope, innermost, second};
use crate::search::{far, near};
use crate::table::{NOWHERE, Table};
use crate::uses::{add_use, enter};
use mc_prog::first::earlier;
use mc_prog::scoped::{Naming, Scoped};
use mc_prog::standard::is_standard;
use mc_tree::fault::{Code, Fault};
use mc_tree::place::Place;
use mc_tree::tree::Id;
use mc_word::bytes::Memory;
use std::alloc::Global;

/// What is known behind some items of a text.
#[derive(Drop)]
pub struct Resolver<'a> {
    /// The open scopes, the innermost last.
    scopes: Vec<Scope>,
    declared: Table<'a>,
    /// What is declared in a module itself.
    own: Table<'a>,
    known: Table<'a>,
    /// The first fault so far.
    fault: Option<Fault>,
    /// The uses so far.
    names: Vec<Naming>,
}

// What an item declares, what is a scope's own by it and what it makes known, the place where that is declared if the
// item has no fault, and its first fault.
#[derive(Clone, Copy)]
struct Effect<'a> {
    declared: Option<Named<'a>>,
    own: Option<Named<'a>>,
    known: Option<Named<'a>>,
    place: Place,
    fault: Option<Fault>,
}

// The fault of a name behind an end that differs.
fn other_end(name: &Id, end: &Id) -> Option<Fault>
    ensures { IsOnly (IsOtherEnd name.now end.now) result }
{
    if end.text.as_slice() == name.text.as_slice() {
        return None;
    }
    Some(Fault {
        code: Code::S5,
        place: end.place,
    })
}

impl<'a> Resolver<'a> {
    /// Nothing is known before the first item.
    pub fn new(alloc: Global) -> Resolver<'a>
        ensures { Stands [] result }
    {
        Resolver {
            scopes: Vec::new(alloc),
            declared: Table::new(alloc),
            own: Table::new(alloc),
            known: Table::new(alloc),
            fault: None,
            names: Vec::new(alloc),
        }
    }

    // The fault of a name that is declared twice, or that is a standard name.
    fn twice(&self, named: Option<Named<'a>>) -> Option<Fault>
        ensures { (before : Before) → Stands before self.now → IsOnly (IsTwice before (option_map named_of named.entry)) result }
    {
        let named = named?;
        let name = named.name;
        if !is_standard(name.text.as_slice()) {
            self.declared.find(named.scope, name.text.as_slice())?;
        }
        Some(Fault {
            code: Code::S2,
            place: name.place,
        })
    }

    // The fault of a name that a module defines and does not declare.
    fn undefined(&self, within: Option<usize>, name: &'a Id) -> Option<Fault>
        ensures { (before : Before) → Stands before self.now → IsOnly (IsUndefined before within name.now) result }
    {
        match self.own.find_in(within, name.text.as_slice()) {
            Some(_) => None,
            None => Some(Fault {
                code: Code::S3,
                place: name.place,
            }),
        }
    }

    // The fault of a name in a use list that is not known around the module.
    fn unlisted(&self, around: Option<usize>, name: &'a Id) -> Option<Fault>
        ensures { (before : Before) → Stands before self.now → IsOnly (IsUnlisted before around name.now) result }
    {
        match self.known.find_in(around, name.text.as_slice()) {
            Some(_) => None,
            None if is_standard(name.text.as_slice()) => None,
            None => Some(Fault {
                code: Code::S1,
                place: name.place,
            }),
        }
    }

    // The fault of a name that is used and not known in the scopes up to its module.
    fn unknown(&self, name: &'a Id) -> Option<Fault>
        ensures { (before : Before) → Stands before self.now → IsOnly (λ (f : Fault). IsUnknown before (scopes before) name.now f ⊎ IsFurther before (scopes before) name.now f) result }
    {
        let text = name.text.as_slice();
        let scopes = self.scopes.as_slice();
        if near(&self.known, scopes, text).is_some() {
            return None;
        }
        if is_standard(text) {
            return None;
        }
        match far(&self.known, scopes, text) {
            Some(_) => Some(Fault {
                code: Code::S4,
                place: name.place,
            }),
            None => Some(Fault {
                code: Code::S1,
                place: name.place,
            }),
        }
    }

    // The first fault of an item.
    fn fault_of(&self, note: &Note<'a>) -> Option<Fault>
        ensures { (before : Before) → Stands before self.now → IsLeastOf (IsFaultOf before (scopes before) (item_of note.now)) result }
    {
        let scopes = self.scopes.as_slice();
        match note {
            Note::Declares(_) | Note::Field(_) => self.twice(declared_by(note, scopes)),
            Note::Lists(name) => match self.unlisted(second(scopes), name) {
                Some(fault) => Some(fault),
                None => self.twice(declared_by(note, scopes)),
            },
            Note::Defines(name) => match self.twice(declared_by(note, scopes)) {
                Some(fault) => Some(fault),
                None => self.undefined(innermost(scopes), name),
            },
            Note::Uses(name) => self.unknown(name),
            Note::Ends(name, end) => other_end(name, end),
            Note::Opens(_) | Note::Closes | Note::Knows(_) => None,
        }
    }

    // What the item makes known, and where. A module lets out what it knows itself alone.
    fn made_known(&self, note: &Note<'a>) -> Option<Named<'a>>
        ensures { option_map named_of result ≡ made_known self.now.known.places (around self.now.scopes.items) (item_of note.now) }
    {
        let scopes = self.scopes.as_slice();
        if let Note::Defines(name) = note {
            self.known.find_in(innermost(scopes), name.text.as_slice())?;
        }
        known_by(note, scopes)
    }

    // Where the name is declared that comes to be known by the item, if the item has no fault.
    fn known_place(&self, note: &Note<'a>) -> Place
        ensures { result ≡ known_place self.now.known.places (around self.now.scopes.items) (item_of note.now) }
    {
        let scopes = self.scopes.as_slice();
        match note {
            Note::Knows(name) => name.place,
            Note::Lists(name) => self
                .known
                .find_in(second(scopes), name.text.as_slice())
                .unwrap_or(NOWHERE),
            Note::Defines(name) => self
                .known
                .find_in(innermost(scopes), name.text.as_slice())
                .unwrap_or(NOWHERE),
            _ => NOWHERE,
        }
    }

    // What the item declares and makes known, and its first fault.
    fn effect_of(&self, note: &Note<'a>) -> Effect<'a>
        ensures declared { option_map named_of result.declared ≡ declared_by_item (item_of note.now) (around self.now.scopes.items) }
        ensures own { option_map named_of result.own ≡ own_by_item (item_of note.now) (around self.now.scopes.items) }
        ensures known { option_map named_of result.known ≡ made_known self.now.known.places (around self.now.scopes.items) (item_of note.now) }
        ensures place { result.place ≡ known_place self.now.known.places (around self.now.scopes.items) (item_of note.now) }
        ensures fault { (before : Before) → Stands before self.now → IsLeastOf (IsFaultOf before (scopes before) (item_of note.now)) result.fault }
    {
        let scopes = self.scopes.as_slice();
        Effect {
            declared: declared_by(note, scopes),
            own: own_by(note, scopes),
            known: self.made_known(note),
            place: self.known_place(note),
            fault: self.fault_of(note),
        }
    }

    /// Takes the next item, before which so many stand.
    pub fn step(&mut self, number: usize, item: &Item<'a>) -> Result<(), Memory>
        ensures { IfOk result (λ u. (before : Before) → number ≡ length before → Stands before self.old → Stands (with_item item.now before) self.new) }
    {
        let effect = self.effect_of(&item.note);
        add_use(
            &mut self.names,
            &self.known,
            self.scopes.as_slice(),
            &item.note,
        )?;
        self.fault = earlier(self.fault, effect.fault);
        self.declared.put_own(effect.declared)?;
        self.own.put_own(effect.own)?;
        self.known.put_at(effect.known, effect.place)?;
        enter(&mut self.scopes, number, &item.note)
    }

    /// The uses, or the first fault.
    pub fn answer(self) -> Result<Scoped, ResolveFault>
        ensures found { IfOk result (λ scoped. (self.entry.fault ≡ None) × (scoped ≡ self.entry.names.items)) }
        ensures refused { IfErr result (λ refusal. IsItsFault self.entry.fault refusal) }
    {
        let Resolver { fault, names, .. } = self;
        match fault {
            Some(fault) => Err(ResolveFault::Refused(fault)),
            None => Ok(Scoped::from_vec(names)),
        }
    }
}

/// What is known behind all items.
pub fn behind<'a>(alloc: Global, items: &[Item<'a>]) -> Result<Resolver<'a>, Memory>
    ensures { IfOk result (λ r. Stands (placed [] items.now) r) }
{
    let mut resolver = Resolver::new(alloc);
    for (number, item) in items.iter().enumerate() {
        resolver.step(number, item)?;
    }
    Ok(resolver)
}
