// What declarations declare, piece by piece, and their first fault.

ghost use Rattle.std.specs.Prelude.{◌≡◌, List, IfOk};
ghost use Rattle.mc_prog.specs.declared.scoped.Naming.{Naming};
ghost use Rattle.mc_prog.specs.DeclarationTypes.{Scope as WhatIsDeclared, declaration_fault, declaration_said, scope_behind, scope_with};
ghost use Rattle.mc_pieces.specs.Constructs.{around_of, construct_of};
ghost use Rattle.mc_types.specs.NameTables.{AreUses};
ghost use Rattle.mc_types.specs.Stands.{IsScopeOf, Stands};

use crate::declare::{declare, entity_of, known};
use crate::declared::Declared;
use crate::first::first_of;
use crate::known::module_around;
use crate::names::{Entities, Uses};
use crate::parts::typed_of;
use crate::rule::Site;
use crate::typing::{place_of, typed_by};
use mc_pieces::piece::{Around, Construct, Piece};
use mc_prog::typing::{Meaning, Said, Typed};
use mc_tree::fault::Fault;
use mc_tree::place::Place;
use mc_word::bytes::Memory;
use std::alloc::Global;

// What is said before anything is.
const UNSAID: Said = Said {
    meaning: Meaning::Nothing,
    fault: None,
};

// What a piece says and declares, where it stands at a place and has these parts; its fault.
fn take(
    alloc: Global,
    uses: &Uses,
    entities: &mut Entities,
    declared: &mut Declared,
    typed: &mut Vec<Typed>,
    pieces: &[Piece],
    around: Around,
    place: Place,
    numbers: &[u32],
    construct: Construct,
) -> Result<Option<Fault>, Memory>
    ensures stands { IfOk result (λ fault. (namings : List Naming) (s : WhatIsDeclared) → Stands namings s uses.now entities.old declared.old typed.old.items → Stands namings (scope_with namings pieces.now s (around_of around) place numbers.now (construct_of construct.entry)) uses.now entities.new declared.new typed.new.items) }
    ensures fault { IfOk result (λ fault. (namings : List Naming) (s : WhatIsDeclared) → Stands namings s uses.now entities.old declared.old typed.old.items → fault ≡ (declaration_said namings pieces.now s (around_of around) place numbers.now (construct_of construct.entry)).fault) }
{
    let parts = typed_of(alloc, typed.as_slice(), numbers)?;
    let site = Site {
        around,
        place,
        typed: typed.as_slice(),
        numbers,
        parts: parts.as_slice(),
    };
    let before = known(uses, entities, declared);
    let within = module_around(before, around);
    let fixed = typed_by(before, site.parts, place, around, construct, 0, UNSAID)?;
    let entity = entity_of(declared, within, site, construct)?;
    let said = declare(
        alloc, uses, entities, declared, within, pieces, site, construct,
    )?;
    typed.push(Typed {
        meaning: said.meaning,
        ..fixed
    })?;
    entities.put_next(entity)?;
    Ok(said.fault)
}

/// What the next piece says and declares, behind what is declared so far; its fault.
pub fn step(
    alloc: Global,
    uses: &Uses,
    entities: &mut Entities,
    declared: &mut Declared,
    typed: &mut Vec<Typed>,
    pieces: &[Piece],
    piece: &Piece,
) -> Result<Option<Fault>, Memory>
    ensures stands { IfOk result (λ fault. (namings : List Naming) (s : WhatIsDeclared) → Stands namings s uses.now entities.old declared.old typed.old.items → Stands namings (scope_behind namings pieces.now s piece.now) uses.now entities.new declared.new typed.new.items) }
    ensures fault { IfOk result (λ fault. (namings : List Naming) (s : WhatIsDeclared) → Stands namings s uses.now entities.old declared.old typed.old.items → fault ≡ declaration_fault namings pieces.now s piece.now) }
{
    let place = place_of(typed.as_slice(), piece);
    take(
        alloc,
        uses,
        entities,
        declared,
        typed,
        pieces,
        piece.around(),
        place,
        piece.numbers(),
        piece.construct(),
    )
}

/// What all declarations declare, and their first fault.
#[derive(Drop)]
pub struct Scope {
    pub entities: Entities,
    pub declared: Declared,
    /// What is known of each piece.
    pub typed: Vec<Typed>,
    pub fault: Option<Fault>,
}

/// Goes through the pieces of all declarations.
pub fn scope_of(alloc: Global, uses: &Uses, pieces: &[Piece]) -> Result<Scope, Memory>
    ensures { IfOk result (λ r. (namings : List Naming) → AreUses namings uses.now.declarations → IsScopeOf namings uses.now pieces.now pieces.now r.entities r.declared r.typed.items r.fault) }
{
    let mut entities = Entities::new(alloc);
    let mut declared = Declared::new(alloc)?;
    let mut typed = Vec::new(alloc);
    let mut fault = None;
    for piece in pieces {
        let own = step(
            alloc,
            uses,
            &mut entities,
            &mut declared,
            &mut typed,
            pieces,
            piece,
        )?;
        fault = first_of(fault, own);
    }
    Ok(Scope {
        entities,
        declared,
        typed,
        fault,
    })
}
