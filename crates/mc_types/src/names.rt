// What names stand for: the uses of names and the declarations, by their places.

ghost use Rattle.std.specs.Prelude.{◌≡◌, ◌∷◌, ℕ, List, [], IfOk};
ghost use Rattle.mc_tree.specs.declared.place.Place.{Place};
ghost use Rattle.mc_prog.specs.declared.scoped.Naming.{Naming};
ghost use Rattle.mc_prog.specs.declared.typing.Entity.{Entity};
ghost use Rattle.mc_prog.specs.Known.{declaration_in, entity_in};
ghost use Rattle.mc_prog.specs.DeclarationTypes.{with_entity};
ghost use Rattle.mc_prog.specs.Resolved.{latest_first};
ghost use Rattle.mc_types.specs.NameTables.{AreUses, AreEntities};

use mc_prog::scoped::Naming;
use mc_prog::typing::Entity;
use mc_tree::place::Place;
use mc_word::bytes::Memory;
use std::alloc::Global;
use std::collections::BTreeMap;

/// The place of a standard name's declaration.
pub const NOWHERE: Place = Place { line: 0, column: 0 };

/// The uses of names by their places.
#[derive(Drop)]
pub struct Uses {
    declarations: BTreeMap<(u32, u32), Place>,
}

impl Uses {
    /// No uses.
    pub fn new(alloc: Global) -> Uses
        ensures { AreUses [] result.declarations }
    {
        Uses {
            declarations: BTreeMap::new(alloc),
        }
    }

    /// One more use.
    pub fn put(&mut self, naming: Naming) -> Result<(), Memory>
        ensures { IfOk result (λ u. (namings : List Naming) → AreUses namings self.old.declarations → AreUses (naming ∷ namings) self.new.declarations) }
    {
        self.declarations
            .insert((naming.at.line, naming.at.column), naming.declared)?;
        Ok(())
    }

    /// Where the name is declared that is used at a place.
    pub fn declared_at(&self, place: Place) -> Place
        ensures { (namings : List Naming) → AreUses namings self.now.declarations → result ≡ declaration_in namings place }
    {
        self.declarations
            .get(&(place.line, place.column))
            .copied()
            .unwrap_or(NOWHERE)
    }
}

/// What is declared, by the places of names.
#[derive(Drop)]
pub struct Entities {
    entities: BTreeMap<(u32, u32), Entity>,
}

impl Entities {
    /// Nothing is declared.
    pub fn new(alloc: Global) -> Entities
        ensures { AreEntities [] result.entities }
    {
        Entities {
            entities: BTreeMap::new(alloc),
        }
    }

    /// One more declaration.
    pub fn put(&mut self, place: Place, entity: Entity) -> Result<(), Memory>
        ensures { IfOk result (λ u. (list : List (Place × Entity)) → AreEntities list self.old.entities → AreEntities ((place, entity) ∷ list) self.new.entities) }
    {
        self.entities.insert((place.line, place.column), entity)?;
        Ok(())
    }

    /// One more declaration, where there is one.
    pub fn put_next(&mut self, next: Option<(Place, Entity)>) -> Result<(), Memory>
        ensures { IfOk result (λ u. (list : List (Place × Entity)) → AreEntities list self.old.entities → AreEntities (with_entity next list) self.new.entities) }
    {
        match next {
            Some((place, entity)) => self.put(place, entity),
            None => Ok(()),
        }
    }

    /// What is declared at a place.
    pub fn at(&self, place: Place) -> Entity
        ensures { (list : List (Place × Entity)) → AreEntities list self.now.entities → result ≡ entity_in list place }
    {
        self.entities
            .get(&(place.line, place.column))
            .copied()
            .unwrap_or(Entity::Ahead)
    }
}

/// The uses of names of a whole program.
pub fn uses_of(alloc: Global, names: &[Naming]) -> Result<Uses, Memory>
    ensures { IfOk result (λ uses. AreUses (latest_first [] names.now) uses.declarations) }
{
    let mut uses = Uses::new(alloc);
    for naming in names {
        uses.put(*naming)?;
    }
    Ok(uses)
}
