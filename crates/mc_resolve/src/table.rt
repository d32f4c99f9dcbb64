// Names in scopes, each with the place of a declaration.

ghost use Rattle.std.specs.Prelude.{◌≡◌, ℕ, List, IfOk, Some, None, cond, option_map};
ghost use Rattle.mc_resolve.specs.Table.{found_in, is_this, is_named, own_place, found_of};
ghost use Rattle.mc_resolve.specs.Views.{named_of};

use crate::named::Named;
use mc_tree::place::Place;
use mc_word::bytes::Memory;
use std::alloc::Global;
use std::collections::BTreeMap;

/// The place of a standard name's declaration.
pub const NOWHERE: Place = Place { line: 0, column: 0 };

/// Places by scope and name.
#[derive(Drop)]
pub struct Table<'a> {
    places: BTreeMap<(usize, &'a [u8]), Place>,
}

impl<'a> Table<'a> {
    /// A table without names.
    pub fn new(alloc: Global) -> Table<'a>
        ensures { (scope : ℕ) (name : List ℕ) → found_in result.places scope name ≡ None }
    {
        Table {
            places: BTreeMap::new(alloc),
        }
    }

    /// The place that the name has in the scope.
    pub fn find(&self, scope: usize, name: &'a [u8]) -> Option<Place>
        ensures { result ≡ found_in self.now.places scope name.now }
    {
        self.places.get(&(scope, name)).copied()
    }

    /// The place that the name has in the scope, where there is one.
    pub fn find_in(&self, scope: Option<usize>, name: &'a [u8]) -> Option<Place>
        ensures { result ≡ found_of self.now.places scope name.now }
    {
        match scope {
            Some(scope) => self.find(scope, name),
            None => None,
        }
    }

    /// Gives the name a place in the scope.
    pub fn put(&mut self, scope: usize, name: &'a [u8], place: Place) -> Result<(), Memory>
        ensures { IfOk result (λ u. (s : ℕ) (x : List ℕ) → found_in self.new.places s x ≡ cond (is_this scope name.now s x) (Some place) (found_in self.old.places s x)) }
    {
        self.places.insert((scope, name), place)?;
        Ok(())
    }

    /// Gives the name, where there is one, a place in its scope.
    pub fn put_at(&mut self, named: Option<Named<'a>>, place: Place) -> Result<(), Memory>
        ensures { IfOk result (λ u. (s : ℕ) (x : List ℕ) → found_in self.new.places s x ≡ cond (is_named (option_map named_of named.entry) s x) (Some place) (found_in self.old.places s x)) }
    {
        match named {
            Some(named) => self.put(named.scope, named.name.text.as_slice(), place),
            None => Ok(()),
        }
    }

    /// Gives the name, where there is one, its own place in its scope.
    pub fn put_own(&mut self, named: Option<Named<'a>>) -> Result<(), Memory>
        ensures { IfOk result (λ u. (s : ℕ) (x : List ℕ) → found_in self.new.places s x ≡ cond (is_named (option_map named_of named.entry) s x) (own_place (option_map named_of named.entry)) (found_in self.old.places s x)) }
    {
        match named {
            Some(named) => self.put(named.scope, named.name.text.as_slice(), named.name.place),
            None => Ok(()),
        }
    }
}
