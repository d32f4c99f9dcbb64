// The texts that run, by the places of their names.

ghost use Rattle.std.specs.Prelude.{◌≡◌, ◌∷◌, List, [], IfOk};
ghost use Rattle.mc_prog.specs.Resolved.{Text as RunningText, text_of};
ghost use Rattle.mc_types.specs.Assembled.{AreTexts};

use crate::texts::Text;
use mc_tree::place::Place;
use mc_word::bytes::Memory;
use std::alloc::Global;
use std::collections::BTreeMap;

/// The first text of each place.
#[derive(Drop)]
pub struct Placed {
    texts: BTreeMap<(u32, u32), Text>,
}

impl Placed {
    // No texts.
    fn new(alloc: Global) -> Placed
        ensures { AreTexts [] result.texts }
    {
        Placed {
            texts: BTreeMap::new(alloc),
        }
    }

    // One more text, before those that are there.
    fn put(&mut self, text: Text) -> Result<(), Memory>
        ensures { IfOk result (λ u. (texts : List RunningText) → AreTexts texts self.old.texts → AreTexts (text ∷ texts) self.new.texts) }
    {
        let place = text.at;
        self.texts.insert((place.line, place.column), text)?;
        Ok(())
    }

    /// These texts.
    pub fn of(alloc: Global, texts: &[Text]) -> Result<Placed, Memory>
        ensures { IfOk result (λ placed. AreTexts texts.now placed.texts) }
    {
        let mut placed = Placed::new(alloc);
        let mut left = texts.len();
        while left > 0 {
            left -= 1;
            placed.put(texts[left])?;
        }
        Ok(placed)
    }

    /// The first text of a place.
    pub fn at(&self, place: Place) -> Option<Text>
        ensures { (texts : List RunningText) → AreTexts texts self.now.texts → result ≡ text_of texts place }
    {
        self.texts.get(&(place.line, place.column)).copied()
    }
}
