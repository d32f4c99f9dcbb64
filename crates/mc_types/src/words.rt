// The words of labels, which are sought in a list of any length.

ghost use Rattle.std.specs.Prelude.{◌≡◌, ℕ, List, [], ◌∷◌, IfOk};
ghost use Rattle.mc_prog.specs.StatementTypes.{is_among};
ghost use Rattle.mc_types.specs.Words.{IsSetOf};

use mc_word::Word;
use mc_word::bytes::Memory;
use std::alloc::Global;
use std::collections::BTreeSet;

/// Some words.
#[derive(Drop)]
pub struct Words {
    words: BTreeSet<Word>,
}

impl Words {
    /// No words.
    pub fn new(alloc: Global) -> Words
        ensures { IsSetOf result.words [] }
    {
        Words {
            words: BTreeSet::new(alloc),
        }
    }

    /// Whether a word is among these.
    pub fn has(&self, word: Word) -> bool
        ensures { (words : List ℕ) → IsSetOf self.now.words words → result ≡ is_among word words }
    {
        self.words.contains(&word)
    }

    /// One more word.
    pub fn put(&mut self, word: Word) -> Result<(), Memory>
        ensures { IfOk result (λ u. (words : List ℕ) → IsSetOf self.old.words words → IsSetOf self.new.words (word ∷ words)) }
    {
        self.words.insert(word)?;
        Ok(())
    }
}
