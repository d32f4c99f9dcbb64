// The words of a store by their names.

ghost use Rattle.std.specs.Prelude.{◌≡◌, IfOk, OnOk, OnErr, false, true};
ghost use Rattle.mc_meaning.specs.Configuration.{all_stored, stored};
ghost use Rattle.mc_meaning.specs.StoredWords.{AreNoted, KeepsNotes, is_noted, words_in};

use crate::store::Name;
use mc_word::Word;
use mc_word::bytes::Memory;
use std::alloc::Global;
use std::collections::BTreeMap;

/// Words by their names, of which contracts see the function `words_in`; a word that was never written is 0.
#[derive(Drop)]
pub(crate) struct Words {
    variables: BTreeMap<(u32, u32), Word>,
    privates: BTreeMap<(u32, u64, u32, u32), Word>,
}

impl Words {
    /// No word was written.
    pub(crate) fn new(alloc: Global) -> Words
        ensures { words_in result ≡ (λ name. 0) }
    {
        Words {
            variables: BTreeMap::new(alloc),
            privates: BTreeMap::new(alloc),
        }
    }

    /// The word of this name.
    pub(crate) fn get(&self, name: Name) -> Word
        ensures { result ≡ words_in self.now name }
    {
        match name {
            Name::Variable(cell, word) => {
                let found = self.variables.get(&(cell, word));
                found.copied().unwrap_or(0)
            }
            Name::Private(process, activation, slot, word) => {
                let found = self.privates.get(&(process, activation, slot, word));
                found.copied().unwrap_or(0)
            }
        }
    }

    /// Writes a word.
    pub(crate) fn put(&mut self, name: Name, word: Word) -> Result<(), Memory>
        ensures ok { OnOk result (words_in self.new ≡ stored (words_in self.old) name word) }
        ensures err { OnErr result (words_in self.new ≡ words_in self.old) }

        // Only a word that was not noted can lack memory.
        ensures noted { OnOk result (is_noted self.new name ≡ true) }
        ensures absent { OnErr result (is_noted self.old name ≡ false) }
        ensures kept { KeepsNotes self.old self.new }
    {
        match name {
            Name::Variable(cell, at) => {
                self.variables.insert((cell, at), word)?;
            }
            Name::Private(process, activation, slot, at) => {
                self.privates.insert((process, activation, slot, at), word)?;
            }
        }
        Ok(())
    }

    // Notes the word of this name as it is, so that it can be written without memory.
    fn note(&mut self, name: Name) -> Result<(), Memory>
        ensures same { words_in self.new ≡ words_in self.old }
        ensures noted { OnOk result (is_noted self.new name ≡ true) }
        ensures kept { KeepsNotes self.old self.new }
    {
        self.put(name, self.get(name))
    }

    /// Notes the words of these names as they are, so that `put_all` can write them without memory.
    pub(crate) fn note_all(&mut self, words: &[(Name, Word)]) -> Result<(), Memory>
        ensures same { words_in self.new ≡ words_in self.old }
        ensures noted { OnOk result (AreNoted self.new words.now) }
    {
        let mut i = words.len();
        while i > 0 {
            i -= 1;
            self.note(words[i].0)?;
        }
        Ok(())
    }

    /// Writes words that were noted, one after the other.
    pub(crate) fn put_all(&mut self, words: &[(Name, Word)])
        requires { AreNoted self.old words.now }
        ensures { words_in self.new ≡ all_stored (words_in self.old) words.now }
    {
        let mut i = 0;
        while i < words.len() {
            let (name, word) = words[i];
            if self.put(name, word).is_err() {
                unreachable!();
            }
            i += 1;
        }
    }
}
