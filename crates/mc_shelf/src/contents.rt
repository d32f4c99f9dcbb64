// What both shelves in memory keep, and do alike.

ghost use Rattle.std.specs.Prelude.{◌≡◌, ◌≢◌, ◌-◌, ◌<◌, ◌≤◌, [], ◌∷◌, ◌++◌, IfOk, IsOk, OnOk, OnErr, IsErrOf, length, option_copied, filter, not, bytes_eq};
ghost use Rattle.mc_shelf.specs.Kept.{file_of, one_more, asking};
ghost use Rattle.mc_shelf.specs.Outside.{content};
ghost use Rattle.mc_shelf.specs.declared.ask.Ask.{Ask};

use crate::ask::Ask;
use crate::files::{MemFile, remove_file};
use crate::shelf::LoadFault;
use mc_word::bytes::{Bytes, Memory, Text};
use std::alloc::Global;
use std::marker::Model;

/// Files, what was printed and asked, and how often a file was too long.
#[derive(Drop)]
pub struct Contents {
    alloc: Global,
    files: Vec<MemFile>,
    printed: Vec<u8>,
    asked: Vec<Ask>,
    longs: u64,
}

impl Model for Contents {
    ghost use Rattle.std.specs.Prelude.{◌-◌, vec_len, vec_capacity};
    ghost use Rattle.mc_shelf.specs.Kept.{Kept};

    ghost Value = { Kept };

    ghost view = { λ c. record { files = c.files.items; printed = c.printed.items; asked = c.asked.items; spare = vec_capacity c.printed - vec_len c.printed; longs = c.longs } };
}

impl Contents {
    /// These files, with nothing printed and nothing asked.
    pub fn new(alloc: Global, files: Vec<MemFile>) -> Contents
        ensures { result ≡ record { files = files.items; printed = []; asked = []; spare = 0; longs = 0 } }
    {
        Contents {
            alloc,
            files,
            printed: Vec::new(alloc),
            asked: Vec::new(alloc),
            longs: 0,
        }
    }

    /// All bytes that were printed.
    pub fn printed(&self) -> &[u8]
        ensures { result.now ≡ self.now.printed }
    {
        self.printed.as_slice()
    }

    /// All that was asked.
    pub fn asked(&self) -> &[Ask]
        ensures { result.now ≡ self.now.asked }
    {
        self.asked.as_slice()
    }

    /// The bytes of the first file of this name.
    pub fn file(&self, name: &str) -> Option<&[u8]>
        ensures { option_copied result ≡ file_of self.now.files name.now }
    {
        self.files
            .iter()
            .find(|file| file.is_named(name))
            .map(|file| file.bytes.as_slice())
    }

    /// Makes room for so many bytes to be printed.
    pub fn reserve(&mut self, n: usize) -> Result<(), Memory>
        ensures ok { OnOk result (n ≤ self.new.spare) }
        ensures not_lowered { self.old.spare ≤ self.new.spare }
        ensures room { n ≤ self.old.spare → IsOk result }
        ensures same { self.new ≡ record self.old { spare = self.new.spare } }
        ensures err { OnErr result (self.new ≡ self.old) }
    {
        self.printed.reserve(n)?;
        Ok(())
    }

    /// Prints these bytes.
    pub fn print(&mut self, bytes: &[u8]) -> Result<(), Memory>
        ensures ok { OnOk result (self.new ≡ record self.old { printed = self.old.printed ++ bytes.now; spare = self.new.spare }) }
        ensures spare { self.old.spare - length bytes.now ≤ self.new.spare }
        ensures err { OnErr result (self.new ≡ record self.old { spare = self.new.spare }) }
        ensures room { length bytes.now ≤ self.old.spare → IsOk result }
    {
        self.printed.extend_from_slice(bytes)?;
        Ok(())
    }

    /// Gives this name no file.
    pub fn remove(&mut self, name: &str)
        ensures { self.new ≡ record self.old { files = filter (λ f. not (bytes_eq f.name name.now)) self.old.files } }
    {
        remove_file(&mut self.files, name);
    }

    /// Adds a load to what was asked.
    pub fn ask_load(&mut self, name: &str) -> Result<(), Memory>
        ensures ok { OnOk result (self.new ≡ asking self.old (Ask.Load name.now)) }
        ensures err { OnErr result (self.new ≡ self.old) }
    {
        let name = Text::from_slice(self.alloc, name.as_bytes())?;
        self.asked.push(Ask::Load(name))?;
        Ok(())
    }

    /// Adds a save to what was asked.
    pub fn ask_save(&mut self, name: &str) -> Result<(), Memory>
        ensures ok { OnOk result (self.new ≡ asking self.old (Ask.Save name.now)) }
        ensures err { OnErr result (self.new ≡ self.old) }
    {
        let name = Text::from_slice(self.alloc, name.as_bytes())?;
        self.asked.push(Ask::Save(name))?;
        Ok(())
    }

    /// Loads a file of at most `max` bytes; a name without a file reads as a file without bytes.
    pub fn load(&mut self, alloc: Global, name: &str, max: usize) -> Result<Vec<u8>, LoadFault>
        ensures ok { IfOk result (λ v. v.items ≡ content (file_of self.old.files) name.now) }
        ensures short { IfOk result (λ v. length v.items ≤ max) }
        ensures asked { OnOk result (self.new ≡ asking self.old (Ask.Load name.now)) }
        ensures long { IsErrOf result LoadFault.TooLong → max < length (content (file_of self.old.files) name.now) }
        ensures counted { IsErrOf result LoadFault.TooLong → self.new ≡ asking (record self.old { longs = one_more self.old.longs }) (Ask.Load name.now) }
        ensures longs_later { self.old.longs ≤ self.new.longs }
        ensures memory { IsErrOf result LoadFault.Memory → self.new ≡ self.old }
        ensures never_failed { result ≢ Err LoadFault.Failed }
    {
        let bytes = self.file(name).unwrap_or(&[]);
        if bytes.len() > max {
            self.ask_load(name)?;
            self.longs = self.longs.saturating_add(1);
            return Err(LoadFault::TooLong);
        }
        let copy = Vec::from_slice(alloc, bytes)?;
        self.ask_load(name)?;
        Ok(copy)
    }

    /// Gives a file these bytes.
    pub fn save(&mut self, name: &str, bytes: &[u8]) -> Result<(), Memory>
        ensures ok { OnOk result (self.new ≡ record (asking self.old (Ask.Save name.now)) { files = filter (λ f. not (bytes_eq f.name name.now)) self.old.files ++ record { name = name.now; bytes = bytes.now } ∷ [] }) }
        ensures err { OnErr result (self.new ≡ self.old) }
    {
        let file = MemFile {
            name: Text::from_slice(self.alloc, name.as_bytes())?,
            bytes: Bytes::from_slice(self.alloc, bytes)?,
        };
        let asked = Text::from_slice(self.alloc, name.as_bytes())?;
        self.files.reserve(1)?;
        self.asked.push(Ask::Save(asked))?;
        remove_file(&mut self.files, name);
        self.files.push_reserved(file);
        Ok(())
    }
}
