// A shelf in memory that never fails.

ghost use Rattle.std.specs.Prelude.{◌≡◌, ◌≢◌, ◌+◌, ◌-◌, ◌<◌, ◌≤◌, [], ◌++◌, Some, IfOk, IsOk, OnOk, OnErr, IsErrOf, length, option_copied};
ghost use Rattle.mc_shelf.specs.Kept.{file_of, one_more, asking};
ghost use Rattle.mc_shelf.specs.Outside.{content, placed};
ghost use Rattle.mc_shelf.specs.declared.ask.Ask.{Ask};

use crate::ask::Ask;
use crate::contents::Contents;
use crate::files::MemFile;
use crate::shelf::{LoadFault, PutFault, Shelf};
use mc_word::bytes::Memory;
use std::alloc::Global;
use std::marker::Model;

/// A shelf in memory that never fails: a name without a file loads as an empty file.
#[derive(Drop)]
pub struct SoundShelf {
    contents: Contents,
}

impl Model for SoundShelf {
    ghost use Rattle.mc_shelf.specs.Kept.{Kept};

    ghost Value = { Kept };

    ghost view = { λ s. s.contents };
}

impl SoundShelf {
    /// A shelf with these files, on which nothing was printed or asked. Of files that bear one name the first counts.
    pub fn new(alloc: Global, files: Vec<MemFile>) -> SoundShelf
        ensures { result ≡ record { files = files.items; printed = []; asked = []; spare = 0; longs = 0 } }
    {
        SoundShelf {
            contents: Contents::new(alloc, files),
        }
    }

    /// All bytes that were printed.
    pub fn printed(&self) -> &[u8]
        ensures { result.now ≡ self.now.printed }
    {
        self.contents.printed()
    }

    /// All loads and saves that were asked, in their order.
    pub fn asked(&self) -> &[Ask]
        ensures { result.now ≡ self.now.asked }
    {
        self.contents.asked()
    }

    /// The bytes of the file of this name: `None` exactly where no file bears it.
    pub fn file(&self, name: &str) -> Option<&[u8]>
        ensures { option_copied result ≡ file_of self.now.files name.now }
    {
        self.contents.file(name)
    }

    /// Makes room for so many bytes: prints of at most `n` bytes together then have no want of memory.
    pub fn reserve(&mut self, n: usize) -> Result<(), Memory>
        ensures ok { OnOk result (n ≤ self.new.spare) }
        ensures not_lowered { self.old.spare ≤ self.new.spare }
        ensures room { n ≤ self.old.spare → IsOk result }
        ensures same { self.new ≡ record self.old { spare = self.new.spare } }
        ensures err { OnErr result (self.new ≡ self.old) }
    {
        self.contents.reserve(n)
    }
}

impl Shelf for SoundShelf {
    ghost use Rattle.std.specs.Prelude.{Some};
    ghost use Rattle.mc_shelf.specs.Kept.{file_of};

    ghost seen = { λ s. record { files = Some (file_of s.files); printed = Some s.printed; asked = Some s.asked; spare = Some s.spare; faults = 0; longs = s.longs } };

    fn load(&mut self, alloc: Global, name: &str, max: usize) -> Result<Vec<u8>, LoadFault>
        ensures ok { IfOk result (λ v. v.items ≡ content (file_of self.old.files) name.now) }
        ensures short { IfOk result (λ v. length v.items ≤ max) }

        // Each error's cause.
        ensures never_failed { result ≢ Err LoadFault.Failed }
        ensures long { IsErrOf result LoadFault.TooLong → max < length (content (file_of self.old.files) name.now) }

        // What each answer leaves.
        ensures after_ok { OnOk result (self.new ≡ asking self.old (Ask.Load name.now)) }
        ensures after_long { IsErrOf result LoadFault.TooLong → self.new ≡ asking (record self.old { longs = one_more self.old.longs }) (Ask.Load name.now) }
        ensures after_memory { IsErrOf result LoadFault.Memory → self.new ≡ self.old }
        ensures longs_later { self.old.longs ≤ self.new.longs }
    {
        self.contents.load(alloc, name, max)
    }

    fn save(&mut self, name: &str, bytes: &[u8]) -> Result<(), PutFault>
        ensures ok { OnOk result (Some (file_of self.new.files) ≡ placed (Some (file_of self.old.files)) name.now (Some bytes.now)) }
        ensures never_failed { result ≢ Err PutFault.Failed }

        // What else each answer leaves.
        ensures after_ok { OnOk result (self.new ≡ record (asking self.old (Ask.Save name.now)) { files = self.new.files }) }
        ensures after_memory { OnErr result (self.new ≡ self.old) }
    {
        Ok(self.contents.save(name, bytes)?)
    }

    fn print(&mut self, bytes: &[u8]) -> Result<(), PutFault>
        ensures nothing { bytes.now ≡ [] → IsOk result × (self.new ≡ self.old) }
        ensures never_failed { result ≢ Err PutFault.Failed }

        // What each answer leaves.
        ensures after_ok { OnOk result (self.new ≡ record self.old { printed = self.old.printed ++ bytes.now; spare = self.new.spare }) }
        ensures after_memory { OnErr result (self.new ≡ record self.old { spare = self.new.spare }) }

        // Room that is there keeps a print free of want of memory.
        ensures room { length bytes.now ≤ self.old.spare → IsOk result }
        ensures spare { self.old.spare - length bytes.now ≤ self.new.spare }
    {
        if bytes.is_empty() {
            return Ok(());
        }
        Ok(self.contents.print(bytes)?)
    }
}
