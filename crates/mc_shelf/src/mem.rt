// A shelf in memory some of whose calls fail.

ghost use Rattle.std.specs.Prelude.{◌≡◌, ◌≢◌, ◌⊎◌, ◌+◌, ◌-◌, ◌/◌, ◌<◌, ◌≤◌, ◌↔◌, [], ◌++◌, Some, None, IfOk, IsOk, OnOk, OnErr, IsErrOf, IsTrue, length, take, option_copied};
ghost use Rattle.mc_shelf.specs.Failing.{IsToFail, called, failed};
ghost use Rattle.mc_shelf.specs.Kept.{file_of, one_more, asking};
ghost use Rattle.mc_shelf.specs.Outside.{content, placed, IsPart};
ghost use Rattle.mc_shelf.specs.declared.ask.Ask.{Ask};

use crate::ask::Ask;
use crate::contents::Contents;
use crate::files::MemFile;
use crate::shelf::{LoadFault, PutFault, Shelf};
use mc_word::bytes::Memory;
use std::alloc::Global;
use std::marker::Model;

/// A shelf in memory some of whose calls fail.
///
/// Loads, saves and prints are numbered together from 1, whatever they answer; a print of no bytes has no number.
/// The number stands still at the last value of a `u64`.
#[derive(Drop)]
pub struct MemShelf {
    contents: Contents,
    failing: Vec<u64>,
    calls: u64,
    faults: u64,
}

impl Model for MemShelf {
    ghost use Rattle.mc_shelf.specs.Failing.{Failing};

    ghost Value = { Failing };

    ghost view = { λ s. record { kept = s.contents; failing = s.failing.items; calls = s.calls; faults = s.faults } };
}

impl MemShelf {
    /// A shelf with these files, whose calls of these numbers fail. Of files that bear one name the first counts.
    pub fn new(alloc: Global, files: Vec<MemFile>, failing: Vec<u64>) -> MemShelf
        ensures { result ≡ record { kept = record { files = files.items; printed = []; asked = []; spare = 0; longs = 0 }; failing = failing.items; calls = 0; faults = 0 } }
    {
        MemShelf {
            contents: Contents::new(alloc, files),
            failing,
            calls: 0,
            faults: 0,
        }
    }

    /// All bytes that were printed.
    pub fn printed(&self) -> &[u8]
        ensures { result.now ≡ self.now.kept.printed }
    {
        self.contents.printed()
    }

    /// All loads and saves that were asked, in their order.
    pub fn asked(&self) -> &[Ask]
        ensures { result.now ≡ self.now.kept.asked }
    {
        self.contents.asked()
    }

    /// The bytes of the file of this name: `None` exactly where no file bears it.
    pub fn file(&self, name: &str) -> Option<&[u8]>
        ensures { option_copied result ≡ file_of self.now.kept.files name.now }
    {
        self.contents.file(name)
    }

    /// Makes room for so many bytes: prints of at most `n` bytes together then have no want of memory.
    pub fn reserve(&mut self, n: usize) -> Result<(), Memory>
        ensures ok { OnOk result (n ≤ self.new.kept.spare) }
        ensures not_lowered { self.old.kept.spare ≤ self.new.kept.spare }
        ensures room { n ≤ self.old.kept.spare → IsOk result }
        ensures same { self.new ≡ record self.old { kept = record self.old.kept { spare = self.new.kept.spare } } }
        ensures err { OnErr result (self.new ≡ self.old) }
    {
        self.contents.reserve(n)
    }

    // Counts a call, and says whether it fails.
    fn count_call(&mut self) -> bool
        ensures fails { IsTrue result ↔ IsToFail self.old }
        ensures counted { self.new ≡ record self.old { calls = one_more self.old.calls } }
    {
        self.calls = self.calls.saturating_add(1);
        self.failing.contains(&self.calls)
    }

    // Counts a failure.
    fn count_fault(&mut self)
        ensures counted { self.new ≡ record self.old { faults = one_more self.old.faults } }
        ensures later { self.old.faults ≤ self.new.faults }
    {
        self.faults = self.faults.saturating_add(1);
    }
}

impl Shelf for MemShelf {
    ghost use Rattle.std.specs.Prelude.{Some};
    ghost use Rattle.mc_shelf.specs.Kept.{file_of};

    ghost seen = { λ s. record { files = Some (file_of s.kept.files); printed = Some s.kept.printed; asked = Some s.kept.asked; spare = Some s.kept.spare; faults = s.faults; longs = s.kept.longs } };

    /// A call that fails, and a load of a name that the shelf lacks, answer `Failed`.
    fn load(&mut self, alloc: Global, name: &str, max: usize) -> Result<Vec<u8>, LoadFault>
        ensures ok { IfOk result (λ v. v.items ≡ content (file_of self.old.kept.files) name.now) }
        ensures short { IfOk result (λ v. length v.items ≤ max) }

        // Each error's cause.
        ensures exactly_failed { result ≢ Err LoadFault.Memory → (IsErrOf result LoadFault.Failed ↔ (IsToFail self.old ⊎ (file_of self.old.kept.files name.now ≡ None))) }
        ensures long { IsErrOf result LoadFault.TooLong → max < length (content (file_of self.old.kept.files) name.now) }

        // What each answer leaves.
        ensures after_ok { OnOk result (self.new ≡ called self.old (asking self.old.kept (Ask.Load name.now))) }
        ensures after_failed { IsErrOf result LoadFault.Failed → self.new ≡ failed self.old (asking self.old.kept (Ask.Load name.now)) }
        ensures after_long { IsErrOf result LoadFault.TooLong → self.new ≡ called self.old (asking (record self.old.kept { longs = one_more self.old.kept.longs }) (Ask.Load name.now)) }
        ensures after_memory { IsErrOf result LoadFault.Memory → self.new ≡ called self.old self.old.kept }
        ensures faults_later { self.old.faults ≤ self.new.faults }
        ensures longs_later { self.old.kept.longs ≤ self.new.kept.longs }
    {
        let fails = self.count_call();
        if fails || self.contents.file(name).is_none() {
            self.contents.ask_load(name)?;
            self.count_fault();
            return Err(LoadFault::Failed);
        }
        self.contents.load(alloc, name, max)
    }

    /// A call that fails takes the file away.
    fn save(&mut self, name: &str, bytes: &[u8]) -> Result<(), PutFault>
        ensures ok { OnOk result (Some (file_of self.new.kept.files) ≡ placed (Some (file_of self.old.kept.files)) name.now (Some bytes.now)) }
        ensures removed { IsErrOf result PutFault.Failed → Some (file_of self.new.kept.files) ≡ placed (Some (file_of self.old.kept.files)) name.now None }

        // The error's cause.
        ensures exactly_failed { result ≢ Err PutFault.Memory → (IsErrOf result PutFault.Failed ↔ IsToFail self.old) }

        // What else each answer leaves.
        ensures after_ok { OnOk result (self.new ≡ called self.old (record (asking self.old.kept (Ask.Save name.now)) { files = self.new.kept.files })) }
        ensures after_failed { IsErrOf result PutFault.Failed → self.new ≡ failed self.old (record (asking self.old.kept (Ask.Save name.now)) { files = self.new.kept.files }) }
        ensures after_memory { IsErrOf result PutFault.Memory → self.new ≡ called self.old self.old.kept }
        ensures faults_later { self.old.faults ≤ self.new.faults }
    {
        if self.count_call() {
            self.contents.ask_save(name)?;
            self.contents.remove(name);
            self.count_fault();
            return Err(PutFault::Failed);
        }
        Ok(self.contents.save(name, bytes)?)
    }

    /// A call that fails appends the first half of the bytes, rounded down.
    fn print(&mut self, bytes: &[u8]) -> Result<(), PutFault>
        ensures nothing { bytes.now ≡ [] → IsOk result × (self.new ≡ self.old) }

        // The error's cause.
        ensures exactly_failed { bytes.now ≢ [] → result ≢ Err PutFault.Memory → (IsErrOf result PutFault.Failed ↔ IsToFail self.old) }

        // What each answer leaves.
        ensures after_ok { bytes.now ≢ [] → OnOk result (self.new ≡ called self.old (record self.old.kept { printed = self.old.kept.printed ++ bytes.now; spare = self.new.kept.spare })) }
        ensures after_failed { IsErrOf result PutFault.Failed → self.new ≡ failed self.old (record self.old.kept { printed = self.old.kept.printed ++ take (length bytes.now / 2) bytes.now; spare = self.new.kept.spare }) }
        ensures part { IsErrOf result PutFault.Failed → IsPart (Some self.old.kept.printed) bytes.now (Some self.new.kept.printed) }
        ensures after_memory { IsErrOf result PutFault.Memory → self.new ≡ called self.old (record self.old.kept { spare = self.new.kept.spare }) }
        ensures faults_later { self.old.faults ≤ self.new.faults }

        // Room that is there keeps a print free of want of memory.
        ensures room { length bytes.now ≤ self.old.kept.spare → result ≢ Err PutFault.Memory }
        ensures spare { self.old.kept.spare - length bytes.now ≤ self.new.kept.spare }
    {
        if bytes.is_empty() {
            return Ok(());
        }
        if self.count_call() {
            self.contents.print(&bytes[..bytes.len() / 2])?;
            self.count_fault();
            return Err(PutFault::Failed);
        }
        Ok(self.contents.print(bytes)?)
    }
}
