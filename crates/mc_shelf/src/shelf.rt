// The outside: files that are loaded and saved, and what is printed.

ghost use Rattle.std.specs.Prelude.{◌≡◌, ◌≢◌, ℕ, ◌+◌, ◌<◌, ◌≤◌, ◌↔◌, List, [], Option, Some, IfOk, IsOk, OnOk, IsErrOf, length};
ghost use Rattle.mc_shelf.specs.declared.ask.Ask.{Ask};
ghost use Rattle.mc_shelf.specs.declared.shelf.LoadFault.TheVariants.{Memory as LoadMemory};
ghost use Rattle.mc_shelf.specs.declared.shelf.PutFault.TheVariants.{Memory as PutMemory};
ghost use Rattle.mc_shelf.specs.Outside.{View, content, Told, Rose, placed, appended, IsPart, asks, HasRoom};

use mc_word::bytes::Memory;
use std::alloc::{AllocError, Global};
use thiserror::Error;

/// Why a load gave no bytes.
#[derive(Clone, Copy, PartialEq, Eq, Debug, Error)]
pub enum LoadFault {
    /// The file could not be read.
    #[error("the load failed")]
    Failed,
    /// The file has more bytes than the load may give.
    #[error("the file is too long")]
    TooLong,
    #[error("memory")]
    Memory,
}

/// Why a save or a print was not made.
#[derive(Clone, Copy, PartialEq, Eq, Debug, Error)]
pub enum PutFault {
    /// The file or the output could not be written.
    #[error("the write failed")]
    Failed,
    #[error("memory")]
    Memory,
}

impl From<Memory> for LoadFault {
    ghost from_gives = { λ _ fault. fault ≡ LoadMemory };

    fn from(_error: Memory) -> LoadFault {
        LoadFault::Memory
    }
}

impl From<AllocError> for LoadFault {
    ghost from_gives = { λ _ fault. fault ≡ LoadMemory };

    fn from(_error: AllocError) -> LoadFault {
        LoadFault::Memory
    }
}

impl From<Memory> for PutFault {
    ghost from_gives = { λ _ fault. fault ≡ PutMemory };

    fn from(_error: Memory) -> PutFault {
        PutFault::Memory
    }
}

/// The one object of the outside. Names and contents are bytes.
///
/// What a shelf does not tell of itself (`None`), no clause promises.
pub trait Shelf {
    /// What the shelf tells of itself: files, what was printed and asked, spare room, and how often calls failed and files
    /// were too long.
    ghost seen: { Self → View };

    /// Loads a file of at most `max` bytes.
    ///
    /// # Errors
    ///
    /// `Failed` where the outside failed, `TooLong` where the file has more than `max` bytes, and `Memory`.
    fn load(&mut self, alloc: Global, name: &str, max: usize) -> Result<Vec<u8>, LoadFault>
        ensures bytes { IfOk result (λ v. Told (seen self.old).files (λ f. v.items ≡ content f name.now)) }
        ensures short { IfOk result (λ v. length v.items ≤ max) }

        // Each error's cause.
        ensures failed { IsErrOf result LoadFault.Failed → Rose (seen self.old).faults (seen self.new).faults }
        ensures long { IsErrOf result LoadFault.TooLong → Rose (seen self.old).longs (seen self.new).longs }
        ensures exactly_long { ¬ (Rose (seen self.old).faults (seen self.new).faults) → result ≢ Err LoadFault.Memory → Told (seen self.old).files (λ f. IsErrOf result LoadFault.TooLong ↔ (max < length (content f name.now))) }

        // The counts grow by these errors alone.
        ensures faults_later { (seen self.old).faults ≤ (seen self.new).faults }
        ensures faults_same { result ≢ Err LoadFault.Failed → (seen self.new).faults ≡ (seen self.old).faults }
        ensures longs_later { (seen self.old).longs ≤ (seen self.new).longs }
        ensures longs_same { result ≢ Err LoadFault.TooLong → (seen self.new).longs ≡ (seen self.old).longs }

        // What else changes, and what stays.
        ensures asked { result ≢ Err LoadFault.Memory → (seen self.new).asked ≡ asks (seen self.old).asked (Ask.Load name.now) }
        ensures unasked { IsErrOf result LoadFault.Memory → (seen self.new).asked ≡ (seen self.old).asked }
        ensures files { (seen self.new).files ≡ (seen self.old).files }
        ensures printed { (seen self.new).printed ≡ (seen self.old).printed }
        ensures spare { (n : ℕ) → HasRoom (seen self.old).spare n → HasRoom (seen self.new).spare n };

    /// Gives a file these bytes, in place of those that it had.
    ///
    /// # Errors
    ///
    /// `Failed` where the outside failed, after which what this file holds is unknown; and `Memory`.
    fn save(&mut self, name: &str, bytes: &[u8]) -> Result<(), PutFault>
        ensures ok { OnOk result ((seen self.new).files ≡ placed (seen self.old).files name.now (Some bytes.now)) }

        // Each error's cause, and what it leaves.
        ensures failed { IsErrOf result PutFault.Failed → Rose (seen self.old).faults (seen self.new).faults }
        ensures unknown { IsErrOf result PutFault.Failed → (held : Option (List ℕ)) × ((seen self.new).files ≡ placed (seen self.old).files name.now held) }
        ensures memory { IsErrOf result PutFault.Memory → ((seen self.new).files ≡ (seen self.old).files) × ((seen self.new).spare ≡ (seen self.old).spare) }

        // The count grows by a failure alone.
        ensures faults_later { (seen self.old).faults ≤ (seen self.new).faults }
        ensures faults_same { result ≢ Err PutFault.Failed → (seen self.new).faults ≡ (seen self.old).faults }

        // What else changes, and what stays.
        ensures asked { result ≢ Err PutFault.Memory → (seen self.new).asked ≡ asks (seen self.old).asked (Ask.Save name.now) }
        ensures unasked { IsErrOf result PutFault.Memory → (seen self.new).asked ≡ (seen self.old).asked }
        ensures longs { (seen self.new).longs ≡ (seen self.old).longs }
        ensures printed { (seen self.new).printed ≡ (seen self.old).printed }
        ensures spare { (n : ℕ) → HasRoom (seen self.old).spare n → HasRoom (seen self.new).spare n };

    /// Appends bytes to what was printed.
    ///
    /// # Errors
    ///
    /// `Failed` where the outside failed, after which a first part of the bytes was printed; and `Memory`, of which
    /// room that was told keeps a print free.
    fn print(&mut self, bytes: &[u8]) -> Result<(), PutFault>
        ensures ok { OnOk result ((seen self.new).printed ≡ appended (seen self.old).printed bytes.now) }

        // Each error's cause, and what it leaves.
        ensures failed { IsErrOf result PutFault.Failed → Rose (seen self.old).faults (seen self.new).faults }
        ensures part { IsErrOf result PutFault.Failed → IsPart (seen self.old).printed bytes.now (seen self.new).printed }
        ensures memory { IsErrOf result PutFault.Memory → (seen self.new).printed ≡ (seen self.old).printed }

        // Within spare room there is no want of memory, and the print takes no more than its length of that room.
        ensures room { HasRoom (seen self.old).spare (length bytes.now) → result ≢ Err PutFault.Memory }
        ensures spare { (n : ℕ) → HasRoom (seen self.old).spare (length bytes.now + n) → HasRoom (seen self.new).spare n }

        // A print of no bytes does nothing.
        ensures nothing { bytes.now ≡ [] → IsOk result × (self.new ≡ self.old) }

        // The count grows by a failure alone.
        ensures faults_later { (seen self.old).faults ≤ (seen self.new).faults }
        ensures faults_same { result ≢ Err PutFault.Failed → (seen self.new).faults ≡ (seen self.old).faults }

        // What stays.
        ensures longs { (seen self.new).longs ≡ (seen self.old).longs }
        ensures asked { (seen self.new).asked ≡ (seen self.old).asked }
        ensures files { (seen self.new).files ≡ (seen self.old).files };
}
