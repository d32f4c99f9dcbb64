// The outside itself: real files, and standard output.

ghost use Rattle.std.specs.Prelude.{◌≡◌, ◌≢◌, ◌<◌, ◌≤◌, Err, IfOk, IfSome, IsErrOf, OnOk, length};
ghost use Rattle.std.specs.Io.KnownBytes.{Appends};
ghost use Rattle.mc_shelf.specs.Outside.{Rose};

use crate::counted::Counted;
use mc_shelf::shelf::{LoadFault, PutFault, Shelf};
use std::alloc::Global;
use std::fs::File;
use std::io;
use std::io::{ErrorKind, Read, Write};
use std::rt::Files;

/// The files of the file system, and standard output, under a runtime.
///
/// It tells nothing of what they hold, and counts its failures and the files that were too long, each up to the last
/// value of a `u64`. Any error of the system is a failure.
#[derive(Drop)]
pub struct DirShelf<'a, R: Files + Print> {
    rt: &'a R,
    faults: u64,
    longs: u64,
}

impl<'a, R: Files + Print> DirShelf<'a, R> {
    /// A shelf on which nothing has failed.
    pub fn new(rt: &'a R) -> DirShelf<'a, R>
        ensures faults { result.faults ≡ 0 }
        ensures longs { result.longs ≡ 0 }
    {
        DirShelf {
            rt,
            faults: 0,
            longs: 0,
        }
    }
}

impl<R: Files + Print> Shelf for DirShelf<'_, R> {
    ghost use Rattle.std.specs.Prelude.{None};

    ghost seen = { λ s. record { files = None; printed = None; asked = None; spare = None; faults = s.faults; longs = s.longs } };

    fn load(&mut self, alloc: Global, name: &str, max: usize) -> Result<Vec<u8>, LoadFault> {
        let loaded = read_file(self.rt, alloc, name, max);
        match &loaded {
            Err(LoadFault::Failed) => self.faults = self.faults.saturating_add(1),
            Err(LoadFault::TooLong) => self.longs = self.longs.saturating_add(1),
            _ => {}
        }
        loaded
    }

    fn save(&mut self, name: &str, bytes: &[u8]) -> Result<(), PutFault> {
        if write_file(self.rt, name, bytes).is_err() {
            self.faults = self.faults.saturating_add(1);
            return Err(PutFault::Failed);
        }
        Ok(())
    }

    fn print(&mut self, bytes: &[u8]) -> Result<(), PutFault> {
        if bytes.is_empty() {
            return Ok(());
        }
        if write_bytes(&mut io::writer(self.rt), bytes).is_err() {
            self.faults = self.faults.saturating_add(1);
            return Err(PutFault::Failed);
        }
        Ok(())
    }
}

// Reads a file of at most `max` bytes.
fn read_file<R: Files>(rt: &R, alloc: Global, name: &str, max: usize) -> Result<Vec<u8>, LoadFault>
    ensures { IfOk result (λ v. length v.items ≤ max) }
{
    let Ok(file) = File::open(rt, name) else {
        return Err(LoadFault::Failed);
    };
    read_bytes(&mut Counted::new(file), alloc, max)
}

// Reads to the end, which is a read of no byte, or to one byte more than `max`. Each read but the last takes a byte. It fails
// only where a read failed, and where it does not fail, none did.
fn read_bytes<T: Read>(
    from: &mut Counted<T>,
    alloc: Global,
    max: usize,
) -> Result<Vec<u8>, LoadFault>
    ensures short { IfOk result (λ v. length v.items ≤ max) }
    ensures whole { IfOk result (λ v. IfSome (T.remaining from.old.from) (λ bytes. v.items ≡ bytes)) }
    ensures long { IsErrOf result LoadFault.TooLong → IfSome (T.remaining from.old.from) (λ bytes. max < length bytes) }
    ensures failed { IsErrOf result LoadFault.Failed → Rose from.old.failures from.new.failures }
    ensures counted { result ≢ Err LoadFault.Failed → from.new.failures ≡ from.old.failures }
{
    let mut bytes = Vec::new(alloc);
    let mut piece = [0; 4096];
    'pieces: while bytes.len() <= max {
        let wanted = piece.len().min((max - bytes.len()).saturating_add(1));
        let Ok(taken) = from.read(&mut piece[..wanted]) else {
            return Err(LoadFault::Failed);
        };
        if taken == 0 {
            return Ok(bytes);
        }
        bytes.extend_from_slice(&piece[..taken])?;
    }
    Err(LoadFault::TooLong)
}

// Gives a file these bytes, in place of those that it had.
fn write_file<R: Files>(rt: &R, name: &str, bytes: &[u8]) -> io::Result<()> {
    let mut file = File::create(rt, name)?;
    write_bytes(&mut file, bytes)
}

// Writes all bytes, at least one by each write.
fn write_bytes<W: Write>(to: &mut W, bytes: &[u8]) -> io::Result<()>
    ensures { OnOk result (Appends (W.contents to.old) (W.contents to.new) bytes.now) }
{
    let mut rest = bytes;
    'writes: while !rest.is_empty() {
        let taken = to.write(rest)?;
        if taken == 0 {
            return Err(io::Error::from(ErrorKind::WriteZero));
        }
        rest = &rest[taken..];
    }
    to.flush()
}

#[cfg(test)]
mod tests {
    use super::*;
    use std::fs;
    use std::test::Fail;

    #[test]
    fn a_saved_file_is_loaded(rt: HostRuntime) -> Result<(), Fail> {
        let alloc = rt.alloc();
        let mut shelf = DirShelf::new(&rt);

        // More than one read takes, and then fewer bytes in its place.
        let long = vec![in alloc; 7; 5000]?;
        shelf.save("saved", long.as_slice())?;
        let loaded = shelf.load(alloc, "saved", 5000)?;
        assert_eq!(rt; loaded.as_slice(), long.as_slice());
        shelf.save("saved", b"few bytes")?;
        let loaded = shelf.load(alloc, "saved", 9)?;
        assert_eq!(rt; loaded.as_slice(), b"few bytes".as_slice());

        shelf.save("empty", b"")?;
        let loaded = shelf.load(alloc, "empty", 0)?;
        assert_eq!(rt; loaded.as_slice(), b"".as_slice());
        assert_eq!(rt; shelf.faults, 0);

        let too_long = shelf.load(alloc, "saved", 8);
        assert_eq!(rt; too_long.err(), Some(LoadFault::TooLong));
        fs::remove_file(&rt, "saved")?;
        fs::remove_file(&rt, "empty")?;
        let missing = shelf.load(alloc, "saved", 9);
        assert_eq!(rt; missing.err(), Some(LoadFault::Failed));
        assert_eq!(rt; shelf.faults, 1);
        assert_eq!(rt; shelf.longs, 1);
        Ok(())
    }
}
