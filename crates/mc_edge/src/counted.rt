// Reads of the outside, of which those that fail are counted: so that a load can be said to fail only where a read did.

ghost use Rattle.std.specs.Prelude.{◌≡◌, IsOk, OnErr};
ghost use Rattle.std.specs.Io.{ReadsAtMost};
ghost use Rattle.std.specs.Io.KnownBytes.{ReadConsumes};
ghost use Rattle.mc_shelf.specs.Outside.{Rose};

use std::io;
use std::io::Read;

/// A reader, and how often a read of it failed, up to the last value of a `u64`.
#[derive(Drop)]
pub struct Counted<T: Read> {
    from: T,
    failures: u64,
}

impl<T: Read> Counted<T> {
    /// A reader of which no read has failed.
    pub fn new(from: T) -> Counted<T>
        ensures from { result.from ≡ from }
        ensures failures { result.failures ≡ 0 }
    {
        Counted { from, failures: 0 }
    }
}

impl<T: Read> Read for Counted<T> {
    ghost remaining = { λ s. T.remaining s.from };

    fn read(&mut self, buf: &mut [u8]) -> io::Result<usize>
        ensures bound { ReadsAtMost result buf.new }
        ensures bytes { ReadConsumes (T.remaining self.old.from) (T.remaining self.new.from) result buf.new }
        ensures failed { OnErr result (Rose self.old.failures self.new.failures) }
        ensures counted { IsOk result → self.new.failures ≡ self.old.failures }
    {
        match self.from.read(buf) {
            Ok(taken) => Ok(taken),
            Err(error) => {
                self.failures = self.failures.saturating_add(1);
                Err(error)
            }
        }
    }
}
