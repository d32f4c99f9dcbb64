// A buffer that holds the next piece of a report, in memory that was taken before.

ghost use Rattle.std.specs.Prelude.{◌≡◌, ◌<◌, ◌≤◌, ◌↔◌, [], ◌∷◌, ◌++◌, length, IsTrue, IfOk};

use mc_word::bytes::Memory;
use std::alloc::Global;
use std::marker::Model;

/// How many bytes of a report are printed at a time.
pub const PIECE: usize = 4096;

/// The bytes of a report that are not printed yet, at most a piece.
#[derive(Debug, Drop)]
pub struct Pieces {
    bytes: Vec<u8>,
}

impl Model for Pieces {
    ghost use Rattle.std.specs.Prelude.{ℕ, List, ◌≤◌, vec_len, vec_capacity};
    ghost use Rattle.mc_report.specs.declared.pieces.TheConstants.{PIECE};

    ghost Value = { List ℕ };

    ghost view = { λ p. p.bytes.items };

    ghost invariant = { λ p. (vec_len p.bytes ≤ PIECE) × (PIECE ≤ vec_capacity p.bytes) };
}

impl Pieces {
    /// An empty buffer with memory for a piece.
    pub fn new(alloc: Global) -> Result<Pieces, Memory>
        ensures { IfOk result (λ p. p ≡ []) }
    {
        Ok(Pieces {
            bytes: Vec::with_capacity(alloc, PIECE)?,
        })
    }

    /// Puts a byte behind those that are held.
    pub fn push(&mut self, byte: u8)
        requires { length self.old < PIECE }
        ensures { self.new ≡ self.old ++ byte ∷ [] }
    {
        self.bytes.push(byte).unwrap();
    }

    /// The held bytes, in order.
    pub fn held(&self) -> &[u8]
        ensures { result.now ≡ self.now }
    {
        self.bytes.as_slice()
    }

    /// Whether a whole piece is held.
    pub fn is_full(&self) -> bool
        ensures full { IsTrue result ↔ (length self.now ≡ PIECE) }
        ensures fits { length self.now ≤ PIECE }
    {
        self.bytes.len() == PIECE
    }

    /// Lets all held bytes go, and keeps the memory.
    pub fn clear(&mut self)
        ensures { self.new ≡ [] }
    {
        self.bytes.clear();
    }
}
