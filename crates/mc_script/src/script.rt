// What a script says, apart from how it is written.

ghost use Rattle.std.specs.Prelude.{◌≡◌, ◌≤◌};
ghost use Rattle.mc_script.specs.Script.{IsWithin, IsPeriod, AreAfter, IsScript, plain_script};

use mc_word::bytes::Bytes;
use std::alloc::Global;
use std::marker::Model;

/// A key that is struck at the console.
#[derive(Clone, Copy, PartialEq, Eq, Debug)]
pub struct Key {
    /// When, in units of machine time, 1 to 20,000,000.
    pub at: u32,
    pub byte: u8,
}

/// How long the devices take for a byte.
#[derive(Clone, Copy, PartialEq, Eq, Debug)]
pub struct Delays {
    pub printer: u32,
    pub reader: u32,
    pub punch: u32,
}

/// A script. Times are in units of machine time, of which an instruction takes one.
#[derive(Drop)]
pub struct Script {
    keys: Vec<Key>,
    tape: Bytes,
    printer: u32,
    reader: u32,
    punch: u32,
    clock: Option<u32>,
    limit: u32,
}

impl Model for Script {
    ghost use Rattle.mc_script.specs.Script.{ScriptState, IsScript};

    ghost Value = { ScriptState };

    ghost view = { λ s. record { keys = s.keys.items; tape = s.tape; printer = s.printer; reader = s.reader; punch = s.punch; clock = s.clock; limit = s.limit } };

    ghost invariant = { λ s. IsScript (record { keys = s.keys.items; tape = s.tape; printer = s.printer; reader = s.reader; punch = s.punch; clock = s.clock; limit = s.limit }) };
}

impl Script {
    /// The longest time that a script can allow.
    pub const LONGEST: u32 = 20_000_000;

    /// The limit of a script that names none.
    pub const USUAL_LIMIT: u32 = 1_000_000;

    /// The script that says nothing but when the machine is stopped: no keys, an empty tape, no clock, and
    /// delays of 300 for the printer, 200 for the reader and 400 for the punch.
    pub fn plain(alloc: Global, limit: u32) -> Script
        requires low { 1 ≤ limit }
        requires high { limit ≤ 20000000 }
        ensures { result ≡ plain_script limit }
    {
        Script {
            keys: Vec::new(alloc),
            tape: Bytes::from_vec(Vec::new(alloc)),
            printer: 300,
            reader: 200,
            punch: 400,
            clock: None,
            limit,
        }
    }

    /// A script with these values, in their ranges. Each key's time is greater than that of the key before it.
    pub fn new(
        keys: Vec<Key>,
        tape: Bytes,
        delays: Delays,
        clock: Option<u32>,
        limit: u32,
    ) -> Script
        requires { IsScript (record { keys = keys.items; tape = tape; printer = delays.printer; reader = delays.reader; punch = delays.punch; clock = clock; limit = limit }) }
        ensures { result ≡ record { keys = keys.items; tape = tape; printer = delays.printer; reader = delays.reader; punch = delays.punch; clock = clock; limit = limit } }
    {
        Script {
            keys,
            tape,
            printer: delays.printer,
            reader: delays.reader,
            punch: delays.punch,
            clock,
            limit,
        }
    }

    /// The keys, in order of their times; each script has its values in their ranges.
    pub fn keys(&self) -> &[Key]
        ensures value { result.now ≡ self.now.keys }
        ensures range { AreAfter 0 result.now }
        ensures script { IsScript self.now }
    {
        self.keys.as_slice()
    }

    /// The bytes on the paper tape in the reader.
    pub fn tape(&self) -> &[u8]
        ensures { result.now ≡ self.now.tape }
    {
        self.tape.as_slice()
    }

    /// How long the printer takes for a byte, 1 to 1,000,000.
    pub fn printer(&self) -> u32
        ensures value { result ≡ self.now.printer }
        ensures range { IsWithin 1000000 result }
    {
        self.printer
    }

    /// How long the reader takes for a byte, 1 to 1,000,000.
    pub fn reader(&self) -> u32
        ensures value { result ≡ self.now.reader }
        ensures range { IsWithin 1000000 result }
    {
        self.reader
    }

    /// How long the punch takes for a byte, 1 to 1,000,000.
    pub fn punch(&self) -> u32
        ensures value { result ≡ self.now.punch }
        ensures range { IsWithin 1000000 result }
    {
        self.punch
    }

    /// The clock's period, 1 to 20,000,000, where there is a clock.
    pub fn clock(&self) -> Option<u32>
        ensures value { result ≡ self.now.clock }
        ensures range { IsPeriod result }
    {
        self.clock
    }

    /// The time at which the machine is stopped, 1 to 20,000,000.
    pub fn limit(&self) -> u32
        ensures value { result ≡ self.now.limit }
        ensures range { IsWithin 20000000 result }
    {
        self.limit
    }
}
