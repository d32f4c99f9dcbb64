// The devices, and the requests that they make.

ghost use Rattle.std.specs.Prelude.{◌≡◌, ◌≤◌, ◌<◌, false, is_some, not, IfSome, IsSome};
ghost use Rattle.pdp_dev.specs.Register.{register_at};
ghost use Rattle.pdp_dev.specs.Devices.{bit, asks, set_line, set_reader, status_of, reader_status, takes_byte, command_reader, command_clock, reads_byte, read_of, after_read, written, said_at, happened, IsEvent, request_of, granted, opening_devices};

use crate::entry::{Entry, Event, Port};
use crate::register::{Register, register_of};
use mc_word::Word;

/// An interrupt request.
#[derive(Clone, Copy, PartialEq, Eq, Debug)]
pub struct Request {
    /// The address of the two words that a grant loads into PC and PS.
    pub vector: Word,
    /// It is granted where the processor's priority is below this level, 4 or 6.
    pub level: u16,
}

/// A flag, the bit that lets it ask for an interrupt, and whether it asks.
#[derive(Clone, Copy, PartialEq, Eq, Debug)]
pub struct Line {
    pub flag: bool,
    pub enable: bool,
    pub request: bool,
}

/// The paper tape reader.
#[derive(Clone, Copy, PartialEq, Eq, Debug)]
pub struct Reader {
    pub done: bool,
    pub error: bool,
    pub busy: bool,
    pub byte: u8,
    pub enable: bool,
    pub request: bool,
}

/// All devices: console keyboard and printer, paper tape punch and reader, line clock.
#[derive(Clone, Copy, PartialEq, Eq, Debug)]
pub struct Devices {
    /// Its flag: a key waits to be read.
    pub keyboard: Line,
    /// The byte of the last key.
    pub key: u8,
    /// Its flag: ready for a byte.
    pub printer: Line,
    /// Its flag: ready for a byte.
    pub punch: Line,
    pub reader: Reader,
    /// Its flag: the clock has ticked.
    pub clock: Line,
}

// Whether a request stands after its cause came to be `is`, where it was `was`.
fn asks(was: bool, request: bool, is: bool) -> bool
    ensures { result ≡ asks was request is }
{
    is && (!was || request)
}

impl Line {
    const QUIET: Line = Line {
        flag: false,
        enable: false,
        request: false,
    };

    const READY: Line = Line {
        flag: true,
        enable: false,
        request: false,
    };

    // The line with this flag and this enable bit.
    fn set(self, flag: bool, enable: bool) -> Line
        ensures { result ≡ set_line self flag enable }
    {
        Line {
            flag,
            enable,
            request: asks(self.flag && self.enable, self.request, flag && enable),
        }
    }

    // The line with another flag.
    fn flagged(self, flag: bool) -> Line
        ensures { result ≡ set_line self flag self.enable }
    {
        self.set(flag, self.enable)
    }

    // The line with another enable bit.
    fn enabled(self, enable: bool) -> Line
        ensures { result ≡ set_line self self.flag enable }
    {
        self.set(self.flag, enable)
    }

    // The status word: the flag in bit 7, the enable bit in bit 6.
    fn status(self) -> Word
        ensures { result ≡ status_of self }
    {
        bit(self.flag, 128) + bit(self.enable, 64)
    }

    // An output device is given a byte, which it takes where it is ready.
    fn takes_byte(self) -> Line
        ensures { result ≡ takes_byte self }
    {
        if self.flag { self.flagged(false) } else { self }
    }
}

impl Reader {
    // The reader in this state, with its request by the rule of all requests.
    fn set(self, done: bool, error: bool, busy: bool, byte: u8, enable: bool) -> Reader
        ensures { result ≡ set_reader self done error busy byte enable }
    {
        Reader {
            done,
            error,
            busy,
            byte,
            enable,
            request: asks(
                (self.done || self.error) && self.enable,
                self.request,
                (done || error) && enable,
            ),
        }
    }

    // The status word: error, busy, done and the enable bit.
    fn status(self) -> Word
        ensures { result ≡ reader_status self }
    {
        bit(self.error, 0o100000)
            + bit(self.busy, 2048)
            + bit(self.done, 128)
            + bit(self.enable, 64)
    }

    // A read of the byte clears done.
    fn gives_byte(self) -> Reader
        ensures { result ≡ set_reader self false self.error self.busy self.byte self.enable }
    {
        self.set(false, self.error, self.busy, self.byte, self.enable)
    }

    // A write of the status word, which may start the reader.
    fn command(self, w: Word) -> Reader
        ensures { result ≡ command_reader self w }
    {
        let starts = w % 2 == 1 && !(self.busy || self.error);
        let byte = if starts { 0 } else { self.byte };
        self.set(
            self.done && !starts,
            self.error,
            self.busy || starts,
            byte,
            w / 64 % 2 == 1,
        )
    }

    // It comes to the next byte of the tape, or to its end.
    fn reads(self, byte: Option<u8>) -> Reader
        ensures { result ≡ reads_byte self byte }
    {
        match byte {
            Some(byte) if self.busy => self.set(true, self.error, false, byte, self.enable),
            None if self.busy => self.set(self.done, true, false, self.byte, self.enable),
            _ => self,
        }
    }
}

// A bit of a status word.
fn bit(b: bool, unit: Word) -> Word
    ensures value { result ≡ bit b unit }
    ensures most { result ≤ unit }
{
    if b { unit } else { 0 }
}

impl Devices {
    /// The devices at opening, and after a reset.
    pub fn new() -> Devices
        ensures { result ≡ opening_devices }
    {
        Devices {
            keyboard: Line::QUIET,
            key: 0,
            printer: Line::READY,
            punch: Line::READY,
            reader: Reader {
                done: false,
                error: false,
                busy: false,
                byte: 0,
                enable: false,
                request: false,
            },
            clock: Line::QUIET,
        }
    }

    /// Reads the register at an address, with the read's effect.
    pub fn read(&mut self, a: Word) -> Word
        requires { IsSome (register_at a) }
        ensures value { IfSome (register_at a) (λ r. result ≡ read_of self.old r) }
        ensures after { IfSome (register_at a) (λ r. self.new ≡ after_read self.old r) }
    {
        match register_of(a) {
            Some(register) => self.read_register(register),
            None => unreachable!(),
        }
    }

    /// Reads a register, with the read's effect.
    pub fn read_register(&mut self, register: Register) -> Word
        ensures value { result ≡ read_of self.old register }
        ensures after { self.new ≡ after_read self.old register }
    {
        let w = self.peek_register(register);
        match register {
            Register::KeyboardByte => self.keyboard = self.keyboard.flagged(false),
            Register::ReaderByte => self.reader = self.reader.gives_byte(),
            _ => {}
        }
        w
    }

    /// The word of the register at an address, without any effect.
    pub fn peek(&self, a: Word) -> Word
        requires { IsSome (register_at a) }
        ensures { IfSome (register_at a) (λ r. result ≡ read_of self.now r) }
    {
        match register_of(a) {
            Some(register) => self.peek_register(register),
            None => unreachable!(),
        }
    }

    /// The word of a register, without any effect.
    pub fn peek_register(&self, register: Register) -> Word
        ensures { result ≡ read_of self.now register }
    {
        match register {
            Register::KeyboardStatus => self.keyboard.status(),
            Register::KeyboardByte => u16::from(self.key),
            Register::PrinterStatus => self.printer.status(),
            Register::PrinterByte => 0,
            Register::ClockStatus => self.clock.status(),
            Register::ReaderStatus => self.reader.status(),
            Register::ReaderByte => u16::from(self.reader.byte),
            Register::PunchStatus => self.punch.status(),
            Register::PunchByte => 0,
        }
    }

    /// Writes a word to the register at an address; answers the entry that it adds to the journal.
    pub fn write(&mut self, a: Word, w: Word) -> Option<Entry>
        requires { IsSome (register_at a) }
        ensures entry { IfSome (register_at a) (λ r. result ≡ said_at self.old r w) }
        ensures after { IfSome (register_at a) (λ r. self.new ≡ written self.old r w) }
    {
        match register_of(a) {
            Some(register) => self.write_register(register, w),
            None => unreachable!(),
        }
    }

    /// Writes a word to a register; answers the entry that it adds to the journal.
    pub fn write_register(&mut self, register: Register, w: Word) -> Option<Entry>
        ensures entry { result ≡ said_at self.old register w }
        ensures after { self.new ≡ written self.old register w }
    {
        let entry = self.said(register, w);
        let enable = w / 64 % 2 == 1;
        match register {
            Register::KeyboardStatus => self.keyboard = self.keyboard.enabled(enable),
            Register::PrinterStatus => self.printer = self.printer.enabled(enable),
            Register::PrinterByte => self.printer = self.printer.takes_byte(),
            Register::ClockStatus => {
                let ticked = w / 128 % 2 == 1;
                self.clock = Line {
                    flag: self.clock.flag && ticked,
                    enable,
                    request: self.clock.request && ticked && enable,
                };
            }
            Register::ReaderStatus => self.reader = self.reader.command(w),
            Register::PunchStatus => self.punch = self.punch.enabled(enable),
            Register::PunchByte => self.punch = self.punch.takes_byte(),
            Register::KeyboardByte | Register::ReaderByte => {}
        }
        entry
    }

    // The entry that a write adds.
    fn said(&self, register: Register, w: Word) -> Option<Entry>
        ensures { result ≡ said_at self.now register w }
    {
        let byte = (w % 256) as u8;
        match register {
            Register::PrinterByte if self.printer.flag => Some(Entry::Print(byte)),
            Register::PrinterByte => Some(Entry::Lost(Port::Printer, byte)),
            Register::PunchByte if self.punch.flag => Some(Entry::Punch(byte)),
            Register::PunchByte => Some(Entry::Lost(Port::Punch, byte)),
            _ => None,
        }
    }

    /// A device does something by itself; a byte that comes in is less than 256.
    pub fn happen(&mut self, event: Event)
        ensures after { self.new ≡ happened self.old event }
        ensures event { IsEvent event }
    {
        match event {
            Event::Key(key) => {
                self.key = key;
                self.keyboard = self.keyboard.flagged(true);
            }
            Event::Printer => self.printer = self.printer.flagged(true),
            Event::Punch => self.punch = self.punch.flagged(true),
            Event::Reader(byte) => self.reader = self.reader.reads(byte),
            Event::Clock => {
                self.clock = Line {
                    flag: true,
                    enable: self.clock.enable,
                    request: self.clock.request || self.clock.enable,
                };
            }
        }
    }

    /// The request that is served first, if one stands.
    pub fn pending(&self) -> Option<Request>
        ensures value { result ≡ request_of self.now }
        ensures vector { IfSome result (λ r. r.vector < 256) }
    {
        if self.clock.request {
            asked(0o100, 6)
        } else if self.reader.request {
            asked(0o70, 4)
        } else if self.punch.request {
            asked(0o74, 4)
        } else if self.keyboard.request {
            asked(0o60, 4)
        } else if self.printer.request {
            asked(0o64, 4)
        } else {
            None
        }
    }

    /// A request is granted, and falls.
    pub fn granted(&mut self, request: Request)
        ensures { self.new ≡ granted self.old request.vector }
    {
        match request.vector {
            0o100 => self.clock.request = false,
            0o70 => self.reader.request = false,
            0o74 => self.punch.request = false,
            0o60 => self.keyboard.request = false,
            0o64 => self.printer.request = false,
            _ => {}
        }
    }

    /// All devices are as at opening; the tape keeps its place.
    pub fn reset(&mut self)
        ensures { self.new ≡ opening_devices }
    {
        *self = Devices::new();
    }

    /// Whether the printer is at work on a byte.
    pub fn printer_busy(&self) -> bool
        ensures { result ≡ not self.now.printer.flag }
    {
        !self.printer.flag
    }

    /// Whether the punch is at work on a byte.
    pub fn punch_busy(&self) -> bool
        ensures { result ≡ not self.now.punch.flag }
    {
        !self.punch.flag
    }

    /// Whether the reader is at work on a byte.
    pub fn reader_busy(&self) -> bool
        ensures { result ≡ self.now.reader.busy }
    {
        self.reader.busy
    }

    /// Whether the clock may ask for an interrupt.
    pub fn clock_enabled(&self) -> bool
        ensures { result ≡ self.now.clock.enable }
    {
        self.clock.enable
    }
}

// A request of this vector and level.
fn asked(vector: Word, level: u16) -> Option<Request>
    ensures { result ≡ Some (record { vector = vector; level = level }) }
{
    Some(Request { vector, level })
}
