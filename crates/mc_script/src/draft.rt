// What is kept of a script while its lines are read.

ghost use Rattle.std.specs.Prelude.{◌≡◌, ◌++◌, ◌∷◌, [], OnOk, map};
ghost use Rattle.mc_script.specs.Lines.{fields};
ghost use Rattle.mc_script.specs.Script.{AreBytes, IsScript};
ghost use Rattle.mc_script.specs.Forms.{value};
ghost use Rattle.mc_script.specs.Drafts.{draft_of, given, with_value, script_in};

use crate::fields::next_field;
use crate::number::value_of;
use crate::script::{Delays, Key, Script};
use crate::setting::Setting;
use mc_word::bytes::{Bytes, Memory};
use std::alloc::Global;
use std::marker::Model;

/// What the lines so far say. A setting that was not given has no value.
#[derive(Drop)]
pub struct Draft {
    keys: Vec<Key>,
    last: u32,
    tape: Vec<u8>,
    printer: Option<u32>,
    reader: Option<u32>,
    punch: Option<u32>,
    clock: Option<u32>,
    limit: Option<u32>,
}

impl Model for Draft {
    ghost use Rattle.mc_script.specs.Drafts.{DraftState};

    ghost Value = { DraftState };

    ghost view = { λ d. record { keys = d.keys.items; last = d.last; tape = d.tape.items; printer = d.printer; reader = d.reader; punch = d.punch; clock = d.clock; limit = d.limit } };
}

impl Draft {
    /// Nothing so far.
    pub fn new(alloc: Global) -> Draft
        ensures { result ≡ draft_of [] }
    {
        Draft {
            keys: Vec::new(alloc),
            last: 0,
            tape: Vec::new(alloc),
            printer: None,
            reader: None,
            punch: None,
            clock: None,
            limit: None,
        }
    }

    /// The time of the last key; 0 where there is none.
    pub fn last(&self) -> u32
        ensures { result ≡ self.now.last }
    {
        self.last
    }

    /// The value that a setting was given.
    pub fn given(&self, setting: Setting) -> Option<u32>
        ensures { result ≡ given self.now setting }
    {
        match setting {
            Setting::Printer => self.printer,
            Setting::Reader => self.reader,
            Setting::Punch => self.punch,
            Setting::Clock => self.clock,
            Setting::Limit => self.limit,
        }
    }

    /// Gives a setting this value.
    pub fn give(&mut self, setting: Setting, value: u32)
        ensures { self.new ≡ with_value self.old setting value }
    {
        let value = Some(value);
        match setting {
            Setting::Printer => self.printer = value,
            Setting::Reader => self.reader = value,
            Setting::Punch => self.punch = value,
            Setting::Clock => self.clock = value,
            Setting::Limit => self.limit = value,
        }
    }

    /// Adds a key.
    pub fn strike(&mut self, key: Key) -> Result<(), Memory>
        ensures { OnOk result (self.new ≡ record self.old { keys = self.old.keys ++ key ∷ []; last = key.at }) }
    {
        self.keys.push(key)?;
        self.last = key.at;
        Ok(())
    }

    /// Adds the bytes of these octal fields to the tape.
    pub fn add_tape(&mut self, line: &[u8]) -> Result<(), Memory>
        requires { AreBytes (map (value 8) (fields line.now)) }
        ensures { OnOk result (self.new ≡ record self.old { tape = self.old.tape ++ map (value 8) (fields line.now) }) }
    {
        push_bytes(&mut self.tape, line)
    }

    /// The script, with the usual values where none was given.
    pub fn into_script(self) -> Script
        requires { IsScript (script_in self) }
        ensures { result ≡ script_in self }
    {
        let Draft {
            keys,
            last: _,
            tape,
            printer,
            reader,
            punch,
            clock,
            limit,
        } = self;
        let delays = Delays {
            printer: printer.unwrap_or(300),
            reader: reader.unwrap_or(200),
            punch: punch.unwrap_or(400),
        };
        let limit = limit.unwrap_or(Script::USUAL_LIMIT);
        Script::new(keys, Bytes::from_vec(tape), delays, clock, limit)
    }
}

/// Adds the values of these octal fields.
fn push_bytes(bytes: &mut Vec<u8>, line: &[u8]) -> Result<(), Memory>
    requires { AreBytes (map (value 8) (fields line.now)) }
    ensures { OnOk result (bytes.new.items ≡ bytes.old.items ++ map (value 8) (fields line.now)) }
{
    let mut rest = line;
    while let Some((field, more)) = next_field(rest) {
        bytes.push(value_of(field, 8) as u8)?;
        rest = more;
    }
    Ok(())
}
