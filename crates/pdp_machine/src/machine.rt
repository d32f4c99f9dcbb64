// The machine in time.

ghost use Rattle.std.specs.Prelude.{◌≡◌, ◌<◌, ◌≤◌, ◌+◌, ◌/◌, [], false, List, IfOk, IsNone, slice_index};
ghost use Rattle.arrayvec.specs.ArrayVec.{array_vec_len};
ghost use Rattle.pdp_dev.specs.declared.entry.Entry.{Entry};
ghost use Rattle.pdp_def.specs.Moments.{counted};
ghost use Rattle.pdp_machine.specs.Made.{IsMade};
ghost use Rattle.pdp_machine.specs.Opening.{opening_machine};
ghost use Rattle.pdp_machine.specs.Timed.{IsTimed, IsAhead, AreAhead, IsLater, advance, turn, grants, executes, settled, idles, is_to_come, next_event, with_events, reader_comes, punch_comes, key_comes, printer_comes, clock_comes};

use crate::due::{due_after, earlier, is_due, is_tick, next_tick};
use crate::opening::open_core;
use crate::queue::{next_byte, next_key, take_key};
use crate::stop::{Stop, stop_of};
use arrayvec::ArrayVec;
use mc_image::image::Image;
use mc_script::script::{Key, Script};
use mc_word::Word;
use mc_word::bytes::Memory;
use pdp_cpu::grant::interrupt;
use pdp_cpu::instruction::execute;
use pdp_def::outcome::Outcome;
use pdp_def::processor::Core;
use pdp_dev::devices::{Devices, Request};
use pdp_dev::entry::{Entry, Event};
use std::alloc::Global;
use std::collections::VecDeque;
use std::marker::Model;

/// What one advance made.
#[derive(Drop)]
pub struct Advance {
    /// The entries that it added to the journal, in order.
    pub entries: ArrayVec<Entry, 8>,
    /// Why the machine stopped, if it has.
    pub stop: Option<Stop>,
}

/// A machine that runs. Time counts from 0; an instruction and a grant each take 1 of it.
#[derive(Drop)]
pub struct Machine {
    core: Core,
    devices: Devices,
    time: u64,
    instructions: u64,
    printer_due: Option<u64>,
    punch_due: Option<u64>,
    reader_due: Option<u64>,
    printer_delay: u32,
    punch_delay: u32,
    reader_delay: u32,
    keys: VecDeque<Key>,
    tape: VecDeque<u8>,
    clock: Option<u32>,
    limit: u32,
    stop: Option<Stop>,
}

impl Model for Machine {
    ghost use Rattle.pdp_machine.specs.Timed.{Timed, IsTimed};

    ghost Value = { Timed };

    ghost view = { λ m. record { core = m.core; devices = m.devices; time = m.time; instructions = m.instructions; printer_due = m.printer_due; punch_due = m.punch_due; reader_due = m.reader_due; printer_delay = m.printer_delay; punch_delay = m.punch_delay; reader_delay = m.reader_delay; keys = m.keys.items; tape = m.tape.items; clock = m.clock; limit = m.limit; stop = m.stop } };

    ghost invariant = { λ m. IsTimed (record { core = m.core; devices = m.devices; time = m.time; instructions = m.instructions; printer_due = m.printer_due; punch_due = m.punch_due; reader_due = m.reader_due; printer_delay = m.printer_delay; punch_delay = m.punch_delay; reader_delay = m.reader_delay; keys = m.keys.items; tape = m.tape.items; clock = m.clock; limit = m.limit; stop = m.stop }) };
}

impl Machine {
    /// The machine at opening with an image, which a script drives.
    pub fn open(alloc: Global, image: &Image, script: &Script) -> Result<Machine, Memory>
        ensures value { IfOk result (λ m. m ≡ opening_machine image.now script.now) }
        ensures timed { IfOk result IsTimed }
        ensures made { IfOk result (λ m. IsMade image.now script.now) }
    {
        Ok(Machine {
            core: open_core(alloc, image)?,
            devices: Devices::new(),
            time: 0,
            instructions: 0,
            printer_due: None,
            punch_due: None,
            reader_due: None,
            printer_delay: script.printer(),
            punch_delay: script.punch(),
            reader_delay: script.reader(),
            keys: VecDeque::from_vec(Vec::from_slice(alloc, script.keys())?),
            tape: VecDeque::from_vec(Vec::from_slice(alloc, script.tape())?),
            clock: script.clock(),
            limit: script.limit(),
            stop: None,
        })
    }

    /// The time, at most 20,000,000.
    pub fn time(&self) -> u64
        ensures value { result ≡ self.now.time }
        ensures within { result ≤ self.now.limit }
    {
        self.time
    }

    /// The time at which the machine is stopped, at most 20,000,000.
    pub fn limit(&self) -> u32
        ensures { result ≡ self.now.limit }
    {
        self.limit
    }

    /// How many instructions were executed.
    pub fn instructions(&self) -> u64
        ensures { result ≡ self.now.instructions }
    {
        self.instructions
    }

    /// Why the machine stopped, if it has.
    pub fn stop(&self) -> Option<Stop>
        ensures { result ≡ self.now.stop }
    {
        self.stop
    }

    /// The word of memory at an even address.
    pub fn peek(&self, a: Word) -> Word
        requires memory { a < 57344 }
        ensures { result ≡ slice_index self.now.core.memory (a / 2) }
    {
        self.core.word(a)
    }

    /// One advance: the events that are due, and then a grant, an instruction, or the way to the next event.
    /// After a stop it answers the same stop, and changes nothing.
    #[tactic(auto, unfolding(crate::specs::Timed::advance, crate::specs::Timed::going))]
    pub fn advance(&mut self) -> Advance
        ensures machine { self.new ≡ (advance self.old).machine }
        ensures entries { result.entries.items ≡ (advance self.old).entries }
        ensures stop { result.stop ≡ (advance self.old).machine.stop }
        ensures later { IsNone result.stop → self.old.time < self.new.time }
        ensures limit { self.new.limit ≡ self.old.limit }
    {
        let mut entries = ArrayVec::new();
        if self.stop.is_none() {
            if self.time >= u64::from(self.limit) {
                self.stop = Some(Stop::Limit);
            } else {
                self.events(&mut entries);
                self.turn(&mut entries);
            }
        }
        Advance {
            entries,
            stop: self.stop,
        }
    }

    // The events that are due.
    fn events(&mut self, entries: &mut ArrayVec<Entry, 8>)
        requires { entries.old.items ≡ [] }
        ensures after { with_events self.old ≡ record { machine = self.new; entries = entries.new.items } }
        ensures later { IsLater self.new }
        ensures room { array_vec_len entries.new ≤ 5 }
        ensures time { (self.new.time ≡ self.old.time) × (self.new.limit ≡ self.old.limit) }
    {
        self.reader_comes(entries);
        self.punch_comes(entries);
        self.key_comes(entries);
        self.printer_comes(entries);
        self.clock_comes(entries);
    }

    // The reader is done, if it is due.
    #[tactic(auto, unfolding(crate::specs::Timed::reader_comes))]
    fn reader_comes(&mut self, entries: &mut ArrayVec<Entry, 8>)
        requires { array_vec_len entries.old < 8 }
        ensures after { reader_comes (record { machine = self.old; entries = entries.old.items }) ≡ record { machine = self.new; entries = entries.new.items } }
        ensures rest { self.new ≡ record self.old { devices = self.new.devices; reader_due = self.new.reader_due; tape = self.new.tape } }
        ensures room { array_vec_len entries.new ≤ array_vec_len entries.old + 1 }
        ensures later { IsAhead (self.new.time + 1) self.new.reader_due }
    {
        if is_due(self.reader_due, self.time) {
            self.reader_due = None;
            let event = Event::Reader(next_byte(&mut self.tape));
            self.devices.happen(event);
            entries.push(Entry::Event(event));
        }
    }

    // The punch is done, if it is due.
    #[tactic(auto, unfolding(crate::specs::Timed::punch_comes))]
    fn punch_comes(&mut self, entries: &mut ArrayVec<Entry, 8>)
        requires { array_vec_len entries.old < 8 }
        ensures after { punch_comes (record { machine = self.old; entries = entries.old.items }) ≡ record { machine = self.new; entries = entries.new.items } }
        ensures rest { self.new ≡ record self.old { devices = self.new.devices; punch_due = self.new.punch_due } }
        ensures room { array_vec_len entries.new ≤ array_vec_len entries.old + 1 }
        ensures later { IsAhead (self.new.time + 1) self.new.punch_due }
    {
        if is_due(self.punch_due, self.time) {
            self.punch_due = None;
            self.devices.happen(Event::Punch);
            entries.push(Entry::Event(Event::Punch));
        }
    }

    // The next key is struck, if it is due.
    #[tactic(auto, unfolding(crate::specs::Timed::key_comes))]
    fn key_comes(&mut self, entries: &mut ArrayVec<Entry, 8>)
        requires { array_vec_len entries.old < 8 }
        ensures after { key_comes (record { machine = self.old; entries = entries.old.items }) ≡ record { machine = self.new; entries = entries.new.items } }
        ensures rest { self.new ≡ record self.old { devices = self.new.devices; keys = self.new.keys } }
        ensures room { array_vec_len entries.new ≤ array_vec_len entries.old + 1 }
        ensures later { AreAhead (self.new.time + 1) self.new.keys }
    {
        if let Some(byte) = take_key(&mut self.keys, self.time) {
            self.devices.happen(Event::Key(byte));
            entries.push(Entry::Event(Event::Key(byte)));
        }
    }

    // The printer is done, if it is due.
    #[tactic(auto, unfolding(crate::specs::Timed::printer_comes))]
    fn printer_comes(&mut self, entries: &mut ArrayVec<Entry, 8>)
        requires { array_vec_len entries.old < 8 }
        ensures after { printer_comes (record { machine = self.old; entries = entries.old.items }) ≡ record { machine = self.new; entries = entries.new.items } }
        ensures rest { self.new ≡ record self.old { devices = self.new.devices; printer_due = self.new.printer_due } }
        ensures room { array_vec_len entries.new ≤ array_vec_len entries.old + 1 }
        ensures later { IsAhead (self.new.time + 1) self.new.printer_due }
    {
        if is_due(self.printer_due, self.time) {
            self.printer_due = None;
            self.devices.happen(Event::Printer);
            entries.push(Entry::Event(Event::Printer));
        }
    }

    // The clock ticks, if it is time.
    #[tactic(auto, unfolding(crate::specs::Timed::clock_comes))]
    fn clock_comes(&mut self, entries: &mut ArrayVec<Entry, 8>)
        requires { array_vec_len entries.old < 8 }
        ensures after { clock_comes (record { machine = self.old; entries = entries.old.items }) ≡ record { machine = self.new; entries = entries.new.items } }
        ensures rest { self.new ≡ record self.old { devices = self.new.devices } }
        ensures room { array_vec_len entries.new ≤ array_vec_len entries.old + 1 }
    {
        if is_tick(self.clock, self.time) {
            self.devices.happen(Event::Clock);
            entries.push(Entry::Event(Event::Clock));
        }
    }

    // A grant, an instruction, or the way to the next event.
    #[tactic(auto, unfolding(crate::specs::Timed::turn))]
    fn turn(&mut self, entries: &mut ArrayVec<Entry, 8>)
        requires time { self.old.time < self.old.limit }
        requires later { IsLater self.old }
        requires room { array_vec_len entries.old ≤ 5 }
        ensures after { turn self.old entries.old.items ≡ record { machine = self.new; entries = entries.new.items } }
        ensures later { IsNone self.new.stop → self.old.time < self.new.time }
        ensures limit { self.new.limit ≡ self.old.limit }
    {
        match self.devices.pending() {
            Some(request) if self.core.ps() / 32 % 8 < request.level => self.grant(
                request, entries,
            ),
            _ if self.core.waiting() => self.idle(),
            _ => self.execute(entries),
        }
    }

    // The request is granted.
    #[tactic(auto, unfolding(crate::specs::Timed::grants))]
    fn grant(&mut self, request: Request, entries: &mut ArrayVec<Entry, 8>)
        requires time { self.old.time < self.old.limit }
        requires later { IsLater self.old }
        requires room { array_vec_len entries.old ≤ 5 }
        ensures after { grants self.old entries.old.items request.vector ≡ record { machine = self.new; entries = entries.new.items } }
        ensures later { IsNone self.new.stop → self.old.time < self.new.time }
        ensures limit { self.new.limit ≡ self.old.limit }
    {
        let before = self.devices;
        let outcome = interrupt(&mut self.core, &mut self.devices, request, entries);
        self.settle(before, outcome, 0);
    }

    // The instruction at PC is executed.
    #[tactic(auto, unfolding(crate::specs::Timed::executes))]
    fn execute(&mut self, entries: &mut ArrayVec<Entry, 8>)
        requires running { self.old.core.waiting ≡ false }
        requires time { self.old.time < self.old.limit }
        requires later { IsLater self.old }
        requires room { array_vec_len entries.old ≤ 5 }
        ensures after { executes self.old entries.old.items ≡ record { machine = self.new; entries = entries.new.items } }
        ensures later { IsNone self.new.stop → self.old.time < self.new.time }
        ensures limit { self.new.limit ≡ self.old.limit }
    {
        let before = self.devices;
        let outcome = execute(&mut self.core, &mut self.devices, entries);
        self.settle(before, outcome, counted(outcome));
    }

    // A moment has passed that found the devices as they were before.
    fn settle(&mut self, before: Devices, outcome: Outcome, instructions: u64)
        requires time { self.old.time < self.old.limit }
        requires later { IsLater self.old }
        requires counted { instructions ≤ counted outcome }
        ensures after { self.new ≡ settled before outcome instructions self.old }
        ensures later { IsNone self.new.stop → self.old.time < self.new.time }
        ensures limit { self.new.limit ≡ self.old.limit }
    {
        self.printer_due = due_after(
            !before.printer.flag,
            self.devices.printer_busy(),
            self.printer_due,
            self.time + u64::from(self.printer_delay),
        );
        self.punch_due = due_after(
            !before.punch.flag,
            self.devices.punch_busy(),
            self.punch_due,
            self.time + u64::from(self.punch_delay),
        );
        self.reader_due = due_after(
            before.reader.busy,
            self.devices.reader_busy(),
            self.reader_due,
            self.time + u64::from(self.reader_delay),
        );
        self.instructions += instructions;
        self.stop = stop_of(outcome);
        self.time += counted(outcome);
    }

    // Time goes on to the next event or the limit, or nothing is to come any more.
    #[tactic(auto, unfolding(crate::specs::Timed::idles))]
    fn idle(&mut self)
        requires time { self.old.time < self.old.limit }
        requires later { IsLater self.old }
        ensures after { (said : List Entry) → idles self.old said ≡ record { machine = self.new; entries = said } }
        ensures later { IsNone self.new.stop → self.old.time < self.new.time }
        ensures limit { self.new.limit ≡ self.old.limit }
    {
        if self.is_to_come() {
            let limit = u64::from(self.limit);
            self.time = self.next_event().unwrap_or(limit).min(limit);
        } else {
            self.stop = Some(Stop::Silent);
        }
    }

    // Whether an event is to come.
    fn is_to_come(&self) -> bool
        ensures { result ≡ is_to_come self.now }
    {
        self.printer_due.is_some()
            || self.punch_due.is_some()
            || self.reader_due.is_some()
            || next_key(&self.keys).is_some()
            || (self.clock.is_some() && self.devices.clock_enabled())
    }

    // The time of the earliest event, ticks included.
    fn next_event(&self) -> Option<u64>
        requires { IsLater self.now }
        ensures value { result ≡ next_event self.now }
        ensures later { IsAhead (self.now.time + 1) result }
    {
        let tick = next_tick(self.clock, self.time);
        let outside = earlier(next_key(&self.keys), tick);
        earlier(
            self.printer_due,
            earlier(self.punch_due, earlier(self.reader_due, outside)),
        )
    }
}

// How many instructions an outcome counts for.
fn counted(outcome: Outcome) -> u64
    ensures value { result ≡ counted outcome }
    ensures one { result ≤ 1 }
{
    match outcome {
        Outcome::Ran | Outcome::Idle | Outcome::Halt => 1,
        Outcome::BusFault(_) | Outcome::Reserved(_) => 0,
    }
}
