// Where a program's run stands: its variables, its processes and the devices.

ghost use Rattle.std.specs.Prelude.{◌≡◌, ◌∷◌, ◌++◌, [], IfOk, MatchOption, None, OnOk, OnErr, Some, length, slice_get, slice_set};
ghost use Rattle.mc_prog.specs.Values.{truth};
ghost use Rattle.mc_meaning.specs.Access.{after_reading, after_writing, after_writing_bit, moved_word, register_written, word_at};
ghost use Rattle.mc_meaning.specs.Actions.{kind_at, nest_with, set_state, trapped, vacated, was_started, without_waiter};
ghost use Rattle.mc_meaning.specs.Calling.{first_words, with_process};
ghost use Rattle.mc_meaning.specs.Configuration.{all_stored, opening, stored, topmost};
ghost use Rattle.mc_meaning.specs.Kept.{configuration_of};
ghost use Rattle.mc_meaning.specs.Room.{Keeps};
ghost use Rattle.mc_meaning.specs.Steps.{goes_on};

mod moves;

use crate::access::with_bit;
use crate::calling::first_words;
use crate::config::{Mark, Nested, Waiter};
use crate::parts::number;
use crate::process::{Item, Process, ProcessKind, State};
use crate::store::{Found, Name, Source, Target};
use crate::words::Words;
use mc_prog::program::{Program, Slot};
use mc_word::Word;
use mc_word::bytes::Memory;
use pdp_dev::devices::Devices;
use pdp_dev::entry::Entry;
use pdp_dev::register::{Register, register_of};
use std::alloc::Global;
use std::collections::VecDeque;
use std::mem;

/// Where a program's run stands, of which contracts see `configuration_of`.
#[derive(Drop)]
pub struct Config {
    store: Words,
    devices: Devices,
    processes: Vec<Process>,
    foot: Option<u32>,
    nest: Vec<Nested>,
    waiters: Vec<Waiter>,
    trap: Option<u16>,
    journal: Vec<Entry>,
}

impl Config {
    /// The opening: all words are zero, the devices are as at opening, and the main process alone exists and acts. It has
    /// mutual exclusion, and what else the steps of accepted programs keep.
    pub fn open(alloc: Global, program: &Program) -> Result<Config, Memory>
        ensures opening { IfOk result (λ c. configuration_of c ≡ opening program.now) }
        ensures keeps { IfOk result (λ c. Keeps program.now (configuration_of c)) }
    {
        let mut processes = Vec::new(alloc);
        processes.push(Process::main(alloc, program)?)?;
        Ok(Config {
            store: Words::new(alloc),
            devices: Devices::new(),
            processes,
            foot: Some(0),
            nest: Vec::new(alloc),
            waiters: Vec::new(alloc),
            trap: None,
            journal: Vec::new(alloc),
        })
    }

    /// The trap, where there is one.
    pub fn trap(&self) -> Option<u16>
        ensures { result ≡ (configuration_of self.now).trap }
    {
        self.trap
    }

    /// The processes in the order of their start, the main process first.
    pub fn processes(&self) -> &[Process]
        ensures { result.now ≡ (configuration_of self.now).processes }
    {
        self.processes.as_slice()
    }

    /// The process of this number.
    pub fn process(&self, n: u32) -> Option<&Process>
        ensures { MatchOption result (slice_get (configuration_of self.now).processes n ≡ None) (λ q. slice_get (configuration_of self.now).processes n ≡ Some q.now) }
    {
        self.processes.get(n as usize)
    }

    /// The word of a name.
    pub fn word(&self, name: Name) -> Word
        ensures { result ≡ (configuration_of self.now).store name }
    {
        self.store.get(name)
    }

    /// The journal.
    pub fn journal(&self) -> &[Entry]
        ensures { result.now ≡ (configuration_of self.now).journal }
    {
        self.journal.as_slice()
    }

    /// The process that acts and makes the next step.
    pub fn topmost(&self) -> Option<u32>
        ensures { result ≡ topmost (configuration_of self.now) }
    {
        let mut top = self.foot;
        for member in &self.nest {
            top = Some(member.process);
        }
        top
    }

    /// Sets a trap.
    pub(crate) fn traps(&mut self, n: u16)
        ensures { configuration_of self.new ≡ trapped (configuration_of self.old) n }
    {
        self.trap = Some(n);
    }

    /// Puts a process in the place of the one of this number.
    pub(crate) fn put_process(&mut self, n: u32, q: &mut Process)
        ensures { configuration_of self.new ≡ with_process (configuration_of self.old) n q.old }
    {
        let n = n as usize;
        if n < self.processes.len() {
            mem::swap(&mut self.processes[n], q);
        }
    }

    /// A process goes on with this to do.
    pub(crate) fn goes_on(&mut self, n: u32, q: &mut Process, rest: &mut VecDeque<Item>)
        ensures { configuration_of self.new ≡ goes_on (configuration_of self.old) n q.old q.old.found rest.old.items }
    {
        q.set_rest(rest);
        self.put_process(n, q);
    }

    /// Writes a word of the store.
    pub(crate) fn put_word(&mut self, name: Name, word: Word) -> Result<(), Memory>
        ensures ok { OnOk result (configuration_of self.new ≡ record (configuration_of self.old) { store = stored (configuration_of self.old).store name word }) }
        ensures err { OnErr result (configuration_of self.new ≡ configuration_of self.old) }
    {
        self.store.put(name, word)
    }

    /// The word that is read there.
    pub(crate) fn word_at(&self, there: Target) -> Word
        ensures { result ≡ word_at (configuration_of self.now) there }
    {
        match there {
            Target::Stored(name) => self.store.get(name),
            Target::Register(a) => match register_of(a) {
                Some(register) => self.devices.peek_register(register),
                None => 0,
            },
        }
    }

    /// A word is read: a register's device may change.
    pub(crate) fn reads(&mut self, there: Target)
        ensures { configuration_of self.new ≡ after_reading (configuration_of self.old) there }
    {
        match there {
            Target::Stored(_) => {}
            Target::Register(a) => {
                if let Some(register) = register_of(a) {
                    self.devices.read_register(register);
                }
            }
        }
    }

    // A register is written, and what its device says joins the journal.
    fn writes_register(&mut self, register: Register, word: Word) -> Result<(), Memory>
        ensures ok { OnOk result (configuration_of self.new ≡ register_written (configuration_of self.old) word (Some register)) }
        ensures err { OnErr result (configuration_of self.new ≡ configuration_of self.old) }
    {
        let mut devices = self.devices;
        if let Some(entry) = devices.write_register(register, word) {
            self.journal.push(entry)?;
        }
        self.devices = devices;
        Ok(())
    }

    /// Writes a word.
    pub(crate) fn writes(&mut self, there: Target, word: Word) -> Result<(), Memory>
        ensures ok { OnOk result (configuration_of self.new ≡ after_writing (configuration_of self.old) there word) }
        ensures err { OnErr result (configuration_of self.new ≡ configuration_of self.old) }
    {
        match there {
            Target::Stored(name) => self.put_word(name, word),
            Target::Register(a) => match register_of(a) {
                Some(register) => self.writes_register(register, word),
                None => Ok(()),
            },
        }
    }

    /// Writes a bit of a word: the word is read, and written with this bit.
    pub(crate) fn writes_bit(&mut self, there: Target, i: u16, is_set: bool) -> Result<(), Memory>
        ensures ok { OnOk result (configuration_of self.new ≡ after_writing_bit (configuration_of self.old) there i (truth is_set)) }
        ensures err { OnErr result (configuration_of self.new ≡ configuration_of self.old) }
    {
        let whole = with_bit(self.word_at(there), i, is_set);
        let devices = self.devices;
        self.reads(there);
        let written = self.writes(there, whole);
        if written.is_err() {
            self.devices = devices;
        }
        written
    }

    /// The word that a structured move takes.
    pub(crate) fn moved_word(&self, source: Source) -> Word
        ensures { result ≡ moved_word (configuration_of self.now) source }
    {
        match source {
            Source::Stored(name) => self.store.get(name),
            Source::Byte(b) => u16::from(b),
        }
    }

    /// Writes the words that an activation begins with.
    pub(crate) fn binds(
        &mut self,
        n: u32,
        activation: u64,
        slots: &[Slot],
        arguments: &[Found],
    ) -> Result<(), Memory>
        ensures ok { OnOk result (configuration_of self.new ≡ record (configuration_of self.old) { store = all_stored (configuration_of self.old).store (first_words n activation slots.now arguments.now) }) }
        ensures err { OnErr result (configuration_of self.new ≡ configuration_of self.old) }
    {
        let alloc = *self.nest.allocator();
        let words = first_words(alloc, n, activation, slots, arguments)?;
        self.store.note_all(words.as_slice())?;
        self.store.put_all(words.as_slice());
        Ok(())
    }

    /// The waiters in the order of their arrival.
    pub fn waiters(&self) -> &[Waiter]
        ensures { result.now ≡ (configuration_of self.now).waiters }
    {
        self.waiters.as_slice()
    }

    /// The kind of a process.
    pub(crate) fn kind_of(&self, n: u32) -> ProcessKind
        ensures { result ≡ kind_at (slice_get (configuration_of self.now).processes n) }
    {
        match self.processes.get(n as usize) {
            Some(process) => process.kind(),
            None => ProcessKind::Main,
        }
    }

    /// The topmost process leaves its place: the nest, or the foot where the nest is empty.
    pub(crate) fn vacates(&mut self)
        ensures { configuration_of self.new ≡ vacated (configuration_of self.old) }
    {
        if self.nest.pop().is_none() {
            self.foot = None;
        }
    }

    /// A process is the foot.
    pub(crate) fn puts_at_foot(&mut self, n: u32)
        ensures { configuration_of self.new ≡ record (configuration_of self.old) { foot = Some n } }
    {
        self.foot = Some(n);
    }

    /// A process joins the nest at the top.
    pub(crate) fn joins(&mut self, n: u32, mark: Mark) -> Result<(), Memory>
        ensures ok { OnOk result (configuration_of self.new ≡ record (configuration_of self.old) { nest = (configuration_of self.old).nest ++ (record { process = n; mark = mark } ∷ []) }) }
        ensures err { OnErr result (configuration_of self.new ≡ configuration_of self.old) }
    {
        self.nest.push(Nested { process: n, mark })?;
        Ok(())
    }

    /// A process joins the waiters as the last.
    pub(crate) fn adds_waiter(&mut self, waiter: Waiter) -> Result<(), Memory>
        ensures ok { OnOk result (configuration_of self.new ≡ record (configuration_of self.old) { waiters = (configuration_of self.old).waiters ++ (waiter ∷ []) }) }
        ensures err { OnErr result (configuration_of self.new ≡ configuration_of self.old) }
    {
        self.waiters.push(waiter)?;
        Ok(())
    }

    /// A process waits no longer.
    pub(crate) fn removes_waiter(&mut self, n: u32)
        ensures { configuration_of self.new ≡ record (configuration_of self.old) { waiters = without_waiter (configuration_of self.old).waiters n } }
    {
        self.waiters.retain(|waiter| waiter.process != n);
    }

    /// A process stands here now.
    pub(crate) fn sets_state(&mut self, n: u32, state: State)
        ensures { configuration_of self.new ≡ set_state (configuration_of self.old) n state }
    {
        if let Some(process) = self.processes.get_mut(n as usize) {
            process.set_state(state);
        }
    }

    /// Whether a declared process was started before.
    pub(crate) fn was_started(&self, k: u32) -> bool
        ensures { result ≡ was_started (configuration_of self.now).processes k }
    {
        for process in &self.processes {
            if process.declared() == Some(k) {
                return true;
            }
        }
        false
    }

    /// The number of the process that is started next.
    pub(crate) fn next_number(&self) -> Result<u32, Memory>
        ensures { IfOk result (λ number. number ≡ length (configuration_of self.now).processes) }
    {
        number(self.processes.len())
    }

    // The nest with a process that is started with this vector.
    fn nest_with(&self, number: u32, vector: Option<Word>) -> Result<Vec<Nested>, Memory>
        ensures { IfOk result (λ nest. nest.items ≡ nest_with (configuration_of self.now).nest number vector) }
    {
        let mut nest = Vec::from_slice(*self.nest.allocator(), self.nest.as_slice())?;
        if vector.is_some() {
            nest.push(Nested {
                process: number,
                mark: Mark::Woken,
            })?;
        }
        Ok(nest)
    }

    // Puts one process in its place, and adds another.
    fn adds_process(&mut self, n: u32, q: &mut Process, process: Process) -> Result<(), Memory>
        ensures ok { OnOk result (configuration_of self.new ≡ record (configuration_of self.old) { processes = slice_set (configuration_of self.old).processes n q.old ++ (process ∷ []) }) }
        ensures err { OnErr result (configuration_of self.new ≡ configuration_of self.old) }
        ensures store { self.new.store ≡ self.old.store }
    {
        let n = n as usize;
        let is_there = n < self.processes.len();
        self.processes.push(process)?;
        if is_there {
            mem::swap(&mut self.processes[n], q);
        }
        Ok(())
    }

    /// A process goes on, and another one of this number is started: the words that it begins with are written, and a
    /// device process joins the nest.
    pub(crate) fn starts(
        &mut self,
        n: u32,
        q: &mut Process,
        process: Process,
        number: u32,
        slots: &[Slot],
        vector: Option<Word>,
        arguments: &[Found],
    ) -> Result<(), Memory>
        ensures ok { OnOk result (configuration_of self.new ≡ record (configuration_of self.old) { store = all_stored (configuration_of self.old).store (first_words number 0 slots.now arguments.now); processes = slice_set (configuration_of self.old).processes n q.old ++ (process ∷ []); nest = nest_with (configuration_of self.old).nest number vector }) }
        ensures err { OnErr result (configuration_of self.new ≡ configuration_of self.old) }
    {
        let alloc = *self.nest.allocator();
        let words = first_words(alloc, number, 0, slots, arguments)?;
        let nest = self.nest_with(number, vector)?;
        self.store.note_all(words.as_slice())?;
        self.adds_process(n, q, process)?;
        self.store.put_all(words.as_slice());
        self.nest = nest;
        Ok(())
    }
}
