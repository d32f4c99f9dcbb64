// Events, grants and choices, which are the steps besides those of evaluation.

ghost use Rattle.std.specs.Prelude.{◌≡◌, IfOk, OnOk, OnErr, slice_get, true};
ghost use Rattle.pdp_dev.specs.Devices.{IsEvent, request_of};
ghost use Rattle.mc_meaning.specs.Configuration.{can_grant, priority_at};
ghost use Rattle.mc_meaning.specs.Kept.{configuration_of};
ghost use Rattle.mc_meaning.specs.ProgramRuns.{CanChoose, IsDone, after_choice, after_event, grant, granted_to, is_ready_process, may_evaluate, nest_above, standing_at};

use super::Config;
use crate::config::{Mark, Nested};
use crate::parts::number;
use crate::process::{ProcessKind, State};
use mc_word::Word;
use mc_word::bytes::Memory;
use pdp_dev::devices::Request;
use pdp_dev::entry::{Entry, Event};

impl Config {
    // The priority of the process of this number, or 0 where none acts.
    fn priority_at(&self, n: Option<u32>) -> u16
        ensures { result ≡ priority_at (configuration_of self.now) n }
    {
        match n {
            Some(n) => match self.processes.get(n as usize) {
                Some(process) => process.priority(),
                None => 0,
            },
            None => 0,
        }
    }

    /// Whether no trap has happened, and the pending request stands above the priority of the process that acts.
    pub fn can_grant(&self) -> bool
        ensures { result ≡ can_grant (configuration_of self.now) }
    {
        if self.trap.is_some() {
            return false;
        }
        match self.devices.pending() {
            Some(request) => self.priority_at(self.topmost()) < request.level,
            None => false,
        }
    }

    /// Whether the topmost process may make an evaluation step, where it finds something to do.
    pub fn can_eval(&self) -> bool
        ensures { result ≡ may_evaluate (configuration_of self.now) }
    {
        self.trap.is_none() && !self.can_grant() && self.topmost().is_some()
    }

    /// A device does something, and the journal says so; a byte that comes in is less than 256.
    pub fn event(&mut self, event: Event) -> Result<(), Memory>
        ensures event { IsEvent event }
        ensures ok { OnOk result (configuration_of self.new ≡ after_event (configuration_of self.old) event) }
        ensures err { OnErr result (configuration_of self.new ≡ configuration_of self.old) }
    {
        self.journal.push(Entry::Event(event))?;
        self.devices.happen(event);
        Ok(())
    }

    // The number of the process that stands at its `doio` for a vector.
    fn standing_at(&self, vector: Word) -> Result<Option<u32>, Memory>
        ensures { IfOk result (λ n. n ≡ standing_at vector 0 (configuration_of self.now).processes) }
    {
        let mut n = 0;
        while n < self.processes.len() {
            let process = &self.processes[n];
            if process.state() == State::AtDoio && process.kind() == ProcessKind::Driver(vector) {
                return Ok(Some(number(n)?));
            }
            n += 1;
        }
        Ok(None)
    }

    // The nest, with the process of this number above it.
    fn nest_above(&self, n: Option<u32>) -> Result<Vec<Nested>, Memory>
        ensures { IfOk result (λ nest. nest.items ≡ nest_above (configuration_of self.now).nest n) }
    {
        let mut nest = Vec::from_slice(*self.nest.allocator(), self.nest.as_slice())?;
        if let Some(process) = n {
            nest.push(Nested {
                process,
                mark: Mark::Granted,
            })?;
        }
        Ok(nest)
    }

    // This request is granted.
    fn grants(&mut self, request: Request) -> Result<(), Memory>
        ensures ok { OnOk result (configuration_of self.new ≡ granted_to (configuration_of self.old) request) }
        ensures err { OnErr result (configuration_of self.new ≡ configuration_of self.old) }
    {
        let n = self.standing_at(request.vector)?;
        let nest = self.nest_above(n)?;
        self.journal.push(Entry::Grant(request.vector))?;
        self.devices.granted(request);
        self.nest = nest;
        if let Some(n) = n {
            self.sets_state(n, State::Acting);
        }
        Ok(())
    }

    /// Makes the grant of the pending request, where it is possible, and says whether it was.
    pub fn grant(&mut self) -> Result<bool, Memory>
        ensures ok { IfOk result (λ done. IsDone (can_grant (configuration_of self.old) ≡ true) (configuration_of self.new ≡ grant (configuration_of self.old) (request_of (configuration_of self.old).devices)) (configuration_of self.new ≡ configuration_of self.old) done) }
        ensures err { OnErr result (configuration_of self.new ≡ configuration_of self.old) }
    {
        if !self.can_grant() {
            return Ok(false);
        }
        if let Some(request) = self.devices.pending() {
            self.grants(request)?;
        }
        Ok(true)
    }

    // Whether the process of this number is ready.
    fn is_ready(&self, n: u32) -> bool
        ensures { result ≡ is_ready_process (slice_get (configuration_of self.now).processes n) }
    {
        match self.processes.get(n as usize) {
            Some(process) => process.state() == State::Ready,
            None => false,
        }
    }

    /// Chooses a ready process, where nothing acts and it is possible, and says whether it was.
    pub fn choose(&mut self, n: u32) -> bool
        ensures { IsDone (CanChoose (configuration_of self.old) n) (configuration_of self.new ≡ after_choice (configuration_of self.old) n) (configuration_of self.new ≡ configuration_of self.old) result }
    {
        if self.trap.is_some()
            || self.can_grant()
            || self.topmost().is_some()
            || !self.is_ready(n)
        {
            return false;
        }
        self.foot = Some(n);
        self.sets_state(n, State::Acting);
        true
    }
}
