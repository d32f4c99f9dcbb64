// Processes: what they run, what they have found, and what is still to do.

ghost use Rattle.std.specs.Prelude.{◌≡◌, ◌≢◌, ◌∷◌, ◌++◌, [], ℕ, ◌+◌, IfOk, OnOk, MatchOption, drop, length, take};
ghost use Rattle.std.specs.Bool.{OnFalse, OnTrue};
ghost use Rattle.mc_meaning.specs.Actions.{in_state, new_process, started_kind, started_state};
ghost use Rattle.mc_meaning.specs.Calling.{arguments_of, entered, returned};
ghost use Rattle.mc_meaning.specs.Configuration.{main_process};

use crate::calling::{local_clears, priority_in};
use crate::store::{Found, Name, Source, Target};
use mc_prog::program::{ProcessInfo, Program};
use mc_word::Word;
use mc_word::bytes::Memory;
use std::alloc::Global;
use std::collections::VecDeque;
use std::marker::Model;
use std::mem;

/// What a process has still to do. A number is that of a node, where nothing else is said.
#[derive(Clone, Copy, PartialEq, Eq, Debug)]
pub enum Item {
    /// A statement, or a body.
    Runs(u32),
    /// The body of a module, by the module's number.
    CallsBody(u32),
    /// An expression, whose value is wanted.
    Evaluates(u32),
    /// A designator, or a text: what it names is wanted.
    Names(u32),
    /// Reads the word of what was named, which has this type.
    Reads(u32),
    /// Goes on to an element: the bracket's node.
    Indexes(u32),
    /// Goes on to a field: the node of the selection.
    Selects(u32),
    /// Tests the index of a bit.
    TestsBit,
    /// Reads the word that the bit is of.
    ReadsBit,
    /// Gives the value of an operator or of a conversion.
    Operates(u32),
    /// Goes on behind the left side of `and` or `or`.
    Decides(u32),
    /// Writes a word.
    Writes,
    /// Writes a bit.
    WritesBit,
    /// Is replaced by the moves of so many words, from what was named last to what was named before it.
    Spreads(u32),
    /// Moves a word.
    Moves(Name, Source),
    /// Sets a word to zero.
    Clears(Name),
    /// Selects by the condition of this number, from 0, of an `if`.
    Branches(u32, u32),
    /// Selects by the condition of a `while`.
    Turns(u32),
    /// Selects by the condition of a `repeat`.
    Repeats(u32),
    /// Goes on to the `when` of this number, from 0, of a `loop`.
    Loops(u32, u32),
    /// Selects by the condition of the `when` of this number of a `loop`.
    Leaves(u32, u32),
    /// Compares with the label of this number, from 0, of a `case`.
    Tries(u32, u32),
    /// Makes an activation of a procedure: the node of the call.
    Calls(u32),
    /// Starts a process: the node of the start.
    Starts(u32),
    /// Waits; whether a rank was found.
    Waits(bool),
    Sends,
    Awaits,
    StandsAtDoio,
    /// The end of a body or of a procedure, and the slot of its result, where it has one.
    Returns(Option<u32>),
    /// The end of a process's text.
    Ends,
}

/// What a text that runs is the text of.
#[derive(Clone, Copy, PartialEq, Eq, Debug)]
pub enum Running {
    /// The main process's own text.
    Main,
    /// The body of a module.
    Body(u32),
    Procedure(u32),
    Process(u32),
}

/// What a `var` parameter stands for.
#[derive(Clone, Copy, PartialEq, Eq, Debug)]
pub struct Reference {
    /// The parameter's slot.
    pub slot: u32,
    pub target: Target,
}

/// References, which contracts see as a list.
#[derive(Debug, Drop)]
pub struct References {
    pub references: Vec<Reference>,
}

impl Model for References {
    ghost use Rattle.std.specs.Prelude.{List};
    ghost use Rattle.mc_meaning.specs.declared.process.Reference.{Reference};

    ghost Value = { List Reference };

    ghost view = { λ r. r.references.items };
}

/// What has been found, the last first, which contracts see as a list.
#[derive(Debug, Drop)]
pub struct Findings {
    pub found: VecDeque<Found>,
}

impl Model for Findings {
    ghost use Rattle.std.specs.Prelude.{List};
    ghost use Rattle.mc_meaning.specs.declared.store.Found.{Found};

    ghost Value = { List Found };

    ghost view = { λ f. f.found.items };
}

/// What is still to do, which contracts see as a list.
#[derive(Debug, Drop)]
pub struct Tasks {
    pub rest: VecDeque<Item>,
}

impl Model for Tasks {
    ghost use Rattle.std.specs.Prelude.{List};
    ghost use Rattle.mc_meaning.specs.declared.process.Item.{Item};

    ghost Value = { List Item };

    ghost view = { λ t. t.rest.items };
}

/// A call that has not returned.
#[derive(Debug, Drop)]
pub struct Activation {
    pub running: Running,
    /// The module, which the main process's own text lacks.
    pub module: Option<u32>,
    /// The priority before it.
    pub before: u16,
    /// How many words of a workspace it is counted for.
    pub frame: u32,
    pub references: References,
    /// What its caller had found, and had still to do.
    pub found: Findings,
    pub rest: Tasks,
}

/// The three kinds of processes.
#[derive(Clone, Copy, PartialEq, Eq, Debug)]
pub enum ProcessKind {
    Main,
    Regular,
    /// A device process, with its vector.
    Driver(Word),
}

/// Where a process stands.
#[derive(Clone, Copy, PartialEq, Eq, Debug)]
pub enum State {
    Acting,
    Ready,
    Delayed,
    AtDoio,
    Ended,
}

/// What a process is, and where it stands.
#[derive(Clone, Copy, PartialEq, Eq, Debug)]
pub struct Standing {
    /// The declared process that it runs, which the main process lacks.
    pub declared: Option<u32>,
    pub kind: ProcessKind,
    pub state: State,
    /// The priority that holds for it now, 0 to 7.
    pub priority: u16,
}

/// A process.
#[derive(Debug, Drop)]
pub struct Process {
    standing: Standing,
    activations: VecDeque<Activation>,
    found: VecDeque<Found>,
    rest: VecDeque<Item>,
}

impl Model for Process {
    ghost use Rattle.mc_meaning.specs.Configuration.{ProcessState};

    ghost Value = { ProcessState };

    ghost view = { λ p. record { standing = p.standing; activations = p.activations.items; found = p.found.items; rest = p.rest.items } };
}

// A copy of what has been found.
fn found_copy(found: &VecDeque<Found>) -> Result<VecDeque<Found>, Memory>
    ensures { IfOk result (λ copy. copy.items ≡ found.now.items) }
{
    let (upper, lower) = found.as_slices();
    let mut copy = Vec::from_slice(*found.allocator(), upper)?;
    copy.extend_from_slice(lower)?;
    Ok(VecDeque::from_vec(copy))
}

// A copy of what is still to do.
fn items_copy(items: &VecDeque<Item>) -> Result<VecDeque<Item>, Memory>
    ensures { IfOk result (λ copy. copy.items ≡ items.now.items) }
{
    let (upper, lower) = items.as_slices();
    let mut copy = Vec::from_slice(*items.allocator(), upper)?;
    copy.extend_from_slice(lower)?;
    Ok(VecDeque::from_vec(copy))
}

impl References {
    /// No references.
    pub(crate) fn none(alloc: Global) -> References
        ensures { result ≡ [] }
    {
        References {
            references: Vec::new(alloc),
        }
    }

    // A copy of these references.
    fn copy(&self) -> Result<References, Memory>
        ensures { IfOk result (λ copy. copy ≡ self.now) }
    {
        Ok(References {
            references: Vec::from_slice(*self.references.allocator(), self.references.as_slice())?,
        })
    }
}

impl Activation {
    // A copy of this activation.
    fn copy(&self) -> Result<Activation, Memory>
        ensures { IfOk result (λ copy. copy ≡ self.now) }
    {
        Ok(Activation {
            running: self.running,
            module: self.module,
            before: self.before,
            frame: self.frame,
            references: self.references.copy()?,
            found: Findings {
                found: found_copy(&self.found.found)?,
            },
            rest: Tasks {
                rest: items_copy(&self.rest.rest)?,
            },
        })
    }
}

// Puts copies of activations behind others.
fn put_copies(copies: &mut VecDeque<Activation>, activations: &[Activation]) -> Result<(), Memory>
    ensures { OnOk result (copies.new.items ≡ copies.old.items ++ activations.now) }
{
    for activation in activations {
        copies.push_back(activation.copy()?)?;
    }
    Ok(())
}

// A copy of activations.
fn activations_copy(activations: &VecDeque<Activation>) -> Result<VecDeque<Activation>, Memory>
    ensures { IfOk result (λ copy. copy.items ≡ activations.now.items) }
{
    let (upper, lower) = activations.as_slices();
    let mut copies = VecDeque::new(*activations.allocator());
    put_copies(&mut copies, upper)?;
    put_copies(&mut copies, lower)?;
    Ok(copies)
}

// The activation of a process's text, with no references and no caller.
fn first_activation(alloc: Global, running: Running, module: Option<u32>, frame: u32) -> Activation
    ensures { result ≡ record { running = running; «module» = «module»; before = 0; frame = frame; references = []; found = []; rest = [] } }
{
    Activation {
        running,
        module,
        before: 0,
        frame,
        references: References::none(alloc),
        found: Findings {
            found: VecDeque::new(alloc),
        },
        rest: Tasks {
            rest: VecDeque::new(alloc),
        },
    }
}

// The kind of a process that is declared with this vector.
fn started_kind(vector: Option<Word>) -> ProcessKind
    ensures { result ≡ started_kind vector }
{
    match vector {
        Some(vector) => ProcessKind::Driver(vector),
        None => ProcessKind::Regular,
    }
}

// Where a process that is declared with this vector stands at its start.
fn started_state(vector: Option<Word>) -> State
    ensures { result ≡ started_state vector }
{
    match vector {
        Some(_) => State::Acting,
        None => State::Ready,
    }
}

// Takes so many from the front, and puts them behind others.
fn take_front(
    found: &mut VecDeque<Found>,
    taken: &mut Vec<Found>,
    count: usize,
) -> Result<(), Memory>
    ensures { OnOk result ((taken.new.items ≡ taken.old.items ++ take count found.old.items) × (found.new.items ≡ drop count found.old.items)) }
{
    let mut left = count;
    while left > 0 {
        let Some(first) = found.pop_front() else {
            return Ok(());
        };
        taken.push(first)?;
        left -= 1;
    }
    Ok(())
}

impl Process {
    /// The main process, which has to run the bodies of the modules, and then ends.
    pub(crate) fn main(alloc: Global, program: &Program) -> Result<Process, Memory>
        ensures { IfOk result (λ q. q ≡ main_process program.now) }
    {
        let main = program.main();
        let activation = first_activation(alloc, Running::Main, None, main.frame);
        let mut activations = VecDeque::new(alloc);
        activations.push_front(activation)?;
        Ok(Process {
            standing: Standing {
                declared: None,
                kind: ProcessKind::Main,
                state: State::Acting,
                priority: 0,
            },
            activations,
            found: VecDeque::new(alloc),
            rest: VecDeque::from_vec(vec![in alloc; Item::Runs(main.body), Item::Ends]?),
        })
    }

    /// A declared process of this number that begins.
    pub(crate) fn started(
        alloc: Global,
        program: &Program,
        number: u32,
        k: u32,
        info: &ProcessInfo,
    ) -> Result<Process, Memory>
        ensures { IfOk result (λ q. q ≡ new_process program.now number k info.now) }
    {
        let code = &info.code;
        let mut rest = Vec::new(alloc);
        local_clears(&mut rest, program, number, 0, code.slots.slots.as_slice())?;
        rest.push(Item::Runs(code.body))?;
        rest.push(Item::Ends)?;
        let module = Some(u32::from(code.module));
        let mut activations = VecDeque::new(alloc);
        activations.push_front(first_activation(alloc, Running::Process(k), module, code.frame))?;
        Ok(Process {
            standing: Standing {
                declared: Some(k),
                kind: started_kind(info.vector),
                state: started_state(info.vector),
                priority: priority_in(program, code.module, 0),
            },
            activations,
            found: VecDeque::new(alloc),
            rest: VecDeque::from_vec(rest),
        })
    }

    /// A copy of this process.
    pub(crate) fn copy(&self) -> Result<Process, Memory>
        ensures { IfOk result (λ copy. copy ≡ self.now) }
    {
        Ok(Process {
            standing: self.standing,
            activations: activations_copy(&self.activations)?,
            found: found_copy(&self.found)?,
            rest: items_copy(&self.rest)?,
        })
    }

    /// The declared process that it runs, which the main process lacks.
    pub fn declared(&self) -> Option<u32>
        ensures { result ≡ self.now.standing.declared }
    {
        self.standing.declared
    }

    /// The kind of process that it is.
    pub fn kind(&self) -> ProcessKind
        ensures { result ≡ self.now.standing.kind }
    {
        self.standing.kind
    }

    /// Where it stands.
    pub fn state(&self) -> State
        ensures { result ≡ self.now.standing.state }
    {
        self.standing.state
    }

    /// The priority that holds for it now, 0 to 7.
    pub fn priority(&self) -> u16
        ensures { result ≡ self.now.standing.priority }
    {
        self.standing.priority
    }

    /// How many activations have not returned.
    pub fn depth(&self) -> u64
        ensures { result ≡ length self.now.activations }
    {
        self.activations.len() as u64
    }

    /// It stands here now.
    pub(crate) fn set_state(&mut self, state: State)
        ensures { self.new ≡ in_state state self.old }
    {
        self.standing.state = state;
    }

    /// A copy of what it has still to do.
    pub(crate) fn rest(&self) -> Result<VecDeque<Item>, Memory>
        ensures { IfOk result (λ copy. copy.items ≡ self.now.rest) }
    {
        items_copy(&self.rest)
    }

    /// The activation that it made last of those that have not returned.
    pub(crate) fn last_activation(&self) -> Option<&Activation>
        ensures { MatchOption result (self.now.activations ≡ []) (λ a. self.now.activations ≡ a.now ∷ drop 1 self.now.activations) }
    {
        self.activations.front()
    }

    /// Makes an activation of what runs, at this priority. What has been found, and this rest, is put by in it.
    pub(crate) fn enters(
        &mut self,
        rest: &mut VecDeque<Item>,
        running: Running,
        module: u32,
        frame: u32,
        references: References,
        priority: u16,
    ) -> Result<(), Memory>
        ensures { OnOk result (self.new ≡ entered self.old rest.old.items running «module» frame references priority) }
    {
        let alloc = *rest.allocator();
        let found = mem::replace(&mut self.found, VecDeque::new(alloc));
        let rest = mem::replace(rest, VecDeque::new(alloc));
        self.activations.push_front(Activation {
            running,
            module: Some(module),
            before: self.standing.priority,
            frame,
            references,
            found: Findings { found },
            rest: Tasks { rest },
        })?;
        self.standing.priority = priority;
        Ok(())
    }

    /// Leaves the last activation, where there is one, and goes back to what its caller was at; says whether there was one.
    pub(crate) fn returns(&mut self) -> bool
        ensures one { OnTrue result (self.old.activations ≢ []) }
        ensures none { OnFalse result (self.old.activations ≡ []) }
        ensures back { self.new ≡ returned self.old self.old.activations }
    {
        let Some(activation) = self.activations.pop_front() else {
            return false;
        };
        self.standing.priority = activation.before;
        self.found = activation.found.found;
        self.rest = activation.rest.rest;
        true
    }

    /// Puts what was found in front of what has been found.
    pub(crate) fn push_found(&mut self, found: Found) -> Result<(), Memory>
        ensures { OnOk result (self.new ≡ record self.old { found = found ∷ self.old.found }) }
    {
        self.found.push_front(found)?;
        Ok(())
    }

    /// Takes what was found last.
    pub(crate) fn pop_found(&mut self) -> Option<Found>
        ensures { MatchOption result ((self.old.found ≡ []) × (self.new ≡ self.old)) (λ f. self.old ≡ record self.new { found = f ∷ self.new.found }) }
    {
        self.found.pop_front()
    }

    /// Takes so many of what was found last, the last one at the end.
    pub(crate) fn take_arguments(
        &mut self,
        alloc: Global,
        count: usize,
    ) -> Result<Vec<Found>, Memory>
        ensures { IfOk result (λ arguments. (arguments.items ≡ arguments_of count self.old.found) × (self.new ≡ record self.old { found = drop count self.old.found })) }
    {
        let mut arguments = Vec::new(alloc);
        take_front(&mut self.found, &mut arguments, count)?;
        arguments.reverse();
        Ok(arguments)
    }

    /// Gives it this to do.
    pub(crate) fn set_rest(&mut self, rest: &mut VecDeque<Item>)
        ensures { self.new ≡ record self.old { rest = rest.old.items } }
    {
        mem::swap(&mut self.rest, rest);
    }
}
