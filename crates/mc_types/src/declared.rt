// What is declared so far, in the order of the text.

ghost use Rattle.std.specs.Prelude.{◌≡◌, ◌++◌, [], length, OnOk, IfOk};
ghost use Rattle.mc_prog.specs.Declarations.{arrays, enumeration, record_type, address_of, addresses_fault, body_of, code_of, constant_entity, constant_fault, ended, fixed_entity, heading_entity, heading_fault, local_fault, locals_of, module_by, module_info, parameter_entity, parameter_fault, params_of, priority_fault, process_fault, process_parameter, local_words, parameter_words, result_said, result_slots, text_fault, type_entity, undeclared, variable_entity, with_ended, with_heading, with_module, with_parameter, with_slot, with_variable, with_wanted, is_by_name, kind_of, slot_kind};
ghost use Rattle.mc_prog.specs.DeclarationTypes.{said_of_built};
ghost use Rattle.mc_prog.specs.Known.{basic};
ghost use Rattle.mc_pieces.specs.Constructs.{code_sort_of, module_sort_of, passing_of};

use crate::constants::word_of;
use crate::members::record_type;
use crate::names::NOWHERE;
use crate::types::{is_scalar, words_of};
use crate::written::{arrays, enumeration};
use mc_pieces::piece::{CodeSort, ModuleSort, Passing, Piece};
use mc_prog::program::{
    CellInfo, CodeInfo, ModuleInfo, ModuleKind, ProcessInfo, Shape, Slot, SlotKind, Slots, TypeInfo,
};
use mc_prog::typing::{Answer, Callable, Entity, Said, Takes, Typed, Wanted};
use mc_tree::place::Place;
use mc_word::Word;
use mc_word::bytes::Memory;
use std::alloc::Global;
use std::marker::Model;
use std::mem;

/// What is declared so far, but for what names stand for.
#[derive(Drop)]
pub struct Declared {
    alloc: Global,
    types: Vec<TypeInfo>,
    cells: Vec<CellInfo>,
    modules: Vec<ModuleInfo>,
    /// What procedures and processes take, also that whose declarations stand here.
    taken_by_procedures: Vec<Takes>,
    taken_by_processes: Vec<Takes>,
    procedures: Vec<CodeInfo>,
    processes: Vec<ProcessInfo>,
    /// The parameters and the local variables of the procedure or the process whose declarations stand here.
    slots: Vec<Slot>,
    /// What it takes.
    wanted: Vec<Wanted>,
    /// What it gives.
    result: Answer,
    /// Its vector.
    vector: Option<Word>,
    vector_at: Place,
}

impl Model for Declared {
    ghost use Rattle.mc_prog.specs.Declarations.{Declared as WhatIsDeclared};

    ghost Value = { WhatIsDeclared };

    ghost view = { λ d. record { types = d.types.items; cells = d.cells.items; modules = d.modules.items; taken_by_procedures = d.taken_by_procedures.items; taken_by_processes = d.taken_by_processes.items; procedures = d.procedures.items; processes = d.processes.items; slots = d.slots.items; wanted = d.wanted.items; result = d.result; vector = d.vector; vector_at = d.vector_at } };
}

/// What a program is declared to have, by the numbers of its things.
#[derive(Drop)]
pub struct DeclaredParts {
    pub types: Vec<TypeInfo>,
    pub cells: Vec<CellInfo>,
    pub modules: Vec<ModuleInfo>,
    /// The procedures and the processes without their texts.
    pub procedures: Vec<CodeInfo>,
    pub processes: Vec<ProcessInfo>,
}

// A length as a number of the program.
fn number(length: usize) -> Result<u32, Memory>
    ensures { IfOk result (λ n. n ≡ length) }
{
    u32::try_from(length).map_err(|_| Memory)
}

// A type that every source knows.
fn basic(shape: Shape, holds_signal: bool) -> TypeInfo
    ensures { result ≡ basic shape holds_signal }
{
    TypeInfo {
        words: 1,
        shape,
        holds_signal,
    }
}

impl Declared {
    /// Before anything is declared there are the types that every source knows.
    pub fn new(alloc: Global) -> Result<Declared, Memory>
        ensures { IfOk result (λ d. d ≡ undeclared) }
    {
        let mut types = Vec::new(alloc);
        types.push(basic(Shape::Integer, false))?;
        types.push(basic(Shape::Boolean, false))?;
        types.push(basic(Shape::Char, false))?;
        types.push(basic(Shape::Bits, false))?;
        types.push(basic(Shape::Signal, true))?;
        Ok(Declared {
            alloc,
            types,
            cells: Vec::new(alloc),
            modules: Vec::new(alloc),
            taken_by_procedures: Vec::new(alloc),
            taken_by_processes: Vec::new(alloc),
            procedures: Vec::new(alloc),
            processes: Vec::new(alloc),
            slots: Vec::new(alloc),
            wanted: Vec::new(alloc),
            result: Answer::Nothing,
            vector: None,
            vector_at: NOWHERE,
        })
    }

    /// What is declared in the end; each list keeps its memory.
    pub fn into_parts(self) -> DeclaredParts
        ensures types { result.types.items ≡ self.types }
        ensures cells { result.cells.items ≡ self.cells }
        ensures modules { result.modules.items ≡ self.modules }
        ensures procedures { result.procedures.items ≡ self.procedures }
        ensures processes { result.processes.items ≡ self.processes }
    {
        let Declared {
            types,
            cells,
            modules,
            procedures,
            processes,
            ..
        } = self;
        DeclaredParts {
            types,
            cells,
            modules,
            procedures,
            processes,
        }
    }

    /// The types so far.
    pub fn types(&self) -> &[TypeInfo]
        ensures { result.now ≡ self.now.types }
    {
        self.types.as_slice()
    }

    /// The modules so far.
    pub fn modules(&self) -> &[ModuleInfo]
        ensures { result.now ≡ self.now.modules }
    {
        self.modules.as_slice()
    }

    /// What procedures take.
    pub fn taken_by_procedures(&self) -> &[Takes]
        ensures { result.now ≡ self.now.taken_by_procedures }
    {
        self.taken_by_procedures.as_slice()
    }

    /// What processes take.
    pub fn taken_by_processes(&self) -> &[Takes]
        ensures { result.now ≡ self.now.taken_by_processes }
    {
        self.taken_by_processes.as_slice()
    }

    /// The procedures without their texts.
    pub fn procedures(&self) -> &[CodeInfo]
        ensures { result.now ≡ self.now.procedures }
    {
        self.procedures.as_slice()
    }

    /// What the procedure or the process takes, whose declarations stand here.
    pub fn wanted(&self) -> &[Wanted]
        ensures { result.now ≡ self.now.wanted }
    {
        self.wanted.as_slice()
    }

    /// An enumeration of so many values.
    pub fn enumeration(&mut self, place: Place, values: usize) -> Result<Said, Memory>
        ensures said { IfOk result (λ said. said ≡ said_of_built (enumeration self.old.types place values)) }
        ensures new { OnOk result (self.new ≡ record self.old { types = (enumeration self.old.types place values).types }) }
    {
        enumeration(&mut self.types, place, values)
    }

    /// An array, for its ranges and the type of its elements.
    pub fn arrays(&mut self, place: Place, parts: &[Typed]) -> Result<Said, Memory>
        ensures said { IfOk result (λ said. said ≡ said_of_built (arrays self.old.types place parts.now)) }
        ensures new { OnOk result (self.new ≡ record self.old { types = (arrays self.old.types place parts.now).types }) }
    {
        arrays(&mut self.types, place, parts)
    }

    /// A record, by the groups of its fields.
    pub fn record_type(
        &mut self,
        place: Place,
        pieces: &[Piece],
        typed: &[Typed],
        groups: &[u32],
    ) -> Result<Said, Memory>
        ensures said { IfOk result (λ said. said ≡ said_of_built (record_type self.old.types place pieces.now typed.now groups.now)) }
        ensures new { OnOk result (self.new ≡ record self.old { types = (record_type self.old.types place pieces.now typed.now groups.now).types }) }
    {
        record_type(self.alloc, &mut self.types, place, pieces, typed, groups)
    }

    // One more parameter or local variable.
    fn add_slot(&mut self, slot: Slot) -> Result<(), Memory>
        ensures { OnOk result (self.new ≡ with_slot slot self.old) }
    {
        self.slots.push(slot)?;
        Ok(())
    }

    /// A variable of a module, or a local one; none where its type is not known.
    pub fn add_variable(
        &mut self,
        within: u16,
        code: Option<Place>,
        place: Place,
        address: Option<Word>,
        type_of: Option<u32>,
    ) -> Result<(), Memory>
        ensures { OnOk result (self.new ≡ with_variable within code place address type_of self.old) }
    {
        let Some(type_of) = type_of else {
            return Ok(());
        };
        match code {
            None => {
                self.cells.push(CellInfo {
                    at: place,
                    type_of,
                    module: within,
                    register: address,
                })?;
                Ok(())
            }
            Some(_) => self.add_slot(Slot {
                at: place,
                type_of,
                kind: SlotKind::Local,
                register: address,
            }),
        }
    }

    /// What the variable is, that is declared next.
    pub fn variable_entity(
        &self,
        within: u16,
        code: Option<Place>,
        address: Option<Word>,
        type_of: Option<u32>,
    ) -> Result<Entity, Memory>
        ensures { IfOk result (λ e. e ≡ variable_entity within code address type_of self.now) }
    {
        let Some(type_of) = type_of else {
            return Ok(Entity::Faulty);
        };
        Ok(match code {
            None => Entity::Cell(
                number(self.cells.len())?,
                type_of,
                within,
                address.is_some(),
            ),
            Some(_) => Entity::Slot(number(self.slots.len())?, type_of, true, address.is_some()),
        })
    }

    // One more thing that the procedure or the process takes.
    fn add_wanted(
        &mut self,
        passing: Passing,
        place: Place,
        type_of: Option<u32>,
    ) -> Result<(), Memory>
        ensures { OnOk result (self.new ≡ with_wanted (passing_of passing) place type_of self.old) }
    {
        self.wanted.push(Wanted {
            at: place,
            type_of,
            by_name: passing == Passing::ByName,
        })?;
        Ok(())
    }

    /// A parameter, which is taken also where its type is not known.
    pub fn add_parameter(
        &mut self,
        passing: Passing,
        place: Place,
        type_of: Option<u32>,
    ) -> Result<(), Memory>
        ensures { OnOk result (self.new ≡ with_parameter (passing_of passing) place type_of self.old) }
    {
        self.add_wanted(passing, place, type_of)?;
        let Some(type_of) = type_of else {
            return Ok(());
        };
        let kind = match passing {
            Passing::ByValue => SlotKind::Constant,
            Passing::ByName => SlotKind::Variable,
        };
        self.add_slot(Slot {
            at: place,
            type_of,
            kind,
            register: None,
        })
    }

    /// What the parameter is, that is declared next.
    pub fn parameter_entity(&self, passing: Passing, type_of: Option<u32>) -> Result<Entity, Memory>
        ensures { IfOk result (λ e. e ≡ parameter_entity (passing_of passing) type_of self.now) }
    {
        Ok(match type_of {
            None => Entity::Faulty,
            Some(type_of) => Entity::Slot(
                number(self.slots.len())?,
                type_of,
                passing == Passing::ByName,
                false,
            ),
        })
    }

    /// The type of the result of the function whose declarations stand here, where it is known.
    pub fn give(&mut self, type_of: Option<u32>)
        ensures { self.new ≡ record self.old { result = Answer.Value type_of } }
    {
        self.result = Answer::Value(type_of);
    }

    /// The heading of a procedure or a process, with its vector where it is a device process.
    pub fn add_heading(&mut self, sort: CodeSort, vector: Typed) -> Result<(), Memory>
        ensures { OnOk result (self.new ≡ with_heading (code_sort_of sort) vector self.old) }
    {
        let wanted = Vec::from_slice(self.alloc, self.wanted.as_slice())?;
        let takes = Takes { wanted };
        match sort {
            CodeSort::Procedure => self.taken_by_procedures.push(takes)?,
            CodeSort::Process => self.taken_by_processes.push(takes)?,
            CodeSort::Driver => {
                self.taken_by_processes.push(takes)?;
                self.vector = Some(word_of(vector.meaning));
                self.vector_at = vector.place;
            }
        }
        Ok(())
    }

    /// What the procedure or the process is, whose heading is next.
    pub fn heading_entity(&self, sort: CodeSort) -> Result<Entity, Memory>
        ensures { IfOk result (λ e. e ≡ heading_entity (code_sort_of sort) self.now) }
    {
        Ok(match sort {
            CodeSort::Procedure => Entity::Procedure(Callable {
                number: number(self.taken_by_procedures.len())?,
                result: self.result,
            }),
            CodeSort::Process | CodeSort::Driver => {
                Entity::Process(number(self.taken_by_processes.len())?)
            }
        })
    }

    // The slot of the result stands behind all others.
    fn add_result(&mut self, place: Place) -> Result<(), Memory>
        ensures { OnOk result (self.new ≡ record self.old { slots = self.old.slots ++ result_slots place self.old.result }) }
    {
        match self.result {
            Answer::Value(Some(type_of)) => self.add_slot(Slot {
                at: place,
                type_of,
                kind: SlotKind::Result,
                register: None,
            }),
            _ => Ok(()),
        }
    }

    // Takes the procedure or the process whose declarations end, without its text.
    fn take_code(&mut self, within: u16, place: Place) -> Result<CodeInfo, Memory>
        ensures ended { OnOk result (self.new ≡ ended self.old) }
        ensures code { IfOk result (λ code. code ≡ code_of self.old within place) }
    {
        let types = self.types.as_slice();
        let params = params_of(types, self.slots.as_slice())?;
        let locals = locals_of(types, self.slots.as_slice())?;
        self.add_result(place)?;
        let slots = mem::replace(&mut self.slots, Vec::new(self.alloc));
        self.wanted = Vec::new(self.alloc);
        self.result = Answer::Nothing;
        self.vector = None;
        self.vector_at = NOWHERE;
        Ok(CodeInfo {
            at: place,
            module: within,
            params,
            locals,
            frame: 0,
            slots: Slots { slots },
            body: 0,
        })
    }

    /// The end of the declarations of a procedure or a process.
    pub fn end(&mut self, sort: CodeSort, within: u16, place: Place) -> Result<(), Memory>
        ensures { OnOk result (self.new ≡ with_ended (code_sort_of sort) within place self.old) }
    {
        let vector = self.vector;
        let vector_at = self.vector_at;
        let code = self.take_code(within, place)?;
        match sort {
            CodeSort::Procedure => self.procedures.push(code)?,
            CodeSort::Process => self.processes.push(ProcessInfo {
                code,
                vector: None,
                vector_at: place,
            })?,
            CodeSort::Driver => self.processes.push(ProcessInfo {
                code,
                vector,
                vector_at,
            })?,
        }
        Ok(())
    }

    /// What the module is, that is declared next.
    pub fn module_entity(&self) -> Result<Entity, Memory>
        ensures { IfOk result (λ e. e ≡ Entity.Module (length self.now.modules)) }
    {
        let number = u16::try_from(self.modules.len()).map_err(|_| Memory)?;
        Ok(Entity::Module(number))
    }

    /// A module, with its priority where it has one.
    pub fn add_module(
        &mut self,
        sort: ModuleSort,
        place: Place,
        outer: u16,
        parts: &[Typed],
    ) -> Result<(), Memory>
        ensures { OnOk result (self.new ≡ with_module (module_sort_of sort) place outer parts.now self.old) }
    {
        let number = u16::try_from(self.modules.len()).map_err(|_| Memory)?;
        let (priority, priority_at) = match parts.first() {
            Some(priority) => (word_of(priority.meaning), priority.place),
            None => (0, place),
        };
        let body = CodeInfo {
            at: place,
            module: number,
            params: 0,
            locals: 0,
            frame: 0,
            slots: Slots {
                slots: Vec::new(self.alloc),
            },
            body: 0,
        };
        self.modules.push(ModuleInfo {
            kind: kind_of(sort),
            priority,
            priority_at,
            outer,
            body,
        })?;
        Ok(())
    }
}

fn kind_of(sort: ModuleSort) -> ModuleKind
    ensures { result ≡ kind_of (module_sort_of sort) }
{
    match sort {
        ModuleSort::Plain => ModuleKind::Plain,
        ModuleSort::Interface => ModuleKind::Interface,
        ModuleSort::Device => ModuleKind::Device,
    }
}

// How many words a slot takes as a parameter.
fn parameter_words(types: &[TypeInfo], slot: Slot) -> Result<u32, Memory>
    ensures { IfOk result (λ n. n ≡ parameter_words types.now slot.kind slot.type_of) }
{
    match slot.kind {
        SlotKind::Constant if is_scalar(types, slot.type_of) => Ok(1),
        SlotKind::Constant => words_of(types, slot.type_of).checked_add(1).ok_or(Memory),
        SlotKind::Variable => Ok(1),
        SlotKind::Local | SlotKind::Result => Ok(0),
    }
}

// How many words parameters take.
fn params_of(types: &[TypeInfo], slots: &[Slot]) -> Result<u32, Memory>
    ensures { IfOk result (λ n. n ≡ params_of types.now slots.now) }
{
    let mut words: u32 = 0;
    for slot in slots {
        words = words
            .checked_add(parameter_words(types, *slot)?)
            .ok_or(Memory)?;
    }
    Ok(words)
}

// How many words a slot takes as a local variable.
fn local_words(types: &[TypeInfo], slot: Slot) -> u32
    ensures { result ≡ local_words types.now slot.kind slot.type_of }
{
    match slot.kind {
        SlotKind::Local => words_of(types, slot.type_of),
        _ => 0,
    }
}

// How many words local variables take.
fn locals_of(types: &[TypeInfo], slots: &[Slot]) -> Result<u32, Memory>
    ensures { IfOk result (λ n. n ≡ locals_of types.now slots.now) }
{
    let mut words: u32 = 0;
    for slot in slots {
        words = words.checked_add(local_words(types, *slot)).ok_or(Memory)?;
    }
    Ok(words)
}
