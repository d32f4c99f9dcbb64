// What each piece of a declaration says and declares.

ghost use Rattle.std.specs.Prelude.{◌≡◌, IfOk, OnOk};
ghost use Rattle.mc_prog.specs.Known.{Known as WhatIsKnown};
ghost use Rattle.mc_prog.specs.Known.{part};
ghost use Rattle.mc_prog.specs.Said.{or_else};
ghost use Rattle.mc_prog.specs.PieceTypes.{statement};
ghost use Rattle.mc_prog.specs.Declarations.{address_of, addresses_fault, heading_fault, local_fault, parameter_fault, priority_fault, result_said, type_in as type_in_of, with_heading, with_module, with_parameter, with_variable};
ghost use Rattle.mc_prog.specs.DeclarationTypes.{declaration_piece, declared_entity, scalar_in, with_declaration};
ghost use Rattle.mc_pieces.specs.Constructs.{around_of, code_sort_of, construct_of, module_sort_of, passing_of};
ghost use Rattle.mc_types.specs.IsKnown.{IsKnown};
ghost use Rattle.mc_types.specs.Knows.{Knows};

use crate::declared::Declared;
use crate::declaring::{
    address_of, constant_entity, constant_fault, heading_fault, local_type_fault, parameter_fault,
    priority_fault, result_said, type_entity, value_entity, variable_fault,
};
use crate::known::name_meaning;
use crate::lookup::Known;
use crate::names::{Entities, Uses};
use crate::parts::part;
use crate::rule::{Site, statement, text_piece};
use crate::written::{bounds_of, field_type, type_in, type_named};
use mc_pieces::piece::{CodeSort, Construct, ModuleSort, Passing, Piece};
use mc_prog::typing::{Answer, Entity, Said, Typed};
use mc_tree::place::Place;
use mc_tree::tree::Id;
use mc_word::bytes::Memory;
use std::alloc::Global;

/// What a name stands for that a piece declares, with its place.
pub fn entity_of(
    declared: &Declared,
    within: u16,
    site: Site,
    construct: Construct,
) -> Result<Option<(Place, Entity)>, Memory>
    ensures { IfOk result (λ e. e ≡ declared_entity within site.entry.typed.now (around_of site.entry.around) site.entry.numbers.now site.entry.parts.now (construct_of construct.entry) declared.now) }
{
    let first = part(site.typed, site.numbers, 0);
    let type_of = type_in(first.meaning);
    Ok(match construct {
        Construct::EnumerationValue(id) => Some((
            id.place,
            value_entity(site.typed.len(), site.numbers, first.meaning)?,
        )),
        Construct::Constant(id) => Some((id.place, constant_entity(first))),
        Construct::TypeDeclaration(id) => Some((id.place, type_entity(first.meaning))),
        Construct::Variable(id) => {
            let address = address_of(site.parts);
            let code = site.around.code_at;
            Some((
                id.place,
                declared.variable_entity(within, code, address, type_of)?,
            ))
        }
        Construct::Parameter(passing, id) => {
            Some((id.place, declared.parameter_entity(passing, type_of)?))
        }
        Construct::Heading(sort, id) => Some((id.place, declared.heading_entity(sort)?)),
        Construct::Module(_, id) => Some((id.place, declared.module_entity()?)),
        _ => None,
    })
}

/// What is known behind some declarations.
pub fn known<'k>(uses: &'k Uses, entities: &'k Entities, declared: &'k Declared) -> Known<'k>
    ensures { (k : WhatIsKnown) → Knows k uses.now entities.now declared.now → IsKnown k result }
{
    Known {
        uses,
        entities,
        types: declared.types(),
        modules: declared.modules(),
        procedures: declared.taken_by_procedures(),
        processes: declared.taken_by_processes(),
    }
}

// A variable, and its fault.
fn variable(declared: &mut Declared, within: u16, site: Site, id: &Id) -> Result<Said, Memory>
    ensures said { IfOk result (λ said. said ≡ statement (or_else (addresses_fault site.entry.parts.now) (local_fault declared.old.types site.entry.around.code_at (part site.entry.typed.now site.entry.numbers.now 0)))) }
    ensures new { OnOk result (declared.new ≡ with_variable within site.entry.around.code_at id.now.place (address_of site.entry.parts.now) (type_in_of (part site.entry.typed.now site.entry.numbers.now 0).meaning) declared.old) }
{
    let first = part(site.typed, site.numbers, 0);
    let code = site.around.code_at;
    let fault = variable_fault(declared.types(), code, site.parts, first);
    let address = address_of(site.parts);
    declared.add_variable(within, code, id.place, address, type_in(first.meaning))?;
    Ok(statement(fault))
}

// A parameter, and its fault.
fn parameter(
    declared: &mut Declared,
    passing: Passing,
    type_of: Option<u32>,
    id: &Id,
) -> Result<Said, Memory>
    ensures said { IfOk result (λ said. said ≡ statement (parameter_fault declared.old.types id.now.place type_of)) }
    ensures new { OnOk result (declared.new ≡ with_parameter (passing_of passing) id.now.place type_of declared.old) }
{
    let fault = parameter_fault(declared.types(), id.place, type_of);
    declared.add_parameter(passing, id.place, type_of)?;
    Ok(statement(fault))
}

// The type of a result, and its fault.
fn result_type(declared: &mut Declared, part: Typed) -> Said
    ensures said { result ≡ result_said declared.old.types part part.meaning }
    ensures new { declared.new ≡ record declared.old { result = Answer.Value (scalar_in declared.old.types part) } }
{
    let said = result_said(declared.types(), part);
    declared.give(type_in(said.meaning));
    said
}

// The heading of a procedure or a process, and its fault.
fn heading(declared: &mut Declared, sort: CodeSort, vector: Typed) -> Result<Said, Memory>
    ensures said { IfOk result (λ said. said ≡ statement (heading_fault declared.old.types declared.old.wanted (code_sort_of sort) vector)) }
    ensures new { OnOk result (declared.new ≡ with_heading (code_sort_of sort) vector declared.old) }
{
    let fault = heading_fault(declared.types(), declared.wanted(), sort, vector);
    declared.add_heading(sort, vector)?;
    Ok(statement(fault))
}

// A module, and the fault of its priority.
fn opening(
    declared: &mut Declared,
    sort: ModuleSort,
    within: u16,
    parts: &[Typed],
    id: &Id,
) -> Result<Said, Memory>
    ensures said { IfOk result (λ said. said ≡ statement (priority_fault parts.now)) }
    ensures new { OnOk result (declared.new ≡ with_module (module_sort_of sort) id.now.place within parts.now declared.old) }
{
    declared.add_module(sort, id.place, within, parts)?;
    Ok(statement(priority_fault(parts)))
}

/// What a piece says, and what it declares.
pub fn declare(
    alloc: Global,
    uses: &Uses,
    entities: &Entities,
    declared: &mut Declared,
    within: u16,
    pieces: &[Piece],
    site: Site,
    construct: Construct,
) -> Result<Said, Memory>
    ensures said { IfOk result (λ said. (k : WhatIsKnown) → Knows k uses.now entities.now declared.old → said ≡ declaration_piece k pieces.now site.entry.typed.now declared.old (around_of site.entry.around) site.entry.place site.entry.numbers.now site.entry.parts.now (construct_of construct.entry)) }
    ensures new { OnOk result (declared.new ≡ with_declaration within pieces.now site.entry.typed.now (around_of site.entry.around) site.entry.place site.entry.numbers.now site.entry.parts.now (construct_of construct.entry) declared.old) }
{
    let first = part(site.typed, site.numbers, 0);
    let second = part(site.typed, site.numbers, 1);
    match construct {
        Construct::TypeName(id) => {
            let known = known(uses, entities, declared);
            Ok(type_named(id.place, name_meaning(known, site.around, id)))
        }
        Construct::Enumeration(values) => declared.enumeration(site.place, values),
        Construct::EnumerationValue(_) => Ok(statement(None)),
        Construct::Range => Ok(bounds_of(declared.types(), first, second)),
        Construct::Array => declared.arrays(site.place, site.parts),
        Construct::Record => declared.record_type(site.place, pieces, site.typed, site.numbers),
        Construct::FieldGroup(_) => Ok(field_type(declared.types(), first)),
        Construct::Constant(_) => Ok(statement(constant_fault(first))),
        Construct::TypeDeclaration(_) => Ok(statement(local_type_fault(
            site.around.code_at,
            first,
        ))),
        Construct::Variable(id) => variable(declared, within, site, id),
        Construct::Parameter(passing, id) => {
            parameter(declared, passing, type_in(first.meaning), id)
        }
        Construct::ResultType => Ok(result_type(declared, first)),
        Construct::Heading(sort, _) => heading(declared, sort, first),
        Construct::Ending(sort, id) => {
            declared.end(sort, within, id.place)?;
            Ok(statement(None))
        }
        Construct::Module(sort, id) => opening(declared, sort, within, site.parts, id),
        _ => {
            let known = known(uses, entities, declared);
            text_piece(alloc, known, pieces, site, construct)
        }
    }
}
