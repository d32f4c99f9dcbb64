// What is said of each piece of a text, by what it is and by its parts.

ghost use Rattle.std.specs.Prelude.{◌≡◌, ◌++◌, IfOk, OnOk, map};
ghost use Rattle.mc_prog.specs.Known.{Known as WhatIsKnown, typed_at};
ghost use Rattle.mc_prog.specs.PieceTypes.{arguments_of, expression_piece, fixed_of, is_factor, place_of, text_piece};
ghost use Rattle.mc_prog.specs.StatementTypes.{but_last, case_fault, labels_of, parts_of};
ghost use Rattle.mc_pieces.specs.Constructs.{around_of, construct_of};
ghost use Rattle.mc_types.specs.IsKnown.{IsKnown};

use crate::calls::{called_statement, called_value};
use crate::constants::{bits_of, element, fixed_fault};
use crate::designators::{designated, grouped, indexed, selected};
use crate::expressions::{converts, text_said};
use crate::known::{is_standard_use, name_meaning};
use crate::lookup::Known;
use crate::operators::{not_, of_product, of_sum, operated, signed};
use crate::parts::{part, typed_at};
use crate::said::{fine, type_of, wants};
use crate::statements::{assignment_fault, condition_fault, conditions_fault, labels_fault};
use mc_pieces::piece::{Around, Construct, Piece};
use mc_prog::program::TypeInfo;
use mc_prog::typing::{Allowed, CHAR, INTEGER, Meaning, Operator, Said, Typed};
use mc_tree::fault::{Code, Fault};
use mc_tree::place::Place;
use mc_word::bytes::Memory;
use std::alloc::Global;

/// A piece where it stands, with its parts.
#[derive(Clone, Copy)]
pub struct Site<'s> {
    pub around: Around,
    pub place: Place,
    /// What is known of all pieces before it.
    pub typed: &'s [Typed],
    /// The numbers of its parts.
    pub numbers: &'s [u32],
    /// What is known of its parts.
    pub parts: &'s [Typed],
}

/// A statement with this fault.
pub fn statement(fault: Option<Fault>) -> Said
    ensures { result ≡ record { meaning = Meaning.Nothing; fault = fault } }
{
    Said {
        meaning: Meaning::Nothing,
        fault,
    }
}

// What is said of a piece of an expression.
fn expression_piece(known: Known, site: Site, construct: Construct) -> Result<Said, Memory>
    ensures { IfOk result (λ said. (k : WhatIsKnown) → IsKnown k known.entry → said ≡ expression_piece k site.entry.typed.now (around_of site.entry.around) site.entry.place site.entry.numbers.now site.entry.parts.now (construct_of construct.entry)) }
{
    let types = known.types;
    let first = part(site.typed, site.numbers, 0);
    let second = part(site.typed, site.numbers, 1);
    Ok(match construct {
        Construct::Number(word) => fine(Meaning::Constant(INTEGER, word)),
        Construct::Character(byte) => fine(Meaning::Constant(CHAR, u16::from(byte))),
        Construct::Text(text) => {
            let length = u32::try_from(text.as_slice().len()).map_err(|_| Memory)?;
            text_said(site.place, length)
        }
        Construct::Name(id) => fine(name_meaning(known, site.around, id)),
        Construct::Select(id) => selected(types, first, id),
        Construct::Index => indexed(types, first, second),
        Construct::Designated => designated(known.procedures, first),
        Construct::Calling(id) => called_value(
            types,
            known.procedures,
            is_standard_use(known, id),
            id.place,
            name_meaning(known, site.around, id),
            site.parts,
        ),
        Construct::Group => fine(grouped(first.meaning)),
        Construct::Negation => not_(types, first),
        Construct::Bits => fine(bits_of(site.parts)),
        Construct::Element => element(types, site.parts),
        Construct::Signed(sign) => signed(types, sign, first),
        Construct::Sum(sum) => operated(types, of_sum(sum), first, second),
        Construct::Product(product) => operated(types, of_product(product), first, second),
        Construct::Comparison(relation) => {
            operated(types, Operator::Compare(relation), first, second)
        }
        _ => statement(None),
    })
}

// The labels of an arm are all its parts but the last.
fn add_labels(labels: &mut Vec<Typed>, typed: &[Typed], parts: &[u32]) -> Result<(), Memory>
    ensures { OnOk result (labels.new.items ≡ labels.old.items ++ map (typed_at typed.now) (but_last parts.now)) }
{
    let mut left = parts;
    while let [label, next, ..] = left {
        labels.push(typed_at(typed, *label))?;
        left = &left[1..];
    }
    Ok(())
}

// The numbers of the parts of the piece of a number.
fn parts_of<'p>(pieces: &'p [Piece], number: u32) -> &'p [u32]
    ensures { result.now ≡ parts_of pieces.now number }
{
    match pieces.get(number as usize) {
        Some(piece) => piece.parts.parts.as_slice(),
        None => &[],
    }
}

// The labels of all arms, in their order.
fn labels_of(
    alloc: Global,
    pieces: &[Piece],
    typed: &[Typed],
    arms: &[u32],
) -> Result<Vec<Typed>, Memory>
    ensures { IfOk result (λ labels. labels.items ≡ map (typed_at typed.now) (labels_of pieces.now arms.now)) }
{
    let mut labels = Vec::new(alloc);
    for arm in arms {
        add_labels(&mut labels, typed, parts_of(pieces, *arm))?;
    }
    Ok(labels)
}

// The first fault of a choice and of the labels of its arms.
fn case_fault(
    alloc: Global,
    types: &[TypeInfo],
    pieces: &[Piece],
    typed: &[Typed],
    numbers: &[u32],
) -> Result<Option<Fault>, Memory>
    ensures { IfOk result (λ fault. fault ≡ case_fault types.now pieces.now typed.now numbers.now) }
{
    let [choice, arms @ ..] = numbers else {
        return Ok(None);
    };
    let choice = typed_at(typed, *choice);
    let fault = wants(types, Allowed::Ordered, Code::Y1, choice);
    if fault.is_some() {
        return Ok(fault);
    }
    match type_of(choice.meaning) {
        Some(t) => {
            let labels = labels_of(alloc, pieces, typed, arms)?;
            labels_fault(alloc, types, t, labels.as_slice())
        }
        None => Ok(None),
    }
}

/// What is said of a piece of a text.
pub fn text_piece(
    alloc: Global,
    known: Known,
    pieces: &[Piece],
    site: Site,
    construct: Construct,
) -> Result<Said, Memory>
    ensures { IfOk result (λ said. (k : WhatIsKnown) → IsKnown k known.entry → said ≡ text_piece k pieces.now site.entry.typed.now (around_of site.entry.around) site.entry.place site.entry.numbers.now site.entry.parts.now (construct_of construct.entry)) }
{
    let types = known.types;
    let first = part(site.typed, site.numbers, 0);
    let second = part(site.typed, site.numbers, 1);
    Ok(match construct {
        Construct::Assignment => statement(assignment_fault(
            types,
            first.place,
            second,
            first.meaning,
        )),
        Construct::Statement(id) => called_statement(
            types,
            known.procedures,
            known.processes,
            id.place,
            name_meaning(known, site.around, id),
            site.parts,
        ),
        Construct::If => statement(conditions_fault(types, site.parts)),
        Construct::While | Construct::When => statement(condition_fault(types, first)),
        Construct::Repeat => statement(condition_fault(types, second)),
        Construct::Case => statement(case_fault(alloc, types, pieces, site.typed, site.numbers)?),
        Construct::Label => Said {
            meaning: first.meaning,
            fault: fixed_fault(first),
        },
        _ => expression_piece(known, site, construct)?,
    })
}
