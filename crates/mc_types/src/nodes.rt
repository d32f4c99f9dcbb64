// The nodes of the texts that run, each behind those of its parts.

ghost use Rattle.std.specs.Prelude.{◌≡◌, ◌++◌, ◌∷◌, [], IfOk, OnOk, length};
ghost use Rattle.mc_prog.specs.Known.{Known as WhatIsKnown, part};
ghost use Rattle.mc_prog.specs.Said.{type_of};
ghost use Rattle.mc_prog.specs.Nodes.{alone_form, answer_type, call_nodes, called_form, constant_form, conversion_form, entity_form, field_number, field_of_type, maybe_node, name_form, name_node, node_type, nodes_of, number_in, one_node, own_form, product_form, relation_form, result_slot, sign_form, slots_by, sum_form};
ghost use Rattle.mc_pieces.specs.Constructs.{around_of, construct_of};
ghost use Rattle.mc_types.specs.Forms.{plain_nodes, whole_form};
ghost use Rattle.mc_types.specs.IsKnown.{IsKnown};

use crate::constants::word_of;
use crate::known::{is_code, is_nowhere, name_meaning};
use crate::lookup::Known;
use crate::parts::part;
use crate::rule::Site;
use crate::said::type_of;
use crate::types::shape_of;
use mc_pieces::piece::{Around, Construct};
use mc_prog::program::{CodeInfo, FieldInfo, Form, Node, Parts, Shape, Standard, TypeInfo};
use mc_prog::typing::{Answer, BOOLEAN, CHAR, Entity, INTEGER, Meaning};
use mc_tree::expression::{Adding, Multiplying, Relation, Sign};
use mc_tree::place::Place;
use mc_tree::tree::Id;
use mc_word::bytes::{Memory, Text};
use std::alloc::Global;

// The slot of a function's result, the last.
fn result_slot(procedures: &[CodeInfo], number: u32) -> Result<u32, Memory>
    ensures { IfOk result (λ n. n ≡ result_slot procedures.now number) }
{
    match procedures.get(number as usize) {
        Some(info) => {
            let last = info.slots.slots.len().saturating_sub(1);
            u32::try_from(last).map_err(|_| Memory)
        }
        None => Ok(0),
    }
}

// What is declared is a node where it is a constant, a variable, or the function around.
fn entity_form(procedures: &[CodeInfo], own: bool, entity: Entity) -> Result<Option<Form>, Memory>
    ensures { IfOk result (λ form. form ≡ entity_form procedures.now own entity) }
{
    Ok(match entity {
        Entity::Constant(_, word) => Some(Form::Constant(word)),
        Entity::Cell(number, _, _, _) => Some(Form::Cell(number)),
        Entity::Slot(number, _, _, _) => Some(Form::Slot(number)),
        Entity::Procedure(callable) if own => {
            Some(Form::Slot(result_slot(procedures, callable.number)?))
        }
        _ => None,
    })
}

// A standard name is a node where it is a constant.
fn constant_form(meaning: Meaning) -> Option<Form>
    ensures { result ≡ constant_form meaning }
{
    match meaning {
        Meaning::Constant(_, word) => Some(Form::Constant(word)),
        _ => None,
    }
}

// A name that is a constant, a variable or the result of the function around; a called name has its node at the call.
fn name_form(
    known: Known,
    procedures: &[CodeInfo],
    around: Around,
    id: &Id,
) -> Result<Option<Form>, Memory>
    ensures { IfOk result (λ form. (k : WhatIsKnown) → IsKnown k known.entry → form ≡ name_form k procedures.now (around_of around) id.now) }
{
    let declared = known.uses.declared_at(id.place);
    if is_nowhere(declared) {
        return Ok(constant_form(name_meaning(known, around, id)));
    }
    let own = is_code(around.code_at, declared);
    entity_form(procedures, own, known.entities.at(declared))
}

// The conversion to a type.
fn conversion_form(t: u32) -> Form
    ensures { result ≡ conversion_form t }
{
    match t {
        INTEGER => Form::Standard(Standard::Integer),
        CHAR => Form::Standard(Standard::Char),
        _ => Form::Standard(Standard::Bits),
    }
}

// A called name.
fn called_form(meaning: Meaning) -> Option<Form>
    ensures { result ≡ called_form meaning }
{
    match meaning {
        Meaning::Procedure(callable) | Meaning::Own(callable) => Some(Form::Procedure(
            callable.number,
        )),
        Meaning::Process(number) => Some(Form::Process(number)),
        Meaning::Standard(standard) => Some(Form::Standard(standard)),
        Meaning::Type(t) => Some(conversion_form(t)),
        _ => None,
    }
}

// The name alone of a function.
fn alone_form(meaning: Meaning) -> Option<Form>
    ensures { result ≡ alone_form meaning }
{
    match meaning {
        Meaning::Procedure(callable) | Meaning::Own(callable) => Some(Form::Procedure(
            callable.number,
        )),
        _ => None,
    }
}

// The type of a result.
fn answer_type(answer: Answer) -> Option<u32>
    ensures { result ≡ answer_type answer }
{
    match answer {
        Answer::Nothing => None,
        Answer::Value(t) => t,
    }
}

// The type of a value or of a variable, that of a result too.
fn node_type(meaning: Meaning) -> Option<u32>
    ensures { result ≡ node_type meaning }
{
    match meaning {
        Meaning::Own(callable) => answer_type(callable.result),
        Meaning::OwnBit => Some(BOOLEAN),
        _ => type_of(meaning),
    }
}

fn sum_form(sum: Adding) -> Form
    ensures { result ≡ sum_form sum }
{
    match sum {
        Adding::Plus => Form::Add,
        Adding::Minus => Form::Subtract,
        Adding::Or => Form::Or,
        Adding::Xor => Form::Xor,
    }
}

fn product_form(product: Multiplying) -> Form
    ensures { result ≡ product_form product }
{
    match product {
        Multiplying::Times => Form::Multiply,
        Multiplying::Div => Form::Divide,
        Multiplying::Mod => Form::Modulo,
        Multiplying::And => Form::And,
    }
}

fn relation_form(relation: Relation) -> Form
    ensures { result ≡ relation_form relation }
{
    match relation {
        Relation::Equal => Form::Equal,
        Relation::Unequal => Form::Unequal,
        Relation::Less => Form::Less,
        Relation::LessEqual => Form::LessEqual,
        Relation::Greater => Form::Greater,
        Relation::GreaterEqual => Form::GreaterEqual,
    }
}

fn sign_form(sign: Sign) -> Form
    ensures { result ≡ sign_form sign }
{
    match sign {
        Sign::Plus => Form::Plus,
        Sign::Minus => Form::Minus,
    }
}

// The number of a field in its record.
fn field_number(fields: &[FieldInfo], name: &[u8]) -> Result<u32, Memory>
    ensures { IfOk result (λ n. n ≡ field_number 0 fields.now name.now) }
{
    let mut number: u32 = 0;
    for field in fields {
        if field.name.as_slice() == name {
            return Ok(number);
        }
        number = number.checked_add(1).ok_or(Memory)?;
    }
    Ok(number)
}

// The number of a field of a value of a type; 0 where the type is no record.
fn field_of_type(types: &[TypeInfo], type_of: Option<u32>, name: &[u8]) -> Result<u32, Memory>
    ensures { IfOk result (λ n. n ≡ field_of_type types.now type_of name.now) }
{
    let Some(t) = type_of else {
        return Ok(0);
    };
    match shape_of(types, t) {
        Some(Shape::Record(fields)) => field_number(fields.fields.as_slice(), name),
        _ => Ok(0),
    }
}

// A name without a type: what is called, or a field.
fn name_node(alloc: Global, place: Place, form: Form) -> Node
    ensures { result ≡ name_node place form }
{
    Node {
        place,
        type_of: None,
        form,
        parts: Parts {
            parts: Vec::new(alloc),
        },
    }
}

// One more node, whose type is that of what is said.
fn add_node(
    nodes: &mut Vec<Node>,
    place: Place,
    meaning: Meaning,
    parts: Vec<u32>,
    form: Form,
) -> Result<(), Memory>
    ensures { OnOk result (nodes.new.items ≡ nodes.old.items ++ one_node place meaning parts.items form) }
{
    nodes.push(Node {
        place,
        type_of: node_type(meaning),
        form,
        parts: Parts { parts },
    })?;
    Ok(())
}

// No node, or this one.
fn add_maybe(
    nodes: &mut Vec<Node>,
    place: Place,
    meaning: Meaning,
    parts: Vec<u32>,
    form: Option<Form>,
) -> Result<(), Memory>
    ensures { OnOk result (nodes.new.items ≡ nodes.old.items ++ maybe_node place meaning parts.items form) }
{
    let Some(form) = form else {
        return Ok(());
    };
    add_node(nodes, place, meaning, parts, form)
}

// The called name, and the call behind it, whose first part it is.
fn add_call(
    alloc: Global,
    nodes: &mut Vec<Node>,
    site: Site,
    meaning: Meaning,
    parts: &[u32],
    form: Form,
    called: Option<Form>,
) -> Result<(), Memory>
    ensures { OnOk result (nodes.new.items ≡ nodes.old.items ++ call_nodes (length nodes.old.items) site.entry.place meaning parts.now form called) }
{
    let Some(called) = called else {
        return Ok(());
    };
    let next = u32::try_from(nodes.len()).map_err(|_| Memory)?;
    nodes.push(name_node(alloc, site.place, called))?;
    let mut all = Vec::new(alloc);
    all.push(next)?;
    all.extend_from_slice(parts)?;
    add_node(nodes, site.place, meaning, all, form)
}

// The name of a field, and its selection behind it, whose last part it is.
fn add_select(
    alloc: Global,
    types: &[TypeInfo],
    nodes: &mut Vec<Node>,
    site: Site,
    meaning: Meaning,
    parts: &[u32],
    id: &Id,
) -> Result<(), Memory>
    ensures { OnOk result (nodes.new.items ≡ nodes.old.items ++ (name_node id.now.place (Form.Field (field_of_type types.now (type_of (part site.entry.typed.now site.entry.numbers.now 0).meaning) id.now.text)) ∷ one_node site.entry.place meaning (parts.now ++ (length nodes.old.items ∷ [])) Form.Select)) }
{
    let base = part(site.typed, site.numbers, 0);
    let field = field_of_type(types, type_of(base.meaning), id.text.as_slice())?;
    let next = u32::try_from(nodes.len()).map_err(|_| Memory)?;
    nodes.push(name_node(alloc, id.place, Form::Field(field)))?;
    let mut all = Vec::from_slice(alloc, parts)?;
    all.push(next)?;
    add_node(nodes, site.place, meaning, all, Form::Select)
}

// The form of a node that has the parts of its piece; none for what has another node or none.
fn whole_form(construct: Construct) -> Option<Form>
    ensures { result ≡ whole_form construct.entry }
{
    Some(match construct {
        Construct::Index => Form::Index,
        Construct::Group => Form::Parenthesis,
        Construct::Negation => Form::Not,
        Construct::Signed(sign) => sign_form(sign),
        Construct::Sum(sum) => sum_form(sum),
        Construct::Product(product) => product_form(product),
        Construct::Comparison(relation) => relation_form(relation),
        Construct::Assignment => Form::Assign,
        Construct::If => Form::If,
        Construct::While => Form::While,
        Construct::Repeat => Form::Repeat,
        Construct::Loop => Form::Loop,
        Construct::When => Form::When,
        Construct::Case => Form::Case,
        Construct::Arm => Form::Arm,
        Construct::Body => Form::Body,
        _ => return None,
    })
}

// Adds the nodes of a piece that stands for no name.
fn add_plain(
    alloc: Global,
    nodes: &mut Vec<Node>,
    place: Place,
    meaning: Meaning,
    parts: &[u32],
    construct: Construct,
) -> Result<(), Memory>
    ensures { OnOk result (nodes.new.items ≡ nodes.old.items ++ plain_nodes place meaning parts.now construct.entry) }
{
    let form = match construct {
        Construct::Number(word) => Form::Constant(word),
        Construct::Character(byte) => Form::Constant(u16::from(byte)),
        Construct::Text(text) => Form::Literal(Text::from_slice(alloc, text.as_slice())?),
        Construct::Bits | Construct::Label => Form::Constant(word_of(meaning)),
        _ => {
            let parts = Vec::from_slice(alloc, parts)?;
            return add_maybe(nodes, place, meaning, parts, whole_form(construct));
        }
    };
    add_node(nodes, place, meaning, Vec::new(alloc), form)
}

/// Adds the nodes of a piece, of which this is said; its parts stand for the nodes of these numbers.
pub fn add_nodes(
    alloc: Global,
    known: Known,
    procedures: &[CodeInfo],
    site: Site,
    meaning: Meaning,
    parts: &[u32],
    construct: Construct,
    nodes: &mut Vec<Node>,
) -> Result<(), Memory>
    ensures { OnOk result ((k : WhatIsKnown) → IsKnown k known.entry → nodes.new.items ≡ nodes.old.items ++ nodes_of k procedures.now (around_of site.entry.around) site.entry.place meaning site.entry.typed.now site.entry.numbers.now (length nodes.old.items) parts.now (construct_of construct.entry)) }
{
    match construct {
        Construct::Name(id) => {
            let form = name_form(known, procedures, site.around, id)?;
            add_maybe(nodes, site.place, meaning, Vec::new(alloc), form)
        }
        Construct::Select(id) => add_select(alloc, known.types, nodes, site, meaning, parts, id),
        Construct::Designated => {
            let called = alone_form(part(site.typed, site.numbers, 0).meaning);
            add_call(alloc, nodes, site, meaning, &[], Form::CallValue, called)
        }
        Construct::Calling(id) => {
            let called = called_form(name_meaning(known, site.around, id));
            add_call(alloc, nodes, site, meaning, parts, Form::CallValue, called)
        }
        Construct::Statement(id) => {
            let called = called_form(name_meaning(known, site.around, id));
            add_call(
                alloc,
                nodes,
                site,
                meaning,
                parts,
                Form::CallStatement,
                called,
            )
        }
        _ => add_plain(alloc, nodes, site.place, meaning, parts, construct),
    }
}
