// The texts that run, piece by piece: what is known of each piece, its nodes, and the text that ends with it.

ghost use Rattle.std.specs.Prelude.{◌≡◌, ◌++◌, ◌+◌, ℕ, List, IfOk, OnOk, length, map};
ghost use Rattle.mc_prog.specs.declared.program.Node.{Node};
ghost use Rattle.mc_prog.specs.Known.{Known as WhatIsKnown, part};
ghost use Rattle.mc_prog.specs.Nodes.{nodes_of};
ghost use Rattle.mc_prog.specs.PieceTypes.{text_piece};
ghost use Rattle.mc_prog.specs.DeclarationTypes.{parts_of_piece, place_of_piece, typed_by};
ghost use Rattle.mc_prog.specs.Resolved.{no_texts, node_at, node_number, text_by, text_fault, text_said, texts_behind, texts_by};
ghost use Rattle.mc_pieces.specs.Constructs.{around_of, construct_of};
ghost use Rattle.mc_types.specs.IsKnown.{IsKnown};

use crate::lookup::Known;
use crate::nodes::add_nodes;
use crate::parts::{part, typed_at, typed_of};
use crate::rule::{Site, text_piece};
use crate::typing::{place_of, typed_by};
use mc_pieces::piece::{Around, Construct, Piece};
use mc_prog::program::{CodeInfo, Node};
use mc_prog::typing::Typed;
use mc_tree::fault::Fault;
use mc_tree::place::Place;
use mc_word::bytes::Memory;
use std::alloc::Global;
use std::marker::Model;

/// A text that runs: the name under which it does, the node of its body, and what its frame takes from it.
#[derive(Clone, Copy)]
pub struct Text {
    pub at: Place,
    /// Whether it is the body of a module.
    pub is_body: bool,
    pub body: u32,
    pub nest: u32,
    pub arguments: u32,
}

impl Model for Text {
    ghost use Rattle.mc_prog.specs.Resolved.{Text as RunningText};

    ghost Value = { RunningText };

    ghost view = { λ t. record { at = t.at; is_body = t.is_body; body = t.body; nest = t.nest; arguments = t.arguments } };

    ghost inverse = { λ t. record { at = t.at; is_body = t.is_body; body = t.body; nest = t.nest; arguments = t.arguments } };
}

/// What is known of the texts so far.
#[derive(Drop)]
pub struct Texts {
    alloc: Global,
    typed: Vec<Typed>,
    nodes: Vec<Node>,
    texts: Vec<Text>,
}

impl Model for Texts {
    ghost use Rattle.mc_prog.specs.Resolved.{Texts as WhatRuns};

    ghost Value = { WhatRuns };

    ghost view = { λ t. record { typed = t.typed.items; nodes = t.nodes.items; texts = t.texts.items } };
}

/// The nodes and the texts of a program.
#[derive(Drop)]
pub struct TextsParts {
    pub nodes: Vec<Node>,
    pub texts: Vec<Text>,
}

// The numbers of the nodes that pieces stand for.
fn nodes_at(alloc: Global, typed: &[Typed], numbers: &[u32]) -> Result<Vec<u32>, Memory>
    ensures { IfOk result (λ nodes. nodes.items ≡ map (node_at typed.now) numbers.now) }
{
    let mut nodes = Vec::new(alloc);
    for number in numbers {
        nodes.push(typed_at(typed, *number).node)?;
    }
    Ok(nodes)
}

// The number of the node that a piece stands for: the last of those that it adds, or that of its first part.
fn node_number(before: usize, now: usize, first: u32) -> Result<u32, Memory>
    ensures { IfOk result (λ n. (added : List Node) → now ≡ before + length added → n ≡ node_number before first added) }
{
    if now > before {
        return u32::try_from(now - 1).map_err(|_| Memory);
    }
    Ok(first)
}

// The text of this body.
fn text_by(around: Around, body: Typed) -> Text
    ensures { result ≡ text_by around.module_at around.code_at body }
{
    Text {
        at: around.code_at.unwrap_or(around.module_at),
        is_body: around.code_at.is_none(),
        body: body.node,
        nest: body.nest,
        arguments: body.arguments,
    }
}

// Adds the text that ends with a piece.
fn add_text(
    texts: &mut Vec<Text>,
    around: Around,
    body: Typed,
    construct: Construct,
) -> Result<(), Memory>
    ensures { OnOk result (texts.new.items ≡ texts.old.items ++ texts_by (around_of around) body (construct_of construct.entry)) }
{
    match construct {
        Construct::Running => {
            texts.push(text_by(around, body))?;
            Ok(())
        }
        _ => Ok(()),
    }
}

impl Texts {
    /// Before any text.
    pub fn new(alloc: Global) -> Texts
        ensures { result ≡ no_texts }
    {
        Texts {
            alloc,
            typed: Vec::new(alloc),
            nodes: Vec::new(alloc),
            texts: Vec::new(alloc),
        }
    }

    /// Adds a piece, behind its parts, and gives its fault.
    pub fn step(
        &mut self,
        known: Known,
        procedures: &[CodeInfo],
        pieces: &[Piece],
        piece: &Piece,
    ) -> Result<Option<Fault>, Memory>
        ensures new { OnOk result ((k : WhatIsKnown) → IsKnown k known.entry → self.new ≡ texts_behind k procedures.now pieces.now self.old piece.now) }
        ensures fault { IfOk result (λ fault. (k : WhatIsKnown) → IsKnown k known.entry → fault ≡ text_fault k pieces.now self.old piece.now) }
    {
        let (around, construct) = (piece.around(), piece.construct());
        let numbers = piece.numbers();
        let typed = self.typed.as_slice();
        let parts = typed_of(self.alloc, typed, numbers)?;
        let site = Site {
            around,
            place: place_of(typed, piece),
            typed,
            numbers,
            parts: parts.as_slice(),
        };
        let said = text_piece(self.alloc, known, pieces, site, construct)?;
        let first = part(typed, numbers, 0);
        let of_parts = nodes_at(self.alloc, typed, numbers)?;
        let before = self.nodes.len();
        add_nodes(
            self.alloc,
            known,
            procedures,
            site,
            said.meaning,
            of_parts.as_slice(),
            construct,
            &mut self.nodes,
        )?;
        let node = node_number(before, self.nodes.len(), first.node)?;
        let next = typed_by(
            known,
            parts.as_slice(),
            site.place,
            around,
            construct,
            node,
            said,
        )?;
        add_text(&mut self.texts, around, first, construct)?;
        self.typed.push(next)?;
        Ok(said.fault)
    }

    /// The nodes and the texts, which keep their memory.
    pub fn into_parts(self) -> TextsParts
        ensures nodes { result.nodes.items ≡ self.nodes }
        ensures texts { result.texts.items ≡ self.texts }
    {
        let Texts { nodes, texts, .. } = self;
        TextsParts { nodes, texts }
    }
}
