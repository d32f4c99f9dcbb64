// What every walk through the tree shares: the pieces so far, and the parts so far of what is being put together.

ghost use Rattle.std.specs.Prelude.{◌≡◌, length, OnOk, IfOk, Some};
ghost use Rattle.mc_prog.specs.Pieces.{apart, closed, gathered_in, leaf};
ghost use Rattle.mc_prog.specs.TreePieces.{name_of};
ghost use Rattle.mc_pieces.specs.Constructs.{around_of, construct_of};
ghost use Rattle.mc_pieces.specs.Walks.{behind, emptied, in_code_at, in_module_at, placed, with_parts};

use crate::piece::{Around, Construct, Piece};
use mc_prog::program::Parts;
use mc_tree::place::Place;
use mc_tree::tree::Tree;
use mc_word::bytes::Memory;
use std::alloc::Global;
use std::marker::Model;
use std::mem;

/// What a walk has gathered so far.
#[derive(Drop)]
pub struct Walk<'a> {
    alloc: Global,
    pieces: Vec<Piece<'a>>,
    around: Around,
    /// The numbers of the parts so far of what is being put together.
    parts: Vec<u32>,
}

impl<'a> Model for Walk<'a> {
    ghost use Rattle.mc_prog.specs.Pieces.{Gathered};

    ghost Value = { Gathered };

    ghost use Rattle.mc_pieces.specs.Constructs.{around_of};

    ghost view = { λ w. record { pieces = w.pieces.items; around = around_of w.around; parts = w.parts.items } };
}

/// Where a walk stands, and with which parts.
#[derive(Drop)]
pub struct SoFar {
    pub around: Around,
    pub parts: Vec<u32>,
}

// Where the name of the program stands.
fn program_at(tree: &Tree) -> Place
    ensures { result ≡ (name_of tree.now).place }
{
    match tree {
        Tree::Plain(inner) => inner.name.place,
        Tree::Device(inner) => inner.name.place,
    }
}

impl<'a> Walk<'a> {
    /// Nothing is gathered yet, in the module that is the program.
    pub fn new(alloc: Global, tree: &Tree) -> Walk<'a>
        ensures { result ≡ gathered_in (name_of tree.now).place }
    {
        Walk {
            alloc,
            pieces: Vec::new(alloc),
            around: Around {
                module_at: program_at(tree),
                code_at: None,
            },
            parts: Vec::new(alloc),
        }
    }

    /// The pieces.
    pub fn into_pieces(self) -> Vec<Piece<'a>>
        ensures { result.items ≡ self.entry.pieces }
    {
        let Walk { pieces, .. } = self;
        pieces
    }

    // The number of the next piece.
    fn number(&self) -> Result<u32, Memory>
        ensures { IfOk result (λ number. number ≡ length self.now.pieces) }
    {
        u32::try_from(self.pieces.len()).map_err(|_| Memory)
    }

    /// Begins what has parts of its own, and hands out the parts so far of what is around it.
    pub fn begin(&mut self) -> Vec<u32>
        ensures outer { result.items ≡ self.old.parts }
        ensures emptied { self.new ≡ emptied self.old }
    {
        mem::replace(&mut self.parts, Vec::new(self.alloc))
    }

    /// The parts so far stand behind those of what is around them.
    pub fn end(&mut self, outer: Vec<u32>) -> Result<(), Memory>
        ensures { OnOk result (self.new ≡ behind outer.items self.old) }
    {
        let mut inside = mem::replace(&mut self.parts, outer);
        self.parts.append(&mut inside)?;
        Ok(())
    }

    /// The parts so far are done with.
    pub fn resume(&mut self, outer: Vec<u32>)
        ensures { self.new ≡ with_parts outer.items self.old }
    {
        self.parts = outer;
    }

    /// A piece of the parts so far, which is no part of what is around it.
    pub fn apart(
        &mut self,
        outer: Vec<u32>,
        front: Option<Place>,
        construct: Construct<'a>,
    ) -> Result<(), Memory>
        ensures { OnOk result (self.new ≡ with_parts outer.items (closed front (construct_of construct.entry) self.old)) }
    {
        let inside = mem::replace(&mut self.parts, outer);
        self.pieces.push(Piece {
            front,
            construct,
            parts: Parts { parts: inside },
            around: self.around,
        })?;
        Ok(())
    }

    /// A piece of the parts so far, which is a part of what is around it.
    pub fn node(
        &mut self,
        outer: Vec<u32>,
        front: Option<Place>,
        construct: Construct<'a>,
    ) -> Result<(), Memory>
        ensures { OnOk result (self.new ≡ behind outer.items (closed front (construct_of construct.entry) self.old)) }
    {
        let number = self.number()?;
        self.apart(outer, front, construct)?;
        self.parts.push(number)?;
        Ok(())
    }

    /// The parts so far become those of one piece, which stands in their place.
    pub fn close(&mut self, front: Option<Place>, construct: Construct<'a>) -> Result<(), Memory>
        ensures { OnOk result (self.new ≡ closed front (construct_of construct.entry) self.old) }
    {
        let outer = Vec::new(self.alloc);
        self.node(outer, front, construct)
    }

    /// A piece without parts.
    pub fn leaf(&mut self, place: Place, construct: Construct<'a>) -> Result<(), Memory>
        ensures { OnOk result (self.new ≡ leaf place (construct_of construct.entry) self.old) }
    {
        let outer = self.begin();
        self.node(outer, Some(place), construct)
    }

    /// A piece without parts, which is no part of what is around it.
    pub fn alone(&mut self, place: Place, construct: Construct<'a>) -> Result<(), Memory>
        ensures { OnOk result (self.new ≡ apart (leaf place (construct_of construct.entry)) self.old) }
    {
        let outer = self.begin();
        self.apart(outer, Some(place), construct)
    }

    /// What stands so far, which stays for what comes behind a piece that has the parts so far too.
    pub fn so_far(&self) -> Result<SoFar, Memory>
        ensures parts { IfOk result (λ so_far. so_far.parts.items ≡ self.now.parts) }
        ensures around { IfOk result (λ so_far. around_of so_far.around ≡ self.now.around) }
    {
        let parts = Vec::from_slice(self.alloc, self.parts.as_slice())?;
        Ok(SoFar {
            around: self.around,
            parts,
        })
    }

    /// A piece of the parts so far, which stands beside what stood before.
    pub fn beside(
        &mut self,
        so_far: SoFar,
        place: Place,
        construct: Construct<'a>,
    ) -> Result<(), Memory>
        ensures { OnOk result (self.new ≡ placed (around_of so_far.around) (with_parts so_far.parts.items (closed (Some place) (construct_of construct.entry) self.old))) }
    {
        let SoFar { around, parts } = so_far;
        self.apart(parts, Some(place), construct)?;
        self.around = around;
        Ok(())
    }

    // From here on pieces stand there. Hands out where they stood before.
    fn enter(&mut self, around: Around) -> Around
        ensures outer { around_of result ≡ self.old.around }
        ensures inner { self.new ≡ placed (around_of around) self.old }
    {
        mem::replace(&mut self.around, around)
    }

    /// Enters the block of a module.
    pub fn enter_module(&mut self, place: Place) -> Around
        ensures outer { around_of result ≡ self.old.around }
        ensures inner { self.new ≡ placed (in_module_at place) self.old }
    {
        self.enter(Around {
            module_at: place,
            code_at: None,
        })
    }

    /// Enters a procedure or a process.
    pub fn enter_code(&mut self, place: Place) -> Around
        ensures outer { around_of result ≡ self.old.around }
        ensures inner { self.new ≡ placed (in_code_at place self.old.around) self.old }
    {
        let module_at = self.around.module_at;
        self.enter(Around {
            module_at,
            code_at: Some(place),
        })
    }

    /// Leaves what was entered, for where pieces stood before.
    pub fn leave(&mut self, around: Around)
        ensures { self.new ≡ placed (around_of around) self.old }
    {
        self.around = around;
    }
}
