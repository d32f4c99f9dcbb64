// All texts that run, and their first fault.

ghost use Rattle.std.specs.Prelude.{IfOk};
ghost use Rattle.mc_prog.specs.Known.{Known as WhatIsKnown};
ghost use Rattle.mc_types.specs.IsKnown.{IsKnown};
ghost use Rattle.mc_types.specs.Runs.{AreTextsOf};

use crate::first::first_of;
use crate::lookup::Known;
use crate::texts::Texts;
use mc_pieces::piece::Piece;
use mc_prog::program::CodeInfo;
use mc_tree::fault::Fault;
use mc_word::bytes::Memory;
use std::alloc::Global;

/// All texts that run, and their first fault.
#[derive(Drop)]
pub struct Running {
    pub texts: Texts,
    pub fault: Option<Fault>,
}

/// Goes through the pieces of all texts.
pub fn all_texts(
    alloc: Global,
    known: Known,
    procedures: &[CodeInfo],
    pieces: &[Piece],
) -> Result<Running, Memory>
    ensures { IfOk result (λ r. (k : WhatIsKnown) → IsKnown k known.entry → AreTextsOf k procedures.now pieces.now pieces.now r.texts r.fault) }
{
    let mut texts = Texts::new(alloc);
    let mut fault = None;
    for piece in pieces {
        let own = texts.step(known, procedures, pieces, piece)?;
        fault = first_of(fault, own);
    }
    Ok(Running { texts, fault })
}
