// No vector stands twice in a program.

ghost use Rattle.std.specs.Prelude.{◌≡◌, OnOk, IfOk};
ghost use Rattle.mc_rules.specs.AnyOf.{IsFirstOf};
ghost use Rattle.mc_rules.specs.Rules.{has_vector, twice_fault, vectors_with};
ghost use Rattle.mc_rules.specs.RuleFaults.{IsTwiceFault};

use crate::declared::unless;
use mc_prog::first::earlier;
use mc_prog::program::ProcessInfo;
use mc_tree::fault::{Code, Fault};
use mc_word::Word;
use mc_word::bytes::Memory;
use std::alloc::Global;

fn has_vector(vectors: &[Word], vector: Word) -> bool
    ensures { result ≡ has_vector vectors.now vector }
{
    for other in vectors {
        if *other == vector {
            return true;
        }
    }
    false
}

// The fault of a process whose vector stands among these, those of the processes in front of it.
fn twice_fault(vectors: &[Word], process: &ProcessInfo) -> Option<Fault>
    ensures { result ≡ twice_fault vectors.now process.now }
{
    match process.vector {
        Some(vector) => unless(!has_vector(vectors, vector), Code::M3, process.vector_at),
        None => None,
    }
}

fn note(vectors: &mut Vec<Word>, vector: Option<Word>) -> Result<(), Memory>
    ensures { OnOk result (vectors.new.items ≡ vectors_with vectors.old.items vector) }
{
    if let Some(vector) = vector {
        vectors.push(vector)?;
    }
    Ok(())
}

/// The first vector that stands a second time.
pub fn vectors_fault(alloc: Global, processes: &[ProcessInfo]) -> Result<Option<Fault>, Memory>
    ensures { IfOk result (λ found. IsFirstOf (IsTwiceFault processes.now) found) }
{
    let mut vectors = Vec::new(alloc);
    let mut first = None;
    for process in processes {
        first = earlier(first, twice_fault(vectors.as_slice(), process));
        note(&mut vectors, process.vector)?;
    }
    Ok(first)
}
