// The image of a source.

ghost use Rattle.std.specs.Prelude.{◌≡◌, ◌*◌, ◌≤◌, IfOk, IfErr, length};
ghost use Rattle.mc_tree.specs.Trees.{tokens_of};
ghost use Rattle.mc_straight.specs.Form.{Straight, IsStraight};
ghost use Rattle.mc_prog.specs.Resolved.{Resolved};
ghost use Rattle.mc_compile.specs.Accepted.{IsAcceptedTree, IsNotCompiled, IsNotCompiledTree, Refuses};
ghost use Rattle.mc_compile.specs.Code.{IsImageOf};
ghost use Rattle.mc_compile.specs.Tracks.{CompiledFrom};

use crate::accept::accept_tree;
use crate::emit::{code, image};
use crate::front::{Parsed, parse_source};
use crate::refusal::Refusal;
use mc_image::image::Image;
use mc_straight::read::straight_line;
use mc_tree::tree::Tree;
use mc_word::word::Settings;
use std::alloc::Global;

/// Compiles a source under settings.
///
/// # Errors
///
/// `Source` has the first fault of the first stage that finds one, `TooLarge` comes where none does and the program takes
/// more than 20,000 words, `NotYet` where the source is accepted and is no straight-line device module, and `Memory`.
pub fn compile(alloc: Global, source: &[u8], settings: Settings) -> Result<Image, Refusal>
    requires { length source.now ≤ 262144 }
    ensures ok { IfOk result (λ i. CompiledFrom source.now settings.workspace_words settings.processes i) }
    ensures refused { IfErr result (λ refusal. IsNotCompiled source.now refusal) }
{
    match parse_source(alloc, source) {
        Ok(parsed) => compile_tree(alloc, &parsed),
        Err(refusal) => Err(refusal),
    }
}

// The image of an accepted tree.
fn compile_tree(alloc: Global, parsed: &Parsed) -> Result<Image, Refusal>
    requires { parsed.now.tokens ≡ length (tokens_of parsed.now.tree) }
    ensures ok { IfOk result (λ i. IsImageOf parsed.now.tree i) }
    ensures accepted { IfOk result (λ i. (program : Resolved) × IsAcceptedTree parsed.now.tree parsed.now.tokens program) }
    ensures refused { IfErr result (λ refusal. IsNotCompiledTree parsed.now.tree parsed.now.tokens refusal) }
{
    match accept_tree(alloc, &parsed.tree, parsed.tokens) {
        Ok(_) => straight_image(alloc, &parsed.tree),
        Err(refusal) => Err(refusal),
    }
}

// The image of a tree of the straight-line form.
fn straight_image(alloc: Global, tree: &Tree) -> Result<Image, Refusal>
    requires { 12 * length (tokens_of tree.now) ≤ 20000 }
    ensures ok { IfOk result (λ i. IsImageOf tree.now i) }
    ensures refused { IfErr result (λ refusal. Refuses (λ fault. ⊥) ⊥ ((form : Straight) → IsStraight tree.now form → ⊥) refusal) }
{
    let Some(form) = straight_line(alloc, tree)? else {
        return Err(Refusal::NotYet);
    };
    let words = code(alloc, &form)?;
    Ok(image(alloc, words.as_slice())?)
}
