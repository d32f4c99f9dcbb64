// The parser: the tree of a program's tokens, or the place of its first fault.
#![tactic(auto)]

mod block;
mod declaration;
mod expression;
mod fault;
mod frame;
mod module;
mod procedure;
mod reader;
mod statement;
mod types;

ghost use Rattle.std.specs.Prelude.{◌≡◌, ◌⊎◌, IfOk, IfErr, MatchResult};
ghost use Rattle.mc_tree.specs.declared.tree.Tree.{Tree};
ghost use Rattle.mc_tree.specs.Programs.{IsTreeOf};
ghost use Rattle.mc_parse.specs.Answers.{IsAnswered};
ghost use Rattle.mc_parse.specs.Verdicts.{IsFault};
ghost use Rattle.mc_parse.specs.declared.fault.ParseFault.{ParseFault};
ghost use Rattle.mc_parse.specs.declared.fault.ParseFault.TheVariants.{Memory};

use crate::reader::Reader;
pub use fault::ParseFault;
use mc_tree::place::Place;
use mc_tree::token::Token;
use mc_tree::tree::Tree;
use std::alloc::Global;

/// The tree of the tokens, whose end has the place `end`, where its nodes are at most 64 deep.
///
/// # Errors
///
/// `Unexpected` has the place of the first token such that the tokens up to it begin no program, or `end` where
/// all tokens begin a program and are none. `TooDeep` has the place of the first token that begins a node deeper
/// than 64 where the tokens up to it begin a program; it comes first.
pub fn parse(alloc: Global, tokens: &[Token], end: Place) -> Result<Tree, ParseFault>
    ensures ok { IfOk result (λ tree. IsTreeOf tree tokens.now) }
    ensures refused { IfErr result (λ fault. IsAnswered end tokens.now fault) }
    ensures accepts { (tree : Tree) → IsTreeOf tree tokens.now → MatchResult result (λ found. found ≡ tree) (λ fault. fault ≡ Memory) }
    ensures refuses { (wrong : ParseFault) → IsFault end tokens.now wrong → MatchResult result (λ found. ⊥) (λ fault. (fault ≡ Memory) ⊎ (fault ≡ wrong)) }
{
    parse_program(alloc, tokens, end)
}

// The program of the tokens, with nothing behind it.
fn parse_program(alloc: Global, tokens: &[Token], end: Place) -> Result<Tree, ParseFault>
    ensures ok { IfOk result (λ tree. IsTreeOf tree tokens.now) }
    ensures refused { IfErr result (λ fault. IsAnswered end tokens.now fault) }
{
    let reader = Reader { alloc, end };
    let program = reader.program(tokens, 0)?;
    match program.rest.split_first() {
        Some((token, _)) => Err(ParseFault::Unexpected(token.place)),
        None => Ok(program.item),
    }
}
