// Words: names and reserved words.

ghost use Rattle.std.specs.Prelude.{◌≡◌, ◌≢◌, ◌<◌, true, length, slice_index, IfOk, MatchOption};
ghost use Rattle.mc_tree.specs.declared.token.Reserved.{Reserved};
ghost use Rattle.mc_tree.specs.Spellings.{is_letter, word_of};
ghost use Rattle.mc_scan.specs.Pieces.{IsTaken};

use crate::bytes::{Class, run_length};
use crate::taken::Taken;
use mc_tree::token::{Kind, Reserved};
use mc_word::bytes::{Memory, Text};
use std::alloc::Global;

const WORDS: [Reserved; 33] = [
    Reserved::AndWord,
    Reserved::ArrayWord,
    Reserved::BeginWord,
    Reserved::CaseWord,
    Reserved::ConstWord,
    Reserved::DefineWord,
    Reserved::DeviceWord,
    Reserved::DivWord,
    Reserved::DoWord,
    Reserved::ElseWord,
    Reserved::ElsifWord,
    Reserved::EndWord,
    Reserved::ExitWord,
    Reserved::IfWord,
    Reserved::InterfaceWord,
    Reserved::LoopWord,
    Reserved::ModWord,
    Reserved::ModuleWord,
    Reserved::NotWord,
    Reserved::OfWord,
    Reserved::OrWord,
    Reserved::ProcedureWord,
    Reserved::ProcessWord,
    Reserved::RecordWord,
    Reserved::RepeatWord,
    Reserved::ThenWord,
    Reserved::TypeWord,
    Reserved::UntilWord,
    Reserved::UseWord,
    Reserved::VarWord,
    Reserved::WhenWord,
    Reserved::WhileWord,
    Reserved::XorWord,
];

fn spelling(word: Reserved) -> &'static [u8]
    ensures { result.now ≡ word_of word }
{
    match word {
        Reserved::AndWord => b"and",
        Reserved::ArrayWord => b"array",
        Reserved::BeginWord => b"begin",
        Reserved::CaseWord => b"case",
        Reserved::ConstWord => b"const",
        Reserved::DefineWord => b"define",
        Reserved::DeviceWord => b"device",
        Reserved::DivWord => b"div",
        Reserved::DoWord => b"do",
        Reserved::ElseWord => b"else",
        Reserved::ElsifWord => b"elsif",
        Reserved::EndWord => b"end",
        Reserved::ExitWord => b"exit",
        Reserved::IfWord => b"if",
        Reserved::InterfaceWord => b"interface",
        Reserved::LoopWord => b"loop",
        Reserved::ModWord => b"mod",
        Reserved::ModuleWord => b"module",
        Reserved::NotWord => b"not",
        Reserved::OfWord => b"of",
        Reserved::OrWord => b"or",
        Reserved::ProcedureWord => b"procedure",
        Reserved::ProcessWord => b"process",
        Reserved::RecordWord => b"record",
        Reserved::RepeatWord => b"repeat",
        Reserved::ThenWord => b"then",
        Reserved::TypeWord => b"type",
        Reserved::UntilWord => b"until",
        Reserved::UseWord => b"use",
        Reserved::VarWord => b"var",
        Reserved::WhenWord => b"when",
        Reserved::WhileWord => b"while",
        Reserved::XorWord => b"xor",
    }
}

/// The reserved word that is spelled so.
fn reserved(bytes: &[u8]) -> Option<Reserved>
    ensures { MatchOption result ((word : Reserved) → bytes.now ≢ word_of word) (λ word. bytes.now ≡ word_of word) }
{
    for word in &WORDS {
        if spelling(*word) == bytes {
            return Some(*word);
        }
    }
    None
}

/// The name or the reserved word at the front.
pub fn word(alloc: Global, rest: &[u8]) -> Result<Taken, Memory>
    requires some { 0 < length rest.now }
    requires letter { is_letter (slice_index rest.now 0) ≡ true }
    ensures { IfOk result (λ taken. IsTaken taken.kind taken.length rest.now) }
{
    let length = run_length(rest, Class::LetterOrDigit);
    let spelling = &rest[..length];
    let kind = match reserved(spelling) {
        Some(word) => Kind::Reserved(word),
        None => Kind::Name(Text::from_slice(alloc, spelling)?),
    };
    Ok(Taken { kind, length })
}
