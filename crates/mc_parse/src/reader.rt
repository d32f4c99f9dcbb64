// Reading single tokens.

ghost use Rattle.std.specs.Prelude.{◌≡◌, ◌+◌, ◌≤◌, ◌≢◌, ◌<◌, length, IfOk, IfErr};
ghost use Rattle.std.specs.Bool.{OnTrue, OnFalse};
ghost use Rattle.mc_tree.specs.Classes.{Class, SymbolClass, ReservedClass, NameClass, class_of, data_of};
ghost use Rattle.mc_parse.specs.Heads.{HasFirst, HasOther, IsFirst, place_of};
ghost use Rattle.mc_parse.specs.Reads.{IsTaken, IsMissed};
ghost use Rattle.mc_parse.specs.declared.fault.ParseFault.TheVariants.{Unexpected, TooDeep};

use crate::fault::ParseFault;
use mc_tree::place::Place;
use mc_tree::token::{Kind, Reserved, Symbol, Token};
use mc_tree::tree::Id;
use mc_word::bytes::Text;
use std::alloc::Global;

/// How deep nodes may be.
pub const GREATEST_DEPTH: u32 = 64;

/// What is read at the front of tokens, and the tokens behind it.
#[derive(Drop)]
pub struct Read<'a, T> {
    pub item: T,
    pub rest: &'a [Token],
}

/// What every reader needs: where memory comes from, and the place behind the last token.
#[derive(Clone, Copy)]
pub struct Reader {
    pub alloc: Global,
    pub end: Place,
}

// Whether a token is this symbol.
fn is_symbol(kind: &Kind, symbol: Symbol) -> bool
    ensures yes { OnTrue result (class_of kind.now ≡ SymbolClass symbol) }
    ensures no { OnFalse result (class_of kind.now ≢ SymbolClass symbol) }
{
    match kind {
        Kind::Symbol(found) => *found == symbol,
        _ => false,
    }
}

// Whether a token is this reserved word.
fn is_word(kind: &Kind, word: Reserved) -> bool
    ensures yes { OnTrue result (class_of kind.now ≡ ReservedClass word) }
    ensures no { OnFalse result (class_of kind.now ≢ ReservedClass word) }
{
    match kind {
        Kind::Reserved(found) => *found == word,
        _ => false,
    }
}

// Whether a token is a name.
fn is_name(kind: &Kind) -> bool
    ensures yes { OnTrue result (class_of kind.now ≡ NameClass) }
    ensures no { OnFalse result (class_of kind.now ≢ NameClass) }
{
    matches!(kind, Kind::Name(_))
}

/// Whether this symbol stands at the front.
pub fn sees_symbol(rest: &[Token], symbol: Symbol) -> bool
    ensures yes { OnTrue result (HasFirst (SymbolClass symbol) rest.now) }
    ensures no { OnFalse result (HasOther (SymbolClass symbol) rest.now) }
{
    match rest.split_first() {
        Some((token, _)) => is_symbol(&token.kind, symbol),
        None => false,
    }
}

/// Whether this reserved word stands at the front.
pub fn sees_word(rest: &[Token], word: Reserved) -> bool
    ensures yes { OnTrue result (HasFirst (ReservedClass word) rest.now) }
    ensures no { OnFalse result (HasOther (ReservedClass word) rest.now) }
{
    match rest.split_first() {
        Some((token, _)) => is_word(&token.kind, word),
        None => false,
    }
}

/// Whether a name stands at the front.
pub fn sees_name(rest: &[Token]) -> bool
    ensures yes { OnTrue result (HasFirst NameClass rest.now) }
    ensures no { OnFalse result (HasOther NameClass rest.now) }
{
    match rest.split_first() {
        Some((token, _)) => is_name(&token.kind),
        None => false,
    }
}

impl Reader {
    /// The fault of a first token that is not expected, or of an end that is not.
    pub fn unexpected(self, rest: &[Token]) -> ParseFault
        ensures { result ≡ Unexpected (place_of self.end rest.now) }
    {
        match rest.first() {
            Some(token) => ParseFault::Unexpected(token.place),
            None => ParseFault::Unexpected(self.end),
        }
    }

    /// The place of the first token, or else of the end.
    pub fn place(self, rest: &[Token]) -> Place
        ensures { result ≡ place_of self.end rest.now }
    {
        match rest.first() {
            Some(token) => token.place,
            None => self.end,
        }
    }

    /// Any token.
    pub fn token<'a>(self, rest: &'a [Token]) -> Result<Read<'a, Place>, ParseFault>
        ensures ok { IfOk result (λ r. (kind : Kind) → IsFirst kind rest.now → IsTaken self.end (class_of kind) rest.now (data_of kind) r.item r.rest.now) }
        ensures shorter { IfOk result (λ r. length r.rest.now < length rest.now) }
        ensures refused { IfErr result (λ fault. (class : Class) → IsMissed self.end class rest.now fault) }
    {
        let Some((token, others)) = rest.split_first() else {
            return Err(self.unexpected(rest));
        };
        Ok(Read {
            item: token.place,
            rest: others,
        })
    }

    /// A symbol.
    pub fn mark<'a>(self, rest: &'a [Token], symbol: Symbol) -> Result<Read<'a, Place>, ParseFault>
        ensures ok { IfOk result (λ r. IsTaken self.end (SymbolClass symbol) rest.now tt r.item r.rest.now) }
        ensures shorter { IfOk result (λ r. length r.rest.now < length rest.now) }
        ensures refused { IfErr result (λ fault. IsMissed self.end (SymbolClass symbol) rest.now fault) }
    {
        if !sees_symbol(rest, symbol) {
            return Err(self.unexpected(rest));
        }
        let Some((token, others)) = rest.split_first() else {
            return Err(self.unexpected(rest));
        };
        Ok(Read {
            item: token.place,
            rest: others,
        })
    }

    /// A reserved word.
    pub fn word<'a>(self, rest: &'a [Token], word: Reserved) -> Result<Read<'a, Place>, ParseFault>
        ensures ok { IfOk result (λ r. IsTaken self.end (ReservedClass word) rest.now tt r.item r.rest.now) }
        ensures shorter { IfOk result (λ r. length r.rest.now < length rest.now) }
        ensures refused { IfErr result (λ fault. IsMissed self.end (ReservedClass word) rest.now fault) }
    {
        if !sees_word(rest, word) {
            return Err(self.unexpected(rest));
        }
        let Some((token, others)) = rest.split_first() else {
            return Err(self.unexpected(rest));
        };
        Ok(Read {
            item: token.place,
            rest: others,
        })
    }

    /// A name.
    pub fn name<'a>(self, rest: &'a [Token]) -> Result<Read<'a, Id>, ParseFault>
        ensures ok { IfOk result (λ r. IsTaken self.end NameClass rest.now r.item.text r.item.place r.rest.now) }
        ensures shorter { IfOk result (λ r. length r.rest.now < length rest.now) }
        ensures refused { IfErr result (λ fault. IsMissed self.end NameClass rest.now fault) }
    {
        let Some((token, others)) = rest.split_first() else {
            return Err(self.unexpected(rest));
        };
        let Kind::Name(text) = &token.kind else {
            return Err(ParseFault::Unexpected(token.place));
        };
        Ok(Read {
            item: Id {
                text: Text::from_slice(self.alloc, text.as_slice())?,
                place: token.place,
            },
            rest: others,
        })
    }
}

/// The depth of a node that begins at this place, with as many counting nodes around it.
pub fn deeper(place: Place, depth: u32) -> Result<u32, ParseFault>
    requires { depth ≤ 64 }
    ensures ok { IfOk result (λ inner. (inner ≡ depth + 1) × (inner ≤ 64)) }
    ensures refused { IfErr result (λ fault. (fault ≡ TooDeep place) × (depth ≡ 64)) }
{
    if depth >= GREATEST_DEPTH {
        return Err(ParseFault::TooDeep(place));
    }
    Ok(depth + 1)
}
