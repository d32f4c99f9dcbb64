// Symbols.

ghost use Rattle.std.specs.Prelude.{◌≡◌, ◌≢◌, ◌<◌, [], ◌∷◌, length, MatchOption};
ghost use Rattle.mc_tree.specs.declared.token.Symbol.{Symbol};
ghost use Rattle.mc_tree.specs.Spellings.{symbol_of, BeginsComment};
ghost use Rattle.mc_scan.specs.Pieces.{IsTaken, BeginsNoSymbol};

use crate::taken::Taken;
use mc_tree::token::{Kind, Symbol};

/// The symbol of these two bytes.
fn symbol_of_two(first: u8, second: u8) -> Option<Symbol>
    ensures { MatchOption result ((symbol : Symbol) → symbol_of symbol ≢ first ∷ second ∷ []) (λ symbol. symbol_of symbol ≡ first ∷ second ∷ []) }
{
    match (first, second) {
        (b'<', b'>') => Some(Symbol::Unequal),
        (b'<', b'=') => Some(Symbol::LessEqual),
        (b'>', b'=') => Some(Symbol::GreaterEqual),
        (b':', b'=') => Some(Symbol::Becomes),
        _ => None,
    }
}

/// The symbol of this byte.
fn symbol_of_one(byte: u8) -> Option<Symbol>
    ensures { MatchOption result ((symbol : Symbol) → symbol_of symbol ≢ byte ∷ []) (λ symbol. symbol_of symbol ≡ byte ∷ []) }
{
    match byte {
        b'+' => Some(Symbol::Plus),
        b'-' => Some(Symbol::Minus),
        b'*' => Some(Symbol::Times),
        b'=' => Some(Symbol::Equal),
        b'<' => Some(Symbol::Less),
        b'>' => Some(Symbol::Greater),
        b'(' => Some(Symbol::LeftParen),
        b')' => Some(Symbol::RightParen),
        b'[' => Some(Symbol::LeftBracket),
        b']' => Some(Symbol::RightBracket),
        b',' => Some(Symbol::Comma),
        b';' => Some(Symbol::Semicolon),
        b':' => Some(Symbol::Colon),
        b'.' => Some(Symbol::Dot),
        _ => None,
    }
}

/// The symbol at the front, of two bytes where there is one.
pub fn symbol(rest: &[u8]) -> Option<Taken>
    requires some { 0 < length rest.now }
    requires no_comment { ¬ BeginsComment rest.now }
    ensures { MatchOption result (BeginsNoSymbol rest.now) (λ taken. IsTaken taken.kind taken.length rest.now) }
{
    if rest.len() > 1 {
        if let Some(symbol) = symbol_of_two(rest[0], rest[1]) {
            return Some(Taken {
                kind: Kind::Symbol(symbol),
                length: 2,
            });
        }
    }
    let symbol = symbol_of_one(rest[0])?;
    Some(Taken {
        kind: Kind::Symbol(symbol),
        length: 1,
    })
}
