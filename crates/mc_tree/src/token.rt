// Tokens: reserved words, symbols, names, numbers, characters and texts.

ghost use Rattle.std.specs.Prelude.{◌≡◌};

use crate::place::Place;
use mc_word::Word;
use mc_word::bytes::Text;
use std::marker::Model;

/// The reserved words, each named by the word. They are written in small letters.
#[derive(Clone, Copy, PartialEq, Eq, Debug)]
pub enum Reserved {
    AndWord,
    ArrayWord,
    BeginWord,
    CaseWord,
    ConstWord,
    DefineWord,
    DeviceWord,
    DivWord,
    DoWord,
    ElseWord,
    ElsifWord,
    EndWord,
    ExitWord,
    IfWord,
    InterfaceWord,
    LoopWord,
    ModWord,
    ModuleWord,
    NotWord,
    OfWord,
    OrWord,
    ProcedureWord,
    ProcessWord,
    RecordWord,
    RepeatWord,
    ThenWord,
    TypeWord,
    UntilWord,
    UseWord,
    VarWord,
    WhenWord,
    WhileWord,
    XorWord,
}

/// The symbols, each of one or two bytes.
#[derive(Clone, Copy, PartialEq, Eq, Debug)]
pub enum Symbol {
    /// `+`
    Plus,
    /// `-`
    Minus,
    /// `*`
    Times,
    /// `=`
    Equal,
    /// `<>`
    Unequal,
    /// `<`
    Less,
    /// `<=`
    LessEqual,
    /// `>`
    Greater,
    /// `>=`
    GreaterEqual,
    /// `(`
    LeftParen,
    /// `)`
    RightParen,
    /// `[`
    LeftBracket,
    /// `]`
    RightBracket,
    /// `,`
    Comma,
    /// `;`
    Semicolon,
    /// `:`
    Colon,
    /// `:=`
    Becomes,
    /// `.`
    Dot,
}

/// What a token is.
#[derive(Debug, Drop)]
pub enum Kind {
    Reserved(Reserved),
    /// A name that is no reserved word, as it is written: case counts.
    Name(Text),
    /// A number: decimal ones are at most 32767, octal ones are taken as 16-bit words.
    Number(Word),
    /// A character, written by its octal code or as a text of one byte.
    Char(u8),
    /// The bytes of a text between its quotes: none, or two or more.
    Text(Text),
    Symbol(Symbol),
}

/// A token with the place of its first byte.
#[derive(Debug, Drop)]
pub struct Token {
    pub kind: Kind,
    pub place: Place,
}

/// The tokens of a source in order, which contracts see as a list.
#[derive(Debug, Drop)]
pub struct Tokens {
    pub tokens: Vec<Token>,
}

impl Model for Tokens {
    ghost use Rattle.std.specs.Prelude.{List};
    ghost use Rattle.mc_tree.specs.declared.token.Token.{Token};

    ghost Value = { List Token };

    ghost view = { λ t. t.tokens.items };
}

impl Tokens {
    /// The tokens of a vector, which keeps its memory.
    pub fn from_vec(tokens: Vec<Token>) -> Tokens
        ensures { result ≡ tokens.items }
    {
        Tokens { tokens }
    }

    /// The vector of these tokens, with its memory.
    pub fn into_vec(self) -> Vec<Token>
        ensures { result.items ≡ self }
    {
        let Tokens { tokens } = self;
        tokens
    }

    /// The tokens, in order.
    pub fn as_slice(&self) -> &[Token]
        ensures { result.now ≡ self.now }
    {
        self.tokens.as_slice()
    }
}
