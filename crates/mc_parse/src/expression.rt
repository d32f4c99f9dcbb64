// Reading expressions. The depth is the number of counting nodes around what is read.

ghost use Rattle.std.specs.Prelude.{◌≤◌, ◌<◌, length, IfOk, IfErr, IfSome, IfNone};
ghost use Rattle.mc_tree.specs.declared.token.Kind.TheVariants.{Symbol as SymbolKind};
ghost use Rattle.mc_tree.specs.Classes.{ReservedClass, NameClass, SymbolClass};
ghost use Rattle.mc_tree.specs.Expressions.{relation_symbol, sign_symbol, adding_kind, multiplying_kind};
ghost use Rattle.mc_tree.specs.Grammar.{AssigningPhrase, BitsTailPhrase, CommaElementsPhrase, CommaExprsPhrase, ElementPhrase, ElementTailPhrase, ExprPhrase, ExprTailPhrase, FactorPhrase, SelectorsPhrase, SimplePhrase, SimpleTailPhrase, TermPhrase, TermTailPhrase};
ghost use Rattle.mc_parse.specs.Heads.{HasFirst, HasOther, IsFirst};
ghost use Rattle.mc_parse.specs.Steps.{GoesNotOn};
ghost use Rattle.mc_parse.specs.Reads.{IsRead, IsRefused, IsRefusedAs};
ghost use Rattle.mc_parse.specs.Slots.{IsArgsRead, args_ahead, IsSelectorRead, IsTargetRead};

use crate::fault::ParseFault;
use crate::reader::{Read, Reader, deeper, sees_name, sees_symbol, sees_word};
use mc_tree::expression::{
    AddedTerm, Adding, Args, Compared, Designator, Element, Elements, Expr, Factor,
    MultipliedFactor, Multiplying, Relation, Selector, Sign, Simple, Term,
};
use mc_tree::place::Place;
use mc_tree::token::{Kind, Reserved, Symbol, Token};
use mc_tree::tree::After;
use mc_word::bytes::Text;
use sqlite_items::{Boxed, Items};

// The relation at the front, where one stands there.
fn relation_at(rest: &[Token]) -> Option<Relation>
    ensures found { IfSome result (λ relation. IsFirst (SymbolKind (relation_symbol relation)) rest.now) }
    ensures none { IfNone result (GoesNotOn ExprTailPhrase rest.now) }
{
    let (token, _) = rest.split_first()?;
    match token.kind {
        Kind::Symbol(Symbol::Equal) => Some(Relation::Equal),
        Kind::Symbol(Symbol::Unequal) => Some(Relation::Unequal),
        Kind::Symbol(Symbol::Less) => Some(Relation::Less),
        Kind::Symbol(Symbol::LessEqual) => Some(Relation::LessEqual),
        Kind::Symbol(Symbol::Greater) => Some(Relation::Greater),
        Kind::Symbol(Symbol::GreaterEqual) => Some(Relation::GreaterEqual),
        _ => None,
    }
}

// The operator of a sum at the front, where one stands there.
fn adding_at(rest: &[Token]) -> Option<Adding>
    ensures found { IfSome result (λ operator. IsFirst (adding_kind operator) rest.now) }
    ensures none { IfNone result (GoesNotOn SimpleTailPhrase rest.now) }
{
    let (token, _) = rest.split_first()?;
    match token.kind {
        Kind::Symbol(Symbol::Plus) => Some(Adding::Plus),
        Kind::Symbol(Symbol::Minus) => Some(Adding::Minus),
        Kind::Reserved(Reserved::OrWord) => Some(Adding::Or),
        Kind::Reserved(Reserved::XorWord) => Some(Adding::Xor),
        _ => None,
    }
}

// The operator of a product at the front, where one stands there.
fn multiplying_at(rest: &[Token]) -> Option<Multiplying>
    ensures found { IfSome result (λ operator. IsFirst (multiplying_kind operator) rest.now) }
    ensures none { IfNone result (GoesNotOn TermTailPhrase rest.now) }
{
    let (token, _) = rest.split_first()?;
    match token.kind {
        Kind::Symbol(Symbol::Times) => Some(Multiplying::Times),
        Kind::Reserved(Reserved::DivWord) => Some(Multiplying::Div),
        Kind::Reserved(Reserved::ModWord) => Some(Multiplying::Mod),
        Kind::Reserved(Reserved::AndWord) => Some(Multiplying::And),
        _ => None,
    }
}

// The sign at the front, where one stands there.
fn sign_at(rest: &[Token]) -> Option<Sign>
    ensures found { IfSome result (λ sign. IsFirst (SymbolKind (sign_symbol sign)) rest.now) }
    ensures none { IfNone result (HasOther (SymbolClass Symbol.Plus) rest.now × HasOther (SymbolClass Symbol.Minus) rest.now) }
{
    let (token, _) = rest.split_first()?;
    match token.kind {
        Kind::Symbol(Symbol::Plus) => Some(Sign::Plus),
        Kind::Symbol(Symbol::Minus) => Some(Sign::Minus),
        _ => None,
    }
}

impl Reader {
    /// An expression, put apart at once: a function that holds one while it reads on is slow to prove.
    #[cycle(expression)]
    pub fn boxed_expr<'a>(
        self,
        rest: &'a [Token],
        depth: u32,
    ) -> Result<Read<'a, Boxed<Expr>>, ParseFault>
        requires depth { depth ≤ 64 }
        ensures ok { IfOk result (λ r. IsRead self.end depth ExprPhrase rest.now r.item r.rest.now) }
        ensures shorter { IfOk result (λ r. length r.rest.now < length rest.now) }
        ensures refused { IfErr result (λ fault. IsRefused self.end depth ExprPhrase rest.now fault) }
    {
        let expr = self.expr(rest, depth)?;
        let item = Boxed::new(self.alloc, expr.item)?;
        Ok(Read {
            item,
            rest: expr.rest,
        })
    }

    /// `Simple [ relation Simple ]`
    #[cycle(expression)]
    pub fn expr<'a>(self, rest: &'a [Token], depth: u32) -> Result<Read<'a, Expr>, ParseFault>
        requires depth { depth ≤ 64 }
        ensures ok { IfOk result (λ r. IsRead self.end depth ExprPhrase rest.now r.item r.rest.now) }
        ensures shorter { IfOk result (λ r. length r.rest.now < length rest.now) }
        ensures refused { IfErr result (λ fault. IsRefused self.end depth ExprPhrase rest.now fault) }
    {
        let left = self.simple(rest, depth)?;
        let compared = self.compared(left.rest, depth)?;
        Ok(Read {
            item: Expr {
                left: left.item,
                compared: compared.item,
            },
            rest: compared.rest,
        })
    }

    /// `[ relation Simple ]`
    #[cycle(expression)]
    fn compared<'a>(
        self,
        rest: &'a [Token],
        depth: u32,
    ) -> Result<Read<'a, Option<Compared>>, ParseFault>
        requires depth { depth ≤ 64 }
        ensures ok { IfOk result (λ r. IsRead self.end depth ExprTailPhrase rest.now r.item r.rest.now) }
        ensures within { IfOk result (λ r. length r.rest.now ≤ length rest.now) }
        ensures refused { IfErr result (λ fault. IsRefused self.end depth ExprTailPhrase rest.now fault) }
    {
        let Some(relation) = relation_at(rest) else {
            return Ok(Read { item: None, rest });
        };
        let mark = self.token(rest)?;
        let right = self.simple(mark.rest, depth)?;
        Ok(Read {
            item: Some(Compared {
                relation,
                place: mark.item,
                right: right.item,
            }),
            rest: right.rest,
        })
    }

    /// `[ sign ] Term { operator Term }`
    #[cycle(expression)]
    fn simple<'a>(self, rest: &'a [Token], depth: u32) -> Result<Read<'a, Simple>, ParseFault>
        requires depth { depth ≤ 64 }
        ensures ok { IfOk result (λ r. IsRead self.end depth SimplePhrase rest.now r.item r.rest.now) }
        ensures shorter { IfOk result (λ r. length r.rest.now < length rest.now) }
        ensures refused { IfErr result (λ fault. IsRefused self.end depth SimplePhrase rest.now fault) }
    {
        match sign_at(rest) {
            Some(sign) => self.signed(sign, rest, depth),
            None => self.unsigned(rest, depth),
        }
    }

    /// `sign Term { operator Term }`
    #[cycle(expression)]
    fn signed<'a>(
        self,
        sign: Sign,
        rest: &'a [Token],
        depth: u32,
    ) -> Result<Read<'a, Simple>, ParseFault>
        requires first { IsFirst (SymbolKind (sign_symbol sign)) rest.now }
        requires depth { depth ≤ 64 }
        ensures ok { IfOk result (λ r. IsRead self.end depth SimplePhrase rest.now r.item r.rest.now) }
        ensures shorter { IfOk result (λ r. length r.rest.now < length rest.now) }
        ensures refused { IfErr result (λ fault. IsRefused self.end depth SimplePhrase rest.now fault) }
    {
        let mark = self.token(rest)?;
        let first = self.term(mark.rest, depth)?;
        let more = self.added_terms(first.rest, depth)?;
        Ok(Read {
            item: Simple {
                sign: Some((sign, mark.item)),
                first: first.item,
                more: more.item,
            },
            rest: more.rest,
        })
    }

    /// `Term { operator Term }`
    #[cycle(expression)]
    fn unsigned<'a>(self, rest: &'a [Token], depth: u32) -> Result<Read<'a, Simple>, ParseFault>
        requires plus { HasOther (SymbolClass Symbol.Plus) rest.now }
        requires minus { HasOther (SymbolClass Symbol.Minus) rest.now }
        requires depth { depth ≤ 64 }
        ensures ok { IfOk result (λ r. IsRead self.end depth SimplePhrase rest.now r.item r.rest.now) }
        ensures shorter { IfOk result (λ r. length r.rest.now < length rest.now) }
        ensures refused { IfErr result (λ fault. IsRefused self.end depth SimplePhrase rest.now fault) }
    {
        let first = self.term(rest, depth)?;
        let more = self.added_terms(first.rest, depth)?;
        Ok(Read {
            item: Simple {
                sign: None,
                first: first.item,
                more: more.item,
            },
            rest: more.rest,
        })
    }

    /// `{ operator Term }`
    #[cycle(expression)]
    fn added_terms<'a>(
        self,
        rest: &'a [Token],
        depth: u32,
    ) -> Result<Read<'a, Items<AddedTerm>>, ParseFault>
        requires depth { depth ≤ 64 }
        ensures ok { IfOk result (λ r. IsRead self.end depth SimpleTailPhrase rest.now r.item r.rest.now) }
        ensures within { IfOk result (λ r. length r.rest.now ≤ length rest.now) }
        ensures refused { IfErr result (λ fault. IsRefused self.end depth SimpleTailPhrase rest.now fault) }
    {
        let mut items = Items::new(self.alloc);
        let mut left = rest;
        while let Some(operator) = adding_at(left) {
            let mark = self.token(left)?;
            let term = self.term(mark.rest, depth)?;
            items.push(AddedTerm {
                operator,
                place: mark.item,
                term: term.item,
            })?;
            left = term.rest;
        }
        Ok(Read {
            item: items,
            rest: left,
        })
    }

    /// `Factor { operator Factor }`
    #[cycle(expression)]
    fn term<'a>(self, rest: &'a [Token], depth: u32) -> Result<Read<'a, Term>, ParseFault>
        requires depth { depth ≤ 64 }
        ensures ok { IfOk result (λ r. IsRead self.end depth TermPhrase rest.now r.item r.rest.now) }
        ensures shorter { IfOk result (λ r. length r.rest.now < length rest.now) }
        ensures refused { IfErr result (λ fault. IsRefused self.end depth TermPhrase rest.now fault) }
    {
        let first = self.factor(rest, depth)?;
        let more = self.multiplied_factors(first.rest, depth)?;
        Ok(Read {
            item: Term {
                first: first.item,
                more: more.item,
            },
            rest: more.rest,
        })
    }

    /// `{ operator Factor }`
    #[cycle(expression)]
    fn multiplied_factors<'a>(
        self,
        rest: &'a [Token],
        depth: u32,
    ) -> Result<Read<'a, Items<MultipliedFactor>>, ParseFault>
        requires depth { depth ≤ 64 }
        ensures ok { IfOk result (λ r. IsRead self.end depth TermTailPhrase rest.now r.item r.rest.now) }
        ensures within { IfOk result (λ r. length r.rest.now ≤ length rest.now) }
        ensures refused { IfErr result (λ fault. IsRefused self.end depth TermTailPhrase rest.now fault) }
    {
        let mut items = Items::new(self.alloc);
        let mut left = rest;
        while let Some(operator) = multiplying_at(left) {
            let mark = self.token(left)?;
            let factor = self.factor(mark.rest, depth)?;
            items.push(MultipliedFactor {
                operator,
                place: mark.item,
                factor: factor.item,
            })?;
            left = factor.rest;
        }
        Ok(Read {
            item: items,
            rest: left,
        })
    }

    /// A factor, which is a counting node.
    #[cycle(expression)]
    fn factor<'a>(self, rest: &'a [Token], depth: u32) -> Result<Read<'a, Factor>, ParseFault>
        requires depth { depth ≤ 64 }
        ensures ok { IfOk result (λ r. IsRead self.end depth FactorPhrase rest.now r.item r.rest.now) }
        ensures shorter { IfOk result (λ r. length r.rest.now < length rest.now) }
        ensures refused { IfErr result (λ fault. IsRefused self.end depth FactorPhrase rest.now fault) }
    {
        if sees_name(rest) {
            self.named_factor(rest, depth)
        } else if sees_symbol(rest, Symbol::LeftParen) {
            self.group(rest, depth)
        } else if sees_symbol(rest, Symbol::LeftBracket) {
            self.bits(rest, depth)
        } else if sees_word(rest, Reserved::NotWord) {
            self.negation(rest, depth)
        } else {
            self.literal(rest, depth)
        }
    }

    // A number, a character or a text.
    fn literal<'a>(self, rest: &'a [Token], depth: u32) -> Result<Read<'a, Factor>, ParseFault>
        requires name { HasOther NameClass rest.now }
        requires paren { HasOther (SymbolClass Symbol.LeftParen) rest.now }
        requires bracket { HasOther (SymbolClass Symbol.LeftBracket) rest.now }
        requires not { HasOther (ReservedClass Reserved.NotWord) rest.now }
        requires depth { depth ≤ 64 }
        ensures ok { IfOk result (λ r. IsRead self.end depth FactorPhrase rest.now r.item r.rest.now) }
        ensures shorter { IfOk result (λ r. length r.rest.now < length rest.now) }
        ensures refused { IfErr result (λ fault. IsRefused self.end depth FactorPhrase rest.now fault) }
    {
        let Some((token, others)) = rest.split_first() else {
            return Err(ParseFault::Unexpected(self.end));
        };
        let place = token.place;
        match &token.kind {
            Kind::Number(value) => {
                deeper(place, depth)?;
                Ok(Read {
                    item: Factor::Number(*value, place),
                    rest: others,
                })
            }
            Kind::Char(value) => {
                deeper(place, depth)?;
                Ok(Read {
                    item: Factor::Character(*value, place),
                    rest: others,
                })
            }
            Kind::Text(text) => {
                deeper(place, depth)?;
                let text = Text::from_slice(self.alloc, text.as_slice())?;
                Ok(Read {
                    item: Factor::Text(text, place),
                    rest: others,
                })
            }
            _ => Err(ParseFault::Unexpected(place)),
        }
    }

    // `id { selector }` or `id Args`
    #[cycle(expression)]
    fn named_factor<'a>(self, rest: &'a [Token], depth: u32) -> Result<Read<'a, Factor>, ParseFault>
        requires first { HasFirst NameClass rest.now }
        requires depth { depth ≤ 64 }
        ensures ok { IfOk result (λ r. IsRead self.end depth FactorPhrase rest.now r.item r.rest.now) }
        ensures shorter { IfOk result (λ r. length r.rest.now < length rest.now) }
        ensures refused { IfErr result (λ fault. IsRefused self.end depth FactorPhrase rest.now fault) }
    {
        let inner = deeper(self.place(rest), depth)?;
        let name = self.name(rest)?;
        if sees_symbol(name.rest, Symbol::LeftParen) {
            let args = self.args(name.rest, inner)?;
            return Ok(Read {
                item: Factor::Call(name.item, args.item),
                rest: args.rest,
            });
        }
        let selectors = self.selectors(name.rest, inner)?;
        Ok(Read {
            item: Factor::Designator(Designator {
                name: name.item,
                selectors: selectors.item,
            }),
            rest: selectors.rest,
        })
    }

    // `( Expr )`
    #[cycle(expression)]
    fn group<'a>(self, rest: &'a [Token], depth: u32) -> Result<Read<'a, Factor>, ParseFault>
        requires first { HasFirst (SymbolClass Symbol.LeftParen) rest.now }
        requires depth { depth ≤ 64 }
        ensures ok { IfOk result (λ r. IsRead self.end depth FactorPhrase rest.now r.item r.rest.now) }
        ensures shorter { IfOk result (λ r. length r.rest.now < length rest.now) }
        ensures refused { IfErr result (λ fault. IsRefused self.end depth FactorPhrase rest.now fault) }
    {
        let inner = deeper(self.place(rest), depth)?;
        let opening = self.mark(rest, Symbol::LeftParen)?;
        let value = self.boxed_expr(opening.rest, inner)?;
        let closing = self.mark(value.rest, Symbol::RightParen)?;
        Ok(Read {
            item: Factor::Group(opening.item, value.item, closing.item),
            rest: closing.rest,
        })
    }

    // `not Factor`
    #[cycle(expression)]
    fn negation<'a>(self, rest: &'a [Token], depth: u32) -> Result<Read<'a, Factor>, ParseFault>
        requires first { HasFirst (ReservedClass Reserved.NotWord) rest.now }
        requires depth { depth ≤ 64 }
        ensures ok { IfOk result (λ r. IsRead self.end depth FactorPhrase rest.now r.item r.rest.now) }
        ensures shorter { IfOk result (λ r. length r.rest.now < length rest.now) }
        ensures refused { IfErr result (λ fault. IsRefused self.end depth FactorPhrase rest.now fault) }
    {
        let inner = deeper(self.place(rest), depth)?;
        let word = self.word(rest, Reserved::NotWord)?;
        let factor = self.factor(word.rest, inner)?;
        Ok(Read {
            item: Factor::Not(word.item, Boxed::new(self.alloc, factor.item)?),
            rest: factor.rest,
        })
    }

    // `[ [ Element { , Element } ] ]`
    #[cycle(expression)]
    fn bits<'a>(self, rest: &'a [Token], depth: u32) -> Result<Read<'a, Factor>, ParseFault>
        requires first { HasFirst (SymbolClass Symbol.LeftBracket) rest.now }
        requires depth { depth ≤ 64 }
        ensures ok { IfOk result (λ r. IsRead self.end depth FactorPhrase rest.now r.item r.rest.now) }
        ensures shorter { IfOk result (λ r. length r.rest.now < length rest.now) }
        ensures refused { IfErr result (λ fault. IsRefused self.end depth FactorPhrase rest.now fault) }
    {
        let inner = deeper(self.place(rest), depth)?;
        let opening = self.mark(rest, Symbol::LeftBracket)?;
        let tail = self.bits_tail(opening.rest, inner)?;
        let (elements, closing) = tail.item;
        Ok(Read {
            item: Factor::Bits(opening.item, elements, closing),
            rest: tail.rest,
        })
    }

    // `[ Element { , Element } ] ]`
    #[cycle(expression)]
    fn bits_tail<'a>(
        self,
        rest: &'a [Token],
        depth: u32,
    ) -> Result<Read<'a, (Option<Elements>, Place)>, ParseFault>
        requires depth { depth ≤ 64 }
        ensures ok { IfOk result (λ r. IsRead self.end depth BitsTailPhrase rest.now r.item r.rest.now) }
        ensures shorter { IfOk result (λ r. length r.rest.now < length rest.now) }
        ensures refused { IfErr result (λ fault. IsRefused self.end depth BitsTailPhrase rest.now fault) }
    {
        if !sees_symbol(rest, Symbol::RightBracket) {
            return self.elements(rest, depth);
        }
        let closing = self.mark(rest, Symbol::RightBracket)?;
        Ok(Read {
            item: (None, closing.item),
            rest: closing.rest,
        })
    }

    // `Element { , Element } ]`
    #[cycle(expression)]
    fn elements<'a>(
        self,
        rest: &'a [Token],
        depth: u32,
    ) -> Result<Read<'a, (Option<Elements>, Place)>, ParseFault>
        requires some { HasOther (SymbolClass Symbol.RightBracket) rest.now }
        requires depth { depth ≤ 64 }
        ensures ok { IfOk result (λ r. IsRead self.end depth BitsTailPhrase rest.now r.item r.rest.now) }
        ensures shorter { IfOk result (λ r. length r.rest.now < length rest.now) }
        ensures refused { IfErr result (λ fault. IsRefused self.end depth BitsTailPhrase rest.now fault) }
    {
        let first = self.boxed_element(rest, depth)?;
        let more = self.comma_elements(first.rest, depth)?;
        let closing = self.mark(more.rest, Symbol::RightBracket)?;
        let elements = Elements {
            first: first.item,
            more: more.item,
        };
        Ok(Read {
            item: (Some(elements), closing.item),
            rest: closing.rest,
        })
    }

    /// `{ , Element }`
    #[cycle(expression)]
    fn comma_elements<'a>(
        self,
        rest: &'a [Token],
        depth: u32,
    ) -> Result<Read<'a, Items<After<Element>>>, ParseFault>
        requires depth { depth ≤ 64 }
        ensures ok { IfOk result (λ r. IsRead self.end depth CommaElementsPhrase rest.now r.item r.rest.now) }
        ensures within { IfOk result (λ r. length r.rest.now ≤ length rest.now) }
        ensures refused { IfErr result (λ fault. IsRefused self.end depth CommaElementsPhrase rest.now fault) }
    {
        let mut items = Items::new(self.alloc);
        let mut left = rest;
        while sees_symbol(left, Symbol::Comma) {
            let mark = self.mark(left, Symbol::Comma)?;
            let item = self.element(mark.rest, depth)?;
            items.push(After {
                mark: mark.item,
                item: item.item,
            })?;
            left = item.rest;
        }
        Ok(Read {
            item: items,
            rest: left,
        })
    }

    // An element, put apart at once.
    #[cycle(expression)]
    fn boxed_element<'a>(
        self,
        rest: &'a [Token],
        depth: u32,
    ) -> Result<Read<'a, Boxed<Element>>, ParseFault>
        requires depth { depth ≤ 64 }
        ensures ok { IfOk result (λ r. IsRead self.end depth ElementPhrase rest.now r.item r.rest.now) }
        ensures shorter { IfOk result (λ r. length r.rest.now < length rest.now) }
        ensures refused { IfErr result (λ fault. IsRefused self.end depth ElementPhrase rest.now fault) }
    {
        let element = self.element(rest, depth)?;
        let item = Boxed::new(self.alloc, element.item)?;
        Ok(Read {
            item,
            rest: element.rest,
        })
    }

    /// `Expr [ : Expr ]`
    #[cycle(expression)]
    fn element<'a>(self, rest: &'a [Token], depth: u32) -> Result<Read<'a, Element>, ParseFault>
        requires depth { depth ≤ 64 }
        ensures ok { IfOk result (λ r. IsRead self.end depth ElementPhrase rest.now r.item r.rest.now) }
        ensures shorter { IfOk result (λ r. length r.rest.now < length rest.now) }
        ensures refused { IfErr result (λ fault. IsRefused self.end depth ElementPhrase rest.now fault) }
    {
        let first = self.boxed_expr(rest, depth)?;
        let last = self.last_element(first.rest, depth)?;
        Ok(Read {
            item: Element {
                first: first.item.into_inner(),
                last: last.item,
            },
            rest: last.rest,
        })
    }

    /// `[ : Expr ]`
    #[cycle(expression)]
    fn last_element<'a>(
        self,
        rest: &'a [Token],
        depth: u32,
    ) -> Result<Read<'a, Option<After<Expr>>>, ParseFault>
        requires depth { depth ≤ 64 }
        ensures ok { IfOk result (λ r. IsRead self.end depth ElementTailPhrase rest.now r.item r.rest.now) }
        ensures within { IfOk result (λ r. length r.rest.now ≤ length rest.now) }
        ensures refused { IfErr result (λ fault. IsRefused self.end depth ElementTailPhrase rest.now fault) }
    {
        if !sees_symbol(rest, Symbol::Colon) {
            return Ok(Read { item: None, rest });
        }
        let mark = self.mark(rest, Symbol::Colon)?;
        let item = self.expr(mark.rest, depth)?;
        Ok(Read {
            item: Some(After {
                mark: mark.item,
                item: item.item,
            }),
            rest: item.rest,
        })
    }

    /// `( Expr { , Expr } )`
    #[cycle(expression)]
    pub fn args<'a>(self, rest: &'a [Token], depth: u32) -> Result<Read<'a, Args>, ParseFault>
        requires depth { depth ≤ 64 }
        ensures ok { IfOk result (λ r. IsArgsRead self.end depth rest.now r.item r.rest.now) }
        ensures shorter { IfOk result (λ r. length r.rest.now < length rest.now) }
        ensures refused { IfErr result (λ fault. IsRefusedAs self.end (args_ahead depth) rest.now fault) }
    {
        let opening = self.mark(rest, Symbol::LeftParen)?;
        let first = self.boxed_expr(opening.rest, depth)?;
        let more = self.comma_exprs(first.rest, depth)?;
        let closing = self.mark(more.rest, Symbol::RightParen)?;
        Ok(Read {
            item: Args {
                opening: opening.item,
                first: first.item,
                more: more.item,
                closing: closing.item,
            },
            rest: closing.rest,
        })
    }

    /// `{ , Expr }`
    #[cycle(expression)]
    pub fn comma_exprs<'a>(
        self,
        rest: &'a [Token],
        depth: u32,
    ) -> Result<Read<'a, Items<After<Expr>>>, ParseFault>
        requires depth { depth ≤ 64 }
        ensures ok { IfOk result (λ r. IsRead self.end depth CommaExprsPhrase rest.now r.item r.rest.now) }
        ensures within { IfOk result (λ r. length r.rest.now ≤ length rest.now) }
        ensures refused { IfErr result (λ fault. IsRefused self.end depth CommaExprsPhrase rest.now fault) }
    {
        let mut items = Items::new(self.alloc);
        let mut left = rest;
        while sees_symbol(left, Symbol::Comma) {
            let mark = self.mark(left, Symbol::Comma)?;
            let item = self.expr(mark.rest, depth)?;
            items.push(After {
                mark: mark.item,
                item: item.item,
            })?;
            left = item.rest;
        }
        Ok(Read {
            item: items,
            rest: left,
        })
    }

    /// `{ . id | [ Expr { , Expr } ] }`, which stands behind a name, also where `:=` and an expression follow
    #[cycle(expression)]
    pub fn selectors<'a>(
        self,
        rest: &'a [Token],
        depth: u32,
    ) -> Result<Read<'a, Items<Selector>>, ParseFault>
        requires { depth ≤ 64 }
        ensures ok { IfOk result (λ r. IsRead self.end depth SelectorsPhrase rest.now r.item r.rest.now) }
        ensures assigns { IfOk result (λ r. IsTargetRead self.end depth rest.now r.item r.rest.now) }
        ensures within { IfOk result (λ r. length r.rest.now ≤ length rest.now) }
        ensures refused { IfErr result (λ fault. IsRefused self.end depth SelectorsPhrase rest.now fault) }
        ensures assigns_not { IfErr result (λ fault. IsRefused self.end depth AssigningPhrase rest.now fault) }
    {
        let mut items = Items::new(self.alloc);
        let mut left = rest;
        while let Some(selector) = self.selector(left, depth)? {
            items.push(selector.item)?;
            left = selector.rest;
        }
        Ok(Read {
            item: items,
            rest: left,
        })
    }

    /// `. id` or `[ Expr { , Expr } ]`, where one of them stands there
    #[cycle(expression)]
    fn selector<'a>(
        self,
        rest: &'a [Token],
        depth: u32,
    ) -> Result<Option<Read<'a, Selector>>, ParseFault>
        requires { depth ≤ 64 }
        ensures ok { IfOk result (λ found. IfSome found (λ r. IsSelectorRead self.end depth rest.now r.item r.rest.now)) }
        ensures none { IfOk result (λ found. IfNone found (HasOther (SymbolClass Symbol.Dot) rest.now × HasOther (SymbolClass Symbol.LeftBracket) rest.now)) }
        ensures shorter { IfOk result (λ found. IfSome found (λ r. length r.rest.now < length rest.now)) }
        ensures refused { IfErr result (λ fault. IsRefused self.end depth SelectorsPhrase rest.now fault) }
        ensures assigns_not { IfErr result (λ fault. IsRefused self.end depth AssigningPhrase rest.now fault) }
    {
        if sees_symbol(rest, Symbol::Dot) {
            return Ok(Some(self.field(rest, depth)?));
        }
        if sees_symbol(rest, Symbol::LeftBracket) {
            return Ok(Some(self.index(rest, depth)?));
        }
        Ok(None)
    }

    // `. id`
    fn field<'a>(self, rest: &'a [Token], depth: u32) -> Result<Read<'a, Selector>, ParseFault>
        requires first { HasFirst (SymbolClass Symbol.Dot) rest.now }
        requires depth { depth ≤ 64 }
        ensures ok { IfOk result (λ r. IsSelectorRead self.end depth rest.now r.item r.rest.now) }
        ensures shorter { IfOk result (λ r. length r.rest.now < length rest.now) }
        ensures refused { IfErr result (λ fault. IsRefused self.end depth SelectorsPhrase rest.now fault) }
        ensures assigns_not { IfErr result (λ fault. IsRefused self.end depth AssigningPhrase rest.now fault) }
    {
        let dot = self.mark(rest, Symbol::Dot)?;
        let name = self.name(dot.rest)?;
        Ok(Read {
            item: Selector::Field(dot.item, name.item),
            rest: name.rest,
        })
    }

    // `[ Expr { , Expr } ]`
    #[cycle(expression)]
    fn index<'a>(self, rest: &'a [Token], depth: u32) -> Result<Read<'a, Selector>, ParseFault>
        requires first { HasFirst (SymbolClass Symbol.LeftBracket) rest.now }
        requires depth { depth ≤ 64 }
        ensures ok { IfOk result (λ r. IsSelectorRead self.end depth rest.now r.item r.rest.now) }
        ensures shorter { IfOk result (λ r. length r.rest.now < length rest.now) }
        ensures refused { IfErr result (λ fault. IsRefused self.end depth SelectorsPhrase rest.now fault) }
        ensures assigns_not { IfErr result (λ fault. IsRefused self.end depth AssigningPhrase rest.now fault) }
    {
        let opening = self.mark(rest, Symbol::LeftBracket)?;
        let first = self.boxed_expr(opening.rest, depth)?;
        let more = self.comma_exprs(first.rest, depth)?;
        let closing = self.mark(more.rest, Symbol::RightBracket)?;
        Ok(Read {
            item: Selector::Index(opening.item, first.item, more.item, closing.item),
            rest: closing.rest,
        })
    }
}
