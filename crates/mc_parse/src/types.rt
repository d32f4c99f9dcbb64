// Reading types. The depth is the number of counting nodes around what is read.

ghost use Rattle.std.specs.Prelude.{◌≤◌, ◌<◌, length, IfOk, IfErr};
ghost use Rattle.mc_tree.specs.Classes.{ReservedClass, NameClass, SymbolClass};
ghost use Rattle.mc_tree.specs.Grammar.{CommaIdsPhrase, CommaRangesPhrase, FieldsPhrase, IdsPhrase, MoreFieldsPhrase, RangePhrase, TypePhrase};
ghost use Rattle.mc_parse.specs.Heads.{HasFirst, HasOther};
ghost use Rattle.mc_parse.specs.Reads.{IsRead, IsRefused};

use crate::fault::ParseFault;
use crate::reader::{Read, Reader, deeper, sees_name, sees_symbol, sees_word};
use mc_tree::token::{Reserved, Symbol, Token};
use mc_tree::tree::{After, Fields, Id, Ids, Range, TypeTree};
use sqlite_items::{Boxed, Items};

impl Reader {
    /// `id { , id }`
    pub fn ids<'a>(self, rest: &'a [Token], depth: u32) -> Result<Read<'a, Ids>, ParseFault>
        requires depth { depth ≤ 64 }
        ensures ok { IfOk result (λ r. IsRead self.end depth IdsPhrase rest.now r.item r.rest.now) }
        ensures shorter { IfOk result (λ r. length r.rest.now < length rest.now) }
        ensures refused { IfErr result (λ fault. IsRefused self.end depth IdsPhrase rest.now fault) }
    {
        let first = self.name(rest)?;
        let more = self.comma_ids(first.rest, depth)?;
        Ok(Read {
            item: Ids {
                first: first.item,
                more: more.item,
            },
            rest: more.rest,
        })
    }

    /// `{ , id }`, at any depth
    fn comma_ids<'a>(
        self,
        rest: &'a [Token],
        depth: u32,
    ) -> Result<Read<'a, Items<After<Id>>>, ParseFault>
        requires depth { depth ≤ 64 }
        ensures ok { IfOk result (λ r. IsRead self.end depth CommaIdsPhrase rest.now r.item r.rest.now) }
        ensures within { IfOk result (λ r. length r.rest.now ≤ length rest.now) }
        ensures refused { IfErr result (λ fault. IsRefused self.end depth CommaIdsPhrase rest.now fault) }
    {
        let mut items = Items::new(self.alloc);
        let mut left = rest;
        while sees_symbol(left, Symbol::Comma) {
            let mark = self.mark(left, Symbol::Comma)?;
            let item = self.name(mark.rest)?;
            items.push(After {
                mark: mark.item,
                item: item.item,
            })?;
            left = item.rest;
        }
        Ok(Read {
            item: items,
            rest: left,
        })
    }

    /// `Expr : Expr`
    fn range<'a>(self, rest: &'a [Token], depth: u32) -> Result<Read<'a, Range>, ParseFault>
        requires depth { depth ≤ 64 }
        ensures ok { IfOk result (λ r. IsRead self.end depth RangePhrase rest.now r.item r.rest.now) }
        ensures shorter { IfOk result (λ r. length r.rest.now < length rest.now) }
        ensures refused { IfErr result (λ fault. IsRefused self.end depth RangePhrase rest.now fault) }
    {
        let low = self.boxed_expr(rest, depth)?;
        let colon = self.mark(low.rest, Symbol::Colon)?;
        let high = self.expr(colon.rest, depth)?;
        Ok(Read {
            item: Range {
                low: low.item.into_inner(),
                colon: colon.item,
                high: high.item,
            },
            rest: high.rest,
        })
    }

    /// `{ , Range }`
    fn comma_ranges<'a>(
        self,
        rest: &'a [Token],
        depth: u32,
    ) -> Result<Read<'a, Items<After<Range>>>, ParseFault>
        requires depth { depth ≤ 64 }
        ensures ok { IfOk result (λ r. IsRead self.end depth CommaRangesPhrase rest.now r.item r.rest.now) }
        ensures within { IfOk result (λ r. length r.rest.now ≤ length rest.now) }
        ensures refused { IfErr result (λ fault. IsRefused self.end depth CommaRangesPhrase rest.now fault) }
    {
        let mut items = Items::new(self.alloc);
        let mut left = rest;
        while sees_symbol(left, Symbol::Comma) {
            let mark = self.mark(left, Symbol::Comma)?;
            let item = self.range(mark.rest, depth)?;
            items.push(After {
                mark: mark.item,
                item: item.item,
            })?;
            left = item.rest;
        }
        Ok(Read {
            item: items,
            rest: left,
        })
    }

    /// A type, which is a counting node.
    #[cycle(type_tree)]
    pub fn type_tree<'a>(
        self,
        rest: &'a [Token],
        depth: u32,
    ) -> Result<Read<'a, TypeTree>, ParseFault>
        requires depth { depth ≤ 64 }
        ensures ok { IfOk result (λ r. IsRead self.end depth TypePhrase rest.now r.item r.rest.now) }
        ensures shorter { IfOk result (λ r. length r.rest.now < length rest.now) }
        ensures refused { IfErr result (λ fault. IsRefused self.end depth TypePhrase rest.now fault) }
    {
        if sees_name(rest) {
            self.named_type(rest, depth)
        } else if sees_symbol(rest, Symbol::LeftParen) {
            self.values(rest, depth)
        } else if sees_word(rest, Reserved::ArrayWord) {
            self.array(rest, depth)
        } else if sees_word(rest, Reserved::RecordWord) {
            self.record(rest, depth)
        } else {
            Err(self.no_type(rest, depth))
        }
    }

    // The fault where no type stands.
    fn no_type(self, rest: &[Token], _depth: u32) -> ParseFault
        requires name { HasOther NameClass rest.now }
        requires paren { HasOther (SymbolClass Symbol.LeftParen) rest.now }
        requires array { HasOther (ReservedClass Reserved.ArrayWord) rest.now }
        requires record { HasOther (ReservedClass Reserved.RecordWord) rest.now }
        ensures { IsRefused self.end _depth TypePhrase rest.now result }
    {
        self.unexpected(rest)
    }

    // `id`
    fn named_type<'a>(self, rest: &'a [Token], depth: u32) -> Result<Read<'a, TypeTree>, ParseFault>
        requires first { HasFirst NameClass rest.now }
        requires depth { depth ≤ 64 }
        ensures ok { IfOk result (λ r. IsRead self.end depth TypePhrase rest.now r.item r.rest.now) }
        ensures shorter { IfOk result (λ r. length r.rest.now < length rest.now) }
        ensures refused { IfErr result (λ fault. IsRefused self.end depth TypePhrase rest.now fault) }
    {
        deeper(self.place(rest), depth)?;
        let name = self.name(rest)?;
        Ok(Read {
            item: TypeTree::Name(name.item),
            rest: name.rest,
        })
    }

    // `( Ids )`
    fn values<'a>(self, rest: &'a [Token], depth: u32) -> Result<Read<'a, TypeTree>, ParseFault>
        requires first { HasFirst (SymbolClass Symbol.LeftParen) rest.now }
        requires depth { depth ≤ 64 }
        ensures ok { IfOk result (λ r. IsRead self.end depth TypePhrase rest.now r.item r.rest.now) }
        ensures shorter { IfOk result (λ r. length r.rest.now < length rest.now) }
        ensures refused { IfErr result (λ fault. IsRefused self.end depth TypePhrase rest.now fault) }
    {
        let inner = deeper(self.place(rest), depth)?;
        let opening = self.mark(rest, Symbol::LeftParen)?;
        let values = self.ids(opening.rest, inner)?;
        let closing = self.mark(values.rest, Symbol::RightParen)?;
        Ok(Read {
            item: TypeTree::Values(opening.item, values.item, closing.item),
            rest: closing.rest,
        })
    }

    // `array Range { , Range } of Type`
    #[cycle(type_tree)]
    fn array<'a>(self, rest: &'a [Token], depth: u32) -> Result<Read<'a, TypeTree>, ParseFault>
        requires first { HasFirst (ReservedClass Reserved.ArrayWord) rest.now }
        requires depth { depth ≤ 64 }
        ensures ok { IfOk result (λ r. IsRead self.end depth TypePhrase rest.now r.item r.rest.now) }
        ensures shorter { IfOk result (λ r. length r.rest.now < length rest.now) }
        ensures refused { IfErr result (λ fault. IsRefused self.end depth TypePhrase rest.now fault) }
    {
        let inner = deeper(self.place(rest), depth)?;
        let word = self.word(rest, Reserved::ArrayWord)?;
        let first = self.boxed_range(word.rest, inner)?;
        let more = self.comma_ranges(first.rest, inner)?;
        let of = self.word(more.rest, Reserved::OfWord)?;
        let element = self.boxed_type(of.rest, inner)?;
        Ok(Read {
            item: TypeTree::Array(
                word.item,
                first.item.into_inner(),
                more.item,
                of.item,
                element.item,
            ),
            rest: element.rest,
        })
    }

    // A range, put apart at once: a function that holds one while it reads on is slow to prove.
    fn boxed_range<'a>(
        self,
        rest: &'a [Token],
        depth: u32,
    ) -> Result<Read<'a, Boxed<Range>>, ParseFault>
        requires depth { depth ≤ 64 }
        ensures ok { IfOk result (λ r. IsRead self.end depth RangePhrase rest.now r.item r.rest.now) }
        ensures shorter { IfOk result (λ r. length r.rest.now < length rest.now) }
        ensures refused { IfErr result (λ fault. IsRefused self.end depth RangePhrase rest.now fault) }
    {
        let range = self.range(rest, depth)?;
        let item = Boxed::new(self.alloc, range.item)?;
        Ok(Read {
            item,
            rest: range.rest,
        })
    }

    /// A type, put apart at once: a function that holds one while it reads on is slow to prove.
    #[cycle(type_tree)]
    pub fn boxed_type<'a>(
        self,
        rest: &'a [Token],
        depth: u32,
    ) -> Result<Read<'a, Boxed<TypeTree>>, ParseFault>
        requires depth { depth ≤ 64 }
        ensures ok { IfOk result (λ r. IsRead self.end depth TypePhrase rest.now r.item r.rest.now) }
        ensures shorter { IfOk result (λ r. length r.rest.now < length rest.now) }
        ensures refused { IfErr result (λ fault. IsRefused self.end depth TypePhrase rest.now fault) }
    {
        let of = self.type_tree(rest, depth)?;
        let item = Boxed::new(self.alloc, of.item)?;
        Ok(Read {
            item,
            rest: of.rest,
        })
    }

    // `record Fields { ; Fields } end`
    #[cycle(type_tree)]
    fn record<'a>(self, rest: &'a [Token], depth: u32) -> Result<Read<'a, TypeTree>, ParseFault>
        requires first { HasFirst (ReservedClass Reserved.RecordWord) rest.now }
        requires depth { depth ≤ 64 }
        ensures ok { IfOk result (λ r. IsRead self.end depth TypePhrase rest.now r.item r.rest.now) }
        ensures shorter { IfOk result (λ r. length r.rest.now < length rest.now) }
        ensures refused { IfErr result (λ fault. IsRefused self.end depth TypePhrase rest.now fault) }
    {
        let inner = deeper(self.place(rest), depth)?;
        let word = self.word(rest, Reserved::RecordWord)?;
        let first = self.boxed_fields(word.rest, inner)?;
        let more = self.more_fields(first.rest, inner)?;
        let end = self.word(more.rest, Reserved::EndWord)?;
        Ok(Read {
            item: TypeTree::Record(word.item, first.item, more.item, end.item),
            rest: end.rest,
        })
    }

    /// `{ ; Fields }`
    #[cycle(type_tree)]
    fn more_fields<'a>(
        self,
        rest: &'a [Token],
        depth: u32,
    ) -> Result<Read<'a, Items<After<Fields>>>, ParseFault>
        requires depth { depth ≤ 64 }
        ensures ok { IfOk result (λ r. IsRead self.end depth MoreFieldsPhrase rest.now r.item r.rest.now) }
        ensures within { IfOk result (λ r. length r.rest.now ≤ length rest.now) }
        ensures refused { IfErr result (λ fault. IsRefused self.end depth MoreFieldsPhrase rest.now fault) }
    {
        let mut items = Items::new(self.alloc);
        let mut left = rest;
        while sees_symbol(left, Symbol::Semicolon) {
            let mark = self.mark(left, Symbol::Semicolon)?;
            let item = self.fields(mark.rest, depth)?;
            items.push(After {
                mark: mark.item,
                item: item.item,
            })?;
            left = item.rest;
        }
        Ok(Read {
            item: items,
            rest: left,
        })
    }

    // The fields of one type, put apart at once.
    #[cycle(type_tree)]
    fn boxed_fields<'a>(
        self,
        rest: &'a [Token],
        depth: u32,
    ) -> Result<Read<'a, Boxed<Fields>>, ParseFault>
        requires depth { depth ≤ 64 }
        ensures ok { IfOk result (λ r. IsRead self.end depth FieldsPhrase rest.now r.item r.rest.now) }
        ensures shorter { IfOk result (λ r. length r.rest.now < length rest.now) }
        ensures refused { IfErr result (λ fault. IsRefused self.end depth FieldsPhrase rest.now fault) }
    {
        let fields = self.fields(rest, depth)?;
        let item = Boxed::new(self.alloc, fields.item)?;
        Ok(Read {
            item,
            rest: fields.rest,
        })
    }

    /// `Ids : Type`
    #[cycle(type_tree)]
    fn fields<'a>(self, rest: &'a [Token], depth: u32) -> Result<Read<'a, Fields>, ParseFault>
        requires depth { depth ≤ 64 }
        ensures ok { IfOk result (λ r. IsRead self.end depth FieldsPhrase rest.now r.item r.rest.now) }
        ensures shorter { IfOk result (λ r. length r.rest.now < length rest.now) }
        ensures refused { IfErr result (λ fault. IsRefused self.end depth FieldsPhrase rest.now fault) }
    {
        let names = self.ids(rest, depth)?;
        let colon = self.mark(names.rest, Symbol::Colon)?;
        let of = self.type_tree(colon.rest, depth)?;
        Ok(Read {
            item: Fields {
                names: names.item,
                colon: colon.item,
                of: of.item,
            },
            rest: of.rest,
        })
    }
}
