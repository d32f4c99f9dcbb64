// Reading declarations. The depth is the number of counting nodes around what is read.

ghost use Rattle.std.specs.Prelude.{◌≡◌, ◌≤◌, ◌<◌, length, IfOk, IfErr};
ghost use Rattle.std.specs.Bool.{OnTrue, OnFalse};
ghost use Rattle.mc_tree.specs.Classes.{ReservedClass};
ghost use Rattle.mc_tree.specs.Grammar.{AddressPhrase, CommaVarIdsPhrase, ConstPhrase, ConstsPhrase, DeclPhrase, DeclsPhrase, TypeDeclPhrase, TypeDeclsPhrase, VarIdPhrase, VarPhrase, VarsPhrase};
ghost use Rattle.mc_parse.specs.Heads.{HasFirst, HasOther};
ghost use Rattle.mc_parse.specs.Begins.{BeginsDeclaration};
ghost use Rattle.mc_parse.specs.Reads.{IsRead, IsRefused, IsRefusedAs};
ghost use Rattle.mc_parse.specs.Slots.{IsBracketRead, bracket_ahead};

use crate::fault::ParseFault;
use crate::reader::{Read, Reader, sees_name, sees_symbol, sees_word};
use mc_tree::place::Place;
use mc_tree::token::{Reserved, Symbol, Token};
use mc_tree::tree::{After, Bracket, Const, Decl, Id, TypeDecl, TypeTree, Var, VarId};
use sqlite_items::{Boxed, Items};

/// Whether `const`, `type` or `var` stands at the front.
pub fn begins_declaration(rest: &[Token]) -> bool
    ensures yes { OnTrue result (BeginsDeclaration rest.now) }
    ensures no { OnFalse result (HasOther (ReservedClass Reserved.ConstWord) rest.now × HasOther (ReservedClass Reserved.TypeWord) rest.now × HasOther (ReservedClass Reserved.VarWord) rest.now) }
{
    sees_word(rest, Reserved::ConstWord)
        || sees_word(rest, Reserved::TypeWord)
        || sees_word(rest, Reserved::VarWord)
}

// The nodes whose parts their readers hold apart.

fn type_node(name: Id, equal: Place, meaning: Boxed<TypeTree>, semicolon: Place) -> TypeDecl
    ensures { result ≡ record { name = name; equal = equal; meaning = meaning; semicolon = semicolon } }
{
    TypeDecl {
        name,
        equal,
        meaning: meaning.into_inner(),
        semicolon,
    }
}

fn types_node(word: Place, first: Boxed<TypeDecl>, more: Items<TypeDecl>) -> Decl
    ensures { result ≡ Decl.Type word first more }
{
    Decl::Type(word, first.into_inner(), more)
}

fn variable_node(
    first: Boxed<VarId>,
    more: Items<After<VarId>>,
    colon: Place,
    of: Boxed<TypeTree>,
    semicolon: Place,
) -> Var
    ensures { result ≡ record { first = first; more = more; colon = colon; of = of; semicolon = semicolon } }
{
    Var {
        first: first.into_inner(),
        more,
        colon,
        of: of.into_inner(),
        semicolon,
    }
}

fn variables_node(word: Place, first: Boxed<Var>, more: Items<Var>) -> Decl
    ensures { result ≡ Decl.Var word first more }
{
    Decl::Var(word, first.into_inner(), more)
}

impl Reader {
    /// `[ Expr ]`
    pub fn bracket<'a>(self, rest: &'a [Token], depth: u32) -> Result<Read<'a, Bracket>, ParseFault>
        requires depth { depth ≤ 64 }
        ensures ok { IfOk result (λ r. IsBracketRead self.end depth rest.now r.item r.rest.now) }
        ensures shorter { IfOk result (λ r. length r.rest.now < length rest.now) }
        ensures refused { IfErr result (λ fault. IsRefusedAs self.end (bracket_ahead depth) rest.now fault) }
    {
        let opening = self.mark(rest, Symbol::LeftBracket)?;
        let value = self.boxed_expr(opening.rest, depth)?;
        let closing = self.mark(value.rest, Symbol::RightBracket)?;
        Ok(Read {
            item: Bracket {
                opening: opening.item,
                value: value.item.into_inner(),
                closing: closing.item,
            },
            rest: closing.rest,
        })
    }

    /// `[ Expr ]`, put apart at once.
    pub fn boxed_bracket<'a>(
        self,
        rest: &'a [Token],
        depth: u32,
    ) -> Result<Read<'a, Boxed<Bracket>>, ParseFault>
        requires depth { depth ≤ 64 }
        ensures ok { IfOk result (λ r. IsBracketRead self.end depth rest.now r.item r.rest.now) }
        ensures shorter { IfOk result (λ r. length r.rest.now < length rest.now) }
        ensures refused { IfErr result (λ fault. IsRefusedAs self.end (bracket_ahead depth) rest.now fault) }
    {
        let bracket = self.bracket(rest, depth)?;
        let item = Boxed::new(self.alloc, bracket.item)?;
        Ok(Read {
            item,
            rest: bracket.rest,
        })
    }

    /// `{ Decl }`
    pub fn declarations<'a>(
        self,
        rest: &'a [Token],
        depth: u32,
    ) -> Result<Read<'a, Items<Decl>>, ParseFault>
        requires depth { depth ≤ 64 }
        ensures ok { IfOk result (λ r. IsRead self.end depth DeclsPhrase rest.now r.item r.rest.now) }
        ensures within { IfOk result (λ r. length r.rest.now ≤ length rest.now) }
        ensures refused { IfErr result (λ fault. IsRefused self.end depth DeclsPhrase rest.now fault) }
    {
        let mut items = Items::new(self.alloc);
        let mut left = rest;
        while begins_declaration(left) {
            let item = self.declaration(left, depth)?;
            items.push(item.item)?;
            left = item.rest;
        }
        Ok(Read {
            item: items,
            rest: left,
        })
    }

    /// `const Const { Const }`, `type TypeDecl { TypeDecl }` or `var Var { Var }`
    pub fn declaration<'a>(
        self,
        rest: &'a [Token],
        depth: u32,
    ) -> Result<Read<'a, Decl>, ParseFault>
        requires depth { depth ≤ 64 }
        ensures ok { IfOk result (λ r. IsRead self.end depth DeclPhrase rest.now r.item r.rest.now) }
        ensures shorter { IfOk result (λ r. length r.rest.now < length rest.now) }
        ensures refused { IfErr result (λ fault. IsRefused self.end depth DeclPhrase rest.now fault) }
    {
        if sees_word(rest, Reserved::ConstWord) {
            self.constants(rest, depth)
        } else if sees_word(rest, Reserved::TypeWord) {
            self.type_declarations(rest, depth)
        } else if sees_word(rest, Reserved::VarWord) {
            self.variables(rest, depth)
        } else {
            Err(self.no_declaration(rest, depth))
        }
    }

    // The fault where no declaration stands.
    fn no_declaration(self, rest: &[Token], _depth: u32) -> ParseFault
        requires constant { HasOther (ReservedClass Reserved.ConstWord) rest.now }
        requires kind { HasOther (ReservedClass Reserved.TypeWord) rest.now }
        requires variable { HasOther (ReservedClass Reserved.VarWord) rest.now }
        ensures { IsRefused self.end _depth DeclPhrase rest.now result }
    {
        self.unexpected(rest)
    }

    // `const Const { Const }`
    fn constants<'a>(self, rest: &'a [Token], depth: u32) -> Result<Read<'a, Decl>, ParseFault>
        requires first { HasFirst (ReservedClass Reserved.ConstWord) rest.now }
        requires depth { depth ≤ 64 }
        ensures ok { IfOk result (λ r. IsRead self.end depth DeclPhrase rest.now r.item r.rest.now) }
        ensures shorter { IfOk result (λ r. length r.rest.now < length rest.now) }
        ensures refused { IfErr result (λ fault. IsRefused self.end depth DeclPhrase rest.now fault) }
    {
        let word = self.word(rest, Reserved::ConstWord)?;
        let first = self.boxed_constant(word.rest, depth)?;
        let more = self.more_constants(first.rest, depth)?;
        Ok(Read {
            item: Decl::Const(word.item, first.item.into_inner(), more.item),
            rest: more.rest,
        })
    }

    /// `{ Const }`
    fn more_constants<'a>(
        self,
        rest: &'a [Token],
        depth: u32,
    ) -> Result<Read<'a, Items<Const>>, ParseFault>
        requires depth { depth ≤ 64 }
        ensures ok { IfOk result (λ r. IsRead self.end depth ConstsPhrase rest.now r.item r.rest.now) }
        ensures within { IfOk result (λ r. length r.rest.now ≤ length rest.now) }
        ensures refused { IfErr result (λ fault. IsRefused self.end depth ConstsPhrase rest.now fault) }
    {
        let mut items = Items::new(self.alloc);
        let mut left = rest;
        while sees_name(left) {
            let item = self.constant(left, depth)?;
            items.push(item.item)?;
            left = item.rest;
        }
        Ok(Read {
            item: items,
            rest: left,
        })
    }

    /// `id = Expr ;`
    fn constant<'a>(self, rest: &'a [Token], depth: u32) -> Result<Read<'a, Const>, ParseFault>
        requires depth { depth ≤ 64 }
        ensures ok { IfOk result (λ r. IsRead self.end depth ConstPhrase rest.now r.item r.rest.now) }
        ensures shorter { IfOk result (λ r. length r.rest.now < length rest.now) }
        ensures refused { IfErr result (λ fault. IsRefused self.end depth ConstPhrase rest.now fault) }
    {
        let name = self.name(rest)?;
        let equal = self.mark(name.rest, Symbol::Equal)?;
        let value = self.boxed_expr(equal.rest, depth)?;
        let semicolon = self.mark(value.rest, Symbol::Semicolon)?;
        Ok(Read {
            item: Const {
                name: name.item,
                equal: equal.item,
                value: value.item.into_inner(),
                semicolon: semicolon.item,
            },
            rest: semicolon.rest,
        })
    }

    // The declaration of a constant, put apart at once.
    fn boxed_constant<'a>(
        self,
        rest: &'a [Token],
        depth: u32,
    ) -> Result<Read<'a, Boxed<Const>>, ParseFault>
        requires depth { depth ≤ 64 }
        ensures ok { IfOk result (λ r. IsRead self.end depth ConstPhrase rest.now r.item r.rest.now) }
        ensures shorter { IfOk result (λ r. length r.rest.now < length rest.now) }
        ensures refused { IfErr result (λ fault. IsRefused self.end depth ConstPhrase rest.now fault) }
    {
        let whole = self.constant(rest, depth)?;
        let item = Boxed::new(self.alloc, whole.item)?;
        Ok(Read {
            item,
            rest: whole.rest,
        })
    }

    // `type TypeDecl { TypeDecl }`
    fn type_declarations<'a>(
        self,
        rest: &'a [Token],
        depth: u32,
    ) -> Result<Read<'a, Decl>, ParseFault>
        requires first { HasFirst (ReservedClass Reserved.TypeWord) rest.now }
        requires depth { depth ≤ 64 }
        ensures ok { IfOk result (λ r. IsRead self.end depth DeclPhrase rest.now r.item r.rest.now) }
        ensures shorter { IfOk result (λ r. length r.rest.now < length rest.now) }
        ensures refused { IfErr result (λ fault. IsRefused self.end depth DeclPhrase rest.now fault) }
    {
        let word = self.word(rest, Reserved::TypeWord)?;
        let first = self.boxed_type_declaration(word.rest, depth)?;
        let more = self.more_types(first.rest, depth)?;
        Ok(Read {
            item: types_node(word.item, first.item, more.item),
            rest: more.rest,
        })
    }

    /// `{ TypeDecl }`
    fn more_types<'a>(
        self,
        rest: &'a [Token],
        depth: u32,
    ) -> Result<Read<'a, Items<TypeDecl>>, ParseFault>
        requires depth { depth ≤ 64 }
        ensures ok { IfOk result (λ r. IsRead self.end depth TypeDeclsPhrase rest.now r.item r.rest.now) }
        ensures within { IfOk result (λ r. length r.rest.now ≤ length rest.now) }
        ensures refused { IfErr result (λ fault. IsRefused self.end depth TypeDeclsPhrase rest.now fault) }
    {
        let mut items = Items::new(self.alloc);
        let mut left = rest;
        while sees_name(left) {
            let item = self.type_declaration(left, depth)?;
            items.push(item.item)?;
            left = item.rest;
        }
        Ok(Read {
            item: items,
            rest: left,
        })
    }

    /// `id = Type ;`
    fn type_declaration<'a>(
        self,
        rest: &'a [Token],
        depth: u32,
    ) -> Result<Read<'a, TypeDecl>, ParseFault>
        requires depth { depth ≤ 64 }
        ensures ok { IfOk result (λ r. IsRead self.end depth TypeDeclPhrase rest.now r.item r.rest.now) }
        ensures shorter { IfOk result (λ r. length r.rest.now < length rest.now) }
        ensures refused { IfErr result (λ fault. IsRefused self.end depth TypeDeclPhrase rest.now fault) }
    {
        let name = self.name(rest)?;
        let equal = self.mark(name.rest, Symbol::Equal)?;
        let meaning = self.boxed_type(equal.rest, depth)?;
        let semicolon = self.mark(meaning.rest, Symbol::Semicolon)?;
        Ok(Read {
            item: type_node(name.item, equal.item, meaning.item, semicolon.item),
            rest: semicolon.rest,
        })
    }

    // The declaration of a type, put apart at once.
    fn boxed_type_declaration<'a>(
        self,
        rest: &'a [Token],
        depth: u32,
    ) -> Result<Read<'a, Boxed<TypeDecl>>, ParseFault>
        requires depth { depth ≤ 64 }
        ensures ok { IfOk result (λ r. IsRead self.end depth TypeDeclPhrase rest.now r.item r.rest.now) }
        ensures shorter { IfOk result (λ r. length r.rest.now < length rest.now) }
        ensures refused { IfErr result (λ fault. IsRefused self.end depth TypeDeclPhrase rest.now fault) }
    {
        let whole = self.type_declaration(rest, depth)?;
        let item = Boxed::new(self.alloc, whole.item)?;
        Ok(Read {
            item,
            rest: whole.rest,
        })
    }

    // `var Var { Var }`
    fn variables<'a>(self, rest: &'a [Token], depth: u32) -> Result<Read<'a, Decl>, ParseFault>
        requires first { HasFirst (ReservedClass Reserved.VarWord) rest.now }
        requires depth { depth ≤ 64 }
        ensures ok { IfOk result (λ r. IsRead self.end depth DeclPhrase rest.now r.item r.rest.now) }
        ensures shorter { IfOk result (λ r. length r.rest.now < length rest.now) }
        ensures refused { IfErr result (λ fault. IsRefused self.end depth DeclPhrase rest.now fault) }
    {
        let word = self.word(rest, Reserved::VarWord)?;
        let first = self.boxed_variable(word.rest, depth)?;
        let more = self.more_variables(first.rest, depth)?;
        Ok(Read {
            item: variables_node(word.item, first.item, more.item),
            rest: more.rest,
        })
    }

    /// `{ Var }`
    fn more_variables<'a>(
        self,
        rest: &'a [Token],
        depth: u32,
    ) -> Result<Read<'a, Items<Var>>, ParseFault>
        requires depth { depth ≤ 64 }
        ensures ok { IfOk result (λ r. IsRead self.end depth VarsPhrase rest.now r.item r.rest.now) }
        ensures within { IfOk result (λ r. length r.rest.now ≤ length rest.now) }
        ensures refused { IfErr result (λ fault. IsRefused self.end depth VarsPhrase rest.now fault) }
    {
        let mut items = Items::new(self.alloc);
        let mut left = rest;
        while sees_name(left) {
            let item = self.variable(left, depth)?;
            items.push(item.item)?;
            left = item.rest;
        }
        Ok(Read {
            item: items,
            rest: left,
        })
    }

    /// `VarId { , VarId } : Type ;`
    fn variable<'a>(self, rest: &'a [Token], depth: u32) -> Result<Read<'a, Var>, ParseFault>
        requires depth { depth ≤ 64 }
        ensures ok { IfOk result (λ r. IsRead self.end depth VarPhrase rest.now r.item r.rest.now) }
        ensures shorter { IfOk result (λ r. length r.rest.now < length rest.now) }
        ensures refused { IfErr result (λ fault. IsRefused self.end depth VarPhrase rest.now fault) }
    {
        let first = self.boxed_var_id(rest, depth)?;
        let more = self.comma_var_ids(first.rest, depth)?;
        let colon = self.mark(more.rest, Symbol::Colon)?;
        let of = self.boxed_type(colon.rest, depth)?;
        let semicolon = self.mark(of.rest, Symbol::Semicolon)?;
        Ok(Read {
            item: variable_node(first.item, more.item, colon.item, of.item, semicolon.item),
            rest: semicolon.rest,
        })
    }

    // The declaration of variables, put apart at once.
    fn boxed_variable<'a>(
        self,
        rest: &'a [Token],
        depth: u32,
    ) -> Result<Read<'a, Boxed<Var>>, ParseFault>
        requires depth { depth ≤ 64 }
        ensures ok { IfOk result (λ r. IsRead self.end depth VarPhrase rest.now r.item r.rest.now) }
        ensures shorter { IfOk result (λ r. length r.rest.now < length rest.now) }
        ensures refused { IfErr result (λ fault. IsRefused self.end depth VarPhrase rest.now fault) }
    {
        let whole = self.variable(rest, depth)?;
        let item = Boxed::new(self.alloc, whole.item)?;
        Ok(Read {
            item,
            rest: whole.rest,
        })
    }

    /// `{ , VarId }`
    fn comma_var_ids<'a>(
        self,
        rest: &'a [Token],
        depth: u32,
    ) -> Result<Read<'a, Items<After<VarId>>>, ParseFault>
        requires depth { depth ≤ 64 }
        ensures ok { IfOk result (λ r. IsRead self.end depth CommaVarIdsPhrase rest.now r.item r.rest.now) }
        ensures within { IfOk result (λ r. length r.rest.now ≤ length rest.now) }
        ensures refused { IfErr result (λ fault. IsRefused self.end depth CommaVarIdsPhrase rest.now fault) }
    {
        let mut items = Items::new(self.alloc);
        let mut left = rest;
        while sees_symbol(left, Symbol::Comma) {
            let mark = self.mark(left, Symbol::Comma)?;
            let item = self.var_id(mark.rest, depth)?;
            items.push(After {
                mark: mark.item,
                item: item.item,
            })?;
            left = item.rest;
        }
        Ok(Read {
            item: items,
            rest: left,
        })
    }

    // A variable, put apart at once.
    fn boxed_var_id<'a>(
        self,
        rest: &'a [Token],
        depth: u32,
    ) -> Result<Read<'a, Boxed<VarId>>, ParseFault>
        requires depth { depth ≤ 64 }
        ensures ok { IfOk result (λ r. IsRead self.end depth VarIdPhrase rest.now r.item r.rest.now) }
        ensures shorter { IfOk result (λ r. length r.rest.now < length rest.now) }
        ensures refused { IfErr result (λ fault. IsRefused self.end depth VarIdPhrase rest.now fault) }
    {
        let whole = self.var_id(rest, depth)?;
        let item = Boxed::new(self.alloc, whole.item)?;
        Ok(Read {
            item,
            rest: whole.rest,
        })
    }

    /// `id [ Bracket ]`
    fn var_id<'a>(self, rest: &'a [Token], depth: u32) -> Result<Read<'a, VarId>, ParseFault>
        requires depth { depth ≤ 64 }
        ensures ok { IfOk result (λ r. IsRead self.end depth VarIdPhrase rest.now r.item r.rest.now) }
        ensures shorter { IfOk result (λ r. length r.rest.now < length rest.now) }
        ensures refused { IfErr result (λ fault. IsRefused self.end depth VarIdPhrase rest.now fault) }
    {
        let name = self.name(rest)?;
        let address = self.address(name.rest, depth)?;
        Ok(Read {
            item: VarId {
                name: name.item,
                address: address.item,
            },
            rest: address.rest,
        })
    }

    /// `[ Bracket ]`
    fn address<'a>(
        self,
        rest: &'a [Token],
        depth: u32,
    ) -> Result<Read<'a, Option<Bracket>>, ParseFault>
        requires depth { depth ≤ 64 }
        ensures ok { IfOk result (λ r. IsRead self.end depth AddressPhrase rest.now r.item r.rest.now) }
        ensures within { IfOk result (λ r. length r.rest.now ≤ length rest.now) }
        ensures refused { IfErr result (λ fault. IsRefused self.end depth AddressPhrase rest.now fault) }
    {
        if !sees_symbol(rest, Symbol::LeftBracket) {
            return Ok(Read { item: None, rest });
        }
        let bracket = self.bracket(rest, depth)?;
        Ok(Read {
            item: Some(bracket.item),
            rest: bracket.rest,
        })
    }
}
