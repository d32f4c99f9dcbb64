// Reading procedures and processes. The depth is the number of counting nodes around what is read.

ghost use Rattle.std.specs.Prelude.{◌≤◌, ◌<◌, length, IfOk, IfErr};
ghost use Rattle.mc_tree.specs.Classes.{ReservedClass};
ghost use Rattle.mc_tree.specs.Grammar.{AnswerPhrase, DriverPhrase, ParamsPhrase, ProcedurePhrase, ProcessPhrase, SectionPhrase, SectionsPhrase};
ghost use Rattle.mc_parse.specs.Heads.{HasFirst, HasOther};
ghost use Rattle.mc_parse.specs.Reads.{IsRead, IsRefused, IsRefusedAs};
ghost use Rattle.mc_parse.specs.Slots.{IsLocalRead, local_ahead};

use crate::fault::ParseFault;
use crate::reader::{Read, Reader, sees_symbol, sees_word};
use mc_tree::token::{Reserved, Symbol, Token};
use mc_tree::tree::{After, Driver, Id, Local, Mode, Params, Procedure, Process, Section};
use sqlite_items::{Boxed, Items};

impl Reader {
    /// `{ Decl } begin Body`
    fn local<'a>(self, rest: &'a [Token], depth: u32) -> Result<Read<'a, Local>, ParseFault>
        requires depth { depth ≤ 64 }
        ensures ok { IfOk result (λ r. IsLocalRead self.end depth rest.now r.item r.rest.now) }
        ensures shorter { IfOk result (λ r. length r.rest.now < length rest.now) }
        ensures refused { IfErr result (λ fault. IsRefusedAs self.end (local_ahead depth) rest.now fault) }
    {
        let declarations = self.declarations(rest, depth)?;
        let begin = self.word(declarations.rest, Reserved::BeginWord)?;
        let body = self.body(begin.rest, depth)?;
        Ok(Read {
            item: Local {
                declarations: declarations.item,
                begin: begin.item,
                body: body.item,
            },
            rest: body.rest,
        })
    }

    /// `procedure id [ Params ] [ : id ] ; Local end id ;`
    pub fn procedure<'a>(
        self,
        rest: &'a [Token],
        depth: u32,
    ) -> Result<Read<'a, Procedure>, ParseFault>
        requires depth { depth ≤ 64 }
        ensures ok { IfOk result (λ r. IsRead self.end depth ProcedurePhrase rest.now r.item r.rest.now) }
        ensures shorter { IfOk result (λ r. length r.rest.now < length rest.now) }
        ensures refused { IfErr result (λ fault. IsRefused self.end depth ProcedurePhrase rest.now fault) }
    {
        let procedure = self.word(rest, Reserved::ProcedureWord)?;
        let name = self.name(procedure.rest)?;
        let params = self.boxed_params(name.rest, depth)?;
        let answer = self.answer(params.rest, depth)?;
        let semicolon = self.mark(answer.rest, Symbol::Semicolon)?;
        let local = self.local(semicolon.rest, depth)?;
        let ending = self.ending(local.rest, Symbol::Semicolon)?;
        Ok(Read {
            item: Procedure {
                procedure: procedure.item,
                name: name.item,
                params: params.item.into_inner(),
                answer: answer.item,
                semicolon: semicolon.item,
                local: local.item,
                end: ending.item.end,
                end_name: ending.item.name,
                end_semicolon: ending.item.mark,
            },
            rest: ending.rest,
        })
    }

    /// `process id [ Params ] ; Local end id ;`
    pub fn process<'a>(self, rest: &'a [Token], depth: u32) -> Result<Read<'a, Process>, ParseFault>
        requires depth { depth ≤ 64 }
        ensures ok { IfOk result (λ r. IsRead self.end depth ProcessPhrase rest.now r.item r.rest.now) }
        ensures shorter { IfOk result (λ r. length r.rest.now < length rest.now) }
        ensures refused { IfErr result (λ fault. IsRefused self.end depth ProcessPhrase rest.now fault) }
    {
        let process = self.word(rest, Reserved::ProcessWord)?;
        let name = self.name(process.rest)?;
        let params = self.boxed_params(name.rest, depth)?;
        let semicolon = self.mark(params.rest, Symbol::Semicolon)?;
        let local = self.local(semicolon.rest, depth)?;
        let ending = self.ending(local.rest, Symbol::Semicolon)?;
        Ok(Read {
            item: Process {
                process: process.item,
                name: name.item,
                params: params.item.into_inner(),
                semicolon: semicolon.item,
                local: local.item,
                end: ending.item.end,
                end_name: ending.item.name,
                end_semicolon: ending.item.mark,
            },
            rest: ending.rest,
        })
    }

    /// `process id Bracket ; Local end id ;`
    pub fn driver<'a>(self, rest: &'a [Token], depth: u32) -> Result<Read<'a, Driver>, ParseFault>
        requires depth { depth ≤ 64 }
        ensures ok { IfOk result (λ r. IsRead self.end depth DriverPhrase rest.now r.item r.rest.now) }
        ensures shorter { IfOk result (λ r. length r.rest.now < length rest.now) }
        ensures refused { IfErr result (λ fault. IsRefused self.end depth DriverPhrase rest.now fault) }
    {
        let process = self.word(rest, Reserved::ProcessWord)?;
        let name = self.name(process.rest)?;
        let bracket = self.boxed_bracket(name.rest, depth)?;
        let semicolon = self.mark(bracket.rest, Symbol::Semicolon)?;
        let local = self.local(semicolon.rest, depth)?;
        let ending = self.ending(local.rest, Symbol::Semicolon)?;
        Ok(Read {
            item: Driver {
                process: process.item,
                name: name.item,
                bracket: bracket.item.into_inner(),
                semicolon: semicolon.item,
                local: local.item,
                end: ending.item.end,
                end_name: ending.item.name,
                end_semicolon: ending.item.mark,
            },
            rest: ending.rest,
        })
    }

    // `[ Params ]`, put apart at once: what holds them while it reads on is slow to prove.
    fn boxed_params<'a>(
        self,
        rest: &'a [Token],
        depth: u32,
    ) -> Result<Read<'a, Boxed<Option<Params>>>, ParseFault>
        requires depth { depth ≤ 64 }
        ensures ok { IfOk result (λ r. IsRead self.end depth ParamsPhrase rest.now r.item r.rest.now) }
        ensures within { IfOk result (λ r. length r.rest.now ≤ length rest.now) }
        ensures refused { IfErr result (λ fault. IsRefused self.end depth ParamsPhrase rest.now fault) }
    {
        let params = self.params(rest, depth)?;
        let item = Boxed::new(self.alloc, params.item)?;
        Ok(Read {
            item,
            rest: params.rest,
        })
    }

    /// `[ Params ]`
    fn params<'a>(
        self,
        rest: &'a [Token],
        depth: u32,
    ) -> Result<Read<'a, Option<Params>>, ParseFault>
        requires depth { depth ≤ 64 }
        ensures ok { IfOk result (λ r. IsRead self.end depth ParamsPhrase rest.now r.item r.rest.now) }
        ensures within { IfOk result (λ r. length r.rest.now ≤ length rest.now) }
        ensures refused { IfErr result (λ fault. IsRefused self.end depth ParamsPhrase rest.now fault) }
    {
        if !sees_symbol(rest, Symbol::LeftParen) {
            return Ok(Read { item: None, rest });
        }
        let opening = self.mark(rest, Symbol::LeftParen)?;
        let first = self.section(opening.rest, depth)?;
        let more = self.more_sections(first.rest, depth)?;
        let closing = self.mark(more.rest, Symbol::RightParen)?;
        Ok(Read {
            item: Some(Params {
                opening: opening.item,
                first: first.item,
                more: more.item,
                closing: closing.item,
            }),
            rest: closing.rest,
        })
    }

    /// `{ ; Section }`
    fn more_sections<'a>(
        self,
        rest: &'a [Token],
        depth: u32,
    ) -> Result<Read<'a, Items<After<Section>>>, ParseFault>
        requires depth { depth ≤ 64 }
        ensures ok { IfOk result (λ r. IsRead self.end depth SectionsPhrase rest.now r.item r.rest.now) }
        ensures within { IfOk result (λ r. length r.rest.now ≤ length rest.now) }
        ensures refused { IfErr result (λ fault. IsRefused self.end depth SectionsPhrase rest.now fault) }
    {
        let mut items = Items::new(self.alloc);
        let mut left = rest;
        while sees_symbol(left, Symbol::Semicolon) {
            let mark = self.mark(left, Symbol::Semicolon)?;
            let item = self.section(mark.rest, depth)?;
            items.push(After {
                mark: mark.item,
                item: item.item,
            })?;
            left = item.rest;
        }
        Ok(Read {
            item: items,
            rest: left,
        })
    }

    /// `[ const | var ] Ids : id`
    fn section<'a>(self, rest: &'a [Token], depth: u32) -> Result<Read<'a, Section>, ParseFault>
        requires depth { depth ≤ 64 }
        ensures ok { IfOk result (λ r. IsRead self.end depth SectionPhrase rest.now r.item r.rest.now) }
        ensures shorter { IfOk result (λ r. length r.rest.now < length rest.now) }
        ensures refused { IfErr result (λ fault. IsRefused self.end depth SectionPhrase rest.now fault) }
    {
        if sees_word(rest, Reserved::ConstWord) {
            self.const_section(rest, depth)
        } else if sees_word(rest, Reserved::VarWord) {
            self.var_section(rest, depth)
        } else {
            self.plain_section(rest, depth)
        }
    }

    // `const Ids : id`
    fn const_section<'a>(
        self,
        rest: &'a [Token],
        depth: u32,
    ) -> Result<Read<'a, Section>, ParseFault>
        requires first { HasFirst (ReservedClass Reserved.ConstWord) rest.now }
        requires depth { depth ≤ 64 }
        ensures ok { IfOk result (λ r. IsRead self.end depth SectionPhrase rest.now r.item r.rest.now) }
        ensures shorter { IfOk result (λ r. length r.rest.now < length rest.now) }
        ensures refused { IfErr result (λ fault. IsRefused self.end depth SectionPhrase rest.now fault) }
    {
        let word = self.word(rest, Reserved::ConstWord)?;
        let names = self.ids(word.rest, depth)?;
        let colon = self.mark(names.rest, Symbol::Colon)?;
        let of = self.name(colon.rest)?;
        Ok(Read {
            item: Section {
                mode: Some(Mode::Const(word.item)),
                names: names.item,
                colon: colon.item,
                of: of.item,
            },
            rest: of.rest,
        })
    }

    // `var Ids : id`
    fn var_section<'a>(self, rest: &'a [Token], depth: u32) -> Result<Read<'a, Section>, ParseFault>
        requires first { HasFirst (ReservedClass Reserved.VarWord) rest.now }
        requires depth { depth ≤ 64 }
        ensures ok { IfOk result (λ r. IsRead self.end depth SectionPhrase rest.now r.item r.rest.now) }
        ensures shorter { IfOk result (λ r. length r.rest.now < length rest.now) }
        ensures refused { IfErr result (λ fault. IsRefused self.end depth SectionPhrase rest.now fault) }
    {
        let word = self.word(rest, Reserved::VarWord)?;
        let names = self.ids(word.rest, depth)?;
        let colon = self.mark(names.rest, Symbol::Colon)?;
        let of = self.name(colon.rest)?;
        Ok(Read {
            item: Section {
                mode: Some(Mode::Var(word.item)),
                names: names.item,
                colon: colon.item,
                of: of.item,
            },
            rest: of.rest,
        })
    }

    // `Ids : id`
    fn plain_section<'a>(
        self,
        rest: &'a [Token],
        depth: u32,
    ) -> Result<Read<'a, Section>, ParseFault>
        requires no_const { HasOther (ReservedClass Reserved.ConstWord) rest.now }
        requires no_var { HasOther (ReservedClass Reserved.VarWord) rest.now }
        requires depth { depth ≤ 64 }
        ensures ok { IfOk result (λ r. IsRead self.end depth SectionPhrase rest.now r.item r.rest.now) }
        ensures shorter { IfOk result (λ r. length r.rest.now < length rest.now) }
        ensures refused { IfErr result (λ fault. IsRefused self.end depth SectionPhrase rest.now fault) }
    {
        let names = self.ids(rest, depth)?;
        let colon = self.mark(names.rest, Symbol::Colon)?;
        let of = self.name(colon.rest)?;
        Ok(Read {
            item: Section {
                mode: None,
                names: names.item,
                colon: colon.item,
                of: of.item,
            },
            rest: of.rest,
        })
    }

    /// `[ : id ]`, at any depth
    fn answer<'a>(
        self,
        rest: &'a [Token],
        depth: u32,
    ) -> Result<Read<'a, Option<After<Id>>>, ParseFault>
        requires depth { depth ≤ 64 }
        ensures ok { IfOk result (λ r. IsRead self.end depth AnswerPhrase rest.now r.item r.rest.now) }
        ensures within { IfOk result (λ r. length r.rest.now ≤ length rest.now) }
        ensures refused { IfErr result (λ fault. IsRefused self.end depth AnswerPhrase rest.now fault) }
    {
        if !sees_symbol(rest, Symbol::Colon) {
            return Ok(Read { item: None, rest });
        }
        let mark = self.mark(rest, Symbol::Colon)?;
        let name = self.name(mark.rest)?;
        Ok(Read {
            item: Some(After {
                mark: mark.item,
                item: name.item,
            }),
            rest: name.rest,
        })
    }
}
