// Reading what stands around the blocks of modules, procedures and processes. The depth is the number of counting
// nodes around what is read.

ghost use Rattle.std.specs.Prelude.{◌≤◌, ◌<◌, length, IfOk, IfErr};
ghost use Rattle.mc_tree.specs.Grammar.{DefinesPhrase, UsesPhrase};
ghost use Rattle.mc_parse.specs.Reads.{IsRead, IsRefused, IsRefusedAs};
ghost use Rattle.mc_parse.specs.Slots.{IsListsRead, lists_ahead};
ghost use Rattle.mc_parse.specs.Frames.{IsEndingRead, ending_ahead, IsDeviceHeadRead, device_head_ahead};

use crate::fault::ParseFault;
use crate::reader::{Read, Reader, sees_word};
use mc_tree::place::Place;
use mc_tree::token::{Reserved, Symbol, Token};
use mc_tree::tree::{Bracket, Id, Lists, NameList};
use sqlite_items::Boxed;

/// `end id`, and the mark behind it.
#[derive(Drop)]
pub struct Ending {
    pub end: Place,
    pub name: Id,
    pub mark: Place,
}

/// `device module id Bracket ;`, the bracket put apart: what holds one while it reads on is slow to prove.
#[derive(Drop)]
pub struct DeviceHead {
    pub device_word: Place,
    pub module_word: Place,
    pub name: Id,
    pub bracket: Boxed<Bracket>,
    pub semicolon: Place,
}

impl Reader {
    /// `end id` and this mark
    pub fn ending<'a>(
        self,
        rest: &'a [Token],
        symbol: Symbol,
    ) -> Result<Read<'a, Ending>, ParseFault>
        ensures ok { IfOk result (λ r. IsEndingRead self.end symbol rest.now r.item r.rest.now) }
        ensures shorter { IfOk result (λ r. length r.rest.now < length rest.now) }
        ensures refused { IfErr result (λ fault. IsRefusedAs self.end (ending_ahead symbol) rest.now fault) }
    {
        let end = self.word(rest, Reserved::EndWord)?;
        let name = self.name(end.rest)?;
        let mark = self.mark(name.rest, symbol)?;
        Ok(Read {
            item: Ending {
                end: end.item,
                name: name.item,
                mark: mark.item,
            },
            rest: mark.rest,
        })
    }

    /// `device module id Bracket ;`
    pub fn device_head<'a>(
        self,
        rest: &'a [Token],
        depth: u32,
    ) -> Result<Read<'a, DeviceHead>, ParseFault>
        requires depth { depth ≤ 64 }
        ensures ok { IfOk result (λ r. IsDeviceHeadRead self.end depth rest.now r.item r.rest.now) }
        ensures shorter { IfOk result (λ r. length r.rest.now < length rest.now) }
        ensures refused { IfErr result (λ fault. IsRefusedAs self.end (device_head_ahead depth) rest.now fault) }
    {
        let device_word = self.word(rest, Reserved::DeviceWord)?;
        let module_word = self.word(device_word.rest, Reserved::ModuleWord)?;
        let name = self.name(module_word.rest)?;
        let bracket = self.boxed_bracket(name.rest, depth)?;
        let semicolon = self.mark(bracket.rest, Symbol::Semicolon)?;
        Ok(Read {
            item: DeviceHead {
                device_word: device_word.item,
                module_word: module_word.item,
                name: name.item,
                bracket: bracket.item,
                semicolon: semicolon.item,
            },
            rest: semicolon.rest,
        })
    }

    /// `[ define Ids ; ]`
    fn defines<'a>(
        self,
        rest: &'a [Token],
        depth: u32,
    ) -> Result<Read<'a, Option<NameList>>, ParseFault>
        requires depth { depth ≤ 64 }
        ensures ok { IfOk result (λ r. IsRead self.end depth DefinesPhrase rest.now r.item r.rest.now) }
        ensures within { IfOk result (λ r. length r.rest.now ≤ length rest.now) }
        ensures refused { IfErr result (λ fault. IsRefused self.end depth DefinesPhrase rest.now fault) }
    {
        if !sees_word(rest, Reserved::DefineWord) {
            return Ok(Read { item: None, rest });
        }
        let word = self.word(rest, Reserved::DefineWord)?;
        let names = self.ids(word.rest, depth)?;
        let semicolon = self.mark(names.rest, Symbol::Semicolon)?;
        Ok(Read {
            item: Some(NameList {
                word: word.item,
                names: names.item,
                semicolon: semicolon.item,
            }),
            rest: semicolon.rest,
        })
    }

    /// `[ use Ids ; ]`
    fn uses<'a>(
        self,
        rest: &'a [Token],
        depth: u32,
    ) -> Result<Read<'a, Option<NameList>>, ParseFault>
        requires depth { depth ≤ 64 }
        ensures ok { IfOk result (λ r. IsRead self.end depth UsesPhrase rest.now r.item r.rest.now) }
        ensures within { IfOk result (λ r. length r.rest.now ≤ length rest.now) }
        ensures refused { IfErr result (λ fault. IsRefused self.end depth UsesPhrase rest.now fault) }
    {
        if !sees_word(rest, Reserved::UseWord) {
            return Ok(Read { item: None, rest });
        }
        let word = self.word(rest, Reserved::UseWord)?;
        let names = self.ids(word.rest, depth)?;
        let semicolon = self.mark(names.rest, Symbol::Semicolon)?;
        Ok(Read {
            item: Some(NameList {
                word: word.item,
                names: names.item,
                semicolon: semicolon.item,
            }),
            rest: semicolon.rest,
        })
    }

    /// `[ define Ids ; ] [ use Ids ; ]`
    fn lists<'a>(self, rest: &'a [Token], depth: u32) -> Result<Read<'a, Lists>, ParseFault>
        requires depth { depth ≤ 64 }
        ensures ok { IfOk result (λ r. IsListsRead self.end depth rest.now r.item r.rest.now) }
        ensures within { IfOk result (λ r. length r.rest.now ≤ length rest.now) }
        ensures refused { IfErr result (λ fault. IsRefusedAs self.end (lists_ahead depth) rest.now fault) }
    {
        let define = self.defines(rest, depth)?;
        let use_ = self.uses(define.rest, depth)?;
        Ok(Read {
            item: Lists {
                define: define.item,
                use_: use_.item,
            },
            rest: use_.rest,
        })
    }
    /// `[ define Ids ; ] [ use Ids ; ]`, put apart at once: what holds them while it reads on is slow to prove.
    pub fn boxed_lists<'a>(
        self,
        rest: &'a [Token],
        depth: u32,
    ) -> Result<Read<'a, Boxed<Lists>>, ParseFault>
        requires depth { depth ≤ 64 }
        ensures ok { IfOk result (λ r. IsListsRead self.end depth rest.now r.item r.rest.now) }
        ensures within { IfOk result (λ r. length r.rest.now ≤ length rest.now) }
        ensures refused { IfErr result (λ fault. IsRefusedAs self.end (lists_ahead depth) rest.now fault) }
    {
        let lists = self.lists(rest, depth)?;
        let item = Boxed::new(self.alloc, lists.item)?;
        Ok(Read {
            item,
            rest: lists.rest,
        })
    }
}
