// Reading modules and the program. The depth is the number of counting nodes around what is read.

ghost use Rattle.std.specs.Prelude.{◌≤◌, ◌<◌, ◌∷◌, length, IfOk, IfErr, IfSome, IfNone};
ghost use Rattle.std.specs.Bool.{OnTrue, OnFalse};
ghost use Rattle.mc_tree.specs.Classes.{ReservedClass};
ghost use Rattle.mc_tree.specs.Grammar.{ModulePhrase, PlainPartsPhrase, ProgramPhrase};
ghost use Rattle.mc_parse.specs.Heads.{HasFirst, HasOther};
ghost use Rattle.mc_parse.specs.Begins.{BeginsDeclaration, BeginsModule};
ghost use Rattle.mc_parse.specs.Reads.{IsRead, IsRefused, IsRefusedAs, IsReadUpTo};
ghost use Rattle.mc_parse.specs.Slots.{IsPlainRead, plain_ahead};

use crate::declaration::begins_declaration;
use crate::fault::ParseFault;
use crate::reader::{Read, Reader, deeper, sees_word};
use mc_tree::token::{Reserved, Symbol, Token};
use mc_tree::tree::{
    DeviceModule, DeviceProgram, InterfaceModule, Module, Plain, PlainModule, PlainPart,
    PlainProgram, Tree,
};
use sqlite_items::Items;

// Whether `module`, `interface` or `device` stands at the front.
fn begins_module(rest: &[Token]) -> bool
    ensures yes { OnTrue result (BeginsModule rest.now) }
    ensures no { OnFalse result (HasOther (ReservedClass Reserved.ModuleWord) rest.now × HasOther (ReservedClass Reserved.InterfaceWord) rest.now × HasOther (ReservedClass Reserved.DeviceWord) rest.now) }
{
    sees_word(rest, Reserved::ModuleWord)
        || sees_word(rest, Reserved::InterfaceWord)
        || sees_word(rest, Reserved::DeviceWord)
}

impl Reader {
    /// The parts of a plain block.
    #[cycle(module)]
    fn plain_parts<'a>(
        self,
        rest: &'a [Token],
        depth: u32,
    ) -> Result<Read<'a, Items<PlainPart>>, ParseFault>
        requires depth { depth ≤ 64 }
        ensures ok { IfOk result (λ r. IsRead self.end depth PlainPartsPhrase rest.now r.item r.rest.now) }
        ensures within { IfOk result (λ r. length r.rest.now ≤ length rest.now) }
        ensures refused { IfErr result (λ fault. IsRefused self.end depth PlainPartsPhrase rest.now fault) }
    {
        let mut items = Items::new(self.alloc);
        let mut left = rest;
        while let Some(part) = self.plain_part(left, depth)? {
            items.push(part.item)?;
            left = part.rest;
        }
        Ok(Read {
            item: items,
            rest: left,
        })
    }

    // A part of a plain block, where one begins there.
    #[cycle(module)]
    fn plain_part<'a>(
        self,
        rest: &'a [Token],
        depth: u32,
    ) -> Result<Option<Read<'a, PlainPart>>, ParseFault>
        requires depth { depth ≤ 64 }
        ensures ok { IfOk result (λ found. IfSome found (λ r. IsReadUpTo self.end depth PlainPartsPhrase rest.now (λ more. r.item ∷ more) r.rest.now)) }
        ensures none { IfOk result (λ found. IfNone found ((HasOther (ReservedClass Reserved.ConstWord) rest.now × HasOther (ReservedClass Reserved.TypeWord) rest.now × HasOther (ReservedClass Reserved.VarWord) rest.now) × HasOther (ReservedClass Reserved.ProcedureWord) rest.now × HasOther (ReservedClass Reserved.ProcessWord) rest.now × (HasOther (ReservedClass Reserved.ModuleWord) rest.now × HasOther (ReservedClass Reserved.InterfaceWord) rest.now × HasOther (ReservedClass Reserved.DeviceWord) rest.now))) }
        ensures shorter { IfOk result (λ found. IfSome found (λ r. length r.rest.now < length rest.now)) }
        ensures refused { IfErr result (λ fault. IsRefused self.end depth PlainPartsPhrase rest.now fault) }
    {
        if begins_declaration(rest) {
            return Ok(Some(self.plain_declaration(rest, depth)?));
        }
        if sees_word(rest, Reserved::ProcedureWord) {
            return Ok(Some(self.plain_procedure(rest, depth)?));
        }
        if sees_word(rest, Reserved::ProcessWord) {
            return Ok(Some(self.plain_process(rest, depth)?));
        }
        if begins_module(rest) {
            return Ok(Some(self.inner_module(rest, depth)?));
        }
        Ok(None)
    }

    // A part of a plain block that is a declaration.
    fn plain_declaration<'a>(
        self,
        rest: &'a [Token],
        depth: u32,
    ) -> Result<Read<'a, PlainPart>, ParseFault>
        requires first { BeginsDeclaration rest.now }
        requires depth { depth ≤ 64 }
        ensures ok { IfOk result (λ r. IsReadUpTo self.end depth PlainPartsPhrase rest.now (λ more. r.item ∷ more) r.rest.now) }
        ensures shorter { IfOk result (λ r. length r.rest.now < length rest.now) }
        ensures refused { IfErr result (λ fault. IsRefused self.end depth PlainPartsPhrase rest.now fault) }
    {
        let part = self.declaration(rest, depth)?;
        Ok(Read {
            item: PlainPart::Decl(part.item),
            rest: part.rest,
        })
    }

    // A part of a plain block that is a procedure.
    fn plain_procedure<'a>(
        self,
        rest: &'a [Token],
        depth: u32,
    ) -> Result<Read<'a, PlainPart>, ParseFault>
        requires first { HasFirst (ReservedClass Reserved.ProcedureWord) rest.now }
        requires depth { depth ≤ 64 }
        ensures ok { IfOk result (λ r. IsReadUpTo self.end depth PlainPartsPhrase rest.now (λ more. r.item ∷ more) r.rest.now) }
        ensures shorter { IfOk result (λ r. length r.rest.now < length rest.now) }
        ensures refused { IfErr result (λ fault. IsRefused self.end depth PlainPartsPhrase rest.now fault) }
    {
        let part = self.procedure(rest, depth)?;
        Ok(Read {
            item: PlainPart::Procedure(part.item),
            rest: part.rest,
        })
    }

    // A part of a plain block that is a process.
    fn plain_process<'a>(
        self,
        rest: &'a [Token],
        depth: u32,
    ) -> Result<Read<'a, PlainPart>, ParseFault>
        requires first { HasFirst (ReservedClass Reserved.ProcessWord) rest.now }
        requires depth { depth ≤ 64 }
        ensures ok { IfOk result (λ r. IsReadUpTo self.end depth PlainPartsPhrase rest.now (λ more. r.item ∷ more) r.rest.now) }
        ensures shorter { IfOk result (λ r. length r.rest.now < length rest.now) }
        ensures refused { IfErr result (λ fault. IsRefused self.end depth PlainPartsPhrase rest.now fault) }
    {
        let part = self.process(rest, depth)?;
        Ok(Read {
            item: PlainPart::Process(part.item),
            rest: part.rest,
        })
    }

    // A part of a plain block that is a module.
    #[cycle(module)]
    fn inner_module<'a>(
        self,
        rest: &'a [Token],
        depth: u32,
    ) -> Result<Read<'a, PlainPart>, ParseFault>
        requires first { BeginsModule rest.now }
        requires depth { depth ≤ 64 }
        ensures ok { IfOk result (λ r. IsReadUpTo self.end depth PlainPartsPhrase rest.now (λ more. r.item ∷ more) r.rest.now) }
        ensures shorter { IfOk result (λ r. length r.rest.now < length rest.now) }
        ensures refused { IfErr result (λ fault. IsRefused self.end depth PlainPartsPhrase rest.now fault) }
    {
        let part = self.module(rest, depth)?;
        Ok(Read {
            item: PlainPart::Module(part.item),
            rest: part.rest,
        })
    }

    /// A plain block.
    #[cycle(module)]
    fn plain<'a>(self, rest: &'a [Token], depth: u32) -> Result<Read<'a, Plain>, ParseFault>
        requires depth { depth ≤ 64 }
        ensures ok { IfOk result (λ r. IsPlainRead self.end depth rest.now r.item r.rest.now) }
        ensures within { IfOk result (λ r. length r.rest.now ≤ length rest.now) }
        ensures refused { IfErr result (λ fault. IsRefusedAs self.end (plain_ahead depth) rest.now fault) }
    {
        let parts = self.plain_parts(rest, depth)?;
        let body = self.begun(parts.rest, depth)?;
        Ok(Read {
            item: Plain {
                parts: parts.item,
                body: body.item,
            },
            rest: body.rest,
        })
    }

    /// A module within a module, which is a counting node.
    #[cycle(module)]
    fn module<'a>(self, rest: &'a [Token], depth: u32) -> Result<Read<'a, Module>, ParseFault>
        requires depth { depth ≤ 64 }
        ensures ok { IfOk result (λ r. IsRead self.end depth ModulePhrase rest.now r.item r.rest.now) }
        ensures shorter { IfOk result (λ r. length r.rest.now < length rest.now) }
        ensures refused { IfErr result (λ fault. IsRefused self.end depth ModulePhrase rest.now fault) }
    {
        if sees_word(rest, Reserved::ModuleWord) {
            self.plain_module(rest, depth)
        } else if sees_word(rest, Reserved::InterfaceWord) {
            self.interface_module(rest, depth)
        } else if sees_word(rest, Reserved::DeviceWord) {
            self.device_module(rest, depth)
        } else {
            Err(self.no_module(rest, depth))
        }
    }

    // The fault where no module stands.
    fn no_module(self, rest: &[Token], _depth: u32) -> ParseFault
        requires plain { HasOther (ReservedClass Reserved.ModuleWord) rest.now }
        requires interface { HasOther (ReservedClass Reserved.InterfaceWord) rest.now }
        requires device { HasOther (ReservedClass Reserved.DeviceWord) rest.now }
        ensures { IsRefused self.end _depth ModulePhrase rest.now result }
    {
        self.unexpected(rest)
    }

    // `module id ; Lists Plain end id ;`
    #[cycle(module)]
    fn plain_module<'a>(self, rest: &'a [Token], depth: u32) -> Result<Read<'a, Module>, ParseFault>
        requires first { HasFirst (ReservedClass Reserved.ModuleWord) rest.now }
        requires depth { depth ≤ 64 }
        ensures ok { IfOk result (λ r. IsRead self.end depth ModulePhrase rest.now r.item r.rest.now) }
        ensures shorter { IfOk result (λ r. length r.rest.now < length rest.now) }
        ensures refused { IfErr result (λ fault. IsRefused self.end depth ModulePhrase rest.now fault) }
    {
        let inner = deeper(self.place(rest), depth)?;
        let module_word = self.word(rest, Reserved::ModuleWord)?;
        let name = self.name(module_word.rest)?;
        let semicolon = self.mark(name.rest, Symbol::Semicolon)?;
        let lists = self.boxed_lists(semicolon.rest, inner)?;
        let block = self.plain(lists.rest, inner)?;
        let ending = self.ending(block.rest, Symbol::Semicolon)?;
        Ok(Read {
            item: Module::Plain(PlainModule {
                module_word: module_word.item,
                name: name.item,
                semicolon: semicolon.item,
                lists: lists.item.into_inner(),
                block: block.item,
                end: ending.item.end,
                end_name: ending.item.name,
                end_semicolon: ending.item.mark,
            }),
            rest: ending.rest,
        })
    }

    // `interface module id ; Lists Face end id ;`
    fn interface_module<'a>(
        self,
        rest: &'a [Token],
        depth: u32,
    ) -> Result<Read<'a, Module>, ParseFault>
        requires first { HasFirst (ReservedClass Reserved.InterfaceWord) rest.now }
        requires depth { depth ≤ 64 }
        ensures ok { IfOk result (λ r. IsRead self.end depth ModulePhrase rest.now r.item r.rest.now) }
        ensures shorter { IfOk result (λ r. length r.rest.now < length rest.now) }
        ensures refused { IfErr result (λ fault. IsRefused self.end depth ModulePhrase rest.now fault) }
    {
        let inner = deeper(self.place(rest), depth)?;
        let interface_word = self.word(rest, Reserved::InterfaceWord)?;
        let module_word = self.word(interface_word.rest, Reserved::ModuleWord)?;
        let name = self.name(module_word.rest)?;
        let semicolon = self.mark(name.rest, Symbol::Semicolon)?;
        let lists = self.boxed_lists(semicolon.rest, inner)?;
        let block = self.face(lists.rest, inner)?;
        let ending = self.ending(block.rest, Symbol::Semicolon)?;
        Ok(Read {
            item: Module::Interface(InterfaceModule {
                interface_word: interface_word.item,
                module_word: module_word.item,
                name: name.item,
                semicolon: semicolon.item,
                lists: lists.item.into_inner(),
                block: block.item,
                end: ending.item.end,
                end_name: ending.item.name,
                end_semicolon: ending.item.mark,
            }),
            rest: ending.rest,
        })
    }

    // `device module id Bracket ; Lists Device end id ;`
    fn device_module<'a>(
        self,
        rest: &'a [Token],
        depth: u32,
    ) -> Result<Read<'a, Module>, ParseFault>
        requires first { HasFirst (ReservedClass Reserved.DeviceWord) rest.now }
        requires depth { depth ≤ 64 }
        ensures ok { IfOk result (λ r. IsRead self.end depth ModulePhrase rest.now r.item r.rest.now) }
        ensures shorter { IfOk result (λ r. length r.rest.now < length rest.now) }
        ensures refused { IfErr result (λ fault. IsRefused self.end depth ModulePhrase rest.now fault) }
    {
        let inner = deeper(self.place(rest), depth)?;
        let head = self.device_head(rest, inner)?;
        let lists = self.boxed_lists(head.rest, inner)?;
        let block = self.device(lists.rest, inner)?;
        let ending = self.ending(block.rest, Symbol::Semicolon)?;
        Ok(Read {
            item: Module::Device(DeviceModule {
                device_word: head.item.device_word,
                module_word: head.item.module_word,
                name: head.item.name,
                bracket: head.item.bracket.into_inner(),
                semicolon: head.item.semicolon,
                lists: lists.item.into_inner(),
                block: block.item,
                end: ending.item.end,
                end_name: ending.item.name,
                end_semicolon: ending.item.mark,
            }),
            rest: ending.rest,
        })
    }

    /// A program, at depth 0.
    pub fn program<'a>(self, rest: &'a [Token], depth: u32) -> Result<Read<'a, Tree>, ParseFault>
        requires depth { depth ≤ 64 }
        ensures ok { IfOk result (λ r. IsRead self.end depth ProgramPhrase rest.now r.item r.rest.now) }
        ensures shorter { IfOk result (λ r. length r.rest.now < length rest.now) }
        ensures refused { IfErr result (λ fault. IsRefused self.end depth ProgramPhrase rest.now fault) }
    {
        if sees_word(rest, Reserved::ModuleWord) {
            self.plain_program(rest, depth)
        } else if sees_word(rest, Reserved::DeviceWord) {
            self.device_program(rest, depth)
        } else {
            Err(self.no_program(rest, depth))
        }
    }

    // The fault where no program stands.
    fn no_program(self, rest: &[Token], _depth: u32) -> ParseFault
        requires plain { HasOther (ReservedClass Reserved.ModuleWord) rest.now }
        requires device { HasOther (ReservedClass Reserved.DeviceWord) rest.now }
        ensures { IsRefused self.end _depth ProgramPhrase rest.now result }
    {
        self.unexpected(rest)
    }

    // `module id ; Plain end id .`
    fn plain_program<'a>(self, rest: &'a [Token], depth: u32) -> Result<Read<'a, Tree>, ParseFault>
        requires first { HasFirst (ReservedClass Reserved.ModuleWord) rest.now }
        requires depth { depth ≤ 64 }
        ensures ok { IfOk result (λ r. IsRead self.end depth ProgramPhrase rest.now r.item r.rest.now) }
        ensures shorter { IfOk result (λ r. length r.rest.now < length rest.now) }
        ensures refused { IfErr result (λ fault. IsRefused self.end depth ProgramPhrase rest.now fault) }
    {
        let module_word = self.word(rest, Reserved::ModuleWord)?;
        let name = self.name(module_word.rest)?;
        let semicolon = self.mark(name.rest, Symbol::Semicolon)?;
        let block = self.plain(semicolon.rest, depth)?;
        let ending = self.ending(block.rest, Symbol::Dot)?;
        Ok(Read {
            item: Tree::Plain(PlainProgram {
                module_word: module_word.item,
                name: name.item,
                semicolon: semicolon.item,
                block: block.item,
                end: ending.item.end,
                end_name: ending.item.name,
                dot: ending.item.mark,
            }),
            rest: ending.rest,
        })
    }

    // `device module id Bracket ; Device end id .`
    fn device_program<'a>(self, rest: &'a [Token], depth: u32) -> Result<Read<'a, Tree>, ParseFault>
        requires first { HasFirst (ReservedClass Reserved.DeviceWord) rest.now }
        requires depth { depth ≤ 64 }
        ensures ok { IfOk result (λ r. IsRead self.end depth ProgramPhrase rest.now r.item r.rest.now) }
        ensures shorter { IfOk result (λ r. length r.rest.now < length rest.now) }
        ensures refused { IfErr result (λ fault. IsRefused self.end depth ProgramPhrase rest.now fault) }
    {
        let head = self.device_head(rest, depth)?;
        let block = self.device(head.rest, depth)?;
        let ending = self.ending(block.rest, Symbol::Dot)?;
        Ok(Read {
            item: Tree::Device(DeviceProgram {
                device_word: head.item.device_word,
                module_word: head.item.module_word,
                name: head.item.name,
                bracket: head.item.bracket.into_inner(),
                semicolon: head.item.semicolon,
                block: block.item,
                end: ending.item.end,
                end_name: ending.item.name,
                dot: ending.item.mark,
            }),
            rest: ending.rest,
        })
    }
}
