// Reading the blocks of interface and device modules, and the body of a block. The depth is the number of counting
// nodes around what is read.

ghost use Rattle.std.specs.Prelude.{◌≤◌, ◌<◌, ◌∷◌, length, IfOk, IfErr, IfSome, IfNone};
ghost use Rattle.mc_tree.specs.Classes.{ReservedClass};
ghost use Rattle.mc_tree.specs.Grammar.{BegunPhrase, DevicePartsPhrase, FacePartsPhrase};
ghost use Rattle.mc_parse.specs.Heads.{HasFirst, HasOther};
ghost use Rattle.mc_parse.specs.Begins.{BeginsDeclaration};
ghost use Rattle.mc_parse.specs.Reads.{IsRead, IsRefused, IsRefusedAs, IsReadUpTo};
ghost use Rattle.mc_parse.specs.Slots.{IsFaceRead, face_ahead, IsDeviceRead, device_ahead};

use crate::declaration::begins_declaration;
use crate::fault::ParseFault;
use crate::reader::{Read, Reader, sees_word};
use mc_tree::token::{Reserved, Token};
use mc_tree::tree::{Begun, Device, DevicePart, Face, FacePart};
use sqlite_items::Items;

impl Reader {
    /// The parts of an interface module's block.
    fn face_parts<'a>(
        self,
        rest: &'a [Token],
        depth: u32,
    ) -> Result<Read<'a, Items<FacePart>>, ParseFault>
        requires depth { depth ≤ 64 }
        ensures ok { IfOk result (λ r. IsRead self.end depth FacePartsPhrase rest.now r.item r.rest.now) }
        ensures within { IfOk result (λ r. length r.rest.now ≤ length rest.now) }
        ensures refused { IfErr result (λ fault. IsRefused self.end depth FacePartsPhrase rest.now fault) }
    {
        let mut items = Items::new(self.alloc);
        let mut left = rest;
        while let Some(part) = self.face_part(left, depth)? {
            items.push(part.item)?;
            left = part.rest;
        }
        Ok(Read {
            item: items,
            rest: left,
        })
    }

    // A part of an interface module's block, where one begins there.
    fn face_part<'a>(
        self,
        rest: &'a [Token],
        depth: u32,
    ) -> Result<Option<Read<'a, FacePart>>, ParseFault>
        requires depth { depth ≤ 64 }
        ensures ok { IfOk result (λ found. IfSome found (λ r. IsReadUpTo self.end depth FacePartsPhrase rest.now (λ more. r.item ∷ more) r.rest.now)) }
        ensures none { IfOk result (λ found. IfNone found ((HasOther (ReservedClass Reserved.ConstWord) rest.now × HasOther (ReservedClass Reserved.TypeWord) rest.now × HasOther (ReservedClass Reserved.VarWord) rest.now) × HasOther (ReservedClass Reserved.ProcedureWord) rest.now)) }
        ensures shorter { IfOk result (λ found. IfSome found (λ r. length r.rest.now < length rest.now)) }
        ensures refused { IfErr result (λ fault. IsRefused self.end depth FacePartsPhrase rest.now fault) }
    {
        if begins_declaration(rest) {
            return Ok(Some(self.face_declaration(rest, depth)?));
        }
        if sees_word(rest, Reserved::ProcedureWord) {
            return Ok(Some(self.face_procedure(rest, depth)?));
        }
        Ok(None)
    }

    // A part of an interface module's block that is a declaration.
    fn face_declaration<'a>(
        self,
        rest: &'a [Token],
        depth: u32,
    ) -> Result<Read<'a, FacePart>, ParseFault>
        requires first { BeginsDeclaration rest.now }
        requires depth { depth ≤ 64 }
        ensures ok { IfOk result (λ r. IsReadUpTo self.end depth FacePartsPhrase rest.now (λ more. r.item ∷ more) r.rest.now) }
        ensures shorter { IfOk result (λ r. length r.rest.now < length rest.now) }
        ensures refused { IfErr result (λ fault. IsRefused self.end depth FacePartsPhrase rest.now fault) }
    {
        let part = self.declaration(rest, depth)?;
        Ok(Read {
            item: FacePart::Decl(part.item),
            rest: part.rest,
        })
    }

    // A part of an interface module's block that is a procedure.
    fn face_procedure<'a>(
        self,
        rest: &'a [Token],
        depth: u32,
    ) -> Result<Read<'a, FacePart>, ParseFault>
        requires first { HasFirst (ReservedClass Reserved.ProcedureWord) rest.now }
        requires depth { depth ≤ 64 }
        ensures ok { IfOk result (λ r. IsReadUpTo self.end depth FacePartsPhrase rest.now (λ more. r.item ∷ more) r.rest.now) }
        ensures shorter { IfOk result (λ r. length r.rest.now < length rest.now) }
        ensures refused { IfErr result (λ fault. IsRefused self.end depth FacePartsPhrase rest.now fault) }
    {
        let part = self.procedure(rest, depth)?;
        Ok(Read {
            item: FacePart::Procedure(part.item),
            rest: part.rest,
        })
    }

    /// The parts of a device module's block.
    fn device_parts<'a>(
        self,
        rest: &'a [Token],
        depth: u32,
    ) -> Result<Read<'a, Items<DevicePart>>, ParseFault>
        requires depth { depth ≤ 64 }
        ensures ok { IfOk result (λ r. IsRead self.end depth DevicePartsPhrase rest.now r.item r.rest.now) }
        ensures within { IfOk result (λ r. length r.rest.now ≤ length rest.now) }
        ensures refused { IfErr result (λ fault. IsRefused self.end depth DevicePartsPhrase rest.now fault) }
    {
        let mut items = Items::new(self.alloc);
        let mut left = rest;
        while let Some(part) = self.device_part(left, depth)? {
            items.push(part.item)?;
            left = part.rest;
        }
        Ok(Read {
            item: items,
            rest: left,
        })
    }

    // A part of a device module's block, where one begins there.
    fn device_part<'a>(
        self,
        rest: &'a [Token],
        depth: u32,
    ) -> Result<Option<Read<'a, DevicePart>>, ParseFault>
        requires depth { depth ≤ 64 }
        ensures ok { IfOk result (λ found. IfSome found (λ r. IsReadUpTo self.end depth DevicePartsPhrase rest.now (λ more. r.item ∷ more) r.rest.now)) }
        ensures none { IfOk result (λ found. IfNone found ((HasOther (ReservedClass Reserved.ConstWord) rest.now × HasOther (ReservedClass Reserved.TypeWord) rest.now × HasOther (ReservedClass Reserved.VarWord) rest.now) × HasOther (ReservedClass Reserved.ProcedureWord) rest.now × HasOther (ReservedClass Reserved.ProcessWord) rest.now)) }
        ensures shorter { IfOk result (λ found. IfSome found (λ r. length r.rest.now < length rest.now)) }
        ensures refused { IfErr result (λ fault. IsRefused self.end depth DevicePartsPhrase rest.now fault) }
    {
        if begins_declaration(rest) {
            return Ok(Some(self.device_declaration(rest, depth)?));
        }
        if sees_word(rest, Reserved::ProcedureWord) {
            return Ok(Some(self.device_procedure(rest, depth)?));
        }
        if sees_word(rest, Reserved::ProcessWord) {
            return Ok(Some(self.device_process(rest, depth)?));
        }
        Ok(None)
    }

    // A part of a device module's block that is a declaration.
    fn device_declaration<'a>(
        self,
        rest: &'a [Token],
        depth: u32,
    ) -> Result<Read<'a, DevicePart>, ParseFault>
        requires first { BeginsDeclaration rest.now }
        requires depth { depth ≤ 64 }
        ensures ok { IfOk result (λ r. IsReadUpTo self.end depth DevicePartsPhrase rest.now (λ more. r.item ∷ more) r.rest.now) }
        ensures shorter { IfOk result (λ r. length r.rest.now < length rest.now) }
        ensures refused { IfErr result (λ fault. IsRefused self.end depth DevicePartsPhrase rest.now fault) }
    {
        let part = self.declaration(rest, depth)?;
        Ok(Read {
            item: DevicePart::Decl(part.item),
            rest: part.rest,
        })
    }

    // A part of a device module's block that is a procedure.
    fn device_procedure<'a>(
        self,
        rest: &'a [Token],
        depth: u32,
    ) -> Result<Read<'a, DevicePart>, ParseFault>
        requires first { HasFirst (ReservedClass Reserved.ProcedureWord) rest.now }
        requires depth { depth ≤ 64 }
        ensures ok { IfOk result (λ r. IsReadUpTo self.end depth DevicePartsPhrase rest.now (λ more. r.item ∷ more) r.rest.now) }
        ensures shorter { IfOk result (λ r. length r.rest.now < length rest.now) }
        ensures refused { IfErr result (λ fault. IsRefused self.end depth DevicePartsPhrase rest.now fault) }
    {
        let part = self.procedure(rest, depth)?;
        Ok(Read {
            item: DevicePart::Procedure(part.item),
            rest: part.rest,
        })
    }

    // A part of a device module's block that is a process.
    fn device_process<'a>(
        self,
        rest: &'a [Token],
        depth: u32,
    ) -> Result<Read<'a, DevicePart>, ParseFault>
        requires first { HasFirst (ReservedClass Reserved.ProcessWord) rest.now }
        requires depth { depth ≤ 64 }
        ensures ok { IfOk result (λ r. IsReadUpTo self.end depth DevicePartsPhrase rest.now (λ more. r.item ∷ more) r.rest.now) }
        ensures shorter { IfOk result (λ r. length r.rest.now < length rest.now) }
        ensures refused { IfErr result (λ fault. IsRefused self.end depth DevicePartsPhrase rest.now fault) }
    {
        let part = self.driver(rest, depth)?;
        Ok(Read {
            item: DevicePart::Driver(part.item),
            rest: part.rest,
        })
    }

    /// `[ begin Body ]`
    pub fn begun<'a>(
        self,
        rest: &'a [Token],
        depth: u32,
    ) -> Result<Read<'a, Option<Begun>>, ParseFault>
        requires depth { depth ≤ 64 }
        ensures ok { IfOk result (λ r. IsRead self.end depth BegunPhrase rest.now r.item r.rest.now) }
        ensures within { IfOk result (λ r. length r.rest.now ≤ length rest.now) }
        ensures refused { IfErr result (λ fault. IsRefused self.end depth BegunPhrase rest.now fault) }
    {
        if !sees_word(rest, Reserved::BeginWord) {
            return Ok(Read { item: None, rest });
        }
        let begin = self.word(rest, Reserved::BeginWord)?;
        let body = self.body(begin.rest, depth)?;
        Ok(Read {
            item: Some(Begun {
                begin: begin.item,
                body: body.item,
            }),
            rest: body.rest,
        })
    }

    /// The block of an interface module.
    pub fn face<'a>(self, rest: &'a [Token], depth: u32) -> Result<Read<'a, Face>, ParseFault>
        requires depth { depth ≤ 64 }
        ensures ok { IfOk result (λ r. IsFaceRead self.end depth rest.now r.item r.rest.now) }
        ensures within { IfOk result (λ r. length r.rest.now ≤ length rest.now) }
        ensures refused { IfErr result (λ fault. IsRefusedAs self.end (face_ahead depth) rest.now fault) }
    {
        let parts = self.face_parts(rest, depth)?;
        let body = self.begun(parts.rest, depth)?;
        Ok(Read {
            item: Face {
                parts: parts.item,
                body: body.item,
            },
            rest: body.rest,
        })
    }

    /// The block of a device module.
    pub fn device<'a>(self, rest: &'a [Token], depth: u32) -> Result<Read<'a, Device>, ParseFault>
        requires depth { depth ≤ 64 }
        ensures ok { IfOk result (λ r. IsDeviceRead self.end depth rest.now r.item r.rest.now) }
        ensures within { IfOk result (λ r. length r.rest.now ≤ length rest.now) }
        ensures refused { IfErr result (λ fault. IsRefusedAs self.end (device_ahead depth) rest.now fault) }
    {
        let parts = self.device_parts(rest, depth)?;
        let body = self.begun(parts.rest, depth)?;
        Ok(Read {
            item: Device {
                parts: parts.item,
                body: body.item,
            },
            rest: body.rest,
        })
    }
}
