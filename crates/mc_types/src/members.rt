// The fields of records.

ghost use Rattle.std.specs.Prelude.{◌≡◌, OnOk, IfOk, option_map, slice_get};
ghost use Rattle.mc_prog.specs.Declarations.{any_signal, group_names, members_of, names_by, record_by, record_type, with_field, with_fields, with_group};
ghost use Rattle.mc_types.specs.Views.{built_of, ids_of};

use crate::parts::typed_at;
use crate::said::{UNKNOWN, fine};
use crate::types::words_of;
use crate::written::{built, has_signal, type_in};
use mc_pieces::piece::{Construct, Piece};
use mc_prog::program::{FieldInfo, Fields, Shape, TypeInfo};
use mc_prog::typing::{Change, Meaning, Said, Typed};
use mc_tree::place::Place;
use mc_tree::tree::{Id, Ids};
use mc_word::bytes::{Memory, Text};
use std::alloc::Global;
use std::marker::Model;

/// The fields of a record so far, and their words.
#[derive(Drop)]
struct Members {
    fields: Vec<FieldInfo>,
    words: u32,
}

impl Model for Members {
    ghost use Rattle.mc_prog.specs.Declarations.{Members as RecordMembers};

    ghost Value = { RecordMembers };

    ghost view = { λ m. record { fields = m.fields.items; words = m.words } };
}

impl Members {
    // One more field, of a type of so many words.
    fn add(&mut self, alloc: Global, type_of: u32, words: u32, id: &Id) -> Result<(), Memory>
        ensures { OnOk result (self.new ≡ with_field type_of words id.now self.old) }
    {
        let name = Text::from_slice(alloc, id.text.as_slice())?;
        self.fields.push(FieldInfo {
            name,
            type_of,
            offset: self.words,
        })?;
        self.words = self.words.checked_add(words).ok_or(Memory)?;
        Ok(())
    }

    // The fields of a group.
    fn add_all(
        &mut self,
        alloc: Global,
        type_of: u32,
        words: u32,
        names: &Ids,
    ) -> Result<(), Memory>
        ensures { OnOk result (self.new ≡ with_fields type_of words names.now self.old) }
    {
        self.add(alloc, type_of, words, &names.first)?;
        for more in names.more.as_slice() {
            self.add(alloc, type_of, words, &more.item)?;
        }
        Ok(())
    }
}

// The names of fields, where the piece of that number is a group of them.
fn names_at<'a>(pieces: &[Piece<'a>], number: u32) -> Option<&'a Ids>
    ensures { option_map ids_of result ≡ names_by (slice_get pieces.now number) }
{
    let piece = pieces.get(number as usize)?;
    match piece.construct {
        Construct::FieldGroup(names) => Some(names),
        _ => None,
    }
}

// The fields with those of one more group, where its type is known.
fn with_group(
    alloc: Global,
    types: &[TypeInfo],
    names: Option<&Ids>,
    type_of: Option<u32>,
    members: Option<Members>,
) -> Result<Option<Members>, Memory>
    ensures { IfOk result (λ m. m ≡ with_group types.now (option_map ids_of names.entry) type_of members) }
{
    let (Some(names), Some(t), Some(mut members)) = (names, type_of, members) else {
        return Ok(None);
    };
    members.add_all(alloc, t, words_of(types, t), names)?;
    Ok(Some(members))
}

// Whether one of these groups of fields has a signal.
fn any_signal(types: &[TypeInfo], typed: &[Typed], groups: &[u32]) -> bool
    ensures { result ≡ any_signal types.now typed.now groups.now }
{
    for number in groups {
        if has_signal(types, typed_at(typed, *number).meaning) {
            return true;
        }
    }
    false
}

/// A record, by the groups of its fields; one with a signal is no type.
pub fn record_type(
    alloc: Global,
    types: &mut Vec<TypeInfo>,
    place: Place,
    pieces: &[Piece],
    typed: &[Typed],
    groups: &[u32],
) -> Result<Said, Memory>
    ensures { IfOk result (λ said. built_of said types.new.items ≡ record_type types.old.items place pieces.now typed.now groups.now) }
{
    if any_signal(types.as_slice(), typed, groups) {
        return Ok(fine(Meaning::Unknown(Change::Never)));
    }
    let mut members = Some(Members {
        fields: Vec::new(alloc),
        words: 0,
    });
    for number in groups {
        let names = names_at(pieces, *number);
        let type_of = type_in(typed_at(typed, *number).meaning);
        members = with_group(alloc, types.as_slice(), names, type_of, members)?;
    }
    record_by(types, place, members)
}

// The record of these fields, unless it is too large.
fn record_by(
    types: &mut Vec<TypeInfo>,
    place: Place,
    members: Option<Members>,
) -> Result<Said, Memory>
    ensures { IfOk result (λ said. built_of said types.new.items ≡ record_by types.old.items place members) }
{
    let Some(members) = members else {
        return Ok(fine(UNKNOWN));
    };
    let Members { fields, words } = members;
    let info = TypeInfo {
        words,
        shape: Shape::Record(Fields { fields }),
        holds_signal: false,
    };
    built(types, place, info)
}
