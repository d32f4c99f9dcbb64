// What names do in a text.

use mc_tree::tree::Id;
use std::marker::Model;

/// What has a scope of its own.
#[derive(Clone, Copy, PartialEq, Eq, Debug)]
pub enum ScopeKind {
    /// A module.
    Block,
    /// A procedure or a process.
    Code,
    /// The fields of a record.
    Record,
}

/// What a name does where it stands in a text, or where a scope opens or closes.
#[derive(Clone, Copy, Debug)]
pub enum Note<'a> {
    Opens(ScopeKind),
    /// The innermost scope closes.
    Closes,
    Declares(&'a Id),
    /// A field of the record whose scope is the innermost.
    Field(&'a Id),
    /// From here on a declared name is known.
    Knows(&'a Id),
    /// A name of a module's use list.
    Lists(&'a Id),
    /// A name of a module's define list, at the end of that module.
    Defines(&'a Id),
    Uses(&'a Id),
    /// The name of a module, a procedure or a process, and the name behind its end.
    Ends(&'a Id, &'a Id),
}

/// A note, which contracts see as what it says of names.
#[derive(Debug, Drop)]
pub struct Item<'a> {
    pub note: Note<'a>,
}

impl<'a> Model for Item<'a> {
    ghost use Rattle.mc_prog.specs.Notes.{Item as NameItem};

    ghost Value = { NameItem };

    ghost use Rattle.mc_resolve.specs.Items.{item_of};

    ghost view = { λ i. item_of i.note };
}
