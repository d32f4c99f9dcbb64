// The uses of names in a program, each with its declaration.

ghost use Rattle.std.specs.Prelude.{◌≡◌};

use mc_tree::place::Place;
use std::marker::Model;

/// A use of a name, and the declaration that it finds.
#[derive(Clone, Copy, PartialEq, Eq, Debug)]
pub struct Naming {
    /// Where the name is used.
    pub at: Place,
    /// Where it is declared; line 0 and column 0 for a standard name.
    pub declared: Place,
}

/// The uses of names in a program in the order of its text, which contracts see as a list. Fields are no uses, nor
/// are the names of define and use lists and those behind `end`.
#[derive(Debug, Drop)]
pub struct Scoped {
    names: Vec<Naming>,
}

impl Model for Scoped {
    ghost use Rattle.std.specs.Prelude.{List};
    ghost use Rattle.mc_prog.specs.declared.scoped.Naming.{Naming};

    ghost Value = { List Naming };

    ghost view = { λ s. s.names.items };
}

impl Scoped {
    /// The namings of a vector, which keeps its memory.
    pub fn from_vec(names: Vec<Naming>) -> Scoped
        ensures { result ≡ names.items }
    {
        Scoped { names }
    }

    /// The namings, in the order of the text.
    pub fn as_slice(&self) -> &[Naming]
        ensures { result.now ≡ self.now }
    {
        self.names.as_slice()
    }
}
