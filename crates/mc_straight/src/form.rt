// The form of the sources that are compiled today.

use mc_word::Word;
use pdp_dev::entry::Port;
use std::marker::Model;

/// An assignment of a byte to the register of a variable.
#[derive(Clone, Copy, PartialEq, Eq, Debug)]
pub struct Put {
    /// The variable's number, from 0.
    pub variable: usize,
    /// Its register: the printer's or the punch's.
    pub port: Port,
    pub byte: u8,
}

/// A straight-line device module: its priority, its variables, and the bytes that it assigns to them.
#[derive(Debug, Drop)]
pub struct StraightLine {
    /// 4 to 7.
    pub priority: Word,
    /// The register of each variable.
    pub variables: Vec<Port>,
    /// The statements, in order.
    pub puts: Vec<Put>,
}

impl Model for StraightLine {
    ghost use Rattle.mc_straight.specs.Form.{Straight};

    ghost Value = { Straight };

    ghost view = { λ s. record { priority = s.priority; variables = s.variables.items; puts = s.puts.items } };
}
