// Programs of process code.

use crate::instruction::PInstr;
use mc_word::Word;
use std::marker::Model;

/// A text that runs: that of the main process, a process, a procedure or the body of a module.
#[derive(Clone, Copy, PartialEq, Eq, Debug)]
pub struct PEntry {
    /// Its place in the code.
    pub at: u16,
    /// How many words are handed to it, one for each parameter.
    pub params: u32,
    /// How many words an activation has of its own besides.
    pub locals: u32,
    /// How many words of a workspace an activation is counted for.
    pub frame: u32,
}

/// A process of the program.
#[derive(Clone, Copy, PartialEq, Eq, Debug)]
pub struct PProcess {
    /// The number of its text among the entries.
    pub entry: u16,
    /// The vector of a device process.
    pub vector: Option<Word>,
    /// The priority at which it begins.
    pub priority: u16,
}

/// A program, which contracts see as one record of its lists.
#[derive(Debug, Drop)]
pub struct PProgram {
    pub code: Vec<PInstr>,
    /// That of the main process first, then those of the processes, the procedures and the bodies of modules.
    pub entries: Vec<PEntry>,
    /// The processes of the program by their numbers.
    pub processes: Vec<PProcess>,
    /// The priority of each module, 0 where it has none.
    pub priorities: Vec<u16>,
    /// The bytes of texts, one a word.
    pub texts: Vec<Word>,
    /// How many words the variables of modules take.
    pub data_words: u16,
}

impl Model for PProgram {
    ghost use Rattle.mc_pcode.specs.Code.{ProcessCode};

    ghost Value = { ProcessCode };

    ghost view = { λ p. record { code = p.code.items; entries = p.entries.items; processes = p.processes.items; priorities = p.priorities.items; texts = p.texts.items; data_words = p.data_words } };
}
