// The commands.

use std::alloc::AllocError;
use thiserror::Error;

/// What the words of the command line ask for. Each name is that of a file.
#[derive(Clone, Copy, PartialEq, Eq, Debug)]
pub enum Command<'a> {
    /// Compiles a source, runs its image under a script, and prints the report.
    Run {
        source: &'a str,
        script: &'a str,
        settings: Option<&'a str>,
        journal: bool,
    },
    /// Compiles a source and saves its image.
    Compile {
        source: &'a str,
        image: &'a str,
        settings: Option<&'a str>,
    },
    /// Runs an image under a script, and prints the report.
    Exec {
        image: &'a str,
        script: &'a str,
        journal: bool,
    },
    /// Looks for faults in a source.
    Check {
        source: &'a str,
    },
    /// Prints the source of a ring of `n` processes, from 1 to 26.
    Generate {
        n: u8,
    },
    /// The command `self`: runs that source.
    OwnRun {
        n: u8,
    },
}

/// Why words are refused.
#[derive(Clone, Copy, PartialEq, Eq, Debug, Error)]
pub enum WordFault {
    /// The words are no command.
    #[error("no command")]
    NoCommand,
    #[error("memory")]
    Memory,
}

impl From<AllocError> for WordFault {
    ghost use Rattle.std.specs.Prelude.{◌≡◌};
    ghost use Rattle.mc_words.specs.declared.command.WordFault.TheVariants as word_fault;

    ghost from_gives = { λ _ fault. fault ≡ word_fault.Memory };

    fn from(_error: AllocError) -> WordFault {
        WordFault::Memory
    }
}
