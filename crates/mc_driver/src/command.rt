// The top call.

ghost use Rattle.std.specs.Prelude.{◌≡◌, ◌≢◌, Some, None, [], map, codes, string_bytes};
ghost use Rattle.mc_words.specs.Commands.{order_of, command_of};
ghost use Rattle.mc_driver.specs.Outside.{EndsSaving};
ghost use Rattle.mc_driver.specs.Refusal.{IsLine};
ghost use Rattle.mc_driver.specs.Stages.{AsksNothing, SavesNothing};
ghost use Rattle.mc_driver.specs.Answer.{AnswersTo, IsAnswer, HasStatus, asks_of, target_of};

use crate::check::check;
use crate::compile::compile;
use crate::files::say;
use crate::generate::generate;
use crate::run::{exec, run};
use crate::status::{NO_MEMORY, NOT_YET, WORDS};
use mc_shelf::shelf::Shelf;
use mc_words::{Command, WordFault, read_words};
use std::alloc::Global;

// A command that is not built yet.
fn not_yet<S: Shelf>(shelf: &mut S) -> u8
    ensures { EndsSaving (S.seen shelf.old) [] None (SavesNothing (λ files. AsksNothing (IsLine 15 (codes "not yet words\n")))) result (S.seen shelf.new) }
{
    say(shelf, b"not yet words\n", NOT_YET)
}

// Does what a command asks.
fn obey<S: Shelf>(alloc: Global, command: Command, shelf: &mut S) -> u8
    ensures { EndsSaving (S.seen shelf.old) (asks_of (Some (order_of command.entry))) (target_of (Some (order_of command.entry))) (AnswersTo (Some (order_of command.entry))) result (S.seen shelf.new) }
{
    match command {
        Command::Run {
            source,
            script,
            settings,
            journal,
        } => run(alloc, source, script, settings, journal, shelf),
        Command::Exec {
            image,
            script,
            journal,
        } => exec(alloc, image, script, journal, shelf),
        Command::Compile {
            source,
            image,
            settings,
        } => compile(alloc, source, image, settings, shelf),
        Command::Check { source } => check(alloc, source, shelf),
        Command::Generate { n } => generate(alloc, n, shelf),
        Command::OwnRun { .. } => not_yet(shelf),
    }
}

/// Does what the words of a command ask of a shelf. `run SOURCE SCRIPT` compiles the source, runs its image under the
/// script, and prints the report; `compile SOURCE IMAGE` saves the image; `exec IMAGE SCRIPT` runs an image; `check SOURCE`
/// says whether a source is accepted; `generate N` prints the source of a ring of N processes. Answers a status: 0 where
/// every process ended, the image was saved, or the source is accepted or printed, 1 where the words are no command, 2 where
/// the source has a fault, 3 where the script is refused, 4 where the image is refused, 5 after a trap, 6 where some process
/// has not ended and nothing can happen any more, 7 where the limit was reached, 8 where a foreign image stopped, 9 after a
/// workspace check, 10 where the settings are refused, 11 where the outside failed, 12 for want of memory, 13 where the
/// source is too large, 14 where a file is too long, and 15 where the command or the form of the source is not built yet.
pub fn modula<S: Shelf>(alloc: Global, words: &[String], shelf: &mut S) -> u8
    // What is answered, asked, printed and saved, and why.
    ensures ends { EndsSaving (S.seen shelf.old) (asks_of (command_of (map string_bytes words.now))) (target_of (command_of (map string_bytes words.now))) (IsAnswer (map string_bytes words.now)) result (S.seen shelf.new) }

    // The statuses that these words can have, whatever the shelf tells of itself.
    ensures status { HasStatus (map string_bytes words.now) result }
{
    answer(alloc, words, shelf)
}

// Answers what words say.
fn answer<S: Shelf>(alloc: Global, words: &[String], shelf: &mut S) -> u8
    ensures { EndsSaving (S.seen shelf.old) (asks_of (command_of (map string_bytes words.now))) (target_of (command_of (map string_bytes words.now))) (IsAnswer (map string_bytes words.now)) result (S.seen shelf.new) }
{
    match read_words(alloc, words) {
        Ok(command) => obey(alloc, command, shelf),
        Err(WordFault::NoCommand) => say(shelf, b"words\n", WORDS),
        Err(WordFault::Memory) => NO_MEMORY,
    }
}
