// Options and positional words, by `clap`.

ghost use Rattle.std.specs.Prelude.{◌≡◌, ◌≢◌, map, option_map, IfOk, Some, None, IsErrOf, string_bytes};
ghost use Rattle.clap.specs.Words.{app_of, found_of, kind_of, rows_of};
ghost use Rattle.mc_words.specs.Options.{parts_of, nothing_read, reads_all};
ghost use Rattle.mc_words.specs.Said.{said_by, found_in};
ghost use Rattle.mc_words.specs.Rows.{values_in};
ghost use Rattle.mc_words.specs.Arguments.{app};

use crate::command::WordFault;
use clap::error::ErrorKind;
use clap::{Arg, ArgAction, ArgMatches, Command, Error};
use std::alloc::{AllocError, Global};

/// What the words behind a command say.
#[derive(Drop)]
pub struct Said<'a> {
    /// How often `--journal` stands there.
    pub journals: usize,
    /// The values of `--settings`.
    pub settings: Vec<&'a str>,
    pub positionals: Vec<&'a str>,
}

/// What words say, whichever command they stand behind.
///
/// # Errors
///
/// `NoCommand` exactly where a word begins with `-` and is no option that a command has, or an option has a value that
/// it does not take or lacks its value; and `Memory`.
pub fn read_options<'a>(alloc: Global, words: &'a [String]) -> Result<Said<'a>, WordFault>
    ensures ok { IfOk result (λ s. option_map parts_of (reads_all nothing_read (map string_bytes words.now)) ≡ Some (said_by s)) }
    ensures none { IsErrOf result WordFault.NoCommand → reads_all nothing_read (map string_bytes words.now) ≡ None }
{
    let command = options(alloc)?;
    match command.try_get_matches_from(words) {
        Ok(matches) => Ok(gathered(alloc, &matches)?),
        Err(error) => Err(refusal(&error)),
    }
}

// What was found, as often as it was.
fn gathered<'a>(alloc: Global, matches: &ArgMatches<'a>) -> Result<Said<'a>, AllocError>
    ensures { IfOk result (λ s. said_by s ≡ found_in (rows_of (found_of matches.now))) }
{
    Ok(Said {
        journals: values(alloc, matches, "journal")?.len(),
        settings: values(alloc, matches, "settings")?,
        positionals: values(alloc, matches, "word")?,
    })
}

// Why `clap` refuses words.
fn refusal(error: &Error) -> WordFault
    ensures { result ≡ WordFault.NoCommand → kind_of error.now ≢ ErrorKind.OutOfMemory }
{
    if error.kind() == ErrorKind::OutOfMemory {
        WordFault::Memory
    } else {
        WordFault::NoCommand
    }
}

// The options and the words that are none, each as often as it stands there.
fn options<'a>(alloc: Global) -> Result<Command<'a>, AllocError>
    ensures { IfOk result (λ c. app_of c ≡ app) }
{
    let journal = Arg::new(alloc, "journal")
        .long("journal")
        .action(ArgAction::Append)
        .num_args(0usize)
        .default_missing_value("journal");
    let settings = Arg::new(alloc, "settings")
        .long("settings")
        .action(ArgAction::Append);
    let word = Arg::new(alloc, "word").action(ArgAction::Append);
    Command::new(alloc, "modula")
        .no_binary_name(true)
        .disable_help_flag(true)
        .arg(journal)?
        .arg(settings)?
        .arg(word)
}

// What was found for an argument.
fn values<'a>(alloc: Global, matches: &ArgMatches<'a>, id: &str) -> Result<Vec<&'a str>, AllocError>
    ensures { IfOk result (λ v. map (λ s. s.now) v.items ≡ values_in id.now (rows_of (found_of matches.now))) }
{
    match matches.get_raw(id) {
        Some(values) => Vec::from_slice(alloc, values),
        None => Ok(Vec::new(alloc)),
    }
}
