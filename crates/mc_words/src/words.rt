// The words of the command line.

ghost use Rattle.std.specs.Prelude.{◌≡◌, map, IfOk, Some, None, IsErrOf, option_map, string_bytes};
ghost use Rattle.mc_words.specs.Options.{nothing_read, reads_all};
ghost use Rattle.mc_words.specs.Commands.{order_of, command_of, named, by_name, without_options, flag_of, value_in, single_of, pair_of, count_of, is_digit};
ghost use Rattle.mc_words.specs.Said.{said_by};

use crate::command::{Command, WordFault};
use crate::options::{Said, read_options};
use std::alloc::Global;

/// The command that words name, which are those after the program's name.
///
/// # Errors
///
/// `NoCommand` exactly where they name none, and `Memory`.
pub fn read_words<'a>(alloc: Global, words: &'a [String]) -> Result<Command<'a>, WordFault>
    ensures ok { IfOk result (λ c. command_of (map string_bytes words.now) ≡ Some (order_of c)) }
    ensures none { IsErrOf result WordFault.NoCommand → command_of (map string_bytes words.now) ≡ None }
{
    let [name, rest @ ..] = words else {
        return Err(WordFault::NoCommand);
    };
    let said = read_options(alloc, rest)?;
    match command_named(name.as_str(), &said) {
        Some(command) => Ok(command),
        None => Err(WordFault::NoCommand),
    }
}

// The command of this name.
#[tactic(auto, unfolding(crate::specs::Commands::named))]
fn command_named<'a>(name: &str, said: &Said<'a>) -> Option<Command<'a>>
    ensures { option_map order_of result ≡ named name.now (said_by said.now) }
{
    let journal = flag(said.journals)?;
    let settings = value(said.settings.as_slice())?;
    by_name(name, journal, settings, said.positionals.as_slice())
}

// Whether a flag stands there, at most once.
#[tactic(auto, unfolding(crate::specs::Commands::flag_of))]
fn flag(count: usize) -> Option<bool>
    ensures { result ≡ flag_of count }
{
    match count {
        0 => Some(false),
        1 => Some(true),
        _ => None,
    }
}

// The value of an option that stands at most once.
fn value<'a>(values: &[&'a str]) -> Option<Option<&'a str>>
    ensures { option_map (option_map (λ s. s.now)) result ≡ value_in (map (λ v. v.now) values.now) }
{
    match values {
        [] => Some(None),
        [value] => Some(Some(*value)),
        _ => None,
    }
}

// The one positional word.
fn single<'a>(words: &[&'a str]) -> Option<&'a str>
    ensures { option_map (λ w. w.now) result ≡ single_of (map (λ w. w.now) words.now) }
{
    match words {
        [word] => Some(*word),
        _ => None,
    }
}

// The two positional words.
fn pair<'a>(words: &[&'a str]) -> Option<(&'a str, &'a str)>
    ensures { option_map (λ p. (p.0.now, p.1.now)) result ≡ pair_of (map (λ w. w.now) words.now) }
{
    match words {
        [first, second] => Some((*first, *second)),
        _ => None,
    }
}

// The command of this name with these options and positional words.
#[tactic(auto, unfolding(crate::specs::Commands::by_name))]
fn by_name<'a>(
    name: &str,
    journal: bool,
    settings: Option<&'a str>,
    words: &[&'a str],
) -> Option<Command<'a>>
    ensures { option_map order_of result ≡ by_name name.now journal (option_map (λ s. s.now) settings.entry) (map (λ w. w.now) words.now) }
{
    if name == "run" {
        let (source, script) = pair(words)?;
        return Some(Command::Run {
            source,
            script,
            settings,
            journal,
        });
    }
    if name == "compile" && !journal {
        let (source, image) = pair(words)?;
        return Some(Command::Compile {
            source,
            image,
            settings,
        });
    }
    if settings.is_some() {
        return None;
    }
    if name == "exec" {
        let (image, script) = pair(words)?;
        return Some(Command::Exec {
            image,
            script,
            journal,
        });
    }
    if journal {
        return None;
    }
    without_options(name, words)
}

// A command that has no options.
#[tactic(auto, unfolding(crate::specs::Commands::without_options))]
fn without_options<'a>(name: &str, words: &[&'a str]) -> Option<Command<'a>>
    ensures { option_map order_of result ≡ without_options name.now (map (λ w. w.now) words.now) }
{
    let word = single(words)?;
    match name {
        "check" => Some(Command::Check { source: word }),
        "generate" => Some(Command::Generate { n: count(word)? }),
        "self" => Some(Command::OwnRun { n: count(word)? }),
        _ => None,
    }
}

// A decimal number from 1 to 26.
#[tactic(auto, unfolding(crate::specs::Commands::count_of))]
fn count(digits: &str) -> Option<u8>
    ensures { result ≡ count_of digits.now }
{
    let mut value: u16 = 0;
    for digit in digits.as_bytes() {
        if !is_digit(*digit) {
            return None;
        }
        value = (value * 10 + u16::from(*digit - b'0')).min(27);
    }
    if value >= 1 && value <= 26 {
        Some(value as u8)
    } else {
        None
    }
}

fn is_digit(byte: u8) -> bool
    ensures { result ≡ is_digit byte }
{
    byte >= b'0' && byte <= b'9'
}
