// Why the machine stopped.

ghost use Rattle.std.specs.Prelude.{◌≡◌};
ghost use Rattle.pdp_machine.specs.Stops.{stop_of};

use mc_word::Word;
use pdp_def::outcome::Outcome;

/// Why the machine stopped; from then on it does nothing.
#[derive(Clone, Copy, PartialEq, Eq, Debug)]
pub enum Stop {
    /// It met HALT.
    Halt,
    /// An instruction or a grant met this bad address.
    BusFault(Word),
    /// It met this word, which is no instruction.
    Reserved(Word),
    /// It waits, and no event is to come.
    Silent,
    /// The script's limit was reached.
    Limit,
}

/// The stop that an outcome makes, if it makes one.
pub fn stop_of(outcome: Outcome) -> Option<Stop>
    ensures { result ≡ stop_of outcome }
{
    match outcome {
        Outcome::Ran | Outcome::Idle => None,
        Outcome::Halt => Some(Stop::Halt),
        Outcome::BusFault(a) => Some(Stop::BusFault(a)),
        Outcome::Reserved(w) => Some(Stop::Reserved(w)),
    }
}
