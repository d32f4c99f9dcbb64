// How runs end, and the statuses that say so.

ghost use Rattle.std.specs.Prelude.{◌≡◌, ◌≢◌, Some};
ghost use Rattle.mc_report.specs.Report.{IsNamed};
ghost use Rattle.mc_driver.specs.Run.{ending_of, stop_ending, ending_at, status_of};

use mc_report::ending::Ending;
use mc_word::Word;
use pdp_machine::stop::Stop;

/// Where an image comes from.
#[derive(Clone, Copy, PartialEq, Eq, Debug)]
pub enum Origin {
    /// It was compiled from a source.
    Compiled,
    /// It was loaded as it is.
    Foreign,
}

/// The ending of a run whose machine stopped so, with these words at 46 and 50 octal.
pub fn ending_at(origin: Origin, stop: Stop, trap: Word, live: Word) -> Ending
    ensures value { result ≡ ending_at origin (Some stop) trap live }
    ensures named { IsNamed result }
{
    match origin {
        Origin::Compiled => ending_of(stop, trap, live),
        Origin::Foreign => stop_ending(stop),
    }
}

// The ending of a compiled program: a halt is a trap of the number in word 46, and silence is the end where no process
// is left.
fn ending_of(stop: Stop, trap: Word, live: Word) -> Ending
    ensures value { result ≡ ending_of (Some stop) trap live }
    ensures named { IsNamed result }
{
    match stop {
        Stop::Halt if trap >= 1 && trap <= 9 => Ending::Trap(trap),
        Stop::Silent if live == 0 => Ending::End,
        Stop::Silent => Ending::Stuck,
        _ => stop_ending(stop),
    }
}

// The stop as it is.
fn stop_ending(stop: Stop) -> Ending
    ensures value { result ≡ stop_ending (Some stop) }
    ensures named { IsNamed result }
{
    match stop {
        Stop::Halt => Ending::Halt,
        Stop::BusFault(address) => Ending::BusFault(address),
        Stop::Reserved(word) => Ending::Reserved(word),
        Stop::Silent => Ending::Silent,
        Stop::Limit => Ending::Limit,
    }
}

/// The status of an ending.
pub fn status_of(ending: Ending) -> u8
    ensures { result ≡ status_of ending }
{
    match ending {
        Ending::End => 0,
        Ending::Stuck => 6,
        Ending::Trap(n) if n <= 7 => 5,
        Ending::Trap(_) => 9,
        Ending::Limit => 7,
        Ending::Halt | Ending::BusFault(_) | Ending::Reserved(_) | Ending::Silent => 8,
    }
}
