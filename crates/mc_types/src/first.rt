// Which of two faults that rules find comes first: that of the earlier place, and at one place that of the lesser
// number. Y1 comes only where no other code does, and so comes last.

ghost use Rattle.std.specs.Prelude.{◌≡◌};
ghost use Rattle.std.specs.Bool.{OnTrue, OnFalse};
ghost use Rattle.mc_prog.specs.First.{number_of};
ghost use Rattle.mc_types.specs.Ranks.{ComesFirst, IsFirstOf, rank};

use mc_prog::first::number;
use mc_tree::fault::{Code, Fault};

fn rank(code: Code) -> u32
    ensures { result ≡ rank code }
{
    match code {
        Code::Y1 => 29,
        _ => number(code),
    }
}

fn comes_first(one: Fault, other: Fault) -> bool
    ensures yes { OnTrue result (ComesFirst one other) }
    ensures no { OnFalse result (ComesFirst other one) }
{
    if one.place.line != other.place.line {
        return one.place.line < other.place.line;
    }
    if one.place.column != other.place.column {
        return one.place.column < other.place.column;
    }
    rank(one.code) <= rank(other.code)
}

/// The first of two faults, or the one that is there.
pub fn first_of(one: Option<Fault>, other: Option<Fault>) -> Option<Fault>
    ensures { IsFirstOf one other result }
{
    match (one, other) {
        (Some(f), Some(g)) => Some(if comes_first(f, g) { f } else { g }),
        (Some(f), None) => Some(f),
        (None, g) => g,
    }
}
