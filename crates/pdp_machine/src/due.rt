// When events are due.

ghost use Rattle.std.specs.Prelude.{◌≡◌, ◌+◌, ◌*◌, ◌≤◌, ◌<◌, ◌^◌, ℕ};
ghost use Rattle.pdp_machine.specs.Timed.{is_due, is_tick, due_after, earlier, next_tick, IsAhead};
ghost use Rattle.mc_script.specs.Script.{IsPeriod};

/// Whether an operation is done at this time.
pub fn is_due(due: Option<u64>, time: u64) -> bool
    ensures { result ≡ is_due due time }
{
    due == Some(time)
}

/// Whether a clock of this period ticks at a time.
pub fn is_tick(clock: Option<u32>, time: u64) -> bool
    requires { IsPeriod clock }
    ensures { result ≡ is_tick clock time }
{
    match clock {
        Some(period) => time > 0 && time % u64::from(period) == 0,
        None => false,
    }
}

/// When an operation is done, after a moment that found the device busy or not and left it so.
pub fn due_after(was_busy: bool, busy: bool, due: Option<u64>, later: u64) -> Option<u64>
    ensures value { result ≡ due_after was_busy busy due later }
    ensures ahead { (time : ℕ) → IsAhead time due → time ≤ later → IsAhead time result }
{
    if !busy {
        None
    } else if was_busy {
        due
    } else {
        Some(later)
    }
}

/// The earlier of two times, where there are two.
pub fn earlier(a: Option<u64>, b: Option<u64>) -> Option<u64>
    ensures value { result ≡ earlier a b }
    ensures ahead { (time : ℕ) → IsAhead time a → IsAhead time b → IsAhead time result }
{
    match (a, b) {
        (Some(x), Some(y)) => Some(x.min(y)),
        (Some(x), None) => Some(x),
        (None, b) => b,
    }
}

/// The first tick after a time.
pub fn next_tick(clock: Option<u32>, time: u64) -> Option<u64>
    requires period { IsPeriod clock }
    requires time { time ≤ 20000000 }
    ensures value { result ≡ next_tick clock time }
    ensures ahead { IsAhead (time + 1) result }
{
    match clock {
        Some(period) => {
            let period = u64::from(period);
            Some((time / period + 1) * period)
        }
        None => None,
    }
}
