// What is still to come from outside: bytes on the tape, and keys.

ghost use Rattle.std.specs.Prelude.{◌≡◌, drop, is_some, if◌then◌else◌};
ghost use Rattle.pdp_machine.specs.Timed.{next_byte, next_key, key_at};

use mc_script::script::Key;
use std::collections::VecDeque;

/// Takes the next byte of a tape, where one is left.
pub fn next_byte(tape: &mut VecDeque<u8>) -> Option<u8>
    ensures value { result ≡ next_byte tape.old.items }
    ensures rest { tape.new.items ≡ drop 1 tape.old.items }
{
    tape.pop_front()
}

/// The time of the next key, where one is left.
pub fn next_key(keys: &VecDeque<Key>) -> Option<u64>
    ensures { result ≡ next_key keys.now.items }
{
    keys.front().map(|key| u64::from(key.at))
}

/// Takes the next key, if it is struck at this time; answers its byte.
pub fn take_key(keys: &mut VecDeque<Key>, time: u64) -> Option<u8>
    ensures value { result ≡ key_at time keys.old.items }
    ensures rest { keys.new.items ≡ (if is_some result then drop 1 keys.old.items else keys.old.items) }
{
    if next_key(keys) == Some(time) {
        keys.pop_front().map(|key| key.byte)
    } else {
        None
    }
}
