// Words of 16 bits: their arithmetic with condition codes, tables of them, and the settings of a compiled program.

ghost use Rattle.std.specs.Prelude.{◌≡◌, nat_le, ◌+◌, ◌<◌, ◌≤◌, false, true, ◌+ℤ◌, ◌-ℤ◌, length, slice_index, slice_set};
ghost use Rattle.std.specs.List.{All};
ghost use Rattle.mc_word.specs.Word.{signed_of, Overflows, sum_of, sum_codes, difference_of, difference_codes, extended};

use crate::Word;
use std::marker::Model;

/// The processor's condition codes (DEC's Processor Handbook): negative, zero, overflow, carry.
#[derive(Clone, Copy, PartialEq, Eq, Debug)]
pub struct Codes {
    pub n: bool,
    pub z: bool,
    pub v: bool,
    pub c: bool,
}

/// The number that a word stands for, in two's complement.
pub fn signed(w: Word) -> i16
    ensures { result ≡ signed_of w }
{
    w.cast_signed()
}

/// The sum modulo 65536, and the codes that ADD sets (DEC's Processor Handbook).
///
/// V is set exactly where the sum of the signed numbers is no word's.
pub fn sum(a: Word, b: Word) -> (Word, Codes)
    ensures word { result.0 ≡ sum_of a b }
    ensures codes { result.1 ≡ sum_codes a b }
    ensures fits { result.1.v ≡ false → signed_of result.0 ≡ signed_of a +ℤ signed_of b }
    ensures overflows { result.1.v ≡ true → Overflows (signed_of a +ℤ signed_of b) }
{
    let word = a.wrapping_add(b);
    let codes = Codes {
        n: is_negative(word),
        z: word == 0,
        v: is_negative(a) == is_negative(b) && is_negative(a) != is_negative(word),
        c: word < a,
    };
    (word, codes)
}

/// The difference `a - b` modulo 65536, and the codes that CMP sets (DEC's Processor Handbook).
///
/// V is set exactly where the difference of the signed numbers is no word's.
pub fn difference(a: Word, b: Word) -> (Word, Codes)
    ensures word { result.0 ≡ difference_of a b }
    ensures codes { result.1 ≡ difference_codes a b }
    ensures fits { result.1.v ≡ false → signed_of result.0 ≡ signed_of a -ℤ signed_of b }
    ensures overflows { result.1.v ≡ true → Overflows (signed_of a -ℤ signed_of b) }
{
    let word = a.wrapping_sub(b);
    let codes = Codes {
        n: is_negative(word),
        z: word == 0,
        v: is_negative(a) != is_negative(b) && is_negative(b) == is_negative(word),
        c: a < b,
    };
    (word, codes)
}

/// A byte as a word of the same sign.
pub fn extend(b: u8) -> Word
    ensures { result ≡ extended b }
{
    if b < 0o200 {
        Word::from(b)
    } else {
        Word::from(b) + 0o177400
    }
}

// Whether the sign bit is set.
fn is_negative(w: Word) -> bool
    ensures { result ≡ nat_le 0o100000 w }
{
    w >= 0o100000
}

/// A table of N words.
#[derive(Clone, Copy, PartialEq, Eq, Debug)]
pub struct Table<const N: usize> {
    words: [u16; N],
}

impl<const N: usize> Model for Table<N> {
    ghost use Rattle.std.specs.Prelude.{ℕ, List};

    ghost Value = { List ℕ };

    ghost view = { λ t. t.words };

    ghost inverse = { λ words. record { words = words } };
}

impl<const N: usize> Table<N> {
    /// N words of 0.
    pub fn new() -> Table<N>
        ensures size { length result ≡ N }
        ensures zero { All (λ w. w ≡ 0) result }
    {
        Table { words: [0; N] }
    }

    /// The word at place `i`, from 0.
    pub fn get(&self, i: usize) -> Word
        requires { i < N }
        ensures word { result ≡ slice_index self.now i }
        ensures size { length self.now ≡ N }
    {
        self.words[i]
    }

    /// Puts a word at place `i`, from 0.
    pub fn set(&mut self, i: usize, w: Word)
        requires { i < N }
        ensures words { self.new ≡ slice_set self.old i w }
        ensures size { length self.new ≡ N }
    {
        self.words[i] = w;
    }
}

/// What a compiled program is given to run with. Both ranges are this project's own.
#[derive(Clone, Copy, PartialEq, Eq, Debug)]
pub struct Settings {
    /// Words of each process's workspace, from 64 to 4096.
    pub workspace_words: u16,
    /// How many processes there may be at one time, the main one among them, from 2 to 32.
    pub processes: u16,
    ghost workspace_least: { 64 ≤ workspace_words },
    ghost workspace_most: { workspace_words ≤ 4096 },
    ghost processes_least: { 2 ≤ processes },
    ghost processes_most: { processes ≤ 32 },
}

#[cfg(test)]
mod tests {
    use super::*;

    fn codes(n: bool, z: bool, v: bool, c: bool) -> Codes {
        Codes { n, z, v, c }
    }

    #[test]
    fn adds(rt: HostRuntime) {
        for (a, b, want, n, z, v, c) in [
            (0o077777, 0o000001, 0o100000, true, false, true, false),
            (0o177777, 0o000001, 0o000000, false, true, false, true),
            (0o100000, 0o100000, 0o000000, false, true, true, true),
            (0o177777, 0o177777, 0o177776, true, false, false, true),
            (0o000002, 0o000003, 0o000005, false, false, false, false),
        ] {
            assert_eq!(rt; sum(a, b), (want, codes(n, z, v, c)), "{a:o} + {b:o}");
        }
    }

    #[test]
    fn subtracts(rt: HostRuntime) {
        for (a, b, want, n, z, v, c) in [
            (0o000000, 0o000001, 0o177777, true, false, false, true),
            (0o000005, 0o000005, 0o000000, false, true, false, false),
            (0o100000, 0o000001, 0o077777, false, false, true, false),
            (0o077777, 0o177777, 0o100000, true, false, true, true),
            (0o000001, 0o100000, 0o100001, true, false, true, true),
        ] {
            assert_eq!(rt;
                difference(a, b),
                (want, codes(n, z, v, c)),
                "{a:o} - {b:o}"
            );
        }
    }

    #[test]
    fn knows_signs(rt: HostRuntime) {
        assert_eq!(rt; signed(0o077777), 32767);
        assert_eq!(rt; signed(0o100000), -32768);
        assert_eq!(rt; signed(0o177777), -1);
        assert_eq!(rt; extend(0o200), 0o177600);
        assert_eq!(rt; extend(0o177), 0o000177);
    }

    #[test]
    fn keeps_a_table(rt: HostRuntime) {
        let mut table = Table::<3>::new();
        table.set(1, 0o123456);
        assert_eq!(rt; table.get(0), 0);
        assert_eq!(rt; table.get(1), 0o123456);
        assert_eq!(rt; table.get(2), 0);
    }

    #[test]
    fn makes_settings_at_their_bounds(rt: HostRuntime) {
        let least = Settings {
            workspace_words: 64,
            processes: 2,
        };
        let most = Settings {
            workspace_words: 4096,
            processes: 32,
        };
        assert_ne!(rt; least, most);
    }
}
