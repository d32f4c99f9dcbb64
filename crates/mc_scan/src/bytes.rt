// Classes of bytes, and what stands in a row of bytes.

ghost use Rattle.std.specs.Prelude.{◌≡◌, ◌≤◌, ◌<◌, length, slice_index, MatchOption};
ghost use Rattle.mc_tree.specs.Spellings.{is_blank, is_letter, is_digit, is_quote};
ghost use Rattle.mc_scan.specs.Runs.{test_of, RunsTo};

/// What may stand further on in a word, a number or a text.
#[derive(Clone, Copy)]
pub enum Class {
    LetterOrDigit,
    Digit,
    OctalDigit,
    /// A printable byte that is not this quote.
    Inside(u8),
}

impl Class {
    fn holds(self, b: u8) -> bool
        ensures { result ≡ test_of self b }
    {
        match self {
            Class::LetterOrDigit => b.is_ascii_alphanumeric(),
            Class::Digit => b.is_ascii_digit(),
            Class::OctalDigit => matches!(b, b'0'..=b'7'),
            Class::Inside(quote) => matches!(b, b' '..=b'~') && b != quote,
        }
    }
}

/// Space, tab, line feed or carriage return.
pub fn is_blank(b: u8) -> bool
    ensures { result ≡ is_blank b }
{
    matches!(b, b' ' | b'\t' | b'\n' | b'\r')
}

pub fn is_letter(b: u8) -> bool
    ensures { result ≡ is_letter b }
{
    b.is_ascii_alphabetic()
}

pub fn is_digit(b: u8) -> bool
    ensures { result ≡ is_digit b }
{
    b.is_ascii_digit()
}

pub fn is_quote(b: u8) -> bool
    ensures { result ≡ is_quote b }
{
    matches!(b, b'\'' | b'"')
}

/// How many bytes at the front are of this class.
pub fn run_length(bytes: &[u8], class: Class) -> usize
    ensures { RunsTo (test_of class) result bytes.now }
{
    for (i, b) in bytes.iter().enumerate() {
        if !class.holds(*b) {
            return i;
        }
    }
    bytes.len()
}

/// The byte at this place, where there is one.
pub fn byte_at(bytes: &[u8], i: usize) -> Option<u8>
    ensures { MatchOption result (length bytes.now ≤ i) (λ b. (i < length bytes.now) × (b ≡ slice_index bytes.now i)) }
{
    bytes.get(i).copied()
}
