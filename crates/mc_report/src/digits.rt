// Numbers as text, and texts put one after another, without memory.

ghost use Rattle.std.specs.Prelude.{◌≡◌, ℕ, ◌+◌, ◌/◌, ◌%◌, ◌<◌, ◌≤◌, ◌++◌, length, decimal};
ghost use Rattle.arrayvec.specs.ArrayVec.{array_vec_len};
ghost use Rattle.mc_report.specs.Report.{three_octal, six_octal};

use arrayvec::ArrayVec;

// The octal digit at the place of this value.
fn octal_digit(n: u16, place: u16) -> u8
    requires { 0 < place }
    ensures { result ≡ 48 + n / place % 8 }
{
    b'0' + (n / place % 8) as u8
}

/// The last three octal digits of a number.
pub fn three_digits(n: u16) -> [u8; 3]
    ensures { result ≡ three_octal n }
{
    [
        octal_digit(n, 0o100),
        octal_digit(n, 0o10),
        octal_digit(n, 1),
    ]
}

/// The six octal digits of a word.
pub fn six_digits(n: u16) -> [u8; 6]
    ensures { result ≡ six_octal n }
{
    [
        octal_digit(n, 0o100000),
        octal_digit(n, 0o10000),
        octal_digit(n, 0o1000),
        octal_digit(n, 0o100),
        octal_digit(n, 0o10),
        octal_digit(n, 1),
    ]
}

/// Puts a text behind a text.
pub fn put<const N: usize>(line: &mut ArrayVec<u8, N>, text: &[u8])
    requires { array_vec_len line.old + length text.now ≤ N }
    ensures { line.new.items ≡ line.old.items ++ text.now }
{
    line.try_extend_from_slice(text).unwrap();
}

/// The decimal digits of a number.
pub fn decimal_digits(n: u64) -> ArrayVec<u8, 20>
    ensures { result.items ≡ decimal n }
{
    let mut digits = if n < 10 {
        ArrayVec::new()
    } else {
        decimal_digits(n / 10)
    };
    digits.push(b'0' + (n % 10) as u8);
    digits
}
