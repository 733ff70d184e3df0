// Money as text.
ghost use Rattle.std.specs.Prelude.{◌≡◌, ◌+◌, ◌≤◌, ◌++◌, length, Some};
ghost use Rattle.std.specs.Fmt.{sign_text};
ghost use Rattle.std.specs.Int.{is_negative};
ghost use Rattle.arrayvec.specs.ArrayString.{array_string_len};
ghost use Rattle.text.specs.Text.{digit, money, point_and_four};

use arrayvec::ArrayString;
use itoa::Buffer;
use std::fmt;

// How many bytes the longest amount has.
pub(crate) const LONGEST: usize = 23;

/// An amount in money units, as euros with four decimals, the minus in front: 400 units are a
/// euro, and one unit is 25 ten-thousandths of it.
#[derive(Clone, Copy)]
pub struct Money(pub i64);

impl Money {
    // Its text. Not by `write!`: no contract says that it succeeds, and writing a line cannot fail.
    pub(crate) fn text(self) -> ArrayString<LONGEST>
        ensures { result.bytes ≡ money self.0 }
    {
        let units = self.0.unsigned_abs();
        let mut text = ArrayString::new();
        text.push_str(sign(self.0));
        text.push_str(Buffer::new().format(units / 400));
        push_decimals(&mut text, units % 400 * 25);
        text
    }
}

impl fmt::Display for Money {
    ghost output = { λ m. Some (money m.0) };

    fn fmt<W: fmt::Write>(&self, f: &mut fmt::Formatter<W>) -> fmt::Result {
        f.write_str(self.text().as_str())
    }
}

fn sign(value: i64) -> &'static str
    ensures text { result.now ≡ sign_text (is_negative value) }
    ensures short { length result.now ≤ 1 }
{
    if value < 0 { "-" } else { "" }
}

// Adds a point and the last four digits of a number.
fn push_decimals(text: &mut ArrayString<LONGEST>, n: u64)
    requires { array_string_len text.old + 5 ≤ LONGEST }
    ensures { text.new.bytes ≡ text.old.bytes ++ point_and_four n }
{
    text.push('.');
    text.push(digit(n / 1000));
    text.push(digit(n / 100));
    text.push(digit(n / 10));
    text.push(digit(n));
}

// The last digit of a number. The library's `from_digit` answers an `Option`.
fn digit(n: u64) -> char
    ensures { result ≡ digit n }
{
    char::from(b'0' + (n % 10) as u8)
}
