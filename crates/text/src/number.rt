// Numbers in decimal and in hex.
ghost use Rattle.std.specs.Prelude.{◌≡◌, ◌≤◌, min};
ghost use Rattle.text.specs.Numbers.{number_in, pushed};

use crate::hex::nibble;

// The number that one digit more makes, unless it is no digit of that base or the number grows too large.
fn push_digit(base: usize, number: usize, c: u8) -> Option<usize>
    requires { base ≤ 16 }
    ensures { result ≡ pushed base number c }
{
    let digit = usize::from(nibble(c)?);
    if digit < base {
        number.checked_mul(base)?.checked_add(digit)
    } else {
        None
    }
}

// The number that a text writes in a base. A sign is no digit.
fn parse_in(base: usize, text: &[u8]) -> Option<usize>
    requires some { 1 ≤ base }
    requires few { base ≤ 16 }
    ensures { result ≡ number_in base text.now }
{
    if text.is_empty() {
        return None;
    }
    text.iter()
        .try_fold(0, |number, c| push_digit(base, number, *c))
}

// The number that a text writes in decimal.
pub fn parse_number(text: &[u8]) -> Option<usize>
    ensures { result ≡ number_in 10 text.now }
{
    parse_in(10, text)
}

// The number that a text writes in hex.
pub fn parse_hex(text: &[u8]) -> Option<usize>
    ensures { result ≡ number_in 16 text.now }
{
    parse_in(16, text)
}

// A number for a call that takes a byte: what is larger counts as the largest, which no level or place reaches.
pub fn capped_byte(number: usize) -> u8
    ensures { result ≡ min number 255 }
{
    u8::try_from(number).unwrap_or(u8::MAX)
}
