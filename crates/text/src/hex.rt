// Bytes as hex text.
ghost use Rattle.std.specs.Prelude.{◌≡◌, ◌/◌, ◌%◌, ◌<◌, [], ◌∷◌, ◌++◌, IfSome, IfOk, vec_items, string_bytes, OnOk};
ghost use Rattle.text.specs.Answers.{Gives};
ghost use Rattle.text.specs.Hex.{nibble_of, digit_of, byte_of, decoded, encoded};

use crate::error::LineError;
use std::alloc::{AllocError, Global};

// What a hex digit stands for, in either case.
pub fn nibble(digit: u8) -> Option<u8>
    ensures is { result ≡ nibble_of digit }
    ensures small { IfSome result (λ n. n < 16) }
{
    char::from(digit).to_digit(16).map(|value| value as u8)
}

// The lower-case hex digit of a number below 16.
fn digit(nibble: u8) -> char
    requires { nibble < 16 }
    ensures is { result ≡ digit_of nibble }
    ensures ascii { result < 128 }
{
    char::from_digit(u32::from(nibble), 16).unwrap()
}

// The byte of two hex digits.
pub fn byte(high: u8, low: u8) -> Option<u8>
    ensures { result ≡ byte_of high low }
{
    Some(16 * nibble(high)? + nibble(low)?)
}

// The two lower-case hex digits of a byte.
pub fn digits(byte: u8) -> (char, char)
    ensures is { result ≡ (digit_of (byte / 16), digit_of (byte % 16)) }
    ensures ascii { (result.0 < 128) × (result.1 < 128) }
{
    (digit(byte / 16), digit(byte % 16))
}

// The bytes of a hex text.
pub fn decode(heap: Global, text: &[u8]) -> Result<Vec<u8>, LineError>
    ensures { Gives vec_items (decoded text.now) result }
{
    let mut bytes = Vec::new(heap);
    let (pairs, rest) = text.as_chunks::<2>();
    for [high, low] in pairs {
        bytes.push(byte(*high, *low).ok_or(LineError::HexDigit)?)?;
    }
    if rest.is_empty() {
        Ok(bytes)
    } else {
        Err(LineError::OddHex)
    }
}

// Adds the two digits of a byte to a text.
fn push_byte(text: &mut String, byte: u8) -> Result<(), AllocError>
    ensures { OnOk result (string_bytes text.new ≡ (string_bytes text.old ++ digit_of (byte / 16) ∷ []) ++ digit_of (byte % 16) ∷ []) }
{
    let (high, low) = digits(byte);
    text.push(high)?;
    text.push(low)
}

// The hex text of bytes.
// A text and no `Display`: it is proved to be read back; what a formatter writes is under no contract.
pub fn encode(heap: Global, bytes: &[u8]) -> Result<String, AllocError>
    ensures { IfOk result (λ t. string_bytes t ≡ encoded bytes.now) }
{
    let mut text = String::new(heap);
    for byte in bytes {
        push_byte(&mut text, *byte)?;
    }
    Ok(text)
}
