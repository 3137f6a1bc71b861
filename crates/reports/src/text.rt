//! Numbers, blanks, octets and characters in text.
ghost use Rattle.std.specs.Prelude.{◌≡◌, ◌+◌, ◌++◌, ◌<◌, OnOk, decimal, flat_map, replicate, slice_index};
ghost use Rattle.std.specs.Prelude.{string_bytes};
ghost use Rattle.hex.specs.Hex.{encode_lower, lower_digits};
ghost use Rattle.reports.specs.Texts.{escaped, octet_after, octet_text, octets_text, quoted};

use itoa::Buffer;
use std::alloc::AllocError;

const DIGITS: &[u8; 16] = b"0123456789abcdef";

/// A number in decimal digits.
pub fn push_number(text: &mut String, number: u64) -> Result<(), AllocError>
    ensures { OnOk result (string_bytes text.new ≡ string_bytes text.old ++ decimal number) }
{
    let mut buffer = Buffer::new();
    text.push_str(buffer.format(number))
}

/// A number between two texts.
pub fn push_between(
    text: &mut String,
    before: &str,
    number: u64,
    rest: &str,
) -> Result<(), AllocError>
    ensures { OnOk result (string_bytes text.new ≡ string_bytes text.old
        ++ (before.now ++ decimal number ++ rest.now)) }
{
    text.push_str(before)?;
    push_number(text, number)?;
    text.push_str(rest)
}

/// The sum of two numbers in decimal digits.
pub(crate) fn push_sum(text: &mut String, first: u64, second: u64) -> Result<(), AllocError>
    ensures { OnOk result (string_bytes text.new ≡ string_bytes text.old
        ++ decimal (first + second)) }
{
    let mut buffer = Buffer::new();
    text.push_str(buffer.format(u128::from(first) + u128::from(second)))
}

/// The same ASCII character so many times.
pub(crate) fn push_marks(text: &mut String, mark: char, count: u64) -> Result<(), AllocError>
    requires { mark < 128 }
    ensures { OnOk result (string_bytes text.new ≡ string_bytes text.old ++ replicate count mark) }
{
    for _ in 0..count {
        text.push(mark)?;
    }
    Ok(())
}

/// An octet in two hexadecimal digits.
#[tactic(auto, unfolding(hex::specs::Hex::encode_with))]
pub(crate) fn push_octet(text: &mut String, octet: u8) -> Result<(), AllocError>
    ensures { OnOk result (string_bytes text.new ≡ string_bytes text.old ++ octet_text octet) }
{
    text.push(digit(octet / 16))?;
    text.push(digit(octet % 16))
}

/// A number below 16 as a hexadecimal digit.
fn digit(number: u8) -> char
    requires { number < 16 }
    ensures is { result ≡ slice_index lower_digits number }
    ensures ascii { result < 128 }
{
    char::from(DIGITS[usize::from(number)])
}

/// Octets in hexadecimal digits, a blank between each two.
pub(crate) fn push_octets(text: &mut String, octets: &[u8]) -> Result<(), AllocError>
    ensures { OnOk result (string_bytes text.new ≡ string_bytes text.old
        ++ octets_text octets.now) }
{
    let [first, rest @ ..] = octets else {
        return Ok(());
    };
    push_octet(text, *first)?;
    push_octets_after(text, rest)
}

/// Octets after others.
fn push_octets_after(text: &mut String, octets: &[u8]) -> Result<(), AllocError>
    ensures { OnOk result (string_bytes text.new ≡ string_bytes text.old
        ++ flat_map octet_after octets.now) }
{
    let mut left = octets;
    while let [octet, rest @ ..] = left {
        push_octet_after(text, *octet)?;
        left = rest;
    }
    Ok(())
}

/// An octet after others: a blank before it.
pub(crate) fn push_octet_after(text: &mut String, octet: u8) -> Result<(), AllocError>
    ensures { OnOk result (string_bytes text.new ≡ string_bytes text.old ++ octet_after octet) }
{
    text.push(' ')?;
    push_octet(text, octet)
}

/// Octets in hexadecimal digits, with nothing between them.
#[tactic(auto, unfolding(hex::specs::Hex::encode_with))]
pub(crate) fn push_digits(text: &mut String, octets: &[u8]) -> Result<(), AllocError>
    ensures { OnOk result (string_bytes text.new ≡ string_bytes text.old ++ encode_lower octets.now) }
{
    let mut left = octets;
    while let [octet, rest @ ..] = left {
        push_octet(text, *octet)?;
        left = rest;
    }
    Ok(())
}

/// Characters between quotes.
#[tactic(auto, unfolding(crate::specs::Texts::quoted))]
pub fn push_quoted(text: &mut String, octets: &[u8]) -> Result<(), AllocError>
    ensures { OnOk result (string_bytes text.new ≡ string_bytes text.old ++ quoted octets.now) }
{
    text.push_str("'")?;
    push_characters(text, octets)?;
    text.push_str("'")
}

/// The octets of a character string.
pub(crate) fn push_characters(text: &mut String, octets: &[u8]) -> Result<(), AllocError>
    ensures { OnOk result (string_bytes text.new ≡ string_bytes text.old
        ++ flat_map escaped octets.now) }
{
    let mut left = octets;
    while let [octet, rest @ ..] = left {
        push_escaped(text, *octet)?;
        left = rest;
    }
    Ok(())
}

/// An octet of a character string: printable ASCII as it is, all else by its hexadecimal digits.
fn push_escaped(text: &mut String, octet: u8) -> Result<(), AllocError>
    ensures { OnOk result (string_bytes text.new ≡ string_bytes text.old ++ escaped octet) }
{
    if octet == b'\'' {
        return text.push_str("\\'");
    }
    if octet == b'\\' {
        return text.push_str("\\\\");
    }
    if octet < 32 || octet > 126 {
        text.push_str("\\x")?;
        return push_octet(text, octet);
    }
    text.push(char::from(octet))
}
