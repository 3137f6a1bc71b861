//! A key and a signature in words: the algorithm, what its parameters name, and how long a public key is.
ghost use Rattle.std.specs.Prelude.{◌≡◌, ◌++◌, OnOk, codes, cond, string_bytes};
ghost use Rattle.reports.specs.Asks.{each_in};
ghost use Rattle.reports.specs.Keys.{bit_length, bits_from, bits_said, exponent_said, integer_bits, integer_said};
ghost use Rattle.reports.specs.Keys.{is_below_zero, key_line, key_octets, key_part, key_size, modulus_said};
ghost use Rattle.reports.specs.Keys.{number_in, rsa_said, short_exponent, short_exponent_said};

use crate::asks::{is_identifier, is_step, push_first_octets, push_identifier, push_value};
use crate::report::{Carried, Line, Value};
use crate::text::{push_between, push_number};
use std::alloc::{AllocError, Global};

/// The parts of a key or a signature, after and before other words.
pub(crate) fn push_key_line(
    alloc: Global,
    text: &mut String,
    label: &str,
    lines: &[Line],
    end: &str,
) -> Result<(), AllocError>
    ensures { OnOk result (string_bytes text.new ≡ string_bytes text.old
        ++ key_line label.now lines.now end.now) }
{
    let [line, rest @ ..] = lines else {
        return Ok(());
    };
    text.push_str(label)?;
    push_key_parts(alloc, text, line.depth, rest)?;
    text.push_str(end)
}

/// An algorithm, the curve that its parameters name, and how long a public key is: of RSA by the bits of the modulus.
fn push_key_parts(
    alloc: Global,
    text: &mut String,
    depth: u64,
    lines: &[Line],
) -> Result<(), AllocError>
    ensures { OnOk result (string_bytes text.new ≡ string_bytes text.old
        ++ each_in key_part depth lines.now) }
{
    let mut left = lines;
    while let [line, rest @ ..] = left {
        if line.depth <= depth {
            return Ok(());
        }
        push_key_part(alloc, text, line)?;
        left = rest;
    }
    Ok(())
}

#[tactic(auto, unfolding(crate::specs::Keys::key_part))]
fn push_key_part(alloc: Global, text: &mut String, line: &Line) -> Result<(), AllocError>
    ensures { OnOk result (string_bytes text.new ≡ string_bytes text.old ++ key_part line.now) }
{
    if is_step(line.step, "algorithm") {
        return push_identifier(text, &line.value);
    }
    if is_step(line.step, "parameters") && is_identifier(&line.value) {
        text.push_str(", ")?;
        return push_identifier(text, &line.value);
    }
    if is_step(line.step, "subjectPublicKey") {
        return push_key_size(alloc, text, line);
    }
    if is_step(line.step, "modulus") {
        return push_modulus(text, &line.value);
    }
    if is_step(line.step, "publicExponent") {
        return push_exponent(text, &line.value);
    }
    Ok(())
}

/// How long a public key is that isn't said by its elements.
fn push_key_size(alloc: Global, text: &mut String, line: &Line) -> Result<(), AllocError>
    ensures { OnOk result (string_bytes text.new ≡ string_bytes text.old
        ++ key_size line.now line.now.carries) }
{
    match line.carries {
        None => push_key_octets(alloc, text, line, ""),
        Some(Carried::Der) => Ok(()),
        Some(Carried::NotDer) => push_key_octets(alloc, text, line, ", not in DER"),
        Some(Carried::Refused(..)) => push_key_octets(alloc, text, line, ", not of its type"),
    }
}

#[tactic(auto, unfolding(crate::specs::Keys::key_octets))]
fn push_key_octets(
    alloc: Global,
    text: &mut String,
    line: &Line,
    end: &str,
) -> Result<(), AllocError>
    ensures { OnOk result (string_bytes text.new ≡ string_bytes text.old
        ++ key_octets line.now end.now) }
{
    text.push_str(", ")?;
    push_value(alloc, text, false, line.tag, &line.value)?;
    text.push_str(end)
}

/// The modulus of a public key of RSA by its bits.
fn push_modulus(text: &mut String, value: &Value) -> Result<(), AllocError>
    ensures { OnOk result (string_bytes text.new ≡ string_bytes text.old ++ modulus_said value.now) }
{
    match value {
        Value::Number(number) => push_bits(text, bit_length(*number)),
        Value::Octets(contents) => push_bits_of(text, contents),
        _ => Ok(()),
    }
}

fn push_bits_of(text: &mut String, contents: &[u8]) -> Result<(), AllocError>
    ensures { OnOk result (string_bytes text.new ≡ string_bytes text.old
        ++ cond (is_below_zero contents.now) (codes ", modulus below 0")
        (bits_said (integer_bits contents.now))) }
{
    if is_below_zero(contents) {
        return text.push_str(", modulus below 0");
    }
    push_bits(text, integer_bits(contents))
}

fn push_bits(text: &mut String, bits: u64) -> Result<(), AllocError>
    ensures { OnOk result (string_bytes text.new ≡ string_bytes text.old ++ bits_said bits) }
{
    push_between(text, ", ", bits, " bits")
}

/// Its exponent.
fn push_exponent(text: &mut String, value: &Value) -> Result<(), AllocError>
    ensures { OnOk result (string_bytes text.new ≡ string_bytes text.old ++ exponent_said value.now) }
{
    text.push_str(", exponent ")?;
    push_integer(text, value)
}

/// The size of a private key of RSA, where its modulus has so many bits, and the exponent where that is short.
pub(crate) fn push_rsa(
    text: &mut String,
    modulus: Option<u64>,
    exponent: Option<u64>,
) -> Result<(), AllocError>
    ensures { OnOk result (string_bytes text.new ≡ string_bytes text.old ++ rsa_said modulus exponent) }
{
    let Some(bits) = modulus else {
        return Ok(());
    };
    push_bits(text, bits)?;
    push_short_exponent(text, exponent)
}

fn push_short_exponent(text: &mut String, exponent: Option<u64>) -> Result<(), AllocError>
    ensures { OnOk result (string_bytes text.new ≡ string_bytes text.old ++ short_exponent_said exponent) }
{
    match exponent {
        Some(number) => {
            text.push_str(", exponent ")?;
            push_number(text, number)
        }
        None => Ok(()),
    }
}

/// The exponent that the first of the lines says, where it is short.
pub(crate) fn short_exponent(lines: &[Line]) -> Option<u64>
    ensures { result ≡ short_exponent lines.now }
{
    match lines.first() {
        Some(line) => number_in(&line.value),
        None => None,
    }
}

fn number_in(value: &Value) -> Option<u64>
    ensures { result ≡ number_in value.now }
{
    match value {
        Value::Number(number) => Some(*number),
        _ => None,
    }
}

/// An INTEGER in decimal digits, a large one in hexadecimal ones.
pub(crate) fn push_integer(text: &mut String, value: &Value) -> Result<(), AllocError>
    ensures { OnOk result (string_bytes text.new ≡ string_bytes text.old ++ integer_said value.now) }
{
    match value {
        Value::Number(number) => push_number(text, *number),
        Value::Octets(contents) => {
            text.push_str("0x")?;
            push_first_octets(text, contents)
        }
        _ => Ok(()),
    }
}

/// Whether contents are of an INTEGER below 0.
pub fn is_below_zero(contents: &[u8]) -> bool
    ensures { result ≡ is_below_zero contents.now }
{
    match contents {
        [first, ..] => *first >= 128,
        [] => false,
    }
}

/// How many bits a number has, as far as 64 bits count them, by the contents of an INTEGER that isn't negative (X.690
/// 8.3).
pub fn integer_bits(contents: &[u8]) -> u64
    ensures { result ≡ integer_bits contents.now }
{
    match contents {
        [0, rest @ ..] => bits_from(rest),
        _ => bits_from(contents),
    }
}

/// The same of octets of which the first isn't 0.
fn bits_from(octets: &[u8]) -> u64
    ensures { result ≡ bits_from octets.now }
{
    match octets {
        [first, rest @ ..] => (rest.len() as u64)
            .saturating_mul(8)
            .saturating_add(bit_length(u64::from(*first))),
        [] => 0,
    }
}

/// How many binary digits a number has.
pub fn bit_length(number: u64) -> u64
    ensures { result ≡ bit_length number }
{
    64 - u64::from(number.leading_zeros())
}
