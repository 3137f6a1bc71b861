//! The bits of a keyUsage (RFC 5280 section 4.2.1.3).
ghost use Rattle.std.specs.Prelude.{◌≡◌, ◌++◌, OnOk, string_bytes};
ghost use Rattle.reports.specs.Asks.{has_bit, three_usages, usage_line, usage_lines, usage_name, usages_said};

use crate::asks::push_told;
use crate::report::Value;
use std::alloc::AllocError;

/// The bits of a keyUsage that are 1, a line each, by the contents of the BIT STRING.
pub(crate) fn push_usages(text: &mut String, value: &Value) -> Result<(), AllocError>
    ensures { OnOk result (string_bytes text.new ≡ string_bytes text.old ++ usages_said value.now) }
{
    match value {
        Value::Octets(contents) => push_usage_lines(text, contents),
        _ => Ok(()),
    }
}

#[tactic(auto, unfolding(crate::specs::Asks::usage_lines))]
fn push_usage_lines(text: &mut String, contents: &[u8]) -> Result<(), AllocError>
    ensures { OnOk result (string_bytes text.new ≡ string_bytes text.old ++ usage_lines contents.now) }
{
    push_three_usages(text, contents, 0, 1, 2)?;
    push_three_usages(text, contents, 3, 4, 5)?;
    push_three_usages(text, contents, 6, 7, 8)
}

#[tactic(auto, unfolding(crate::specs::Asks::three_usages))]
fn push_three_usages(
    text: &mut String,
    contents: &[u8],
    first: u8,
    second: u8,
    third: u8,
) -> Result<(), AllocError>
    ensures { OnOk result (string_bytes text.new ≡ string_bytes text.old
        ++ three_usages contents.now first second third) }
{
    push_usage(text, contents, first)?;
    push_usage(text, contents, second)?;
    push_usage(text, contents, third)
}

/// A usage where its bit is 1.
fn push_usage(text: &mut String, contents: &[u8], number: u8) -> Result<(), AllocError>
    ensures { OnOk result (string_bytes text.new ≡ string_bytes text.old
        ++ usage_line contents.now number) }
{
    if has_bit(contents, number) {
        push_told(text, usage_name(number))
    } else {
        Ok(())
    }
}

/// Whether the bit of this number is 1, by the contents of a BIT STRING, whose first octet says how many bits at the
/// end are unused (X.690 8.6.2).
#[tactic(auto, unfolding(crate::specs::Asks::has_bit))]
pub(crate) fn has_bit(contents: &[u8], number: u8) -> bool
    ensures { result ≡ has_bit contents.now number }
{
    match contents.get(1 + usize::from(number / 8)) {
        Some(octet) => octet / 2u8.pow(u32::from(7 - number % 8)) % 2 == 1,
        None => false,
    }
}

/// The bits of a keyUsage by their numbers (RFC 5280 section 4.2.1.3).
pub(crate) fn usage_name(number: u8) -> &'static str
    ensures { result.now ≡ usage_name number }
{
    match number {
        0 => "digitalSignature",
        1 => "nonRepudiation",
        2 => "keyEncipherment",
        3 => "dataEncipherment",
        4 => "keyAgreement",
        5 => "keyCertSign",
        6 => "cRLSign",
        7 => "encipherOnly",
        _ => "decipherOnly",
    }
}
