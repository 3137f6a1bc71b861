//! The characters of a string: as they are where they are printable, else by their numbers.
ghost use Rattle.std.specs.Prelude.{◌≡◌, ◌++◌, OnOk, chars, encode_utf8, flat_map, string_bytes};
ghost use Rattle.std.specs.List.{list_any};
ghost use Rattle.reports.specs.Letters.{are_units, by_units, by_utf8, characters, code_digits, codes_in_utf8};
ghost use Rattle.reports.specs.Letters.{has_hidden, is_hidden, is_printable, is_special, is_string, letter, letters};
ghost use Rattle.reports.specs.Letters.{unit, unit_code, unit_codes, units};

use crate::text::push_digits;
use std::alloc::{AllocError, Global};
use tlv_core::tag::{Class, Tag};
use ucd_category::{GeneralCategory, GeneralCategoryGroup};

const UTF8_STRING: u32 = 12;

const BMP_STRING: u32 = 30;

/// The characters of a string as they are shown, in a distinguished name or elsewhere.
pub(crate) fn push_letters(
    alloc: Global,
    text: &mut String,
    in_name: bool,
    tag: Tag,
    octets: &[u8],
) -> Result<(), AllocError>
    ensures { OnOk result (string_bytes text.new ≡ string_bytes text.old
        ++ letters in_name tag octets.now) }
{
    let mut string = String::new(alloc);
    push_string(&mut string, tag, octets)?;
    push_all(text, in_name, string.as_str())
}

/// The characters of a string in UTF-8.
pub(crate) fn push_string(text: &mut String, tag: Tag, octets: &[u8]) -> Result<(), AllocError>
    ensures { OnOk result (string_bytes text.new ≡ string_bytes text.old
        ++ characters tag octets.now) }
{
    if is_string(tag, BMP_STRING) {
        return push_by_units(text, octets);
    }
    if is_string(tag, UTF8_STRING) {
        return push_utf8(text, octets);
    }
    push_each(text, octets)
}

/// Octets that are UTF-8 as they are, others as characters of an octet each.
fn push_utf8(text: &mut String, octets: &[u8]) -> Result<(), AllocError>
    ensures { OnOk result (string_bytes text.new ≡ string_bytes text.old ++ by_utf8 octets.now) }
{
    match str::from_utf8(octets) {
        Ok(string) => text.push_str(string),
        Err(_) => push_each(text, octets),
    }
}

/// Whether it is a string of this universal tag.
pub fn is_string(tag: Tag, number: u32) -> bool
    ensures { result ≡ is_string number tag }
{
    tag.class() == Class::Universal && tag.number() == number
}

/// Octets that are whole characters of two each as they are, others as characters of an octet each.
fn push_by_units(text: &mut String, octets: &[u8]) -> Result<(), AllocError>
    ensures { OnOk result (string_bytes text.new ≡ string_bytes text.old ++ by_units octets.now) }
{
    if are_units(octets) {
        push_units(text, octets)
    } else {
        push_each(text, octets)
    }
}

/// Whether they are whole characters of two octets each, none of them half of a pair (X.680 41.15).
fn are_units(octets: &[u8]) -> bool
    ensures { result ≡ are_units octets.now }
{
    let mut left = octets;
    while let [high, _, rest @ ..] = left {
        if *high > 0xD7 && *high < 0xE0 {
            return false;
        }
        left = rest;
    }
    left.is_empty()
}

/// Characters of two octets each.
fn push_units(text: &mut String, octets: &[u8]) -> Result<(), AllocError>
    ensures { OnOk result (string_bytes text.new ≡ string_bytes text.old ++ units octets.now) }
{
    let mut left = octets;
    while let [high, low, rest @ ..] = left {
        push_unit(text, *high, *low)?;
        left = rest;
    }
    Ok(())
}

fn push_unit(text: &mut String, high: u8, low: u8) -> Result<(), AllocError>
    ensures { OnOk result (string_bytes text.new ≡ string_bytes text.old ++ unit high low) }
{
    text.push(character_of_unit(high, low))
}

fn character_of_unit(high: u8, low: u8) -> char
    ensures { result ≡ unit_code high low }
{
    match char::from_u32(u32::from(high) * 256 + u32::from(low)) {
        Some(c) => c,
        None => char::REPLACEMENT_CHARACTER,
    }
}

/// Characters of an octet each.
fn push_each(text: &mut String, octets: &[u8]) -> Result<(), AllocError>
    ensures { OnOk result (string_bytes text.new ≡ string_bytes text.old
        ++ flat_map encode_utf8 octets.now) }
{
    let mut left = octets;
    while let [octet, rest @ ..] = left {
        text.push(char::from(*octet))?;
        left = rest;
    }
    Ok(())
}

fn push_all(text: &mut String, in_name: bool, string: &str) -> Result<(), AllocError>
    ensures { OnOk result (string_bytes text.new ≡ string_bytes text.old
        ++ flat_map (letter in_name) (chars string.now)) }
{
    for c in string.chars() {
        push_letter(text, in_name, c)?;
    }
    Ok(())
}

#[tactic(auto, unfolding(crate::specs::Letters::letter))]
fn push_letter(text: &mut String, in_name: bool, c: char) -> Result<(), AllocError>
    ensures { OnOk result (string_bytes text.new ≡ string_bytes text.old ++ letter in_name c) }
{
    if c == '\\' || in_name && is_special(c) {
        text.push_str("\\")?;
        return text.push(c);
    }
    if is_printable(c) {
        return text.push(c);
    }
    text.push_str("\\u{")?;
    push_code(text, c as u32)?;
    text.push_str("}")
}

/// The characters that RFC 4514 section 2.4 has a backslash before.
fn is_special(c: char) -> bool
    ensures { result ≡ is_special c }
{
    c == '"' || c == '+' || c == ',' || c == ';' || c == '<' || c == '>'
}

/// Whether a reader sees it as it is: letters, marks, numbers, punctuation, symbols and the blank.
fn is_printable(c: char) -> bool
    ensures { result ≡ is_printable c }
{
    let category = GeneralCategory::for_char(c);
    c == ' '
        || !(GeneralCategoryGroup::Other.contains(category)
            || GeneralCategoryGroup::Separator.contains(category))
}

/// The number of a character in four hexadecimal digits, or in six.
fn push_code(text: &mut String, code: u32) -> Result<(), AllocError>
    ensures { OnOk result (string_bytes text.new ≡ string_bytes text.old ++ code_digits code) }
{
    let first = (code / 65536 % 256) as u8;
    let second = (code / 256 % 256) as u8;
    let last = (code % 256) as u8;
    if code < 65536 {
        push_digits(text, &[second, last])
    } else {
        push_digits(text, &[first, second, last])
    }
}

/// Whether a reader doesn't see all characters of a string, as one of them controls or formats text.
pub fn has_hidden(tag: Tag, octets: &[u8]) -> bool
    ensures { result ≡ has_hidden tag octets.now }
{
    if is_string(tag, BMP_STRING) && are_units(octets) {
        return has_hidden_unit(octets);
    }
    if is_string(tag, UTF8_STRING) {
        return has_hidden_in_utf8(octets);
    }
    has_hidden_octet(octets)
}

/// Among characters of two octets each.
fn has_hidden_unit(octets: &[u8]) -> bool
    ensures { result ≡ list_any is_hidden (unit_codes octets.now) }
{
    let mut left = octets;
    while let [high, low, rest @ ..] = left {
        if is_hidden(character_of_unit(*high, *low)) {
            return true;
        }
        left = rest;
    }
    false
}

/// Among those of octets that are UTF-8, and else among characters of an octet each.
fn has_hidden_in_utf8(octets: &[u8]) -> bool
    ensures { result ≡ list_any is_hidden (codes_in_utf8 octets.now) }
{
    match str::from_utf8(octets) {
        Ok(string) => has_hidden_character(string),
        Err(_) => has_hidden_octet(octets),
    }
}

fn has_hidden_character(string: &str) -> bool
    ensures { result ≡ list_any is_hidden (chars string.now) }
{
    string.chars().any(|c| is_hidden(c))
}

/// Among characters of an octet each.
fn has_hidden_octet(octets: &[u8]) -> bool
    ensures { result ≡ list_any is_hidden octets.now }
{
    octets.iter().any(|octet| is_hidden(char::from(*octet)))
}

/// Whether a character controls or formats text (general categories Cc and Cf of Unicode).
fn is_hidden(c: char) -> bool
    ensures { result ≡ is_hidden c }
{
    let category = GeneralCategory::for_char(c);
    category == GeneralCategory::Control || category == GeneralCategory::Format
}
