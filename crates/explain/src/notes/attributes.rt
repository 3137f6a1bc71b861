//! What is remarked on the values of attributes in names.
ghost use Rattle.std.specs.Prelude.{◌≡◌};
ghost use Rattle.pkix_definitions.specs.Identifiers.{entry_under};
ghost use Rattle.x690.specs.Lists.{same_octets};
ghost use Rattle.explain.specs.NotedAttributes.{are_blanks, are_printable, begins_character, bound_of};
ghost use Rattle.explain.specs.NotedAttributes.{characters_of, domain_component, email_address, is_blank};
ghost use Rattle.explain.specs.NotedAttributes.{has_directory_string};
ghost use Rattle.explain.specs.NotedAttributes.{is_country, is_directory_string, is_of_two, is_of_type};
ghost use Rattle.explain.specs.NotedAttributes.{is_printable_octet, is_wide, remark_on_attribute, remark_on_content};
ghost use Rattle.explain.specs.NotedAttributes.{remark_on_hidden, remark_on_kind, remark_on_length};
ghost use Rattle.explain.specs.NotedAttributes.{remark_on_string, remark_on_type, upper_bounds, x520};

use crate::notes::hosts::is_let_dig;
use crate::notes::remarks::remark_if;
use pkix_definitions::identifiers::are_same_octets;
use pkix_shapes::identifiers::Identifier;
use reports::letters::{has_hidden, is_string};
use reports::report::{AttributeRemark, Line, NameRemark, Remark, Value};
use tlv_core::tag::Tag;

// The universal tags of strings (X.680 8.4).
const UTF8_STRING: u32 = 12;

const PRINTABLE_STRING: u32 = 19;

const TELETEX_STRING: u32 = 20;

const IA5_STRING: u32 = 22;

const UNIVERSAL_STRING: u32 = 28;

const BMP_STRING: u32 = 30;

/// What is remarked on the value of an attribute of this type, where it has a usual name: the first that applies.
pub(crate) fn remark_on_attribute(
    attribute: Option<&'static Identifier>,
    line: &Line,
) -> Option<Remark>
    ensures { result ≡ remark_on_attribute attribute.entry line.now }
{
    if let Some(remark) = remark_on_hidden(line) {
        return Some(remark);
    }
    if let Some(remark) = remark_on_kind(attribute, line) {
        return Some(remark);
    }
    remark_on_content(attribute, line)
}

/// In a UniversalString, whose characters have four octets each, none is looked for.
fn remark_on_hidden(line: &Line) -> Option<Remark>
    ensures { result ≡ remark_on_hidden line.now }
{
    match &line.value {
        Value::Characters(octets) => remark_if(
            !is_string(line.tag, UNIVERSAL_STRING) && has_hidden(line.tag, octets),
            Remark::Name(NameRemark::Hidden),
        ),
        _ => None,
    }
}

fn remark_on_kind(attribute: Option<&'static Identifier>, line: &Line) -> Option<Remark>
    ensures { result ≡ remark_on_kind attribute.entry line.now }
{
    match attribute {
        Some(identifier) => remark_on_type(identifier.contents, line),
        None => None,
    }
}

/// A value is of a type that its attribute has (RFC 5280 appendix A.1).
fn remark_on_type(attribute: &[u8], line: &Line) -> Option<Remark>
    ensures { result ≡ remark_on_type attribute.now line.now }
{
    if is_x520(attribute, 6) {
        return remark_if(
            !is_country(line),
            Remark::Attribute(AttributeRemark::Country),
        );
    }
    if is_email_address(attribute) {
        return remark_if(
            !is_string(line.tag, IA5_STRING),
            Remark::Attribute(AttributeRemark::EmailType),
        );
    }
    remark_if(
        !is_of_type(attribute, line.tag),
        Remark::Attribute(AttributeRemark::OtherType),
    )
}

/// An attribute of X.520, 2.5.4.NUMBER.
pub(crate) fn is_x520(attribute: &[u8], number: u8) -> bool
    ensures { result ≡ same_octets attribute.now (x520 number) }
{
    are_same_octets(attribute, &[0x55, 0x04, number])
}

/// 1.2.840.113549.1.9.1.
fn is_email_address(attribute: &[u8]) -> bool
    ensures { result ≡ same_octets attribute.now email_address }
{
    are_same_octets(
        attribute,
        &[0x2A, 0x86, 0x48, 0x86, 0xF7, 0x0D, 0x01, 0x09, 0x01],
    )
}

/// 0.9.2342.19200300.100.1.25.
fn is_domain_component(attribute: &[u8]) -> bool
    ensures { result ≡ same_octets attribute.now domain_component }
{
    are_same_octets(
        attribute,
        &[0x09, 0x92, 0x26, 0x89, 0x93, 0xF2, 0x2C, 0x64, 0x01, 0x19],
    )
}

/// A PrintableString of two characters, as far as its octets are in the line.
fn is_country(line: &Line) -> bool
    ensures { result ≡ is_country line.now }
{
    is_string(line.tag, PRINTABLE_STRING) && is_of_two(&line.value)
}

fn is_of_two(value: &Value) -> bool
    ensures { result ≡ is_of_two value.now }
{
    match value {
        Value::Characters(octets) => octets.as_slice().len() == 2,
        _ => true,
    }
}

/// Whether a string of this tag is of a type that the attribute has, where that is looked at.
fn is_of_type(attribute: &[u8], tag: Tag) -> bool
    ensures { result ≡ is_of_type attribute.now tag }
{
    if has_directory_string(attribute) {
        return is_directory_string(tag);
    }
    if is_x520(attribute, 5) {
        return is_string(tag, PRINTABLE_STRING);
    }
    !is_domain_component(attribute) || is_string(tag, IA5_STRING)
}

/// commonName, localityName, stateOrProvinceName, organizationName, organizationalUnitName, title.
fn has_directory_string(attribute: &[u8]) -> bool
    ensures { result ≡ has_directory_string attribute.now }
{
    is_x520(attribute, 3)
        || is_x520(attribute, 7)
        || is_x520(attribute, 8)
        || is_x520(attribute, 10)
        || is_x520(attribute, 11)
        || is_x520(attribute, 12)
}

/// A DirectoryString (RFC 5280 section 4.1.2.4).
fn is_directory_string(tag: Tag) -> bool
    ensures { result ≡ is_directory_string tag }
{
    is_string(tag, TELETEX_STRING)
        || is_string(tag, PRINTABLE_STRING)
        || is_string(tag, UNIVERSAL_STRING)
        || is_string(tag, UTF8_STRING)
        || is_string(tag, BMP_STRING)
}

fn remark_on_content(attribute: Option<&'static Identifier>, line: &Line) -> Option<Remark>
    ensures { result ≡ remark_on_content attribute.entry line.now }
{
    match &line.value {
        Value::Characters(octets) => remark_on_string(bound_of(attribute), line.tag, octets),
        _ => None,
    }
}

/// What is remarked on a string that has so many characters at most.
fn remark_on_string(most: Option<u64>, tag: Tag, octets: &[u8]) -> Option<Remark>
    ensures { result ≡ remark_on_string most tag octets.now }
{
    if let Some(remark) = remark_on_length(most, characters_of(tag, octets)) {
        return Some(remark);
    }
    if is_string(tag, PRINTABLE_STRING) && !are_printable(octets) {
        return Some(Remark::Name(NameRemark::PrintableString));
    }
    remark_if(
        is_blank(tag, octets),
        Remark::Attribute(AttributeRemark::Blank),
    )
}

fn remark_on_length(most: Option<u64>, characters: u64) -> Option<Remark>
    ensures { result ≡ remark_on_length most characters }
{
    match most {
        Some(most) => remark_if(
            characters > most,
            Remark::Attribute(AttributeRemark::Long(characters, most)),
        ),
        None => None,
    }
}

/// How many characters the attribute has at most.
fn bound_of(attribute: Option<&'static Identifier>) -> Option<u64>
    ensures { result ≡ bound_of attribute.entry }
{
    match attribute {
        Some(identifier) => upper_bound(identifier.contents),
        None => None,
    }
}

/// The upper bounds of RFC 5280 appendix A.1.
fn upper_bound(attribute: &[u8]) -> Option<u64>
    ensures { result ≡ entry_under upper_bounds attribute.now }
{
    if is_x520(attribute, 3) {
        Some(64)
    } else if is_x520(attribute, 5) {
        Some(64)
    } else if is_x520(attribute, 7) {
        Some(128)
    } else if is_x520(attribute, 8) {
        Some(128)
    } else if is_x520(attribute, 10) {
        Some(64)
    } else if is_x520(attribute, 11) {
        Some(64)
    } else if is_x520(attribute, 12) {
        Some(64)
    } else if is_email_address(attribute) {
        Some(255)
    } else {
        None
    }
}

/// How many characters a string of this tag has: in UTF-8, in two octets each, in four, or in one.
fn characters_of(tag: Tag, octets: &[u8]) -> u64
    ensures { result ≡ characters_of tag octets.now }
{
    if is_string(tag, UTF8_STRING) {
        return octets
            .iter()
            .filter(|octet| begins_character(**octet))
            .count() as u64;
    }
    let all = octets.len() as u64;
    if is_string(tag, BMP_STRING) {
        return all / 2;
    }
    if is_string(tag, UNIVERSAL_STRING) {
        return all / 4;
    }
    all
}

/// Whether an octet of UTF-8 doesn't go on with a character (RFC 3629 section 3).
fn begins_character(octet: u8) -> bool
    ensures { result ≡ begins_character octet }
{
    octet < 0x80 || octet > 0xBF
}

/// Whether a reader sees nothing: no octet, or blanks alone. A character of several octets isn't a blank by them.
fn is_blank(tag: Tag, octets: &[u8]) -> bool
    ensures { result ≡ is_blank tag octets.now }
{
    if is_wide(tag) {
        return octets.is_empty();
    }
    are_blanks(octets)
}

/// Whether each character of a string has two octets, or four.
pub(crate) fn is_wide(tag: Tag) -> bool
    ensures { result ≡ is_wide tag }
{
    is_string(tag, BMP_STRING) || is_string(tag, UNIVERSAL_STRING)
}

fn are_blanks(octets: &[u8]) -> bool
    ensures { result ≡ are_blanks octets.now }
{
    octets.iter().all(|octet| *octet == b' ')
}

/// Whether all are characters of a PrintableString (X.680 41.4).
fn are_printable(octets: &[u8]) -> bool
    ensures { result ≡ are_printable octets.now }
{
    octets.iter().all(|octet| is_printable_octet(*octet))
}

/// Letters, digits, and the blank, ' ( ) + , - . / : = ?
fn is_printable_octet(octet: u8) -> bool
    ensures { result ≡ is_printable_octet octet }
{
    is_let_dig(octet)
        || octet == b' '
        || (octet >= b'\'' && octet <= b')')
        || (octet >= b'+' && octet <= b'/')
        || octet == b':'
        || octet == b'='
        || octet == b'?'
}
