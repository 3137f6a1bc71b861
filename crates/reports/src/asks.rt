//! What an accepted request asks for, in words, by the lines of its elements.
ghost use Rattle.std.specs.Prelude.{[], ◌≡◌, ◌∷◌, ◌++◌, ◌==◌, OnOk, codes, cond, false, length, string_bytes};
ghost use Rattle.hex.specs.Hex.{encode_lower};
ghost use Rattle.reports.specs.Asks.{address_said, asked, attribute_said, before_fact};
ghost use Rattle.reports.specs.Asks.{between, carried_line, container_line, dotted, each_in, each_start_in};
ghost use Rattle.reports.specs.Asks.{extension_said, fact_line, fact_value, fact_word, field_name, first_octets};
ghost use Rattle.reports.specs.Asks.{from_field, groups, identifier_said, is_accepted, is_asking, is_critical};
ghost use Rattle.reports.specs.Asks.{is_empty, is_identifier, is_leaf, is_of, is_other, is_step, is_true};
ghost use Rattle.reports.specs.Asks.{name_word, names_said, not_shown, others_said, short_name, size_in, size_said};
ghost use Rattle.reports.specs.Asks.{subject_line, subject_of, subject_part, told, type_said};
ghost use Rattle.reports.specs.Asks.{usual_name, value_said, value_size};

use crate::letters::push_letters;
use crate::picks::up_to;
use crate::report::{Answer, Carried, Length, Line, Report, Value};
use crate::text::{push_digits, push_number};
use crate::usages::push_usages;
use crate::words::push_size;
use asn_names::element::Step;
use std::alloc::{AllocError, Global};
use tlv_core::tag::Tag;

/// How many octets are written of what has no words.
const MOST_OCTETS: u64 = 32;

/// Whether it asks for something: an accepted request does.
pub(crate) fn is_asking(report: &Report) -> bool
    ensures { result ≡ is_asking report.now }
{
    is_accepted(report.answer) && report.kind.word == "request"
}

pub(crate) fn is_accepted(answer: Answer) -> bool
    ensures { result ≡ is_accepted answer }
{
    match answer {
        Answer::Der | Answer::NotDer(_) => true,
        Answer::Refused(_) => false,
    }
}

/// Lines from the first on that is the field of this name.
pub(crate) fn from_field<'a>(lines: &'a [Line], name: &str) -> &'a [Line]
    ensures { result.now ≡ from_field name.now lines.now }
{
    let mut left = lines;
    while let [line, rest @ ..] = left {
        if is_step(line.step, name) {
            return left;
        }
        left = rest;
    }
    left
}

/// Whether a line is of a type of this name.
pub(crate) fn is_of(line: &Line, name: &str) -> bool
    ensures { result ≡ is_of name.now line.now }
{
    line.type_name == name
}

/// Whether it is the field of this name.
pub(crate) fn is_step(step: Step, name: &str) -> bool
    ensures { result ≡ is_step name.now step }
{
    match step {
        Step::Field(own) => own == name,
        _ => false,
    }
}

pub(crate) fn push_subject(
    alloc: Global,
    text: &mut String,
    lines: &[Line],
) -> Result<(), AllocError>
    ensures { OnOk result (string_bytes text.new ≡ string_bytes text.old ++ subject_line lines.now) }
{
    match lines {
        [line, rest @ ..] => push_subject_of(alloc, text, line.depth, rest),
        [] => Ok(()),
    }
}

#[tactic(auto, unfolding(crate::specs::Asks::subject_of))]
fn push_subject_of(
    alloc: Global,
    text: &mut String,
    depth: u64,
    lines: &[Line],
) -> Result<(), AllocError>
    ensures { OnOk result (string_bytes text.new ≡ string_bytes text.old ++ subject_of depth lines.now) }
{
    text.push_str("  subject    ")?;
    push_names(alloc, text, depth, lines)?;
    text.push_str("\n")
}

/// The attributes of a subject: one without any is empty.
fn push_names(
    alloc: Global,
    text: &mut String,
    depth: u64,
    lines: &[Line],
) -> Result<(), AllocError>
    ensures { OnOk result (string_bytes text.new ≡ string_bytes text.old ++ names_said depth lines.now) }
{
    match lines {
        [line, ..] if line.depth > depth => push_subject_parts(alloc, text, depth, lines),
        _ => text.push_str("empty"),
    }
}

fn push_subject_parts(
    alloc: Global,
    text: &mut String,
    depth: u64,
    lines: &[Line],
) -> Result<(), AllocError>
    ensures { OnOk result (string_bytes text.new ≡ string_bytes text.old
        ++ each_in subject_part depth lines.now) }
{
    let mut left = lines;
    while let [line, rest @ ..] = left {
        if line.depth <= depth {
            return Ok(());
        }
        push_subject_part(alloc, text, line)?;
        left = rest;
    }
    Ok(())
}

/// A comma between relative names, a plus sign in one of several, and of each a type and a value.
fn push_subject_part(alloc: Global, text: &mut String, line: &Line) -> Result<(), AllocError>
    ensures { OnOk result (string_bytes text.new ≡ string_bytes text.old ++ subject_part line.now) }
{
    if is_of(line, "RelativeDistinguishedName") {
        return push_between(text, ", ", line.step);
    }
    if is_of(line, "AttributeTypeAndValue") {
        return push_between(text, "+", line.step);
    }
    if is_step(line.step, "type") {
        return push_type(text, &line.value);
    }
    if is_step(line.step, "value") {
        return push_value(alloc, text, true, line.tag, &line.value);
    }
    Ok(())
}

/// What stands before each member but the first.
fn push_between(text: &mut String, mark: &str, step: Step) -> Result<(), AllocError>
    ensures { OnOk result (string_bytes text.new ≡ string_bytes text.old ++ between mark.now step) }
{
    match step {
        Step::Member(number) => {
            if number == 0 {
                Ok(())
            } else {
                text.push_str(mark)
            }
        }
        Step::Field(_) | Step::Outermost | Step::Segment(_) | Step::Outside => Ok(()),
    }
}

/// The type of an attribute in a name, and the sign after it.
fn push_type(text: &mut String, value: &Value) -> Result<(), AllocError>
    ensures { OnOk result (string_bytes text.new ≡ string_bytes text.old
        ++ (type_said value.now ++ codes "=")) }
{
    push_type_name(text, value)?;
    text.push_str("=")
}

fn push_type_name(text: &mut String, value: &Value) -> Result<(), AllocError>
    ensures { OnOk result (string_bytes text.new ≡ string_bytes text.old ++ type_said value.now) }
{
    match value {
        Value::Named(identifier) => text.push_str(short_name(identifier.name)),
        _ => push_identifier(text, value),
    }
}

/// An object identifier by its usual name, or by its arcs.
pub(crate) fn push_identifier(text: &mut String, value: &Value) -> Result<(), AllocError>
    ensures { OnOk result (string_bytes text.new ≡ string_bytes text.old ++ identifier_said value.now) }
{
    match value {
        Value::Named(identifier) => text.push_str(identifier.name),
        Value::Arcs(arcs) => text.push_str(arcs.as_str()),
        _ => Ok(()),
    }
}

pub(crate) fn is_identifier(value: &Value) -> bool
    ensures { result ≡ is_identifier value.now }
{
    match value {
        Value::Named(_) | Value::Arcs(_) => true,
        _ => false,
    }
}

/// The names of attributes that have short ones (RFC 4514 section 3).
fn short_name(name: &str) -> &str
    ensures { result.now ≡ short_name name.now }
{
    if name == "commonName" {
        "CN"
    } else if name == "countryName" {
        "C"
    } else if name == "localityName" {
        "L"
    } else if name == "stateOrProvinceName" {
        "ST"
    } else if name == "street" {
        "STREET"
    } else if name == "organizationName" {
        "O"
    } else if name == "organizationalUnitName" {
        "OU"
    } else if name == "domainComponent" {
        "DC"
    } else if name == "uid" {
        "UID"
    } else {
        name
    }
}

/// What the contents of an element say, in a distinguished name or elsewhere.
pub(crate) fn push_value(
    alloc: Global,
    text: &mut String,
    in_name: bool,
    tag: Tag,
    value: &Value,
) -> Result<(), AllocError>
    ensures { OnOk result (string_bytes text.new ≡ string_bytes text.old
        ++ value_said in_name tag value.now) }
{
    match value {
        Value::Nothing => text.push_str("constructed"),
        Value::NotShown => text.push_str("not shown"),
        Value::Size(octets) | Value::Bits(octets, _, _) => push_size(text, *octets),
        Value::Null => text.push_str("NULL"),
        Value::Boolean(is) => text.push_str(if *is { "TRUE" } else { "FALSE" }),
        Value::Number(number) => push_number(text, *number),
        Value::Named(identifier) => text.push_str(identifier.name),
        Value::Arcs(arcs) => text.push_str(arcs.as_str()),
        Value::Characters(octets) => push_letters(alloc, text, in_name, tag, octets),
        Value::Octets(octets) => push_first_octets(text, octets),
    }
}

/// Octets in hexadecimal digits, 32 at most.
pub(crate) fn push_first_octets(text: &mut String, octets: &[u8]) -> Result<(), AllocError>
    ensures { OnOk result (string_bytes text.new ≡ string_bytes text.old ++ first_octets octets.now) }
{
    push_digits(text, up_to(octets, MOST_OCTETS))?;
    if octets.len() as u64 > MOST_OCTETS {
        return text.push_str("..");
    }
    Ok(())
}

/// Attributes and extensions.
pub(crate) fn push_others(
    alloc: Global,
    text: &mut String,
    lines: &[Line],
) -> Result<(), AllocError>
    ensures { OnOk result (string_bytes text.new ≡ string_bytes text.old ++ others_said lines.now) }
{
    match lines {
        [line, rest @ ..] => push_each_asked(alloc, text, line.depth, rest),
        [] => Ok(()),
    }
}

/// Attributes and extensions, each by the lines after its own.
fn push_each_asked(
    alloc: Global,
    text: &mut String,
    depth: u64,
    lines: &[Line],
) -> Result<(), AllocError>
    ensures { OnOk result (string_bytes text.new ≡ string_bytes text.old
        ++ each_start_in asked depth lines.now) }
{
    let mut left = lines;
    while let [line, rest @ ..] = left {
        if line.depth <= depth {
            return Ok(());
        }
        push_asked(alloc, text, line, rest)?;
        left = rest;
    }
    Ok(())
}

fn push_asked(
    alloc: Global,
    text: &mut String,
    line: &Line,
    after: &[Line],
) -> Result<(), AllocError>
    ensures { OnOk result (string_bytes text.new ≡ string_bytes text.old ++ asked line.now after.now) }
{
    if is_of(line, "Extension") {
        return push_extension(alloc, text, line.depth, after);
    }
    if is_of(line, "RequestAttribute") {
        return push_attribute(text, after);
    }
    Ok(())
}

/// An attribute that isn't one of extensions, by its name, and by the size of what it says.
fn push_attribute(text: &mut String, lines: &[Line]) -> Result<(), AllocError>
    ensures { OnOk result (string_bytes text.new ≡ string_bytes text.old ++ attribute_said lines.now) }
{
    match lines {
        [line, rest @ ..] => push_other(text, &line.value, value_size(rest)),
        [] => Ok(()),
    }
}

fn push_other(text: &mut String, value: &Value, octets: Option<u64>) -> Result<(), AllocError>
    ensures { OnOk result (string_bytes text.new ≡ string_bytes text.old
        ++ cond (is_other value.now) (not_shown value.now octets) []) }
{
    if is_other(value) {
        return push_not_shown(text, value, octets);
    }
    Ok(())
}

#[tactic(auto, unfolding(crate::specs::Asks::not_shown))]
fn push_not_shown(text: &mut String, value: &Value, octets: Option<u64>) -> Result<(), AllocError>
    ensures { OnOk result (string_bytes text.new ≡ string_bytes text.old ++ not_shown value.now octets) }
{
    text.push_str("  ")?;
    push_identifier(text, value)?;
    push_size_of(text, octets)?;
    text.push_str(", not shown\n")
}

fn push_size_of(text: &mut String, octets: Option<u64>) -> Result<(), AllocError>
    ensures { OnOk result (string_bytes text.new ≡ string_bytes text.old ++ size_said octets) }
{
    match octets {
        Some(octets) => {
            text.push_str(", ")?;
            push_size(text, octets)
        }
        None => Ok(()),
    }
}

/// How many octets the first value of an attribute has, by the lines after its type.
fn value_size(lines: &[Line]) -> Option<u64>
    ensures { result ≡ value_size lines.now }
{
    match lines {
        [_, value, ..] => size_in(&value.value),
        _ => None,
    }
}

fn size_in(value: &Value) -> Option<u64>
    ensures { result ≡ size_in value.now }
{
    match value {
        Value::Size(octets) => Some(*octets),
        _ => None,
    }
}

/// Whether an attribute of this type isn't one of extensions (RFC 2985 section 5.4.2).
pub(crate) fn is_other(value: &Value) -> bool
    ensures { result ≡ is_other value.now }
{
    usual_name(value) != "extensionRequest"
}

fn usual_name(value: &Value) -> &str
    ensures { result.now ≡ usual_name value.now }
{
    match value {
        Value::Named(identifier) => identifier.name,
        _ => "",
    }
}

/// An extension by its name, and what stands in it.
fn push_extension(
    alloc: Global,
    text: &mut String,
    depth: u64,
    lines: &[Line],
) -> Result<(), AllocError>
    ensures { OnOk result (string_bytes text.new ≡ string_bytes text.old
        ++ extension_said depth lines.now) }
{
    let [first, rest @ ..] = lines else {
        return Ok(());
    };
    text.push_str("  ")?;
    push_identifier(text, &first.value)?;
    text.push_str(if is_critical(rest) { ", critical" } else { "" })?;
    text.push_str("\n")?;
    push_facts(alloc, text, depth, rest)
}

/// Whether an extension is critical, by the line after its identifier.
pub(crate) fn is_critical(lines: &[Line]) -> bool
    ensures { result ≡ is_critical lines.now }
{
    match lines {
        [line, ..] => is_step(line.step, "critical") && is_true(&line.value),
        [] => false,
    }
}

fn is_true(value: &Value) -> bool
    ensures { result ≡ is_true value.now }
{
    match value {
        Value::Boolean(is) => *is,
        _ => false,
    }
}

/// The leaves of what stands in an extension, a line each.
fn push_facts(
    alloc: Global,
    text: &mut String,
    depth: u64,
    lines: &[Line],
) -> Result<(), AllocError>
    ensures { OnOk result (string_bytes text.new ≡ string_bytes text.old
        ++ each_in fact_line depth lines.now) }
{
    let mut left = lines;
    while let [line, rest @ ..] = left {
        if line.depth <= depth {
            return Ok(());
        }
        push_fact(alloc, text, line)?;
        left = rest;
    }
    Ok(())
}

fn push_fact(alloc: Global, text: &mut String, line: &Line) -> Result<(), AllocError>
    ensures { OnOk result (string_bytes text.new ≡ string_bytes text.old ++ fact_line line.now) }
{
    if is_step(line.step, "extnValue") {
        return push_carried(alloc, text, line);
    }
    if !is_leaf(line) {
        return push_container(text, line);
    }
    if is_of(line, "KeyUsage") {
        return push_usages(text, &line.value);
    }
    push_leaf(alloc, text, line)
}

/// What is said of a container without contents: that cA is FALSE stands nowhere in DER (RFC 5280 section 4.2.1.9).
fn push_container(text: &mut String, line: &Line) -> Result<(), AllocError>
    ensures { OnOk result (string_bytes text.new ≡ string_bytes text.old ++ container_line line.now) }
{
    if line.inside.is_none() || !is_empty(line.length) {
        return Ok(());
    }
    if is_of(line, "BasicConstraints") {
        push_told(text, "cA FALSE")
    } else {
        push_told(text, "empty")
    }
}

fn is_empty(length: Option<Length>) -> bool
    ensures { result ≡ is_empty length }
{
    match length {
        Some(length) => length.contents == Some(0),
        None => false,
    }
}

/// Whether it is a primitive element of what stands in an extension.
pub(crate) fn is_leaf(line: &Line) -> bool
    ensures { result ≡ is_leaf line.now }
{
    !line.constructed && line.inside.is_some()
}

/// A leaf by the word for it, and what it says.
#[tactic(auto, unfolding(crate::specs::Asks::told))]
fn push_leaf(alloc: Global, text: &mut String, line: &Line) -> Result<(), AllocError>
    ensures { OnOk result (string_bytes text.new ≡ string_bytes text.old
        ++ told (before_fact (fact_word line.now) ++ fact_value line.now line.now.value)) }
{
    text.push_str("      ")?;
    push_before_fact(text, fact_word(line))?;
    push_fact_value(alloc, text, line)?;
    text.push_str("\n")
}

fn push_before_fact(text: &mut String, word: &str) -> Result<(), AllocError>
    ensures { OnOk result (string_bytes text.new ≡ string_bytes text.old ++ before_fact word.now) }
{
    if word.is_empty() {
        return Ok(());
    }
    text.push_str(word)?;
    text.push_str(" ")
}

/// A line of a fact.
#[tactic(auto, unfolding(crate::specs::Asks::told))]
pub(crate) fn push_told(text: &mut String, fact: &str) -> Result<(), AllocError>
    ensures { OnOk result (string_bytes text.new ≡ string_bytes text.old ++ told fact.now) }
{
    text.push_str("      ")?;
    text.push_str(fact)?;
    text.push_str("\n")
}

/// Of the value of an extension that isn't in DER, isn't of its type, or whose type isn't known.
fn push_carried(alloc: Global, text: &mut String, line: &Line) -> Result<(), AllocError>
    ensures { OnOk result (string_bytes text.new ≡ string_bytes text.old
        ++ carried_line line.now line.now.carries) }
{
    match line.carries {
        None => push_unknown(alloc, text, line),
        Some(Carried::Der) => Ok(()),
        Some(Carried::NotDer) => push_told(text, "not in DER"),
        Some(Carried::Refused(..)) => push_told(text, "not of its type"),
    }
}

#[tactic(auto, unfolding(crate::specs::Asks::told))]
fn push_unknown(alloc: Global, text: &mut String, line: &Line) -> Result<(), AllocError>
    ensures { OnOk result (string_bytes text.new ≡ string_bytes text.old
        ++ told (value_said false line.now.tag line.now.value ++ codes ", not looked into")) }
{
    text.push_str("      ")?;
    push_value(alloc, text, false, line.tag, &line.value)?;
    text.push_str(", not looked into")?;
    text.push_str("\n")
}

/// What a leaf says, an address by its type.
fn push_fact_value(alloc: Global, text: &mut String, line: &Line) -> Result<(), AllocError>
    ensures { OnOk result (string_bytes text.new ≡ string_bytes text.old
        ++ fact_value line.now line.now.value) }
{
    match &line.value {
        Value::Octets(octets) => {
            if is_of(line, "iPAddress") {
                push_address(text, octets)
            } else {
                push_first_octets(text, octets)
            }
        }
        value => push_value(alloc, text, false, line.tag, value),
    }
}

/// An address, and in a subtree a mask after it (RFC 5280 sections 4.2.1.6, 4.2.1.10).
pub(crate) fn push_address(text: &mut String, octets: &[u8]) -> Result<(), AllocError>
    ensures { OnOk result (string_bytes text.new ≡ string_bytes text.old ++ address_said octets.now) }
{
    match octets {
        [a, b, c, d] => push_dotted(text, *a, *b, *c, *d),
        [a, b, c, d, e, f, g, h] => {
            push_dotted(text, *a, *b, *c, *d)?;
            text.push_str("/")?;
            push_dotted(text, *e, *f, *g, *h)
        }
        _ => push_other_address(text, octets),
    }
}

/// An address of sixteen octets in groups of two, others as they are.
fn push_other_address(text: &mut String, octets: &[u8]) -> Result<(), AllocError>
    ensures { OnOk result (string_bytes text.new ≡ string_bytes text.old
        ++ cond (length octets.now == 16) (groups octets.now) (first_octets octets.now)) }
{
    if octets.len() == 16 {
        push_groups(text, octets)
    } else {
        push_first_octets(text, octets)
    }
}

/// Octets in groups of two.
fn push_groups(text: &mut String, octets: &[u8]) -> Result<(), AllocError>
    ensures { OnOk result (string_bytes text.new ≡ string_bytes text.old ++ groups octets.now) }
{
    let mut left = octets;
    while let [first, second, rest @ ..] = left {
        push_group(text, *first, *second, rest.is_empty())?;
        left = rest;
    }
    Ok(())
}

/// Two octets, and a colon where others follow.
fn push_group(text: &mut String, first: u8, second: u8, is_last: bool) -> Result<(), AllocError>
    ensures { OnOk result (string_bytes text.new ≡ string_bytes text.old
        ++ (encode_lower (first ∷ second ∷ []) ++ cond is_last [] (codes ":"))) }
{
    push_digits(text, &[first, second])?;
    text.push_str(if is_last { "" } else { ":" })
}

#[tactic(auto, unfolding(crate::specs::Asks::dotted))]
fn push_dotted(
    text: &mut String,
    first: u8,
    second: u8,
    third: u8,
    last: u8,
) -> Result<(), AllocError>
    ensures { OnOk result (string_bytes text.new ≡ string_bytes text.old
        ++ dotted first second third last) }
{
    push_number(text, u64::from(first))?;
    text.push_str(".")?;
    push_number(text, u64::from(second))?;
    text.push_str(".")?;
    push_number(text, u64::from(third))?;
    text.push_str(".")?;
    push_number(text, u64::from(last))
}

/// The word for it, or the name of the field.
fn fact_word(line: &Line) -> &'static str
    ensures { result.now ≡ fact_word line.now }
{
    let word = name_word(line.type_name);
    if word.is_empty() {
        field_name(line.step)
    } else {
        word
    }
}

/// The name of a field, empty where it is none.
pub(crate) fn field_name(step: Step) -> &'static str
    ensures { result.now ≡ field_name step }
{
    match step {
        Step::Field(name) => name,
        _ => "",
    }
}

/// The word for a name of this type (RFC 5280 section 4.2.1.6).
fn name_word(name: &str) -> &'static str
    ensures { result.now ≡ name_word name.now }
{
    if name == "dNSName" {
        "DNS"
    } else if name == "rfc822Name" {
        "email"
    } else if name == "uniformResourceIdentifier" {
        "URI"
    } else if name == "iPAddress" {
        "IP"
    } else if name == "registeredID" {
        "OID"
    } else {
        ""
    }
}
