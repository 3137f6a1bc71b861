//! What an accepted request asks for, as JSON.
ghost use Rattle.std.specs.Prelude.{[], ◌≡◌, ◌++◌, IfOk, OnOk, codes, cond, string_bytes};
ghost use Rattle.reports.specs.Asks.{each_in, each_start_in, identifier_said, is_other};
ghost use Rattle.reports.specs.JsonAsks.{asked_members, attribute_item, attribute_name, attributes_member};
ghost use Rattle.reports.specs.JsonAsks.{extension_item, extension_members, extension_object, extensions_member};
ghost use Rattle.reports.specs.JsonAsks.{fact_item, fact_members, list_name};
ghost use Rattle.reports.specs.JsonAsks.{name_key, name_member, name_object, name_said, part_members, relative_name};
ghost use Rattle.reports.specs.JsonAsks.{said_value, subject_member, three_usages, usage_item};
ghost use Rattle.reports.specs.JsonAsks.{summary_member, usage_items, usages_in, verdict_part};
ghost use Rattle.reports.specs.JsonMembers.{item, list, list_member, object};
ghost use Rattle.reports.specs.Letters.{characters};

use crate::asks::{
    field_name, from_field, is_asking, is_critical, is_identifier, is_leaf, is_of, is_other,
    is_step, push_address, push_identifier,
};
use crate::json_keys::{identifier_text, push_holds, push_key};
use crate::json_lists::{push_carried, push_value, push_value_members};
use crate::json_text::JsonText;
use crate::letters::push_string;
use crate::report::{Line, Report, Value};
use crate::usages::{has_bit, usage_name};
use std::alloc::{AllocError, Global};
use tlv_core::tag::Tag;

/// What an accepted document says of itself: what a request asks for, and what a key is.
pub(crate) fn push_summary(
    alloc: Global,
    json: &mut JsonText,
    report: &Report,
    lines: &[Line],
) -> Result<(), AllocError>
    requires { lines.now ≡ report.now.lines.items }
    ensures { OnOk result (json.new ≡ json.old ++ summary_member report.now) }
{
    if !is_asking(report) {
        return push_holds(alloc, json, report, lines);
    }
    json.begin_object_at("asks")?;
    push_asked(alloc, json, lines)?;
    json.end_object()
}

fn push_asked(alloc: Global, json: &mut JsonText, lines: &[Line]) -> Result<(), AllocError>
    ensures { OnOk result (json.new ≡ json.old ++ asked_members lines.now) }
{
    let subject = from_field(lines, "subject");
    let key = from_field(lines, "subjectPKInfo");
    let algorithm = from_field(lines, "signatureAlgorithm");
    push_parts(alloc, json, subject, key, algorithm, lines)
}

#[tactic(auto, unfolding(crate::specs::JsonAsks::part_members))]
fn push_parts(
    alloc: Global,
    json: &mut JsonText,
    subject: &[Line],
    key: &[Line],
    algorithm: &[Line],
    lines: &[Line],
) -> Result<(), AllocError>
    ensures { OnOk result (json.new ≡ json.old
        ++ part_members subject.now key.now algorithm.now lines.now) }
{
    push_subject(alloc, json, subject)?;
    push_key(alloc, json, "key", key)?;
    push_key(alloc, json, "signature", algorithm)?;
    push_attributes(alloc, json, lines)?;
    push_extensions(alloc, json, lines)
}

fn push_subject(alloc: Global, json: &mut JsonText, lines: &[Line]) -> Result<(), AllocError>
    ensures { OnOk result (json.new ≡ json.old ++ subject_member lines.now) }
{
    match lines {
        [line, rest @ ..] => push_subject_list(alloc, json, line.depth, rest),
        [] => Ok(()),
    }
}

fn push_subject_list(
    alloc: Global,
    json: &mut JsonText,
    depth: u64,
    lines: &[Line],
) -> Result<(), AllocError>
    ensures { OnOk result (json.new ≡ json.old
        ++ list_member (codes "subject") (each_start_in relative_name depth lines.now)) }
{
    json.begin_list_at("subject")?;
    push_relative_names(alloc, json, depth, lines)?;
    json.end_list()
}

fn push_relative_names(
    alloc: Global,
    json: &mut JsonText,
    depth: u64,
    lines: &[Line],
) -> Result<(), AllocError>
    ensures { OnOk result (json.new ≡ json.old ++ each_start_in relative_name depth lines.now) }
{
    let mut left = lines;
    while let [line, rest @ ..] = left {
        if line.depth <= depth {
            return Ok(());
        }
        push_relative_name(alloc, json, line, rest)?;
        left = rest;
    }
    Ok(())
}

fn push_relative_name(
    alloc: Global,
    json: &mut JsonText,
    line: &Line,
    lines: &[Line],
) -> Result<(), AllocError>
    ensures { OnOk result (json.new ≡ json.old ++ relative_name line.now lines.now) }
{
    if is_of(line, "RelativeDistinguishedName") {
        return push_name_list(alloc, json, line.depth, lines);
    }
    Ok(())
}

fn push_name_list(
    alloc: Global,
    json: &mut JsonText,
    depth: u64,
    lines: &[Line],
) -> Result<(), AllocError>
    ensures { OnOk result (json.new ≡ json.old ++ list (each_start_in name_object depth lines.now)) }
{
    json.begin_list()?;
    push_name_objects(alloc, json, depth, lines)?;
    json.end_list()
}

/// The attributes of a relative name.
fn push_name_objects(
    alloc: Global,
    json: &mut JsonText,
    depth: u64,
    lines: &[Line],
) -> Result<(), AllocError>
    ensures { OnOk result (json.new ≡ json.old ++ each_start_in name_object depth lines.now) }
{
    let mut left = lines;
    while let [line, rest @ ..] = left {
        if line.depth <= depth {
            return Ok(());
        }
        push_name_object(alloc, json, line, rest)?;
        left = rest;
    }
    Ok(())
}

fn push_name_object(
    alloc: Global,
    json: &mut JsonText,
    line: &Line,
    lines: &[Line],
) -> Result<(), AllocError>
    ensures { OnOk result (json.new ≡ json.old ++ name_object line.now lines.now) }
{
    if is_of(line, "AttributeTypeAndValue") {
        return push_name(alloc, json, line.depth, lines);
    }
    Ok(())
}

fn push_name(
    alloc: Global,
    json: &mut JsonText,
    depth: u64,
    lines: &[Line],
) -> Result<(), AllocError>
    ensures { OnOk result (json.new ≡ json.old ++ object (each_in name_member depth lines.now)) }
{
    json.begin_object()?;
    push_name_members(alloc, json, depth, lines)?;
    json.end_object()
}

/// The type and the value of an attribute of a name.
fn push_name_members(
    alloc: Global,
    json: &mut JsonText,
    depth: u64,
    lines: &[Line],
) -> Result<(), AllocError>
    ensures { OnOk result (json.new ≡ json.old ++ each_in name_member depth lines.now) }
{
    let mut left = lines;
    while let [line, rest @ ..] = left {
        if line.depth <= depth {
            return Ok(());
        }
        push_name_member(alloc, json, line)?;
        left = rest;
    }
    Ok(())
}

fn push_name_member(alloc: Global, json: &mut JsonText, line: &Line) -> Result<(), AllocError>
    ensures { OnOk result (json.new ≡ json.old ++ name_member line.now) }
{
    if is_step(line.step, "type") {
        return push_value_members(alloc, json, &line.value);
    }
    if is_step(line.step, "value") {
        return push_said_value(alloc, json, line.tag, &line.value);
    }
    Ok(())
}

/// What contents say: a string by its characters.
fn push_said_value(
    alloc: Global,
    json: &mut JsonText,
    tag: Tag,
    value: &Value,
) -> Result<(), AllocError>
    ensures { OnOk result (json.new ≡ json.old ++ said_value tag value.now) }
{
    match value {
        Value::Characters(octets) => {
            let text = string_of(alloc, tag, octets)?;
            json.text("text", text.as_str())
        }
        value => push_value(alloc, json, value),
    }
}

/// The characters of a string in UTF-8.
fn string_of(alloc: Global, tag: Tag, octets: &[u8]) -> Result<String, AllocError>
    ensures { IfOk result (λ text. string_bytes text ≡ characters tag octets.now) }
{
    let mut text = String::new(alloc);
    push_string(&mut text, tag, octets)?;
    Ok(text)
}

/// Attributes but those of extensions, by their names.
fn push_attributes(alloc: Global, json: &mut JsonText, lines: &[Line]) -> Result<(), AllocError>
    ensures { OnOk result (json.new ≡ json.old ++ attributes_member lines.now) }
{
    match lines {
        [line, rest @ ..] => push_attribute_list(alloc, json, line.depth, rest),
        [] => Ok(()),
    }
}

fn push_attribute_list(
    alloc: Global,
    json: &mut JsonText,
    depth: u64,
    lines: &[Line],
) -> Result<(), AllocError>
    ensures { OnOk result (json.new ≡ json.old
        ++ list_member (codes "attributes") (each_start_in attribute_item depth lines.now)) }
{
    json.begin_list_at("attributes")?;
    push_attribute_items(alloc, json, depth, lines)?;
    json.end_list()
}

fn push_attribute_items(
    alloc: Global,
    json: &mut JsonText,
    depth: u64,
    lines: &[Line],
) -> Result<(), AllocError>
    ensures { OnOk result (json.new ≡ json.old ++ each_start_in attribute_item depth lines.now) }
{
    let mut left = lines;
    while let [line, rest @ ..] = left {
        if line.depth <= depth {
            return Ok(());
        }
        push_attribute_item(alloc, json, line, rest)?;
        left = rest;
    }
    Ok(())
}

fn push_attribute_item(
    alloc: Global,
    json: &mut JsonText,
    line: &Line,
    lines: &[Line],
) -> Result<(), AllocError>
    ensures { OnOk result (json.new ≡ json.old ++ attribute_item line.now lines.now) }
{
    if is_of(line, "RequestAttribute") {
        return push_attribute_name(alloc, json, lines);
    }
    Ok(())
}

fn push_attribute_name(alloc: Global, json: &mut JsonText, lines: &[Line]) -> Result<(), AllocError>
    ensures { OnOk result (json.new ≡ json.old ++ attribute_name lines.now) }
{
    match lines {
        [line, ..] => push_other(alloc, json, &line.value),
        [] => Ok(()),
    }
}

fn push_other(alloc: Global, json: &mut JsonText, value: &Value) -> Result<(), AllocError>
    ensures { OnOk result (json.new ≡ json.old
        ++ cond (is_other value.now) (item (identifier_said value.now)) []) }
{
    if !is_other(value) {
        return Ok(());
    }
    let name = identifier_text(alloc, value)?;
    json.item(name.as_str())
}

fn push_extensions(alloc: Global, json: &mut JsonText, lines: &[Line]) -> Result<(), AllocError>
    ensures { OnOk result (json.new ≡ json.old ++ extensions_member lines.now) }
{
    match lines {
        [line, rest @ ..] => push_extension_list(alloc, json, line.depth, rest),
        [] => Ok(()),
    }
}

fn push_extension_list(
    alloc: Global,
    json: &mut JsonText,
    depth: u64,
    lines: &[Line],
) -> Result<(), AllocError>
    ensures { OnOk result (json.new ≡ json.old
        ++ list_member (codes "extensions") (each_start_in extension_item depth lines.now)) }
{
    json.begin_list_at("extensions")?;
    push_extension_items(alloc, json, depth, lines)?;
    json.end_list()
}

fn push_extension_items(
    alloc: Global,
    json: &mut JsonText,
    depth: u64,
    lines: &[Line],
) -> Result<(), AllocError>
    ensures { OnOk result (json.new ≡ json.old ++ each_start_in extension_item depth lines.now) }
{
    let mut left = lines;
    while let [line, rest @ ..] = left {
        if line.depth <= depth {
            return Ok(());
        }
        push_extension_item(alloc, json, line, rest)?;
        left = rest;
    }
    Ok(())
}

fn push_extension_item(
    alloc: Global,
    json: &mut JsonText,
    line: &Line,
    lines: &[Line],
) -> Result<(), AllocError>
    ensures { OnOk result (json.new ≡ json.old ++ extension_item line.now lines.now) }
{
    if is_of(line, "Extension") {
        return push_extension_object(alloc, json, line.at, line.depth, lines);
    }
    Ok(())
}

fn push_extension_object(
    alloc: Global,
    json: &mut JsonText,
    at: u64,
    depth: u64,
    lines: &[Line],
) -> Result<(), AllocError>
    ensures { OnOk result (json.new ≡ json.old ++ extension_object at depth lines.now) }
{
    let [line, rest @ ..] = lines else {
        return Ok(());
    };
    json.begin_object()?;
    push_extension(alloc, json, at, depth, line, rest)?;
    json.end_object()
}

/// An extension by its identifier and the lines after that.
#[tactic(auto, unfolding(crate::specs::JsonAsks::extension_members))]
fn push_extension(
    alloc: Global,
    json: &mut JsonText,
    at: u64,
    depth: u64,
    line: &Line,
    lines: &[Line],
) -> Result<(), AllocError>
    ensures { OnOk result (json.new ≡ json.old ++ extension_members at depth line.now lines.now) }
{
    push_value_members(alloc, json, &line.value)?;
    json.boolean("critical", is_critical(lines))?;
    json.number("at", at)?;
    push_verdicts(json, depth, lines)?;
    let name = identifier_text(alloc, &line.value)?;
    push_facts(alloc, json, list_name(name.as_str()), depth, lines)
}

/// What the value of an extension is as one of its type.
fn push_verdicts(json: &mut JsonText, depth: u64, lines: &[Line]) -> Result<(), AllocError>
    ensures { OnOk result (json.new ≡ json.old ++ each_in verdict_part depth lines.now) }
{
    let mut left = lines;
    while let [line, rest @ ..] = left {
        if line.depth <= depth {
            return Ok(());
        }
        push_verdict(json, line)?;
        left = rest;
    }
    Ok(())
}

fn push_verdict(json: &mut JsonText, line: &Line) -> Result<(), AllocError>
    ensures { OnOk result (json.new ≡ json.old ++ verdict_part line.now) }
{
    if is_step(line.step, "extnValue") {
        return push_carried(json, line.carries);
    }
    Ok(())
}

/// What the list of what stands in an extension is called, by the name of the extension.
fn list_name(name: &str) -> &'static str
    ensures { result.now ≡ list_name name.now }
{
    if name == "subjectAltName" || name == "issuerAltName" {
        "names"
    } else if name == "keyUsage" {
        "bits"
    } else {
        "values"
    }
}

/// The leaves of what stands in an extension.
fn push_facts(
    alloc: Global,
    json: &mut JsonText,
    name: &str,
    depth: u64,
    lines: &[Line],
) -> Result<(), AllocError>
    ensures { OnOk result (json.new ≡ json.old
        ++ list_member name.now (each_in fact_item depth lines.now)) }
{
    json.begin_list_at(name)?;
    push_fact_items(alloc, json, depth, lines)?;
    json.end_list()
}

fn push_fact_items(
    alloc: Global,
    json: &mut JsonText,
    depth: u64,
    lines: &[Line],
) -> Result<(), AllocError>
    ensures { OnOk result (json.new ≡ json.old ++ each_in fact_item depth lines.now) }
{
    let mut left = lines;
    while let [line, rest @ ..] = left {
        if line.depth <= depth {
            return Ok(());
        }
        push_fact_item(alloc, json, line)?;
        left = rest;
    }
    Ok(())
}

fn push_fact_item(alloc: Global, json: &mut JsonText, line: &Line) -> Result<(), AllocError>
    ensures { OnOk result (json.new ≡ json.old ++ fact_item line.now) }
{
    if !is_leaf(line) {
        return Ok(());
    }
    if is_of(line, "KeyUsage") {
        return push_usages(json, &line.value);
    }
    json.begin_object()?;
    push_fact(alloc, json, line, name_key(line.type_name))?;
    json.end_object()
}

/// A name by the key for names of its type, another leaf by its field.
fn push_fact(alloc: Global, json: &mut JsonText, line: &Line, key: &str) -> Result<(), AllocError>
    ensures { OnOk result (json.new ≡ json.old ++ fact_members line.now key.now) }
{
    if key.is_empty() {
        json.said("field", field_name(line.step))?;
        return push_said_value(alloc, json, line.tag, &line.value);
    }
    let text = name_text(alloc, line.tag, &line.value)?;
    json.text(key, text.as_str())
}

/// The key of a name of this type (RFC 5280 section 4.2.1.6).
fn name_key(name: &str) -> &'static str
    ensures { result.now ≡ name_key name.now }
{
    if name == "dNSName" {
        "dns"
    } else if name == "rfc822Name" {
        "email"
    } else if name == "uniformResourceIdentifier" {
        "uri"
    } else if name == "iPAddress" {
        "ip"
    } else if name == "registeredID" {
        "oid"
    } else {
        ""
    }
}

/// What a name of these types says.
fn name_text(alloc: Global, tag: Tag, value: &Value) -> Result<String, AllocError>
    ensures { IfOk result (λ text. string_bytes text ≡ name_said tag value.now) }
{
    let mut text = String::new(alloc);
    match value {
        Value::Characters(octets) => push_string(&mut text, tag, octets)?,
        Value::Octets(octets) => push_address(&mut text, octets)?,
        Value::Named(identifier) => text.push_str(identifier.arcs)?,
        Value::Arcs(arcs) => text.push_str(arcs.as_str())?,
        _ => (),
    }
    Ok(text)
}

fn push_usages(json: &mut JsonText, value: &Value) -> Result<(), AllocError>
    ensures { OnOk result (json.new ≡ json.old ++ usages_in value.now) }
{
    match value {
        Value::Octets(contents) => push_usage_items(json, contents),
        _ => Ok(()),
    }
}

#[tactic(auto, unfolding(crate::specs::JsonAsks::usage_items))]
fn push_usage_items(json: &mut JsonText, contents: &[u8]) -> Result<(), AllocError>
    ensures { OnOk result (json.new ≡ json.old ++ usage_items contents.now) }
{
    push_three_usages(json, contents, 0, 1, 2)?;
    push_three_usages(json, contents, 3, 4, 5)?;
    push_three_usages(json, contents, 6, 7, 8)
}

#[tactic(auto, unfolding(crate::specs::JsonAsks::three_usages))]
fn push_three_usages(
    json: &mut JsonText,
    contents: &[u8],
    first: u8,
    second: u8,
    third: u8,
) -> Result<(), AllocError>
    ensures { OnOk result (json.new ≡ json.old ++ three_usages contents.now first second third) }
{
    push_usage(json, contents, first)?;
    push_usage(json, contents, second)?;
    push_usage(json, contents, third)
}

/// A usage where its bit is 1.
fn push_usage(json: &mut JsonText, contents: &[u8], number: u8) -> Result<(), AllocError>
    ensures { OnOk result (json.new ≡ json.old ++ usage_item contents.now number) }
{
    if has_bit(contents, number) {
        return json.item(usage_name(number));
    }
    Ok(())
}
