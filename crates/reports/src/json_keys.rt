//! What a key says of itself, as JSON.
ghost use Rattle.std.specs.Prelude.{◌≡◌, ◌++◌, IfOk, OnOk, codes, string_bytes};
ghost use Rattle.reports.specs.Asks.{each_in, identifier_said};
ghost use Rattle.reports.specs.JsonKeys.{bits_member, curve_members, encryption_members, held_members, holds_member};
ghost use Rattle.reports.specs.JsonKeys.{identifier_item, identifier_of, private_key_members};
ghost use Rattle.reports.specs.JsonKeys.{key_member, key_members, key_part, modulus_member, number_item, number_of};
ghost use Rattle.reports.specs.JsonKeys.{rsa_members, scheme_member, scheme_members, size_member, sized_key};
ghost use Rattle.reports.specs.JsonMembers.{list_member, said_member, text_member};
ghost use Rattle.reports.specs.Keys.{integer_said};

use crate::asks::{from_field, is_identifier, is_step, push_identifier};
use crate::json_lists::push_carried;
use crate::json_text::JsonText;
use crate::keys::{bit_length, integer_bits, is_below_zero, push_integer, short_exponent};
use crate::report::{Line, Report, Value};
use crate::summaries::{curve_name, is_holding};
use crate::text::push_number;
use std::alloc::{AllocError, Global};

/// What a key says of itself; of another document nothing.
pub(crate) fn push_holds(
    alloc: Global,
    json: &mut JsonText,
    report: &Report,
    lines: &[Line],
) -> Result<(), AllocError>
    requires { lines.now ≡ report.now.lines.items }
    ensures { OnOk result (json.new ≡ json.old ++ holds_member report.now) }
{
    if !is_holding(report) {
        return Ok(());
    }
    json.begin_object_at("holds")?;
    push_held(alloc, json, report.kind.word, report.modulus, lines)?;
    json.end_object()
}

#[tactic(auto, unfolding(crate::specs::JsonKeys::held_members))]
fn push_held(
    alloc: Global,
    json: &mut JsonText,
    kind: &str,
    modulus: Option<u64>,
    lines: &[Line],
) -> Result<(), AllocError>
    ensures { OnOk result (json.new ≡ json.old ++ held_members kind.now modulus lines.now) }
{
    if kind == "encrypted" {
        return push_encryption(alloc, json, lines);
    }
    if kind == "ec" {
        return push_curve(json, lines);
    }
    if kind == "key" {
        return push_private_key(alloc, json, modulus, lines);
    }
    push_key(alloc, json, "key", lines)
}

#[tactic(auto, unfolding(crate::specs::JsonKeys::encryption_members))]
fn push_encryption(alloc: Global, json: &mut JsonText, lines: &[Line]) -> Result<(), AllocError>
    ensures { OnOk result (json.new ≡ json.old ++ encryption_members lines.now) }
{
    let algorithm = from_field(lines, "encryptionAlgorithm");
    push_scheme(alloc, json, "encryption", algorithm)
}

#[tactic(auto, unfolding(crate::specs::JsonKeys::curve_members))]
fn push_curve(json: &mut JsonText, lines: &[Line]) -> Result<(), AllocError>
    ensures { OnOk result (json.new ≡ json.old ++ curve_members lines.now) }
{
    json.said("curve", curve_name(from_field(lines, "parameters")))
}

#[tactic(auto, unfolding(crate::specs::JsonKeys::private_key_members))]
fn push_private_key(
    alloc: Global,
    json: &mut JsonText,
    modulus: Option<u64>,
    lines: &[Line],
) -> Result<(), AllocError>
    ensures { OnOk result (json.new ≡ json.old ++ private_key_members modulus lines.now) }
{
    let exponent = short_exponent(from_field(lines, "publicExponent"));
    let algorithm = from_field(lines, "privateKeyAlgorithm");
    push_sized_key(alloc, json, modulus, exponent, algorithm)
}

/// The parts of the algorithm of a private key, and the size of one of RSA.
fn push_sized_key(
    alloc: Global,
    json: &mut JsonText,
    modulus: Option<u64>,
    exponent: Option<u64>,
    lines: &[Line],
) -> Result<(), AllocError>
    ensures { OnOk result (json.new ≡ json.old ++ sized_key modulus exponent lines.now) }
{
    let [line, rest @ ..] = lines else {
        return Ok(());
    };
    json.begin_object_at("key")?;
    push_key_parts(alloc, json, line.depth, rest)?;
    push_rsa_size(alloc, json, modulus, exponent)?;
    json.end_object()
}

fn push_rsa_size(
    alloc: Global,
    json: &mut JsonText,
    modulus: Option<u64>,
    exponent: Option<u64>,
) -> Result<(), AllocError>
    ensures { OnOk result (json.new ≡ json.old ++ rsa_members modulus exponent) }
{
    let Some(bits) = modulus else {
        return Ok(());
    };
    json.number("bits", bits)?;
    match exponent {
        Some(number) => {
            let mut text = String::new(alloc);
            push_number(&mut text, number)?;
            json.text("exponent", text.as_str())
        }
        None => Ok(()),
    }
}

/// A key or a signature by its parts.
pub(crate) fn push_key(
    alloc: Global,
    json: &mut JsonText,
    name: &str,
    lines: &[Line],
) -> Result<(), AllocError>
    ensures { OnOk result (json.new ≡ json.old ++ key_member name.now lines.now) }
{
    let [line, rest @ ..] = lines else {
        return Ok(());
    };
    json.begin_object_at(name)?;
    push_key_parts(alloc, json, line.depth, rest)?;
    json.end_object()
}

fn push_key_parts(
    alloc: Global,
    json: &mut JsonText,
    depth: u64,
    lines: &[Line],
) -> Result<(), AllocError>
    ensures { OnOk result (json.new ≡ json.old ++ each_in key_part depth lines.now) }
{
    let mut left = lines;
    while let [line, rest @ ..] = left {
        if line.depth <= depth {
            return Ok(());
        }
        push_key_part(alloc, json, line)?;
        left = rest;
    }
    Ok(())
}

/// The algorithm, what its parameters name, how long a public key is, and what one of RSA has.
fn push_key_part(alloc: Global, json: &mut JsonText, line: &Line) -> Result<(), AllocError>
    ensures { OnOk result (json.new ≡ json.old ++ key_part line.now) }
{
    if is_step(line.step, "algorithm") && is_identifier(&line.value) {
        return push_identifier_at(alloc, json, "algorithm", &line.value);
    }
    if is_step(line.step, "parameters") && is_identifier(&line.value) {
        return push_identifier_at(alloc, json, "parameters", &line.value);
    }
    if is_step(line.step, "subjectPublicKey") {
        push_size(json, &line.value)?;
        return push_carried(json, line.carries);
    }
    if is_step(line.step, "modulus") {
        return push_modulus(json, &line.value);
    }
    if is_step(line.step, "publicExponent") {
        return push_exponent(alloc, json, &line.value);
    }
    Ok(())
}

fn push_identifier_at(
    alloc: Global,
    json: &mut JsonText,
    name: &str,
    value: &Value,
) -> Result<(), AllocError>
    ensures { OnOk result (json.new ≡ json.old ++ text_member name.now (identifier_said value.now)) }
{
    let text = identifier_text(alloc, value)?;
    json.text(name, text.as_str())
}

/// An object identifier by its usual name, or by its arcs.
pub(crate) fn identifier_text(alloc: Global, value: &Value) -> Result<String, AllocError>
    ensures { IfOk result (λ text. string_bytes text ≡ identifier_said value.now) }
{
    let mut text = String::new(alloc);
    push_identifier(&mut text, value)?;
    Ok(text)
}

fn push_size(json: &mut JsonText, value: &Value) -> Result<(), AllocError>
    ensures { OnOk result (json.new ≡ json.old ++ size_member value.now) }
{
    match value {
        Value::Bits(octets, _, _) => json.number("octets", *octets),
        _ => Ok(()),
    }
}

/// The modulus of a public key of RSA by its bits.
fn push_modulus(json: &mut JsonText, value: &Value) -> Result<(), AllocError>
    ensures { OnOk result (json.new ≡ json.old ++ modulus_member value.now) }
{
    match value {
        Value::Number(number) => json.number("bits", bit_length(*number)),
        Value::Octets(contents) => push_bits(json, contents),
        _ => Ok(()),
    }
}

fn push_bits(json: &mut JsonText, contents: &[u8]) -> Result<(), AllocError>
    ensures { OnOk result (json.new ≡ json.old ++ bits_member contents.now) }
{
    if is_below_zero(contents) {
        return Ok(());
    }
    json.number("bits", integer_bits(contents))
}

fn push_exponent(alloc: Global, json: &mut JsonText, value: &Value) -> Result<(), AllocError>
    ensures { OnOk result (json.new ≡ json.old ++ said_member (codes "exponent") (integer_said value.now)) }
{
    let mut text = String::new(alloc);
    push_integer(&mut text, value)?;
    json.said("exponent", text.as_str())
}

/// How a key is encrypted: identifiers and numbers.
fn push_scheme(
    alloc: Global,
    json: &mut JsonText,
    name: &str,
    lines: &[Line],
) -> Result<(), AllocError>
    ensures { OnOk result (json.new ≡ json.old ++ scheme_member name.now lines.now) }
{
    let [line, rest @ ..] = lines else {
        return Ok(());
    };
    json.begin_object_at(name)?;
    push_scheme_lists(alloc, json, line.depth, rest)?;
    json.end_object()
}

#[tactic(auto, unfolding(crate::specs::JsonKeys::scheme_members))]
fn push_scheme_lists(
    alloc: Global,
    json: &mut JsonText,
    depth: u64,
    lines: &[Line],
) -> Result<(), AllocError>
    ensures { OnOk result (json.new ≡ json.old ++ scheme_members depth lines.now) }
{
    push_identifiers(alloc, json, "algorithms", depth, lines)?;
    push_numbers(alloc, json, depth, lines)
}

fn push_identifiers(
    alloc: Global,
    json: &mut JsonText,
    name: &str,
    depth: u64,
    lines: &[Line],
) -> Result<(), AllocError>
    ensures { OnOk result (json.new ≡ json.old
        ++ list_member name.now (each_in identifier_item depth lines.now)) }
{
    json.begin_list_at(name)?;
    push_identifier_items(alloc, json, depth, lines)?;
    json.end_list()
}

fn push_identifier_items(
    alloc: Global,
    json: &mut JsonText,
    depth: u64,
    lines: &[Line],
) -> Result<(), AllocError>
    ensures { OnOk result (json.new ≡ json.old ++ each_in identifier_item depth lines.now) }
{
    let mut left = lines;
    while let [line, rest @ ..] = left {
        if line.depth <= depth {
            return Ok(());
        }
        push_identifier_item(alloc, json, &line.value)?;
        left = rest;
    }
    Ok(())
}

fn push_identifier_item(alloc: Global, json: &mut JsonText, value: &Value) -> Result<(), AllocError>
    ensures { OnOk result (json.new ≡ json.old ++ identifier_of value.now) }
{
    if !is_identifier(value) {
        return Ok(());
    }
    let text = identifier_text(alloc, value)?;
    json.item(text.as_str())
}

fn push_numbers(
    alloc: Global,
    json: &mut JsonText,
    depth: u64,
    lines: &[Line],
) -> Result<(), AllocError>
    ensures { OnOk result (json.new ≡ json.old
        ++ list_member (codes "numbers") (each_in number_item depth lines.now)) }
{
    json.begin_list_at("numbers")?;
    push_number_items(alloc, json, depth, lines)?;
    json.end_list()
}

fn push_number_items(
    alloc: Global,
    json: &mut JsonText,
    depth: u64,
    lines: &[Line],
) -> Result<(), AllocError>
    ensures { OnOk result (json.new ≡ json.old ++ each_in number_item depth lines.now) }
{
    let mut left = lines;
    while let [line, rest @ ..] = left {
        if line.depth <= depth {
            return Ok(());
        }
        push_number_item(alloc, json, &line.value)?;
        left = rest;
    }
    Ok(())
}

fn push_number_item(alloc: Global, json: &mut JsonText, value: &Value) -> Result<(), AllocError>
    ensures { OnOk result (json.new ≡ json.old ++ number_of value.now) }
{
    match value {
        Value::Number(number) => {
            let mut text = String::new(alloc);
            push_number(&mut text, *number)?;
            json.item(text.as_str())
        }
        _ => Ok(()),
    }
}
