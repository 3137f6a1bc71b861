//! What an accepted document says of itself, in words: what a request asks for, and what a key is.
ghost use Rattle.std.specs.Prelude.{◌≡◌, ◌++◌, OnOk, string_bytes};
ghost use Rattle.reports.specs.Asks.{each_in, identifier_said};
ghost use Rattle.reports.specs.Summaries.{asked_lines, curve_line, curve_name, curve_said, encryption_line, held_line};
ghost use Rattle.reports.specs.Summaries.{holds_lines, is_holding, is_key, parameter_said, parts_said};
ghost use Rattle.reports.specs.Summaries.{private_key_line, public_key_line, scheme_line};
ghost use Rattle.reports.specs.Summaries.{scheme_part, summary_lines};

use crate::asks::{
    from_field, is_accepted, is_asking, is_step, push_identifier, push_others, push_subject,
};
use crate::keys::{push_key_line, push_rsa, short_exponent};
use crate::report::{Line, Report, Value};
use crate::text::push_number;
use std::alloc::{AllocError, Global};

/// What an accepted document says of itself; of another one, and of a package, nothing.
#[tactic(auto, unfolding(crate::specs::Summaries::summary_lines))]
pub(crate) fn push_summary(
    alloc: Global,
    text: &mut String,
    report: &Report,
    lines: &[Line],
) -> Result<(), AllocError>
    requires { lines.now ≡ report.now.lines.items }
    ensures { OnOk result (string_bytes text.new ≡ string_bytes text.old ++ summary_lines report.now) }
{
    if !is_asking(report) {
        return push_holds(alloc, text, report, lines);
    }
    text.push_str("\n")?;
    text.push_str("asks for\n")?;
    push_asked_lines(alloc, text, lines)
}

fn push_asked_lines(alloc: Global, text: &mut String, lines: &[Line]) -> Result<(), AllocError>
    ensures { OnOk result (string_bytes text.new ≡ string_bytes text.old ++ asked_lines lines.now) }
{
    let subject = from_field(lines, "subject");
    let key = from_field(lines, "subjectPKInfo");
    let algorithm = from_field(lines, "signatureAlgorithm");
    push_parts(alloc, text, subject, key, algorithm, lines)
}

/// Subject, key and signature, and after them attributes and extensions.
#[tactic(auto, unfolding(crate::specs::Summaries::parts_said))]
fn push_parts(
    alloc: Global,
    text: &mut String,
    subject: &[Line],
    key: &[Line],
    algorithm: &[Line],
    lines: &[Line],
) -> Result<(), AllocError>
    ensures { OnOk result (string_bytes text.new ≡ string_bytes text.old
        ++ parts_said subject.now key.now algorithm.now lines.now) }
{
    push_subject(alloc, text, subject)?;
    push_key_line(alloc, text, "  key        ", key, "\n")?;
    push_key_line(alloc, text, "  signature  ", algorithm, ", not verified\n")?;
    push_others(alloc, text, lines)
}

/// What a key says of itself.
#[tactic(auto, unfolding(crate::specs::Summaries::holds_lines))]
fn push_holds(
    alloc: Global,
    text: &mut String,
    report: &Report,
    lines: &[Line],
) -> Result<(), AllocError>
    requires { lines.now ≡ report.now.lines.items }
    ensures { OnOk result (string_bytes text.new ≡ string_bytes text.old ++ holds_lines report.now) }
{
    if !is_holding(report) {
        return Ok(());
    }
    text.push_str("\n")?;
    text.push_str("holds\n")?;
    push_held(alloc, text, report.kind.word, report.modulus, lines)
}

/// Whether it is a key that is accepted.
pub(crate) fn is_holding(report: &Report) -> bool
    ensures { result ≡ is_holding report.now }
{
    is_accepted(report.answer) && is_key(report.kind.word)
}

fn is_key(kind: &str) -> bool
    ensures { result ≡ is_key kind.now }
{
    kind == "key" || kind == "ec" || kind == "public" || kind == "encrypted"
}

#[tactic(auto, unfolding(crate::specs::Summaries::held_line))]
fn push_held(
    alloc: Global,
    text: &mut String,
    kind: &str,
    modulus: Option<u64>,
    lines: &[Line],
) -> Result<(), AllocError>
    ensures { OnOk result (string_bytes text.new ≡ string_bytes text.old
        ++ held_line kind.now modulus lines.now) }
{
    if kind == "encrypted" {
        return push_encryption(text, lines);
    }
    if kind == "ec" {
        return push_curve(text, lines);
    }
    if kind == "key" {
        return push_private_key(alloc, text, modulus, lines);
    }
    push_public_key(alloc, text, lines)
}

#[tactic(auto, unfolding(crate::specs::Summaries::encryption_line))]
fn push_encryption(text: &mut String, lines: &[Line]) -> Result<(), AllocError>
    ensures { OnOk result (string_bytes text.new ≡ string_bytes text.old ++ encryption_line lines.now) }
{
    let algorithm = from_field(lines, "encryptionAlgorithm");
    push_scheme(text, "  encrypted  ", algorithm, "\n")
}

#[tactic(auto, unfolding(crate::specs::Summaries::private_key_line))]
fn push_private_key(
    alloc: Global,
    text: &mut String,
    modulus: Option<u64>,
    lines: &[Line],
) -> Result<(), AllocError>
    ensures { OnOk result (string_bytes text.new ≡ string_bytes text.old
        ++ private_key_line modulus lines.now) }
{
    let mut end = String::new(alloc);
    push_rsa(
        &mut end,
        modulus,
        short_exponent(from_field(lines, "publicExponent")),
    )?;
    end.push_str("\n")?;
    let algorithm = from_field(lines, "privateKeyAlgorithm");
    push_key_line(alloc, text, "  key        ", algorithm, end.as_str())
}

#[tactic(auto, unfolding(crate::specs::Summaries::public_key_line))]
fn push_public_key(alloc: Global, text: &mut String, lines: &[Line]) -> Result<(), AllocError>
    ensures { OnOk result (string_bytes text.new ≡ string_bytes text.old
        ++ public_key_line lines.now) }
{
    push_key_line(alloc, text, "  key        ", lines, "\n")
}

/// How a key is encrypted, after and before other words: its scheme, and of the parameters of that identifiers and
/// numbers.
fn push_scheme(text: &mut String, label: &str, lines: &[Line], end: &str) -> Result<(), AllocError>
    ensures { OnOk result (string_bytes text.new ≡ string_bytes text.old
        ++ scheme_line label.now lines.now end.now) }
{
    let [line, rest @ ..] = lines else {
        return Ok(());
    };
    text.push_str(label)?;
    push_scheme_parts(text, line.depth, rest)?;
    text.push_str(end)
}

fn push_scheme_parts(text: &mut String, depth: u64, lines: &[Line]) -> Result<(), AllocError>
    ensures { OnOk result (string_bytes text.new ≡ string_bytes text.old
        ++ each_in scheme_part depth lines.now) }
{
    let mut left = lines;
    while let [line, rest @ ..] = left {
        if line.depth <= depth {
            return Ok(());
        }
        push_scheme_part(text, line)?;
        left = rest;
    }
    Ok(())
}

fn push_scheme_part(text: &mut String, line: &Line) -> Result<(), AllocError>
    ensures { OnOk result (string_bytes text.new ≡ string_bytes text.old ++ scheme_part line.now) }
{
    if is_step(line.step, "algorithm") {
        return push_identifier(text, &line.value);
    }
    push_parameter(text, &line.value)
}

fn push_parameter(text: &mut String, value: &Value) -> Result<(), AllocError>
    ensures { OnOk result (string_bytes text.new ≡ string_bytes text.old ++ parameter_said value.now) }
{
    match value {
        Value::Named(identifier) => {
            text.push_str(", ")?;
            text.push_str(identifier.name)
        }
        Value::Arcs(arcs) => {
            text.push_str(", ")?;
            text.push_str(arcs.as_str())
        }
        Value::Number(number) => {
            text.push_str(", ")?;
            push_number(text, *number)
        }
        _ => Ok(()),
    }
}

/// The curve that the parameters of an ECPrivateKey name.
#[tactic(auto, unfolding(crate::specs::Summaries::curve_line))]
fn push_curve(text: &mut String, lines: &[Line]) -> Result<(), AllocError>
    ensures { OnOk result (string_bytes text.new ≡ string_bytes text.old ++ curve_line lines.now) }
{
    text.push_str("  curve      ")?;
    text.push_str(curve_words(curve_name(from_field(lines, "parameters"))))?;
    text.push_str("\n")
}

fn curve_words(name: &str) -> &str
    ensures { result.now ≡ curve_said name.now }
{
    if name.is_empty() { "not named" } else { name }
}

/// Its name, by the lines of the tag around it and of itself.
pub(crate) fn curve_name(lines: &[Line]) -> &str
    ensures { result.now ≡ curve_name lines.now }
{
    match lines {
        [_, curve, ..] => identifier_words(&curve.value),
        _ => "",
    }
}

/// An object identifier by its usual name, or by its arcs.
fn identifier_words(value: &Value) -> &str
    ensures { result.now ≡ identifier_said value.now }
{
    match value {
        Value::Named(identifier) => identifier.name,
        Value::Arcs(arcs) => arcs.as_str(),
        _ => "",
    }
}
