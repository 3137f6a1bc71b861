//! Fields and values in words.
ghost use Rattle.std.specs.Prelude.{◌≡◌, ◌++◌, IfOk, OnOk, drop, string_bytes};
ghost use Rattle.comparison.specs.Said.{arcs_said, characters_said, contents_said, field_said, identifier_said};
ghost use Rattle.comparison.specs.Said.{is_member, is_unnamed, kind_along, kind_part, kind_said, line_said};
ghost use Rattle.comparison.specs.Said.{value_said, wraps};

use asn_names::element::Step;
use reports::paths::path_text;
use reports::picks::{path_to_line, steps_before};
use reports::report::{Length, Line, Value};
use reports::text::{push_number, push_quoted};
use reports::text_lines::push_unused;
use reports::type_words::push_tag;
use reports::words::push_size;
use std::alloc::{AllocError, Global};
use tlv_core::tag::Tag;

/// As many steps are on a path at most: no document is read that has more elements around one.
const STEPS: u64 = 200;

/// As many octets of a text are shown at most; of a longer one their number.
const SHORT: usize = 64;

/// The field that the line of this number is: its path, and the type of the innermost member that it is in.
#[tactic(auto, unfolding(crate::specs::Said::field_said))]
pub(crate) fn field_text(
    alloc: Global,
    root: &str,
    lines: &[Line],
    number: u64,
) -> Result<String, AllocError>
    ensures { IfOk result (λ text. string_bytes text ≡ field_said root.now lines.now number) }
{
    let path = path_to_line(alloc, lines, number)?;
    let mut text = path_text(alloc, root, &path)?;
    push_kind(&mut text, kind_along(lines, number, STEPS))?;
    Ok(text)
}

/// A type in parentheses, where there is one.
fn push_kind(text: &mut String, kind: &str) -> Result<(), AllocError>
    ensures { OnOk result (string_bytes text.new ≡ string_bytes text.old ++ kind_part kind.now) }
{
    if kind.is_empty() {
        return Ok(());
    }
    text.push_str(" (")?;
    text.push_str(kind)?;
    text.push_str(")")
}

/// The type of the innermost member of a list or a set that the line of this number is in, by so many steps at most.
fn kind_along(lines: &[Line], number: u64, most: u64) -> &str
    ensures { result.now ≡ kind_along most lines.now number }
{
    if most == 0 {
        return "";
    }
    let [line, later @ ..] = lines_from(lines, number) else {
        return "";
    };
    let kind = if is_member(line.step) {
        kind_said(later)
    } else {
        ""
    };
    if !kind.is_empty() {
        return kind;
    }
    kind_along(
        lines,
        line.around,
        steps_before(line.around, number, most - 1),
    )
}

/// The lines from that of this number on.
pub(crate) fn lines_from(lines: &[Line], number: u64) -> &[Line]
    ensures { result.now ≡ drop number lines.now }
{
    if number < lines.len() as u64 {
        &lines[number as usize..]
    } else {
        &lines[lines.len()..]
    }
}

/// Whether an element is a member of a list or a set.
fn is_member(step: Step) -> bool
    ensures { result ≡ is_member step }
{
    matches!(step, Step::Member(_))
}

/// The type of what has these lines in it: the object identifier that comes first.
fn kind_said(lines: &[Line]) -> &str
    ensures { result.now ≡ kind_said lines.now }
{
    match lines {
        [] => "",
        [first, ..] => identifier_said(&first.value),
    }
}

/// An object identifier by its name, or by its arcs. Empty of what is none.
fn identifier_said(value: &Value) -> &str
    ensures { result.now ≡ identifier_said value.now }
{
    match value {
        Value::Named(identifier) => identifier.name,
        Value::Arcs(arcs) => arcs.as_str(),
        _ => "",
    }
}

/// The value of the first line: of what is under an explicit tag alone that.
pub(crate) fn push_value(text: &mut String, lines: &[Line]) -> Result<(), AllocError>
    ensures { OnOk result (string_bytes text.new ≡ string_bytes text.old ++ value_said lines.now) }
{
    let [line, later @ ..] = lines else {
        return Ok(());
    };
    if wraps(line, later) {
        return push_value(text, later);
    }
    push_line_value(text, line)
}

/// Whether an element is an explicit tag: what is in it has no name of its own.
fn wraps(line: &Line, later: &[Line]) -> bool
    ensures { result ≡ wraps line.now later.now }
{
    match later {
        [] => false,
        [next, ..] => line.depth < next.depth && is_unnamed(next.step),
    }
}

fn is_unnamed(step: Step) -> bool
    ensures { result ≡ is_unnamed step }
{
    match step {
        Step::Field(name) => name.is_empty(),
        _ => false,
    }
}

/// What is shown of the contents of an element: they themselves where they are public and short, else their number.
fn push_line_value(text: &mut String, line: &Line) -> Result<(), AllocError>
    ensures { OnOk result (string_bytes text.new ≡ string_bytes text.old ++ line_said line.now line.now.value) }
{
    match &line.value {
        Value::Nothing => push_contents(text, line.length),
        Value::NotShown => text.push_str("not shown"),
        Value::Size(octets) => push_size(text, *octets),
        Value::Bits(octets, unused, _) => {
            push_size(text, *octets)?;
            push_unused(text, *unused)
        }
        Value::Null => text.push_str("NULL"),
        Value::Boolean(value) => text.push_str(if *value { "TRUE" } else { "FALSE" }),
        Value::Number(number) => push_number(text, *number),
        Value::Named(identifier) => {
            text.push_str(identifier.name)?;
            text.push_str(" (")?;
            text.push_str(identifier.arcs)?;
            text.push_str(")")
        }
        Value::Arcs(arcs) => push_arcs(text, arcs.as_str(), line.length),
        Value::Characters(octets) => push_characters(text, line.tag, octets),
        Value::Octets(octets) => push_size(text, octets.len() as u64),
    }
}

/// How many octets of contents a header announces.
fn push_contents(text: &mut String, length: Option<Length>) -> Result<(), AllocError>
    ensures { OnOk result (string_bytes text.new ≡ string_bytes text.old ++ contents_said length) }
{
    match length {
        Some(
            Length {
                header: _,
                contents: Some(octets),
            },
        ) => push_size(text, octets),
        _ => text.push_str("not shown"),
    }
}

/// The arcs of an object identifier, where they are few.
fn push_arcs(text: &mut String, arcs: &str, length: Option<Length>) -> Result<(), AllocError>
    ensures { OnOk result (string_bytes text.new ≡ string_bytes text.old
        ++ arcs_said arcs.now length) }
{
    if arcs.len() > SHORT {
        push_contents(text, length)
    } else {
        text.push_str(arcs)
    }
}

/// A character string with its type, where it is short.
fn push_characters(text: &mut String, tag: Tag, octets: &[u8]) -> Result<(), AllocError>
    ensures { OnOk result (string_bytes text.new ≡ string_bytes text.old
        ++ characters_said tag octets.now) }
{
    if octets.len() > SHORT {
        return push_size(text, octets.len() as u64);
    }
    push_tag(text, tag)?;
    text.push_str(" ")?;
    push_quoted(text, octets)
}
