//! What two documents are to each other, in lines.
ghost use Rattle.std.specs.Prelude.{◌≡◌, ◌++◌, IfOk, OnOk, flat_map, map, string_bytes};
ghost use Rattle.comparison.specs.Texts.{another_text, difference_lines, fault_line, field_after, fields_said};
ghost use Rattle.comparison.specs.Texts.{more_said, refused_text, same_line, side_line};
ghost use Rattle.comparison.specs.DifferenceWords.{words_of};

use crate::difference_text::DifferenceText;
use reports::text::push_between;
use reports::text_report::{push_inside, push_reason};
use std::alloc::{AllocError, Global};
use tlv_core::fault::Fault;

/// The names of two documents as they are written.
#[derive(Clone, Copy)]
pub struct DocumentNames<'a> {
    pub first: &'a str,
    pub second: &'a str,
}

/// The line of two documents that are the same.
pub(crate) fn same_line(alloc: Global) -> Result<String, AllocError>
    ensures { IfOk result (λ text. string_bytes text ≡ same_line) }
{
    String::from_str(alloc, "the same document\n")
}

/// The lines of documents of which one is refused, or both: one for each that is.
#[tactic(auto, unfolding(crate::specs::Texts::refused_text))]
pub fn refused_text(
    alloc: Global,
    names: DocumentNames<'_>,
    fault: Option<Fault>,
    other: Option<Fault>,
) -> Result<String, AllocError>
    ensures { IfOk result (λ text. string_bytes text
        ≡ refused_text names.entry.first.now names.entry.second.now fault other) }
{
    let mut text = String::new(alloc);
    push_fault_line(&mut text, names.first, fault)?;
    push_fault_line(&mut text, names.second, other)?;
    Ok(text)
}

/// The name of a document that is refused, and its fault, as `check` writes it.
fn push_fault_line(text: &mut String, name: &str, fault: Option<Fault>) -> Result<(), AllocError>
    ensures { OnOk result (string_bytes text.new ≡ string_bytes text.old
        ++ fault_line name.now fault) }
{
    let Some(fault) = fault else {
        return Ok(());
    };
    text.push_str(name)?;
    text.push_str(": fault at ")?;
    push_reason(text, fault.at, fault.why)?;
    push_inside(text, fault.inside)?;
    text.push_str("\n")
}

/// The lines of two documents that aren't the same: the fields that differ, and under them their values.
#[tactic(auto, unfolding(crate::specs::Texts::another_text))]
pub(crate) fn another_text(
    alloc: Global,
    names: DocumentNames<'_>,
    shown: &[DifferenceText],
    more: u64,
) -> Result<String, AllocError>
    ensures { IfOk result (λ text. string_bytes text
        ≡ another_text names.entry.first.now names.entry.second.now (map words_of shown.now) more) }
{
    let mut text = String::from_str(alloc, "another document: ")?;
    push_fields(&mut text, shown)?;
    push_more(&mut text, more)?;
    text.push_str("\n")?;
    push_values(&mut text, names, shown)?;
    Ok(text)
}

/// The fields, a comma between each two.
fn push_fields(text: &mut String, shown: &[DifferenceText]) -> Result<(), AllocError>
    ensures { OnOk result (string_bytes text.new ≡ string_bytes text.old
        ++ fields_said (map words_of shown.now)) }
{
    let [first, rest @ ..] = shown else {
        return Ok(());
    };
    text.push_str(first.field.as_str())?;
    push_fields_after(text, rest)
}

/// Fields after others.
fn push_fields_after(text: &mut String, shown: &[DifferenceText]) -> Result<(), AllocError>
    ensures { OnOk result (string_bytes text.new ≡ string_bytes text.old
        ++ flat_map field_after (map words_of shown.now)) }
{
    let mut left = shown;
    while let [next, rest @ ..] = left {
        text.push_str(", ")?;
        text.push_str(next.field.as_str())?;
        left = rest;
    }
    Ok(())
}

/// How many more fields differ, where more do.
fn push_more(text: &mut String, more: u64) -> Result<(), AllocError>
    ensures { OnOk result (string_bytes text.new ≡ string_bytes text.old ++ more_said more) }
{
    if more == 0 {
        return Ok(());
    }
    push_between(text, " and ", more, " more")
}

/// The values of each field, a line for each document.
fn push_values(
    text: &mut String,
    names: DocumentNames<'_>,
    shown: &[DifferenceText],
) -> Result<(), AllocError>
    ensures { OnOk result (string_bytes text.new ≡ string_bytes text.old
        ++ flat_map (difference_lines names.entry.first.now names.entry.second.now)
        (map words_of shown.now)) }
{
    let mut left = shown;
    while let [next, rest @ ..] = left {
        push_side(text, names.first, next.first.as_str())?;
        push_side(text, names.second, next.second.as_str())?;
        left = rest;
    }
    Ok(())
}

/// A value in a document.
#[tactic(auto, unfolding(crate::specs::Texts::side_line))]
fn push_side(text: &mut String, name: &str, value: &str) -> Result<(), AllocError>
    ensures { OnOk result (string_bytes text.new ≡ string_bytes text.old
        ++ side_line name.now value.now) }
{
    text.push_str("  ")?;
    text.push_str(name)?;
    text.push_str(": ")?;
    text.push_str(value)?;
    text.push_str("\n")
}
