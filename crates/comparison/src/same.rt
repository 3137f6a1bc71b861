//! What two documents are to each other, as it is written.
ghost use Rattle.std.specs.Prelude.{◌≡◌, IfOk, map, string_bytes};
ghost use Rattle.comparison.specs.DifferenceWords.{words_of};
ghost use Rattle.comparison.specs.Written.{AreShown, IsCompared, IsWritten, another_written, refused_written};
ghost use Rattle.comparison.specs.Written.{same_written};

use crate::difference_list::{Encodings, differences};
use crate::difference_text::{DifferenceText, Sides, first_shown, left_out};
use crate::json_object::{Heading, another_json, refused_json, same_json};
use crate::reading::{is_any, read};
pub use crate::sameness::Sameness;
use crate::text::{DocumentNames, another_text, refused_text, same_line};
use explain::explained::explain;
use explain::profile::Profile;
use explain::version::VERSION;
use pk_documents::kind::Kind;
use std::alloc::{AllocError, Global};
use tlv_core::fault::Fault;
use tlv_core::limits::Limits;

/// How the answer is written.
#[derive(Clone, Copy, Debug, PartialEq, Eq)]
pub enum Style {
    /// In lines.
    Text,
    /// As one object of JSON.
    Json,
}

/// The octets of two documents.
#[derive(Clone, Copy)]
pub struct TwoDocuments<'a> {
    pub first: &'a [u8],
    pub second: &'a [u8],
}

/// What two slices are to each other, of which each has to be one whole document of the kind, and the same as it is
/// written.
///
/// A document that is refused is never the same as another. Names stand as they are given.
pub fn same_text(
    alloc: Global,
    documents: TwoDocuments<'_>,
    names: DocumentNames<'_>,
    kind: Kind,
    limits: Limits,
    form: Style,
) -> Result<(String, Sameness), AllocError>
    ensures { IfOk result (λ written. IsWritten form limits kind
        names.entry.first.now names.entry.second.now
        documents.entry.first.now documents.entry.second.now
        (string_bytes written.0) written.1) }
{
    let heading = Heading {
        version: VERSION,
        kind: kind.row().word,
        names,
    };
    let reading = read(alloc, documents.first, kind, limits)?;
    let other = read(alloc, documents.second, kind, limits)?;
    let fault = reading.fault();
    let other_fault = other.fault();
    if is_any(fault, other_fault) {
        return refused(alloc, heading, form, fault, other_fault);
    }
    let encodings = Encodings {
        first: reading.encoding(),
        second: other.encoding(),
    };
    compared(alloc, encodings, kind, limits, heading, form)
}

/// The answer where a document is refused, or both.
fn refused(
    alloc: Global,
    heading: Heading<'_>,
    form: Style,
    fault: Option<Fault>,
    other: Option<Fault>,
) -> Result<(String, Sameness), AllocError>
    ensures text { IfOk result (λ written. string_bytes written.0
        ≡ refused_written form heading.entry.version.now heading.entry.kind.now
        heading.entry.names.first.now heading.entry.names.second.now fault other) }
    ensures sameness { IfOk result (λ written. written.1 ≡ Sameness.Refused fault other) }
{
    let text = match form {
        Style::Text => refused_text(alloc, heading.names, fault, other)?,
        Style::Json => refused_json(alloc, heading, fault, other)?,
    };
    Ok((text, Sameness::Refused(fault, other)))
}

/// The answer for two documents by their DER encodings.
fn compared(
    alloc: Global,
    encodings: Encodings<'_>,
    kind: Kind,
    limits: Limits,
    heading: Heading<'_>,
    form: Style,
) -> Result<(String, Sameness), AllocError>
    ensures { IfOk result (λ written. IsCompared form limits kind
        heading.entry.version.now heading.entry.kind.now
        heading.entry.names.first.now heading.entry.names.second.now
        encodings.entry.first.now encodings.entry.second.now
        (string_bytes written.0) written.1) }
{
    if encodings.first == encodings.second {
        return Ok((same_written(alloc, heading, form)?, Sameness::Same));
    }
    let (shown, more) = show_differences(alloc, encodings, kind, limits)?;
    let text = another_written(alloc, heading, form, &shown, more)?;
    Ok((text, Sameness::Another))
}

fn same_written(alloc: Global, heading: Heading<'_>, form: Style) -> Result<String, AllocError>
    ensures { IfOk result (λ text. string_bytes text
        ≡ same_written form heading.entry.version.now heading.entry.kind.now
        heading.entry.names.first.now heading.entry.names.second.now) }
{
    match form {
        Style::Text => same_line(alloc),
        Style::Json => same_json(alloc, heading),
    }
}

fn another_written(
    alloc: Global,
    heading: Heading<'_>,
    form: Style,
    shown: &[DifferenceText],
    more: u64,
) -> Result<String, AllocError>
    ensures { IfOk result (λ text. string_bytes text
        ≡ another_written form heading.entry.version.now heading.entry.kind.now
        heading.entry.names.first.now heading.entry.names.second.now
        (map words_of shown.now) more) }
{
    match form {
        Style::Text => another_text(alloc, heading.names, shown, more),
        Style::Json => another_json(alloc, heading, shown, more),
    }
}

/// What is shown of two documents by their DER encodings, and how many elements differ that aren't shown.
fn show_differences(
    alloc: Global,
    encodings: Encodings<'_>,
    kind: Kind,
    limits: Limits,
) -> Result<(Vec<DifferenceText>, u64), AllocError>
    ensures { IfOk result (λ it. AreShown limits kind encodings.entry.first.now
        encodings.entry.second.now (map words_of it.0.items) it.1) }
{
    let report = explain(alloc, encodings.first, kind, limits, Profile::General)?;
    let other_report = explain(alloc, encodings.second, kind, limits, Profile::General)?;
    let all = differences(alloc, encodings, &report.lines, &other_report.lines)?;
    let sides = Sides {
        root: report.kind.type_name,
        first: &report.lines,
        second: &other_report.lines,
    };
    let shown = first_shown(alloc, sides, &all)?;
    Ok((shown, left_out(all.len())))
}
