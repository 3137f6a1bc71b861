//! What is said of a document that is refused, of what isn't in DER, and of what other standards forbid. Where nothing
//! is said a text is empty.
ghost use Rattle.std.specs.Prelude.{◌≡◌, ◌++◌, IfOk, OnOk, string_bytes};
ghost use Rattle.reports.specs.Words.{container_said, diagnosis_said, due_of, due_said, due_type_said, element_said};
ghost use Rattle.reports.specs.Words.{ends_before, found_of, found_said, header_said, joined, length_said, more_of};
ghost use Rattle.reports.specs.Words.{more_said, more_words, number_at, off_by, passed_said, placed, says_size};
ghost use Rattle.reports.specs.Words.{size_of, size_said, sized, would_end};

use crate::paths::path_text;
use crate::reason_due::reason_due;
use crate::report::{Answer, Diagnosis, Due, FaultContainer, Found, Length, Line, Report, Value};
use crate::text::{push_number, push_sum};
use crate::type_words::{push_fields, push_shape, push_tag};
use std::alloc::{AllocError, Global};
use tlv_core::fault::Fault;
use tlv_core::reason::Reason;

/// A number of octets.
pub fn push_size(text: &mut String, octets: u64) -> Result<(), AllocError>
    ensures { OnOk result (string_bytes text.new ≡ string_bytes text.old ++ sized octets) }
{
    push_number(text, octets)?;
    text.push_str(if octets == 1 { " octet" } else { " octets" })
}

/// Two texts with a semicolon between them, where both say something.
fn join(first: String, second: String) -> Result<String, AllocError>
    ensures { IfOk result (λ text. string_bytes text
        ≡ joined (string_bytes first) (string_bytes second)) }
{
    if first.as_str().is_empty() {
        return Ok(second);
    }
    let mut text = first;
    if !second.as_str().is_empty() {
        text.push_str("; ")?;
        text.push_str(second.as_str())?;
    }
    Ok(text)
}

/// What is due.
pub(crate) fn due_text(alloc: Global, report: &Report) -> Result<String, AllocError>
    ensures { IfOk result (λ text. string_bytes text ≡ due_said report.now) }
{
    let mut text = String::new(alloc);
    if let Answer::Refused(fault) = report.answer
        && let Some(diagnosis) = &report.diagnosis
    {
        push_due(&mut text, report.kind.word, fault, diagnosis)?;
    }
    Ok(text)
}

/// What the reason alone asks for; else a type.
#[tactic(auto, unfolding(crate::specs::Words::due_of))]
fn push_due(
    text: &mut String,
    kind: &str,
    fault: Fault,
    diagnosis: &Diagnosis,
) -> Result<(), AllocError>
    ensures { OnOk result (string_bytes text.new ≡ string_bytes text.old
        ++ due_of kind.now fault diagnosis.now) }
{
    let words = reason_due(kind, fault);
    if words.is_empty() {
        push_due_type(text, diagnosis.due)
    } else {
        text.push_str(words)
    }
}

/// The types that may be there.
fn push_due_type(text: &mut String, due: Due) -> Result<(), AllocError>
    ensures { OnOk result (string_bytes text.new ≡ string_bytes text.old ++ due_type_said due) }
{
    match due {
        Due::Unsaid => Ok(()),
        Due::Fields(fields) => push_fields(text, fields),
        Due::Type(shape) => push_shape(text, shape),
    }
}

/// What is there, and whether the file is as long as it says.
pub(crate) fn found_text(alloc: Global, report: &Report) -> Result<String, AllocError>
    ensures { IfOk result (λ text. string_bytes text ≡ found_said report.now) }
{
    let element = diagnosis_text(alloc, report)?;
    let more = more_text(alloc, report)?;
    let size = size_text(alloc, report)?;
    let first_two = join(element, more)?;
    join(first_two, size)
}

/// What is there.
fn diagnosis_text(alloc: Global, report: &Report) -> Result<String, AllocError>
    ensures { IfOk result (λ text. string_bytes text ≡ diagnosis_said report.now) }
{
    let mut text = String::new(alloc);
    if let Some(diagnosis) = &report.diagnosis {
        let number = number_at(&report.lines, diagnosis.line);
        push_found(alloc, &mut text, report.kind.type_name, diagnosis, number)?;
    }
    Ok(text)
}

/// The element that is there; else the container that ends there.
#[tactic(auto, unfolding(crate::specs::Words::found_of))]
fn push_found(
    alloc: Global,
    text: &mut String,
    root: &str,
    diagnosis: &Diagnosis,
    number: Option<u64>,
) -> Result<(), AllocError>
    ensures { OnOk result (string_bytes text.new ≡ string_bytes text.old
        ++ found_of root.now diagnosis.now number) }
{
    match diagnosis.found {
        Some(found) => {
            push_header(text, found, number)?;
            push_element(alloc, text, root, diagnosis)
        }
        None => push_container(alloc, text, root, diagnosis),
    }
}

/// The number that the line at a fault shows.
fn number_at(lines: &[Line], line: Option<u64>) -> Option<u64>
    ensures { result ≡ number_at lines.now line }
{
    let Some(number) = line else {
        return None;
    };
    let Some(line) = lines.get(number as usize) else {
        return None;
    };
    match line.value {
        Value::Number(number) => Some(number),
        _ => None,
    }
}

/// An element by its tag, and by its number where that is shown, else by its length.
#[tactic(auto, unfolding(crate::specs::Words::header_said))]
fn push_header(text: &mut String, found: Found, number: Option<u64>) -> Result<(), AllocError>
    ensures { OnOk result (string_bytes text.new ≡ string_bytes text.old ++ header_said found number) }
{
    push_tag(text, found.tag)?;
    match number {
        Some(number) => {
            text.push_str(" ")?;
            push_number(text, number)
        }
        None => push_length(text, found.length),
    }
}

/// What length octets say.
fn push_length(text: &mut String, length: Option<Length>) -> Result<(), AllocError>
    ensures { OnOk result (string_bytes text.new ≡ string_bytes text.old ++ length_said length) }
{
    let Some(length) = length else {
        return Ok(());
    };
    match length.contents {
        Some(octets) => {
            text.push_str(" of ")?;
            push_size(text, octets)
        }
        None => text.push_str(" of indefinite length"),
    }
}

/// Of an element: the end that it passes.
#[tactic(auto, unfolding(crate::specs::Words::element_said))]
fn push_element(
    alloc: Global,
    text: &mut String,
    root: &str,
    diagnosis: &Diagnosis,
) -> Result<(), AllocError>
    ensures { OnOk result (string_bytes text.new ≡ string_bytes text.old
        ++ element_said root.now diagnosis.now) }
{
    let Some(over) = diagnosis.over else {
        return Ok(());
    };
    match &diagnosis.container {
        Some(container) => push_passed(alloc, text, root, container, over),
        None => {
            text.push_str(": ")?;
            push_size(text, over)?;
            text.push_str(" missing")
        }
    }
}

/// The container whose end an element passes by so many octets.
#[tactic(auto, unfolding(crate::specs::Words::passed_said))]
fn push_passed(
    alloc: Global,
    text: &mut String,
    root: &str,
    container: &FaultContainer,
    over: u64,
) -> Result<(), AllocError>
    ensures { OnOk result (string_bytes text.new ≡ string_bytes text.old
        ++ passed_said root.now container.now over) }
{
    let Some(end) = container.end else {
        return Ok(());
    };
    push_would_end(text, end, over)?;
    push_container_path(alloc, text, root, container)?;
    push_ends(text, end, over)
}

/// The place where an element would end that passes this one by so many octets.
#[tactic(auto, unfolding(crate::specs::Words::would_end))]
fn push_would_end(text: &mut String, end: u64, over: u64) -> Result<(), AllocError>
    ensures { OnOk result (string_bytes text.new ≡ string_bytes text.old
        ++ would_end end over) }
{
    text.push_str(", which would end at ")?;
    push_sum(text, end, over)?;
    text.push_str("; ")
}

/// The place where the container ends, and by how many octets it is passed.
#[tactic(auto, unfolding(crate::specs::Words::ends_before))]
fn push_ends(text: &mut String, end: u64, over: u64) -> Result<(), AllocError>
    ensures { OnOk result (string_bytes text.new ≡ string_bytes text.old
        ++ ends_before end over) }
{
    text.push_str(", which it is in, ends at ")?;
    push_number(text, end)?;
    text.push_str(": ")?;
    push_size(text, over)?;
    text.push_str(" too many")
}

/// A container by its path and its place.
#[tactic(auto, unfolding(crate::specs::Words::placed))]
fn push_container_path(
    alloc: Global,
    text: &mut String,
    root: &str,
    container: &FaultContainer,
) -> Result<(), AllocError>
    ensures { OnOk result (string_bytes text.new ≡ string_bytes text.old
        ++ placed root.now container.now) }
{
    let path_text = path_text(alloc, root, &container.path)?;
    text.push_str(path_text.as_str())?;
    text.push_str(" at ")?;
    push_number(text, container.at)
}

/// The container in which something is missing.
#[tactic(auto, unfolding(crate::specs::Words::container_said))]
fn push_container(
    alloc: Global,
    text: &mut String,
    root: &str,
    diagnosis: &Diagnosis,
) -> Result<(), AllocError>
    ensures { OnOk result (string_bytes text.new ≡ string_bytes text.old
        ++ container_said root.now diagnosis.now) }
{
    let Some(container) = &diagnosis.container else {
        return Ok(());
    };
    push_container_path(alloc, text, root, container)?;
    text.push_str(" ends")?;
    let Some(end) = container.end else {
        return Ok(());
    };
    text.push_str(" at ")?;
    push_number(text, end)
}

/// How many octets follow where nothing may, where no length says it.
fn more_text(alloc: Global, report: &Report) -> Result<String, AllocError>
    ensures { IfOk result (λ text. string_bytes text ≡ more_said report.now) }
{
    let mut text = String::new(alloc);
    if let Answer::Refused(fault) = report.answer
        && let Some(diagnosis) = &report.diagnosis
        && let Some(more) = diagnosis.more
    {
        push_more(
            &mut text,
            fault.inside.is_some(),
            report.announced.is_some(),
            more,
        )?;
    }
    Ok(text)
}

/// So many octets after what is inside `privateKey`, or after a document whose length doesn't say where it ends.
#[tactic(auto, unfolding(crate::specs::Words::more_of))]
fn push_more(
    text: &mut String,
    is_inside: bool,
    is_announced: bool,
    more: u64,
) -> Result<(), AllocError>
    ensures { OnOk result (string_bytes text.new ≡ string_bytes text.old
        ++ more_of is_inside is_announced more) }
{
    if !is_inside && is_announced {
        return Ok(());
    }
    push_size(text, more)?;
    text.push_str(more_words(is_inside))
}

/// Where they follow.
fn more_words(is_inside: bool) -> &'static str
    ensures { result.now ≡ more_words is_inside }
{
    if is_inside {
        " more inside privateKey, after the key"
    } else {
        " more after the document"
    }
}

/// Whether the file is as long as its outermost element says, where that is judged.
fn size_text(alloc: Global, report: &Report) -> Result<String, AllocError>
    ensures { IfOk result (λ text. string_bytes text ≡ size_said report.now) }
{
    let mut text = String::new(alloc);
    if let Answer::Refused(fault) = report.answer
        && let Some(announced) = report.announced
        && says_size(fault)
    {
        push_sizes(&mut text, report.octets, announced)?;
    }
    Ok(text)
}

/// Whether the outermost length says something of a document that is refused so.
fn says_size(fault: Fault) -> bool
    ensures { result ≡ says_size fault }
{
    match fault.why {
        Reason::TooLong => false,
        Reason::WrongTag => fault.at != 0,
        _ => true,
    }
}

/// How many octets there are, and how many there have to be.
#[tactic(auto, unfolding(crate::specs::Words::size_of))]
fn push_sizes(text: &mut String, octets: u64, announced: u64) -> Result<(), AllocError>
    ensures { OnOk result (string_bytes text.new ≡ string_bytes text.old
        ++ size_of octets announced) }
{
    if octets == announced {
        return Ok(());
    }
    push_size(text, octets)?;
    text.push_str("; the document says at 0 that it has ")?;
    push_number(text, announced)?;
    text.push_str(": ")?;
    push_off(text, octets, announced)
}

/// How many octets are missing, or too many.
#[tactic(auto, unfolding(crate::specs::Words::off_by))]
fn push_off(text: &mut String, octets: u64, announced: u64) -> Result<(), AllocError>
    ensures { OnOk result (string_bytes text.new ≡ string_bytes text.old
        ++ off_by octets announced) }
{
    let fewer = octets < announced;
    if fewer {
        push_size(text, announced.saturating_sub(octets))?;
        text.push_str(" missing")
    } else {
        push_size(text, octets.saturating_sub(announced))?;
        text.push_str(" more")
    }
}
