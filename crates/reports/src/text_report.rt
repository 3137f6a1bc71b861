//! The parts of a report around its listing.
ghost use Rattle.std.specs.Prelude.{◌≡◌, ◌++◌, OnOk, flat_map, string_bytes};
ghost use Rattle.reports.specs.Reports.{answer_line, answer_lines, head_line, inside_said, note_line, note_lines};
ghost use Rattle.reports.specs.Reports.{refused_lines};
ghost use Rattle.reports.specs.Words.{place_said};

use crate::field::field_text;
use crate::hints::{do_text, likely_text};
use crate::notes::note_said;
use crate::report::{Answer, Note, Report};
use crate::text::push_number;
use crate::text_wrap::push_labelled;
use crate::words::{due_text, found_text, push_size};
use std::alloc::{AllocError, Global};
use tlv_core::reason::Reason;

/// The kind, and the number of octets.
#[tactic(auto, unfolding(crate::specs::Reports::head_line))]
pub(crate) fn push_head(text: &mut String, report: &Report) -> Result<(), AllocError>
    ensures { OnOk result (string_bytes text.new ≡ string_bytes text.old
        ++ head_line report.now) }
{
    text.push_str(report.kind.word)?;
    text.push_str(", ")?;
    push_size(text, report.octets)?;
    text.push_str("\n")
}

/// What `check` answers, in its words.
pub(crate) fn push_answer(text: &mut String, answer: Answer) -> Result<(), AllocError>
    ensures { OnOk result (string_bytes text.new ≡ string_bytes text.old ++ answer_line answer) }
{
    match answer {
        Answer::Der => text.push_str("DER\n"),
        Answer::NotDer(at) => {
            text.push_str("not DER at ")?;
            push_number(text, at)?;
            text.push_str("\n")
        }
        Answer::Refused(fault) => {
            text.push_str("fault at ")?;
            push_reason(text, fault.at, fault.why)?;
            push_inside(text, fault.inside)?;
            text.push_str("\n")
        }
    }
}

/// The place and reason of a fault inside, where there is one.
pub fn push_inside(text: &mut String, inside: Option<(u64, Reason)>) -> Result<(), AllocError>
    ensures { OnOk result (string_bytes text.new ≡ string_bytes text.old ++ inside_said inside) }
{
    match inside {
        Some((at, why)) => {
            text.push_str(" inside at ")?;
            push_reason(text, at, why)
        }
        None => Ok(()),
    }
}

/// A place and a reason.
#[tactic(auto, unfolding(crate::specs::Words::place_said))]
pub fn push_reason(text: &mut String, at: u64, why: Reason) -> Result<(), AllocError>
    ensures { OnOk result (string_bytes text.new ≡ string_bytes text.old ++ place_said at why) }
{
    push_number(text, at)?;
    text.push_str(": ")?;
    text.push_str(why.name())
}

/// What is said of a document that is refused, or isn't in DER.
pub(crate) fn push_answer_lines(
    alloc: Global,
    text: &mut String,
    report: &Report,
) -> Result<(), AllocError>
    ensures { OnOk result (string_bytes text.new ≡ string_bytes text.old
        ++ answer_lines report.now.answer report.now) }
{
    match report.answer {
        Answer::Der => Ok(()),
        Answer::NotDer(_) | Answer::Refused(_) => push_said(alloc, text, report),
    }
}

#[tactic(auto, unfolding(crate::specs::Reports::refused_lines))]
fn push_said(alloc: Global, text: &mut String, report: &Report) -> Result<(), AllocError>
    ensures { OnOk result (string_bytes text.new ≡ string_bytes text.old
        ++ refused_lines report.now) }
{
    let field = field_text(alloc, report)?;
    let due = due_text(alloc, report)?;
    let found = found_text(alloc, report)?;
    let likely = likely_text(alloc, report)?;
    let act = do_text(alloc, report)?;
    text.push_str("\n")?;
    push_labelled(text, "field   ", field.as_str())?;
    push_labelled(text, "due     ", due.as_str())?;
    push_labelled(text, "found   ", found.as_str())?;
    push_labelled(text, "likely  ", likely.as_str())?;
    push_labelled(text, "do      ", act.as_str())
}

/// The notes, after an empty line where there are some.
#[tactic(auto, unfolding(crate::specs::Reports::note_lines))]
pub(crate) fn push_notes(
    alloc: Global,
    text: &mut String,
    report: &Report,
    notes: &[Note],
) -> Result<(), AllocError>
    ensures { OnOk result (string_bytes text.new ≡ string_bytes text.old
        ++ note_lines report.now notes.now) }
{
    if notes.is_empty() {
        return Ok(());
    }
    text.push_str("\n")?;
    push_each_note(alloc, text, report, notes)
}

fn push_each_note(
    alloc: Global,
    text: &mut String,
    report: &Report,
    notes: &[Note],
) -> Result<(), AllocError>
    ensures { OnOk result (string_bytes text.new ≡ string_bytes text.old
        ++ flat_map (note_line report.now) notes.now) }
{
    let mut left = notes;
    while let [note, rest @ ..] = left {
        push_note(alloc, text, report, *note)?;
        left = rest;
    }
    Ok(())
}

/// A remark, with the path to what it is about.
#[tactic(auto, unfolding(crate::specs::Reports::note_line))]
fn push_note(
    alloc: Global,
    text: &mut String,
    report: &Report,
    note: Note,
) -> Result<(), AllocError>
    ensures { OnOk result (string_bytes text.new ≡ string_bytes text.old
        ++ note_line report.now note) }
{
    let said = note_said(alloc, report, note)?;
    push_labelled(text, "note    ", said.as_str())
}
