//! Notes in words, a line for each, and whether a standard forbids what one of them is about.
ghost use Rattle.std.specs.Prelude.{◌≡◌, ◌++◌, IfOk, OnOk, flat_map, string_bytes};
ghost use Rattle.reports.specs.Notes.{coded, has_must, is_must, note_said, notes_text, plain_note};

use crate::hints::note_text;
use crate::paths::path_text;
use crate::picks::path_to_line;
use crate::remarks::{code_of, level_of};
use crate::report::{Note, Remark, Report};
use std::alloc::{AllocError, Global};

/// All notes of a report, each in one line, which isn't wrapped.
pub fn notes_text(alloc: Global, report: &Report) -> Result<String, AllocError>
    ensures { IfOk result (λ text. string_bytes text ≡ notes_text report.now) }
{
    let mut text = String::new(alloc);
    push_plain_notes(alloc, &mut text, report, &report.notes)?;
    Ok(text)
}

fn push_plain_notes(
    alloc: Global,
    text: &mut String,
    report: &Report,
    notes: &[Note],
) -> Result<(), AllocError>
    ensures { OnOk result (string_bytes text.new ≡ string_bytes text.old
        ++ flat_map (plain_note report.now) notes.now) }
{
    let mut left = notes;
    while let [note, rest @ ..] = left {
        push_plain_note(alloc, text, report, *note)?;
        left = rest;
    }
    Ok(())
}

#[tactic(auto, unfolding(crate::specs::Notes::plain_note))]
fn push_plain_note(
    alloc: Global,
    text: &mut String,
    report: &Report,
    note: Note,
) -> Result<(), AllocError>
    ensures { OnOk result (string_bytes text.new ≡ string_bytes text.old
        ++ plain_note report.now note) }
{
    let said = note_said(alloc, report, note)?;
    text.push_str("note ")?;
    text.push_str(said.as_str())?;
    text.push_str("\n")
}

/// The level and the code of a remark, the path to what it is about, and the remark.
#[tactic(auto, unfolding(crate::specs::Notes::note_said))]
pub(crate) fn note_said(alloc: Global, report: &Report, note: Note) -> Result<String, AllocError>
    ensures { IfOk result (λ text. string_bytes text ≡ note_said report.now note) }
{
    let path = path_to_line(alloc, &report.lines, note.line)?;
    let place = path_text(alloc, report.kind.type_name, &path)?;
    let mut said = String::new(alloc);
    push_level(&mut said, note.remark)?;
    said.push_str(place.as_str())?;
    said.push_str(": ")?;
    let remark = note_text(alloc, note.remark)?;
    said.push_str(remark.as_str())?;
    Ok(said)
}

/// The level and the code of a remark.
#[tactic(auto, unfolding(crate::specs::Notes::coded))]
fn push_level(text: &mut String, remark: Remark) -> Result<(), AllocError>
    ensures { OnOk result (string_bytes text.new ≡ string_bytes text.old ++ coded remark) }
{
    text.push_str(level_of(remark))?;
    text.push_str(" ")?;
    text.push_str(code_of(remark))?;
    text.push_str(" ")
}

/// Whether a standard forbids what one of the notes is about.
pub fn has_must(notes: &[Note]) -> bool
    ensures { result ≡ has_must notes.now }
{
    notes.iter().any(|note| is_must(note.remark))
}

#[tactic(auto, unfolding(crate::specs::Notes::is_must))]
fn is_must(remark: Remark) -> bool
    ensures { result ≡ is_must remark }
{
    level_of(remark) == "must"
}
