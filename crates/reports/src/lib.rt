//! What is reported of a document, and how it is written.
//!
//! `text` and those that begin so have the lines, `json_report` and those that begin so the JSON; the others have what
//! both say, and `field` also what is said of the field alone. What a comparison of two documents says in the same way
//! is public: numbers, sizes, tags, paths, places of faults and members of JSON.
//!
//! Proved: the text of a report is `report_lines` of `specs/Reports.antt`, and its JSON the tokens `report_object` of
//! `specs/Json.antt`, wherever there is memory for it. Those are functions of the report (of JSON also of the version,
//! the file's name and how much is asked for) and of nothing else, so two reports that are the same have the same text.
#![tactic(auto)]

ghost use Rattle.std.specs.Prelude.{◌≡◌, IfOk, string_bytes};
ghost use Rattle.reports.specs.Reports.{report_lines};

mod advice;
mod afters;
mod asks;
pub mod brief;
pub mod field;
pub mod guesses;
mod hints;
mod json_asks;
mod json_keys;
mod json_lists;
pub mod json_report;
pub mod json_text;
mod json_words;
pub mod keys;
pub mod letters;
pub mod notes;
pub mod paths;
pub mod picks;
mod placed_advice;
mod reason_due;
mod remarks;
pub mod report;
mod seen;
mod summaries;
pub mod text;
pub mod text_lines;
mod text_listing;
pub mod text_report;
mod text_wrap;
pub mod type_words;
mod usages;
pub mod words;

use crate::report::Report;
use crate::summaries::push_summary;
use crate::text_listing::{SHORT, push_listing};
use crate::text_report::{push_answer, push_answer_lines, push_head, push_notes};
use std::alloc::{AllocError, Global};

/// How many octets a line of the listing has at most, where nothing in it is long.
const LINE_ROOM: usize = 96;

/// The report in lines, each ended by a line feed: with all lines of the listing, or with those that matter; of a
/// document that isn't in DER with up to so many places.
pub fn report_text(
    alloc: Global,
    report: &Report,
    all: bool,
    places: u64,
) -> Result<String, AllocError>
    ensures { IfOk result (λ text. string_bytes text ≡ report_lines report.now all places) }
{
    // (so that it isn't copied while it grows)
    let lines = report.lines.len();
    let shown = if all { lines } else { lines.min(SHORT) };
    let mut text = String::with_capacity(alloc, shown.saturating_mul(LINE_ROOM))?;
    push_head(&mut text, report)?;
    push_answer(&mut text, report.answer)?;
    push_summary(alloc, &mut text, report, &report.lines)?;
    push_listing(alloc, &mut text, report, all, places)?;
    push_answer_lines(alloc, &mut text, report)?;
    push_notes(alloc, &mut text, report, &report.notes)?;
    Ok(text)
}
