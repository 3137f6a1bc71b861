//! The listing: which lines of the elements are shown.
ghost use Rattle.std.specs.Prelude.{◌≡◌, ◌++◌, OnOk, reverse, string_bytes};
ghost use Rattle.reports.specs.Listings.{all_lines, causes_listing, gap, header_columns, header_width, is_in_der};
ghost use Rattle.reports.specs.Listings.{is_left_out, layout_of};
ghost use Rattle.reports.specs.Listings.{line_at, listed, listing, others_said, place_columns, some_listing};

use crate::asks::is_asking;
use crate::picks::{Pick, causes, line_of, picked};
use crate::report::{Answer, Line, Report};
use crate::text::{push_marks, push_number};
use crate::text_lines::{Layout, digits, push_line};
use std::alloc::{AllocError, Global};

/// How many lines a listing has that is shown whole.
pub(crate) const SHORT: usize = 16;

/// The listing of a report, with up to so many places that aren't in DER where not all lines are shown.
pub(crate) fn push_listing(
    alloc: Global,
    text: &mut String,
    report: &Report,
    all: bool,
    places: u64,
) -> Result<(), AllocError>
    ensures { OnOk result (string_bytes text.new ≡ string_bytes text.old
        ++ listing report.now all places) }
{
    let lines = report.lines.as_slice();
    let layout = layout_of(report, lines);
    if is_left_out(report, all) || lines.is_empty() {
        return Ok(());
    }
    text.push_str("\n")?;
    if all {
        return push_all(text, layout, lines);
    }
    match report.answer {
        Answer::NotDer(_) => push_causes(alloc, text, layout, lines, places),
        Answer::Der | Answer::Refused(_) => push_some(alloc, text, layout, lines),
    }
}

/// Whether no line is shown: of a document in DER of which is said what it asks for, and nothing is noted, where not
/// all lines are wanted.
fn is_left_out(report: &Report, all: bool) -> bool
    ensures { result ≡ is_left_out report.now all }
{
    !all && is_in_der(report.answer) && is_asking(report) && report.notes.is_empty()
}

fn is_in_der(answer: Answer) -> bool
    ensures { result ≡ is_in_der answer }
{
    match answer {
        Answer::Der => true,
        Answer::NotDer(_) | Answer::Refused(_) => false,
    }
}

/// How wide the columns are.
#[tactic(auto, unfolding(crate::specs::Listings::layout_of))]
fn layout_of(report: &Report, lines: &[Line]) -> Layout
    ensures { result ≡ layout_of report.now lines.now }
{
    let fault = match &report.diagnosis {
        Some(diagnosis) => diagnosis.line,
        None => None,
    };
    Layout {
        place: place_columns(lines),
        header: header_columns(lines),
        fault,
    }
}

/// The digits of the last place.
fn place_columns(lines: &[Line]) -> u64
    ensures { result ≡ place_columns lines.now }
{
    match lines.last() {
        Some(line) => digits(line.at),
        None => 0,
    }
}

/// The columns of the longest header of at most 6 octets.
fn header_columns(lines: &[Line]) -> u64
    ensures { result ≡ header_columns 0 lines.now }
{
    let mut widest = 0;
    let mut left = lines;
    while let [line, rest @ ..] = left {
        widest = widest.max(header_width(line));
        left = rest;
    }
    widest
}

/// The columns of a header of at most 6 octets, two for each and a blank between.
#[tactic(auto, unfolding(crate::specs::Listings::header_width))]
fn header_width(line: &Line) -> u64
    ensures { result ≡ header_width line.now }
{
    match line.length {
        Some(length) => (3 * length.header.min(6)).saturating_sub(1),
        None => 0,
    }
}

/// All lines.
fn push_all(text: &mut String, layout: Layout, lines: &[Line]) -> Result<(), AllocError>
    ensures { OnOk result (string_bytes text.new ≡ string_bytes text.old
        ++ all_lines layout 0 lines.now) }
{
    for number in 0..lines.len() {
        push_line(text, layout, number as u64, &lines[number])?;
    }
    Ok(())
}

/// The lines that lead to the first places that aren't in DER, and how many more there are.
#[tactic(auto, unfolding(crate::specs::Listings::causes_listing))]
fn push_causes(
    alloc: Global,
    text: &mut String,
    layout: Layout,
    lines: &[Line],
    places: u64,
) -> Result<(), AllocError>
    ensures { OnOk result (string_bytes text.new ≡ string_bytes text.old
        ++ causes_listing places layout lines.now) }
{
    let others = causes(lines).saturating_sub(places);
    let numbers = picked(alloc, lines, Pick::Causes, others)?;
    push_listed(text, layout, lines, numbers, false)?;
    push_others(text, others)
}

/// The first lines, those that the fault is in, and the last ones up to it; all, where they are few. Where no line is
/// at fault it is the last one that is shown so.
#[tactic(auto, unfolding(crate::specs::Listings::some_listing))]
fn push_some(
    alloc: Global,
    text: &mut String,
    layout: Layout,
    lines: &[Line],
) -> Result<(), AllocError>
    ensures { OnOk result (string_bytes text.new ≡ string_bytes text.old
        ++ some_listing layout lines.now) }
{
    if lines.len() <= SHORT {
        return push_all(text, layout, lines);
    }
    let fault = match layout.fault {
        Some(fault) => fault,
        None => lines.len() as u64 - 1,
    };
    let numbers = picked(alloc, lines, Pick::Fault(fault), 0)?;
    push_listed(text, layout, lines, numbers, true)
}

/// The lines of these numbers, of which the first one comes last, and how many lines are left out between them.
fn push_listed(
    text: &mut String,
    layout: Layout,
    lines: &[Line],
    numbers: Vec<u64>,
    gaps: bool,
) -> Result<(), AllocError>
    ensures { OnOk result (string_bytes text.new ≡ string_bytes text.old
        ++ listed layout gaps lines.now 0 (reverse numbers.items)) }
{
    let mut left = numbers;
    let mut last = 0;
    while let Some(number) = left.pop() {
        push_gap(text, layout, gaps, last, number)?;
        push_line_at(text, layout, lines, number)?;
        last = number;
    }
    push_gap(text, layout, gaps, last, lines.len() as u64)
}

/// The line of this number.
fn push_line_at(
    text: &mut String,
    layout: Layout,
    lines: &[Line],
    number: u64,
) -> Result<(), AllocError>
    ensures { OnOk result (string_bytes text.new ≡ string_bytes text.old
        ++ line_at layout lines.now number) }
{
    match line_of(lines, number) {
        Some(line) => push_line(text, layout, number, line),
        None => Ok(()),
    }
}

/// How many lines are left out between two.
#[tactic(auto, unfolding(crate::specs::Listings::gap))]
fn push_gap(
    text: &mut String,
    layout: Layout,
    gaps: bool,
    last: u64,
    next: u64,
) -> Result<(), AllocError>
    ensures { OnOk result (string_bytes text.new ≡ string_bytes text.old
        ++ gap layout gaps last next) }
{
    let count = next.saturating_sub(last).saturating_sub(1);
    if !gaps || count == 0 {
        return Ok(());
    }
    push_marks(text, ' ', layout.place)?;
    text.push_str("  ...  (")?;
    push_number(text, count)?;
    text.push_str(if count == 1 { " line" } else { " lines" })?;
    text.push_str(" left out; --all has them)\n")
}

/// How many places that aren't in DER aren't shown.
#[tactic(auto, unfolding(crate::specs::Listings::others_said))]
fn push_others(text: &mut String, others: u64) -> Result<(), AllocError>
    ensures { OnOk result (string_bytes text.new ≡ string_bytes text.old ++ others_said others) }
{
    if others == 0 {
        return Ok(());
    }
    text.push_str("...  (places that aren't in DER left out: ")?;
    push_number(text, others)?;
    text.push_str("; --all has them)\n")
}
