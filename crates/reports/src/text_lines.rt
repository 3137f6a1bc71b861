//! A line of the listing: an element.
ghost use Rattle.std.specs.Prelude.{◌≡◌, ◌-◌, ◌<◌, ◌++◌, IfOk, OnOk, decimal, flat_map, length, string_bytes, take};
ghost use Rattle.reports.specs.Lines.{below, carets, contents_part, element_said, element_shown, end_part};
ghost use Rattle.reports.specs.Lines.{extent_part, header_octets, header_text, length_octets, line_lines, line_start};
ghost use Rattle.reports.specs.Lines.{name_said, number_in, place_column, sized_part, type_said, unread, unused_part};
ghost use Rattle.reports.specs.Lines.{value_part};
ghost use Rattle.reports.specs.Texts.{octet_after, octets_text};

use crate::hints::cause_words;
use crate::picks::is_place_alone;
use crate::report::{Length, Line, Value};
use crate::text::{
    push_between, push_marks, push_number, push_octet_after, push_octets, push_quoted,
};
use crate::type_words::push_tag;
use crate::words::push_size;
use asn_names::element::Step;
use itoa::Buffer;
use std::alloc::AllocError;
use tlv_core::der;
use tlv_core::tag::Tag;

/// How wide the columns of a listing are, and which line is at fault.
#[derive(Clone, Copy)]
pub(crate) struct Layout {
    pub place: u64,
    pub header: u64,
    pub fault: Option<u64>,
}

/// The line of this number, and what is below it.
#[tactic(auto, unfolding(crate::specs::Lines::line_lines))]
pub(crate) fn push_line(
    text: &mut String,
    layout: Layout,
    number: u64,
    line: &Line,
) -> Result<(), AllocError>
    ensures { OnOk result (string_bytes text.new ≡ string_bytes text.old
        ++ line_lines layout number line.now) }
{
    let columns = push_start(text, layout, line)?;
    push_element(text, line)?;
    text.push_str("\n")?;
    push_below(text, layout, number, line, columns)
}

/// What comes before an element: its place, its header, and two blanks for each element around it. The columns that its
/// header takes.
#[tactic(auto, unfolding(crate::specs::Lines::line_start, crate::specs::Lines::padding))]
fn push_start(text: &mut String, layout: Layout, line: &Line) -> Result<u64, AllocError>
    ensures start { OnOk result (string_bytes text.new ≡ string_bytes text.old
        ++ line_start layout line.now (header_text line.now)) }
    ensures columns { IfOk result (λ columns. columns ≡ length (header_text line.now)) }
{
    push_place(text, layout.place, line.at)?;
    let columns = push_header(text, line)?;
    push_marks(text, ' ', layout.header.saturating_sub(columns))?;
    text.push_str("  ")?;
    push_marks(text, ' ', line.depth)?;
    push_marks(text, ' ', line.depth)?;
    Ok(columns)
}

/// A place, right-aligned, and two blanks.
#[tactic(auto, unfolding(crate::specs::Lines::place_column))]
fn push_place(text: &mut String, width: u64, at: u64) -> Result<(), AllocError>
    ensures { OnOk result (string_bytes text.new ≡ string_bytes text.old
        ++ place_column width at) }
{
    let mut buffer = Buffer::new();
    let digits = buffer.format(at);
    push_marks(text, ' ', width.saturating_sub(digits.len() as u64))?;
    text.push_str(digits)?;
    text.push_str("  ")
}

/// How many decimal digits a number has.
pub(crate) fn digits(number: u64) -> u64
    ensures { result ≡ length (decimal number) }
{
    let mut buffer = Buffer::new();
    buffer.format(number).len() as u64
}

/// What is below a line: that it is at fault, or why it isn't in DER.
#[tactic(auto, unfolding(crate::specs::Lines::below))]
fn push_below(
    text: &mut String,
    layout: Layout,
    number: u64,
    line: &Line,
    size: u64,
) -> Result<(), AllocError>
    ensures { OnOk result (string_bytes text.new ≡ string_bytes text.old
        ++ below layout number line.now size) }
{
    if layout.fault == Some(number) {
        push_carets(text, layout.place, size)?;
        return text.push_str("\n");
    }
    let Some(cause) = line.cause else {
        return Ok(());
    };
    push_carets(text, layout.place, size)?;
    text.push_str("  not DER: ")?;
    text.push_str(cause_words(cause))?;
    text.push_str("\n")
}

/// Carets under a header of so many columns, at least two.
#[tactic(auto, unfolding(crate::specs::Lines::carets))]
fn push_carets(text: &mut String, place: u64, size: u64) -> Result<(), AllocError>
    ensures { OnOk result (string_bytes text.new ≡ string_bytes text.old ++ carets place size) }
{
    push_marks(text, ' ', place)?;
    text.push_str("  ")?;
    push_marks(text, '^', size.max(2))
}

/// The octets of a header in hexadecimal digits, none where they aren't shown, and how many columns they take.
fn push_header(text: &mut String, line: &Line) -> Result<u64, AllocError>
    ensures header { OnOk result (string_bytes text.new ≡ string_bytes text.old
        ++ header_text line.now) }
    ensures columns { IfOk result (λ columns. columns ≡ length (header_text line.now)) }
{
    let before = text.as_str().len();
    if let Some(length) = line.length {
        push_header_octets(text, line.tag, line.constructed, length)?;
    }
    Ok((text.as_str().len() - before) as u64)
}

/// The octets of a header (X.690 8.1.2, 8.1.3).
fn push_header_octets(
    text: &mut String,
    tag: Tag,
    constructed: bool,
    length: Length,
) -> Result<(), AllocError>
    ensures { OnOk result (string_bytes text.new ≡ string_bytes text.old
        ++ octets_text (header_octets tag constructed length)) }
{
    let header = der::header(tag, constructed, 0);
    let identifier = but_last(header.octets());
    push_octets(text, identifier)?;
    let count = length.header.saturating_sub(identifier.len() as u64);
    push_length(text, count.min(127), length.contents)
}

/// All octets but the last.
fn but_last(octets: &[u8]) -> &[u8]
    ensures { result.now ≡ take (length octets.now - 1) octets.now }
{
    match octets {
        [] => octets,
        [before @ .., _] => before,
    }
}

/// So many length octets, which announce this, after others.
#[tactic(auto, unfolding(crate::specs::Lines::length_octets))]
fn push_length(text: &mut String, count: u64, contents: Option<u64>) -> Result<(), AllocError>
    requires { count < 128 }
    ensures { OnOk result (string_bytes text.new ≡ string_bytes text.old
        ++ flat_map octet_after (length_octets count contents)) }
{
    let Some(contents) = contents else {
        return push_octet_after(text, 128);
    };
    if count < 2 {
        return push_octet_after(text, (contents % 256) as u8);
    }
    push_octet_after(text, (128 + (count - 1)) as u8)?;
    push_big_endian(text, count - 1, contents)
}

/// A number in so many octets, the most significant first, after others.
fn push_big_endian(text: &mut String, count: u64, number: u64) -> Result<(), AllocError>
    ensures { OnOk result (string_bytes text.new ≡ string_bytes text.old
        ++ flat_map octet_after (number_in count number)) }
{
    if count == 0 {
        return Ok(());
    }
    push_big_endian(text, count - 1, number / 256)?;
    push_octet_after(text, (number % 256) as u8)
}

/// An element, where more than its place is shown.
#[tactic(auto, unfolding(crate::specs::Lines::element_said))]
fn push_element(text: &mut String, line: &Line) -> Result<(), AllocError>
    ensures { OnOk result (string_bytes text.new ≡ string_bytes text.old
        ++ element_said line.now) }
{
    if is_place_alone(line) {
        text.push_str("(not shown)")
    } else {
        push_shown_element(text, line)
    }
}

/// An element: its name, and what is shown of it.
#[tactic(auto, unfolding(crate::specs::Lines::element_shown))]
fn push_shown_element(text: &mut String, line: &Line) -> Result<(), AllocError>
    ensures { OnOk result (string_bytes text.new ≡ string_bytes text.old
        ++ element_shown line.now) }
{
    push_name(text, line)?;
    push_extent(text, line)?;
    push_value(text, line)
}

/// Of a constructed element: its length and its end.
#[tactic(auto, unfolding(crate::specs::Lines::extent_part))]
fn push_extent(text: &mut String, line: &Line) -> Result<(), AllocError>
    ensures { OnOk result (string_bytes text.new ≡ string_bytes text.old
        ++ extent_part line.now) }
{
    if !line.constructed {
        return Ok(());
    }
    push_contents(text, line.length)?;
    push_end(text, line.end)
}

/// The name of an element: that of its field, its number, or that of its type.
#[tactic(auto, unfolding(crate::specs::Lines::name_said))]
fn push_name(text: &mut String, line: &Line) -> Result<(), AllocError>
    ensures { OnOk result (string_bytes text.new ≡ string_bytes text.old ++ name_said line.now) }
{
    match line.step {
        Step::Outermost => push_type(text, line),
        Step::Field(name) => {
            if name.is_empty() {
                push_type(text, line)
            } else {
                text.push_str(name)
            }
        }
        Step::Member(number) => push_between(text, "[", number, "]"),
        Step::Segment(number) => push_between(text, "segment ", number, ""),
        Step::Outside => text.push_str("(no field)"),
    }
}

/// The type of an element by its name, where it has one, else by its tag.
#[tactic(auto, unfolding(crate::specs::Lines::type_said))]
fn push_type(text: &mut String, line: &Line) -> Result<(), AllocError>
    ensures { OnOk result (string_bytes text.new ≡ string_bytes text.old ++ type_said line.now) }
{
    if line.type_name.is_empty() {
        push_tag(text, line.tag)
    } else {
        text.push_str(line.type_name)
    }
}

/// How many contents octets are announced.
fn push_contents(text: &mut String, length: Option<Length>) -> Result<(), AllocError>
    ensures { OnOk result (string_bytes text.new ≡ string_bytes text.old
        ++ contents_part length) }
{
    let Some(length) = length else {
        return Ok(());
    };
    match length.contents {
        Some(octets) => {
            text.push_str(", ")?;
            push_size(text, octets)
        }
        None => text.push_str(", indefinite length"),
    }
}

/// The place where an element ends.
fn push_end(text: &mut String, end: Option<u64>) -> Result<(), AllocError>
    ensures { OnOk result (string_bytes text.new ≡ string_bytes text.old ++ end_part end) }
{
    match end {
        Some(end) => {
            text.push_str(", to ")?;
            push_number(text, end)
        }
        None => Ok(()),
    }
}

/// What is shown of contents.
#[tactic(auto, unfolding(crate::specs::Lines::value_part))]
fn push_value(text: &mut String, line: &Line) -> Result<(), AllocError>
    ensures { OnOk result (string_bytes text.new ≡ string_bytes text.old
        ++ value_part line.now) }
{
    match &line.value {
        Value::Nothing => push_unread(text, line),
        Value::NotShown => text.push_str(", not shown"),
        Value::Size(octets) => push_sized(text, line, *octets),
        Value::Bits(octets, unused, _) => {
            push_sized(text, line, *octets)?;
            push_unused(text, *unused)
        }
        Value::Null => text.push_str(": NULL"),
        Value::Boolean(value) => text.push_str(if *value { ": TRUE" } else { ": FALSE" }),
        Value::Number(number) => {
            text.push_str(": ")?;
            push_number(text, *number)
        }
        Value::Named(identifier) => {
            text.push_str(": ")?;
            text.push_str(identifier.name)?;
            text.push_str(" (")?;
            text.push_str(identifier.arcs)?;
            text.push_str(")")
        }
        Value::Arcs(arcs) => {
            text.push_str(": ")?;
            text.push_str(arcs.as_str())
        }
        Value::Characters(octets) => {
            text.push_str(": ")?;
            push_tag(text, line.tag)?;
            text.push_str(" ")?;
            push_quoted(text, octets)
        }
        Value::Octets(octets) => push_sized(text, line, octets.len() as u64),
    }
}

/// Of an element that isn't a container: its type and the length that it announces.
#[tactic(auto, unfolding(crate::specs::Lines::unread))]
fn push_unread(text: &mut String, line: &Line) -> Result<(), AllocError>
    ensures { OnOk result (string_bytes text.new ≡ string_bytes text.old ++ unread line.now) }
{
    if line.constructed {
        return Ok(());
    }
    text.push_str(": ")?;
    push_tag(text, line.tag)?;
    push_contents(text, line.length)
}

/// The type of contents, and how many octets they have.
#[tactic(auto, unfolding(crate::specs::Lines::sized_part))]
fn push_sized(text: &mut String, line: &Line, octets: u64) -> Result<(), AllocError>
    ensures { OnOk result (string_bytes text.new ≡ string_bytes text.old
        ++ sized_part line.now octets) }
{
    text.push_str(": ")?;
    push_tag(text, line.tag)?;
    text.push_str(" ")?;
    push_size(text, octets)
}

/// How many bits of the last octet are unused, where some are.
#[tactic(auto, unfolding(crate::specs::Lines::unused_part))]
pub fn push_unused(text: &mut String, unused: u8) -> Result<(), AllocError>
    ensures { OnOk result (string_bytes text.new ≡ string_bytes text.old ++ unused_part unused) }
{
    if unused == 0 {
        return Ok(());
    }
    text.push_str(", unused bits: ")?;
    push_number(text, u64::from(unused))
}
