//! The lines of a report: an element each.
pub(crate) mod causes;
pub(crate) mod fault_line;
pub(crate) mod front;

ghost use Rattle.std.specs.Prelude.{List, Option, Some, ℕ, [], ◌≡◌, IfOk, OnOk, length, min, slice_get, true};
ghost use Rattle.std.specs.Prelude.{unwrap_or, ◌+◌, ◌-◌, ◌^◌};
ghost use Rattle.std.specs.Option.{is_some, option_map};
ghost use Rattle.asn_names.specs.declared.element.NamedElement.{NamedElement};
ghost use Rattle.explain.specs.Causes.{line_cause};
ghost use Rattle.explain.specs.Fronts.{is_deeper};
ghost use Rattle.explain.specs.Insides.{carried_by};
ghost use Rattle.explain.specs.Lines.{AddsLine, IsHeaderLine, IsListedValue, size_between};
ghost use Rattle.explain.specs.Listings.{AddsDocument, AddsElement, IsListed, ListingState, Lists, after_inside};
ghost use Rattle.explain.specs.Listings.{causes_inside, first_inside, hidden_after, listing_state, most_lines};
ghost use Rattle.explain.specs.Listings.{number_around, own_number, own_place, start_of};
ghost use Rattle.explain.specs.Places.{SkipsIn, listed_document};

use crate::document::inside::{Inside, element_at};
use crate::document::places::{DocumentCursor, Placed, later_pieces, listed_length, placed_in};
use crate::document::values::{contents_of, listed_value};
use crate::listing::causes::{cause_within, causes_of};
use crate::listing::front::is_deeper;
use asn_names::element::NamedElement;
use reports::report::{Carried, Cause, Line, Value};
use std::alloc::{AllocError, Global};

/// The line of an element.
fn header_line(
    placed: Placed,
    element: &NamedElement,
    value: Value,
    cause: Option<Cause>,
    carries: Option<Carried>,
) -> Line
    ensures line { IsHeaderLine placed element.now result }
    ensures value { result.value ≡ value }
    ensures cause { result.cause ≡ cause }
    ensures carries { result.carries ≡ carries }
{
    Line {
        at: placed.at,
        inside: placed.is_inside.then_some(element.header.at),
        depth: placed.depth.saturating_add(element.header.depth),
        around: placed.around,
        step: element.step,
        type_name: type_name_of(element),
        tag: element.header.tag,
        constructed: element.header.constructed,
        length: listed_length(&element.header),
        end: placed.end,
        value,
        cause,
        carries,
    }
}

fn type_name_of(element: &NamedElement) -> &'static str
    ensures { result.now ≡ unwrap_or (option_map (λ r. r.now) element.now.type_name) [] }
{
    match element.type_name {
        Some(name) => name,
        None => "",
    }
}

/// What is shown of the contents of an element, in the value of an extension or not.
fn line_value(
    alloc: Global,
    is_carried: bool,
    octets: &[u8],
    element: &NamedElement,
) -> Result<Value, AllocError>
    ensures { IfOk result (λ value. IsListedValue is_carried octets.now element.now value) }
{
    match contents_of(octets, element) {
        Some(contents) => listed_value(alloc, is_carried, element, contents),
        None => Ok(size_in_private(element)),
    }
}

/// How many octets a private element of constructed form has.
fn size_in_private(element: &NamedElement) -> Value
    ensures { result ≡ size_between element.now.private element.now.begin element.now.end }
{
    match (element.begin, element.end) {
        (Some(begin), Some(end)) => {
            if element.private {
                Value::Size(end.saturating_sub(begin))
            } else {
                Value::Nothing
            }
        }
        _ => Value::Nothing,
    }
}

/// The cause that the line of the element of this number shows: that of a private one is the first in it, since no line
/// shows what is in it.
fn line_cause(cursor: DocumentCursor<'_>, number: usize) -> Option<Cause>
    ensures { result ≡ line_cause cursor.entry.elements.now cursor.entry.causes.now number }
{
    let (Some(element), Some(cause)) = (
        element_at(cursor.elements, number),
        cursor.causes.get(number),
    ) else {
        return None;
    };
    if cause.is_some() || !element.private {
        return *cause;
    }
    let after = number + 1;
    cause_within(
        element.header.depth,
        &cursor.elements[after..],
        &cursor.causes[after..],
    )
}

/// The number of the line around an element, by those of the elements before; of the outermost one that around its
/// document.
fn number_around(numbers: &[u64], outer: u64, element: &NamedElement) -> u64
    ensures { result ≡ number_around numbers.now outer element.now }
{
    if element.header.depth == 0 {
        return outer;
    }
    match numbers.get(element.around as usize) {
        Some(number) => *number,
        None => outer,
    }
}

/// The number that stands for an element: that of its line, or of the line around it, where it is hidden.
fn own_number(is_hidden: bool, line: u64, around: u64) -> u64
    ensures { result ≡ own_number is_hidden line around }
{
    if is_hidden { around } else { line }
}

/// How deep the private element is that what comes after an element is hidden in.
fn hidden_after(hidden: Option<u64>, element: &NamedElement) -> Option<u64>
    ensures { result ≡ hidden_after hidden element.now }
{
    if is_deeper(hidden, element) {
        hidden
    } else if element.private {
        Some(element.header.depth)
    } else {
        None
    }
}

/// Lists the next element, where it isn't hidden in a private one, and answers how deep such a one is.
fn push_element(
    alloc: Global,
    lines: &mut Vec<Line>,
    numbers: &mut Vec<u64>,
    hidden: Option<u64>,
    cursor: DocumentCursor<'_>,
    number: usize,
) -> Result<Option<u64>, AllocError>
    ensures { IfOk result (λ after. SkipsIn cursor.entry
        → AddsElement (listed_document cursor.entry) cursor.entry.carries number
        (listing_state hidden numbers.old.items lines.old.items)
        (listing_state after numbers.new.items lines.new.items)) }
{
    let Some(element) = element_at(cursor.elements, number) else {
        return Ok(hidden);
    };
    let around = number_around(numbers.as_slice(), cursor.around, element);
    let is_hidden = is_deeper(hidden, element);
    numbers.push(own_number(is_hidden, lines.len() as u64, around))?;
    let placed = placed_in(cursor, element, around);
    push_line(alloc, lines, is_hidden, cursor, placed, number)?;
    Ok(hidden_after(hidden, element))
}

/// Lists the element of this number, where it isn't hidden.
fn push_line(
    alloc: Global,
    lines: &mut Vec<Line>,
    is_hidden: bool,
    cursor: DocumentCursor<'_>,
    placed: Placed,
    number: usize,
) -> Result<(), AllocError>
    ensures { OnOk result ((element : NamedElement) → slice_get cursor.entry.elements.now number ≡ Some element
        → AddsLine is_hidden cursor.entry.is_carried cursor.entry.octets.now placed element
        (line_cause cursor.entry.elements.now cursor.entry.causes.now number) cursor.entry.carries
        lines.old.items lines.new.items) }
{
    let Some(element) = element_at(cursor.elements, number) else {
        return Ok(());
    };
    if is_hidden {
        return Ok(());
    }
    let cause = line_cause(cursor, number);
    let value = line_value(alloc, cursor.is_carried, cursor.octets, element)?;
    lines.push(header_line(placed, element, value, cause, cursor.carries))?;
    Ok(())
}

/// The lines of the elements inside an OCTET STRING.
fn push_inside(
    alloc: Global,
    lines: &mut Vec<Line>,
    cursor: DocumentCursor<'_>,
) -> Result<(), AllocError>
    ensures { OnOk result ((end : ListingState)
        × Lists (listed_document cursor.entry) (length cursor.entry.elements.now) (start_of lines.old.items) end
        × (lines.new.items ≡ end.lines)) }
{
    let mut numbers = Vec::with_capacity(alloc, cursor.elements.len())?;
    let mut hidden = None;
    let mut rest = cursor.pieces;
    let mut before: u64 = 0;
    for i in 0..cursor.elements.len() {
        let at = place_at(cursor.elements, i);
        let (here, octets) = later_pieces(cursor.pieces, rest, before, at);
        rest = here;
        before = octets;
        let part = DocumentCursor {
            rest,
            before,
            carries: None,
            ..cursor
        };
        let next = push_element(alloc, lines, &mut numbers, hidden, part, i)?;
        hidden = next;
    }
    Ok(())
}

/// The place of the element of this number, in its document.
fn place_at(elements: &[NamedElement], number: usize) -> u64
    ensures { result ≡ own_place (slice_get elements.now number) }
{
    match elements.get(number) {
        Some(element) => element.header.at,
        None => 0,
    }
}

/// The document inside an element of the file, where it is the first of those that are left; and those after it.
fn next_inside<'a>(insides: &'a [Inside], number: usize) -> (Option<&'a Inside>, &'a [Inside])
    ensures inside { option_map (λ r. r.now) result.0 ≡ first_inside insides.now number }
    ensures after { result.1.now ≡ after_inside insides.now number }
{
    match insides {
        [inside, after @ ..] if inside.container == number => (Some(inside), after),
        _ => (None, insides),
    }
}

/// The lines of a file's elements, and after each OCTET STRING those of what is inside it.
pub(crate) fn lines_of(
    alloc: Global,
    cursor: DocumentCursor<'_>,
    insides: &[Inside],
) -> Result<Vec<Line>, AllocError>
    ensures { IfOk result (λ lines. SkipsIn cursor.entry
        → IsListed (listed_document cursor.entry) insides.now lines.items) }
{
    let mut lines: Vec<Line> = Vec::with_capacity(alloc, most_lines(cursor.elements, insides))?;
    let mut numbers = Vec::with_capacity(alloc, cursor.elements.len())?;
    let mut hidden = None;
    let mut left = insides;
    for i in 0..cursor.elements.len() {
        let number = lines.len();
        let (inside, after) = next_inside(left, i);
        left = after;
        let part = DocumentCursor {
            carries: judgement_of(inside),
            ..cursor
        };
        let next = push_element(alloc, &mut lines, &mut numbers, hidden, part, i)?;
        push_inside_of(alloc, &mut lines, cursor, inside, number)?;
        hidden = next;
    }
    Ok(lines)
}

/// What the value of an extension is as one of its type.
fn judgement_of(inside: Option<&Inside>) -> Option<Carried>
    ensures { result ≡ carried_by (option_map (λ r. r.now) inside.entry) }
{
    match inside {
        Some(inside) => inside.carried,
        None => None,
    }
}

/// How many lines there are at most: one of each element, and one of the fault.
fn most_lines(elements: &[NamedElement], insides: &[Inside]) -> usize
    ensures { result ≡ most_lines elements.now insides.now }
{
    let mut count = elements.len().saturating_add(1);
    let mut left = insides;
    while let [inside, after @ ..] = left {
        count = count.saturating_add(inside.named.elements.len());
        left = after;
    }
    count
}

/// The lines of the document inside an element that has the line of this number, where there is one.
fn push_inside_of(
    alloc: Global,
    lines: &mut Vec<Line>,
    file: DocumentCursor<'_>,
    inside: Option<&Inside>,
    number: usize,
) -> Result<(), AllocError>
    ensures { OnOk result ((hidden : Option ℕ) (numbers : List ℕ)
        → AddsDocument file.entry.causes.now (option_map (λ r. r.now) inside.entry) number
        (listing_state hidden numbers lines.old.items) (listing_state hidden numbers lines.new.items)) }
{
    let Some(inside) = inside else {
        return Ok(());
    };
    let Some(depth) = depth_inside(lines.as_slice(), number) else {
        return Ok(());
    };
    let causes = causes_inside(alloc, file.causes, inside)?;
    let cursor = cursor_inside(inside, causes.as_slice(), depth, number as u64);
    push_inside(alloc, lines, cursor)
}

/// How deep a document is inside the element of the line of this number.
fn depth_inside(lines: &[Line], number: usize) -> Option<u64>
    ensures { result
        ≡ option_map (λ line. min (line.depth + 1) (2 ^ 64 - 1)) (slice_get lines.now number) }
{
    match lines.get(number) {
        Some(line) => Some(line.depth.saturating_add(1)),
        None => None,
    }
}

/// Why the elements inside aren't in DER, where those of the file have causes.
fn causes_inside(
    alloc: Global,
    causes: &[Option<Cause>],
    inside: &Inside,
) -> Result<Vec<Option<Cause>>, AllocError>
    ensures { IfOk result (λ all. all.items ≡ causes_inside causes.now inside.now) }
{
    if causes.is_empty() || inside.carried.is_some() {
        return Ok(Vec::new(alloc));
    }
    causes_of(
        alloc,
        inside.octets.as_slice(),
        inside.named.elements.as_slice(),
    )
}

/// A document inside the element of the line of this number.
fn cursor_inside<'a>(
    inside: &'a Inside,
    causes: &'a [Option<Cause>],
    depth: u64,
    around: u64,
) -> DocumentCursor<'a>
    ensures octets { result.octets.now ≡ inside.now.octets.items }
    ensures elements { result.elements.now ≡ inside.now.named.elements.items }
    ensures document { listed_document result ≡ record {
      octets = inside.now.octets.items;
      elements = inside.now.named.elements.items;
      causes = causes.now;
      pieces = inside.now.pieces.items;
      is_inside = true;
      is_carried = is_some inside.now.carried;
      depth = depth;
      around = around;
    } }
{
    DocumentCursor {
        octets: inside.octets.as_slice(),
        elements: inside.named.elements.as_slice(),
        causes,
        pieces: inside.pieces.as_slice(),
        rest: inside.pieces.as_slice(),
        before: 0,
        is_inside: true,
        is_carried: inside.carried.is_some(),
        depth,
        around,
        carries: None,
    }
}
