//! Why elements aren't in DER (X.690 clauses 10 and 11).
ghost use Rattle.std.specs.Prelude.{◌<◌, ◌≡◌, IfOk, length, map, slice_get, true, unwrap_or};
ghost use Rattle.std.specs.Option.{option_map};
ghost use Rattle.x690.specs.DerTexts.{padded_less};
ghost use Rattle.asn_elements.specs.Members.{ascends};
ghost use Rattle.asn_names.specs.Levels.{holds_segments, is_string};
ghost use Rattle.explain.specs.Causes.{bits_cause, boolean_cause, cause_in_contents, cause_within, causes_of};
ghost use Rattle.explain.specs.Causes.{holds_hidden, is_disordered, is_hidden, is_in_segments, is_out_of_order};
ghost use Rattle.explain.specs.Causes.{is_set, length_cause, member_encodings, own_cause, encoding_of, unit_of};
ghost use Rattle.explain.specs.Causes.{with_order};
ghost use Rattle.explain.specs.Contents.{contents_in};

use crate::document::inside::element_at;
use crate::document::values::{Sort, contents_of, is_field, octets_between, sort_of};
use asn_names::element::{NamedElement, Step};
use ber_outline::event::ElementHeader;
use pkix_shapes::shape::Shape;
use reports::report::Cause;
use std::alloc::{AllocError, Global};
use tlv_core::der::header_size;
use tlv_core::tag::{Class, Tag};

/// The cause of each element, in order: its own, or that its members aren't in order.
///
/// It takes time as the octets, each with the sets around it.
pub(crate) fn causes_of(
    alloc: Global,
    octets: &[u8],
    elements: &[NamedElement],
) -> Result<Vec<Option<Cause>>, AllocError>
    ensures { IfOk result (λ causes. causes.items ≡ causes_of octets.now elements.now) }
{
    let mut causes = own_causes(alloc, octets, elements)?;
    let count = elements.len();
    for back in 0..count {
        set_order(&mut causes, octets, elements, count - 1 - back);
    }
    Ok(causes)
}

/// The cause of a SET OF whose members aren't in order.
fn set_order(
    causes: &mut Vec<Option<Cause>>,
    octets: &[u8],
    elements: &[NamedElement],
    number: usize,
)
    ensures { causes.new.items
        ≡ with_order octets.now elements.now causes.old.items number }
{
    if !is_disordered(octets, elements, causes.as_slice(), number) {
        return;
    }
    causes[number] = Some(Cause::Order);
}

/// Whether the element of this number has no cause and is a SET OF that is out of order.
fn is_disordered(
    octets: &[u8],
    elements: &[NamedElement],
    causes: &[Option<Cause>],
    number: usize,
) -> bool
    ensures is { result ≡ is_disordered octets.now elements.now causes.now number }
    ensures within { result ≡ true → number < length causes.now }
{
    let (Some(element), Some(None)) = (element_at(elements, number), causes.get(number)) else {
        return false;
    };
    let depth = element.header.depth;
    let rest = &elements[number + 1..];
    is_set(element) && is_out_of_order(octets, depth, rest, &causes[number + 1..])
}

/// Whether one of the elements is hidden, as long as they are deeper.
fn holds_hidden(depth: u64, elements: &[NamedElement]) -> bool
    ensures { result ≡ holds_hidden depth elements.now }
{
    let mut left = elements;
    while let [element, rest @ ..] = left {
        if element.header.depth <= depth {
            return false;
        }
        if is_hidden(element) {
            return true;
        }
        left = rest;
    }
    false
}

/// Whether all octets of an element are private, its header too: it is of an open type, or a value in one.
fn is_hidden(element: &NamedElement) -> bool
    ensures { result ≡ is_hidden element.now }
{
    match element.shape {
        Some(Shape::Open) => element.private,
        _ => false,
    }
}

/// Whether nothing in an element that is so deep is hidden or has a cause, and its members aren't in order.
fn is_out_of_order(
    octets: &[u8],
    depth: u64,
    elements: &[NamedElement],
    causes: &[Option<Cause>],
) -> bool
    ensures { result ≡ is_out_of_order octets.now depth elements.now causes.now }
{
    !holds_hidden(depth, elements)
        && cause_within(depth, elements, causes).is_none()
        && !is_ordered(octets, depth, elements)
}

fn own_causes(
    alloc: Global,
    octets: &[u8],
    elements: &[NamedElement],
) -> Result<Vec<Option<Cause>>, AllocError>
    ensures { IfOk result (λ causes. causes.items ≡ map (own_cause octets.now) elements.now) }
{
    let mut causes = Vec::with_capacity(alloc, elements.len())?;
    let mut left = elements;
    while let [element, rest @ ..] = left {
        causes.push(own_cause(octets, element))?;
        left = rest;
    }
    Ok(causes)
}

/// The first cause of elements as long as they are deeper.
pub(crate) fn cause_within(
    depth: u64,
    elements: &[NamedElement],
    causes: &[Option<Cause>],
) -> Option<Cause>
    ensures { result ≡ cause_within depth elements.now causes.now }
{
    let mut left = elements;
    let mut others = causes;
    while let [element, rest @ ..] = left {
        let [cause, later @ ..] = others else {
            return None;
        };
        if element.header.depth <= depth {
            return None;
        }
        if cause.is_some() {
            return *cause;
        }
        left = rest;
        others = later;
    }
    None
}

/// Why an element by itself isn't in DER. Of segments nothing is said: the string that they are in has the cause. Of
/// what is private whole neither.
fn own_cause(octets: &[u8], element: &NamedElement) -> Option<Cause>
    ensures { result ≡ own_cause octets.now element.now }
{
    match element.step {
        Step::Segment(_) => None,
        _ if is_hidden(element) => None,
        _ if is_in_segments(element) => Some(Cause::Segments),
        _ => match length_cause(&element.header) {
            None => contents_cause(octets, element),
            cause => cause,
        },
    }
}

/// Whether an element is a string in segments.
fn is_in_segments(element: &NamedElement) -> bool
    ensures { result ≡ is_in_segments element.now }
{
    if !element.header.constructed {
        return false;
    }
    match element.shape {
        Some(Shape::Leaf(_, _) | Shape::Containing(_, _)) => true,
        Some(Shape::Open) => holds_segments(element.header.tag),
        _ => false,
    }
}

/// Whether a value of the tag is a string, a time or an ObjectDescriptor.
pub(crate) fn holds_segments(tag: Tag) -> bool
    ensures { result ≡ holds_segments tag }
{
    tag.class() == Class::Universal && is_string(tag.number())
}

/// By the universal tags of X.680 8.4.
fn is_string(number: u32) -> bool
    ensures { result ≡ is_string number }
{
    match number {
        3 | 4 | 7 | 12 | 18..=28 | 30 => true,
        _ => false,
    }
}

/// X.690 10.1.
fn length_cause(header: &ElementHeader) -> Option<Cause>
    ensures { result ≡ length_cause header.now }
{
    let Some(announced) = header.announced else {
        return None;
    };
    let Some(length) = announced.length else {
        return Some(Cause::IndefiniteLength);
    };
    let size = announced.contents.saturating_sub(header.at);
    if size != header_size(header.tag, length) {
        return Some(Cause::LongLength);
    }
    None
}

/// X.690 11.1, 11.2.1, 11.5.
fn contents_cause(octets: &[u8], element: &NamedElement) -> Option<Cause>
    ensures { result ≡ cause_in_contents element.now (contents_in octets.now element.now) }
{
    let Some(contents) = contents_of(octets, element) else {
        return None;
    };
    match sort_of(element) {
        Sort::Boolean => boolean_cause(element.step, contents),
        Sort::Bits | Sort::PublicKey => bits_cause(contents),
        _ => None,
    }
}

/// FALSE written out, where that is the default; TRUE by another octet than FF.
fn boolean_cause(step: Step, contents: &[u8]) -> Option<Cause>
    ensures { result ≡ boolean_cause step contents.now }
{
    match contents {
        [0] if is_field(step, "critical") => Some(Cause::Default),
        [octet] if *octet != 0 && *octet != 255 => Some(Cause::True),
        _ => None,
    }
}

/// Unused bits that aren't 0.
fn bits_cause(contents: &[u8]) -> Option<Cause>
    ensures { result ≡ bits_cause contents.now }
{
    let [unused, rest @ ..] = contents else {
        return None;
    };
    match rest.last() {
        Some(last) if *last % unit_of(*unused) != 0 => Some(Cause::UnusedBits),
        _ => None,
    }
}

/// The value of the lowest bit that is used, so many being unused.
pub(crate) fn unit_of(unused: u8) -> u8
    ensures positive { 0 < result }
    ensures unit { result ≡ unit_of unused }
{
    match unused {
        1 => 2,
        2 => 4,
        3 => 8,
        4 => 16,
        5 => 32,
        6 => 64,
        7 => 128,
        _ => 1,
    }
}

/// Whether an element is a SET OF: by its type, or by its tag where that is open.
fn is_set(element: &NamedElement) -> bool
    ensures { result ≡ is_set element.now }
{
    match element.shape {
        Some(Shape::SetOf(_, _, _)) => true,
        Some(Shape::Open) => {
            let tag = element.header.tag;
            element.header.constructed && tag.class() == Class::Universal && tag.number() == 17
        }
        _ => false,
    }
}

/// Whether the members of an element that is so deep are in order, none less than the one before it.
fn is_ordered(octets: &[u8], depth: u64, elements: &[NamedElement]) -> bool
    ensures { result ≡ ascends (member_encodings octets.now depth elements.now) }
{
    let mut before: &[u8] = &[];
    let mut left = elements;
    while let [element, rest @ ..] = left {
        if element.header.depth <= depth {
            return true;
        }
        if element.header.depth == depth + 1 {
            let member = encoding_of(octets, element);
            if is_less(member, before) {
                return false;
            }
            before = member;
        }
        left = rest;
    }
    true
}

/// The octets of an element of definite length.
fn encoding_of<'a>(octets: &'a [u8], element: &NamedElement) -> &'a [u8]
    ensures { result.now ≡ encoding_of octets.now element.now }
{
    let Some(end) = element.end else {
        return &[];
    };
    match octets_between(octets, element.header.at, end) {
        Some(text) => text,
        None => &[],
    }
}

/// Whether one text is less than another, the shorter one padded at its end with octets 00 (X.690 11.6).
fn is_less(first: &[u8], second: &[u8]) -> bool
    ensures { result ≡ padded_less first.now second.now }
{
    for i in 0..second.len() {
        let one = octet_at(first, i);
        let other = second[i];
        if one != other {
            return one < other;
        }
    }
    false
}

fn octet_at(octets: &[u8], place: usize) -> u8
    ensures { result ≡ unwrap_or (slice_get octets.now place) 0 }
{
    match octets.get(place) {
        Some(octet) => *octet,
        None => 0,
    }
}
