//! The front of a refused document: its first octets, as far as they say one of a few things that many documents say.
ghost use Rattle.std.specs.Prelude.{◌≡◌, drop};
ghost use Rattle.std.specs.Option.{option_map};
ghost use Rattle.explain.specs.Fronts.{after_element, after_header, after_length, after_outside_subject};
ghost use Rattle.explain.specs.Fronts.{after_subject, after_whole, begins_key, cut_at, front_by, front_size};
ghost use Rattle.explain.specs.Fronts.{has_key_after, header_end, is_container, is_container_tag, is_deeper};
ghost use Rattle.explain.specs.Fronts.{is_in_place, is_kept, is_misformed, is_named, is_one_of, is_usual};
ghost use Rattle.explain.specs.Fronts.{is_usual_leaf, is_usual_mark, mark_of, mark_of_container, mark_of_leaf};
ghost use Rattle.explain.specs.Fronts.{shown_end, start};

use crate::document::places::{announced_end, end_after};
use crate::document::values::{Sort, contents_of, is_field, sort_of};
use crate::fault::location::element_with;
use crate::listing::causes::holds_segments;
use asn_names::element::{Mismatch, NamedElement, Step};
use pkix_shapes::identifiers::identifier_of;
use pkix_shapes::shape::Shape;
use tlv_core::tag::{Class, Tag};

/// What an element is to whoever reads a refused document from its first octet on.
#[derive(Clone, Copy)]
pub(crate) enum Mark {
    /// A leaf that says one of a few things.
    Usual,
    /// It is shown where something usual comes after it.
    Waits,
    /// The subject of a request.
    Subject,
    /// The attributes of a request: what comes before them is whole.
    Attributes,
    /// Neither it nor what comes after it is shown.
    Ends,
}

/// What is known between two elements.
#[derive(Clone, Copy)]
pub(crate) struct FrontState {
    /// So many octets are shown.
    pub(crate) octets: u64,
    /// How deep the subject is that the elements are in, where they are in one that is shown.
    pub(crate) subject: Option<u64>,
    pub(crate) ended: bool,
}

/// How many octets are shown of a document that is refused at this place, by its elements and by where its type and
/// they part.
pub(crate) fn front_size(
    octets: &[u8],
    elements: &[NamedElement],
    mismatch: &Mismatch,
    at: u64,
) -> u64
    ensures { result ≡ front_size octets.now elements.now mismatch.now at }
{
    let mut state = start();
    for i in 0..elements.len() {
        state = after_element(octets, state, &elements[i]);
    }
    front_by(state, elements, mismatch).min(cut_at(elements, at))
}

/// Before the first element.
fn start() -> FrontState
    ensures { result ≡ start }
{
    FrontState {
        octets: 0,
        subject: None,
        ended: false,
    }
}

/// How many octets are shown by what is known after all elements: all of a document that is whole.
fn front_by(state: FrontState, elements: &[NamedElement], mismatch: &Mismatch) -> u64
    ensures { result ≡ front_by state elements.now mismatch.now }
{
    match mismatch {
        Mismatch::Nowhere if !state.ended => after_whole(state.octets, elements.first()),
        _ => state.octets,
    }
}

/// Where the outermost element ends.
fn after_whole(octets: u64, outermost: Option<&NamedElement>) -> u64
    ensures { result ≡ after_whole octets (option_map (λ r. r.now) outermost.entry) }
{
    match outermost {
        Some(element) => match element.end {
            Some(end) => end_after(element, end),
            None => octets,
        },
        None => octets,
    }
}

/// Where the front ends at the latest: with the element that is refused, or in front of what isn't one.
fn cut_at(elements: &[NamedElement], at: u64) -> u64
    ensures { result ≡ cut_at elements.now at }
{
    match element_with(elements, at) {
        Some(element) => shown_end(element),
        None => at,
    }
}

/// Where an element ends; its header, where it isn't whole.
fn shown_end(element: &NamedElement) -> u64
    ensures { result ≡ shown_end element.now }
{
    match element.end {
        Some(end) => end_after(element, end),
        None => header_end(element),
    }
}

/// Where the header of an element ends, as far as it is whole.
fn header_end(element: &NamedElement) -> u64
    ensures { result ≡ header_end element.now }
{
    match element.begin {
        Some(begin) => begin,
        None => element.header.at,
    }
}

/// One element more.
fn after_element(octets: &[u8], state: FrontState, element: &NamedElement) -> FrontState
    ensures { result ≡ after_element octets.now state element.now }
{
    if state.ended {
        return state;
    }
    if is_deeper(state.subject, element) {
        after_subject(state, element)
    } else {
        after_outside_subject(octets, state, element, mark_of(octets, element))
    }
}

/// One element more of a subject that is shown.
fn after_subject(state: FrontState, element: &NamedElement) -> FrontState
    ensures { result ≡ after_subject state element.now }
{
    if !is_in_place(element.step) {
        return FrontState {
            ended: true,
            ..state
        };
    }
    let octets = if element.header.constructed {
        header_end(element)
    } else {
        shown_end(element)
    };
    FrontState {
        octets,
        ended: is_misformed(element),
        ..state
    }
}

/// Whether an element is in constructed form, and has none: it is neither a container nor a string (X.690 8.2 to 8.14).
fn is_misformed(element: &NamedElement) -> bool
    ensures { result ≡ is_misformed element.now }
{
    element.header.constructed && !(is_container(element) || holds_segments(element.header.tag))
}

/// One element more, in no subject.
fn after_outside_subject(
    octets: &[u8],
    state: FrontState,
    element: &NamedElement,
    mark: Mark,
) -> FrontState
    ensures { result ≡ after_outside_subject octets.now state element.now mark }
{
    let rest = FrontState {
        subject: None,
        ..state
    };
    match mark {
        Mark::Usual => FrontState {
            octets: shown_end(element),
            ..rest
        },
        Mark::Waits => rest,
        Mark::Subject if has_key_after(octets, element) => FrontState {
            octets: header_end(element),
            subject: Some(element.header.depth),
            ended: false,
        },
        Mark::Attributes => FrontState {
            octets: element.header.at,
            ..rest
        },
        Mark::Subject | Mark::Ends => FrontState {
            ended: true,
            ..rest
        },
    }
}

/// Whether an element is deeper than this, where this is known.
pub(crate) fn is_deeper(depth: Option<u64>, element: &NamedElement) -> bool
    ensures { result ≡ is_deeper depth element.now }
{
    match depth {
        Some(depth) => element.header.depth > depth,
        None => false,
    }
}

/// Whether an element has its place in the type.
fn is_in_place(step: Step) -> bool
    ensures { result ≡ is_in_place step }
{
    match step {
        Step::Outside => false,
        Step::Outermost | Step::Field(_) | Step::Member(_) | Step::Segment(_) => true,
    }
}

/// What an element is.
pub(crate) fn mark_of(octets: &[u8], element: &NamedElement) -> Mark
    ensures { result ≡ mark_of octets.now element.now }
{
    if element.private || !is_in_place(element.step) {
        return Mark::Ends;
    }
    if element.header.constructed {
        mark_of_container(element)
    } else {
        mark_of_leaf(element, contents_of(octets, element))
    }
}

/// Whether it says one of a few things.
pub(crate) fn is_usual_mark(mark: Mark) -> bool
    ensures { result ≡ is_usual_mark mark }
{
    match mark {
        Mark::Usual => true,
        Mark::Waits | Mark::Subject | Mark::Attributes | Mark::Ends => false,
    }
}

fn mark_of_container(element: &NamedElement) -> Mark
    ensures { result ≡ mark_of_container element.now }
{
    if !is_container(element) {
        Mark::Ends
    } else if is_field(element.step, "subject") {
        Mark::Subject
    } else if is_field(element.step, "attributes") {
        Mark::Attributes
    } else {
        Mark::Waits
    }
}

/// Whether elements of the type hold others, and aren't strings; by its tag, where that is open.
fn is_container(element: &NamedElement) -> bool
    ensures { result ≡ is_container element.now }
{
    match element.shape {
        Some(Shape::Sequence(_, _) | Shape::ListOf(_, _, _) | Shape::SetOf(_, _, _)) => true,
        Some(Shape::Open) => is_container_tag(element.header.tag),
        _ => false,
    }
}

/// SEQUENCE and SET.
fn is_container_tag(tag: Tag) -> bool
    ensures { result ≡ is_container_tag tag }
{
    tag.class() == Class::Universal && (tag.number() == 16 || tag.number() == 17)
}

fn mark_of_leaf(element: &NamedElement, contents: Option<&[u8]>) -> Mark
    ensures { result ≡ mark_of_leaf element.now (option_map (λ r. r.now) contents.entry) }
{
    match contents {
        Some(contents) => {
            if is_usual_leaf(element, contents) {
                Mark::Usual
            } else if is_kept(element.step) {
                Mark::Waits
            } else {
                Mark::Ends
            }
        }
        None => Mark::Ends,
    }
}

/// Whether the field of this name is public in each document that has it, and shown by its size alone.
fn is_kept(step: Step) -> bool
    ensures { result ≡ is_kept step }
{
    is_field(step, "subjectPublicKey") || is_field(step, "extnValue") || is_field(step, "signature")
}

fn is_usual_leaf(element: &NamedElement, contents: &[u8]) -> bool
    ensures { result ≡ is_usual_leaf element.now contents.now }
{
    is_usual(sort_of(element), element.step, contents)
}

/// Whether contents say one of a few things: version 0 or 1, an identifier that has a usual name, NULL, critical TRUE
/// or FALSE.
fn is_usual(sort: Sort, step: Step, contents: &[u8]) -> bool
    ensures { result ≡ is_usual sort step contents.now }
{
    match sort {
        Sort::Integer => is_field(step, "version") && is_one_of(contents, 0, 1),
        Sort::Boolean => is_field(step, "critical") && is_one_of(contents, 0, 255),
        Sort::Null => contents.is_empty(),
        Sort::Identifier => identifier_of(contents).is_some(),
        Sort::Bits | Sort::PublicKey | Sort::Characters | Sort::Octets => false,
    }
}

/// Whether contents are one of these two octets.
fn is_one_of(contents: &[u8], one: u8, other: u8) -> bool
    ensures { result ≡ is_one_of contents.now one other }
{
    match contents {
        [octet] => *octet == one || *octet == other,
        _ => false,
    }
}

/// Whether a public key comes after a subject, of definite length.
fn has_key_after(octets: &[u8], element: &NamedElement) -> bool
    ensures { result ≡ has_key_after octets.now element.now }
{
    match announced_end(element) {
        Some(end) => begins_key(octets_after(octets, end)),
        None => false,
    }
}

/// The octets after a place.
fn octets_after(octets: &[u8], place: u64) -> &[u8]
    ensures { result.now ≡ drop place octets.now }
{
    if place <= octets.len() as u64 {
        &octets[place as usize..]
    } else {
        &octets[octets.len()..]
    }
}

/// Whether octets begin as a SubjectPublicKeyInfo does whose algorithm has a usual name (RFC 5280 section 4.1).
fn begins_key(octets: &[u8]) -> bool
    ensures { result ≡ begins_key octets.now }
{
    match after_header(octets) {
        Some(inner) => match after_header(inner) {
            Some(algorithm) => is_named(algorithm),
            None => false,
        },
        None => false,
    }
}

/// The octets after the header of a SEQUENCE.
fn after_header(octets: &[u8]) -> Option<&[u8]>
    ensures { option_map (λ r. r.now) result ≡ after_header octets.now }
{
    match octets {
        [identifier, rest @ ..] if *identifier == SEQUENCE => after_length(rest),
        _ => None,
    }
}

/// The octets after a length of at most five octets (X.690 8.1.3).
fn after_length(octets: &[u8]) -> Option<&[u8]>
    ensures { option_map (λ r. r.now) result ≡ after_length octets.now }
{
    match octets {
        [first, rest @ ..] => {
            if *first <= 128 {
                Some(rest)
            } else if *first <= 132 {
                Some(octets_after(rest, u64::from(*first - 128)))
            } else {
                None
            }
        }
        [] => None,
    }
}

/// Whether octets begin with an object identifier that has a usual name.
fn is_named(octets: &[u8]) -> bool
    ensures { result ≡ is_named octets.now }
{
    match octets {
        [identifier, size, rest @ ..] if *identifier == OBJECT_IDENTIFIER => {
            let size = (*size as usize).min(rest.len());
            identifier_of(&rest[..size]).is_some()
        }
        _ => false,
    }
}

/// The identifier octets of a SEQUENCE and of an OBJECT IDENTIFIER.
const SEQUENCE: u8 = 0x30;

const OBJECT_IDENTIFIER: u8 = 6;
