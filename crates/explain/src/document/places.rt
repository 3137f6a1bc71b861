//! Where the elements of a document are in the file, and where they end.
ghost use Rattle.std.specs.Prelude.{true, ◌-◌, ◌≡◌, ◌≤◌};
ghost use Rattle.explain.specs.FaultContainers.{announced_end};
ghost use Rattle.explain.specs.Lines.{end_after, listed_length};
ghost use Rattle.explain.specs.Places.{Skips, SkipsIn, end_by_length, end_of, is_in_first, listed_document};
ghost use Rattle.explain.specs.Places.{listed_end, place_in_file, place_of, placed_in, sum_of};

use asn_names::element::NamedElement;
use ber_outline::event::ElementHeader;
use reports::report::{Carried, Cause, Length};

/// Octets that are in the file one after another.
#[derive(Clone, Copy)]
pub(crate) struct Piece {
    /// The place of the first one in the file.
    pub(crate) at: u64,
    pub(crate) octets: u64,
}

/// A document whose elements are shown: the file, or what one OCTET STRING contains.
#[derive(Clone, Copy)]
pub(crate) struct DocumentCursor<'a> {
    pub(crate) octets: &'a [u8],
    pub(crate) elements: &'a [NamedElement],
    /// Why they aren't in DER; of a document that is or that is refused there are none.
    pub(crate) causes: &'a [Option<Cause>],
    /// Where its octets are in the file, in order.
    pub(crate) pieces: &'a [Piece],
    /// Those after the first `before` octets, so that a later place is found without a pass over all of them.
    pub(crate) rest: &'a [Piece],
    pub(crate) before: u64,
    pub(crate) is_inside: bool,
    /// Whether it is the value of an extension.
    pub(crate) is_carried: bool,
    /// How deep its outermost element is.
    pub(crate) depth: u64,
    /// The number of the line around it; of the file its own first one.
    pub(crate) around: u64,
    /// Of the element that is next: what it is as the value of an extension.
    pub(crate) carries: Option<Carried>,
}

/// Where an element is: its place and its end in the file, and the line around it.
#[derive(Clone, Copy)]
pub(crate) struct Placed {
    pub(crate) at: u64,
    pub(crate) end: Option<u64>,
    pub(crate) is_inside: bool,
    /// How deep the outermost element of its document is.
    pub(crate) depth: u64,
    pub(crate) around: u64,
}

/// Where an element is, by its document and the line around it.
pub(crate) fn placed_in(cursor: DocumentCursor<'_>, element: &NamedElement, around: u64) -> Placed
    ensures { SkipsIn cursor.entry
        → result ≡ placed_in (listed_document cursor.entry) element.now around }
{
    Placed {
        at: place_in_file(cursor, element.header.at),
        end: listed_end(cursor, element),
        is_inside: cursor.is_inside,
        depth: cursor.depth,
        around,
    }
}

/// The place in the file of an element of a document.
fn place_in_file(cursor: DocumentCursor<'_>, at: u64) -> u64
    ensures { SkipsIn cursor.entry → result ≡ place_in_file cursor.entry.pieces.now at }
{
    match place_in(cursor, at) {
        Some(place) => place,
        None => at,
    }
}

/// Where an element ends in the file: by its length, else by where its contents end.
fn listed_end(cursor: DocumentCursor<'_>, element: &NamedElement) -> Option<u64>
    ensures { SkipsIn cursor.entry → result ≡ listed_end (listed_document cursor.entry) element.now }
{
    if !cursor.is_inside {
        if let Some(end) = end_by_length(&element.header) {
            return Some(end);
        }
    }
    match element.end {
        Some(end) => end_in(cursor, end_after(element, end)),
        None => None,
    }
}

/// Where an element ends whose contents end there: after its end-of-contents octets, where it has an indefinite length
/// (X.690 8.1.1.1, 8.1.5).
pub(crate) fn end_after(element: &NamedElement, end: u64) -> u64
    ensures { result ≡ end_after element.now.header.announced end }
{
    match element.header.announced {
        Some(announced) if announced.length.is_none() => end.saturating_add(2),
        _ => end,
    }
}

/// Where an element of definite length ends by its header.
pub(crate) fn end_by_length(header: &ElementHeader) -> Option<u64>
    ensures { result ≡ end_by_length header.now }
{
    let Some(length) = listed_length(header) else {
        return None;
    };
    let Some(contents) = length.contents else {
        return None;
    };
    sum_of(header.at.saturating_add(length.header), contents)
}

/// The length of an element, where it may be shown: where it has at most four octets. A damaged one may have taken
/// octets of a private element for its own, also where what comes of it is accepted.
pub(crate) fn listed_length(header: &ElementHeader) -> Option<Length>
    ensures { result ≡ listed_length header.now }
{
    let Some(announced) = header.announced else {
        return None;
    };
    let size = announced.contents.saturating_sub(header.at);
    if size > 6 {
        return None;
    }
    Some(Length {
        header: size,
        contents: announced.length,
    })
}

/// Where an element of definite length ends by its header, whatever its length.
pub(crate) fn announced_end(element: &NamedElement) -> Option<u64>
    ensures { result ≡ announced_end element.now }
{
    match element.header.announced {
        Some(announced) => match announced.length {
            Some(length) => Some(announced.contents.saturating_add(length)),
            None => None,
        },
        None => None,
    }
}

/// The sum, where 64 bits have it.
pub(crate) fn sum_of(place: u64, octets: u64) -> Option<u64>
    ensures { result ≡ sum_of place octets }
{
    if octets <= u64::MAX - place {
        Some(place + octets)
    } else {
        None
    }
}

/// The place in the file of the octet of this number, counted over the pieces.
pub(crate) fn place_of(pieces: &[Piece], number: u64) -> Option<u64>
    ensures { result ≡ place_of pieces.now number }
{
    let mut rest = pieces;
    let mut left = number;
    while let [piece, after @ ..] = rest {
        if left < piece.octets {
            return sum_of(piece.at, left);
        }
        left -= piece.octets;
        rest = after;
    }
    None
}

/// The place in the file after so many octets of the pieces.
pub(crate) fn end_of(pieces: &[Piece], count: u64) -> Option<u64>
    ensures { result ≡ end_of pieces.now count }
{
    if count == 0 {
        return place_of(pieces, 0);
    }
    match place_of(pieces, count - 1) {
        Some(last) => sum_of(last, 1),
        None => None,
    }
}

/// The place in the file of the octet of this number of a document.
fn place_in(cursor: DocumentCursor<'_>, number: u64) -> Option<u64>
    ensures { SkipsIn cursor.entry → result ≡ place_of cursor.entry.pieces.now number }
{
    if number < cursor.before {
        place_of(cursor.pieces, number)
    } else {
        place_of(cursor.rest, number - cursor.before)
    }
}

/// The place in the file after so many octets of a document.
fn end_in(cursor: DocumentCursor<'_>, count: u64) -> Option<u64>
    ensures { SkipsIn cursor.entry → result ≡ end_of cursor.entry.pieces.now count }
{
    if count == 0 {
        return place_in(cursor, 0);
    }
    match place_in(cursor, count - 1) {
        Some(last) => sum_of(last, 1),
        None => None,
    }
}

/// The pieces from that of the octet of this number on, and how many octets those before have.
fn pieces_from(pieces: &[Piece], number: u64) -> (&[Piece], u64)
    ensures within { result.1 ≤ number }
    ensures skips { Skips pieces.now result.1 result.0.now }
    ensures here { is_in_first result.0.now (number - result.1) ≡ true }
{
    let mut rest = pieces;
    let mut before: u64 = 0;
    while let [piece, after @ ..] = rest {
        if number - before < piece.octets {
            return (rest, before);
        }
        before += piece.octets;
        rest = after;
    }
    (rest, before)
}

/// The same, found from the pieces after so many octets on.
pub(crate) fn later_pieces<'a>(
    pieces: &'a [Piece],
    rest: &'a [Piece],
    before: u64,
    number: u64,
) -> (&'a [Piece], u64)
    ensures skips { Skips pieces.now before rest.now → Skips pieces.now result.1 result.0.now }
    ensures here { is_in_first result.0.now (number - result.1) ≡ true }
{
    if number < before {
        return pieces_from(pieces, number);
    }
    let (here, count) = pieces_from(rest, number - before);
    (here, before + count)
}
