//! Documents that OCTET STRINGs contain, by their type or as the value of an extension, and where their octets are in
//! the file.
ghost use Rattle.std.specs.Prelude.{◌<◌, ◌≤◌, ◌+◌, ◌++◌, ◌≡◌, IfOk, IfSome, None, OnOk, Some, length, option_and_then};
ghost use Rattle.std.specs.Prelude.{slice_get, true};
ghost use Rattle.std.specs.Option.{option_map};
ghost use Rattle.pkix_shapes.specs.Plain.{is_plain};
ghost use Rattle.pkix_shapes.specs.Terms.{term_of};
ghost use Rattle.explain.specs.Contents.{contents_in};
ghost use Rattle.explain.specs.Insides.{AddsInside, AreCarried, HasInsides, IsDocumentIn, IsNamed, IsValueOf};
ghost use Rattle.explain.specs.Insides.{before_held, contained, contents_within, deeper_contents, deeper_pieces};
ghost use Rattle.explain.specs.Insides.{inside_at, is_at_place, looked_for, own_contents, own_pieces, pieces_within};

use crate::document::places::Piece;
use crate::document::values::{contents_of, is_field};
use asn_names::element::{Mismatch, NamedElement};
use asn_names::judgement::{Judgement, judge};
use asn_names::naming::{NamedElements, name_elements};
use ber_outline::outline::outline;
use pkix_shapes::extensions::extension_type;
use pkix_shapes::public_keys::public_key_type;
use pkix_shapes::shape::Shape;
use reports::report::Carried;
use std::alloc::{AllocError, Global};
use tlv_core::limits::Limits;
use tlv_core::tag::{Class, Tag};

/// Its universal tag (X.680 8.4).
const BIT_STRING: u32 = 3;

/// A document inside an OCTET STRING, by its elements.
#[derive(Drop)]
pub(crate) struct Inside {
    /// The number of the OCTET STRING among the elements of the file.
    pub(crate) container: usize,
    /// Its contents, all segments joined.
    pub(crate) octets: Vec<u8>,
    /// Where these are in the file, in order.
    pub(crate) pieces: Vec<Piece>,
    /// The type of the document.
    pub(crate) shape: &'static Shape,
    pub(crate) named: NamedElements,
    /// Of the value of an extension: what its contents are as one of the type.
    pub(crate) carried: Option<Carried>,
}

/// Where documents inside are looked for.
#[derive(Clone, Copy)]
pub(crate) struct InsideSearch {
    pub(crate) limits: Limits,
    /// In the values of extensions too, whose octets the type of the file carries.
    pub(crate) in_extensions: bool,
}

/// The elements of a document of this type.
pub(crate) fn named_elements(
    alloc: Global,
    octets: &[u8],
    shape: &'static Shape,
    limits: Limits,
) -> Result<NamedElements, AllocError>
    ensures { IfOk result (λ named. IsNamed limits octets.now shape.entry
        (named.elements.items, named.mismatch)) }
{
    match outline(alloc, octets, limits) {
        Ok((events, stop)) => name_elements(alloc, octets, events.as_slice(), stop, shape),
        Err(_) => Err(AllocError),
    }
}

/// The documents inside the elements of the file, in order.
pub(crate) fn documents_inside(
    alloc: Global,
    file: &[u8],
    elements: &[NamedElement],
    search: &InsideSearch,
) -> Result<Vec<Inside>, AllocError>
    ensures { IfOk result (λ insides.
        HasInsides search.now file.now elements.now (length elements.now) insides.items) }
{
    let mut all = Vec::new(alloc);
    for i in 0..elements.len() {
        push_inside(alloc, &mut all, file, elements, i, search)?;
    }
    Ok(all)
}

/// The document inside the element of this number, where there is one.
fn push_inside(
    alloc: Global,
    all: &mut Vec<Inside>,
    file: &[u8],
    elements: &[NamedElement],
    number: usize,
    search: &InsideSearch,
) -> Result<(), AllocError>
    ensures { OnOk result
        (AddsInside search.now file.now elements.now number all.old.items all.new.items) }
{
    let Some(element) = element_at(elements, number) else {
        return Ok(());
    };
    if let Some(shape) = contained(element) {
        let rest = &elements[number..];
        let inside = document_inside(alloc, file, rest, number, shape, search.limits)?;
        all.push(inside)?;
        return Ok(());
    }
    let Some(shape) = carried_type(search, file, elements, element) else {
        return Ok(());
    };
    let inside = value_inside(
        alloc,
        file,
        &elements[number..],
        number,
        shape,
        search.limits,
    )?;
    all.push(inside)?;
    Ok(())
}

/// The value that the first of the elements is of an extension: where it is in DER its elements have their names.
fn value_inside(
    alloc: Global,
    file: &[u8],
    elements: &[NamedElement],
    container: usize,
    shape: &'static Shape,
    limits: Limits,
) -> Result<Inside, AllocError>
    requires plain { is_plain shape.now ≡ true }
    ensures { IfOk result (λ inside.
        IsValueOf limits file.now elements.now container (term_of shape.now) inside) }
{
    let mut octets = Vec::new(alloc);
    let mut pieces = Vec::with_capacity(alloc, 1)?;
    push_segments(file, elements, &mut octets, &mut pieces)?;
    let judgement = judge(alloc, octets.as_slice(), shape, limits)?;
    let named = value_elements(alloc, octets.as_slice(), shape, judgement, limits)?;
    let carried = match judgement {
        Judgement::Der => Carried::Der,
        Judgement::NotDer => Carried::NotDer,
        Judgement::Refused(fault) => Carried::Refused(fault.at, fault.why),
    };
    Ok(Inside {
        container,
        octets,
        pieces,
        shape,
        named,
        carried: Some(carried),
    })
}

/// The elements of a value that is in DER.
fn value_elements(
    alloc: Global,
    octets: &[u8],
    shape: &'static Shape,
    judgement: Judgement,
    limits: Limits,
) -> Result<NamedElements, AllocError>
    ensures { IfOk result (λ named. AreCarried limits octets.now shape.entry judgement
        (named.elements.items, named.mismatch)) }
{
    match judgement {
        Judgement::Der => named_elements(alloc, octets, shape, limits),
        Judgement::NotDer | Judgement::Refused(_) => Ok(NamedElements {
            elements: Vec::new(alloc),
            mismatch: Mismatch::Outermost,
        }),
    }
}

/// The type of what the value of a known extension contains, where it is looked for.
fn carried_type(
    search: &InsideSearch,
    file: &[u8],
    elements: &[NamedElement],
    element: &NamedElement,
) -> Option<&'static Shape>
    ensures type_term { option_map (λ r. term_of r.now) result
        ≡ looked_for search.now.in_extensions file.now elements.now (Some element.now) }
    ensures plain { IfSome result (λ r. is_plain r.now ≡ true) }
{
    if !search.in_extensions {
        return None;
    }
    if is_field(element.step, "extnValue") {
        return match contents_at(file, elements, element.around, 1) {
            Some(identifier) => extension_type(identifier),
            None => None,
        };
    }
    if is_field(element.step, "subjectPublicKey") {
        return match contents_at(file, elements, element.around, 2) {
            Some(algorithm) => public_key_type(algorithm),
            None => None,
        };
    }
    None
}

/// The contents of the element so many after another one.
fn contents_at<'a>(
    file: &'a [u8],
    elements: &[NamedElement],
    number: u64,
    after: u64,
) -> Option<&'a [u8]>
    ensures { option_map (λ r. r.now) result
        ≡ option_and_then (contents_in file.now) (slice_get elements.now (number + after)) }
{
    let element = elements.get(number.saturating_add(after) as usize)?;
    contents_of(file, element)
}

/// The element of this number.
pub(crate) fn element_at(elements: &[NamedElement], number: usize) -> Option<&NamedElement>
    ensures item { option_map (λ r. r.now) result ≡ slice_get elements.now number }
    ensures within { IfSome result (λ _. number < length elements.now) }
{
    elements.get(number)
}

/// The type of what an element contains, where that is a document and is whole.
fn contained(element: &NamedElement) -> Option<&'static Shape>
    ensures { result ≡ contained element.now }
{
    match (element.shape, element.end) {
        (Some(Shape::Containing(_, shape)), Some(_)) => Some(shape),
        _ => None,
    }
}

/// The document inside the first of the elements.
fn document_inside(
    alloc: Global,
    file: &[u8],
    elements: &[NamedElement],
    container: usize,
    shape: &'static Shape,
    limits: Limits,
) -> Result<Inside, AllocError>
    ensures is { IfOk result (λ inside.
        IsDocumentIn limits file.now elements.now container shape.entry inside) }
    ensures carried { IfOk result (λ inside. inside.carried ≡ None) }
{
    let mut octets = Vec::new(alloc);
    let mut pieces = Vec::with_capacity(alloc, 1)?;
    push_segments(file, elements, &mut octets, &mut pieces)?;
    let named = named_elements(alloc, octets.as_slice(), shape, limits)?;
    Ok(Inside {
        container,
        octets,
        pieces,
        shape,
        named,
        carried: None,
    })
}

/// The octets of the first of the elements, or those of all segments in it, and where they are.
fn push_segments(
    file: &[u8],
    elements: &[NamedElement],
    octets: &mut Vec<u8>,
    pieces: &mut Vec<Piece>,
) -> Result<(), AllocError>
    ensures octets { OnOk result (octets.new.items
        ≡ octets.old.items ++ contents_within file.now elements.now) }
    ensures pieces { OnOk result (pieces.new.items
        ≡ pieces.old.items ++ pieces_within file.now elements.now) }
{
    let [element, rest @ ..] = elements else {
        return Ok(());
    };
    push_contents(file, element, octets, pieces)?;
    push_deeper(file, element.header.depth, rest, octets, pieces)
}

/// The octets of elements as long as they are deeper.
fn push_deeper(
    file: &[u8],
    depth: u64,
    elements: &[NamedElement],
    octets: &mut Vec<u8>,
    pieces: &mut Vec<Piece>,
) -> Result<(), AllocError>
    ensures octets { OnOk result (octets.new.items
        ≡ octets.old.items ++ deeper_contents file.now depth elements.now) }
    ensures pieces { OnOk result (pieces.new.items
        ≡ pieces.old.items ++ deeper_pieces file.now depth elements.now) }
{
    let mut left = elements;
    while let [element, rest @ ..] = left {
        if element.header.depth <= depth {
            return Ok(());
        }
        push_contents(file, element, octets, pieces)?;
        left = rest;
    }
    Ok(())
}

/// The octets of a primitive element.
fn push_contents(
    file: &[u8],
    element: &NamedElement,
    octets: &mut Vec<u8>,
    pieces: &mut Vec<Piece>,
) -> Result<(), AllocError>
    ensures octets { OnOk result (octets.new.items
        ≡ octets.old.items ++ own_contents file.now element.now) }
    ensures pieces { OnOk result (pieces.new.items
        ≡ pieces.old.items ++ own_pieces file.now element.now) }
{
    let Some(contents) = contents_of(file, element) else {
        return Ok(());
    };
    let before = before_held(element.header.tag, contents);
    octets.extend_from_slice(&contents[before..])?;
    if let Some(at) = element.begin {
        pieces.push(Piece {
            at: at + before as u64,
            octets: (contents.len() - before) as u64,
        })?;
    }
    Ok(())
}

/// How many contents octets of a string stand before the octets that it holds: of a BIT STRING the first, which says
/// how many bits are unused (X.690 8.6.2). Where there are some its bits are no octets, and it holds none.
fn before_held(tag: Tag, contents: &[u8]) -> usize
    ensures value { result ≡ before_held tag contents.now }
    ensures within { result ≤ length contents.now }
{
    if tag.class() != Class::Universal || tag.number() != BIT_STRING {
        return 0;
    }
    match contents {
        [0, ..] => 1,
        _ => contents.len(),
    }
}

/// The document inside the element at a place.
pub(crate) fn inside_at<'a>(
    elements: &[NamedElement],
    insides: &'a [Inside],
    at: u64,
) -> Option<&'a Inside>
    ensures { option_map (λ r. r.now) result
        ≡ inside_at elements.now insides.now at }
{
    let mut left = insides;
    while let [inside, rest @ ..] = left {
        if is_at_place(elements, inside.container, at) {
            return Some(inside);
        }
        left = rest;
    }
    None
}

/// Whether the element of this number is at a place.
fn is_at_place(elements: &[NamedElement], number: usize, at: u64) -> bool
    ensures { result ≡ is_at_place at (slice_get elements.now number) }
{
    match element_at(elements, number) {
        Some(element) => element.header.at == at,
        None => false,
    }
}
