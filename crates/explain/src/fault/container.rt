//! The container that a fault is about.
ghost use Rattle.std.specs.Prelude.{◌≡◌, IfOk, Some, slice_get};
ghost use Rattle.std.specs.Option.{is_some};
ghost use Rattle.explain.specs.FaultContainers.{IsContainerAt, IsContainerOf, IsNearest, IsNumberOf, end_of};

use crate::document::inside::element_at;
use crate::document::places::announced_end;
use crate::fault::location::{FaultLocation, enclosed, push_path};
use asn_names::element::NamedElement;
use reports::report::FaultContainer;
use std::alloc::{AllocError, Global};
use tlv_core::reason::Reason;

/// Of PastEnd the nearest container of definite length round the element, of Missing the one that has ended.
pub(crate) fn container_of(
    alloc: Global,
    elements: &[NamedElement],
    location: FaultLocation,
    why: Reason,
) -> Result<Option<FaultContainer>, AllocError>
    ensures { IfOk result (λ found.
        IsContainerOf elements.now why location.container location.element found) }
{
    match container_number(elements, location, why) {
        Some(number) => container_at(alloc, elements, number),
        None => Ok(None),
    }
}

fn container_number(
    elements: &[NamedElement],
    location: FaultLocation,
    why: Reason,
) -> Option<usize>
    ensures { IsNumberOf elements.now why location.container location.element result }
{
    match (why, location.container, location.element) {
        (Reason::Missing, container, _) => container,
        (Reason::PastEnd, None, Some(number)) => definite_around(elements, number),
        _ => None,
    }
}

fn container_at(
    alloc: Global,
    elements: &[NamedElement],
    number: usize,
) -> Result<Option<FaultContainer>, AllocError>
    ensures { IfOk result (λ found. IsContainerAt elements.now (Some number) found) }
{
    let Some(element) = elements.get(number) else {
        return Ok(None);
    };
    let mut path = Vec::new(alloc);
    push_path(&mut path, elements, number)?;
    Ok(Some(FaultContainer {
        path,
        at: element.header.at,
        end: announced_end(element),
    }))
}

/// The number of the nearest container of definite length around an element.
fn definite_around(elements: &[NamedElement], number: usize) -> Option<usize>
    ensures { IsNearest elements.now number result }
{
    let Some(element) = enclosed(elements, number) else {
        return None;
    };
    let around = element.around as usize;
    if has_end(elements, around) {
        return Some(around);
    }
    definite_around(elements, around)
}

fn has_end(elements: &[NamedElement], number: usize) -> bool
    ensures { result ≡ is_some (end_of (slice_get elements.now number)) }
{
    match element_at(elements, number) {
        Some(element) => announced_end(element).is_some(),
        None => false,
    }
}
