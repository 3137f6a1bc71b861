//! Where a fault lies: the element or the container, by its path from the outermost element.
ghost use Rattle.std.specs.Prelude.{◌<◌, ◌≡◌, ◌++◌, IfSome, OnOk, drop};
ghost use Rattle.std.specs.Option.{option_map};
ghost use Rattle.explain.specs.Dues.{due_at, number_due, reason_due};
ghost use Rattle.explain.specs.FaultLocations.{AddsPath, AddsPathTo, at_element, due_step, due_steps, element_with};
ghost use Rattle.explain.specs.FaultLocations.{enclosed, is_outside_of, is_sequence, key_in, location_at};
ghost use Rattle.explain.specs.FaultLocations.{number_from, own_step, private_from, unfinished, where_mismatch};
ghost use Rattle.explain.specs.FaultLocations.{where_placed};

use crate::document::inside::element_at;
use asn_names::element::{Level, Mismatch, NamedElement, Step};
use asn_names::naming::NamedElements;
use pkix_shapes::due::{FieldMatch, match_field};
use pkix_shapes::shape::{Fields, Shape};
use reports::report::Due;
use std::alloc::{AllocError, Global};
use tlv_core::reason::Reason;

/// What a fault is about among the elements of a document.
#[derive(Clone, Copy)]
pub(crate) struct FaultLocation {
    /// The number of the element at fault.
    pub(crate) element: Option<usize>,
    /// The number of the container in which something else is due.
    pub(crate) container: Option<usize>,
    /// What is due in it.
    pub(crate) level: Option<Level>,
}

/// What a fault is about, by its place and its reason.
pub(crate) fn location_at(named: &NamedElements, at: u64, why: Reason) -> FaultLocation
    ensures { result ≡ location_at named.now.elements.items named.now.mismatch at why }
{
    let elements = named.elements.as_slice();
    match why {
        Reason::Missing => mismatch_location(&named.mismatch),
        Reason::Truncated => match unfinished(elements, &named.mismatch) {
            Some(number) => element_location(number),
            None => mismatch_location(&named.mismatch),
        },
        Reason::Trailing => FaultLocation {
            element: None,
            container: None,
            level: None,
        },
        Reason::KeyLength => match number_at(elements, at) {
            Some(number) => element_location(key_in(elements, number)),
            None => mismatch_location(&named.mismatch),
        },
        _ => match number_at(elements, at) {
            Some(number) => placed_location(elements, number, &named.mismatch),
            None => mismatch_location(&named.mismatch),
        },
    }
}

/// The number of the key in the SEQUENCE of this number: of the first private element after it.
fn key_in(elements: &[NamedElement], number: usize) -> usize
    ensures { result ≡ key_in elements.now number }
{
    match elements.get(number) {
        Some(element) if is_sequence(element) => match private_at(elements, number) {
            Some(found) => found,
            None => number,
        },
        _ => number,
    }
}

/// The number of the first private element from this number on.
fn private_at(elements: &[NamedElement], number: usize) -> Option<usize>
    ensures { result ≡ private_from number (drop number elements.now) }
{
    for i in number..elements.len() {
        if elements[i].private {
            return Some(i);
        }
    }
    None
}

fn is_sequence(element: &NamedElement) -> bool
    ensures { result ≡ is_sequence element.now }
{
    match element.shape {
        Some(Shape::Sequence(_, _)) => true,
        _ => false,
    }
}

fn element_location(number: usize) -> FaultLocation
    ensures { result ≡ at_element number }
{
    FaultLocation {
        element: Some(number),
        container: None,
        level: None,
    }
}

/// An element that has its place in the type, or in whose place something else is due.
fn placed_location(elements: &[NamedElement], number: usize, mismatch: &Mismatch) -> FaultLocation
    ensures { result ≡ where_placed elements.now number mismatch.now }
{
    if !is_outside(elements.get(number)) {
        return element_location(number);
    }
    FaultLocation {
        element: Some(number),
        ..mismatch_location(mismatch)
    }
}

/// Whether an element has no place in the type.
pub(crate) fn is_outside(element: Option<&NamedElement>) -> bool
    ensures { result ≡ is_outside_of (option_map (λ r. r.now) element.entry) }
{
    match element {
        Some(element) => match element.step {
            Step::Outside => true,
            _ => false,
        },
        None => false,
    }
}

/// The container in which the elements stop matching the type.
fn mismatch_location(mismatch: &Mismatch) -> FaultLocation
    ensures { result ≡ where_mismatch mismatch.now }
{
    let (container, level) = match mismatch {
        Mismatch::Nowhere | Mismatch::Outermost | Mismatch::Stopped(None) => (None, None),
        Mismatch::Unplaced(container, level) => (Some(*container as usize), Some(*level)),
        Mismatch::Missing(container, level) => (Some(*container as usize), Some(*level)),
        Mismatch::Stopped(Some((container, level))) => (Some(*container as usize), Some(*level)),
    };
    FaultLocation {
        element: None,
        container,
        level,
    }
}

/// The number of the element whose identifier is at this place.
fn number_at(elements: &[NamedElement], at: u64) -> Option<usize>
    ensures { result ≡ number_from 0 at elements.now }
{
    for i in 0..elements.len() {
        if elements[i].header.at == at {
            return Some(i);
        }
    }
    None
}

/// The element whose identifier is at this place.
pub(crate) fn element_with(elements: &[NamedElement], at: u64) -> Option<&NamedElement>
    ensures { option_map (λ r. r.now) result ≡ element_with elements.now at }
{
    match number_at(elements, at) {
        Some(number) => element_at(elements, number),
        None => None,
    }
}

/// The number of the last element, where its length or its contents aren't whole.
fn unfinished(elements: &[NamedElement], mismatch: &Mismatch) -> Option<usize>
    ensures { result ≡ unfinished elements.now mismatch.now }
{
    let Some(last) = elements.last() else {
        return None;
    };
    let number = elements.len() - 1;
    match mismatch {
        Mismatch::Stopped(Some((container, _))) if *container == number as u64 => None,
        _ if last.end.is_none() => Some(number),
        _ => None,
    }
}

/// What is due: what may come next in the container at fault; else the outermost type, where another tag stands; else
/// the element's own type, where that has the wrong form.
pub(crate) fn due_of(
    elements: &[NamedElement],
    location: FaultLocation,
    why: Reason,
    root: &'static Shape,
) -> Due
    ensures { result ≡ due_at elements.now location why root.entry }
{
    match location.level {
        Some(Level::Fields(fields)) => Due::Fields(fields),
        Some(Level::Members(shape, _, _)) => Due::Type(shape),
        _ => reason_due(elements, location, why, root),
    }
}

fn reason_due(
    elements: &[NamedElement],
    location: FaultLocation,
    why: Reason,
    root: &'static Shape,
) -> Due
    ensures { result ≡ reason_due elements.now location why location.container root.entry }
{
    match (why, location.container) {
        (Reason::WrongTag, None) => Due::Type(root),
        (Reason::WrongForm, _) => number_due(elements, location.element),
        _ => Due::Unsaid,
    }
}

/// A value of the element's own type.
fn number_due(elements: &[NamedElement], number: Option<usize>) -> Due
    ensures { result ≡ number_due elements.now number }
{
    let Some(number) = number else {
        return Due::Unsaid;
    };
    match element_at(elements, number) {
        Some(element) => match element.shape {
            Some(shape) => Due::Type(shape),
            None => Due::Unsaid,
        },
        None => Due::Unsaid,
    }
}

/// The steps from the outermost element to one of the elements, the outermost one's own left out.
pub(crate) fn push_path(
    path: &mut Vec<Step>,
    elements: &[NamedElement],
    number: usize,
) -> Result<(), AllocError>
    ensures { OnOk result (AddsPath elements.now number path.old.items path.new.items) }
{
    let Some(element) = enclosed(elements, number) else {
        return Ok(());
    };
    push_path(path, elements, element.around as usize)?;
    push_step(path, element.step)?;
    Ok(())
}

/// The element of this number, where another one is around it.
pub(crate) fn enclosed(elements: &[NamedElement], number: usize) -> Option<&NamedElement>
    ensures enclosed { option_map (λ r. r.now) result ≡ enclosed elements.now number }
    ensures before { IfSome result (λ element. element.now.around < number) }
{
    match elements.get(number) {
        Some(element) if element.header.depth > 0 && (element.around as usize) < number => {
            Some(element)
        }
        _ => None,
    }
}

/// The step of an element that has its place.
fn push_step(path: &mut Vec<Step>, step: Step) -> Result<(), AllocError>
    ensures { OnOk result (path.new.items ≡ path.old.items ++ own_step step) }
{
    match step {
        Step::Outside => Ok(()),
        Step::Outermost | Step::Field(_) | Step::Member(_) | Step::Segment(_) => {
            path.push(step)?;
            Ok(())
        }
    }
}

/// The steps to what a fault is about: to the element; to the field that is due in its place; to the container.
pub(crate) fn push_location_path(
    path: &mut Vec<Step>,
    elements: &[NamedElement],
    location: FaultLocation,
) -> Result<(), AllocError>
    ensures { OnOk result (AddsPathTo elements.now location path.old.items path.new.items) }
{
    match (location.container, location.element) {
        (Some(container), Some(number)) => {
            push_path(path, elements, container)?;
            push_due_steps(path, location.level, element_at(elements, number))?;
            Ok(())
        }
        (Some(container), None) => push_path(path, elements, container),
        (None, Some(number)) => push_path(path, elements, number),
        (None, None) => Ok(()),
    }
}

fn push_due_steps(
    path: &mut Vec<Step>,
    level: Option<Level>,
    element: Option<&NamedElement>,
) -> Result<(), AllocError>
    ensures { OnOk result (path.new.items
        ≡ path.old.items ++ due_steps level (option_map (λ r. r.now) element.entry)) }
{
    match (level, element) {
        (Some(level), Some(element)) => push_due_step(path, level, element),
        _ => Ok(()),
    }
}

/// The step to the field or member that is due in the place of an element.
fn push_due_step(
    path: &mut Vec<Step>,
    level: Level,
    element: &NamedElement,
) -> Result<(), AllocError>
    ensures { OnOk result (path.new.items
        ≡ path.old.items ++ due_step level element.now.header.tag) }
{
    let step = match level {
        Level::Fields(fields) => match match_field(fields, element.header.tag) {
            FieldMatch::Field(name, _, _) | FieldMatch::Wrong(name, _) => Step::Field(name),
            FieldMatch::Extra => return Ok(()),
        },
        Level::Members(_, _, number) => Step::Member(number),
        Level::Segments(number) => Step::Segment(number),
    };
    path.push(step)?;
    Ok(())
}
