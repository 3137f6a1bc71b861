//! What is shown of a fault: by what may be shown of the document, and by the elements of its front.
ghost use Rattle.std.specs.Prelude.{◌≡◌, IfOk};
ghost use Rattle.explain.specs.FaultContainers.{found_of};
ghost use Rattle.explain.specs.Dues.{is_of_type};
ghost use Rattle.explain.specs.Faults.{IsDiagnosis, IsDiagnosisIf, IsFaultContainer, case_with, due_in};
ghost use Rattle.explain.specs.Faults.{found_in_place, line_in, more_in, place_in_file, with_class};

use crate::disclosed::is_near;
use crate::fault::class::class_of;
use crate::fault::container::container_of;
use crate::fault::location::{FaultLocation, due_of, location_at};
use crate::fault::over::over_of;
use crate::listing::fault_line::{is_between, line_at};
use asn_names::element::Step;
use asn_names::naming::NamedElements;
use pkix_shapes::shape::Shape;
use reports::report::{Answer, Diagnosis, Due, FaultContainer, Found, Line, Value};
use std::alloc::{AllocError, Global};
use tlv_core::fault::Fault;
use tlv_core::reason::Reason;

/// A document by its front and the lines of that.
#[derive(Clone, Copy)]
pub(crate) struct RefusedFront<'a> {
    pub(crate) root: &'static Shape,
    /// The elements of the front.
    pub(crate) named: &'a NamedElements,
    /// How many octets the file has.
    pub(crate) octets: u64,
    pub(crate) front: &'a [u8],
    pub(crate) class: Option<u8>,
    pub(crate) lines: &'a [Line],
}

/// What is shown of the fault of a document, where it is refused; these steps lead to it.
pub(crate) fn diagnose(
    alloc: Global,
    answer: Answer,
    refused: RefusedFront<'_>,
    path: Vec<Step>,
) -> Result<Option<Diagnosis>, AllocError>
    ensures { IfOk result (λ diagnosis. IsDiagnosisIf answer (case_with refused.entry) path.items diagnosis) }
{
    match answer {
        Answer::Refused(fault) => {
            let diagnosis = diagnosis_of(alloc, fault, refused, path)?;
            Ok(Some(diagnosis))
        }
        Answer::Der | Answer::NotDer(_) => Ok(None),
    }
}

/// What is shown of the fault that a document is refused for, to which these steps lead.
fn diagnosis_of(
    alloc: Global,
    fault: Fault,
    refused: RefusedFront<'_>,
    path: Vec<Step>,
) -> Result<Diagnosis, AllocError>
    ensures { IfOk result (λ diagnosis. IsDiagnosis (case_with refused.entry fault) path.items diagnosis) }
{
    let location = location_at(refused.named, fault.at, fault.why);
    let line = own_line(fault, refused);
    let found = own_found(fault, refused, line);
    let mut diagnosis = Diagnosis {
        file_at: place_in_file(fault),
        path,
        line,
        due: own_due(fault, refused, location),
        found,
        container: fault_container(alloc, fault, refused, location)?,
        over: None,
        more: more_of(fault, refused),
    };
    diagnosis.over = over_of(
        fault.why,
        refused.octets,
        &diagnosis.container,
        diagnosis.found,
    );
    Ok(diagnosis)
}

/// The place of a fault in the file.
fn place_in_file(fault: Fault) -> Option<u64>
    ensures { result ≡ place_in_file fault }
{
    match fault.inside {
        None => Some(fault.at),
        Some(_) => None,
    }
}

/// The number of the line of the element at fault.
fn own_line(fault: Fault, refused: RefusedFront<'_>) -> Option<u64>
    ensures { result ≡ line_in (case_with refused.entry fault) }
{
    if is_between(fault.why) {
        None
    } else {
        line_at(refused.lines, fault.at)
    }
}

/// What is there: by the line, else by its class. Of a fault inside an OCTET STRING nothing is shown.
fn own_found(fault: Fault, refused: RefusedFront<'_>, line: Option<u64>) -> Option<Found>
    ensures { result ≡ found_in_place (case_with refused.entry fault) line }
{
    if fault.inside.is_some() {
        return None;
    }
    match found_of(refused.lines, line) {
        None => with_class(fault.at, refused.class),
        found => found,
    }
}

/// An element at a place by the class that its identifier octet says.
fn with_class(at: u64, identifier: Option<u8>) -> Option<Found>
    ensures { result ≡ with_class at identifier }
{
    let Some(identifier) = identifier else {
        return None;
    };
    match class_of(identifier) {
        Some(class) => Some(Found {
            at,
            tag: class.tag,
            constructed: class.constructed,
            length: None,
        }),
        None => None,
    }
}

/// The header of a line, where it is shown.
fn found_of(lines: &[Line], number: Option<u64>) -> Option<Found>
    ensures { result ≡ found_of lines.now number }
{
    let Some(number) = number else {
        return None;
    };
    let Some(line) = lines.get(number as usize) else {
        return None;
    };
    match line.value {
        Value::NotShown => None,
        _ => Some(Found {
            at: line.at,
            tag: line.tag,
            constructed: line.constructed,
            length: line.length,
        }),
    }
}

/// What may be at the fault, where no more comes before it than the front and its type is at fault.
fn own_due(fault: Fault, refused: RefusedFront<'_>, location: FaultLocation) -> Due
    ensures { result ≡ due_in (case_with refused.entry fault) location }
{
    let why = fault.why;
    if is_near(fault, refused.front) && is_of_type(why) {
        due_of(
            refused.named.elements.as_slice(),
            location,
            why,
            refused.root,
        )
    } else {
        Due::Unsaid
    }
}

/// Whether the type of an element is at fault.
fn is_of_type(why: Reason) -> bool
    ensures { result ≡ is_of_type why }
{
    match why {
        Reason::WrongTag | Reason::Extra | Reason::Missing => true,
        _ => false,
    }
}

/// How many octets follow the document, where that is its fault.
fn more_of(fault: Fault, refused: RefusedFront<'_>) -> Option<u64>
    ensures { result ≡ more_in (case_with refused.entry fault) }
{
    match fault.why {
        Reason::Trailing if fault.at <= refused.octets => Some(refused.octets - fault.at),
        _ => None,
    }
}

/// The container that a fault is about, where no more comes before it than the front.
fn fault_container(
    alloc: Global,
    fault: Fault,
    refused: RefusedFront<'_>,
    location: FaultLocation,
) -> Result<Option<FaultContainer>, AllocError>
    ensures { IfOk result (λ container. IsFaultContainer (case_with refused.entry fault) location container) }
{
    if is_near(fault, refused.front) {
        let elements = refused.named.elements.as_slice();
        container_of(alloc, elements, location, fault.why)
    } else {
        Ok(None)
    }
}
