//! Of which kind octets are a document, where nobody says it.
ghost use Rattle.std.specs.Prelude.{◌≡◌, IfOk};
ghost use Rattle.explain.specs.Answers.{IsAnswer};
ghost use Rattle.explain.specs.FoundKinds.{Accepts, IsFaultAs, IsKindOf, IsLikely, fault_as};
ghost use Rattle.explain.specs.Guesses.{BeginsAs, FirstBy};
ghost use Rattle.pk_documents.specs.KindRows.{kinds};

use crate::explained::is_accepted;
use crate::fault::answer::answer_of;
use crate::guess::begins_as;
use pk_documents::kind::{KINDS, Kind};
use reports::report::Answer;
use std::alloc::{AllocError, Global};
use tlv_core::fault::Fault;
use tlv_core::limits::Limits;

/// The kind of which the octets are a document: no two accept the same octets.
pub fn kind_of(alloc: Global, octets: &[u8], limits: Limits) -> Result<Option<Kind>, AllocError>
    ensures { IfOk result (λ found. IsKindOf limits octets.now found) }
{
    first_accepting(alloc, octets, limits, &KINDS)
}

/// The first of these kinds that accepts the octets.
fn first_accepting(
    alloc: Global,
    octets: &[u8],
    limits: Limits,
    kinds: &[Kind],
) -> Result<Option<Kind>, AllocError>
    ensures { IfOk result (λ found. FirstBy (Accepts limits octets.now) kinds.now found) }
{
    let [kind, later @ ..] = kinds else {
        return Ok(None);
    };
    if accepts(alloc, octets, *kind, limits)? {
        Ok(Some(*kind))
    } else {
        first_accepting(alloc, octets, limits, later)
    }
}

/// Whether the octets are a document of the kind.
fn accepts(alloc: Global, octets: &[u8], kind: Kind, limits: Limits) -> Result<bool, AllocError>
    ensures { IfOk result (λ is. Accepts limits octets.now kind is) }
{
    let answer = answer_of(alloc, octets, kind, limits)?;
    Ok(is_accepted(answer))
}

/// The kind that the first elements of octets name that are of none, and the fault that they have as its document.
pub fn likely_kind(
    alloc: Global,
    octets: &[u8],
    limits: Limits,
) -> Result<Option<(Kind, Fault)>, AllocError>
    ensures { IfOk result (λ likely. IsLikely limits octets.now likely) }
{
    let begun = first_begun(alloc, octets, limits, &KINDS)?;
    fault_of(alloc, octets, begun, limits)
}

/// The first of these kinds as whose documents the octets begin.
fn first_begun(
    alloc: Global,
    octets: &[u8],
    limits: Limits,
    kinds: &[Kind],
) -> Result<Option<Kind>, AllocError>
    ensures { IfOk result (λ found. FirstBy (BeginsAs limits octets.now) kinds.now found) }
{
    let [kind, later @ ..] = kinds else {
        return Ok(None);
    };
    if begins_as(alloc, octets, *kind, limits)? {
        Ok(Some(*kind))
    } else {
        first_begun(alloc, octets, limits, later)
    }
}

/// The fault of the octets as a document of the kind, if there is one.
fn fault_of(
    alloc: Global,
    octets: &[u8],
    begun: Option<Kind>,
    limits: Limits,
) -> Result<Option<(Kind, Fault)>, AllocError>
    ensures { IfOk result (λ likely. IsFaultAs limits octets.now begun likely) }
{
    let Some(kind) = begun else {
        return Ok(None);
    };
    let answer = answer_of(alloc, octets, kind, limits)?;
    Ok(likely_fault(kind, answer))
}

fn likely_fault(kind: Kind, answer: Answer) -> Option<(Kind, Fault)>
    ensures { result ≡ fault_as kind answer }
{
    match answer {
        Answer::Refused(fault) => Some((kind, fault)),
        Answer::Der | Answer::NotDer(_) => None,
    }
}
