//! What a report may show of a document: all that one is made of.
ghost use Rattle.std.specs.Prelude.{None, [], ◌≡◌, IfOk, OnOk, length, take};
ghost use Rattle.explain.specs.Afters.{IsAfter};
ghost use Rattle.explain.specs.Disclosures.{AddsFaultPath, AddsInnerPath, IsDisclosed, IsDisclosedPath, IsRefused};
ghost use Rattle.explain.specs.Disclosures.{disclosed_class, is_near, names_in, says_field};
ghost use Rattle.reports.specs.declared.report.After.TheVariants.{Unsaid};
ghost use Rattle.reports.specs.declared.report.Answer.TheVariants.{Refused};

use crate::document::inside::{Inside, InsideSearch, documents_inside, inside_at, named_elements};
use crate::document::kinds::shape_of;
use crate::fault::after::after_of;
use crate::fault::answer::answer_of;
use crate::fault::class::class_at;
use crate::fault::location::{location_at, push_location_path, push_path};
use crate::guess::guess_of;
use crate::listing::fault_line::is_between;
use crate::listing::front::front_size;
use asn_names::element::{NamedElement, Step};
use asn_names::naming::NamedElements;
use pk_documents::kind::Kind;
use reports::report::{After, Answer, Guess};
use std::alloc::{AllocError, Global};
use tlv_core::fault::Fault;
use tlv_core::limits::Limits;
use tlv_core::reason::Reason;

/// What a report may show of a document. What else its octets say no report shows.
#[derive(Drop)]
pub(crate) struct Disclosed<'a> {
    /// How many octets the file has.
    pub(crate) octets: u64,
    /// What `check` answers.
    pub(crate) answer: Answer,
    /// Its first octets: all of a document that is accepted, of another one as far as they are usual.
    pub(crate) front: &'a [u8],
    /// Of one that is refused: the steps to what is refused, and of what class that is.
    pub(crate) path: Vec<Step>,
    pub(crate) class: Option<u8>,
    pub(crate) guess: Guess,
    /// What the octets after the document are.
    pub(crate) after: After,
}

/// What may be shown of octets that have to be one document of the kind.
#[tactic(auto, using(crate::proofs::Disclosing::refused_disclosed, crate::proofs::Disclosing::der_disclosed, crate::proofs::Disclosing::not_der_disclosed,))]
pub(crate) fn disclose(
    alloc: Global,
    octets: &[u8],
    kind: Kind,
    limits: Limits,
) -> Result<Disclosed<'_>, AllocError>
    ensures { IfOk result (λ disclosed. IsDisclosed limits kind octets.now disclosed) }
{
    let answer = answer_of(alloc, octets, kind, limits)?;
    let guess = guess_of(alloc, octets, kind, limits, answer)?;
    match answer {
        Answer::Refused(fault) => of_refused(alloc, octets, kind, limits, fault, guess),
        Answer::Der | Answer::NotDer(_) => Ok(of_accepted(alloc, octets, answer, guess)),
    }
}

/// Of a document that is accepted.
fn of_accepted(alloc: Global, octets: &[u8], answer: Answer, guess: Guess) -> Disclosed<'_>
    ensures octets { result.octets ≡ length octets.now }
    ensures answer { result.answer ≡ answer }
    ensures front { result.front.now ≡ octets.now }
    ensures path { result.path.items ≡ [] }
    ensures class { result.class ≡ None }
    ensures guess { result.guess ≡ guess }
    ensures after { result.after ≡ Unsaid }
{
    Disclosed {
        octets: octets.len() as u64,
        answer,
        front: octets,
        path: Vec::new(alloc),
        class: None,
        guess,
        after: After::Unsaid,
    }
}

/// Of one that is refused.
fn of_refused(
    alloc: Global,
    octets: &[u8],
    kind: Kind,
    limits: Limits,
    fault: Fault,
    guess: Guess,
) -> Result<Disclosed<'_>, AllocError>
    ensures octets { IfOk result (λ disclosed. disclosed.octets ≡ length octets.now) }
    ensures answer { IfOk result (λ disclosed. disclosed.answer ≡ Refused fault) }
    ensures shown { IfOk result (λ disclosed. IsRefused limits kind octets.now fault disclosed.front.now
        disclosed.path.items disclosed.class) }
    ensures guess { IfOk result (λ disclosed. disclosed.guess ≡ guess) }
    ensures after { IfOk result (λ disclosed. IsAfter limits kind octets.now (Refused fault) disclosed.after) }
{
    let named = named_elements(alloc, octets, shape_of(kind), limits)?;
    let elements = named.elements.as_slice();
    let search = InsideSearch {
        limits,
        in_extensions: false,
    };
    let insides = documents_inside(alloc, octets, elements, &search)?;
    let size = front_size(octets, elements, &named.mismatch, fault.at);
    let front = first_octets(octets, size);
    let after = after_of(alloc, octets, kind, limits, fault)?;
    let path = disclosed_path(alloc, &named, insides.as_slice(), fault, front)?;
    Ok(Disclosed {
        octets: octets.len() as u64,
        answer: Answer::Refused(fault),
        front,
        path,
        class: disclosed_class(octets, fault),
        guess,
        after,
    })
}

/// The first octets, so many.
fn first_octets(octets: &[u8], count: u64) -> &[u8]
    ensures { result.now ≡ take count octets.now }
{
    if count < octets.len() as u64 {
        &octets[..count as usize]
    } else {
        octets
    }
}

/// Whether a fault is in the file, and no more comes before it than the front.
pub(crate) fn is_near(fault: Fault, front: &[u8]) -> bool
    ensures { result ≡ is_near fault (length front.now) }
{
    match fault.inside {
        Some(_) => false,
        None => fault.at <= front.len() as u64 && !says_field(fault.why),
    }
}

/// Whether the reason alone says which field is refused.
fn says_field(why: Reason) -> bool
    ensures { result ≡ says_field why }
{
    match why {
        Reason::VersionRule | Reason::KeyLength => true,
        _ => false,
    }
}

/// The class of what is at a fault in the file.
fn disclosed_class(octets: &[u8], fault: Fault) -> Option<u8>
    ensures { result ≡ disclosed_class octets.now fault }
{
    match fault.inside {
        None if !is_between(fault.why) => class_at(octets, fault.at),
        _ => None,
    }
}

/// The steps to what is refused; the names of fields alone, where more comes before it than the front.
#[tactic(auto, using(crate::proofs::Steps::path_disclosed, crate::proofs::Steps::path_named))]
fn disclosed_path(
    alloc: Global,
    named: &NamedElements,
    insides: &[Inside],
    fault: Fault,
    front: &[u8],
) -> Result<Vec<Step>, AllocError>
    ensures { IfOk result (λ path. IsDisclosedPath named.now.elements.items named.now.mismatch insides.now
        fault (length front.now) path.items) }
{
    let mut path = Vec::new(alloc);
    push_fault_path(&mut path, named, insides, fault)?;
    if is_near(fault, front) {
        Ok(path)
    } else {
        names_of(alloc, path.as_slice())
    }
}

/// The steps to what is refused.
#[tactic(auto, using(crate::proofs::Steps::path_outside, crate::proofs::Steps::path_around, crate::proofs::Steps::path_inside,))]
fn push_fault_path(
    path: &mut Vec<Step>,
    named: &NamedElements,
    insides: &[Inside],
    fault: Fault,
) -> Result<(), AllocError>
    ensures { OnOk result (AddsFaultPath named.now.elements.items named.now.mismatch insides.now
        fault path.old.items path.new.items) }
{
    let elements = named.elements.as_slice();
    let location = location_at(named, fault.at, fault.why);
    let Some((at, why)) = fault.inside else {
        return push_location_path(path, elements, location);
    };
    match inside_at(elements, insides, fault.at) {
        Some(inside) => push_path_inside(path, elements, inside, at, why),
        None => push_location_path(path, elements, location),
    }
}

/// The steps to the element that a document is inside, and from there to what is refused in it.
#[tactic(auto, using(crate::proofs::Steps::path_in))]
fn push_path_inside(
    path: &mut Vec<Step>,
    elements: &[NamedElement],
    inside: &Inside,
    at: u64,
    why: Reason,
) -> Result<(), AllocError>
    ensures { OnOk result
        (AddsInnerPath elements.now inside.now at why path.old.items path.new.items) }
{
    push_path(path, elements, inside.container)?;
    let location = location_at(&inside.named, at, why);
    push_location_path(path, inside.named.elements.as_slice(), location)
}

/// The steps among these that are names of fields.
fn names_of(alloc: Global, path: &[Step]) -> Result<Vec<Step>, AllocError>
    ensures { IfOk result (λ names. names.items ≡ names_in path.now) }
{
    let mut names = Vec::new(alloc);
    let mut left = path;
    while let [step, rest @ ..] = left {
        if let Step::Field(_) = step {
            names.push(*step)?;
        }
        left = rest;
    }
    Ok(names)
}
