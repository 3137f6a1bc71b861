//! What the octets after a refused document are, as far as a report shows it.
ghost use Rattle.std.specs.Prelude.{IfOk, ◌≡◌, drop};
ghost use Rattle.std.specs.List.{list_all};
ghost use Rattle.explain.specs.Afters.{IsAfter, IsAfterBy, IsAnyDocument, is_after_end, is_cr_lf, is_document_shown};
ghost use Rattle.explain.specs.Afters.{is_line_feed, is_not_shown, is_trailing, is_zero, plain_after};
ghost use Rattle.reports.specs.declared.report.Answer.TheVariants.{Refused};

use crate::document::kinds::words_of;
use crate::guess::{begins_as, guess_document};
use pk_documents::kind::Kind;
use reports::report::{After, Guess};
use std::alloc::{AllocError, Global};
use tlv_core::fault::Fault;
use tlv_core::limits::Limits;
use tlv_core::reason::Reason;

/// What the octets after a document are that is refused for this fault.
pub(crate) fn after_of(
    alloc: Global,
    octets: &[u8],
    kind: Kind,
    limits: Limits,
    fault: Fault,
) -> Result<After, AllocError>
    ensures { IfOk result (λ after. IsAfter limits kind octets.now (Refused fault) after) }
{
    if is_after_end(fault) {
        after_by(alloc, octets_from(octets, fault.at), kind, limits)
    } else {
        Ok(After::Unsaid)
    }
}

/// Whether octets come after the document, and not after one inside it.
fn is_after_end(fault: Fault) -> bool
    ensures { result ≡ is_after_end fault }
{
    fault.inside.is_none() && is_trailing(fault.why)
}

fn is_trailing(why: Reason) -> bool
    ensures { result ≡ is_trailing why }
{
    match why {
        Reason::Trailing => true,
        _ => false,
    }
}

/// The octets from a place on.
fn octets_from(octets: &[u8], place: u64) -> &[u8]
    ensures { result.now ≡ drop place octets.now }
{
    if place <= octets.len() as u64 {
        &octets[place as usize..]
    } else {
        &octets[octets.len()..]
    }
}

/// What the octets after a document of this kind are.
fn after_by(alloc: Global, octets: &[u8], kind: Kind, limits: Limits) -> Result<After, AllocError>
    ensures { IfOk result (λ after. IsAfterBy limits kind octets.now after) }
{
    if is_document_shown(kind, octets) {
        let guess = any_document(alloc, octets, kind, limits)?;
        Ok(After::Document(guess))
    } else {
        Ok(plain_after(octets))
    }
}

/// Whether they are others than an end of line or zeros, and can't be those of a private key's kind.
fn is_document_shown(kind: Kind, octets: &[u8]) -> bool
    ensures { result ≡ is_document_shown kind octets.now }
{
    !kind.may_be_private() && is_not_shown(plain_after(octets))
}

/// The document that octets are: of this kind, or another one.
fn any_document(
    alloc: Global,
    octets: &[u8],
    kind: Kind,
    limits: Limits,
) -> Result<Guess, AllocError>
    ensures { IfOk result (λ guess. IsAnyDocument limits kind octets.now guess) }
{
    if begins_as(alloc, octets, kind, limits)? {
        Ok(Guess::Kind(words_of(kind)))
    } else {
        guess_document(alloc, octets, kind, limits)
    }
}

/// All that is shown of octets after a document that may be private.
fn plain_after(octets: &[u8]) -> After
    ensures { result ≡ plain_after octets.now }
{
    if is_line_feed(octets) {
        After::LineFeed
    } else if is_cr_lf(octets) {
        After::CrLf
    } else if are_zeros(octets) {
        After::Zeros
    } else {
        After::NotShown
    }
}

fn is_not_shown(after: After) -> bool
    ensures { result ≡ is_not_shown after }
{
    match after {
        After::NotShown => true,
        _ => false,
    }
}

fn is_line_feed(octets: &[u8]) -> bool
    ensures { result ≡ is_line_feed octets.now }
{
    match octets {
        [a] => *a == b'\n',
        _ => false,
    }
}

fn is_cr_lf(octets: &[u8]) -> bool
    ensures { result ≡ is_cr_lf octets.now }
{
    match octets {
        [a, b] => *a == b'\r' && *b == b'\n',
        _ => false,
    }
}

fn are_zeros(octets: &[u8]) -> bool
    ensures { result ≡ list_all is_zero octets.now }
{
    octets.iter().all(|octet| is_zero(*octet))
}

fn is_zero(octet: u8) -> bool
    ensures { result ≡ is_zero octet }
{
    octet == 0
}
