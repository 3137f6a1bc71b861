//! Octets that have to be one document, all of them.
ghost use Rattle.std.specs.Prelude.{◌≡◌, IfErr, IfOk};
ghost use Rattle.pk_documents.specs.Encodings.{IsEncoding, octets_of};
ghost use Rattle.pk_documents.specs.Kinds.{type_of};
ghost use Rattle.pk_documents.specs.RequestParts.{part_of};
ghost use Rattle.pk_documents.specs.declared.kind.Kind.TheVariants.{Request as request_kind};
ghost use Rattle.pk_show.specs.Shown.{document_lines};
ghost use Rattle.explain.specs.Received.{Received};
ghost use Rattle.explain.specs.Written.{IsFieldOf, IsWritten};
ghost use Rattle.pkder_c.specs.Wholes.{WholeChecked, WholeLines, WholePairRefused, WholePart, WholeRefused};
ghost use Rattle.pkder_c.specs.Wholes.{WholeSame, WholeWritten};
ghost use Rattle.pkder_c.specs.declared.refusal.Refusal.TheVariants.{Memory};

use crate::refusal::{PairRefusal, Refusal, first_refused, second_refused, unread};
use asn_documents::whole::read_whole_input;
use asn_elements::der_text::DerText;
use explain::received::{RequestPart, received};
use explain::written::{Form, explain_text, explained_field};
use pk_documents::check::check_whole_document;
use pk_documents::document::{Document, Valued, read_whole_document};
use pk_documents::encoding::{Encoding, encoding_of};
use pk_documents::kind::Kind;
use pk_documents::request_part::{Part, write_part};
use pk_show::show_text;
use pkcs10::request::CertificationRequest;
use reports::report::Answer;
use std::alloc::Global;
use tlv_core::limits::Limits;
use tlv_core::target::ToWrite;

/// The document's DER text.
pub fn whole_text<'a>(
    alloc: Global,
    kind: Kind,
    limits: Limits,
    src: &'a [u8],
) -> Result<Encoding<'a>, Refusal>
    ensures text { IfOk result (λ text. IsEncoding limits (type_of kind) src.now (octets_of text)) }
    ensures refused { IfErr result (WholeRefused limits (type_of kind) src.now) }
{
    match encoding_of(alloc, src, kind, limits) {
        Ok(Ok(encoding)) => Ok(encoding),
        Ok(Err(fault)) => Err(Refusal::Fault(fault)),
        Err(_) => Err(Refusal::Memory),
    }
}

/// The first place where the document isn't in DER.
pub fn whole_place(
    alloc: Global,
    kind: Kind,
    limits: Limits,
    src: &[u8],
) -> Result<Option<u64>, Refusal>
    ensures place { IfOk result (WholeChecked limits (type_of kind) src.now) }
    ensures refused { IfErr result (WholeRefused limits (type_of kind) src.now) }
{
    let mut rest = src;
    match check_whole_document(alloc, &mut rest, kind, limits) {
        Ok((_taken, place)) => Ok(place),
        Err(error) => Err(unread(&error)),
    }
}

/// Whether the two documents are the same.
pub fn whole_same(
    alloc: Global,
    kind: Kind,
    limits: Limits,
    first: &[u8],
    second: &[u8],
) -> Result<bool, PairRefusal>
    ensures same { IfOk result (WholeSame limits (type_of kind) first.now second.now) }
    ensures refused { IfErr result (WholePairRefused limits (type_of kind) first.now second.now) }
{
    let text = match whole_text(alloc, kind, limits, first) {
        Ok(text) => text,
        Err(refusal) => return Err(first_refused(&refusal)),
    };
    match whole_text(alloc, kind, limits, second) {
        Ok(other) => Ok(text.octets() == other.octets()),
        Err(refusal) => Err(second_refused(&refusal)),
    }
}

/// The document's lines.
pub fn whole_lines(
    alloc: Global,
    kind: Kind,
    limits: Limits,
    src: &[u8],
) -> Result<Vec<u8>, Refusal>
    ensures lines { IfOk result (λ text. WholeLines ⟦<Document as Valued>⟧.value limits kind src.now
        text.items) }
    ensures refused { IfErr result (WholeRefused limits (type_of kind) src.now) }
{
    let mut rest = src;
    match read_whole_document(alloc, &mut rest, kind, limits) {
        Ok((document, _taken)) => lines_text(alloc, &document),
        Err(error) => Err(unread(&error)),
    }
}

/// The lines of a document.
fn lines_text(alloc: Global, document: &Document) -> Result<Vec<u8>, Refusal>
    ensures lines { IfOk result (λ text. text.items ≡ document_lines document.now) }
    ensures memory { IfErr result (λ refusal. refusal ≡ Memory) }
{
    match show_text(alloc, document) {
        Ok(text) => Ok(text.into_bytes()),
        Err(_) => Err(Refusal::Memory),
    }
}

/// A part of the request.
pub fn whole_part(
    alloc: Global,
    part: RequestPart,
    limits: Limits,
    src: &[u8],
) -> Result<Vec<u8>, Refusal>
    ensures part { IfOk result (λ text. WholePart limits part src.now text.items) }
    ensures refused { IfErr result (WholeRefused limits (type_of request_kind) src.now) }
{
    match part {
        RequestPart::Written(part) => whole_written(alloc, part, limits, src),
        RequestPart::Received => whole_received(alloc, limits, src),
    }
}

/// The octets of certificationRequestInfo as they came.
fn whole_received(alloc: Global, limits: Limits, src: &[u8]) -> Result<Vec<u8>, Refusal>
    ensures part { IfOk result (λ text. Received limits src.now text.items) }
    ensures refused { IfErr result (WholeRefused limits (type_of request_kind) src.now) }
{
    match received(alloc, src, limits) {
        Ok(octets) => copy_of(alloc, octets),
        Err(error) => Err(unread(&error)),
    }
}

/// The same octets.
fn copy_of(alloc: Global, octets: &[u8]) -> Result<Vec<u8>, Refusal>
    ensures same { IfOk result (λ copy. copy.items ≡ octets.now) }
    ensures memory { IfErr result (λ refusal. refusal ≡ Memory) }
{
    let mut copy = Vec::new(alloc);
    match copy.extend_from_slice(octets) {
        Ok(()) => Ok(copy),
        Err(_) => Err(Refusal::Memory),
    }
}

/// A part of the request that is written of what it says.
fn whole_written(alloc: Global, part: Part, limits: Limits, src: &[u8]) -> Result<Vec<u8>, Refusal>
    ensures part { IfOk result (λ text. WholeWritten limits part src.now text.items) }
    ensures refused { IfErr result (WholeRefused limits (type_of request_kind) src.now) }
{
    let mut rest = src;
    match read_whole_input::<&[u8], CertificationRequest>(alloc, &mut rest, limits) {
        Ok((request, _taken)) => part_text(alloc, &request, part),
        Err(error) => Err(unread(&error)),
    }
}

/// A part of a request.
fn part_text(alloc: Global, request: &CertificationRequest, part: Part) -> Result<Vec<u8>, Refusal>
    ensures part { IfOk result (λ text. text.items
        ≡ part_of part (⟦<CertificationRequest as DerText>⟧.value request.now)) }
    ensures memory { IfErr result (λ refusal. refusal ≡ Memory) }
{
    let mut target = ToWrite::new(Vec::new(alloc));
    match write_part(request, part, &mut target) {
        Ok(_) => Ok(target.into_inner()),
        Err(_) => Err(Refusal::Memory),
    }
}

/// The report of the octets, and the answer of `check` in it.
pub fn whole_report(
    alloc: Global,
    kind: Kind,
    limits: Limits,
    form: Form,
    src: &[u8],
) -> Result<(Vec<u8>, Answer), Refusal>
    ensures report { IfOk result (λ made. IsWritten form limits kind src.now made.0.items made.1) }
    ensures memory { IfErr result (λ refusal. refusal ≡ Memory) }
{
    match explain_text(alloc, src, kind, limits, form) {
        Ok((text, answer)) => Ok((text.into_bytes(), answer)),
        Err(_) => Err(Refusal::Memory),
    }
}

/// The field that the report of the octets is about, and the answer of `check` in it.
pub fn whole_field(
    alloc: Global,
    kind: Kind,
    limits: Limits,
    src: &[u8],
) -> Result<(Vec<u8>, Answer), Refusal>
    ensures field { IfOk result (λ made. IsFieldOf limits kind src.now made.0.items made.1) }
    ensures memory { IfErr result (λ refusal. refusal ≡ Memory) }
{
    match explained_field(alloc, src, kind, limits) {
        Ok((text, answer)) => Ok((text.into_bytes(), answer)),
        Err(_) => Err(Refusal::Memory),
    }
}
