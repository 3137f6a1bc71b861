//! Documents by arguments that are numbers.
ghost use Rattle.std.specs.Prelude.{IfErr, IfOk};
ghost use Rattle.pk_documents.specs.Encodings.{octets_of};
ghost use Rattle.pkder_c.specs.Calls.{AreLines, FieldRefused, IsField, IsPartText, IsPlace, IsReport, IsSame, IsText};
ghost use Rattle.pkder_c.specs.Calls.{KindRefused, PairRefused, PartRefused, ReportRefused};

use crate::numbers::{form_of, kind_of, limits_of, request_part_of};
use crate::refusal::{PairRefusal, Refusal};
use crate::whole::{
    whole_field, whole_lines, whole_part, whole_place, whole_report, whole_same, whole_text,
};
use pk_documents::document::{Document, Valued};
use pk_documents::encoding::Encoding;
use reports::report::Answer;
use std::alloc::Global;

/// The document's DER text.
pub fn text_of<'a>(
    alloc: Global,
    kind: u32,
    depth: u32,
    octets: u64,
    src: &'a [u8],
) -> Result<Encoding<'a>, Refusal>
    ensures text { IfOk result (λ text. IsText kind
        (record { depth = depth; octets = octets }) src.now (octets_of text)) }
    ensures refused { IfErr result (KindRefused kind
        (record { depth = depth; octets = octets }) src.now) }
{
    let Some(document) = kind_of(kind) else {
        return Err(Refusal::Call);
    };
    let Some(limits) = limits_of(depth, octets) else {
        return Err(Refusal::Call);
    };
    whole_text(alloc, document, limits, src)
}

/// The first place where the document isn't in DER.
pub fn place_of(
    alloc: Global,
    kind: u32,
    depth: u32,
    octets: u64,
    src: &[u8],
) -> Result<Option<u64>, Refusal>
    ensures place { IfOk result (λ place. IsPlace kind
        (record { depth = depth; octets = octets }) src.now place) }
    ensures refused { IfErr result (KindRefused kind
        (record { depth = depth; octets = octets }) src.now) }
{
    let Some(document) = kind_of(kind) else {
        return Err(Refusal::Call);
    };
    let Some(limits) = limits_of(depth, octets) else {
        return Err(Refusal::Call);
    };
    whole_place(alloc, document, limits, src)
}

/// Whether the two documents are the same.
pub fn same_of(
    alloc: Global,
    kind: u32,
    depth: u32,
    octets: u64,
    first: &[u8],
    second: &[u8],
) -> Result<bool, PairRefusal>
    ensures same { IfOk result (λ same. IsSame kind
        (record { depth = depth; octets = octets }) first.now second.now same) }
    ensures refused { IfErr result (PairRefused kind
        (record { depth = depth; octets = octets }) first.now second.now) }
{
    let Some(document) = kind_of(kind) else {
        return Err(PairRefusal::Call);
    };
    let Some(limits) = limits_of(depth, octets) else {
        return Err(PairRefusal::Call);
    };
    whole_same(alloc, document, limits, first, second)
}

/// The document's lines.
pub fn lines_of(
    alloc: Global,
    kind: u32,
    depth: u32,
    octets: u64,
    src: &[u8],
) -> Result<Vec<u8>, Refusal>
    ensures lines { IfOk result (λ text. AreLines ⟦<Document as Valued>⟧.value kind
        (record { depth = depth; octets = octets }) src.now text.items) }
    ensures refused { IfErr result (KindRefused kind
        (record { depth = depth; octets = octets }) src.now) }
{
    let Some(document) = kind_of(kind) else {
        return Err(Refusal::Call);
    };
    let Some(limits) = limits_of(depth, octets) else {
        return Err(Refusal::Call);
    };
    whole_lines(alloc, document, limits, src)
}

/// The part of the request.
pub fn part_of(
    alloc: Global,
    part: u32,
    depth: u32,
    octets: u64,
    src: &[u8],
) -> Result<Vec<u8>, Refusal>
    ensures part { IfOk result (λ text. IsPartText part
        (record { depth = depth; octets = octets }) src.now text.items) }
    ensures refused { IfErr result (PartRefused part
        (record { depth = depth; octets = octets }) src.now) }
{
    let Some(wanted) = request_part_of(part) else {
        return Err(Refusal::Call);
    };
    let Some(limits) = limits_of(depth, octets) else {
        return Err(Refusal::Call);
    };
    whole_part(alloc, wanted, limits, src)
}

/// The report of the octets, and the answer of `check` in it.
pub fn report_of(
    alloc: Global,
    kind: u32,
    depth: u32,
    octets: u64,
    form: u32,
    src: &[u8],
) -> Result<(Vec<u8>, Answer), Refusal>
    ensures report { IfOk result (λ made. IsReport form kind
        (record { depth = depth; octets = octets }) src.now made.0.items made.1) }
    ensures refused { IfErr result (ReportRefused form kind
        (record { depth = depth; octets = octets })) }
{
    let Some(wanted) = form_of(form) else {
        return Err(Refusal::Call);
    };
    let Some(document) = kind_of(kind) else {
        return Err(Refusal::Call);
    };
    let Some(limits) = limits_of(depth, octets) else {
        return Err(Refusal::Call);
    };
    whole_report(alloc, document, limits, wanted, src)
}

/// The field that the report of the octets is about, and the answer of `check` in it.
pub fn field_of(
    alloc: Global,
    kind: u32,
    depth: u32,
    octets: u64,
    src: &[u8],
) -> Result<(Vec<u8>, Answer), Refusal>
    ensures field { IfOk result (λ made. IsField kind
        (record { depth = depth; octets = octets }) src.now made.0.items made.1) }
    ensures refused { IfErr result (FieldRefused kind
        (record { depth = depth; octets = octets })) }
{
    let Some(document) = kind_of(kind) else {
        return Err(Refusal::Call);
    };
    let Some(limits) = limits_of(depth, octets) else {
        return Err(Refusal::Call);
    };
    whole_field(alloc, document, limits, src)
}
