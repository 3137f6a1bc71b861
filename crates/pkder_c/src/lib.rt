//! pkder for C: a document in octets is normalised, checked, compared, shown, reported on, or a part of it taken out.
//! `interface/pkder.h` declares these functions and says what a caller owes.
//!
//! Proved of every call whose pointers are good: what `pk_documents` and `pk_show` promise, of a document that has to
//! be all of the octets given, shown by a status and numbers. No call asks for anything of its numbers.
//!
//! `numbers` has what numbers mean, `whole` reads the octets given, `by_number` does both, `delivery` puts what comes
//! of it into the caller's room, `outcome` has what C sees.
#![tactic(auto)]

ghost use Rattle.std.specs.Prelude.{◌≡◌, length};
ghost use Rattle.pkder_c.specs.Calls.{AreLines, Checked, Compared, FieldRefused, IsField, IsPartText, IsPlace};
ghost use Rattle.pkder_c.specs.Calls.{IsReport, IsSame, IsText, KindRefused, Named, PairRefused, PartRefused};
ghost use Rattle.pkder_c.specs.Calls.{ReportRefused, Reported, Wrote};

mod by_number;
mod delivery;
mod numbers;
mod outcome;
mod refusal;
mod whole;

use crate::by_number::{field_of, lines_of, part_of, place_of, report_of, same_of, text_of};
use crate::delivery::{deliver, deliver_encoding, pair_outcome, place_outcome, report};
use crate::numbers::reason_of;
use crate::outcome::PkderOutcome;
use pk_documents::document::{Document, Valued};
use std::alloc::Global;

/// The number of this interface: functions, kinds, parts, statuses and reasons may be added under the same number, none
/// is changed or taken away.
#[unsafe(no_mangle)]
pub extern "C" fn pkder_interface() -> u32
    ensures { result ≡ 1 }
{
    1
}

/// Writes the document's DER text where `dst` begins, if it fits there.
#[unsafe(no_mangle)]
pub extern "C" fn pkder_normalise(
    alloc: Global,
    kind: u32,
    depth: u32,
    octets: u64,
    src: &[u8],
    dst: &mut [u8],
) -> PkderOutcome
    ensures { Wrote (IsText kind (record { depth = depth; octets = octets }) src.now)
        (KindRefused kind (record { depth = depth; octets = octets }) src.now)
        (length src.now) dst.old dst.new result }
{
    deliver_encoding(text_of(alloc, kind, depth, octets, src), src, dst)
}

/// Whether the document is in DER, or where it first isn't.
#[unsafe(no_mangle)]
pub extern "C" fn pkder_check(
    alloc: Global,
    kind: u32,
    depth: u32,
    octets: u64,
    src: &[u8],
) -> PkderOutcome
    ensures { Checked (IsPlace kind (record { depth = depth; octets = octets }) src.now)
        (KindRefused kind (record { depth = depth; octets = octets }) src.now)
        (length src.now) result }
{
    place_outcome(place_of(alloc, kind, depth, octets, src), src)
}

/// Whether the two documents are the same, which is whether their DER texts are equal.
#[unsafe(no_mangle)]
pub extern "C" fn pkder_same(
    alloc: Global,
    kind: u32,
    depth: u32,
    octets: u64,
    first: &[u8],
    second: &[u8],
) -> PkderOutcome
    ensures { Compared (IsSame kind (record { depth = depth; octets = octets }) first.now second.now)
        (PairRefused kind (record { depth = depth; octets = octets }) first.now second.now) result }
{
    pair_outcome(same_of(alloc, kind, depth, octets, first, second))
}

/// Writes a part of a certification request where `dst` begins, if it fits there.
#[unsafe(no_mangle)]
pub extern "C" fn pkder_signed(
    alloc: Global,
    part: u32,
    depth: u32,
    octets: u64,
    src: &[u8],
    dst: &mut [u8],
) -> PkderOutcome
    ensures { Wrote (IsPartText part (record { depth = depth; octets = octets }) src.now)
        (PartRefused part (record { depth = depth; octets = octets }) src.now)
        (length src.now) dst.old dst.new result }
{
    deliver(part_of(alloc, part, depth, octets, src), src, dst)
}

/// Writes what the document is, in lines, where `dst` begins, if they fit there.
#[unsafe(no_mangle)]
pub extern "C" fn pkder_show(
    alloc: Global,
    kind: u32,
    depth: u32,
    octets: u64,
    src: &[u8],
    dst: &mut [u8],
) -> PkderOutcome
    ensures { Wrote (AreLines ⟦<Document as Valued>⟧.value kind
        (record { depth = depth; octets = octets }) src.now)
        (KindRefused kind (record { depth = depth; octets = octets }) src.now)
        (length src.now) dst.old dst.new result }
{
    deliver(lines_of(alloc, kind, depth, octets, src), src, dst)
}

/// Writes the report of the octets where `dst` begins, if it fits there: the number of its form is the sum of 1 with
/// all elements, 2 in JSON, and 4 with the notes for TLS servers.
#[unsafe(no_mangle)]
pub extern "C" fn pkder_explain(
    alloc: Global,
    kind: u32,
    depth: u32,
    octets: u64,
    form: u32,
    src: &[u8],
    dst: &mut [u8],
) -> PkderOutcome
    ensures { Reported (IsReport form kind (record { depth = depth; octets = octets }) src.now)
        (ReportRefused form kind (record { depth = depth; octets = octets }))
        (length src.now) dst.old dst.new result }
{
    report(report_of(alloc, kind, depth, octets, form, src), src, dst)
}

/// Writes the path of the field that the report is about where `dst` begins, if it fits there.
#[unsafe(no_mangle)]
pub extern "C" fn pkder_field(
    alloc: Global,
    kind: u32,
    depth: u32,
    octets: u64,
    src: &[u8],
    dst: &mut [u8],
) -> PkderOutcome
    ensures { Reported (IsField kind (record { depth = depth; octets = octets }) src.now)
        (FieldRefused kind (record { depth = depth; octets = octets }))
        (length src.now) dst.old dst.new result }
{
    report(field_of(alloc, kind, depth, octets, src), src, dst)
}

/// Writes the name of the reason, and an octet 0 after it, where `dst` has room for both. Answers the octets of the
/// name; 0 if no reason has the number.
#[unsafe(no_mangle)]
pub extern "C" fn pkder_reason_name(reason: u32, dst: &mut [u8]) -> usize
    ensures { Named reason dst.old dst.new result }
{
    let Some(found) = reason_of(reason) else {
        return 0;
    };
    let name = found.name().as_bytes();
    if name.len() < dst.len() {
        dst[name.len()] = 0;
        dst[..name.len()].copy_from_slice(name);
    }
    name.len()
}
