//! The report of a document: made of what may be shown of it, so two documents of which the same may be shown have one
//! report.
ghost use Rattle.std.specs.Prelude.{◌≡◌, ◌≤◌, IfOk, length, not};
ghost use Rattle.explain.specs.Listings.{IsListed};
ghost use Rattle.explain.specs.Notes.{has_most_notes, most_notes};
ghost use Rattle.explain.specs.ProfileNotes.{notes_by};
ghost use Rattle.explain.specs.Reports.{IsReportOf};
ghost use Rattle.explain.specs.Rules.{causes_by, front_document, is_refusal};
ghost use Rattle.explain.specs.Wordings.{IsReportBy, announced_end};

use crate::disclosed::{Disclosed, disclose};
use crate::document::inside::{Inside, InsideSearch, documents_inside, named_elements};
use crate::document::kinds::{shape_of, words_of};
use crate::document::moduli::modulus_by;
use crate::document::places::{DocumentCursor, Piece, sum_of};
use crate::fault::diagnosis::{RefusedFront, diagnose};
use crate::listing::causes::causes_of;
use crate::listing::fault_line::push_fault_line;
use crate::listing::lines_of;
use crate::notes::MOST_NOTES;
use crate::profile::{Profile, notes_in};
use asn_names::element::NamedElement;
use asn_names::naming::NamedElements;
use pk_documents::kind::Kind;
use reports::report::{Answer, Cause, Line, Note, Report};
use std::alloc::{AllocError, Global};
use tlv_core::limits::Limits;

/// What is reported of octets that have to be one document of the kind, with the notes of the profile.
pub fn explain(
    alloc: Global,
    octets: &[u8],
    kind: Kind,
    limits: Limits,
    profile: Profile,
) -> Result<Report, AllocError>
    ensures { IfOk result (λ report. IsReportOf profile limits kind octets.now report) }
{
    let disclosed = disclose(alloc, octets, kind, limits)?;
    let report = report_of(alloc, kind, limits, profile, disclosed)?;
    Ok(report)
}

/// The report that is made of what may be shown of a document, and of nothing else.
fn report_of(
    alloc: Global,
    kind: Kind,
    limits: Limits,
    profile: Profile,
    disclosed: Disclosed<'_>,
) -> Result<Report, AllocError>
    ensures { IfOk result (λ report. IsReportBy profile limits kind disclosed.entry report) }
{
    let Disclosed {
        octets,
        answer,
        front,
        path,
        class,
        guess,
        after,
    } = disclosed;
    let root = shape_of(kind);
    let named = named_elements(alloc, front, root, limits)?;
    let search = InsideSearch {
        limits,
        in_extensions: is_accepted(answer),
    };
    let insides = documents_inside(alloc, front, named.elements.as_slice(), &search)?;
    let mut lines = front_lines(alloc, front, answer, &named, insides.as_slice())?;
    push_fault_line(&mut lines, answer, path.as_slice().len() as u64)?;
    let shown = RefusedFront {
        root,
        named: &named,
        octets,
        front,
        class,
        lines: lines.as_slice(),
    };
    let diagnosis = diagnose(alloc, answer, shown, path)?;
    let notes = notes_by(alloc, profile, answer, lines.as_slice())?;
    let announced = announced_end(lines.as_slice());
    let modulus = modulus_by(answer, insides.as_slice());
    Ok(Report {
        kind: words_of(kind),
        octets,
        announced,
        answer,
        lines,
        diagnosis,
        guess,
        after,
        notes,
        modulus,
    })
}

/// Whether a report has as many notes as are told at most, so that more may be left out.
pub fn has_most_notes(notes: &[Note]) -> bool
    ensures { result ≡ has_most_notes notes.now }
{
    notes.len() >= MOST_NOTES
}

/// Whether the answer is that the document isn't refused.
pub(crate) fn is_accepted(answer: Answer) -> bool
    ensures { result ≡ not (is_refusal answer) }
{
    match answer {
        Answer::Refused(_) => false,
        Answer::Der | Answer::NotDer(_) => true,
    }
}

/// The lines of the elements of the front.
fn front_lines(
    alloc: Global,
    front: &[u8],
    answer: Answer,
    named: &NamedElements,
    insides: &[Inside],
) -> Result<Vec<Line>, AllocError>
    ensures { IfOk result (λ lines. IsListed (front_document answer front.now named.now.elements.items)
        insides.now lines.items) }
{
    let elements = named.elements.as_slice();
    let causes = causes_by(alloc, front, answer, elements)?;
    let whole = [Piece {
        at: 0,
        octets: front.len() as u64,
    }];
    let cursor = DocumentCursor {
        octets: front,
        elements,
        causes: causes.as_slice(),
        pieces: &whole,
        rest: &whole,
        before: 0,
        is_inside: false,
        is_carried: false,
        depth: 0,
        around: 0,
        carries: None,
    };
    let lines = lines_of(alloc, cursor, insides)?;
    Ok(lines)
}

/// Why the elements of a sound document aren't in DER.
fn causes_by(
    alloc: Global,
    octets: &[u8],
    answer: Answer,
    elements: &[NamedElement],
) -> Result<Vec<Option<Cause>>, AllocError>
    ensures { IfOk result (λ causes. causes.items ≡ causes_by answer octets.now elements.now) }
{
    match answer {
        Answer::NotDer(_) => causes_of(alloc, octets, elements),
        _ => Ok(Vec::new(alloc)),
    }
}

/// The notes, of a document that is accepted.
fn notes_by(
    alloc: Global,
    profile: Profile,
    answer: Answer,
    lines: &[Line],
) -> Result<Vec<Note>, AllocError>
    ensures are { IfOk result (λ notes. notes.items ≡ notes_by profile answer lines.now) }
    ensures few { IfOk result (λ notes. length notes.items ≤ most_notes) }
{
    match answer {
        Answer::Refused(_) => Ok(Vec::new(alloc)),
        _ => notes_in(alloc, profile, lines),
    }
}

/// Where the outermost element ends by its length, where that is shown: by the first line.
fn announced_end(lines: &[Line]) -> Option<u64>
    ensures { result ≡ announced_end lines.now }
{
    let Some(outermost) = lines.first() else {
        return None;
    };
    let Some(length) = outermost.length else {
        return None;
    };
    let Some(contents) = length.contents else {
        return None;
    };
    sum_of(outermost.at.saturating_add(length.header), contents)
}
