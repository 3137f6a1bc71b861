//! What a run is to write, by the document that it reads.
ghost use Rattle.std.specs.Prelude.{◌≡◌, ◌+◌, [], MatchResult, false, string_bytes};
ghost use Rattle.std.specs.Option.{option_map};
ghost use Rattle.asn_elements.specs.Whole.{IsFailedRead};
ghost use Rattle.pk_documents.specs.Kinds.{type_of};
ghost use Rattle.commands.specs.Inputs.{StopsTaking};
ghost use Rattle.commands.specs.Outcomes.{words_of};
ghost use Rattle.commands.specs.Replies.{DueOfCheck, DueOfOctets, DueOfShow, IsReportOfInput, StopsShowing};
ghost use Rattle.commands.specs.Replies.{Unreadable, checked_outcome};
ghost use Rattle.commands.specs.Reported.{DueOfNoted, DueOfNotedLines, DueOfReport, DueOfShownReport, check_text};
ghost use Rattle.explain.specs.Written.{written_text};

use crate::input::read_all;
use crate::outcome::{Outcome, verdict_text};
use crate::reported::{check_text, explained, json_with_notes, lines_with_notes, noted, refusal};
use crate::task::{KindTask, Noting};
use explain::explained::explain;
use explain::profile::Profile;
use explain::written::{Form, PLACES, written_report};
use pk_documents::check::check_whole_document;
use pk_documents::document::{Document, Valued, read_whole_document};
use pk_show::show_text;
use reports::report::Report;
use std::alloc::Global;
use tlv_core::fault::ReadError;
use tlv_core::source::Source;

/// A text that says all, and how a run ends where it is out.
#[derive(Drop)]
pub(crate) struct Reply {
    pub(crate) text: String,
    pub(crate) whole: Outcome,
    ghost says_all: { words_of whole ≡ [] },
}

/// What the document is, in lines.
pub(crate) fn show_lines<R: Source>(
    alloc: Global,
    src: &mut R,
    task: &KindTask,
) -> Result<Reply, ReadError>
    requires readable { R.has_failed src.old ≡ false }
    ensures replied { MatchResult result
        (λ it. DueOfShow ⟦<Document as Valued>⟧.value task.now.limits task.now.kind
        (R.remaining src.old) (R.remaining src.new) it.whole (string_bytes it.text))
        (λ error. Unreadable task.now.limits (type_of task.now.kind) error (R.remaining src.old)
        (R.remaining src.new)) }
    // A failed read is answered where the source failed, and nowhere else.
    ensures read { MatchResult result (λ _. R.has_failed src.new ≡ false)
        (IsFailedRead (R.has_failed src.new)) }
{
    let (document, _taken) = read_whole_document(alloc, src, task.kind, task.limits)?;
    let text = show_text(alloc, &document)?;
    Ok(Reply {
        text,
        whole: Outcome::Done,
    })
}

/// What the document is, in JSON, if it isn't refused.
pub(crate) fn show_report<R: Source>(
    alloc: Global,
    src: &mut R,
    task: &KindTask,
    file: Option<&str>,
) -> Result<Reply, ReadError>
    requires readable { R.has_failed src.old ≡ false }
    ensures replied { MatchResult result
        (λ it. DueOfOctets task.now.limits
        (DueOfShownReport (option_map (λ r. r.now) file.entry) task.now.limits task.now.kind)
        (R.remaining src.old) (R.remaining src.new) it.whole (string_bytes it.text))
        (λ error. StopsShowing task.now.limits task.now.kind error (R.remaining src.old)
        (R.remaining src.new)) }
    ensures read { MatchResult result (λ _. R.has_failed src.new ≡ false)
        (IsFailedRead (R.has_failed src.new)) }
{
    let report = report_of_input(alloc, src, task, Profile::General)?;
    if let Some(fault) = refusal(report.answer) {
        return Err(ReadError::Fault(fault));
    }
    let form = Form {
        json: true,
        brief: false,
        all: true,
        places: PLACES,
        profile: Profile::General,
    };
    let text = written_report(alloc, &report, file, form)?;
    Ok(Reply {
        text,
        whole: Outcome::Done,
    })
}

/// Whether the document is in DER, or where it first isn't, as a line.
pub(crate) fn check_line<R: Source>(
    alloc: Global,
    src: &mut R,
    task: &KindTask,
    quiet: bool,
) -> Result<Reply, ReadError>
    requires readable { R.has_failed src.old ≡ false }
    ensures replied { MatchResult result
        (λ it. DueOfCheck quiet task.now.limits (type_of task.now.kind) (R.remaining src.old)
        (R.remaining src.new) it.whole (string_bytes it.text))
        (λ error. Unreadable task.now.limits (type_of task.now.kind) error (R.remaining src.old)
        (R.remaining src.new)) }
    ensures read { MatchResult result (λ _. R.has_failed src.new ≡ false)
        (IsFailedRead (R.has_failed src.new)) }
{
    let (_taken, place) = check_whole_document(alloc, src, task.kind, task.limits)?;
    let text = verdict_text(alloc, quiet, place)?;
    Ok(Reply {
        text,
        whole: checked(place),
    })
}

/// Whether the document is in DER, and the places that aren't, in JSON.
pub(crate) fn check_report<R: Source>(
    alloc: Global,
    src: &mut R,
    task: &KindTask,
    file: Option<&str>,
    quiet: bool,
    places: u64,
) -> Result<Reply, ReadError>
    requires readable { R.has_failed src.old ≡ false }
    ensures replied { MatchResult result
        (λ it. DueOfOctets task.now.limits
        (DueOfReport (check_text quiet places (option_map (λ r. r.now) file.entry)) Profile.General
        task.now.limits task.now.kind)
        (R.remaining src.old) (R.remaining src.new) it.whole (string_bytes it.text))
        (λ error. StopsTaking (task.now.limits.octets + 1) error (R.remaining src.old)
        (R.remaining src.new)) }
    ensures read { MatchResult result (λ _. R.has_failed src.new ≡ false)
        (IsFailedRead (R.has_failed src.new)) }
{
    let report = report_of_input(alloc, src, task, Profile::General)?;
    let text = check_text(alloc, &report, file, quiet, places)?;
    Ok(Reply {
        text,
        whole: explained(&report.answer),
    })
}

/// Whether the document is in DER, or where it first isn't, and its notes, in lines, if it isn't refused.
pub(crate) fn note_lines<R: Source>(
    alloc: Global,
    src: &mut R,
    task: &KindTask,
    noting: Noting,
) -> Result<Reply, ReadError>
    requires readable { R.has_failed src.old ≡ false }
    ensures replied { MatchResult result
        (λ it. DueOfOctets task.now.limits (DueOfNotedLines noting task.now.limits task.now.kind)
        (R.remaining src.old) (R.remaining src.new) it.whole (string_bytes it.text))
        (λ error. StopsShowing task.now.limits task.now.kind error (R.remaining src.old)
        (R.remaining src.new)) }
    ensures read { MatchResult result (λ _. R.has_failed src.new ≡ false)
        (IsFailedRead (R.has_failed src.new)) }
{
    let report = report_of_input(alloc, src, task, noting.profile)?;
    if let Some(fault) = refusal(report.answer) {
        return Err(ReadError::Fault(fault));
    }
    let text = lines_with_notes(alloc, &report, noting.quiet)?;
    Ok(Reply {
        text,
        whole: noted(&report, noting.refuse),
    })
}

/// The same in JSON, of a refused document too.
pub(crate) fn note_report<R: Source>(
    alloc: Global,
    src: &mut R,
    task: &KindTask,
    file: Option<&str>,
    noting: Noting,
) -> Result<Reply, ReadError>
    requires readable { R.has_failed src.old ≡ false }
    ensures replied { MatchResult result
        (λ it. DueOfOctets task.now.limits
        (DueOfNoted noting (option_map (λ r. r.now) file.entry) task.now.limits task.now.kind)
        (R.remaining src.old) (R.remaining src.new) it.whole (string_bytes it.text))
        (λ error. StopsTaking (task.now.limits.octets + 1) error (R.remaining src.old)
        (R.remaining src.new)) }
    ensures read { MatchResult result (λ _. R.has_failed src.new ≡ false)
        (IsFailedRead (R.has_failed src.new)) }
{
    let report = report_of_input(alloc, src, task, noting.profile)?;
    let text = json_with_notes(alloc, &report, file, noting)?;
    Ok(Reply {
        text,
        whole: noted(&report, noting.refuse),
    })
}

/// The report of the document, refused or not.
pub(crate) fn explain_report<R: Source>(
    alloc: Global,
    src: &mut R,
    task: &KindTask,
    file: Option<&str>,
    form: Form,
) -> Result<Reply, ReadError>
    requires readable { R.has_failed src.old ≡ false }
    ensures replied { MatchResult result
        (λ it. DueOfOctets task.now.limits
        (DueOfReport (written_text form (option_map (λ r. r.now) file.entry)) form.profile
        task.now.limits task.now.kind)
        (R.remaining src.old) (R.remaining src.new) it.whole (string_bytes it.text))
        (λ error. StopsTaking (task.now.limits.octets + 1) error (R.remaining src.old)
        (R.remaining src.new)) }
    ensures read { MatchResult result (λ _. R.has_failed src.new ≡ false)
        (IsFailedRead (R.has_failed src.new)) }
{
    let report = report_of_input(alloc, src, task, form.profile)?;
    let text = written_report(alloc, &report, file, form)?;
    Ok(Reply {
        text,
        whole: explained(&report.answer),
    })
}

/// Takes all of the input, or one octet more than the limit, and makes the report of that, with the notes of the
/// profile.
fn report_of_input<R: Source>(
    alloc: Global,
    src: &mut R,
    task: &KindTask,
    profile: Profile,
) -> Result<Report, ReadError>
    requires readable { R.has_failed src.old ≡ false }
    ensures reports { MatchResult result
        (IsReportOfInput profile task.now.limits task.now.kind (R.remaining src.old)
        (R.remaining src.new))
        (λ error. StopsTaking (task.now.limits.octets + 1) error (R.remaining src.old)
        (R.remaining src.new)) }
    ensures read { MatchResult result (λ _. R.has_failed src.new ≡ false)
        (IsFailedRead (R.has_failed src.new)) }
{
    let octets = read_all(alloc, src, task.limits.octets() as usize + 1)?;
    let report = explain(alloc, octets.as_slice(), task.kind, task.limits, profile)?;
    Ok(report)
}

/// How a check ends, by the place where the document isn't in DER.
fn checked(place: Option<u64>) -> Outcome
    ensures outcome { result ≡ checked_outcome place }
    ensures says_all { words_of result ≡ [] }
{
    match place {
        None => Outcome::Done,
        Some(at) => Outcome::NotDer(at),
    }
}
