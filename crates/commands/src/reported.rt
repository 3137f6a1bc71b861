//! What is written of a report, and how a run ends that writes it.
ghost use Rattle.std.specs.Prelude.{◌≡◌, ◌++◌, ◌&&◌, ◌==◌, [], IfOk, MatchOption, OnOk, false, length, not};
ghost use Rattle.std.specs.Prelude.{string_bytes};
ghost use Rattle.std.specs.Option.{option_map};
ghost use Rattle.explain.specs.Rules.{is_refusal};
ghost use Rattle.reports.specs.JsonMembers.{number_member, text_member};
ghost use Rattle.reports.specs.declared.report.Answer.TheVariants.{Refused};
ghost use Rattle.commands.specs.Outcomes.{words_of};
ghost use Rattle.commands.specs.Reported.{check_text, error_line, error_object, explained_outcome, is_der};
ghost use Rattle.commands.specs.Reported.{is_noted, noted_lines, noted_outcome, noted_text, place_of};

use crate::outcome::{Outcome, verdict_text};
use crate::task::{Noting, Refuse};
use explain::explained::has_most_notes;
use explain::version::VERSION;
use json::Writer;
use reports::json_report::{check_json, noted_json};
use reports::notes::{has_must, notes_text};
use reports::report::{Answer, Note, Report};
use std::alloc::{AllocError, Global};
use tlv_core::fault::Fault;

/// A report as `check` gives it in JSON, with up to so many places that aren't in DER; if that is to be `quiet`,
/// nothing of what is in DER. It says which file it is of, if that has a name.
pub fn check_text(
    alloc: Global,
    report: &Report,
    file: Option<&str>,
    quiet: bool,
    places: u64,
) -> Result<String, AllocError>
    ensures { IfOk result (λ text. string_bytes text
        ≡ check_text quiet places (option_map (λ r. r.now) file.entry) report.now) }
{
    if is_left_out(quiet, report.answer) {
        return Ok(String::new(alloc));
    }
    check_json(alloc, report, VERSION, file, places)
}

/// What `check` says with notes of a report that isn't of a refused document, in lines.
pub fn lines_with_notes(alloc: Global, report: &Report, quiet: bool) -> Result<String, AllocError>
    ensures { IfOk result (λ text. string_bytes text ≡ noted_lines quiet report.now) }
{
    let mut text = verdict_text(alloc, quiet, difference_in(report.answer))?;
    let notes = notes_text(alloc, report)?;
    text.push_str(notes.as_str())?;
    Ok(text)
}

/// The place where a document that isn't refused isn't in DER.
fn difference_in(answer: Answer) -> Option<u64>
    ensures { result ≡ place_of answer }
{
    match answer {
        Answer::NotDer(at) => Some(at),
        Answer::Der | Answer::Refused(_) => None,
    }
}

/// A report as `check` gives it in JSON with notes; if that is to be quiet, nothing of what is in DER without a note.
pub fn json_with_notes(
    alloc: Global,
    report: &Report,
    file: Option<&str>,
    noting: Noting,
) -> Result<String, AllocError>
    ensures { IfOk result (λ text. string_bytes text
        ≡ noted_text noting (option_map (λ r. r.now) file.entry) report.now) }
{
    if is_faultless(noting.quiet, report) {
        return Ok(String::new(alloc));
    }
    noted_json(alloc, report, VERSION, file, noting.places)
}

/// Whether nothing is written of a document with notes.
fn is_faultless(quiet: bool, report: &Report) -> bool
    ensures { result ≡ (quiet && is_der report.now.answer && length report.now.notes.items == 0) }
{
    quiet && answers_der(report.answer) && report.notes.is_empty()
}

/// How a run ends that says of a report with notes.
pub fn noted(report: &Report, refuse: Refuse) -> Outcome
    ensures outcome { result ≡ noted_outcome refuse report.now }
    ensures says_all { words_of result ≡ [] }
{
    if is_unwanted(report, refuse) {
        return Outcome::Noted;
    }
    explained(&report.answer)
}

/// Whether a document that isn't refused has a note that it is not to have.
fn is_unwanted(report: &Report, refuse: Refuse) -> bool
    ensures { result ≡ (not (is_refusal report.now.answer)
        && is_noted refuse report.now.notes.items) }
{
    !is_refused(report.answer) && has_refused(refuse, &report.notes)
}

/// Whether one of the notes is one that no document is to have, or may be one of those that are left out.
fn has_refused(refuse: Refuse, notes: &[Note]) -> bool
    ensures { result ≡ is_noted refuse notes.now }
{
    match refuse {
        Refuse::Nothing => false,
        Refuse::Must => has_must(notes) || has_most_notes(notes),
    }
}

/// Whether the answer is that the document is refused.
fn is_refused(answer: Answer) -> bool
    ensures { result ≡ is_refusal answer }
{
    matches!(answer, Answer::Refused(_))
}

/// Why no report of a file is shown, as JSON.
pub fn error_line(alloc: Global, file: &str, status: u64, error: &str) -> Result<String, AllocError>
    ensures { IfOk result (λ text. string_bytes text ≡ error_line file.now status error.now) }
{
    let mut json = Writer::new(Vec::new(alloc));
    push_error(&mut json, file, status, error)?;
    let Ok(mut text) = String::from_utf8(json.into_inner()) else {
        unreachable!()
    };
    text.push_str("\n")?;
    Ok(text)
}

fn push_error(json: &mut Writer, file: &str, status: u64, error: &str) -> Result<(), AllocError>
    ensures tokens { OnOk result (json.new.tokens
        ≡ json.old.tokens ++ error_object file.now status error.now) }
    ensures before { OnOk result (json.new.before ≡ json.old.before) }
{
    json.begin_object()?;
    push_number(json, "form", 1)?;
    push_text(json, "version", VERSION)?;
    push_text(json, "file", file)?;
    push_number(json, "status", status)?;
    push_text(json, "error", error)?;
    json.end_object()
}

/// Appends a member that is a string.
fn push_text(json: &mut Writer, name: &str, text: &str) -> Result<(), AllocError>
    ensures tokens { OnOk result (json.new.tokens ≡ json.old.tokens ++ text_member name.now text.now) }
    ensures before { OnOk result (json.new.before ≡ json.old.before) }
{
    json.key(name)?;
    json.string(text)
}

/// Appends a member that is a number.
fn push_number(json: &mut Writer, name: &str, number: u64) -> Result<(), AllocError>
    ensures tokens { OnOk result (json.new.tokens ≡ json.old.tokens ++ number_member name.now number) }
    ensures before { OnOk result (json.new.before ≡ json.old.before) }
{
    json.key(name)?;
    json.u64(number)
}

/// Whether nothing is written of a document that has this answer.
fn is_left_out(quiet: bool, answer: Answer) -> bool
    ensures { result ≡ (quiet && is_der answer) }
{
    quiet && answers_der(answer)
}

/// Whether the answer is that the document is in DER.
fn answers_der(answer: Answer) -> bool
    ensures { result ≡ is_der answer }
{
    matches!(answer, Answer::Der)
}

/// The fault of a document that is refused.
pub fn refusal(answer: Answer) -> Option<Fault>
    ensures { MatchOption result (is_refusal answer ≡ false) (λ fault. answer ≡ Refused fault) }
{
    match answer {
        Answer::Der | Answer::NotDer(_) => None,
        Answer::Refused(fault) => Some(fault),
    }
}

/// How a run ends that says of a report, by what checking answers.
pub fn explained(answer: &Answer) -> Outcome
    ensures outcome { result ≡ explained_outcome answer.now }
    ensures says_all { words_of result ≡ [] }
{
    match answer {
        Answer::Der => Outcome::Done,
        Answer::NotDer(at) => Outcome::NotDer(*at),
        Answer::Refused(fault) => Outcome::Explained(*fault),
    }
}
