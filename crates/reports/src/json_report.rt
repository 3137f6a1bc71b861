//! A report as JSON: one object, in one line (`docs/report.schema.json`).
ghost use Rattle.std.specs.Prelude.{◌≡◌, ◌++◌, IfOk, OnOk, codes, string_bytes};
ghost use Rattle.std.specs.Option.{option_map};
ghost use Rattle.json.specs.Print.{print};
ghost use Rattle.reports.specs.Json.{about_members, advice_members, answer_members, certain_members, check_object};
ghost use Rattle.reports.specs.Json.{contents_members, due_members, file_place, follow_by, head_members};
ghost use Rattle.reports.specs.Json.{inside_members, lines_member, missing_members, more_members, more_than};
ghost use Rattle.reports.specs.Json.{noted_object, notes_member, number_members, places_members, report_object};
ghost use Rattle.reports.specs.Json.{verdict_members};
ghost use Rattle.reports.specs.JsonLists.{place_members};
ghost use Rattle.reports.specs.JsonMembers.{optional, text_member};
ghost use Rattle.reports.specs.Texts.{line_feed};

use crate::brief::brief_words;
use crate::field::field_text;
use crate::hints::{do_text, likely_text};
use crate::json_asks::push_summary;
use crate::json_lists::{push_lines, push_not_der, push_notes};
use crate::json_text::JsonText;
use crate::json_words::word_of_guess;
use crate::report::{Answer, Diagnosis, Line, Note, Report};
use crate::words::{due_text, found_text};
use std::alloc::{AllocError, Global};
use tlv_core::reason::Reason;

/// How many octets the listing of an element has at most, where no text in it is long.
const LINE_ROOM: usize = 256;

/// The report as `check` gives it: what is certain of the document. `version` is the program's; of the places that
/// aren't in DER there are up to `places`.
#[tactic(auto, unfolding(crate::specs::Json::check_object))]
pub fn check_json(
    alloc: Global,
    report: &Report,
    version: &str,
    file: Option<&str>,
    places: u64,
) -> Result<String, AllocError>
    ensures { IfOk result (λ text. string_bytes text
        ≡ print (check_object report.now version.now (option_map (λ r. r.now) file.entry) places)
        ++ line_feed) }
{
    let mut json = JsonText::new(alloc);
    json.begin_object()?;
    push_certain(alloc, &mut json, report, version, file, places)?;
    json.end_object()?;
    json.into_line()
}

/// The same with the notes.
#[tactic(auto, unfolding(crate::specs::Json::noted_object))]
pub fn noted_json(
    alloc: Global,
    report: &Report,
    version: &str,
    file: Option<&str>,
    places: u64,
) -> Result<String, AllocError>
    ensures { IfOk result (λ text. string_bytes text
        ≡ print (noted_object report.now version.now (option_map (λ r. r.now) file.entry) places)
        ++ line_feed) }
{
    let mut json = JsonText::new(alloc);
    json.begin_object()?;
    push_certain(alloc, &mut json, report, version, file, places)?;
    push_remarks(alloc, &mut json, report, &report.notes)?;
    json.end_object()?;
    json.into_line()
}

/// What is certain of the document.
#[tactic(auto, unfolding(crate::specs::Json::certain_members))]
fn push_certain(
    alloc: Global,
    json: &mut JsonText,
    report: &Report,
    version: &str,
    file: Option<&str>,
    places: u64,
) -> Result<(), AllocError>
    ensures { OnOk result (json.new ≡ json.old
        ++ certain_members report.now version.now (option_map (λ r. r.now) file.entry) places) }
{
    push_head(json, report, version, file)?;
    push_field(alloc, json, report)?;
    push_numbers(json, report, report.diagnosis.as_ref())?;
    json.said("looks_like", word_of_guess(report.guess))?;
    push_places(alloc, json, places, report)
}

/// The report as `explain` gives it: the same, and what there is to say in words, the notes, and with `all` the
/// elements.
#[tactic(auto, unfolding(crate::specs::Json::report_object))]
pub fn report_json(
    alloc: Global,
    report: &Report,
    version: &str,
    file: Option<&str>,
    all: bool,
    places: u64,
) -> Result<String, AllocError>
    ensures { IfOk result (λ text. string_bytes text
        ≡ print (report_object report.now version.now (option_map (λ r. r.now) file.entry) all places)
        ++ line_feed) }
{
    // (so that a long text isn't copied while it grows)
    let room = if all {
        report.lines.len().saturating_mul(LINE_ROOM)
    } else {
        0
    };
    let mut json = JsonText::with_room(alloc, room)?;
    json.begin_object()?;
    push_head(&mut json, report, version, file)?;
    push_field(alloc, &mut json, report)?;
    push_due(alloc, &mut json, report)?;
    push_numbers(&mut json, report, report.diagnosis.as_ref())?;
    json.said("looks_like", word_of_guess(report.guess))?;
    push_advice(alloc, &mut json, report)?;
    push_places(alloc, &mut json, places, report)?;
    push_contents(alloc, &mut json, report, all, &report.lines)?;
    push_remarks(alloc, &mut json, report, &report.notes)?;
    json.end_object()?;
    json.into_line()
}

/// A place and a reason.
#[tactic(auto, unfolding(crate::specs::JsonLists::place_members))]
pub fn push_place(json: &mut JsonText, at: u64, why: Reason) -> Result<(), AllocError>
    ensures { OnOk result (json.new ≡ json.old ++ place_members at why) }
{
    json.number("at", at)?;
    json.text("reason", why.name())
}

#[tactic(auto, unfolding(crate::specs::Json::inside_members))]
pub fn push_inside(json: &mut JsonText, inside: Option<(u64, Reason)>) -> Result<(), AllocError>
    ensures { OnOk result (json.new ≡ json.old ++ inside_members inside) }
{
    match inside {
        None => Ok(()),
        Some((at, why)) => {
            json.begin_object_at("inside")?;
            push_place(json, at, why)?;
            json.end_object()
        }
    }
}

#[tactic(auto, unfolding(crate::specs::Json::verdict_members))]
fn push_verdict(json: &mut JsonText, status: u64, verdict: &str) -> Result<(), AllocError>
    ensures { OnOk result (json.new ≡ json.old ++ verdict_members status verdict.now) }
{
    json.number("status", status)?;
    json.text("verdict", verdict)
}

#[tactic(auto, unfolding(crate::specs::Json::answer_members))]
fn push_answer(json: &mut JsonText, answer: Answer) -> Result<(), AllocError>
    ensures { OnOk result (json.new ≡ json.old ++ answer_members answer) }
{
    match answer {
        Answer::Der => push_verdict(json, 0, "der"),
        Answer::NotDer(at) => {
            push_verdict(json, 1, "not_der")?;
            json.number("at", at)
        }
        Answer::Refused(fault) => {
            push_verdict(json, 2, "refused")?;
            push_place(json, fault.at, fault.why)?;
            push_inside(json, fault.inside)
        }
    }
}

fn push_file(json: &mut JsonText, file: Option<&str>) -> Result<(), AllocError>
    ensures { OnOk result (json.new ≡ json.old
        ++ optional (text_member (codes "file")) (option_map (λ r. r.now) file.entry)) }
{
    match file {
        None => Ok(()),
        Some(file) => json.text("file", file),
    }
}

/// The number of the form, the version, the file and the answer.
#[tactic(auto, unfolding(crate::specs::Json::head_members))]
fn push_head(
    json: &mut JsonText,
    report: &Report,
    version: &str,
    file: Option<&str>,
) -> Result<(), AllocError>
    ensures { OnOk result (json.new ≡ json.old
        ++ head_members report.now version.now (option_map (λ r. r.now) file.entry)) }
{
    json.number("form", 1)?;
    json.text("version", version)?;
    push_file(json, file)?;
    json.text("kind", report.kind.word)?;
    json.number("octets", report.octets)?;
    push_answer(json, report.answer)
}

/// The place of the fault in the file, where it has one, and the field that the report is about.
#[tactic(auto, unfolding(crate::specs::Json::about_members))]
fn push_field(alloc: Global, json: &mut JsonText, report: &Report) -> Result<(), AllocError>
    ensures { OnOk result (json.new ≡ json.old ++ about_members report.now) }
{
    let field = field_text(alloc, report)?;
    json.optional_number("file_at", file_place(report))?;
    json.said("field", field.as_str())
}

/// The place of the fault in the file.
fn file_place(report: &Report) -> Option<u64>
    ensures { result ≡ file_place report.now.diagnosis }
{
    match &report.diagnosis {
        Some(diagnosis) => diagnosis.file_at,
        None => None,
    }
}

/// How many there are more of the latter, where there are more.
fn how_many_more(less: u64, more: u64) -> Option<u64>
    ensures { result ≡ more_than less more }
{
    if less < more { Some(more - less) } else { None }
}

#[tactic(auto, unfolding(crate::specs::Json::missing_members))]
fn push_missing(json: &mut JsonText, octets: u64, announced: Option<u64>) -> Result<(), AllocError>
    ensures { OnOk result (json.new ≡ json.old ++ missing_members octets announced) }
{
    match announced {
        None => Ok(()),
        Some(announced) => json.optional_number("missing", how_many_more(octets, announced)),
    }
}

/// How many octets follow: as is shown, or after where the outermost element ends.
fn how_many_follow(octets: u64, announced: Option<u64>, known: Option<u64>) -> Option<u64>
    ensures { result ≡ follow_by known announced octets }
{
    match (known, announced) {
        (Some(more), _) => Some(more),
        (None, Some(announced)) => how_many_more(announced, octets),
        (None, None) => None,
    }
}

#[tactic(auto, unfolding(crate::specs::Json::more_members))]
fn push_more(
    json: &mut JsonText,
    octets: u64,
    announced: Option<u64>,
    known: Option<u64>,
) -> Result<(), AllocError>
    ensures { OnOk result (json.new ≡ json.old ++ more_members octets announced known) }
{
    json.optional_number("more", how_many_follow(octets, announced, known))
}

/// What is said in numbers of a document that is refused.
#[tactic(auto, unfolding(crate::specs::Json::number_members))]
fn push_numbers(
    json: &mut JsonText,
    report: &Report,
    diagnosis: Option<&Diagnosis>,
) -> Result<(), AllocError>
    ensures { OnOk result (json.new ≡ json.old
        ++ optional (number_members report.now) (option_map (λ r. r.now) diagnosis.entry)) }
{
    match diagnosis {
        None => Ok(()),
        Some(diagnosis) => {
            push_missing(json, report.octets, report.announced)?;
            json.optional_number("over", diagnosis.over)?;
            push_more(json, report.octets, report.announced, diagnosis.more)
        }
    }
}

/// What is due, and what was found, in words.
#[tactic(auto, unfolding(crate::specs::Json::due_members))]
fn push_due(alloc: Global, json: &mut JsonText, report: &Report) -> Result<(), AllocError>
    ensures { OnOk result (json.new ≡ json.old ++ due_members report.now) }
{
    let due = due_text(alloc, report)?;
    let found = found_text(alloc, report)?;
    json.said("due", due.as_str())?;
    json.said("found", found.as_str())
}

/// The usual cause, what to do, and the answer for whoever sent the file, in words.
#[tactic(auto, unfolding(crate::specs::Json::advice_members))]
fn push_advice(alloc: Global, json: &mut JsonText, report: &Report) -> Result<(), AllocError>
    ensures { OnOk result (json.new ≡ json.old ++ advice_members report.now) }
{
    let likely = likely_text(alloc, report)?;
    let advice = do_text(alloc, report)?;
    let brief = brief_words(alloc, report)?;
    json.said("likely", likely.as_str())?;
    json.said("do", advice.as_str())?;
    json.text("brief", brief.as_str())
}

/// Where it isn't in DER, if that is the answer.
#[tactic(auto, unfolding(crate::specs::Json::places_members))]
fn push_places(
    alloc: Global,
    json: &mut JsonText,
    places: u64,
    report: &Report,
) -> Result<(), AllocError>
    ensures { OnOk result (json.new ≡ json.old
        ++ places_members places report.now.answer report.now) }
{
    match report.answer {
        Answer::Der | Answer::Refused(_) => Ok(()),
        Answer::NotDer(_) => push_not_der(alloc, json, report, &report.lines, places),
    }
}

/// What it asks for, and all elements, where they are wanted.
#[tactic(auto, unfolding(crate::specs::Json::contents_members))]
fn push_contents(
    alloc: Global,
    json: &mut JsonText,
    report: &Report,
    all: bool,
    lines: &[Line],
) -> Result<(), AllocError>
    requires { lines.now ≡ report.now.lines.items }
    ensures { OnOk result (json.new ≡ json.old ++ contents_members report.now all) }
{
    push_summary(alloc, json, report, lines)?;
    push_all(alloc, json, all, lines)
}

/// All elements, where they are wanted.
#[tactic(auto, unfolding(crate::specs::Json::lines_member))]
fn push_all(alloc: Global, json: &mut JsonText, all: bool, lines: &[Line]) -> Result<(), AllocError>
    ensures { OnOk result (json.new ≡ json.old ++ lines_member all lines.now) }
{
    if !all {
        return Ok(());
    }
    json.begin_list_at("lines")?;
    push_lines(alloc, json, lines)?;
    json.end_list()
}

#[tactic(auto, unfolding(crate::specs::Json::notes_member))]
fn push_remarks(
    alloc: Global,
    json: &mut JsonText,
    report: &Report,
    notes: &[Note],
) -> Result<(), AllocError>
    ensures { OnOk result (json.new ≡ json.old ++ notes_member report.now notes.now) }
{
    if notes.is_empty() {
        return Ok(());
    }
    json.begin_list_at("notes")?;
    push_notes(alloc, json, report, notes)?;
    json.end_list()
}
