//! The line that says how many documents count as what.
ghost use Rattle.std.specs.Prelude.{[], ◌≡◌, ◌++◌, ◌+◌, ◌≤◌, ◌==◌, IfOk, OnOk, codes, cond, length, slice_index};
ghost use Rattle.std.specs.Prelude.{string_bytes};
ghost use Rattle.json.specs.Print.{print};
ghost use Rattle.tlv_core.specs.Reasons.{number_of as number_of_reason};
ghost use Rattle.pk_documents.specs.KindRows.{number_of as number_of_kind};
ghost use Rattle.commands.specs.Endings.{WritesLine};
ghost use Rattle.commands.specs.Outcomes.{line_feed};
ghost use Rattle.commands.specs.Sums.{SumsUp, after_colon, bracketed, count_members, documents_word, head_members};
ghost use Rattle.commands.specs.Sums.{kind_counts, kind_items, kind_object, kind_objects, kinds_member, kinds_text};
ghost use Rattle.commands.specs.Sums.{list_members, other_members};
ghost use Rattle.commands.specs.Sums.{reason_items, reason_object, reason_objects, reasons_member, reasons_text};
ghost use Rattle.commands.specs.Sums.{sound_key, sound_word, sum_line};
ghost use Rattle.commands.specs.Sums.{sum_members, sum_object, sum_words, verdict_items, with_item};

use crate::closing::{finish, write_line};
use crate::files::is_json;
use crate::outcome::Outcome;
use crate::tally::{Tally, kind_number, reason_number};
use crate::task::{Action, Task};
use explain::version::VERSION;
use pk_documents::kind::{KINDS, Kind};
use reports::json_text::JsonText;
use reports::text::push_number;
use std::alloc::{AllocError, Global};
use tlv_core::reason::Reason;
use tlv_core::target::Target;

/// All reasons, in the order of their numbers.
pub const REASONS: [Reason; 27] = [
    Reason::Truncated,
    Reason::TooLong,
    Reason::BadTag,
    Reason::PastEnd,
    Reason::BadEnd,
    Reason::TooDeep,
    Reason::WrongTag,
    Reason::Extra,
    Reason::LeftOut,
    Reason::WrongForm,
    Reason::BadLength,
    Reason::Missing,
    Reason::BadInteger,
    Reason::BadBoolean,
    Reason::BadNull,
    Reason::BadBits,
    Reason::BadOid,
    Reason::BadText,
    Reason::EmptySet,
    Reason::Version,
    Reason::Parameters,
    Reason::Inner,
    Reason::Curve,
    Reason::KeyLength,
    Reason::VersionRule,
    Reason::TextTooLong,
    Reason::Trailing,
];

/// Writes the line of what documents count as, and answers their largest status.
pub fn finish_sum<W: Target>(alloc: Global, task: &Task, tally: &Tally, dst: &mut W) -> u8
    ensures { SumsUp (λ line status. WritesLine line (W.contents dst.old) (W.contents dst.new)
        (W.has_failed dst.new) × (result ≡ status)) task.now tally.now }
{
    match sum_line(alloc, task, tally) {
        Ok(line) => {
            write_line(line.as_bytes(), dst);
            tally.status
        }
        Err(_) => finish(&Outcome::Memory, dst),
    }
}

/// The line of what documents count as.
fn sum_line(alloc: Global, task: &Task, tally: &Tally) -> Result<String, AllocError>
    ensures { IfOk result (λ text. string_bytes text ≡ sum_line task.now tally.now) }
{
    if is_json(task.action) {
        return sum_json(alloc, task, tally);
    }
    sum_words(alloc, task, tally)
}

/// The same in words.
#[tactic(auto, unfolding(crate::specs::Sums::sum_words))]
fn sum_words(alloc: Global, task: &Task, tally: &Tally) -> Result<String, AllocError>
    ensures { IfOk result (λ text. string_bytes text ≡ sum_words task.now tally.now) }
{
    let items = verdict_items(alloc, task, tally)?;
    let mut text = String::from_str(alloc, "sum: ")?;
    push_number(&mut text, tally.files)?;
    text.push_str(documents_word(tally.files))?;
    push_after_colon(&mut text, items.as_str())?;
    text.push_str("\n")?;
    Ok(text)
}

fn documents_word(count: u64) -> &'static str
    ensures { result.now ≡ documents_word count }
{
    if count == 1 {
        " document"
    } else {
        " documents"
    }
}

/// Appends what follows a colon, where there is something.
fn push_after_colon(text: &mut String, words: &str) -> Result<(), AllocError>
    ensures { OnOk result (string_bytes text.new ≡ string_bytes text.old ++ after_colon words.now) }
{
    if words.is_empty() {
        return Ok(());
    }
    text.push_str(": ")?;
    text.push_str(words)
}

/// How many there are of each verdict.
#[tactic(auto, unfolding(crate::specs::Sums::verdict_items))]
fn verdict_items(alloc: Global, task: &Task, tally: &Tally) -> Result<String, AllocError>
    ensures { IfOk result (λ text. string_bytes text ≡ verdict_items task.now tally.now) }
{
    let mut text = String::new(alloc);
    let sound = kinds_text(alloc, task, tally, 0)?;
    push_verdict(
        alloc,
        &mut text,
        tally.verdicts[0],
        sound_word(task.action),
        sound.as_str(),
    )?;
    let not_der = kinds_text(alloc, task, tally, 7)?;
    push_verdict(
        alloc,
        &mut text,
        tally.verdicts[1],
        "not DER",
        not_der.as_str(),
    )?;
    let noted = kinds_text(alloc, task, tally, 14)?;
    push_verdict(alloc, &mut text, tally.verdicts[2], "noted", noted.as_str())?;
    let refused = reasons_text(alloc, tally)?;
    push_verdict(
        alloc,
        &mut text,
        tally.verdicts[3],
        "refused",
        refused.as_str(),
    )?;
    push_item(&mut text, tally.verdicts[4], "unread")?;
    Ok(text)
}

/// Appends how many there are of a verdict, and of what.
fn push_verdict(
    alloc: Global,
    text: &mut String,
    count: u64,
    word: &str,
    details: &str,
) -> Result<(), AllocError>
    ensures { OnOk result (string_bytes text.new
        ≡ with_item (string_bytes text.old) count (word.now ++ bracketed details.now)) }
{
    let mut words = String::from_str(alloc, word)?;
    push_bracketed(&mut words, details)?;
    push_item(text, count, words.as_str())
}

/// Appends a text in brackets, where there is something.
fn push_bracketed(text: &mut String, details: &str) -> Result<(), AllocError>
    ensures { OnOk result (string_bytes text.new ≡ string_bytes text.old ++ bracketed details.now) }
{
    if details.is_empty() {
        return Ok(());
    }
    text.push_str(" (")?;
    text.push_str(details)?;
    text.push_str(")")
}

/// Appends how many there are of something, after a comma where something is before it; nothing where there are none.
#[tactic(auto, unfolding(crate::specs::Sums::with_item))]
fn push_item(text: &mut String, count: u64, words: &str) -> Result<(), AllocError>
    ensures { OnOk result (string_bytes text.new ≡ with_item (string_bytes text.old) count words.now) }
{
    if count == 0 {
        return Ok(());
    }
    push_comma(text)?;
    push_number(text, count)?;
    text.push_str(" ")?;
    text.push_str(words)
}

/// Appends a comma, where something is before it.
fn push_comma(text: &mut String) -> Result<(), AllocError>
    ensures { OnOk result (string_bytes text.new
        ≡ string_bytes text.old ++ cond (length (string_bytes text.old) == 0) [] (codes ", ")) }
{
    if text.is_empty() {
        return Ok(());
    }
    text.push_str(", ")
}

/// What a document is of which all was written that was asked for.
fn sound_word(action: Action) -> &'static str
    ensures { result.now ≡ sound_word action }
{
    match action {
        Action::Show { .. } => "shown",
        _ => "DER",
    }
}

/// How many are of each kind, of the verdict whose rows begin here, where the kind of each document was to be found.
fn kinds_text(alloc: Global, task: &Task, tally: &Tally, row: usize) -> Result<String, AllocError>
    requires { row ≤ 14 }
    ensures { IfOk result (λ text. string_bytes text ≡ kinds_text task.now tally.now row) }
{
    let mut text = String::new(alloc);
    if task.kind.is_none() {
        push_kinds(&mut text, tally, row, &KINDS)?;
    }
    Ok(text)
}

/// Appends how many are of each of these kinds.
#[tactic(auto, unfolding(crate::specs::Sums::kind_items))]
fn push_kinds(
    text: &mut String,
    tally: &Tally,
    row: usize,
    kinds: &[Kind],
) -> Result<(), AllocError>
    requires { row ≤ 14 }
    ensures { OnOk result (string_bytes text.new
        ≡ kind_items tally.now row (string_bytes text.old) kinds.now) }
{
    match kinds {
        [] => Ok(()),
        [kind, later @ ..] => {
            push_item(text, kind_count(tally, row, *kind), kind.row().word)?;
            push_kinds(text, tally, row, later)
        }
    }
}

/// How many are of a kind, of the verdict whose rows begin here.
fn kind_count(tally: &Tally, row: usize, kind: Kind) -> u64
    requires { row ≤ 14 }
    ensures { result ≡ slice_index tally.now.kinds (row + number_of_kind kind) }
{
    tally.kinds[row + kind_number(Some(kind))]
}

/// How many are refused for each reason, after how many are of no kind.
fn reasons_text(alloc: Global, tally: &Tally) -> Result<String, AllocError>
    ensures { IfOk result (λ text. string_bytes text ≡ reasons_text tally.now) }
{
    let mut text = String::new(alloc);
    push_item(&mut text, tally.reasons[0], "of no kind")?;
    push_reasons(&mut text, tally, &REASONS)?;
    Ok(text)
}

/// Appends how many are refused for each of these reasons.
#[tactic(auto, unfolding(crate::specs::Sums::reason_items))]
fn push_reasons(text: &mut String, tally: &Tally, whys: &[Reason]) -> Result<(), AllocError>
    ensures { OnOk result (string_bytes text.new
        ≡ reason_items tally.now (string_bytes text.old) whys.now) }
{
    match whys {
        [] => Ok(()),
        [why, later @ ..] => {
            push_item(text, reason_count(tally, *why), why.name())?;
            push_reasons(text, tally, later)
        }
    }
}

/// How many are refused for a reason.
fn reason_count(tally: &Tally, why: Reason) -> u64
    ensures { result ≡ slice_index tally.now.reasons (number_of_reason why) }
{
    tally.reasons[reason_number(Some(why))]
}

/// The line as JSON.
#[tactic(auto, unfolding(crate::specs::Sums::sum_object))]
fn sum_json(alloc: Global, task: &Task, tally: &Tally) -> Result<String, AllocError>
    ensures { IfOk result (λ text. string_bytes text
        ≡ print (sum_object task.now tally.now) ++ line_feed) }
{
    let mut json = JsonText::new(alloc);
    json.begin_object()?;
    push_members(&mut json, task, tally)?;
    json.end_object()?;
    json.into_line()
}

/// The members of the object.
#[tactic(auto, unfolding(crate::specs::Sums::sum_members))]
fn push_members(json: &mut JsonText, task: &Task, tally: &Tally) -> Result<(), AllocError>
    ensures { OnOk result (json.new ≡ json.old ++ sum_members task.now tally.now) }
{
    push_head(json)?;
    push_counts(json, task, tally)?;
    push_lists(json, task, tally)
}

/// The number of the form, and the version.
#[tactic(auto, unfolding(crate::specs::Sums::head_members))]
fn push_head(json: &mut JsonText) -> Result<(), AllocError>
    ensures { OnOk result (json.new ≡ json.old ++ head_members) }
{
    json.number("form", 1)?;
    json.text("version", VERSION)
}

/// How many there are of each kind, and refused for each reason.
#[tactic(auto, unfolding(crate::specs::Sums::list_members))]
fn push_lists(json: &mut JsonText, task: &Task, tally: &Tally) -> Result<(), AllocError>
    ensures { OnOk result (json.new ≡ json.old ++ list_members task.now tally.now) }
{
    push_kinds_member(json, task, tally)?;
    json.number("no_kind", tally.reasons[0])?;
    push_reasons_member(json, tally)
}

/// How many documents are of each kind.
#[tactic(auto, unfolding(crate::specs::Sums::kinds_member))]
fn push_kinds_member(json: &mut JsonText, task: &Task, tally: &Tally) -> Result<(), AllocError>
    ensures { OnOk result (json.new ≡ json.old ++ kinds_member task.now tally.now) }
{
    json.begin_list_at("kinds")?;
    push_kind_objects(json, task, tally, &KINDS)?;
    json.end_list()
}

/// How many are refused for each reason.
#[tactic(auto, unfolding(crate::specs::Sums::reasons_member))]
fn push_reasons_member(json: &mut JsonText, tally: &Tally) -> Result<(), AllocError>
    ensures { OnOk result (json.new ≡ json.old ++ reasons_member tally.now) }
{
    json.begin_list_at("reasons")?;
    push_reason_objects(json, tally, &REASONS)?;
    json.end_list()
}

/// How many there are, and of each verdict.
#[tactic(auto, unfolding(crate::specs::Sums::count_members))]
fn push_counts(json: &mut JsonText, task: &Task, tally: &Tally) -> Result<(), AllocError>
    ensures { OnOk result (json.new ≡ json.old ++ count_members task.now tally.now) }
{
    json.number("documents", tally.files)?;
    json.number(sound_key(task.action), tally.verdicts[0])?;
    push_others(json, tally)
}

/// How many there are of the other verdicts.
#[tactic(auto, unfolding(crate::specs::Sums::other_members))]
fn push_others(json: &mut JsonText, tally: &Tally) -> Result<(), AllocError>
    ensures { OnOk result (json.new ≡ json.old ++ other_members tally.now) }
{
    json.number("not_der", tally.verdicts[1])?;
    json.number("noted", tally.verdicts[2])?;
    json.number("refused", tally.verdicts[3])?;
    json.number("unread", tally.verdicts[4])
}

fn sound_key(action: Action) -> &'static str
    ensures { result.now ≡ sound_key action }
{
    match action {
        Action::Show { .. } => "shown",
        _ => "der",
    }
}

/// How many documents are of each of these kinds.
#[tactic(auto, unfolding(crate::specs::Sums::kind_objects))]
fn push_kind_objects(
    json: &mut JsonText,
    task: &Task,
    tally: &Tally,
    kinds: &[Kind],
) -> Result<(), AllocError>
    ensures { OnOk result (json.new ≡ json.old ++ kind_objects task.now tally.now kinds.now) }
{
    match kinds {
        [] => Ok(()),
        [kind, later @ ..] => {
            push_kind_object(json, task, tally, *kind)?;
            push_kind_objects(json, task, tally, later)
        }
    }
}

/// How many documents are of a kind.
#[tactic(auto, unfolding(crate::specs::Sums::kind_object))]
fn push_kind_object(
    json: &mut JsonText,
    task: &Task,
    tally: &Tally,
    kind: Kind,
) -> Result<(), AllocError>
    ensures { OnOk result (json.new ≡ json.old ++ kind_object task.now tally.now kind) }
{
    json.begin_object()?;
    json.text("kind", kind.row().word)?;
    push_kind_counts(json, task, tally, kind)?;
    json.end_object()
}

/// How many documents of a kind are of each verdict that says one.
#[tactic(auto, unfolding(crate::specs::Sums::kind_counts))]
fn push_kind_counts(
    json: &mut JsonText,
    task: &Task,
    tally: &Tally,
    kind: Kind,
) -> Result<(), AllocError>
    ensures { OnOk result (json.new ≡ json.old ++ kind_counts task.now tally.now kind) }
{
    json.number(sound_key(task.action), kind_count(tally, 0, kind))?;
    json.number("not_der", kind_count(tally, 7, kind))?;
    json.number("noted", kind_count(tally, 14, kind))
}

/// How many are refused for each of these reasons, where there are some.
#[tactic(auto, unfolding(crate::specs::Sums::reason_objects))]
fn push_reason_objects(
    json: &mut JsonText,
    tally: &Tally,
    whys: &[Reason],
) -> Result<(), AllocError>
    ensures { OnOk result (json.new ≡ json.old ++ reason_objects tally.now whys.now) }
{
    match whys {
        [] => Ok(()),
        [why, later @ ..] => {
            push_reason_object(json, tally, *why)?;
            push_reason_objects(json, tally, later)
        }
    }
}

/// How many are refused for a reason, where there are some.
#[tactic(auto, unfolding(crate::specs::Sums::reason_object))]
fn push_reason_object(json: &mut JsonText, tally: &Tally, why: Reason) -> Result<(), AllocError>
    ensures { OnOk result (json.new ≡ json.old ++ reason_object tally.now why) }
{
    let count = reason_count(tally, why);
    if count == 0 {
        return Ok(());
    }
    json.begin_object()?;
    json.text("reason", why.name())?;
    json.number("count", count)?;
    json.end_object()
}
