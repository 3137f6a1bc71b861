//! One task over an input whose kind is to be found.
ghost use Rattle.std.specs.Prelude.{◌≡◌, Bool, IfOk, List, Option, Some, [], false, ℕ};
ghost use Rattle.std.specs.Option.{option_map};
ghost use Rattle.commands.specs.Replies.{FailedBy, IsSilent, RepliedAny, RepliedBy, SaidOfAny, SaidOfNone};
ghost use Rattle.commands.specs.Replies.{SaidOfLikely, SaidOfOne, WritesWhole, after_none, after_word};
ghost use Rattle.commands.specs.Replies.{is_report, is_unnamed, said_of_kind};

use crate::files::kept;
use crate::fronted::in_front_of_each;
use crate::input::read_all;
use crate::outcome::{Ending, Outcome, is_whole};
use crate::run::{run_on_kind, unread, written};
use crate::task::{Action, KindTask, Task};
use asn_documents::value::write_octets;
use explain::kinds::{kind_of, likely_kind};
use pk_documents::document::{Document, Valued};
use pk_documents::kind::Kind;
use std::alloc::{AllocError, Global};
use tlv_core::fault::Fault;
use tlv_core::limits::Limits;
use tlv_core::source::Source;
use tlv_core::target::{Target, ToWrite};

/// Takes all of the input, finds the kind of which it is a document, and writes what the task says of that.
pub(crate) fn run_on_any<R: Source, W: Target>(
    alloc: Global,
    src: &mut R,
    dst: &mut W,
    task: &Task,
    file: Option<&str>,
) -> Ending
    requires readable { R.has_failed src.old ≡ false }
    requires writable { W.has_failed dst.old ≡ false }
    ensures replied { RepliedAny ⟦<Document as Valued>⟧.value task.now.action
        (option_map (λ r. r.now) file.entry) task.now.limits result.outcome result.kind
        (R.remaining src.old) (R.remaining src.new) (W.contents dst.old) (W.contents dst.new) }
    ensures unwritten { IsSilent result.outcome → dst.new ≡ dst.old }
    ensures failed { FailedBy result.outcome (R.has_failed src.new) (W.has_failed dst.new) }
{
    match read_all(alloc, src, task.limits.octets() as usize + 1) {
        Ok(octets) => {
            let given = octets.as_slice();
            let (end, text, kind) = said_of_any(alloc, given, task.action, task.limits, file);
            Ending {
                outcome: write_whole(end, text.as_slice(), dst),
                kind,
            }
        }
        Err(error) => Ending {
            outcome: unread(&error),
            kind: None,
        },
    }
}

/// Writes a text where that is whole.
fn write_whole<W: Target>(end: Outcome, text: &[u8], dst: &mut W) -> Outcome
    requires writable { W.has_failed dst.old ≡ false }
    requires sure { FailedBy end false false }
    ensures wrote { WritesWhole end text.now result (W.contents dst.old) (W.contents dst.new) }
    ensures unwritten { IsSilent result → dst.new ≡ dst.old }
    ensures failed { FailedBy result false (W.has_failed dst.new) }
{
    if !is_whole(&end) {
        return end;
    }
    written(write_octets(text, dst), end)
}

/// How the task ends over octets whose kind is to be found, what it writes, and the kind.
fn said_of_any(
    alloc: Global,
    octets: &[u8],
    action: Action,
    limits: Limits,
    file: Option<&str>,
) -> (Outcome, Vec<u8>, Option<Kind>)
    ensures said { SaidOfAny ⟦<Document as Valued>⟧.value action (option_map (λ r. r.now) file.entry)
        limits octets.now result.2 result.0 result.1.items }
    ensures sure { FailedBy result.0 false false }
{
    let Ok(found) = kind_of(alloc, octets, limits) else {
        return (Outcome::Memory, Vec::new(alloc), None);
    };
    match found {
        Some(kind) => {
            let task = KindTask {
                action,
                kind,
                limits,
            };
            let (end, text) = said_of_kind(alloc, octets, &task, file);
            (end, text, Some(kind))
        }
        None => {
            let (end, text) = said_of_none(alloc, octets, action, limits, file);
            (end, text, None)
        }
    }
}

/// The same of octets that are a document of this kind.
fn said_of_kind(
    alloc: Global,
    octets: &[u8],
    task: &KindTask,
    file: Option<&str>,
) -> (Outcome, Vec<u8>)
    ensures said { SaidOfOne ⟦<Document as Valued>⟧.value task.now.action
        (option_map (λ r. r.now) file.entry) task.now.limits octets.now task.now.kind
        (said_of_kind task.now.action task.now.kind) result.0 result.1.items }
    ensures sure { FailedBy result.0 false false }
{
    let (end, written) = said_as(alloc, octets, task, file);
    match after_kind(alloc, task.action, task.kind, written) {
        Ok(text) => (end, text),
        Err(_) => (Outcome::Memory, Vec::new(alloc)),
    }
}

/// What was written of a document of this kind, with the kind in front where that isn't said.
fn after_kind(
    alloc: Global,
    action: Action,
    kind: Kind,
    written: Vec<u8>,
) -> Result<Vec<u8>, AllocError>
    ensures { IfOk result (λ text. text.items ≡ said_of_kind action kind written.items) }
{
    if !lacks_kind(action) {
        return Ok(written);
    }
    in_front(alloc, kind, written.as_slice())
}

/// Whether the lines that an action writes don't say the kind.
fn lacks_kind(action: Action) -> bool
    ensures { result ≡ is_unnamed action }
{
    match action {
        Action::Check { json, .. } => !json,
        Action::Note(noting) => !noting.json,
        Action::Show { .. } | Action::Explain(_) | Action::Normalise | Action::Signed(_) => false,
    }
}

/// Lines, each after the word of a kind.
fn in_front(alloc: Global, kind: Kind, lines: &[u8]) -> Result<Vec<u8>, AllocError>
    ensures { IfOk result (λ text. text.items ≡ after_word kind lines.now) }
{
    let mut front = Vec::new(alloc);
    front.extend_from_slice(kind.row().word.as_bytes())?;
    front.extend_from_slice(b": ")?;
    in_front_of_each(alloc, front.as_slice(), lines)
}

/// The same of octets that are a document of no kind.
fn said_of_none(
    alloc: Global,
    octets: &[u8],
    action: Action,
    limits: Limits,
    file: Option<&str>,
) -> (Outcome, Vec<u8>)
    ensures said { SaidOfNone ⟦<Document as Valued>⟧.value action (option_map (λ r. r.now) file.entry)
        limits octets.now result.0 result.1.items }
    ensures sure { FailedBy result.0 false false }
{
    let Ok(likely) = likely_kind(alloc, octets, limits) else {
        return (Outcome::Memory, Vec::new(alloc));
    };
    match likely {
        Some(one) => {
            let task = KindTask {
                action,
                kind: one.0,
                limits,
            };
            said_of_likely(alloc, octets, &task, one.1, file)
        }
        None => (Outcome::NoKind(None), Vec::new(alloc)),
    }
}

/// Whether an action writes the lines of a report.
fn has_lines(action: Action) -> bool
    ensures { result ≡ is_report action }
{
    match action {
        Action::Explain(form) => !form.json && !form.brief,
        Action::Show { .. }
        | Action::Check { .. }
        | Action::Note(_)
        | Action::Normalise
        | Action::Signed(_) => false,
    }
}

/// The same of octets that are of no kind, and likely of this one, as whose document they have this fault.
fn said_of_likely(
    alloc: Global,
    octets: &[u8],
    task: &KindTask,
    fault: Fault,
    file: Option<&str>,
) -> (Outcome, Vec<u8>)
    ensures said { SaidOfLikely ⟦<Document as Valued>⟧.value task.now.action
        (option_map (λ r. r.now) file.entry) task.now.limits octets.now
        (record { 0 = task.now.kind; 1 = fault }) (is_report task.now.action) result.0 result.1.items }
    ensures sure { FailedBy result.0 false false }
{
    if !has_lines(task.action) {
        return (Outcome::NoKind(Some((task.kind, fault))), Vec::new(alloc));
    }
    let (end, written) = said_as(alloc, octets, task, file);
    match below_none(alloc, written.as_slice()) {
        Ok(text) => (end, text),
        Err(_) => (Outcome::Memory, Vec::new(alloc)),
    }
}

/// A text after a line that says that octets are of no kind, and an empty one.
fn below_none(alloc: Global, written: &[u8]) -> Result<Vec<u8>, AllocError>
    ensures { IfOk result (λ text. text.items ≡ after_none written.now) }
{
    let mut text = Vec::new(alloc);
    text.extend_from_slice(b"none of these\n\n")?;
    text.extend_from_slice(written)?;
    Ok(text)
}

/// How the task ends over octets as those of a document of a kind, for want of memory too, and what it writes.
fn said_as(alloc: Global, octets: &[u8], task: &KindTask, file: Option<&str>) -> (Outcome, Vec<u8>)
    ensures said { SaidOfOne ⟦<Document as Valued>⟧.value task.now.action
        (option_map (λ r. r.now) file.entry) task.now.limits octets.now task.now.kind (λ written. written)
        result.0 result.1.items }
    ensures sure { FailedBy result.0 false false }
{
    let (outcome, written) = run_in_memory(alloc, octets, task, file);
    (kept(outcome), written)
}

/// Does the task with octets as those of a document of a kind, and has what it writes in memory.
fn run_in_memory(
    alloc: Global,
    octets: &[u8],
    task: &KindTask,
    file: Option<&str>,
) -> (Outcome, Vec<u8>)
    ensures replied { (after : Option (List ℕ))
        × RepliedBy ⟦<Document as Valued>⟧.value task.now.action (option_map (λ r. r.now) file.entry)
        task.now.kind task.now.limits result.0 (Some octets.now) after (Some []) (Some result.1.items) }
    ensures failed { (target : Bool) × FailedBy result.0 false target }
{
    let mut src = octets;
    let mut dst = ToWrite::new(Vec::new(alloc));
    let outcome = run_on_kind(alloc, &mut src, &mut dst, task, file);
    (outcome, dst.into_inner())
}
