//! One task over any number of documents, which have names.
ghost use Rattle.std.specs.Prelude.{◌≡◌, ◌+◌, ◌<◌, ◌≤◌, ◌++◌, ℕ, IfOk, List, MatchResult, OnOk, Option, false};
ghost use Rattle.std.specs.Prelude.{[], cond, length, true};
ghost use Rattle.arrayvec.specs.ArrayString.{array_string_len};
ghost use Rattle.commands.specs.Files.{CameAs, Entry, FilesSaid, IsLeft, IsSaid, Went, after_front, front_of};
ghost use Rattle.commands.specs.Files.{fronts_lines, has_failed_write, is_json, kept, named_line, named_text};
ghost use Rattle.commands.specs.Files.{said_line, said_text, status_of_came, status_of_end, words_of_came};
ghost use Rattle.commands.specs.NameLists.{HasStopped};
ghost use Rattle.commands.specs.Names.{shown_name};
ghost use Rattle.commands.specs.Openings.{why_of};
ghost use Rattle.commands.specs.Tallies.{verdict_of_came};

use crate::fronted::in_front_of_each;
use crate::lines::{LineWords, NamedLine};
use crate::name::{file_name, push_shown_name};
use crate::names::{Names, NamesFault};
use crate::opener::{Opener, Unopened};
use crate::outcome::{Outcome, outcome_words, plain_words, status};
use crate::reported::error_line;
use crate::run::run;
use crate::tally::{Tally, Verdict, verdict_of};
use crate::task::{Action, Task};
use asn_documents::value::write_octets;
use pk_documents::document::{Document, Valued};
use pk_documents::kind::Kind;
use std::alloc::{AllocError, Global};
use tlv_core::target::{Target, ToWrite};

/// What comes after a name has as many octets, at most.
const AFTER: usize = 2;

/// What came of a document that has a name.
#[derive(Clone, Copy, Debug, PartialEq, Eq)]
pub enum Came {
    Ran(Outcome),
    Unopened(Unopened),
}

/// How a run over any number of documents ends.
#[derive(Clone, Copy, Debug, PartialEq, Eq)]
pub enum FilesEnd {
    /// After the last name: what came of the documents.
    Through(Tally),
    /// The next name doesn't come.
    NoName(NamesFault),
    /// The writer failed after so many octets.
    WriteFailed(u64),
    /// There is no memory for what is to be said.
    Memory,
}

/// What is said of a document, and what it counts as.
#[derive(Drop)]
pub(crate) struct Said {
    pub(crate) verdict: Verdict,
    pub(crate) text: Vec<u8>,
}

/// How far a run has come: what came of the documents, and how many octets are out.
#[derive(Clone, Copy)]
pub(crate) struct Progress {
    pub(crate) tally: Tally,
    pub(crate) out: u64,
}

/// Goes through the names, and writes what the task has to say of the document of each, one after another.
pub fn run_files<N: Names, O: Opener, W: Target>(
    alloc: Global,
    names: &mut N,
    opener: &O,
    dst: &mut W,
    task: &Task,
) -> FilesEnd
    requires writable { W.has_failed dst.old ≡ false }
    ensures known { FilesSaid ⟦<Document as Valued>⟧.value (O.known opener.now) (O.refuses opener.now)
        (IsLeft O.Document.has_failed O.Document.remaining) task.now (N.left names.old)
        (HasStopped N.left N.stops names.new)
        (W.contents dst.old) (W.contents dst.new) result }
    ensures failed { W.has_failed dst.new ≡ has_failed_write result }
{
    let mut progress = Progress {
        tally: Tally::new(),
        out: 0,
    };
    for _ in 0..u64::MAX {
        match next_file(alloc, names, opener, dst, task, progress) {
            Ok(further) => progress = further,
            Err(end) => return end,
        }
    }
    FilesEnd::NoName(NamesFault::TooMany)
}

/// Writes what the task has to say of the document of the next name, or says how the run ends.
fn next_file<N: Names, O: Opener, W: Target>(
    alloc: Global,
    names: &mut N,
    opener: &O,
    dst: &mut W,
    task: &Task,
    progress: Progress,
) -> Result<Progress, FilesEnd>
    requires writable { W.has_failed dst.old ≡ false }
    ensures known { (all : List Entry) (list : Option (List (List ℕ))) (old : Option (List ℕ))
        → Went ⟦<Document as Valued>⟧.value (O.known opener.now) (O.refuses opener.now)
        (IsLeft O.Document.has_failed O.Document.remaining) task.now list (N.left names.old) old
        (W.contents dst.old) progress.tally progress.out all
        → MatchResult result (λ further. (more : List Entry) × (length more ≡ length all + 1)
        × Went ⟦<Document as Valued>⟧.value (O.known opener.now) (O.refuses opener.now)
        (IsLeft O.Document.has_failed O.Document.remaining) task.now list (N.left names.new) old
        (W.contents dst.new) further.tally further.out more)
        (FilesSaid ⟦<Document as Valued>⟧.value (O.known opener.now) (O.refuses opener.now)
        (IsLeft O.Document.has_failed O.Document.remaining) task.now list (HasStopped N.left N.stops names.new) old
        (W.contents dst.new)) }
    ensures failed { MatchResult result (λ _. W.has_failed dst.new ≡ false)
        (λ end. W.has_failed dst.new ≡ has_failed_write end) }
{
    let name = match names.next_name(alloc) {
        Ok(Some(name)) => name,
        Ok(None) => return Err(FilesEnd::Through(progress.tally)),
        Err(fault) => return Err(FilesEnd::NoName(fault)),
    };
    let Ok(said) = said_of(alloc, opener, name.as_slice(), task) else {
        return Err(FilesEnd::Memory);
    };
    let Some(out) = progress.out.checked_add(said.text.len() as u64) else {
        return Err(FilesEnd::NoName(NamesFault::TooMany));
    };
    match write_octets(said.text.as_slice(), dst) {
        Ok(_) => Ok(Progress {
            tally: progress.tally.with(said.verdict),
            out,
        }),
        Err(error) => Err(FilesEnd::WriteFailed(progress.out + error.written)),
    }
}

/// What the task has to say of the document of a name.
pub(crate) fn said_of<O: Opener>(
    alloc: Global,
    opener: &O,
    name: &[u8],
    task: &Task,
) -> Result<Said, AllocError>
    ensures { IfOk result (λ said. IsSaid ⟦<Document as Valued>⟧.value (O.known opener.now)
        (O.refuses opener.now) (IsLeft O.Document.has_failed O.Document.remaining) task.now
        name.now said.verdict said.text.items) }
{
    let file = file_name(alloc, name)?;
    let (came, written, kind) = came_of(alloc, opener, name, task, file.as_str());
    let text = said_text(alloc, task.action, name, file.as_str(), &came, written)?;
    Ok(Said {
        verdict: came_verdict(&came, kind),
        text,
    })
}

/// What comes of the document of a name, what the task writes of it, and its kind, where that is known.
fn came_of<O: Opener>(
    alloc: Global,
    opener: &O,
    name: &[u8],
    task: &Task,
    file: &str,
) -> (Came, Vec<u8>, Option<Kind>)
    ensures { CameAs ⟦<Document as Valued>⟧.value (O.known opener.now name.now)
        (O.refuses opener.now name.now) (IsLeft O.Document.has_failed O.Document.remaining)
        task.now file.now result.0 result.2 result.1.items }
{
    match opener.open(alloc, name) {
        Ok(mut src) => {
            let mut dst = ToWrite::new(Vec::new(alloc));
            let end = run(alloc, &mut src, &mut dst, task, Some(file));
            (Came::Ran(kept(end.outcome)), dst.into_inner(), end.kind)
        }
        Err(why) => (Came::Unopened(why), Vec::new(alloc), None),
    }
}

/// How a run ended whose text is kept in memory.
pub(crate) fn kept(outcome: Outcome) -> Outcome
    ensures { result ≡ kept outcome }
{
    match outcome {
        Outcome::WriteFailed(_) => Outcome::Memory,
        other => other,
    }
}

/// Words after a name, as a line, if there are any.
fn after_name(alloc: Global, name: &[u8], words: &str) -> Result<Vec<u8>, AllocError>
    requires { length words.now ≤ 192 }
    ensures { IfOk result (λ text. text.items ≡ named_line name.now words.now) }
{
    Ok(NamedLine::new(alloc, name)?.line(words).into_bytes())
}

/// What is said of a document: what was written of it with its name in front, or its line.
fn said_text(
    alloc: Global,
    action: Action,
    name: &[u8],
    file: &str,
    came: &Came,
    written: Vec<u8>,
) -> Result<Vec<u8>, AllocError>
    ensures { IfOk result (λ text. text.items
        ≡ said_text action name.now file.now came.now written.items) }
{
    let words = words_of_came(came);
    if !words.is_empty() {
        return said_line(alloc, action, name, file, came, words.as_str());
    }
    if written.is_empty() {
        return Ok(Vec::new(alloc));
    }
    named_text(alloc, action, name, written.as_slice())
}

/// What was written of a document with its name in front, of all lines or of each.
fn named_text(
    alloc: Global,
    action: Action,
    name: &[u8],
    written: &[u8],
) -> Result<Vec<u8>, AllocError>
    ensures { IfOk result (λ text. text.items ≡ named_text action name.now written.now) }
{
    let room = name.len().saturating_add(written.len());
    let mut front = Vec::with_capacity(alloc, room.saturating_add(AFTER))?;
    push_front_of(alloc, &mut front, action, name)?;
    if fronts_lines(action) {
        return in_front_of_each(alloc, front.as_slice(), written);
    }
    front.extend_from_slice(written)?;
    Ok(front)
}

/// Whether what is in front of what an action writes stands in front of each line.
fn fronts_lines(action: Action) -> bool
    ensures { result ≡ fronts_lines action }
{
    matches!(action, Action::Note(_))
}

/// What is said of a document of which not all that was asked for is written: why, in words.
fn said_line(
    alloc: Global,
    action: Action,
    name: &[u8],
    file: &str,
    came: &Came,
    words: &str,
) -> Result<Vec<u8>, AllocError>
    requires { length words.now ≤ 192 }
    ensures { IfOk result (λ text. text.items
        ≡ said_line action name.now file.now came.now words.now) }
{
    if is_json(action) {
        let text = error_line(alloc, file, u64::from(came_status(came)), words)?;
        return Ok(text.into_bytes());
    }
    after_name(alloc, name, words)
}

/// Whether what an action writes is JSON.
pub(crate) fn is_json(action: Action) -> bool
    ensures { result ≡ is_json action }
{
    match action {
        Action::Show { json } => json,
        Action::Check { json, .. } => json,
        Action::Note(noting) => noting.json,
        Action::Explain(form) => form.json,
        Action::Normalise | Action::Signed(_) => false,
    }
}

/// Appends what is in front of what the action writes.
fn push_front_of(
    alloc: Global,
    text: &mut Vec<u8>,
    action: Action,
    name: &[u8],
) -> Result<(), AllocError>
    ensures { OnOk result (text.new.items ≡ text.old.items ++ front_of action name.now) }
{
    if is_json(action) {
        return Ok(());
    }
    match action {
        Action::Check { .. } | Action::Note(_) => push_front(alloc, text, name, ": "),
        Action::Explain(form) => push_front(alloc, text, name, after_front(form.brief)),
        Action::Show { .. } => push_front(alloc, text, name, ":\n"),
        Action::Normalise | Action::Signed(_) => Ok(()),
    }
}

/// What comes after a name: a brief report stands in its line.
fn after_front(is_brief: bool) -> &'static str
    ensures { result.now ≡ after_front is_brief }
{
    if is_brief { ": " } else { ":\n" }
}

/// Appends a name as it is shown, and what comes after it.
fn push_front(alloc: Global, text: &mut Vec<u8>, name: &[u8], after: &str) -> Result<(), AllocError>
    ensures { OnOk result (text.new.items ≡ text.old.items ++ shown_name name.now ++ after.now) }
{
    push_shown_name(alloc, text, name)?;
    text.extend_from_slice(after.as_bytes())
}

/// Why not all that was asked for is written of a document; empty where what is written says all.
pub fn words_of_came(came: &Came) -> LineWords
    ensures words { result.bytes ≡ words_of_came came.now }
    ensures short { array_string_len result < 192 }
{
    match came {
        Came::Ran(outcome) => outcome_words(outcome),
        Came::Unopened(why) => plain_words(why_unopened(*why)),
    }
}

/// Why a document isn't opened, in words, which are short.
fn why_unopened(why: Unopened) -> &'static str
    ensures words { result.now ≡ why_of why }
    ensures short { length result.now < 128 }
{
    why.why()
}

/// The exit status of what came of a document.
pub fn came_status(came: &Came) -> u8
    ensures { result ≡ status_of_came came.now }
{
    match came {
        Came::Ran(outcome) => status(outcome),
        Came::Unopened(_) => 3,
    }
}

/// What a document counts as of which this came.
fn came_verdict(came: &Came, kind: Option<Kind>) -> Verdict
    ensures { result ≡ verdict_of_came came.now kind }
{
    match came {
        Came::Ran(outcome) => verdict_of(outcome, kind),
        Came::Unopened(_) => Verdict::Unread,
    }
}

/// The exit status of a run over any number of documents.
pub fn files_status(end: &FilesEnd) -> u8
    ensures { result ≡ status_of_end end.now }
{
    match end {
        FilesEnd::Through(tally) => tally.status,
        FilesEnd::NoName(_) | FilesEnd::WriteFailed(_) | FilesEnd::Memory => 3,
    }
}
