//! What the program does with its streams, over any of them.
ghost use Rattle.std.specs.Prelude.{◌≡◌, Bool, List, false, true};
ghost use Rattle.std.specs.Io.KnownBytes.{Keeps};
ghost use Rattle.commands.specs.Endings.{AnsweredAs, AnsweredFiles, AnsweredOf, EndsAs, FilesEndAs, SaysText};
ghost use Rattle.commands.specs.Files.{Entry, IsLeft, has_failed_write};
ghost use Rattle.commands.specs.NameLists.{HasStopped};
ghost use Rattle.commands.specs.Outcomes.{IsWhole};
ghost use Rattle.commands.specs.Replies.{FailedBy, IsSilent};

use crate::files::{FilesEnd, run_files};
use crate::flush::Flush;
use crate::names::Names;
use crate::opener::Opener;
use crate::outcome::{Ending, Outcome, is_whole};
use crate::run::{run, written};
use crate::task::Task;
use asn_documents::value::write_octets;
use pk_documents::document::{Document, Valued};
use std::alloc::Global;
use tlv_core::source::{Failed, Source};

/// Runs a task over no named file, and flushes the target after what is whole.
pub fn answer<R: Source, W: Flush>(alloc: Global, src: &mut R, dst: &mut W, task: &Task) -> Outcome
    requires readable { R.has_failed src.old ≡ false }
    requires writable { W.has_failed dst.old ≡ false }
    ensures answered { AnsweredAs ⟦<Document as Valued>⟧.value task.now result
        (R.remaining src.old) (R.remaining src.new) (W.contents dst.old) (W.contents dst.new) }
    // Nothing is written of what isn't all of the input.
    ensures unwritten { IsSilent result → dst.new ≡ dst.old }
    // What is whole is flushed.
    ensures flushed { IsWhole result → W.is_flushed dst.new ≡ true }
    // A failed read, write or flush is answered where the source or the target failed, and nowhere else.
    ensures failed { FailedBy result (R.has_failed src.new) (W.has_failed dst.new) }
{
    answer_of(alloc, src, dst, task).outcome
}

/// The same, and the kind of the document, where that is known.
pub fn answer_of<R: Source, W: Flush>(
    alloc: Global,
    src: &mut R,
    dst: &mut W,
    task: &Task,
) -> Ending
    requires readable { R.has_failed src.old ≡ false }
    requires writable { W.has_failed dst.old ≡ false }
    ensures answered { AnsweredOf ⟦<Document as Valued>⟧.value task.now result.outcome result.kind
        (R.remaining src.old) (R.remaining src.new) (W.contents dst.old) (W.contents dst.new) }
    ensures unwritten { IsSilent result.outcome → dst.new ≡ dst.old }
    ensures flushed { IsWhole result.outcome → W.is_flushed dst.new ≡ true }
    ensures failed { FailedBy result.outcome (R.has_failed src.new) (W.has_failed dst.new) }
{
    let end = run(alloc, src, dst, task, None);
    Ending {
        outcome: flushed(dst, end.outcome),
        kind: end.kind,
    }
}

/// Writes a text, and flushes the target after it.
pub fn say<W: Flush>(text: &str, dst: &mut W) -> Outcome
    requires writable { W.has_failed dst.old ≡ false }
    ensures known { SaysText text.now (W.contents dst.old) (W.contents dst.new) result }
    ensures flushed { IsWhole result → W.is_flushed dst.new ≡ true }
    ensures failed { FailedBy result false (W.has_failed dst.new) }
{
    let outcome = written(write_octets(text.as_bytes(), dst), Outcome::Done);
    flushed(dst, outcome)
}

/// Goes through the names, writes what the task has to say of the document of each, and flushes the target.
pub fn answer_files<N: Names, O: Opener, W: Flush>(
    alloc: Global,
    names: &mut N,
    opener: &O,
    dst: &mut W,
    task: &Task,
) -> FilesEnd
    requires writable { W.has_failed dst.old ≡ false }
    ensures answered { (entries : List Entry)
        × AnsweredFiles ⟦<Document as Valued>⟧.value (O.known opener.now)
        (O.refuses opener.now) (IsLeft O.Document.has_failed O.Document.remaining) task.now
        (N.left names.old) (HasStopped N.left N.stops names.new) (W.contents dst.old)
        (W.contents dst.new) entries result }
    ensures flushed { has_failed_write result ≡ false → W.is_flushed dst.new ≡ true }
    // A failed write or flush is answered where the target failed, and nowhere else.
    ensures failed { W.has_failed dst.new ≡ has_failed_write result }
{
    let end = run_files(alloc, names, opener, dst, task);
    files_flushed(dst, end)
}

/// How a run over named documents ends that ended so before the target was flushed.
pub(crate) fn files_flushed<W: Flush>(dst: &mut W, end: FilesEnd) -> FilesEnd
    requires ended { W.has_failed dst.old ≡ has_failed_write end }
    ensures ends { FilesEndAs end result }
    ensures kept { Keeps (W.contents dst.old) (W.contents dst.new) }
    ensures flushed { has_failed_write result ≡ false → W.is_flushed dst.new ≡ true }
    ensures failed { W.has_failed dst.new ≡ has_failed_write result }
{
    if let FilesEnd::WriteFailed(_) = end {
        return end;
    }
    match dst.flush() {
        Ok(()) => end,
        Err(Failed) => FilesEnd::WriteFailed(0),
    }
}

/// How a run ends that ended so before the target was flushed.
fn flushed<W: Flush>(dst: &mut W, outcome: Outcome) -> Outcome
    requires ended { IsWhole outcome → W.has_failed dst.old ≡ false }
    ensures ends { EndsAs outcome result }
    ensures kept { Keeps (W.contents dst.old) (W.contents dst.new) }
    ensures unwritten { IsSilent result → dst.new ≡ dst.old }
    ensures flushed { IsWhole result → W.is_flushed dst.new ≡ true }
    ensures failed { (source : Bool) → FailedBy outcome source (W.has_failed dst.old)
        → FailedBy result source (W.has_failed dst.new) }
{
    if !is_whole(&outcome) {
        return outcome;
    }
    match dst.flush() {
        Ok(()) => outcome,
        Err(Failed) => unflushed(),
    }
}

/// The outcome where a target isn't flushed: how many octets it kept back isn't known.
fn unflushed() -> Outcome
    ensures { result ≡ Outcome.WriteFailed 0 }
{
    Outcome::WriteFailed(0)
}
