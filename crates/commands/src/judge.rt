//! Documents that are judged, of which one may be that of standard input.
ghost use Rattle.std.specs.Prelude.{◌≡◌, IfSome, false, map};
ghost use Rattle.std.specs.List.{list_any};
ghost use Rattle.std.specs.Option.{option_map};
ghost use Rattle.commands.specs.Judgements.{Goes, Judges, JudgesInput, JudgesNames, Tallied};
ghost use Rattle.commands.specs.Judgements.{part_of, parts_named, parts_of, sources_of, tally_through, verdicts_after};
ghost use Rattle.commands.specs.Files.{IsLeft};
ghost use Rattle.commands.specs.JudgedParts.{GoesBy, JudgesAll};
ghost use Rattle.commands.specs.Judgements.Part.{Listed, Named};
ghost use Rattle.commands.specs.Lines.{name_of_line};
ghost use Rattle.commands.specs.NameLists.{HasStopped};
ghost use Rattle.commands.specs.Outcomes.{line_of};
ghost use Rattle.commands.specs.declared.outcome.Outcome.TheVariants.{Memory};
ghost use Rattle.commands.specs.Standards.{IsReadable, SaysAlone, is_dash, seen};
ghost use Rattle.commands.specs.Tallies.{tally_of};

use crate::closing::{finish, finish_files, finish_named};
use crate::ended_names::EndedNames;
use crate::files::{Came, FilesEnd};
use crate::flush::Flush;
use crate::judge_streams::judge_streams;
use crate::lines::NamedLine;
use crate::names::{Names, Words};
use crate::opener::{Opener, RegularFiles};
use crate::outcome::{Ending, Outcome};
use crate::pair::finish_taken;
use crate::standard::{Standard, is_dash};
use crate::streams::{answer_files, answer_of};
use crate::sums::finish_sum;
use crate::tally::{Tally, Verdict, verdict_of};
use crate::task::Task;
use pk_documents::document::{Document, Valued};
use std::alloc::Global;
use tlv_core::source::Source;
use tlv_core::target::Target;

/// The status of a run that ended before its last document.
const FAILED: u8 = 3;

/// What is judged: the documents of these names, and those of a list after them, or that of standard input where
/// nothing is named.
#[derive(Clone, Copy)]
pub struct Documents<'a> {
    pub names: &'a [&'a str],
    pub list: Option<&'a str>,
    /// Whether each name is of documents one behind another, and not of one. There is no list then.
    pub each: bool,
    /// Whether a line after the last one says how many documents count as what.
    pub sums: bool,
}

/// Says what the task has to say of documents, and how many count as what where that is asked for, and answers the exit
/// status: the largest one, or 3 where the run ended before the last document.
pub fn judge<R: Source + Drop, W: Flush, E: Target, O: Opener>(
    alloc: Global,
    task: &Task,
    documents: Documents<'_>,
    standard: &mut Standard<R, W, E>,
    opener: &O,
) -> u8
    requires readable { IsReadable R.has_failed standard.old.input }
    requires writable { W.has_failed standard.old.output ≡ false }
    ensures { JudgesAll ⟦<Document as Valued>⟧.value (sources_of R.has_failed R.remaining O.Document.has_failed
        O.Document.remaining (O.known opener.now) (O.refuses opener.now)) task.now documents.entry.each
        documents.entry.sums
        (map (λ r. r.now) documents.entry.names.now) (option_map (λ r. r.now) documents.entry.list)
        (seen R.remaining W.contents W.has_failed W.is_flushed E.contents E.has_failed standard.old)
        (seen R.remaining W.contents W.has_failed W.is_flushed E.contents E.has_failed standard.new)
        result }
{
    let Some(tally) = judge_parts(alloc, task, documents, standard, opener) else {
        return FAILED;
    };
    if documents.sums {
        return finish_sum(alloc, task, &tally, &mut standard.errors);
    }
    tally.status
}

/// The same, but nothing where the run ended before the last document, and otherwise how many count as what.
fn judge_parts<R: Source + Drop, W: Flush, E: Target, O: Opener>(
    alloc: Global,
    task: &Task,
    documents: Documents<'_>,
    standard: &mut Standard<R, W, E>,
    opener: &O,
) -> Option<Tally>
    requires readable { IsReadable R.has_failed standard.old.input }
    requires writable { W.has_failed standard.old.output ≡ false }
    ensures { Tallied (GoesBy ⟦<Document as Valued>⟧.value (sources_of R.has_failed R.remaining
        O.Document.has_failed O.Document.remaining (O.known opener.now) (O.refuses opener.now)) task.now
        documents.entry.each (map (λ r. r.now) documents.entry.names.now)
        (option_map (λ r. r.now) documents.entry.list)
        (seen R.remaining W.contents W.has_failed W.is_flushed E.contents E.has_failed standard.old)
        (seen R.remaining W.contents W.has_failed W.is_flushed E.contents E.has_failed standard.new))
        result }
{
    let names = documents.names;
    if documents.each {
        return judge_streams(alloc, task, names, standard, opener);
    }
    judge_all(alloc, task, names, documents.list, standard, opener)
}

/// The same of documents that are files of their own.
fn judge_all<R: Source + Drop, W: Flush, E: Target, O: Opener>(
    alloc: Global,
    task: &Task,
    names: &[&str],
    list: Option<&str>,
    standard: &mut Standard<R, W, E>,
    opener: &O,
) -> Option<Tally>
    requires readable { IsReadable R.has_failed standard.old.input }
    requires writable { W.has_failed standard.old.output ≡ false }
    ensures { Tallied (Goes (Judges ⟦<Document as Valued>⟧.value (sources_of R.has_failed R.remaining
        O.Document.has_failed O.Document.remaining (O.known opener.now) (O.refuses opener.now)) task.now)
        (parts_of (map (λ r. r.now) names.now) (option_map (λ r. r.now) list.entry))
        (seen R.remaining W.contents W.has_failed W.is_flushed E.contents E.has_failed standard.old)
        (seen R.remaining W.contents W.has_failed W.is_flushed E.contents E.has_failed standard.new))
        result }
{
    let Some(list) = list else {
        if names.is_empty() {
            return judge_input(alloc, task, standard);
        }
        return judge_names(alloc, task, names, standard, opener);
    };
    let first = judge_names(alloc, task, names, standard, opener)?;
    let last = judge_list(alloc, task, list, standard, opener)?;
    Some(first.with_all(&last))
}

/// The same of the documents of these names alone.
fn judge_names<R: Source + Drop, W: Flush, E: Target, O: Opener>(
    alloc: Global,
    task: &Task,
    names: &[&str],
    standard: &mut Standard<R, W, E>,
    opener: &O,
) -> Option<Tally>
    requires readable { IsReadable R.has_failed standard.old.input }
    requires writable { W.has_failed standard.old.output ≡ false }
    ensures readable { IsReadable R.has_failed standard.new.input }
    ensures writable { IfSome result (λ _. W.has_failed standard.new.output ≡ false) }
    ensures goes { Tallied (Goes (Judges ⟦<Document as Valued>⟧.value (sources_of R.has_failed R.remaining
        O.Document.has_failed O.Document.remaining (O.known opener.now) (O.refuses opener.now)) task.now)
        (parts_named (map (λ r. r.now) names.now))
        (seen R.remaining W.contents W.has_failed W.is_flushed E.contents E.has_failed standard.old)
        (seen R.remaining W.contents W.has_failed W.is_flushed E.contents E.has_failed standard.new))
        result }
{
    if has_dash(names) {
        return judge_each(alloc, task, names, standard, opener);
    }
    judge_named(alloc, task, names, standard, opener)
}

/// Whether one of these names is that of standard input.
fn has_dash(names: &[&str]) -> bool
    ensures { result ≡ list_any is_dash (map (λ r. r.now) names.now) }
{
    for name in names {
        if is_dash(name) {
            return true;
        }
    }
    false
}

/// The same of each name by itself.
fn judge_each<R: Source + Drop, W: Flush, E: Target, O: Opener>(
    alloc: Global,
    task: &Task,
    names: &[&str],
    standard: &mut Standard<R, W, E>,
    opener: &O,
) -> Option<Tally>
    requires readable { IsReadable R.has_failed standard.old.input }
    requires writable { W.has_failed standard.old.output ≡ false }
    ensures readable { IsReadable R.has_failed standard.new.input }
    ensures writable { IfSome result (λ _. W.has_failed standard.new.output ≡ false) }
    ensures goes { Tallied (Goes (Judges ⟦<Document as Valued>⟧.value (sources_of R.has_failed R.remaining
        O.Document.has_failed O.Document.remaining (O.known opener.now) (O.refuses opener.now)) task.now)
        (map part_of (map (λ r. r.now) names.now))
        (seen R.remaining W.contents W.has_failed W.is_flushed E.contents E.has_failed standard.old)
        (seen R.remaining W.contents W.has_failed W.is_flushed E.contents E.has_failed standard.new))
        result }
{
    let mut tally = Tally::new();
    for name in names {
        let next = judge_one(alloc, task, name, standard, opener)?;
        tally = tally.with_all(&next);
    }
    Some(tally)
}

/// The same of one name.
fn judge_one<R: Source + Drop, W: Flush, E: Target, O: Opener>(
    alloc: Global,
    task: &Task,
    name: &str,
    standard: &mut Standard<R, W, E>,
    opener: &O,
) -> Option<Tally>
    requires readable { IsReadable R.has_failed standard.old.input }
    requires writable { W.has_failed standard.old.output ≡ false }
    ensures readable { IsReadable R.has_failed standard.new.input }
    ensures writable { IfSome result (λ _. W.has_failed standard.new.output ≡ false) }
    ensures judges { Tallied (Judges ⟦<Document as Valued>⟧.value (sources_of R.has_failed R.remaining
        O.Document.has_failed O.Document.remaining (O.known opener.now) (O.refuses opener.now)) task.now
        (part_of name.now)
        (seen R.remaining W.contents W.has_failed W.is_flushed E.contents E.has_failed standard.old)
        (seen R.remaining W.contents W.has_failed W.is_flushed E.contents E.has_failed standard.new))
        result }
{
    if is_dash(name) {
        return judge_input(alloc, task, standard);
    }
    judge_named(alloc, task, &[name], standard, opener)
}

/// Says what the task has to say of the document of standard input.
fn judge_input<R: Source + Drop, W: Flush, E: Target>(
    alloc: Global,
    task: &Task,
    standard: &mut Standard<R, W, E>,
) -> Option<Tally>
    requires readable { IsReadable R.has_failed standard.old.input }
    requires writable { W.has_failed standard.old.output ≡ false }
    ensures readable { IsReadable R.has_failed standard.new.input }
    ensures writable { IfSome result (λ _. W.has_failed standard.new.output ≡ false) }
    ensures judges { Tallied (JudgesInput ⟦<Document as Valued>⟧.value task.now
        (option_map R.remaining standard.old.input)
        (seen R.remaining W.contents W.has_failed W.is_flushed E.contents E.has_failed standard.old)
        (seen R.remaining W.contents W.has_failed W.is_flushed E.contents E.has_failed standard.new))
        result }
{
    let Some(mut src) = standard.input.take() else {
        finish(&Outcome::ReadFailed(0), &mut standard.errors);
        return Some(Tally::of_one(Verdict::Unread));
    };
    let end = answer_of(alloc, &mut src, &mut standard.output, task);
    finish(&end.outcome, &mut standard.errors);
    tally_after(&end)
}

/// What came of a document where a run goes on after it, or nothing where it ends.
fn tally_after(end: &Ending) -> Option<Tally>
    ensures { result ≡ option_map tally_of (verdicts_after end.now.outcome end.now.kind) }
{
    match end.outcome {
        Outcome::WriteFailed(_) => None,
        _ => Some(Tally::of_one(verdict_of(&end.outcome, end.kind))),
    }
}

/// Says what the task has to say of the documents of these names.
fn judge_named<R: Source + Drop, W: Flush, E: Target, O: Opener>(
    alloc: Global,
    task: &Task,
    names: &[&str],
    standard: &mut Standard<R, W, E>,
    opener: &O,
) -> Option<Tally>
    requires readable { IsReadable R.has_failed standard.old.input }
    requires writable { W.has_failed standard.old.output ≡ false }
    ensures readable { IsReadable R.has_failed standard.new.input }
    ensures writable { IfSome result (λ _. W.has_failed standard.new.output ≡ false) }
    ensures judges { Tallied (Judges ⟦<Document as Valued>⟧.value (sources_of R.has_failed R.remaining
        O.Document.has_failed O.Document.remaining (O.known opener.now) (O.refuses opener.now)) task.now
        (Named (map (λ r. r.now) names.now))
        (seen R.remaining W.contents W.has_failed W.is_flushed E.contents E.has_failed standard.old)
        (seen R.remaining W.contents W.has_failed W.is_flushed E.contents E.has_failed standard.new))
        result }
{
    let Ok(no_list) = NamedLine::new(alloc, &[]) else {
        unnamed(standard);
        return None;
    };
    judge_listed(
        alloc,
        task,
        no_list,
        &mut Words::new(names),
        standard,
        opener,
    )
}

/// Says what the task has to say of the documents whose names a file has, or standard input, where they are regular
/// files.
fn judge_list<R: Source + Drop, W: Flush, E: Target, O: Opener>(
    alloc: Global,
    task: &Task,
    list: &str,
    standard: &mut Standard<R, W, E>,
    opener: &O,
) -> Option<Tally>
    requires readable { IsReadable R.has_failed standard.old.input }
    requires writable { W.has_failed standard.old.output ≡ false }
    ensures readable { IsReadable R.has_failed standard.new.input }
    ensures writable { IfSome result (λ _. W.has_failed standard.new.output ≡ false) }
    ensures judges { Tallied (Judges ⟦<Document as Valued>⟧.value (sources_of R.has_failed R.remaining
        O.Document.has_failed O.Document.remaining (O.known opener.now) (O.refuses opener.now)) task.now
        (Listed list.now)
        (seen R.remaining W.contents W.has_failed W.is_flushed E.contents E.has_failed standard.old)
        (seen R.remaining W.contents W.has_failed W.is_flushed E.contents E.has_failed standard.new))
        result }
{
    let Ok(named) = NamedLine::new(alloc, list.as_bytes()) else {
        unnamed(standard);
        return None;
    };
    if is_dash(list) {
        let Some(src) = standard.input.take() else {
            finish_taken(named, &mut standard.errors);
            return None;
        };
        return judge_listed(
            alloc,
            task,
            named,
            &mut EndedNames::new(src),
            standard,
            &RegularFiles { opener },
        );
    }
    match opener.open(alloc, list.as_bytes()) {
        Ok(src) => {
            judge_listed(
                alloc,
                task,
                named,
                &mut EndedNames::new(src),
                standard,
                &RegularFiles { opener },
            )
        }
        Err(why) => {
            finish_named(named, &Came::Unopened(why), &mut standard.errors);
            None
        }
    }
}

/// Says what the task has to say of the documents of the names of a list, whose own name is in front of why the next
/// one doesn't come.
fn judge_listed<N: Names, R: Source + Drop, W: Flush, E: Target, O: Opener>(
    alloc: Global,
    task: &Task,
    list: NamedLine,
    names: &mut N,
    standard: &mut Standard<R, W, E>,
    opener: &O,
) -> Option<Tally>
    requires readable { IsReadable R.has_failed standard.old.input }
    requires writable { W.has_failed standard.old.output ≡ false }
    ensures readable { IsReadable R.has_failed standard.new.input }
    ensures writable { IfSome result (λ _. W.has_failed standard.new.output ≡ false) }
    ensures judges { Tallied (JudgesNames ⟦<Document as Valued>⟧.value (O.known opener.now) (O.refuses opener.now)
        (IsLeft O.Document.has_failed O.Document.remaining) task.now (name_of_line list) (N.left names.old)
        (HasStopped N.left N.stops names.new)
        (seen R.remaining W.contents W.has_failed W.is_flushed E.contents E.has_failed standard.old)
        (seen R.remaining W.contents W.has_failed W.is_flushed E.contents E.has_failed standard.new))
        result }
    ensures input { standard.new.input ≡ standard.old.input }
{
    let end = answer_files(alloc, names, opener, &mut standard.output, task);
    finish_files(list, &end, &mut standard.errors);
    tally_through(&end)
}

/// What came of documents where a run goes on after them, or nothing where it ends.
pub(crate) fn tally_through(end: &FilesEnd) -> Option<Tally>
    ensures { result ≡ tally_through end.now }
{
    match end {
        FilesEnd::Through(tally) => Some(*tally),
        FilesEnd::NoName(_) | FilesEnd::WriteFailed(_) | FilesEnd::Memory => None,
    }
}

/// Says that there is no memory for a name.
pub(crate) fn unnamed<R: Source + Drop, W: Flush, E: Target>(standard: &mut Standard<R, W, E>)
    ensures says { SaysAlone (line_of Memory)
        (seen R.remaining W.contents W.has_failed W.is_flushed E.contents E.has_failed standard.old)
        (seen R.remaining W.contents W.has_failed W.is_flushed E.contents E.has_failed standard.new) }
    ensures input { standard.new.input ≡ standard.old.input }
{
    finish(&Outcome::Memory, &mut standard.errors);
}
