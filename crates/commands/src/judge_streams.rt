//! Documents that stand one behind another, in files or in standard input.
ghost use Rattle.std.specs.Prelude.{◌≡◌, IfSome, false, map};
ghost use Rattle.std.specs.Option.{option_map};
ghost use Rattle.commands.specs.Judgements.{Goes, Tallied, part_of, sources_of};
ghost use Rattle.commands.specs.JudgedStreams.{JudgesFile, JudgesInputStream, JudgesStream, JudgesStreams, streams_of};
ghost use Rattle.commands.specs.Lines.{name_of_line};
ghost use Rattle.commands.specs.Standards.{IsReadable, is_dash, seen};

use crate::closing::{finish, finish_files, finish_named};
use crate::each::answer_each;
use crate::files::Came;
use crate::flush::Flush;
use crate::judge::{tally_through, unnamed};
use crate::lines::NamedLine;
use crate::opener::Opener;
use crate::outcome::Outcome;
use crate::standard::{Standard, is_dash};
use crate::tally::{Tally, Verdict};
use crate::task::Task;
use pk_documents::document::{Document, Valued};
use std::alloc::Global;
use tlv_core::source::Source;
use tlv_core::target::Target;

/// Says what the task has to say of the documents of these files, or of standard input where nothing is named, each of
/// which has documents one behind another.
pub(crate) fn judge_streams<R: Source + Drop, W: Flush, E: Target, O: Opener>(
    alloc: Global,
    task: &Task,
    names: &[&str],
    standard: &mut Standard<R, W, E>,
    opener: &O,
) -> Option<Tally>
    requires readable { IsReadable R.has_failed standard.old.input }
    requires writable { W.has_failed standard.old.output ≡ false }
    ensures { Tallied (Goes (JudgesStreams ⟦<Document as Valued>⟧.value (sources_of R.has_failed R.remaining
        O.Document.has_failed O.Document.remaining (O.known opener.now) (O.refuses opener.now)) task.now)
        (streams_of (map (λ r. r.now) names.now))
        (seen R.remaining W.contents W.has_failed W.is_flushed E.contents E.has_failed standard.old)
        (seen R.remaining W.contents W.has_failed W.is_flushed E.contents E.has_failed standard.new))
        result }
{
    if names.is_empty() {
        return judge_input_stream(alloc, task, standard);
    }
    judge_each_stream(alloc, task, names, standard, opener)
}

/// The same of these files.
fn judge_each_stream<R: Source + Drop, W: Flush, E: Target, O: Opener>(
    alloc: Global,
    task: &Task,
    names: &[&str],
    standard: &mut Standard<R, W, E>,
    opener: &O,
) -> Option<Tally>
    requires readable { IsReadable R.has_failed standard.old.input }
    requires writable { W.has_failed standard.old.output ≡ false }
    ensures { Tallied (Goes (JudgesStreams ⟦<Document as Valued>⟧.value (sources_of R.has_failed R.remaining
        O.Document.has_failed O.Document.remaining (O.known opener.now) (O.refuses opener.now)) task.now)
        (map part_of (map (λ r. r.now) names.now))
        (seen R.remaining W.contents W.has_failed W.is_flushed E.contents E.has_failed standard.old)
        (seen R.remaining W.contents W.has_failed W.is_flushed E.contents E.has_failed standard.new))
        result }
{
    let mut tally = Tally::new();
    for name in names {
        let next = judge_named_stream(alloc, task, name, standard, opener)?;
        tally = tally.with_all(&next);
    }
    Some(tally)
}

/// The same of one of them.
fn judge_named_stream<R: Source + Drop, W: Flush, E: Target, O: Opener>(
    alloc: Global,
    task: &Task,
    name: &str,
    standard: &mut Standard<R, W, E>,
    opener: &O,
) -> Option<Tally>
    requires readable { IsReadable R.has_failed standard.old.input }
    requires writable { W.has_failed standard.old.output ≡ false }
    ensures readable { IsReadable R.has_failed standard.new.input }
    ensures writable { IfSome result (λ _. W.has_failed standard.new.output ≡ false) }
    ensures judges { Tallied (JudgesStreams ⟦<Document as Valued>⟧.value (sources_of R.has_failed R.remaining
        O.Document.has_failed O.Document.remaining (O.known opener.now) (O.refuses opener.now)) task.now
        (part_of name.now)
        (seen R.remaining W.contents W.has_failed W.is_flushed E.contents E.has_failed standard.old)
        (seen R.remaining W.contents W.has_failed W.is_flushed E.contents E.has_failed standard.new))
        result }
{
    if is_dash(name) {
        return judge_input_stream(alloc, task, standard);
    }
    judge_file_stream(alloc, task, name, standard, opener)
}

/// Says what the task has to say of the documents of standard input.
fn judge_input_stream<R: Source + Drop, W: Flush, E: Target>(
    alloc: Global,
    task: &Task,
    standard: &mut Standard<R, W, E>,
) -> Option<Tally>
    requires readable { IsReadable R.has_failed standard.old.input }
    requires writable { W.has_failed standard.old.output ≡ false }
    ensures readable { IsReadable R.has_failed standard.new.input }
    ensures writable { IfSome result (λ _. W.has_failed standard.new.output ≡ false) }
    ensures judges { Tallied (JudgesInputStream R.has_failed ⟦<Document as Valued>⟧.value task.now
        (option_map R.remaining standard.old.input)
        (seen R.remaining W.contents W.has_failed W.is_flushed E.contents E.has_failed standard.old)
        (seen R.remaining W.contents W.has_failed W.is_flushed E.contents E.has_failed standard.new))
        result }
{
    let Some(src) = standard.input.take() else {
        finish(&Outcome::ReadFailed(0), &mut standard.errors);
        return Some(Tally::of_one(Verdict::Unread));
    };
    let Ok(named) = NamedLine::new(alloc, b"standard input") else {
        unnamed(standard);
        return None;
    };
    judge_stream(alloc, task, named, &[], src, standard)
}

/// Says what the task has to say of the documents of a file.
fn judge_file_stream<R: Source + Drop, W: Flush, E: Target, O: Opener>(
    alloc: Global,
    task: &Task,
    name: &str,
    standard: &mut Standard<R, W, E>,
    opener: &O,
) -> Option<Tally>
    requires readable { IsReadable R.has_failed standard.old.input }
    requires writable { W.has_failed standard.old.output ≡ false }
    ensures readable { IsReadable R.has_failed standard.new.input }
    ensures writable { IfSome result (λ _. W.has_failed standard.new.output ≡ false) }
    ensures judges { Tallied (JudgesFile O.Document.has_failed ⟦<Document as Valued>⟧.value (O.known opener.now)
        (O.refuses opener.now) task.now name.now
        (seen R.remaining W.contents W.has_failed W.is_flushed E.contents E.has_failed standard.old)
        (seen R.remaining W.contents W.has_failed W.is_flushed E.contents E.has_failed standard.new))
        result }
{
    let Ok(named) = NamedLine::new(alloc, name.as_bytes()) else {
        unnamed(standard);
        return None;
    };
    match opener.open(alloc, name.as_bytes()) {
        Ok(src) => judge_stream(alloc, task, named, name.as_bytes(), src, standard),
        Err(why) => {
            finish_named(named, &Came::Unopened(why), &mut standard.errors);
            Some(Tally::of_one(Verdict::Unread))
        }
    }
}

/// Says what the task has to say of the documents of a source, whose name is in front of why the next one doesn't come.
fn judge_stream<S: Source + Drop, R: Source + Drop, W: Flush, E: Target>(
    alloc: Global,
    task: &Task,
    named: NamedLine,
    name: &[u8],
    src: S,
    standard: &mut Standard<R, W, E>,
) -> Option<Tally>
    requires readable { S.has_failed src ≡ false }
    requires writable { W.has_failed standard.old.output ≡ false }
    ensures writable { IfSome result (λ _. W.has_failed standard.new.output ≡ false) }
    ensures judges { Tallied (JudgesStream S.has_failed ⟦<Document as Valued>⟧.value task.now (name_of_line named)
        name.now (S.remaining src)
        (seen R.remaining W.contents W.has_failed W.is_flushed E.contents E.has_failed standard.old)
        (seen R.remaining W.contents W.has_failed W.is_flushed E.contents E.has_failed standard.new))
        result }
    ensures input { standard.new.input ≡ standard.old.input }
{
    let end = answer_each(alloc, src, name, &mut standard.output, task);
    finish_files(named, &end, &mut standard.errors);
    tally_through(&end)
}
