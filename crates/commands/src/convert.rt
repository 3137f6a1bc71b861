//! One document that is converted, to standard output or into a new file.
ghost use Rattle.std.specs.Prelude.{◌≡◌, IfOk, IfSome, false, string_bytes};
ghost use Rattle.std.specs.Option.{option_map};
ghost use Rattle.commands.specs.Conversions.{ClosesConverted, ClosesUnmade, Converts, ConvertsTo, is_irregular};
ghost use Rattle.commands.specs.Conversions.{name_or_none, unmade_line, unmade_status};
ghost use Rattle.commands.specs.Endings.{Served, WritesLine};
ghost use Rattle.commands.specs.Lines.{name_of_line};
ghost use Rattle.commands.specs.Standards.{IsReadable, file_named, seen};

use crate::closing::{finish, finish_named, write_line};
use crate::files::Came;
use crate::flush::Flush;
use crate::lines::NamedLine;
use crate::name::shown_name;
use crate::new_file::{NewFiles, Unmade, make_file};
use crate::opener::Opener;
use crate::outcome::Outcome;
use crate::standard::{Standard, file_named};
use crate::streams::answer;
use crate::task::Task;
use pk_documents::document::{Document, Valued};
use std::alloc::{AllocError, Global};
use tlv_core::source::Source;
use tlv_core::target::Target;

/// The names of a document and of the new file for what is made of it; `-`, or none, is that of a standard stream.
#[derive(Clone, Copy)]
pub struct Places<'a> {
    pub from: Option<&'a str>,
    pub to: Option<&'a str>,
}

/// Writes what the task makes of a document to standard output or into a new file, says on standard error why it
/// doesn't, and answers the exit status.
pub fn convert<R: Source + Drop, W: Flush, E: Target, O: Opener, M: NewFiles>(
    alloc: Global,
    task: &Task,
    places: Places<'_>,
    standard: &mut Standard<R, W, E>,
    opener: &O,
    files: &M,
) -> u8
    requires readable { IsReadable R.has_failed standard.old.input }
    requires writable { W.has_failed standard.old.output ≡ false }
    ensures converts { Converts ⟦<Document as Valued>⟧.value (O.known opener.now)
        (O.refuses opener.now) M.File.made (M.refuses files.now) task.now
        (file_named (option_map (λ r. r.now) places.entry.from))
        (file_named (option_map (λ r. r.now) places.entry.to))
        (option_map R.remaining standard.old.input)
        (seen R.remaining W.contents W.has_failed W.is_flushed E.contents E.has_failed
        standard.old)
        (seen R.remaining W.contents W.has_failed W.is_flushed E.contents E.has_failed
        standard.new) result }
    // Standard input is left alone where a file is named.
    ensures input { IfSome (file_named (option_map (λ r. r.now) places.entry.from))
        (λ _. standard.new.input ≡ standard.old.input) }
{
    let to = file_named(places.to);
    let errors = &mut standard.errors;
    let output = &mut standard.output;
    let Some(name) = file_named(places.from) else {
        let Some(mut src) = standard.input.take() else {
            return finish(&Outcome::ReadFailed(0), errors);
        };
        let converted = convert_from(alloc, task, &mut src, output, to, files);
        return finish_converted(alloc, None, to, converted, errors);
    };
    let Ok(named) = NamedLine::new(alloc, name.as_bytes()) else {
        return finish(&Outcome::Memory, errors);
    };
    match opener.open(alloc, name.as_bytes()) {
        Ok(mut src) => {
            let converted = convert_from(alloc, task, &mut src, output, to, files);
            finish_converted(alloc, Some(named), to, converted, errors)
        }
        Err(why) => finish_named(named, &Came::Unopened(why), errors),
    }
}

/// Writes what the task makes of a source to a target, or into a new file, where one is named.
fn convert_from<R: Source, W: Flush, M: NewFiles>(
    alloc: Global,
    task: &Task,
    src: &mut R,
    dst: &mut W,
    to: Option<&str>,
    files: &M,
) -> Result<Outcome, Unmade>
    requires readable { R.has_failed src.old ≡ false }
    requires writable { W.has_failed dst.old ≡ false }
    ensures { ConvertsTo M.File.made (M.refuses files.now) task.now
        (Served ⟦<Document as Valued>⟧.value task.now (R.remaining src.old) (R.remaining src.new)
        (R.has_failed src.new)) (option_map (λ r. r.now) to.entry) result (W.contents dst.old)
        (W.contents dst.new) (W.has_failed dst.new) (W.is_flushed dst.new) }
{
    match to {
        Some(name) => {
            let (outcome, _file) = make_file(alloc, src, files, name, task)?;
            Ok(outcome)
        }
        None => Ok(answer(alloc, src, dst, task)),
    }
}

/// Writes the line of how a conversion ended, after the name of the document if it has one, and answers the status.
fn finish_converted<W: Target>(
    alloc: Global,
    named: Option<NamedLine>,
    to: Option<&str>,
    converted: Result<Outcome, Unmade>,
    dst: &mut W,
) -> u8
    ensures { ClosesConverted (λ line status. WritesLine line (W.contents dst.old) (W.contents dst.new)
        (W.has_failed dst.new) × (result ≡ status)) (option_map (λ it. name_of_line it) named)
        (option_map (λ r. r.now) to.entry) converted }
{
    match converted {
        Ok(outcome) => match named {
            Some(named) => finish_named(named, &Came::Ran(outcome), dst),
            None => finish(&outcome, dst),
        },
        Err(why) => finish_unmade(alloc, name_or_none(to), why, dst),
    }
}

fn name_or_none<'a>(name: Option<&'a str>) -> &'a str
    ensures { result.now ≡ name_or_none (option_map (λ r. r.now) name.entry) }
{
    match name {
        Some(name) => name,
        None => "",
    }
}

/// Writes why no file of this name is made, and answers the status.
fn finish_unmade<W: Target>(alloc: Global, to: &str, why: Unmade, dst: &mut W) -> u8
    ensures { ClosesUnmade (λ line status. WritesLine line (W.contents dst.old) (W.contents dst.new)
        (W.has_failed dst.new) × (result ≡ status)) to.now why }
{
    match unmade_line(alloc, to, why) {
        Ok(line) => {
            write_line(line.as_bytes(), dst);
            unmade_status(why)
        }
        Err(_) => finish(&Outcome::Memory, dst),
    }
}

/// Why no file of this name is made, for standard error.
fn unmade_line(alloc: Global, to: &str, why: Unmade) -> Result<String, AllocError>
    ensures { IfOk result (λ line. string_bytes line ≡ unmade_line to.now why) }
{
    let mut line = String::new(alloc);
    if is_irregular(why) {
        line.push_str("error: not a regular file: ")?;
        line.push_str(shown_name(alloc, to.as_bytes())?.as_str())?;
        line.push_str("\n\n  tip: '--to -' writes to standard output\n")?;
        return Ok(line);
    }
    line.push_str(shown_name(alloc, to.as_bytes())?.as_str())?;
    line.push_str(": ")?;
    line.push_str(why.why())?;
    line.push_str("\n")?;
    Ok(line)
}

/// The status of a line that is refused, or of writing that failed.
fn unmade_status(why: Unmade) -> u8
    ensures { result ≡ unmade_status why }
{
    if is_irregular(why) { 4 } else { 3 }
}

fn is_irregular(why: Unmade) -> bool
    ensures { result ≡ is_irregular why }
{
    matches!(why, Unmade::Irregular)
}
