//! What two inputs are to each other, of which each has to be one document.
ghost use Rattle.std.specs.Prelude.{◌≡◌, ◌++◌, Bool, IfOk, MatchBool, codes, false, string_bytes, true};
ghost use Rattle.commands.specs.Comparisons.{Answers, AnswersDocument, AnswersKey, AnswersQuestion, AnsweredPair};
ghost use Rattle.commands.specs.Comparisons.{ComparedAs, ComparedFailed, IsNote, IsAnswered, IsUnanswered};
ghost use Rattle.commands.specs.Comparisons.{RepliedComparing, first_unread, has_note, key_note, key_status, note_by};
ghost use Rattle.commands.specs.Comparisons.{said_name, sameness_status, second_unread};
ghost use Rattle.std.specs.Io.KnownBytes.{Keeps};

use crate::flush::Flush;
use crate::input::read_all;
use crate::name::{file_name, shown_name};
use crate::question::{Compared, Comparison, PairNames, Question};
use asn_documents::value::write_octets;
use comparison::same::{Style, TwoDocuments, same_text};
use comparison::same_key::same_key_text;
use comparison::sameness::Sameness;
use comparison::text::DocumentNames;
use comparison::verdict::KeySameness;
use pk_documents::document::{Document, Valued};
use pk_documents::kind::Kind;
use std::alloc::{AllocError, Global};
use tlv_core::fault::ReadError;
use tlv_core::limits::Limits;
use tlv_core::source::{Failed, Source};
use tlv_core::target::Target;

/// Compares two inputs, and flushes the target after what is shown.
pub fn answer_pair<R: Source, S: Source, W: Flush>(
    alloc: Global,
    first: &mut R,
    second: &mut S,
    dst: &mut W,
    comparison: &Comparison,
    names: PairNames<'_>,
) -> Compared
    requires readable { R.has_failed first.old ≡ false }
    requires other_readable { S.has_failed second.old ≡ false }
    requires writable { W.has_failed dst.old ≡ false }
    ensures answered { AnsweredPair ⟦<Document as Valued>⟧.value comparison.now
        names.entry.first.now names.entry.second.now result (R.remaining first.old)
        (R.remaining first.new) (S.remaining second.old) (S.remaining second.new)
        (W.contents dst.old) (W.contents dst.new) }
    // Nothing is written of what isn't shown.
    ensures unwritten { IsUnanswered result → dst.new ≡ dst.old }
    // What is shown is flushed.
    ensures flushed { IsAnswered result → W.is_flushed dst.new ≡ true }
    // A failed read, write or flush is answered where it failed, and nowhere else.
    ensures failed { ComparedFailed result (R.has_failed first.new) (S.has_failed second.new)
        (W.has_failed dst.new) }
{
    let compared = compare(alloc, first, second, dst, comparison, names);
    flushed(dst, compared)
}

/// Takes all of two inputs, or of each one octet more than the limit, and writes what they are to each other.
pub fn compare<R: Source, S: Source, W: Target>(
    alloc: Global,
    first: &mut R,
    second: &mut S,
    dst: &mut W,
    comparison: &Comparison,
    names: PairNames<'_>,
) -> Compared
    requires readable { R.has_failed first.old ≡ false }
    requires other_readable { S.has_failed second.old ≡ false }
    requires writable { W.has_failed dst.old ≡ false }
    ensures replied { RepliedComparing ⟦<Document as Valued>⟧.value comparison.now
        names.entry.first.now names.entry.second.now result (R.remaining first.old)
        (R.remaining first.new) (S.remaining second.old) (S.remaining second.new)
        (W.contents dst.old) (W.contents dst.new) }
    ensures unwritten { IsUnanswered result → dst.new ≡ dst.old }
    // A failed read or write is answered where it failed, and nowhere else.
    ensures failed { ComparedFailed result (R.has_failed first.new) (S.has_failed second.new)
        (W.has_failed dst.new) }
{
    let most = comparison.limits.octets() as usize + 1;
    let octets = match read_all(alloc, first, most) {
        Ok(octets) => octets,
        Err(error) => return first_unread(&error),
    };
    let others = match read_all(alloc, second, most) {
        Ok(octets) => octets,
        Err(error) => return second_unread(&error),
    };
    let answer = answer(
        alloc,
        octets.as_slice(),
        others.as_slice(),
        comparison,
        names,
    );
    let Ok((text, status)) = answer else {
        return Compared::Memory;
    };
    match write_octets(text.as_bytes(), dst) {
        Ok(_) => Compared::Answered(status),
        Err(error) => Compared::WriteFailed(error.written),
    }
}

/// How comparing ends where the first input can't be taken.
fn first_unread(error: &ReadError) -> Compared
    ensures { result ≡ first_unread error.now }
{
    match error {
        ReadError::Read { at } => Compared::FirstFailed(*at),
        ReadError::Fault(_) | ReadError::Memory => Compared::Memory,
    }
}

/// How comparing ends where the second input can't be taken.
fn second_unread(error: &ReadError) -> Compared
    ensures { result ≡ second_unread error.now }
{
    match error {
        ReadError::Read { at } => Compared::SecondFailed(*at),
        ReadError::Fault(_) | ReadError::Memory => Compared::Memory,
    }
}

/// What two slices are to each other, as it is written, and the status that says it.
fn answer(
    alloc: Global,
    first: &[u8],
    second: &[u8],
    comparison: &Comparison,
    names: PairNames<'_>,
) -> Result<(String, u8), AllocError>
    ensures { IfOk result (λ it. Answers ⟦<Document as Valued>⟧.value comparison.now
        names.entry.first.now names.entry.second.now first.now second.now it.1
        (string_bytes it.0)) }
{
    let first_name = said_name(alloc, comparison.question, names.first)?;
    let second_name = said_name(alloc, comparison.question, names.second)?;
    let names = DocumentNames {
        first: first_name.as_str(),
        second: second_name.as_str(),
    };
    named_answer(alloc, first, second, names, comparison)
}

/// The same by their names as they are written.
fn named_answer<'a>(
    alloc: Global,
    first: &'a [u8],
    second: &'a [u8],
    names: DocumentNames<'_>,
    comparison: &Comparison,
) -> Result<(String, u8), AllocError>
    ensures { IfOk result (λ it. AnswersQuestion ⟦<Document as Valued>⟧.value
        comparison.now.question comparison.now.limits comparison.now.kind
        comparison.now.other_kind names.entry.first.now names.entry.second.now
        first.now second.now it.1 (string_bytes it.0)) }
{
    let documents = TwoDocuments { first, second };
    let kind = comparison.kind;
    let limits = comparison.limits;
    match comparison.question {
        Question::Document(form) => document_answer(alloc, documents, names, kind, limits, form),
        Question::Key => {
            let other_kind = comparison.other_kind;
            let (text, answer) = same_key_text(alloc, documents, names, kind, other_kind, limits)?;
            Ok((text, key_status(answer)))
        }
    }
}

/// A name as the answer has it: JSON escapes by itself.
fn said_name(alloc: Global, question: Question, name: &str) -> Result<String, AllocError>
    ensures { IfOk result (λ text. string_bytes text ≡ said_name question name.now) }
{
    match question {
        Question::Document(Style::Json) => file_name(alloc, name.as_bytes()),
        Question::Document(Style::Text) | Question::Key => shown_name(alloc, name.as_bytes()),
    }
}

/// The same where the question is of documents.
fn document_answer(
    alloc: Global,
    documents: TwoDocuments<'_>,
    names: DocumentNames<'_>,
    kind: Kind,
    limits: Limits,
    form: Style,
) -> Result<(String, u8), AllocError>
    ensures { IfOk result (λ it. AnswersDocument ⟦<Document as Valued>⟧.value form limits kind
        names.entry.first.now names.entry.second.now
        documents.entry.first.now documents.entry.second.now it.1 (string_bytes it.0)) }
{
    let (mut text, sameness) = same_text(alloc, documents, names, kind, limits, form)?;
    let is_due = has_note(form, sameness, kind);
    let note = note_text(alloc, is_due, documents, names, kind, limits)?;
    text.push_str(note.as_str())?;
    Ok((text, sameness_status(sameness)))
}

/// Whether two documents hold the same private key, where that is due.
fn note_text(
    alloc: Global,
    is_due: bool,
    documents: TwoDocuments<'_>,
    names: DocumentNames<'_>,
    kind: Kind,
    limits: Limits,
) -> Result<String, AllocError>
    ensures { IfOk result (λ note. IsNote is_due ⟦<Document as Valued>⟧.value limits kind
        names.entry.first.now names.entry.second.now
        documents.entry.first.now documents.entry.second.now (string_bytes note)) }
{
    if !is_due {
        return Ok(String::new(alloc));
    }
    let (line, answer) = same_key_text(alloc, documents, names, kind, kind, limits)?;
    key_note(alloc, answer, line.as_str())
}

/// Whether after what is shown of two documents stands whether they hold the same private key.
fn has_note(form: Style, sameness: Sameness, kind: Kind) -> bool
    ensures { result ≡ has_note form sameness kind }
{
    match form {
        Style::Text => note_by(sameness, kind),
        Style::Json => false,
    }
}

fn note_by(sameness: Sameness, kind: Kind) -> bool
    ensures { result ≡ note_by sameness kind }
{
    match sameness {
        Sameness::Another => kind.is_key(),
        Sameness::Same | Sameness::Refused(_, _) => false,
    }
}

/// Whether two documents hold the same private key, by the answer and the line that says it.
fn key_note(alloc: Global, answer: KeySameness, line: &str) -> Result<String, AllocError>
    ensures { IfOk result (λ text. string_bytes text ≡ key_note answer line.now) }
{
    match answer {
        KeySameness::Same => String::from_str(alloc, "private key: the same octets\n"),
        KeySameness::Another => String::from_str(alloc, "private key: other octets\n"),
        KeySameness::NotCompared => reason_note(alloc, line),
        KeySameness::Refused(_, _) => Ok(String::new(alloc)),
    }
}

/// The line that says why keys aren't compared, as a note.
fn reason_note(alloc: Global, line: &str) -> Result<String, AllocError>
    ensures { IfOk result (λ text. string_bytes text ≡ codes "private key: " ++ line.now) }
{
    let mut text = String::from_str(alloc, "private key: ")?;
    text.push_str(line)?;
    Ok(text)
}

fn sameness_status(sameness: Sameness) -> u8
    ensures { result ≡ sameness_status sameness }
{
    match sameness {
        Sameness::Same => 0,
        Sameness::Another => 1,
        Sameness::Refused(_, _) => 2,
    }
}

fn key_status(answer: KeySameness) -> u8
    ensures { result ≡ key_status answer }
{
    match answer {
        KeySameness::Same => 0,
        KeySameness::Another => 1,
        KeySameness::NotCompared | KeySameness::Refused(_, _) => 2,
    }
}

/// How comparing ends that ended so before the target was flushed.
fn flushed<W: Flush>(dst: &mut W, compared: Compared) -> Compared
    requires ended { IsAnswered compared → W.has_failed dst.old ≡ false }
    ensures ends { ComparedAs compared result }
    ensures kept { Keeps (W.contents dst.old) (W.contents dst.new) }
    ensures unwritten { IsUnanswered result → dst.new ≡ dst.old }
    ensures flushed { IsAnswered result → W.is_flushed dst.new ≡ true }
    ensures failed { (first second : Bool) → ComparedFailed compared first second (W.has_failed dst.old)
        → ComparedFailed result first second (W.has_failed dst.new) }
{
    if !is_answered(&compared) {
        return compared;
    }
    match dst.flush() {
        Ok(()) => compared,
        Err(Failed) => unflushed(),
    }
}

fn is_answered(compared: &Compared) -> bool
    ensures { MatchBool result (IsAnswered compared.now) (IsAnswered compared.now → ⊥) }
{
    matches!(compared, Compared::Answered(_))
}

/// How comparing ends where the target isn't flushed: how many octets it kept back isn't known.
fn unflushed() -> Compared
    ensures { result ≡ Compared.WriteFailed 0 }
{
    Compared::WriteFailed(0)
}
