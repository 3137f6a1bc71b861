//! Documents that stand one behind another in a source.
ghost use Rattle.std.specs.Prelude.{◌≡◌, ◌≤◌, ◌++◌, ◌∷◌, ℕ, IfOk, List, MatchBool, MatchResult, Option, [], false};
ghost use Rattle.std.specs.Prelude.{length, true};
ghost use Rattle.pk_documents.specs.declared.kind.Kind.{Kind};
ghost use Rattle.tlv_core.specs.Limits.{Limits};
ghost use Rattle.std.specs.Io.KnownBytes.{IsAtEnd};
ghost use Rattle.commands.specs.Each.{AnsweredEach, ComesNext, EachSaid, IsBegun, IsNext, Passes, Piece, SaysNext};
ghost use Rattle.commands.specs.Each.{StopsPassing, WentOn, kinds_for, name_in};
ghost use Rattle.commands.specs.Files.{has_failed_write};

use crate::files::{FilesEnd, Progress, said_of};
use crate::flush::Flush;
use crate::input::take_element;
use crate::names::NamesFault;
use crate::opener::{Opener, Unopened};
use crate::streams::files_flushed;
use crate::tally::Tally;
use crate::task::Task;
use asn_documents::value::write_octets;
use itoa::Buffer;
use pk_documents::document::{Document, Valued, read_document};
use pk_documents::kind::{KINDS, Kind};
use std::alloc::{AllocError, Global};
use tlv_core::fault::ReadError;
use tlv_core::limits::Limits;
use tlv_core::reason::Reason;
use tlv_core::source::Source;
use tlv_core::target::Target;

/// What comes next of octets that are ahead.
#[derive(Clone, Copy, Debug, PartialEq, Eq)]
pub(crate) enum Coming {
    /// Nothing.
    End,
    /// A document of so many octets.
    Document(usize),
    /// Octets that no document begins.
    Other,
    /// A read failed.
    Unread,
}

/// By what octets at hand are begun.
#[derive(Clone, Copy, Debug, PartialEq, Eq)]
pub(crate) enum Begun {
    /// By a document of so many octets.
    Document(usize),
    /// By none, whatever stands behind them.
    Never,
    /// By none, as far as they go.
    NotYet,
}

/// Documents one behind another in a source.
#[derive(Drop)]
struct Stream<'a, R: Source> {
    src: R,
    /// Its name, if it has one.
    name: &'a [u8],
    /// The octets that were taken and are of no document yet.
    ahead: Vec<u8>,
    /// The number and the place of the next document.
    number: u64,
    at: u64,
}

/// Octets at hand, which are those of a document whatever its name is.
#[derive(Drop)]
struct AtHand<'a> {
    octets: &'a [u8],
}

impl<'a> Opener for AtHand<'a> {
    ghost use Rattle.std.specs.Prelude.{Some};

    type Document = &'a [u8];

    ghost known = { λ it _. Some it.octets.now };

    ghost refuses = { λ _ _ _. ⊥ };

    fn open(&self, _alloc: Global, _name: &[u8]) -> Result<&'a [u8], Unopened> {
        Ok(self.octets)
    }

    fn open_regular(&self, _alloc: Global, _name: &[u8]) -> Result<&'a [u8], Unopened> {
        Ok(self.octets)
    }
}

/// Goes through the documents of a source of this name, writes what the task has to say of each, and flushes the
/// target. What no document begins ends the stream: what is behind it can't be known.
pub fn answer_each<R: Source + Drop, W: Flush>(
    alloc: Global,
    src: R,
    name: &[u8],
    dst: &mut W,
    task: &Task,
) -> FilesEnd
    requires readable { R.has_failed src ≡ false }
    requires writable { W.has_failed dst.old ≡ false }
    ensures answered { (pieces : List Piece)
        × (last : Option Piece)
        × AnsweredEach ⟦<Document as Valued>⟧.value task.now name.now
        ((source : R) × (R.has_failed source ≡ true)) (R.remaining src)
        (W.contents dst.old) (W.contents dst.new) pieces last result }
    ensures flushed { has_failed_write result ≡ false → W.is_flushed dst.new ≡ true }
    ensures failed { W.has_failed dst.new ≡ has_failed_write result }
{
    let end = run_each(alloc, src, name, dst, task);
    files_flushed(dst, end)
}

/// The same before the target is flushed.
fn run_each<R: Source + Drop, W: Target>(
    alloc: Global,
    src: R,
    name: &[u8],
    dst: &mut W,
    task: &Task,
) -> FilesEnd
    requires readable { R.has_failed src ≡ false }
    requires writable { W.has_failed dst.old ≡ false }
    ensures said { (pieces : List Piece)
        × (last : Option Piece)
        × EachSaid ⟦<Document as Valued>⟧.value task.now name.now
        ((source : R) × (R.has_failed source ≡ true)) (R.remaining src)
        (W.contents dst.old) (W.contents dst.new) pieces last result }
    ensures failed { W.has_failed dst.new ≡ has_failed_write result }
{
    let mut stream = Stream {
        src,
        name,
        ahead: Vec::new(alloc),
        number: 1,
        at: 0,
    };
    let mut progress = Progress {
        tally: Tally::new(),
        out: 0,
    };
    for _ in 0..u64::MAX {
        match next_document(alloc, &mut stream, dst, task, progress) {
            Ok(further) => progress = further,
            Err(end) => return end,
        }
    }
    FilesEnd::NoName(NamesFault::TooMany)
}

/// Writes what the task has to say of the next document, or says how the stream ends.
fn next_document<R: Source + Drop, W: Target>(
    alloc: Global,
    stream: &mut Stream<'_, R>,
    dst: &mut W,
    task: &Task,
    progress: Progress,
) -> Result<Progress, FilesEnd>
    requires readable { R.has_failed stream.old.src ≡ false }
    requires writable { W.has_failed dst.old ≡ false }
    ensures steps { (before old : Option (List ℕ)) (pieces : List Piece)
        → WentOn ⟦<Document as Valued>⟧.value task.now stream.old.name.now before (R.remaining stream.old.src)
        stream.old.ahead.items old (W.contents dst.old) progress.tally progress.out stream.old.at
        stream.old.number pieces
        → MatchResult result (λ further. (piece : Piece)
        × WentOn ⟦<Document as Valued>⟧.value task.now stream.old.name.now before (R.remaining stream.new.src)
        stream.new.ahead.items old (W.contents dst.new) further.tally further.out stream.new.at
        stream.new.number (pieces ++ piece ∷ []))
        (λ end. (all : List Piece)
        × (last : Option Piece)
        × EachSaid ⟦<Document as Valued>⟧.value task.now stream.old.name.now
        ((source : R) × (R.has_failed source ≡ true)) before old (W.contents dst.new) all last end) }
    ensures name { stream.new.name ≡ stream.old.name }
    ensures readable { IfOk result (λ _. R.has_failed stream.new.src ≡ false) }
    ensures failed { MatchResult result (λ _. W.has_failed dst.new ≡ false)
        (λ end. W.has_failed dst.new ≡ has_failed_write end) }
{
    let Ok(next) = next_of(alloc, &mut stream.src, &mut stream.ahead, task) else {
        return Err(FilesEnd::Memory);
    };
    let Ok(name) = name_in(alloc, stream.name, stream.number, stream.at) else {
        return Err(FilesEnd::Memory);
    };
    match next {
        Coming::Document(count) => {
            let octets = &stream.ahead.as_slice()[..count];
            let further = say(alloc, octets, name.as_slice(), dst, task, progress)?;
            pass(alloc, stream, count)?;
            Ok(further)
        }
        Coming::End => Err(FilesEnd::Through(progress.tally)),
        Coming::Other => {
            let octets = stream.ahead.as_slice();
            let last = say(alloc, octets, name.as_slice(), dst, task, progress)?;
            Err(FilesEnd::Through(last.tally))
        }
        Coming::Unread => Err(FilesEnd::NoName(NamesFault::Read)),
    }
}

/// Writes what the task has to say of octets as those of a document of this name.
fn say<W: Target>(
    alloc: Global,
    octets: &[u8],
    name: &[u8],
    dst: &mut W,
    task: &Task,
    progress: Progress,
) -> Result<Progress, FilesEnd>
    requires writable { W.has_failed dst.old ≡ false }
    ensures says { SaysNext ⟦<Document as Valued>⟧.value task.now name.now octets.now progress.tally progress.out
        (W.contents dst.old) (W.contents dst.new) (λ further. further.tally) (λ further. further.out) result }
    ensures failed { MatchResult result (λ _. W.has_failed dst.new ≡ false)
        (λ end. W.has_failed dst.new ≡ has_failed_write end) }
{
    let Ok(said) = said_of(alloc, &AtHand { octets }, name, task) else {
        return Err(FilesEnd::Memory);
    };
    let Some(out) = progress.out.checked_add(said.text.len() as u64) else {
        return Err(FilesEnd::NoName(NamesFault::TooMany));
    };
    match write_octets(said.text.as_slice(), dst) {
        Ok(_) => Ok(Progress {
            tally: progress.tally.with(said.verdict),
            out,
        }),
        Err(error) => Err(FilesEnd::WriteFailed(progress.out + error.written)),
    }
}

/// Passes a document of so many octets, the first ones of those that are ahead.
fn pass<R: Source + Drop>(
    alloc: Global,
    stream: &mut Stream<'_, R>,
    count: usize,
) -> Result<(), FilesEnd>
    requires { count ≤ length stream.old.ahead.items }
    ensures passes { MatchResult result
        (λ _. Passes count stream.old.ahead.items stream.old.at stream.old.number stream.new.ahead.items stream.new.at
        stream.new.number)
        (StopsPassing count stream.old.at stream.old.number) }
    ensures source { stream.new.src ≡ stream.old.src }
    ensures name { stream.new.name ≡ stream.old.name }
{
    let Some(at) = stream.at.checked_add(count as u64) else {
        return Err(FilesEnd::NoName(NamesFault::TooMany));
    };
    let Some(number) = stream.number.checked_add(1) else {
        return Err(FilesEnd::NoName(NamesFault::TooMany));
    };
    let Ok(ahead) = Vec::from_slice(alloc, &stream.ahead.as_slice()[count..]) else {
        return Err(FilesEnd::Memory);
    };
    stream.at = at;
    stream.number = number;
    stream.ahead = ahead;
    Ok(())
}

/// The name of a document: that of its stream, if it has one, its number, and its place in the stream.
fn name_in(alloc: Global, stream: &[u8], number: u64, at: u64) -> Result<Vec<u8>, AllocError>
    ensures { IfOk result (λ name. name.items ≡ name_in stream.now number at) }
{
    let mut name = Vec::new(alloc);
    if !stream.is_empty() {
        name.extend_from_slice(stream)?;
        name.extend_from_slice(b": ")?;
    }
    let mut buffer = Buffer::new();
    name.extend_from_slice(buffer.format(number).as_bytes())?;
    name.extend_from_slice(b" at ")?;
    name.extend_from_slice(buffer.format(at).as_bytes())?;
    Ok(name)
}

/// What comes next of octets that are ahead. More are taken as long as a document may begin them.
fn next_of<R: Source>(
    alloc: Global,
    src: &mut R,
    ahead: &mut Vec<u8>,
    task: &Task,
) -> Result<Coming, AllocError>
    requires { R.has_failed src.old ≡ false }
    ensures { IfOk result (ComesNext task.now.limits (kinds_for task.now.kind) (R.has_failed src.new)
        (R.remaining src.old) (R.remaining src.new) ahead.old.items ahead.new.items) }
{
    let limit = task.limits.octets() as usize;
    let mut begun = begun_by(alloc, ahead.as_slice(), task)?;
    while is_open(begun) {
        if limit < ahead.len() {
            return Ok(Coming::Other);
        }
        match take_element(src, ahead, limit) {
            Ok(false) => return last_of(alloc, ahead.as_slice(), task),
            Ok(true) => begun = begun_by(alloc, ahead.as_slice(), task)?,
            Err(ReadError::Read { at: _ }) => return Ok(Coming::Unread),
            Err(_) => return Err(AllocError),
        }
    }
    match begun {
        Begun::Document(count) => Ok(Coming::Document(count)),
        Begun::Never | Begun::NotYet => Ok(Coming::Other),
    }
}

/// What comes of octets behind which there is nothing.
fn last_of(alloc: Global, octets: &[u8], task: &Task) -> Result<Coming, AllocError>
    ensures { IfOk result (λ coming. (after : Option (List ℕ)) → IsAtEnd after
        → IsNext task.now.limits (kinds_for task.now.kind) false after octets.now coming) }
{
    if octets.is_empty() {
        return Ok(Coming::End);
    }
    match begun_by(alloc, octets, task)? {
        Begun::Document(count) => Ok(Coming::Document(count)),
        Begun::Never | Begun::NotYet => Ok(Coming::Other),
    }
}

/// Whether octets that come may make a document of those at hand.
fn is_open(begun: Begun) -> bool
    ensures { MatchBool result (begun ≡ Begun.NotYet) (begun ≡ Begun.NotYet → ⊥) }
{
    match begun {
        Begun::NotYet => true,
        Begun::Document(_) | Begun::Never => false,
    }
}

/// By what octets are begun, of the kinds of which documents may be.
fn begun_by(alloc: Global, octets: &[u8], task: &Task) -> Result<Begun, AllocError>
    ensures { IfOk result (IsBegun task.now.limits octets.now (kinds_for task.now.kind)) }
{
    match task.kind {
        Some(kind) => begun_by_first(alloc, octets, &[kind], task.limits),
        None => begun_by_first(alloc, octets, &KINDS, task.limits),
    }
}

/// The same of these kinds.
fn begun_by_first(
    alloc: Global,
    octets: &[u8],
    kinds: &[Kind],
    limits: Limits,
) -> Result<Begun, AllocError>
    ensures { IfOk result (IsBegun limits octets.now kinds.now) }
{
    let [kind, others @ ..] = kinds else {
        return Ok(Begun::Never);
    };
    let begun = begun_by_kind(alloc, octets, *kind, limits)?;
    if let Begun::Document(_) = begun {
        return Ok(begun);
    }
    let later = begun_by_first(alloc, octets, others, limits)?;
    Ok(begun_so(begun, later))
}

/// The same, of what it is by one kind, which is no document, and by others.
fn begun_so(begun: Begun, later: Begun) -> Begun
    ensures { (limits : Limits) (octets : List ℕ) (kind : Kind) (others : List Kind)
        → ((count : ℕ) → begun ≡ Begun.Document count → ⊥)
        → IsBegun limits octets (kind ∷ []) begun → IsBegun limits octets others later
        → IsBegun limits octets (kind ∷ others) result }
{
    match later {
        Begun::Never => begun,
        Begun::Document(_) | Begun::NotYet => later,
    }
}

/// The same of one kind.
fn begun_by_kind(
    alloc: Global,
    octets: &[u8],
    kind: Kind,
    limits: Limits,
) -> Result<Begun, AllocError>
    ensures { IfOk result (IsBegun limits octets.now (kind ∷ [])) }
{
    let mut src = octets;
    match read_document(alloc, &mut src, kind, limits) {
        Ok((_document, _taken)) => Ok(Begun::Document(octets.len() - src.len())),
        Err(ReadError::Fault(fault)) => match fault.why {
            // (only where octets are too few for a document, those that follow may mend it)
            Reason::Truncated => Ok(Begun::NotYet),
            _ => Ok(Begun::Never),
        },
        Err(ReadError::Read { at: _ }) => unreachable!(),
        Err(ReadError::Memory) => Err(AllocError),
    }
}
