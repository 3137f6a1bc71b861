//! How a run ends.
ghost use Rattle.std.specs.Prelude.{◌≡◌, ◌+◌, ◌<◌, ◌≤◌, ◌++◌, [], codes, decimal, IfOk, MatchBool};
ghost use Rattle.std.specs.Prelude.{length, string_bytes};
ghost use Rattle.arrayvec.specs.ArrayString.{array_string_len};
ghost use Rattle.tlv_core.specs.Reasons.{name_of};
ghost use Rattle.commands.specs.Outcomes.{IsWhole, fault_text, line_of, none_text, place_text};
ghost use Rattle.commands.specs.Outcomes.{said_verdict, status_of, words_of};
ghost use Rattle.pk_documents.specs.KindRows.{word_of};

use crate::lines::LineWords;
use itoa::Buffer;
use pk_documents::kind::Kind;
use std::alloc::{AllocError, Global};
use tlv_core::fault::Fault as DocumentFault;
use tlv_core::reason::Reason;

#[derive(Clone, Copy, Debug, PartialEq, Eq)]
pub enum Outcome {
    /// All that was asked for is written.
    Done,
    /// The document is not in DER: the first place where it differs from its DER text.
    NotDer(u64),
    /// The document has a note that it is not to have.
    Noted,
    /// The document is refused, and nothing is written.
    Fault(DocumentFault),
    /// The octets are a document of no kind, and nothing is written: which kind is likely, and their fault as its
    /// document.
    NoKind(Option<(Kind, DocumentFault)>),
    /// The document is refused, and the report that says so is written.
    Explained(DocumentFault),
    /// The reader failed after so many octets, and nothing is written.
    ReadFailed(u64),
    /// The writer failed after so many octets.
    WriteFailed(u64),
    /// A growth of memory was refused, and nothing is written.
    Memory,
}

/// How a run ends, and the kind of its document, where that is known.
#[derive(Clone, Copy, Debug, PartialEq, Eq)]
pub struct Ending {
    pub outcome: Outcome,
    pub kind: Option<Kind>,
}

/// The exit status.
pub fn status(outcome: &Outcome) -> u8
    ensures { result ≡ status_of outcome.now }
{
    match outcome {
        Outcome::Done => 0,
        Outcome::NotDer(_) => 1,
        Outcome::Fault(_) | Outcome::NoKind(_) | Outcome::Explained(_) => 2,
        Outcome::ReadFailed(_) | Outcome::WriteFailed(_) | Outcome::Memory => 3,
        Outcome::Noted => 5,
    }
}

/// Why not all that was asked for is written; empty where what is written says all.
pub fn outcome_words(outcome: &Outcome) -> LineWords
    ensures words { result.bytes ≡ words_of outcome.now }
    ensures short { array_string_len result < 192 }
{
    match outcome {
        Outcome::Done | Outcome::NotDer(_) | Outcome::Noted | Outcome::Explained(_) => no_words(),
        Outcome::Fault(fault) => fault_words(fault),
        Outcome::NoKind(likely) => none_words(*likely),
        Outcome::ReadFailed(at) => number_words("read failed at ", *at),
        Outcome::WriteFailed(after) => number_words("write failed after ", *after),
        Outcome::Memory => plain_words("out of memory"),
    }
}

/// Whether a run that ended so wrote all that was due.
pub fn is_whole(outcome: &Outcome) -> bool
    ensures { MatchBool result (IsWhole outcome.now) (IsWhole outcome.now → ⊥) }
{
    matches!(
        outcome,
        Outcome::Done | Outcome::NotDer(_) | Outcome::Noted | Outcome::Explained(_)
    )
}

/// The same as a line for standard error, ended by a line feed.
pub fn outcome_line(outcome: &Outcome) -> LineWords
    ensures { result.bytes ≡ line_of outcome.now }
{
    let mut line = outcome_words(outcome);
    if !line.is_empty() {
        line.push_str("\n");
    }
    line
}

/// What `check` writes: that the document is in DER, or the first place where it isn't; ended by a line feed. If it is
/// to be quiet, nothing of what is in DER.
pub fn verdict_text(alloc: Global, quiet: bool, place: Option<u64>) -> Result<String, AllocError>
    ensures { IfOk result (λ text. string_bytes text ≡ said_verdict quiet place) }
{
    match place {
        None if quiet => Ok(String::new(alloc)),
        None => String::from_str(alloc, "DER\n"),
        Some(at) => {
            let mut text = String::from_str(alloc, number_words("not DER at ", at).as_str())?;
            text.push_str("\n")?;
            Ok(text)
        }
    }
}

fn no_words() -> LineWords
    ensures words { result.bytes ≡ [] }
    ensures none { array_string_len result ≡ 0 }
{
    LineWords::new()
}

/// Words as they are.
pub fn plain_words(words: &str) -> LineWords
    requires { length words.now < 128 }
    ensures words { result.bytes ≡ words.now }
    ensures size { array_string_len result ≡ length words.now }
{
    let mut text = no_words();
    text.push_str(words);
    text
}

fn number_words(words: &str, number: u64) -> LineWords
    requires { length words.now ≤ 40 }
    ensures words { result.bytes ≡ words.now ++ decimal number }
    ensures short { array_string_len result ≤ 80 }
{
    let mut text = plain_words(words);
    push_number(&mut text, number);
    text
}

/// That octets are of no kind, and the likely one.
fn none_words(likely: Option<(Kind, DocumentFault)>) -> LineWords
    ensures words { result.bytes ≡ none_text likely }
    ensures short { array_string_len result < 192 }
{
    match likely {
        Some((kind, fault)) => likely_words(kind, &fault),
        None => plain_words("none of these"),
    }
}

fn likely_words(kind: Kind, fault: &DocumentFault) -> LineWords
    ensures words { result.bytes ≡ codes "none of these; likely "
        ++ word_of kind ++ codes ": " ++ fault_text fault.now }
    ensures short { array_string_len result < 192 }
{
    let mut text = plain_words("none of these; likely ");
    text.push_str(word(kind));
    text.push_str(": ");
    text.push_str(fault_words(fault).as_str());
    text
}

/// The word of a kind, which is short.
fn word(kind: Kind) -> &'static str
    ensures word { result.now ≡ word_of kind }
    ensures short { length result.now ≤ 9 }
{
    kind.row().word
}

fn fault_words(fault: &DocumentFault) -> LineWords
    ensures words { result.bytes ≡ fault_text fault.now }
    ensures short { array_string_len result < 128 }
{
    let mut text = plain_words("fault at ");
    push_place(&mut text, fault.at, fault.why);
    if let Some((at, why)) = fault.inside {
        text.push_str(" inside at ");
        push_place(&mut text, at, why);
    }
    text
}

fn push_place(text: &mut LineWords, at: u64, why: Reason)
    requires { array_string_len text.old ≤ 74 }
    ensures place { text.new.bytes ≡ text.old.bytes ++ place_text at why }
    ensures short { array_string_len text.new ≤ array_string_len text.old + 53 }
{
    push_number(text, at);
    text.push_str(": ");
    text.push_str(name(why));
}

/// The name of a reason, which is short.
fn name(why: Reason) -> &'static str
    ensures name { result.now ≡ name_of why }
    ensures short { length result.now ≤ 11 }
{
    why.name()
}

fn push_number(text: &mut LineWords, number: u64)
    requires { array_string_len text.old ≤ 88 }
    ensures number { text.new.bytes ≡ text.old.bytes ++ decimal number }
    ensures short { array_string_len text.new ≤ array_string_len text.old + 40 }
{
    let mut buffer = Buffer::new();
    text.push_str(buffer.format(number));
}
