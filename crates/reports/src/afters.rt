//! What the octets after a document are, in words.
ghost use Rattle.std.specs.Prelude.{◌≡◌, ◌++◌, OnOk, string_bytes};
ghost use Rattle.reports.specs.Afters.{after_kind, after_said, after_words, document_kind, document_words, is_document};
ghost use Rattle.reports.specs.Afters.{is_known, line_end};

use crate::report::{After, Guess, Report};
use std::alloc::AllocError;

/// What they are.
#[tactic(auto, unfolding(crate::specs::Afters::after_said))]
pub(crate) fn push_after(text: &mut String, after: After) -> Result<(), AllocError>
    ensures { OnOk result (string_bytes text.new ≡ string_bytes text.old ++ after_said after) }
{
    text.push_str(after_words(after))?;
    text.push_str(after_kind(after))
}

/// But for the kind of a document.
fn after_words(after: After) -> &'static str
    ensures { result.now ≡ after_words after }
{
    match after {
        After::Unsaid => "",
        After::LineFeed => "a line feed that an editor added",
        After::CrLf => "an end of line, 0d 0a, that an editor added",
        After::Zeros => "padding with zeros",
        After::Document(guess) => document_words(guess),
        After::NotShown => "octets after it that are no end of line and no zeros",
    }
}

/// A document that looks so, but for its kind.
fn document_words(guess: Guess) -> &'static str
    ensures { result.now ≡ document_words guess }
{
    match guess {
        Guess::Kind(_) => "another document after it, of kind ",
        Guess::RsaPrivateKey => "an RSAPrivateKey (PKCS #1) after it",
        Guess::RsaPublicKey => "an RSAPublicKey (PKCS #1) after it",
        Guess::DsaPrivateKey => "a DSA private key after it",
        Guess::Certificate => "a certificate after it",
        Guess::Pkcs12 => "a PKCS #12 file after it",
        _ => "octets after it that are no end of line, no zeros and no document that pkder knows",
    }
}

/// The word of the kind of a document after it.
fn after_kind(after: After) -> &'static str
    ensures { result.now ≡ after_kind after }
{
    match after {
        After::Document(guess) => document_kind(guess),
        _ => "",
    }
}

fn document_kind(guess: Guess) -> &'static str
    ensures { result.now ≡ document_kind guess }
{
    match guess {
        Guess::Kind(kind) => kind.word,
        _ => "",
    }
}

/// Whether it is known what the octets are.
fn is_known(after: After) -> bool
    ensures { result ≡ is_known after }
{
    match after {
        After::Unsaid | After::NotShown => false,
        After::Document(guess) => is_document(guess),
        After::LineFeed | After::CrLf | After::Zeros => true,
    }
}

fn is_document(guess: Guess) -> bool
    ensures { result ≡ is_document guess }
{
    match guess {
        Guess::Unknown => false,
        _ => true,
    }
}

/// Where the document ends, for a line of a PEM text that it may have too few or too many: there is none where it is
/// known what comes after it.
pub(crate) fn line_end(report: &Report) -> Option<u64>
    ensures { result ≡ line_end report.now }
{
    if is_known(report.after) {
        None
    } else {
        report.announced
    }
}
