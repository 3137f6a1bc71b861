//! A guess at what a file is that is refused near its start, or was taken for a text on its way.
mod heads;
mod texts;

ghost use Rattle.std.specs.Prelude.{IfOk, None, false, ◌≡◌};
ghost use Rattle.pk_documents.specs.KindRows.{kinds, private_keys_of};
ghost use Rattle.explain.specs.Guesses.{BeginsAs, IsDocument, IsFirst, IsOtherDocument, IsGuess, IsText, IsTextGuess};
ghost use Rattle.explain.specs.Guesses.{has_beginning, is_guessed, is_kind_like, is_of_lines, is_unknown};
ghost use Rattle.explain.specs.Guesses.{is_without_key};
ghost use Rattle.explain.specs.TextGuesses.{block_in, head_of, pem_label};

use crate::document::inside::named_elements;
use crate::document::kinds::{deciding_field, shape_of, words_of};
use crate::document::values::is_field;
use crate::guess::heads::guess_by_outline;
use crate::guess::texts::{block_in, guess_by_text, has_lines, head_of, pem_guess, pem_label};
use crate::listing::front::{is_usual_mark, mark_of};
use asn_names::element::NamedElement;
use ber_outline::outline::outline;
use pk_documents::kind::{KINDS, Kind, PrivateKeys};
use reports::report::{Answer, Guess};
use std::alloc::{AllocError, Global};
use tlv_core::limits::Limits;
use tlv_core::reason::Reason;

/// What the file may be instead: a text by how it begins, else octets that were taken for one, else a document of
/// another kind. A guess is made where a fault near its start says that it may be of another kind.
pub(crate) fn guess_of(
    alloc: Global,
    octets: &[u8],
    kind: Kind,
    limits: Limits,
    answer: Answer,
) -> Result<Guess, AllocError>
    ensures { IfOk result (λ guess. IsGuess limits kind octets.now answer guess) }
{
    let text = guess_text(octets, answer);
    if !is_unknown(text) {
        Ok(text)
    } else if is_of_lines(kind, octets, answer) {
        Ok(Guess::TextLines)
    } else if is_guessed(answer) {
        guess_document(alloc, octets, kind, limits)
    } else {
        Ok(Guess::Unknown)
    }
}

/// What a text is that is refused so.
fn guess_text(octets: &[u8], answer: Answer) -> Guess
    ensures { IsTextGuess (is_guessed answer) octets.now result }
{
    if is_guessed(answer) {
        text_guess(octets)
    } else {
        Guess::Unknown
    }
}

/// What a text is: PEM by its label, another one by how it begins.
fn text_guess(octets: &[u8]) -> Guess
    ensures { IsText (pem_label (block_in (head_of octets.now))) octets.now result }
{
    let text = head_of(octets);
    let block = block_in(text);
    match pem_label(block) {
        Some(label) => pem_guess(text, block, label),
        None => guess_by_text(octets),
    }
}

/// Whether a file is refused, and was taken for a text on its way. Of what may have private keys this isn't said.
fn is_of_lines(kind: Kind, octets: &[u8], answer: Answer) -> bool
    ensures { result ≡ is_of_lines kind octets.now answer }
{
    match answer {
        Answer::Refused(_) => is_without_key(kind) && has_lines(octets),
        _ => false,
    }
}

/// Whether no document of the kind has a private key in it.
fn is_without_key(kind: Kind) -> bool
    ensures { result ≡ is_without_key (private_keys_of kind) }
{
    match kind.row().private_keys {
        PrivateKeys::None => true,
        PrivateKeys::One | PrivateKeys::Several | PrivateKeys::Encrypted => false,
    }
}

/// Whether a file is refused near its start, and as one of another kind is.
fn is_guessed(answer: Answer) -> bool
    ensures { result ≡ is_guessed answer }
{
    match answer {
        Answer::Refused(fault) => is_kind_like(fault.why) && fault.at < 64,
        _ => false,
    }
}

/// Whether a document of another kind is refused so.
fn is_kind_like(why: Reason) -> bool
    ensures { result ≡ is_kind_like why }
{
    match why {
        Reason::WrongTag
        | Reason::Version
        | Reason::BadTag
        | Reason::PastEnd
        | Reason::Extra
        | Reason::Missing
        | Reason::LeftOut
        | Reason::Truncated
        | Reason::TooLong => true,
        _ => false,
    }
}

fn is_unknown(guess: Guess) -> bool
    ensures { result ≡ is_unknown guess }
{
    match guess {
        Guess::Unknown => true,
        _ => false,
    }
}

/// What a document is that isn't of the kind asked for, by its first elements.
pub(crate) fn guess_document(
    alloc: Global,
    octets: &[u8],
    kind: Kind,
    limits: Limits,
) -> Result<Guess, AllocError>
    ensures { IfOk result (λ guess. IsOtherDocument limits kind octets.now guess) }
{
    match other_kind(alloc, octets, kind, limits)? {
        Some(other) => Ok(Guess::Kind(words_of(other))),
        None => guess_by_headers(alloc, octets, limits),
    }
}

/// The first kind, other than the one asked for, whose documents begin so.
fn other_kind(
    alloc: Global,
    octets: &[u8],
    wanted: Kind,
    limits: Limits,
) -> Result<Option<Kind>, AllocError>
    ensures { IfOk result (λ found. IsFirst limits octets.now wanted kinds found) }
{
    first_kind(alloc, octets, wanted, limits, &KINDS)
}

/// The first of these kinds.
fn first_kind(
    alloc: Global,
    octets: &[u8],
    wanted: Kind,
    limits: Limits,
    kinds: &[Kind],
) -> Result<Option<Kind>, AllocError>
    ensures { IfOk result (λ found. IsFirst limits octets.now wanted kinds.now found) }
{
    let [kind, later @ ..] = kinds else {
        return Ok(None);
    };
    if *kind == wanted {
        return first_kind(alloc, octets, wanted, limits, later);
    }
    if begins_as(alloc, octets, *kind, limits)? {
        Ok(Some(*kind))
    } else {
        first_kind(alloc, octets, wanted, limits, later)
    }
}

/// Whether octets begin as a document of the kind does.
pub(crate) fn begins_as(
    alloc: Global,
    octets: &[u8],
    kind: Kind,
    limits: Limits,
) -> Result<bool, AllocError>
    ensures { IfOk result (λ is. BeginsAs limits octets.now kind is) }
{
    let named = named_elements(alloc, octets, shape_of(kind), limits)?;
    let elements = named.elements.as_slice();
    Ok(has_beginning(octets, deciding_field(kind), elements))
}

/// Whether the field of this name is there, and something usual before the first one that is.
fn has_beginning(octets: &[u8], field: &str, elements: &[NamedElement]) -> bool
    ensures { result ≡ has_beginning octets.now field.now false elements.now }
{
    let mut is_begun = false;
    let mut left = elements;
    while let [element, rest @ ..] = left {
        if is_field(element.step, field) {
            return is_begun;
        }
        is_begun = is_begun || is_usual_mark(mark_of(octets, element));
        left = rest;
    }
    false
}

/// What a document is by its first headers.
fn guess_by_headers(alloc: Global, octets: &[u8], limits: Limits) -> Result<Guess, AllocError>
    ensures { IfOk result (λ guess. IsDocument limits octets.now None guess) }
{
    match outline(alloc, octets, limits) {
        Ok((events, _)) => Ok(guess_by_outline(octets, events.as_slice())),
        Err(_) => Err(AllocError),
    }
}
