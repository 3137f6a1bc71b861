//! What comes of a call, put where the caller sees it.
ghost use Rattle.std.specs.Prelude.{◌≡◌, IfErr, IfOk, length};
ghost use Rattle.pk_documents.specs.Encodings.{octets_of};
ghost use Rattle.pkder_c.specs.Calls.{Put, PutReport};
ghost use Rattle.pkder_c.specs.Outcomes.{checked_outcome, compared_outcome, refused_outcome, uncompared_outcome};

use crate::outcome::{
    PkderOutcome, accepted, checked, compared, refused, reported, too_small, uncompared, unreported,
};
use crate::refusal::{PairRefusal, Refusal};
use pk_documents::encoding::Encoding;
use reports::report::Answer;

/// Writes a text of the document in `src` where `dst` begins, if it fits there; nothing where there is none.
pub fn deliver(made: Result<Vec<u8>, Refusal>, src: &[u8], dst: &mut [u8]) -> PkderOutcome
    ensures put { IfOk made (λ text. Put text.items (length src.now) dst.old dst.new result) }
    ensures refused { IfErr made (λ refusal. (result ≡ refused_outcome refusal)
        × (dst.new ≡ dst.old)) }
{
    match made {
        Ok(text) => put(text.as_slice(), src, dst),
        Err(refusal) => refused(&refusal),
    }
}

/// The same of the document's DER text.
pub fn deliver_encoding(
    made: Result<Encoding<'_>, Refusal>,
    src: &[u8],
    dst: &mut [u8],
) -> PkderOutcome
    ensures put { IfOk made.entry (λ text. Put (octets_of text) (length src.now) dst.old dst.new result) }
    ensures refused { IfErr made.entry (λ refusal. (result ≡ refused_outcome refusal)
        × (dst.new ≡ dst.old)) }
{
    match made {
        Ok(text) => put(text.octets(), src, dst),
        Err(refusal) => refused(&refusal),
    }
}

/// Writes a text of the document in `src` where `dst` begins, if it fits there; nothing otherwise.
fn put(text: &[u8], src: &[u8], dst: &mut [u8]) -> PkderOutcome
    ensures { Put text.now (length src.now) dst.old dst.new result }
{
    if text.len() > dst.len() {
        return too_small(src.len() as u64, text.len() as u64);
    }
    dst[..text.len()].copy_from_slice(text);
    accepted(src.len() as u64, text.len() as u64)
}

/// Writes the report of the octets in `src` where `dst` begins, if it fits there; nothing otherwise.
pub fn report(made: Result<(Vec<u8>, Answer), Refusal>, src: &[u8], dst: &mut [u8]) -> PkderOutcome
    ensures put { IfOk made (λ made. PutReport made.0.items made.1 (length src.now)
        dst.old dst.new result) }
    ensures refused { IfErr made (λ refusal. (result ≡ refused_outcome refusal)
        × (dst.new ≡ dst.old)) }
{
    let (text, answer) = match made {
        Ok(made) => made,
        Err(refusal) => return refused(&refusal),
    };
    if text.len() > dst.len() {
        return unreported(src.len() as u64, answer, text.len() as u64);
    }
    dst[..text.len()].copy_from_slice(&text);
    reported(src.len() as u64, answer, text.len() as u64)
}

/// What was found of the document in `src`.
pub fn place_outcome(found: Result<Option<u64>, Refusal>, src: &[u8]) -> PkderOutcome
    ensures checked { IfOk found (λ place. result ≡ checked_outcome (length src.now) place) }
    ensures refused { IfErr found (λ refusal. result ≡ refused_outcome refusal) }
{
    match found {
        Ok(place) => checked(src.len() as u64, place),
        Err(refusal) => refused(&refusal),
    }
}

/// What was found of two documents.
pub fn pair_outcome(found: Result<bool, PairRefusal>) -> PkderOutcome
    ensures compared { IfOk found (λ same. result ≡ compared_outcome same) }
    ensures refused { IfErr found (λ refusal. result ≡ uncompared_outcome refusal) }
{
    match found {
        Ok(same) => compared(same),
        Err(refusal) => uncompared(&refusal),
    }
}
