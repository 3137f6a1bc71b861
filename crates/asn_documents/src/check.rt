//! Whether the octets of a value are its DER text.
ghost use Rattle.std.specs.Prelude.{◌≡◌, [], IfErr, IfSome, MatchResult, None, false};
ghost use Rattle.x690.specs.Premises.{Lawful};
ghost use Rattle.x690.specs.Values.{Value};
ghost use Rattle.asn_elements.specs.Whole.{IsFailedRead, TellsInsideOf};
ghost use Rattle.asn_documents.specs.Checked.{CheckedAs, Unchecked};
ghost use Rattle.asn_documents.specs.Keepings.{failed, kept, reference, source, whole};
ghost use Rattle.asn_documents.specs.ReadValues.{ReadsValue, StopsReading};

use crate::difference::difference_from_text;
use crate::in_der::length_in_der;
use crate::keeping::Keeping;
use crate::value::read_value;
use asn_elements::element::Element;
use std::alloc::Global;
use tlv_core::fault::ReadError;
use tlv_core::limits::Limits;
use tlv_core::source::Source;

/// How many octets there is room for from the first on, where a source has none at hand.
const FIRST: usize = 1024;

/// The same at most, where it has some: it may have more than the document.
const MOST: usize = 4096;

/// Reads one value of a type, and answers the number of octets taken and the first place where they differ from its DER
/// text: `None` where they are in DER. Not one octet past the value is taken. Where the octets at hand are judged to be
/// in DER as they stand, no memory is taken.
pub fn check_value<R: Source, T: Element>(
    alloc: Global,
    src: &mut R,
    limits: Limits,
) -> Result<(u64, Option<u64>), ReadError>
    requires lawful { Lawful T.type_term }
    requires readable { R.has_failed src.old ≡ false }
    ensures checked { MatchResult result (λ counts. (value : Value)
        × CheckedAs limits T.type_term value (R.remaining src.old) (R.remaining src.new)
        counts.0 counts.1)
        (λ error. Unchecked limits T.type_term error (R.remaining src.old)
        (R.remaining src.new)) }
    // A failed read is answered where the source failed, and nowhere else.
    ensures read { MatchResult result (λ _. R.has_failed src.new ≡ false)
        (IsFailedRead (R.has_failed src.new)) }
    ensures frame { R.frame src.new ≡ R.frame src.old }
{
    if let Some(taken) = pass_in_der::<R, T>(src, limits) {
        return Ok((taken, None));
    }
    check_by_reading::<R, T>(alloc, src, limits)
}

/// Passes the value that the octets at hand begin with, where it is judged to be in DER as it stands, and answers the
/// number of its octets; else the source is as it was.
fn pass_in_der<R: Source, T: Element>(src: &mut R, limits: Limits) -> Option<u64>
    requires { Lawful T.type_term }
    ensures passed { IfSome result (λ taken. (value : Value)
        × CheckedAs limits T.type_term value (R.remaining src.old) (R.remaining src.new)
        taken None) }
    ensures same { result ≡ None → src.new ≡ src.old }
    ensures failed { R.has_failed src.new ≡ R.has_failed src.old }
    ensures frame { R.frame src.new ≡ R.frame src.old }
{
    let taken = length_in_der::<T>(src.held(), limits)?;
    src.pass(taken);
    Some(taken as u64)
}

/// The same by reading: the value is made, and its octets are kept as they come.
fn check_by_reading<R: Source, T: Element>(
    alloc: Global,
    src: &mut R,
    limits: Limits,
) -> Result<(u64, Option<u64>), ReadError>
    requires lawful { Lawful T.type_term }
    requires readable { R.has_failed src.old ≡ false }
    ensures checked { MatchResult result (λ counts. (value : Value)
        × CheckedAs limits T.type_term value (R.remaining src.old) (R.remaining src.new)
        counts.0 counts.1)
        (λ error. Unchecked limits T.type_term error (R.remaining src.old)
        (R.remaining src.new)) }
    // A failed read is answered where the source failed, and nowhere else.
    ensures read { MatchResult result (λ _. R.has_failed src.new ≡ false)
        (IsFailedRead (R.has_failed src.new)) }
    ensures frame { R.frame src.new ≡ R.frame src.old }
{
    let mut octets = first_room(alloc, src);
    let mut keeping = Keeping::new(src, &mut octets);
    let answer = read_keeping::<R, T>(alloc, &mut keeping, limits);
    match answer {
        Ok((value, taken)) => Ok((taken, difference_from_text(&value, keeping.kept))),
        Err(error) => {
            if keeping.refused {
                return Err(ReadError::Memory);
            }
            Err(error)
        }
    }
}

/// Room for as many octets as the source has at hand, or as a short document has, where there is memory for them.
fn first_room<R: Source>(alloc: Global, src: &R) -> Vec<u8>
    ensures { result.items ≡ [] }
{
    let room = match src.held().len() {
        0 => FIRST,
        held => held.min(MOST),
    };
    match Vec::with_capacity(alloc, room) {
        Ok(room) => room,
        Err(_) => Vec::new(alloc),
    }
}

/// `read_value` from a source that keeps, with what that says of the octets kept.
fn read_keeping<R: Source, T: Element>(
    alloc: Global,
    keeping: &mut Keeping<'_, R>,
    limits: Limits,
) -> Result<(T, u64), ReadError>
    requires { failed keeping.old ≡ false }
    ensures same_source { reference keeping.new ≡ reference keeping.old }
    ensures whole { whole (kept keeping.new) (R.remaining (source keeping.new))
        ≡ whole (kept keeping.old) (R.remaining (source keeping.old)) }
    ensures reads { MatchResult result (λ read. ReadsValue limits T.type_term (T.value read.0)
        (R.remaining (source keeping.old)) (R.remaining (source keeping.new)) read.1)
        (λ error. StopsReading limits T.type_term error (R.remaining (source keeping.old))
        (R.remaining (source keeping.new))) }
    ensures inside { IfErr result TellsInsideOf }
    ensures read { MatchResult result (λ _. failed keeping.new ≡ false)
        (IsFailedRead (failed keeping.new)) }
    ensures frame { R.frame (source keeping.new) ≡ R.frame (source keeping.old) }
{
    read_value::<Keeping<'_, R>, T>(alloc, keeping, limits)
}
