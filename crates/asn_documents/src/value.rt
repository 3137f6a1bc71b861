//! One value of a type: read from the start of what a source tells, and written to a target.
ghost use Rattle.std.specs.Prelude.{◌≡◌, ◌<◌, ◌^◌, IfErr, MatchResult, false, length};
ghost use Rattle.x690.specs.DerTexts.{der};
ghost use Rattle.asn_elements.specs.Whole.{IsFailedRead, TellsInsideOf};
ghost use Rattle.asn_documents.specs.ReadValues.{ReadsValue, StopsReading};
ghost use Rattle.asn_documents.specs.WrittenValues.{WritesText};

use asn_elements::der_text::DerText;
use asn_elements::element::Element;
use asn_elements::whole::read_element;
use std::alloc::Global;
use tlv_core::fault::{Fault, ReadError};
use tlv_core::limits::Limits;
use tlv_core::reason::Reason;
use tlv_core::sink::{Sink, WriteError};
use tlv_core::source::Source;
use tlv_core::target::Target;

/// Reads one value, and answers it with the number of octets taken; not one octet past it is taken.
///
/// Faults: the first one that the octets have as a document of the type, and last of all `TextTooLong` at place 0,
/// where the DER text of the value is longer than the limit of octets.
pub fn read_value<R: Source, T: Element>(
    alloc: Global,
    src: &mut R,
    limits: Limits,
) -> Result<(T, u64), ReadError>
    requires { R.has_failed src.old ≡ false }
    // What was taken spells the value; a fault is the answer to the octets told; where a read failed, the octets before
    // are too few.
    ensures reads { MatchResult result (λ read. ReadsValue limits T.type_term (T.value read.0)
        (R.remaining src.old) (R.remaining src.new) read.1)
        (λ error. StopsReading limits T.type_term error (R.remaining src.old)
        (R.remaining src.new)) }
    // What is inside a fault, of any source.
    ensures inside { IfErr result TellsInsideOf }
    // A failed read is answered where the source failed, and nowhere else.
    ensures read { MatchResult result (λ _. R.has_failed src.new ≡ false)
        (IsFailedRead (R.has_failed src.new)) }
    ensures frame { R.frame src.new ≡ R.frame src.old }
{
    // (not by `?`, which moves a large value once more)
    let (value, taken) = match read_element::<R, T>(alloc, src, limits) {
        Ok(read) => read,
        Err(error) => return Err(error),
    };
    let most = u64::from(limits.octets());
    // A DER text has at most twice the octets of its document, so a short one's value needs no walk for its size.
    if taken > most / 2 && value.size() > most {
        return Err(ReadError::Fault(Fault {
            at: 0,
            why: Reason::TextTooLong,
            inside: None,
        }));
    }
    Ok((value, taken))
}

/// Writes the DER text of a value, and answers its length in octets. No memory is taken.
///
/// Where the writer fails, the first octets of the text are out, as many as the error tells.
pub fn write_value<T: DerText, W: Target>(value: &T, dst: &mut W) -> Result<u64, WriteError>
    requires { W.has_failed dst.old ≡ false }
    ensures { WritesText (der (T.value value.now)) (W.contents dst.old) (W.contents dst.new)
        (W.has_failed dst.new) result }
{
    let _size = value.size();
    write_text(value, dst)
}

/// The same, where the text is known to have fewer than 2^64 octets: its length isn't asked for.
pub(crate) fn write_text<T: DerText, W: Target>(value: &T, dst: &mut W) -> Result<u64, WriteError>
    requires writable { W.has_failed dst.old ≡ false }
    requires short { length (der (T.value value.now)) < 2 ^ 64 }
    ensures { WritesText (der (T.value value.now)) (W.contents dst.old) (W.contents dst.new)
        (W.has_failed dst.new) result }
{
    let mut sink = Sink::new(dst);
    value.put(&mut sink)?;
    Ok(sink.written())
}

/// Writes octets as they are, and answers their number. No memory is taken.
///
/// Where the writer fails, the first of them are out, as many as the error tells.
pub fn write_octets<W: Target>(octets: &[u8], dst: &mut W) -> Result<u64, WriteError>
    requires { W.has_failed dst.old ≡ false }
    ensures { WritesText octets.now (W.contents dst.old) (W.contents dst.new)
        (W.has_failed dst.new) result }
{
    let mut sink = Sink::new(dst);
    sink.put(octets)?;
    Ok(octets.len() as u64)
}
