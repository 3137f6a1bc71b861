//! A value that has to be all of the input.
ghost use Rattle.std.specs.Prelude.{◌≡◌, ◌⊎◌, IfErr, IfOk, MatchResult, false};
ghost use Rattle.std.specs.Io.KnownBytes.{IsAtEnd};
ghost use Rattle.x690.specs.Premises.{Lawful};
ghost use Rattle.x690.specs.Values.{Value};
ghost use Rattle.asn_elements.specs.Whole.{IsFailedRead, TellsInsideOf};
ghost use Rattle.asn_documents.specs.Checked.{CheckedAs, Unchecked};
ghost use Rattle.asn_documents.specs.Normalised.{Failures, IsRead, NormalisedAs};
ghost use Rattle.asn_documents.specs.ReadValues.{ReadsValue};
ghost use Rattle.asn_documents.specs.WholeInputs.{EndsAfter, Followed, RefusedWhole, StopsWhole};

use crate::check::check_value;
use crate::normalise::NormaliseError;
use crate::value::{read_value, write_text};
use asn_elements::element::Element;
use std::alloc::Global;
use tlv_core::fault::{Fault, ReadError};
use tlv_core::limits::Limits;
use tlv_core::reason::Reason;
use tlv_core::source::{Failed, Source};
use tlv_core::target::Target;

/// Asks for one octet more, after so many that were taken.
///
/// Faults: `Trailing` where one comes.
pub fn expect_end<R: Source>(src: &mut R, taken: u64) -> Result<(), ReadError>
    requires { R.has_failed src.old ≡ false }
    ensures ends { EndsAfter taken (R.remaining src.old) (R.remaining src.new) result }
    // A failed read is answered where the source failed, and nowhere else.
    ensures read { MatchResult result (λ _. R.has_failed src.new ≡ false)
        (IsFailedRead (R.has_failed src.new)) }
    ensures frame { R.frame src.new ≡ R.frame src.old }
{
    let mut room = [0u8; 1];
    match src.read(&mut room) {
        Ok(0) => Ok(()),
        Ok(_) => Err(ReadError::Fault(Fault {
            at: taken,
            why: Reason::Trailing,
            inside: None,
        })),
        Err(Failed) => Err(ReadError::Read { at: taken }),
    }
}

/// Reads one value, after which the source has to end. Answers it with the number of its octets.
///
/// Faults: those of `read_value`; `Trailing` at the first octet after the value.
pub fn read_whole_input<R: Source, T: Element>(
    alloc: Global,
    src: &mut R,
    limits: Limits,
) -> Result<(T, u64), ReadError>
    requires { R.has_failed src.old ≡ false }
    ensures reads { MatchResult result (λ read. ReadsValue limits T.type_term (T.value read.0)
        (R.remaining src.old) (R.remaining src.new) read.1)
        (λ error. StopsWhole limits T.type_term error (R.remaining src.old)
        (R.remaining src.new)) }
    ensures ends { IfOk result (λ _. IsAtEnd (R.remaining src.new)) }
    // What is inside a fault, of any source.
    ensures inside { IfErr result TellsInsideOf }
    // A failed read is answered where the source failed, and nowhere else.
    ensures read { MatchResult result (λ _. R.has_failed src.new ≡ false)
        (IsFailedRead (R.has_failed src.new)) }
    ensures frame { R.frame src.new ≡ R.frame src.old }
{
    let (value, taken) = match read_value::<R, T>(alloc, src, limits) {
        Ok(read) => read,
        Err(error) => return Err(error),
    };
    expect_end(src, taken)?;
    Ok((value, taken))
}

/// Reads one value, which has to be all of the input, and only then writes its DER text. Answers the octets taken and
/// the octets written.
pub fn normalise_whole<R: Source, W: Target, T: Element>(
    alloc: Global,
    src: &mut R,
    dst: &mut W,
    limits: Limits,
) -> Result<(u64, u64), NormaliseError>
    requires lawful { Lawful T.type_term }
    requires readable { R.has_failed src.old ≡ false }
    requires writable { W.has_failed dst.old ≡ false }
    ensures normalised { IfOk result (λ counts. (value : Value)
        × NormalisedAs limits T.type_term value (R.remaining src.old) (R.remaining src.new)
        (W.contents dst.old) (W.contents dst.new) counts.0 counts.1) }
    ensures ends { IfOk result (λ _. IsAtEnd (R.remaining src.new)) }
    ensures refused { IfErr result (λ error. RefusedWhole limits T.type_term error
        (R.remaining src.old) (R.remaining src.new) (W.contents dst.old) (W.contents dst.new)) }
    // Nothing is written of what isn't all of the input.
    ensures unwritten { IfErr result (λ error. IsRead error → dst.new ≡ dst.old) }
    ensures failed { Failures result (R.has_failed src.new) (W.has_failed dst.new) }
    ensures frame { R.frame src.new ≡ R.frame src.old }
{
    let (value, taken) = read_whole_input::<R, T>(alloc, src, limits)?;
    let written = write_text(&value, dst)?;
    Ok((taken, written))
}

/// Reads one value, which has to be all of the input, and answers the number of its octets and the first place where
/// they differ from its DER text: `None` where they are in DER.
///
/// Faults: those of `check_value`; `Trailing` at the first octet after the value, whether it is in DER or not.
pub fn check_whole<R: Source, T: Element>(
    alloc: Global,
    src: &mut R,
    limits: Limits,
) -> Result<(u64, Option<u64>), ReadError>
    requires lawful { Lawful T.type_term }
    requires readable { R.has_failed src.old ≡ false }
    ensures checked { MatchResult result (λ counts. (value : Value)
        × CheckedAs limits T.type_term value (R.remaining src.old) (R.remaining src.new)
        counts.0 counts.1)
        (λ error. Unchecked limits T.type_term error (R.remaining src.old) (R.remaining src.new)
        ⊎ Followed limits T.type_term error (R.remaining src.old) (R.remaining src.new)) }
    ensures ends { IfOk result (λ _. IsAtEnd (R.remaining src.new)) }
    // A failed read is answered where the source failed, and nowhere else.
    ensures read { MatchResult result (λ _. R.has_failed src.new ≡ false)
        (IsFailedRead (R.has_failed src.new)) }
    ensures frame { R.frame src.new ≡ R.frame src.old }
{
    let (count, place) = check_value::<R, T>(alloc, src, limits)?;
    expect_end(src, count)?;
    Ok((count, place))
}
