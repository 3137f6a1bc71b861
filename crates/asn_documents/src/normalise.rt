//! One value of a type in, its DER text out.
ghost use Rattle.std.specs.Prelude.{◌≡◌, IfErr, IfOk, false};
ghost use Rattle.x690.specs.Premises.{Lawful};
ghost use Rattle.x690.specs.Values.{Value};
ghost use Rattle.asn_documents.specs.Normalised.{Failures, IsRead, NormalisedAs, RefusedAs};
ghost use Rattle.asn_documents.specs.declared.normalise.NormaliseError.TheVariants.{Read as unread, Write as unwritten};

use crate::in_der::length_in_der;
use crate::value::{read_value, write_octets, write_text};
use asn_elements::element::Element;
use std::alloc::Global;
use thiserror::Error;
use tlv_core::fault::ReadError;
use tlv_core::limits::Limits;
use tlv_core::sink::WriteError;
use tlv_core::source::Source;
use tlv_core::target::Target;

/// Why a value was not normalised.
#[derive(Clone, Copy, Debug, PartialEq, Eq, Error)]
pub enum NormaliseError {
    /// It was not read, and nothing was written.
    #[error("{0}")]
    Read(ReadError),
    /// It was read, and the writer failed after the first octets of its text.
    #[error("{0}")]
    Write(WriteError),
}

impl From<ReadError> for NormaliseError {
    ghost from_gives = { λ from error. error ≡ unread from };

    fn from(error: ReadError) -> NormaliseError {
        NormaliseError::Read(error)
    }
}

impl From<WriteError> for NormaliseError {
    ghost from_gives = { λ from error. error ≡ unwritten from };

    fn from(error: WriteError) -> NormaliseError {
        NormaliseError::Write(error)
    }
}

/// Reads one value of a type and writes its DER text; answers the octets taken and the octets written. No memory is
/// taken but for the value, and none where the octets at hand are judged to be in DER: then they are written.
pub fn normalise_value<R: Source, W: Target, T: Element>(
    alloc: Global,
    src: &mut R,
    dst: &mut W,
    limits: Limits,
) -> Result<(u64, u64), NormaliseError>
    requires lawful { Lawful T.type_term }
    requires readable { R.has_failed src.old ≡ false }
    requires writable { W.has_failed dst.old ≡ false }
    // The octets taken spell one value, and its DER text was written: see the record's fields.
    ensures normalised { IfOk result (λ counts. (value : Value)
        × NormalisedAs limits T.type_term value (R.remaining src.old) (R.remaining src.new)
        (W.contents dst.old) (W.contents dst.new) counts.0 counts.1) }
    ensures refused { IfErr result (λ error. RefusedAs limits T.type_term error
        (R.remaining src.old) (R.remaining src.new) (W.contents dst.old) (W.contents dst.new)) }
    // Nothing is written of what wasn't read.
    ensures unwritten { IfErr result (λ error. IsRead error → dst.new ≡ dst.old) }
    // A failed read or write is answered where the source or the target failed, and nowhere else.
    ensures failed { Failures result (R.has_failed src.new) (W.has_failed dst.new) }
    ensures frame { R.frame src.new ≡ R.frame src.old }
{
    let held = src.held();
    if let Some(taken) = length_in_der::<T>(held, limits) {
        let copied = write_octets(&held[..taken], dst);
        src.pass(taken);
        return match copied {
            Ok(written) => Ok((taken as u64, written)),
            Err(error) => Err(NormaliseError::Write(error)),
        };
    }
    let (value, taken) = read_value::<R, T>(alloc, src, limits)?;
    let written = write_text(&value, dst)?;
    Ok((taken, written))
}
