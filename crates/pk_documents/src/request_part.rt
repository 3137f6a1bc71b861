//! Parts of a certification request, each by itself.
ghost use Rattle.std.specs.Prelude.{◌≡◌, false};
ghost use Rattle.asn_documents.specs.WrittenValues.{WritesText};
ghost use Rattle.pk_documents.specs.RequestParts.{part_of};

use crate::signed_part::write_signed_part;
use asn_documents::value::{write_octets, write_value};
use asn_elements::der_text::DerText;
use pkcs10::request::CertificationRequest;
use tlv_core::sink::WriteError;
use tlv_core::target::Target;

/// A part of a certification request (RFC 2986 section 4).
#[derive(Clone, Copy, Debug, PartialEq, Eq)]
pub enum Part {
    /// What the signature covers, the DER text of certificationRequestInfo.
    Info,
    /// The DER text of signatureAlgorithm.
    Algorithm,
    /// The DER text of subjectPKInfo, the public key.
    Key,
    /// The octets of signature, as the BIT STRING has them (X.690 8.6.2). Where it has unused bits, these stand as 0 in
    /// the last octet, and their number isn't told.
    Signature,
}

/// Writes a part of a request, and answers the number of its octets. No memory is taken.
///
/// Where the writer fails, the first of them are out, as many as the error tells.
pub fn write_part<W: Target>(
    request: &CertificationRequest,
    part: Part,
    dst: &mut W,
) -> Result<u64, WriteError>
    requires { W.has_failed dst.old ≡ false }
    ensures { WritesText (part_of part (⟦<CertificationRequest as DerText>⟧.value request.now))
        (W.contents dst.old) (W.contents dst.new) (W.has_failed dst.new) result }
{
    match part {
        Part::Info => write_signed_part(request, dst),
        Part::Algorithm => write_value(request.signature_algorithm(), dst),
        Part::Key => write_value(request.info().key_info(), dst),
        Part::Signature => write_octets(request.signature().octets(), dst),
    }
}
