//! What a signature covers.
ghost use Rattle.std.specs.Prelude.{◌≡◌, false};
ghost use Rattle.x690.specs.DerTexts.{der};
ghost use Rattle.asn_documents.specs.WrittenValues.{WritesText};
ghost use Rattle.pkcs10.specs.Requests.{request_info_of};

use asn_documents::value::write_value;
use asn_elements::der_text::DerText;
use pkcs10::info::CertificationRequestInfo;
use pkcs10::request::CertificationRequest;
use tlv_core::sink::WriteError;
use tlv_core::target::Target;

/// Writes the octets that the signature of a request covers, the DER text of its info (RFC 2986 section 4.2), and
/// answers their number.
///
/// Where the writer fails, the first of them are out, as many as the error tells.
pub fn write_signed_part<W: Target>(
    request: &CertificationRequest,
    dst: &mut W,
) -> Result<u64, WriteError>
    requires { W.has_failed dst.old ≡ false }
    ensures { WritesText (der (⟦<CertificationRequestInfo as DerText>⟧.value
        (request_info_of request.now.fields))) (W.contents dst.old) (W.contents dst.new)
        (W.has_failed dst.new) result }
{
    write_value(request.info(), dst)
}
