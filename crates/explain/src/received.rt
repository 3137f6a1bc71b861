//! The octets of a certification request that its signature is over, as they came.
ghost use Rattle.std.specs.Prelude.{◌≡◌, IfErr, IfOk};
ghost use Rattle.tlv_core.specs.declared.fault.ReadError.TheVariants.{Memory};
ghost use Rattle.x690.specs.Fitting.{Spells};
ghost use Rattle.x690.specs.Values.{Value};
ghost use Rattle.pkix_definitions.specs.DocumentTypes.{CertificationRequest};
ghost use Rattle.explain.specs.Received.{NotReceived, Received, behind_header};

use asn_documents::value::read_value;
use pk_documents::check::check_whole_document;
use pk_documents::kind::Kind;
use pk_documents::request_part::Part;
use pkcs10::info::CertificationRequestInfo;
use std::alloc::Global;
use tlv_core::fault::ReadError;
use tlv_core::limits::Limits;

/// What of a certification request is asked for.
#[derive(Clone, Copy, Debug, PartialEq, Eq)]
pub enum RequestPart {
    /// A part that is written of what the request says.
    Written(Part),
    /// The octets of certificationRequestInfo as they came.
    Received,
}

/// The octets of certificationRequestInfo as they came, in DER or not: from its identifier octets to its last octet,
/// end-of-contents octets included. The octets given have to be one request, all of them.
///
/// What is signed is the DER encoding (RFC 2986 section 4.2), which these octets are exactly where they are in DER.
/// Some signers sign what they send instead.
pub fn received<'a>(alloc: Global, octets: &'a [u8], limits: Limits) -> Result<&'a [u8], ReadError>
    ensures received { IfOk result (λ part. Received limits octets.now part.now) }
    ensures refused { IfErr result (NotReceived limits octets.now) }
{
    let mut rest = octets;
    match check_whole_document(alloc, &mut rest, Kind::Request, limits) {
        Ok(_) => received_info(alloc, octets, limits),
        Err(error) => Err(error),
    }
}

/// The same, of octets that are a request.
fn received_info<'a>(
    alloc: Global,
    request: &'a [u8],
    limits: Limits,
) -> Result<&'a [u8], ReadError>
    requires { (value : Value) × Spells limits CertificationRequest value request.now }
    ensures received { IfOk result (λ part. Received limits request.now part.now) }
    ensures memory { IfErr result (λ error. error ≡ Memory) }
{
    let members = behind_header(request);
    let mut rest = members;
    match read_value::<&[u8], CertificationRequestInfo>(alloc, &mut rest, limits) {
        Ok((_info, taken)) => Ok(&members[..taken as usize]),
        // (the request was read: want of memory alone stops this)
        Err(error) => Err(error),
    }
}

/// What stands behind the identifier octet and the length octets of an element.
fn behind_header(element: &[u8]) -> &[u8]
    ensures { result.now ≡ behind_header element.now }
{
    match element {
        [_, first, rest @ ..] => {
            let more = usize::from(first.saturating_sub(128));
            rest.get(more..).unwrap_or(&[])
        }
        _ => &[],
    }
}
