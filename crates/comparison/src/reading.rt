//! A document that is read, and its DER encoding.
ghost use Rattle.std.specs.Prelude.{◌≡◌, ◌||◌, IfOk, is_some};
ghost use Rattle.pk_documents.specs.Kinds.{type_of};
ghost use Rattle.comparison.specs.Sameness.{IsReading, encoding_of, fault_of};

use pk_documents::encoding::{Encoding, encoding_of};
use pk_documents::kind::Kind;
use std::alloc::{AllocError, Global};
use tlv_core::fault::Fault;
use tlv_core::limits::Limits;

/// What octets are that have to be one document.
#[derive(Drop)]
pub(crate) enum DocumentReading<'a> {
    /// A document, by its DER encoding.
    Accepted(Encoding<'a>),
    Refused(Fault),
}

impl DocumentReading<'_> {
    /// Why it is refused, if it is.
    pub(crate) fn fault(&self) -> Option<Fault>
        ensures { result ≡ fault_of self.now }
    {
        match self {
            DocumentReading::Accepted(_) => None,
            DocumentReading::Refused(fault) => Some(*fault),
        }
    }

    /// The DER encoding of a document, and no octets of what is refused.
    pub(crate) fn encoding(&self) -> &[u8]
        ensures { result.now ≡ encoding_of self.now }
    {
        match self {
            DocumentReading::Accepted(encoding) => encoding.octets(),
            DocumentReading::Refused(_) => &[],
        }
    }
}

/// Whether there is a fault.
pub fn is_any(fault: Option<Fault>, other: Option<Fault>) -> bool
    ensures { result ≡ (is_some fault || is_some other) }
{
    fault.is_some() || other.is_some()
}

/// Reads octets that have to be one document of the kind, all of them.
pub(crate) fn read<'a>(
    alloc: Global,
    octets: &'a [u8],
    kind: Kind,
    limits: Limits,
) -> Result<DocumentReading<'a>, AllocError>
    ensures { IfOk result (λ reading. IsReading limits (type_of kind) octets.now reading) }
{
    match encoding_of(alloc, octets, kind, limits)? {
        Ok(encoding) => Ok(DocumentReading::Accepted(encoding)),
        Err(fault) => Ok(DocumentReading::Refused(fault)),
    }
}
