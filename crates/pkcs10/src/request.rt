//! CertificationRequest of RFC 2986 section 4.2.
ghost use Rattle.std.proofs.lemmas.Bool.{ltb-true};
ghost use Rattle.std.specs.Prelude.{◌≡◌, refl};
ghost use Rattle.asn_fields.specs.Listings.{through};
ghost use Rattle.pkix_definitions.specs.DocumentTypes.{CertificationRequest as CertificationRequestType};
ghost use Rattle.pkix_definitions.proofs.Sequences.{request_is};

use crate::info::CertificationRequestInfo;
use asn_elements::bits::Bits;
use asn_fields::sequence::{FieldsText, Required, Sequence, SequenceFields};
use pkix_values::algorithm::AlgorithmIdentifier;
use tlv_core::sink::{Sink, WriteError};
use tlv_core::target::Target;

/// certificationRequestInfo, signatureAlgorithm, signature.
pub(crate) type Listed = (
    Required<CertificationRequestInfo>,
    (Required<AlgorithmIdentifier>, Required<Bits>),
);

/// certificationRequestInfo, signatureAlgorithm, signature.
#[derive(Drop)]
pub struct RequestFields(pub(crate) Listed);

impl RequestFields {
    ghost use Rattle.pkcs10.specs.Requests.{request_info_of, signature_algorithm_of, signature_of};

    /// What the signature covers, as its DER text.
    pub fn info(&self) -> &CertificationRequestInfo
        ensures { result.now ≡ request_info_of self.now }
    {
        &self.0.0.0
    }

    /// By which algorithm it is signed.
    pub fn signature_algorithm(&self) -> &AlgorithmIdentifier
        ensures { result.now ≡ signature_algorithm_of self.now }
    {
        &self.0.1.0.0
    }

    /// The signature.
    pub fn signature(&self) -> &Bits
        ensures { result.now ≡ signature_of self.now }
    {
        &self.0.1.1.0
    }
}

impl FieldsText for RequestFields {
    ghost values = { λ fields. ⟦<Listed as FieldsText>⟧.values fields.0 };

    ghost listing = { through (λ fields. fields.0) ⟦<Listed as FieldsText>⟧.listing };

    fn size(&self) -> u64 {
        self.0.size()
    }

    fn put<W: Target>(&self, sink: &mut Sink<'_, W>) -> Result<(), WriteError> {
        self.0.put(sink)
    }

    fn octet(&self, i: u64) -> Option<u8> {
        self.0.octet(i)
    }
}

impl SequenceFields for RequestFields {
    ghost type_term = { CertificationRequestType };

    ghost listed = { request_is };

    ghost parted = { refl };

    ghost few = { ltb-true _ _ refl };
}

/// A certification request. Whether its signature is good isn't looked at.
pub type CertificationRequest = Sequence<RequestFields>;
