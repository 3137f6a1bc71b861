//! CertificationRequestInfo of RFC 2986 section 4.1.
ghost use Rattle.std.proofs.lemmas.Bool.{ltb-true};
ghost use Rattle.std.specs.Prelude.{◌≡◌, refl};
ghost use Rattle.std.specs.Option.{option_map};
ghost use Rattle.asn_fields.specs.Listings.{through};
ghost use Rattle.pkix_definitions.specs.DocumentTypes.{CertificationRequestInfo as CertificationRequestInfoType};
ghost use Rattle.pkix_definitions.proofs.Sequences.{info_is};

use asn_elements::implicit::Implicit;
use asn_fields::sequence::{FieldsText, Optional, Required, Sequence, SequenceFields};
use asn_lists::set_of::SetOf;
use pkix_values::name::Name;
use pkix_values::public_key::SubjectPublicKeyInfo;
use pkix_values::request_attribute::RequestAttribute;
use pkix_values::version::Version;
use tlv_core::sink::{Sink, WriteError};
use tlv_core::target::Target;

/// version, subject, subjectPKInfo, attributes [0].
pub(crate) type Listed = (
    (Required<Version<0, 0>>, Required<Name>),
    (
        Required<SubjectPublicKeyInfo>,
        Optional<Implicit<0, SetOf<RequestAttribute>>>,
    ),
);

/// version, subject, subjectPKInfo, attributes [0].
#[derive(Drop)]
pub struct InfoFields(pub(crate) Listed);

impl InfoFields {
    ghost use Rattle.pkcs10.specs.Infos.{request_attributes_of, subject_key_of, subject_of};

    /// Who asks.
    pub fn subject(&self) -> &Name
        ensures { result.now ≡ subject_of self.now }
    {
        &self.0.0.1.0
    }

    /// The public key that is to be certified.
    pub fn key_info(&self) -> &SubjectPublicKeyInfo
        ensures { result.now ≡ subject_key_of self.now }
    {
        &self.0.1.0.0
    }

    /// What else is asked for, in the order of the texts. Attributes that are absent aren't the same as none of them.
    pub fn attributes(&self) -> Option<&SetOf<RequestAttribute>>
        ensures { option_map (λ r. r.now) result ≡ request_attributes_of self.now }
    {
        match &self.0.1.1.0 {
            Some(attributes) => Some(attributes.value()),
            None => None,
        }
    }
}

impl FieldsText for InfoFields {
    ghost values = { λ fields. ⟦<Listed as FieldsText>⟧.values fields.0 };

    ghost listing = { through (λ fields. fields.0) ⟦<Listed as FieldsText>⟧.listing };

    fn size(&self) -> u64 {
        self.0.size()
    }

    fn put<W: Target>(&self, sink: &mut Sink<'_, W>) -> Result<(), WriteError> {
        self.0.put(sink)
    }

    fn octet(&self, i: u64) -> Option<u8> {
        self.0.octet(i)
    }
}

impl SequenceFields for InfoFields {
    ghost type_term = { CertificationRequestInfoType };

    ghost listed = { info_is };

    ghost parted = { refl };

    ghost few = { ltb-true _ _ refl };
}

/// What is asked to be certified; the signature of a request covers its DER text.
pub type CertificationRequestInfo = Sequence<InfoFields>;
