//! Extension of RFC 5280 section 4.1.
ghost use Rattle.std.proofs.lemmas.Bool.{ltb-true};
ghost use Rattle.std.specs.Prelude.{◌≡◌, refl};
ghost use Rattle.pkix_definitions.specs.DocumentTypes.{Extension as ExtensionType};
ghost use Rattle.asn_fields.specs.Listings.{through};
ghost use Rattle.pkix_definitions.proofs.Sequences.{extension_is};

use asn_elements::octets::Octets;
use asn_fields::fields::Next;
use asn_fields::sequence::{
    DefaultFalse, FieldsText, FirstFields, Required, Sequence, SequenceFields,
};
use ber_pull::pull::Pull;
use std::alloc::Global;
use tlv_core::fault::ReadError;
use tlv_core::limits::Limits;
use tlv_core::oid::Oid;
use tlv_core::sink::{Sink, WriteError};
use tlv_core::source::Source;
use tlv_core::target::Target;

/// extnID, critical, extnValue.
type Listed = (Required<Oid>, (DefaultFalse, Required<Octets>));

/// extnID, critical, extnValue.
#[derive(Drop)]
pub struct ExtensionFields(Listed);

impl ExtensionFields {
    ghost use Rattle.pkix_values.specs.Extensions.{extension_id_of, extension_value_of, is_critical};

    /// What it is about.
    pub fn id(&self) -> &Oid
        ensures { result.now ≡ extension_id_of self.now }
    {
        &self.0.0.0
    }

    /// Whether one who doesn't know it has to refuse the certificate.
    pub fn critical(&self) -> bool
        ensures { result ≡ is_critical self.now }
    {
        self.0.1.0.0
    }

    /// What it says: the octets of a DER text of another type.
    pub fn value(&self) -> &Octets
        ensures { result.now ≡ extension_value_of self.now }
    {
        &self.0.1.1.0
    }
}

impl FieldsText for ExtensionFields {
    ghost values = { λ fields. ⟦<Listed as FieldsText>⟧.values fields.0 };

    ghost listing = { through (λ fields. fields.0) ⟦<Listed as FieldsText>⟧.listing };

    fn size(&self) -> u64 {
        self.0.size()
    }

    fn put<W: Target>(&self, sink: &mut Sink<'_, W>) -> Result<(), WriteError> {
        self.0.put(sink)
    }

    fn octet(&self, i: u64) -> Option<u8> {
        self.0.octet(i)
    }
}

impl FirstFields for ExtensionFields {
    fn read_first<R: Source>(
        alloc: Global,
        pull: &mut Pull<'_, R>,
        next: &mut Next,
    ) -> Result<ExtensionFields, ReadError> {
        match <Listed as FirstFields>::read_first(alloc, pull, next) {
            Ok(listed) => Ok(ExtensionFields(listed)),
            Err(error) => Err(error),
        }
    }

    fn judge_first(octets: &[u8], limits: Limits, left: u8) -> Option<&[u8]> {
        let rest = <Listed as FirstFields>::judge_first(octets, limits, left)?;
        Some(rest)
    }
}

impl SequenceFields for ExtensionFields {
    ghost type_term = { ExtensionType };

    ghost listed = { extension_is };

    ghost parted = { refl };

    ghost few = { ltb-true _ _ refl };
}

/// An extension of a certificate or a request; what it says is carried.
pub type Extension = Sequence<ExtensionFields>;
