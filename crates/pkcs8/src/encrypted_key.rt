//! EncryptedPrivateKeyInfo of RFC 5958 section 3.
ghost use Rattle.std.proofs.lemmas.Bool.{ltb-true};
ghost use Rattle.std.specs.Prelude.{◌≡◌, refl};
ghost use Rattle.pkix_definitions.specs.DocumentTypes.{EncryptedPrivateKeyInfo};
ghost use Rattle.asn_fields.specs.Listings.{through};
ghost use Rattle.pkix_definitions.proofs.Sequences.{encrypted_key_is};

use asn_elements::octets::Octets;
use asn_fields::fields::Next;
use asn_fields::sequence::{FieldsText, FirstFields, Required, Sequence, SequenceFields};
use ber_pull::pull::Pull;
use pkix_values::algorithm::AlgorithmIdentifier;
use std::alloc::Global;
use tlv_core::fault::ReadError;
use tlv_core::limits::Limits;
use tlv_core::sink::{Sink, WriteError};
use tlv_core::source::Source;
use tlv_core::target::Target;

/// encryptionAlgorithm, encryptedData.
type Listed = (Required<AlgorithmIdentifier>, Required<Octets>);

/// encryptionAlgorithm, encryptedData.
#[derive(Drop)]
pub struct EncryptedKeyFields(Listed);

impl EncryptedKeyFields {
    ghost use Rattle.pkcs8.specs.EncryptedKeys.{encrypted_data_of, encryption_algorithm_of};

    /// What it is encrypted by.
    pub fn algorithm(&self) -> &AlgorithmIdentifier
        ensures { result.now ≡ encryption_algorithm_of self.now }
    {
        &self.0.0.0
    }

    /// The encrypted octets.
    pub fn octets(&self) -> &Octets
        ensures { result.now ≡ encrypted_data_of self.now }
    {
        &self.0.1.0
    }
}

impl FieldsText for EncryptedKeyFields {
    ghost values = { λ fields. ⟦<Listed as FieldsText>⟧.values fields.0 };

    ghost listing = { through (λ fields. fields.0) ⟦<Listed as FieldsText>⟧.listing };

    fn size(&self) -> u64 {
        self.0.size()
    }

    fn put<W: Target>(&self, sink: &mut Sink<'_, W>) -> Result<(), WriteError> {
        self.0.put(sink)
    }

    fn octet(&self, i: u64) -> Option<u8> {
        self.0.octet(i)
    }
}

impl FirstFields for EncryptedKeyFields {
    fn read_first<R: Source>(
        alloc: Global,
        pull: &mut Pull<'_, R>,
        next: &mut Next,
    ) -> Result<EncryptedKeyFields, ReadError> {
        match <Listed as FirstFields>::read_first(alloc, pull, next) {
            Ok(listed) => Ok(EncryptedKeyFields(listed)),
            Err(error) => Err(error),
        }
    }

    fn judge_first(octets: &[u8], limits: Limits, left: u8) -> Option<&[u8]> {
        let rest = <Listed as FirstFields>::judge_first(octets, limits, left)?;
        Some(rest)
    }
}

impl SequenceFields for EncryptedKeyFields {
    ghost type_term = { EncryptedPrivateKeyInfo };

    ghost listed = { encrypted_key_is };

    ghost parted = { refl };

    ghost few = { ltb-true _ _ refl };
}

/// An encrypted private key. Its octets are carried.
pub type EncryptedKey = Sequence<EncryptedKeyFields>;
