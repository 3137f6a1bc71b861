//! SubjectPublicKeyInfo of RFC 5280 section 4.1.2.7.
ghost use Rattle.std.proofs.lemmas.Bool.{ltb-true};
ghost use Rattle.std.specs.Prelude.{◌≡◌, ◌∷◌, [], refl, true};
ghost use Rattle.pkix_definitions.specs.DocumentTypes.{SubjectPublicKeyInfo as SubjectPublicKeyInfoType};
ghost use Rattle.pkix_definitions.specs.Rules.{key_bits_rule};
ghost use Rattle.pkix_definitions.proofs.Fairs.{fair_key_bits};
ghost use Rattle.asn_elements.specs.Leaves.{bit_string_of};
ghost use Rattle.pkix_values.specs.Forms.{honest_key_bits};
ghost use Rattle.pkix_values.specs.Values.{key_fits};
ghost use Rattle.asn_fields.specs.Listings.{through};
ghost use Rattle.pkix_definitions.proofs.Sequences.{public_key_info_is};

use crate::algorithm::{AlgorithmIdentifier, NamesAlgorithm};
use crate::identifiers::public_key_length;
use asn_elements::bits::Bits;
use asn_elements::in_der::element_in_der;
use asn_elements::tags::universal_tag;
use asn_fields::dependent::Dependent;
use asn_fields::fields::Next;
use asn_fields::ruled_behind::{FieldRules, RuledBehind};
use asn_fields::sequence::{FieldsText, FirstFields, Required, Sequence, SequenceFields};
use ber_pull::pull::Pull;
use pkix_definitions::identifiers::rfc8410_length;
use std::alloc::Global;
use tlv_core::fault::ReadError;
use tlv_core::limits::Limits;
use tlv_core::oid::Oid;
use tlv_core::reason::Reason;
use tlv_core::sink::{Sink, WriteError};
use tlv_core::source::Source;
use tlv_core::target::Target;

/// Under the algorithms of RFC 8410 a key has the length that goes with the algorithm, and no unused bits.
#[derive(Drop)]
pub struct KeyLength;

impl<T: NamesAlgorithm> FieldRules<Required<T>, Bits> for KeyLength {
    ghost rule = { key_bits_rule (0 ∷ 0 ∷ []) };

    ghost fair = { fair_key_bits (0 ∷ 0 ∷ []) };

    ghost honest = { honest_key_bits };

    fn judge(earlier: &Required<T>, field: &Bits) -> Option<Reason> {
        if is_key_of(earlier.0.algorithm(), field) {
            None
        } else {
            Some(Reason::KeyLength)
        }
    }

    fn passes_in_der(earlier: &[u8], octets: &[u8]) -> bool {
        let Some(algorithm) = T::algorithm_in_der(earlier) else {
            return false;
        };
        match element_in_der(octets, universal_tag(3), false) {
            Some((key, _)) => has_length_of(algorithm, key),
            None => false,
        }
    }
}

/// Whether the contents of a BIT STRING are a key as RFC 8410 has it, where the algorithm is one of its four.
pub fn has_length_of(algorithm: &[u8], key: &[u8]) -> bool
    ensures { result ≡ true → key_fits algorithm.now key.now ≡ true }
{
    let Some(length) = rfc8410_length(algorithm) else {
        return true;
    };
    let [unused, octets @ ..] = key else {
        return false;
    };
    if *unused != 0 {
        return false;
    }
    octets.len() == length
}

/// Whether the key is as RFC 8410 has it, where the algorithm is one of its four: of the length that goes with it,
/// without unused bits.
pub fn is_key_of(algorithm: &Oid, key: &Bits) -> bool
    ensures { result ≡ key_fits algorithm.now (bit_string_of key.now) }
{
    match public_key_length(algorithm) {
        Some(length) => key.octets().len() == length && key.unused() == 0,
        None => true,
    }
}

/// algorithm, subjectPublicKey.
type Listed = Dependent<Required<AlgorithmIdentifier>, RuledBehind<Bits, KeyLength>>;

/// algorithm, subjectPublicKey.
#[derive(Drop)]
pub struct PublicKeyFields(Listed);

impl PublicKeyFields {
    ghost use Rattle.pkix_values.specs.Algorithms.{algorithm_of};
    ghost use Rattle.pkix_values.specs.PublicKeys.{public_key_algorithm_of, subject_public_key_of};

    /// What the key is for.
    pub fn algorithm(&self) -> &AlgorithmIdentifier
        ensures { result.now ≡ public_key_algorithm_of self.now }
    {
        &self.0.earlier().0
    }

    /// The key. Under the algorithms of RFC 8410 it has the length that goes with the algorithm, and no unused bits.
    pub fn key(&self) -> &Bits
        ensures value { result.now ≡ subject_public_key_of self.now }
        ensures fits { key_fits (algorithm_of (public_key_algorithm_of self.now))
            (bit_string_of result.now) ≡ true }
    {
        self.0.field().value()
    }
}

impl FieldsText for PublicKeyFields {
    ghost values = { λ fields. ⟦<Listed as FieldsText>⟧.values fields.0 };

    ghost listing = { through (λ fields. fields.0) ⟦<Listed as FieldsText>⟧.listing };

    fn size(&self) -> u64 {
        self.0.size()
    }

    fn put<W: Target>(&self, sink: &mut Sink<'_, W>) -> Result<(), WriteError> {
        self.0.put(sink)
    }

    fn octet(&self, i: u64) -> Option<u8> {
        self.0.octet(i)
    }
}

impl FirstFields for PublicKeyFields {
    fn read_first<R: Source>(
        alloc: Global,
        pull: &mut Pull<'_, R>,
        next: &mut Next,
    ) -> Result<PublicKeyFields, ReadError> {
        match <Listed as FirstFields>::read_first(alloc, pull, next) {
            Ok(listed) => Ok(PublicKeyFields(listed)),
            Err(error) => Err(error),
        }
    }

    fn judge_first(octets: &[u8], limits: Limits, left: u8) -> Option<&[u8]> {
        let rest = <Listed as FirstFields>::judge_first(octets, limits, left)?;
        Some(rest)
    }
}

impl SequenceFields for PublicKeyFields {
    ghost type_term = { SubjectPublicKeyInfoType };

    ghost listed = { public_key_info_is };

    ghost parted = { refl };

    ghost few = { ltb-true _ _ refl };
}

/// A public key, and the algorithm that it is for.
pub type SubjectPublicKeyInfo = Sequence<PublicKeyFields>;
