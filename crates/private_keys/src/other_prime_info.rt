//! OtherPrimeInfo of RFC 8017 A.1.2.
ghost use Rattle.std.proofs.lemmas.Bool.{ltb-true};
ghost use Rattle.std.specs.Prelude.{◌≡◌, ◌∷◌, [], refl};
ghost use Rattle.pkix_definitions.specs.DocumentTypes.{OtherPrimeInfo as OtherPrimeInfoType};
ghost use Rattle.x690.specs.Values.{leaf_at};
ghost use Rattle.asn_elements.specs.Leaves.{integer_of};
ghost use Rattle.asn_fields.specs.Listings.{through};
ghost use Rattle.pkix_definitions.proofs.Sequences.{other_prime_is};

use asn_elements::integer::Int;
use asn_fields::fields::Next;
use asn_fields::sequence::{FieldsText, FirstFields, Required, Sequence, SequenceFields};
use ber_pull::pull::Pull;
use std::alloc::Global;
use tlv_core::fault::ReadError;
use tlv_core::limits::Limits;
use tlv_core::sink::{Sink, WriteError};
use tlv_core::source::Source;
use tlv_core::target::Target;

/// prime, exponent, coefficient.
type Listed = (Required<Int>, (Required<Int>, Required<Int>));

/// prime, exponent, coefficient.
#[derive(Drop)]
pub struct OtherPrimeFields(Listed);

impl OtherPrimeFields {
    ghost use Rattle.private_keys.specs.OtherPrimes.{coefficient_of, exponent_of, prime_of};

    /// The prime.
    #[tactic(auto, unfolding(x690::specs::Values::leaf_at))]
    pub fn prime(&self) -> &Int
        ensures value { result.now ≡ prime_of self.now }
        ensures stands { leaf_at (0 ∷ []) (⟦<OtherPrimeFields as FieldsText>⟧.values self.now)
            ≡ integer_of result.now }
    {
        &self.0.0.0
    }

    /// Its exponent.
    #[tactic(auto, unfolding(x690::specs::Values::leaf_at))]
    pub fn exponent(&self) -> &Int
        ensures value { result.now ≡ exponent_of self.now }
        ensures stands { leaf_at (1 ∷ []) (⟦<OtherPrimeFields as FieldsText>⟧.values self.now)
            ≡ integer_of result.now }
    {
        &self.0.1.0.0
    }

    /// Its coefficient.
    #[tactic(auto, unfolding(x690::specs::Values::leaf_at))]
    pub fn coefficient(&self) -> &Int
        ensures value { result.now ≡ coefficient_of self.now }
        ensures stands { leaf_at (2 ∷ []) (⟦<OtherPrimeFields as FieldsText>⟧.values self.now)
            ≡ integer_of result.now }
    {
        &self.0.1.1.0
    }
}

impl FieldsText for OtherPrimeFields {
    ghost values = { λ fields. ⟦<Listed as FieldsText>⟧.values fields.0 };

    ghost listing = { through (λ fields. fields.0) ⟦<Listed as FieldsText>⟧.listing };

    fn size(&self) -> u64 {
        self.0.size()
    }

    fn put<W: Target>(&self, sink: &mut Sink<'_, W>) -> Result<(), WriteError> {
        self.0.put(sink)
    }

    fn octet(&self, i: u64) -> Option<u8> {
        self.0.octet(i)
    }
}

impl FirstFields for OtherPrimeFields {
    fn read_first<R: Source>(
        alloc: Global,
        pull: &mut Pull<'_, R>,
        next: &mut Next,
    ) -> Result<OtherPrimeFields, ReadError> {
        match <Listed as FirstFields>::read_first(alloc, pull, next) {
            Ok(listed) => Ok(OtherPrimeFields(listed)),
            Err(error) => Err(error),
        }
    }

    fn judge_first(octets: &[u8], limits: Limits, left: u8) -> Option<&[u8]> {
        let rest = <Listed as FirstFields>::judge_first(octets, limits, left)?;
        Some(rest)
    }
}

impl SequenceFields for OtherPrimeFields {
    ghost type_term = { OtherPrimeInfoType };

    ghost listed = { other_prime_is };

    ghost parted = { refl };

    ghost few = { ltb-true _ _ refl };
}

/// A prime of an RSA key after the first two, with its exponent and coefficient. Whether they are what they should be
/// isn't looked at.
pub type OtherPrimeInfo = Sequence<OtherPrimeFields>;
