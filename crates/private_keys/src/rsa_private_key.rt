//! RSAPrivateKey of RFC 8017 A.1.2.
ghost use Rattle.std.proofs.lemmas.Bool.{ltb-true};
ghost use Rattle.std.specs.Prelude.{◌≡◌, IfSome, length, refl, slice_get, true};
ghost use Rattle.std.specs.Option.{option_map};
ghost use Rattle.pkix_definitions.specs.Rules.{rsa_version_rule};
ghost use Rattle.pkix_definitions.proofs.Fairs.{fair_rsa_version};
ghost use Rattle.pkix_definitions.proofs.LawfulTypes.{honest_rsa_version};
ghost use Rattle.x690.specs.Contents.{IsInteger};
ghost use Rattle.x690.specs.Layouts.{universal};
ghost use Rattle.x690.specs.TypeTerms.{EndOfFields, SequenceType};
ghost use Rattle.asn_fields.specs.Listings.{through};
ghost use Rattle.private_keys.specs.RsaInDer.{HasFields};

use crate::other_primes::{OtherPrimes, VersionAndNumbers};
use asn_elements::in_der::element_in_der;
use asn_elements::tags::universal_tag;
use asn_fields::fields::Next;
use asn_fields::optional_dependent::OptionalDependent;
use asn_fields::ruled_sequence::{RuledFields, RuledSequence};
use asn_fields::sequence::{FieldsText, FirstFields, SequenceFields};
use ber_pull::pull::Pull;
use pkix_values::version::names_version_0;
use std::alloc::Global;
use tlv_core::fault::ReadError;
use tlv_core::limits::Limits;
use tlv_core::reason::Reason;
use tlv_core::sink::{Sink, WriteError};
use tlv_core::source::Source;
use tlv_core::target::Target;

/// version, the numbers of two primes, otherPrimeInfos.
type Listed = OptionalDependent<VersionAndNumbers, OtherPrimes>;

/// version, the numbers of two primes, otherPrimeInfos.
#[derive(Drop)]
pub struct RsaFields(Listed);

impl RsaFields {
    ghost use Rattle.private_keys.specs.RsaParts.{other_primes_of, rsa_numbers_of, rsa_version_of};

    /// The version: 1 where there are more than two primes, else 0.
    pub fn version(&self) -> u8
        ensures { result ≡ rsa_version_of self.now }
    {
        self.0.earlier().0.0.number()
    }

    /// The contents of modulus, publicExponent, privateExponent, prime1, prime2, exponent1, exponent2 and coefficient,
    /// counted from 0.
    pub fn number(&self, i: usize) -> Option<&[u8]>
        ensures value { option_map (λ r. r.now) result ≡ slice_get (rsa_numbers_of self.now) i }
        ensures is { IfSome result (λ r. IsInteger r.now) }
    {
        self.0.earlier().1.get(i)
    }

    /// The number of primes after the first two.
    pub fn others(&self) -> usize
        ensures { result ≡ length (other_primes_of self.now) }
    {
        match self.0.field() {
            Some(others) => others.count(),
            None => 0,
        }
    }

    fn other_primes(&self) -> &Option<OtherPrimes>
        ensures { result.now ≡ self.now.0.field }
    {
        self.0.field()
    }
}

impl FieldsText for RsaFields {
    ghost values = { λ fields. ⟦<Listed as FieldsText>⟧.values fields.0 };

    ghost listing = { through (λ fields. fields.0) ⟦<Listed as FieldsText>⟧.listing };

    fn size(&self) -> u64 {
        self.0.size()
    }

    fn put<W: Target>(&self, sink: &mut Sink<'_, W>) -> Result<(), WriteError> {
        self.0.put(sink)
    }

    fn octet(&self, i: u64) -> Option<u8> {
        self.0.octet(i)
    }
}

impl FirstFields for RsaFields {
    fn read_first<R: Source>(
        alloc: Global,
        pull: &mut Pull<'_, R>,
        next: &mut Next,
    ) -> Result<RsaFields, ReadError> {
        match <Listed as FirstFields>::read_first(alloc, pull, next) {
            Ok(listed) => Ok(RsaFields(listed)),
            Err(error) => Err(error),
        }
    }

    fn judge_first(octets: &[u8], limits: Limits, left: u8) -> Option<&[u8]> {
        let rest = <Listed as FirstFields>::judge_first(octets, limits, left)?;
        Some(rest)
    }
}

impl SequenceFields for RsaFields {
    ghost type_term = { SequenceType (universal 16) (⟦<Listed as FieldsText>⟧.listing.types EndOfFields) };

    ghost listed = { refl };

    ghost parted = { refl };

    ghost few = { ltb-true _ _ refl };
}

/// Under version 1 there are more than two primes.
impl RuledFields for RsaFields {
    ghost rule = { rsa_version_rule };

    ghost fair = { fair_rsa_version };

    ghost honest = { honest_rsa_version };

    ghost alone = { λ earlier. refl };

    #[tactic(auto, unfolding(x690::specs::Values::leaf_at))]
    fn judge(&self) -> Option<Reason> {
        if self.version() == 0 {
            return None;
        }
        match self.other_primes() {
            Some(_) => None,
            None => Some(Reason::VersionRule),
        }
    }

    fn pass_in_der(octets: &[u8]) -> bool {
        let Some((version, behind)) = element_in_der(octets, universal_tag(2), false) else {
            return false;
        };
        if names_version_0(version) {
            return true;
        }
        are_numbers_and_primes(behind)
    }
}

/// Whether octets are, in DER, eight INTEGERs and a SEQUENCE after them, as the fields of a key of more than two primes
/// are after its version.
fn are_numbers_and_primes(octets: &[u8]) -> bool
    ensures { result ≡ true → HasFields 9 octets.now }
{
    let mut rest = octets;
    for _ in 0..8u8 {
        let Some((_number, behind)) = element_in_der(rest, universal_tag(2), false) else {
            return false;
        };
        rest = behind;
    }
    match element_in_der(rest, universal_tag(16), true) {
        Some((_primes, behind)) => behind.is_empty(),
        None => false,
    }
}

/// An RSA private key, of two primes (version 0) or of more (version 1). Whether the numbers belong together isn't
/// looked at.
pub type RsaPrivateKey = RuledSequence<RsaFields>;
