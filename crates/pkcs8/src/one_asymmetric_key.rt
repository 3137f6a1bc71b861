//! OneAsymmetricKey of RFC 5958 section 2, PrivateKeyInfo of RFC 5208.
ghost use Rattle.std.proofs.lemmas.Bool.{ltb-true};
ghost use Rattle.std.specs.Option.{is_some, option_map};
ghost use Rattle.std.specs.Prelude.{◌≡◌, ◌==◌, ◌∷◌, [], refl};
ghost use Rattle.pkix_definitions.proofs.ClosedTypes.{asymmetric_key_closed};
ghost use Rattle.pkix_definitions.proofs.Fairs.{fair_key_version};
ghost use Rattle.pkix_definitions.proofs.LawfulTypes.{honest_key_version};
ghost use Rattle.pkix_definitions.specs.DocumentTypes.{OneAsymmetricKey as OneAsymmetricKeyType};
ghost use Rattle.pkix_definitions.specs.Rules.{key_version_rule};
ghost use Rattle.pkcs8.specs.HeadInDer.{behind_head};
ghost use Rattle.pkcs8.specs.Seen.{GoesWith, key_seen};
ghost use Rattle.pkix_values.specs.Algorithms.{algorithm_of};
ghost use Rattle.asn_fields.specs.Listings.{through};
ghost use Rattle.x690.specs.Layouts.{universal};
ghost use Rattle.x690.specs.TypeTerms.{EndOfFields, SequenceType};

use crate::head_in_der::{has_public_key, version_in_der};
use crate::key_head::{KeyHead, NamesKey, is_version_0};
use crate::private_key::{ContainedKey, PrivateKey};
use crate::public_key::{PublicKey, key_bits};
use asn_elements::bits::Bits;
use asn_elements::der_text::DerText;
use asn_elements::element::Element;
use asn_elements::implicit::Implicit;
use asn_fields::dependent::Dependent;
use asn_fields::fields::Next;
use asn_fields::optional_dependent::OptionalDependent;
use asn_fields::ruled_sequence::{RuledFields, RuledSequence};
use asn_fields::sequence::{FieldsText, FirstFields, Optional, SequenceFields};
use asn_lists::set_of::SetOf;
use ber_pull::pull::Pull;
use pkix_values::algorithm::AlgorithmIdentifier;
use pkix_values::attribute::Attribute;
use pkix_values::version::names_version_0;
use std::alloc::Global;
use tlv_core::fault::ReadError;
use tlv_core::limits::Limits;
use tlv_core::reason::Reason;
use tlv_core::sink::{Sink, WriteError};
use tlv_core::source::Source;
use tlv_core::tag::Tag;
use tlv_core::target::Target;

/// The head, and privateKey after it; attributes, under the implicit tag [0].
type BodyListed = (
    Dependent<KeyHead, ContainedKey>,
    Optional<Implicit<0, SetOf<Attribute>>>,
);

/// version, privateKeyAlgorithm, privateKey, attributes.
#[derive(Drop)]
pub struct KeyBody(BodyListed);

impl NamesKey for KeyBody {
    ghost behind = { behind_head };

    ghost headed = { refl };

    #[tactic(auto, unfolding(x690::specs::Values::leaf_at))]
    fn head(&self) -> &KeyHead {
        self.0.0.earlier()
    }
}

impl FieldsText for KeyBody {
    ghost values = { λ fields. ⟦<BodyListed as FieldsText>⟧.values fields.0 };

    ghost listing = { through (λ fields. fields.0) ⟦<BodyListed as FieldsText>⟧.listing };

    fn size(&self) -> u64 {
        self.0.size()
    }

    fn put<W: Target>(&self, sink: &mut Sink<'_, W>) -> Result<(), WriteError> {
        self.0.put(sink)
    }

    fn octet(&self, i: u64) -> Option<u8> {
        self.0.octet(i)
    }
}

impl FirstFields for KeyBody {
    fn read_first<R: Source>(
        alloc: Global,
        pull: &mut Pull<'_, R>,
        next: &mut Next,
    ) -> Result<KeyBody, ReadError> {
        let listed = match <BodyListed as FirstFields>::read_first(alloc, pull, next) {
            Ok(listed) => listed,
            Err(error) => return Err(error),
        };
        Ok(KeyBody(listed))
    }

    fn judge_first(octets: &[u8], limits: Limits, left: u8) -> Option<&[u8]> {
        let rest = <BodyListed as FirstFields>::judge_first(octets, limits, left)?;
        Some(rest)
    }
}

/// The body, and publicKey after it, which is there under version 1 alone.
type Listed = OptionalDependent<KeyBody, PublicKey>;

/// version, privateKeyAlgorithm, privateKey, attributes, publicKey.
#[derive(Drop)]
pub struct KeyFields(Listed);

impl KeyFields {
    fn body(&self) -> &KeyBody
        ensures { result.now ≡ self.now.0.earlier }
    {
        self.0.earlier()
    }

    fn public_key(&self) -> &Option<PublicKey>
        ensures { result.now ≡ self.now.0.field }
    {
        self.0.field()
    }
}

impl FieldsText for KeyFields {
    ghost values = { λ fields. ⟦<Listed as FieldsText>⟧.values fields.0 };

    ghost listing = { through (λ fields. fields.0) ⟦<Listed as FieldsText>⟧.listing };

    fn size(&self) -> u64 {
        self.0.size()
    }

    fn put<W: Target>(&self, sink: &mut Sink<'_, W>) -> Result<(), WriteError> {
        self.0.put(sink)
    }

    fn octet(&self, i: u64) -> Option<u8> {
        self.0.octet(i)
    }
}

impl FirstFields for KeyFields {
    fn read_first<R: Source>(
        alloc: Global,
        pull: &mut Pull<'_, R>,
        next: &mut Next,
    ) -> Result<KeyFields, ReadError> {
        let listed = match <Listed as FirstFields>::read_first(alloc, pull, next) {
            Ok(listed) => listed,
            Err(error) => return Err(error),
        };
        Ok(KeyFields(listed))
    }

    fn judge_first(octets: &[u8], limits: Limits, left: u8) -> Option<&[u8]> {
        let rest = <Listed as FirstFields>::judge_first(octets, limits, left)?;
        Some(rest)
    }
}

impl SequenceFields for KeyFields {
    ghost type_term = { SequenceType (universal 16) (⟦<Listed as FieldsText>⟧.listing.types EndOfFields) };

    ghost listed = { refl };

    ghost parted = { refl };

    ghost few = { ltb-true _ _ refl };
}

/// A key without a public key is of version 0.
impl RuledFields for KeyFields {
    ghost rule = { key_version_rule };

    ghost fair = { fair_key_version };

    ghost honest = { honest_key_version };

    ghost alone = { λ earlier. refl };

    fn judge(&self) -> Option<Reason> {
        if is_version_0(self.body().0.0.earlier().version()) {
            return None;
        }
        match self.public_key() {
            Some(_) => None,
            None => Some(Reason::VersionRule),
        }
    }

    fn pass_in_der(octets: &[u8]) -> bool {
        let Some((version, behind)) = version_in_der(octets) else {
            return false;
        };
        if names_version_0(version) {
            return true;
        }
        has_public_key(behind)
    }
}

/// A private key, the algorithm that it is for, and what is said of it.
#[derive(Drop)]
pub struct OneAsymmetricKey(RuledSequence<KeyFields>);

impl OneAsymmetricKey {
    ghost use Rattle.pkcs8.specs.AsymmetricKeys.{key_algorithm_of, key_attributes_of, key_version_of, private_key_of};
    ghost use Rattle.pkcs8.specs.AsymmetricKeys.{public_key_of};

    fn body(&self) -> &KeyBody
        ensures { result.now ≡ self.now.0.value.fields.0.earlier }
    {
        self.0.value().body()
    }

    /// The version, 0 or 1.
    pub fn version(&self) -> u8
        ensures { result ≡ key_version_of self.now }
    {
        self.body().0.0.earlier().version()
    }

    /// What the key is for.
    pub fn algorithm(&self) -> &AlgorithmIdentifier
        ensures { result.now ≡ key_algorithm_of self.now }
    {
        self.body().0.0.earlier().algorithm_identifier()
    }

    /// The private key: which of the four it is goes by the algorithm.
    pub fn private_key(&self) -> PrivateKey<'_>
        ensures value { key_seen result ≡ private_key_of self.now }
        ensures goes_with { GoesWith (algorithm_of (key_algorithm_of self.now)) (key_seen result) }
    {
        PrivateKey::in_field(self.body().0.0.field())
    }

    /// What is said of the key, in the order of the texts. Attributes that are absent aren't the same as none of them.
    pub fn attributes(&self) -> Option<&SetOf<Attribute>>
        ensures { option_map (λ r. r.now) result ≡ key_attributes_of self.now }
    {
        match &self.body().0.1.0 {
            Some(attributes) => Some(attributes.value()),
            None => None,
        }
    }

    /// The public key, which stands under version 1, and under version 1 alone (RFC 5958 section 2).
    pub fn public_key(&self) -> Option<&Bits>
        ensures value { option_map (λ r. r.now) result ≡ public_key_of self.now }
        ensures stands { is_some result ≡ (key_version_of self.now == 1) }
    {
        match self.0.value().public_key() {
            Some(key) => key_bits(key),
            None => None,
        }
    }
}

impl DerText for OneAsymmetricKey {
    ghost value = { λ x. ⟦<RuledSequence<KeyFields> as DerText>⟧.value x.0 };

    ghost one_text = { λ x y. ⟦<RuledSequence<KeyFields> as DerText>⟧.one_text x.0 y.0 };

    fn size(&self) -> u64 {
        self.0.size()
    }

    fn put<W: Target>(&self, sink: &mut Sink<'_, W>) -> Result<(), WriteError> {
        self.0.put(sink)
    }

    fn octet(&self, i: u64) -> Option<u8> {
        self.0.octet(i)
    }
}

#[tactic(auto, unfolding(pkix_definitions::specs::DocumentTypes::OneAsymmetricKey, pkix_definitions::specs::DocumentTypes::RSAPrivateKey))]
impl Element for OneAsymmetricKey {
    ghost type_term = { OneAsymmetricKeyType };

    ghost closed = { asymmetric_key_closed };

    fn fits(tag: Tag) -> bool {
        RuledSequence::<KeyFields>::fits(tag)
    }

    fn read<R: Source>(
        alloc: Global,
        pull: &mut Pull<'_, R>,
    ) -> Result<OneAsymmetricKey, ReadError> {
        let key = match RuledSequence::<KeyFields>::read(alloc, pull) {
            Ok(key) => key,
            Err(error) => return Err(error),
        };
        Ok(OneAsymmetricKey(key))
    }

    fn judge(octets: &[u8], limits: Limits, left: u8) -> Option<&[u8]> {
        let rest = RuledSequence::<KeyFields>::judge(octets, limits, left)?;
        Some(rest)
    }
}
