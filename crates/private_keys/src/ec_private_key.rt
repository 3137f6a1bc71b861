//! ECPrivateKey of RFC 5915 section 3.
ghost use Rattle.std.proofs.lemmas.Bool.{ltb-true};
ghost use Rattle.std.specs.Prelude.{◌≡◌, [], IfSome, List, length, refl, true, ℕ};
ghost use Rattle.std.specs.Option.{option_map};
ghost use Rattle.pkix_definitions.specs.DocumentTypes.{ECPrivateKey};
ghost use Rattle.pkix_definitions.specs.Rules.{ec_rule, has_length};
ghost use Rattle.pkix_definitions.proofs.Fairs.{fair_ec};
ghost use Rattle.pkix_definitions.proofs.ClosedTypes.{ec_key_closed};
ghost use Rattle.x690.specs.Layouts.{universal};
ghost use Rattle.x690.specs.TypeTerms.{EndOfFields, SequenceType};
ghost use Rattle.x690.specs.Values.{Sequence as SequenceValue, Value, values_of};
ghost use Rattle.asn_elements.specs.Leaves.{octets_of};
ghost use Rattle.asn_fields.specs.FieldsInDer.{AreFields};
ghost use Rattle.asn_fields.specs.Listings.{through};
ghost use Rattle.pkix_definitions.specs.Identifiers.{curve_lengths, entry_under};
ghost use Rattle.private_keys.specs.EcInDer.{HasParts, NamesCurve, ec_types};
ghost use Rattle.private_keys.specs.EcKeys.{honest_ec, named_length};

use crate::curves::private_key_length;
use asn_elements::bits::Bits;
use asn_elements::der_text::DerText;
use asn_elements::element::Element;
use asn_elements::in_der::element_in_der;
use asn_elements::octets::Octets;
use asn_elements::tags::{context_tag, universal_tag};
use asn_fields::fields::Next;
use asn_fields::ruled_sequence::{RuledFields, RuledSequence};
use asn_fields::sequence::{FieldsText, FirstFields, Optional, Required, SequenceFields};
use asn_fields::tagged::Tagged;
use ber_pull::pull::Pull;
use pkix_definitions::identifiers::curve_length;
use pkix_values::version::Version;
use std::alloc::Global;
use tlv_core::fault::ReadError;
use tlv_core::limits::Limits;
use tlv_core::oid::Oid;
use tlv_core::reason::Reason;
use tlv_core::sink::{Sink, WriteError};
use tlv_core::source::Source;
use tlv_core::tag::Tag;
use tlv_core::target::Target;

/// version, privateKey, parameters [0], publicKey [1].
type Listed = (
    (Required<Version<1, 1>>, Required<Octets>),
    (Optional<Tagged<0, Oid>>, Optional<Tagged<1, Bits>>),
);

/// version, privateKey, parameters [0], publicKey [1].
#[derive(Drop)]
pub struct EcFields(Listed);

impl EcFields {
    fn key(&self) -> &Octets
        ensures { result.now ≡ self.now.0.0.1.0 }
    {
        &self.0.0.1.0
    }

    fn curve(&self) -> &Option<Tagged<0, Oid>>
        ensures { result.now ≡ self.now.0.1.0.0 }
    {
        &self.0.1.0.0
    }

    fn public_key(&self) -> &Option<Tagged<1, Bits>>
        ensures { result.now ≡ self.now.0.1.1.0 }
    {
        &self.0.1.1.0
    }
}

impl FieldsText for EcFields {
    ghost values = { λ fields. ⟦<Listed as FieldsText>⟧.values fields.0 };

    ghost listing = { through (λ fields. fields.0) ⟦<Listed as FieldsText>⟧.listing };

    fn size(&self) -> u64 {
        self.0.size()
    }

    fn put<W: Target>(&self, sink: &mut Sink<'_, W>) -> Result<(), WriteError> {
        self.0.put(sink)
    }

    fn octet(&self, i: u64) -> Option<u8> {
        self.0.octet(i)
    }
}

impl FirstFields for EcFields {
    fn read_first<R: Source>(
        alloc: Global,
        pull: &mut Pull<'_, R>,
        next: &mut Next,
    ) -> Result<EcFields, ReadError> {
        match <Listed as FirstFields>::read_first(alloc, pull, next) {
            Ok(listed) => Ok(EcFields(listed)),
            Err(error) => Err(error),
        }
    }

    fn judge_first(octets: &[u8], limits: Limits, left: u8) -> Option<&[u8]> {
        let rest = <Listed as FirstFields>::judge_first(octets, limits, left)?;
        Some(rest)
    }
}

impl SequenceFields for EcFields {
    ghost type_term = { SequenceType (universal 16) (⟦<Listed as FieldsText>⟧.listing.types EndOfFields) };

    ghost listed = { refl };

    ghost parted = { refl };

    ghost few = { ltb-true _ _ refl };
}

/// A key on a curve that it names has that curve's length.
impl RuledFields for EcFields {
    ghost rule = { ec_rule };

    ghost fair = { fair_ec };

    ghost honest = { honest_ec };

    ghost alone = { λ earlier. refl };

    fn judge(&self) -> Option<Reason> {
        if has_length_of(self.curve(), self.key()) {
            None
        } else {
            Some(Reason::KeyLength)
        }
    }

    fn pass_in_der(octets: &[u8]) -> bool {
        match parts_in_der(octets) {
            Some((key, curve)) => is_long_enough(curve, key),
            None => false,
        }
    }
}

/// Whether a key has as many octets as go with the curve, where it has a length of its own.
pub fn is_long_enough(curve: &[u8], key: &[u8]) -> bool
    ensures { result ≡ has_length (entry_under curve_lengths curve.now) (length key.now) }
{
    match curve_length(curve) {
        Some(length) => key.len() == length,
        None => true,
    }
}

/// The key, and the curve that is named, of the fields of an ECPrivateKey whose texts in DER these octets are; no
/// octets where none is named.
pub fn parts_in_der(octets: &[u8]) -> Option<(&[u8], &[u8])>
    ensures { IfSome result (λ parts. (limit : ℕ) (values : List Value)
        → AreFields limit ec_types values octets.now []
        → HasParts (SequenceValue (universal 16) (values_of values)) parts.0.now parts.1.now) }
{
    let (_version, behind) = element_in_der(octets, universal_tag(2), false)?;
    let (key, others) = element_in_der(behind, universal_tag(4), false)?;
    let curve = curve_in_der(others)?;
    Some((key, curve))
}

/// The curve that parameters [0] name, where octets begin with them; else no octets.
fn curve_in_der(octets: &[u8]) -> Option<&[u8]>
    ensures { IfSome result (λ curve. NamesCurve octets.now curve.now) }
{
    let [first, ..] = octets else {
        return Some(octets);
    };
    if *first != 0xA0 {
        return Some(&octets[..0]);
    }
    let (contents, _) = element_in_der(octets, context_tag(0), true)?;
    let (curve, _) = element_in_der(contents, universal_tag(6), false)?;
    Some(curve)
}

/// Whether the key has the length that goes with the curve, where it names one that has a length of its own.
fn has_length_of(curve: &Option<Tagged<0, Oid>>, key: &Octets) -> bool
    ensures { result ≡ has_length (named_length (option_map (λ c. c.inner) curve.now))
        (length (octets_of key.now)) }
{
    let Some(named) = curve else {
        return true;
    };
    match private_key_length(named.value()) {
        Some(length) => key.octets().len() == length,
        None => true,
    }
}

/// An EC private key. It may name its curve, and may have its public key beside it; whether that is its own isn't
/// looked at.
#[derive(Drop)]
pub struct EcPrivateKey(RuledSequence<EcFields>);

impl EcPrivateKey {
    ghost use Rattle.private_keys.specs.EcParts.{ec_curve_of, ec_key_of, ec_public_key_of};

    /// The private key. On secp224r1, secp256r1, secp256k1, secp384r1 and secp521r1 it has as many octets as the order
    /// of the base point.
    pub fn key(&self) -> &Octets
        ensures value { result.now ≡ ec_key_of self.now }
        ensures fits { has_length (named_length (ec_curve_of self.now))
            (length (octets_of result.now)) ≡ true }
    {
        self.0.value().key()
    }

    /// The curve that it names.
    pub fn curve(&self) -> Option<&Oid>
        ensures { option_map (λ r. r.now) result ≡ ec_curve_of self.now }
    {
        match self.0.value().curve() {
            Some(curve) => Some(curve.value()),
            None => None,
        }
    }

    /// The public key.
    pub fn public_key(&self) -> Option<&Bits>
        ensures { option_map (λ r. r.now) result ≡ ec_public_key_of self.now }
    {
        match self.0.value().public_key() {
            Some(key) => Some(key.value()),
            None => None,
        }
    }
}

impl DerText for EcPrivateKey {
    ghost value = { λ x. ⟦<RuledSequence<EcFields> as DerText>⟧.value x.0 };

    ghost one_text = { λ x y. ⟦<RuledSequence<EcFields> as DerText>⟧.one_text x.0 y.0 };

    fn size(&self) -> u64 {
        self.0.size()
    }

    fn put<W: Target>(&self, sink: &mut Sink<'_, W>) -> Result<(), WriteError> {
        self.0.put(sink)
    }

    fn octet(&self, i: u64) -> Option<u8> {
        self.0.octet(i)
    }
}

#[tactic(auto, unfolding(pkix_definitions::specs::DocumentTypes::ECPrivateKey))]
impl Element for EcPrivateKey {
    ghost type_term = { ECPrivateKey };

    ghost closed = { ec_key_closed };

    fn fits(tag: Tag) -> bool {
        RuledSequence::<EcFields>::fits(tag)
    }

    fn read<R: Source>(alloc: Global, pull: &mut Pull<'_, R>) -> Result<EcPrivateKey, ReadError> {
        match RuledSequence::<EcFields>::read(alloc, pull) {
            Ok(key) => Ok(EcPrivateKey(key)),
            Err(error) => Err(error),
        }
    }

    fn judge(octets: &[u8], limits: Limits, left: u8) -> Option<&[u8]> {
        let rest = RuledSequence::<EcFields>::judge(octets, limits, left)?;
        Some(rest)
    }
}
