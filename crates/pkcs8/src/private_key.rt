//! privateKey of a OneAsymmetricKey: an OCTET STRING, and what it contains goes by the algorithm (RFC 5915 section 3,
//! RFC 8410 section 7, RFC 8017 A.1.2).
ghost use Rattle.std.specs.Prelude.{◌≡◌, ◌<◌};
ghost use Rattle.pkix_definitions.specs.DocumentTypes.{private_key};
ghost use Rattle.pkcs8.specs.Seen.{key_in, key_seen};

use crate::inner_keys::{UnderCurve, UnderEc, UnderRsa};
use crate::key_head::NamesKey;
use asn_elements::boxed::Boxed;
use asn_elements::containing::Containing;
use asn_elements::octets::Octets;
use asn_fields::defined_by::DefinedBy;
use asn_fields::dependent::{DependentElement, Independent};
use asn_fields::either::Either;
use asn_fields::ruled_containing::RuledContaining;
use ber_pull::pull::Pull;
use private_keys::curve_key::CurveKey;
use private_keys::ec_private_key::EcPrivateKey;
use private_keys::rsa_private_key::RsaPrivateKey;
use std::alloc::Global;
use tlv_core::fault::ReadError;
use tlv_core::limits::Limits;
use tlv_core::sink::{Sink, WriteError};
use tlv_core::source::Source;
use tlv_core::tag::Tag;
use tlv_core::target::Target;

/// What stands under the algorithm; under all others octets are carried. An RSA key is large: it has room of its own.
type ByAlgorithm = DefinedBy<
    RuledContaining<EcPrivateKey, UnderEc>,
    DefinedBy<
        RuledContaining<CurveKey, UnderCurve>,
        DefinedBy<Independent<Containing<Boxed<RsaPrivateKey>>>, Independent<Octets>, UnderRsa>,
        UnderCurve,
    >,
    UnderEc,
>;

/// The private key after the fields before it.
#[derive(Drop)]
pub struct ContainedKey(pub ByAlgorithm);

/// A private key, by what its octets contain.
pub enum PrivateKey<'a> {
    /// Under id-ecPublicKey.
    Ec(&'a EcPrivateKey),
    /// Under X25519, X448, Ed25519 and Ed448.
    Curve(&'a CurveKey),
    /// Under rsaEncryption.
    Rsa(&'a RsaPrivateKey),
    /// Under any other algorithm: the octets as they came.
    Carried(&'a Octets),
}

impl<'a> PrivateKey<'a> {
    /// The key that is contained.
    pub fn in_field(contained: &'a ContainedKey) -> PrivateKey<'a>
        ensures { key_seen result ≡ key_in contained.now }
    {
        match contained.0.value() {
            Either::First(ec) => PrivateKey::Ec(ec.value()),
            Either::Second(others) => match others.value() {
                Either::First(curve) => PrivateKey::Curve(curve.value()),
                Either::Second(others) => match others.value() {
                    Either::First(rsa) => PrivateKey::Rsa(rsa.0.value().value()),
                    Either::Second(octets) => PrivateKey::Carried(&octets.0),
                },
            },
        }
    }
}

#[tactic(auto, unfolding(pkix_definitions::specs::DocumentTypes::RSAPrivateKey))]
impl<A: NamesKey> DependentElement<A> for ContainedKey {
    ghost type_term = { private_key };

    ghost value = { λ x. ⟦<ByAlgorithm as DependentElement<A>>⟧.value x.0 };

    ghost suits = { λ vs x. ⟦<ByAlgorithm as DependentElement<A>>⟧.suits vs x.0 };

    ghost one_text = { λ vs ws x y. ⟦<ByAlgorithm as DependentElement<A>>⟧.one_text vs ws x.0 y.0 };

    fn fits(tag: Tag) -> bool {
        <ByAlgorithm as DependentElement<A>>::fits(tag)
    }

    fn read<R: Source>(
        alloc: Global,
        pull: &mut Pull<'_, R>,
        earlier: &A,
    ) -> Result<ContainedKey, ReadError> {
        let key = match <ByAlgorithm as DependentElement<A>>::read(alloc, pull, earlier) {
            Ok(key) => key,
            Err(error) => return Err(error),
        };
        Ok(ContainedKey(key))
    }

    fn judge<'a>(earlier: &[u8], octets: &'a [u8], limits: Limits, left: u8) -> Option<&'a [u8]> {
        let rest = <ByAlgorithm as DependentElement<A>>::judge(earlier, octets, limits, left)?;
        Some(rest)
    }

    fn size(&self) -> u64 {
        <ByAlgorithm as DependentElement<A>>::size(&self.0)
    }

    fn put<W: Target>(&self, sink: &mut Sink<'_, W>) -> Result<(), WriteError> {
        <ByAlgorithm as DependentElement<A>>::put(&self.0, sink)
    }

    fn octet(&self, i: u64) -> Option<u8> {
        <ByAlgorithm as DependentElement<A>>::octet(&self.0, i)
    }
}
