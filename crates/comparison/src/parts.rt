//! What makes a private key, by its algorithm.
ghost use Rattle.std.specs.Prelude.{[], ◌≡◌};
ghost use Rattle.std.specs.Option.{option_map};
ghost use Rattle.asn_elements.specs.Leaves.{octets_of};
ghost use Rattle.pkix_definitions.specs.Identifiers.{ec_public_key};
ghost use Rattle.pkix_values.specs.Algorithms.{parameters_of};
ghost use Rattle.pkcs8.specs.Keys.{curve_octets, identifier_of};
ghost use Rattle.comparison.specs.Parts.{asymmetric_parts, document_parts, ec_parts, number_octets, parts_seen};
ghost use Rattle.comparison.specs.Parts.{rsa_parts};

use asn_elements::octets::Octets;
use pk_documents::document::Document;
use pkcs8::one_asymmetric_key::OneAsymmetricKey;
use pkcs8::private_key::PrivateKey;
use pkix_definitions::identifiers::EC_PUBLIC_KEY;
use pkix_values::algorithm::AlgorithmIdentifier;
use private_keys::ec_private_key::EcPrivateKey;
use private_keys::rsa_private_key::RsaPrivateKey;
use tlv_core::oid::Oid;

/// What makes a private key.
#[derive(Clone, Copy)]
pub(crate) enum KeyParts<'a> {
    /// EC and RFC 8410: the algorithm, the curve (no octets where none is named) and the private octets.
    Scalar(&'a [u8], &'a [u8], &'a [u8]),
    /// RSA: modulus and publicExponent.
    Rsa(&'a [u8], &'a [u8]),
    /// Another algorithm, whose octets are carried: it isn't known.
    Carried(&'a [u8]),
}

/// What makes the private key that a document is.
pub(crate) fn document_parts(document: &Document) -> Option<KeyParts<'_>>
    ensures { option_map parts_seen result ≡ document_parts document.now }
{
    match document {
        Document::Key(key) => Some(asymmetric_parts(key)),
        Document::Ec(key) => Some(ec_parts(key)),
        _ => None,
    }
}

fn asymmetric_parts(key: &OneAsymmetricKey) -> KeyParts<'_>
    ensures { parts_seen result ≡ asymmetric_parts key.now }
{
    let algorithm = key.algorithm();
    let own = algorithm.algorithm().contents();
    match key.private_key() {
        PrivateKey::Ec(ec) => {
            let (curve, octets) = curve_and_key(named_curve(algorithm), ec.key());
            KeyParts::Scalar(own, curve, octets)
        }
        PrivateKey::Curve(curve) => KeyParts::Scalar(own, &[], curve.key().octets()),
        PrivateKey::Rsa(rsa) => rsa_parts(rsa),
        PrivateKey::Carried(_) => KeyParts::Carried(own),
    }
}

/// The curve that the parameters of an algorithm name.
fn named_curve(algorithm: &AlgorithmIdentifier) -> Option<&Oid>
    ensures { option_map (λ r. r.now) result ≡ identifier_of (parameters_of algorithm.now) }
{
    match algorithm.parameters() {
        Some(parameters) => parameters.oid(),
        None => None,
    }
}

fn ec_parts(key: &EcPrivateKey) -> KeyParts<'_>
    ensures { parts_seen result ≡ ec_parts key.now }
{
    let (curve, octets) = curve_and_key(key.curve(), key.key());
    KeyParts::Scalar(id_ec_public_key(), curve, octets)
}

/// The contents of the identifier of a curve, none where no curve is named, and the octets of a key on it.
fn curve_and_key<'a>(curve: Option<&'a Oid>, key: &'a Octets) -> (&'a [u8], &'a [u8])
    ensures curve { result.0.now ≡ curve_octets (option_map (λ r. r.now) curve.entry) }
    ensures key { result.1.now ≡ octets_of key.now }
{
    match curve {
        Some(curve) => (curve.contents(), key.octets()),
        None => (&[], key.octets()),
    }
}

/// id-ecPublicKey (RFC 5480 section 2.1.1).
pub(crate) fn id_ec_public_key() -> &'static [u8]
    ensures { result.now ≡ ec_public_key }
{
    EC_PUBLIC_KEY
}

fn rsa_parts(key: &RsaPrivateKey) -> KeyParts<'_>
    ensures { parts_seen result ≡ rsa_parts key.now }
{
    KeyParts::Rsa(number_octets(key.number(0)), number_octets(key.number(1)))
}

/// The contents octets of a number, where it is there.
fn number_octets<'a>(number: Option<&'a [u8]>) -> &'a [u8]
    ensures { result.now ≡ number_octets (option_map (λ r. r.now) number.entry) }
{
    match number {
        Some(contents) => contents,
        None => &[],
    }
}
