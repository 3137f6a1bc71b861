//! Fields of a OneAsymmetricKey in octets in DER: version and privateKeyAlgorithm, and whether publicKey is there.
ghost use Rattle.std.specs.Prelude.{◌≡◌, ◌++◌, ◌∷◌, [], IfSome, List, false, true, ℕ};
ghost use Rattle.pkix_definitions.specs.Identifiers.{ec_public_key, rsa_encryption};
ghost use Rattle.pkix_definitions.specs.Rules.{container_curve};
ghost use Rattle.x690.specs.DerTexts.{der_element};
ghost use Rattle.x690.specs.Layouts.{universal};
ghost use Rattle.x690.specs.Lists.{one_of};
ghost use Rattle.x690.specs.TypeTerms.{Fields};
ghost use Rattle.x690.specs.Values.{Value};
ghost use Rattle.asn_fields.specs.FieldsInDer.{AreFields};
ghost use Rattle.pkcs8.specs.HeadInDer.{HasHead, key_types};
ghost use Rattle.pkcs8.specs.PublicKeyInDer.{HasPublicKey};

use asn_elements::in_der::element_in_der;
use asn_elements::tags::{context_tag, universal_tag};
use pkix_definitions::identifiers::{EC_PUBLIC_KEY, RSA_ENCRYPTION, are_same_octets};

/// Whether these are the contents of id-ecPublicKey.
#[inline(always)]
pub fn is_ec(algorithm: &[u8]) -> bool
    ensures { result ≡ one_of algorithm.now (ec_public_key ∷ []) }
{
    are_same_octets(algorithm, EC_PUBLIC_KEY)
}

/// Whether these are the contents of rsaEncryption.
#[inline(always)]
pub fn is_rsa(algorithm: &[u8]) -> bool
    ensures { result ≡ one_of algorithm.now (rsa_encryption ∷ []) }
{
    are_same_octets(algorithm, RSA_ENCRYPTION)
}

/// The contents of the version that octets begin with, and what stands after it: it is 0 or 1, so it has one octet.
#[inline(always)]
pub fn version_in_der(octets: &[u8]) -> Option<(&[u8], &[u8])>
    ensures { IfSome result (λ x. octets.now ≡ der_element (universal 2) false x.0.now ++ x.1.now) }
{
    let [identifier, length, _, behind @ ..] = octets else {
        return None;
    };
    if *identifier != 2 || *length != 1 {
        return None;
    }
    Some((&octets[2..3], behind))
}

/// The contents of version and of the algorithm, and the octets of its parameters, of a key whose fields octets begin
/// with, in DER.
#[inline(always)]
pub fn head_in_der(octets: &[u8]) -> Option<(&[u8], &[u8], &[u8])>
    ensures { IfSome result (λ head. (limit : ℕ) (more : Fields) (fields : List Value) (rest : List ℕ)
        → AreFields limit (λ end. key_types more) fields octets.now rest
        → HasHead fields head.0.now head.1.now head.2.now) }
{
    let (version, behind) = version_in_der(octets)?;
    let (contents, _) = element_in_der(behind, universal_tag(16), true)?;
    let (algorithm, parameters) = element_in_der(contents, universal_tag(6), false)?;
    Some((version, algorithm, parameters))
}

/// The curve that such a key names under id-ecPublicKey.
#[inline(always)]
pub fn curve_in_der(octets: &[u8]) -> Option<&[u8]>
    ensures { IfSome result (λ curve. (limit : ℕ) (more : Fields) (fields : List Value) (rest : List ℕ)
        → AreFields limit (λ end. key_types more) fields octets.now rest
        → container_curve fields ≡ curve.now) }
{
    let (_version, algorithm, parameters) = head_in_der(octets)?;
    if !is_ec(algorithm) {
        return None;
    }
    let (curve, _) = element_in_der(parameters, universal_tag(6), false)?;
    Some(curve)
}

/// Whether publicKey stands among the fields after version that octets are, in DER.
pub fn has_public_key(octets: &[u8]) -> bool
    ensures { result ≡ true → HasPublicKey octets.now }
{
    let Some((_algorithm, key)) = element_in_der(octets, universal_tag(16), true) else {
        return false;
    };
    let Some((_key, behind)) = element_in_der(key, universal_tag(4), false) else {
        return false;
    };
    let Some((_bits, _)) = element_in_der(behind_attributes(behind), context_tag(1), false) else {
        return false;
    };
    true
}

/// What stands after attributes, which may be absent, where octets are fields in DER.
fn behind_attributes(octets: &[u8]) -> &[u8]
    ensures { HasPublicKey result.now → HasPublicKey octets.now }
{
    match element_in_der(octets, context_tag(0), true) {
        Some((_attributes, behind)) => behind,
        None => octets,
    }
}
