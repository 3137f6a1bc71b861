//! Which key privateKey contains, by the algorithm, and the curve or length that it has to have there (RFC 5915 section
//! 3, RFC 8410 section 7, RFC 8017 A.1.2).
ghost use Rattle.std.specs.Option.{option_map};
ghost use Rattle.std.specs.Prelude.{◌≡◌, ◌∷◌, [], List, None, length, true};
ghost use Rattle.asn_elements.specs.Leaves.{octets_of};
ghost use Rattle.pkix_definitions.proofs.Fairs.{fair_inner_curve, fair_inner_ec};
ghost use Rattle.pkix_definitions.proofs.LawfulTypes.{honest_inner_curve, honest_inner_ec};
ghost use Rattle.pkix_definitions.specs.Identifiers.{curve_lengths, ec_public_key, entry_under, rfc8410_algorithms};
ghost use Rattle.pkix_definitions.specs.Identifiers.{rfc8410_lengths, rsa_encryption};
ghost use Rattle.pkix_definitions.specs.Rules.{container_curve, has_length, inner_curve_rule, inner_ec_rule};
ghost use Rattle.x690.specs.Values.{Value};
ghost use Rattle.private_keys.specs.EcInDer.{HasParts};
ghost use Rattle.pkcs8.specs.Keys.{curve_octets};

use crate::head_in_der::{curve_in_der, head_in_der, is_ec, is_rsa};
use crate::key_head::{NamesKey, is_ec_public_key, is_rsa_encryption};
use asn_elements::in_der::element_in_der;
use asn_elements::octets::Octets;
use asn_elements::tags::universal_tag;
use asn_fields::defined_by::Defines;
use asn_fields::ruled_behind::FieldRules;
use pkix_definitions::identifiers::{are_same_octets, rfc8410_length};
use pkix_values::identifiers::public_key_length;
use private_keys::curve_key::CurveKey;
use private_keys::curves::private_key_length;
use private_keys::ec_private_key::{EcPrivateKey, is_long_enough, parts_in_der};
use tlv_core::oid::Oid;
use tlv_core::reason::Reason;

/// Under id-ecPublicKey an ECPrivateKey, of the container's curve by its name, or without one by its length.
#[derive(Drop)]
pub struct UnderEc;

impl<A: NamesKey> Defines<A> for UnderEc {
    ghost path = { 1 ∷ 0 ∷ [] };

    ghost octets = { ec_public_key ∷ [] };

    fn is_first(earlier: &A) -> bool {
        is_ec_public_key(earlier.head().algorithm())
    }

    fn is_first_in_der(earlier: &[u8]) -> Option<bool> {
        let (_version, algorithm, _parameters) = head_in_der(earlier)?;
        Some(is_ec(algorithm))
    }
}

impl<A: NamesKey> FieldRules<A, EcPrivateKey> for UnderEc {
    ghost rule = { inner_ec_rule };

    ghost fair = { fair_inner_ec };

    ghost honest = { honest_inner_ec };

    fn judge(earlier: &A, field: &EcPrivateKey) -> Option<Reason> {
        let own = contents_of(field.curve());
        let due = earlier.head().curve();
        if !own.is_empty() {
            return if own == contents_of(due) {
                None
            } else {
                Some(Reason::Curve)
            };
        }
        (!has_length_on(due, field.key())).then_some(Reason::KeyLength)
    }

    fn passes_in_der(earlier: &[u8], octets: &[u8]) -> bool {
        let Some(due) = curve_in_der(earlier) else {
            return false;
        };
        let Some((contents, _)) = element_in_der(octets, universal_tag(16), true) else {
            return false;
        };
        match parts_in_der(contents) {
            Some((key, own)) => is_of_curve(due, own, key),
            None => false,
        }
    }
}

/// Whether an ECPrivateKey with this key that names this curve, or none, may stand in a container that names the first.
fn is_of_curve(due: &[u8], own: &[u8], key: &[u8]) -> bool
    ensures { result ≡ true → (earlier : List Value) (value : Value) → HasParts value key.now own.now
        → container_curve earlier ≡ due.now → inner_ec_rule earlier value ≡ None }
{
    if own.is_empty() {
        return is_long_enough(due, key);
    }
    are_same_octets(own, due)
}

/// The contents of the identifier of a curve, none where no curve is named.
fn contents_of<'a>(curve: Option<&'a Oid>) -> &'a [u8]
    ensures { result.now ≡ curve_octets (option_map (λ r. r.now) curve.entry) }
{
    match curve {
        Some(curve) => curve.contents(),
        None => &[],
    }
}

/// Whether the key has the length that goes with the curve, if one is named and it has one.
fn has_length_on(curve: Option<&Oid>, key: &Octets) -> bool
    ensures { result ≡ has_length (entry_under curve_lengths
        (curve_octets (option_map (λ r. r.now) curve.entry))) (length (octets_of key.now)) }
{
    let Some(curve) = curve else {
        return true;
    };
    match private_key_length(curve) {
        Some(length) => key.octets().len() == length,
        None => true,
    }
}

/// Under the algorithms of RFC 8410 a CurvePrivateKey, of the length that goes with the algorithm.
#[derive(Drop)]
pub struct UnderCurve;

impl<A: NamesKey> Defines<A> for UnderCurve {
    ghost path = { 1 ∷ 0 ∷ [] };

    ghost octets = { rfc8410_algorithms };

    fn is_first(earlier: &A) -> bool {
        public_key_length(earlier.head().algorithm()).is_some()
    }

    fn is_first_in_der(earlier: &[u8]) -> Option<bool> {
        let (_version, algorithm, _parameters) = head_in_der(earlier)?;
        Some(rfc8410_length(algorithm).is_some())
    }
}

impl<A: NamesKey> FieldRules<A, CurveKey> for UnderCurve {
    ghost rule = { inner_curve_rule };

    ghost fair = { fair_inner_curve };

    ghost honest = { honest_inner_curve };

    fn judge(earlier: &A, field: &CurveKey) -> Option<Reason> {
        (!has_length_under(earlier.head().algorithm(), field.key())).then_some(Reason::KeyLength)
    }

    fn passes_in_der(earlier: &[u8], octets: &[u8]) -> bool {
        let Some((_version, algorithm, _parameters)) = head_in_der(earlier) else {
            return false;
        };
        match element_in_der(octets, universal_tag(4), false) {
            Some((key, _)) => has_curve_length(algorithm, key),
            None => false,
        }
    }
}

/// Whether a private key has the length that goes with the algorithm, if it is one of RFC 8410's.
fn has_curve_length(algorithm: &[u8], key: &[u8]) -> bool
    ensures { result ≡ has_length (entry_under rfc8410_lengths algorithm.now) (length key.now) }
{
    match rfc8410_length(algorithm) {
        Some(length) => key.len() == length,
        None => true,
    }
}

/// Whether the key has the length that goes with the algorithm, if it is one of RFC 8410's; a private key has as many
/// octets as the public one.
fn has_length_under(algorithm: &Oid, key: &Octets) -> bool
    ensures { result ≡ has_length (entry_under rfc8410_lengths algorithm.now)
        (length (octets_of key.now)) }
{
    match public_key_length(algorithm) {
        Some(length) => key.octets().len() == length,
        None => true,
    }
}

/// Under rsaEncryption an RSAPrivateKey.
#[derive(Drop)]
pub struct UnderRsa;

impl<A: NamesKey> Defines<A> for UnderRsa {
    ghost path = { 1 ∷ 0 ∷ [] };

    ghost octets = { rsa_encryption ∷ [] };

    fn is_first(earlier: &A) -> bool {
        is_rsa_encryption(earlier.head().algorithm())
    }

    fn is_first_in_der(earlier: &[u8]) -> Option<bool> {
        let (_version, algorithm, _parameters) = head_in_der(earlier)?;
        Some(is_rsa(algorithm))
    }
}
