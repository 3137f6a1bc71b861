//! What two private keys are to each other.
ghost use Rattle.std.specs.Prelude.{◌≡◌};
ghost use Rattle.std.specs.Option.{option_map};
ghost use Rattle.comparison.specs.Parts.{parts_seen};
ghost use Rattle.comparison.specs.Verdicts.{by_test, is_unnamed, rsa_verdict, scalar_verdict, verdict_of};
ghost use Rattle.comparison.specs.Verdicts.{verdict_of_parts};

use crate::parts::{KeyParts, id_ec_public_key};
use tlv_core::fault::Fault;

/// What two private keys are to each other.
#[derive(Clone, Copy)]
pub enum KeySameness {
    /// They are one key: what makes them is equal.
    Same,
    /// They have other octets.
    Another,
    /// It isn't known: a document has no private key, or one of an algorithm that is carried, or names no curve.
    NotCompared,
    /// The first one is refused, or the second one, or both, each with the fault that `check` gives.
    Refused(Option<Fault>, Option<Fault>),
}

/// What two keys are to each other, where each has parts.
pub(crate) fn verdict(parts: Option<KeyParts<'_>>, other: Option<KeyParts<'_>>) -> KeySameness
    ensures { result ≡ verdict_of (option_map parts_seen parts.entry)
        (option_map parts_seen other.entry) }
{
    match (parts, other) {
        (Some(parts), Some(other)) => verdict_of_parts(parts, other),
        _ => KeySameness::NotCompared,
    }
}

/// What two keys are to each other by their parts.
fn verdict_of_parts(parts: KeyParts<'_>, other: KeyParts<'_>) -> KeySameness
    ensures { result ≡ verdict_of_parts (parts_seen parts.entry) (parts_seen other.entry) }
{
    match parts {
        KeyParts::Carried(_) => KeySameness::NotCompared,
        KeyParts::Scalar(algorithm, curve, key) => scalar_verdict(algorithm, curve, key, other),
        KeyParts::Rsa(modulus, exponent) => rsa_verdict(modulus, exponent, other),
    }
}

/// What a key of EC or RFC 8410 and another one are to each other.
fn scalar_verdict(algorithm: &[u8], curve: &[u8], key: &[u8], other: KeyParts<'_>) -> KeySameness
    ensures { result ≡ scalar_verdict algorithm.now curve.now key.now (parts_seen other.entry) }
{
    match other {
        KeyParts::Carried(_) => KeySameness::NotCompared,
        KeyParts::Rsa(_, _) => KeySameness::Another,
        KeyParts::Scalar(named, on, octets) => {
            if is_unnamed(algorithm, curve) || is_unnamed(named, on) {
                return KeySameness::NotCompared;
            }
            by_test(algorithm == named && curve == on && key == octets)
        }
    }
}

/// What an RSA key and another one are to each other.
fn rsa_verdict(modulus: &[u8], exponent: &[u8], other: KeyParts<'_>) -> KeySameness
    ensures { result ≡ rsa_verdict modulus.now exponent.now (parts_seen other.entry) }
{
    match other {
        KeyParts::Carried(_) => KeySameness::NotCompared,
        KeyParts::Scalar(_, _, _) => KeySameness::Another,
        KeyParts::Rsa(number, power) => by_test(modulus == number && exponent == power),
    }
}

/// Whether it is a key of id-ecPublicKey that names no curve.
pub(crate) fn is_unnamed(algorithm: &[u8], curve: &[u8]) -> bool
    ensures { result ≡ is_unnamed algorithm.now curve.now }
{
    algorithm == id_ec_public_key() && curve.is_empty()
}

fn by_test(same: bool) -> KeySameness
    ensures { result ≡ by_test same }
{
    if same {
        KeySameness::Same
    } else {
        KeySameness::Another
    }
}
