//! What is remarked on public keys that are looked into: those of RSA, and the curves of others.
ghost use Rattle.std.specs.Prelude.{◌≡◌};
ghost use Rattle.std.specs.Option.{option_map};
ghost use Rattle.explain.specs.NotedKeys.{arcs_in, is_even, remark_on_curve, remark_on_exponent, remark_on_inside};
ghost use Rattle.explain.specs.NotedKeys.{remark_on_modulus, remark_on_number, small_curve_bits};

use crate::notes::remarks::{is_name, remark_if};
use reports::keys::{bit_length, integer_bits, is_below_zero};
use reports::report::{Carried, KeyRemark, Remark, Value};

/// A modulus of fewer bits is a short one (NIST SP 800-131A).
const FEW_BITS: u64 = 2048;

/// What a public key contains, by what it is as an RSAPublicKey (RFC 3279 section 2.3.1).
pub(crate) fn remark_on_inside(carries: Carried) -> Option<Remark>
    ensures { result ≡ remark_on_inside carries }
{
    match carries {
        Carried::Der => None,
        Carried::NotDer => Some(Remark::Key(KeyRemark::NotDer)),
        Carried::Refused(at, why) => Some(Remark::Key(KeyRemark::Refused(at, why))),
    }
}

/// A modulus is a product of odd primes (RFC 8017 section 3.1), and has 2048 bits at least.
pub(crate) fn remark_on_modulus(value: &Value) -> Option<Remark>
    ensures { result ≡ remark_on_modulus value.now }
{
    match value {
        Value::Number(number) => { remark_on_number(false, *number % 2 == 0, bit_length(*number)) }
        Value::Octets(octets) => {
            remark_on_number(is_below_zero(octets), is_even(octets), integer_bits(octets))
        }
        _ => None,
    }
}

fn remark_on_number(is_negative: bool, is_even: bool, bits: u64) -> Option<Remark>
    ensures { result ≡ remark_on_number is_negative is_even bits }
{
    if is_negative {
        return Some(Remark::Key(KeyRemark::NegativeModulus));
    }
    if is_even {
        return Some(Remark::Key(KeyRemark::EvenModulus));
    }
    if bits < FEW_BITS {
        return Some(Remark::Key(KeyRemark::ShortModulus(bits)));
    }
    None
}

/// A public exponent is odd, and 3 at least (RFC 8017 section 3.1).
pub(crate) fn remark_on_exponent(value: &Value) -> Option<Remark>
    ensures { result ≡ remark_on_exponent value.now }
{
    match value {
        Value::Number(number) => {
            remark_if(
                *number % 2 == 0 || *number < 3,
                Remark::Key(KeyRemark::Exponent),
            )
        }
        Value::Octets(octets) => remark_if(
            is_below_zero(octets) || is_even(octets),
            Remark::Key(KeyRemark::Exponent),
        ),
        _ => None,
    }
}

fn is_even(octets: &[u8]) -> bool
    ensures { result ≡ is_even octets.now }
{
    match octets.last() {
        Some(last) => *last % 2 == 0,
        None => true,
    }
}

/// A named curve has 224 bits at least (NIST SP 800-131A).
pub(crate) fn remark_on_curve(value: &Value) -> Option<Remark>
    ensures { result ≡ remark_on_curve value.now }
{
    let Some(arcs) = arcs_in(value) else {
        return None;
    };
    match small_curve_bits(arcs) {
        Some(bits) => Some(Remark::Key(KeyRemark::SmallCurve(bits))),
        None => None,
    }
}

/// The arcs of an object identifier, in decimal.
pub(crate) fn arcs_in(value: &Value) -> Option<&str>
    ensures { option_map (λ r. r.now) result ≡ arcs_in value.now }
{
    match value {
        Value::Named(identifier) => Some(identifier.arcs),
        Value::Arcs(text) => Some(text.as_str()),
        _ => None,
    }
}

/// How many bits the curves of RFC 5480 section 2.1.1.1 have that have fewer than 224: secp192r1, sect163k1, sect163r2.
fn small_curve_bits(arcs: &str) -> Option<u64>
    ensures { result ≡ small_curve_bits arcs.now }
{
    if is_name(arcs, "1.2.840.10045.3.1.1") {
        Some(192)
    } else if is_name(arcs, "1.3.132.0.1") {
        Some(163)
    } else if is_name(arcs, "1.3.132.0.15") {
        Some(163)
    } else {
        None
    }
}
