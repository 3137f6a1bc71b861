//! The types of what public keys contain.
ghost use Rattle.std.specs.Prelude.{◌≡◌, IfSome, true};
ghost use Rattle.std.specs.Option.{option_map};
ghost use Rattle.pkix_definitions.specs.ParameterTypes.{RSAPublicKey};
ghost use Rattle.pkix_shapes.specs.PublicKeys.{type_of_public_key};
ghost use Rattle.pkix_shapes.specs.Plain.{is_plain};
ghost use Rattle.pkix_shapes.specs.Terms.{term_of};

use crate::shape::{Fields, Shape, fields};
use crate::universal::{INTEGER, SEQUENCE};
use pkix_definitions::identifiers::{RSA_ENCRYPTION, are_same_octets};

static RSA_PUBLIC_KEY: Shape = Shape::Named(
    "RSAPublicKey",
    &Shape::Sequence(
        SEQUENCE,
        &fields! {
            "modulus": INTEGER,
            "publicExponent": INTEGER,
        },
    ),
);

/// id-RSASSA-PSS, 1.2.840.113549.1.1.10.
const RSASSA_PSS: &[u8] = &[0x2A, 0x86, 0x48, 0x86, 0xF7, 0x0D, 0x01, 0x01, 0x0A];

/// The type of what a public key of this algorithm contains, where it is a type of ASN.1: an RSAPublicKey (RFC 8017
/// A.1.1), which is that of both algorithms of RSA (RFC 4055 section 1.2).
pub fn public_key_type(algorithm: &[u8]) -> Option<&'static Shape>
    ensures type_term { option_map (λ r. term_of r.now) result ≡ type_of_public_key algorithm.now }
    ensures plain { IfSome result (λ r. is_plain r.now ≡ true) }
{
    if are_same_octets(algorithm, RSA_ENCRYPTION) || are_same_octets(algorithm, RSASSA_PSS) {
        Some(rsa_public_key())
    } else {
        None
    }
}

fn rsa_public_key() -> &'static Shape
    ensures type_term { term_of result.now ≡ RSAPublicKey }
    ensures plain { is_plain result.now ≡ true }
{
    &RSA_PUBLIC_KEY
}
