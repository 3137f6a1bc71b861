//! The object identifiers that the types and their rules name, by their contents (X.690 8.19), and the lengths of keys
//! under them.
ghost use Rattle.std.specs.Prelude.{◌≡◌};
ghost use Rattle.std.specs.Option.{is_some};
ghost use Rattle.pkix_definitions.specs.Identifiers.{curve_lengths, entry_under, rfc8410_algorithms, rfc8410_lengths};
ghost use Rattle.x690.specs.Lists.{one_of, same_octets};

/// id-ecPublicKey, 1.2.840.10045.2.1 (RFC 5480 section 2.1.1).
pub const EC_PUBLIC_KEY: &[u8] = &[0x2A, 0x86, 0x48, 0xCE, 0x3D, 0x02, 0x01];

/// rsaEncryption, 1.2.840.113549.1.1.1 (RFC 8017 A.1).
pub const RSA_ENCRYPTION: &[u8] = &[0x2A, 0x86, 0x48, 0x86, 0xF7, 0x0D, 0x01, 0x01, 0x01];

/// X25519, 1.3.101.110 (RFC 8410 section 3).
pub const X25519: &[u8] = &[0x2B, 0x65, 0x6E];

/// X448, 1.3.101.111 (RFC 8410 section 3).
pub const X448: &[u8] = &[0x2B, 0x65, 0x6F];

/// Ed25519, 1.3.101.112 (RFC 8410 section 3).
pub const ED25519: &[u8] = &[0x2B, 0x65, 0x70];

/// Ed448, 1.3.101.113 (RFC 8410 section 3).
pub const ED448: &[u8] = &[0x2B, 0x65, 0x71];

/// secp224r1, 1.3.132.0.33 (RFC 5480 section 2.1.1.1).
const SECP224R1: &[u8] = &[0x2B, 0x81, 0x04, 0x00, 0x21];

/// secp256r1, 1.2.840.10045.3.1.7 (RFC 5480 section 2.1.1.1).
const SECP256R1: &[u8] = &[0x2A, 0x86, 0x48, 0xCE, 0x3D, 0x03, 0x01, 0x07];

/// secp256k1, 1.3.132.0.10 (RFC 8812 section 3.1).
const SECP256K1: &[u8] = &[0x2B, 0x81, 0x04, 0x00, 0x0A];

/// secp384r1, 1.3.132.0.34 (RFC 5480 section 2.1.1.1).
const SECP384R1: &[u8] = &[0x2B, 0x81, 0x04, 0x00, 0x22];

/// secp521r1, 1.3.132.0.35 (RFC 5480 section 2.1.1.1).
const SECP521R1: &[u8] = &[0x2B, 0x81, 0x04, 0x00, 0x23];

/// extensionRequest, 1.2.840.113549.1.9.14 (RFC 2985 section 5.4.2).
pub const EXTENSION_REQUEST: &[u8] = &[0x2A, 0x86, 0x48, 0x86, 0xF7, 0x0D, 0x01, 0x09, 0x0E];

/// Whether an identifier has these contents.
#[inline(always)]
pub fn are_same_octets(identifier: &[u8], contents: &[u8]) -> bool
    ensures { result ≡ same_octets identifier.now contents.now }
{
    identifier == contents
}

/// The number of octets of a key, private or public, under an algorithm of RFC 8410 (RFC 7748 section 5, RFC 8032
/// sections 5.1.5, 5.2.5).
#[inline(always)]
pub fn rfc8410_length(algorithm: &[u8]) -> Option<usize>
    ensures length { result ≡ entry_under rfc8410_lengths algorithm.now }
    ensures listed { is_some result ≡ one_of algorithm.now rfc8410_algorithms }
{
    if are_same_octets(algorithm, X25519) {
        Some(32)
    } else if are_same_octets(algorithm, X448) {
        Some(56)
    } else if are_same_octets(algorithm, ED25519) {
        Some(32)
    } else if are_same_octets(algorithm, ED448) {
        Some(57)
    } else {
        None
    }
}

/// The number of octets of a private key on a curve (RFC 5915 section 3, SEC 2).
#[inline(always)]
pub fn curve_length(curve: &[u8]) -> Option<usize>
    ensures { result ≡ entry_under curve_lengths curve.now }
{
    if are_same_octets(curve, SECP224R1) {
        Some(28)
    } else if are_same_octets(curve, SECP256R1) {
        Some(32)
    } else if are_same_octets(curve, SECP256K1) {
        Some(32)
    } else if are_same_octets(curve, SECP384R1) {
        Some(48)
    } else if are_same_octets(curve, SECP521R1) {
        Some(66)
    } else {
        None
    }
}
