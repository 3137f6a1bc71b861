//! The curves whose private keys have a length of their own.
ghost use Rattle.std.specs.Prelude.{◌≡◌};
ghost use Rattle.pkix_definitions.specs.Identifiers.{curve_lengths, entry_under};

use pkix_definitions::identifiers::curve_length;
use tlv_core::oid::Oid;

/// The number of octets of a private key on this curve (RFC 5915 section 3, SEC 2): secp224r1, secp256r1, secp256k1,
/// secp384r1, secp521r1.
pub fn private_key_length(curve: &Oid) -> Option<usize>
    ensures { result ≡ entry_under curve_lengths curve.now }
{
    curve_length(curve.contents())
}
