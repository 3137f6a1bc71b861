//! The object identifiers that the types name, as values of X.690 8.19.
ghost use Rattle.std.specs.Prelude.{◌≡◌, ◌∷◌, []};
ghost use Rattle.std.specs.Option.{is_some};
ghost use Rattle.pkix_definitions.specs.Identifiers.{entry_under, extension_request, rfc8410_algorithms};
ghost use Rattle.pkix_definitions.specs.Identifiers.{rfc8410_lengths};
ghost use Rattle.x690.specs.Lists.{one_of, same_octets};

use pkix_definitions::identifiers::{EXTENSION_REQUEST, are_same_octets, rfc8410_length};
use tlv_core::oid::Oid;

/// Whether the identifier has these contents.
#[inline(always)]
pub fn has_contents(id: &Oid, contents: &[u8]) -> bool
    ensures { result ≡ same_octets id.now contents.now }
{
    id.contents() == contents
}

/// The number of octets of a public key under an algorithm of RFC 8410 (RFC 7748 section 5, RFC 8032 sections 5.1.5,
/// 5.2.5).
pub fn public_key_length(algorithm: &Oid) -> Option<usize>
    ensures length { result ≡ entry_under rfc8410_lengths algorithm.now }
    ensures listed { is_some result ≡ one_of algorithm.now rfc8410_algorithms }
{
    rfc8410_length(algorithm.contents())
}

/// Whether an attribute of this type has extensions (RFC 2985 section 5.4.2).
pub fn is_extension_request(id: &Oid) -> bool
    ensures { result ≡ one_of id.now (extension_request ∷ []) }
{
    has_contents(id, EXTENSION_REQUEST)
}

/// The same of the contents of its type.
pub fn names_extensions(id: &[u8]) -> bool
    ensures { result ≡ one_of id.now (extension_request ∷ []) }
{
    are_same_octets(id, EXTENSION_REQUEST)
}
