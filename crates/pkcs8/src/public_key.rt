//! publicKey of a OneAsymmetricKey (RFC 5958 section 2): it stands under version 1 alone.
ghost use Rattle.std.specs.Option.{option_map};
ghost use Rattle.std.specs.Prelude.{◌≡◌, ◌<◌, ◌∷◌, []};
ghost use Rattle.pkix_definitions.proofs.LawfulTypes.{rule_honest};
ghost use Rattle.pkcs8.specs.Seen.{bits_in};
ghost use Rattle.tlv_core.specs.declared.reason.Reason.TheVariants as why;
ghost use Rattle.x690.specs.Layouts.{context_specific};

use crate::head_in_der::version_in_der;
use crate::key_bits::KeyBits;
use crate::key_head::{NamesKey, is_version_0};
use asn_elements::bits::Bits;
use asn_elements::implicit::Implicit;
use asn_elements::tags::context_tag;
use asn_fields::defined_by::{DefinedBy, Defines};
use asn_fields::dependent::Independent;
use asn_fields::either::Either;
use asn_fields::refused::{Refused, RefusedTag};
use asn_fields::ruled_behind::RuledBehind;
use pkix_values::version::names_version_0;
use tlv_core::reason::Reason;
use tlv_core::tag::Tag;

/// Under version 0 a public key may not stand.
#[derive(Drop)]
pub struct PublicKeyUnderVersion0;

impl RefusedTag for PublicKeyUnderVersion0 {
    ghost own = { context_specific 1 };

    ghost why = { why.VersionRule };

    ghost honest = { rule_honest };

    fn tag() -> Tag {
        context_tag(1)
    }

    fn reason() -> Reason {
        Reason::VersionRule
    }
}

impl<A: NamesKey> Defines<A> for PublicKeyUnderVersion0 {
    ghost path = { 0 ∷ [] };

    ghost octets = { (0 ∷ []) ∷ [] };

    fn is_first(earlier: &A) -> bool {
        is_version_0(earlier.head().version())
    }

    fn is_first_in_der(earlier: &[u8]) -> Option<bool> {
        let (version, _) = version_in_der(earlier)?;
        Some(names_version_0(version))
    }
}

/// The public key after the fields before it: none under version 0, else the key.
pub type PublicKey = DefinedBy<
    Independent<Refused<PublicKeyUnderVersion0>>,
    RuledBehind<Implicit<1, Bits>, KeyBits>,
    PublicKeyUnderVersion0,
>;

/// The key's bits. What is refused is never read.
pub fn key_bits(key: &PublicKey) -> Option<&Bits>
    ensures { option_map (λ r. r.now) result ≡ bits_in key.now }
{
    match key.value() {
        Either::First(_) => None,
        Either::Second(key) => Some(key.value().value()),
    }
}
