//! The rule on the bits of publicKey of a OneAsymmetricKey (RFC 8410 sections 4 and 7).
ghost use Rattle.std.specs.Prelude.{◌≡◌, ◌∷◌, []};
ghost use Rattle.pkix_definitions.proofs.Fairs.{fair_key_bits};
ghost use Rattle.pkix_definitions.proofs.LawfulTypes.{honest_key_bits};
ghost use Rattle.pkix_definitions.specs.Rules.{key_bits_rule};

use crate::head_in_der::head_in_der;
use crate::key_head::NamesKey;
use asn_elements::bits::Bits;
use asn_elements::implicit::Implicit;
use asn_elements::in_der::element_in_der;
use asn_elements::tags::context_tag;
use asn_fields::ruled_behind::FieldRules;
use pkix_values::public_key::{has_length_of, is_key_of};
use tlv_core::reason::Reason;

/// Under the algorithms of RFC 8410 it has the length that goes with the algorithm, and no unused bits.
#[derive(Drop)]
pub struct KeyBits;

impl<A: NamesKey> FieldRules<A, Implicit<1, Bits>> for KeyBits {
    ghost rule = { key_bits_rule (1 ∷ 0 ∷ []) };

    ghost fair = { fair_key_bits (1 ∷ 0 ∷ []) };

    ghost honest = { honest_key_bits (1 ∷ 0 ∷ []) };

    fn judge(earlier: &A, field: &Implicit<1, Bits>) -> Option<Reason> {
        (!is_key_of(earlier.head().algorithm(), field.value())).then_some(Reason::KeyLength)
    }

    fn passes_in_der(earlier: &[u8], octets: &[u8]) -> bool {
        let Some((_version, algorithm, _parameters)) = head_in_der(earlier) else {
            return false;
        };
        match element_in_der(octets, context_tag(1), false) {
            Some((key, _)) => has_length_of(algorithm, key),
            None => false,
        }
    }
}
