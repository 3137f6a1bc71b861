//! A value that stands in DER in octets at hand.
ghost use Rattle.std.specs.Prelude.{◌≡◌, IfSome, Some, [], length, true};
ghost use Rattle.x690.specs.Premises.{Lawful};
ghost use Rattle.x690.specs.Values.{Value};
ghost use Rattle.asn_documents.specs.AtHand.{StandsAtHand};
ghost use Rattle.asn_documents.specs.Normalised.{NormalisedAs};

use asn_elements::element::Element;
use tlv_core::limits::Limits;

/// How many octets the value has that these begin with, where it is judged to be in DER as it stands, and is within the
/// limits: no value is made, and no memory taken. `None` says nothing of the octets.
pub(crate) fn length_in_der<T: Element>(octets: &[u8], limits: Limits) -> Option<usize>
    ensures { IfSome result (StandsAtHand limits T.type_term octets.now) }
{
    let rest = T::judge(octets, limits, limits.depth() - 1)?;
    let taken = octets.len() - rest.len();
    if taken > limits.octets() as usize {
        return None;
    }
    Some(taken)
}

/// Whether octets are judged to be one value in DER, all of them, within the limits: then they are what normalising
/// them writes. No value is made, and no memory taken. `false` says nothing of the octets.
pub fn are_in_der<T: Element>(octets: &[u8], limits: Limits) -> bool
    requires { Lawful T.type_term }
    ensures { result ≡ true → (value : Value)
        × NormalisedAs limits T.type_term value (Some octets.now) (Some []) (Some [])
        (Some octets.now) (length octets.now) (length octets.now) }
{
    match length_in_der::<T>(octets, limits) {
        Some(taken) => taken == octets.len(),
        None => false,
    }
}
