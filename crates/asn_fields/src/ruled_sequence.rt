//! SEQUENCEs with a rule on their fields together.
ghost use Rattle.std.specs.Prelude.{◌≡◌, List, None, [], true, ℕ};
ghost use Rattle.x690.specs.Layouts.{universal};
ghost use Rattle.x690.specs.Premises.{FairRule, HonestRule};
ghost use Rattle.x690.specs.TypeTerms.{Rule};
ghost use Rattle.x690.specs.Values.{Sequence as SequenceValue, Value, values_of};
ghost use Rattle.asn_fields.specs.FieldsInDer.{AreFields};

use crate::ruled::{Ruled, Rules};
use crate::sequence::{Sequence, SequenceFields};
use asn_elements::in_der::element_in_der;
use asn_elements::tags::universal_tag;
use tlv_core::reason::Reason;

/// Fields with a rule on them together.
pub trait RuledFields: SequenceFields {
    /// The rule.
    ghost rule: { Rule };

    /// Why the fields are refused, if they are; each that is there begins as its type may.
    fn judge(&self) -> Option<Reason>
        requires { Self.FieldsText.listing.known self.now ≡ true }
        ensures { result ≡ rule [] (SequenceValue (universal 16)
            (values_of (Self.FieldsText.values self.now))) };

    /// Whether it lets the fields pass whose texts in DER these octets are; `false` says nothing of them.
    fn pass_in_der(octets: &[u8]) -> bool
        ensures { result ≡ true → (limit : ℕ) (values : List Value)
            → AreFields limit Self.FieldsText.listing.types values octets.now []
            → rule [] (SequenceValue (universal 16) (values_of values)) ≡ None }
    {
        false
    }

    /// It goes by the value, and by no order of a SET OF,
    ghost fair: { FairRule rule };

    /// gives reasons of its own,
    ghost honest: { HonestRule rule };

    /// and doesn't look at the earlier fields of a container.
    ghost alone: { (earlier : List Value) → rule earlier ≡ rule [] };
}

/// The rule of the fields.
#[derive(Drop)]
pub struct RuleOfFields;

impl<K: RuledFields> Rules<Sequence<K>> for RuleOfFields {
    ghost rule = { K.rule };

    ghost fair = { K.fair };

    ghost honest = { K.honest };

    ghost alone = { K.alone };

    fn judge(value: &Sequence<K>) -> Option<Reason> {
        value.judge()
    }

    fn passes_in_der(octets: &[u8]) -> bool {
        match element_in_der(octets, universal_tag(16), true) {
            Some((contents, _)) => K::pass_in_der(contents),
            None => false,
        }
    }
}

/// A SEQUENCE of these fields, which their rule lets pass.
pub type RuledSequence<K> = Ruled<Sequence<K>, RuleOfFields>;
