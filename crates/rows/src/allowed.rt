//! Allowed ::= SEQUENCE { number INTEGER, sealed [0], octets OCTET STRING OPTIONAL }, where nothing may stand as
//! sealed, no octets after 0, and as many as the number has after another one.
ghost use Rattle.std.proofs.lemmas.Bool.{ltb-true};
ghost use Rattle.std.specs.Prelude.{◌∷◌, [], refl};
ghost use Rattle.tlv_core.specs.declared.reason.Reason.TheVariants as why;
ghost use Rattle.x690.specs.Layouts.{context_specific, universal};
ghost use Rattle.rows.specs.Rules.{fair_length, honest_left_out, honest_length, honest_version, length_rule};
ghost use Rattle.asn_fields.specs.Listings.{through};
ghost use Rattle.x690.specs.TypeTerms.{EndOfFields, SequenceType};

use asn_elements::integer::Int;
use asn_elements::octets::Octets;
use asn_elements::tags::{context_tag, universal_tag};
use asn_fields::defined_by::{DefinedBy, Defines};
use asn_fields::dependent::Independent;
use asn_fields::fields::Next;
use asn_fields::optional_dependent::OptionalDependent;
use asn_fields::refused::{Refused, RefusedTag};
use asn_fields::ruled_behind::{FieldRules, RuledBehind};
use asn_fields::sequence::{FieldsText, FirstFields, Optional, Required, Sequence, SequenceFields};
use ber_pull::pull::Pull;
use std::alloc::Global;
use tlv_core::fault::ReadError;
use tlv_core::reason::Reason;
use tlv_core::sink::{Sink, WriteError};
use tlv_core::source::Source;
use tlv_core::tag::Tag;
use tlv_core::target::Target;

/// number, sealed, octets.
type Listed = OptionalDependent<
    NumberAndSealed,
    DefinedBy<Independent<Refused<BehindZero>>, RuledBehind<Octets, AsLong>, BehindZero>,
>;

/// number, sealed, octets.
#[derive(Drop)]
pub struct AllowedFields(Listed);

/// number, sealed.
type NumberAndSealed = (Required<Int>, Optional<Refused<Sealed>>);

impl FieldsText for AllowedFields {
    ghost values = { λ fields. ⟦<Listed as FieldsText>⟧.values fields.0 };

    ghost listing = { through (λ fields. fields.0) ⟦<Listed as FieldsText>⟧.listing };

    fn size(&self) -> u64 {
        self.0.size()
    }

    fn put<W: Target>(&self, sink: &mut Sink<'_, W>) -> Result<(), WriteError> {
        self.0.put(sink)
    }

    fn octet(&self, i: u64) -> Option<u8> {
        self.0.octet(i)
    }
}

impl FirstFields for AllowedFields {
    fn read_first<R: Source>(
        alloc: Global,
        pull: &mut Pull<'_, R>,
        next: &mut Next,
    ) -> Result<AllowedFields, ReadError> {
        match <Listed as FirstFields>::read_first(alloc, pull, next) {
            Ok(listed) => Ok(AllowedFields(listed)),
            Err(error) => Err(error),
        }
    }
}

impl SequenceFields for AllowedFields {
    ghost type_term = { SequenceType (universal 16) (⟦<Listed as FieldsText>⟧.listing.types EndOfFields) };

    ghost listed = { refl };

    ghost parted = { refl };

    ghost few = { ltb-true _ _ refl };
}

/// Nothing may stand as sealed.
#[derive(Drop)]
pub struct Sealed;

impl RefusedTag for Sealed {
    ghost own = { context_specific 0 };

    ghost why = { why.LeftOut };

    ghost honest = { honest_left_out };

    fn tag() -> Tag {
        context_tag(0)
    }

    fn reason() -> Reason {
        Reason::LeftOut
    }
}

/// No octets may stand after 0.
#[derive(Drop)]
pub struct BehindZero;

impl RefusedTag for BehindZero {
    ghost own = { universal 4 };

    ghost why = { why.VersionRule };

    ghost honest = { honest_version };

    fn tag() -> Tag {
        universal_tag(4)
    }

    fn reason() -> Reason {
        Reason::VersionRule
    }
}

impl Defines<NumberAndSealed> for BehindZero {
    ghost path = { 0 ∷ [] };

    ghost octets = { (0 ∷ []) ∷ [] };

    #[tactic(auto, unfolding(x690::specs::Values::leaf_at))]
    fn is_first(earlier: &NumberAndSealed) -> bool {
        match earlier.0.0.contents() {
            [0] => true,
            _ => false,
        }
    }
}

/// The octets are as many as the number has.
#[derive(Drop)]
pub struct AsLong;

impl FieldRules<NumberAndSealed, Octets> for AsLong {
    ghost rule = { length_rule };

    ghost fair = { fair_length };

    ghost honest = { honest_length };

    #[tactic(auto, unfolding(x690::specs::Values::leaf_at))]
    fn judge(earlier: &NumberAndSealed, field: &Octets) -> Option<Reason> {
        if earlier.0.0.contents().len() == field.octets().len() {
            None
        } else {
            Some(Reason::KeyLength)
        }
    }
}

/// A number, and octets that it allows.
pub type Allowed = Sequence<AllowedFields>;
