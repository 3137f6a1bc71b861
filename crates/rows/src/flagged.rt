//! Flagged ::= SEQUENCE { flag BOOLEAN, octets OCTET STRING }, where the octets are none unless the flag is TRUE.
ghost use Rattle.std.proofs.lemmas.Bool.{ltb-true};
ghost use Rattle.std.specs.Prelude.{refl};
ghost use Rattle.rows.specs.Rules.{fair_flag, flag_rule, honest_flag};
ghost use Rattle.asn_fields.specs.Listings.{through};
ghost use Rattle.x690.specs.TypeTerms.{EndOfFields, SequenceType};
ghost use Rattle.x690.specs.Layouts.{universal};

use asn_elements::boolean::Bool;
use asn_elements::octets::Octets;
use asn_fields::dependent::Dependent;
use asn_fields::fields::Next;
use asn_fields::ruled_behind::{FieldRules, RuledBehind};
use asn_fields::sequence::{FieldsText, FirstFields, Required, Sequence, SequenceFields};
use ber_pull::pull::Pull;
use std::alloc::Global;
use tlv_core::fault::ReadError;
use tlv_core::reason::Reason;
use tlv_core::sink::{Sink, WriteError};
use tlv_core::source::Source;
use tlv_core::target::Target;

/// flag, octets.
type Listed = Dependent<Required<Bool>, RuledBehind<Octets, ByFlag>>;

/// flag, octets.
#[derive(Drop)]
pub struct FlaggedFields(Listed);

impl FieldsText for FlaggedFields {
    ghost values = { λ fields. ⟦<Listed as FieldsText>⟧.values fields.0 };

    ghost listing = { through (λ fields. fields.0) ⟦<Listed as FieldsText>⟧.listing };

    fn size(&self) -> u64 {
        self.0.size()
    }

    fn put<W: Target>(&self, sink: &mut Sink<'_, W>) -> Result<(), WriteError> {
        self.0.put(sink)
    }

    fn octet(&self, i: u64) -> Option<u8> {
        self.0.octet(i)
    }
}

impl FirstFields for FlaggedFields {
    fn read_first<R: Source>(
        alloc: Global,
        pull: &mut Pull<'_, R>,
        next: &mut Next,
    ) -> Result<FlaggedFields, ReadError> {
        match <Listed as FirstFields>::read_first(alloc, pull, next) {
            Ok(listed) => Ok(FlaggedFields(listed)),
            Err(error) => Err(error),
        }
    }
}

impl SequenceFields for FlaggedFields {
    ghost type_term = { SequenceType (universal 16) (⟦<Listed as FieldsText>⟧.listing.types EndOfFields) };

    ghost listed = { refl };

    ghost parted = { refl };

    ghost few = { ltb-true _ _ refl };
}

/// The octets are none unless the flag is TRUE.
#[derive(Drop)]
pub struct ByFlag;

impl FieldRules<Required<Bool>, Octets> for ByFlag {
    ghost rule = { flag_rule };

    ghost fair = { fair_flag };

    ghost honest = { honest_flag };

    #[tactic(auto, unfolding(x690::specs::Values::leaf_at))]
    fn judge(earlier: &Required<Bool>, field: &Octets) -> Option<Reason> {
        if earlier.0.value() || field.octets().is_empty() {
            None
        } else {
            Some(Reason::Extra)
        }
    }
}

/// A flag, and octets that go with it.
pub type Flagged = Sequence<FlaggedFields>;
