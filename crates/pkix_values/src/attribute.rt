//! Attribute of RFC 2986 section 4.1.
ghost use Rattle.std.proofs.lemmas.Bool.{ltb-true};
ghost use Rattle.asn_lists.specs.Containers.{set_items};
ghost use Rattle.std.specs.Prelude.{◌≡◌, ◌<◌, length, refl};
ghost use Rattle.pkix_definitions.specs.DocumentTypes.{Attribute as AttributeType};
ghost use Rattle.asn_fields.specs.Listings.{through};
ghost use Rattle.pkix_definitions.proofs.Sequences.{attribute_is};

use crate::set_of_some::SetOfSome;
use asn_fields::fields::Next;
use asn_fields::sequence::{FieldsText, FirstFields, Required, Sequence, SequenceFields};
use asn_lists::set_of::SetOf;
use asn_open_values::any::Any;
use ber_pull::pull::Pull;
use std::alloc::Global;
use tlv_core::fault::ReadError;
use tlv_core::limits::Limits;
use tlv_core::oid::Oid;
use tlv_core::sink::{Sink, WriteError};
use tlv_core::source::Source;
use tlv_core::target::Target;

/// type, values.
type Listed = (Required<Oid>, Required<SetOfSome<Any>>);

/// type, values.
#[derive(Drop)]
pub struct AttributeFields(Listed);

impl AttributeFields {
    ghost use Rattle.pkix_values.specs.Attributes.{attribute_type_of, attribute_values_of};

    /// Its type.
    pub fn id(&self) -> &Oid
        ensures { result.now ≡ attribute_type_of self.now }
    {
        &self.0.0.0
    }

    /// Its values, in the order of their texts.
    pub fn values(&self) -> &SetOf<Any>
        ensures value { result.now ≡ attribute_values_of self.now }
        ensures some { 0 < length (set_items result.now) }
    {
        self.0.1.0.items()
    }
}

impl FieldsText for AttributeFields {
    ghost values = { λ fields. ⟦<Listed as FieldsText>⟧.values fields.0 };

    ghost listing = { through (λ fields. fields.0) ⟦<Listed as FieldsText>⟧.listing };

    fn size(&self) -> u64 {
        self.0.size()
    }

    fn put<W: Target>(&self, sink: &mut Sink<'_, W>) -> Result<(), WriteError> {
        self.0.put(sink)
    }

    fn octet(&self, i: u64) -> Option<u8> {
        self.0.octet(i)
    }
}

impl FirstFields for AttributeFields {
    fn read_first<R: Source>(
        alloc: Global,
        pull: &mut Pull<'_, R>,
        next: &mut Next,
    ) -> Result<AttributeFields, ReadError> {
        match <Listed as FirstFields>::read_first(alloc, pull, next) {
            Ok(listed) => Ok(AttributeFields(listed)),
            Err(error) => Err(error),
        }
    }

    fn judge_first(octets: &[u8], limits: Limits, left: u8) -> Option<&[u8]> {
        let rest = <Listed as FirstFields>::judge_first(octets, limits, left)?;
        Some(rest)
    }
}

impl SequenceFields for AttributeFields {
    ghost type_term = { AttributeType };

    ghost listed = { attribute_is };

    ghost parted = { refl };

    ghost few = { ltb-true _ _ refl };
}

/// An attribute: of what type it is, and its values, of which there is at least one.
pub type Attribute = Sequence<AttributeFields>;
