//! Sample ::= SEQUENCE { name OBJECT IDENTIFIER, counts SET OF INTEGER }, a type that no library here knows.
ghost use Rattle.std.proofs.lemmas.Bool.{ltb-true};
ghost use Rattle.std.specs.Prelude.{refl};
ghost use Rattle.asn_fields.specs.Listings.{through};
ghost use Rattle.x690_laws.proofs.TypesClosed.{sequence_closed};
ghost use Rattle.rows.specs.Samples.{SampleType};
ghost use Rattle.x690.specs.TypeTerms.{EndOfFields, SequenceType};
ghost use Rattle.x690.specs.Layouts.{universal};

use asn_elements::der_text::DerText;
use asn_elements::element::Element;
use asn_elements::integer::Int;
use asn_fields::fields::Next;
use asn_fields::sequence::{FieldsText, FirstFields, Required, Sequence, SequenceFields};
use asn_lists::set_of::SetOf;
use ber_pull::pull::Pull;
use std::alloc::Global;
use tlv_core::fault::ReadError;
use tlv_core::oid::Oid;
use tlv_core::sink::{Sink, WriteError};
use tlv_core::source::Source;
use tlv_core::tag::Tag;
use tlv_core::target::Target;

/// name, counts.
type Listed = (Required<Oid>, Required<SetOf<Int>>);

/// name, counts.
#[derive(Drop)]
pub struct SampleFields(Listed);

impl FieldsText for SampleFields {
    ghost values = { λ fields. ⟦<Listed as FieldsText>⟧.values fields.0 };

    ghost listing = { through (λ fields. fields.0) ⟦<Listed as FieldsText>⟧.listing };

    fn size(&self) -> u64 {
        self.0.size()
    }

    fn put<W: Target>(&self, sink: &mut Sink<'_, W>) -> Result<(), WriteError> {
        self.0.put(sink)
    }

    fn octet(&self, i: u64) -> Option<u8> {
        self.0.octet(i)
    }
}

impl FirstFields for SampleFields {
    fn read_first<R: Source>(
        alloc: Global,
        pull: &mut Pull<'_, R>,
        next: &mut Next,
    ) -> Result<SampleFields, ReadError> {
        match <Listed as FirstFields>::read_first(alloc, pull, next) {
            Ok(listed) => Ok(SampleFields(listed)),
            Err(error) => Err(error),
        }
    }
}

impl SequenceFields for SampleFields {
    ghost type_term = { SequenceType (universal 16) (⟦<Listed as FieldsText>⟧.listing.types EndOfFields) };

    ghost listed = { refl };

    ghost parted = { refl };

    ghost few = { ltb-true _ _ refl };
}

/// What was counted, and how often each time.
#[derive(Drop)]
pub struct Sample(Sequence<SampleFields>);

impl DerText for Sample {
    ghost value = { λ x. ⟦<Sequence<SampleFields> as DerText>⟧.value x.0 };

    ghost one_text = { λ x y. ⟦<Sequence<SampleFields> as DerText>⟧.one_text x.0 y.0 };

    fn size(&self) -> u64 {
        self.0.size()
    }

    fn put<W: Target>(&self, sink: &mut Sink<'_, W>) -> Result<(), WriteError> {
        self.0.put(sink)
    }

    fn octet(&self, i: u64) -> Option<u8> {
        self.0.octet(i)
    }
}

impl Element for Sample {
    ghost type_term = { SampleType };

    ghost closed = { sequence_closed _ _ };

    fn fits(tag: Tag) -> bool {
        Sequence::<SampleFields>::fits(tag)
    }

    fn read<R: Source>(alloc: Global, pull: &mut Pull<'_, R>) -> Result<Sample, ReadError> {
        match Sequence::<SampleFields>::read(alloc, pull) {
            Ok(fields) => Ok(Sample(fields)),
            Err(error) => Err(error),
        }
    }
}
