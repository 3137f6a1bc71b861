//! Note ::= SEQUENCE { number INTEGER, subject OBJECT IDENTIFIER OPTIONAL, lines SEQUENCE SIZE (1..MAX) OF OCTET STRING
//! }.
ghost use Rattle.std.proofs.lemmas.Bool.{ltb-true};
ghost use Rattle.std.specs.Prelude.{refl};
ghost use Rattle.asn_fields.specs.Listings.{through};
ghost use Rattle.x690.specs.TypeTerms.{EndOfFields, SequenceType};
ghost use Rattle.x690.specs.Layouts.{universal};

use asn_elements::integer::Int;
use asn_elements::octets::Octets;
use asn_fields::fields::Next;
use asn_fields::sequence::{FieldsText, FirstFields, Optional, Required, Sequence, SequenceFields};
use asn_lists::list_of_some::ListOfSome;
use ber_pull::pull::Pull;
use std::alloc::Global;
use tlv_core::fault::ReadError;
use tlv_core::oid::Oid;
use tlv_core::sink::{Sink, WriteError};
use tlv_core::source::Source;
use tlv_core::target::Target;

/// number, subject, lines.
type Listed = (Required<Int>, (Optional<Oid>, Required<ListOfSome<Octets>>));

/// number, subject, lines.
#[derive(Drop)]
pub struct NoteFields(Listed);

impl FieldsText for NoteFields {
    ghost values = { λ fields. ⟦<Listed as FieldsText>⟧.values fields.0 };

    ghost listing = { through (λ fields. fields.0) ⟦<Listed as FieldsText>⟧.listing };

    fn size(&self) -> u64 {
        self.0.size()
    }

    fn put<W: Target>(&self, sink: &mut Sink<'_, W>) -> Result<(), WriteError> {
        self.0.put(sink)
    }

    fn octet(&self, i: u64) -> Option<u8> {
        self.0.octet(i)
    }
}

impl FirstFields for NoteFields {
    fn read_first<R: Source>(
        alloc: Global,
        pull: &mut Pull<'_, R>,
        next: &mut Next,
    ) -> Result<NoteFields, ReadError> {
        match <Listed as FirstFields>::read_first(alloc, pull, next) {
            Ok(listed) => Ok(NoteFields(listed)),
            Err(error) => Err(error),
        }
    }
}

impl SequenceFields for NoteFields {
    ghost type_term = { SequenceType (universal 16) (⟦<Listed as FieldsText>⟧.listing.types EndOfFields) };

    ghost listed = { refl };

    ghost parted = { refl };

    ghost few = { ltb-true _ _ refl };
}

/// A note.
pub type Note = Sequence<NoteFields>;
