//! Elements in OCTET STRINGs, and Letter ::= SEQUENCE { flag BOOLEAN, octets OCTET STRING (CONTAINING OCTET STRING) },
//! where what is contained has no octets unless the flag is TRUE.
ghost use Rattle.std.proofs.lemmas.Bool.{ltb-true};
ghost use Rattle.std.specs.Prelude.{refl};
ghost use Rattle.asn_fields.specs.Listings.{through};
ghost use Rattle.x690.specs.TypeTerms.{EndOfFields, SequenceType};
ghost use Rattle.x690.specs.Layouts.{universal};

use crate::flagged::ByFlag;
use asn_elements::boolean::Bool;
use asn_elements::containing::Containing;
use asn_elements::integer::Int;
use asn_elements::octets::Octets;
use asn_fields::fields::Next;
use asn_fields::ruled_containing::JudgedInside;
use asn_fields::sequence::{FieldsText, FirstFields, Required, Sequence, SequenceFields};
use ber_pull::pull::Pull;
use std::alloc::Global;
use tlv_core::fault::ReadError;
use tlv_core::sink::{Sink, WriteError};
use tlv_core::source::Source;
use tlv_core::target::Target;

/// OCTET STRING (CONTAINING INTEGER).
pub type ContainedInteger = Containing<Int>;

/// OCTET STRING (CONTAINING OCTET STRING (CONTAINING INTEGER)).
pub type ContainedTwice = Containing<ContainedInteger>;

/// OCTET STRING (CONTAINING Letter).
pub type ContainedLetter = Containing<Letter>;

/// flag, octets.
type Listed = JudgedInside<Required<Bool>, Octets, ByFlag>;

/// flag, octets.
#[derive(Drop)]
pub struct LetterFields(Listed);

impl FieldsText for LetterFields {
    ghost values = { λ fields. ⟦<Listed as FieldsText>⟧.values fields.0 };

    ghost listing = { through (λ fields. fields.0) ⟦<Listed as FieldsText>⟧.listing };

    fn size(&self) -> u64 {
        self.0.size()
    }

    fn put<W: Target>(&self, sink: &mut Sink<'_, W>) -> Result<(), WriteError> {
        self.0.put(sink)
    }

    fn octet(&self, i: u64) -> Option<u8> {
        self.0.octet(i)
    }
}

impl FirstFields for LetterFields {
    fn read_first<R: Source>(
        alloc: Global,
        pull: &mut Pull<'_, R>,
        next: &mut Next,
    ) -> Result<LetterFields, ReadError> {
        match <Listed as FirstFields>::read_first(alloc, pull, next) {
            Ok(listed) => Ok(LetterFields(listed)),
            Err(error) => Err(error),
        }
    }
}

impl SequenceFields for LetterFields {
    ghost type_term = { SequenceType (universal 16) (⟦<Listed as FieldsText>⟧.listing.types EndOfFields) };

    ghost listed = { refl };

    ghost parted = { refl };

    ghost few = { ltb-true _ _ refl };
}

/// A flag, and inside an OCTET STRING octets that go with it.
pub type Letter = Sequence<LetterFields>;
