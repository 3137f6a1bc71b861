//! A field that is due.
ghost use Rattle.std.specs.Prelude.{◌∷◌, []};
ghost use Rattle.asn_fields.specs.ApartLaws.{required};
ghost use Rattle.asn_fields.specs.Listings.{through};

use crate::field_list::{FieldsText, FirstFields, IndependentFields};
use crate::fields::due;
use crate::next::Next;
use asn_elements::element::Element;
use ber_pull::pull::Pull;
use std::alloc::Global;
use tlv_core::fault::ReadError;
use tlv_core::limits::Limits;
use tlv_core::sink::{Sink, WriteError};
use tlv_core::source::Source;
use tlv_core::target::Target;

/// A field that is due.
#[derive(Drop)]
pub struct Required<T: Drop>(pub T);

impl<T: Element> FieldsText for Required<T> {
    ghost values = { λ field. T.value field.0 ∷ [] };

    ghost listing = { through (λ field. field.0) (required T.value T.type_term T.one_text) };

    fn size(&self) -> u64 {
        self.0.size()
    }

    fn put<W: Target>(&self, sink: &mut Sink<'_, W>) -> Result<(), WriteError> {
        self.0.put(sink)
    }

    fn octet(&self, i: u64) -> Option<u8> {
        self.0.octet(i)
    }
}

impl<T: Element> IndependentFields for Required<T> {
    fn read<R: Source>(
        alloc: Global,
        pull: &mut Pull<'_, R>,
        next: &mut Next,
    ) -> Result<Required<T>, ReadError> {
        let field = due::<R, T>(alloc, pull, next)?;
        Ok(Required(field))
    }

    fn judge(octets: &[u8], limits: Limits, left: u8) -> Option<&[u8]> {
        let rest = T::judge(octets, limits, left)?;
        Some(rest)
    }
}

impl<T: Element> FirstFields for Required<T> {
    fn read_first<R: Source>(
        alloc: Global,
        pull: &mut Pull<'_, R>,
        next: &mut Next,
    ) -> Result<Required<T>, ReadError> {
        <Required<T> as IndependentFields>::read(alloc, pull, next)
    }

    fn judge_first(octets: &[u8], limits: Limits, left: u8) -> Option<&[u8]> {
        let rest = T::judge(octets, limits, left)?;
        Some(rest)
    }
}
