//! A field that may be absent.
ghost use Rattle.std.specs.Prelude.{◌≡◌, IfSome, List, None, Some, [], false};
ghost use Rattle.std.specs.Option.{option_map};
ghost use Rattle.x690.specs.Fitting.{next_fits};
ghost use Rattle.x690.specs.Layouts.{RawTree};
ghost use Rattle.x690.specs.TypeTerms.{Optional as OptionalField};
ghost use Rattle.asn_fields.specs.FieldsInDer.{FieldsBegin, MayStand};
ghost use Rattle.asn_fields.specs.FieldReadings.{with_field};
ghost use Rattle.asn_fields.specs.ApartLaws.{optional};
ghost use Rattle.asn_fields.specs.Listings.{through};

use crate::field_list::{FieldsText, FirstFields, IndependentFields};
use crate::fields::optional;
use crate::next::Next;
use asn_elements::element::Element;
use asn_elements::tags::tag_of_identifier;
use ber_pull::pull::Pull;
use std::alloc::Global;
use tlv_core::fault::ReadError;
use tlv_core::limits::Limits;
use tlv_core::sink::{Sink, WriteError};
use tlv_core::source::Source;
use tlv_core::target::Target;

/// Whether an element of the type may stand where these octets are, by its tag; `None` where its identifier has more
/// octets than one.
#[inline(always)]
fn begins_as<T: Element>(octets: &[u8]) -> Option<bool>
    ensures { IfSome result (λ begins. begins ≡ false → (trees : List RawTree)
        → MayStand trees octets.now → next_fits T.type_term trees ≡ false) }
{
    let [first, ..] = octets else {
        return Some(false);
    };
    let tag = tag_of_identifier(*first)?;
    Some(T::fits(tag))
}

/// What stands after the field, or where it would stand; `None` says nothing of the octets.
#[inline(always)]
fn judge_optional<T: Element>(octets: &[u8], limits: Limits, left: u8) -> Option<&[u8]>
    ensures { IfSome result (λ rest. FieldsBegin limits.depth left
        (λ more. OptionalField T.type_term more) octets.now rest.now) }
{
    if !begins_as::<T>(octets)? {
        return Some(octets);
    }
    let rest = T::judge(octets, limits, left)?;
    Some(rest)
}

/// A field that may be absent.
#[derive(Drop)]
pub struct Optional<T: Drop>(pub Option<T>);

impl<T: Element> FieldsText for Optional<T> {
    ghost values = { λ field. with_field (option_map T.value field.0) [] };

    ghost listing = { through (λ field. field.0) (optional T.value T.type_term T.one_text) };

    fn size(&self) -> u64 {
        match &self.0 {
            Some(field) => field.size(),
            None => 0,
        }
    }

    fn put<W: Target>(&self, sink: &mut Sink<'_, W>) -> Result<(), WriteError> {
        match &self.0 {
            Some(field) => field.put(sink),
            None => sink.put(&[]),
        }
    }

    fn octet(&self, i: u64) -> Option<u8> {
        match &self.0 {
            Some(field) => field.octet(i),
            None => None,
        }
    }
}

impl<T: Element> IndependentFields for Optional<T> {
    fn read<R: Source>(
        alloc: Global,
        pull: &mut Pull<'_, R>,
        next: &mut Next,
    ) -> Result<Optional<T>, ReadError> {
        let field = optional::<R, T>(alloc, pull, next)?;
        Ok(Optional(field))
    }

    fn judge(octets: &[u8], limits: Limits, left: u8) -> Option<&[u8]> {
        judge_optional::<T>(octets, limits, left)
    }
}

impl<T: Element> FirstFields for Optional<T> {
    fn read_first<R: Source>(
        alloc: Global,
        pull: &mut Pull<'_, R>,
        next: &mut Next,
    ) -> Result<Optional<T>, ReadError> {
        <Optional<T> as IndependentFields>::read(alloc, pull, next)
    }

    fn judge_first(octets: &[u8], limits: Limits, left: u8) -> Option<&[u8]> {
        let rest = judge_optional::<T>(octets, limits, left)?;
        Some(rest)
    }
}
