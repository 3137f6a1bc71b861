//! A BOOLEAN that is FALSE where it is absent (X.690 11.5).
ghost use Rattle.std.specs.Prelude.{◌≡◌, ◌<◌, ◌∷◌, IfSome, List, None, Some, [], false, ℕ};
ghost use Rattle.std.specs.Option.{option_map};
ghost use Rattle.x690.specs.DerTexts.{texts_of};
ghost use Rattle.x690.specs.Contents.{Boolean};
ghost use Rattle.x690.specs.Fitting.{next_fits};
ghost use Rattle.x690.specs.Layouts.{RawTree, universal};
ghost use Rattle.x690.specs.TypeTerms.{Default, LeafType};
ghost use Rattle.asn_fields.specs.FieldsInDer.{FieldsBegin, MayStand};
ghost use Rattle.asn_fields.specs.FieldReadings.{but_default, with_field};
ghost use Rattle.asn_fields.specs.Fields.{unless_false};
ghost use Rattle.asn_fields.specs.ApartLaws.{flag};
ghost use Rattle.asn_fields.specs.Listings.{through};

use crate::field_list::{FieldsText, FirstFields, IndependentFields};
use crate::fields::optional;
use crate::next::Next;
use asn_elements::boolean::Bool;
use asn_elements::der_text::DerText;
use asn_elements::tags::{is_same_tag, tag_of_identifier, universal_tag};
use ber_pull::pull::Pull;
use std::alloc::Global;
use tlv_core::fault::ReadError;
use tlv_core::limits::Limits;
use tlv_core::sink::{Sink, WriteError};
use tlv_core::source::Source;
use tlv_core::target::Target;

/// A BOOLEAN that is FALSE where it is absent; in DER it isn't there then (X.690 11.5).
#[derive(Clone, Copy)]
pub struct DefaultFalse(pub bool);

/// Whether the BOOLEAN is there and TRUE.
fn is_true(field: Option<Bool>) -> bool
    ensures { unless_false result ≡ but_default (universal 1) (0 ∷ [])
        (option_map (⟦<Bool as DerText>⟧.value) field) }
{
    match field {
        Some(b) => b.value(),
        None => false,
    }
}

/// Whether a BOOLEAN may stand where these octets are, by its tag; `None` where its identifier has more octets than
/// one.
fn begins_as_boolean(octets: &[u8]) -> Option<bool>
    ensures { IfSome result (λ begins. begins ≡ false → (trees : List RawTree)
        → MayStand trees octets.now → next_fits (LeafType (universal 1) Boolean) trees ≡ false) }
{
    let [first, ..] = octets else {
        return Some(false);
    };
    let tag = tag_of_identifier(*first)?;
    Some(is_same_tag(universal_tag(1), tag))
}

/// What stands after the BOOLEAN that octets begin with, where that is TRUE in DER.
fn true_in_der(octets: &[u8]) -> Option<&[u8]>
    ensures { IfSome result (λ rest. octets.now ≡ 1 ∷ 1 ∷ 255 ∷ rest.now) }
{
    let [identifier, length, contents, rest @ ..] = octets else {
        return None;
    };
    if *identifier != 1 || *length != 1 || *contents != 255 {
        return None;
    }
    Some(rest)
}

/// What stands after the BOOLEAN, or where it would stand; `None` says nothing of the octets.
fn judge_flag(octets: &[u8]) -> Option<&[u8]>
    ensures { IfSome result (λ rest. (limit left : ℕ) → FieldsBegin limit left
        (λ more. Default (universal 1) (0 ∷ []) (LeafType (universal 1) Boolean) more) octets.now
        rest.now) }
{
    if !begins_as_boolean(octets)? {
        return Some(octets);
    }
    let rest = true_in_der(octets)?;
    Some(rest)
}

impl DefaultFalse {
    /// Its text in DER.
    pub(crate) fn text(&self) -> &'static [u8]
        ensures { result.now ≡ texts_of (with_field (unless_false self.now.0) []) }
    {
        if self.0 { &[0x01, 0x01, 0xFF] } else { &[] }
    }
}

impl FieldsText for DefaultFalse {
    ghost values = { λ field. with_field (unless_false field.0) [] };

    ghost listing = { through (λ field. field.0) flag };

    fn size(&self) -> u64 {
        self.text().len() as u64
    }

    fn put<W: Target>(&self, sink: &mut Sink<'_, W>) -> Result<(), WriteError> {
        sink.put(self.text())
    }

    fn octet(&self, i: u64) -> Option<u8> {
        if i < FieldsText::size(self) {
            Some(self.text()[i as usize])
        } else {
            None
        }
    }
}

impl IndependentFields for DefaultFalse {
    fn read<R: Source>(
        alloc: Global,
        pull: &mut Pull<'_, R>,
        next: &mut Next,
    ) -> Result<DefaultFalse, ReadError> {
        let field = optional::<R, Bool>(alloc, pull, next)?;
        Ok(DefaultFalse(is_true(field)))
    }

    fn judge(octets: &[u8], _limits: Limits, _left: u8) -> Option<&[u8]> {
        let rest = judge_flag(octets)?;
        Some(rest)
    }
}

impl FirstFields for DefaultFalse {
    fn read_first<R: Source>(
        alloc: Global,
        pull: &mut Pull<'_, R>,
        next: &mut Next,
    ) -> Result<DefaultFalse, ReadError> {
        <DefaultFalse as IndependentFields>::read(alloc, pull, next)
    }

    fn judge_first(octets: &[u8], _limits: Limits, _left: u8) -> Option<&[u8]> {
        let rest = judge_flag(octets)?;
        Some(rest)
    }
}
