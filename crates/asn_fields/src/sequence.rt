//! SEQUENCEs by the list of their fields, in the order of the ASN.1 (X.690 8.9).
//!
//! `(Required<Oid>, Optional<Any>)` are the fields of `SEQUENCE { algorithm OBJECT IDENTIFIER, parameters ANY OPTIONAL
//! }`; more of them are pairs in pairs, `(A, (B, C))`. What may stand in such a list is passed on here. A type round
//! such a list has names for the fields, and `Sequence` of it is the SEQUENCE.
ghost use Rattle.std.proofs.Common.{subst, sym};
ghost use Rattle.std.specs.Prelude.{◌≡◌, ◌*◌, ◌<◌, ◌^◌, ◌≤◌, IfOk, IfSome, IsSome, None, OnOk, length, true};
ghost use Rattle.x690.specs.DerTexts.{texts_of};
ghost use Rattle.x690.specs.Layouts.{universal};
ghost use Rattle.x690.specs.TypeTerms.{EndOfFields, SequenceType, TypeTerm};
ghost use Rattle.x690.specs.ReadTypes.{IsClosed};
ghost use Rattle.x690.specs.Values.{Sequence as SequenceValue, values_of};
ghost use Rattle.x690_laws.proofs.TypesClosed.{sequence_closed};
ghost use Rattle.ber_pull.specs.View.{standing, Repeats, Uses, Frame};
ghost use Rattle.asn_elements.specs.InDer.{BeginsInDer};
ghost use Rattle.asn_fields.specs.Apart.{apart};
ghost use Rattle.asn_fields.specs.ApartLaws.{sequence_one_text};
ghost use Rattle.asn_fields.specs.Fields.{AnswersSequence};

pub use crate::default_false::DefaultFalse;
pub use crate::field_list::{FieldsText, FirstFields, IndependentFields};
use crate::fields::{begin, end};
pub use crate::optional::Optional;
pub use crate::required::Required;
use crate::sequence_text::{put_sequence, sequence_octet, sequence_size};
use asn_elements::der_text::DerText;
use asn_elements::element::Element;
use asn_elements::in_der::element_in_der;
use asn_elements::tags::{is_same_tag, universal_tag};
use ber_pull::pull::Pull;
use std::alloc::Global;
use std::ops::Deref;
use tlv_core::fault::ReadError;
use tlv_core::limits::Limits;
use tlv_core::sink::{Sink, WriteError};
use tlv_core::source::Source;
use tlv_core::tag::Tag;
use tlv_core::target::Target;

/// Fields that are all those of a SEQUENCE.
pub trait SequenceFields: FirstFields {
    /// The type that they are the fields of.
    ghost type_term: { TypeTerm };

    /// It is the SEQUENCE of them.
    ghost listed: { type_term ≡ SequenceType (universal 16) (Self.FieldsText.listing.types EndOfFields) };

    /// None that may be absent begins as what may follow it.
    ghost parted: { apart (Self.FieldsText.listing.types EndOfFields) ≡ true };

    /// They are few.
    ghost few: { Self.FieldsText.listing.most < 2 ^ 31 };
}

/// A SEQUENCE of these fields, whose readers are its own.
#[derive(Drop)]
pub struct Sequence<K: SequenceFields> {
    fields: K,
    ghost known: { K.FieldsText.listing.known fields ≡ true },
    ghost parted: { apart (K.FieldsText.listing.types EndOfFields) ≡ true },
    ghost small: { length (texts_of (K.FieldsText.values fields)) < 2 ^ 63 },
}

impl<K: SequenceFields> Deref for Sequence<K> {
    type Target = K;

    fn deref(&self) -> &K
        ensures { result.now ≡ self.now.fields }
    {
        &self.fields
    }
}

impl<K: SequenceFields> DerText for Sequence<K> {
    ghost value = { λ r. SequenceValue (universal 16)
        (values_of (K.FieldsText.values r.fields)) };

    ghost one_text = { λ x y. sequence_one_text K.FieldsText.listing x.parted (universal 16)
        x.fields y.fields x.known y.known };

    fn size(&self) -> u64 {
        sequence_size(universal_tag(16), &self.fields)
    }

    fn put<W: Target>(&self, sink: &mut Sink<'_, W>) -> Result<(), WriteError> {
        put_sequence(universal_tag(16), &self.fields, sink)
    }

    fn octet(&self, i: u64) -> Option<u8> {
        sequence_octet(universal_tag(16), &self.fields, i)
    }
}

impl<K: SequenceFields> Element for Sequence<K> {
    ghost type_term = { K.type_term };

    ghost closed = { subst IsClosed (sym K.listed)
        (sequence_closed (universal 16) (K.FieldsText.listing.types EndOfFields)) };

    #[tactic(auto, unfolding(x690::specs::TypeTerms::fits_tag))]
    fn fits(tag: Tag) -> bool {
        is_same_tag(universal_tag(16), tag)
    }

    fn read<R: Source>(alloc: Global, pull: &mut Pull<'_, R>) -> Result<Sequence<K>, ReadError> {
        let fields = read_sequence_as::<R, K>(alloc, pull, universal_tag(16))?;
        Ok(Sequence { fields })
    }

    fn judge(octets: &[u8], limits: Limits, left: u8) -> Option<&[u8]> {
        let rest = judge_sequence::<K>(octets, limits, left, universal_tag(16))?;
        Some(rest)
    }
}

/// Reads the SEQUENCE that is given, of these fields and no others, under this tag.
///
/// Faults: those of `fields::begin`, of each field, and of `fields::end`.
pub fn read_sequence_as<R: Source, F: FirstFields>(
    alloc: Global,
    pull: &mut Pull<'_, R>,
    tag: Tag,
) -> Result<F, ReadError>
    requires { (standing pull.old).error ≡ None → IsSome (standing pull.old).given }
    ensures frame { Frame pull.old pull.new result }
    ensures repeats { Repeats pull.old pull.new result }
    ensures reads { AnswersSequence pull.old pull.new tag (F.listing.types EndOfFields) F.values result }
    ensures short { IfOk result (λ fields. length (texts_of (F.values fields)) ≤ F.listing.most * 2 ^ 32) }
    ensures known { IfOk result (λ fields. F.listing.known fields ≡ true) }
    ensures stands { OnOk result (Uses pull.old pull.new) }
{
    let mut next = begin(pull, tag)?;
    let fields = F::read_first(alloc, pull, &mut next)?;
    end(pull, next)?;
    Ok(fields)
}

/// What stands after the SEQUENCE of these fields and no others, under this tag, that octets begin with, where it is in
/// DER as it stands, with no more than `left` containers in each other.
pub fn judge_sequence<F: FirstFields>(
    octets: &[u8],
    limits: Limits,
    left: u8,
    tag: Tag,
) -> Option<&[u8]>
    ensures { IfSome result (λ rest. BeginsInDer limits.depth left
        (SequenceType tag (F.listing.types EndOfFields)) octets.now rest.now) }
{
    if left == 0 {
        return None;
    }
    let (contents, rest) = element_in_der(octets, tag, true)?;
    let behind = F::judge_first(contents, limits, left - 1)?;
    if !behind.is_empty() {
        return None;
    }
    Some(rest)
}
