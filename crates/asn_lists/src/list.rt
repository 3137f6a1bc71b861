//! SEQUENCE OF (X.690 8.10).
ghost use Rattle.x690_laws.proofs.TextsTellApart.{list_one_text};
ghost use Rattle.std.specs.Prelude.{◌≡◌, ◌↔◌, ◌+◌, ◌<◌, ◌≤◌, ◌^◌, IfOk, None, Some, IsSome, IsTrue, OnOk, length};
ghost use Rattle.std.specs.Prelude.{map, slice_get};
ghost use Rattle.std.specs.Option.{option_map};
ghost use Rattle.tlv_core.specs.Sinks.{count, Puts};
ghost use Rattle.x690_laws.proofs.TypesClosed.{sequence_of_closed};
ghost use Rattle.x690.specs.DerTexts.{der};
ghost use Rattle.x690.specs.Layouts.{universal};
ghost use Rattle.x690.specs.TypeTerms.{SequenceOfType};
ghost use Rattle.ber_pull.specs.View.{standing, Repeats, Uses, Frame};
ghost use Rattle.ber_pull.specs.declared.state.Given.{Given};
ghost use Rattle.asn_elements.specs.Reading.{AnswersValue, read_given};
ghost use Rattle.x690.specs.Values.{Sequence, values_of};

use crate::in_der::judge_list;
use crate::members::{read_members, row_of};
use crate::row::Row;
use asn_elements::der_text::DerText;
use asn_elements::element::Element;
use asn_elements::leaf_reading::expect_tag;
use asn_elements::tags::{is_same_tag, universal_tag};
use ber_pull::pull::Pull;
use std::alloc::Global;
use tlv_core::fault::ReadError;
use tlv_core::limits::Limits;
use tlv_core::reason::Reason;
use tlv_core::sink::{Sink, WriteError};
use tlv_core::source::Source;
use tlv_core::tag::Tag;
use tlv_core::target::Target;

/// A SEQUENCE OF, its members in order.
#[derive(Drop)]
pub struct List<T: DerText> {
    row: Row<T>,
}

ghost use Rattle.asn_lists.specs.Containers.{list_items};

impl<T: DerText> List<T> {
    /// The number of members.
    pub fn len(&self) -> usize
        ensures { result ≡ length (list_items self.now) }
    {
        self.row.items.len()
    }

    /// Whether it has no members.
    pub fn is_empty(&self) -> bool
        ensures { IsTrue result ↔ (length (list_items self.now) ≡ 0) }
    {
        self.row.items.is_empty()
    }

    /// The member at this place, counted from 0.
    pub fn get(&self, i: usize) -> Option<&T>
        ensures { option_map (λ r. r.now) result ≡ slice_get (list_items self.now) i }
    {
        if i < self.row.items.len() {
            Some(&self.row.items[i])
        } else {
            None
        }
    }

    fn size_as(&self, tag: Tag) -> u64
        ensures { result ≡ length (der
            (Sequence tag (values_of (map T.value (list_items self.now))))) }
    {
        self.row.size(tag)
    }

    fn put_as<W: Target>(&self, sink: &mut Sink<'_, W>, tag: Tag) -> Result<(), WriteError>
        requires { count sink.old + length
            (der (Sequence tag (values_of (map T.value (list_items self.now))))) < 2 ^ 64 }
        ensures { Puts (der (Sequence tag (values_of (map T.value (list_items self.now))))) sink.old
            sink.new result }
    {
        self.row.put(tag, sink)
    }

    fn octet_as(&self, i: u64, tag: Tag) -> Option<u8>
        ensures { result ≡ slice_get (der
            (Sequence tag (values_of (map T.value (list_items self.now))))) i }
    {
        self.row.octet(tag, i)
    }
}

impl<T: DerText> DerText for List<T> {
    ghost value = { λ list. Sequence (universal 16) (values_of (map T.value (list_items list))) };

    ghost one_text = { λ x y. list_one_text T.value T.one_text (universal 16) (list_items x)
        (list_items y) };

    fn size(&self) -> u64 {
        self.size_as(universal_tag(16))
    }

    fn put<W: Target>(&self, sink: &mut Sink<'_, W>) -> Result<(), WriteError> {
        self.put_as(sink, universal_tag(16))
    }

    fn octet(&self, i: u64) -> Option<u8> {
        self.octet_as(i, universal_tag(16))
    }
}

impl<T: Element> List<T> {
    /// Reads the list that is given, which has at least one member: in an empty one `Missing` stands where the first
    /// would.
    pub fn read_some<R: Source>(alloc: Global, pull: &mut Pull<'_, R>) -> Result<List<T>, ReadError>
        requires { (standing pull.old).error ≡ None → IsSome (standing pull.old).given }
        ensures frame { Frame pull.old pull.new result }
        ensures repeats { Repeats pull.old pull.new result }
        ensures reads { (g : Given) → (standing pull.old).error ≡ None
            → (standing pull.old).given ≡ Some g
            → AnswersValue pull.old pull.new
            (read_given (SequenceOfType (universal 16) 1 T.type_term) (standing pull.old) g)
            (λ list. Sequence (universal 16) (values_of (map T.value (list_items list)))) result }
        ensures some { IfOk result (λ list. 0 < length (list_items list)) }
        ensures stands { OnOk result (Uses pull.old pull.new) }
    {
        read_list(alloc, pull, universal_tag(16), 1)
    }
}

/// Reads the list that is given, under this tag, with at least so many members.
fn read_list<R: Source, T: Element>(
    alloc: Global,
    pull: &mut Pull<'_, R>,
    tag: Tag,
    least: usize,
) -> Result<List<T>, ReadError>
    requires { (standing pull.old).error ≡ None → IsSome (standing pull.old).given }
    ensures frame { Frame pull.old pull.new result }
    ensures repeats { Repeats pull.old pull.new result }
    ensures reads { (g : Given) → (standing pull.old).error ≡ None
        → (standing pull.old).given ≡ Some g
        → AnswersValue pull.old pull.new
        (read_given (SequenceOfType tag least T.type_term) (standing pull.old) g)
        (λ list. Sequence tag (values_of (map T.value (list_items list)))) result }
    ensures least { IfOk result (λ list. least ≤ length (list_items list)) }
    ensures stands { OnOk result (Uses pull.old pull.new) }
{
    expect_tag(pull, tag)?;
    let (items, at) = read_members(alloc, pull)?;
    if items.len() < least {
        return Err(pull.refuse(at, Reason::Missing, None));
    }
    let row = row_of(alloc, pull, items)?;
    Ok(List { row })
}

impl<T: Element> Element for List<T> {
    ghost type_term = { SequenceOfType (universal 16) 0 T.type_term };

    ghost closed = { sequence_of_closed (universal 16) 0 T.type_term };

    #[tactic(auto, unfolding(x690::specs::TypeTerms::fits_tag))]
    fn fits(tag: Tag) -> bool {
        is_same_tag(universal_tag(16), tag)
    }

    fn read<R: Source>(alloc: Global, pull: &mut Pull<'_, R>) -> Result<List<T>, ReadError> {
        read_list(alloc, pull, universal_tag(16), 0)
    }

    fn judge(octets: &[u8], limits: Limits, left: u8) -> Option<&[u8]> {
        let rest = judge_list::<T>(octets, limits, left, universal_tag(16), false)?;
        Some(rest)
    }
}
