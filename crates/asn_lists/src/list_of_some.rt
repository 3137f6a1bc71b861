//! SEQUENCE OF with at least one member (X.680 26, with SIZE (1..MAX)).
ghost use Rattle.std.specs.Prelude.{◌≡◌, ◌<◌, length, map};
ghost use Rattle.x690.specs.Layouts.{universal};
ghost use Rattle.x690.specs.TypeTerms.{SequenceOfType};
ghost use Rattle.x690.specs.Values.{Sequence, values_of};
ghost use Rattle.x690_laws.proofs.TypesClosed.{sequence_of_closed};
ghost use Rattle.asn_lists.specs.Containers.{list_items};

use crate::in_der::judge_list;
use crate::list::List;
use asn_elements::der_text::DerText;
use asn_elements::element::Element;
use asn_elements::tags::{is_same_tag, universal_tag};
use ber_pull::pull::Pull;
use std::alloc::Global;
use tlv_core::fault::ReadError;
use tlv_core::limits::Limits;
use tlv_core::sink::{Sink, WriteError};
use tlv_core::source::Source;
use tlv_core::tag::Tag;
use tlv_core::target::Target;

/// A SEQUENCE OF with at least one member. Where an empty one is read, `Missing` stands where the first member would.
#[derive(Drop)]
pub struct ListOfSome<T: DerText> {
    items: List<T>,
    ghost some: { 0 < length (list_items items) },
}

impl<T: DerText> ListOfSome<T> {
    /// The members, in order.
    pub fn items(&self) -> &List<T>
        ensures value { result.now ≡ self.now.items }
        ensures some { 0 < length (list_items result.now) }
    {
        &self.items
    }
}

impl<T: DerText> DerText for ListOfSome<T> {
    ghost value = { λ some. Sequence (universal 16)
        (values_of (map T.value (list_items some.items))) };

    ghost one_text = { λ x y. ⟦<List<T> as DerText>⟧.one_text x.items y.items };

    fn size(&self) -> u64 {
        self.items.size()
    }

    fn put<W: Target>(&self, sink: &mut Sink<'_, W>) -> Result<(), WriteError> {
        self.items.put(sink)
    }

    fn octet(&self, i: u64) -> Option<u8> {
        self.items.octet(i)
    }
}

impl<T: Element> Element for ListOfSome<T> {
    ghost type_term = { SequenceOfType (universal 16) 1 T.type_term };

    ghost closed = { sequence_of_closed (universal 16) 1 T.type_term };

    #[tactic(auto, unfolding(x690::specs::TypeTerms::fits_tag))]
    fn fits(tag: Tag) -> bool {
        is_same_tag(universal_tag(16), tag)
    }

    fn read<R: Source>(alloc: Global, pull: &mut Pull<'_, R>) -> Result<ListOfSome<T>, ReadError> {
        let items = List::read_some(alloc, pull)?;
        Ok(ListOfSome { items })
    }

    fn judge(octets: &[u8], limits: Limits, left: u8) -> Option<&[u8]> {
        let rest = judge_list::<T>(octets, limits, left, universal_tag(16), true)?;
        Some(rest)
    }
}
