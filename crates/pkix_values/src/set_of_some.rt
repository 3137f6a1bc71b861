//! SET OF with at least one member (X.680 28, with SIZE (1..MAX)).
ghost use Rattle.std.specs.Prelude.{◌≡◌, ◌<◌, length, map};
ghost use Rattle.x690.specs.UniversalTypes.{set_of_some};
ghost use Rattle.x690.specs.Layouts.{universal};
ghost use Rattle.x690.specs.Values.{SetOf as SetValue, values_of};
ghost use Rattle.asn_lists.specs.Containers.{set_items};
ghost use Rattle.x690_laws.proofs.TypesClosed.{set_of_closed};

use asn_elements::der_text::DerText;
use asn_elements::element::Element;
use asn_elements::tags::{is_same_tag, universal_tag};
use asn_lists::set_of::SetOf;
use ber_pull::pull::Pull;
use std::alloc::Global;
use tlv_core::fault::ReadError;
use tlv_core::limits::Limits;
use tlv_core::sink::{Sink, WriteError};
use tlv_core::source::Source;
use tlv_core::tag::Tag;
use tlv_core::target::Target;

/// A SET OF with at least one member.
#[derive(Drop)]
pub struct SetOfSome<T: DerText> {
    items: SetOf<T>,
    ghost some: { 0 < length (set_items items) },
}

impl<T: DerText> SetOfSome<T> {
    ghost use Rattle.pkix_values.specs.SetsOfSome.{some_items};

    /// The members.
    pub fn items(&self) -> &SetOf<T>
        ensures value { result.now ≡ some_items self.now }
        ensures some { 0 < length (set_items result.now) }
    {
        &self.items
    }
}

impl<T: DerText> DerText for SetOfSome<T> {
    ghost use Rattle.pkix_values.specs.SetsOfSome.{some_items};

    ghost value = { λ some. SetValue (universal 17)
        (values_of (map T.value (set_items (some_items some)))) };

    ghost one_text = { λ x y. ⟦<SetOf<T> as DerText>⟧.one_text (some_items x)
        (some_items y) };

    fn size(&self) -> u64 {
        self.items.size()
    }

    fn put<W: Target>(&self, sink: &mut Sink<'_, W>) -> Result<(), WriteError> {
        self.items.put(sink)
    }

    fn octet(&self, i: u64) -> Option<u8> {
        self.items.octet(i)
    }
}

impl<T: Element> Element for SetOfSome<T> {
    ghost type_term = { set_of_some T.type_term };

    ghost closed = { set_of_closed (universal 17) 1 T.type_term };

    #[tactic(auto, unfolding(x690::specs::TypeTerms::fits_tag))]
    fn fits(tag: Tag) -> bool {
        is_same_tag(universal_tag(17), tag)
    }

    fn read<R: Source>(alloc: Global, pull: &mut Pull<'_, R>) -> Result<SetOfSome<T>, ReadError> {
        let items = SetOf::read_some(alloc, pull)?;
        Ok(SetOfSome { items })
    }

    fn judge(octets: &[u8], limits: Limits, left: u8) -> Option<&[u8]> {
        let rest = SetOf::<T>::judge_some(octets, limits, left)?;
        Some(rest)
    }
}
