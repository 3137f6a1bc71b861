//! SET OF (X.690 8.12, 11.6).
ghost use Rattle.x690_laws.proofs.TextsTellApart.{set_one_text};
ghost use Rattle.std.specs.Prelude.{◌≡◌, ◌↔◌, ◌<◌, ◌≤◌, ◌^◌, Err, IfErr, IfOk, IfSome, None, Some, IsSome, OnOk};
ghost use Rattle.std.specs.Prelude.{IsPermutation, IsTrue, length, map, slice_get, true};
ghost use Rattle.std.specs.Option.{option_map};
ghost use Rattle.x690_laws.proofs.TypesClosed.{set_of_closed};
ghost use Rattle.x690.specs.DerTexts.{Ascends, der, texts_of};
ghost use Rattle.x690.specs.Layouts.{universal};
ghost use Rattle.x690.specs.TypeTerms.{SetOfType};
ghost use Rattle.ber_pull.specs.View.{standing, source, Repeats, Uses, Frame};
ghost use Rattle.ber_pull.specs.Standing.{failed_with};
ghost use Rattle.ber_pull.specs.declared.state.Given.{Given};
ghost use Rattle.tlv_core.specs.declared.fault.ReadError.TheVariants.{Memory};
ghost use Rattle.asn_elements.specs.InDer.{BeginsInDer};
ghost use Rattle.asn_elements.specs.Reading.{AnswersValue, read_given};
ghost use Rattle.x690.specs.Values.{SetOf as SetValue, values_of};
ghost use Rattle.asn_elements.specs.Members.{ascends};
ghost use Rattle.asn_elements.proofs.Ascending.{ascends_is};
ghost use Rattle.x690_laws.proofs.TypesOfOneTag.{set_of_fits};
ghost use Rattle.asn_elements.specs.declared.build.BuildError.TheVariants.{Bad, TooBig};

use crate::in_der::judge_set;
use crate::members::{read_members, row_of};
use crate::order::in_order;
use crate::row::{LONGEST, Row, contents_length};
use asn_elements::build::BuildError;
use asn_elements::der_text::DerText;
use asn_elements::element::Element;
use asn_elements::framing::element_size;
use asn_elements::implicit::{ImplicitElement, ImplicitText};
use asn_elements::leaf_reading::expect_tag;
use asn_elements::tags::{is_same_tag, universal_tag};
use ber_pull::pull::Pull;
use std::alloc::Global;
use tlv_core::fault::ReadError;
use tlv_core::limits::Limits;
use tlv_core::reason::Reason;
use tlv_core::sink::{Sink, WriteError};
use tlv_core::source::Source;
use tlv_core::tag::Tag;
use tlv_core::target::Target;

/// A SET OF, its members in the order of their texts (X.690 11.6). Equal members stay, each as often as it came.
#[derive(Drop)]
pub struct SetOf<T: DerText> {
    row: Row<T>,
    ghost in_order: { ascends (map der (map T.value row.items.items)) ≡ true },
}

/// Whether the text of the SET OF of these items is longer than 2^40 octets.
fn is_long<T: DerText>(items: &[T]) -> bool
    ensures { IsTrue result ↔ (2 ^ 40
        < length (der (SetValue (universal 17) (values_of (map T.value items.now))))) }
{
    match contents_length(items) {
        Some(content) => element_size(universal_tag(17), content) > LONGEST,
        None => true,
    }
}

impl<T: DerText> SetOf<T> {
    ghost use Rattle.asn_lists.specs.Containers.{set_items};

    /// The SET OF with these members. They are dropped where it is refused.
    ///
    /// Errors: `TooBig` where its text would be longer than 2^40 octets, `Memory`.
    pub fn from_items(alloc: Global, items: Vec<T>) -> Result<SetOf<T>, BuildError>
        ensures made { IfOk result (λ set. IsPermutation items.items (set_items set)) }
        ensures too_big { (result ≡ Err TooBig)
            ↔ (2 ^ 40 < length (der
            (SetValue (universal 17) (values_of (map T.value items.items))))) }
        ensures never_bad { result ≡ Err Bad → ⊥ }
    {
        if is_long(&items) {
            return Err(BuildError::TooBig);
        }
        let sorted = in_order(alloc, items)?;
        let row = Row::new(alloc, sorted)?;
        Ok(SetOf { row })
    }

    /// The number of members.
    pub fn len(&self) -> usize
        ensures { result ≡ length (set_items self.now) }
    {
        self.row.items.len()
    }

    /// Whether it has no members.
    pub fn is_empty(&self) -> bool
        ensures { IsTrue result ↔ (length (set_items self.now) ≡ 0) }
    {
        self.row.items.is_empty()
    }

    /// The member at this place, counted from 0, in the order of their texts.
    pub fn get(&self, i: usize) -> Option<&T>
        ensures member { option_map (λ r. r.now) result ≡ slice_get (set_items self.now) i }
        ensures in_order { Ascends (map der (map T.value (set_items self.now))) }
    {
        if i < self.row.items.len() {
            Some(&self.row.items[i])
        } else {
            None
        }
    }
}

impl<T: DerText> DerText for SetOf<T> {
    ghost use Rattle.asn_lists.specs.Containers.{set_items};

    ghost value = { λ set. SetValue (universal 17) (values_of (map T.value (set_items set))) };

    ghost one_text = { λ x y. set_one_text T.value T.one_text (universal 17) (set_items x)
        (set_items y) (ascends_is (map der (map T.value (set_items x))) x.in_order)
        (ascends_is (map der (map T.value (set_items y))) y.in_order) };

    fn size(&self) -> u64 {
        self.size_as(universal_tag(17))
    }

    fn put<W: Target>(&self, sink: &mut Sink<'_, W>) -> Result<(), WriteError> {
        self.put_as(sink, universal_tag(17))
    }

    fn octet(&self, i: u64) -> Option<u8> {
        self.octet_as(i, universal_tag(17))
    }
}

impl<T: DerText> ImplicitText for SetOf<T> {
    ghost use Rattle.asn_lists.specs.Containers.{set_items};

    ghost value_as = { λ own set. SetValue own (values_of (map T.value (set_items set))) };

    ghost one_text_as = { λ own x y. set_one_text T.value T.one_text own (set_items x) (set_items y)
        (ascends_is (map der (map T.value (set_items x))) x.in_order)
        (ascends_is (map der (map T.value (set_items y))) y.in_order) };

    fn size_as(&self, tag: Tag) -> u64 {
        self.row.size(tag)
    }

    fn put_as<W: Target>(&self, sink: &mut Sink<'_, W>, tag: Tag) -> Result<(), WriteError> {
        self.row.put(tag, sink)
    }

    fn octet_as(&self, i: u64, tag: Tag) -> Option<u8> {
        self.row.octet(tag, i)
    }
}

impl<T: Element> SetOf<T> {
    ghost use Rattle.asn_lists.specs.Containers.{set_items};

    /// Reads the SET OF that is given, which has at least one member: an empty one is `EmptySet`.
    pub fn read_some<R: Source>(
        alloc: Global,
        pull: &mut Pull<'_, R>,
    ) -> Result<SetOf<T>, ReadError>
        requires { (standing pull.old).error ≡ None → IsSome (standing pull.old).given }
        ensures frame { Frame pull.old pull.new result }
        ensures repeats { Repeats pull.old pull.new result }
        ensures reads { (g : Given) → (standing pull.old).error ≡ None
            → (standing pull.old).given ≡ Some g
            → AnswersValue pull.old pull.new
            (read_given (SetOfType (universal 17) 1 T.type_term) (standing pull.old) g)
            (λ set. SetValue (universal 17) (values_of (map T.value (set_items set)))) result }
        ensures some { IfOk result (λ set. 0 < length (set_items set)) }
        ensures stands { OnOk result (Uses pull.old pull.new) }
    {
        SetOf::read_set(alloc, pull, universal_tag(17), 1)
    }

    /// What stands after the SET OF with at least one member that octets begin with, as `judge` says it.
    pub fn judge_some(octets: &[u8], limits: Limits, left: u8) -> Option<&[u8]>
        ensures { IfSome result (λ rest. BeginsInDer limits.depth left
            (SetOfType (universal 17) 1 T.type_term) octets.now rest.now) }
    {
        let rest = judge_set::<T>(octets, limits, left, universal_tag(17), true)?;
        Some(rest)
    }

    /// Reads the SET OF that is given, under this tag, with at least so many members.
    fn read_set<R: Source>(
        alloc: Global,
        pull: &mut Pull<'_, R>,
        tag: Tag,
        least: usize,
    ) -> Result<SetOf<T>, ReadError>
        requires { (standing pull.old).error ≡ None → IsSome (standing pull.old).given }
        ensures frame { Frame pull.old pull.new result }
        ensures repeats { Repeats pull.old pull.new result }
        ensures reads { (g : Given) → (standing pull.old).error ≡ None
            → (standing pull.old).given ≡ Some g
            → AnswersValue pull.old pull.new
            (read_given (SetOfType tag least T.type_term) (standing pull.old) g)
            (λ set. SetValue tag (values_of (map T.value (set_items set)))) result }
        ensures least { IfOk result (λ set. least ≤ length (set_items set)) }
        ensures stands { OnOk result (Uses pull.old pull.new) }
    {
        let at = expect_tag(pull, tag)?;
        let (items, _end) = read_members(alloc, pull)?;
        if items.len() < least {
            return Err(pull.refuse(at, Reason::EmptySet, None));
        }
        let sorted = put_in_order(alloc, pull, items)?;
        let row = row_of(alloc, pull, sorted)?;
        Ok(SetOf { row })
    }
}

/// The items in the order of their texts; the reader fails where it finds no memory.
fn put_in_order<R: Source, T: DerText>(
    alloc: Global,
    pull: &mut Pull<'_, R>,
    items: Vec<T>,
) -> Result<Vec<T>, ReadError>
    requires fine { (standing pull.old).error ≡ None }
    requires short { length (texts_of (map T.value items.items)) < 2 ^ 63 }
    ensures frame { Frame pull.old pull.new result }
    ensures same { IfOk result (λ sorted. IsPermutation items.items sorted.items) }
    ensures in_order { IfOk result (λ sorted. ascends (map der (map T.value sorted.items)) ≡ true) }
    ensures still { OnOk result (pull.new ≡ pull.old) }
    ensures stops { IfErr result (λ e. (e ≡ Memory) × (source pull.new ≡ source pull.old)
        × (standing pull.new ≡ failed_with e (standing pull.old))) }
{
    match in_order(alloc, items) {
        Ok(sorted) => Ok(sorted),
        Err(_) => Err(pull.no_memory()),
    }
}

impl<T: Element> Element for SetOf<T> {
    ghost type_term = { SetOfType (universal 17) 0 T.type_term };

    ghost closed = { set_of_closed (universal 17) 0 T.type_term };

    #[tactic(auto, unfolding(x690::specs::TypeTerms::fits_tag))]
    fn fits(tag: Tag) -> bool {
        is_same_tag(universal_tag(17), tag)
    }

    fn read<R: Source>(alloc: Global, pull: &mut Pull<'_, R>) -> Result<SetOf<T>, ReadError> {
        SetOf::read_set(alloc, pull, universal_tag(17), 0)
    }

    fn judge(octets: &[u8], limits: Limits, left: u8) -> Option<&[u8]> {
        let rest = judge_set::<T>(octets, limits, left, universal_tag(17), false)?;
        Some(rest)
    }
}

impl<T: Element> ImplicitElement for SetOf<T> {
    ghost type_as = { λ own. SetOfType own 0 T.type_term };

    ghost fits_own = { set_of_fits 0 T.type_term };

    ghost closed_as = { λ own. set_of_closed own 0 T.type_term };

    fn read_as<R: Source>(
        alloc: Global,
        pull: &mut Pull<'_, R>,
        tag: Tag,
    ) -> Result<SetOf<T>, ReadError> {
        SetOf::read_set(alloc, pull, tag, 0)
    }

    fn judge_as(octets: &[u8], limits: Limits, left: u8, tag: Tag) -> Option<&[u8]> {
        let rest = judge_set::<T>(octets, limits, left, tag, false)?;
        Some(rest)
    }
}
