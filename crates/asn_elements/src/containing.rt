//! OCTET STRINGs that contain an element (X.690 8.7, X.682 11).
ghost use Rattle.x690_laws.proofs.TextsTellApart.{leaf_one_text};
ghost use Rattle.std.specs.Prelude.{◌≡◌, ◌+◌, ◌<◌, ◌^◌, List, [], IfErr, IfOk, IfSome, IsSome, None, Ok, OnOk, false};
ghost use Rattle.std.specs.Prelude.{length, refl, slice_get, ℕ};
ghost use Rattle.tlv_core.specs.Limits.{Limits as Allowed};
ghost use Rattle.tlv_core.specs.Sinks.{count, Puts};
ghost use Rattle.x690.specs.DerTexts.{der};
ghost use Rattle.x690.specs.Layouts.{universal};
ghost use Rattle.x690.specs.TypeTerms.{ContainingType, no_rule};
ghost use Rattle.x690.specs.Values.{Leaf};
ghost use Rattle.ber_pull.specs.View.{standing, Repeats, Unmoved, Uses, Frame};
ghost use Rattle.asn_elements.specs.ContainingClosed.{containing_closed};
ghost use Rattle.asn_elements.specs.Contained.{AnswersContained, CameInside};
ghost use Rattle.asn_elements.specs.InDer.{ContainsInDer};
ghost use Rattle.asn_elements.specs.Reading.{AnswersValue};
ghost use Rattle.asn_elements.specs.Whole.{IsFailedRead, read_inside};

use crate::der_text::DerText;
use crate::element::Element;
use crate::framing::{Stands, element_size, find_octet, put_header};
use crate::in_der::element_in_der;
use crate::leaf_reading::{SimpleType, expect_tag, read_leaf_into};
use crate::tags::{is_same_tag, universal_tag};
use crate::whole::read_whole;
use ber_pull::pull::Pull;
use std::alloc::Global;
use tlv_core::fault::ReadError;
use tlv_core::limits::Limits;
use tlv_core::reason::Reason;
use tlv_core::sink::{Sink, WriteError};
use tlv_core::source::Source;
use tlv_core::tag::Tag;
use tlv_core::target::Target;

/// The element that the OCTET STRING of this tag contains which `next_tag` has given. It is read as a document of its
/// own, under the same limits.
///
/// Faults, at the OCTET STRING: `WrongTag`, those of an OCTET STRING; `Inner`, with the place inside and the reason,
/// where its octets aren't one element of the type and nothing else.
pub fn read_contained<R: Source, T: Element>(
    alloc: Global,
    pull: &mut Pull<'_, R>,
    own: Tag,
) -> Result<T, ReadError>
    requires { (standing pull.old).error ≡ None → IsSome (standing pull.old).given }
    ensures frame { Frame pull.old pull.new result }
    ensures repeats { Repeats pull.old pull.new result }
    ensures reads { AnswersContained pull.old pull.new own T.type_term T.value result }
    ensures short { IfOk result (λ x. length (der (T.value x)) < 2 ^ 32) }
    ensures stands { OnOk result (Uses pull.old pull.new) }
{
    let at = expect_tag(pull, own)?;
    let limits = pull.limits();
    // (octets at hand are read where they stand: no copy of what may be private)
    if let Some(octets) = pull.contents_at_hand() {
        let read = read_whole(alloc, octets, limits);
        pull.pass_contents();
        return settled(pull, at, read);
    }
    let mut octets = Vec::new(alloc);
    read_leaf_into(alloc, pull, SimpleType::OctetString, &mut octets)?;
    let read = read_whole(alloc, &octets, limits);
    settled(pull, at, read)
}

/// The contents of the OCTET STRING of this tag that octets begin with, where it is in DER and they are one element in
/// DER and nothing else; and what stands after it.
pub fn judge_contained<T: Element>(
    octets: &[u8],
    limits: Limits,
    own: Tag,
) -> Option<(&[u8], &[u8])>
    ensures { IfSome result (λ x. ContainsInDer limits.depth own T.type_term octets.now x.0.now
        x.1.now) }
{
    let (contents, rest) = element_in_der(octets, own, false)?;
    let behind = T::judge(contents, limits, limits.depth() - 1)?;
    if !behind.is_empty() {
        return None;
    }
    Some((contents, rest))
}

/// What the octets of an OCTET STRING at a place came to, read as a document: a fault of theirs is inside it.
#[inline(always)]
fn settled<R: Source, T: Element>(
    pull: &mut Pull<'_, R>,
    at: u64,
    read: Result<T, ReadError>,
) -> Result<T, ReadError>
    requires fine { (standing pull.old).error ≡ None }
    requires of_octets { IfErr read (IsFailedRead false) }
    ensures frame { Frame pull.old pull.new result }
    ensures reads { (limits : Allowed) (octets : List ℕ)
        → CameInside limits T.type_term octets T.value read
        → AnswersValue pull.old pull.new (read_inside limits T.type_term [] at octets)
        T.value result }
    ensures same { OnOk result (Unmoved pull.old pull.new) }
    ensures value { IfOk result (λ x. read ≡ Ok x) }
{
    match read {
        Ok(value) => Ok(value),
        Err(ReadError::Fault(fault)) => {
            Err(pull.refuse(at, Reason::Inner, Some((fault.at, fault.why))))
        }
        Err(ReadError::Memory) => Err(pull.no_memory()),
        Err(ReadError::Read { .. }) => unreachable!(),
    }
}

/// An OCTET STRING that contains one element and nothing else.
#[derive(Drop)]
pub struct Containing<T: DerText> {
    inner: T,
    ghost small: { length (der (T.value inner)) < 2 ^ 63 },
}

impl<T: DerText> Containing<T> {
    /// The OCTET STRING that contains this.
    pub fn new(inner: T) -> Containing<T>
        requires { length (der (T.value inner)) < 2 ^ 63 }
        ensures { result.inner ≡ inner }
    {
        Containing { inner }
    }

    /// What it contains.
    pub fn value(&self) -> &T
        ensures { result.now ≡ self.now.inner }
    {
        &self.inner
    }

    fn size_as(&self, tag: Tag) -> u64
        ensures { result ≡ length (der (Leaf tag (der (T.value self.now.inner)))) }
    {
        element_size(tag, self.inner.size())
    }

    fn put_as<W: Target>(&self, sink: &mut Sink<'_, W>, tag: Tag) -> Result<(), WriteError>
        requires { count sink.old + length (der (Leaf tag (der (T.value self.now.inner))))
            < 2 ^ 64 }
        ensures { Puts (der (Leaf tag (der (T.value self.now.inner)))) sink.old sink.new result }
    {
        put_header(tag, false, self.inner.size(), sink)?;
        self.inner.put(sink)
    }

    fn octet_as(&self, i: u64, tag: Tag) -> Option<u8>
        ensures { result ≡ slice_get (der (Leaf tag (der (T.value self.now.inner)))) i }
    {
        match find_octet(tag, false, self.inner.size(), i) {
            Stands::InHeader(octet) => Some(octet),
            Stands::InContents(at) => self.inner.octet(at),
        }
    }
}

impl<T: DerText> DerText for Containing<T> {
    ghost value = { λ c. Leaf (universal 4) (der (T.value c.inner)) };

    ghost one_text = { λ x y. leaf_one_text (universal 4) (universal 4) (der (T.value x.inner))
        (der (T.value y.inner)) };

    fn size(&self) -> u64 {
        self.size_as(universal_tag(4))
    }

    fn put<W: Target>(&self, sink: &mut Sink<'_, W>) -> Result<(), WriteError> {
        self.put_as(sink, universal_tag(4))
    }

    fn octet(&self, i: u64) -> Option<u8> {
        self.octet_as(i, universal_tag(4))
    }
}

impl<T: Element> Element for Containing<T> {
    ghost type_term = { ContainingType (universal 4) no_rule T.type_term };

    ghost closed = { containing_closed (universal 4) no_rule T.type_term T.closed
        (λ earlier. refl) };

    #[tactic(auto, unfolding(x690::specs::TypeTerms::fits_tag))]
    fn fits(tag: Tag) -> bool {
        is_same_tag(universal_tag(4), tag)
    }

    fn read<R: Source>(alloc: Global, pull: &mut Pull<'_, R>) -> Result<Containing<T>, ReadError> {
        let inner = read_contained(alloc, pull, universal_tag(4))?;
        Ok(Containing { inner })
    }

    fn judge(octets: &[u8], limits: Limits, _left: u8) -> Option<&[u8]> {
        let (_contents, rest) = judge_contained::<T>(octets, limits, universal_tag(4))?;
        Some(rest)
    }
}
