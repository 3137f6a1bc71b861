//! Explicit tags (X.690 8.14).
ghost use Rattle.x690_laws.proofs.TextsTellApart.{single_one_text};
ghost use Rattle.std.specs.Prelude.{◌≡◌, ◌+◌, ◌<◌, ◌^◌, ◌∷◌, [], length, slice_get};
ghost use Rattle.tlv_core.specs.Sinks.{count, Puts};
ghost use Rattle.x690.specs.DerTexts.{der};
ghost use Rattle.x690.specs.Layouts.{context_specific};
ghost use Rattle.x690.specs.TypeTerms.{EndOfFields, Required as RequiredType, SequenceType};
ghost use Rattle.x690.specs.Values.{Sequence, values_of};
ghost use Rattle.x690_laws.proofs.TypesClosed.{sequence_closed};

use crate::required::Required;
use crate::sequence::{judge_sequence, read_sequence_as};
use asn_elements::der_text::DerText;
use asn_elements::element::Element;
use asn_elements::framing::{Stands, element_size, find_octet, put_header};
use asn_elements::tags::{context_tag, is_same_tag};
use ber_pull::pull::Pull;
use std::alloc::Global;
use tlv_core::fault::ReadError;
use tlv_core::limits::Limits;
use tlv_core::sink::{Sink, WriteError};
use tlv_core::source::Source;
use tlv_core::tag::Tag;
use tlv_core::target::Target;

/// A value after the explicit tag [N].
#[derive(Drop)]
pub struct Tagged<const N: u8, T: DerText> {
    inner: T,
    ghost small: { length (der (T.value inner)) < 2 ^ 63 },
}

impl<const N: u8, T: DerText> Tagged<N, T> {
    /// The value after the tag.
    pub fn value(&self) -> &T
        ensures { result.now ≡ self.now.inner }
    {
        &self.inner
    }

    fn size_as(&self, tag: Tag) -> u64
        ensures { result ≡ length (der (Sequence tag (values_of (T.value self.now.inner ∷ [])))) }
    {
        element_size(tag, self.inner.size())
    }

    fn put_as<W: Target>(&self, sink: &mut Sink<'_, W>, tag: Tag) -> Result<(), WriteError>
        requires { count sink.old + length
            (der (Sequence tag (values_of (T.value self.now.inner ∷ [])))) < 2 ^ 64 }
        ensures { Puts (der (Sequence tag (values_of (T.value self.now.inner ∷ [])))) sink.old
            sink.new result }
    {
        put_header(tag, true, self.inner.size(), sink)?;
        self.inner.put(sink)
    }

    fn octet_as(&self, i: u64, tag: Tag) -> Option<u8>
        ensures { result ≡ slice_get (der (Sequence tag (values_of (T.value self.now.inner ∷ []))))
            i }
    {
        match find_octet(tag, true, self.inner.size(), i) {
            Stands::InHeader(octet) => Some(octet),
            Stands::InContents(at) => self.inner.octet(at),
        }
    }
}

impl<const N: u8, T: DerText> DerText for Tagged<N, T> {
    ghost value = { λ tagged.
        Sequence (context_specific N) (values_of (T.value tagged.inner ∷ [])) };

    ghost one_text = { λ x y. single_one_text T.value T.one_text
        (context_specific N) x.inner y.inner };

    fn size(&self) -> u64 {
        self.size_as(context_tag(u32::from(N)))
    }

    fn put<W: Target>(&self, sink: &mut Sink<'_, W>) -> Result<(), WriteError> {
        self.put_as(sink, context_tag(u32::from(N)))
    }

    fn octet(&self, i: u64) -> Option<u8> {
        self.octet_as(i, context_tag(u32::from(N)))
    }
}

impl<const N: u8, T: Element> Element for Tagged<N, T> {
    ghost type_term = { SequenceType (context_specific N) (RequiredType T.type_term EndOfFields) };

    ghost closed = { sequence_closed (context_specific N) (RequiredType T.type_term EndOfFields) };

    #[tactic(auto, unfolding(x690::specs::TypeTerms::fits_tag))]
    fn fits(tag: Tag) -> bool {
        is_same_tag(context_tag(u32::from(N)), tag)
    }

    fn read<R: Source>(alloc: Global, pull: &mut Pull<'_, R>) -> Result<Tagged<N, T>, ReadError> {
        let Required(inner) = read_sequence_as(alloc, pull, context_tag(u32::from(N)))?;
        Ok(Tagged { inner })
    }

    fn judge(octets: &[u8], limits: Limits, left: u8) -> Option<&[u8]> {
        let rest = judge_sequence::<Required<T>>(octets, limits, left, context_tag(u32::from(N)))?;
        Some(rest)
    }
}
