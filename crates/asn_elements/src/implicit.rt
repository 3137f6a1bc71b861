//! Implicit tags (X.690 8.14.3).
ghost use Rattle.std.specs.Prelude.{◌≡◌, ◌+◌, ◌<◌, ◌^◌, None, Some, IfSome, IsSome, OnOk, length, slice_get};
ghost use Rattle.tlv_core.specs.Identifier.{Tag as Identified};
ghost use Rattle.tlv_core.specs.Sinks.{count, Puts};
ghost use Rattle.x690.specs.DerTexts.{der};
ghost use Rattle.x690.specs.Layouts.{context_specific, same_tag};
ghost use Rattle.x690.specs.TypeTerms.{TypeTerm, fits_tag};
ghost use Rattle.x690.specs.Values.{Same, Value};
ghost use Rattle.x690.specs.ReadTypes.{IsClosed};
ghost use Rattle.ber_pull.specs.View.{standing, Repeats, Uses, Frame};
ghost use Rattle.ber_pull.specs.declared.state.Given.{Given};
ghost use Rattle.asn_elements.specs.InDer.{BeginsInDer};
ghost use Rattle.asn_elements.specs.Reading.{AnswersValue, read_given};

use crate::der_text::DerText;
use crate::element::Element;
use crate::tags::{context_tag, is_same_tag};
use ber_pull::pull::Pull;
use std::alloc::Global;
use tlv_core::fault::ReadError;
use tlv_core::limits::Limits;
use tlv_core::sink::{Sink, WriteError};
use tlv_core::source::Source;
use tlv_core::tag::Tag;
use tlv_core::target::Target;

/// What has one text in DER under each tag in place of its own (X.690 8.14.3).
pub trait ImplicitText: DerText {
    /// What it stands for under a tag.
    ghost value_as: { Identified → Self → Value };

    /// Two of the type that have one text under a tag are the same under it.
    ghost one_text_as: { (own : Identified) (x y : Self)
        → der (value_as own x) ≡ der (value_as own y) → Same (value_as own x) (value_as own y) };

    /// The length of its text under an implicit tag, in octets.
    fn size_as(&self, tag: Tag) -> u64
        ensures { result ≡ length (der (value_as tag self.now)) };

    /// Writes its text under an implicit tag. Where the writer fails, the first octets are out, as many as the sink's
    /// count rose by.
    fn put_as<W: Target>(&self, sink: &mut Sink<'_, W>, tag: Tag) -> Result<(), WriteError>
        requires { count sink.old + length (der (value_as tag self.now)) < 2 ^ 64 }
        ensures { Puts (der (value_as tag self.now)) sink.old sink.new result };

    /// Octet `i` of its text under an implicit tag, counted from 0; `None` from `size_as` on.
    fn octet_as(&self, i: u64, tag: Tag) -> Option<u8>
        ensures { result ≡ slice_get (der (value_as tag self.now)) i };
}

/// A value of one type, which can be read under a tag in place of its own (X.690 8.14.3).
pub trait ImplicitElement: ImplicitText {
    /// Its type under a tag.
    ghost type_as: { Identified → TypeTerm };

    /// Reads the element that `next_tag` has given as one under this tag, as the plain reading of the type does: a
    /// value is one that the octets taken spell, a fault is the first one, and want of memory or a failed read may come
    /// in place of any answer. On an error the reader has failed with it.
    fn read_as<R: Source>(
        alloc: Global,
        pull: &mut Pull<'_, R>,
        tag: Tag,
    ) -> Result<Self, ReadError>
        requires { (standing pull.old).error ≡ None → IsSome (standing pull.old).given }
        ensures frame { Frame pull.old pull.new result }
        ensures repeats { Repeats pull.old pull.new result }
        ensures reads { (g : Given) → (standing pull.old).error ≡ None
            → (standing pull.old).given ≡ Some g
            → AnswersValue pull.old pull.new (read_given (type_as tag) (standing pull.old) g)
            (Self.value_as tag) result }
        ensures stands { OnOk result (Uses pull.old pull.new) };

    /// What stands after the element of this tag that octets begin with, as `judge` of an element says it.
    fn judge_as(octets: &[u8], limits: Limits, left: u8, tag: Tag) -> Option<&[u8]>
        ensures { IfSome result (λ rest. BeginsInDer limits.depth left (type_as tag) octets.now
            rest.now) }
    {
        None
    }

    /// Exactly elements of its tag are of it.
    ghost fits_own: { (own tag : Identified) → fits_tag (type_as own) tag ≡ same_tag own tag };

    /// It doesn't look at the earlier fields of a container.
    ghost closed_as: { (own : Identified) → IsClosed (type_as own) };
}

/// A value under the context-specific tag [N] in place of its own (X.690 8.14.3).
#[derive(Drop)]
pub struct Implicit<const N: u8, T: ImplicitText> {
    inner: T,
}

impl<const N: u8, T: ImplicitText> Implicit<N, T> {
    ghost use Rattle.asn_elements.specs.Implicits.{value_under};

    /// The value under the tag.
    pub fn value(&self) -> &T
        ensures { result.now ≡ value_under self.now }
    {
        &self.inner
    }
}

impl<const N: u8, T: ImplicitText> DerText for Implicit<N, T> {
    ghost use Rattle.asn_elements.specs.Implicits.{value_under};

    ghost value = { λ implicit. T.value_as (context_specific N) (value_under implicit) };

    ghost one_text = { λ x y. T.one_text_as (context_specific N) (value_under x) (value_under y) };

    fn size(&self) -> u64 {
        self.inner.size_as(context_tag(u32::from(N)))
    }

    fn put<W: Target>(&self, sink: &mut Sink<'_, W>) -> Result<(), WriteError> {
        self.inner.put_as(sink, context_tag(u32::from(N)))
    }

    fn octet(&self, i: u64) -> Option<u8> {
        self.inner.octet_as(i, context_tag(u32::from(N)))
    }
}

impl<const N: u8, T: ImplicitElement> Element for Implicit<N, T> {
    ghost type_term = { T.type_as (context_specific N) };

    ghost closed = { T.closed_as (context_specific N) };

    fn fits(tag: Tag) -> bool {
        is_same_tag(context_tag(u32::from(N)), tag)
    }

    fn read<R: Source>(alloc: Global, pull: &mut Pull<'_, R>) -> Result<Implicit<N, T>, ReadError> {
        let inner = T::read_as(alloc, pull, context_tag(u32::from(N)))?;
        Ok(Implicit { inner })
    }

    fn judge(octets: &[u8], limits: Limits, left: u8) -> Option<&[u8]> {
        T::judge_as(octets, limits, left, context_tag(u32::from(N)))
    }
}
