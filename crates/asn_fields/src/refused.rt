//! An element that may not stand, and is refused by its tag.
ghost use Rattle.std.specs.Prelude.{◌≡◌, ◌+◌, ◌<◌, ◌^◌, None, IsSome, OnOk, [], length, slice_get};
ghost use Rattle.tlv_core.specs.Identifier.{Tag as Identified};
ghost use Rattle.tlv_core.specs.Sinks.{count, Puts};
ghost use Rattle.tlv_core.specs.declared.reason.Reason.{Reason as Why};
ghost use Rattle.x690.specs.DerTexts.{der};
ghost use Rattle.x690.specs.Layouts.{universal};
ghost use Rattle.x690.specs.Premises.{HonestReason};
ghost use Rattle.x690.specs.TypeTerms.{RefusedType};
ghost use Rattle.x690.specs.Values.{Leaf};
ghost use Rattle.x690_laws.proofs.TextsTellApart.{leaf_one_text};
ghost use Rattle.ber_pull.specs.View.{standing, AsksNoMemory, Repeats, Uses, Frame};
ghost use Rattle.x690_laws.proofs.TypesClosed.{refused_closed};
ghost use Rattle.asn_fields.specs.Fields.{AnswersGiven};

use asn_elements::der_text::DerText;
use asn_elements::element::Element;
use asn_elements::leaf_reading::expect_tag;
use asn_elements::null::Null;
use asn_elements::tags::is_same_tag;
use ber_pull::pull::Pull;
use std::alloc::Global;
use std::marker::PhantomData;
use tlv_core::fault::ReadError;
use tlv_core::reason::Reason;
use tlv_core::sink::{Sink, WriteError};
use tlv_core::source::Source;
use tlv_core::tag::Tag;
use tlv_core::target::Target;

/// Which elements are refused, and why.
pub trait RefusedTag: Drop {
    /// Their tag.
    ghost own: { Identified };

    /// The reason.
    ghost why: { Why };

    /// It is one of a rule's own.
    ghost honest: { HonestReason why };

    /// Their tag.
    fn tag() -> Tag
        ensures { result ≡ own };

    /// The reason.
    fn reason() -> Reason
        ensures { result ≡ why };
}

/// Nothing is of this type.
#[derive(Drop)]
pub enum Never {}

/// An element that is refused by its tag, whatever stands in it: no value of this type is ever read.
/// `Optional<Refused<K>>` is a field that may not stand.
#[derive(Drop)]
pub struct Refused<K: RefusedTag> {
    refusal: PhantomData<K>,
}

/// Refuses the element that is given.
///
/// Faults, at the element: `WrongTag` where it has another tag, else the reason.
pub fn read_refused<R: Source, K: RefusedTag>(pull: &mut Pull<'_, R>) -> Result<Never, ReadError>
    requires { (standing pull.old).error ≡ None → IsSome (standing pull.old).given }
    ensures frame { Frame pull.old pull.new result }
    ensures repeats { Repeats pull.old pull.new result }
    ensures reads { AnswersGiven pull.old pull.new (RefusedType K.own K.why)
        (λ never. Leaf (universal 5) []) result }
    ensures stands { OnOk result (Uses pull.old pull.new) }
    ensures memory { AsksNoMemory pull.old result }
{
    let at = expect_tag(pull, K::tag())?;
    Err(pull.refuse(at, K::reason(), None))
}

/// No value is ever read; one would be written as a NULL.
impl<K: RefusedTag> DerText for Refused<K> {
    ghost value = { λ refused. Leaf (universal 5) [] };

    ghost one_text = { λ x y. leaf_one_text (universal 5) (universal 5) [] [] };

    fn size(&self) -> u64 {
        Null.size()
    }

    fn put<W: Target>(&self, sink: &mut Sink<'_, W>) -> Result<(), WriteError> {
        Null.put(sink)
    }

    fn octet(&self, i: u64) -> Option<u8> {
        Null.octet(i)
    }
}

impl<K: RefusedTag> Element for Refused<K> {
    ghost type_term = { RefusedType K.own K.why };

    ghost closed = { refused_closed K.own K.why };

    #[tactic(auto, unfolding(x690::specs::TypeTerms::fits_tag))]
    fn fits(tag: Tag) -> bool {
        is_same_tag(K::tag(), tag)
    }

    fn read<R: Source>(_alloc: Global, pull: &mut Pull<'_, R>) -> Result<Refused<K>, ReadError> {
        match read_refused::<R, K>(pull)? {}
    }
}
