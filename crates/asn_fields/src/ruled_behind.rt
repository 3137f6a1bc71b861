//! Elements with a rule on them that looks at the fields before them.
ghost use Rattle.std.specs.Prelude.{◌≡◌, List, None, true, ℕ};
ghost use Rattle.x690.specs.Premises.{FairRule, HonestRule};
ghost use Rattle.x690.specs.TypeTerms.{Rule, RuledType};
ghost use Rattle.x690.specs.Values.{Value};
ghost use Rattle.asn_elements.specs.InDer.{BeginsWithText};
ghost use Rattle.asn_fields.specs.Dependents.{passes};
ghost use Rattle.asn_fields.specs.FieldsInDer.{AreFields};

use crate::dependent::DependentElement;
use crate::sequence::FieldsText;
use asn_elements::element::Element;
use ber_pull::pull::Pull;
use std::alloc::Global;
use std::marker::PhantomData;
use tlv_core::fault::ReadError;
use tlv_core::limits::Limits;
use tlv_core::reason::Reason;
use tlv_core::sink::{Sink, WriteError};
use tlv_core::source::Source;
use tlv_core::tag::Tag;
use tlv_core::target::Target;

/// A rule on an element of the type `T` after the fields `A`.
pub trait FieldRules<A: FieldsText, T: Element>: Drop {
    /// The rule.
    ghost rule: { Rule };

    /// Why the element is refused, if it is.
    fn judge(earlier: &A, field: &T) -> Option<Reason>
        ensures { result ≡ rule (A.values earlier.now) (T.value field.now) };

    /// Whether it lets the element pass whose text in DER octets begin with, after fields that `earlier` begins with;
    /// `false` says nothing of them.
    fn passes_in_der(earlier: &[u8], octets: &[u8]) -> bool
        ensures { result ≡ true → (limit : ℕ) (fields : List Value) (value : Value)
            (behind rest : List ℕ)
            → AreFields limit A.listing.types fields earlier.now behind
            → BeginsWithText limit T.type_term fields value octets.now rest
            → rule fields value ≡ None }
    {
        false
    }

    /// It goes by the values, and by no order of a SET OF,
    ghost fair: { FairRule rule };

    /// and gives reasons of its own.
    ghost honest: { HonestRule rule };
}

/// An element that the rule lets pass after the fields before it.
#[derive(Drop)]
pub struct RuledBehind<T: Drop, K: Drop> {
    value: T,
    rules: PhantomData<K>,
}

impl<T: Drop, K: Drop> RuledBehind<T, K> {
    /// The element.
    pub fn value(&self) -> &T
        ensures { result.now ≡ self.now.value }
    {
        &self.value
    }
}

impl<A: FieldsText, T: Element, K: FieldRules<A, T>> DependentElement<A> for RuledBehind<T, K> {
    ghost type_term = { RuledType K.rule T.type_term };

    ghost value = { λ x. T.value x.value };

    ghost suits = { λ vs x. passes (K.rule vs (T.value x.value)) };

    ghost one_text = { λ vs ws x y same h k. T.one_text x.value y.value };

    #[tactic(auto, unfolding(x690::specs::TypeTerms::fits_tag))]
    fn fits(tag: Tag) -> bool {
        T::fits(tag)
    }

    fn read<R: Source>(
        alloc: Global,
        pull: &mut Pull<'_, R>,
        earlier: &A,
    ) -> Result<RuledBehind<T, K>, ReadError> {
        let at = pull.at();
        let value = T::read(alloc, pull)?;
        if let Some(why) = K::judge(earlier, &value) {
            return Err(pull.refuse(at, why, None));
        }
        Ok(RuledBehind {
            value,
            rules: PhantomData,
        })
    }

    fn judge<'a>(earlier: &[u8], octets: &'a [u8], limits: Limits, left: u8) -> Option<&'a [u8]> {
        let rest = T::judge(octets, limits, left)?;
        if !K::passes_in_der(earlier, octets) {
            return None;
        }
        Some(rest)
    }

    fn size(&self) -> u64 {
        self.value.size()
    }

    fn put<W: Target>(&self, sink: &mut Sink<'_, W>) -> Result<(), WriteError> {
        self.value.put(sink)
    }

    fn octet(&self, i: u64) -> Option<u8> {
        self.value.octet(i)
    }
}
