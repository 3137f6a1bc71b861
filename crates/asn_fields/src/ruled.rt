//! Values with a rule on them, of the value alone.
ghost use Rattle.std.specs.Prelude.{◌≡◌, List, None, [], true, ℕ};
ghost use Rattle.x690.specs.Premises.{FairRule, HonestRule};
ghost use Rattle.x690.specs.TypeTerms.{Rule, RuledType};
ghost use Rattle.x690.specs.Values.{Value};
ghost use Rattle.x690_laws.proofs.TypesClosed.{ruled_closed};
ghost use Rattle.asn_elements.specs.InDer.{BeginsWithText};

use asn_elements::der_text::DerText;
use asn_elements::element::Element;
use ber_pull::pull::Pull;
use std::alloc::Global;
use std::marker::PhantomData;
use std::ops::Deref;
use tlv_core::fault::ReadError;
use tlv_core::limits::Limits;
use tlv_core::reason::Reason;
use tlv_core::sink::{Sink, WriteError};
use tlv_core::source::Source;
use tlv_core::tag::Tag;
use tlv_core::target::Target;

/// A rule on the values of a type.
pub trait Rules<T: Element>: Drop {
    /// The rule.
    ghost rule: { Rule };

    /// Why the value is refused, if it is.
    fn judge(value: &T) -> Option<Reason>
        ensures { result ≡ rule [] (T.value value.now) };

    /// Whether it lets the value pass whose text in DER octets begin with; `false` says nothing of them.
    fn passes_in_der(octets: &[u8]) -> bool
        ensures { result ≡ true → (limit : ℕ) (value : Value) (rest : List ℕ)
            → BeginsWithText limit T.type_term [] value octets.now rest → rule [] value ≡ None }
    {
        false
    }

    /// It goes by the value, and by no order of a SET OF,
    ghost fair: { FairRule rule };

    /// gives reasons of its own,
    ghost honest: { HonestRule rule };

    /// and doesn't look at the earlier fields of a container.
    ghost alone: { (earlier : List Value) → rule earlier ≡ rule [] };
}

/// A value of the type `T` that the rule lets pass.
#[derive(Drop)]
pub struct Ruled<T: Element, K: Rules<T>> {
    value: T,
    rules: PhantomData<K>,
    ghost judged: { K.rule [] (T.value value) ≡ None },
}

impl<T: Element, K: Rules<T>> Ruled<T, K> {
    /// The value.
    pub fn value(&self) -> &T
        ensures value { result.now ≡ self.now.value }
        ensures judged { K.rule [] (T.value result.now) ≡ None }
    {
        &self.value
    }
}

impl<T: Element, K: Rules<T>> Deref for Ruled<T, K> {
    type Target = T;

    fn deref(&self) -> &T
        ensures { result.now ≡ self.now.value }
    {
        &self.value
    }
}

impl<T: Element, K: Rules<T>> DerText for Ruled<T, K> {
    ghost value = { λ ruled. T.value ruled.value };

    ghost one_text = { λ x y. T.one_text x.value y.value };

    fn size(&self) -> u64 {
        self.value.size()
    }

    fn put<W: Target>(&self, sink: &mut Sink<'_, W>) -> Result<(), WriteError> {
        self.value.put(sink)
    }

    fn octet(&self, i: u64) -> Option<u8> {
        self.value.octet(i)
    }
}

impl<T: Element, K: Rules<T>> Element for Ruled<T, K> {
    ghost type_term = { RuledType K.rule T.type_term };

    ghost closed = { ruled_closed K.rule T.type_term T.closed K.alone };

    #[tactic(auto, unfolding(x690::specs::TypeTerms::fits_tag))]
    fn fits(tag: Tag) -> bool {
        T::fits(tag)
    }

    fn read<R: Source>(alloc: Global, pull: &mut Pull<'_, R>) -> Result<Ruled<T, K>, ReadError> {
        let at = pull.at();
        let value = T::read(alloc, pull)?;
        if let Some(why) = K::judge(&value) {
            return Err(pull.refuse(at, why, None));
        }
        Ok(Ruled {
            value,
            rules: PhantomData,
        })
    }

    fn judge(octets: &[u8], limits: Limits, left: u8) -> Option<&[u8]> {
        let rest = T::judge(octets, limits, left)?;
        if !K::passes_in_der(octets) {
            return None;
        }
        Some(rest)
    }
}
