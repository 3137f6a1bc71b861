//! OCTET STRINGs that contain an element with a rule on it that looks at the fields before the OCTET STRING.
ghost use Rattle.std.specs.Prelude.{◌≡◌, ◌<◌};
ghost use Rattle.x690.specs.DerTexts.{der};
ghost use Rattle.x690.specs.Layouts.{universal};
ghost use Rattle.x690.specs.TypeTerms.{ContainingType};
ghost use Rattle.x690.specs.Values.{Leaf};
ghost use Rattle.x690_laws.proofs.TextsTellApart.{leaf_one_text};
ghost use Rattle.asn_fields.specs.Dependents.{passes};

use crate::dependent::{Dependent, DependentElement};
use crate::ruled_behind::FieldRules;
use crate::sequence::FieldsText;
use asn_elements::containing::{Containing, judge_contained, read_contained};
use asn_elements::der_text::DerText;
use asn_elements::element::Element;
use asn_elements::tags::{is_same_tag, universal_tag};
use ber_pull::pull::Pull;
use std::alloc::Global;
use std::marker::PhantomData;
use tlv_core::fault::ReadError;
use tlv_core::limits::Limits;
use tlv_core::sink::{Sink, WriteError};
use tlv_core::source::Source;
use tlv_core::tag::Tag;
use tlv_core::target::Target;

/// An OCTET STRING that contains one element and nothing else; the rule lets the element pass after the fields before
/// the OCTET STRING.
#[derive(Drop)]
pub struct RuledContaining<T: DerText, K: Drop> {
    string: Containing<T>,
    rules: PhantomData<K>,
}

impl<T: DerText, K: Drop> RuledContaining<T, K> {
    /// What it contains.
    pub fn value(&self) -> &T
        ensures { result.now ≡ self.now.string.inner }
    {
        self.string.value()
    }
}

impl<A: FieldsText, T: Element, K: FieldRules<A, T>> DependentElement<A> for RuledContaining<T, K> {
    ghost type_term = { ContainingType (universal 4) K.rule T.type_term };

    ghost value = { λ x. Leaf (universal 4) (der (T.value x.string.inner)) };

    ghost suits = { λ vs x. passes (K.rule vs (T.value x.string.inner)) };

    ghost one_text = { λ vs ws x y same h k. leaf_one_text (universal 4) (universal 4)
        (der (T.value x.string.inner)) (der (T.value y.string.inner)) };

    #[tactic(auto, unfolding(x690::specs::TypeTerms::fits_tag))]
    fn fits(tag: Tag) -> bool {
        is_same_tag(universal_tag(4), tag)
    }

    fn read<R: Source>(
        alloc: Global,
        pull: &mut Pull<'_, R>,
        earlier: &A,
    ) -> Result<RuledContaining<T, K>, ReadError> {
        let at = pull.at();
        let inner = read_contained::<R, T>(alloc, pull, universal_tag(4))?;
        if let Some(why) = K::judge(earlier, &inner) {
            return Err(pull.refuse(at, why, None));
        }
        Ok(RuledContaining {
            string: Containing::new(inner),
            rules: PhantomData,
        })
    }

    fn judge<'a>(earlier: &[u8], octets: &'a [u8], limits: Limits, _left: u8) -> Option<&'a [u8]> {
        let (contents, rest) = judge_contained::<T>(octets, limits, universal_tag(4))?;
        if !K::passes_in_der(earlier, contents) {
            return None;
        }
        Some(rest)
    }

    fn size(&self) -> u64 {
        self.string.size()
    }

    fn put<W: Target>(&self, sink: &mut Sink<'_, W>) -> Result<(), WriteError> {
        self.string.put(sink)
    }

    fn octet(&self, i: u64) -> Option<u8> {
        self.string.octet(i)
    }
}

/// The fields `A`, and after them an OCTET STRING that is due and contains one element, with a rule on it.
pub type JudgedInside<A, T, K> = Dependent<A, RuledContaining<T, K>>;
