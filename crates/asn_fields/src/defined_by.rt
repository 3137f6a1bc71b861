//! Elements of one of two types, by a field before them.
ghost use Rattle.std.specs.Prelude.{◌≡◌, ◌<◌, ℕ, IfSome, List};
ghost use Rattle.x690.specs.Lists.{one_of};
ghost use Rattle.x690.specs.TypeTerms.{DefinedByType};
ghost use Rattle.x690.specs.Values.{Value, leaf_at};
ghost use Rattle.asn_fields.specs.ApartLaws.{either_of};
ghost use Rattle.asn_fields.specs.Dependents.{suits_as};
ghost use Rattle.asn_fields.specs.DependentLaws.{defined_one_text};
ghost use Rattle.asn_fields.specs.FieldsInDer.{AreFields};

use crate::dependent::DependentElement;
use crate::either::Either;
use crate::sequence::FieldsText;
use ber_pull::pull::Pull;
use std::alloc::Global;
use std::marker::PhantomData;
use tlv_core::fault::ReadError;
use tlv_core::limits::Limits;
use tlv_core::sink::{Sink, WriteError};
use tlv_core::source::Source;
use tlv_core::tag::Tag;
use tlv_core::target::Target;

/// Which of two types an element has, by a leaf of the fields before it.
pub trait Defines<A: FieldsText>: Drop {
    /// Where the leaf stands among these fields.
    ghost path: { List ℕ };

    /// Its contents where the element has the first type.
    ghost octets: { List (List ℕ) };

    /// Whether it has the first type.
    fn is_first(earlier: &A) -> bool
        ensures { result ≡ one_of (leaf_at path (A.values earlier.now)) octets };

    /// The same after fields that `earlier` begins with, in DER; `None` says nothing of them.
    fn is_first_in_der(earlier: &[u8]) -> Option<bool>
        ensures { IfSome result (λ first. (limit : ℕ) (fields : List Value) (behind : List ℕ)
            → AreFields limit A.listing.types fields earlier.now behind
            → first ≡ one_of (leaf_at path fields) octets) }
    {
        None
    }
}

/// An element of one of two types, by a leaf of the fields before it. Of more than two they are nested.
#[derive(Drop)]
pub struct DefinedBy<X: Drop, Y: Drop, K: Drop> {
    value: Either<X, Y>,
    defines: PhantomData<K>,
}

impl<X: Drop, Y: Drop, K: Drop> DefinedBy<X, Y, K> {
    /// Which of the two it is.
    pub fn value(&self) -> &Either<X, Y>
        ensures { result.now ≡ self.now.value }
    {
        &self.value
    }
}

impl<A: FieldsText, X: DependentElement<A>, Y: DependentElement<A>, K: Defines<A>> DependentElement<
    A,
> for DefinedBy<X, Y, K> {
    ghost type_term = { DefinedByType K.path K.octets X.type_term Y.type_term };

    ghost value = { λ x. either_of X.value Y.value x.value };

    ghost suits = { λ vs x. suits_as (one_of (leaf_at K.path vs) K.octets) (X.suits vs)
        (Y.suits vs) x.value };

    ghost one_text = { λ vs ws x y. defined_one_text X.value Y.value X.suits Y.suits K.path K.octets
        X.one_text Y.one_text vs ws x.value y.value };

    #[tactic(auto, unfolding(x690::specs::TypeTerms::fits_tag))]
    fn fits(tag: Tag) -> bool {
        X::fits(tag) || Y::fits(tag)
    }

    fn read<R: Source>(
        alloc: Global,
        pull: &mut Pull<'_, R>,
        earlier: &A,
    ) -> Result<DefinedBy<X, Y, K>, ReadError> {
        if K::is_first(earlier) {
            let first = X::read(alloc, pull, earlier)?;
            Ok(DefinedBy {
                value: Either::First(first),
                defines: PhantomData,
            })
        } else {
            let second = Y::read(alloc, pull, earlier)?;
            Ok(DefinedBy {
                value: Either::Second(second),
                defines: PhantomData,
            })
        }
    }

    fn judge<'a>(earlier: &[u8], octets: &'a [u8], limits: Limits, left: u8) -> Option<&'a [u8]> {
        if K::is_first_in_der(earlier)? {
            let rest = X::judge(earlier, octets, limits, left)?;
            return Some(rest);
        }
        let rest = Y::judge(earlier, octets, limits, left)?;
        Some(rest)
    }

    fn size(&self) -> u64 {
        match &self.value {
            Either::First(first) => first.size(),
            Either::Second(second) => second.size(),
        }
    }

    fn put<W: Target>(&self, sink: &mut Sink<'_, W>) -> Result<(), WriteError> {
        match &self.value {
            Either::First(first) => first.put(sink),
            Either::Second(second) => second.put(sink),
        }
    }

    fn octet(&self, i: u64) -> Option<u8> {
        match &self.value {
            Either::First(first) => first.octet(i),
            Either::Second(second) => second.octet(i),
        }
    }
}
