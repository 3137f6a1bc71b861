//! INTEGER (X.690 8.3).
ghost use Rattle.x690_laws.proofs.TextsTellApart.{leaf_one_text};
ghost use Rattle.std.specs.Prelude.{◌≡◌, ◌↔◌, ◌≤◌, ◌<◌, ◌^◌, Err, IfOk, IsSome, IsTrue, None, OnOk, Some, length, true};
ghost use Rattle.asn_elements.specs.declared.build.BuildError.TheVariants.{Bad, TooBig};
ghost use Rattle.x690_laws.proofs.TypesClosed.{leaf_closed};
ghost use Rattle.x690.specs.Contents.{Integer, IsInteger};
ghost use Rattle.x690.specs.DerTexts.{der};
ghost use Rattle.x690.specs.ReadContents.{is_integer_contents};
ghost use Rattle.x690.specs.Layouts.{universal};
ghost use Rattle.x690.specs.TypeTerms.{LeafType};
ghost use Rattle.x690.specs.Values.{Leaf};
ghost use Rattle.ber_pull.specs.Contents.{octet_or};
ghost use Rattle.ber_pull.specs.View.{standing, Repeats, Uses, Frame};
ghost use Rattle.ber_pull.specs.declared.state.Given.{Given};
ghost use Rattle.asn_elements.specs.Reading.{AnswersValue, read_given};

use crate::build::BuildError;
use crate::der_text::DerText;
use crate::element::Element;
use crate::in_der::universal_leaf_in_der;
use crate::leaf::{is_long_leaf, leaf_octet, leaf_size, put_leaf};
use crate::leaf_reading::{SimpleType, expect_tag, read_leaf_as};
use crate::tags::{is_same_tag, universal_tag};
use ber_pull::pull::Pull;
use std::alloc::Global;
use tlv_core::fault::ReadError;
use tlv_core::limits::Limits;
use tlv_core::reason::Reason;
use tlv_core::sink::{Sink, WriteError};
use tlv_core::source::Source;
use tlv_core::tag::Tag;
use tlv_core::target::Target;

/// An INTEGER, by its contents: two's complement, the most significant octet first, in as few octets as hold it (X.690
/// 8.3).
#[derive(Drop)]
pub struct Int {
    contents: Vec<u8>,
    ghost is: { is_integer_contents contents.items ≡ true },
}

impl Int {
    ghost use Rattle.asn_elements.specs.Leaves.{integer_of};

    /// The INTEGER with these contents.
    ///
    /// Errors: `TooBig` where the text would be longer than 2^40 octets, `Bad` where there are no octets, or the first
    /// nine bits are all 0 or all 1 (X.690 8.3.2), `Memory`.
    pub fn from_contents(alloc: Global, octets: &[u8]) -> Result<Int, BuildError>
        ensures made { IfOk result (λ n. integer_of n ≡ octets.now) }
        ensures too_big { (result ≡ Err TooBig)
            ↔ (2 ^ 40 < length (der (Leaf (universal 2) octets.now))) }
        ensures bad { (result ≡ Err Bad) ↔ ((length (der (Leaf (universal 2) octets.now)) ≤ 2 ^ 40)
            × (IsInteger octets.now → ⊥)) }
    {
        if is_long_leaf(universal_tag(2), octets) {
            return Err(BuildError::TooBig);
        }
        if !is_integer(octets) {
            return Err(BuildError::Bad);
        }
        let contents = octets.to_vec(alloc)?;
        Ok(Int { contents })
    }

    /// The octets of its contents.
    pub fn contents(&self) -> &[u8]
        ensures value { result.now ≡ integer_of self.now }
        ensures is { IsInteger (integer_of self.now) }
    {
        &self.contents
    }
}

/// The contents of the INTEGER that is given, of this tag, where they are one octet: no memory is asked for it. `None`
/// where they are others, which stand in `others` then, in place of what it holds.
#[inline(always)]
pub fn read_integer_octet<R: Source>(
    pull: &mut Pull<'_, R>,
    own: Tag,
    others: &mut Vec<u8>,
) -> Result<Option<u8>, ReadError>
    requires { (standing pull.old).error ≡ None → IsSome (standing pull.old).given }
    ensures frame { Frame pull.old pull.new result }
    ensures repeats { Repeats pull.old pull.new result }
    ensures reads { (g : Given) → (standing pull.old).error ≡ None
        → (standing pull.old).given ≡ Some g
        → AnswersValue pull.old pull.new
        (read_given (LeafType own Integer) (standing pull.old) g)
        (λ octet. Leaf own (octet_or others.new.items octet)) result }
    ensures others { IfOk result (λ octet. octet ≡ None → length others.new.items ≡ 1 → ⊥) }
    ensures stands { OnOk result (Uses pull.old pull.new) }
{
    let at = expect_tag(pull, own)?;
    let octet = pull.primitive_octet(others)?;
    if octet.is_none() && !is_integer(others) {
        return Err(pull.refuse(at, Reason::BadInteger, None));
    }
    Ok(octet)
}

/// Whether the octets are the contents of an INTEGER.
pub(crate) fn is_integer(octets: &[u8]) -> bool
    ensures is { IsTrue result ↔ IsInteger octets.now }
    ensures test { result ≡ is_integer_contents octets.now }
{
    match octets {
        [] => false,
        [_] => true,
        [first, second, ..] => (*first != 0 || *second >= 128) && (*first != 255 || *second < 128),
    }
}

impl DerText for Int {
    ghost use Rattle.asn_elements.specs.Leaves.{integer_of};

    ghost value = { λ n. Leaf (universal 2) (integer_of n) };

    ghost one_text = { λ x y. leaf_one_text (universal 2) (universal 2) (integer_of x)
        (integer_of y) };

    fn size(&self) -> u64 {
        leaf_size(universal_tag(2), &self.contents)
    }

    fn put<W: Target>(&self, sink: &mut Sink<'_, W>) -> Result<(), WriteError> {
        put_leaf(universal_tag(2), &self.contents, sink)
    }

    fn octet(&self, i: u64) -> Option<u8> {
        leaf_octet(universal_tag(2), &self.contents, i)
    }
}

impl Element for Int {
    ghost type_term = { LeafType (universal 2) Integer };

    ghost closed = { leaf_closed (universal 2) Integer };

    #[tactic(auto, unfolding(x690::specs::TypeTerms::fits_tag))]
    fn fits(tag: Tag) -> bool {
        is_same_tag(universal_tag(2), tag)
    }

    fn read<R: Source>(alloc: Global, pull: &mut Pull<'_, R>) -> Result<Int, ReadError> {
        let contents = read_leaf_as(alloc, pull, universal_tag(2), SimpleType::Integer)?;
        Ok(Int { contents })
    }

    fn judge(octets: &[u8], _limits: Limits, _left: u8) -> Option<&[u8]> {
        universal_leaf_in_der(octets, 2, SimpleType::Integer)
    }
}
