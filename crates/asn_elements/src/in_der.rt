//! Elements in octets at hand that are in DER as they stand: no octet is copied, and no memory is taken.
ghost use Rattle.std.specs.Prelude.{◌≡◌, ◌++◌, ◌∷◌, ◌<◌, ◌^◌, [], IfSome, ℕ, length, true};
ghost use Rattle.tlv_core.specs.Identifier.{IsTag};
ghost use Rattle.tlv_core.specs.Length.{shortest_length};
ghost use Rattle.x690.specs.Contents.{bit_contents};
ghost use Rattle.x690.specs.DerTexts.{der_element};
ghost use Rattle.x690.specs.Layouts.{universal};
ghost use Rattle.x690.specs.ReadContents as reading;
ghost use Rattle.x690.specs.TypeTerms.{LeafType};
ghost use Rattle.asn_elements.specs.InDer.{BeginsInDer};
ghost use Rattle.asn_elements.specs.Reading.{kind_of};

use crate::leaf_reading::{SimpleType, is_contents};
use crate::tags::{identifier_octet, tag_of_identifier, universal_tag};
use ber_pull::bits::without_last_bits;
use tlv_core::tag::Tag;

/// The length that octets begin with, in the fewest octets, which are four at most (X.690 8.1.3, 10.1), and what stands
/// after it.
#[inline(always)]
fn length_in_der(octets: &[u8]) -> Option<(usize, &[u8])>
    ensures is { IfSome result (λ x. octets.now ≡ shortest_length x.0 ++ x.1.now) }
    ensures small { IfSome result (λ x. x.0 < 2 ^ 24) }
{
    match octets {
        [first, rest @ ..] if *first < 128 => Some((usize::from(*first), rest)),
        [first, low, rest @ ..] if *first == 129 && *low >= 128 => Some((usize::from(*low), rest)),
        [first, high, low, rest @ ..] if *first == 130 && *high > 0 => {
            Some((usize::from(*high) * 256 + usize::from(*low), rest))
        }
        [first, high, middle, low, rest @ ..] if *first == 131 && *high > 0 => {
            let upper = usize::from(*high) * 256 + usize::from(*middle);
            Some((upper * 256 + usize::from(*low), rest))
        }
        _ => None,
    }
}

/// The contents of the element of this tag and form that octets begin with, and what stands after it: where its
/// identifier is one octet, and its length is in the fewest octets.
#[inline(always)]
pub fn element_in_der(octets: &[u8], tag: Tag, constructed: bool) -> Option<(&[u8], &[u8])>
    ensures is { IfSome result (λ x. octets.now ≡ der_element tag constructed x.0.now ++ x.1.now) }
    ensures small { IfSome result (λ x. length x.0.now < 2 ^ 24) }
    ensures tag { IfSome result (λ _. IsTag tag) }
{
    let identifier = identifier_octet(tag, constructed)?;
    let [first, behind @ ..] = octets else {
        return None;
    };
    if *first != identifier {
        return None;
    }
    let (size, contents) = length_in_der(behind)?;
    if contents.len() < size {
        return None;
    }
    Some((&contents[..size], &contents[size..]))
}

/// The tag, the form and the contents of the element that octets begin with, and what stands after it: where its
/// identifier is one octet, and its length is in the fewest octets.
#[inline(always)]
pub fn any_element_in_der(octets: &[u8]) -> Option<(Tag, bool, &[u8], &[u8])>
    ensures is { IfSome result (λ x. octets.now ≡ der_element x.0 x.1 x.2.now ++ x.3.now) }
    ensures small { IfSome result (λ x. length x.2.now < 2 ^ 24) }
    ensures tag { IfSome result (λ x. IsTag x.0) }
{
    let [first, behind @ ..] = octets else {
        return None;
    };
    let tag = tag_of_identifier(*first)?;
    // (the bit of constructed elements, X.690 8.1.2.5)
    let constructed = *first % 64 >= 32;
    let (size, contents) = length_in_der(behind)?;
    if contents.len() < size {
        return None;
    }
    Some((tag, constructed, &contents[..size], &contents[size..]))
}

/// Whether the unused bits of a BIT STRING of these contents are 0 (X.690 11.2.1).
fn has_cleared_bits(contents: &[u8]) -> bool
    requires { reading.is_bit_segment contents.now ≡ true }
    ensures { result ≡ true → bit_contents (contents.now ∷ []) ≡ contents.now }
{
    let last = contents.len() - 1;
    last == 0 || without_last_bits(contents[last], contents[0]) == contents[last]
}

/// Whether the octets are the contents in DER of a leaf of the kind.
#[inline(always)]
pub fn is_der_contents(kind: SimpleType, contents: &[u8]) -> bool
    ensures contents { result ≡ true → reading.is_contents (kind_of kind) contents.now ≡ true }
    ensures der { result ≡ true → reading.der_contents (kind_of kind) contents.now ≡ contents.now }
{
    if !is_contents(kind, contents) {
        return false;
    }
    match kind {
        SimpleType::Boolean => contents[0] == 0 || contents[0] == 255,
        SimpleType::BitString => has_cleared_bits(contents),
        SimpleType::Integer
        | SimpleType::Null
        | SimpleType::ObjectIdentifier
        | SimpleType::OctetString
        | SimpleType::Utf8String => true,
    }
}

/// What stands after the leaf of this tag and kind that octets begin with.
#[inline(always)]
pub(crate) fn leaf_in_der(octets: &[u8], tag: Tag, kind: SimpleType) -> Option<&[u8]>
    ensures { IfSome result (λ rest. (limit left : ℕ)
        → BeginsInDer limit left (LeafType tag (kind_of kind)) octets.now rest.now) }
{
    let (contents, rest) = element_in_der(octets, tag, false)?;
    if !is_der_contents(kind, contents) {
        return None;
    }
    Some(rest)
}

/// The same, where the tag is the universal one of this number.
#[inline(always)]
pub fn universal_leaf_in_der(octets: &[u8], number: u32, kind: SimpleType) -> Option<&[u8]>
    requires some { 0 < number }
    requires small { number < 2 ^ 28 }
    ensures { IfSome result (λ rest. (limit left : ℕ)
        → BeginsInDer limit left (LeafType (universal number) (kind_of kind)) octets.now rest.now) }
{
    let rest = leaf_in_der(octets, universal_tag(number), kind)?;
    Some(rest)
}
