// Members in octets at hand that are in DER as they stand: no octet is copied, and no memory is taken.
ghost use Rattle.std.specs.Prelude.{◌≡◌, ◌≤◌, IfSome, cond, length, true};
ghost use Rattle.x690.specs.TypeTerms.{SequenceOfType, SetOfType};
ghost use Rattle.asn_elements.specs.InDer.{BeginsInDer};
ghost use Rattle.asn_elements.specs.MembersInDer.{AreMembers, AreOrderedMembers};

use asn_elements::element::Element;
use asn_elements::in_der::element_in_der;
use tlv_core::limits::Limits;
use tlv_core::tag::Tag;

/// Whether all of the octets are members of the type, one after another.
fn are_members<T: Element>(octets: &[u8], limits: Limits, left: u8) -> bool
    ensures { result ≡ true → AreMembers limits.depth left T.type_term octets.now }
{
    let mut rest = octets;
    while !rest.is_empty() {
        let Some(behind) = T::judge(rest, limits, left) else {
            return false;
        };
        rest = behind;
    }
    true
}

/// The same, in the order of SET OF (X.690 11.6).
fn are_ordered_members<T: Element>(octets: &[u8], limits: Limits, left: u8) -> bool
    ensures { result ≡ true → AreOrderedMembers limits.depth left T.type_term octets.now }
{
    let mut rest = octets;
    let mut before: &[u8] = &[];
    while !rest.is_empty() {
        let Some(behind) = T::judge(rest, limits, left) else {
            return false;
        };
        let text = &rest[..rest.len() - behind.len()];
        if text.cmp(before).is_lt() {
            return false;
        }
        before = text;
        rest = behind;
    }
    true
}

/// Whether contents have a member where there has to be one.
fn has_least(some: bool, contents: &[u8]) -> bool
    ensures { result ≡ true → cond some 1 0 ≤ length contents.now }
{
    !some || !contents.is_empty()
}

/// What stands after the SEQUENCE OF under this tag that octets begin with, where it is in DER as it stands; it has one
/// member at least, or any number.
pub fn judge_list<T: Element>(
    octets: &[u8],
    limits: Limits,
    left: u8,
    tag: Tag,
    some: bool,
) -> Option<&[u8]>
    ensures { IfSome result (λ rest. BeginsInDer limits.depth left
        (SequenceOfType tag (cond some 1 0) T.type_term) octets.now rest.now) }
{
    if left == 0 {
        return None;
    }
    let (contents, rest) = element_in_der(octets, tag, true)?;
    if !has_least(some, contents) {
        return None;
    }
    if !are_members::<T>(contents, limits, left - 1) {
        return None;
    }
    Some(rest)
}

/// The same of a SET OF.
pub fn judge_set<T: Element>(
    octets: &[u8],
    limits: Limits,
    left: u8,
    tag: Tag,
    some: bool,
) -> Option<&[u8]>
    ensures { IfSome result (λ rest. BeginsInDer limits.depth left
        (SetOfType tag (cond some 1 0) T.type_term) octets.now rest.now) }
{
    if left == 0 {
        return None;
    }
    let (contents, rest) = element_in_der(octets, tag, true)?;
    if !has_least(some, contents) {
        return None;
    }
    if !are_ordered_members::<T>(contents, limits, left - 1) {
        return None;
    }
    Some(rest)
}
