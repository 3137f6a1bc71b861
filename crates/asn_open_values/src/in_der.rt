// Open values in octets at hand that are in DER as they stand: no octet is copied, and no memory is taken.
ghost use Rattle.std.specs.Prelude.{◌≡◌, ◌++◌, ◌<◌, ◌^◌, IfSome, List, false, length, true, ℕ};
ghost use Rattle.tlv_core.specs.Identifier.{IsTag};
ghost use Rattle.x690.specs.DerTexts.{der_element};
ghost use Rattle.x690.specs.TypeTerms.{OpenType};
ghost use Rattle.asn_elements.specs.InDer.{BeginsInDer};
ghost use Rattle.asn_open_values.specs.OpenInDer.{AreContents, AreOpenMembers};

use crate::open_form::{OpenForm, open_form};
use asn_elements::in_der::{any_element_in_der, is_der_contents};
use tlv_core::tag::Tag;

/// Whether all of the octets are open values, one after another; those of a SET stand in the order of SET OF (X.690
/// 11.6).
#[cycle(judged)]
fn are_open_members(octets: &[u8], left: u8, is_set: bool) -> bool
    ensures { result ≡ true → (limit : ℕ) → AreOpenMembers is_set limit left octets.now }
{
    let mut rest = octets;
    let mut before: &[u8] = &[];
    while !rest.is_empty() {
        let Some(behind) = judge_open(rest, left) else {
            return false;
        };
        if is_set {
            let text = &rest[..rest.len() - behind.len()];
            if text.cmp(before).is_lt() {
                return false;
            }
            before = text;
        }
        rest = behind;
    }
    true
}

/// Whether these are the contents of a container of open values, with no more than `left` containers in each other, it
/// among them; those of a SET stand in the order of SET OF.
#[cycle(judged)]
fn are_contents(octets: &[u8], left: u8, is_set: bool) -> bool
    ensures { result ≡ true → (limit : ℕ) → AreContents is_set limit left octets.now }
{
    left > 0 && are_open_members(octets, left - 1, is_set)
}

/// Whether a constructed element of this tag with these contents is an open value in DER, with no more than `left`
/// containers in each other.
#[cycle(judged)]
#[inline(always)]
fn is_open_container(tag: Tag, contents: &[u8], left: u8) -> bool
    requires { length contents.now < 2 ^ 24 }
    ensures { result ≡ true → (limit : ℕ) (octets rest : List ℕ) → IsTag tag
        → octets ≡ der_element tag true contents.now ++ rest
        → BeginsInDer limit left OpenType octets rest }
{
    match open_form(tag) {
        OpenForm::Sequence => are_contents(contents, left, false),
        OpenForm::SetOf => are_contents(contents, left, true),
        OpenForm::Plain => are_contents(contents, left, false),
        OpenForm::Leaf(_) => false,
        OpenForm::Refused => false,
    }
}

/// The same of a primitive element.
#[inline(always)]
fn is_open_leaf(tag: Tag, contents: &[u8]) -> bool
    requires { length contents.now < 2 ^ 24 }
    ensures { result ≡ true → (limit left : ℕ) (octets rest : List ℕ) → IsTag tag
        → octets ≡ der_element tag false contents.now ++ rest
        → BeginsInDer limit left OpenType octets rest }
{
    match open_form(tag) {
        OpenForm::Leaf(kind) => is_der_contents(kind, contents),
        OpenForm::Plain => true,
        OpenForm::Sequence => false,
        OpenForm::SetOf => false,
        OpenForm::Refused => false,
    }
}

/// What stands after the open value that octets begin with, where it is in DER as it stands, with no more than `left`
/// containers in each other.
#[cycle(judged)]
#[inline(always)]
pub fn judge_open(octets: &[u8], left: u8) -> Option<&[u8]>
    ensures { IfSome result (λ rest. (limit : ℕ) → BeginsInDer limit left OpenType octets.now rest.now) }
{
    let Some((tag, constructed, contents, rest)) = any_element_in_der(octets) else {
        return None;
    };
    if constructed {
        if !is_open_container(tag, contents, left) {
            return None;
        }
        return Some(rest);
    }
    if !is_open_leaf(tag, contents) {
        return None;
    }
    Some(rest)
}
