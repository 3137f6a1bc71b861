//! The tags that types carry (X.690 8.1.2).
ghost use Rattle.std.specs.Prelude.{◌≡◌, ◌<◌, ◌∷◌, ◌/◌, ◌%◌, ◌^◌, [], IfSome};
ghost use Rattle.tlv_core.specs.Classes.{class_bits};
ghost use Rattle.tlv_core.specs.Identifier.{IsTag, identifier};
ghost use Rattle.x690.specs.Layouts.{context_specific, same_tag, universal};

use tlv_core::tag::{Class, Tag};

/// The universal tag of this number, which the standard gives to a type (X.680 8.4).
pub fn universal_tag(number: u32) -> Tag
    requires some { 0 < number }
    requires small { number < 2 ^ 28 }
    ensures { result ≡ universal number }
{
    match Tag::new(Class::Universal, number) {
        Some(tag) => tag,
        None => unreachable!(),
    }
}

/// The context-specific tag of this number, by which the fields of one type are told apart.
pub fn context_tag(number: u32) -> Tag
    requires { number < 2 ^ 28 }
    ensures { result ≡ context_specific number }
{
    match Tag::new(Class::Context, number) {
        Some(tag) => tag,
        None => unreachable!(),
    }
}

/// The class as the bits of an identifier have it (X.690 8.1.2.2).
fn class_number(class: Class) -> u8
    ensures bits { result ≡ class_bits class }
    ensures four { result < 4 }
{
    match class {
        Class::Universal => 0,
        Class::Application => 1,
        Class::Context => 2,
        Class::Private => 3,
    }
}

/// The identifier octet of an element of this tag and form; `None` where the tag needs more (X.690 8.1.2.4).
#[inline(always)]
pub(crate) fn identifier_octet(tag: Tag, constructed: bool) -> Option<u8>
    ensures is { IfSome result (λ octet. identifier tag constructed ≡ octet ∷ []) }
    ensures tag { IfSome result (λ _. IsTag tag) }
{
    let number = tag.number();
    let class = class_number(tag.class());
    if number >= 31 || (class == 0 && number == 0) {
        return None;
    }
    let form = if constructed { 32 } else { 0 };
    Some(class * 64 + form + number as u8)
}

/// The tag of an element with this identifier octet; `None` where its identifier has more octets, and for that of
/// end-of-contents octets.
#[inline(always)]
pub fn tag_of_identifier(first: u8) -> Option<Tag>
    ensures class { IfSome result (λ tag. tag.class ≡ first / 64) }
    ensures number { IfSome result (λ tag. tag.number ≡ first % 32) }
    ensures low { IfSome result (λ tag. tag.number < 31) }
{
    let number = first % 32;
    if number == 31 {
        return None;
    }
    let class = match first / 64 {
        0 => Class::Universal,
        1 => Class::Application,
        2 => Class::Context,
        _ => Class::Private,
    };
    let tag = Tag::new(class, u32::from(number))?;
    Some(tag)
}

/// Whether the two are one tag.
pub fn is_same_tag(tag: Tag, other: Tag) -> bool
    ensures { result ≡ same_tag tag other }
{
    class_number(tag.class()) == class_number(other.class()) && tag.number() == other.number()
}
