//! What is at a fault, by one of a few tags.
ghost use Rattle.std.specs.Prelude.{◌≡◌};
ghost use Rattle.explain.specs.Classes.{class_at, class_of, with_class};

use asn_elements::tags::{context_tag, universal_tag};
use tlv_core::tag::Tag;

/// An element by its tag and form.
#[derive(Clone, Copy)]
pub(crate) struct ElementClass {
    pub(crate) tag: Tag,
    pub(crate) constructed: bool,
}

/// The identifier octet of the element that begins at a place, where its class is one of a few.
pub(crate) fn class_at(octets: &[u8], place: u64) -> Option<u8>
    ensures { result ≡ class_at octets.now place }
{
    if place < octets.len() as u64 {
        with_class(octets[place as usize])
    } else {
        None
    }
}

/// An identifier octet, where it says one of a few classes.
fn with_class(identifier: u8) -> Option<u8>
    ensures { result ≡ with_class identifier }
{
    match class_of(identifier) {
        Some(_) => Some(identifier),
        None => None,
    }
}

/// The class that an identifier octet says (X.690 8.1.2): INTEGER, BIT STRING, OCTET STRING, NULL, OBJECT IDENTIFIER,
/// UTF8String, SEQUENCE, SET, [0] or [1].
pub(crate) fn class_of(identifier: u8) -> Option<ElementClass>
    ensures { result ≡ class_of identifier }
{
    let (tag, constructed) = match identifier {
        2 => (universal_tag(2), false),
        3 => (universal_tag(3), false),
        4 => (universal_tag(4), false),
        5 => (universal_tag(5), false),
        6 => (universal_tag(6), false),
        12 => (universal_tag(12), false),
        0x30 => (universal_tag(16), true),
        0x31 => (universal_tag(17), true),
        0xA0 => (context_tag(0), true),
        0xA1 => (context_tag(1), true),
        _ => return None,
    };
    Some(ElementClass { tag, constructed })
}
