//! The one header that DER allows for a tag, a form and a length (X.690 10.1).
ghost use Rattle.std.specs.Prelude.{◌≡◌, ◌≤◌, ◌⊎◌, length, Bool, IfSome, IsNone};
ghost use Rattle.tlv_core.specs.Header.{der_header};

use crate::header::{Header, lead, number_size};
use crate::tag::Tag;

/// The header of an element with `content` contents octets: its identifier and the shortest length.
pub fn header(tag: Tag, constructed: bool, content: u64) -> Header
    ensures octets { result ≡ der_header tag constructed content }
    ensures short { length result ≤ 14 }
{
    let mut header = Header::empty();
    header.push_identifier(tag, constructed);
    header.push_length(content);
    header
}

/// The same where it has two octets: of a tag number below 31 and less than 128 contents octets.
pub fn short_header(tag: Tag, constructed: bool, content: u64) -> Option<[u8; 2]>
    ensures octets { IfSome result (λ octets. octets ≡ der_header tag constructed content) }
    ensures longer { IsNone result → (31 ≤ tag.number) ⊎ (128 ≤ content) }
{
    let number = tag.number();
    if number < 31 && content < 128 {
        Some([lead(tag, constructed, number as u8), content as u8])
    } else {
        None
    }
}

/// The length of such a header, in octets; both forms have the same.
pub fn header_size(tag: Tag, content: u64) -> u64
    ensures { (constructed : Bool) → result ≡ length (der_header tag constructed content) }
{
    if tag.number() >= 31 {
        return header(tag, false, content).octets().len() as u64;
    }
    if content < 128 {
        return 2;
    }
    2 + u64::from(number_size(content))
}
