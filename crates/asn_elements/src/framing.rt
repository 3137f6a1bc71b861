// The text of an element by its header and its contents.
ghost use Rattle.std.specs.Prelude.{◌≡◌, ◌+◌, ◌<◌, ◌^◌, length, Bool};
ghost use Rattle.tlv_core.specs.Header.{der_header};
ghost use Rattle.tlv_core.specs.Sinks.{count, Puts};
ghost use Rattle.asn_elements.specs.Framing.{StandsAt};

use tlv_core::der::{header, header_size, short_header};
use tlv_core::sink::{Sink, WriteError};
use tlv_core::tag::Tag;
use tlv_core::target::Target;

/// Where an octet of an element's text stands: in the header, or at a place in the contents.
pub enum Stands {
    InHeader(u8),
    InContents(u64),
}

/// Where octet `i` stands in the text of an element with so many contents octets.
pub fn find_octet(tag: Tag, constructed: bool, content: u64, i: u64) -> Stands
    ensures { StandsAt (der_header tag constructed content) i result }
{
    let header = header(tag, constructed, content);
    let octets = header.octets();
    let size = octets.len() as u64;
    if i < size {
        Stands::InHeader(octets[i as usize])
    } else {
        Stands::InContents(i - size)
    }
}

/// The length of the text of an element with so many contents octets.
pub fn element_size(tag: Tag, content: u64) -> u64
    requires { content < 2 ^ 63 }
    ensures { (constructed : Bool)
        → result ≡ length (der_header tag constructed content) + content }
{
    header_size(tag, content) + content
}

/// Writes the header of an element with so many contents octets.
#[inline(always)]
pub fn put_header<W: Target>(
    tag: Tag,
    constructed: bool,
    content: u64,
    sink: &mut Sink<'_, W>,
) -> Result<(), WriteError>
    requires { count sink.old + length (der_header tag constructed content) < 2 ^ 64 }
    ensures { Puts (der_header tag constructed content) sink.old sink.new result }
{
    match short_header(tag, constructed, content) {
        Some(octets) => sink.put(&octets),
        None => sink.put(header(tag, constructed, content).octets()),
    }
}
