// The texts of leaves.
ghost use Rattle.std.specs.Prelude.{◌≡◌, ◌+◌, ◌<◌, ◌^◌, ◌↔◌, IsTrue, length, slice_get};
ghost use Rattle.tlv_core.specs.Sinks.{count, Puts};
ghost use Rattle.x690.specs.DerTexts.{der};
ghost use Rattle.x690.specs.Values.{Leaf};

use crate::framing::{Stands, element_size, find_octet, put_header};
use tlv_core::sink::{Sink, WriteError};
use tlv_core::tag::Tag;
use tlv_core::target::Target;

/// The length of a leaf's text.
pub fn leaf_size(tag: Tag, contents: &[u8]) -> u64
    ensures { result ≡ length (der (Leaf tag contents.now)) }
{
    element_size(tag, contents.len() as u64)
}

/// Writes a leaf's text.
pub fn put_leaf<W: Target>(
    tag: Tag,
    contents: &[u8],
    sink: &mut Sink<'_, W>,
) -> Result<(), WriteError>
    requires { count sink.old + length (der (Leaf tag contents.now)) < 2 ^ 64 }
    ensures { Puts (der (Leaf tag contents.now)) sink.old sink.new result }
{
    put_header(tag, false, contents.len() as u64, sink)?;
    sink.put(contents)
}

/// An octet of a leaf's text.
pub fn leaf_octet(tag: Tag, contents: &[u8], i: u64) -> Option<u8>
    ensures { result ≡ slice_get (der (Leaf tag contents.now)) i }
{
    match find_octet(tag, false, contents.len() as u64, i) {
        Stands::InHeader(octet) => Some(octet),
        Stands::InContents(at) => {
            if at < contents.len() as u64 {
                Some(contents[at as usize])
            } else {
                None
            }
        }
    }
}

/// Whether a leaf's text is longer than 2^40 octets.
pub fn is_long_leaf(tag: Tag, contents: &[u8]) -> bool
    ensures { IsTrue result ↔ (2 ^ 40 < length (der (Leaf tag contents.now))) }
{
    leaf_size(tag, contents) > 1 << 40
}
