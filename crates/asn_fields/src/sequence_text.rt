//! The text of a SEQUENCE by its fields: a header, and then the text of each that is there (X.690 8.9).
ghost use Rattle.std.specs.Prelude.{◌≡◌, ◌+◌, ◌<◌, ◌^◌, length, slice_get};
ghost use Rattle.tlv_core.specs.Sinks.{count, Puts};
ghost use Rattle.x690.specs.DerTexts.{der, texts_of};
ghost use Rattle.x690.specs.Values.{Sequence, values_of};

use crate::field_list::FieldsText;
use asn_elements::framing::{Stands, element_size, find_octet, put_header};
use tlv_core::sink::{Sink, WriteError};
use tlv_core::tag::Tag;
use tlv_core::target::Target;

/// The length of the text of a SEQUENCE of these fields.
pub fn sequence_size<F: FieldsText>(tag: Tag, fields: &F) -> u64
    requires { length (texts_of (F.values fields.now)) < 2 ^ 63 }
    ensures { result ≡ length (der (Sequence tag (values_of (F.values fields.now)))) }
{
    element_size(tag, fields.size())
}

/// Writes the text of a SEQUENCE of these fields.
pub fn put_sequence<F: FieldsText, W: Target>(
    tag: Tag,
    fields: &F,
    sink: &mut Sink<'_, W>,
) -> Result<(), WriteError>
    requires small { length (texts_of (F.values fields.now)) < 2 ^ 63 }
    requires room { count sink.old + length (der (Sequence tag (values_of (F.values fields.now))))
        < 2 ^ 64 }
    ensures { Puts (der (Sequence tag (values_of (F.values fields.now)))) sink.old sink.new result }
{
    put_header(tag, true, fields.size(), sink)?;
    fields.put(sink)
}

/// Octet `i` of the text of a SEQUENCE of these fields.
pub fn sequence_octet<F: FieldsText>(tag: Tag, fields: &F, i: u64) -> Option<u8>
    requires { length (texts_of (F.values fields.now)) < 2 ^ 63 }
    ensures { result ≡ slice_get (der (Sequence tag (values_of (F.values fields.now)))) i }
{
    match find_octet(tag, true, fields.size(), i) {
        Stands::InHeader(octet) => Some(octet),
        Stands::InContents(at) => fields.octet(at),
    }
}
