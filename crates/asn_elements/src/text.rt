//! Character strings and times (X.690 8.23, 8.25).
ghost use Rattle.x690_laws.proofs.TextsTellApart.{leaf_one_text};
ghost use Rattle.x690_laws.proofs.TypesClosed.{strings_closed};
ghost use Rattle.std.specs.Prelude.{◌≡◌, None, Some, IfErr, IfOk, IsSome, IsUtf8, OnOk, true};
ghost use Rattle.tlv_core.specs.declared.reason.Reason.TheVariants.{WrongTag};
ghost use Rattle.x690.specs.Layouts.{same_tag, universal};
ghost use Rattle.x690.specs.Points.{fault};
ghost use Rattle.x690.specs.ReadContents.{is_contents};
ghost use Rattle.x690.specs.Reading.{Reading, require};
ghost use Rattle.x690.specs.StringTypes.{string_types};
ghost use Rattle.x690.specs.TypeTerms.{fits_tag};
ghost use Rattle.x690.specs.Values.{Leaf, Value};
ghost use Rattle.ber_pull.specs.Hears.{heard_error};
ghost use Rattle.ber_pull.specs.View.{standing, Repeats, Answers, Unmoved, Frame};
ghost use Rattle.ber_pull.specs.declared.state.Given.{Given};
ghost use Rattle.asn_elements.specs.Reading.{kind_of, string_kind};

use crate::der_text::DerText;
use crate::element::Element;
use crate::leaf::{leaf_octet, leaf_size, put_leaf};
use crate::leaf_reading::{SimpleType, read_leaf_into};
use crate::tags::{is_same_tag, universal_tag};
use ber_pull::pull::Pull;
use std::alloc::Global;
use tlv_core::fault::ReadError;
use tlv_core::reason::Reason;
use tlv_core::sink::{Sink, WriteError};
use tlv_core::source::Source;
use tlv_core::tag::{Class, Tag};
use tlv_core::target::Target;

/// A character string or time, of whichever type its tag says (X.680 table 1). A UTF8String is UTF-8; of all others the
/// octets are carried as they are.
#[derive(Drop)]
pub struct Text {
    tag: Tag,
    octets: Vec<u8>,
    ghost string: { fits_tag string_types tag ≡ true },
    ghost contents: { is_contents (string_kind (same_tag (universal 12) tag)) octets.items ≡ true },
}

impl Text {
    ghost use Rattle.asn_elements.specs.Leaves.{text_octets, text_tag};

    /// The tag of its type, which is universal 7, 12, 18 to 28 or 30.
    pub fn tag(&self) -> Tag
        ensures value { result ≡ text_tag self.now }
        ensures string { fits_tag string_types result ≡ true }
    {
        self.tag
    }

    /// The octets, which are UTF-8 where the tag is universal 12.
    pub fn octets(&self) -> &[u8]
        ensures value { result.now ≡ text_octets self.now }
        ensures utf8 { text_tag self.now ≡ universal 12 → IsUtf8 (text_octets self.now) }
    {
        &self.octets
    }
}

/// Whether the tag is that of a character string or time.
#[tactic(auto, unfolding(x690::specs::TypeTerms::fits_tag, x690::specs::StringTypes::string_types))]
fn is_string_tag(tag: Tag) -> bool
    ensures { result ≡ fits_tag string_types tag }
{
    tag.class() == Class::Universal && matches!(tag.number(), 7 | 12 | 18..=28 | 30)
}

/// How a string of this tag is read.
fn kind_by_tag(tag: Tag) -> SimpleType
    ensures { kind_of result ≡ string_kind (same_tag (universal 12) tag) }
{
    if is_same_tag(universal_tag(12), tag) {
        SimpleType::Utf8String
    } else {
        SimpleType::OctetString
    }
}

/// The tag of the element that is given, which has to be that of a character string or time: else `WrongTag`.
fn expect_string<R: Source>(pull: &mut Pull<'_, R>) -> Result<Tag, ReadError>
    requires { (standing pull.old).error ≡ None → IsSome (standing pull.old).given }
    ensures frame { Frame pull.old pull.new result }
    ensures repeats { Repeats pull.old pull.new result }
    ensures stops { (g : Given) → (standing pull.old).error ≡ None
        → (standing pull.old).given ≡ Some g
        → IfErr result (λ e. (p : Reading Value)
        → Answers pull.old pull.new
        (require (fits_tag string_types g.tag) (fault g.at WrongTag) p) (heard_error e)) }
    ensures is { (g : Given) → (standing pull.old).error ≡ None → (standing pull.old).given ≡ Some g
        → IfOk result (λ tag. tag ≡ g.tag) }
    ensures string { IfOk result (λ tag. fits_tag string_types tag ≡ true) }
    ensures same { OnOk result (Unmoved pull.old pull.new) }
    ensures fine { OnOk result ((standing pull.old).error ≡ None) }
{
    let at = pull.at();
    let Some((tag, _)) = pull.next_tag()? else {
        unreachable!()
    };
    if !is_string_tag(tag) {
        return Err(pull.refuse(at, Reason::WrongTag, None));
    }
    Ok(tag)
}

impl DerText for Text {
    ghost use Rattle.asn_elements.specs.Leaves.{text_octets, text_tag};

    ghost value = { λ text. Leaf (text_tag text) (text_octets text) };

    ghost one_text = { λ x y. leaf_one_text (text_tag x) (text_tag y) (text_octets x)
        (text_octets y) };

    fn size(&self) -> u64 {
        leaf_size(self.tag, &self.octets)
    }

    fn put<W: Target>(&self, sink: &mut Sink<'_, W>) -> Result<(), WriteError> {
        put_leaf(self.tag, &self.octets, sink)
    }

    fn octet(&self, i: u64) -> Option<u8> {
        leaf_octet(self.tag, &self.octets, i)
    }
}

impl Element for Text {
    ghost type_term = { string_types };

    ghost closed = { strings_closed };

    fn fits(tag: Tag) -> bool {
        is_string_tag(tag)
    }

    fn read<R: Source>(alloc: Global, pull: &mut Pull<'_, R>) -> Result<Text, ReadError> {
        let tag = expect_string(pull)?;
        let mut octets = Vec::new(alloc);
        read_leaf_into(alloc, pull, kind_by_tag(tag), &mut octets)?;
        Ok(Text { tag, octets })
    }
}
