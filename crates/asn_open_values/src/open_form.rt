// What an open value is read as, by its tag alone (profile).
ghost use Rattle.std.specs.Prelude.{◌≡◌};
ghost use Rattle.x690.specs.OpenValues as forms;
ghost use Rattle.asn_open_values.specs.OpenTexts.{form_of};

use asn_elements::leaf_reading::SimpleType;
use tlv_core::tag::{Class, Tag};

/// What an open value is read as.
#[derive(Clone, Copy)]
pub enum OpenForm {
    Leaf(SimpleType),
    Sequence,
    SetOf,
    /// Octets where it is primitive, elements in order where it is constructed.
    Plain,
    Refused,
}

/// What an open value of this tag is read as.
#[tactic(auto, unfolding(x690::specs::OpenValues::open_form))]
#[inline(always)]
pub fn open_form(tag: Tag) -> OpenForm
    ensures { form_of result ≡ forms.open_form tag }
{
    if tag.class() != Class::Universal {
        return OpenForm::Plain;
    }
    match tag.number() {
        1 => OpenForm::Leaf(SimpleType::Boolean),
        2 | 10 => OpenForm::Leaf(SimpleType::Integer),
        3 => OpenForm::Leaf(SimpleType::BitString),
        4 | 7 | 18..=28 | 30 => OpenForm::Leaf(SimpleType::OctetString),
        5 => OpenForm::Leaf(SimpleType::Null),
        6 => OpenForm::Leaf(SimpleType::ObjectIdentifier),
        12 => OpenForm::Leaf(SimpleType::Utf8String),
        16 => OpenForm::Sequence,
        17 => OpenForm::SetOf,
        _ => OpenForm::Refused,
    }
}
