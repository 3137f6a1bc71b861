//! Tags and types in words.
ghost use Rattle.std.specs.Prelude.{◌≡◌, ◌++◌, OnOk, string_bytes};
ghost use Rattle.reports.specs.TypeWords.{bracketed, field_said, fields_said, shape_said, shape_tag_said, tag_said};
ghost use Rattle.reports.specs.TypeWords.{universal_name, universal_said};

use crate::text::push_number;
use pkix_shapes::shape::{Fields, Shape, ShapeTag};
use std::alloc::AllocError;
use tlv_core::tag::{Class, Tag};

/// A tag: the name of its type where it is universal and has one, else its class and its number in brackets.
pub fn push_tag(text: &mut String, tag: Tag) -> Result<(), AllocError>
    ensures { OnOk result (string_bytes text.new ≡ string_bytes text.old ++ tag_said tag) }
{
    match tag.class() {
        Class::Universal => push_universal(text, tag.number()),
        Class::Application => push_bracketed(text, "[APPLICATION ", tag.number()),
        Class::Context => push_bracketed(text, "[", tag.number()),
        Class::Private => push_bracketed(text, "[PRIVATE ", tag.number()),
    }
}

/// The universal tag of a number.
#[tactic(auto, unfolding(crate::specs::TypeWords::universal_said))]
fn push_universal(text: &mut String, number: u32) -> Result<(), AllocError>
    ensures { OnOk result (string_bytes text.new ≡ string_bytes text.old
        ++ universal_said number) }
{
    let name = universal_name(number);
    if name.is_empty() {
        push_bracketed(text, "[UNIVERSAL ", number)
    } else {
        text.push_str(name)
    }
}

/// A number in brackets.
fn push_bracketed(text: &mut String, before: &str, number: u32) -> Result<(), AllocError>
    ensures { OnOk result (string_bytes text.new ≡ string_bytes text.old
        ++ bracketed before.now number) }
{
    text.push_str(before)?;
    push_number(text, u64::from(number))?;
    text.push_str("]")
}

/// The name of the type that has this universal tag (X.680 8.4), empty where there is none.
#[tactic(auto, unfolding(crate::specs::TypeWords::universal_name))]
fn universal_name(number: u32) -> &'static str
    ensures { result.now ≡ universal_name number }
{
    match number {
        1 => "BOOLEAN",
        2 => "INTEGER",
        3 => "BIT STRING",
        4 => "OCTET STRING",
        5 => "NULL",
        6 => "OBJECT IDENTIFIER",
        10 => "ENUMERATED",
        12 => "UTF8String",
        16 => "SEQUENCE",
        17 => "SET",
        18 => "NumericString",
        19 => "PrintableString",
        20 => "TeletexString",
        22 => "IA5String",
        23 => "UTCTime",
        24 => "GeneralizedTime",
        26 => "VisibleString",
        28 => "UniversalString",
        30 => "BMPString",
        _ => "",
    }
}

/// The tag of a type.
#[tactic(auto, unfolding(crate::specs::TypeWords::shape_tag_said))]
fn push_shape_tag(text: &mut String, tag: ShapeTag) -> Result<(), AllocError>
    ensures { OnOk result (string_bytes text.new ≡ string_bytes text.old
        ++ shape_tag_said tag) }
{
    match tag {
        ShapeTag::Universal(number) => push_universal(text, number),
        ShapeTag::Context(number) => push_bracketed(text, "[", number),
    }
}

/// A type by the tags that its values may have.
pub(crate) fn push_shape(text: &mut String, shape: &Shape) -> Result<(), AllocError>
    ensures { OnOk result (string_bytes text.new ≡ string_bytes text.old
        ++ shape_said shape.now) }
{
    match shape {
        Shape::Leaf(tag, _) => push_shape_tag(text, *tag),
        Shape::Open => text.push_str("any type"),
        Shape::ListOf(tag, _, _) => push_shape_tag(text, *tag),
        Shape::SetOf(tag, _, _) => push_shape_tag(text, *tag),
        Shape::Sequence(tag, _) => push_shape_tag(text, *tag),
        Shape::Containing(tag, _) => push_shape_tag(text, *tag),
        Shape::Refused(tag) => push_shape_tag(text, *tag),
        Shape::DefinedBy(_, _, _, other) => push_shape(text, other),
        Shape::Choice(first, second) => {
            push_shape(text, first)?;
            text.push_str(" or ")?;
            push_shape(text, second)
        }
        Shape::Named(_, shape) => push_shape(text, shape),
        Shape::Private(shape) => push_shape(text, shape),
    }
}

/// A field: its name and its type.
fn push_field(text: &mut String, name: &str, shape: &Shape) -> Result<(), AllocError>
    ensures { OnOk result (string_bytes text.new ≡ string_bytes text.old
        ++ field_said name.now shape.now) }
{
    if name.is_empty() {
        return push_shape(text, shape);
    }
    text.push_str(name)?;
    text.push_str(" (")?;
    push_shape(text, shape)?;
    text.push_str(")")
}

/// The fields one of which may come first.
pub(crate) fn push_fields(text: &mut String, fields: &Fields) -> Result<(), AllocError>
    ensures { OnOk result (string_bytes text.new ≡ string_bytes text.old
        ++ fields_said fields.now) }
{
    match fields {
        Fields::End => text.push_str("nothing more"),
        Fields::Required(name, shape, _) => push_field(text, name, shape),
        Fields::Optional(name, shape, after) | Fields::Default(name, _, shape, after) => {
            push_field(text, name, shape)?;
            text.push_str(" or ")?;
            push_fields(text, after)
        }
    }
}
