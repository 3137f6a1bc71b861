//! Which field an element belongs to.
ghost use Rattle.std.specs.Prelude.{◌≡◌};
ghost use Rattle.pkix_shapes.specs.Dues.{due_in, match_in, match_of, name_due_in, name_of};
ghost use Rattle.pkix_shapes.specs.Terms.{fields_of};

use crate::shape::{Fields, Shape};
use tlv_core::tag::Tag;

/// What an element of a tag is among the fields of a SEQUENCE that are left.
#[derive(Clone, Copy)]
pub enum FieldMatch {
    /// It belongs to the field of this name and type; these are after it.
    Field(&'static str, &'static Shape, &'static Fields),
    /// It belongs to none: the field of this name and type is due.
    Wrong(&'static str, &'static Shape),
    /// It belongs to none, and none is due any more.
    Extra,
}

/// What an element of the tag is, where these fields are left.
pub fn match_field(fields: &'static Fields, tag: Tag) -> FieldMatch
    ensures due { match_of result ≡ due_in (fields_of fields.now) tag }
    ensures named { name_of result ≡ name_due_in fields.now tag }
    ensures whole { result ≡ match_in fields.now tag }
{
    match fields {
        Fields::End => FieldMatch::Extra,
        Fields::Required(name, shape, after) => {
            if shape.fits(tag) {
                FieldMatch::Field(name, shape, after)
            } else {
                FieldMatch::Wrong(name, shape)
            }
        }
        Fields::Optional(name, shape, after) | Fields::Default(name, _, shape, after) => {
            if shape.fits(tag) {
                FieldMatch::Field(name, shape, after)
            } else {
                match_field(after, tag)
            }
        }
    }
}
