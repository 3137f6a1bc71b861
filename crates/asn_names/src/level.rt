//! What is due in a container, and which place an element has there.
ghost use Rattle.std.specs.Prelude.{◌≡◌};
ghost use Rattle.pkix_shapes.specs.Dues.{may_end};
ghost use Rattle.pkix_shapes.specs.Terms.{fields_of};
ghost use Rattle.asn_names.specs.Levels.{holds_segments, level_of, may_close, outermost, place_in};

use crate::element::{Level, Step};
use pkix_shapes::due::{FieldMatch, match_field};
use pkix_shapes::shape::{Fields, Shape};
use tlv_core::tag::{Class, Tag};

/// The place of an element in a container.
#[derive(Clone, Copy)]
pub(crate) struct Place {
    pub step: Step,
    /// Its type. A segment has none.
    pub shape: Option<&'static Shape>,
    /// What is due after it in the container around it, where there is one.
    pub after: Option<Level>,
}

/// The place of an element of the tag where this is due.
pub(crate) fn place_in(level: Level, tag: Tag) -> Option<Place>
    ensures { result ≡ place_in level tag }
{
    match level {
        Level::Fields(left) => match match_field(left, tag) {
            FieldMatch::Field(name, shape, after) => Some(Place {
                step: Step::Field(name),
                shape: Some(shape),
                after: Some(Level::Fields(after)),
            }),
            _ => None,
        },
        Level::Members(shape, least, number) => {
            if !shape.fits(tag) {
                return None;
            }
            Some(Place {
                step: Step::Member(number),
                shape: Some(shape),
                after: Some(Level::Members(shape, least, number.saturating_add(1))),
            })
        }
        Level::Segments(number) => Some(Place {
            step: Step::Segment(number),
            shape: None,
            after: Some(Level::Segments(number.saturating_add(1))),
        }),
    }
}

/// The place of the outermost element, of this type.
pub(crate) fn outermost(root: &'static Shape, tag: Tag) -> Option<Place>
    ensures { result ≡ outermost root.entry tag }
{
    if !root.fits(tag) {
        return None;
    }
    Some(Place {
        step: Step::Outermost,
        shape: Some(root),
        after: None,
    })
}

/// What is due first in a container of this tag and type.
pub(crate) fn level_of(tag: Tag, shape: Option<&'static Shape>) -> Level
    ensures { result ≡ level_of tag shape.entry }
{
    let Some(shape) = shape else {
        return Level::Segments(0);
    };
    match shape {
        Shape::Sequence(_, fields) => Level::Fields(fields),
        Shape::ListOf(_, least, member) => Level::Members(member, *least, 0),
        Shape::SetOf(_, least, member) => Level::Members(member, *least, 0),
        Shape::Open => {
            if holds_segments(tag) {
                Level::Segments(0)
            } else {
                Level::Members(shape, 0, 0)
            }
        }
        _ => Level::Segments(0),
    }
}

/// Whether an open value of the tag is a string, which holds segments (X.680 8.4, table 1; X.690 8.14, 8.23, 8.25).
fn holds_segments(tag: Tag) -> bool
    ensures { result ≡ holds_segments tag }
{
    tag.class() == Class::Universal
        && match tag.number() {
            3 | 4 | 7 | 12 | 18..=28 | 30 => true,
            _ => false,
        }
}

/// Whether a container may end where this is due.
pub(crate) fn may_close(level: Level) -> bool
    ensures { result ≡ may_close level }
{
    match level {
        Level::Fields(left) => fields_may_end(left),
        Level::Members(_, least, number) => u64::from(least) <= number,
        Level::Segments(_) => true,
    }
}

/// Whether none of the fields has to be there.
fn fields_may_end(fields: &'static Fields) -> bool
    ensures { result ≡ may_end (fields_of fields.now) }
{
    match fields {
        Fields::End => true,
        Fields::Required(..) => false,
        Fields::Optional(_, _, after) | Fields::Default(_, _, _, after) => fields_may_end(after),
    }
}
