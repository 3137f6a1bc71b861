//! A type as data.
ghost use Rattle.std.specs.Prelude.{◌≡◌};
ghost use Rattle.pkix_shapes.specs.Terms.{tag_of, term_of};
ghost use Rattle.x690.specs.Layouts.{same_tag};
ghost use Rattle.x690.specs.TypeTerms.{fits_tag};

use tlv_core::tag::{Class, Tag};

/// The tag of a type, by its number (X.690 8.1.2).
#[derive(Clone, Copy)]
pub enum ShapeTag {
    Universal(u32),
    Context(u32),
}

impl ShapeTag {
    /// Whether it is this tag.
    pub fn is(self, tag: Tag) -> bool
        ensures { result ≡ same_tag (tag_of self) tag }
    {
        match self {
            ShapeTag::Universal(number) => {
                tag.class() == Class::Universal && tag.number() == number
            }
            ShapeTag::Context(number) => tag.class() == Class::Context && tag.number() == number,
        }
    }
}

/// What the contents of a leaf are (X.690 8.2, 8.3, 8.6 to 8.8, 8.19, 8.23).
#[derive(Clone, Copy)]
pub enum Contents {
    Boolean,
    Integer,
    Null,
    ObjectIdentifier,
    BitString,
    OctetString,
    Utf8String,
    /// Those of another character string, whose characters aren't looked at.
    Text,
}

/// A type, its rules apart, with the names of its fields.
#[cycle(shapes)]
#[derive(Clone, Copy)]
pub enum Shape {
    Leaf(ShapeTag, Contents),
    /// Any type.
    Open,
    /// A SEQUENCE OF, with the least number of its members and their type.
    ListOf(ShapeTag, u32, &'static Shape),
    /// A SET OF, with the same.
    SetOf(ShapeTag, u32, &'static Shape),
    /// A SEQUENCE; a type under an explicit tag is one of one field (X.690 8.14).
    Sequence(ShapeTag, &'static Fields),
    /// An OCTET STRING that contains one element of the type and nothing else.
    Containing(ShapeTag, &'static Shape),
    /// An element that may not stand.
    Refused(ShapeTag),
    /// The first type where the leaf at the path among the earlier fields of the container is one of these octets, else
    /// the second. A path is the number of a field, from 0, and of one in it.
    DefinedBy(&'static [u32], &'static [&'static [u8]], &'static Shape, &'static Shape),
    /// The first type where its values may begin with the tag that is there, else the second (X.690 8.13).
    Choice(&'static Shape, &'static Shape),
    /// A type by its name in ASN.1.
    Named(&'static str, &'static Shape),
    /// A type whose contents are private: of them the number of octets alone may be shown.
    Private(&'static Shape),
}

/// The fields of a SEQUENCE from one on, each with its name in ASN.1; that under an explicit tag has none.
#[cycle(shapes)]
#[derive(Clone, Copy)]
pub enum Fields {
    End,
    /// A field that has to be there.
    Required(&'static str, &'static Shape, &'static Fields),
    /// One that may be absent, as OPTIONAL or by its DEFAULT.
    Optional(&'static str, &'static Shape, &'static Fields),
    /// One that is left out where it has its DEFAULT, a leaf with these contents (X.690 11.5).
    Default(&'static str, &'static [u8], &'static Shape, &'static Fields),
}

/// The fields of a SEQUENCE in their order, a line each: `"name": TYPE,`, `optional "name": TYPE,`, or of a leaf
/// `default [CONTENTS] "name": TYPE,`.
macro_rules! fields {
    () => { Fields::End };
    (default [$($octet:literal),*] $name:literal: $shape:expr, $($after:tt)*) => {
        Fields::Default($name, &[$($octet),*], &$shape, &fields!($($after)*))
    };
    (optional $name:literal: $shape:expr, $($after:tt)*) => {
        Fields::Optional($name, &$shape, &fields!($($after)*))
    };
    ($name:literal: $shape:expr, $($after:tt)*) => {
        Fields::Required($name, &$shape, &fields!($($after)*))
    };
}

pub(crate) use fields;

impl Shape {
    /// Whether a value of the type may begin with the tag.
    #[tactic(auto, unfolding(x690::specs::TypeTerms::fits_tag))]
    pub fn fits(&self, tag: Tag) -> bool
        ensures { result ≡ fits_tag (term_of self.now) tag }
    {
        match self {
            Shape::Leaf(own, _) => own.is(tag),
            Shape::Open => true,
            Shape::ListOf(own, _, _) => own.is(tag),
            Shape::SetOf(own, _, _) => own.is(tag),
            Shape::Sequence(own, _) => own.is(tag),
            Shape::Containing(own, _) => own.is(tag),
            Shape::Refused(own) => own.is(tag),
            Shape::DefinedBy(_, _, first, second) => first.fits(tag) || second.fits(tag),
            Shape::Choice(first, second) => first.fits(tag) || second.fits(tag),
            Shape::Named(_, shape) => shape.fits(tag),
            Shape::Private(shape) => shape.fits(tag),
        }
    }
}
