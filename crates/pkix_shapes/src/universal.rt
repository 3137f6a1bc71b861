//! Types by their universal tags (X.680 8.4, table 1).
use crate::shape::{Contents, Shape, ShapeTag};

pub const SEQUENCE: ShapeTag = ShapeTag::Universal(16);

pub const SET: ShapeTag = ShapeTag::Universal(17);

pub const OCTETS: ShapeTag = ShapeTag::Universal(4);

pub const BOOLEAN: Shape = Shape::Leaf(ShapeTag::Universal(1), Contents::Boolean);

pub const INTEGER: Shape = Shape::Leaf(ShapeTag::Universal(2), Contents::Integer);

pub const BIT_STRING: Shape = Shape::Leaf(ShapeTag::Universal(3), Contents::BitString);

pub const OCTET_STRING: Shape = Shape::Leaf(OCTETS, Contents::OctetString);

pub const OBJECT_IDENTIFIER: Shape = Shape::Leaf(
    ShapeTag::Universal(6),
    Contents::ObjectIdentifier,
);

/// Any type, where its values are private.
pub const PRIVATE_VALUE: Shape = Shape::Private(&Shape::Open);

/// An INTEGER that is private.
pub const PRIVATE_INTEGER: Shape = Shape::Private(&INTEGER);

/// An OCTET STRING that is private.
pub const PRIVATE_OCTETS: Shape = Shape::Private(&OCTET_STRING);
