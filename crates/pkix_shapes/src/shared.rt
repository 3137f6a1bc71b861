//! Types that kinds share (RFC 5280 section 4.1, RFC 2986 section 4.1, RFC 2985 section 5.4.2).
use crate::shape::{Fields, Shape, fields};
use crate::universal::{
    BIT_STRING, BOOLEAN, OBJECT_IDENTIFIER, OCTET_STRING, PRIVATE_VALUE, SEQUENCE, SET,
};
use pkix_definitions::identifiers::EXTENSION_REQUEST;

pub const ALGORITHM_IDENTIFIER: Shape = Shape::Named(
    "AlgorithmIdentifier",
    &Shape::Sequence(
        SEQUENCE,
        &fields! {
            "algorithm": OBJECT_IDENTIFIER,
            optional "parameters": Shape::Open,
        },
    ),
);

pub const ATTRIBUTE_TYPE_AND_VALUE: Shape = Shape::Named(
    "AttributeTypeAndValue",
    &Shape::Sequence(
        SEQUENCE,
        &fields! {
            "type": OBJECT_IDENTIFIER,
            "value": Shape::Open,
        },
    ),
);

const RELATIVE_NAME: Shape = Shape::Named(
    "RelativeDistinguishedName",
    &Shape::SetOf(SET, 1, &ATTRIBUTE_TYPE_AND_VALUE),
);

pub const NAME: Shape = Shape::Named("Name", &Shape::ListOf(SEQUENCE, 0, &RELATIVE_NAME));

pub const SUBJECT_PUBLIC_KEY_INFO: Shape = Shape::Named(
    "SubjectPublicKeyInfo",
    &Shape::Sequence(
        SEQUENCE,
        &fields! {
            "algorithm": ALGORITHM_IDENTIFIER,
            "subjectPublicKey": BIT_STRING,
        },
    ),
);

const PRIVATE_VALUES: Shape = Shape::SetOf(SET, 1, &PRIVATE_VALUE);

pub const ATTRIBUTE: Shape = Shape::Named(
    "Attribute",
    &Shape::Sequence(
        SEQUENCE,
        &fields! {
            "type": OBJECT_IDENTIFIER,
            "values": PRIVATE_VALUES,
        },
    ),
);

const EXTENSION: Shape = Shape::Named(
    "Extension",
    &Shape::Sequence(
        SEQUENCE,
        &fields! {
            "extnID": OBJECT_IDENTIFIER,
            optional "critical": BOOLEAN,
            "extnValue": OCTET_STRING,
        },
    ),
);

const EXTENSIONS: Shape = Shape::Named("Extensions", &Shape::ListOf(SEQUENCE, 0, &EXTENSION));

pub const REQUEST_ATTRIBUTE: Shape = Shape::Named(
    "RequestAttribute",
    &Shape::Sequence(
        SEQUENCE,
        &fields! {
            "type": OBJECT_IDENTIFIER,
            "values": Shape::DefinedBy(
                &[0],
                &[EXTENSION_REQUEST],
                &Shape::SetOf(SET, 1, &EXTENSIONS),
                &PRIVATE_VALUES,
            ),
        },
    ),
);
