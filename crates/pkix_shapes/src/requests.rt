//! The types of certification requests (RFC 2986 section 4).
use crate::shape::{Fields, Shape, ShapeTag, fields};
use crate::shared::{ALGORITHM_IDENTIFIER, NAME, REQUEST_ATTRIBUTE, SUBJECT_PUBLIC_KEY_INFO};
use crate::universal::{BIT_STRING, INTEGER, SEQUENCE};

const CERTIFICATION_REQUEST_INFO: Shape = Shape::Named(
    "CertificationRequestInfo",
    &Shape::Sequence(
        SEQUENCE,
        &fields! {
            "version": INTEGER,
            "subject": NAME,
            "subjectPKInfo": SUBJECT_PUBLIC_KEY_INFO,
            optional "attributes": Shape::SetOf(ShapeTag::Context(0), 0, &REQUEST_ATTRIBUTE),
        },
    ),
);

pub const CERTIFICATION_REQUEST: Shape = Shape::Named(
    "CertificationRequest",
    &Shape::Sequence(
        SEQUENCE,
        &fields! {
            "certificationRequestInfo": CERTIFICATION_REQUEST_INFO,
            "signatureAlgorithm": ALGORITHM_IDENTIFIER,
            "signature": BIT_STRING,
        },
    ),
);
