//! The types of private keys (RFC 5958 sections 2 and 3, RFC 5915 section 3, RFC 8410 section 7, RFC 8017 A.1.2).
use crate::shape::{Contents, Fields, Shape, ShapeTag, fields};
use crate::shared::{ALGORITHM_IDENTIFIER, ATTRIBUTE};
use crate::universal::{
    BIT_STRING, INTEGER, OBJECT_IDENTIFIER, OCTETS, PRIVATE_INTEGER, PRIVATE_OCTETS, SEQUENCE,
};
use pkix_definitions::identifiers::{EC_PUBLIC_KEY, ED448, ED25519, RSA_ENCRYPTION, X448, X25519};

/// The algorithms of RFC 8410 section 3.
const CURVES: &[&[u8]] = &[X25519, X448, ED25519, ED448];

/// The contents of an INTEGER that is 0.
const VERSION_0: &[u8] = &[0];

/// Where the version of a key is in it.
const VERSION: &[u32] = &[0];

/// Where the identifier of its algorithm is in a OneAsymmetricKey.
const ALGORITHM: &[u32] = &[1, 0];

pub const EC_PRIVATE_KEY: Shape = Shape::Named(
    "ECPrivateKey",
    &Shape::Sequence(
        SEQUENCE,
        &fields! {
            "version": INTEGER,
            "privateKey": PRIVATE_OCTETS,
            optional "parameters": Shape::Sequence(
                ShapeTag::Context(0),
                &fields! { "": OBJECT_IDENTIFIER, },
            ),
            optional "publicKey": Shape::Sequence(
                ShapeTag::Context(1),
                &fields! { "": BIT_STRING, },
            ),
        },
    ),
);

const CURVE_PRIVATE_KEY: Shape = Shape::Named("CurvePrivateKey", &PRIVATE_OCTETS);

const OTHER_PRIME_INFO: Shape = Shape::Named(
    "OtherPrimeInfo",
    &Shape::Sequence(
        SEQUENCE,
        &fields! {
            "prime": PRIVATE_INTEGER,
            "exponent": PRIVATE_INTEGER,
            "coefficient": PRIVATE_INTEGER,
        },
    ),
);

const RSA_PRIVATE_KEY: Shape = Shape::Named(
    "RSAPrivateKey",
    &Shape::Sequence(
        SEQUENCE,
        &fields! {
            "version": INTEGER,
            "modulus": INTEGER,
            "publicExponent": INTEGER,
            "privateExponent": PRIVATE_INTEGER,
            "prime1": PRIVATE_INTEGER,
            "prime2": PRIVATE_INTEGER,
            "exponent1": PRIVATE_INTEGER,
            "exponent2": PRIVATE_INTEGER,
            "coefficient": PRIVATE_INTEGER,
            optional "otherPrimeInfos": Shape::DefinedBy(
                VERSION,
                &[VERSION_0],
                &Shape::Refused(SEQUENCE),
                &Shape::ListOf(SEQUENCE, 1, &OTHER_PRIME_INFO),
            ),
        },
    ),
);

/// What an OCTET STRING contains goes by the algorithm; under any other one its octets are carried.
const PRIVATE_KEY: Shape = Shape::DefinedBy(
    ALGORITHM,
    &[EC_PUBLIC_KEY],
    &Shape::Containing(OCTETS, &EC_PRIVATE_KEY),
    &Shape::DefinedBy(
        ALGORITHM,
        CURVES,
        &Shape::Containing(OCTETS, &CURVE_PRIVATE_KEY),
        &Shape::DefinedBy(
            ALGORITHM,
            &[RSA_ENCRYPTION],
            &Shape::Containing(OCTETS, &RSA_PRIVATE_KEY),
            &PRIVATE_OCTETS,
        ),
    ),
);

pub const ONE_ASYMMETRIC_KEY: Shape = Shape::Named(
    "OneAsymmetricKey",
    &Shape::Sequence(
        SEQUENCE,
        &fields! {
            "version": INTEGER,
            "privateKeyAlgorithm": ALGORITHM_IDENTIFIER,
            "privateKey": PRIVATE_KEY,
            optional "attributes": Shape::SetOf(ShapeTag::Context(0), 0, &ATTRIBUTE),
            optional "publicKey": Shape::DefinedBy(
                VERSION,
                &[VERSION_0],
                &Shape::Refused(ShapeTag::Context(1)),
                &Shape::Leaf(ShapeTag::Context(1), Contents::BitString),
            ),
        },
    ),
);

pub const ASYMMETRIC_KEY_PACKAGE: Shape = Shape::Named(
    "AsymmetricKeyPackage",
    &Shape::ListOf(SEQUENCE, 1, &ONE_ASYMMETRIC_KEY),
);

pub const ENCRYPTED_PRIVATE_KEY_INFO: Shape = Shape::Named(
    "EncryptedPrivateKeyInfo",
    &Shape::Sequence(
        SEQUENCE,
        &fields! {
            "encryptionAlgorithm": ALGORITHM_IDENTIFIER,
            "encryptedData": PRIVATE_OCTETS,
        },
    ),
);
