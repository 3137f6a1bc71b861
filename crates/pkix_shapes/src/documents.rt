//! The type of each kind of document, with the names of its ASN.1 (`docs/formats.md`).
ghost use Rattle.std.specs.Prelude.{[], ◌≡◌};
ghost use Rattle.pkix_shapes.specs.Names as names;
ghost use Rattle.pkix_shapes.specs.Names.{names_in};
ghost use Rattle.pkix_shapes.specs.Secrets as secrets;
ghost use Rattle.pkix_shapes.specs.Secrets.{private_paths};
ghost use Rattle.pkix_shapes.specs.Terms.{bare, term_of};
ghost use Rattle.pkix_definitions.specs.DocumentTypes as types;

use crate::keys::{
    ASYMMETRIC_KEY_PACKAGE, EC_PRIVATE_KEY, ENCRYPTED_PRIVATE_KEY_INFO, ONE_ASYMMETRIC_KEY,
};
use crate::requests::CERTIFICATION_REQUEST;
use crate::shape::Shape;
use crate::shared::SUBJECT_PUBLIC_KEY_INFO;

static KEY: Shape = ONE_ASYMMETRIC_KEY;

static EC_KEY: Shape = EC_PRIVATE_KEY;

static REQUEST: Shape = CERTIFICATION_REQUEST;

static PUBLIC_KEY: Shape = SUBJECT_PUBLIC_KEY_INFO;

static ENCRYPTED_KEY: Shape = ENCRYPTED_PRIVATE_KEY_INFO;

static PACKAGE: Shape = ASYMMETRIC_KEY_PACKAGE;

/// OneAsymmetricKey (RFC 5958 section 2).
pub fn key() -> &'static Shape
    ensures type_term { term_of result.now ≡ bare types.OneAsymmetricKey }
    ensures private { private_paths result.now ≡ secrets.of_key }
    ensures names { names_in result.now ≡ names.in_key }
{
    &KEY
}

/// ECPrivateKey (RFC 5915 section 3).
pub fn ec_key() -> &'static Shape
    ensures type_term { term_of result.now ≡ bare types.ECPrivateKey }
    ensures private { private_paths result.now ≡ secrets.of_ec_key }
    ensures names { names_in result.now ≡ names.in_ec_key }
{
    &EC_KEY
}

/// CertificationRequest (RFC 2986 section 4.2).
pub fn request() -> &'static Shape
    ensures type_term { term_of result.now ≡ bare types.CertificationRequest }
    ensures private { private_paths result.now ≡ secrets.of_request }
    ensures names { names_in result.now ≡ names.in_request }
{
    &REQUEST
}

/// SubjectPublicKeyInfo (RFC 5280 section 4.1.2.7).
pub fn public_key() -> &'static Shape
    ensures type_term { term_of result.now ≡ bare types.SubjectPublicKeyInfo }
    ensures private { private_paths result.now ≡ [] }
    ensures names { names_in result.now ≡ names.in_public_key }
{
    &PUBLIC_KEY
}

/// EncryptedPrivateKeyInfo (RFC 5958 section 3).
pub fn encrypted_key() -> &'static Shape
    ensures type_term { term_of result.now ≡ bare types.EncryptedPrivateKeyInfo }
    ensures private { private_paths result.now ≡ secrets.of_encrypted_key }
    ensures names { names_in result.now ≡ names.in_encrypted_key }
{
    &ENCRYPTED_KEY
}

/// AsymmetricKeyPackage (RFC 5958 section 2).
pub fn package() -> &'static Shape
    ensures type_term { term_of result.now ≡ bare types.AsymmetricKeyPackage }
    ensures private { private_paths result.now ≡ secrets.of_package }
    ensures names { names_in result.now ≡ names.in_key }
{
    &PACKAGE
}
