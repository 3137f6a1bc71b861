//! The types of what stands in extensions (RFC 5280 section 4.2, RFC 7633, Microsoft's enrolment).
ghost use Rattle.std.specs.Prelude.{◌≡◌, IfSome, true};
ghost use Rattle.std.specs.Option.{option_map};
ghost use Rattle.pkix_definitions.specs.ExtensionTypes as types;
ghost use Rattle.pkix_definitions.specs.ExtensionTypes.{certificate_extensions, other_extensions};
ghost use Rattle.pkix_definitions.specs.Identifiers as identifiers;
ghost use Rattle.pkix_definitions.specs.Identifiers.{entry_under};
ghost use Rattle.x690.specs.Lists.{same_octets};
ghost use Rattle.x690.specs.UniversalTypes.{bit_string, integer, octet_string};
ghost use Rattle.pkix_shapes.specs.Extensions.{type_of_extension};
ghost use Rattle.pkix_shapes.specs.Plain.{is_plain};
ghost use Rattle.pkix_shapes.specs.Terms.{term_of};

use crate::shape::{Contents, Fields, Shape, ShapeTag, fields};
use crate::shared::{ATTRIBUTE_TYPE_AND_VALUE, NAME};
use crate::universal::{BIT_STRING, BOOLEAN, INTEGER, OBJECT_IDENTIFIER, OCTET_STRING, SEQUENCE};
use pkix_definitions::identifiers::are_same_octets;

/// The type of what an extension of this identifier contains, where it is a known one.
pub fn extension_type(identifier: &[u8]) -> Option<&'static Shape>
    ensures type_term { option_map (λ r. term_of r.now) result ≡ type_of_extension identifier.now }
    ensures plain { IfSome result (λ r. is_plain r.now ≡ true) }
{
    match certificate_type(identifier) {
        Some(shape) => Some(shape),
        None => other_type(identifier),
    }
}

/// Of those under 2.5.29.
fn certificate_type(identifier: &[u8]) -> Option<&'static Shape>
    ensures type_term { option_map (λ r. term_of r.now) result
        ≡ entry_under certificate_extensions identifier.now }
    ensures plain { IfSome result (λ r. is_plain r.now ≡ true) }
{
    if is_certificate(identifier, 14) {
        Some(key_identifier())
    } else if is_certificate(identifier, 15) {
        Some(key_usage())
    } else if is_certificate(identifier, 17) {
        Some(general_names())
    } else if is_certificate(identifier, 18) {
        Some(general_names())
    } else if is_certificate(identifier, 19) {
        Some(basic_constraints())
    } else if is_certificate(identifier, 30) {
        Some(name_constraints())
    } else if is_certificate(identifier, 31) {
        Some(distribution_points())
    } else if is_certificate(identifier, 32) {
        Some(certificate_policies())
    } else if is_certificate(identifier, 33) {
        Some(policy_mappings())
    } else if is_certificate(identifier, 35) {
        Some(authority_key_identifier())
    } else if is_certificate(identifier, 36) {
        Some(policy_constraints())
    } else if is_certificate(identifier, 37) {
        Some(ext_key_usage())
    } else if is_certificate(identifier, 46) {
        Some(distribution_points())
    } else if is_certificate(identifier, 54) {
        Some(inhibit_any_policy())
    } else {
        None
    }
}

/// Of those of the Internet and of Microsoft.
fn other_type(identifier: &[u8]) -> Option<&'static Shape>
    ensures type_term { option_map (λ r. term_of r.now) result ≡ entry_under other_extensions identifier.now }
    ensures plain { IfSome result (λ r. is_plain r.now ≡ true) }
{
    if is_private(identifier, 1) {
        Some(info_access())
    } else if is_private(identifier, 11) {
        Some(info_access())
    } else if is_private(identifier, 24) {
        Some(features())
    } else if is_enrolment(identifier, 20, 2) {
        Some(template_name())
    } else if is_enrolment(identifier, 21, 7) {
        Some(certificate_template())
    } else if is_enrolment(identifier, 21, 10) {
        Some(certificate_policies())
    } else if is_enrolment(identifier, 25, 2) {
        Some(general_names())
    } else {
        None
    }
}

/// 2.5.29.NUMBER (RFC 5280 section 4.2.1).
fn is_certificate(identifier: &[u8], number: u8) -> bool
    ensures { result ≡ same_octets identifier.now (identifiers.certificate_extension number) }
{
    are_same_octets(identifier, &[0x55, 0x1D, number])
}

/// 1.3.6.1.5.5.7.1.NUMBER (RFC 5280 section 4.2.2).
fn is_private(identifier: &[u8], number: u8) -> bool
    ensures { result ≡ same_octets identifier.now (identifiers.private_extension number) }
{
    are_same_octets(
        identifier,
        &[0x2B, 0x06, 0x01, 0x05, 0x05, 0x07, 0x01, number],
    )
}

/// 1.3.6.1.4.1.311.NUMBER.NUMBER, of Microsoft.
fn is_enrolment(identifier: &[u8], first: u8, second: u8) -> bool
    ensures { result ≡ same_octets identifier.now (identifiers.enrolment first second) }
{
    are_same_octets(
        identifier,
        &[0x2B, 0x06, 0x01, 0x04, 0x01, 0x82, 0x37, first, second],
    )
}

/// A string under a tag of its own, whose characters aren't looked at (X.690 8.23).
macro_rules! string {
    ($name:literal, $tag:expr) => {
        Shape::Named($name, &Shape::Leaf($tag, Contents::Text))
    };
}

/// Octets under a tag of their own.
macro_rules! octets {
    ($name:literal, $tag:expr) => {
        Shape::Named($name, &Shape::Leaf($tag, Contents::OctetString))
    };
}

/// A list of at least one.
macro_rules! list_of_some {
    ($name:literal, $tag:expr, $member:expr) => {
        Shape::Named($name, &Shape::ListOf($tag, 1, &$member))
    };
}

/// A SEQUENCE of these fields, by its name.
macro_rules! sequence {
    ($name:literal, $tag:expr, $($field:tt)*) => {
        Shape::Named($name, &Shape::Sequence($tag, &fields! { $($field)* }))
    };
}

/// A CHOICE of several types.
macro_rules! choice {
    ($only:expr) => { $only };
    ($first:expr, $($other:expr),+) => {
        Shape::Choice(&$first, &choice!($($other),+))
    };
}

/// Under an explicit tag.
macro_rules! explicit {
    ($number:literal, $shape:expr) => {
        Shape::Sequence(ShapeTag::Context($number), &fields! { "": $shape, })
    };
}

/// An INTEGER under an IMPLICIT tag.
macro_rules! integer_under {
    ($number:literal) => {
        Shape::Leaf(ShapeTag::Context($number), Contents::Integer)
    };
}

const DIRECTORY_STRING: Shape = choice!(
    string!("TeletexString", ShapeTag::Universal(20)),
    string!("PrintableString", ShapeTag::Universal(19)),
    string!("UniversalString", ShapeTag::Universal(28)),
    Shape::Named(
        "UTF8String",
        &Shape::Leaf(ShapeTag::Universal(12), Contents::Utf8String)
    ),
    string!("BMPString", ShapeTag::Universal(30))
);

const GENERAL_NAME: Shape = choice!(
    sequence!("otherName", ShapeTag::Context(0),
        "type-id": OBJECT_IDENTIFIER,
        "value": explicit!(0, Shape::Open),
    ),
    string!("rfc822Name", ShapeTag::Context(1)),
    string!("dNSName", ShapeTag::Context(2)),
    list_of_some!("x400Address", ShapeTag::Context(3), Shape::Open),
    Shape::Named("directoryName", &explicit!(4, NAME)),
    sequence!("ediPartyName", ShapeTag::Context(5),
        optional "nameAssigner": explicit!(0, DIRECTORY_STRING),
        "partyName": explicit!(1, DIRECTORY_STRING),
    ),
    string!("uniformResourceIdentifier", ShapeTag::Context(6)),
    octets!("iPAddress", ShapeTag::Context(7)),
    Shape::Named(
        "registeredID",
        &Shape::Leaf(ShapeTag::Context(8), Contents::ObjectIdentifier)
    )
);

static GENERAL_NAMES: Shape = list_of_some!("GeneralNames", SEQUENCE, GENERAL_NAME);

static KEY_IDENTIFIER: Shape = Shape::Named("KeyIdentifier", &OCTET_STRING);

static AUTHORITY_KEY_IDENTIFIER: Shape = sequence!("AuthorityKeyIdentifier", SEQUENCE,
    optional "keyIdentifier": octets!("KeyIdentifier", ShapeTag::Context(0)),
    optional "authorityCertIssuer": list_of_some!("GeneralNames", ShapeTag::Context(1), GENERAL_NAME),
    optional "authorityCertSerialNumber": integer_under!(2),
);

static KEY_USAGE: Shape = Shape::Named("KeyUsage", &BIT_STRING);

const POLICY_QUALIFIER_INFO: Shape = sequence!("PolicyQualifierInfo", SEQUENCE,
    "policyQualifierId": OBJECT_IDENTIFIER,
    "qualifier": Shape::Open,
);

const POLICY_INFORMATION: Shape = sequence!("PolicyInformation", SEQUENCE,
    "policyIdentifier": OBJECT_IDENTIFIER,
    optional "policyQualifiers": Shape::ListOf(SEQUENCE, 1, &POLICY_QUALIFIER_INFO),
);

static CERTIFICATE_POLICIES: Shape = list_of_some!(
    "CertificatePolicies",
    SEQUENCE,
    POLICY_INFORMATION
);

const POLICY_MAPPING: Shape = Shape::Sequence(
    SEQUENCE,
    &fields! {
        "issuerDomainPolicy": OBJECT_IDENTIFIER,
        "subjectDomainPolicy": OBJECT_IDENTIFIER,
    },
);

static POLICY_MAPPINGS: Shape = list_of_some!("PolicyMappings", SEQUENCE, POLICY_MAPPING);

static BASIC_CONSTRAINTS: Shape = sequence!("BasicConstraints", SEQUENCE,
    default [0] "cA": BOOLEAN,
    optional "pathLenConstraint": INTEGER,
);

const GENERAL_SUBTREE: Shape = sequence!("GeneralSubtree", SEQUENCE,
    "base": GENERAL_NAME,
    default [0] "minimum": integer_under!(0),
    optional "maximum": integer_under!(1),
);

static NAME_CONSTRAINTS: Shape = sequence!("NameConstraints", SEQUENCE,
    optional "permittedSubtrees": list_of_some!("GeneralSubtrees", ShapeTag::Context(0), GENERAL_SUBTREE),
    optional "excludedSubtrees": list_of_some!("GeneralSubtrees", ShapeTag::Context(1), GENERAL_SUBTREE),
);

static POLICY_CONSTRAINTS: Shape = sequence!("PolicyConstraints", SEQUENCE,
    optional "requireExplicitPolicy": integer_under!(0),
    optional "inhibitPolicyMapping": integer_under!(1),
);

static EXT_KEY_USAGE: Shape = list_of_some!("ExtKeyUsageSyntax", SEQUENCE, OBJECT_IDENTIFIER);

const DISTRIBUTION_POINT_NAME: Shape = Shape::Named(
    "DistributionPointName",
    &choice!(
        list_of_some!("fullName", ShapeTag::Context(0), GENERAL_NAME),
        Shape::Named(
            "nameRelativeToCRLIssuer",
            &Shape::SetOf(ShapeTag::Context(1), 1, &ATTRIBUTE_TYPE_AND_VALUE)
        )
    ),
);

const DISTRIBUTION_POINT: Shape = sequence!("DistributionPoint", SEQUENCE,
    optional "distributionPoint": explicit!(0, DISTRIBUTION_POINT_NAME),
    optional "reasons": Shape::Leaf(ShapeTag::Context(1), Contents::BitString),
    optional "cRLIssuer": list_of_some!("GeneralNames", ShapeTag::Context(2), GENERAL_NAME),
);

static CRL_DISTRIBUTION_POINTS: Shape = list_of_some!(
    "CRLDistributionPoints",
    SEQUENCE,
    DISTRIBUTION_POINT
);

const ACCESS_DESCRIPTION: Shape = sequence!("AccessDescription", SEQUENCE,
    "accessMethod": OBJECT_IDENTIFIER,
    "accessLocation": GENERAL_NAME,
);

/// authorityInfoAccess and subjectInfoAccess.
static INFO_ACCESS: Shape = Shape::ListOf(SEQUENCE, 1, &ACCESS_DESCRIPTION);

static FEATURES: Shape = Shape::Named("Features", &Shape::ListOf(SEQUENCE, 0, &INTEGER));

static CERTIFICATE_TEMPLATE: Shape = sequence!("CertificateTemplate", SEQUENCE,
    "templateID": OBJECT_IDENTIFIER,
    "templateMajorVersion": INTEGER,
    optional "templateMinorVersion": INTEGER,
);

static INHIBIT_ANY_POLICY: Shape = INTEGER;

static TEMPLATE_NAME: Shape = DIRECTORY_STRING;

fn key_identifier() -> &'static Shape
    ensures type_term { term_of result.now ≡ octet_string }
    ensures plain { is_plain result.now ≡ true }
{
    &KEY_IDENTIFIER
}

fn key_usage() -> &'static Shape
    ensures type_term { term_of result.now ≡ bit_string }
    ensures plain { is_plain result.now ≡ true }
{
    &KEY_USAGE
}

fn general_names() -> &'static Shape
    ensures type_term { term_of result.now ≡ types.GeneralNames }
    ensures plain { is_plain result.now ≡ true }
{
    &GENERAL_NAMES
}

fn basic_constraints() -> &'static Shape
    ensures type_term { term_of result.now ≡ types.BasicConstraints }
    ensures plain { is_plain result.now ≡ true }
{
    &BASIC_CONSTRAINTS
}

fn name_constraints() -> &'static Shape
    ensures type_term { term_of result.now ≡ types.NameConstraints }
    ensures plain { is_plain result.now ≡ true }
{
    &NAME_CONSTRAINTS
}

fn distribution_points() -> &'static Shape
    ensures type_term { term_of result.now ≡ types.CRLDistributionPoints }
    ensures plain { is_plain result.now ≡ true }
{
    &CRL_DISTRIBUTION_POINTS
}

fn certificate_policies() -> &'static Shape
    ensures type_term { term_of result.now ≡ types.CertificatePolicies }
    ensures plain { is_plain result.now ≡ true }
{
    &CERTIFICATE_POLICIES
}

fn policy_mappings() -> &'static Shape
    ensures type_term { term_of result.now ≡ types.PolicyMappings }
    ensures plain { is_plain result.now ≡ true }
{
    &POLICY_MAPPINGS
}

fn authority_key_identifier() -> &'static Shape
    ensures type_term { term_of result.now ≡ types.AuthorityKeyIdentifier }
    ensures plain { is_plain result.now ≡ true }
{
    &AUTHORITY_KEY_IDENTIFIER
}

fn policy_constraints() -> &'static Shape
    ensures type_term { term_of result.now ≡ types.PolicyConstraints }
    ensures plain { is_plain result.now ≡ true }
{
    &POLICY_CONSTRAINTS
}

fn ext_key_usage() -> &'static Shape
    ensures type_term { term_of result.now ≡ types.ExtKeyUsageSyntax }
    ensures plain { is_plain result.now ≡ true }
{
    &EXT_KEY_USAGE
}

fn inhibit_any_policy() -> &'static Shape
    ensures type_term { term_of result.now ≡ integer }
    ensures plain { is_plain result.now ≡ true }
{
    &INHIBIT_ANY_POLICY
}

fn info_access() -> &'static Shape
    ensures type_term { term_of result.now ≡ types.InfoAccessSyntax }
    ensures plain { is_plain result.now ≡ true }
{
    &INFO_ACCESS
}

fn features() -> &'static Shape
    ensures type_term { term_of result.now ≡ types.Features }
    ensures plain { is_plain result.now ≡ true }
{
    &FEATURES
}

fn template_name() -> &'static Shape
    ensures type_term { term_of result.now ≡ types.DirectoryString }
    ensures plain { is_plain result.now ≡ true }
{
    &TEMPLATE_NAME
}

fn certificate_template() -> &'static Shape
    ensures type_term { term_of result.now ≡ types.CertificateTemplate }
    ensures plain { is_plain result.now ≡ true }
{
    &CERTIFICATE_TEMPLATE
}
