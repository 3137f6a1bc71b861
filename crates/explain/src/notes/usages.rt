//! What is remarked on what the extensions of a request say, or lack: keyUsage, basicConstraints, subjectAltName; and
//! on a request without attributes.
ghost use Rattle.std.specs.Prelude.{◌≡◌};
ghost use Rattle.std.specs.List.{list_any};
ghost use Rattle.std.specs.Option.{option_map};
ghost use Rattle.explain.specs.NotedUsages.{are_zeros, ends_in_one, has_one, held_in, is_attributes, is_named_alt};
ghost use Rattle.explain.specs.NotedUsages.{is_old_request, may_be_ca, remark_on_info, remark_on_old_request};
ghost use Rattle.explain.specs.NotedUsages.{remark_on_path, remark_on_subject, remark_on_usage, remark_on_usages};
ghost use Rattle.explain.specs.NotedUsages.{signs_certificates};

use crate::document::values::is_field;
use crate::listing::causes::unit_of;
use crate::notes::keys::arcs_in;
use crate::notes::remarks::{is_name, remark_if};
use pkix_shapes::identifiers::Identifier;
use reports::report::{Carried, ExtensionRemark, Line, Remark, Value};

/// What stands anywhere in a document.
#[derive(Clone, Copy)]
pub(crate) struct Held {
    /// A basicConstraints has cA TRUE, or may have it.
    pub(crate) is_ca: bool,
    /// An extension is a subjectAltName.
    pub(crate) has_names: bool,
    /// There is the field attributes.
    pub(crate) has_attributes: bool,
}

pub(crate) fn held_in(lines: &[Line]) -> Held
    ensures { result ≡ held_in lines.now }
{
    Held {
        is_ca: have_ca(lines),
        has_names: have_names(lines),
        has_attributes: have_attributes(lines),
    }
}

fn have_ca(lines: &[Line]) -> bool
    ensures { result ≡ list_any (λ line. may_be_ca line) lines.now }
{
    lines.iter().any(|line| may_be_ca(line))
}

pub(crate) fn have_names(lines: &[Line]) -> bool
    ensures { result ≡ list_any (λ line. is_named_alt line) lines.now }
{
    lines.iter().any(|line| is_named_alt(line))
}

fn have_attributes(lines: &[Line]) -> bool
    ensures { result ≡ list_any (λ line. is_attributes line) lines.now }
{
    lines.iter().any(|line| is_attributes(line))
}

/// Whether a line is the field attributes.
fn is_attributes(line: &Line) -> bool
    ensures { result ≡ is_attributes line.now }
{
    is_field(line.step, "attributes")
}

/// Whether a line says cA TRUE. What is in an extension that isn't in DER has no lines, and may say it.
fn may_be_ca(line: &Line) -> bool
    ensures { result ≡ may_be_ca line.now }
{
    match line.carries {
        Some(Carried::NotDer) | Some(Carried::Refused(..)) => is_field(line.step, "extnValue"),
        _ => is_field(line.step, "cA") && matches!(line.value, Value::Boolean(true)),
    }
}

/// Whether a line names a subjectAltName.
pub(crate) fn is_named_alt(line: &Line) -> bool
    ensures { result ≡ is_named_alt line.now }
{
    match &line.value {
        Value::Named(identifier) => {
            is_field(line.step, "extnID") && is_name(identifier.name, "subjectAltName")
        }
        _ => false,
    }
}

/// A keyUsage has a bit that is 1, its bits end in one, and keyCertSign is of a CA alone (RFC 5280 section 4.2.1.3).
pub(crate) fn remark_on_usage(
    extension: Option<&'static Identifier>,
    is_ca: bool,
    value: &Value,
) -> Option<Remark>
    ensures { result ≡ remark_on_usage extension.entry is_ca value.now }
{
    match value {
        Value::Octets(contents) => remark_on_usages(extension, is_ca, contents),
        _ => None,
    }
}

fn remark_on_usages(
    extension: Option<&'static Identifier>,
    is_ca: bool,
    contents: &[u8],
) -> Option<Remark>
    ensures { result ≡ remark_on_usages extension.entry is_ca contents.now }
{
    if !has_one(contents) {
        return Some(Remark::Extension(ExtensionRemark::NoUsage));
    }
    if !ends_in_one(contents) {
        return Some(Remark::ExtensionZeroBits(extension));
    }
    remark_if(
        signs_certificates(contents) && !is_ca,
        Remark::Extension(ExtensionRemark::SignWithoutCa),
    )
}

/// Whether a bit of a BIT STRING is 1; its first octet says how many are unused (X.690 8.6.2).
fn has_one(contents: &[u8]) -> bool
    ensures { result ≡ has_one contents.now }
{
    match contents {
        [_, rest @ ..] => !are_zeros(rest),
        [] => false,
    }
}

fn are_zeros(octets: &[u8]) -> bool
    ensures { result ≡ are_zeros octets.now }
{
    octets.iter().all(|octet| *octet == 0)
}

/// Whether the last bit of a BIT STRING is 1, or it has none.
fn ends_in_one(contents: &[u8]) -> bool
    ensures { result ≡ ends_in_one contents.now }
{
    let [unused, rest @ ..] = contents else {
        return true;
    };
    match rest.last() {
        Some(last) => *last / unit_of(*unused) % 2 == 1,
        None => true,
    }
}

/// Whether bit 5 is 1, keyCertSign.
fn signs_certificates(contents: &[u8]) -> bool
    ensures { result ≡ signs_certificates contents.now }
{
    match contents.get(1) {
        Some(first) => *first / 4 % 2 == 1,
        None => false,
    }
}

/// A pathLenConstraint is of a CA alone (RFC 5280 section 4.2.1.9).
pub(crate) fn remark_on_path(is_ca: bool) -> Option<Remark>
    ensures { result ≡ remark_on_path is_ca }
{
    remark_if(!is_ca, Remark::Extension(ExtensionRemark::PathWithoutCa))
}

/// A subject has an attribute, or the request a subjectAltName (RFC 5280 section 4.1.2.6).
pub(crate) fn remark_on_subject(has_names: bool, members: u64) -> Option<Remark>
    ensures { result ≡ remark_on_subject has_names members }
{
    remark_if(
        members == 0 && !has_names,
        Remark::Extension(ExtensionRemark::EmptySubject),
    )
}

/// A request has the field attributes, if only an empty one (RFC 2986 section 4.1).
pub(crate) fn remark_on_info(has_attributes: bool) -> Option<Remark>
    ensures { result ≡ remark_on_info has_attributes }
{
    remark_if(
        !has_attributes,
        Remark::Extension(ExtensionRemark::NoAttributes),
    )
}

/// Extensions are asked for by extensionRequest (RFC 2985 section 5.4.2).
pub(crate) fn remark_on_old_request(is_attribute: bool, value: &Value) -> Option<Remark>
    ensures { result ≡ remark_on_old_request is_attribute value.now }
{
    remark_if(
        is_attribute && is_old_request(arcs_in(value)),
        Remark::Extension(ExtensionRemark::OldRequest),
    )
}

/// Whether it is Microsoft's attribute for the same, szOID_CERT_EXTENSIONS.
fn is_old_request(arcs: Option<&str>) -> bool
    ensures { result ≡ is_old_request (option_map (λ r. r.now) arcs.entry) }
{
    match arcs {
        Some(arcs) => is_name(arcs, "1.3.6.1.4.1.311.2.1.14"),
        None => false,
    }
}
