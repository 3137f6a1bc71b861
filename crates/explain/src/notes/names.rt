//! What is remarked on names that extensions have, and in subjectAltName on their syntax.
ghost use Rattle.std.specs.Prelude.{◌≡◌};
ghost use Rattle.explain.specs.NotedNames.{is_address_length, is_one_element, is_string_name, is_subject_alt_name};
ghost use Rattle.explain.specs.NotedNames.{remark_on_address, remark_on_characters, remark_on_dns_name};
ghost use Rattle.explain.specs.NotedNames.{remark_on_name, remark_on_syntax};

use crate::notes::general_names::{has_scheme, is_ipv4_address, is_mailbox};
use crate::notes::hosts::{has_star, is_host_name};
use crate::notes::remarks::{is_name, remark_if};
use pkix_shapes::identifiers::Identifier;
use reports::letters::has_hidden;
use reports::report::{Line, NameRemark, Remark, Value};

/// What is remarked on a name, in the extension of this usual name or elsewhere.
pub(crate) fn remark_on_name(extension: Option<&'static Identifier>, line: &Line) -> Option<Remark>
    ensures { result ≡ remark_on_name extension.entry line.now }
{
    match &line.value {
        Value::Characters(octets) => remark_on_characters(extension, line, octets),
        Value::Octets(octets) => remark_on_address(extension, line, octets.as_slice().len() as u64),
        _ => None,
    }
}

pub(crate) fn is_subject_alt_name(extension: Option<&'static Identifier>) -> bool
    ensures { result ≡ is_subject_alt_name extension.entry }
{
    match extension {
        Some(identifier) => is_name(identifier.name, "subjectAltName"),
        None => false,
    }
}

/// An address of IP version 4 or 6 has 4 octets or 16 (RFC 5280 section 4.2.1.6).
fn remark_on_address(
    extension: Option<&'static Identifier>,
    line: &Line,
    octets: u64,
) -> Option<Remark>
    ensures { result ≡ remark_on_address extension.entry line.now octets }
{
    remark_if(
        is_name(line.type_name, "iPAddress")
            && is_subject_alt_name(extension)
            && !is_address_length(octets),
        Remark::Name(NameRemark::AddressLength(octets)),
    )
}

fn is_address_length(octets: u64) -> bool
    ensures { result ≡ is_address_length octets }
{
    octets == 4 || octets == 16
}

fn remark_on_characters(
    extension: Option<&'static Identifier>,
    line: &Line,
    octets: &[u8],
) -> Option<Remark>
    ensures { result ≡ remark_on_characters extension.entry line.now octets.now }
{
    if is_string_name(line.type_name) && has_hidden(line.tag, octets) {
        return Some(Remark::Name(NameRemark::Hidden));
    }
    if is_subject_alt_name(extension) {
        return remark_on_syntax(line.type_name, octets);
    }
    None
}

/// Whether a name of this type is a string, which a reader takes for a name.
fn is_string_name(type_name: &str) -> bool
    ensures { result ≡ is_string_name type_name.now }
{
    is_name(type_name, "dNSName")
        || is_name(type_name, "rfc822Name")
        || is_name(type_name, "uniformResourceIdentifier")
}

/// Whether a name of this type is one element, whose contents are the name.
pub(crate) fn is_one_element(type_name: &str) -> bool
    ensures { result ≡ is_one_element type_name.now }
{
    is_string_name(type_name)
        || is_name(type_name, "iPAddress")
        || is_name(type_name, "registeredID")
}

/// A name in subjectAltName has the syntax of its type (RFC 5280 section 4.2.1.6).
fn remark_on_syntax(type_name: &str, name: &[u8]) -> Option<Remark>
    ensures { result ≡ remark_on_syntax type_name.now name.now }
{
    if is_name(type_name, "dNSName") {
        return remark_on_dns_name(name);
    }
    if is_name(type_name, "rfc822Name") {
        return remark_if(!is_mailbox(name), Remark::Name(NameRemark::MailSyntax));
    }
    remark_if(
        is_name(type_name, "uniformResourceIdentifier") && !has_scheme(name),
        Remark::Name(NameRemark::UriSyntax),
    )
}

/// A DNS name is in the preferred name syntax (RFC 5280 section 4.2.1.6), where its first label isn't a wildcard, and
/// isn't an address.
fn remark_on_dns_name(name: &[u8]) -> Option<Remark>
    ensures { result ≡ remark_on_dns_name name.now }
{
    if has_star(name) {
        return Some(Remark::Name(NameRemark::Wildcard));
    }
    if !is_host_name(name) {
        return Some(Remark::Name(NameRemark::DnsSyntax));
    }
    remark_if(
        is_ipv4_address(name),
        Remark::Name(NameRemark::AddressAsDns),
    )
}
