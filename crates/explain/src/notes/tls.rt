//! What is remarked for TLS servers: what their certificates may not have by the Baseline Requirements of the
//! CA/Browser Forum.
ghost use Rattle.std.specs.Prelude.{◌≡◌, ◌++◌, ◌≤◌, None, OnOk, length, take};
ghost use Rattle.std.specs.Option.{option_map};
ghost use Rattle.explain.specs.NotedTls.{are_address_octets, extension_after, has_colon, has_text};
ghost use Rattle.explain.specs.NotedTls.{is_address_octet, is_address_text, is_any_usage, is_common_name};
ghost use Rattle.explain.specs.NotedTls.{is_critical, is_extended_usage, is_first_common_name, is_left_out};
ghost use Rattle.explain.specs.NotedTls.{is_named_in, is_of_curves, is_of_key, is_one_of_arcs, is_unread};
ghost use Rattle.explain.specs.NotedTls.{may_name, remark_on_common_name, remark_on_criticality};
ghost use Rattle.explain.specs.NotedTls.{remark_on_inner, remark_on_key_algorithm, remark_on_key_curve};
ghost use Rattle.explain.specs.NotedTls.{remark_on_modulus_bits, remark_on_reach, remark_on_server_exponent};
ghost use Rattle.explain.specs.NotedTls.{remark_on_server_key, remark_on_server_modulus, remark_on_server_name};
ghost use Rattle.explain.specs.NotedTls.{remark_on_server_number};
ghost use Rattle.explain.specs.NotedTls.{remark_on_text, server_algorithms, server_curves, tls_remark_on};
ghost use Rattle.explain.specs.Notes.{most_notes};
ghost use Rattle.explain.specs.ProfileNotes.{named_context, tls_context_after, tls_context_start, tls_notes_on};

use crate::document::values::is_field;
use crate::notes::attributes::{is_wide, is_x520};
use crate::notes::general_names::is_ipv4_address;
use crate::notes::keys::arcs_in;
use crate::notes::names::is_subject_alt_name;
use crate::notes::reach::{is_internal, is_reserved};
use crate::notes::remarks::{is_name, remark_if};
use crate::notes::usages::{have_names, is_named_alt};
use crate::notes::{identifier_in, is_attribute, is_member, members_of, push_note};
use pkix_definitions::identifiers::are_same_octets;
use pkix_shapes::identifiers::Identifier;
use reports::keys::{bit_length, integer_bits, is_below_zero};
use reports::report::{Carried, Line, Note, Remark, TlsRemark, Value};
use std::alloc::AllocError;

/// What the lines before say of the ones that follow.
#[derive(Clone, Copy)]
struct TlsContext {
    /// The last algorithm, where it has a usual name.
    algorithm: Option<&'static Identifier>,
    /// The last extension, where it has a usual name.
    extension: Option<&'static Identifier>,
    /// The type of the last attribute, where it has one.
    attribute: Option<&'static Identifier>,
    /// A commonName has been there.
    has_common_name: bool,
    /// The subject has no attribute.
    is_empty: bool,
}

/// Appends the notes for TLS servers, as far as there is room.
pub(crate) fn push_tls_notes(notes: &mut Vec<Note>, lines: &[Line]) -> Result<(), AllocError>
    requires few { length notes.old.items ≤ most_notes }
    ensures are { OnOk result (notes.new.items
        ≡ take most_notes (notes.old.items ++ tls_notes_on lines.now)) }
    ensures few { OnOk result (length notes.new.items ≤ most_notes) }
{
    let mut context = start();
    for i in 0..lines.len() {
        let line = &lines[i];
        let after = &lines[i + 1..];
        push_note(notes, i, tls_remark_on(lines, context, line, after))?;
        context = context_after(lines, context, line, after);
    }
    Ok(())
}

fn start() -> TlsContext
    ensures { result ≡ tls_context_start }
{
    TlsContext {
        algorithm: None,
        extension: None,
        attribute: None,
        has_common_name: false,
        is_empty: false,
    }
}

fn context_after(lines: &[Line], context: TlsContext, line: &Line, after: &[Line]) -> TlsContext
    ensures { result ≡ tls_context_after lines.now context line.now after.now }
{
    if is_field(line.step, "algorithm") {
        return TlsContext {
            algorithm: identifier_in(&line.value),
            ..context
        };
    }
    if is_field(line.step, "extnID") {
        return TlsContext {
            extension: identifier_in(&line.value),
            ..context
        };
    }
    named_context(context, lines.get(line.around as usize), line, after)
}

/// What a line of a subject says of those after it. An attribute of the request ends the extensions before it.
fn named_context(
    context: TlsContext,
    around: Option<&Line>,
    line: &Line,
    after: &[Line],
) -> TlsContext
    ensures { result ≡ named_context context (option_map (λ r. r.now) around.entry) line.now after.now }
{
    if is_field(line.step, "subject") {
        return TlsContext {
            is_empty: members_of(line.depth, after) == 0,
            ..context
        };
    }
    if is_field(line.step, "type") {
        return TlsContext {
            attribute: identifier_in(&line.value),
            extension: if is_attribute(around) {
                None
            } else {
                context.extension
            },
            ..context
        };
    }
    TlsContext {
        has_common_name: context.has_common_name
            || (is_field(line.step, "value") && is_common_name(context.attribute)),
        ..context
    }
}

/// The extension that the next line is in.
fn extension_after(
    extension: Option<&'static Identifier>,
    line: &Line,
) -> Option<&'static Identifier>
    ensures { result ≡ extension_after extension.entry line.now }
{
    if is_field(line.step, "extnID") {
        return identifier_in(&line.value);
    }
    extension
}

/// What is remarked on a line, by what the lines before say and by the lines after.
fn tls_remark_on(lines: &[Line], context: TlsContext, line: &Line, after: &[Line]) -> Option<Remark>
    ensures { result ≡ tls_remark_on lines.now context line.now after.now }
{
    let around = lines.get(line.around as usize);
    if let Some(remark) = remark_on_server_key(context.algorithm, around, line) {
        return Some(remark);
    }
    remark_on_server_name(lines, context, line, after)
}

/// What is remarked on a field of a public key.
fn remark_on_server_key(
    algorithm: Option<&'static Identifier>,
    around: Option<&Line>,
    line: &Line,
) -> Option<Remark>
    ensures { result ≡ remark_on_server_key algorithm.entry (option_map (λ r. r.now) around.entry)
        line.now }
{
    if is_field(line.step, "algorithm") {
        return remark_on_key_algorithm(around, &line.value);
    }
    if is_field(line.step, "parameters") {
        return remark_on_key_curve(algorithm, around, &line.value);
    }
    remark_on_server_number(line)
}

/// What is remarked on a number of a public key of RSA.
fn remark_on_server_number(line: &Line) -> Option<Remark>
    ensures { result ≡ remark_on_server_number line.now }
{
    if is_field(line.step, "modulus") {
        return remark_on_server_modulus(&line.value);
    }
    if is_field(line.step, "publicExponent") {
        return remark_on_server_exponent(&line.value);
    }
    None
}

/// What is remarked on a part of a subject or of an extension.
fn remark_on_server_name(
    lines: &[Line],
    context: TlsContext,
    line: &Line,
    after: &[Line],
) -> Option<Remark>
    ensures { result ≡ remark_on_server_name lines.now context line.now after.now }
{
    if is_field(line.step, "extnID") {
        return remark_on_criticality(context.is_empty, line, after);
    }
    if is_field(line.step, "value") {
        return remark_on_common_name(context, lines, line);
    }
    remark_on_inner(context.extension, line)
}

/// A public key is of RSA, or on a named curve (Baseline Requirements section 7.1.3.1).
fn remark_on_key_algorithm(around: Option<&Line>, value: &Value) -> Option<Remark>
    ensures { result ≡ remark_on_key_algorithm (option_map (λ r. r.now) around.entry) value.now }
{
    remark_if(
        is_of_key(around) && !is_server_algorithm(arcs_in(value)),
        Remark::Tls(TlsRemark::KeyAlgorithm),
    )
}

/// Whether the element is the algorithm of a public key.
fn is_of_key(around: Option<&Line>) -> bool
    ensures { result ≡ is_of_key (option_map (λ r. r.now) around.entry) }
{
    match around {
        Some(around) => is_field(around.step, "algorithm"),
        None => false,
    }
}

/// rsaEncryption, id-ecPublicKey.
fn is_server_algorithm(arcs: Option<&str>) -> bool
    ensures { result ≡ is_one_of_arcs server_algorithms (option_map (λ r. r.now) arcs.entry) }
{
    match arcs {
        Some(arcs) => is_name(arcs, "1.2.840.113549.1.1.1") || is_name(arcs, "1.2.840.10045.2.1"),
        None => false,
    }
}

/// The curve of a public key is P-256, P-384 or P-521 (Baseline Requirements section 6.1.5).
fn remark_on_key_curve(
    algorithm: Option<&'static Identifier>,
    around: Option<&Line>,
    value: &Value,
) -> Option<Remark>
    ensures { result ≡ remark_on_key_curve algorithm.entry (option_map (λ r. r.now) around.entry)
        value.now }
{
    let arcs = arcs_in(value);
    remark_if(
        is_of_key(around) && is_of_curves(algorithm) && arcs.is_some() && !is_server_curve(arcs),
        Remark::Tls(TlsRemark::Curve),
    )
}

/// Whether the algorithm is id-ecPublicKey.
fn is_of_curves(algorithm: Option<&'static Identifier>) -> bool
    ensures { result ≡ is_of_curves algorithm.entry }
{
    match algorithm {
        Some(identifier) => is_name(identifier.arcs, "1.2.840.10045.2.1"),
        None => false,
    }
}

fn is_server_curve(arcs: Option<&str>) -> bool
    ensures { result ≡ is_one_of_arcs server_curves (option_map (λ r. r.now) arcs.entry) }
{
    match arcs {
        Some(arcs) => {
            is_name(arcs, "1.2.840.10045.3.1.7")
                || is_name(arcs, "1.3.132.0.34")
                || is_name(arcs, "1.3.132.0.35")
        }
        None => false,
    }
}

/// A modulus has 2048 bits at least, and 8 divide their number (Baseline Requirements section 6.1.5). One below 0 has
/// no size.
fn remark_on_server_modulus(value: &Value) -> Option<Remark>
    ensures { result ≡ remark_on_server_modulus value.now }
{
    match value {
        Value::Number(number) => remark_on_modulus_bits(bit_length(*number)),
        Value::Octets(octets) if !is_below_zero(octets) => {
            remark_on_modulus_bits(integer_bits(octets))
        }
        _ => None,
    }
}

fn remark_on_modulus_bits(bits: u64) -> Option<Remark>
    ensures { result ≡ remark_on_modulus_bits bits }
{
    remark_if(
        bits < 2048 || bits % 8 != 0,
        Remark::Tls(TlsRemark::ModulusBits(bits)),
    )
}

/// A public exponent is from 65537 up to 2^256 - 1 (Baseline Requirements section 6.1.6).
fn remark_on_server_exponent(value: &Value) -> Option<Remark>
    ensures { result ≡ remark_on_server_exponent value.now }
{
    match value {
        Value::Number(number) => remark_if(*number < 65537, Remark::Tls(TlsRemark::Exponent)),
        Value::Octets(octets) => remark_if(
            is_below_zero(octets) || integer_bits(octets) > 256,
            Remark::Tls(TlsRemark::Exponent),
        ),
        _ => None,
    }
}

/// Where the subject is empty, subjectAltName is critical (RFC 5280 section 4.2.1.6).
fn remark_on_criticality(is_empty: bool, line: &Line, after: &[Line]) -> Option<Remark>
    ensures { result ≡ remark_on_criticality is_empty line.now after.now }
{
    remark_if(
        is_empty && is_named_alt(line) && !is_critical(after),
        Remark::Tls(TlsRemark::NamesNotCritical),
    )
}

/// Whether the line after an extension's identifier says that it is critical.
fn is_critical(after: &[Line]) -> bool
    ensures { result ≡ is_critical after.now }
{
    match after.first() {
        Some(line) => {
            is_field(line.step, "critical") && matches!(line.value, Value::Boolean(true))
        }
        None => false,
    }
}

/// A commonName is one of the names in subjectAltName (Baseline Requirements section 7.1.4.3), which is said of the
/// first one in the subject, where its characters are of an octet each or in UTF-8.
fn remark_on_common_name(context: TlsContext, lines: &[Line], line: &Line) -> Option<Remark>
    ensures { result ≡ remark_on_common_name context lines.now line.now }
{
    if is_wide(line.tag) {
        return None;
    }
    remark_on_text(context, lines, &line.value)
}

fn remark_on_text(context: TlsContext, lines: &[Line], value: &Value) -> Option<Remark>
    ensures { result ≡ remark_on_text context lines.now value.now }
{
    match value {
        Value::Characters(octets) => remark_if(
            is_first_common_name(context) && is_left_out(octets, lines),
            Remark::Tls(TlsRemark::CommonName),
        ),
        _ => None,
    }
}

/// Whether the value is that of the first commonName of the subject.
fn is_first_common_name(context: TlsContext) -> bool
    ensures { result ≡ is_first_common_name context }
{
    !context.has_common_name && context.extension.is_none() && is_common_name(context.attribute)
}

fn is_common_name(attribute: Option<&'static Identifier>) -> bool
    ensures { result ≡ is_common_name attribute.entry }
{
    match attribute {
        Some(identifier) => is_x520(identifier.contents, 3),
        None => false,
    }
}

/// Whether there is a subjectAltName, and the name isn't in it. Of addresses nothing is said: they stand there in
/// octets.
fn is_left_out(name: &[u8], lines: &[Line]) -> bool
    ensures { result ≡ is_left_out name.now lines.now }
{
    !is_address_text(name) && have_names(lines) && !is_named_in(name, lines)
}

/// Whether it is an address in its usual text, by its form: of version 6 with a colon.
fn is_address_text(name: &[u8]) -> bool
    ensures { result ≡ is_address_text name.now }
{
    is_ipv4_address(name) || (has_colon(name) && are_address_octets(name))
}

fn has_colon(name: &[u8]) -> bool
    ensures { result ≡ has_colon name.now }
{
    name.iter().any(|octet| *octet == b':')
}

fn are_address_octets(name: &[u8]) -> bool
    ensures { result ≡ are_address_octets name.now }
{
    name.iter().all(|octet| is_address_octet(*octet))
}

/// A hexadecimal figure, `:` or `.`.
fn is_address_octet(octet: u8) -> bool
    ensures { result ≡ is_address_octet octet }
{
    (octet >= b'0' && octet <= b'9')
        || (octet >= b'A' && octet <= b'F')
        || (octet >= b'a' && octet <= b'f')
        || octet == b':'
        || octet == b'.'
}

/// Whether a line in subjectAltName is this DNS name, or may have it inside.
fn is_named_in(name: &[u8], lines: &[Line]) -> bool
    ensures { result ≡ is_named_in name.now None lines.now }
{
    let mut extension = None;
    let mut left = lines;
    while let [line, rest @ ..] = left {
        if is_subject_alt_name(extension) && may_name(name, line) {
            return true;
        }
        extension = extension_after(extension, line);
        left = rest;
    }
    false
}

/// Whether the line is this DNS name, or may have it inside: what isn't in DER has no lines.
fn may_name(name: &[u8], line: &Line) -> bool
    ensures { result ≡ may_name name.now line.now }
{
    is_unread(line.carries) || (is_name(line.type_name, "dNSName") && has_text(name, &line.value))
}

fn is_unread(carries: Option<Carried>) -> bool
    ensures { result ≡ is_unread carries }
{
    matches!(carries, Some(Carried::NotDer) | Some(Carried::Refused(..)))
}

fn has_text(name: &[u8], value: &Value) -> bool
    ensures { result ≡ has_text name.now value.now }
{
    match value {
        Value::Characters(octets) => are_same_octets(octets, name),
        _ => false,
    }
}

/// A member of an extension is a name of the Internet's, and no usage for anything.
fn remark_on_inner(extension: Option<&'static Identifier>, line: &Line) -> Option<Remark>
    ensures { result ≡ remark_on_inner extension.entry line.now }
{
    if !is_member(line.step) {
        return None;
    }
    if is_subject_alt_name(extension) {
        return remark_on_reach(line.type_name, &line.value);
    }
    remark_if(
        is_extended_usage(extension) && is_any_usage(&line.value),
        Remark::Tls(TlsRemark::AnyUsage),
    )
}

/// A name in subjectAltName is one of the Internet's (Baseline Requirements section 7.1.2.7.12).
fn remark_on_reach(type_name: &str, value: &Value) -> Option<Remark>
    ensures { result ≡ remark_on_reach type_name.now value.now }
{
    match value {
        Value::Characters(octets) => remark_if(
            is_name(type_name, "dNSName") && is_internal(octets),
            Remark::Tls(TlsRemark::InternalName),
        ),
        Value::Octets(octets) => remark_if(
            is_name(type_name, "iPAddress") && is_reserved(octets),
            Remark::Tls(TlsRemark::ReservedAddress),
        ),
        _ => None,
    }
}

fn is_extended_usage(extension: Option<&'static Identifier>) -> bool
    ensures { result ≡ is_extended_usage extension.entry }
{
    match extension {
        Some(identifier) => is_name(identifier.name, "extKeyUsage"),
        None => false,
    }
}

/// Whether it is anyExtendedKeyUsage (section 7.1.2.7.10).
fn is_any_usage(value: &Value) -> bool
    ensures { result ≡ is_any_usage value.now }
{
    match arcs_in(value) {
        Some(arcs) => is_name(arcs, "2.5.29.37.0"),
        None => false,
    }
}
