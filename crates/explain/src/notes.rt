//! What other standards forbid in an accepted document, by its lines.
ghost use Rattle.std.specs.Prelude.{◌≡◌, ◌≤◌, IfOk, OnOk, length, option_and_then, slice_get};
ghost use Rattle.std.specs.Option.{option_map};
ghost use Rattle.pkix_definitions.specs.Identifiers.{ec_public_key, entry_under};
ghost use Rattle.x690.specs.Lists.{same_octets};
ghost use Rattle.explain.specs.Notes.{add_note, arcs_of, are_same, context_after, context_start, curve_after};
ghost use Rattle.explain.specs.Notes.{is_attribute, is_curve_named, is_form, is_point, is_public_key, is_repeated};
ghost use Rattle.explain.specs.Notes.{is_same_field, is_same_identifier, is_same_step, is_single_valued, members_of};
ghost use Rattle.explain.specs.Notes.{ml_dsa_lengths, ml_kem_lengths, most_notes, named, nist_encapsulation};
ghost use Rattle.explain.specs.Notes.{nist_signature, notes_on, parameters, public_octets, remark_on};
ghost use Rattle.explain.specs.Notes.{identifier_in, remark_on_algorithm, remark_on_bits, remark_on_identifier};
ghost use Rattle.explain.specs.Notes.{remark_on_key, remark_on_member, remark_on_public_key, remark_on_repeat};
ghost use Rattle.explain.specs.Notes.{remark_on_point, remark_on_value};
ghost use Rattle.explain.specs.Notes.{remark_on_values, remark_once_more, slh_dsa_sha2_lengths};
ghost use Rattle.explain.specs.Notes.{slh_dsa_shake_lengths};
ghost use Rattle.explain.specs.Notes.{is_member, is_same_member, is_same_name, list_depth, octets_in};

mod algorithms;
mod attributes;
mod general_names;
mod hosts;
mod keys;
mod names;
mod reach;
mod remarks;
pub(crate) mod tls;
mod usages;

use crate::document::values::is_field;
use crate::notes::algorithms::remark_on_scheme;
use crate::notes::attributes::remark_on_attribute;
use crate::notes::keys::{
    remark_on_curve, remark_on_exponent, remark_on_inside, remark_on_modulus,
};
use crate::notes::names::{is_one_element, is_subject_alt_name, remark_on_name};
use crate::notes::remarks::{is_name, remark_if};
use crate::notes::usages::{
    Held, held_in, remark_on_info, remark_on_old_request, remark_on_path, remark_on_subject,
    remark_on_usage,
};
use asn_names::element::Step;
use pkix_definitions::identifiers::{
    EC_PUBLIC_KEY, EXTENSION_REQUEST, are_same_octets, curve_length,
};
use pkix_shapes::identifiers::Identifier;
use reports::report::{Carried, Line, NameRemark, Note, Remark, Value};
use std::alloc::{AllocError, Global};

/// What the lines before say of the ones that follow.
#[derive(Clone, Copy)]
struct Context {
    /// How many octets a coordinate of the curve has that was named after the last algorithm, where it is a known one.
    curve: Option<u64>,
    /// How many octets a public key of the last algorithm has, where it is one of a single length.
    public: Option<u64>,
    /// The last attribute is of a type that has a single value.
    is_single: bool,
    /// The last extension, where it has a usual name.
    extension: Option<&'static Identifier>,
    /// The last algorithm, where it has a usual name.
    algorithm: Option<&'static Identifier>,
    /// What stands anywhere in the document.
    held: Held,
    /// The type of the last attribute, where it has one.
    attribute: Option<&'static Identifier>,
}

/// There are at most so many notes: a document may have an extension many thousand times.
pub(crate) const MOST_NOTES: usize = 100;

/// The notes on the lines of an accepted document, in their order: the first ones, where there are many.
pub(crate) fn notes_of(alloc: Global, lines: &[Line]) -> Result<Vec<Note>, AllocError>
    ensures are { IfOk result (λ notes. notes.items ≡ notes_on lines.now) }
    ensures few { IfOk result (λ notes. length notes.items ≤ most_notes) }
{
    let mut notes = Vec::new(alloc);
    let mut context = start(lines);
    for i in 0..lines.len() {
        let line = &lines[i];
        push_note(
            &mut notes,
            i,
            remark_on(lines, context, line, &lines[i + 1..]),
        )?;
        push_note(
            &mut notes,
            i,
            remark_on_repeat(context.extension, lines, &lines[..i], line),
        )?;
        context = context_after(context, line);
    }
    Ok(notes)
}

/// A remark on the line of this number, where there is one and room for it.
pub(crate) fn push_note(
    notes: &mut Vec<Note>,
    line: usize,
    remark: Option<Remark>,
) -> Result<(), AllocError>
    ensures { OnOk result (notes.new.items ≡ add_note notes.old.items line remark) }
{
    let Some(remark) = remark else {
        return Ok(());
    };
    if notes.as_slice().len() >= MOST_NOTES {
        return Ok(());
    }
    notes.push(Note {
        line: line as u64,
        remark,
    })?;
    Ok(())
}

fn start(lines: &[Line]) -> Context
    ensures { result ≡ context_start lines.now }
{
    Context {
        curve: None,
        public: None,
        is_single: false,
        extension: None,
        algorithm: None,
        held: held_in(lines),
        attribute: None,
    }
}

fn context_after(context: Context, line: &Line) -> Context
    ensures { result ≡ context_after context line.now }
{
    let name = named(&line.value);
    if is_field(line.step, "algorithm") {
        return Context {
            public: public_octets_of(name),
            curve: None,
            algorithm: identifier_in(&line.value),
            ..context
        };
    }
    if is_field(line.step, "type") {
        return Context {
            is_single: is_single_valued(name),
            attribute: identifier_in(&line.value),
            ..context
        };
    }
    if is_field(line.step, "type-id") {
        return Context {
            attribute: None,
            ..context
        };
    }
    if is_field(line.step, "extnID") {
        return Context {
            extension: identifier_in(&line.value),
            ..context
        };
    }
    Context {
        curve: curve_after(context.curve, name),
        ..context
    }
}

/// An object identifier that has a usual name.
pub(crate) fn identifier_in(value: &Value) -> Option<&'static Identifier>
    ensures { result ≡ identifier_in value.now }
{
    match value {
        Value::Named(identifier) => Some(identifier),
        _ => None,
    }
}

/// The contents octets of an object identifier that has a usual name.
fn named(value: &Value) -> Option<&'static [u8]>
    ensures { option_map (λ r. r.now) result ≡ named value.now }
{
    match value {
        Value::Named(identifier) => Some(identifier.contents),
        _ => None,
    }
}

/// The arcs of one that has none, in decimal.
fn arcs_of(value: &Value) -> Option<&[u8]>
    ensures { option_map (λ r. r.now) result ≡ arcs_of value.now }
{
    match value {
        Value::Arcs(text) => Some(text.as_bytes()),
        _ => None,
    }
}

/// How many octets a coordinate has, after another identifier.
fn curve_after(curve: Option<u64>, name: Option<&[u8]>) -> Option<u64>
    ensures { result ≡ curve_after curve (option_map (λ r. r.now) name.entry) }
{
    let Some(name) = name else {
        return curve;
    };
    match curve_length(name) {
        Some(octets) => Some(octets as u64),
        None => curve,
    }
}

/// An attribute of a single value: challengePassword, extensionRequest (RFC 2985 sections 5.4.1, 5.4.2).
fn is_single_valued(name: Option<&[u8]>) -> bool
    ensures { result ≡ is_single_valued (option_map (λ r. r.now) name.entry) }
{
    let Some(name) = name else {
        return false;
    };
    are_same_octets(
        name,
        &[0x2A, 0x86, 0x48, 0x86, 0xF7, 0x0D, 0x01, 0x09, 0x07],
    ) || are_same_octets(name, EXTENSION_REQUEST)
}

/// The octets of a public key under the algorithm, where all have the same number.
fn public_octets_of(name: Option<&[u8]>) -> Option<u64>
    ensures { result ≡ option_and_then public_octets (option_map (λ r. r.now) name.entry) }
{
    match name {
        Some(name) => public_octets(name),
        None => None,
    }
}

fn public_octets(algorithm: &[u8]) -> Option<u64>
    ensures { result ≡ public_octets algorithm.now }
{
    if let Some(octets) = ml_dsa_octets(algorithm) {
        return Some(octets);
    }
    if let Some(octets) = ml_kem_octets(algorithm) {
        return Some(octets);
    }
    if let Some(octets) = slh_dsa_sha2_octets(algorithm) {
        return Some(octets);
    }
    slh_dsa_shake_octets(algorithm)
}

/// Of ML-DSA-44, ML-DSA-65, ML-DSA-87 (RFC 9881).
fn ml_dsa_octets(algorithm: &[u8]) -> Option<u64>
    ensures { result ≡ entry_under ml_dsa_lengths algorithm.now }
{
    if is_signature(algorithm, 17) {
        Some(1312)
    } else if is_signature(algorithm, 18) {
        Some(1952)
    } else if is_signature(algorithm, 19) {
        Some(2592)
    } else {
        None
    }
}

/// Of ML-KEM-512, ML-KEM-768, ML-KEM-1024 (RFC 9935).
fn ml_kem_octets(algorithm: &[u8]) -> Option<u64>
    ensures { result ≡ entry_under ml_kem_lengths algorithm.now }
{
    if is_encapsulation(algorithm, 1) {
        Some(800)
    } else if is_encapsulation(algorithm, 2) {
        Some(1184)
    } else if is_encapsulation(algorithm, 3) {
        Some(1568)
    } else {
        None
    }
}

/// Of SLH-DSA with SHA2: 128s, 128f, 192s, 192f, 256s, 256f (RFC 9909).
fn slh_dsa_sha2_octets(algorithm: &[u8]) -> Option<u64>
    ensures { result ≡ entry_under slh_dsa_sha2_lengths algorithm.now }
{
    if is_signature(algorithm, 20) {
        Some(32)
    } else if is_signature(algorithm, 21) {
        Some(32)
    } else if is_signature(algorithm, 22) {
        Some(48)
    } else if is_signature(algorithm, 23) {
        Some(48)
    } else if is_signature(algorithm, 24) {
        Some(64)
    } else if is_signature(algorithm, 25) {
        Some(64)
    } else {
        None
    }
}

/// Of SLH-DSA with SHAKE, in the same order.
fn slh_dsa_shake_octets(algorithm: &[u8]) -> Option<u64>
    ensures { result ≡ entry_under slh_dsa_shake_lengths algorithm.now }
{
    if is_signature(algorithm, 26) {
        Some(32)
    } else if is_signature(algorithm, 27) {
        Some(32)
    } else if is_signature(algorithm, 28) {
        Some(48)
    } else if is_signature(algorithm, 29) {
        Some(48)
    } else if is_signature(algorithm, 30) {
        Some(64)
    } else if is_signature(algorithm, 31) {
        Some(64)
    } else {
        None
    }
}

/// A signature of NIST, 2.16.840.1.101.3.4.3.NUMBER.
fn is_signature(algorithm: &[u8], number: u8) -> bool
    ensures { result ≡ same_octets algorithm.now (nist_signature number) }
{
    are_same_octets(
        algorithm,
        &[0x60, 0x86, 0x48, 0x01, 0x65, 0x03, 0x04, 0x03, number],
    )
}

/// A key encapsulation of NIST, 2.16.840.1.101.3.4.4.NUMBER.
fn is_encapsulation(algorithm: &[u8], number: u8) -> bool
    ensures { result ≡ same_octets algorithm.now (nist_encapsulation number) }
{
    are_same_octets(
        algorithm,
        &[0x60, 0x86, 0x48, 0x01, 0x65, 0x03, 0x04, 0x04, number],
    )
}

/// id-ecPublicKey, 1.2.840.10045.2.1.
fn is_ec_public_key(algorithm: &[u8]) -> bool
    ensures { result ≡ same_octets algorithm.now ec_public_key }
{
    are_same_octets(algorithm, EC_PUBLIC_KEY)
}

/// What is remarked on a line, by what the lines before say and by the lines after.
fn remark_on(lines: &[Line], context: Context, line: &Line, after: &[Line]) -> Option<Remark>
    ensures { result ≡ remark_on lines.now context line.now after.now }
{
    let around = lines.get(line.around as usize);
    if is_field(line.step, "algorithm") {
        return remark_on_identifier(context, around, line, parameters(after));
    }
    if is_field(line.step, "values") && context.is_single {
        return remark_on_values(members_of(line.depth, after));
    }
    if is_field(line.step, "subject") {
        return remark_on_subject(context.held.has_names, members_of(line.depth, after));
    }
    if is_field(line.step, "certificationRequestInfo") {
        return remark_on_info(context.held.has_attributes);
    }
    if is_field(line.step, "type") {
        return remark_on_old_request(is_attribute(around), &line.value);
    }
    if is_public_key(line.step) {
        return remark_on_public_key(context, line);
    }
    if is_field(line.step, "value") {
        return remark_on_attribute(context.attribute, line);
    }
    remark_on_value(context, line)
}

/// An algorithm, by itself and its parameters; then by the algorithm before it and the element around it.
fn remark_on_identifier(
    context: Context,
    around: Option<&Line>,
    line: &Line,
    parameters: Option<&Line>,
) -> Option<Remark>
    ensures { result ≡ remark_on_identifier context (option_map (λ r. r.now) around.entry) line.now
        (option_map (λ r. r.now) parameters.entry) }
{
    if let Some(remark) = remark_on_algorithm(named(&line.value), parameters) {
        return Some(remark);
    }
    remark_on_scheme(context.algorithm, around, parameters, &line.value)
}

/// A public key is looked into, where its algorithm says what is in it.
fn remark_on_public_key(context: Context, line: &Line) -> Option<Remark>
    ensures { result ≡ remark_on_public_key context line.now }
{
    match line.carries {
        None => remark_on_key(context, &line.value),
        Some(carries) => remark_on_inside(carries),
    }
}

/// The value of an extension is in DER (RFC 5280 section 4.2).
fn remark_on_value(context: Context, line: &Line) -> Option<Remark>
    ensures { result ≡ remark_on_value context line.now }
{
    match line.carries {
        None => remark_on_member(context, line),
        Some(Carried::Der) => None,
        Some(Carried::NotDer) => Some(Remark::ExtensionNotDer(context.extension)),
        Some(Carried::Refused(at, why)) => {
            Some(Remark::ExtensionRefused(context.extension, at, why))
        }
    }
}

/// What is in a document, by its type or its field; else by what it is as a name.
fn remark_on_member(context: Context, line: &Line) -> Option<Remark>
    ensures { result ≡ remark_on_member context line.now }
{
    if is_name(line.type_name, "KeyUsage") {
        return remark_on_usage(context.extension, context.held.is_ca, &line.value);
    }
    if is_field(line.step, "pathLenConstraint") {
        return remark_on_path(context.held.is_ca);
    }
    if is_field(line.step, "modulus") {
        return remark_on_modulus(&line.value);
    }
    if is_field(line.step, "publicExponent") {
        return remark_on_exponent(&line.value);
    }
    if is_field(line.step, "parameters") {
        return remark_on_curve(&line.value);
    }
    remark_on_name(context.extension, line)
}

/// The parameters after an algorithm.
fn parameters(after: &[Line]) -> Option<&Line>
    ensures { option_map (λ r. r.now) result ≡ parameters after.now }
{
    match after.first() {
        Some(line) if is_field(line.step, "parameters") => Some(line),
        _ => None,
    }
}

fn remark_on_algorithm(name: Option<&[u8]>, parameters: Option<&Line>) -> Option<Remark>
    ensures { result ≡ remark_on_algorithm (option_map (λ r. r.now) name.entry)
        (option_map (λ r. r.now) parameters.entry) }
{
    let Some(algorithm) = name else {
        return None;
    };
    if public_octets(algorithm).is_some() {
        return remark_if(parameters.is_some(), Remark::NeedlessParameters);
    }
    remark_if(
        is_ec_public_key(algorithm) && !is_curve_named(parameters),
        Remark::NoNamedCurve,
    )
}

/// Whether parameters are an object identifier.
fn is_curve_named(parameters: Option<&Line>) -> bool
    ensures { result ≡ is_curve_named (option_map (λ r. r.now) parameters.entry) }
{
    match parameters {
        Some(line) => named(&line.value).is_some() || arcs_of(&line.value).is_some(),
        None => false,
    }
}

fn remark_on_values(members: u64) -> Option<Remark>
    ensures { result ≡ remark_on_values members }
{
    remark_if(members > 1, Remark::SeveralValues(members))
}

/// How many members an element of this depth has, by the lines after its own.
pub(crate) fn members_of(depth: u64, after: &[Line]) -> u64
    ensures { result ≡ members_of depth after.now }
{
    let mut count = 0;
    for i in 0..after.len() {
        let line = &after[i];
        if line.depth <= depth {
            return count;
        }
        if line.depth - 1 == depth {
            count += 1;
        }
    }
    count
}

fn is_public_key(step: Step) -> bool
    ensures { result ≡ is_public_key step }
{
    is_field(step, "subjectPublicKey") || is_field(step, "publicKey") || is_field(step, "")
}

fn remark_on_key(context: Context, value: &Value) -> Option<Remark>
    ensures { result ≡ remark_on_key context value.now }
{
    match value {
        Value::Bits(octets, unused, first) => {
            remark_on_bits(context.public, context.curve, *octets, *unused, *first)
        }
        _ => None,
    }
}

/// A public key of so many octets and unused bits, where so many are due, or a point with coordinates of so many.
fn remark_on_bits(
    public: Option<u64>,
    curve: Option<u64>,
    octets: u64,
    unused: u8,
    first: Option<u8>,
) -> Option<Remark>
    ensures { result ≡ remark_on_bits public curve octets unused first }
{
    match (public, curve) {
        (Some(due), _) => remark_if(octets != due, Remark::KeySize(octets, due)),
        (None, None) => None,
        (None, Some(_)) if unused != 0 => Some(Remark::PointBits),
        (None, Some(coordinate)) => remark_on_point(coordinate, octets, first),
    }
}

/// A point with coordinates of so many octets, by how many it has and the first one, where that is known.
fn remark_on_point(coordinate: u64, octets: u64, first: Option<u8>) -> Option<Remark>
    ensures { result ≡ remark_on_point coordinate octets first }
{
    if !is_point(coordinate, octets) {
        return Some(Remark::PointSize(octets));
    }
    let Some(first) = first else {
        return None;
    };
    remark_if(
        !is_form(coordinate, octets, first),
        Remark::PointHybrid(first),
    )
}

/// The first octet of a point says its form: 04 that two coordinates follow, 02 and 03 that one does (RFC 5480 section
/// 2.2, SEC 1 section 2.3.3).
fn is_form(coordinate: u64, octets: u64, first: u8) -> bool
    ensures { result ≡ is_form coordinate octets first }
{
    if octets <= coordinate {
        return false;
    }
    let other = octets - coordinate - 1;
    if first == 4 {
        return other == coordinate;
    }
    (first == 2 || first == 3) && other == 0
}

/// A point is a first octet and one coordinate or two (RFC 5480 section 2.2, SEC 1 section 2.3.3).
fn is_point(coordinate: u64, octets: u64) -> bool
    ensures { result ≡ is_point coordinate octets }
{
    if octets <= coordinate {
        return false;
    }
    let other = octets - coordinate - 1;
    other == 0 || other == coordinate
}

/// How many earlier members of a list are looked at for the same identifier.
const MOST_MEMBERS: usize = 32;

/// What is remarked on a line, where one of the same list before it says the same.
fn remark_on_repeat(
    extension: Option<&'static Identifier>,
    lines: &[Line],
    before: &[Line],
    line: &Line,
) -> Option<Remark>
    ensures { result ≡ remark_on_repeat extension.entry lines.now before.now line.now }
{
    let Some(remark) = remark_once_more(extension, lines, line) else {
        return None;
    };
    remark_if(is_repeated(before, line), remark)
}

/// What may not be there twice: an extension (RFC 5280 section 4.2), an attribute of a request (RFC 2986 section
/// 4.1); and a name in subjectAltName, of which the second says no more.
fn remark_once_more(
    extension: Option<&'static Identifier>,
    lines: &[Line],
    line: &Line,
) -> Option<Remark>
    ensures { result ≡ remark_once_more extension.entry lines.now line.now }
{
    if is_field(line.step, "extnID") {
        return Some(Remark::ExtensionTwice);
    }
    if is_subject_alt_name(extension) && is_one_element(line.type_name) {
        return Some(Remark::Name(NameRemark::Twice));
    }
    remark_if(
        is_field(line.step, "type") && is_attribute(lines.get(line.around as usize)),
        Remark::AttributeTwice,
    )
}

/// Whether an element is an attribute of a request.
pub(crate) fn is_attribute(around: Option<&Line>) -> bool
    ensures { result ≡ is_attribute (option_map (λ r. r.now) around.entry) }
{
    match around {
        Some(around) => is_name(around.type_name, "RequestAttribute"),
        None => false,
    }
}

/// Whether one of the last members before it in its list says the same: as the same field, or as a member itself.
fn is_repeated(before: &[Line], line: &Line) -> bool
    ensures { result ≡ is_repeated before.now line.now }
{
    let list = list_depth(line);
    let mut most = MOST_MEMBERS;
    for back in 0..before.len() {
        let other = &before[before.len() - 1 - back];
        if most == 0 || other.depth <= list {
            return false;
        }
        if is_same_field(line, other) {
            if is_same_member(line, other) {
                return true;
            }
            most -= 1;
        }
    }
    false
}

/// The depth of the list that a line is a member of, or its member is.
fn list_depth(line: &Line) -> u64
    ensures { result ≡ list_depth line.now }
{
    if is_member(line.step) {
        line.depth.saturating_sub(1)
    } else {
        line.depth.saturating_sub(2)
    }
}

pub(crate) fn is_member(step: Step) -> bool
    ensures { result ≡ is_member step }
{
    match step {
        Step::Member(_) => true,
        _ => false,
    }
}

fn is_same_field(line: &Line, other: &Line) -> bool
    ensures { result ≡ is_same_field line.now other.now }
{
    other.depth == line.depth && is_same_step(other.step, line.step)
}

fn is_same_step(one: Step, other: Step) -> bool
    ensures { result ≡ is_same_step one other }
{
    (is_field(one, "extnID") && is_field(other, "extnID"))
        || (is_field(one, "type") && is_field(other, "type"))
        || (is_member(one) && is_member(other))
}

fn is_same_member(line: &Line, other: &Line) -> bool
    ensures { result ≡ is_same_member line.now other.now }
{
    is_same_identifier(line, other) || is_same_name(line, other)
}

fn is_same_identifier(line: &Line, other: &Line) -> bool
    ensures { result ≡ is_same_identifier line.now other.now }
{
    are_same(named(&other.value), named(&line.value))
        || are_same(arcs_of(&other.value), arcs_of(&line.value))
}

/// Whether they are of the same type, and have the same octets.
fn is_same_name(line: &Line, other: &Line) -> bool
    ensures { result ≡ is_same_name line.now other.now }
{
    are_same(octets_in(&other.value), octets_in(&line.value))
        && is_name(other.type_name, line.type_name)
}

/// The octets of a string, or of contents that have no words.
fn octets_in(value: &Value) -> Option<&[u8]>
    ensures { option_map (λ r. r.now) result ≡ octets_in value.now }
{
    match value {
        Value::Characters(octets) | Value::Octets(octets) => Some(octets.as_slice()),
        _ => None,
    }
}

/// Whether two are there, and are the same.
fn are_same(one: Option<&[u8]>, other: Option<&[u8]>) -> bool
    ensures { result ≡ are_same (option_map (λ r. r.now) one.entry)
        (option_map (λ r. r.now) other.entry) }
{
    match (one, other) {
        (Some(one), Some(other)) => are_same_octets(one, other),
        _ => false,
    }
}
