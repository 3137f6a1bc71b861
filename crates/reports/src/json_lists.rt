//! The elements of a report, and what is said of some, as JSON.
ghost use Rattle.std.specs.Prelude.{[], ◌≡◌, ◌++◌, IfOk, OnOk, codes, flat_map, length, string_bytes};
ghost use Rattle.std.specs.Option.{option_map};
ghost use Rattle.reports.specs.JsonLists.{carried_member, characters_member, extension_member};
ghost use Rattle.reports.specs.JsonLists.{field_members, field_of_line, form_members, judgement_members};
ghost use Rattle.reports.specs.JsonLists.{is_nothing, length_members, line_members, line_object, marked_in};
ghost use Rattle.reports.specs.JsonLists.{marked_object, not_der_members, note_members, note_object, octets_members};
ghost use Rattle.reports.specs.JsonLists.{path_of, place_members};
ghost use Rattle.reports.specs.JsonLists.{attribute_remark_members, key_remark_members, name_remark_members};
ghost use Rattle.reports.specs.JsonLists.{tls_remark_members};
ghost use Rattle.reports.specs.JsonLists.{remark_words};
ghost use Rattle.reports.specs.JsonLists.{remark_members, some_members, tag_member, tag_members, value_member};
ghost use Rattle.reports.specs.JsonLists.{value_members};
ghost use Rattle.reports.specs.JsonMembers.{list_member, number_member, object_member, optional, said_member};
ghost use Rattle.reports.specs.JsonWords.{class_word};
ghost use Rattle.reports.specs.Paths.{with_step};
ghost use Rattle.tlv_core.specs.Classes.{class_of};

use crate::json_report::push_place;
use crate::json_text::JsonText;
use crate::json_words::{word_of_cause, word_of_class};
use crate::paths::{push_path, push_root, push_step};
use crate::picks::{is_place_alone, line_of, path_to_line, up_to};
use crate::remarks::{code_of, level_of};
use crate::report::{
    AttributeRemark, Carried, Cause, KeyRemark, Length, Line, NameRemark, Note, Remark, Report,
    TlsRemark, Value,
};
use asn_names::element::Step;
use pkix_shapes::identifiers::Identifier;
use std::alloc::{AllocError, Global};
use tlv_core::reason::Reason;
use tlv_core::tag::Tag;

/// An element that isn't in DER.
#[derive(Clone, Copy)]
pub(crate) struct Marked {
    at: u64,
    around: u64,
    step: Step,
    cause: Cause,
}

/// The elements that aren't in DER.
fn find_marked(alloc: Global, lines: &[Line]) -> Result<Vec<Marked>, AllocError>
    ensures { IfOk result (λ marked. marked.items ≡ marked_in lines.now) }
{
    let mut marked = Vec::new(alloc);
    let mut rest = lines;
    while let [line, after @ ..] = rest {
        if let Some(cause) = line.cause {
            marked.push(Marked {
                at: line.at,
                around: line.around,
                step: line.step,
                cause,
            })?;
        }
        rest = after;
    }
    Ok(marked)
}

/// The path of an element, by the number of the line of the one around it.
#[tactic(auto, unfolding(crate::specs::JsonLists::path_of))]
fn path_to(alloc: Global, report: &Report, around: u64, step: Step) -> Result<String, AllocError>
    ensures { IfOk result (λ text. string_bytes text ≡ path_of report.now around step) }
{
    let path = path_to_line(alloc, &report.lines, around)?;
    let mut text = String::new(alloc);
    push_path(&mut text, &path)?;
    push_step(&mut text, step)?;
    push_root(&mut text, report.kind.type_name)?;
    Ok(text)
}

/// The members that show an element by its path and its place.
#[tactic(auto, unfolding(crate::specs::JsonLists::field_members))]
fn push_field(
    alloc: Global,
    json: &mut JsonText,
    report: &Report,
    around: u64,
    step: Step,
    at: u64,
) -> Result<(), AllocError>
    ensures { OnOk result (json.new ≡ json.old ++ field_members report.now around step at) }
{
    let path = path_to(alloc, report, around, step)?;
    json.said("field", path.as_str())?;
    json.number("at", at)
}

#[tactic(auto, unfolding(crate::specs::JsonLists::marked_object))]
fn push_marked(
    alloc: Global,
    json: &mut JsonText,
    report: &Report,
    marked: &Marked,
) -> Result<(), AllocError>
    ensures { OnOk result (json.new ≡ json.old ++ marked_object report.now marked.now) }
{
    json.begin_object()?;
    push_field(alloc, json, report, marked.around, marked.step, marked.at)?;
    json.text("what", word_of_cause(marked.cause))?;
    json.end_object()
}

fn push_all_marked(
    alloc: Global,
    json: &mut JsonText,
    report: &Report,
    marked: &[Marked],
) -> Result<(), AllocError>
    ensures { OnOk result (json.new ≡ json.old ++ flat_map (marked_object report.now) marked.now) }
{
    let mut rest = marked;
    while let [first, after @ ..] = rest {
        push_marked(alloc, json, report, first)?;
        rest = after;
    }
    Ok(())
}

fn push_list(
    alloc: Global,
    json: &mut JsonText,
    report: &Report,
    marked: &[Marked],
) -> Result<(), AllocError>
    ensures { OnOk result (json.new ≡ json.old
        ++ list_member (codes "not_der") (flat_map (marked_object report.now) marked.now)) }
{
    json.begin_list_at("not_der")?;
    push_all_marked(alloc, json, report, marked)?;
    json.end_list()
}

fn count_of(marked: &[Marked]) -> u64
    ensures { result ≡ length marked.now }
{
    marked.len() as u64
}

/// Up to so many of these elements, and how many there are.
#[tactic(auto, unfolding(crate::specs::JsonLists::some_members))]
fn push_some(
    alloc: Global,
    json: &mut JsonText,
    report: &Report,
    marked: &[Marked],
    places: u64,
) -> Result<(), AllocError>
    ensures { OnOk result (json.new ≡ json.old ++ some_members report.now places marked.now) }
{
    push_list(alloc, json, report, up_to(marked, places))?;
    json.number("not_der_places", count_of(marked))
}

/// The elements that aren't in DER, up to so many, and how many there are.
pub(crate) fn push_not_der(
    alloc: Global,
    json: &mut JsonText,
    report: &Report,
    lines: &[Line],
    places: u64,
) -> Result<(), AllocError>
    ensures { OnOk result (json.new ≡ json.old ++ not_der_members places report.now lines.now) }
{
    let marked = find_marked(alloc, lines)?;
    push_some(alloc, json, report, &marked, places)
}

/// The numbers that a remark has.
#[tactic(auto, unfolding(crate::specs::JsonLists::remark_members))]
fn push_remark(json: &mut JsonText, remark: Remark) -> Result<(), AllocError>
    ensures { OnOk result (json.new ≡ json.old ++ remark_members remark) }
{
    match remark {
        Remark::PointSize(octets) => json.number("octets", octets),
        Remark::PointHybrid(octet) => json.number("first_octet", u64::from(octet)),
        Remark::SeveralValues(count) => json.number("values", count),
        Remark::KeySize(octets, due) => {
            json.number("octets", octets)?;
            json.number("due_octets", due)
        }
        Remark::PointBits
        | Remark::NoNamedCurve
        | Remark::ExtensionTwice
        | Remark::AttributeTwice
        | Remark::NeedlessParameters
        | Remark::Extension(_)
        | Remark::Algorithm(_) => Ok(()),
        Remark::ExtensionNotDer(name) | Remark::ExtensionZeroBits(name) => {
            push_extension(json, name)
        }
        Remark::ExtensionRefused(name, at, why) => {
            push_extension(json, name)?;
            push_fault(json, at, why)
        }
        Remark::Key(remark) => push_key_remark(json, remark),
        Remark::Name(remark) => push_name_remark(json, remark),
        Remark::Attribute(remark) => push_attribute_remark(json, remark),
        Remark::Tls(remark) => push_tls_remark(json, remark),
    }
}

#[tactic(auto, unfolding(crate::specs::JsonLists::key_remark_members))]
fn push_key_remark(json: &mut JsonText, remark: KeyRemark) -> Result<(), AllocError>
    ensures { OnOk result (json.new ≡ json.old ++ key_remark_members remark) }
{
    match remark {
        KeyRemark::Refused(at, why) => push_fault(json, at, why),
        KeyRemark::ShortModulus(bits) | KeyRemark::SmallCurve(bits) => json.number("bits", bits),
        KeyRemark::NotDer
        | KeyRemark::NegativeModulus
        | KeyRemark::EvenModulus
        | KeyRemark::Exponent => Ok(()),
    }
}

#[tactic(auto, unfolding(crate::specs::JsonLists::name_remark_members))]
fn push_name_remark(json: &mut JsonText, remark: NameRemark) -> Result<(), AllocError>
    ensures { OnOk result (json.new ≡ json.old ++ name_remark_members remark) }
{
    match remark {
        NameRemark::AddressLength(octets) => json.number("octets", octets),
        NameRemark::DnsSyntax
        | NameRemark::Wildcard
        | NameRemark::PrintableString
        | NameRemark::Hidden
        | NameRemark::MailSyntax
        | NameRemark::UriSyntax
        | NameRemark::AddressAsDns
        | NameRemark::Twice => Ok(()),
    }
}

#[tactic(auto, unfolding(crate::specs::JsonLists::attribute_remark_members))]
fn push_attribute_remark(json: &mut JsonText, remark: AttributeRemark) -> Result<(), AllocError>
    ensures { OnOk result (json.new ≡ json.old ++ attribute_remark_members remark) }
{
    match remark {
        AttributeRemark::Long(characters, most) => {
            json.number("characters", characters)?;
            json.number("most_characters", most)
        }
        AttributeRemark::Country
        | AttributeRemark::EmailType
        | AttributeRemark::OtherType
        | AttributeRemark::Blank => Ok(()),
    }
}

#[tactic(auto, unfolding(crate::specs::JsonLists::tls_remark_members))]
fn push_tls_remark(json: &mut JsonText, remark: TlsRemark) -> Result<(), AllocError>
    ensures { OnOk result (json.new ≡ json.old ++ tls_remark_members remark) }
{
    match remark {
        TlsRemark::ModulusBits(bits) => json.number("bits", bits),
        TlsRemark::Exponent
        | TlsRemark::Curve
        | TlsRemark::KeyAlgorithm
        | TlsRemark::CommonName
        | TlsRemark::InternalName
        | TlsRemark::ReservedAddress
        | TlsRemark::AnyUsage
        | TlsRemark::NamesNotCritical => Ok(()),
    }
}

/// The usual name of an extension, where it has one.
fn push_extension(json: &mut JsonText, name: Option<&'static Identifier>) -> Result<(), AllocError>
    ensures { OnOk result (json.new ≡ json.old
        ++ optional extension_member (option_map (λ r. r.now) name.entry)) }
{
    match name {
        Some(identifier) => json.text("extension", identifier.name),
        None => Ok(()),
    }
}

/// A fault by its place and its reason.
fn push_fault(json: &mut JsonText, at: u64, why: Reason) -> Result<(), AllocError>
    ensures { OnOk result (json.new ≡ json.old ++ object_member (codes "fault") (place_members at why)) }
{
    json.begin_object_at("fault")?;
    push_place(json, at, why)?;
    json.end_object()
}

/// The members that show an element that is listed, where it is.
fn push_field_of_line(
    alloc: Global,
    json: &mut JsonText,
    report: &Report,
    line: Option<&Line>,
) -> Result<(), AllocError>
    ensures { OnOk result (json.new ≡ json.old
        ++ optional (field_of_line report.now) (option_map (λ r. r.now) line.entry)) }
{
    match line {
        Some(line) => push_field(alloc, json, report, line.around, line.step, line.at),
        None => Ok(()),
    }
}

/// The code and the level of a remark.
fn push_remark_words(json: &mut JsonText, remark: Remark) -> Result<(), AllocError>
    ensures { OnOk result (json.new ≡ json.old ++ remark_words remark) }
{
    json.text("what", code_of(remark))?;
    json.text("level", level_of(remark))
}

#[tactic(auto, unfolding(crate::specs::JsonLists::note_members))]
fn push_note_members(
    alloc: Global,
    json: &mut JsonText,
    report: &Report,
    note: &Note,
) -> Result<(), AllocError>
    ensures { OnOk result (json.new ≡ json.old ++ note_members report.now note.now) }
{
    push_field_of_line(alloc, json, report, line_of(&report.lines, note.line))?;
    push_remark_words(json, note.remark)?;
    push_remark(json, note.remark)
}

fn push_note(
    alloc: Global,
    json: &mut JsonText,
    report: &Report,
    note: &Note,
) -> Result<(), AllocError>
    ensures { OnOk result (json.new ≡ json.old ++ note_object report.now note.now) }
{
    json.begin_object()?;
    push_note_members(alloc, json, report, note)?;
    json.end_object()
}

pub(crate) fn push_notes(
    alloc: Global,
    json: &mut JsonText,
    report: &Report,
    notes: &[Note],
) -> Result<(), AllocError>
    ensures { OnOk result (json.new ≡ json.old ++ flat_map (note_object report.now) notes.now) }
{
    let mut rest = notes;
    while let [note, after @ ..] = rest {
        push_note(alloc, json, report, note)?;
        rest = after;
    }
    Ok(())
}

/// The word of a tag's class.
fn class_of_tag(tag: Tag) -> &'static str
    ensures { result.now ≡ class_word (class_of tag.class) }
{
    word_of_class(tag.class())
}

fn number_of_tag(tag: Tag) -> u64
    ensures { result ≡ tag.number }
{
    u64::from(tag.number())
}

fn push_tag(json: &mut JsonText, tag: Tag) -> Result<(), AllocError>
    ensures { OnOk result (json.new ≡ json.old ++ tag_member tag) }
{
    push_class_and_number(json, class_of_tag(tag), number_of_tag(tag))
}

#[tactic(auto, unfolding(crate::specs::JsonLists::tag_members))]
fn push_class_and_number(json: &mut JsonText, class: &str, number: u64) -> Result<(), AllocError>
    ensures { OnOk result (json.new ≡ json.old ++ tag_members class.now number) }
{
    json.begin_object_at("tag")?;
    json.text("class", class)?;
    json.number("number", number)?;
    json.end_object()
}

#[tactic(auto, unfolding(crate::specs::JsonLists::length_members))]
fn push_length(json: &mut JsonText, length: Option<Length>) -> Result<(), AllocError>
    ensures { OnOk result (json.new ≡ json.old ++ optional length_members length) }
{
    match length {
        None => Ok(()),
        Some(length) => {
            json.number("header", length.header)?;
            json.optional_number("length", length.contents)
        }
    }
}

#[tactic(auto, unfolding(crate::specs::JsonLists::characters_member))]
fn push_characters(alloc: Global, json: &mut JsonText, octets: &[u8]) -> Result<(), AllocError>
    ensures { OnOk result (json.new ≡ json.old ++ characters_member octets.now) }
{
    match str::from_utf8(octets) {
        Ok(text) => json.text("characters", text),
        Err(_) => {
            let digits = hex::encode(alloc, octets)?;
            json.text("hexadecimal", digits.as_str())
        }
    }
}

fn is_nothing(value: &Value) -> bool
    ensures { result ≡ is_nothing value.now }
{
    match value {
        Value::Nothing => true,
        Value::NotShown
        | Value::Size(_)
        | Value::Bits(_, _, _)
        | Value::Null
        | Value::Boolean(_)
        | Value::Number(_)
        | Value::Named(_)
        | Value::Arcs(_)
        | Value::Characters(_)
        | Value::Octets(_) => false,
    }
}

fn push_bits(json: &mut JsonText, octets: u64, unused: u64) -> Result<(), AllocError>
    ensures { OnOk result (json.new ≡ json.old ++ (number_member (codes "octets") octets
        ++ number_member (codes "unused_bits") unused)) }
{
    json.number("octets", octets)?;
    json.number("unused_bits", unused)
}

/// The number of octets, and they themselves in hexadecimal digits.
#[tactic(auto, unfolding(crate::specs::JsonLists::octets_members))]
fn push_octets(alloc: Global, json: &mut JsonText, octets: &[u8]) -> Result<(), AllocError>
    ensures { OnOk result (json.new ≡ json.old ++ octets_members octets.now) }
{
    let digits = hex::encode(alloc, octets)?;
    json.number("octets", octets.len() as u64)?;
    json.text("hexadecimal", digits.as_str())
}

#[tactic(auto, unfolding(crate::specs::JsonLists::value_members))]
pub(crate) fn push_value_members(
    alloc: Global,
    json: &mut JsonText,
    value: &Value,
) -> Result<(), AllocError>
    ensures { OnOk result (json.new ≡ json.old ++ value_members value.now) }
{
    match value {
        Value::Nothing => Ok(()),
        Value::NotShown => json.boolean("shown", false),
        Value::Size(octets) => json.number("octets", *octets),
        Value::Bits(octets, unused, _) => push_bits(json, *octets, u64::from(*unused)),
        Value::Null => json.boolean("null", true),
        Value::Boolean(value) => json.boolean("boolean", *value),
        Value::Number(number) => json.number("integer", *number),
        Value::Named(id) => {
            json.text("identifier", id.arcs)?;
            json.text("name", id.name)
        }
        Value::Arcs(arcs) => json.text("identifier", arcs.as_str()),
        Value::Characters(octets) => push_characters(alloc, json, octets),
        Value::Octets(octets) => push_octets(alloc, json, octets),
    }
}

#[tactic(auto, unfolding(crate::specs::JsonLists::value_member))]
pub(crate) fn push_value(
    alloc: Global,
    json: &mut JsonText,
    value: &Value,
) -> Result<(), AllocError>
    ensures { OnOk result (json.new ≡ json.old ++ value_member value.now) }
{
    if is_nothing(value) {
        return Ok(());
    }
    json.begin_object_at("value")?;
    push_value_members(alloc, json, value)?;
    json.end_object()
}

/// The name by which an element is in the one around it, where it has one.
#[tactic(auto, unfolding(crate::specs::Paths::with_step))]
fn push_line_name(alloc: Global, json: &mut JsonText, step: Step) -> Result<(), AllocError>
    ensures { OnOk result (json.new ≡ json.old ++ said_member (codes "name") (with_step [] step)) }
{
    if let Step::Field(name) = step {
        return json.said("name", name);
    }
    let mut name = String::new(alloc);
    push_step(&mut name, step)?;
    json.said("name", name.as_str())
}

/// The tag of an element and whether it is constructed, where more than its place is shown.
#[tactic(auto, unfolding(crate::specs::JsonLists::form_members))]
fn push_form(json: &mut JsonText, line: &Line) -> Result<(), AllocError>
    ensures { OnOk result (json.new ≡ json.old ++ form_members line.now) }
{
    if is_place_alone(line) {
        return Ok(());
    }
    push_tag(json, line.tag)?;
    json.boolean("constructed", line.constructed)
}

#[tactic(auto, unfolding(crate::specs::JsonLists::line_members))]
fn push_line_members(alloc: Global, json: &mut JsonText, line: &Line) -> Result<(), AllocError>
    ensures { OnOk result (json.new ≡ json.old ++ line_members line.now) }
{
    json.number("at", line.at)?;
    push_length(json, line.length)?;
    json.number("depth", line.depth)?;
    push_line_name(alloc, json, line.step)?;
    json.said("type", line.type_name)?;
    push_form(json, line)?;
    json.optional_number("end", line.end)?;
    push_value(alloc, json, &line.value)?;
    push_carried(json, line.carries)
}

/// What the contents of an extension are as a value of its type.
pub(crate) fn push_carried(json: &mut JsonText, carries: Option<Carried>) -> Result<(), AllocError>
    ensures { OnOk result (json.new ≡ json.old ++ optional carried_member carries) }
{
    match carries {
        Some(carried) => {
            json.begin_object_at("carries")?;
            push_judgement(json, carried)?;
            json.end_object()
        }
        None => Ok(()),
    }
}

#[tactic(auto, unfolding(crate::specs::JsonLists::judgement_members))]
fn push_judgement(json: &mut JsonText, carried: Carried) -> Result<(), AllocError>
    ensures { OnOk result (json.new ≡ json.old ++ judgement_members carried) }
{
    match carried {
        Carried::Der => json.text("verdict", "der"),
        Carried::NotDer => json.text("verdict", "not_der"),
        Carried::Refused(at, why) => {
            json.text("verdict", "refused")?;
            push_place(json, at, why)
        }
    }
}

fn push_line(alloc: Global, json: &mut JsonText, line: &Line) -> Result<(), AllocError>
    ensures { OnOk result (json.new ≡ json.old ++ line_object line.now) }
{
    json.begin_object()?;
    push_line_members(alloc, json, line)?;
    json.end_object()
}

pub(crate) fn push_lines(
    alloc: Global,
    json: &mut JsonText,
    lines: &[Line],
) -> Result<(), AllocError>
    ensures { OnOk result (json.new ≡ json.old ++ flat_map line_object lines.now) }
{
    let mut rest = lines;
    while let [line, after @ ..] = rest {
        push_line(alloc, json, line)?;
        rest = after;
    }
    Ok(())
}
