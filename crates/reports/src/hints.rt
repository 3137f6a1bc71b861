//! What is likely, and what to do: by what the file looks like, else by the reason.
ghost use Rattle.std.specs.Prelude.{◌≡◌, ◌++◌, IfOk, OnOk, string_bytes};
ghost use Rattle.std.specs.Option.{option_map};
ghost use Rattle.reports.specs.Hints.{cause_said, do_said, extension_said, is_lines, likely_said, line_said};
ghost use Rattle.reports.specs.Hints.{reason_act, reason_likely, remark_said, signed_words, sound_said};
ghost use Rattle.reports.specs.Hints.{due_size_said, not_der_value_said, point_said, point_size_said};
ghost use Rattle.reports.specs.Hints.{refused_value_said};
ghost use Rattle.reports.specs.Hints.{several_values_said, zero_bits_said};

use crate::afters::line_end;
use crate::guesses::{push_guess, push_guess_act};
use crate::placed_advice::{push_fault_act, push_fault_likely};
use crate::remarks::{
    algorithm_remark_words, extension_remark_words, push_attribute_remark, push_key_remark,
    push_name_remark, push_tls_remark,
};
use crate::report::{Answer, Cause, Guess, Remark, Report};
use crate::seen::seen_of;
use crate::text::{push_number, push_octet};
use crate::text_report::push_reason;
use crate::words::push_size;
use pkix_shapes::identifiers::Identifier;
use std::alloc::{AllocError, Global};
use tlv_core::fault::Fault;
use tlv_core::reason::Reason;

/// The usual cause.
pub(crate) fn likely_text(alloc: Global, report: &Report) -> Result<String, AllocError>
    ensures { IfOk result (λ text. string_bytes text ≡ likely_said report.now) }
{
    let mut text = String::new(alloc);
    if let Answer::Refused(fault) = report.answer {
        push_likely(&mut text, report, fault)?;
    }
    Ok(text)
}

#[tactic(auto, unfolding(crate::specs::Hints::reason_likely))]
fn push_likely(text: &mut String, report: &Report, fault: Fault) -> Result<(), AllocError>
    ensures { OnOk result (string_bytes text.new ≡ string_bytes text.old
        ++ reason_likely report.now fault) }
{
    match report.guess {
        Guess::Unknown => {
            let line = line_words(report.octets, line_end(report));
            if line.is_empty() {
                push_fault_likely(text, report.kind.word, seen_of(report, fault), fault)
            } else {
                text.push_str(line)
            }
        }
        guess => push_guess(text, guess),
    }
}

/// Whether a line of a PEM text, of 64 letters or of 76, may be missing, or there twice.
#[tactic(auto, unfolding(crate::specs::Hints::line_said))]
fn line_words(octets: u64, announced: Option<u64>) -> &'static str
    ensures { result.now ≡ line_said octets announced }
{
    let Some(announced) = announced else {
        return "";
    };
    if octets < announced && is_lines(announced - octets) {
        return "a line of the PEM text is missing";
    }
    if announced < octets && is_lines(octets - announced) {
        return "a line of the PEM text stands twice";
    }
    ""
}

/// Whether lines of 64 letters of base64, or of 76, have so many octets.
pub(crate) fn is_lines(octets: u64) -> bool
    ensures { result ≡ is_lines octets }
{
    octets % 48 == 0 || octets % 57 == 0
}

/// What to do.
pub(crate) fn do_text(alloc: Global, report: &Report) -> Result<String, AllocError>
    ensures { IfOk result (λ text. string_bytes text ≡ do_said report.now) }
{
    let mut text = String::new(alloc);
    match report.answer {
        Answer::Der => {}
        Answer::NotDer(_) => push_sound(&mut text, report.kind.word)?,
        Answer::Refused(fault) => push_act(&mut text, report, fault)?,
    }
    Ok(text)
}

/// What to do with a document of this kind that isn't in DER.
#[tactic(auto, unfolding(crate::specs::Hints::sound_said))]
fn push_sound(text: &mut String, kind: &str) -> Result<(), AllocError>
    ensures { OnOk result (string_bytes text.new ≡ string_bytes text.old
        ++ sound_said kind.now) }
{
    text.push_str(
        "the document is sound. A program that takes DER alone refuses it; else keep what pkder \
            normalise writes",
    )?;
    text.push_str(signed_words(kind))
}

/// What to do with what is signed, which a request alone has.
fn signed_words(kind: &str) -> &'static str
    ensures { result.now ≡ signed_words kind.now }
{
    if kind == "request" {
        return ", and verify the signature over the octets as they came, which pkder signed --part \
            received writes; where that fails, over what pkder signed writes";
    }
    ""
}

#[tactic(auto, unfolding(crate::specs::Hints::reason_act))]
fn push_act(text: &mut String, report: &Report, fault: Fault) -> Result<(), AllocError>
    ensures { OnOk result (string_bytes text.new ≡ string_bytes text.old
        ++ reason_act report.now fault) }
{
    match report.guess {
        Guess::Unknown => push_fault_act(text, report.kind.word, seen_of(report, fault), fault),
        guess => push_guess_act(text, report.kind.word, guess),
    }
}

/// Why an element isn't in DER.
#[tactic(auto, unfolding(crate::specs::Hints::cause_said))]
pub(crate) fn cause_words(cause: Cause) -> &'static str
    ensures { result.now ≡ cause_said cause }
{
    match cause {
        Cause::LongLength => "a length in more octets than it needs",
        Cause::IndefiniteLength => "a length of the indefinite form",
        Cause::Segments => "a string in segments",
        Cause::True => "TRUE by another octet than FF",
        Cause::UnusedBits => "unused bits that aren't 0",
        Cause::Default => "a default value written out, which DER leaves out",
        Cause::Order => "members of a SET OF that aren't in the order of their octets",
    }
}

/// What other standards say to what is there.
pub(crate) fn note_text(alloc: Global, remark: Remark) -> Result<String, AllocError>
    ensures { IfOk result (λ text. string_bytes text ≡ remark_said remark) }
{
    let mut text = String::new(alloc);
    push_remark(&mut text, remark)?;
    Ok(text)
}

#[tactic(auto, unfolding(crate::specs::Hints::remark_said))]
fn push_remark(text: &mut String, remark: Remark) -> Result<(), AllocError>
    ensures { OnOk result (string_bytes text.new ≡ string_bytes text.old ++ remark_said remark) }
{
    match remark {
        Remark::PointSize(octets) => push_point_size(text, octets),
        Remark::PointBits => text.push_str("a point with unused bits (RFC 5480 section 2.2)"),
        Remark::PointHybrid(octet) => push_point(text, octet),
        Remark::NoNamedCurve => text.push_str(
            "id-ecPublicKey without a named curve (RFC 5480 section 2.1.1)",
        ),
        Remark::ExtensionTwice => text.push_str(
            "an extension that stands there before (RFC 5280 section 4.2)",
        ),
        Remark::AttributeTwice => text.push_str(
            "an attribute of a type that stands there before; one has all its values (RFC 2986 section 4.1)",
        ),
        Remark::SeveralValues(count) => push_several_values(text, count),
        Remark::KeySize(octets, due) => push_due_size(text, octets, due),
        Remark::NeedlessParameters => text.push_str(
            "parameters beside an algorithm that has none (RFC 9881, RFC 9935, RFC 9909)",
        ),
        Remark::ExtensionNotDer(name) => push_not_der_value(text, name),
        Remark::ExtensionZeroBits(name) => push_zero_bits(text, name),
        Remark::ExtensionRefused(name, at, why) => push_refused_value(text, name, at, why),
        Remark::Key(remark) => push_key_remark(text, remark),
        Remark::Name(remark) => push_name_remark(text, remark),
        Remark::Extension(remark) => text.push_str(extension_remark_words(remark)),
        Remark::Algorithm(remark) => text.push_str(algorithm_remark_words(remark)),
        Remark::Attribute(remark) => push_attribute_remark(text, remark),
        Remark::Tls(remark) => push_tls_remark(text, remark),
    }
}

#[tactic(auto, unfolding(crate::specs::Hints::point_size_said))]
fn push_point_size(text: &mut String, octets: u64) -> Result<(), AllocError>
    ensures { OnOk result (string_bytes text.new ≡ string_bytes text.old ++ point_size_said octets) }
{
    text.push_str("a point of ")?;
    push_size(text, octets)?;
    text.push_str(", which none of this curve has (RFC 5480 section 2.2)")
}

#[tactic(auto, unfolding(crate::specs::Hints::point_said))]
fn push_point(text: &mut String, octet: u8) -> Result<(), AllocError>
    ensures { OnOk result (string_bytes text.new ≡ string_bytes text.old ++ point_said octet) }
{
    text.push_str("a point whose first octet is ")?;
    push_octet(text, octet)?;
    text.push_str(", which none of its length has (RFC 5480 section 2.2)")
}

#[tactic(auto, unfolding(crate::specs::Hints::several_values_said))]
fn push_several_values(text: &mut String, count: u64) -> Result<(), AllocError>
    ensures { OnOk result (string_bytes text.new ≡ string_bytes text.old ++ several_values_said count) }
{
    push_number(text, count)?;
    text.push_str(" values of an attribute that has one (RFC 2985 section 5.4)")
}

#[tactic(auto, unfolding(crate::specs::Hints::due_size_said))]
fn push_due_size(text: &mut String, octets: u64, due: u64) -> Result<(), AllocError>
    ensures { OnOk result (string_bytes text.new ≡ string_bytes text.old ++ due_size_said octets due) }
{
    text.push_str("a key of ")?;
    push_size(text, octets)?;
    text.push_str(", where its algorithm has ")?;
    push_number(text, due)?;
    text.push_str(" (RFC 9881, RFC 9935, RFC 9909)")
}

#[tactic(auto, unfolding(crate::specs::Hints::not_der_value_said))]
fn push_not_der_value(
    text: &mut String,
    name: Option<&'static Identifier>,
) -> Result<(), AllocError>
    ensures { OnOk result (string_bytes text.new ≡ string_bytes text.old
        ++ not_der_value_said (option_map (λ r. r.now) name.entry)) }
{
    push_extension(text, name)?;
    text.push_str(" isn't in DER inside (RFC 5280 section 4.2)")
}

#[tactic(auto, unfolding(crate::specs::Hints::zero_bits_said))]
fn push_zero_bits(text: &mut String, name: Option<&'static Identifier>) -> Result<(), AllocError>
    ensures { OnOk result (string_bytes text.new ≡ string_bytes text.old
        ++ zero_bits_said (option_map (λ r. r.now) name.entry)) }
{
    push_extension(text, name)?;
    text.push_str(" has bits 0 at its end, which DER leaves out (X.690 11.2.2)")
}

#[tactic(auto, unfolding(crate::specs::Hints::refused_value_said))]
fn push_refused_value(
    text: &mut String,
    name: Option<&'static Identifier>,
    at: u64,
    why: Reason,
) -> Result<(), AllocError>
    ensures { OnOk result (string_bytes text.new ≡ string_bytes text.old
        ++ refused_value_said (option_map (λ r. r.now) name.entry) at why) }
{
    push_extension(text, name)?;
    text.push_str(" isn't of its type inside: fault at ")?;
    push_reason(text, at, why)?;
    text.push_str(", counted from the first octet of its value (RFC 5280 section 4.2)")
}

/// An extension by its usual name, where it has one.
fn push_extension(text: &mut String, name: Option<&'static Identifier>) -> Result<(), AllocError>
    ensures { OnOk result (string_bytes text.new ≡ string_bytes text.old
        ++ extension_said (option_map (λ r. r.now) name.entry)) }
{
    match name {
        Some(identifier) => text.push_str(identifier.name),
        None => text.push_str("the extension"),
    }
}
