//! What a report shows of the cause of a fault, where its reason alone doesn't say it.
ghost use Rattle.std.specs.Prelude.{◌≡◌, drop};
ghost use Rattle.reports.specs.Seen.{after_document, before_key, begins_in, behind, beside, beside_value};
ghost use Rattle.reports.specs.Seen.{by_algorithm, by_name, by_reason, curve, curve_between, curve_value, ends_in};
ghost use Rattle.reports.specs.Seen.{first_end, has_keys, in_key, is_in_key, is_universal, no_set};
ghost use Rattle.reports.specs.Seen.{is_written_out, parameters_at, parameters_of, seen_of, segment, wrong_tag};

use crate::asks::{from_field, is_step};
use crate::report::{After, Diagnosis, Found, Line, Report, Value};
use asn_names::element::Step;
use tlv_core::fault::Fault;
use tlv_core::reason::Reason;
use tlv_core::tag::Class;

/// A cause that the lines, or what is found, show.
#[derive(Clone, Copy)]
pub(crate) enum Seen {
    Nothing,
    /// Of an algorithm that has no parameters (RFC 8410 section 3): NULL, and others.
    NullParameters,
    Parameters,
    /// Of id-ecPublicKey: no curve's name (RFC 5480 section 2.1.1).
    NoCurve,
    /// A curve that is written out, where its name is due.
    WrittenOut,
    /// A string that is marked as segments holds something else (X.690 8.7.3); in `privateKey` a SEQUENCE.
    InSegments,
    /// With the place of `privateKey`.
    KeyInSegments(u64),
    /// A value without the SET around it (RFC 2986 section 4.1, RFC 5958 section 2).
    NoSet,
    /// It may be one: what is there isn't shown.
    MaybeNoSet,
    /// What the octets after the document are.
    After(After),
}

/// What a report shows of the cause of this fault, where that is in the file.
#[tactic(auto, unfolding(crate::specs::Seen::seen_of))]
pub(crate) fn seen_of(report: &Report, fault: Fault) -> Seen
    ensures { result ≡ seen_of report.now fault }
{
    if fault.inside.is_some() {
        return Seen::Nothing;
    }
    match &report.diagnosis {
        Some(diagnosis) => by_reason(report, fault.at, fault.why, diagnosis),
        None => Seen::Nothing,
    }
}

fn by_reason(report: &Report, at: u64, why: Reason, diagnosis: &Diagnosis) -> Seen
    ensures { result ≡ by_reason report.now at why diagnosis.now }
{
    match why {
        Reason::Parameters => parameters_at(&report.lines, diagnosis.line),
        Reason::WrongTag => wrong_tag(report.kind.word, at, &report.lines, diagnosis),
        Reason::Trailing => after_document(report.after),
        _ => Seen::Nothing,
    }
}

/// The parameters of the AlgorithmIdentifier that this line is of.
fn parameters_at(lines: &[Line], line: Option<u64>) -> Seen
    ensures { result ≡ parameters_at lines.now line }
{
    match line {
        Some(number) => parameters_of(lines_from(lines, number)),
        None => Seen::Nothing,
    }
}

/// The lines from this number on.
fn lines_from(lines: &[Line], number: u64) -> &[Line]
    ensures { result.now ≡ drop number lines.now }
{
    if number <= lines.len() as u64 {
        &lines[number as usize..]
    } else {
        &lines[lines.len()..]
    }
}

/// The parameters, by the lines from that of the AlgorithmIdentifier on.
fn parameters_of(lines: &[Line]) -> Seen
    ensures { result ≡ parameters_of lines.now }
{
    match lines {
        [line, algorithm, rest @ ..] => by_algorithm(line.end, algorithm, rest),
        _ => Seen::Nothing,
    }
}

/// The same by the algorithm and the lines after it.
fn by_algorithm(end: Option<u64>, algorithm: &Line, rest: &[Line]) -> Seen
    ensures { result ≡ by_algorithm end algorithm.now rest.now algorithm.now.value }
{
    match &algorithm.value {
        Value::Named(identifier) => by_name(identifier.name, end, algorithm, rest),
        _ => Seen::Nothing,
    }
}

fn by_name(name: &str, end: Option<u64>, algorithm: &Line, rest: &[Line]) -> Seen
    ensures { result ≡ by_name name.now end algorithm.now rest.now }
{
    if name == "id-ecPublicKey" {
        curve(algorithm.end, end, rest)
    } else {
        beside(rest)
    }
}

/// What stands beside an algorithm that has no parameters.
fn beside(rest: &[Line]) -> Seen
    ensures { result ≡ beside rest.now }
{
    match rest {
        [line, ..] => beside_value(&line.value),
        [] => Seen::Parameters,
    }
}

fn beside_value(value: &Value) -> Seen
    ensures { result ≡ beside_value value.now }
{
    match value {
        Value::Null => Seen::NullParameters,
        _ => Seen::Parameters,
    }
}

/// What stands in the place of a curve's name: where no line shows it, by how many octets it has.
fn curve(begin: Option<u64>, end: Option<u64>, rest: &[Line]) -> Seen
    ensures { result ≡ curve begin end rest.now }
{
    match rest {
        [line, ..] => curve_value(&line.value),
        [] => curve_between(begin, end),
    }
}

fn curve_value(value: &Value) -> Seen
    ensures { result ≡ curve_value value.now }
{
    match value {
        Value::Null => Seen::NoCurve,
        _ => Seen::Nothing,
    }
}

fn curve_between(begin: Option<u64>, end: Option<u64>) -> Seen
    ensures { result ≡ curve_between begin end }
{
    match (begin, end) {
        (Some(begin), Some(end)) => {
            if end.saturating_sub(begin) > 2 {
                Seen::WrittenOut
            } else {
                Seen::NoCurve
            }
        }
        _ => Seen::Nothing,
    }
}

/// Of an element of another type than is due.
fn wrong_tag(kind: &str, at: u64, lines: &[Line], diagnosis: &Diagnosis) -> Seen
    ensures { result ≡ wrong_tag kind.now at lines.now diagnosis.now }
{
    if is_written_out(kind, diagnosis) {
        Seen::WrittenOut
    } else if ends_in("values", &diagnosis.path) {
        no_set(diagnosis.found)
    } else {
        in_key(kind, at, lines, diagnosis)
    }
}

/// Of octets after the document.
fn after_document(after: After) -> Seen
    ensures { result ≡ after_document after }
{
    match after {
        After::Unsaid => Seen::Nothing,
        _ => Seen::After(after),
    }
}

/// Whether the kind's documents are each a key by itself.
fn has_keys(kind: &str) -> bool
    ensures { result ≡ has_keys kind.now }
{
    kind == "key" || kind == "ec"
}

/// Whether `privateKey` of such a kind is refused, or what is in it.
fn is_in_key(kind: &str, path: &[Step]) -> bool
    ensures { result ≡ is_in_key kind.now path.now }
{
    has_keys(kind) && ends_in("privateKey", path)
}

/// Of what is in `privateKey`, which begins where the field before it ends.
fn in_key(kind: &str, at: u64, lines: &[Line], diagnosis: &Diagnosis) -> Seen
    ensures { result ≡ in_key kind.now at lines.now diagnosis.now }
{
    if is_in_key(kind, &diagnosis.path) {
        let begin = first_end(from_field(lines, before_key(kind)));
        behind(kind, at, diagnosis.found, begin)
    } else {
        Seen::Nothing
    }
}

/// Of what is behind the place where `privateKey` begins.
fn behind(kind: &str, at: u64, found: Option<Found>, begin: Option<u64>) -> Seen
    ensures { result ≡ behind kind.now at found begin }
{
    match begin {
        Some(begin) if begin < at => segment(kind, begin, found),
        _ => Seen::Nothing,
    }
}

/// The field before `privateKey`.
fn before_key(kind: &str) -> &'static str
    ensures { result.now ≡ before_key kind.now }
{
    if kind == "ec" {
        "version"
    } else {
        "privateKeyAlgorithm"
    }
}

/// Where the first element of these ends.
fn first_end(lines: &[Line]) -> Option<u64>
    ensures { result ≡ first_end lines.now }
{
    match lines {
        [line, ..] => line.end,
        [] => None,
    }
}

/// What `privateKey` holds in the place of a segment.
fn segment(kind: &str, begin: u64, found: Option<Found>) -> Seen
    ensures { result ≡ segment kind.now begin found }
{
    if kind == "key" && is_universal(16, found) {
        Seen::KeyInSegments(begin)
    } else {
        Seen::InSegments
    }
}

/// Whether it is a SEQUENCE in the place of a curve's name.
fn is_written_out(kind: &str, diagnosis: &Diagnosis) -> bool
    ensures { result ≡ is_written_out kind.now diagnosis.now }
{
    kind == "ec" && begins_in("parameters", &diagnosis.path) && is_universal(16, diagnosis.found)
}

/// What is in the place of the SET of an attribute's values (X.680 8.4 has the numbers of types).
fn no_set(found: Option<Found>) -> Seen
    ensures { result ≡ no_set found }
{
    match found {
        Some(found) => {
            if found.tag.class() == Class::Universal && found.tag.number() != 17 {
                Seen::NoSet
            } else {
                Seen::Nothing
            }
        }
        None => Seen::MaybeNoSet,
    }
}

/// Whether a path ends in the field of this name.
fn ends_in(name: &str, path: &[Step]) -> bool
    ensures { result ≡ ends_in name.now path.now }
{
    match path.last() {
        Some(step) => is_step(*step, name),
        None => false,
    }
}

/// Whether it begins there.
fn begins_in(name: &str, path: &[Step]) -> bool
    ensures { result ≡ begins_in name.now path.now }
{
    match path {
        [step, ..] => is_step(*step, name),
        [] => false,
    }
}

/// Whether what is there has this universal tag.
fn is_universal(number: u32, found: Option<Found>) -> bool
    ensures { result ≡ is_universal number found }
{
    match found {
        Some(found) => found.tag.class() == Class::Universal && found.tag.number() == number,
        None => false,
    }
}
