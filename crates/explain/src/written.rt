//! A report as it is written.
ghost use Rattle.std.specs.Prelude.{◌≡◌, IfOk, string_bytes};
ghost use Rattle.std.specs.Option.{option_map};
ghost use Rattle.explain.specs.Written.{IsFieldOf, IsWritten, written_text};

use crate::explained::explain;
use crate::profile::Profile;
use crate::version::VERSION;
use pk_documents::kind::Kind;
use reports::brief::brief_text;
use reports::field::field_text;
use reports::json_report::report_json;
use reports::report::{Answer, Report};
use reports::report_text;
use std::alloc::{AllocError, Global};
use tlv_core::limits::Limits;

/// How a report is written.
#[derive(Clone, Copy, Debug, PartialEq, Eq)]
pub struct Form {
    /// As one object of JSON.
    pub json: bool,
    /// As the answer for whoever sent the file alone, where it isn't JSON.
    pub brief: bool,
    /// With all elements listed.
    pub all: bool,
    /// With so many of the places that aren't in DER, at most.
    pub places: u64,
    /// With the notes of this profile.
    pub profile: Profile,
}

/// As many places that aren't in DER are shown, where nothing else is asked for.
pub const PLACES: u64 = 100;

/// The report of octets that have to be one document of the kind, as it is written, and the answer of `check` in it.
pub fn explain_text(
    alloc: Global,
    octets: &[u8],
    kind: Kind,
    limits: Limits,
    form: Form,
) -> Result<(String, Answer), AllocError>
    ensures { IfOk result (λ written. IsWritten form limits kind octets.now
        (string_bytes written.0) written.1) }
{
    let report = explain(alloc, octets, kind, limits, form.profile)?;
    let text = written_report(alloc, &report, None, form)?;
    Ok((text, report.answer))
}

/// A report in this form. JSON says which file it is of, if that has a name.
pub fn written_report(
    alloc: Global,
    report: &Report,
    file: Option<&str>,
    form: Form,
) -> Result<String, AllocError>
    ensures { IfOk result (λ text. string_bytes text
        ≡ written_text form (option_map (λ r. r.now) file.entry) report.now) }
{
    if form.json {
        return report_json(alloc, report, VERSION, file, form.all, form.places);
    }
    if form.brief {
        return brief_text(alloc, report);
    }
    report_text(alloc, report, form.all, form.places)
}

/// The field that the report of octets is about, which have to be one document of the kind, by its path: the one that
/// is refused, or the first that isn't in DER. And the answer of `check`.
pub fn explained_field(
    alloc: Global,
    octets: &[u8],
    kind: Kind,
    limits: Limits,
) -> Result<(String, Answer), AllocError>
    ensures { IfOk result (λ field. IsFieldOf limits kind octets.now
        (string_bytes field.0) field.1) }
{
    let report = explain(alloc, octets, kind, limits, Profile::General)?;
    let text = field_text(alloc, &report)?;
    Ok((text, report.answer))
}
