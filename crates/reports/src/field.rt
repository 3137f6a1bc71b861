//! The field that a report is about: the one that is refused, or the first that isn't in DER.
ghost use Rattle.std.specs.Prelude.{◌≡◌, IfOk, string_bytes};
ghost use Rattle.reports.specs.Field.{field_said, marked_path, refused_path};

use crate::paths::path_text;
use crate::picks::{first_cause, path_to_line};
use crate::report::{Answer, Line, Report};
use std::alloc::{AllocError, Global};

/// The path of the field. Empty where the document is in DER.
pub fn field_text(alloc: Global, report: &Report) -> Result<String, AllocError>
    ensures { IfOk result (λ text. string_bytes text ≡ field_said report.now) }
{
    match report.answer {
        Answer::Der => Ok(String::new(alloc)),
        Answer::NotDer(_) => marked_path(alloc, report.kind.type_name, &report.lines),
        Answer::Refused(_) => refused_path(alloc, report),
    }
}

/// The path of the first element that isn't in DER.
fn marked_path(alloc: Global, root: &str, lines: &[Line]) -> Result<String, AllocError>
    ensures { IfOk result (λ text. string_bytes text ≡ marked_path root.now lines.now) }
{
    let path = path_to_line(alloc, lines, first_cause(lines))?;
    path_text(alloc, root, &path)
}

/// The path of the field that is refused.
fn refused_path(alloc: Global, report: &Report) -> Result<String, AllocError>
    ensures { IfOk result (λ text. string_bytes text
        ≡ refused_path report.now.kind.type_name.now report.now.diagnosis) }
{
    match &report.diagnosis {
        Some(diagnosis) => path_text(alloc, report.kind.type_name, &diagnosis.path),
        None => {
            let mut text = String::new(alloc);
            text.push_str(report.kind.type_name)?;
            Ok(text)
        }
    }
}
