//! What two documents are to each other as JSON: one object, in one line.
ghost use Rattle.std.specs.Prelude.{◌≡◌, ◌++◌, IfOk, OnOk, flat_map, map, string_bytes};
ghost use Rattle.json.specs.Print.{print};
ghost use Rattle.reports.specs.Texts.{line_feed};
ghost use Rattle.comparison.specs.Json.{another_object, called_member, difference_members, fault_members};
ghost use Rattle.comparison.specs.Json.{head_members, refused_object, same_object, words_object};
ghost use Rattle.comparison.specs.DifferenceWords.{words_of};

use crate::difference_text::DifferenceText;
use crate::text::DocumentNames;
use reports::json_report::{push_inside, push_place};
use reports::json_text::JsonText;
use std::alloc::{AllocError, Global};
use tlv_core::fault::Fault;

/// What is said of any two documents: the version of the program, their kind and their names.
#[derive(Clone, Copy)]
pub(crate) struct Heading<'a> {
    pub(crate) version: &'a str,
    pub(crate) kind: &'a str,
    pub(crate) names: DocumentNames<'a>,
}

/// Two documents that are the same.
#[tactic(auto, unfolding(crate::specs::Json::same_object))]
pub(crate) fn same_json(alloc: Global, heading: Heading<'_>) -> Result<String, AllocError>
    ensures { IfOk result (λ text. string_bytes text
        ≡ print (same_object heading.entry.version.now heading.entry.kind.now
        heading.entry.names.first.now heading.entry.names.second.now) ++ line_feed) }
{
    let mut json = JsonText::new(alloc);
    json.begin_object()?;
    push_head(&mut json, heading, 0, "same")?;
    push_called(&mut json, "first", heading.names.first, None)?;
    push_called(&mut json, "second", heading.names.second, None)?;
    json.end_object()?;
    json.into_line()
}

/// Two documents of which one is refused, or both.
#[tactic(auto, unfolding(crate::specs::Json::refused_object))]
pub(crate) fn refused_json(
    alloc: Global,
    heading: Heading<'_>,
    fault: Option<Fault>,
    other: Option<Fault>,
) -> Result<String, AllocError>
    ensures { IfOk result (λ text. string_bytes text
        ≡ print (refused_object heading.entry.version.now heading.entry.kind.now
        heading.entry.names.first.now heading.entry.names.second.now fault other) ++ line_feed) }
{
    let mut json = JsonText::new(alloc);
    json.begin_object()?;
    push_head(&mut json, heading, 2, "refused")?;
    push_called(&mut json, "first", heading.names.first, fault)?;
    push_called(&mut json, "second", heading.names.second, other)?;
    json.end_object()?;
    json.into_line()
}

/// Two documents that aren't the same: what differs, and how many elements more.
#[tactic(auto, unfolding(crate::specs::Json::another_object))]
pub(crate) fn another_json(
    alloc: Global,
    heading: Heading<'_>,
    shown: &[DifferenceText],
    more: u64,
) -> Result<String, AllocError>
    ensures { IfOk result (λ text. string_bytes text
        ≡ print (another_object heading.entry.version.now heading.entry.kind.now
        heading.entry.names.first.now heading.entry.names.second.now
        (map words_of shown.now) more) ++ line_feed) }
{
    let mut json = JsonText::new(alloc);
    json.begin_object()?;
    push_head(&mut json, heading, 1, "another")?;
    push_called(&mut json, "first", heading.names.first, None)?;
    push_called(&mut json, "second", heading.names.second, None)?;
    push_differences(&mut json, shown, more)?;
    json.end_object()?;
    json.into_line()
}

/// The number of the form, the version, the kind and the answer.
#[tactic(auto, unfolding(crate::specs::Json::head_members))]
fn push_head(
    json: &mut JsonText,
    heading: Heading<'_>,
    status: u64,
    verdict: &str,
) -> Result<(), AllocError>
    ensures { OnOk result (json.new ≡ json.old
        ++ head_members heading.entry.version.now heading.entry.kind.now status verdict.now) }
{
    json.number("form", 1)?;
    json.text("version", heading.version)?;
    json.text("kind", heading.kind)?;
    json.number("status", status)?;
    json.text("verdict", verdict)
}

/// A document by its name, and its fault, where it is refused.
#[tactic(auto, unfolding(crate::specs::Json::called_member))]
fn push_called(
    json: &mut JsonText,
    which: &str,
    name: &str,
    fault: Option<Fault>,
) -> Result<(), AllocError>
    ensures { OnOk result (json.new ≡ json.old ++ called_member which.now name.now fault) }
{
    json.begin_object_at(which)?;
    json.text("file", name)?;
    push_fault(json, fault)?;
    json.end_object()
}

#[tactic(auto, unfolding(crate::specs::Json::fault_members))]
fn push_fault(json: &mut JsonText, fault: Option<Fault>) -> Result<(), AllocError>
    ensures { OnOk result (json.new ≡ json.old ++ fault_members fault) }
{
    let Some(fault) = fault else {
        return Ok(());
    };
    json.begin_object_at("fault")?;
    push_place(json, fault.at, fault.why)?;
    push_inside(json, fault.inside)?;
    json.end_object()
}

/// The elements that differ, and how many more do.
#[tactic(auto, unfolding(crate::specs::Json::difference_members))]
fn push_differences(
    json: &mut JsonText,
    shown: &[DifferenceText],
    more: u64,
) -> Result<(), AllocError>
    ensures { OnOk result (json.new ≡ json.old
        ++ difference_members (map words_of shown.now) more) }
{
    json.begin_list_at("differences")?;
    push_each(json, shown)?;
    json.end_list()?;
    json.number("more", more)
}

fn push_each(json: &mut JsonText, shown: &[DifferenceText]) -> Result<(), AllocError>
    ensures { OnOk result (json.new ≡ json.old
        ++ flat_map words_object (map words_of shown.now)) }
{
    let mut left = shown;
    while let [next, rest @ ..] = left {
        push_words(json, next)?;
        left = rest;
    }
    Ok(())
}

/// A field and its value in each document.
#[tactic(auto, unfolding(crate::specs::Json::words_object))]
fn push_words(json: &mut JsonText, shown: &DifferenceText) -> Result<(), AllocError>
    ensures { OnOk result (json.new ≡ json.old ++ words_object (words_of shown.now)) }
{
    json.begin_object()?;
    json.text("field", shown.field.as_str())?;
    json.text("first", shown.first.as_str())?;
    json.text("second", shown.second.as_str())?;
    json.end_object()
}
