//! The line of a fault, where no other line shows the element there.
ghost use Rattle.std.specs.Prelude.{◌≡◌, OnOk};
ghost use Rattle.explain.specs.FaultLines.{AddsFault, IsPlaceAlone, is_at, is_between, line_at, line_from};

use asn_elements::tags::universal_tag;
use asn_names::element::Step;
use reports::report::{Answer, Line, Value};
use std::alloc::AllocError;
use tlv_core::reason::Reason;

/// Of a document that is refused at an element that no line shows: a line of its place alone, so deep.
pub(crate) fn push_fault_line(
    lines: &mut Vec<Line>,
    answer: Answer,
    depth: u64,
) -> Result<(), AllocError>
    ensures { OnOk result (AddsFault answer depth lines.old.items lines.new.items) }
{
    let Answer::Refused(fault) = answer else {
        return Ok(());
    };
    if is_between(fault.why) || line_at(lines.as_slice(), fault.at).is_some() {
        return Ok(());
    }
    lines.push(place_alone(fault.at, depth))?;
    Ok(())
}

/// Whether no element is at the fault.
pub(crate) fn is_between(why: Reason) -> bool
    ensures { result ≡ is_between why }
{
    match why {
        Reason::Missing | Reason::Truncated | Reason::Trailing => true,
        _ => false,
    }
}

/// A line of a place and of nothing else. (The tag stands for none.)
fn place_alone(place: u64, depth: u64) -> Line
    ensures { IsPlaceAlone place depth result }
{
    Line {
        at: place,
        inside: None,
        depth,
        around: 0,
        step: Step::Outside,
        type_name: "",
        tag: universal_tag(16),
        constructed: false,
        length: None,
        end: None,
        value: Value::NotShown,
        cause: None,
        carries: None,
    }
}

/// The number of the line of the file's element at a place.
pub(crate) fn line_at(lines: &[Line], at: u64) -> Option<u64>
    ensures { result ≡ line_at lines.now at }
{
    for i in 0..lines.len() {
        if is_at(&lines[i], at) {
            return Some(i as u64);
        }
    }
    None
}

fn is_at(line: &Line, at: u64) -> bool
    ensures { result ≡ is_at at line.now }
{
    line.at == at && line.inside.is_none()
}
