//! Which elements of two documents differ.
//!
//! The lists of both are gone through side by side, each line once. Where an element of both has something in it, what
//! differs is shown more exactly inside; so octets are compared of the innermost ones alone. The private values of an
//! attribute are compared all at once: they are in the order of their octets, and so which of them differ says
//! something of these.
ghost use Rattle.std.specs.Prelude.{◌≡◌, ◌+◌, ◌++◌, IfOk, OnOk, length};
ghost use Rattle.comparison.specs.DifferenceLists.{are_private_values, after_pass, deeper, differences, first_pass};
ghost use Rattle.comparison.specs.DifferenceLists.{follows, has_inner, is_size_alone, is_values, meet_field, meeting};
ghost use Rattle.comparison.specs.DifferenceLists.{meet_lines, octets_to, opens, same_octets, same_step, second_pass};
ghost use Rattle.comparison.specs.DifferenceLists.{differences_of, differences_along};

use asn_elements::tags::is_same_tag;
use asn_names::element::Step;
use reports::report::{Line, Value};
use std::alloc::{AllocError, Global};

/// The DER encodings of two documents.
#[derive(Clone, Copy)]
pub(crate) struct Encodings<'a> {
    pub(crate) first: &'a [u8],
    pub(crate) second: &'a [u8],
}

/// An element of each that differ, by the numbers of their lines; or one that has no counterpart.
#[derive(Clone, Copy)]
pub(crate) struct Difference {
    pub(crate) first: Option<u64>,
    pub(crate) second: Option<u64>,
}

/// How the elements meet that come next in the two lists.
#[derive(Clone, Copy)]
pub(crate) enum Meeting {
    /// Both lists have ended.
    Ended,
    /// The one of the first list has no counterpart.
    First,
    /// The one of the second list has none.
    Second,
    /// They are one field, and what is in them comes next.
    Inside,
    /// They are one field, and have the same octets.
    Equal,
    /// They are one field, and have other octets.
    Differ,
}

/// How many lines of a list go by.
#[derive(Clone, Copy)]
pub(crate) enum Pass {
    Stay,
    /// The next one.
    One,
    /// The next one, and those of what is in it.
    Whole,
}

/// The elements that differ, in the order of the DER encodings; the outermost ones, where no others do.
#[tactic(auto, unfolding(crate::specs::DifferenceLists::differences))]
pub(crate) fn differences(
    alloc: Global,
    encodings: Encodings<'_>,
    first: &[Line],
    second: &[Line],
) -> Result<Vec<Difference>, AllocError>
    ensures { IfOk result (λ all. all.items
        ≡ differences encodings.entry.first.now encodings.entry.second.now first.now second.now) }
{
    let mut all = differences_along(alloc, encodings, first, second)?;
    if all.is_empty() {
        all.push(Difference {
            first: Some(0),
            second: Some(0),
        })?;
    }
    Ok(all)
}

/// The elements that differ, by the two lists.
fn differences_along(
    alloc: Global,
    encodings: Encodings<'_>,
    first: &[Line],
    second: &[Line],
) -> Result<Vec<Difference>, AllocError>
    ensures { IfOk result (λ all. all.items ≡ differences_along (length first.now + length second.now)
        encodings.entry.first.now encodings.entry.second.now first.now second.now
        (length first.now) (length second.now)) }
{
    let mut all = Vec::new(alloc);
    let mut left = first;
    let mut right = second;
    let mut rounds = first.len() + second.len();
    while rounds > 0 {
        let meeting = meet(encodings, left, right);
        let number = first.len().saturating_sub(left.len()) as u64;
        let other = second.len().saturating_sub(right.len()) as u64;
        push_difference(&mut all, meeting, number, other)?;
        left = after_pass(first_pass(meeting), left);
        right = after_pass(second_pass(meeting), right);
        rounds -= 1;
    }
    Ok(all)
}

/// What differs by a meeting of the lines of these numbers.
fn push_difference(
    all: &mut Vec<Difference>,
    meeting: Meeting,
    number: u64,
    other: u64,
) -> Result<(), AllocError>
    ensures { OnOk result (all.new.items ≡ all.old.items ++ differences_of meeting number other) }
{
    let difference = match meeting {
        Meeting::Ended | Meeting::Inside | Meeting::Equal => return Ok(()),
        Meeting::First => Difference {
            first: Some(number),
            second: None,
        },
        Meeting::Second => Difference {
            first: None,
            second: Some(other),
        },
        Meeting::Differ => Difference {
            first: Some(number),
            second: Some(other),
        },
    };
    all.push(difference)?;
    Ok(())
}

fn first_pass(meeting: Meeting) -> Pass
    ensures { result ≡ first_pass meeting }
{
    match meeting {
        Meeting::Ended | Meeting::Second => Pass::Stay,
        Meeting::Inside => Pass::One,
        Meeting::First | Meeting::Equal | Meeting::Differ => Pass::Whole,
    }
}

fn second_pass(meeting: Meeting) -> Pass
    ensures { result ≡ second_pass meeting }
{
    match meeting {
        Meeting::Ended | Meeting::First => Pass::Stay,
        Meeting::Inside => Pass::One,
        Meeting::Second | Meeting::Equal | Meeting::Differ => Pass::Whole,
    }
}

/// The lines after those that go by.
fn after_pass(pass: Pass, lines: &[Line]) -> &[Line]
    ensures { result.now ≡ after_pass pass lines.now }
{
    let [line, later @ ..] = lines else {
        return lines;
    };
    match pass {
        Pass::Stay => lines,
        Pass::One => later,
        Pass::Whole => after_deeper(line.depth, later),
    }
}

/// The lines after those that are deeper.
fn after_deeper(depth: u64, lines: &[Line]) -> &[Line]
    ensures { result.now ≡ deeper depth lines.now }
{
    let mut left = lines;
    while let [line, later @ ..] = left {
        if line.depth <= depth {
            return left;
        }
        left = later;
    }
    left
}

/// How the elements meet that come next.
fn meet(encodings: Encodings<'_>, first: &[Line], second: &[Line]) -> Meeting
    ensures { result ≡ meeting encodings.entry.first.now encodings.entry.second.now
        first.now second.now }
{
    let [line, later @ ..] = first else {
        return if second.is_empty() {
            Meeting::Ended
        } else {
            Meeting::Second
        };
    };
    let [other, others @ ..] = second else {
        return Meeting::First;
    };
    meet_lines(encodings, line, later, other, others)
}

/// How two elements meet. One that comes later in the other container isn't alone, so that what is there now is.
fn meet_lines(
    encodings: Encodings<'_>,
    line: &Line,
    later: &[Line],
    other: &Line,
    others: &[Line],
) -> Meeting
    ensures { result ≡ meet_lines encodings.entry.first.now encodings.entry.second.now
        line.now later.now other.now others.now }
{
    if other.depth < line.depth {
        return Meeting::First;
    }
    if line.depth < other.depth {
        return Meeting::Second;
    }
    if same_step(line.step, other.step) {
        return meet_field(encodings, line, later, other, others);
    }
    if follows(line.step, line.depth, others) {
        Meeting::Second
    } else {
        Meeting::First
    }
}

/// How two elements meet that are one field.
fn meet_field(
    encodings: Encodings<'_>,
    line: &Line,
    later: &[Line],
    other: &Line,
    others: &[Line],
) -> Meeting
    ensures { result ≡ meet_field encodings.entry.first.now encodings.entry.second.now
        line.now later.now other.now others.now }
{
    let inner = has_inner(line.depth, later);
    let other_inner = has_inner(other.depth, others);
    let constructed = line.constructed && other.constructed;
    let private = are_private_values(line, later) || are_private_values(other, others);
    if is_same_tag(line.tag, other.tag) && opens(inner, other_inner, constructed) && !private {
        return Meeting::Inside;
    }
    if same_octets(encodings, line, other) {
        Meeting::Equal
    } else {
        Meeting::Differ
    }
}

/// Whether what differs can be shown inside: both have something in them, or one has and both are containers.
fn opens(inner: bool, other_inner: bool, constructed: bool) -> bool
    ensures { result ≡ opens inner other_inner constructed }
{
    (inner && other_inner) || (constructed && (inner || other_inner))
}

/// Whether an element is the values of an attribute, and those are private.
fn are_private_values(line: &Line, later: &[Line]) -> bool
    ensures { result ≡ are_private_values line.now later.now }
{
    match later {
        [] => false,
        [next, ..] => is_values(line.step) && line.depth < next.depth && is_size_alone(&next.value),
    }
}

fn is_values(step: Step) -> bool
    ensures { result ≡ is_values step }
{
    match step {
        Step::Field(name) => name == "values",
        _ => false,
    }
}

/// Whether no more is shown of contents than their number.
fn is_size_alone(value: &Value) -> bool
    ensures { result ≡ is_size_alone value.now }
{
    matches!(value, Value::NotShown | Value::Size(_))
}

/// Whether the lines after one of this depth are of what is in it.
pub(crate) fn has_inner(depth: u64, later: &[Line]) -> bool
    ensures { result ≡ has_inner depth later.now }
{
    match later {
        [] => false,
        [next, ..] => depth < next.depth,
    }
}

/// Whether a field is among the lines up to the end of a container.
fn follows(step: Step, depth: u64, lines: &[Line]) -> bool
    ensures { result ≡ follows step depth lines.now }
{
    let mut left = lines;
    while let [line, later @ ..] = left {
        if line.depth < depth {
            return false;
        }
        if line.depth == depth && same_step(step, line.step) {
            return true;
        }
        left = later;
    }
    false
}

/// Whether the two are one field.
fn same_step(step: Step, other: Step) -> bool
    ensures { result ≡ same_step step other }
{
    match step {
        Step::Outermost => matches!(other, Step::Outermost),
        Step::Outside => matches!(other, Step::Outside),
        Step::Field(name) => match other {
            Step::Field(named) => name == named,
            _ => false,
        },
        Step::Member(number) => match other {
            Step::Member(numbered) => number == numbered,
            _ => false,
        },
        Step::Segment(number) => match other {
            Step::Segment(numbered) => number == numbered,
            _ => false,
        },
    }
}

/// Whether two elements have the same octets.
fn same_octets(encodings: Encodings<'_>, line: &Line, other: &Line) -> bool
    ensures { result ≡ same_octets encodings.entry.first.now encodings.entry.second.now
        line.now other.now }
{
    octets_to(encodings.first, line.at, line.end)
        == octets_to(encodings.second, other.at, other.end)
}

/// The octets from a place to an end; none where they aren't there.
fn octets_to(octets: &[u8], at: u64, end: Option<u64>) -> &[u8]
    ensures { result.now ≡ octets_to octets.now at end }
{
    match end {
        Some(end) if at <= end && end <= octets.len() as u64 => {
            &octets[at as usize..end as usize]
        }
        _ => &octets[..0],
    }
}
