//! Which lines of a listing are picked, the path to a line, and of which line the place alone is shown.
ghost use Rattle.std.specs.Prelude.{◌≡◌, ◌++◌, IfOk, OnOk, cond, nat_lt, reverse, slice_get};
ghost use Rattle.std.specs.Option.{option_map};
ghost use Rattle.reports.specs.Picks.{causes, first_cause, is_beside, is_not_shown, is_place_alone, judge_line};
ghost use Rattle.reports.specs.Picks.{first_ones, numbers_from, start_of, ends_path, steps_to, path_to_line};

use crate::report::{Line, Value};
use asn_names::element::Step;
use std::alloc::{AllocError, Global};

/// Which lines are picked.
#[derive(Clone, Copy)]
pub(crate) enum Pick {
    /// Those that aren't in DER, and those around them.
    Causes,
    /// The line of this number and those around it, the first 4, and the 6 before it.
    Fault(u64),
}

/// What is known of the lines after one.
#[derive(Clone, Copy)]
pub(crate) struct PickState {
    /// The number of the next line that something after it is in.
    pub around: u64,
    /// How many lines that aren't in DER are still passed over.
    pub skip: u64,
}

/// A line that was looked at.
#[derive(Clone, Copy)]
pub(crate) struct Picking {
    pub state: PickState,
    /// Whether it is picked.
    pub picked: bool,
}

/// The numbers of the lines that are picked, the last one first; of those that aren't in DER so many at the end aren't.
pub(crate) fn picked(
    alloc: Global,
    lines: &[Line],
    pick: Pick,
    skip: u64,
) -> Result<Vec<u64>, AllocError>
    ensures { IfOk result (λ numbers. reverse numbers.items
        ≡ numbers_from pick (start_of lines.now skip) 0 lines.now) }
{
    let mut numbers = Vec::new(alloc);
    let mut state = PickState {
        around: lines.len() as u64,
        skip,
    };
    let mut number = lines.len();
    while number > 0 {
        number -= 1;
        let picking = judge_line(pick, state, number as u64, &lines[number]);
        if picking.picked {
            numbers.push(number as u64)?;
        }
        state = picking.state;
    }
    Ok(numbers)
}

/// Whether the line of this number is picked, by what is known of those after it.
fn judge_line(pick: Pick, state: PickState, number: u64, line: &Line) -> Picking
    ensures { result ≡ judge_line pick state number line.now }
{
    let on_path = state.around == number || ends_path(pick, state.skip, number, line);
    let skip = if line.cause.is_some() {
        state.skip.saturating_sub(1)
    } else {
        state.skip
    };
    let around = if on_path { line.around } else { state.around };
    Picking {
        state: PickState { around, skip },
        picked: on_path || is_beside(pick, number),
    }
}

/// Whether the path to a line that is at fault or not in DER ends at this one.
fn ends_path(pick: Pick, skip: u64, number: u64, line: &Line) -> bool
    ensures { result ≡ ends_path pick skip number line.now }
{
    match pick {
        Pick::Causes => line.cause.is_some() && skip == 0,
        Pick::Fault(fault) => number == fault,
    }
}

/// Whether a line is picked that nothing picked may be in.
fn is_beside(pick: Pick, number: u64) -> bool
    ensures { result ≡ is_beside pick number }
{
    match pick {
        Pick::Causes => false,
        Pick::Fault(fault) => number < 4 || (number <= fault && fault - number < 7),
    }
}

/// How many lines aren't in DER.
pub(crate) fn causes(lines: &[Line]) -> u64
    ensures { result ≡ causes lines.now }
{
    let mut count = 0;
    let mut left = lines;
    while let [line, rest @ ..] = left {
        if line.cause.is_some() {
            count += 1;
        }
        left = rest;
    }
    count
}

/// How many lines come before the first that isn't in DER; all where there is none.
pub(crate) fn first_cause(lines: &[Line]) -> u64
    ensures { result ≡ first_cause lines.now }
{
    let mut count = 0;
    let mut left = lines;
    while let [line, rest @ ..] = left {
        if line.cause.is_some() {
            return count;
        }
        count += 1;
        left = rest;
    }
    count
}

/// The path from the outermost element to the line of this number.
#[tactic(auto, unfolding(crate::specs::Picks::path_to_line))]
pub fn path_to_line(alloc: Global, lines: &[Line], number: u64) -> Result<Vec<Step>, AllocError>
    ensures { IfOk result (λ path. path.items ≡ path_to_line lines.now number) }
{
    let mut path = Vec::new(alloc);
    push_steps(&mut path, lines, number, 200)?;
    Ok(path)
}

/// The last steps of the path to the line of this number, so many at most.
fn push_steps(
    path: &mut Vec<Step>,
    lines: &[Line],
    number: u64,
    most: u64,
) -> Result<(), AllocError>
    ensures { OnOk result (path.new.items ≡ path.old.items ++ steps_to most lines.now number) }
{
    if most == 0 {
        return Ok(());
    }
    let Some(line) = line_of(lines, number) else {
        return Ok(());
    };
    let before = steps_before(line.around, number, most - 1);
    push_steps(path, lines, line.around, before)?;
    path.push(line.step)?;
    Ok(())
}

/// How many steps may be before that to a line; none where what is around it isn't before it.
pub fn steps_before(around: u64, number: u64, most: u64) -> u64
    ensures { result ≡ cond (nat_lt around number) most 0 }
{
    if around < number { most } else { 0 }
}

/// The line of this number.
pub(crate) fn line_of(lines: &[Line], number: u64) -> Option<&Line>
    ensures { option_map (λ r. r.now) result ≡ slice_get lines.now number }
{
    lines.get(number as usize)
}

/// Whether the place of an element is all that is shown of it.
pub(crate) fn is_place_alone(line: &Line) -> bool
    ensures { result ≡ is_place_alone line.now.step line.now.value }
{
    match line.step {
        Step::Outside => is_not_shown(&line.value),
        _ => false,
    }
}

fn is_not_shown(value: &Value) -> bool
    ensures { result ≡ is_not_shown value.now }
{
    match value {
        Value::NotShown => true,
        _ => false,
    }
}

/// Up to so many.
pub(crate) fn up_to<T>(items: &[T], most: u64) -> &[T]
    ensures { result.now ≡ first_ones most items.now }
{
    if most < items.len() as u64 {
        &items[..most as usize]
    } else {
        items
    }
}
