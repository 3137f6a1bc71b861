//! What is shown of the elements that differ.
ghost use Rattle.std.specs.Prelude.{◌≡◌, ◌++◌, ◌-◌, IfOk, OnOk, map, string_bytes};
ghost use Rattle.reports.specs.Picks.{first_ones};
ghost use Rattle.comparison.specs.DifferenceWords.{difference_field, said_of, side_value, words_of};

use crate::difference_list::Difference;
use crate::said::{field_text, lines_from, push_value};
use reports::report::Line;
use std::alloc::{AllocError, Global};

/// As many elements that differ are shown, at most.
const MOST_SHOWN: usize = 16;

/// An element that differs: its field, and its value in each document.
#[derive(Drop)]
pub(crate) struct DifferenceText {
    pub(crate) field: String,
    pub(crate) first: String,
    pub(crate) second: String,
}

/// The elements of two documents, and the name of the type that both are of.
#[derive(Clone, Copy)]
pub(crate) struct Sides<'a> {
    pub(crate) root: &'a str,
    pub(crate) first: &'a [Line],
    pub(crate) second: &'a [Line],
}

/// What is shown of the first elements that differ.
pub(crate) fn first_shown(
    alloc: Global,
    sides: Sides<'_>,
    differences: &[Difference],
) -> Result<Vec<DifferenceText>, AllocError>
    ensures { IfOk result (λ shown. map words_of shown.items
        ≡ map (said_of sides.entry.root.now sides.entry.first.now sides.entry.second.now)
        (first_ones 16 differences.now)) }
{
    let mut all = Vec::new(alloc);
    push_each(alloc, &mut all, sides, first_ones(differences))?;
    Ok(all)
}

fn first_ones(differences: &[Difference]) -> &[Difference]
    ensures { result.now ≡ first_ones 16 differences.now }
{
    if differences.len() > MOST_SHOWN {
        &differences[..MOST_SHOWN]
    } else {
        differences
    }
}

/// How many there are that aren't shown.
pub(crate) fn left_out(count: usize) -> u64
    ensures { result ≡ count - 16 }
{
    count.saturating_sub(MOST_SHOWN) as u64
}

fn push_each(
    alloc: Global,
    all: &mut Vec<DifferenceText>,
    sides: Sides<'_>,
    differences: &[Difference],
) -> Result<(), AllocError>
    ensures { OnOk result (map words_of all.new.items ≡ map words_of all.old.items
        ++ map (said_of sides.entry.root.now sides.entry.first.now sides.entry.second.now)
        differences.now) }
{
    let mut left = differences;
    while let [difference, rest @ ..] = left {
        all.push(text_of(alloc, sides, *difference)?)?;
        left = rest;
    }
    Ok(())
}

fn text_of(
    alloc: Global,
    sides: Sides<'_>,
    difference: Difference,
) -> Result<DifferenceText, AllocError>
    ensures { IfOk result (λ shown. words_of shown
        ≡ said_of sides.entry.root.now sides.entry.first.now sides.entry.second.now difference) }
{
    Ok(DifferenceText {
        field: difference_field(alloc, sides, difference)?,
        first: side_value(alloc, sides.first, difference.first)?,
        second: side_value(alloc, sides.second, difference.second)?,
    })
}

/// The field that an element is which differs: by its line in the first document, else in the second one.
fn difference_field(
    alloc: Global,
    sides: Sides<'_>,
    difference: Difference,
) -> Result<String, AllocError>
    ensures { IfOk result (λ text. string_bytes text ≡ difference_field
        sides.entry.root.now sides.entry.first.now sides.entry.second.now difference) }
{
    match (difference.first, difference.second) {
        (Some(number), _) => field_text(alloc, sides.root, sides.first, number),
        (None, Some(number)) => field_text(alloc, sides.root, sides.second, number),
        (None, None) => String::from_str(alloc, sides.root),
    }
}

/// The value in a document of the element whose line has this number.
fn side_value(alloc: Global, lines: &[Line], number: Option<u64>) -> Result<String, AllocError>
    ensures { IfOk result (λ text. string_bytes text ≡ side_value lines.now number) }
{
    let Some(number) = number else {
        return String::from_str(alloc, "absent");
    };
    let mut text = String::new(alloc);
    push_value(&mut text, lines_from(lines, number))?;
    Ok(text)
}
