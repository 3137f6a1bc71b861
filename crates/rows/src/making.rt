//! Values made of octets.
use crate::answer::Answer;
use crate::line::Line;
use crate::texts::{checked_text, text_of};
use asn_elements::build::BuildError;
use asn_elements::der_text::DerText;
use asn_elements::integer::Int;
use asn_elements::octets::Octets;
use asn_lists::set_of::SetOf;
use std::alloc::{AllocError, Global};

/// The INTEGER with these contents, the OCTET STRING of these octets, the SET OF an INTEGER for each of them, or the
/// SET OF an OCTET STRING for each part of them.
pub fn made(alloc: Global, name: &str, octets: &[u8], is_checked: bool) -> Answer {
    match name {
        "integer" => told(alloc, Int::from_contents(alloc, octets), is_checked),
        "octet-string" => told(alloc, Octets::from_slice(alloc, octets), is_checked),
        "integer-set" => told(alloc, integers(alloc, octets), is_checked),
        "octet-string-set" => told(alloc, strings(alloc, octets), is_checked),
        _ => Answer::Unknown,
    }
}

fn told<T: DerText>(alloc: Global, value: Result<T, BuildError>, is_checked: bool) -> Answer {
    match value {
        Ok(value) if is_checked => checked_text(alloc, &value),
        Ok(value) => text_of(alloc, &value),
        Err(error) => Answer::NotMade(error),
    }
}

fn integers(alloc: Global, octets: &[u8]) -> Result<SetOf<Int>, BuildError> {
    let mut items = Vec::new(alloc);
    for octet in octets {
        items.push(Int::from_contents(alloc, &[*octet])?)?;
    }
    SetOf::from_items(alloc, items)
}

fn strings(alloc: Global, octets: &[u8]) -> Result<SetOf<Octets>, BuildError> {
    let mut items = Vec::new(alloc);
    let mut rest = octets;
    for _ in 0..octets.len() {
        let Some((part, behind)) = next_part(rest) else {
            break;
        };
        items.push(Octets::from_slice(alloc, part)?)?;
        rest = behind;
    }
    SetOf::from_items(alloc, items)
}

/// The first part, after its length in two octets, and what follows it.
fn next_part(octets: &[u8]) -> Option<(&[u8], &[u8])> {
    let [high, low, rest @ ..] = octets else {
        return None;
    };
    let length = usize::from(*high) * 256 + usize::from(*low);
    match (rest.get(..length), rest.get(length..)) {
        (Some(part), Some(behind)) => Some((part, behind)),
        _ => None,
    }
}

/// Whether two SETs OF INTEGER are the same, one of each part, and how many members they have.
pub fn compared(alloc: Global, octets: &[u8]) -> Answer {
    let Some((first, behind)) = next_part(octets) else {
        return Answer::Unknown;
    };
    let Some((second, _)) = next_part(behind) else {
        return Answer::Unknown;
    };
    match sets_of(alloc, first, second) {
        Ok((first, second)) => Answer::of(compared_line(alloc, &first, &second)),
        Err(error) => Answer::NotMade(error),
    }
}

fn sets_of(
    alloc: Global,
    first: &[u8],
    second: &[u8],
) -> Result<(SetOf<Int>, SetOf<Int>), BuildError> {
    let first = integers(alloc, first)?;
    let second = integers(alloc, second)?;
    Ok((first, second))
}

fn compared_line(
    alloc: Global,
    first: &SetOf<Int>,
    second: &SetOf<Int>,
) -> Result<Vec<u8>, AllocError> {
    let mut line = Line::new(alloc);
    line.number("members", first.len())?;
    line.number("members", second.len())?;
    line.part(if first.same(second) { "same" } else { "other" })?;
    line.ended()
}
