//! What field readers answer, in a line.
use crate::answer::Answer;
use crate::line::Line;
use asn_documents::value::read_value;
use asn_elements::der_text::DerText;
use asn_elements::element::Element;
use std::alloc::{AllocError, Global};
use tlv_core::fault::ReadError;
use tlv_core::limits::Limits;

/// A type whose field readers are told.
pub trait Described {
    /// What each of its field readers answers.
    fn describe(&self, line: &mut Line) -> Result<(), AllocError>;
}

/// What each field reader of a value answers.
pub fn fields<T: Described + Element>(alloc: Global, octets: &[u8], limits: Limits) -> Answer {
    let mut source = octets;
    match read_value::<&[u8], T>(alloc, &mut source, limits) {
        Ok((value, _)) => Answer::of(line_of(alloc, &value)),
        Err(error) => Answer::Stopped(error),
    }
}

fn line_of<T: Described + Element>(alloc: Global, value: &T) -> Result<Vec<u8>, AllocError> {
    let mut line = Line::new(alloc);
    value.describe(&mut line)?;
    line.ended()
}

/// Whether two values one after another are the same; each is the same as itself.
pub fn same<T: Described + Element>(alloc: Global, octets: &[u8], limits: Limits) -> Answer {
    match two_values::<T>(alloc, octets, limits) {
        Ok((first, second)) => same_line(alloc, &first, &second),
        Err(error) => Answer::Stopped(error),
    }
}

fn two_values<T: Element>(
    alloc: Global,
    octets: &[u8],
    limits: Limits,
) -> Result<(T, T), ReadError> {
    let mut source = octets;
    let (first, _) = read_value::<&[u8], T>(alloc, &mut source, limits)?;
    let (second, _) = read_value::<&[u8], T>(alloc, &mut source, limits)?;
    Ok((first, second))
}

fn same_line<T: Described + Element>(alloc: Global, first: &T, second: &T) -> Answer {
    if !first.same(first) || !second.same(second) {
        return Answer::Wrong("a value isn't the same as itself");
    }
    let is_same = first.same(second);
    if second.same(first) != is_same {
        return Answer::Wrong("whether two values are the same isn't answered alike");
    }
    Answer::line(alloc, if is_same { "same" } else { "other" })
}
