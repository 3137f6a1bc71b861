//! Texts of values, told in each way that there is.
ghost use Rattle.std.specs.Prelude.{◌<◌};

use crate::answer::Answer;
use crate::stops::Stops;
use asn_elements::der_text::{DerText, der_text};
use std::alloc::{AllocError, Global};
use tlv_core::sink::Sink;

/// The text of a value.
pub fn text_of<T: DerText>(alloc: Global, value: &T) -> Answer {
    Answer::of(der_text(alloc, value))
}

/// The text of a value, which `size`, `octet` and `put` tell, too.
pub fn checked_text<T: DerText>(alloc: Global, value: &T) -> Answer {
    match der_text(alloc, value) {
        Ok(text) => match has_text(alloc, value, &text) {
            Ok(true) => Answer::Written(text),
            Ok(false) => Answer::Wrong("size, octet and put tell another text"),
            Err(error) => Answer::of(Err(error)),
        },
        Err(error) => Answer::of(Err(error)),
    }
}

/// Whether `size`, `octet` and `put` tell this text, also into a target that takes 3 octets at once, and one that takes
/// all but one in all.
fn has_text<T: DerText>(alloc: Global, value: &T, text: &[u8]) -> Result<bool, AllocError> {
    if !has_octets(value, text) || !is_put(alloc, value, text, 3)? {
        return Ok(false);
    }
    is_put(alloc, value, &text[..text.len() - text.len().min(1)], 64)
}

/// Whether `size` and `octet` tell this text.
fn has_octets<T: DerText>(value: &T, text: &[u8]) -> bool {
    for (i, octet) in text.iter().enumerate() {
        if value.octet(i as u64) != Some(*octet) {
            return false;
        }
    }
    let size = text.len() as u64;
    value.size() == size && value.octet(size).is_none()
}

/// Whether these octets go out to a target that has room for them, and the target fails where they aren't all.
fn is_put<T: DerText>(
    alloc: Global,
    value: &T,
    octets: &[u8],
    piece: usize,
) -> Result<bool, AllocError>
    requires { 0 < piece }
{
    let room = octets.len() as u64;
    let is_all = value.size() == room;
    let mut target = Stops::new(alloc, octets.len(), piece)?;
    let mut sink = Sink::new(&mut target);
    let (is_whole, out) = match value.put(&mut sink) {
        Ok(()) => (true, sink.written()),
        Err(error) => (false, error.written),
    };
    Ok(is_whole == is_all && out == room && target.octets() == octets)
}
