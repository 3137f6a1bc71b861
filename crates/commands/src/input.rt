//! All of an input, or as much of it as is wanted.
ghost use Rattle.std.specs.Prelude.{◌≡◌, ◌<◌, IfOk, MatchResult, false, length, true};
ghost use Rattle.asn_elements.specs.Whole.{IsFailedRead};
ghost use Rattle.commands.specs.Inputs.{StopsAfter, StopsTaking, Takes, TakesFirst, TakesMore, TakesSome};

use crate::element_end::ElementEnd;
use std::alloc::Global;
use tlv_core::fault::ReadError;
use tlv_core::source::{Failed, Source};

/// As many octets are asked for at once, at most.
const BLOCK: usize = 8192;

/// Takes the octets of a source as they come: all of them, or the first `most`. Memory is asked for octets that came.
pub fn read_all<R: Source>(alloc: Global, src: &mut R, most: usize) -> Result<Vec<u8>, ReadError>
    requires { R.has_failed src.old ≡ false }
    ensures takes { MatchResult result
        (λ octets. TakesFirst most (R.remaining src.old) (R.remaining src.new) octets.items)
        (λ error. StopsTaking most error (R.remaining src.old) (R.remaining src.new)) }
    // A failed read is answered where the source failed, and nowhere else.
    ensures read { MatchResult result (λ _. R.has_failed src.new ≡ false)
        (IsFailedRead (R.has_failed src.new)) }
    ensures frame { R.frame src.new ≡ R.frame src.old }
{
    let mut octets = Vec::new(alloc);
    let mut block = [0u8; BLOCK];
    while octets.len() < most {
        let room = BLOCK.min(most - octets.len());
        match take_block(src, &mut octets, &mut block[..room]) {
            Ok(0) => return Ok(octets),
            Ok(_) => {}
            Err(error) => return Err(error),
        }
    }
    Ok(octets)
}

/// Takes octets behind those that were taken, some at least, until the element that they begin with is there, or more
/// than `most`; `false` where the source is at its end.
pub(crate) fn take_element<R: Source>(
    src: &mut R,
    octets: &mut Vec<u8>,
    most: usize,
) -> Result<bool, ReadError>
    requires { R.has_failed src.old ≡ false }
    ensures takes { IfOk result (λ some. TakesSome some (R.remaining src.old) (R.remaining src.new)
        octets.old.items octets.new.items) }
    ensures unread { R.has_failed src.new ≡ true → TakesMore (R.remaining src.old)
        (R.remaining src.new) octets.old.items octets.new.items }
    ensures read { MatchResult result (λ _. R.has_failed src.new ≡ false)
        (IsFailedRead (R.has_failed src.new)) }
{
    let mut block = [0u8; BLOCK];
    let mut end = ElementEnd::new();
    loop {
        match take_block(src, octets, &mut block) {
            Ok(0) => return Ok(false),
            Ok(_) => end = end.over(octets.as_slice()),
            Err(error) => return Err(error),
        }
        if end.is_in(octets.as_slice()) || most < octets.len() {
            return Ok(true);
        }
    }
}

/// Takes the next octets, as many as come at once and have room, and answers their number: 0 at the end.
fn take_block<R: Source>(
    src: &mut R,
    octets: &mut Vec<u8>,
    room: &mut [u8],
) -> Result<usize, ReadError>
    requires readable { R.has_failed src.old ≡ false }
    requires wanted { 0 < length room.old }
    ensures takes { MatchResult result
        (λ count. Takes (length room.old) count (R.remaining src.old) (R.remaining src.new)
        octets.old.items octets.new.items)
        (λ error. StopsAfter (length room.old) error (R.remaining src.old) (R.remaining src.new)
        octets.old.items) }
    ensures read { MatchResult result (λ _. R.has_failed src.new ≡ false)
        (IsFailedRead (R.has_failed src.new)) }
    // A failed read appends nothing.
    ensures kept { R.has_failed src.new ≡ true → octets.new ≡ octets.old }
    ensures frame { R.frame src.new ≡ R.frame src.old }
{
    match src.read(room) {
        Ok(count) => match octets.extend_from_slice(&room[..count]) {
            Ok(()) => Ok(count),
            Err(_) => Err(ReadError::Memory),
        },
        Err(Failed) => Err(ReadError::Read {
            at: octets.len() as u64,
        }),
    }
}
