//! A program that tests libraries on rows of tables: it does one task on octets with their public calls, and answers as
//! pkder does. `tests/harness/rows.py` hands it the rows of `tests/rows`, and `tests/harness/growths.py` refuses each
//! growth of memory in turn meanwhile. Not part of pkder.
//!
//! Standard input is a line of words, below, and the octets after it. Of `tlv_core` and `ber_pull`:
//!
//! - `calls [depth N] [limit N] [needs N] CALL ..`: what calls of a `Pull` reply, also in pieces and cut at each octet
//! - `arcs ARC ..`, `contents`, `compare ARC ..`: object identifiers
//! - `source ..`, `target ..`: what sources give and targets take (sources.rt and targets.rt say in which words)
//!
//! Of the crates above, for a type that `tasks.rt` names:
//!
//! - `read TYPE`: a value, in pieces, cut at each octet and with octets after it: its text, or the fault
//! - `document TYPE`, `element TYPE`: the same by `read_value`, by `read_element`
//! - `normalise TYPE`, `check TYPE`: the same by `normalise_value`, by `check_value`
//! - `whole TYPE`, `normalise-whole TYPE`: a value that has to be all of the octets, for a type of the rows' own in
//!   pieces and cut at each octet
//! - `normalise-into TYPE`: the text goes to a target of `room` octets, `piece` of them at once
//! - `same TYPE`: two values one after another: whether they are the same
//! - `fields TYPE`: what each field reader answers
//! - `signed request`: what the signature covers, to a target of `room` octets; `written request`: the whole, to it
//! - `make TYPE`: a value made of the octets
//! - `compare integer-set`: two values made of two parts, each after its length in two octets
//!
//! After them may stand `depth N`, `limit N`, `room N` and `piece N`. Before a task that reads or makes `once` does it
//! once, so that no memory is asked for but by the libraries, and `read` tells of a reader that wanted memory how many
//! octets it took; `again` asks that reader further, too.
//!
//! Status 0 goes with the text or the line on standard output, 2 with a fault or octets that make no value, 3 with a
//! failed read or write or want of memory, 4 with words that mean nothing, 9 with answers that don't agree.
#![tactic(auto)]

mod allowed;
mod answer;
mod calls;
mod contained;
mod documents;
mod fields;
mod fields_of_keys;
mod fields_of_types;
mod flagged;
mod identifiers;
mod line;
mod making;
mod normalising;
mod note;
mod pieces;
mod printing;
mod reading;
mod samples;
mod sequences;
mod sources;
mod stops;
mod targets;
mod tasks;
mod texts;
mod whole;
mod words;

use answer::Answer;
use std::io::Read;
use std::process::ExitCode;

/// The words and octets that there is room for, and two more.
const ROOM: usize = 8192;

fn main(rt: HostRuntime) -> ExitCode {
    let mut room = [0u8; ROOM];
    let Some(count) = filled(&mut rt.stdin(), &mut room[..ROOM - 2]) else {
        return ExitCode::from(4);
    };
    if count > ROOM - 2 {
        return ExitCode::from(4);
    }
    // octets after those that are given, which are to stay
    room[count] = 0x05;
    room[count + 1] = 0x00;
    let answer = answered(&rt, &room[..count], &room[..count + 2]);
    ExitCode::from(printing::print(&mut rt.stdout(), &mut rt.stderr(), &answer))
}

/// The answer to the line and the octets after it; `followed` goes on after them.
fn answered(rt: &HostRuntime, given: &[u8], followed: &[u8]) -> Answer {
    let Some(end) = given.iter().position(|octet| *octet == b'\n') else {
        return Answer::Unknown;
    };
    let (Some(line), Some(octets), Some(followed)) = (
        given.get(..end),
        given.get(end + 1..),
        followed.get(end + 1..),
    ) else {
        return Answer::Unknown;
    };
    match std::str::from_utf8(line) {
        Ok(line) => tasks::answered(rt.alloc(), line, octets, followed),
        Err(_) => Answer::Unknown,
    }
}

/// How many octets the reader told, if they end before the room does.
fn filled<R: Read>(src: &mut R, room: &mut [u8]) -> Option<usize> {
    let mut used = 0;
    for _ in 0..room.len() {
        if used >= room.len() {
            return None;
        }
        match src.read(&mut room[used..]) {
            Ok(0) => return Some(used),
            Ok(count) => used += count,
            Err(_) => return None,
        }
    }
    None
}
