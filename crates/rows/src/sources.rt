//! Sources: what they give, how much at once, and whether they have failed then.
ghost use Rattle.std.specs.Prelude.{◌<◌};

use crate::answer::Answer;
use crate::line::Line;
use crate::pieces::Pieces;
use crate::words::number;
use std::alloc::{AllocError, Global};
use std::io::{self, Read};
use std::str::SplitWhitespace;
use tlv_core::source::{Failed, FromRead, Source};

/// How often a source is read that is read to its end.
const ALL: usize = 100;

/// Gives its first octets, and then an `Interrupted`.
#[derive(Drop)]
struct Breaks<'a> {
    first: &'a [u8],
}

impl Read for Breaks<'_> {
    fn read(&mut self, room: &mut [u8]) -> io::Result<usize> {
        if self.first.is_empty() {
            return Err(io::Error::from(io::ErrorKind::Interrupted));
        }
        Read::read(&mut self.first, room)
    }
}

/// What a source of the octets gives, at most `ROOM` of them per read: `pieces SIZE ROOM ends|fails`, `slice ROOM
/// READS`, `reader ROOM READS`, or `breaking FIRST ROOM`, a reader that breaks after its first octets.
pub fn answered(
    alloc: Global,
    words: &mut SplitWhitespace<'_>,
    octets: &[u8],
) -> Result<Vec<u8>, Answer> {
    let Some(kind) = words.next() else {
        return Err(Answer::Unknown);
    };
    let (one, two) = (number(words)?, number(words)?);
    let mut line = Line::with(alloc, "; ");
    match (kind, words.next()) {
        ("pieces", Some("ends")) if one > 0 => from_pieces(&mut line, octets, one, two, false)?,
        ("pieces", Some("fails")) if one > 0 => from_pieces(&mut line, octets, one, two, true)?,
        ("slice", None) => from_slice(&mut line, octets, one, two)?,
        ("reader", None) => from_reader(&mut line, octets, one, two)?,
        ("breaking", None) => from_breaking(&mut line, octets, one, two)?,
        _ => return Err(Answer::Unknown),
    }
    Ok(line.ended()?)
}

fn from_pieces(
    line: &mut Line,
    octets: &[u8],
    size: usize,
    room: usize,
    fails: bool,
) -> Result<(), AllocError>
    requires { 0 < size }
{
    let mut source = Pieces::new(octets, size, fails);
    gather(line, &mut source, room, ALL)
}

fn from_slice(line: &mut Line, octets: &[u8], room: usize, reads: usize) -> Result<(), AllocError> {
    let mut source = octets;
    gather(line, &mut source, room, reads)?;
    line.part("left ")?;
    line.hex_or_dash(source)
}

fn from_reader(
    line: &mut Line,
    octets: &[u8],
    room: usize,
    reads: usize,
) -> Result<(), AllocError> {
    let mut source = FromRead::telling(octets);
    gather(line, &mut source, room, reads)?;
    line.part("left ")?;
    line.hex_or_dash(source.into_inner())
}

fn from_breaking(
    line: &mut Line,
    octets: &[u8],
    count: usize,
    room: usize,
) -> Result<(), AllocError> {
    let first = &octets[..count.min(octets.len())];
    let mut source = FromRead::new(Breaks { first });
    gather(line, &mut source, room, ALL)
}

/// What so many reads give, the most that one gave, and whether the source has failed.
fn gather<R: Source>(
    line: &mut Line,
    source: &mut R,
    room: usize,
    reads: usize,
) -> Result<(), AllocError> {
    let mut most = 0;
    let mut piece = [0; 64];
    for _ in 0..reads {
        if source.failed() {
            break;
        }
        match source.read(&mut piece[..room.min(64)]) {
            Ok(0) | Err(Failed) => break,
            Ok(count) => {
                line.hex(&piece[..count])?;
                most = most.max(count);
            }
        }
    }
    if most == 0 {
        line.words("-")?;
    }
    line.number("at most", most)?;
    line.part(if source.failed() { "failed" } else { "live" })
}
