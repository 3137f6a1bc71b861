//! Targets: what they take of each piece, what becomes of a sink into them, and what they hold then.
ghost use Rattle.std.specs.Prelude.{◌≡◌, false};

use crate::answer::Answer;
use crate::line::Line;
use crate::stops::Stops;
use crate::words::number;
use std::alloc::{AllocError, Global};
use std::io::{self, Write};
use std::str::SplitWhitespace;
use tlv_core::sink::{Sink, WriteError};
use tlv_core::source::Failed;
use tlv_core::target::{Target, ToWrite};

/// More octets than a task hands out, and more steps than it has.
const MANY: u64 = 1_000_000;

/// Takes an octet per call, and then answers 0 or an error.
#[derive(Drop)]
struct Halts {
    taken: Vec<u8>,
    most: usize,
    fails: bool,
}

impl Write for Halts {
    fn write(&mut self, piece: &[u8]) -> io::Result<usize> {
        if self.taken.len() < self.most && !piece.is_empty() {
            self.taken.push(piece[0])?;
            return Ok(1);
        }
        if self.fails {
            return Err(io::Error::from(io::ErrorKind::Interrupted));
        }
        Ok(0)
    }

    fn flush(&mut self) -> io::Result<()> {
        Ok(())
    }
}

/// What becomes of the octets, handed out in order by `write COUNT ..` and then `put COUNT ..`, after `stops ROOM
/// SIZE`, `vector`, or `zero MOST` and `error MOST`, a writer that answers 0 or an error after so many.
pub fn answered(
    alloc: Global,
    words: &mut SplitWhitespace<'_>,
    octets: &[u8],
) -> Result<Vec<u8>, Answer> {
    let mut line = Line::with(alloc, "; ");
    match words.next() {
        Some("stops") => {
            let (room, size) = (number(words)?, number(words)?);
            if size == 0 {
                return Err(Answer::Unknown);
            }
            let mut target = Stops::new(alloc, room, size)?;
            hand_out(&mut line, &mut target, words, octets)?;
            hold(line, target.octets())
        }
        Some("vector") => {
            let mut target = ToWrite::new(Vec::new(alloc));
            hand_out(&mut line, &mut target, words, octets)?;
            hold(line, target.into_inner().as_slice())
        }
        Some("zero") => halting(alloc, line, words, octets, false),
        Some("error") => halting(alloc, line, words, octets, true),
        _ => Err(Answer::Unknown),
    }
}

fn halting(
    alloc: Global,
    line: Line,
    words: &mut SplitWhitespace<'_>,
    octets: &[u8],
    fails: bool,
) -> Result<Vec<u8>, Answer> {
    let mut line = line;
    let most = number(words)?;
    let taken = Vec::new(alloc);
    let mut target = ToWrite::new(Halts { taken, most, fails });
    hand_out(&mut line, &mut target, words, octets)?;
    hold(line, target.into_inner().taken.as_slice())
}

/// What each step answers, and whether the target has failed then.
fn hand_out<W: Target>(
    line: &mut Line,
    target: &mut W,
    words: &mut SplitWhitespace<'_>,
    octets: &[u8],
) -> Result<(), Answer> {
    let mut rest = octets;
    let mut step = words.next();
    for _ in 0..MANY {
        if target.failed() || step != Some("write") {
            break;
        }
        let piece = &rest[..rest.len().min(number(words)?)];
        match target.write(piece) {
            Ok(taken) => {
                line.number("wrote", taken)?;
                rest = &rest[taken..];
            }
            Err(Failed) => line.part("failed")?,
        }
        step = words.next();
    }
    if !target.failed() {
        put_all(line, target, step, words, rest)?;
    }
    line.part(if target.failed() { "failed" } else { "live" })?;
    Ok(())
}

/// What each put into a sink answers, and how many octets the sink says are out then.
fn put_all<W: Target>(
    line: &mut Line,
    target: &mut W,
    first: Option<&str>,
    words: &mut SplitWhitespace<'_>,
    octets: &[u8],
) -> Result<(), Answer>
    requires { W.has_failed target.old ≡ false }
{
    let mut sink = Sink::new(target);
    push_out(line, "", sink.written())?;
    let mut rest = octets;
    let mut step = first;
    for _ in 0..MANY {
        match step {
            Some("put") => {}
            Some(_) => return Err(Answer::Unknown),
            None => break,
        }
        let (piece, behind) = rest.split_at(rest.len().min(number(words)?));
        if sink.written() > MANY || piece.len() as u64 > MANY {
            return Err(Answer::Unknown);
        }
        match sink.put(piece) {
            Ok(()) => push_out(line, "put, ", sink.written())?,
            Err(WriteError { written }) => {
                line.part("stopped at ")?;
                line.digits(written)?;
                line.words(", ")?;
                line.digits(sink.written())?;
                line.words(" out")?;
            }
        }
        rest = behind;
        step = words.next();
    }
    Ok(())
}

fn push_out(line: &mut Line, step: &str, out: u64) -> Result<(), AllocError> {
    line.part(step)?;
    line.digits(out)?;
    line.words(" out")
}

fn hold(line: Line, octets: &[u8]) -> Result<Vec<u8>, Answer> {
    let mut line = line;
    line.part("holds ")?;
    line.hex_or_dash(octets)?;
    Ok(line.ended()?)
}
