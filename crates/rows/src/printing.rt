//! An answer on standard output and standard error.
use crate::answer::Answer;
use asn_elements::build::BuildError;
use itoa::Buffer;
use std::io::Write;
use tlv_core::fault::ReadError;

/// Prints the answer, and tells the exit status: 5 where it isn't printed.
pub fn print<O: Write, E: Write>(out: &mut O, error: &mut E, answer: &Answer) -> u8 {
    let is_out = match answer {
        Answer::Written(text) | Answer::Cut(text) => is_written(out, text),
        Answer::Wanted(taken) => is_line_written(out, "octets taken: ", *taken as u64),
        _ => true,
    };
    if is_out && is_reason_written(error, answer) {
        status_of(answer)
    } else {
        5
    }
}

fn status_of(answer: &Answer) -> u8 {
    match answer {
        Answer::Written(_) => 0,
        Answer::Stopped(ReadError::Fault(_)) => 2,
        Answer::NotMade(BuildError::Bad | BuildError::TooBig) => 2,
        Answer::Stopped(_) | Answer::NotMade(_) | Answer::Wanted(_) | Answer::Cut(_) => 3,
        Answer::Unknown => 4,
        Answer::Wrong(_) | Answer::Differs(..) => 9,
    }
}

/// Writes why there is no text, where there is none.
fn is_reason_written<W: Write>(dst: &mut W, answer: &Answer) -> bool {
    match answer {
        Answer::Written(_) => true,
        Answer::Stopped(error) => is_error_written(dst, error) && is_written(dst, b"\n"),
        Answer::Wanted(_) | Answer::NotMade(BuildError::Memory) => {
            is_written(dst, b"out of memory\n")
        }
        Answer::NotMade(BuildError::Bad) => is_written(dst, b"bad\n"),
        Answer::NotMade(BuildError::TooBig) => is_written(dst, b"too big\n"),
        Answer::Cut(octets) => is_line_written(dst, "write failed after ", octets.len() as u64),
        Answer::Wrong(what) => is_written(dst, what.as_bytes()) && is_written(dst, b"\n"),
        Answer::Differs(what, count) => {
            is_written(dst, b"answers differ: ")
                && is_written(dst, what.as_bytes())
                && is_line_written(dst, " ", *count as u64)
        }
        Answer::Unknown => is_written(dst, b"no task has these words\n"),
    }
}

/// Writes the error as pkder says it.
pub fn is_error_written<W: Write>(dst: &mut W, error: &ReadError) -> bool {
    match error {
        ReadError::Fault(fault) => {
            is_written(dst, b"fault at ")
                && is_number_written(dst, fault.at)
                && is_written(dst, b": ")
                && is_written(dst, fault.why.name().as_bytes())
                && match fault.inside {
                    Some((at, why)) => {
                        is_written(dst, b" inside at ")
                            && is_number_written(dst, at)
                            && is_written(dst, b": ")
                            && is_written(dst, why.name().as_bytes())
                    }
                    None => true,
                }
        }
        ReadError::Read { at } => is_written(dst, b"read failed at ")
            && is_number_written(dst, *at),
        ReadError::Memory => is_written(dst, b"out of memory"),
    }
}

fn is_line_written<W: Write>(dst: &mut W, words: &str, number: u64) -> bool {
    is_written(dst, words.as_bytes()) && is_number_written(dst, number) && is_written(dst, b"\n")
}

fn is_number_written<W: Write>(dst: &mut W, number: u64) -> bool {
    let mut buffer = Buffer::new();
    is_written(dst, buffer.format(number).as_bytes())
}

fn is_written<W: Write>(dst: &mut W, octets: &[u8]) -> bool {
    dst.write_all(octets).is_ok()
}
