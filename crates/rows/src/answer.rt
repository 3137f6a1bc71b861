//! What is answered to a task.
use asn_elements::build::BuildError;
use std::alloc::{AllocError, AllocFailed, Global};
use tlv_core::fault::{Fault, ReadError};
use tlv_core::oid::OidError;
use tlv_core::reason::Reason;

/// What is answered to a task.
#[derive(Drop)]
pub enum Answer {
    /// A text, or a line.
    Written(Vec<u8>),
    /// No value was read.
    Stopped(ReadError),
    /// A reader wanted memory after so many octets.
    Wanted(usize),
    /// No value was made.
    NotMade(BuildError),
    /// The target failed after these octets.
    Cut(Vec<u8>),
    /// Two answers don't agree, or one isn't as promised.
    Wrong(&'static str),
    /// Two answers don't agree, where there are so many of what is named.
    Differs(&'static str, usize),
    /// The words mean nothing.
    Unknown,
}

impl Answer {
    /// A text, if there was memory for it.
    pub fn of(text: Result<Vec<u8>, AllocError>) -> Answer {
        match text {
            Ok(text) => Answer::Written(text),
            Err(_) => Answer::Stopped(ReadError::Memory),
        }
    }

    /// A text, or the answer that stands for it.
    pub fn either(text: Result<Vec<u8>, Answer>) -> Answer {
        match text {
            Ok(text) => Answer::Written(text),
            Err(answer) => answer,
        }
    }

    /// A line of these words.
    pub fn line(alloc: Global, words: &str) -> Answer {
        Answer::of(line_of(alloc, words.as_bytes()))
    }

    /// Whether there is a text, or a line.
    pub fn is_written(&self) -> bool {
        match self {
            Answer::Written(_) => true,
            _ => false,
        }
    }

    /// Whether no value was read, for this error.
    pub fn is_error(&self, error: ReadError) -> bool {
        match self {
            Answer::Stopped(own) => *own == error,
            _ => false,
        }
    }

    /// Whether the two are one answer, and none that doesn't agree.
    pub fn is_like(&self, other: &Answer) -> bool {
        match (self, other) {
            (Answer::Written(text), Answer::Written(other)) => text.as_slice() == other.as_slice(),
            (_, Answer::Stopped(error)) => self.is_error(*error),
            _ => false,
        }
    }
}

impl From<AllocError> for Answer {
    fn from(_error: AllocError) -> Answer {
        Answer::Stopped(ReadError::Memory)
    }
}

impl<T: Drop> From<AllocFailed<T>> for Answer {
    fn from(_error: AllocFailed<T>) -> Answer {
        Answer::Stopped(ReadError::Memory)
    }
}

impl From<OidError> for Answer {
    fn from(error: OidError) -> Answer {
        match error {
            OidError::Bad => Answer::NotMade(BuildError::Bad),
            OidError::Memory => Answer::Stopped(ReadError::Memory),
        }
    }
}

/// The octets, and a line feed.
fn line_of(alloc: Global, octets: &[u8]) -> Result<Vec<u8>, AllocError> {
    let mut line = Vec::from_slice(alloc, octets)?;
    line.extend_from_slice(b"\n")?;
    Ok(line)
}

/// The octets end where more are needed.
pub fn truncated(octets: &[u8]) -> ReadError {
    ReadError::Fault(Fault {
        at: octets.len() as u64,
        why: Reason::Truncated,
        inside: None,
    })
}
