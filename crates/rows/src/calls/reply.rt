//! What a call replies, and which replies are due from a source that fails.
use crate::line::Line;
use std::alloc::AllocError;
use tlv_core::fault::ReadError;
use tlv_core::limits::Limits;
use tlv_core::reason::Reason;
use tlv_core::tag::{Class, Tag};

/// What a call replied.
#[derive(PartialEq, Eq, Drop)]
pub enum Reply {
    Element(Tag, bool),
    End,
    Done,
    Octets(Vec<u8>),
    Bits(u8, Vec<u8>),
    At(u64),
    Limits(Limits),
    Failed(ReadError),
}

impl Reply {
    /// Pushes it as a part of the line.
    pub fn tell(&self, line: &mut Line) -> Result<(), AllocError> {
        match self {
            Reply::Element(tag, constructed) => {
                line.part(class_name(tag.class()))?;
                line.words(" ")?;
                line.digits(tag.number())?;
                line.words(if *constructed {
                    " constructed"
                } else {
                    " primitive"
                })
            }
            Reply::End => line.part("end"),
            Reply::Done => line.part("done"),
            Reply::Octets(octets) => {
                line.part("")?;
                line.hex_or_dash(octets)
            }
            Reply::Bits(unused, octets) => {
                line.part("")?;
                line.digits(*unused)?;
                line.words(" ")?;
                line.hex_or_dash(octets)
            }
            Reply::At(place) => {
                line.part("at ")?;
                line.digits(*place)
            }
            Reply::Limits(limits) => {
                line.number("depth", usize::from(limits.depth()))?;
                line.words(" limit ")?;
                line.digits(limits.octets())
            }
            Reply::Failed(error) => {
                line.part("")?;
                line.error(error)
            }
        }
    }
}

fn class_name(class: Class) -> &'static str {
    match class {
        Class::Universal => "universal",
        Class::Application => "application",
        Class::Context => "context",
        Class::Private => "private",
    }
}

/// Whether the replies are the same.
pub fn are_same(found: &[Reply], whole: &[Reply]) -> bool {
    found.len() == whole.len() && found.iter().zip(whole).all(|(reply, due)| *reply == *due)
}

/// Whether the replies are those that are due from a source which fails after so many octets, where `whole` are those
/// from a slice, and need so many. The first call that needs an octet after replies that reading failed there, and so
/// does each later one; what is truncated at the end of the octets fails there too.
pub fn are_failing(found: &[Reply], whole: &[Reply], told: usize, needs: usize) -> bool {
    let unread = ReadError::Read { at: told as u64 };
    let is_short = told < needs;
    let mut has_failed = false;
    for (reply, due) in found.iter().zip(whole) {
        let is_right = match reply {
            Reply::Failed(error) if is_short => {
                has_failed = true;
                *error == unread
            }
            Reply::At(_) if has_failed => true,
            Reply::Limits(_) => *reply == *due,
            _ => !has_failed && is_failing(reply, due),
        };
        if !is_right {
            return false;
        }
    }
    found.len() == whole.len() && has_failed == is_short
}

/// Whether the reply is the one that is due, of which `Truncated` stands for a failure.
fn is_failing(reply: &Reply, due: &Reply) -> bool {
    match (reply, due) {
        (Reply::Failed(error), Reply::Failed(ReadError::Fault(fault)))
            if fault.why == Reason::Truncated => { *error == ReadError::Read { at: fault.at } }
        _ => *reply == *due,
    }
}
