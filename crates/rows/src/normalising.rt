//! Values of a type normalised and checked to be in DER.
ghost use Rattle.std.specs.Prelude.{◌<◌};
ghost use Rattle.x690.specs.Premises.{Lawful};
ghost use Rattle.rows.specs.Samples.{sample_lawful};

use crate::answer::Answer;
use crate::documents::{Room, went_out};
use crate::line::Line;
use crate::reading::{Reading, Told};
use crate::samples::Sample;
use crate::stops::Stops;
use asn_documents::check::check_value;
use asn_documents::normalise::{NormaliseError, normalise_value};
use asn_elements::element::Element;
use std::alloc::{AllocError, Global};
use std::marker::PhantomData;
use tlv_core::fault::ReadError;
use tlv_core::limits::Limits;
use tlv_core::source::Source;
use tlv_core::target::ToWrite;

/// A type that is as the laws ask.
pub trait Document: Element {
    ghost lawful: { Lawful Self.Element.type_term };
}

impl Document for Sample {
    ghost lawful = { sample_lawful };
}

/// The text of a value that is normalised, which is normalised to itself.
pub struct NormalisedOf<T>(PhantomData<T>);

impl<T: Document> Reading for NormalisedOf<T> {
    fn told<R: Source>(alloc: Global, source: &mut R, limits: Limits) -> Told {
        let Ok(first) = Vec::from_slice(alloc, &[7]) else {
            return stopped(ReadError::Memory);
        };
        let mut out = ToWrite::new(first);
        let counts = normalise_value::<R, ToWrite<Vec<u8>>, T>(alloc, source, &mut out, limits);
        let out = out.into_inner();
        normalised_behind::<T>(alloc, counts, &out, limits)
    }
}

/// What is told of a normalised value whose text went after an octet 07.
pub fn normalised_behind<T: Document>(
    alloc: Global,
    counts: Result<(u64, u64), NormaliseError>,
    out: &[u8],
    limits: Limits,
) -> Told {
    let [7, text @ ..] = out else {
        return wrong("what the text goes behind is changed");
    };
    match counts {
        Ok((_, written)) if written != text.len() as u64 => {
            wrong("another number of octets is told than went out")
        }
        Ok((taken, _)) => Told {
            answer: again::<T>(alloc, text, limits),
            taken,
        },
        Err(NormaliseError::Read(_)) if !text.is_empty() => {
            wrong("of what wasn't read something went out")
        }
        Err(NormaliseError::Read(error)) => stopped(error),
        Err(NormaliseError::Write(_)) => stopped(ReadError::Memory),
    }
}

pub fn stopped(error: ReadError) -> Told {
    Told {
        answer: Answer::Stopped(error),
        taken: 0,
    }
}

fn wrong(what: &'static str) -> Told {
    Told {
        answer: Answer::Wrong(what),
        taken: 0,
    }
}

/// The text, which is normalised to itself.
fn again<T: Document>(alloc: Global, text: &[u8], limits: Limits) -> Answer {
    let mut src = text;
    let mut out = ToWrite::new(Vec::new(alloc));
    let size = text.len() as u64;
    match normalise_value::<&[u8], ToWrite<Vec<u8>>, T>(alloc, &mut src, &mut out, limits) {
        Ok(counts) if counts == (size, size) && src.is_empty() => {
            let written = out.into_inner();
            if written.as_slice() == text {
                Answer::Written(written)
            } else {
                Answer::Wrong("a text is normalised to another one")
            }
        }
        Err(NormaliseError::Read(ReadError::Memory)) | Err(NormaliseError::Write(_)) => {
            Answer::Stopped(ReadError::Memory)
        }
        _ => Answer::Wrong("a text isn't normalised whole"),
    }
}

/// A value normalised into a target that fails after some octets.
pub fn normalised_into<T: Document>(
    alloc: Global,
    octets: &[u8],
    limits: Limits,
    room: Room,
) -> Answer
    requires { 0 < room.piece }
{
    let mut source = octets;
    let mut target = match Stops::new(alloc, room.room, room.piece) {
        Ok(target) => target,
        Err(_) => return Answer::Stopped(ReadError::Memory),
    };
    match normalise_value::<&[u8], Stops, T>(alloc, &mut source, &mut target, limits) {
        Ok((_, written)) => went_out(alloc, &Ok(written), target.octets()),
        Err(NormaliseError::Write(error)) => went_out(alloc, &Err(error), target.octets()),
        Err(NormaliseError::Read(_)) if !target.octets().is_empty() => {
            Answer::Wrong("of what wasn't read something went out")
        }
        Err(NormaliseError::Read(error)) => Answer::Stopped(error),
    }
}

/// A line that tells whether the octets of a value are its DER text, as pkder does.
pub struct CheckedOf<T>(PhantomData<T>);

impl<T: Document> Reading for CheckedOf<T> {
    fn told<R: Source>(alloc: Global, source: &mut R, limits: Limits) -> Told {
        match check_value::<R, T>(alloc, source, limits) {
            Ok((taken, place)) => Told {
                answer: Answer::of(line_of(alloc, place)),
                taken,
            },
            Err(error) => stopped(error),
        }
    }
}

fn line_of(alloc: Global, place: Option<u64>) -> Result<Vec<u8>, AllocError> {
    let mut line = Line::new(alloc);
    match place {
        Some(place) => line.number("not DER at", place as usize)?,
        None => line.part("DER")?,
    }
    line.ended()
}
