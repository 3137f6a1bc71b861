//! Documents and elements of one value: read and written.
ghost use Rattle.std.specs.Prelude.{◌<◌};

use crate::answer::Answer;
use crate::normalising::stopped;
use crate::reading::{Reading, Told};
use crate::stops::Stops;
use crate::texts::{checked_text, text_of};
use asn_documents::value::{read_value, write_value};
use asn_elements::element::Element;
use asn_elements::whole::{read_element, read_whole};
use pk_documents::signed_part::write_signed_part;
use pkcs10::request::CertificationRequest;
use std::alloc::Global;
use std::marker::PhantomData;
use tlv_core::fault::ReadError;
use tlv_core::limits::Limits;
use tlv_core::sink::WriteError;
use tlv_core::source::Source;

/// The text of a document.
pub struct DocumentOf<T>(PhantomData<T>);

impl<T: Element> Reading for DocumentOf<T> {
    fn told<R: Source>(alloc: Global, source: &mut R, limits: Limits) -> Told {
        match read_value::<R, T>(alloc, source, limits) {
            Ok((value, taken)) => Told {
                answer: checked_text(alloc, &value),
                taken,
            },
            Err(error) => stopped(error),
        }
    }
}

/// The text of an element at the start of the source.
pub struct ElementOf<T>(PhantomData<T>);

impl<T: Element> Reading for ElementOf<T> {
    fn told<R: Source>(alloc: Global, source: &mut R, limits: Limits) -> Told {
        match read_element::<R, T>(alloc, source, limits) {
            Ok((value, taken)) => Told {
                answer: checked_text(alloc, &value),
                taken,
            },
            Err(error) => stopped(error),
        }
    }
}

/// The text of the element that the octets are, and nothing else.
pub fn whole_octets<T: Element>(alloc: Global, octets: &[u8], limits: Limits) -> Answer {
    match read_whole::<T>(alloc, octets, limits) {
        Ok(value) => text_of(alloc, &value),
        Err(error) => Answer::Stopped(error),
    }
}

/// A target of the room that the words name.
#[derive(Clone, Copy)]
pub struct Room {
    pub room: usize,
    pub piece: usize,
}

/// What the signature of a request covers, or all of the request, written to a target.
pub fn request_written(
    alloc: Global,
    octets: &[u8],
    limits: Limits,
    room: Room,
    is_whole: bool,
) -> Answer
    requires { 0 < room.piece }
{
    let mut source = octets;
    let request = match read_value::<&[u8], CertificationRequest>(alloc, &mut source, limits) {
        Ok((request, _)) => request,
        Err(error) => return Answer::Stopped(error),
    };
    let mut target = match Stops::new(alloc, room.room, room.piece) {
        Ok(target) => target,
        Err(_) => return Answer::Stopped(ReadError::Memory),
    };
    let written = if is_whole {
        write_value(&request, &mut target)
    } else {
        write_signed_part(&request, &mut target)
    };
    went_out(alloc, &written, target.octets())
}

/// What went out to a target.
pub fn went_out(alloc: Global, written: &Result<u64, WriteError>, octets: &[u8]) -> Answer {
    let out = match Vec::from_slice(alloc, octets) {
        Ok(out) => out,
        Err(error) => return Answer::of(Err(error)),
    };
    let (told, answer) = match written {
        Ok(told) => (*told, Answer::Written(out)),
        Err(error) => (error.written, Answer::Cut(out)),
    };
    if told != octets.len() as u64 {
        return Answer::Wrong("another number of octets is told than went out");
    }
    answer
}
