//! Values that have to be all of their input.
use crate::answer::Answer;
use crate::normalising::{Document, normalised_behind, stopped};
use crate::pieces::Pieces;
use crate::reading::{Reading, Told, is_cut_short, is_stopped};
use crate::texts::checked_text;
use asn_documents::whole::{normalise_whole, read_whole_input};
use std::alloc::Global;
use std::marker::PhantomData;
use tlv_core::fault::{Fault, ReadError};
use tlv_core::limits::Limits;
use tlv_core::reason::Reason;
use tlv_core::source::Source;
use tlv_core::target::ToWrite;

/// The text of a value that is all of the input.
pub struct WholeOf<T>(PhantomData<T>);

impl<T: Document> Reading for WholeOf<T> {
    fn told<R: Source>(alloc: Global, source: &mut R, limits: Limits) -> Told {
        match read_whole_input::<R, T>(alloc, source, limits) {
            Ok((value, taken)) => Told {
                answer: checked_text(alloc, &value),
                taken,
            },
            Err(error) => stopped(error),
        }
    }
}

/// The text of a value that is all of the input and is normalised.
pub struct NormalisedWholeOf<T>(PhantomData<T>);

impl<T: Document> Reading for NormalisedWholeOf<T> {
    fn told<R: Source>(alloc: Global, source: &mut R, limits: Limits) -> Told {
        let Ok(first) = Vec::from_slice(alloc, &[7]) else {
            return stopped(ReadError::Memory);
        };
        let mut out = ToWrite::new(first);
        let counts = normalise_whole::<R, ToWrite<Vec<u8>>, T>(alloc, source, &mut out, limits);
        let out = out.into_inner();
        normalised_behind::<T>(alloc, counts, &out, limits)
    }
}

/// The answer of a reading to octets that have to be all of its input: the same in all pieces. Where they are one
/// value, each octet less is too few, an octet more is a fault, and so is a source that fails after them.
pub fn checked_whole<K: Reading>(
    alloc: Global,
    octets: &[u8],
    followed: &[u8],
    limits: Limits,
) -> Answer {
    let mut rest = octets;
    let whole = K::told(alloc, &mut rest, limits);
    if let Answer::Wrong(what) = whole.answer {
        return Answer::Wrong(what);
    }
    for piece in [1, 7, 64] {
        let mut source = Pieces::new(octets, piece, false);
        if !K::told(alloc, &mut source, limits)
            .answer
            .is_like(&whole.answer)
        {
            return Answer::Wrong("the answer is another one in pieces");
        }
    }
    if !whole.answer.is_written() {
        return whole.answer;
    }
    if !rest.is_empty() || whole.taken != octets.len() as u64 {
        return Answer::Wrong("other octets are told or taken");
    }
    for count in 0..octets.len() {
        if !is_cut_short::<K>(alloc, &octets[..count], limits) {
            return Answer::Wrong("an octet that is taken isn't needed");
        }
    }
    if !is_end_looked_for::<K>(alloc, octets, followed, limits) {
        return Answer::Wrong("what stands behind the octets is no fault");
    }
    whole.answer
}

/// Whether octets after a value are a fault, and a source that fails there a failed read.
fn is_end_looked_for<K: Reading>(
    alloc: Global,
    octets: &[u8],
    followed: &[u8],
    limits: Limits,
) -> bool {
    let at = octets.len() as u64;
    let fault = Fault {
        at,
        why: Reason::Trailing,
        inside: None,
    };
    let mut more = followed;
    let is_trailing = is_stopped::<&[u8], K>(alloc, &mut more, limits, ReadError::Fault(fault));
    let taken = followed.len().saturating_sub(more.len());
    let mut fails = Pieces::new(octets, 64, true);
    let is_failed = is_stopped::<Pieces<'_>, K>(alloc, &mut fails, limits, ReadError::Read { at });
    is_trailing && is_failed && taken.saturating_sub(octets.len()) == 1
}
