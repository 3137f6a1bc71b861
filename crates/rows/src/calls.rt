//! Calls of a `Pull` one after another, and what they answer: from a slice, in pieces, and from sources that fail.
mod make;
mod reply;

use crate::answer::Answer;
use crate::line::Line;
use crate::pieces::Pieces;
use crate::words::Numbers;
use make::{Call, replies};
use reply::Reply;
use std::alloc::Global;
use std::str::SplitWhitespace;
use tlv_core::limits::Limits;

/// Calls within limits, and how many octets their replies need.
#[derive(Drop)]
struct Task {
    limits: Limits,
    needs: usize,
    calls: Vec<Call>,
}

/// The replies, in order, to `[depth N] [limit N] [needs N] CALL ..`.
pub fn answered(
    alloc: Global,
    words: &mut SplitWhitespace<'_>,
    octets: &[u8],
) -> Result<Vec<u8>, Answer> {
    let task = task_of(alloc, words, octets)?;
    let mut slice = octets;
    let whole = replies(alloc, &mut slice, task.limits, &task.calls)?;
    agree_in_pieces(alloc, &task, octets, &whole)?;
    agree_in_failures(alloc, &task, octets, &whole)?;
    let mut line = Line::with(alloc, "; ");
    for reply in whole.iter() {
        reply.tell(&mut line)?;
    }
    Ok(line.ended()?)
}

fn task_of(alloc: Global, words: &mut SplitWhitespace<'_>, octets: &[u8]) -> Result<Task, Answer> {
    let mut numbers = Numbers {
        depth: 32,
        limit: 1000,
        room: 0,
        piece: 1,
        needs: octets.len(),
    };
    let mut calls = Vec::new(alloc);
    for _ in 0..1000 {
        let Some(word) = words.next() else {
            break;
        };
        match (numbers.is_named(word, words), call_of(word)) {
            (Some(true), _) => {}
            (Some(false), Some(call)) => calls.push(call)?,
            _ => return Err(Answer::Unknown),
        }
    }
    let Some(limits) = Limits::new(numbers.depth, numbers.limit) else {
        return Err(Answer::Unknown);
    };
    Ok(Task {
        limits,
        needs: numbers.needs,
        calls,
    })
}

fn call_of(word: &str) -> Option<Call> {
    Some(match word {
        "next" => Call::Next,
        "enter" => Call::Enter,
        "leave" => Call::Leave,
        "primitive" => Call::Primitive,
        "primitive-into" => Call::PrimitiveInto,
        "octets" => Call::Octets,
        "bits" => Call::Bits,
        "at" => Call::At,
        "limits" => Call::Limits,
        "refuse" => Call::Refuse,
        "no-memory" => Call::NoMemory,
        _ => return None,
    })
}

/// In pieces, from a source that ends and from one that fails after the last octet, the replies are those from the
/// slice.
fn agree_in_pieces(
    alloc: Global,
    task: &Task,
    octets: &[u8],
    whole: &[Reply],
) -> Result<(), Answer> {
    for piece in [1, 7, 64, 5000] {
        for fails in [false, true] {
            let mut source = Pieces::new(octets, piece, fails);
            let found = replies(alloc, &mut source, task.limits, &task.calls)?;
            let is_right = if fails {
                reply::are_failing(&found, whole, octets.len(), task.needs)
            } else {
                reply::are_same(&found, whole)
            };
            if !is_right {
                return Err(Answer::Differs("in pieces of", piece));
            }
        }
    }
    Ok(())
}

/// From a source that fails after its first octets, however many, the replies are those from the slice as far as those
/// octets go.
fn agree_in_failures(
    alloc: Global,
    task: &Task,
    octets: &[u8],
    whole: &[Reply],
) -> Result<(), Answer> {
    for told in 0..octets.len() {
        let mut source = Pieces::new(&octets[..told], 64, true);
        let found = replies(alloc, &mut source, task.limits, &task.calls)?;
        if !reply::are_failing(&found, whole, told, task.needs) {
            return Err(Answer::Differs("from a source that fails behind", told));
        }
    }
    Ok(())
}
