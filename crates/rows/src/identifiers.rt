//! Object identifiers by their arcs and by their contents.
use crate::answer::Answer;
use crate::line::Line;
use std::alloc::Global;
use std::str::SplitWhitespace;
use tlv_core::oid::Oid;

/// The contents of the object identifier with these arcs, which read as it again.
pub fn made(alloc: Global, words: &mut SplitWhitespace<'_>) -> Result<Vec<u8>, Answer> {
    let arcs = arcs_of(alloc, words)?;
    let oid = Oid::from_arcs(alloc, &arcs)?;
    check_arcs(&oid, &arcs)?;
    let again = Oid::from_contents(alloc, oid.contents())?;
    check_arcs(&again, &arcs)?;
    if !again.same(&oid) {
        return Err(Answer::Wrong("answers differ: in the contents"));
    }
    let mut line = Line::new(alloc);
    line.hex_or_dash(oid.contents())?;
    Ok(line.ended()?)
}

/// The arcs of the object identifier with these contents, which it keeps.
pub fn read(alloc: Global, octets: &[u8]) -> Result<Vec<u8>, Answer> {
    let oid = Oid::from_contents(alloc, octets)?;
    if oid.contents() != octets {
        return Err(Answer::Wrong("answers differ: in the contents"));
    }
    let mut line = Line::with(alloc, ".");
    for i in 0..oid.arc_count() {
        let Some(arc) = oid.arc(i) else {
            return Err(Answer::Differs("at arc", i));
        };
        line.part("")?;
        line.digits(arc)?;
    }
    Ok(line.ended()?)
}

/// Whether the object identifier with these contents is the same as the one with the arcs.
pub fn compared(
    alloc: Global,
    words: &mut SplitWhitespace<'_>,
    octets: &[u8],
) -> Result<Vec<u8>, Answer> {
    let arcs = arcs_of(alloc, words)?;
    let due = Oid::from_arcs(alloc, &arcs)?;
    let found = Oid::from_contents(alloc, octets)?;
    let mut line = Line::new(alloc);
    line.part(if found.same(&due) {
        "same"
    } else {
        "different"
    })?;
    Ok(line.ended()?)
}

fn arcs_of(alloc: Global, words: &mut SplitWhitespace<'_>) -> Result<Vec<u128>, Answer> {
    let mut arcs = Vec::new(alloc);
    for word in words {
        match word.parse() {
            Ok(arc) => arcs.push(arc)?,
            Err(_) => return Err(Answer::Unknown),
        }
    }
    Ok(arcs)
}

/// The object identifier has these arcs, one by one and in one walk, and no arc after them.
fn check_arcs(oid: &Oid, arcs: &[u128]) -> Result<(), Answer> {
    let count = oid.arc_count();
    if count != arcs.len() {
        return Err(Answer::Differs("in the number of arcs,", count));
    }
    let (first, second, mut later) = oid.arcs();
    for (i, arc) in arcs.iter().enumerate() {
        let walked = match i {
            0 => Some(first),
            1 => Some(second),
            _ => later.next(),
        };
        if walked != Some(*arc) || oid.arc(i) != Some(*arc) {
            return Err(Answer::Differs("at arc", i));
        }
    }
    if later.next().is_some() || oid.arc(count).is_some() {
        return Err(Answer::Differs("at arc", count));
    }
    Ok(())
}
