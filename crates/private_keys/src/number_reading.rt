//! One INTEGER of many that are due, read after those before it: the contents of each stand in a vector that is used
//! again, and its DER encoding goes after the others.
ghost use Rattle.std.specs.Prelude.{◌≡◌, ◌++◌, ◌<◌, ◌≤◌, ◌^◌, ◌∷◌, [], None, IfOk, OnOk, false, length, slice_range};
ghost use Rattle.std.specs.Prelude.{true};
ghost use Rattle.tlv_core.specs.Header.{der_header};
ghost use Rattle.x690.specs.DerTexts.{der};
ghost use Rattle.x690.specs.Layouts.{universal};
ghost use Rattle.x690.specs.ReadContents.{is_integer_contents};
ghost use Rattle.x690.specs.UniversalTypes.{integer};
ghost use Rattle.ber_pull.specs.View.{standing, Frame};
ghost use Rattle.asn_fields.specs.BegunSequence.{ReadsFields};
ghost use Rattle.asn_fields.specs.Fields.{AnswersDue, AnswersTake, IsInside, LeavesWithin, StaysInside};
ghost use Rattle.private_keys.specs.RsaNumbers.{integer_value, integers_due};

use asn_elements::element::Element;
use asn_elements::integer::Int;
use asn_elements::leaf_reading::{SimpleType, read_leaf_into};
use asn_elements::tags::universal_tag;
use asn_fields::fields::{Next, ahead};
use ber_pull::pull::Pull;
use std::alloc::{AllocError, Global};
use tlv_core::der::{header, short_header};
use tlv_core::fault::ReadError;
use tlv_core::reason::Reason;
use tlv_core::source::Source;

/// How long the first INTEGER may be for the others to get their room with it: as long as a modulus of 8192 bits.
const LONGEST: usize = 1025;

/// An INTEGER that is due, by itself: its contents in place of what the vector holds.
fn take_integer<R: Source>(
    alloc: Global,
    pull: &mut Pull<'_, R>,
    next: Next,
    contents: &mut Vec<u8>,
) -> Result<(), ReadError>
    requires fine { (standing pull.old).error ≡ None }
    requires inside { IsInside pull.old next }
    ensures frame { Frame pull.old pull.new result }
    ensures reads { AnswersTake pull.old pull.new next integer
        (λ _. integer_value contents.new.items) result }
    ensures short { OnOk result (length (der (integer_value contents.new.items)) < 2 ^ 32) }
    ensures is { OnOk result (is_integer_contents contents.new.items ≡ true) }
    ensures stands { OnOk result (LeavesWithin pull.old pull.new next) }
{
    let fits = match next.tag {
        Some((tag, _)) => Int::fits(tag),
        None => return Err(pull.refuse(next.at, Reason::Missing, None)),
    };
    if !fits {
        return Err(pull.refuse(next.at, Reason::WrongTag, None));
    }
    read_leaf_into(alloc, pull, SimpleType::Integer, contents)
}

/// The same, and what stands after it.
fn due_integer<R: Source>(
    alloc: Global,
    pull: &mut Pull<'_, R>,
    next: &mut Next,
    contents: &mut Vec<u8>,
) -> Result<(), ReadError>
    requires fine { (standing pull.old).error ≡ None }
    requires inside { IsInside pull.old next.old }
    ensures frame { Frame pull.old pull.new result }
    ensures reads { AnswersDue pull.old pull.new next.old next.new integer
        (λ _. integer_value contents.new.items) result }
    ensures short { OnOk result (length (der (integer_value contents.new.items)) < 2 ^ 32) }
    ensures is { OnOk result (is_integer_contents contents.new.items ≡ true) }
    ensures stands { OnOk result (StaysInside pull.old pull.new next.old next.new) }
{
    take_integer(alloc, pull, *next, contents)?;
    *next = ahead(pull)?;
    Ok(())
}

/// The DER encoding of the INTEGER with these contents after the text, and the place where the contents begin in it.
fn push_integer(text: &mut Vec<u8>, contents: &[u8]) -> Result<usize, AllocError>
    ensures put { OnOk result (text.new.items ≡ text.old.items
        ++ (der_header (universal 2) false (length contents.now) ++ contents.now)) }
    ensures within { IfOk result (λ begin. begin ≤ length text.new.items) }
    ensures begins { IfOk result (λ begin. slice_range text.new.items begin (length text.new.items)
        ≡ contents.now) }
{
    let tag = universal_tag(2);
    let length = contents.len();
    // (the modulus of a key stands first; the numbers after it take less than four times as much)
    let others = if text.is_empty() {
        4 * length.min(LONGEST)
    } else {
        0
    };
    text.reserve_exact(length + 14 + others)?;
    match short_header(tag, false, length as u64) {
        Some(octets) => text.extend_from_slice(&octets)?,
        None => text.extend_from_slice(header(tag, false, length as u64).octets())?,
    }
    let begin = text.len();
    text.extend_from_slice(contents)?;
    Ok(begin)
}

/// An INTEGER that is due: its contents in place of what `room` holds, and its DER encoding after the text. The place
/// where the contents begin in the text, which they end.
pub(crate) fn append_integer<R: Source>(
    alloc: Global,
    pull: &mut Pull<'_, R>,
    next: &mut Next,
    room: &mut Vec<u8>,
    text: &mut Vec<u8>,
) -> Result<usize, ReadError>
    requires fine { (standing pull.old).error ≡ None }
    requires inside { IsInside pull.old next.old }
    ensures frame { Frame pull.old pull.new result }
    ensures reads { ReadsFields pull.old pull.new next.old next.new (integers_due 1)
        (λ _. integer_value room.new.items ∷ []) result }
    ensures short { OnOk result (length (der (integer_value room.new.items)) < 2 ^ 32) }
    ensures is { OnOk result (is_integer_contents room.new.items ≡ true) }
    ensures put { OnOk result (text.new.items ≡ text.old.items ++ der (integer_value room.new.items)) }
    ensures within { IfOk result (λ begin. begin ≤ length text.new.items) }
    ensures begins { IfOk result (λ begin. slice_range text.new.items begin (length text.new.items)
        ≡ room.new.items) }
    ensures stands { OnOk result (StaysInside pull.old pull.new next.old next.new) }
{
    due_integer(alloc, pull, next, room)?;
    match push_integer(text, room) {
        Ok(begin) => Ok(begin),
        Err(_) => Err(pull.no_memory()),
    }
}
