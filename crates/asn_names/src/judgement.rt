//! Whether octets are the DER text of a value whose type is data (X.690 10, 11).
ghost use Rattle.std.specs.Prelude.{◌≡◌, IfOk, MatchResult, false, true};
ghost use Rattle.asn_elements.specs.Whole.{IsFailedRead};
ghost use Rattle.pkix_shapes.specs.Plain.{is_plain};
ghost use Rattle.pkix_shapes.specs.Terms.{term_of};
ghost use Rattle.asn_names.specs.Judged.{AnswersElement, judged};

use crate::shaped::append_shaped;
use ber_pull::pull::Pull;
use pkix_shapes::shape::Shape;
use std::alloc::{AllocError, Global};
use tlv_core::fault::{Fault, ReadError};
use tlv_core::limits::Limits;
use tlv_core::reason::Reason;
use tlv_core::source::Source;

/// What octets are, as one element of a type and nothing else.
#[derive(Clone, Copy)]
pub enum Judgement {
    /// A value, in DER.
    Der,
    /// A value, but not in DER.
    NotDer,
    /// No value, by this fault.
    Refused(Fault),
}

/// Reads the element at the start of a source as one of the type, puts its text after what is there, and answers the
/// number of octets taken.
fn read_shaped<R: Source>(
    alloc: Global,
    src: &mut R,
    text: &mut Vec<u8>,
    shape: &'static Shape,
    limits: Limits,
) -> Result<u64, ReadError>
    requires readable { R.has_failed src.old ≡ false }
    requires plain { is_plain shape.now ≡ true }
    ensures reads { AnswersElement limits (term_of shape.now) (R.remaining src.old) (R.remaining src.new)
        text.old.items text.new.items result }
    ensures read { MatchResult result (λ _. R.has_failed src.new ≡ false)
        (IsFailedRead (R.has_failed src.new)) }
{
    let mut pull = Pull::new(src, limits);
    let Some(_) = pull.next_tag()? else {
        unreachable!()
    };
    let mut room = Vec::new(alloc);
    append_shaped(alloc, &mut pull, &mut room, text, shape)?;
    let taken = pull.at();
    Ok(taken)
}

/// Whether the octets are the DER text of a value of the type, are a value in another encoding, or are none.
///
/// Faults: those of `append_shaped`; `Trailing` at the first octet after the element.
pub fn judge(
    alloc: Global,
    octets: &[u8],
    shape: &'static Shape,
    limits: Limits,
) -> Result<Judgement, AllocError>
    requires plain { is_plain shape.now ≡ true }
    ensures { IfOk result (λ it. it ≡ judged limits (term_of shape.now) octets.now) }
{
    let mut text = Vec::new(alloc);
    let mut rest = octets;
    let taken = match read_shaped::<&[u8]>(alloc, &mut rest, &mut text, shape, limits) {
        Ok(taken) => taken,
        Err(ReadError::Fault(fault)) => return Ok(Judgement::Refused(fault)),
        Err(ReadError::Read { .. }) => unreachable!(),
        Err(ReadError::Memory) => return Err(AllocError),
    };
    if !rest.is_empty() {
        return Ok(Judgement::Refused(Fault {
            at: taken,
            why: Reason::Trailing,
            inside: None,
        }));
    }
    if text.as_slice() == octets {
        Ok(Judgement::Der)
    } else {
        Ok(Judgement::NotDer)
    }
}
