//! Elements by themselves, in no container: at the start of a source, and octets that are one element and nothing else.
ghost use Rattle.std.specs.Prelude.{◌≡◌, ◌<◌, ◌^◌, MatchResult, IfErr, IfOk, false, length};
ghost use Rattle.x690.specs.DerTexts.{der};
ghost use Rattle.asn_elements.specs.Whole.{HaltsInside, IsFailedRead, IsValueInside, ReadsElement, TellsInsideOf};

use crate::element::Element;
use ber_pull::pull::Pull;
use std::alloc::Global;
use tlv_core::fault::{Fault, ReadError};
use tlv_core::limits::Limits;
use tlv_core::reason::Reason;
use tlv_core::source::Source;

/// Reads the element at the start of a source, and answers it with the number of octets taken; not one past it is
/// taken.
///
/// Faults: the first one of the octets as a document of the type, with its place in octets from the start.
pub fn read_element<R: Source, T: Element>(
    alloc: Global,
    src: &mut R,
    limits: Limits,
) -> Result<(T, u64), ReadError>
    requires { R.has_failed src.old ≡ false }
    ensures reads { ReadsElement limits T.type_term T.value (R.remaining src.old)
        (R.remaining src.new) result }
    ensures short { IfOk result (λ read. length (der (T.value read.0)) < 2 ^ 32) }
    // What is inside a fault, of any source.
    ensures inside { IfErr result TellsInsideOf }
    // A failed read is answered where the source failed, and nowhere else.
    ensures read { MatchResult result (λ _. R.has_failed src.new ≡ false)
        (IsFailedRead (R.has_failed src.new)) }
    ensures frame { R.frame src.new ≡ R.frame src.old }
{
    let mut pull = Pull::new(src, limits);
    let Some(_) = pull.next_tag()? else {
        unreachable!()
    };
    let value = T::read(alloc, &mut pull)?;
    let taken = pull.at();
    Ok((value, taken))
}

/// The element that the octets are, and nothing else.
///
/// Faults: those of `read_element`; `Trailing` at the first octet after it.
pub fn read_whole<T: Element>(alloc: Global, octets: &[u8], limits: Limits) -> Result<T, ReadError>
    ensures inside { MatchResult result (λ x. IsValueInside limits T.type_term octets.now
        (T.value x)) (HaltsInside limits T.type_term octets.now) }
    ensures short { IfOk result (λ x. length (der (T.value x)) < 2 ^ 32) }
{
    let mut rest = octets;
    let (value, taken) = read_element::<&[u8], T>(alloc, &mut rest, limits)?;
    if !rest.is_empty() {
        return Err(ReadError::Fault(Fault {
            at: taken,
            why: Reason::Trailing,
            inside: None,
        }));
    }
    Ok(value)
}
