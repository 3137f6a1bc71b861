//! The fields of a SEQUENCE, one call each, in the order of its ASN.1 (X.690 8.9).
//!
//! A reader of a type is a list of these calls: `begin` with the type's tag, then `due` or `optional` for each field,
//! then `end`. Its proof is a list of the rules of `proofs/BegunSequence.antt` in the same order: `after_` each call
//! that gave a value, which keep in a record what was read so far and what is left, and `answered`, or `stopped_at_`
//! the call that failed, where it returns. A rule on a field is tested between `take` and `ahead`, which `due` is put
//! together from; one on the whole value after `end`. `take`, `due` and `optional` also tell that the text of a field
//! is short; they are the calls of `dependent`, where no field stands before.
ghost use Rattle.std.specs.Prelude.{◌≡◌, ◌<◌, ◌^◌, IfOk, IfSome, IsSome, None, Ok, OnOk, false, length};
ghost use Rattle.x690.specs.DerTexts.{der};
ghost use Rattle.asn_fields.specs.FieldReadings.{read_end};
ghost use Rattle.ber_pull.specs.Hears.{heard};
ghost use Rattle.ber_pull.specs.View.{standing, AsksNoMemory, Repeats, Unmoved, Frame};
ghost use Rattle.asn_fields.specs.Apart.{BeginsAs};
ghost use Rattle.asn_fields.specs.Fields.{AnswersBegin, AnswersDue, AnswersInside, AnswersOptional};
ghost use Rattle.asn_fields.specs.Fields.{AnswersTake, IsInside, LeavesContainer, LeavesWithin};
ghost use Rattle.asn_fields.specs.Fields.{StandsInto, StaysInside, next_of, stands_next};

use crate::dependent::{Independent, NoFields, due_dependent, optional_dependent, take_dependent};
pub use crate::next::{Next, ahead};
use asn_elements::element::Element;
use asn_elements::leaf_reading::expect_tag;
use ber_pull::pull::Pull;
use std::alloc::Global;
use tlv_core::fault::ReadError;
use tlv_core::reason::Reason;
use tlv_core::source::Source;
use tlv_core::tag::Tag;

/// Into the element whose identifier was given: what stands first in it.
///
/// Faults, at the identifier: `WrongTag`, those of `Pull::enter`; those of `Pull::next_tag`.
#[inline(always)]
pub fn begin<R: Source>(pull: &mut Pull<'_, R>, tag: Tag) -> Result<Next, ReadError>
    requires { (standing pull.old).error ≡ None → IsSome (standing pull.old).given }
    ensures frame { Frame pull.old pull.new result }
    ensures repeats { Repeats pull.old pull.new result }
    ensures reads { AnswersBegin pull.old pull.new tag result }
    ensures stands { IfOk result (StandsInto pull.old pull.new) }
    ensures memory { AsksNoMemory pull.old result }
{
    expect_tag(pull, tag)?;
    pull.enter()?;
    let next = ahead(pull)?;
    Ok(next)
}

/// A field that is due, by itself: what stands after it is looked at by `ahead`. A rule on the field is tested between
/// the two.
///
/// Faults: `Missing` at the end of the container, `WrongTag` at another element; those of the field.
pub fn take<R: Source, T: Element>(
    alloc: Global,
    pull: &mut Pull<'_, R>,
    next: Next,
) -> Result<T, ReadError>
    requires fine { (standing pull.old).error ≡ None }
    requires inside { IsInside pull.old next }
    ensures frame { Frame pull.old pull.new result }
    ensures reads { AnswersTake pull.old pull.new next T.type_term T.value result }
    ensures short { IfOk result (λ field. length (der (T.value field)) < 2 ^ 32) }
    ensures begins { IfOk result (λ field. BeginsAs T.type_term (T.value field)) }
    ensures stands { OnOk result (LeavesWithin pull.old pull.new next) }
    ensures memory { stands_next T.type_term next ≡ false → AsksNoMemory pull.old result }
{
    let Independent(field) = take_dependent(alloc, pull, next, &NoFields)?;
    Ok(field)
}

/// A field that is due.
///
/// Faults: those of `take`, and of `Pull::next_tag` after it.
pub fn due<R: Source, T: Element>(
    alloc: Global,
    pull: &mut Pull<'_, R>,
    next: &mut Next,
) -> Result<T, ReadError>
    requires fine { (standing pull.old).error ≡ None }
    requires inside { IsInside pull.old next.old }
    ensures frame { Frame pull.old pull.new result }
    ensures reads { AnswersDue pull.old pull.new next.old next.new T.type_term T.value result }
    ensures short { IfOk result (λ field. length (der (T.value field)) < 2 ^ 32) }
    ensures begins { IfOk result (λ field. BeginsAs T.type_term (T.value field)) }
    ensures stands { OnOk result (StaysInside pull.old pull.new next.old next.new) }
    ensures memory { stands_next T.type_term next.old ≡ false → AsksNoMemory pull.old result }
{
    let Independent(field) = due_dependent(alloc, pull, next, &NoFields)?;
    Ok(field)
}

/// A field that may be absent.
///
/// Faults: those of the field where it stands here, and of `Pull::next_tag` after it.
pub fn optional<R: Source, T: Element>(
    alloc: Global,
    pull: &mut Pull<'_, R>,
    next: &mut Next,
) -> Result<Option<T>, ReadError>
    requires fine { (standing pull.old).error ≡ None }
    requires inside { IsInside pull.old next.old }
    ensures frame { Frame pull.old pull.new result }
    ensures reads { AnswersOptional pull.old pull.new next.old next.new T.type_term T.value result }
    ensures short { IfOk result (λ field. IfSome field (λ f. length (der (T.value f)) < 2 ^ 32)) }
    ensures begins { IfOk result (λ field. IfSome field (λ f. BeginsAs T.type_term (T.value f))) }
    ensures stands { OnOk result (StaysInside pull.old pull.new next.old next.new) }
    ensures absent { stands_next T.type_term next.old ≡ false
        → (result ≡ Ok None) × Unmoved pull.old pull.new × (next.new ≡ next.old) }
{
    let found = optional_dependent(alloc, pull, next, &NoFields)?;
    match found {
        Some(Independent(field)) => Ok(Some(field)),
        None => Ok(None),
    }
}

/// The end of the container.
///
/// Faults: `Extra` at an element that stands there.
pub fn end<R: Source>(pull: &mut Pull<'_, R>, next: Next) -> Result<(), ReadError>
    requires fine { (standing pull.old).error ≡ None }
    requires inside { IsInside pull.old next }
    ensures frame { Frame pull.old pull.new result }
    ensures reads { AnswersInside pull.old pull.new next (λ _ _. read_end (next_of next))
        (heard (λ u. u) result) }
    ensures stands { OnOk result (LeavesContainer pull.old pull.new next) }
    ensures memory { AsksNoMemory pull.old result }
{
    if next.tag.is_some() {
        return Err(pull.refuse(next.at, Reason::Extra, None));
    }
    pull.leave()
}
