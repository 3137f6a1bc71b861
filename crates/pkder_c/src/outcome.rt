//! Outcomes as C sees them.
ghost use Rattle.std.specs.Prelude.{◌≡◌};
ghost use Rattle.pkder_c.specs.Outcomes.{accepted_outcome, answered_outcome, checked_outcome, compared_outcome};
ghost use Rattle.pkder_c.specs.Outcomes.{inside_of, refused_outcome, reported_outcome, too_small_outcome};
ghost use Rattle.pkder_c.specs.Outcomes.{uncompared_outcome, unreported_outcome};

use crate::refusal::{PairRefusal, Refusal};
use reports::report::Answer;
use tlv_core::reason::Reason;

/// What comes of a call. Numbers that a status doesn't use are 0.
#[repr(C)]
#[derive(Clone, Copy, Debug, PartialEq, Eq)]
pub struct PkderOutcome {
    /// 0 accepted, 1 a fault, 2 no room, 3 out of memory, 4 a bad call, 5 accepted and not in DER, 6 reported, 7 no
    /// room for a report, 8 two documents that are not the same.
    pub status: u32,
    /// Of a fault: the number of its reason, 1 to 27.
    pub reason: u32,
    /// Of a fault in the octets of an OCTET STRING: the number of its reason there.
    pub inside_reason: u32,
    /// Of a fault in one of two documents: 1 in the first one, 2 in the second one.
    pub which: u32,
    /// Of a fault: its place, in octets from the start of the document. Not in DER: the first place that is another one
    /// in the DER text.
    pub at: u64,
    /// Of a fault in the octets of an OCTET STRING: its place there.
    pub inside_at: u64,
    /// Accepted, no room or not in DER: the octets of the document.
    pub taken: u64,
    /// Accepted, reported or no room: the octets of what is written, or would be.
    pub size: u64,
}

/// The document is accepted.
pub fn accepted(taken: u64, size: u64) -> PkderOutcome
    ensures { result ≡ accepted_outcome taken size }
{
    PkderOutcome {
        status: 0,
        reason: 0,
        inside_reason: 0,
        which: 0,
        at: 0,
        inside_at: 0,
        taken,
        size,
    }
}

/// It is accepted, and there is no room for what is to be written.
pub fn too_small(taken: u64, size: u64) -> PkderOutcome
    ensures { result ≡ too_small_outcome taken size }
{
    PkderOutcome {
        status: 2,
        ..accepted(taken, size)
    }
}

/// It is checked, by the place where it isn't in DER.
pub fn checked(taken: u64, place: Option<u64>) -> PkderOutcome
    ensures { result ≡ checked_outcome taken place }
{
    match place {
        None => accepted(taken, 0),
        Some(at) => PkderOutcome {
            status: 5,
            at,
            ..accepted(taken, 0)
        },
    }
}

/// It is refused.
pub fn refused(refusal: &Refusal) -> PkderOutcome
    ensures { result ≡ refused_outcome refusal.now }
{
    let none = accepted(0, 0);
    match refusal {
        Refusal::Fault(fault) => {
            let (inside_at, inside_reason) = inside_numbers(fault.inside);
            PkderOutcome {
                status: 1,
                reason: u32::from(fault.why.number()),
                inside_reason,
                at: fault.at,
                inside_at,
                ..none
            }
        }
        Refusal::Memory => PkderOutcome { status: 3, ..none },
        Refusal::Call => PkderOutcome { status: 4, ..none },
    }
}

/// Two documents are compared, by whether they are the same.
pub fn compared(same: bool) -> PkderOutcome
    ensures { result ≡ compared_outcome same }
{
    if same {
        return accepted(0, 0);
    }
    PkderOutcome {
        status: 8,
        ..accepted(0, 0)
    }
}

/// They are not compared.
pub fn uncompared(refusal: &PairRefusal) -> PkderOutcome
    ensures { result ≡ uncompared_outcome refusal.now }
{
    match refusal {
        PairRefusal::Call => refused(&Refusal::Call),
        PairRefusal::First(fault) => PkderOutcome {
            which: 1,
            ..refused(&Refusal::Fault(*fault))
        },
        PairRefusal::Second(fault) => PkderOutcome {
            which: 2,
            ..refused(&Refusal::Fault(*fault))
        },
        PairRefusal::Memory => refused(&Refusal::Memory),
    }
}

/// It is reported, by the answer of `check`.
pub fn reported(taken: u64, answer: Answer, size: u64) -> PkderOutcome
    ensures { result ≡ reported_outcome taken answer size }
{
    PkderOutcome {
        status: 6,
        size,
        ..answered(taken, answer)
    }
}

/// There is no room for its report.
pub fn unreported(taken: u64, answer: Answer, size: u64) -> PkderOutcome
    ensures { result ≡ unreported_outcome taken answer size }
{
    PkderOutcome {
        status: 7,
        size,
        ..answered(taken, answer)
    }
}

/// What `check` says of it.
fn answered(taken: u64, answer: Answer) -> PkderOutcome
    ensures { result ≡ answered_outcome taken answer }
{
    match answer {
        Answer::Der => checked(taken, None),
        Answer::NotDer(at) => checked(taken, Some(at)),
        Answer::Refused(fault) => refused(&Refusal::Fault(fault)),
    }
}

/// The place and the number of the reason inside, 0 and 0 where there is none.
fn inside_numbers(inside: Option<(u64, Reason)>) -> (u64, u32)
    ensures { result ≡ inside_of inside }
{
    match inside {
        None => (0, 0),
        Some((at, why)) => (at, u32::from(why.number())),
    }
}
