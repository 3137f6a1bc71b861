//! Why a call has nothing to answer.
ghost use Rattle.std.specs.Prelude.{◌≡◌};
ghost use Rattle.pkder_c.specs.Refusals.{first_refusal, second_refusal, unread_refusal};

use tlv_core::fault::{Fault, ReadError};

/// Why there is nothing to answer.
#[derive(Clone, Copy, Debug, PartialEq, Eq)]
pub enum Refusal {
    /// No kind or no part has the number, or the limits are none.
    Call,
    /// The document is refused.
    Fault(Fault),
    /// A growth of memory was refused.
    Memory,
}

/// Why two documents are not compared.
#[derive(Clone, Copy, Debug, PartialEq, Eq)]
pub enum PairRefusal {
    /// No kind has the number, or the limits are none.
    Call,
    /// The first document is refused.
    First(Fault),
    /// The first one is a document, and the second one is refused.
    Second(Fault),
    /// A growth of memory was refused.
    Memory,
}

/// It is so by the first document.
pub fn first_refused(refusal: &Refusal) -> PairRefusal
    ensures { result ≡ first_refusal refusal.now }
{
    match refusal {
        Refusal::Call => PairRefusal::Call,
        Refusal::Fault(fault) => PairRefusal::First(*fault),
        Refusal::Memory => PairRefusal::Memory,
    }
}

/// It is so by the second document.
pub fn second_refused(refusal: &Refusal) -> PairRefusal
    ensures { result ≡ second_refusal refusal.now }
{
    match refusal {
        Refusal::Call => PairRefusal::Call,
        Refusal::Fault(fault) => PairRefusal::Second(*fault),
        Refusal::Memory => PairRefusal::Memory,
    }
}

/// Why a document was not read. Reading octets in memory fails for want of memory alone.
pub fn unread(error: &ReadError) -> Refusal
    ensures { result ≡ unread_refusal error.now }
{
    match error {
        ReadError::Fault(fault) => Refusal::Fault(*fault),
        ReadError::Read { .. } | ReadError::Memory => Refusal::Memory,
    }
}
