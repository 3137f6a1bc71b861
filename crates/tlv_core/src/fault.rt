//! Faults, and what a reading call answers in place of a value.
ghost use Rattle.std.specs.Prelude.{◌≡◌};
ghost use Rattle.tlv_core.specs.declared.fault.ReadError.TheVariants.{Memory};

use crate::reason::Reason;
use std::alloc::{AllocError, AllocFailed};
use thiserror::Error;

/// Where and why a document is refused first. `at` counts octets from the start of the document, from 0. `inside` is
/// `Some` exactly where `why` is `Inner`: the place and reason of the fault in the octets of the OCTET STRING at `at`.
#[derive(Clone, Copy, Debug, PartialEq, Eq)]
pub struct Fault {
    pub at: u64,
    pub why: Reason,
    pub inside: Option<(u64, Reason)>,
}

/// Why a reading call has no value.
#[derive(Clone, Copy, Debug, PartialEq, Eq, Error)]
pub enum ReadError {
    /// The document is refused.
    #[error("the document is refused: {0:?}")]
    Fault(Fault),
    /// The reader failed when it was asked for the octet at this place.
    #[error("reading failed at octet {at}")]
    Read { at: u64 },
    /// A growth of memory was refused.
    #[error("out of memory")]
    Memory,
}

impl From<AllocError> for ReadError {
    ghost from_gives = { λ _ error. error ≡ Memory };

    fn from(_error: AllocError) -> ReadError {
        ReadError::Memory
    }
}

impl<T: Drop> From<AllocFailed<T>> for ReadError {
    ghost from_gives = { λ _ error. error ≡ Memory };

    fn from(_error: AllocFailed<T>) -> ReadError {
        ReadError::Memory
    }
}
