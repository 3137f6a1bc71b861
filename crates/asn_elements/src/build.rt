//! Why a value isn't made.
ghost use Rattle.std.specs.Prelude.{◌≡◌};
ghost use Rattle.asn_elements.specs.declared.build.BuildError.TheVariants.{Memory};

use std::alloc::{AllocError, AllocFailed};
use thiserror::Error;

/// Why a constructor made no value. The refusals are judged in this order.
#[derive(Clone, Copy, Debug, PartialEq, Eq, Error)]
pub enum BuildError {
    /// The text in DER would be longer than 2^40 octets.
    #[error("the text would be longer than 2^40 octets")]
    TooBig,
    /// The octets are not the contents of a value of the type.
    #[error("not the contents of a value")]
    Bad,
    /// A growth of memory was refused.
    #[error("out of memory")]
    Memory,
}

impl From<AllocError> for BuildError {
    ghost from_gives = { λ _ error. error ≡ Memory };

    fn from(_error: AllocError) -> BuildError {
        BuildError::Memory
    }
}

impl<T: Drop> From<AllocFailed<T>> for BuildError {
    ghost from_gives = { λ _ error. error ≡ Memory };

    fn from(_error: AllocFailed<T>) -> BuildError {
        BuildError::Memory
    }
}
