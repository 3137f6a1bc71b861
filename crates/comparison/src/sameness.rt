//! What two documents are to each other.
use tlv_core::fault::Fault;

/// What two documents are to each other.
#[derive(Clone, Copy)]
pub enum Sameness {
    /// Both are accepted, and are the same: their DER encodings are equal.
    Same,
    /// Both are accepted, and are not the same.
    Another,
    /// The first one is refused, or the second one, or both, each with the fault that `check` gives.
    Refused(Option<Fault>, Option<Fault>),
}
