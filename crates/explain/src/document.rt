//! A document: what its kind is, where its elements are, what their contents say, and what OCTET STRINGs contain.
pub(crate) mod inside;
pub(crate) mod kinds;
pub(crate) mod moduli;
pub(crate) mod places;
pub(crate) mod values;
