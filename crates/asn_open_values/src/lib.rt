//! Open values (X.690 8.15): elements that stand where any type may.
//!
//! An `Any` holds its text in DER, with the members of each SET inside in their order, or the contents of an OBJECT
//! IDENTIFIER.
//!
//! Proved here: a reader answers what the plain reading of an open value gives for the octets taken, whatever the
//! layout: the text of a value that is the same up to the order in SET OF, or the first fault; a failed read only where
//! that octet was needed; where memory ran out, no octet taken that wasn't; that text says the value again, so `same`
//! is the same value; `put`, `size` and `octet` are the text's.
#![tactic(auto)]

pub mod any;
mod in_der;
mod open_form;
pub mod open_value;
mod texts;
