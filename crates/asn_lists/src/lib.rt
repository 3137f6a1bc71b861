//! SEQUENCE OF and SET OF (X.690 8.10, 8.12, 11.6).
//!
//! Proved here, for `List`, `ListOfSome` and `SetOf`: `put` writes the DER text, `size` is its length, `octet` its
//! octets; the members of a `SetOf` ascend as 11.6 has it, equal ones kept. A reader answers what the plain reading of
//! its type gives for the octets taken: a value that is the same up to the order in SET OF, or the first fault; a
//! failed read only where that octet was needed; where memory ran out, no octet taken that wasn't. `from_items` refuses
//! exactly what it names. `same` is the same value, a SET OF as a multiset.
#![tactic(auto)]

mod in_der;
pub mod list;
pub mod list_of_some;
mod members;
mod order;
mod row;
pub mod set_of;
