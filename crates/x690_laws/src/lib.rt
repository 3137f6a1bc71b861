//! The laws on the definitions of `x690`.
//!
//! Each law is the contract of a public function without parameters that does nothing: what it ensures is proved once,
//! over all type terms, so that a reader owes one equation with the plain reading (`x690`, `specs/Reads.antt`) and has
//! the rest from here. `proofs/Rows*.antt` have elements with their answers, closed by computing; those of keys and
//! requests stand in `pkix_definitions`.
#![tactic(auto)]

pub mod answers;
pub mod faults;
pub mod growth;
pub mod layouts;
pub mod reading;
pub mod steps;
pub mod types;
pub mod values;
