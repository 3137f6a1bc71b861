//! The types of private keys, certification requests and their parts (RFC 5958, 5915, 8410, 2986, 5280, 8017) as type
//! terms of `x690`, and their rules.
//!
//! They are definitions, in `specs/`: the contracts of their readers cite them, and `docs/definitions.md` says in which
//! order to read them. Proved here: they are as the laws of `x690_laws` ask of a type (`documents`).
//! `proofs/Rows*.antt` have documents with their answers, closed by computing.
#![tactic(auto)]

pub mod documents;
pub mod identifiers;
