//! Definitions alone: what BER and DER (X.690) say, and what a type is, as the contracts of every other crate cite it.
//! `specs/` holds all of it; `docs/definitions.md` says in which order to read it. The types of keys and requests are
//! terms of these, in `pkix_definitions`.
//!
//! No function stands here, and nothing is proved here but how plain readings run one after another (`proofs/`); the
//! laws on these definitions are those of `x690_laws`.
#![tactic(auto)]
