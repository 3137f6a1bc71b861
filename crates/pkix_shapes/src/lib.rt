//! The types of keys and certification requests as data, with the names of their fields, by which an element of a
//! document is called.
//!
//! `shape` says what a type is, `documents` has the type of each kind of document, made of `keys`, `requests` and
//! `shared`: there a kind's types and names stand once, in the order of their ASN.1 (`docs/formats.md`). `due` says
//! which field an element belongs to, `extensions` of which type what stands in an extension is.
//!
//! Proved: each type is the type term of `pkix_definitions`, its rules apart; exactly its private parts are marked; the
//! field that an element belongs to is the one that the fault grammar of `x690` has there, and its name the one that
//! stands in the type; the path to an element at fault is a path of that grammar (`laws`). That the names are those of
//! the ASN.1 no proof can see: `tools/pages/shape_names.py` compares them with `docs/formats.md`.
#![tactic(auto)]

pub mod documents;
pub mod due;
pub mod extensions;
pub mod identifiers;
mod keys;
pub mod laws;
pub mod public_keys;
mod requests;
pub mod shape;
mod shared;
mod universal;
