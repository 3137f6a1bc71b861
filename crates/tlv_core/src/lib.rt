//! Tags, headers, object identifiers, limits, faults, sources and targets: what every other crate of pkder speaks in.
//!
//! Proved here: a header is the one shortest spelling of a tag, a form and a length (X.690 8.1.2, 8.1.3, 10.1); a `Tag`
//! and `Limits` exist exactly for the arguments that their constructors name; the numbers and names of reasons are
//! those of the table in `docs/formats.md`; an `Oid` is its arcs, and is refused exactly where arcs or contents are
//! those of none (X.690 8.19); slices, `FromRead` and `ToWrite` keep the contracts of `Source` and `Target`; a `Sink`
//! has put exactly the octets that it was handed, or tells how many of the first ones are out and puts no more.
#![tactic(auto)]

pub mod der;
pub mod fault;
pub mod header;
pub mod limits;
pub mod oid;
pub mod reason;
pub mod sink;
pub mod source;
mod subidentifier;
pub mod tag;
pub mod target;
pub mod text;
