//! SEQUENCEs by their fields (X.690 8.9), and explicit tags (8.14).
//!
//! A SEQUENCE is kept as the list of its fields, in the order of the ASN.1: a type round that list has names for them
//! (`sequence::SequenceFields`), and `sequence::Sequence` of it is the SEQUENCE, with its text and its reader. In the
//! list stand
//!
//! - `required::Required`, `optional::Optional` and `default_false::DefaultFalse`, whose types say all;
//! - last, one field whose type or rule goes by the earlier ones: `dependent::Dependent` or, where it may be absent,
//!   `optional_dependent::OptionalDependent`, of what stands in `defined_by`, `ruled_behind` and `ruled_containing`,
//!   which nest;
//! - `Optional<refused::Refused<K>>`, a field that may not stand at all.
//!
//! `ruled::Ruled` is a value of any type with a rule on it, `ruled_sequence::RuledSequence` a SEQUENCE with one on its
//! fields together, `tagged::Tagged` one after an explicit tag. `sequence`
//! reads a SEQUENCE by its list, `sequence_text` writes one, and `fields` has the calls beneath: they begin a SEQUENCE,
//! read its fields and end it. `next` is what stands next in it.
//!
//! Proved here, once for all types: what `Sequence` and the others read is what the plain reading of the type that
//! their list says gives for the octets taken, the first fault included, also that of a rule at its place; a value
//! keeps what its rules say; what is written is the DER text of the value, by its length, whole and octet by octet; and
//! two values with one text are the same, as long as no field that may be absent begins as what may follow it, which is
//! computed from the types (`apart`).
#![tactic(auto)]

pub mod default_false;
pub mod defined_by;
pub mod dependent;
pub mod either;
pub mod field_list;
pub mod fields;
pub mod next;
pub mod optional;
pub mod optional_dependent;
pub mod refused;
pub mod required;
pub mod ruled;
pub mod ruled_behind;
pub mod ruled_containing;
pub mod ruled_sequence;
pub mod sequence;
pub mod sequence_text;
pub mod tagged;
