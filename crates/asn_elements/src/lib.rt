//! What elements of ASN.1 are, and the leaves among them (X.690 8, 10, 11).
//!
//! `DerText` is what has a text in DER, `Element` what can be read as well, from any source and in any layout of BER.
//! There are the leaves `Bool`, `Int`, `Null`, `Bits`, `Octets`, `Text` and `tlv_core`'s `Oid`. `ImplicitText` and
//! `ImplicitElement` are what has a text and can be read under a tag in place of its own (X.690 8.14.3): `Bits`, and
//! `asn_lists`' `SetOf`. `Implicit<N, T>` is such a value under the context-specific tag [N]. `Containing` is an OCTET
//! STRING that contains an element.
//!
//! Values of ASN.1's other types stand in three crates on this one: SEQUENCEs by their fields, rules, and `Tagged` for
//! explicit tags in `asn_fields`, `List`, `ListOfSome` and `SetOf` in `asn_lists`, and `Any`, an open value, in
//! `asn_open_values`. `tests/rows/values.tsv` has the rows of all four.
//!
//! Proved here, for each of them: `put` writes the text, `size` is its length, `octet` its octets, `der_text` the
//! whole. A reader answers what the plain reading of its type (`x690`) gives for the octets taken: that value, or the
//! first fault; a failed read only where that octet was needed; where memory ran out, no octet taken that wasn't. The
//! same under each implicit tag: the text is the value's under that tag, an element is read as the type under it, and
//! exactly elements of that tag are of it. `from_contents` and `from_slice` refuse exactly what they name. `same` is
//! proved to be the same value. By the laws of `x690_laws` a value that was read is spelled by exactly the octets that
//! were taken, and no spelling is refused. `whole` reads one element from the start of any source, and octets that are
//! one element and nothing else, as the plain reading says. The lemmas on texts and readings of members stand here too,
//! since lists, sets and open values share them.
#![tactic(auto)]

pub mod bits;
pub mod boolean;
pub mod boxed;
pub mod build;
pub mod calls;
pub mod containing;
pub mod der_text;
pub mod element;
pub mod framing;
pub mod implicit;
pub mod in_der;
pub mod integer;
pub mod keep;
mod leaf;
pub mod leaf_reading;
pub mod null;
pub mod object_identifier;
pub mod octets;
pub mod tags;
pub mod text;
pub mod texts;
pub mod whole;
