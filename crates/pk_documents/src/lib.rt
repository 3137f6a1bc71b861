//! Documents of keys and certification requests, read, checked and written in their one DER text (X.690, RFC 5280, RFC
//! 5915, RFC 2986, RFC 5958), from any source and to any target.
//!
//! `kind` has the kinds, and the table of what each is called. `document` has a document of any of them with its reader
//! and writer, `normalise` reads one and writes its text, `encoding` answers that of one in memory, `check` tells
//! whether one is in DER. Each is what `asn_documents` does with a value of the kind's type, so that a further kind is
//! a row of the table and a line in each. `signed_part` writes what the signature of a certification request covers,
//! `request_part` any part of one.
//!
//! Proved, of each kind and for every input: exactly the octets that spell one document are taken, the answer is the
//! one that the definitions give, the first fault included, and a fault says that nothing which the input begins with
//! spells a document of the kind. Normalising twice is once, and two inputs get equal texts exactly where their values
//! are the same. The types of all kinds are as the laws ask, and each word and number of the table means its kind alone
//! (`laws`).
#![tactic(auto)]

pub mod check;
pub mod document;
pub mod encoding;
pub mod kind;
pub mod laws;
pub mod normalise;
pub mod request_part;
pub mod signed_part;
