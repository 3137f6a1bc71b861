//! The elements of a document by the names that they have in its type, and read by that type.
//!
//! `element` says what is shown of an element, `naming` goes over the headers of a document and names one element after
//! another: each by the field, member or segment that it is in the container around it (`level`), with its type
//! (`resolved`). `shaped` reads an element by its type, which is data too, and keeps its DER text; `judgement` says
//! whether octets are the DER text of a value of the type.
#![tactic(auto)]

pub mod element;
pub mod judgement;
mod level;
pub mod naming;
mod naming_state;
mod resolved;
pub mod shaped;
