//! The report of a document: what `check` answers, its elements a line each, and where a fault lies.
//!
//! A report is made of a short record, `disclosed`: what `check` answers, how many octets the file has, the front of
//! the document, the path to what is refused and its class, what else the file may be and what the octets after the
//! document are. The front (`listing::front`) of an accepted document is all of it; of a refused one its first octets,
//! as far as they say one of a few things.
//!
//! `explained` makes the report of the record, by subject: `document` has where elements are, what of their contents is
//! shown, and what OCTET STRINGs contain; `listing` the lines of the front, and why an element isn't in DER; `fault`
//! what a fault is about; `guess` what else the file may be; `notes` what other standards say to the document, and
//! `profile` which of these are told.
//! `kinds` finds the kind of a document. `written` has the report as it is written, `laws` what is proved of all
//! reports.
//!
//! `received` is no report: it has the octets of a certification request that its signature is over, as they came.
#![tactic(auto)]

mod disclosed;
mod document;
pub mod explained;
mod fault;
mod guess;
pub mod kinds;
pub mod laws;
mod listing;
mod notes;
pub mod profile;
pub mod received;
pub mod version;
pub mod written;
