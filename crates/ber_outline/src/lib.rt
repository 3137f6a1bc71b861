//! The outline of a document in BER: its headers, one after another, whatever its type (X.690 8.1).
//!
//! Proved: each header is what the plain reading gives at its place, with its tag, its form, its depth, the length that
//! it announces, and where its contents begin and end. The list is whole: these are all the headers of the outermost
//! element, none left out and none listed twice; or, where reading stops at a fault, all that come before it, and this
//! is the plain reading's fault. Of contents nothing is shown.
#![tactic(auto)]

pub mod announced;
pub mod event;
mod next;
pub mod outline;
