//! A reader of BER elements over any source of octets, whatever their layout (X.690 clause 8): definite and indefinite
//! lengths, tags of one octet or more, strings in one piece or in segments.
//!
//! Proved here: what each call of `Pull` takes and answers is what the plain reading of the octets gives at its point,
//! the first fault included, however the source hands them out; `Read` is answered only where the source failed at an
//! octet that the answer needed; a `Pull` that failed answers the same error for ever and takes nothing.
//!
//! Inside, an error is kept once, in the state, and a call that failed answers an empty mark, `Halted`: results are
//! small, and where nothing is wrong no room for an error is cleared or moved. The calls of `Pull` answer the error
//! that is kept.
#![tactic(auto)]

mod at_hand;
pub mod bits;
mod contents;
mod header;
pub mod pull;
mod state;
mod string;
