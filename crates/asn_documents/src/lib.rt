//! One value of any type (`Element`) read from any source, written, normalised or checked to be in DER (X.690 8, 10,
//! 11).
//!
//! `document` reads one value and writes one, `normalise` does both. `check` tells whether the octets of a value are
//! its DER text, or where they differ first: it keeps them as they come (`keeping`) and compares as it writes
//! (`difference`). `whole` asks besides that nothing stands after the value.
//!
//! Proved, of every type and every source and target: exactly the octets that spell one value are taken, the answer is
//! the one that the definitions give, the first fault included, and a failed read or write is answered where the source
//! or the target failed, and nowhere else. Of a lawful type besides: what is normalised reads back as that value and
//! is normalised to itself, two inputs get equal texts exactly where their values are the same, and a fault says that
//! nothing which the input begins with spells a value. Where something is refused before it is read, nothing is
//! written; where a write fails, it is told how many of the first octets are out. `check` answers no place exactly
//! where the octets are the DER text, and else the least place where the two differ, which lies in both.
#![tactic(auto)]

pub mod check;
pub mod difference;
pub mod in_der;
mod keeping;
pub mod normalise;
pub mod value;
pub mod whole;
