//! Two documents: what differs between them, and whether they hold one private key.
//!
//! `same` and `same_key` are what a program calls. `reading` reads a document and makes its DER encoding, `sameness`
//! has what two are to each other, `difference_list` which elements differ, by the reports of the two DER encodings.
//! `difference_text` has what is shown of these: fields and values in words (`said`), in lines (`text`) or as JSON
//! (`json_object`), written as a report writes them. `laws` has laws on what is shown. `parts` has what makes a private
//! key, `verdict` what two are to each other by that.
//!
//! Proved: the answer is `IsSameness` of `specs/Sameness.antt`, in both directions: two documents are the same exactly
//! where their values are, and where their DER encodings are equal; a refused one is never the same as another. What
//! differs is `differences` of `specs/DifferenceLists.antt`, and the text and the JSON are functions of that; the
//! private values of an attribute are shown all at once, and none of them by its index. Of keys, by `AreCompared` and
//! `AreRefusedKeys` of `specs/KeySameness.antt`: what is compared are the parts that `specs/Parts.antt` has of each
//! document, where both are accepted; two of which one is refused are never one key. Nothing is computed with the
//! parts, and no public key is held against its private one.
#![tactic(auto)]

mod difference_list;
mod difference_text;
mod json_object;
pub mod laws;
mod parts;
pub mod reading;
mod said;
pub mod same;
pub mod same_key;
pub mod sameness;
#[cfg(test)]
mod tests;
pub mod text;
pub mod verdict;
