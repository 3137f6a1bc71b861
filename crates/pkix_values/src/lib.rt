//! The types that keys, requests and certificates share (RFC 5280, RFC 2986): algorithm identifiers, names, public
//! keys, attributes, extensions and versions.
//!
//! Each is an `Element` of `asn_elements`. Proved here, for each of them: a reader answers what the plain reading of
//! its type gives for the octets, the first fault included, and its rules with it (no parameters under the algorithms
//! of RFC 8410, the length of a public key under them, and the range of a version); it is written as its DER text,
//! which leaves out a `critical` that is FALSE; `same` is the same value.
#![tactic(auto)]

pub mod algorithm;
pub mod attribute;
pub mod extension;
pub mod identifiers;
pub mod name;
pub mod public_key;
pub mod request_attribute;
pub mod set_of_some;
pub mod version;
