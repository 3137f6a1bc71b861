//! Certification requests (PKCS #10, RFC 2986): `pk_documents` reads and writes them as documents.
//!
//! Proved here: `CertificationRequest` and `CertificationRequestInfo` are read as the plain reading of their types
//! says, with their rules and the first fault; written as their DER texts; `same` is the same value. Attributes that
//! are absent and attributes of which there are none are two values.
#![tactic(auto)]

pub mod info;
mod reading;
pub mod request;
