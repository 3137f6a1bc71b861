//! Private keys in their containers: OneAsymmetricKey, EncryptedPrivateKeyInfo and AsymmetricKeyPackage of RFC 5958, in
//! any layout of BER.
//!
//! What privateKey contains goes by the algorithm: an ECPrivateKey, a CurvePrivateKey, an RSAPrivateKey, read as a
//! document of its own and written in its DER text; or octets that are carried. `key_head` has the fields by which the
//! others go, `head_in_der` finds them in octets in DER, `inner_keys` says which key stands under which algorithm, and
//! what it has to match, `key_bits` what the bits of a public key are, `private_key` and `public_key` have those other
//! fields, `one_asymmetric_key` puts them together.
//!
//! Proved here: a `OneAsymmetricKey`, an `EncryptedKey` and a `KeyPackage` are read as the plain reading of their types
//! says, the rules on what is inside and the first fault, with its place inside, included; written as their DER texts;
//! `same` is the same value; the readers give the parts that they name.
#![tactic(auto)]

pub mod encrypted_key;
mod head_in_der;
mod inner_keys;
mod key_bits;
mod key_head;
pub mod key_package;
pub mod one_asymmetric_key;
pub mod private_key;
mod public_key;
