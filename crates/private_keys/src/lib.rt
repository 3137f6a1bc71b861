//! Private keys, as they stand alone or inside a privateKey of PKCS #8.
//!
//! Proved here: an `EcPrivateKey` (RFC 5915), a `CurveKey` (CurvePrivateKey of RFC 8410) and an `RsaPrivateKey` (RFC
//! 8017) with its `OtherPrimeInfo`s are read as the plain readings of their types say, their rules and the first fault
//! included: the length that goes with the curve that an EC key names, and the version of an RSA key; written as their
//! DER texts; `same` is the same value.
//!
//! `rsa_numbers` and `other_primes` are parts of the list of an RSA key's fields. Each is a type of its own, so that
//! what stands above rests on one name and not on all that it is put together of. `number_reading` reads one number.
#![tactic(auto)]

pub mod curve_key;
pub mod curves;
pub mod ec_private_key;
mod number_reading;
pub mod other_prime_info;
mod other_primes;
mod rsa_numbers;
pub mod rsa_private_key;
