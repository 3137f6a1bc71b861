//! Keys, and what they are for.
ghost use Rattle.std.specs.Prelude.{◌≡◌, ◌++◌, OnOk, string_bytes};
ghost use Rattle.pkcs8.specs.Seen.{key_seen};
ghost use Rattle.pk_show.specs.Shown.{algorithm_lines, ec_lines, encrypted_lines, key_lines, package_lines};
ghost use Rattle.pk_show.specs.Shown.{private_key_lines, public_key_lines};

use crate::attributes::push_attributes;
use crate::lines::{
    push_bits_line, push_list, push_number_line, push_octets_line, push_oid_line,
    push_optional_bits_line, push_optional_oid_line, push_parameters_line,
};
use crate::shown::Shown;
use asn_elements::der_text::DerText;
use pkcs8::encrypted_key::EncryptedKey;
use pkcs8::key_package::KeyPackage;
use pkcs8::one_asymmetric_key::OneAsymmetricKey;
use pkcs8::private_key::PrivateKey;
use pkix_values::algorithm::AlgorithmIdentifier;
use pkix_values::public_key::SubjectPublicKeyInfo;
use private_keys::ec_private_key::EcPrivateKey;
use std::alloc::{AllocError, Global};

/// The lines of an algorithm and its parameters, by these labels.
#[tactic(auto, unfolding(crate::specs::Shown::algorithm_lines))]
pub(crate) fn push_algorithm(
    alloc: Global,
    text: &mut String,
    label: &str,
    parameters_label: &str,
    algorithm: &AlgorithmIdentifier,
) -> Result<(), AllocError>
    ensures { OnOk result (string_bytes text.new ≡ string_bytes text.old
        ++ algorithm_lines label.now parameters_label.now algorithm.now) }
{
    push_oid_line(text, label, algorithm.algorithm())?;
    push_parameters_line(alloc, text, parameters_label, algorithm.parameters())
}

/// The lines of a public key; those of its algorithm by these labels.
#[tactic(auto, unfolding(crate::specs::Shown::public_key_lines))]
pub(crate) fn push_public_key(
    alloc: Global,
    text: &mut String,
    label: &str,
    parameters_label: &str,
    key: &SubjectPublicKeyInfo,
) -> Result<(), AllocError>
    ensures { OnOk result (string_bytes text.new ≡ string_bytes text.old
        ++ public_key_lines label.now parameters_label.now key.now) }
{
    push_algorithm(alloc, text, label, parameters_label, key.algorithm())?;
    push_bits_line(alloc, text, "public key: ", key.key())
}

/// The lines of an EC private key, by these labels.
#[tactic(auto, unfolding(crate::specs::Shown::ec_lines))]
pub(crate) fn push_ec_key(
    alloc: Global,
    text: &mut String,
    key_label: &str,
    curve_label: &str,
    public_label: &str,
    key: &EcPrivateKey,
) -> Result<(), AllocError>
    ensures { OnOk result (string_bytes text.new ≡ string_bytes text.old
        ++ ec_lines key_label.now curve_label.now public_label.now key.now) }
{
    push_octets_line(text, key_label, key.key().octets().len() as u64)?;
    push_optional_oid_line(text, curve_label, key.curve())?;
    push_optional_bits_line(alloc, text, public_label, key.public_key())
}

/// The lines of an encrypted private key.
#[tactic(auto, unfolding(crate::specs::Shown::encrypted_lines))]
pub(crate) fn push_encrypted_key(
    alloc: Global,
    text: &mut String,
    key: &EncryptedKey,
) -> Result<(), AllocError>
    ensures { OnOk result (string_bytes text.new ≡ string_bytes text.old
        ++ encrypted_lines key.now) }
{
    push_algorithm(alloc, text, "algorithm: ", "parameters: ", key.algorithm())?;
    push_octets_line(text, "encrypted key: ", key.octets().octets().len() as u64)
}

/// The lines of what the octets of a private key contain.
#[tactic(auto, unfolding(crate::specs::Shown::private_key_lines))]
fn push_private_key(alloc: Global, text: &mut String, key: PrivateKey<'_>) -> Result<(), AllocError>
    ensures { OnOk result (string_bytes text.new ≡ string_bytes text.old
        ++ private_key_lines (key_seen key.entry)) }
{
    match key {
        PrivateKey::Ec(key) => push_ec_key(
            alloc,
            text,
            "private key: ec, ",
            "inner curve: ",
            "inner public key: ",
            key,
        ),
        PrivateKey::Curve(key) => {
            push_octets_line(
                text,
                "private key: curve, ",
                key.key().octets().len() as u64,
            )
        }
        PrivateKey::Rsa(key) => push_octets_line(text, "private key: rsa, ", key.size()),
        PrivateKey::Carried(octets) => {
            push_octets_line(text, "private key: carried, ", octets.octets().len() as u64)
        }
    }
}

impl Shown for OneAsymmetricKey {
    ghost lines = { key_lines };

    #[tactic(auto, unfolding(crate::specs::Shown::key_lines))]
    fn push_lines(&self, alloc: Global, text: &mut String) -> Result<(), AllocError> {
        push_number_line(text, "version: ", usize::from(self.version()))?;
        push_algorithm(alloc, text, "algorithm: ", "parameters: ", self.algorithm())?;
        push_private_key(alloc, text, self.private_key())?;
        push_attributes(alloc, text, self.attributes())?;
        push_optional_bits_line(alloc, text, "public key: ", self.public_key())
    }
}

/// The lines of private keys.
#[tactic(auto, unfolding(crate::specs::Shown::package_lines))]
pub(crate) fn push_package(
    alloc: Global,
    text: &mut String,
    keys: &KeyPackage,
) -> Result<(), AllocError>
    ensures { OnOk result (string_bytes text.new ≡ string_bytes text.old
        ++ package_lines keys.now) }
{
    let keys = keys.keys();
    push_number_line(text, "keys: ", keys.len())?;
    push_list(alloc, text, keys)
}
