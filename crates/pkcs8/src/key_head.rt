//! version and privateKeyAlgorithm of a OneAsymmetricKey, by which its other fields go (RFC 5958 section 2).
ghost use Rattle.std.specs.Option.{option_map};
ghost use Rattle.std.specs.Prelude.{◌≡◌, ◌∷◌, [], refl};
ghost use Rattle.pkix_definitions.proofs.Fairs.{fair_ec_parameters};
ghost use Rattle.pkix_definitions.proofs.LawfulTypes.{honest_ec_parameters};
ghost use Rattle.pkix_definitions.specs.Identifiers.{ec_public_key, rsa_encryption};
ghost use Rattle.pkix_definitions.specs.Rules.{container_curve, ec_parameters_rule};
ghost use Rattle.pkix_values.specs.Algorithms.{algorithm_of};
ghost use Rattle.pkcs8.specs.HeadInDer.{key_types};
ghost use Rattle.pkcs8.specs.Keys.{curve_octets, identifier_of};
ghost use Rattle.x690.specs.Lists.{one_of};
ghost use Rattle.x690.specs.TypeTerms.{EndOfFields, Fields};
ghost use Rattle.x690.specs.Values.{leaf_at};
ghost use Rattle.asn_fields.specs.Listings.{through};

use crate::head_in_der::is_ec;
use asn_elements::in_der::element_in_der;
use asn_elements::tags::universal_tag;
use asn_fields::fields::Next;
use asn_fields::ruled::{Ruled, Rules};
use asn_fields::sequence::{FieldsText, FirstFields, Required};
use asn_open_values::any::Any;
use ber_pull::pull::Pull;
use pkix_definitions::identifiers::{EC_PUBLIC_KEY, RSA_ENCRYPTION};
use pkix_values::algorithm::AlgorithmIdentifier;
use pkix_values::identifiers::has_contents;
use pkix_values::version::Version;
use std::alloc::Global;
use tlv_core::fault::ReadError;
use tlv_core::limits::Limits;
use tlv_core::oid::Oid;
use tlv_core::reason::Reason;
use tlv_core::sink::{Sink, WriteError};
use tlv_core::source::Source;
use tlv_core::target::Target;

/// Fields that begin with the version and the algorithm of a private key.
pub trait NamesKey: FieldsText {
    /// The types of the fields after them.
    ghost behind: { Fields };

    /// These two.
    fn head(&self) -> &KeyHead
        ensures version { leaf_at (0 ∷ []) (Self.values self.now) ≡ result.now.0.0.0.number ∷ [] }
        ensures algorithm { leaf_at (1 ∷ 0 ∷ []) (Self.values self.now)
            ≡ algorithm_of result.now.0.1.0.value }
        ensures curve { container_curve (Self.values self.now)
            ≡ container_curve (⟦<KeyHead as FieldsText>⟧.values result.now) };

    /// They are of these types, and then of those.
    ghost headed: { Self.FieldsText.listing.types EndOfFields ≡ key_types behind };
}

/// Whether it is version 0, v1.
pub fn is_version_0(number: u8) -> bool
    ensures { result ≡ one_of (number ∷ []) ((0 ∷ []) ∷ []) }
{
    number == 0
}

/// Whether it is id-ecPublicKey (RFC 5480 section 2.1.1).
pub fn is_ec_public_key(algorithm: &Oid) -> bool
    ensures { result ≡ one_of algorithm.now (ec_public_key ∷ []) }
{
    has_contents(algorithm, EC_PUBLIC_KEY)
}

/// Whether it is rsaEncryption (RFC 8017 A.1).
pub fn is_rsa_encryption(algorithm: &Oid) -> bool
    ensures { result ≡ one_of algorithm.now (rsa_encryption ∷ []) }
{
    has_contents(algorithm, RSA_ENCRYPTION)
}

/// In a private key id-ecPublicKey has parameters, and they name its curve.
#[derive(Drop)]
pub struct InKeys;

impl Rules<AlgorithmIdentifier> for InKeys {
    ghost rule = { ec_parameters_rule };

    ghost fair = { fair_ec_parameters };

    ghost honest = { honest_ec_parameters };

    ghost alone = { λ earlier. refl };

    fn judge(value: &AlgorithmIdentifier) -> Option<Reason> {
        if !is_ec_public_key(value.algorithm()) {
            return None;
        }
        match named_in(value.parameters()) {
            Some(_) => None,
            None => Some(Reason::Parameters),
        }
    }

    fn passes_in_der(octets: &[u8]) -> bool {
        let Some((contents, _)) = element_in_der(octets, universal_tag(16), true) else {
            return false;
        };
        let Some((algorithm, parameters)) = element_in_der(contents, universal_tag(6), false) else {
            return false;
        };
        if !is_ec(algorithm) {
            return true;
        }
        let Some((_curve, _)) = element_in_der(parameters, universal_tag(6), false) else {
            return false;
        };
        true
    }
}

/// The identifier that the parameters are, if they are one.
fn named_in(parameters: Option<&Any>) -> Option<&Oid>
    ensures { option_map (λ r. r.now) result
        ≡ identifier_of (option_map (λ r. r.now) parameters.entry) }
{
    match parameters {
        Some(parameters) => parameters.oid(),
        None => None,
    }
}

/// The algorithm of a private key.
pub type KeyAlgorithm = Ruled<AlgorithmIdentifier, InKeys>;

/// version, privateKeyAlgorithm.
type Listed = (Required<Version<0, 1>>, Required<KeyAlgorithm>);

/// version, privateKeyAlgorithm.
#[derive(Drop)]
pub struct KeyHead(Listed);

impl KeyHead {
    /// The version's number.
    pub fn version(&self) -> u8
        ensures { result ≡ self.now.0.0.0.number }
    {
        self.0.0.0.number()
    }

    /// The algorithm, with its parameters.
    pub fn algorithm_identifier(&self) -> &AlgorithmIdentifier
        ensures { result.now ≡ self.now.0.1.0.value }
    {
        self.0.1.0.value()
    }

    /// The algorithm.
    pub fn algorithm(&self) -> &Oid
        ensures { result.now ≡ algorithm_of self.now.0.1.0.value }
    {
        self.algorithm_identifier().algorithm()
    }

    /// The curve, which id-ecPublicKey has as its parameters.
    pub fn curve(&self) -> Option<&Oid>
        ensures { container_curve (⟦<KeyHead as FieldsText>⟧.values self.now)
            ≡ curve_octets (option_map (λ r. r.now) result) }
    {
        let algorithm = self.algorithm_identifier();
        if is_ec_public_key(algorithm.algorithm()) {
            named_in(algorithm.parameters())
        } else {
            None
        }
    }
}

impl NamesKey for KeyHead {
    ghost behind = { EndOfFields };

    ghost headed = { refl };

    #[tactic(auto, unfolding(x690::specs::Values::leaf_at))]
    fn head(&self) -> &KeyHead {
        self
    }
}

impl FieldsText for KeyHead {
    ghost values = { λ fields. ⟦<Listed as FieldsText>⟧.values fields.0 };

    ghost listing = { through (λ fields. fields.0) ⟦<Listed as FieldsText>⟧.listing };

    fn size(&self) -> u64 {
        self.0.size()
    }

    fn put<W: Target>(&self, sink: &mut Sink<'_, W>) -> Result<(), WriteError> {
        self.0.put(sink)
    }

    fn octet(&self, i: u64) -> Option<u8> {
        self.0.octet(i)
    }
}

impl FirstFields for KeyHead {
    fn read_first<R: Source>(
        alloc: Global,
        pull: &mut Pull<'_, R>,
        next: &mut Next,
    ) -> Result<KeyHead, ReadError> {
        let listed = match <Listed as FirstFields>::read_first(alloc, pull, next) {
            Ok(listed) => listed,
            Err(error) => return Err(error),
        };
        Ok(KeyHead(listed))
    }

    fn judge_first(octets: &[u8], limits: Limits, left: u8) -> Option<&[u8]> {
        let rest = <Listed as FirstFields>::judge_first(octets, limits, left)?;
        Some(rest)
    }
}
