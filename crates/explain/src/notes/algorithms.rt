//! What is remarked on the algorithms of keys and signatures.
ghost use Rattle.std.specs.Prelude.{◌≡◌};
ghost use Rattle.std.specs.Option.{option_map};
ghost use Rattle.x690.specs.Lists.{one_of};
ghost use Rattle.explain.specs.NotedAlgorithms.{are_apart, first_rsa_signatures, is_null, is_of_another};
ghost use Rattle.explain.specs.NotedAlgorithms.{is_of_signature, key_family, later_rsa_signatures, remark_on_arcs};
ghost use Rattle.explain.specs.NotedAlgorithms.{remark_on_digest, remark_on_scheme, remark_on_signature};
ghost use Rattle.explain.specs.NotedAlgorithms.{sha1_signatures, signature_family, signs_as_itself};
ghost use Rattle.explain.specs.NotedAlgorithms.{ecdsa_signatures, lacks_null, lone_schemes, old_signatures};
ghost use Rattle.explain.specs.NotedAlgorithms.{sha2_rsa_signatures, slh_dsa_sha2, slh_dsa_shake};

use crate::document::values::is_field;
use crate::notes::keys::arcs_in;
use crate::notes::remarks::{is_name, remark_if};
use pkix_shapes::identifiers::Identifier;
use reports::report::{AlgorithmRemark, Line, Remark, Value};

/// What is remarked on an algorithm with these parameters, after the algorithm of this key, by the element around it.
pub(crate) fn remark_on_scheme(
    key: Option<&'static Identifier>,
    around: Option<&Line>,
    parameters: Option<&Line>,
    value: &Value,
) -> Option<Remark>
    ensures { result ≡ remark_on_scheme key.entry (option_map (λ r. r.now) around.entry)
        (option_map (λ r. r.now) parameters.entry) value.now }
{
    match arcs_in(value) {
        Some(arcs) => remark_on_arcs(key, around, parameters, arcs),
        None => None,
    }
}

/// rsaEncryption has NULL as parameters (RFC 8017 appendix A.1, RFC 3279 section 2.3.1).
fn remark_on_arcs(
    key: Option<&'static Identifier>,
    around: Option<&Line>,
    parameters: Option<&Line>,
    arcs: &str,
) -> Option<Remark>
    ensures { result ≡ remark_on_arcs key.entry (option_map (λ r. r.now) around.entry)
        (option_map (λ r. r.now) parameters.entry) arcs.now }
{
    if lacks_null(arcs, parameters) {
        return Some(Remark::Algorithm(AlgorithmRemark::NoNull));
    }
    if is_of_signature(around) {
        return remark_on_signature(key, arcs);
    }
    None
}

fn lacks_null(arcs: &str, parameters: Option<&Line>) -> bool
    ensures { result ≡ lacks_null arcs.now (option_map (λ r. r.now) parameters.entry) }
{
    is_name(arcs, "1.2.840.113549.1.1.1") && !is_null(parameters)
}

fn is_null(parameters: Option<&Line>) -> bool
    ensures { result ≡ is_null (option_map (λ r. r.now) parameters.entry) }
{
    match parameters {
        Some(line) => matches!(line.value, Value::Null),
        None => false,
    }
}

/// Whether the element around an algorithm is that of a signature.
fn is_of_signature(around: Option<&Line>) -> bool
    ensures { result ≡ is_of_signature (option_map (λ r. r.now) around.entry) }
{
    match around {
        Some(around) => is_field(around.step, "signatureAlgorithm"),
        None => false,
    }
}

/// A request is signed with its own key (RFC 2986 section 3).
fn remark_on_signature(key: Option<&'static Identifier>, arcs: &str) -> Option<Remark>
    ensures { result ≡ remark_on_signature key.entry arcs.now }
{
    if is_of_another(key, arcs) {
        return Some(Remark::Algorithm(AlgorithmRemark::AnotherKey));
    }
    remark_on_digest(arcs)
}

/// Signatures with SHA-1 (NIST SP 800-131A), with MD5 (RFC 6151 section 2), and with MD2 and MD4, which are older.
fn remark_on_digest(arcs: &str) -> Option<Remark>
    ensures { result ≡ remark_on_digest arcs.now }
{
    if is_with_sha1(arcs) {
        return Some(Remark::Algorithm(AlgorithmRemark::Sha1));
    }
    if is_name(arcs, "1.2.840.113549.1.1.4") {
        return Some(Remark::Algorithm(AlgorithmRemark::Md5));
    }
    remark_if(
        is_with_old_digest(arcs),
        Remark::Algorithm(AlgorithmRemark::OldDigest),
    )
}

/// Of RSA with MD2 and MD4.
fn is_with_old_digest(arcs: &str) -> bool
    ensures { result ≡ one_of arcs.now old_signatures }
{
    is_name(arcs, "1.2.840.113549.1.1.2") || is_name(arcs, "1.2.840.113549.1.1.3")
}

/// Of RSA, ECDSA and DSA.
fn is_with_sha1(arcs: &str) -> bool
    ensures { result ≡ one_of arcs.now sha1_signatures }
{
    is_name(arcs, "1.2.840.113549.1.1.5")
        || is_name(arcs, "1.2.840.10045.4.1")
        || is_name(arcs, "1.2.840.10040.4.3")
}

/// Whether a signature is of another family than the key, where both are of a known one.
fn is_of_another(key: Option<&'static Identifier>, arcs: &str) -> bool
    ensures { result ≡ is_of_another key.entry arcs.now }
{
    match key {
        Some(identifier) => are_apart(key_family(identifier.arcs), signature_family(arcs)),
        None => false,
    }
}

/// Whether two are there, and differ.
fn are_apart(one: Option<&str>, other: Option<&str>) -> bool
    ensures { result ≡ are_apart (option_map (λ r. r.now) one.entry)
        (option_map (λ r. r.now) other.entry) }
{
    match (one, other) {
        (Some(one), Some(other)) => !is_name(one, other),
        _ => false,
    }
}

/// The family of a key that signs, by the arcs of one of its algorithms.
fn key_family(arcs: &str) -> Option<&str>
    ensures { option_map (λ r. r.now) result ≡ key_family arcs.now }
{
    if is_name(arcs, "1.2.840.113549.1.1.1") || is_name(arcs, "1.2.840.113549.1.1.10") {
        return Some("1.2.840.113549.1.1.1");
    }
    if is_name(arcs, "1.2.840.10045.2.1") || signs_as_itself(arcs) {
        return Some(arcs);
    }
    None
}

/// The family of the key that makes a signature, by the same arcs.
fn signature_family(arcs: &str) -> Option<&str>
    ensures { option_map (λ r. r.now) result ≡ signature_family arcs.now }
{
    if is_first_rsa(arcs) || is_sha2_rsa(arcs) || is_later_rsa(arcs) {
        return Some("1.2.840.113549.1.1.1");
    }
    if is_ecdsa(arcs) {
        return Some("1.2.840.10045.2.1");
    }
    if signs_as_itself(arcs) {
        return Some(arcs);
    }
    None
}

/// RSA with MD2, MD4, MD5, SHA-1 (RFC 8017 appendix A.2.4).
fn is_first_rsa(arcs: &str) -> bool
    ensures { result ≡ one_of arcs.now first_rsa_signatures }
{
    is_name(arcs, "1.2.840.113549.1.1.2")
        || is_name(arcs, "1.2.840.113549.1.1.3")
        || is_name(arcs, "1.2.840.113549.1.1.4")
        || is_name(arcs, "1.2.840.113549.1.1.5")
}

/// RSA with SHA-256, 384, 512, 224 (RFC 8017 appendix A.2.4).
fn is_sha2_rsa(arcs: &str) -> bool
    ensures { result ≡ one_of arcs.now sha2_rsa_signatures }
{
    is_name(arcs, "1.2.840.113549.1.1.11")
        || is_name(arcs, "1.2.840.113549.1.1.12")
        || is_name(arcs, "1.2.840.113549.1.1.13")
        || is_name(arcs, "1.2.840.113549.1.1.14")
}

/// RSASSA-PSS (RFC 8017 appendix A.2.3), and RSA with SHA-512/224 and SHA-512/256 (appendix A.2.4).
fn is_later_rsa(arcs: &str) -> bool
    ensures { result ≡ one_of arcs.now later_rsa_signatures }
{
    is_name(arcs, "1.2.840.113549.1.1.10")
        || is_name(arcs, "1.2.840.113549.1.1.15")
        || is_name(arcs, "1.2.840.113549.1.1.16")
}

/// ECDSA with SHA-1 (RFC 3279 section 2.2.3), with the digest of the key or the parameters (X9.62), and with SHA-224,
/// 256, 384, 512 (RFC 5758 section 3.2).
fn is_ecdsa(arcs: &str) -> bool
    ensures { result ≡ one_of arcs.now ecdsa_signatures }
{
    is_name(arcs, "1.2.840.10045.4.1")
        || is_name(arcs, "1.2.840.10045.4.2")
        || is_name(arcs, "1.2.840.10045.4.3")
        || is_name(arcs, "1.2.840.10045.4.3.1")
        || is_name(arcs, "1.2.840.10045.4.3.2")
        || is_name(arcs, "1.2.840.10045.4.3.3")
        || is_name(arcs, "1.2.840.10045.4.3.4")
}

/// Whether one identifier is that of the key and of its signatures (RFC 8410, RFC 9881, RFC 9909).
fn signs_as_itself(arcs: &str) -> bool
    ensures { result ≡ signs_as_itself arcs.now }
{
    is_lone_scheme(arcs) || is_slh_dsa_sha2(arcs) || is_slh_dsa_shake(arcs)
}

/// Ed25519, Ed448; ML-DSA-44, 65, 87.
fn is_lone_scheme(arcs: &str) -> bool
    ensures { result ≡ one_of arcs.now lone_schemes }
{
    is_name(arcs, "1.3.101.112")
        || is_name(arcs, "1.3.101.113")
        || is_name(arcs, "2.16.840.1.101.3.4.3.17")
        || is_name(arcs, "2.16.840.1.101.3.4.3.18")
        || is_name(arcs, "2.16.840.1.101.3.4.3.19")
}

/// SLH-DSA with SHA2: 128s, 128f, 192s, 192f, 256s, 256f.
fn is_slh_dsa_sha2(arcs: &str) -> bool
    ensures { result ≡ one_of arcs.now slh_dsa_sha2 }
{
    is_name(arcs, "2.16.840.1.101.3.4.3.20")
        || is_name(arcs, "2.16.840.1.101.3.4.3.21")
        || is_name(arcs, "2.16.840.1.101.3.4.3.22")
        || is_name(arcs, "2.16.840.1.101.3.4.3.23")
        || is_name(arcs, "2.16.840.1.101.3.4.3.24")
        || is_name(arcs, "2.16.840.1.101.3.4.3.25")
}

/// The same with SHAKE.
fn is_slh_dsa_shake(arcs: &str) -> bool
    ensures { result ≡ one_of arcs.now slh_dsa_shake }
{
    is_name(arcs, "2.16.840.1.101.3.4.3.26")
        || is_name(arcs, "2.16.840.1.101.3.4.3.27")
        || is_name(arcs, "2.16.840.1.101.3.4.3.28")
        || is_name(arcs, "2.16.840.1.101.3.4.3.29")
        || is_name(arcs, "2.16.840.1.101.3.4.3.30")
        || is_name(arcs, "2.16.840.1.101.3.4.3.31")
}
