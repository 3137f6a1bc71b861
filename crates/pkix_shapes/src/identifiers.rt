//! The usual names of object identifiers, the same for all that says one.
ghost use Rattle.std.specs.Prelude.{map, ◌≡◌};
ghost use Rattle.std.specs.Option.{option_map};
ghost use Rattle.pkix_shapes.specs.Identifiers.{curves_rows, encryption_rows, hash_based_rows, keys_rows, names_rows};
ghost use Rattle.pkix_shapes.specs.Identifiers.{others_rows, signatures_rows, or_row, row_of, row_with, usual};

/// An object identifier by its usual name.
#[derive(Clone, Copy)]
pub struct Identifier {
    pub name: &'static str,
    /// Its arcs in decimal.
    pub arcs: &'static str,
    /// The standard that the name comes from.
    pub source: &'static str,
    /// Its contents octets (X.690 8.19).
    pub contents: &'static [u8],
}

/// The object identifier of these contents octets, where it has a usual name.
pub fn identifier_of(contents: &[u8]) -> Option<&'static Identifier>
    ensures { option_map (λ r. row_of r.now) result ≡ usual contents.now }
{
    let of_keys = first_of(keys(), contents);
    let with_hash_based = or_first_of(of_keys, hash_based(), contents);
    let with_curves = or_first_of(with_hash_based, curves(), contents);
    let with_signatures = or_first_of(with_curves, signatures(), contents);
    let with_encryption = or_first_of(with_signatures, encryption(), contents);
    let with_names = or_first_of(with_encryption, names(), contents);
    or_first_of(with_names, others(), contents)
}

/// What was found, or else the first one with these contents.
fn or_first_of(
    found: Option<&'static Identifier>,
    among: &'static [Identifier],
    contents: &[u8],
) -> Option<&'static Identifier>
    ensures { option_map (λ r. row_of r.now) result
        ≡ or_row (option_map (λ r. row_of r.now) found.entry) (row_with (map row_of among.now) contents.now) }
{
    match found {
        Some(it) => Some(it),
        None => first_of(among, contents),
    }
}

/// The first one with these contents.
fn first_of(among: &'static [Identifier], contents: &[u8]) -> Option<&'static Identifier>
    ensures { option_map (λ r. row_of r.now) result ≡ row_with (map row_of among.now) contents.now }
{
    match among {
        [] => None,
        [first, rest @ ..] => {
            if first.contents == contents {
                Some(first)
            } else {
                first_of(rest, contents)
            }
        }
    }
}

/// Of keys.
#[tactic(auto, unfolding(crate::specs::Identifiers::keys_rows))]
fn keys() -> &'static [Identifier]
    ensures { map row_of result.now ≡ keys_rows }
{
    KEYS
}

/// Of keys whose signatures stand on hashes.
#[tactic(auto, unfolding(crate::specs::Identifiers::hash_based_rows))]
fn hash_based() -> &'static [Identifier]
    ensures { map row_of result.now ≡ hash_based_rows }
{
    HASH_BASED
}

/// Of curves.
#[tactic(auto, unfolding(crate::specs::Identifiers::curves_rows))]
fn curves() -> &'static [Identifier]
    ensures { map row_of result.now ≡ curves_rows }
{
    CURVES
}

/// Of signatures.
#[tactic(auto, unfolding(crate::specs::Identifiers::signatures_rows))]
fn signatures() -> &'static [Identifier]
    ensures { map row_of result.now ≡ signatures_rows }
{
    SIGNATURES
}

/// Of digests, and of the encryption of keys.
#[tactic(auto, unfolding(crate::specs::Identifiers::encryption_rows))]
fn encryption() -> &'static [Identifier]
    ensures { map row_of result.now ≡ encryption_rows }
{
    ENCRYPTION
}

/// Of attributes in names.
#[tactic(auto, unfolding(crate::specs::Identifiers::names_rows))]
fn names() -> &'static [Identifier]
    ensures { map row_of result.now ≡ names_rows }
{
    NAMES
}

/// Of attributes of requests and keys, of extensions, and of what stands in these.
#[tactic(auto, unfolding(crate::specs::Identifiers::others_rows))]
fn others() -> &'static [Identifier]
    ensures { map row_of result.now ≡ others_rows }
{
    OTHERS
}

/// An identifier.
macro_rules! identifier {
    ($name:literal, $arcs:literal, $source:literal, $contents:expr) => {
        Identifier {
            name: $name,
            arcs: $arcs,
            source: $source,
            contents: &$contents,
        }
    };
}

/// The same as a row.
macro_rules! row {
    ($name:literal, $arcs:literal, $source:literal, $contents:expr) => {
        ($name, $arcs, $source, &$contents)
    };
}

/// All of them by groups: the name, the arcs, the standard and the contents of each one. The names are those of the
/// standards, and of curves and of two of Microsoft's the usual ones.
macro_rules! identifiers_of {
    (keys, $make:ident) => {
        &[
            // Keys.
            $make!("id-ecPublicKey", "1.2.840.10045.2.1", "RFC 5480 section 2.1.1",
                [0x2A, 0x86, 0x48, 0xCE, 0x3D, 0x02, 0x01]),
            $make!("rsaEncryption", "1.2.840.113549.1.1.1", "RFC 8017 appendix A.1",
                [0x2A, 0x86, 0x48, 0x86, 0xF7, 0x0D, 0x01, 0x01, 0x01]),
            $make!("id-RSASSA-PSS", "1.2.840.113549.1.1.10", "RFC 8017 appendix A.2.3",
                [0x2A, 0x86, 0x48, 0x86, 0xF7, 0x0D, 0x01, 0x01, 0x0A]),
            $make!("id-RSAES-OAEP", "1.2.840.113549.1.1.7", "RFC 8017 appendix A.2.1",
                [0x2A, 0x86, 0x48, 0x86, 0xF7, 0x0D, 0x01, 0x01, 0x07]),
            $make!("id-dsa", "1.2.840.10040.4.1", "RFC 3279 section 2.3.2",
                [0x2A, 0x86, 0x48, 0xCE, 0x38, 0x04, 0x01]),
            $make!("dhpublicnumber", "1.2.840.10046.2.1", "RFC 3279 section 2.3.3",
                [0x2A, 0x86, 0x48, 0xCE, 0x3E, 0x02, 0x01]),
            $make!("dhKeyAgreement", "1.2.840.113549.1.3.1", "PKCS #3 section 9",
                [0x2A, 0x86, 0x48, 0x86, 0xF7, 0x0D, 0x01, 0x03, 0x01]),
            $make!("X25519", "1.3.101.110", "RFC 8410 section 3",
                [0x2B, 0x65, 0x6E]),
            $make!("X448", "1.3.101.111", "RFC 8410 section 3",
                [0x2B, 0x65, 0x6F]),
            $make!("Ed25519", "1.3.101.112", "RFC 8410 section 3",
                [0x2B, 0x65, 0x70]),
            $make!("Ed448", "1.3.101.113", "RFC 8410 section 3",
                [0x2B, 0x65, 0x71]),
            $make!("id-ml-dsa-44", "2.16.840.1.101.3.4.3.17", "RFC 9881 section 2",
                [0x60, 0x86, 0x48, 0x01, 0x65, 0x03, 0x04, 0x03, 0x11]),
            $make!("id-ml-dsa-65", "2.16.840.1.101.3.4.3.18", "RFC 9881 section 2",
                [0x60, 0x86, 0x48, 0x01, 0x65, 0x03, 0x04, 0x03, 0x12]),
            $make!("id-ml-dsa-87", "2.16.840.1.101.3.4.3.19", "RFC 9881 section 2",
                [0x60, 0x86, 0x48, 0x01, 0x65, 0x03, 0x04, 0x03, 0x13]),
            $make!("id-alg-ml-kem-512", "2.16.840.1.101.3.4.4.1", "RFC 9935 section 3",
                [0x60, 0x86, 0x48, 0x01, 0x65, 0x03, 0x04, 0x04, 0x01]),
            $make!("id-alg-ml-kem-768", "2.16.840.1.101.3.4.4.2", "RFC 9935 section 3",
                [0x60, 0x86, 0x48, 0x01, 0x65, 0x03, 0x04, 0x04, 0x02]),
            $make!("id-alg-ml-kem-1024", "2.16.840.1.101.3.4.4.3", "RFC 9935 section 3",
                [0x60, 0x86, 0x48, 0x01, 0x65, 0x03, 0x04, 0x04, 0x03]),
        ]
    };
    (hash_based, $make:ident) => {
        &[
            // Keys of signatures that stand on hashes.
            $make!("id-slh-dsa-sha2-128s", "2.16.840.1.101.3.4.3.20", "RFC 9909 section 3",
                [0x60, 0x86, 0x48, 0x01, 0x65, 0x03, 0x04, 0x03, 0x14]),
            $make!("id-slh-dsa-sha2-128f", "2.16.840.1.101.3.4.3.21", "RFC 9909 section 3",
                [0x60, 0x86, 0x48, 0x01, 0x65, 0x03, 0x04, 0x03, 0x15]),
            $make!("id-slh-dsa-sha2-192s", "2.16.840.1.101.3.4.3.22", "RFC 9909 section 3",
                [0x60, 0x86, 0x48, 0x01, 0x65, 0x03, 0x04, 0x03, 0x16]),
            $make!("id-slh-dsa-sha2-192f", "2.16.840.1.101.3.4.3.23", "RFC 9909 section 3",
                [0x60, 0x86, 0x48, 0x01, 0x65, 0x03, 0x04, 0x03, 0x17]),
            $make!("id-slh-dsa-sha2-256s", "2.16.840.1.101.3.4.3.24", "RFC 9909 section 3",
                [0x60, 0x86, 0x48, 0x01, 0x65, 0x03, 0x04, 0x03, 0x18]),
            $make!("id-slh-dsa-sha2-256f", "2.16.840.1.101.3.4.3.25", "RFC 9909 section 3",
                [0x60, 0x86, 0x48, 0x01, 0x65, 0x03, 0x04, 0x03, 0x19]),
            $make!("id-slh-dsa-shake-128s", "2.16.840.1.101.3.4.3.26", "RFC 9909 section 3",
                [0x60, 0x86, 0x48, 0x01, 0x65, 0x03, 0x04, 0x03, 0x1A]),
            $make!("id-slh-dsa-shake-128f", "2.16.840.1.101.3.4.3.27", "RFC 9909 section 3",
                [0x60, 0x86, 0x48, 0x01, 0x65, 0x03, 0x04, 0x03, 0x1B]),
            $make!("id-slh-dsa-shake-192s", "2.16.840.1.101.3.4.3.28", "RFC 9909 section 3",
                [0x60, 0x86, 0x48, 0x01, 0x65, 0x03, 0x04, 0x03, 0x1C]),
            $make!("id-slh-dsa-shake-192f", "2.16.840.1.101.3.4.3.29", "RFC 9909 section 3",
                [0x60, 0x86, 0x48, 0x01, 0x65, 0x03, 0x04, 0x03, 0x1D]),
            $make!("id-slh-dsa-shake-256s", "2.16.840.1.101.3.4.3.30", "RFC 9909 section 3",
                [0x60, 0x86, 0x48, 0x01, 0x65, 0x03, 0x04, 0x03, 0x1E]),
            $make!("id-slh-dsa-shake-256f", "2.16.840.1.101.3.4.3.31", "RFC 9909 section 3",
                [0x60, 0x86, 0x48, 0x01, 0x65, 0x03, 0x04, 0x03, 0x1F]),
        ]
    };
    (curves, $make:ident) => {
        &[
            // Curves, and a field of one.
            $make!("P-192", "1.2.840.10045.3.1.1", "RFC 5480 section 2.1.1.1 (secp192r1)",
                [0x2A, 0x86, 0x48, 0xCE, 0x3D, 0x03, 0x01, 0x01]),
            $make!("P-224", "1.3.132.0.33", "RFC 5480 section 2.1.1.1 (secp224r1)",
                [0x2B, 0x81, 0x04, 0x00, 0x21]),
            $make!("P-256", "1.2.840.10045.3.1.7", "RFC 5480 section 2.1.1.1 (secp256r1)",
                [0x2A, 0x86, 0x48, 0xCE, 0x3D, 0x03, 0x01, 0x07]),
            $make!("secp256k1", "1.3.132.0.10", "RFC 8812 section 3.1",
                [0x2B, 0x81, 0x04, 0x00, 0x0A]),
            $make!("P-384", "1.3.132.0.34", "RFC 5480 section 2.1.1.1 (secp384r1)",
                [0x2B, 0x81, 0x04, 0x00, 0x22]),
            $make!("P-521", "1.3.132.0.35", "RFC 5480 section 2.1.1.1 (secp521r1)",
                [0x2B, 0x81, 0x04, 0x00, 0x23]),
            $make!("brainpoolP256r1", "1.3.36.3.3.2.8.1.1.7", "RFC 5639 section 4.1",
                [0x2B, 0x24, 0x03, 0x03, 0x02, 0x08, 0x01, 0x01, 0x07]),
            $make!("brainpoolP384r1", "1.3.36.3.3.2.8.1.1.11", "RFC 5639 section 4.1",
                [0x2B, 0x24, 0x03, 0x03, 0x02, 0x08, 0x01, 0x01, 0x0B]),
            $make!("brainpoolP512r1", "1.3.36.3.3.2.8.1.1.13", "RFC 5639 section 4.1",
                [0x2B, 0x24, 0x03, 0x03, 0x02, 0x08, 0x01, 0x01, 0x0D]),
            $make!("prime-field", "1.2.840.10045.1.1", "RFC 3279 section 2.3.5",
                [0x2A, 0x86, 0x48, 0xCE, 0x3D, 0x01, 0x01]),
        ]
    };
    (signatures, $make:ident) => {
        &[
            // Signatures.
            $make!("md5WithRSAEncryption", "1.2.840.113549.1.1.4", "RFC 8017 appendix A.2.4",
                [0x2A, 0x86, 0x48, 0x86, 0xF7, 0x0D, 0x01, 0x01, 0x04]),
            $make!("sha1WithRSAEncryption", "1.2.840.113549.1.1.5", "RFC 8017 appendix A.2.4",
                [0x2A, 0x86, 0x48, 0x86, 0xF7, 0x0D, 0x01, 0x01, 0x05]),
            $make!("sha224WithRSAEncryption", "1.2.840.113549.1.1.14", "RFC 8017 appendix A.2.4",
                [0x2A, 0x86, 0x48, 0x86, 0xF7, 0x0D, 0x01, 0x01, 0x0E]),
            $make!("sha256WithRSAEncryption", "1.2.840.113549.1.1.11", "RFC 8017 appendix A.2.4",
                [0x2A, 0x86, 0x48, 0x86, 0xF7, 0x0D, 0x01, 0x01, 0x0B]),
            $make!("sha384WithRSAEncryption", "1.2.840.113549.1.1.12", "RFC 8017 appendix A.2.4",
                [0x2A, 0x86, 0x48, 0x86, 0xF7, 0x0D, 0x01, 0x01, 0x0C]),
            $make!("sha512WithRSAEncryption", "1.2.840.113549.1.1.13", "RFC 8017 appendix A.2.4",
                [0x2A, 0x86, 0x48, 0x86, 0xF7, 0x0D, 0x01, 0x01, 0x0D]),
            $make!("ecdsa-with-SHA1", "1.2.840.10045.4.1", "RFC 3279 section 2.2.3",
                [0x2A, 0x86, 0x48, 0xCE, 0x3D, 0x04, 0x01]),
            $make!("ecdsa-with-SHA224", "1.2.840.10045.4.3.1", "RFC 5758 section 3.2",
                [0x2A, 0x86, 0x48, 0xCE, 0x3D, 0x04, 0x03, 0x01]),
            $make!("ecdsa-with-SHA256", "1.2.840.10045.4.3.2", "RFC 5758 section 3.2",
                [0x2A, 0x86, 0x48, 0xCE, 0x3D, 0x04, 0x03, 0x02]),
            $make!("ecdsa-with-SHA384", "1.2.840.10045.4.3.3", "RFC 5758 section 3.2",
                [0x2A, 0x86, 0x48, 0xCE, 0x3D, 0x04, 0x03, 0x03]),
            $make!("ecdsa-with-SHA512", "1.2.840.10045.4.3.4", "RFC 5758 section 3.2",
                [0x2A, 0x86, 0x48, 0xCE, 0x3D, 0x04, 0x03, 0x04]),
            $make!("id-dsa-with-sha1", "1.2.840.10040.4.3", "RFC 3279 section 2.2.2",
                [0x2A, 0x86, 0x48, 0xCE, 0x38, 0x04, 0x03]),
            $make!("id-dsa-with-sha224", "2.16.840.1.101.3.4.3.1", "RFC 5758 section 3.1",
                [0x60, 0x86, 0x48, 0x01, 0x65, 0x03, 0x04, 0x03, 0x01]),
            $make!("id-dsa-with-sha256", "2.16.840.1.101.3.4.3.2", "RFC 5758 section 3.1",
                [0x60, 0x86, 0x48, 0x01, 0x65, 0x03, 0x04, 0x03, 0x02]),
        ]
    };
    (encryption, $make:ident) => {
        &[
            // Digests, and what uses them.
            $make!("id-sha1", "1.3.14.3.2.26", "RFC 8017 appendix B.1",
                [0x2B, 0x0E, 0x03, 0x02, 0x1A]),
            $make!("id-sha224", "2.16.840.1.101.3.4.2.4", "RFC 8017 appendix B.1",
                [0x60, 0x86, 0x48, 0x01, 0x65, 0x03, 0x04, 0x02, 0x04]),
            $make!("id-sha256", "2.16.840.1.101.3.4.2.1", "RFC 8017 appendix B.1",
                [0x60, 0x86, 0x48, 0x01, 0x65, 0x03, 0x04, 0x02, 0x01]),
            $make!("id-sha384", "2.16.840.1.101.3.4.2.2", "RFC 8017 appendix B.1",
                [0x60, 0x86, 0x48, 0x01, 0x65, 0x03, 0x04, 0x02, 0x02]),
            $make!("id-sha512", "2.16.840.1.101.3.4.2.3", "RFC 8017 appendix B.1",
                [0x60, 0x86, 0x48, 0x01, 0x65, 0x03, 0x04, 0x02, 0x03]),
            $make!("id-mgf1", "1.2.840.113549.1.1.8", "RFC 8017 appendix A.2.1",
                [0x2A, 0x86, 0x48, 0x86, 0xF7, 0x0D, 0x01, 0x01, 0x08]),
            $make!("id-hmacWithSHA1", "1.2.840.113549.2.7", "RFC 8018 appendix B.1.1",
                [0x2A, 0x86, 0x48, 0x86, 0xF7, 0x0D, 0x02, 0x07]),
            $make!("id-hmacWithSHA224", "1.2.840.113549.2.8", "RFC 8018 appendix B.1.2",
                [0x2A, 0x86, 0x48, 0x86, 0xF7, 0x0D, 0x02, 0x08]),
            $make!("id-hmacWithSHA256", "1.2.840.113549.2.9", "RFC 8018 appendix B.1.2",
                [0x2A, 0x86, 0x48, 0x86, 0xF7, 0x0D, 0x02, 0x09]),
            $make!("id-hmacWithSHA384", "1.2.840.113549.2.10", "RFC 8018 appendix B.1.2",
                [0x2A, 0x86, 0x48, 0x86, 0xF7, 0x0D, 0x02, 0x0A]),
            $make!("id-hmacWithSHA512", "1.2.840.113549.2.11", "RFC 8018 appendix B.1.2",
                [0x2A, 0x86, 0x48, 0x86, 0xF7, 0x0D, 0x02, 0x0B]),
            // Encryption of keys.
            $make!("id-PBES2", "1.2.840.113549.1.5.13", "RFC 8018 appendix A.4",
                [0x2A, 0x86, 0x48, 0x86, 0xF7, 0x0D, 0x01, 0x05, 0x0D]),
            $make!("id-PBKDF2", "1.2.840.113549.1.5.12", "RFC 8018 appendix A.2",
                [0x2A, 0x86, 0x48, 0x86, 0xF7, 0x0D, 0x01, 0x05, 0x0C]),
            $make!("id-scrypt", "1.3.6.1.4.1.11591.4.11", "RFC 7914 section 7",
                [0x2B, 0x06, 0x01, 0x04, 0x01, 0xDA, 0x47, 0x04, 0x0B]),
            $make!("aes128-CBC-PAD", "2.16.840.1.101.3.4.1.2", "RFC 8018 appendix B.2.5",
                [0x60, 0x86, 0x48, 0x01, 0x65, 0x03, 0x04, 0x01, 0x02]),
            $make!("aes192-CBC-PAD", "2.16.840.1.101.3.4.1.22", "RFC 8018 appendix B.2.5",
                [0x60, 0x86, 0x48, 0x01, 0x65, 0x03, 0x04, 0x01, 0x16]),
            $make!("aes256-CBC-PAD", "2.16.840.1.101.3.4.1.42", "RFC 8018 appendix B.2.5",
                [0x60, 0x86, 0x48, 0x01, 0x65, 0x03, 0x04, 0x01, 0x2A]),
            $make!("des-EDE3-CBC", "1.2.840.113549.3.7", "RFC 8018 appendix B.2.2",
                [0x2A, 0x86, 0x48, 0x86, 0xF7, 0x0D, 0x03, 0x07]),
            $make!("pbeWithMD5AndDES-CBC", "1.2.840.113549.1.5.3", "RFC 8018 appendix A.3",
                [0x2A, 0x86, 0x48, 0x86, 0xF7, 0x0D, 0x01, 0x05, 0x03]),
            $make!("pbeWithSHAAnd3-KeyTripleDES-CBC", "1.2.840.113549.1.12.1.3", "RFC 7292 appendix C",
                [0x2A, 0x86, 0x48, 0x86, 0xF7, 0x0D, 0x01, 0x0C, 0x01, 0x03]),
        ]
    };
    (names, $make:ident) => {
        &[
            // Attributes in names.
            $make!("commonName", "2.5.4.3", "RFC 5280 appendix A.1",
                [0x55, 0x04, 0x03]),
            $make!("surname", "2.5.4.4", "RFC 5280 appendix A.1",
                [0x55, 0x04, 0x04]),
            $make!("serialNumber", "2.5.4.5", "RFC 5280 appendix A.1",
                [0x55, 0x04, 0x05]),
            $make!("countryName", "2.5.4.6", "RFC 5280 appendix A.1",
                [0x55, 0x04, 0x06]),
            $make!("localityName", "2.5.4.7", "RFC 5280 appendix A.1",
                [0x55, 0x04, 0x07]),
            $make!("stateOrProvinceName", "2.5.4.8", "RFC 5280 appendix A.1",
                [0x55, 0x04, 0x08]),
            $make!("street", "2.5.4.9", "RFC 4519 section 2.34",
                [0x55, 0x04, 0x09]),
            $make!("organizationName", "2.5.4.10", "RFC 5280 appendix A.1",
                [0x55, 0x04, 0x0A]),
            $make!("organizationalUnitName", "2.5.4.11", "RFC 5280 appendix A.1",
                [0x55, 0x04, 0x0B]),
            $make!("title", "2.5.4.12", "RFC 5280 appendix A.1",
                [0x55, 0x04, 0x0C]),
            $make!("description", "2.5.4.13", "RFC 4519 section 2.5",
                [0x55, 0x04, 0x0D]),
            $make!("businessCategory", "2.5.4.15", "RFC 4519 section 2.1",
                [0x55, 0x04, 0x0F]),
            $make!("postalCode", "2.5.4.17", "RFC 4519 section 2.24",
                [0x55, 0x04, 0x11]),
            $make!("name", "2.5.4.41", "RFC 5280 appendix A.1",
                [0x55, 0x04, 0x29]),
            $make!("givenName", "2.5.4.42", "RFC 5280 appendix A.1",
                [0x55, 0x04, 0x2A]),
            $make!("initials", "2.5.4.43", "RFC 5280 appendix A.1",
                [0x55, 0x04, 0x2B]),
            $make!("generationQualifier", "2.5.4.44", "RFC 5280 appendix A.1",
                [0x55, 0x04, 0x2C]),
            $make!("dnQualifier", "2.5.4.46", "RFC 5280 appendix A.1",
                [0x55, 0x04, 0x2E]),
            $make!("pseudonym", "2.5.4.65", "RFC 5280 appendix A.1",
                [0x55, 0x04, 0x41]),
            $make!("uid", "0.9.2342.19200300.100.1.1", "RFC 4519 section 2.39",
                [0x09, 0x92, 0x26, 0x89, 0x93, 0xF2, 0x2C, 0x64, 0x01, 0x01]),
            $make!("domainComponent", "0.9.2342.19200300.100.1.25", "RFC 5280 appendix A.1",
                [0x09, 0x92, 0x26, 0x89, 0x93, 0xF2, 0x2C, 0x64, 0x01, 0x19]),
            $make!("emailAddress", "1.2.840.113549.1.9.1", "RFC 5280 appendix A.1",
                [0x2A, 0x86, 0x48, 0x86, 0xF7, 0x0D, 0x01, 0x09, 0x01]),
        ]
    };
    (others, $make:ident) => {
        &[
            // Attributes of requests and of keys.
            $make!("unstructuredName", "1.2.840.113549.1.9.2", "RFC 2985 section 5.2.2",
                [0x2A, 0x86, 0x48, 0x86, 0xF7, 0x0D, 0x01, 0x09, 0x02]),
            $make!("unstructuredAddress", "1.2.840.113549.1.9.8", "RFC 2985 section 5.2.3",
                [0x2A, 0x86, 0x48, 0x86, 0xF7, 0x0D, 0x01, 0x09, 0x08]),
            $make!("challengePassword", "1.2.840.113549.1.9.7", "RFC 2985 section 5.4.1",
                [0x2A, 0x86, 0x48, 0x86, 0xF7, 0x0D, 0x01, 0x09, 0x07]),
            $make!("extensionRequest", "1.2.840.113549.1.9.14", "RFC 2985 section 5.4.2",
                [0x2A, 0x86, 0x48, 0x86, 0xF7, 0x0D, 0x01, 0x09, 0x0E]),
            $make!("friendlyName", "1.2.840.113549.1.9.20", "RFC 2985 section 5.5.1",
                [0x2A, 0x86, 0x48, 0x86, 0xF7, 0x0D, 0x01, 0x09, 0x14]),
            $make!("localKeyId", "1.2.840.113549.1.9.21", "RFC 2985 section 5.5.2",
                [0x2A, 0x86, 0x48, 0x86, 0xF7, 0x0D, 0x01, 0x09, 0x15]),
            // Extensions.
            $make!("authorityKeyIdentifier", "2.5.29.35", "RFC 5280 section 4.2.1.1",
                [0x55, 0x1D, 0x23]),
            $make!("subjectKeyIdentifier", "2.5.29.14", "RFC 5280 section 4.2.1.2",
                [0x55, 0x1D, 0x0E]),
            $make!("keyUsage", "2.5.29.15", "RFC 5280 section 4.2.1.3",
                [0x55, 0x1D, 0x0F]),
            $make!("certificatePolicies", "2.5.29.32", "RFC 5280 section 4.2.1.4",
                [0x55, 0x1D, 0x20]),
            $make!("policyMappings", "2.5.29.33", "RFC 5280 section 4.2.1.5",
                [0x55, 0x1D, 0x21]),
            $make!("subjectAltName", "2.5.29.17", "RFC 5280 section 4.2.1.6",
                [0x55, 0x1D, 0x11]),
            $make!("issuerAltName", "2.5.29.18", "RFC 5280 section 4.2.1.7",
                [0x55, 0x1D, 0x12]),
            $make!("subjectDirectoryAttributes", "2.5.29.9", "RFC 5280 section 4.2.1.8",
                [0x55, 0x1D, 0x09]),
            $make!("basicConstraints", "2.5.29.19", "RFC 5280 section 4.2.1.9",
                [0x55, 0x1D, 0x13]),
            $make!("nameConstraints", "2.5.29.30", "RFC 5280 section 4.2.1.10",
                [0x55, 0x1D, 0x1E]),
            $make!("policyConstraints", "2.5.29.36", "RFC 5280 section 4.2.1.11",
                [0x55, 0x1D, 0x24]),
            $make!("extKeyUsage", "2.5.29.37", "RFC 5280 section 4.2.1.12",
                [0x55, 0x1D, 0x25]),
            $make!("cRLDistributionPoints", "2.5.29.31", "RFC 5280 section 4.2.1.13",
                [0x55, 0x1D, 0x1F]),
            $make!("inhibitAnyPolicy", "2.5.29.54", "RFC 5280 section 4.2.1.14",
                [0x55, 0x1D, 0x36]),
            $make!("freshestCRL", "2.5.29.46", "RFC 5280 section 4.2.1.15",
                [0x55, 0x1D, 0x2E]),
            $make!("authorityInfoAccess", "1.3.6.1.5.5.7.1.1", "RFC 5280 section 4.2.2.1",
                [0x2B, 0x06, 0x01, 0x05, 0x05, 0x07, 0x01, 0x01]),
            $make!("subjectInfoAccess", "1.3.6.1.5.5.7.1.11", "RFC 5280 section 4.2.2.2",
                [0x2B, 0x06, 0x01, 0x05, 0x05, 0x07, 0x01, 0x0B]),
            $make!("tlsfeature", "1.3.6.1.5.5.7.1.24", "RFC 7633 appendix A",
                [0x2B, 0x06, 0x01, 0x05, 0x05, 0x07, 0x01, 0x18]),
            $make!("szOID_ENROLL_CERTTYPE_EXTENSION", "1.3.6.1.4.1.311.20.2", "MS-WCCE",
                [0x2B, 0x06, 0x01, 0x04, 0x01, 0x82, 0x37, 0x14, 0x02]),
            $make!("szOID_CERTIFICATE_TEMPLATE", "1.3.6.1.4.1.311.21.7", "MS-WCCE",
                [0x2B, 0x06, 0x01, 0x04, 0x01, 0x82, 0x37, 0x15, 0x07]),
            $make!("szOID_APPLICATION_CERT_POLICIES", "1.3.6.1.4.1.311.21.10", "MS-WCCE",
                [0x2B, 0x06, 0x01, 0x04, 0x01, 0x82, 0x37, 0x15, 0x0A]),
            $make!("szOID_NTDS_CA_SECURITY_EXT", "1.3.6.1.4.1.311.25.2", "MS-WCCE",
                [0x2B, 0x06, 0x01, 0x04, 0x01, 0x82, 0x37, 0x19, 0x02]),
            // Of extended key usages, and in names, policies and accesses of extensions.
            $make!("anyExtendedKeyUsage", "2.5.29.37.0", "RFC 5280 section 4.2.1.12",
                [0x55, 0x1D, 0x25, 0x00]),
            $make!("id-kp-serverAuth", "1.3.6.1.5.5.7.3.1", "RFC 5280 section 4.2.1.12",
                [0x2B, 0x06, 0x01, 0x05, 0x05, 0x07, 0x03, 0x01]),
            $make!("id-kp-clientAuth", "1.3.6.1.5.5.7.3.2", "RFC 5280 section 4.2.1.12",
                [0x2B, 0x06, 0x01, 0x05, 0x05, 0x07, 0x03, 0x02]),
            $make!("id-kp-codeSigning", "1.3.6.1.5.5.7.3.3", "RFC 5280 section 4.2.1.12",
                [0x2B, 0x06, 0x01, 0x05, 0x05, 0x07, 0x03, 0x03]),
            $make!("id-kp-emailProtection", "1.3.6.1.5.5.7.3.4", "RFC 5280 section 4.2.1.12",
                [0x2B, 0x06, 0x01, 0x05, 0x05, 0x07, 0x03, 0x04]),
            $make!("id-kp-timeStamping", "1.3.6.1.5.5.7.3.8", "RFC 5280 section 4.2.1.12",
                [0x2B, 0x06, 0x01, 0x05, 0x05, 0x07, 0x03, 0x08]),
            $make!("id-kp-OCSPSigning", "1.3.6.1.5.5.7.3.9", "RFC 5280 section 4.2.1.12",
                [0x2B, 0x06, 0x01, 0x05, 0x05, 0x07, 0x03, 0x09]),
            $make!("msSmartcardLogin", "1.3.6.1.4.1.311.20.2.2", "RFC 4556 appendix C (id-ms-kp-sc-logon)",
                [0x2B, 0x06, 0x01, 0x04, 0x01, 0x82, 0x37, 0x14, 0x02, 0x02]),
            $make!("msUPN", "1.3.6.1.4.1.311.20.2.3", "RFC 4556 appendix C (id-ms-san-sc-logon-upn)",
                [0x2B, 0x06, 0x01, 0x04, 0x01, 0x82, 0x37, 0x14, 0x02, 0x03]),
            $make!("id-qt-cps", "1.3.6.1.5.5.7.2.1", "RFC 5280 section 4.2.1.4",
                [0x2B, 0x06, 0x01, 0x05, 0x05, 0x07, 0x02, 0x01]),
            $make!("id-qt-unotice", "1.3.6.1.5.5.7.2.2", "RFC 5280 section 4.2.1.4",
                [0x2B, 0x06, 0x01, 0x05, 0x05, 0x07, 0x02, 0x02]),
            $make!("id-ad-ocsp", "1.3.6.1.5.5.7.48.1", "RFC 5280 section 4.2.2.1",
                [0x2B, 0x06, 0x01, 0x05, 0x05, 0x07, 0x30, 0x01]),
            $make!("id-ad-caIssuers", "1.3.6.1.5.5.7.48.2", "RFC 5280 section 4.2.2.1",
                [0x2B, 0x06, 0x01, 0x05, 0x05, 0x07, 0x30, 0x02]),
        ]
    };
}

const KEYS: &[Identifier] = identifiers_of!(keys, identifier);

const HASH_BASED: &[Identifier] = identifiers_of!(hash_based, identifier);

const CURVES: &[Identifier] = identifiers_of!(curves, identifier);

const SIGNATURES: &[Identifier] = identifiers_of!(signatures, identifier);

const ENCRYPTION: &[Identifier] = identifiers_of!(encryption, identifier);

const NAMES: &[Identifier] = identifiers_of!(names, identifier);

const OTHERS: &[Identifier] = identifiers_of!(others, identifier);

// The same as rows, which contracts can name.
pub const KEYS_ROWS: &[(&str, &str, &str, &[u8])] = identifiers_of!(keys, row);

pub const HASH_BASED_ROWS: &[(&str, &str, &str, &[u8])] = identifiers_of!(hash_based, row);

pub const CURVES_ROWS: &[(&str, &str, &str, &[u8])] = identifiers_of!(curves, row);

pub const SIGNATURES_ROWS: &[(&str, &str, &str, &[u8])] = identifiers_of!(signatures, row);

pub const ENCRYPTION_ROWS: &[(&str, &str, &str, &[u8])] = identifiers_of!(encryption, row);

pub const NAMES_ROWS: &[(&str, &str, &str, &[u8])] = identifiers_of!(names, row);

pub const OTHERS_ROWS: &[(&str, &str, &str, &[u8])] = identifiers_of!(others, row);
