//! The kinds of documents, and the table of what each is called.
ghost use Rattle.std.specs.Prelude.{IfSome, IsSome, ◌≡◌, ◌↔◌};
ghost use Rattle.std.specs.List.{list_any};
ghost use Rattle.std.specs.Str.{bytes_eq};
ghost use Rattle.pk_documents.specs.KindRows.{IsKindNumber, first_kind, has_number, has_plain_keys, has_word, is_key};
ghost use Rattle.pk_documents.specs.KindRows.{kind_named, kind_numbered, labels_of, may_be_private, number_of};
ghost use Rattle.pk_documents.specs.KindRows.{other_words_of, private_keys_of, standard_of, texts, type_name_of};
ghost use Rattle.pk_documents.specs.KindRows.{word_of};

/// What a document is; the caller says.
#[derive(Clone, Copy, Debug, PartialEq, Eq)]
pub enum Kind {
    /// OneAsymmetricKey, PrivateKeyInfo of PKCS #8.
    Key,
    /// ECPrivateKey.
    Ec,
    /// CertificationRequest.
    Request,
    /// SubjectPublicKeyInfo.
    Public,
    /// EncryptedPrivateKeyInfo.
    Encrypted,
    /// AsymmetricKeyPackage.
    Package,
}

/// The private keys in a document of a kind.
#[derive(Clone, Copy, Debug, PartialEq, Eq)]
pub enum PrivateKeys {
    None,
    One,
    /// One or more.
    Several,
    /// One that is encrypted.
    Encrypted,
}

/// What a kind is called.
#[derive(Clone, Copy)]
pub struct KindRow {
    /// The word of the command line, and others that mean the kind there.
    pub word: &'static str,
    pub other_words: &'static [&'static str],
    /// The number in `interface/pkder.h`.
    pub number: u32,
    /// The labels of its PEM files (RFC 7468).
    pub labels: &'static [&'static str],
    /// The name of its type, and the standard that has it.
    pub type_name: &'static str,
    pub standard: &'static str,
    pub private_keys: PrivateKeys,
}

/// All kinds, in the order of their numbers.
pub const KINDS: [Kind; 6] = [
    Kind::Key,
    Kind::Ec,
    Kind::Request,
    Kind::Public,
    Kind::Encrypted,
    Kind::Package,
];

/// Their words as a text, and those of the kinds that are one private key.
pub const WORDS: &str = "key, ec, request, public, encrypted or package";

pub const KEY_WORDS: &str = "key or ec";

impl Kind {
    /// Its row of the table.
    pub fn row(self) -> KindRow
        ensures word { result.word.now ≡ word_of self }
        ensures other_words { texts result.other_words.now ≡ other_words_of self }
        ensures number { result.number ≡ number_of self }
        ensures labels { texts result.labels.now ≡ labels_of self }
        ensures type_name { result.type_name.now ≡ type_name_of self }
        ensures standard { result.standard.now ≡ standard_of self }
        ensures private_keys { result.private_keys ≡ private_keys_of self }
    {
        match self {
            Kind::Key => KindRow {
                word: "key",
                other_words: &["pkcs8"],
                number: 1,
                labels: &["PRIVATE KEY"],
                type_name: "OneAsymmetricKey",
                standard: "RFC 5958 section 2",
                private_keys: PrivateKeys::One,
            },
            Kind::Ec => KindRow {
                word: "ec",
                other_words: &["sec1"],
                number: 2,
                labels: &["EC PRIVATE KEY"],
                type_name: "ECPrivateKey",
                standard: "RFC 5915 section 3",
                private_keys: PrivateKeys::One,
            },
            Kind::Request => KindRow {
                word: "request",
                other_words: &["csr", "pkcs10"],
                number: 3,
                labels: &["CERTIFICATE REQUEST", "NEW CERTIFICATE REQUEST"],
                type_name: "CertificationRequest",
                standard: "RFC 2986 section 4",
                private_keys: PrivateKeys::None,
            },
            Kind::Public => KindRow {
                word: "public",
                other_words: &["spki"],
                number: 4,
                labels: &["PUBLIC KEY"],
                type_name: "SubjectPublicKeyInfo",
                standard: "RFC 5280 section 4.1",
                private_keys: PrivateKeys::None,
            },
            Kind::Encrypted => KindRow {
                word: "encrypted",
                other_words: &[],
                number: 5,
                labels: &["ENCRYPTED PRIVATE KEY"],
                type_name: "EncryptedPrivateKeyInfo",
                standard: "RFC 5958 section 3",
                private_keys: PrivateKeys::Encrypted,
            },
            Kind::Package => KindRow {
                word: "package",
                other_words: &[],
                number: 6,
                labels: &[],
                type_name: "AsymmetricKeyPackage",
                standard: "RFC 5958 section 2",
                private_keys: PrivateKeys::Several,
            },
        }
    }

    /// Whether a document of it is one private key.
    pub fn is_key(self) -> bool
        ensures { result ≡ is_key self }
    {
        matches!(self.row().private_keys, PrivateKeys::One)
    }

    /// Whether private keys stand in its documents as they are.
    pub fn has_plain_keys(self) -> bool
        ensures { result ≡ has_plain_keys self }
    {
        matches!(
            self.row().private_keys,
            PrivateKeys::One | PrivateKeys::Several
        )
    }

    /// Whether a private key may be in its documents, in plain or encrypted.
    pub fn may_be_private(self) -> bool
        ensures { result ≡ may_be_private self }
    {
        !matches!(self.row().private_keys, PrivateKeys::None)
    }

    /// The kind that a word means.
    #[tactic(auto, unfolding(crate::specs::KindRows::kind_named))]
    pub fn named(word: &str) -> Option<Kind>
        ensures { result ≡ kind_named word.now }
    {
        first_named(&KINDS, word)
    }

    /// The kind that a number means.
    #[tactic(auto, unfolding(crate::specs::KindRows::kind_numbered))]
    pub fn numbered(number: u32) -> Option<Kind>
        ensures means { result ≡ kind_numbered number }
        ensures number { IfSome result (λ kind. number_of kind ≡ number) }
        ensures exactly { IsSome result ↔ IsKindNumber number }
    {
        first_numbered(&KINDS, number)
    }
}

/// The first of these kinds that the word means.
fn first_named(kinds: &[Kind], word: &str) -> Option<Kind>
    ensures { result ≡ first_kind (has_word word.now) kinds.now }
{
    match kinds {
        [] => None,
        [kind, later @ ..] => {
            let row = kind.row();
            if word == row.word || is_among(word, row.other_words) {
                Some(*kind)
            } else {
                first_named(later, word)
            }
        }
    }
}

/// Whether the word is one of these.
fn is_among(word: &str, words: &[&str]) -> bool
    ensures { result ≡ list_any (bytes_eq word.now) (texts words.now) }
{
    match words {
        [] => false,
        [first, later @ ..] => word == *first || is_among(word, later),
    }
}

/// The first of these kinds that has the number.
fn first_numbered(kinds: &[Kind], number: u32) -> Option<Kind>
    ensures { result ≡ first_kind (has_number number) kinds.now }
{
    match kinds {
        [] => None,
        [kind, later @ ..] => {
            if kind.row().number == number {
                Some(*kind)
            } else {
                first_numbered(later, number)
            }
        }
    }
}
