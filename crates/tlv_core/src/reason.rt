//! Why a document is refused.
ghost use Rattle.std.specs.Prelude.{◌≡◌};
ghost use Rattle.tlv_core.specs.Reasons.{number_of, name_of};

/// Why a document is refused.
#[derive(Clone, Copy, Debug, PartialEq, Eq)]
pub enum Reason {
    /// The input ends where an octet is needed.
    Truncated,
    /// An element reaches past the limit of octets.
    TooLong,
    /// Identifier octets that are no tag, or a number of 2^28 or more.
    BadTag,
    /// An element reaches past the end of a container around it.
    PastEnd,
    /// End-of-contents octets where none may stand, or half of them.
    BadEnd,
    /// An element is nested deeper than the limit.
    TooDeep,
    /// An element of another tag is due.
    WrongTag,
    /// An element stands where none is due.
    Extra,
    /// An element that this profile leaves out.
    LeftOut,
    /// Primitive where constructed is due, or the other way round.
    WrongForm,
    /// Length octets that are not used, or the indefinite form in a primitive element.
    BadLength,
    /// A container ends where an element is due.
    Missing,
    /// Contents that are no INTEGER or ENUMERATED.
    BadInteger,
    /// Contents that are no BOOLEAN.
    BadBoolean,
    /// A NULL with contents.
    BadNull,
    /// Contents that are no BIT STRING, or unused bits before its last segment.
    BadBits,
    /// Contents that are no OBJECT IDENTIFIER.
    BadOid,
    /// A UTF8String that is not UTF-8.
    BadText,
    /// A SET OF without members where one is due.
    EmptySet,
    /// A version that its type doesn't have.
    Version,
    /// Parameters that do not go with the algorithm.
    Parameters,
    /// A fault of the octets inside an OCTET STRING.
    Inner,
    /// A curve inside that is not the container's.
    Curve,
    /// A key of the wrong length.
    KeyLength,
    /// A version that does not go with the fields.
    VersionRule,
    /// The DER text is longer than the limit of octets.
    TextTooLong,
    /// Octets after the value.
    Trailing,
}

impl Reason {
    /// The number of the reason, 1 to 27 in the order of the variants.
    pub fn number(self) -> u8
        ensures { result ≡ number_of self }
    {
        match self {
            Reason::Truncated => 1,
            Reason::TooLong => 2,
            Reason::BadTag => 3,
            Reason::PastEnd => 4,
            Reason::BadEnd => 5,
            Reason::TooDeep => 6,
            Reason::WrongTag => 7,
            Reason::Extra => 8,
            Reason::LeftOut => 9,
            Reason::WrongForm => 10,
            Reason::BadLength => 11,
            Reason::Missing => 12,
            Reason::BadInteger => 13,
            Reason::BadBoolean => 14,
            Reason::BadNull => 15,
            Reason::BadBits => 16,
            Reason::BadOid => 17,
            Reason::BadText => 18,
            Reason::EmptySet => 19,
            Reason::Version => 20,
            Reason::Parameters => 21,
            Reason::Inner => 22,
            Reason::Curve => 23,
            Reason::KeyLength => 24,
            Reason::VersionRule => 25,
            Reason::TextTooLong => 26,
            Reason::Trailing => 27,
        }
    }

    /// The name of the reason: the variant's.
    pub fn name(self) -> &'static str
        ensures { result.now ≡ name_of self }
    {
        match self {
            Reason::Truncated => "Truncated",
            Reason::TooLong => "TooLong",
            Reason::BadTag => "BadTag",
            Reason::PastEnd => "PastEnd",
            Reason::BadEnd => "BadEnd",
            Reason::TooDeep => "TooDeep",
            Reason::WrongTag => "WrongTag",
            Reason::Extra => "Extra",
            Reason::LeftOut => "LeftOut",
            Reason::WrongForm => "WrongForm",
            Reason::BadLength => "BadLength",
            Reason::Missing => "Missing",
            Reason::BadInteger => "BadInteger",
            Reason::BadBoolean => "BadBoolean",
            Reason::BadNull => "BadNull",
            Reason::BadBits => "BadBits",
            Reason::BadOid => "BadOid",
            Reason::BadText => "BadText",
            Reason::EmptySet => "EmptySet",
            Reason::Version => "Version",
            Reason::Parameters => "Parameters",
            Reason::Inner => "Inner",
            Reason::Curve => "Curve",
            Reason::KeyLength => "KeyLength",
            Reason::VersionRule => "VersionRule",
            Reason::TextTooLong => "TextTooLong",
            Reason::Trailing => "Trailing",
        }
    }
}
