//! Remarks by their codes and levels, which text and JSON have, and in words those on keys, names, extensions,
//! algorithms and what TLS servers may not have.
ghost use Rattle.std.specs.Prelude.{◌≡◌, ◌++◌, OnOk, string_bytes};
ghost use Rattle.reports.specs.Remarks.{algorithm_code, algorithm_level, algorithm_remark_said, attribute_code};
ghost use Rattle.reports.specs.Remarks.{attribute_level, attribute_numbers, attribute_remark_said, attribute_words};
ghost use Rattle.reports.specs.Remarks.{extension_code, extension_level, extension_remark_said, key_code, key_level};
ghost use Rattle.reports.specs.Remarks.{key_remark_said, name_code, name_level, name_numbers, name_words};
ghost use Rattle.reports.specs.Remarks.{name_remark_said, remark_code, remark_level, tls_code, tls_level, tls_numbers};
ghost use Rattle.reports.specs.Remarks.{tls_remark_said, tls_words};

use crate::report::{
    AlgorithmRemark, AttributeRemark, ExtensionRemark, KeyRemark, NameRemark, Remark, TlsRemark,
};
use crate::text::push_number;
use crate::text_report::push_reason;
use crate::words::push_size;
use std::alloc::AllocError;

/// What a program knows a remark by.
pub(crate) fn code_of(remark: Remark) -> &'static str
    ensures { result.now ≡ remark_code remark }
{
    match remark {
        Remark::PointSize(_) => "point_size",
        Remark::PointBits => "point_bits",
        Remark::PointHybrid(_) => "point_hybrid",
        Remark::NoNamedCurve => "no_named_curve",
        Remark::ExtensionTwice => "extension_twice",
        Remark::AttributeTwice => "attribute_twice",
        Remark::SeveralValues(_) => "several_values",
        Remark::KeySize(_, _) => "key_size",
        Remark::NeedlessParameters => "needless_parameters",
        Remark::ExtensionNotDer(_)
        | Remark::ExtensionZeroBits(_)
        | Remark::ExtensionRefused(_, _, _) => "extension_not_der",
        Remark::Key(remark) => code_of_key(remark),
        Remark::Name(remark) => code_of_name(remark),
        Remark::Extension(remark) => code_of_extension(remark),
        Remark::Algorithm(remark) => code_of_algorithm(remark),
        Remark::Attribute(remark) => code_of_attribute(remark),
        Remark::Tls(remark) => code_of_tls(remark),
    }
}

fn code_of_key(remark: KeyRemark) -> &'static str
    ensures { result.now ≡ key_code remark }
{
    match remark {
        KeyRemark::NotDer | KeyRemark::Refused(_, _) => "key_inside",
        KeyRemark::NegativeModulus => "rsa_negative",
        KeyRemark::EvenModulus => "rsa_even",
        KeyRemark::ShortModulus(_) => "rsa_size",
        KeyRemark::Exponent => "rsa_exponent",
        KeyRemark::SmallCurve(_) => "curve",
    }
}

fn code_of_name(remark: NameRemark) -> &'static str
    ensures { result.now ≡ name_code remark }
{
    match remark {
        NameRemark::AddressLength(_) => "san_ip_length",
        NameRemark::DnsSyntax => "san_dns_syntax",
        NameRemark::Wildcard => "san_wildcard",
        NameRemark::PrintableString => "printable_string",
        NameRemark::Hidden => "control_in_name",
        NameRemark::MailSyntax => "san_mail_syntax",
        NameRemark::UriSyntax => "san_uri_syntax",
        NameRemark::AddressAsDns => "san_ip_as_dns",
        NameRemark::Twice => "san_twice",
    }
}

fn code_of_attribute(remark: AttributeRemark) -> &'static str
    ensures { result.now ≡ attribute_code remark }
{
    match remark {
        AttributeRemark::Country => "country",
        AttributeRemark::EmailType => "email_type",
        AttributeRemark::OtherType => "name_type",
        AttributeRemark::Long(_, _) => "name_long",
        AttributeRemark::Blank => "name_blank",
    }
}

fn code_of_extension(remark: ExtensionRemark) -> &'static str
    ensures { result.now ≡ extension_code remark }
{
    match remark {
        ExtensionRemark::NoUsage => "ku_none",
        ExtensionRemark::SignWithoutCa => "certsign_without_ca",
        ExtensionRemark::PathWithoutCa => "pathlen_without_ca",
        ExtensionRemark::OldRequest => "old_extension_request",
        ExtensionRemark::EmptySubject => "empty_subject",
        ExtensionRemark::NoAttributes => "no_attributes",
    }
}

fn code_of_algorithm(remark: AlgorithmRemark) -> &'static str
    ensures { result.now ≡ algorithm_code remark }
{
    match remark {
        AlgorithmRemark::Sha1 => "sha1",
        AlgorithmRemark::Md5 | AlgorithmRemark::OldDigest => "md5",
        AlgorithmRemark::NoNull => "rsa_no_null",
        AlgorithmRemark::AnotherKey => "algorithm_of_another_key",
    }
}

fn code_of_tls(remark: TlsRemark) -> &'static str
    ensures { result.now ≡ tls_code remark }
{
    match remark {
        TlsRemark::ModulusBits(_) => "rsa_size",
        TlsRemark::Exponent => "rsa_exponent",
        TlsRemark::Curve => "curve",
        TlsRemark::KeyAlgorithm => "key_algorithm",
        TlsRemark::CommonName => "cn_not_in_san",
        TlsRemark::InternalName | TlsRemark::ReservedAddress => "san_internal",
        TlsRemark::AnyUsage => "eku_any",
        TlsRemark::NamesNotCritical => "san_not_critical",
    }
}

/// Whether the standard says MUST, or advises.
pub(crate) fn level_of(remark: Remark) -> &'static str
    ensures { result.now ≡ remark_level remark }
{
    match remark {
        Remark::PointSize(_)
        | Remark::PointBits
        | Remark::PointHybrid(_)
        | Remark::NoNamedCurve
        | Remark::ExtensionTwice
        | Remark::AttributeTwice
        | Remark::SeveralValues(_)
        | Remark::KeySize(_, _)
        | Remark::NeedlessParameters
        | Remark::ExtensionNotDer(_)
        | Remark::ExtensionZeroBits(_)
        | Remark::ExtensionRefused(_, _, _) => "must",
        Remark::Key(remark) => level_of_key(remark),
        Remark::Name(remark) => level_of_name(remark),
        Remark::Extension(remark) => level_of_extension(remark),
        Remark::Algorithm(remark) => level_of_algorithm(remark),
        Remark::Attribute(remark) => level_of_attribute(remark),
        Remark::Tls(remark) => level_of_tls(remark),
    }
}

fn level_of_key(remark: KeyRemark) -> &'static str
    ensures { result.now ≡ key_level remark }
{
    match remark {
        KeyRemark::ShortModulus(_) | KeyRemark::SmallCurve(_) => "should",
        KeyRemark::NotDer
        | KeyRemark::Refused(_, _)
        | KeyRemark::NegativeModulus
        | KeyRemark::EvenModulus
        | KeyRemark::Exponent => "must",
    }
}

fn level_of_name(remark: NameRemark) -> &'static str
    ensures { result.now ≡ name_level remark }
{
    match remark {
        NameRemark::Wildcard | NameRemark::AddressAsDns | NameRemark::Twice => "should",
        NameRemark::AddressLength(_)
        | NameRemark::DnsSyntax
        | NameRemark::PrintableString
        | NameRemark::Hidden
        | NameRemark::MailSyntax
        | NameRemark::UriSyntax => "must",
    }
}

fn level_of_attribute(remark: AttributeRemark) -> &'static str
    ensures { result.now ≡ attribute_level remark }
{
    match remark {
        AttributeRemark::Blank => "should",
        AttributeRemark::Country
        | AttributeRemark::EmailType
        | AttributeRemark::OtherType
        | AttributeRemark::Long(_, _) => "must",
    }
}

fn level_of_extension(remark: ExtensionRemark) -> &'static str
    ensures { result.now ≡ extension_level remark }
{
    match remark {
        ExtensionRemark::OldRequest
        | ExtensionRemark::EmptySubject
        | ExtensionRemark::NoAttributes => "should",
        ExtensionRemark::NoUsage
        | ExtensionRemark::SignWithoutCa
        | ExtensionRemark::PathWithoutCa => "must",
    }
}

fn level_of_algorithm(remark: AlgorithmRemark) -> &'static str
    ensures { result.now ≡ algorithm_level remark }
{
    match remark {
        AlgorithmRemark::Sha1 | AlgorithmRemark::Md5 | AlgorithmRemark::OldDigest => "should",
        AlgorithmRemark::NoNull | AlgorithmRemark::AnotherKey => "must",
    }
}

fn level_of_tls(remark: TlsRemark) -> &'static str
    ensures { result.now ≡ tls_level remark }
{
    match remark {
        TlsRemark::Exponent => "should",
        TlsRemark::ModulusBits(_)
        | TlsRemark::Curve
        | TlsRemark::KeyAlgorithm
        | TlsRemark::CommonName
        | TlsRemark::InternalName
        | TlsRemark::ReservedAddress
        | TlsRemark::AnyUsage
        | TlsRemark::NamesNotCritical => "must",
    }
}

#[tactic(auto, unfolding(crate::specs::Remarks::key_remark_said))]
pub(crate) fn push_key_remark(text: &mut String, remark: KeyRemark) -> Result<(), AllocError>
    ensures { OnOk result (string_bytes text.new ≡ string_bytes text.old ++ key_remark_said remark) }
{
    match remark {
        KeyRemark::NotDer => {
            text.push_str("the RSA key isn't in DER inside (RFC 3279 section 2.3.1)")
        }
        KeyRemark::Refused(at, why) => {
            text.push_str("the public key isn't an RSAPublicKey inside: fault at ")?;
            push_reason(text, at, why)?;
            text.push_str(", counted from the first octet of its value (RFC 3279 section 2.3.1)")
        }
        KeyRemark::NegativeModulus => text.push_str("a modulus below 0 (RFC 8017 section 3.1)"),
        KeyRemark::EvenModulus => text.push_str(
            "an even modulus, which is no product of odd primes (RFC 8017 section 3.1)",
        ),
        KeyRemark::ShortModulus(bits) => {
            text.push_str("a modulus of ")?;
            push_number(text, bits)?;
            text.push_str(" bits, where NIST SP 800-131A has 2048 at least")
        }
        KeyRemark::Exponent => text.push_str(
            "a public exponent that isn't an odd number from 3 on (RFC 8017 section 3.1)",
        ),
        KeyRemark::SmallCurve(bits) => {
            text.push_str("a curve of ")?;
            push_number(text, bits)?;
            text.push_str(" bits, where NIST SP 800-131A has 224 at least")
        }
    }
}

#[tactic(auto, unfolding(crate::specs::Remarks::name_remark_said))]
pub(crate) fn push_name_remark(text: &mut String, remark: NameRemark) -> Result<(), AllocError>
    ensures { OnOk result (string_bytes text.new ≡ string_bytes text.old ++ name_remark_said remark) }
{
    text.push_str(name_words(remark))?;
    push_name_numbers(text, remark)
}

/// What is said of a name, up to the numbers that it has.
#[tactic(auto, unfolding(crate::specs::Remarks::name_words))]
fn name_words(remark: NameRemark) -> &'static str
    ensures { result.now ≡ name_words remark }
{
    match remark {
        NameRemark::AddressLength(_) => "an IP address of ",
        NameRemark::DnsSyntax => {
            "a DNS name that isn't in the preferred name syntax (RFC 5280 section 4.2.1.6)"
        }
        NameRemark::Wildcard =>
            "a wildcard that isn't the whole first label (RFC 9525 section 6.3)",
        NameRemark::PrintableString => {
            "a PrintableString with a character that isn't one of its own (X.680 41.4)"
        }
        NameRemark::Hidden => {
            "a character that controls or formats text, which a reader doesn't see"
        }
        NameRemark::MailSyntax => "an rfc822Name that isn't a mailbox (RFC 5280 section 4.2.1.6)",
        NameRemark::UriSyntax => {
            "a URI without a scheme, or with nothing after it (RFC 5280 section 4.2.1.6)"
        }
        NameRemark::AddressAsDns => {
            "an IPv4 address as a DNS name, where iPAddress is for these (RFC 5280 section 4.2.1.6)"
        }
        NameRemark::Twice => "a name that stands there before",
    }
}

#[tactic(auto, unfolding(crate::specs::Remarks::name_numbers))]
fn push_name_numbers(text: &mut String, remark: NameRemark) -> Result<(), AllocError>
    ensures { OnOk result (string_bytes text.new ≡ string_bytes text.old ++ name_numbers remark) }
{
    match remark {
        NameRemark::AddressLength(octets) => {
            push_size(text, octets)?;
            text.push_str(", where it has 4 or 16 (RFC 5280 section 4.2.1.6)")
        }
        NameRemark::DnsSyntax
        | NameRemark::Wildcard
        | NameRemark::PrintableString
        | NameRemark::Hidden
        | NameRemark::MailSyntax
        | NameRemark::UriSyntax
        | NameRemark::AddressAsDns
        | NameRemark::Twice => Ok(()),
    }
}

#[tactic(auto, unfolding(crate::specs::Remarks::attribute_remark_said))]
pub(crate) fn push_attribute_remark(
    text: &mut String,
    remark: AttributeRemark,
) -> Result<(), AllocError>
    ensures { OnOk result (string_bytes text.new ≡ string_bytes text.old
        ++ attribute_remark_said remark) }
{
    text.push_str(attribute_words(remark))?;
    push_attribute_numbers(text, remark)
}

/// What is said of the value of an attribute, up to the numbers that it has.
#[tactic(auto, unfolding(crate::specs::Remarks::attribute_words))]
fn attribute_words(remark: AttributeRemark) -> &'static str
    ensures { result.now ≡ attribute_words remark }
{
    match remark {
        AttributeRemark::Country => {
            "a countryName that isn't a PrintableString of two characters (RFC 5280 appendix A.1)"
        }
        AttributeRemark::EmailType => {
            "an emailAddress that isn't an IA5String (RFC 5280 appendix A.1)"
        }
        AttributeRemark::OtherType => {
            "a value of another type than its attribute has (RFC 5280 appendix A.1)"
        }
        AttributeRemark::Long(_, _) => "a value of ",
        AttributeRemark::Blank => "a value in which a reader sees nothing",
    }
}

#[tactic(auto, unfolding(crate::specs::Remarks::attribute_numbers))]
fn push_attribute_numbers(text: &mut String, remark: AttributeRemark) -> Result<(), AllocError>
    ensures { OnOk result (string_bytes text.new ≡ string_bytes text.old ++ attribute_numbers remark) }
{
    match remark {
        AttributeRemark::Long(characters, most) => {
            push_number(text, characters)?;
            text.push_str(" characters, where its attribute has ")?;
            push_number(text, most)?;
            text.push_str(" at most (RFC 5280 appendix A.1)")
        }
        AttributeRemark::Country
        | AttributeRemark::EmailType
        | AttributeRemark::OtherType
        | AttributeRemark::Blank => Ok(()),
    }
}

#[tactic(auto, unfolding(crate::specs::Remarks::extension_remark_said))]
pub(crate) fn extension_remark_words(remark: ExtensionRemark) -> &'static str
    ensures { result.now ≡ extension_remark_said remark }
{
    match remark {
        ExtensionRemark::NoUsage => { "a keyUsage of which no bit is 1 (RFC 5280 section 4.2.1.3)" }
        ExtensionRemark::SignWithoutCa => {
            "keyCertSign, where no basicConstraints has cA TRUE (RFC 5280 section 4.2.1.3)"
        }
        ExtensionRemark::PathWithoutCa => {
            "pathLenConstraint, where no basicConstraints has cA TRUE (RFC 5280 section 4.2.1.9)"
        }
        ExtensionRemark::OldRequest => {
            "Microsoft's attribute in place of extensionRequest (RFC 2985 section 5.4.2)"
        }
        ExtensionRemark::EmptySubject => {
            "a subject without an attribute, and no subjectAltName (RFC 5280 section 4.1.2.6)"
        }
        ExtensionRemark::NoAttributes => {
            "no field attributes, which a request has even where it is empty (RFC 2986 section 4.1)"
        }
    }
}

#[tactic(auto, unfolding(crate::specs::Remarks::algorithm_remark_said))]
pub(crate) fn algorithm_remark_words(remark: AlgorithmRemark) -> &'static str
    ensures { result.now ≡ algorithm_remark_said remark }
{
    match remark {
        AlgorithmRemark::Sha1 => "a signature with SHA-1 (NIST SP 800-131A)",
        AlgorithmRemark::Md5 => "a signature with MD5 (RFC 6151 section 2)",
        AlgorithmRemark::OldDigest => "a signature with MD2 or MD4, which are older than MD5",
        AlgorithmRemark::NoNull => {
            "rsaEncryption without NULL as its parameters (RFC 8017 appendix A.1, RFC 3279 section 2.3.1)"
        }
        AlgorithmRemark::AnotherKey => {
            "a signature that the key in the request can't make (RFC 2986 section 3)"
        }
    }
}

#[tactic(auto, unfolding(crate::specs::Remarks::tls_remark_said))]
pub(crate) fn push_tls_remark(text: &mut String, remark: TlsRemark) -> Result<(), AllocError>
    ensures { OnOk result (string_bytes text.new ≡ string_bytes text.old ++ tls_remark_said remark) }
{
    text.push_str(tls_words(remark))?;
    push_tls_numbers(text, remark)
}

/// What is said for TLS servers, up to the numbers that it has.
#[tactic(auto, unfolding(crate::specs::Remarks::tls_words))]
fn tls_words(remark: TlsRemark) -> &'static str
    ensures { result.now ≡ tls_words remark }
{
    match remark {
        TlsRemark::ModulusBits(_) => "a modulus of ",
        TlsRemark::Exponent => {
            "a public exponent that isn't from 65537 up to 2^256 - 1 (Baseline Requirements section 6.1.6)"
        }
        TlsRemark::Curve => {
            "a curve that isn't P-256, P-384 or P-521 (Baseline Requirements section 6.1.5)"
        }
        TlsRemark::KeyAlgorithm => {
            "a key that is neither rsaEncryption nor id-ecPublicKey (Baseline Requirements section 7.1.3.1)"
        }
        TlsRemark::CommonName => {
            "a commonName that isn't one of the names in subjectAltName (Baseline Requirements section 7.1.4.3)"
        }
        TlsRemark::InternalName => {
            "a DNS name of one label, or under one that isn't in the public DNS \
            (Baseline Requirements section 7.1.2.7.12)"
        }
        TlsRemark::ReservedAddress => {
            "an IP address that isn't one of the Internet's (Baseline Requirements section 7.1.2.7.12)"
        }
        TlsRemark::AnyUsage => {
            "the usage anyExtendedKeyUsage (Baseline Requirements section 7.1.2.7.10)"
        }
        TlsRemark::NamesNotCritical => {
            "a subjectAltName that isn't critical beside an empty subject (RFC 5280 section 4.2.1.6)"
        }
    }
}

#[tactic(auto, unfolding(crate::specs::Remarks::tls_numbers))]
fn push_tls_numbers(text: &mut String, remark: TlsRemark) -> Result<(), AllocError>
    ensures { OnOk result (string_bytes text.new ≡ string_bytes text.old ++ tls_numbers remark) }
{
    match remark {
        TlsRemark::ModulusBits(bits) => {
            push_number(text, bits)?;
            text.push_str(
                " bits, where 2048 at least are due and 8 divide them (Baseline Requirements section 6.1.5)",
            )
        }
        TlsRemark::Exponent
        | TlsRemark::Curve
        | TlsRemark::KeyAlgorithm
        | TlsRemark::CommonName
        | TlsRemark::InternalName
        | TlsRemark::ReservedAddress
        | TlsRemark::AnyUsage
        | TlsRemark::NamesNotCritical => Ok(()),
    }
}
