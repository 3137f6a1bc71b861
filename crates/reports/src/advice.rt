//! What each reason means, what often causes it, and what to do: the words of the table in `docs/manual.md`.
ghost use Rattle.std.specs.Prelude.{◌≡◌};
ghost use Rattle.reports.specs.Advice.{advice_of, words_of};

use tlv_core::reason::Reason;

/// Words on a reason. P is the place that is shown with it.
#[derive(Clone, Copy)]
pub struct Advice {
    pub means: &'static str,
    /// What often causes it.
    pub likely: &'static str,
    /// What to do.
    pub act: &'static str,
}

/// The words on a reason.
pub fn advice_on(why: Reason) -> Advice
    ensures { words_of result ≡ advice_of why }
{
    match why {
        Reason::Truncated => Advice {
            means: "the input ends before the document does; P is how many octets there are",
            likely: "a transfer that broke off, an outer length that is too large, an empty file (P \
                is 0)",
            act: "compare the size with the sender's, fetch it again",
        },
        Reason::TooLong => Advice {
            means: "the document is longer than --octets, or says so",
            likely: "a damaged length, something that isn't ASN.1; seldom a long document",
            act: "if wc -c says that it is so long, raise --octets",
        },
        Reason::BadTag => Advice {
            means: "no element has such an identifier",
            likely: "a damaged octet, something that isn't ASN.1, a tag number of 2^28 or more",
            act: "refuse it",
        },
        Reason::PastEnd => Advice {
            means: "the element at P ends after the one that it is in",
            likely: "a length that is damaged, here or around it; a field edited by hand",
            act: "look at the lengths before P; refuse it",
        },
        Reason::BadEnd => Advice {
            means: "an octet 00 where an element should begin",
            likely: "padding with zeros, a wrong length before P",
            act: "refuse it",
        },
        Reason::TooDeep => Advice {
            means: "elements are nested deeper than --depth",
            likely: "an attack; a strange attribute",
            act: "up to --depth 64, if you know the file",
        },
        Reason::WrongTag => Advice {
            means: "another type stands at P than is due there",
            likely: "at 0 PEM or text, at 2 to 13 another kind of document; else a damaged octet, a \
                curve that is written out, an attribute's value without its SET",
            act: "see the manual's table of other kinds and formats",
        },
        Reason::Extra => Advice {
            means: "an element after the last field",
            likely: "a container's length that is too large, two values in one, a writer's own \
                additions",
            act: "look at the container; refuse it",
        },
        Reason::LeftOut => Advice {
            means: "where any type may stand, one that pkder doesn't read: EXTERNAL, REAL, EMBEDDED \
                PDV, RELATIVE-OID, TIME and later ones",
            likely: "a rare attribute, a damaged octet",
            act: "pkder can't judge it",
        },
        Reason::WrongForm => Advice {
            means: "a SEQUENCE, SET or explicit tag that is primitive, or a number, BOOLEAN, NULL or \
                object identifier that is constructed",
            likely: "a damaged identifier, a fault of the writer",
            act: "refuse it",
        },
        Reason::BadLength => Advice {
            means: "a length FF, or an indefinite one of something primitive",
            likely: "a damaged length, a fault of the writer",
            act: "refuse it",
        },
        Reason::Missing => Advice {
            means: "an element ends where a field is still due",
            likely: "a length that is too small, an empty SEQUENCE, a field left out",
            act: "refuse it",
        },
        Reason::BadInteger => Advice {
            means: "a number of no octets, or with a needless 00 or FF at its front",
            likely: "a writer that pads numbers to one size, seen in RSA keys",
            act: "BER forbids it too: have the key written anew",
        },
        Reason::BadBoolean => Advice {
            means: "a BOOLEAN that hasn't just one octet",
            likely: "a damaged length",
            act: "refuse it",
        },
        Reason::BadNull => Advice {
            means: "a NULL that has octets",
            likely: "a damaged length",
            act: "refuse it",
        },
        Reason::BadBits => Advice {
            means: "a BIT STRING without its first octet, with more than 7 unused bits, or with \
                unused bits before its end",
            likely: "a key or signature written as an OCTET STRING is (wolfSSL's [1] of keys)",
            act: "a fault of the writer; refuse it",
        },
        Reason::BadOid => Advice {
            means: "an object identifier that is empty, breaks off, pads a number in front, or has a \
                number of 2^128 or more in it",
            likely: "a damaged octet; a forged identifier",
            act: "refuse it",
        },
        Reason::BadText => Advice {
            means: "a UTF8String that isn't UTF-8",
            likely: "a name in Latin-1, with a letter that isn't ASCII",
            act: "a new request, its text in UTF-8 (openssl req -utf8)",
        },
        Reason::EmptySet => Advice {
            means: "a SET of no members that has to have one",
            likely: "an attribute without a value, an empty relative name",
            act: "a new request",
        },
        Reason::Version => Advice {
            means: "a version that the kind doesn't have",
            likely: "under ec a PKCS #8 or PKCS #1 file, under key a PKCS #12 file; under request a \
                certificate of version 1; a request that is numbered 1 or more",
            act: "see the manual's table of other kinds and formats; version 1 of a request is \
                written as 0",
        },
        Reason::Parameters => Advice {
            means: "an algorithm with parameters that it may not have, or an EC key without a named \
                curve",
            likely: "NULL beside Ed25519, a curve that is written out",
            act: "have a key written anew, as the manual says under Getting the octets; of a request \
                a new one, by another program: its signature is over its key's parameters, too",
        },
        Reason::Inner => Advice {
            means: "what is inside privateKey isn't the key that the algorithm asks for; the place \
                and reason inside follow",
            likely: "an octet after it, a key wrapped once too often or too little (TooLong inside \
                is often a bare seed); or any fault of this table",
            act: "read the reason inside",
        },
        Reason::Curve => Advice {
            means: "a PKCS #8 key names two curves that differ",
            likely: "a forged or badly edited key, of which tools read one curve or the other",
            act: "never use it",
        },
        Reason::KeyLength => Advice {
            means: "the key hasn't the length of its curve",
            likely: "zeros dropped in front (of P-521 keys every second one has some), an octet 00 \
                added in front (certtool), Ed25519's private and public key in one; inside, that \
                the key there names another curve than the container, which is judged later",
            act: "first see that both curves are one (openssl asn1parse); have it written anew, \
                and compare the public keys",
        },
        Reason::VersionRule => Advice {
            means: "PKCS #8 of version 0 with a public key, or of version 1 without one; of RSA keys \
                the same with further primes",
            likely: "a writer that doesn't know RFC 5958",
            act: "have it written anew",
        },
        Reason::TextTooLong => Advice {
            means: "the document is within --octets and its DER text isn't",
            likely: "an indefinite length just below the limit",
            act: "raise --octets",
        },
        Reason::Trailing => Advice {
            means: "the document ends at P, and more follows",
            likely: "a line feed of an editor, two files in one, padding",
            act: "look at what follows, by xxd -s P FILE, before you cut it off",
        },
    }
}
