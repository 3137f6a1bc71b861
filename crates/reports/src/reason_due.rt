//! What is due where the reason of a fault alone says it.
ghost use Rattle.std.specs.Prelude.{◌≡◌};
ghost use Rattle.reports.specs.ReasonDue.{reason_due, version_due, words_due};

use tlv_core::fault::Fault;
use tlv_core::reason::Reason;

/// What is due in a document of this kind; empty where it is a matter of type or of another element.
pub(crate) fn reason_due(kind: &str, fault: Fault) -> &'static str
    ensures { result.now ≡ reason_due kind.now fault }
{
    match fault.inside {
        Some((_, why)) => words_due(
            why,
            "version 1 of an ECPrivateKey, 0 or 1 of an RSAPrivateKey",
        ),
        None => words_due(fault.why, version_due(kind)),
    }
}

/// The versions of a kind's documents.
fn version_due(kind: &str) -> &'static str
    ensures { result.now ≡ version_due kind.now }
{
    if kind == "ec" {
        return "version 1";
    }
    if kind == "request" {
        return "version 0";
    }
    "version 0 or 1"
}

/// What X.690 asks for, and pkder's limits; of a version what is shown of that.
fn words_due(why: Reason, version: &'static str) -> &'static str
    ensures { result.now ≡ words_due why version.now }
{
    match why {
        Reason::TooLong => "no more octets than --octets allows",
        Reason::TooDeep => "elements nested no deeper than --depth allows",
        Reason::WrongForm =>
            "constructed where it is a SEQUENCE, SET or explicit tag, else primitive",
        Reason::BadLength =>
            "a length that doesn't begin with FF, and isn't indefinite where primitive",
        Reason::BadInteger => "at least one octet, and no needless 00 or FF in front",
        Reason::BadBoolean => "one octet",
        Reason::BadNull => "no octets",
        Reason::BadBits => "a first octet of 0 to 7 that counts the unused bits of the last one",
        Reason::BadOid => "arcs that are whole, below 2^128 and in the fewest octets",
        Reason::BadText => "UTF-8",
        Reason::EmptySet => "a SET OF with at least one member",
        Reason::Version => version,
        Reason::KeyLength => "as many octets as the curve or the algorithm asks for",
        _ => "",
    }
}
