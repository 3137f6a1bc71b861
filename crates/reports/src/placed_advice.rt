//! What often causes a fault, and what to do, where what is shown or its place says more than its reason.
ghost use Rattle.std.specs.Prelude.{◌≡◌, ◌++◌, OnOk, string_bytes};
ghost use Rattle.reports.specs.PlacedAdvice.{act_at, act_inside, beside_act, fault_act, fault_likely, held_act};
ghost use Rattle.reports.specs.PlacedAdvice.{integer_act, length_act, likely_at, likely_inside, null_act};
ghost use Rattle.reports.specs.PlacedAdvice.{octet_replaced, parameters_act, parameters_likely, place_act};
ghost use Rattle.reports.specs.PlacedAdvice.{place_likely, seen_act, seen_likely, set_act, version_act};
ghost use Rattle.reports.specs.PlacedAdvice.{version_likely, version_rule_act, written_act, wrong_tag_act};
ghost use Rattle.reports.specs.PlacedAdvice.{wrong_tag_likely};

use crate::advice::advice_on;
use crate::afters::push_after;
use crate::seen::Seen;
use crate::text::{push_between, push_sum};
use std::alloc::AllocError;
use tlv_core::fault::Fault;
use tlv_core::reason::Reason;

/// What often causes it, where a document of this kind was wanted: by what is shown of it, else by its place.
pub(crate) fn push_fault_likely(
    text: &mut String,
    kind: &str,
    seen: Seen,
    fault: Fault,
) -> Result<(), AllocError>
    ensures { OnOk result (string_bytes text.new ≡ string_bytes text.old
        ++ fault_likely kind.now seen fault) }
{
    match seen {
        Seen::Nothing => push_place_likely(text, kind, fault),
        Seen::After(after) => push_after(text, after),
        _ => text.push_str(seen_likely(seen)),
    }
}

/// By what is shown, but for the octets after a document.
fn seen_likely(seen: Seen) -> &'static str
    ensures { result.now ≡ seen_likely seen }
{
    match seen {
        Seen::Nothing => "",
        Seen::NullParameters => "NULL beside an algorithm that has no parameters",
        Seen::Parameters => "parameters beside an algorithm that has none",
        Seen::NoCurve => "an EC key without the name of its curve",
        Seen::WrittenOut => "a curve that is written out",
        Seen::InSegments | Seen::KeyInSegments(_) =>
            "it is marked as a string in segments, and holds something else: a fault of its writer",
        Seen::NoSet => "a value without the SET around it: a fault of its writer",
        Seen::MaybeNoSet => "a value without the SET around it, or a damaged octet",
        Seen::After(_) => "",
    }
}

/// By the place.
fn push_place_likely(text: &mut String, kind: &str, fault: Fault) -> Result<(), AllocError>
    ensures { OnOk result (string_bytes text.new ≡ string_bytes text.old
        ++ place_likely kind.now fault) }
{
    match fault.inside {
        Some((_, why)) => text.push_str(likely_inside(why)),
        None => push_likely_at(text, kind, fault.at, fault.why),
    }
}

/// By the place in the file.
fn push_likely_at(text: &mut String, kind: &str, at: u64, why: Reason) -> Result<(), AllocError>
    ensures { OnOk result (string_bytes text.new ≡ string_bytes text.old
        ++ likely_at kind.now at why) }
{
    match why {
        Reason::WrongTag => text.push_str(wrong_tag_likely(at)),
        Reason::Version => text.push_str(version_likely(kind)),
        Reason::Parameters => text.push_str(parameters_likely(kind)),
        Reason::Truncated => text.push_str(
            "a transfer that broke off, an outer length that is too large",
        ),
        Reason::BadEnd => push_between(text, "a wrong length before ", at, ", padding with zeros"),
        _ => text.push_str(advice_on(why).likely),
    }
}

/// Of an element of another type.
fn wrong_tag_likely(at: u64) -> &'static str
    ensures { result.now ≡ wrong_tag_likely at }
{
    if at == 0 {
        "PEM or text, something that isn't ASN.1"
    } else if at < 14 {
        "another kind of document"
    } else {
        "a damaged octet"
    }
}

/// The version of a request is 0; certificates count theirs by another number.
fn version_likely(kind: &str) -> &'static str
    ensures { result.now ≡ version_likely kind.now }
{
    if kind == "request" {
        "a client that numbers requests as certificates"
    } else if kind == "ec" {
        "a PKCS #8 or PKCS #1 file, a damaged octet"
    } else if kind == "key" {
        "a PKCS #12 file, a damaged octet"
    } else {
        "a damaged octet"
    }
}

/// Private keys alone have to name a curve.
fn parameters_likely(kind: &str) -> &'static str
    ensures { result.now ≡ parameters_likely kind.now }
{
    if kind == "key" || kind == "package" {
        advice_on(Reason::Parameters).likely
    } else {
        "parameters beside an algorithm that has none, mostly NULL"
    }
}

/// Inside `privateKey`, where the file is whole and its lengths are right.
fn likely_inside(why: Reason) -> &'static str
    ensures { result.now ≡ likely_inside why }
{
    match why {
        Reason::WrongTag => "a damaged octet",
        Reason::Truncated => "a length inside that is too large",
        Reason::BadEnd => "padding with zeros, a wrong length before it",
        Reason::Trailing => "padding, an octet that the writer added",
        Reason::Version => "another sort of key than the algorithm says, a damaged octet",
        _ => advice_on(why).likely,
    }
}

/// What to do, where a document of this kind was wanted: by what is shown of it, else by its place.
pub(crate) fn push_fault_act(
    text: &mut String,
    kind: &str,
    seen: Seen,
    fault: Fault,
) -> Result<(), AllocError>
    ensures { OnOk result (string_bytes text.new ≡ string_bytes text.old
        ++ fault_act kind.now seen fault) }
{
    match seen {
        Seen::Nothing | Seen::After(_) => push_place_act(text, kind, fault),
        Seen::KeyInSegments(begin) => push_held_act(text, begin),
        _ => text.push_str(seen_act(kind, seen)),
    }
}

/// With `privateKey` at this place, whose identifier octet is to be 04 and not 24 (X.690 8.7.1).
fn push_held_act(text: &mut String, begin: u64) -> Result<(), AllocError>
    ensures { OnOk result (string_bytes text.new ≡ string_bytes text.old ++ held_act begin) }
{
    push_octet_replaced(text, begin)?;
    push_sum(text, begin, 2)?;
    text.push_str(" FILE) > NEW marks it as one string")
}

/// The octets before it, and the new one.
#[tactic(auto, unfolding(crate::specs::PlacedAdvice::octet_replaced))]
fn push_octet_replaced(text: &mut String, begin: u64) -> Result<(), AllocError>
    ensures { OnOk result (string_bytes text.new ≡ string_bytes text.old ++ octet_replaced begin) }
{
    push_between(
        text,
        "(head -c ",
        begin,
        " FILE; echo 04 | xxd -r -p; tail -c +",
    )
}

/// By what is shown.
fn seen_act(kind: &str, seen: Seen) -> &'static str
    ensures { result.now ≡ seen_act kind.now seen }
{
    match seen {
        Seen::NullParameters => null_act(kind),
        Seen::Parameters => beside_act(kind),
        Seen::NoCurve => {
            "openssl asn1parse -inform DER -in FILE -strparse PLACE -noout -out NEW writes what \
                privateKey, at that place, holds: read it with --kind ec"
        }
        Seen::WrittenOut => written_act(kind),
        Seen::NoSet | Seen::MaybeNoSet => set_act(kind),
        _ => "refuse it",
    }
}

/// With NULL beside an algorithm that has no parameters.
fn null_act(kind: &str) -> &'static str
    ensures { result.now ≡ null_act kind.now }
{
    if kind == "key" {
        "certtool --to-p8 --load-privkey FILE --inder --outder --password= --outfile NEW leaves it \
            out; OpenSSL refuses it, too"
    } else if kind == "public" {
        "certtool --pubkey-info --load-pubkey FILE --inder --outder --outfile NEW leaves it out; \
            OpenSSL refuses it, too"
    } else {
        beside_act(kind)
    }
}

/// With other parameters.
fn beside_act(kind: &str) -> &'static str
    ensures { result.now ≡ beside_act kind.now }
{
    if kind == "request" {
        "a new request, by a program that leaves them out: its signature is over its key's \
            parameters, too"
    } else {
        "have it written anew by a program that leaves them out"
    }
}

/// With a curve that is written out.
fn written_act(kind: &str) -> &'static str
    ensures { result.now ≡ written_act kind.now }
{
    if kind == "ec" {
        "openssl ec -inform DER -in FILE -param_enc named_curve -outform DER names it, where it has a \
            usual name"
    } else if kind == "key" {
        "openssl ec -inform DER -in FILE -param_enc named_curve | openssl pkcs8 -topk8 -nocrypt \
            -outform DER names it, where it has a usual name"
    } else {
        "have it written anew, with the name of the curve"
    }
}

/// With a value that has no SET around it.
fn set_act(kind: &str) -> &'static str
    ensures { result.now ≡ set_act kind.now }
{
    if kind == "request" {
        "a new request, by another program"
    } else {
        "have it written anew by another program"
    }
}

/// By the place.
fn push_place_act(text: &mut String, kind: &str, fault: Fault) -> Result<(), AllocError>
    ensures { OnOk result (string_bytes text.new ≡ string_bytes text.old
        ++ place_act kind.now fault) }
{
    match fault.inside {
        Some((_, why)) => text.push_str(act_inside(kind, why)),
        None => push_act_at(text, kind, fault.at, fault.why),
    }
}

/// With a place in the file.
fn push_act_at(text: &mut String, kind: &str, at: u64, why: Reason) -> Result<(), AllocError>
    ensures { OnOk result (string_bytes text.new ≡ string_bytes text.old ++ act_at kind.now at why) }
{
    match why {
        Reason::WrongTag => text.push_str(wrong_tag_act(at)),
        Reason::Version => text.push_str(version_act(kind)),
        Reason::Parameters => text.push_str(parameters_act(kind)),
        Reason::KeyLength => text.push_str(length_act(kind)),
        Reason::VersionRule => text.push_str(version_rule_act(kind)),
        Reason::PastEnd => push_between(text, "look at the lengths before ", at, "; refuse it"),
        Reason::Trailing => push_between(
            text,
            "look at what follows, by xxd -s ",
            at,
            " FILE, before you cut it off",
        ),
        _ => text.push_str(advice_on(why).act),
    }
}

/// Where another type was due.
fn wrong_tag_act(at: u64) -> &'static str
    ensures { result.now ≡ wrong_tag_act at }
{
    if at < 14 {
        advice_on(Reason::WrongTag).act
    } else {
        "refuse it"
    }
}

fn version_act(kind: &str) -> &'static str
    ensures { result.now ≡ version_act kind.now }
{
    if kind == "request" {
        "a new request, whose version is written as 0 and called v1"
    } else {
        "see the manual's table of other kinds and formats; else refuse it"
    }
}

fn parameters_act(kind: &str) -> &'static str
    ensures { result.now ≡ parameters_act kind.now }
{
    if kind == "request" {
        beside_act(kind)
    } else {
        "have it written anew, as the manual says under Getting the octets"
    }
}

fn length_act(kind: &str) -> &'static str
    ensures { result.now ≡ length_act kind.now }
{
    if kind == "ec" {
        "openssl ec -inform DER -in FILE -outform DER writes it anew; compare the public keys"
    } else if kind == "key" {
        "first see that both curves are one (openssl asn1parse); openssl pkcs8 -topk8 -nocrypt -inform DER \
            -in FILE -outform DER writes an EC key anew; compare the public keys"
    } else {
        advice_on(Reason::KeyLength).act
    }
}

fn version_rule_act(kind: &str) -> &'static str
    ensures { result.now ≡ version_rule_act kind.now }
{
    if kind == "key" {
        "openssl pkcs8 -topk8 -nocrypt -inform DER -in FILE -outform DER writes a key of version 1 \
            without a public key anew; another one has its own tool to write"
    } else {
        advice_on(Reason::VersionRule).act
    }
}

/// With what is inside `privateKey`: none of its places is one of the file.
fn act_inside(kind: &str, why: Reason) -> &'static str
    ensures { result.now ≡ act_inside kind.now why }
{
    match why {
        Reason::WrongTag | Reason::Truncated | Reason::PastEnd | Reason::Version => "refuse it",
        Reason::Trailing => "have the key written anew by its own tool",
        Reason::BadInteger => integer_act(kind),
        Reason::KeyLength => length_act(kind),
        _ => advice_on(why).act,
    }
}

/// With a number that isn't in the fewest octets.
fn integer_act(kind: &str) -> &'static str
    ensures { result.now ≡ integer_act kind.now }
{
    if kind == "key" {
        "openssl pkcs8 -topk8 -nocrypt -inform DER -in FILE -outform DER writes the numbers of an RSA \
            key anew"
    } else {
        advice_on(Reason::BadInteger).act
    }
}
