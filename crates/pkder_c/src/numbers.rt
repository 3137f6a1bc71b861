//! What numbers mean.
ghost use Rattle.std.specs.Prelude.{◌≡◌, ◌↔◌, IfSome, IsSome};
ghost use Rattle.tlv_core.specs.Limits.{IsLimits};
ghost use Rattle.tlv_core.specs.Reasons.{number_of};
ghost use Rattle.pk_documents.specs.KindRows.{IsKindNumber, number_of as kind_number};
ghost use Rattle.pkder_c.specs.Numbers.{IsFormNumber, IsFormOf, IsPartNumber, IsReasonNumber, part_number};

use explain::profile::Profile;
use explain::received::RequestPart;
use explain::written::{Form, PLACES};
use pk_documents::kind::Kind;
use pk_documents::request_part::Part;
use tlv_core::limits::Limits;
use tlv_core::reason::Reason;

/// The kind of this number.
pub fn kind_of(number: u32) -> Option<Kind>
    ensures kind { IfSome result (λ kind. kind_number kind ≡ number) }
    ensures exactly { IsSome result ↔ IsKindNumber number }
{
    Kind::numbered(number)
}

/// The part of a request that has this number.
pub fn request_part_of(number: u32) -> Option<RequestPart>
    ensures part { IfSome result (λ part. part_number part ≡ number) }
    ensures exactly { IsSome result ↔ IsPartNumber number }
{
    match number {
        1 => Some(RequestPart::Written(Part::Info)),
        2 => Some(RequestPart::Written(Part::Algorithm)),
        3 => Some(RequestPart::Written(Part::Key)),
        4 => Some(RequestPart::Written(Part::Signature)),
        5 => Some(RequestPart::Received),
        _ => None,
    }
}

/// The form of a report that has this number.
pub fn form_of(number: u32) -> Option<Form>
    ensures form { IfSome result (IsFormOf number) }
    ensures exactly { IsSome result ↔ IsFormNumber number }
{
    let (json, all, profile) = match number {
        0 => (false, false, Profile::General),
        1 => (false, true, Profile::General),
        2 => (true, false, Profile::General),
        3 => (true, true, Profile::General),
        4 => (false, false, Profile::Tls),
        5 => (false, true, Profile::Tls),
        6 => (true, false, Profile::Tls),
        7 => (true, true, Profile::Tls),
        _ => return None,
    };
    Some(Form {
        json,
        brief: false,
        all,
        places: PLACES,
        profile,
    })
}

/// The limits of these numbers.
pub fn limits_of(depth: u32, octets: u64) -> Option<Limits>
    ensures limits { IfSome result (λ limits. limits
        ≡ record { depth = depth; octets = octets }) }
    ensures exactly { IsSome result ↔ IsLimits (record { depth = depth; octets = octets }) }
{
    if depth > 64 || octets > 2_147_483_647 {
        return None;
    }
    Limits::new(depth as u8, octets as u32)
}

/// The reason of this number.
pub fn reason_of(number: u32) -> Option<Reason>
    ensures reason { IfSome result (λ reason. number_of reason ≡ number) }
    ensures exactly { IsSome result ↔ IsReasonNumber number }
{
    match number {
        1 => Some(Reason::Truncated),
        2 => Some(Reason::TooLong),
        3 => Some(Reason::BadTag),
        4 => Some(Reason::PastEnd),
        5 => Some(Reason::BadEnd),
        6 => Some(Reason::TooDeep),
        7 => Some(Reason::WrongTag),
        8 => Some(Reason::Extra),
        9 => Some(Reason::LeftOut),
        10 => Some(Reason::WrongForm),
        11 => Some(Reason::BadLength),
        12 => Some(Reason::Missing),
        13 => Some(Reason::BadInteger),
        14 => Some(Reason::BadBoolean),
        15 => Some(Reason::BadNull),
        16 => Some(Reason::BadBits),
        17 => Some(Reason::BadOid),
        18 => Some(Reason::BadText),
        19 => Some(Reason::EmptySet),
        20 => Some(Reason::Version),
        21 => Some(Reason::Parameters),
        22 => Some(Reason::Inner),
        23 => Some(Reason::Curve),
        24 => Some(Reason::KeyLength),
        25 => Some(Reason::VersionRule),
        26 => Some(Reason::TextTooLong),
        27 => Some(Reason::Trailing),
        _ => None,
    }
}
