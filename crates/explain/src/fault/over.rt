//! How many octets an element has too many.
ghost use Rattle.std.specs.Prelude.{◌≡◌};
ghost use Rattle.explain.specs.FaultContainers.{limit_of, over_of, reach_of};

use reports::report::{FaultContainer, Found};
use tlv_core::reason::Reason;

/// How many octets the contents that an element announces have too many: after the end of the file, or of the
/// container.
pub(crate) fn over_of(
    why: Reason,
    octets: u64,
    container: &Option<FaultContainer>,
    found: Option<Found>,
) -> Option<u64>
    ensures { result ≡ over_of why octets container.now found }
{
    let (Some(end), Some(reach)) = (limit_of(why, octets, container), reach_of(found)) else {
        return None;
    };
    if end <= reach {
        Some(reach - end)
    } else {
        None
    }
}

/// Where an element has to end.
fn limit_of(why: Reason, octets: u64, container: &Option<FaultContainer>) -> Option<u64>
    ensures { result ≡ limit_of why octets container.now }
{
    match why {
        Reason::Truncated => Some(octets),
        Reason::PastEnd => match container {
            Some(container) => container.end,
            None => None,
        },
        _ => None,
    }
}

/// Where an element ends by its header.
fn reach_of(found: Option<Found>) -> Option<u64>
    ensures { result ≡ reach_of found }
{
    let Some(found) = found else {
        return None;
    };
    let Some(length) = found.length else {
        return None;
    };
    match length.contents {
        Some(contents) => Some(
            found
                .at
                .saturating_add(length.header)
                .saturating_add(contents),
        ),
        None => None,
    }
}
