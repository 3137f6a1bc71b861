//! The outline of a document.
ghost use Rattle.std.specs.Prelude.{◌≡◌, MatchResult};
ghost use Rattle.tlv_core.specs.declared.fault.ReadError.TheVariants.{Memory};
ghost use Rattle.ber_outline.specs.Outlines.{IsOutline};

use crate::event::{Event, Stop};
use crate::next::{depth_after, next_event};
use ber_pull::pull::Pull;
use std::alloc::Global;
use tlv_core::fault::ReadError;
use tlv_core::limits::Limits;

/// The headers that are in a document, in order, up to the end of its outermost element (`None`), or up to the first
/// fault (`Some`). What comes after the outermost element isn't looked at.
///
/// It takes time as the octets, and memory as the events and the longest contents of a primitive element.
///
/// Errors: `Memory` alone.
pub fn outline(
    alloc: Global,
    document: &[u8],
    limits: Limits,
) -> Result<(Vec<Event>, Option<Stop>), ReadError>
    ensures { MatchResult result
        (λ found. IsOutline limits document.now found.0.items found.1)
        (λ error. error ≡ Memory) }
{
    let mut events = Vec::new(alloc);
    let mut room = Vec::new(alloc);
    let mut source = document;
    let mut pull = Pull::new(&mut source, limits);
    let mut depth: u64 = 0;
    // (this call says the bound of places)
    let _ = limits.octets();
    loop {
        let event = match next_event(&mut pull, document, depth, &mut room) {
            Ok(event) => event,
            Err((ReadError::Fault(fault), element)) => {
                return Ok((events, Some(Stop { fault, element })));
            }
            Err(_) => return Err(ReadError::Memory),
        };
        depth = depth_after(depth, &event);
        match events.push(event) {
            Ok(()) => {}
            Err(_) => return Err(ReadError::Memory),
        }
        if depth == 0 {
            return Ok((events, None));
        }
    }
}
