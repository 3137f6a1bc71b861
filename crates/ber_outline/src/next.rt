//! One event after another.
ghost use Rattle.std.specs.Prelude.{◌≡◌, ◌+◌, ◌<◌, ◌≤◌, ◌^◌, MatchResult, drop, length};
ghost use Rattle.tlv_core.specs.Identifier.{identifier};
ghost use Rattle.ber_outline.specs.Announced.{announced};
ghost use Rattle.ber_outline.specs.Steps.{Leads, Ready, StopsAt, open_after};

use crate::announced::announced_length;
use crate::event::{ElementHeader, Event};
use ber_pull::pull::Pull;
use tlv_core::der::header_size;
use tlv_core::fault::ReadError;
use tlv_core::tag::Tag;

/// What comes next, `depth` containers being open. An error comes with the header of the element that it is in, where
/// its identifier stands. What `room` holds before and after isn't said.
pub(crate) fn next_event(
    pull: &mut Pull<'_, &[u8]>,
    document: &[u8],
    depth: u64,
    room: &mut Vec<u8>,
) -> Result<Event, (ReadError, Option<ElementHeader>)>
    requires ready { Ready document.now pull.old.state pull.old.src.now.now }
    requires depth { depth ≡ length pull.old.state.containers }
    ensures { MatchResult result
        (λ event. Leads document.now event pull.old.state pull.old.src.now.now
        pull.new.state pull.new.src.now.now)
        (λ stop. StopsAt stop.0 stop.1 pull.old.state pull.old.src.now.now) }
{
    let at = pull.at();
    let (tag, constructed) = match pull.next_tag() {
        Ok(Some(next)) => next,
        Ok(None) => {
            let _ = pull.leave();
            return Ok(Event::End(at));
        }
        Err(error) => return Err((error, None)),
    };
    let header = header_at(document, at, tag, constructed, depth);
    if constructed {
        return match pull.enter() {
            Ok(()) => Ok(Event::Begin(header, pull.at())),
            Err(error) => Err((error, Some(header))),
        };
    }
    match pull.primitive_into(room) {
        Ok(()) => {
            let end = pull.at();
            let begin = end.saturating_sub(room.len() as u64);
            Ok(Event::Primitive(header, begin, end))
        }
        Err(error) => Err((error, Some(header))),
    }
}

/// How many containers are open after an event, `depth` being open before it.
pub(crate) fn depth_after(depth: u64, event: &Event) -> u64
    requires { depth < 2 ^ 63 }
    ensures { result ≡ open_after event.now depth }
{
    match event {
        Event::Primitive(..) => depth,
        Event::Begin(..) => depth + 1,
        Event::End(_) => depth.saturating_sub(1),
    }
}

/// The header whose identifier, of this tag and form, is at a place of the document.
fn header_at(document: &[u8], at: u64, tag: Tag, constructed: bool, depth: u64) -> ElementHeader
    requires { at + length (identifier tag constructed) ≤ length document.now }
    ensures { result ≡ record {
      at = at;
      tag = tag;
      constructed = constructed;
      depth = depth;
      announced = announced (at + length (identifier tag constructed))
          (drop (at + length (identifier tag constructed)) document.now);
    } }
{
    // (a header of length 0 has one octet after its identifier)
    let after = at + (header_size(tag, 0) - 1);
    ElementHeader {
        at,
        tag,
        constructed,
        depth,
        announced: announced_length(document, after as usize),
    }
}
