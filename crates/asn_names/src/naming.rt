//! The elements of a document by their names.
ghost use Rattle.std.specs.Prelude.{◌≡◌, IfOk, reverse};
ghost use Rattle.asn_names.specs.Naming.{after_events, named_by};
ghost use Rattle.asn_names.specs.NamingSteps.{happened, innermost, state_of, stopped, stopped_in};

use crate::element::{Level, Mismatch, NamedElement};
use crate::naming_state::{Beginning, NamingState, begin_element, end_container};
use ber_outline::event::{ElementHeader, Event, Stop};
use pkix_shapes::shape::Shape;
use std::alloc::{AllocError, Global};

/// The elements of a document, one after another, and where the document stops matching its type.
#[derive(Drop)]
pub struct NamedElements {
    pub elements: Vec<NamedElement>,
    pub mismatch: Mismatch,
}

/// The elements that the headers of a document are, by its type: `events` and `stop` are its outline.
///
/// They end where the document stops matching its type. An element that has no place in the type is the last one, and
/// private. It takes time as the events, each with the earlier elements of its container where its type goes by one.
pub fn name_elements(
    alloc: Global,
    document: &[u8],
    events: &[Event],
    stop: Option<Stop>,
    root: &'static Shape,
) -> Result<NamedElements, AllocError>
    ensures { IfOk result (λ named. (named.elements.items, named.mismatch)
        ≡ named_by document.now events.now stop root.entry) }
{
    // (at most one for each event, and the one in which reading stops)
    let mut naming = NamingState {
        elements: Vec::with_capacity(alloc, events.len().saturating_add(1))?,
        containers: Vec::new(alloc),
    };
    let subject = Subject { document, root };
    let mismatch = match take_events(&mut naming, &subject, events)? {
        Some(mismatch) => mismatch,
        None => stop_naming(&mut naming, document, root, stop)?,
    };
    naming.elements.shrink_to_fit();
    Ok(NamedElements {
        elements: naming.elements,
        mismatch,
    })
}

/// A document, and the type that it is to be of.
#[derive(Clone, Copy)]
struct Subject<'a> {
    document: &'a [u8],
    root: &'static Shape,
}

/// One event after another happens, up to where the document stops matching its type.
fn take_events(
    naming: &mut NamingState,
    subject: &Subject<'_>,
    events: &[Event],
) -> Result<Option<Mismatch>, AllocError>
    ensures { IfOk result (λ mismatch. (state_of naming.new, mismatch)
        ≡ after_events subject.now.document.now subject.now.root events.now (state_of naming.old)) }
{
    for event in events {
        if let Some(mismatch) = take_event(naming, subject.document, subject.root, event)? {
            return Ok(Some(mismatch));
        }
    }
    Ok(None)
}

/// One event happens.
fn take_event(
    naming: &mut NamingState,
    document: &[u8],
    root: &'static Shape,
    event: &Event,
) -> Result<Option<Mismatch>, AllocError>
    ensures { IfOk result (λ mismatch. (state_of naming.new, mismatch)
        ≡ happened document.now root.entry event.now (state_of naming.old)) }
{
    match *event {
        Event::Primitive(header, begin, end) => {
            let beginning = Beginning {
                header,
                begin: Some(begin),
                end: Some(end),
                opens: false,
            };
            begin_element(naming, document, root, &beginning)
        }
        Event::Begin(header, begin) => {
            let beginning = Beginning {
                header,
                begin: Some(begin),
                end: None,
                opens: true,
            };
            begin_element(naming, document, root, &beginning)
        }
        Event::End(at) => Ok(end_container(naming, at)),
    }
}

/// All events have happened: the element that reading stops in is the last one.
fn stop_naming(
    naming: &mut NamingState,
    document: &[u8],
    root: &'static Shape,
    stop: Option<Stop>,
) -> Result<Mismatch, AllocError>
    ensures { IfOk result (λ mismatch. (state_of naming.new, mismatch)
        ≡ stopped document.now root.entry stop (state_of naming.old)) }
{
    let Some(stop) = stop else {
        return Ok(match innermost(&naming.containers) {
            Some(container) => Mismatch::Stopped(Some(container)),
            None => Mismatch::Nowhere,
        });
    };
    if let Some(header) = stop.element {
        let beginning = stopped_in(header);
        if let Some(mismatch) = begin_element(naming, document, root, &beginning)? {
            return Ok(mismatch);
        }
    }
    Ok(Mismatch::Stopped(innermost(&naming.containers)))
}

/// The element that reading stops in, by its header.
fn stopped_in(header: ElementHeader) -> Beginning
    ensures { result ≡ stopped_in header }
{
    Beginning {
        header,
        begin: match header.announced {
            Some(announced) => Some(announced.contents),
            None => None,
        },
        end: None,
        opens: false,
    }
}

/// The innermost open container.
fn innermost(containers: &[(u64, Level)]) -> Option<(u64, Level)>
    ensures { result ≡ innermost (reverse containers.now) }
{
    containers.last().copied()
}
