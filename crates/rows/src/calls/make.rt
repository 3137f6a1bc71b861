//! The calls themselves.
ghost use Rattle.std.specs.Prelude.{◌≡◌, ◌+◌, ◌<◌, ◌≤◌, IsSome, None, OnOk, false, length};
ghost use Rattle.ber_pull.specs.View.{standing, Keeps, Uses};

use super::reply::Reply;
use ber_pull::pull::Pull;
use std::alloc::{AllocError, Global};
use tlv_core::fault::ReadError;
use tlv_core::limits::Limits;
use tlv_core::reason::Reason;
use tlv_core::source::Source;

/// A call of the reader.
#[derive(Clone, Copy)]
pub enum Call {
    Next,
    Enter,
    Leave,
    Primitive,
    /// Into a vector that holds three octets.
    PrimitiveInto,
    Octets,
    Bits,
    At,
    Limits,
    /// A fault of a layer above.
    Refuse,
    /// Want of memory in a layer above.
    NoMemory,
}

/// What the first 1,000 calls reply, in order.
pub fn replies<R: Source>(
    alloc: Global,
    source: &mut R,
    limits: Limits,
    calls: &[Call],
) -> Result<Vec<Reply>, AllocError>
    requires { R.has_failed source.old ≡ false }
{
    let mut found = Vec::new(alloc);
    let mut pull = Pull::new(source, limits);
    let mut inside = 0;
    for (i, call) in calls.iter().enumerate() {
        if i >= 1000 {
            break;
        }
        let (within, reply) = make_call(alloc, &mut pull, inside, *call);
        inside = within;
        found.push(reply)?;
    }
    Ok(found)
}

/// The call's reply, and how many containers are open then.
fn make_call<R: Source>(
    alloc: Global,
    pull: &mut Pull<'_, R>,
    inside: usize,
    call: Call,
) -> (usize, Reply)
    requires few { inside < 1000 }
    requires inside { (standing pull.old).error ≡ None
        → length (standing pull.old).containers ≡ inside }
    ensures few { result.0 ≤ inside + 1 }
    ensures inside { (standing pull.new).error ≡ None
        → length (standing pull.new).containers ≡ result.0 }
{
    match call {
        Call::At => (inside, Reply::At(pull.at())),
        Call::Limits => (inside, Reply::Limits(pull.limits())),
        Call::Refuse => (inside, Reply::Failed(pull.refuse(0, Reason::Version, None))),
        Call::NoMemory => (inside, Reply::Failed(pull.no_memory())),
        Call::Next => match pull.next_tag() {
            Ok(Some((tag, constructed))) => (inside, Reply::Element(tag, constructed)),
            Ok(None) => (inside, Reply::End),
            Err(error) => (inside, Reply::Failed(error)),
        },
        Call::Leave if inside > 0 => match pull.leave() {
            Ok(()) => (inside - 1, Reply::Done),
            Err(error) => (inside, Reply::Failed(error)),
        },
        _ => element(alloc, pull, inside, call),
    }
}

/// The reply of a call that needs an element, where one stands; and how many containers are open then. It stands for
/// `leave` too where nothing is open, as it is after an error, which each call repeats.
fn element<R: Source>(
    alloc: Global,
    pull: &mut Pull<'_, R>,
    inside: usize,
    call: Call,
) -> (usize, Reply)
    requires few { inside < 1000 }
    requires inside { (standing pull.old).error ≡ None
        → length (standing pull.old).containers ≡ inside }
    ensures few { result.0 ≤ inside + 1 }
    ensures inside { (standing pull.new).error ≡ None
        → length (standing pull.new).containers ≡ result.0 }
{
    if let Ok(None) = pull.next_tag() {
        return (inside, Reply::End);
    }
    match call {
        Call::Enter => match pull.enter() {
            Ok(()) => (inside + 1, Reply::Done),
            Err(error) => (inside, Reply::Failed(error)),
        },
        Call::Primitive => match pull.primitive(alloc) {
            Ok(octets) => (inside, Reply::Octets(octets)),
            Err(error) => (inside, Reply::Failed(error)),
        },
        Call::PrimitiveInto => match primitive_into_used(alloc, pull) {
            Ok(octets) => (inside, Reply::Octets(octets)),
            Err(error) => (inside, Reply::Failed(error)),
        },
        Call::Octets => match pull.octets(alloc) {
            Ok(octets) => (inside, Reply::Octets(octets)),
            Err(error) => (inside, Reply::Failed(error)),
        },
        _ => match pull.bits(alloc) {
            Ok((unused, octets)) => (inside, Reply::Bits(unused, octets)),
            Err(error) => (inside, Reply::Failed(error)),
        },
    }
}

/// The contents that are read into a vector which holds three octets.
fn primitive_into_used<R: Source>(
    alloc: Global,
    pull: &mut Pull<'_, R>,
) -> Result<Vec<u8>, ReadError>
    requires { (standing pull.old).error ≡ None → IsSome (standing pull.old).given }
    ensures stands { OnOk result (Uses pull.old pull.new) }
    ensures keeps { Keeps pull.new result }
{
    match vec![in alloc; 9u8; 3] {
        Ok(mut octets) => {
            pull.primitive_into(&mut octets)?;
            Ok(octets)
        }
        Err(_) => Err(pull.no_memory()),
    }
}
