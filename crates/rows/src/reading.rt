//! Values read in pieces, from octets that end or fail at each place, and with octets after.
ghost use Rattle.std.specs.Prelude.{◌≡◌, ◌<◌, None, Some, IsSome, false};
ghost use Rattle.tlv_core.specs.declared.fault.ReadError.TheVariants.{Memory};
ghost use Rattle.ber_pull.specs.View.{standing, Keeps, Repeats};

use crate::answer::{Answer, truncated};
use crate::pieces::Pieces;
use crate::texts::{checked_text, text_of};
use asn_elements::der_text::DerText;
use asn_elements::element::Element;
use asn_lists::list::List;
use ber_pull::pull::Pull;
use std::alloc::Global;
use std::marker::PhantomData;
use tlv_core::fault::ReadError;
use tlv_core::limits::Limits;
use tlv_core::reason::Reason;
use tlv_core::source::Source;

/// How a value is read.
pub trait Reader {
    /// What is read.
    type Value: DerText;

    /// Reads the element that is given.
    fn read<R: Source>(alloc: Global, pull: &mut Pull<'_, R>) -> Result<Self::Value, ReadError>
        requires { (standing pull.old).error ≡ None → IsSome (standing pull.old).given }
        ensures keeps { Keeps pull.new result }
        ensures repeats { Repeats pull.old pull.new result };
}

/// A value of a type.
pub struct Of<T>(PhantomData<T>);

impl<T: Element> Reader for Of<T> {
    type Value = T;

    fn read<R: Source>(alloc: Global, pull: &mut Pull<'_, R>) -> Result<T, ReadError> {
        T::read(alloc, pull)
    }
}

/// SEQUENCE OF a type with at least one member.
pub struct SomeOf<T>(PhantomData<T>);

impl<T: Element> Reader for SomeOf<T> {
    type Value = List<T>;

    fn read<R: Source>(alloc: Global, pull: &mut Pull<'_, R>) -> Result<List<T>, ReadError> {
        List::read_some(alloc, pull)
    }
}

/// What is told of a source: an answer, and of a value how many octets it took.
#[derive(Drop)]
pub struct Told {
    pub answer: Answer,
    pub taken: u64,
}

/// What is done with a source.
pub trait Reading {
    /// What is told of the value that the source tells first.
    fn told<R: Source>(alloc: Global, source: &mut R, limits: Limits) -> Told
        requires { R.has_failed source.old ≡ false };
}

/// The next element.
pub fn element<R: Source, K: Reader>(
    alloc: Global,
    pull: &mut Pull<'_, R>,
) -> Result<K::Value, ReadError>
    ensures { Keeps pull.new result }
{
    match pull.next_tag()? {
        Some(_) => K::read(alloc, pull),
        None => Err(pull.refuse(0, Reason::Missing, None)),
    }
}

/// The text of a value.
pub struct TextOf<K>(PhantomData<K>);

impl<K: Reader> Reading for TextOf<K> {
    fn told<R: Source>(alloc: Global, source: &mut R, limits: Limits) -> Told {
        let mut pull = Pull::new(source, limits);
        let answer = match element::<R, K>(alloc, &mut pull) {
            Ok(value) => checked_text(alloc, &value),
            Err(error) => Answer::Stopped(error),
        };
        Told {
            answer,
            taken: pull.at(),
        }
    }
}

/// The answer of a reading to octets, with which `followed` begins: the same in all pieces. Each octet that is taken is
/// needed, and no other is asked for.
pub fn checked<K: Reading>(
    alloc: Global,
    octets: &[u8],
    followed: &[u8],
    limits: Limits,
) -> Answer {
    let mut rest = followed;
    let whole = K::told(alloc, &mut rest, limits);
    if let Answer::Wrong(what) = whole.answer {
        return Answer::Wrong(what);
    }
    let taken = followed.len().saturating_sub(rest.len());
    for count in 0..taken.min(octets.len()) {
        if !is_cut_short::<K>(alloc, &octets[..count], limits) {
            return Answer::Wrong("an octet that is taken isn't needed");
        }
    }
    if taken > octets.len() {
        if is_cut_short::<K>(alloc, octets, limits) {
            return Answer::Stopped(truncated(octets));
        }
        return Answer::Wrong("the octets are too few, which isn't answered");
    }
    if whole.answer.is_written() && whole.taken != taken as u64 {
        return Answer::Wrong("another number of octets is told than taken");
    }
    for piece in [1, 7, 64] {
        if !is_told_in_pieces::<K>(alloc, octets, limits, piece, &whole) {
            return Answer::Wrong("the answer is another one in pieces");
        }
    }
    whole.answer
}

/// Whether the same is told of the octets in pieces of this size, from a source that fails after them.
fn is_told_in_pieces<K: Reading>(
    alloc: Global,
    octets: &[u8],
    limits: Limits,
    piece: usize,
    whole: &Told,
) -> bool
    requires { 0 < piece }
{
    let mut source = Pieces::new(octets, piece, true);
    let told = K::told(alloc, &mut source, limits);
    told.answer.is_like(&whole.answer) && (told.taken == whole.taken || !told.answer.is_written())
}

/// Whether a reading of the source answers this error.
pub fn is_stopped<R: Source, K: Reading>(
    alloc: Global,
    source: &mut R,
    limits: Limits,
    error: ReadError,
) -> bool
    requires { R.has_failed source.old ≡ false }
{
    K::told(alloc, source, limits).answer.is_error(error)
}

/// Whether octets that are too few are answered so, where the source ends after them and where it fails there.
pub fn is_cut_short<K: Reading>(alloc: Global, octets: &[u8], limits: Limits) -> bool {
    let at = octets.len() as u64;
    let mut ends = Pieces::new(octets, 7, false);
    let is_ended = is_stopped::<Pieces<'_>, K>(alloc, &mut ends, limits, truncated(octets));
    let mut fails = Pieces::new(octets, 64, true);
    let is_failed = is_stopped::<Pieces<'_>, K>(alloc, &mut fails, limits, ReadError::Read { at });
    is_ended && is_failed
}

/// The answer of a reader to octets. One that wanted memory tells how many octets it took; it is asked further where
/// `again` says so.
pub fn once<K: Reader>(alloc: Global, octets: &[u8], limits: Limits, again: bool) -> Answer {
    let mut source = octets;
    let mut pull = Pull::new(&mut source, limits);
    let answer = match element::<&[u8], K>(alloc, &mut pull) {
        Ok(value) => return text_of(alloc, &value),
        Err(ReadError::Memory) if again && !is_failed::<K>(alloc, &mut pull) => {
            Answer::Wrong("a reader that wanted memory answers something else")
        }
        Err(error) => Answer::Stopped(error),
    };
    match answer {
        Answer::Stopped(ReadError::Memory) => {
            Answer::Wanted(octets.len().saturating_sub(source.len()))
        }
        answer => answer,
    }
}

/// Whether each further call answers want of memory.
fn is_failed<K: Reader>(alloc: Global, pull: &mut Pull<'_, &[u8]>) -> bool
    requires { (standing pull.old).error ≡ Some Memory }
{
    is_memory(pull.next_tag())
        && is_memory(pull.enter())
        && is_memory(pull.leave())
        && is_memory(pull.primitive(alloc))
        && is_memory(pull.octets(alloc))
        && is_memory(pull.bits(alloc))
        && is_memory(K::read(alloc, pull))
        && pull.refuse(0, Reason::Extra, None) == ReadError::Memory
}

fn is_memory<T: Drop>(answer: Result<T, ReadError>) -> bool {
    match answer {
        Err(ReadError::Memory) => true,
        _ => false,
    }
}
