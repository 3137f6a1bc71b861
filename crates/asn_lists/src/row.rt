// Members one after another, with where the text of each begins.
ghost use Rattle.std.specs.Prelude.{◌≡◌, ◌+◌, ◌^◌, ◌<◌, ◌≤◌, ◌∷◌, IfOk, IfSome, IsNone, drop, false, get_or, length};
ghost use Rattle.std.specs.Prelude.{map, slice_get};
ghost use Rattle.tlv_core.specs.Sinks.{count, is_broken, Puts};
ghost use Rattle.x690.specs.DerTexts.{texts_of};
ghost use Rattle.asn_elements.specs.Framing.{framed};
ghost use Rattle.asn_elements.specs.Members.{starts_from};

use asn_elements::der_text::DerText;
use asn_elements::framing::{Stands, element_size, find_octet, put_header};
use std::alloc::{AllocError, Global};
use tlv_core::sink::{Sink, WriteError};
use tlv_core::tag::Tag;
use tlv_core::target::{Target, ToWrite};

/// Where the text of each item begins, the first at `place`, and where all end.
pub fn starts_of<T: DerText>(
    alloc: Global,
    items: &[T],
    place: u64,
) -> Result<(Vec<u64>, u64), AllocError>
    requires { place + length (texts_of (map T.value items.now)) < 2 ^ 63 }
    ensures starts { IfOk result (λ r. r.0.items ≡ starts_from place (map T.value items.now)) }
    ensures end { IfOk result (λ r. r.1 ≡ place + length (texts_of (map T.value items.now))) }
{
    let mut starts = Vec::with_capacity(alloc, items.len())?;
    let mut end = place;
    for item in items {
        starts.push(end)?;
        end += item.size();
    }
    Ok((starts, end))
}

/// Where the text of each item after the first begins, and the length of all.
fn later_starts<T: DerText>(alloc: Global, items: &[T]) -> Result<(Vec<u64>, u64), AllocError>
    requires { length (texts_of (map T.value items.now)) < 2 ^ 63 }
    ensures starts { IfOk result (λ r. r.0.items ≡ drop 1 (starts_from 0 (map T.value items.now))) }
    ensures content { IfOk result (λ r. r.1 ≡ length (texts_of (map T.value items.now))) }
{
    match items.split_first() {
        None => Ok((Vec::new(alloc), 0)),
        Some((first, later)) => starts_of(alloc, later, first.size()),
    }
}

/// The length of the texts of the items.
fn texts_size<T: DerText>(items: &[T]) -> u64
    requires { length (texts_of (map T.value items.now)) < 2 ^ 63 }
    ensures { result ≡ length (texts_of (map T.value items.now)) }
{
    let mut size = 0u64;
    for item in items {
        size += item.size();
    }
    size
}

/// Writes the texts of the items, one after another.
fn put_texts<T: DerText, W: Target>(items: &[T], sink: &mut Sink<'_, W>) -> Result<(), WriteError>
    requires room { count sink.old + length (texts_of (map T.value items.now)) < 2 ^ 64 }
    requires fine { is_broken sink.old ≡ false }
    ensures { Puts (texts_of (map T.value items.now)) sink.old sink.new result }
{
    for item in items {
        item.put(sink)?;
    }
    Ok(())
}

/// The texts of the items, one after another. Their whole length is asked of the memory first.
pub fn texts<T: DerText>(alloc: Global, items: &[T]) -> Result<Vec<u8>, AllocError>
    requires { length (texts_of (map T.value items.now)) < 2 ^ 63 }
    ensures { IfOk result (λ octets. octets.items ≡ texts_of (map T.value items.now)) }
{
    let octets = Vec::with_capacity(alloc, texts_size(items) as usize)?;
    let mut target = ToWrite::new(octets);
    let mut sink = Sink::new(&mut target);
    match put_texts(items, &mut sink) {
        Ok(()) => Ok(target.into_inner()),
        Err(_) => Err(AllocError),
    }
}

/// The longest text of a value that a constructor makes, in octets.
pub const LONGEST: u64 = 1 << 40;

/// The length of the texts of the items, `None` where it is more than 2^40.
pub fn contents_length<T: DerText>(items: &[T]) -> Option<u64>
    ensures some { IfSome result (λ content. (content ≡ length (texts_of (map T.value items.now)))
        × (content ≤ 2 ^ 40)) }
    ensures none { IsNone result → 2 ^ 40 < length (texts_of (map T.value items.now)) }
{
    let mut content = 0u64;
    for item in items {
        let size = item.size();
        if size > LONGEST - content {
            return None;
        }
        content += size;
    }
    Some(content)
}

/// How many of the starts aren't past the place.
pub fn find(starts: &[u64], at: u64) -> usize
    ensures within { result ≤ length starts.now }
    ensures before { get_or (0 ∷ starts.now) result 0 ≤ at }
    ensures after { result < length starts.now → at < get_or starts.now result 0 }
{
    let mut low = 0;
    let mut high = starts.len();
    while low < high {
        let middle = low + (high - low) / 2;
        if starts[middle] <= at {
            low = middle + 1;
        } else {
            high = middle;
        }
    }
    low
}

/// Members, with where the text of each after the first begins and the length of all.
#[derive(Drop)]
pub struct Row<T: DerText> {
    pub items: Vec<T>,
    /// (none of one member, as most containers have)
    pub starts: Vec<u64>,
    pub content: u64,
    pub ghost begins: { starts.items ≡ drop 1 (starts_from 0 (map T.value items.items)) },
    pub ghost counted: { content ≡ length (texts_of (map T.value items.items)) },
    pub ghost small: { content < 2 ^ 63 },
}

impl<T: DerText> Row<T> {
    pub fn new(alloc: Global, items: Vec<T>) -> Result<Row<T>, AllocError>
        requires { length (texts_of (map T.value items.items)) < 2 ^ 63 }
        ensures { IfOk result (λ r. r.items ≡ items) }
    {
        let (starts, content) = later_starts(alloc, &items)?;
        Ok(Row {
            items,
            starts,
            content,
        })
    }

    /// The length of the text with this tag.
    pub fn size(&self, tag: Tag) -> u64
        ensures { result ≡ length (framed tag (texts_of (map T.value self.now.items.items))) }
    {
        element_size(tag, self.content)
    }

    /// Writes the text with this tag.
    pub fn put<W: Target>(&self, tag: Tag, sink: &mut Sink<'_, W>) -> Result<(), WriteError>
        requires { count sink.old + length
            (framed tag (texts_of (map T.value self.now.items.items))) < 2 ^ 64 }
        ensures { Puts (framed tag (texts_of (map T.value self.now.items.items))) sink.old sink.new
            result }
    {
        put_header(tag, true, self.content, sink)?;
        put_texts(&self.items, sink)
    }

    /// An octet of the text with this tag.
    pub fn octet(&self, tag: Tag, i: u64) -> Option<u8>
        ensures { result ≡ slice_get (framed tag (texts_of (map T.value self.now.items.items))) i }
    {
        match find_octet(tag, true, self.content, i) {
            Stands::InHeader(octet) => Some(octet),
            Stands::InContents(at) => {
                if at >= self.content {
                    return None;
                }
                let starts: &[u64] = &self.starts;
                let k = find(starts, at);
                let start = if k == 0 { 0 } else { starts[k - 1] };
                self.items[k].octet(at - start)
            }
        }
    }
}
