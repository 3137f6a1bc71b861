//! What has one text in DER.
ghost use Rattle.std.specs.Prelude.{◌≡◌, ◌+◌, ◌<◌, ◌^◌, ◌↔◌, IfOk, IsTrue, length, slice_get};
ghost use Rattle.tlv_core.specs.Sinks.{count, Puts};
ghost use Rattle.x690.specs.DerTexts.{der};
ghost use Rattle.x690.specs.Values.{Same, Value};

use std::alloc::{AllocError, Global};
use tlv_core::sink::{Sink, WriteError};
use tlv_core::target::{Target, ToWrite};

/// A value with its one text in DER (X.690 10, 11).
pub trait DerText: Sized + Drop {
    /// What it stands for.
    ghost value: { Self → Value };

    /// Two of the type that have one text are the same.
    ghost one_text: { (x y : Self) → der (value x) ≡ der (value y) → Same (value x) (value y) };

    /// The length of its text, in octets.
    fn size(&self) -> u64
        ensures { result ≡ length (der (value self.now)) };

    /// Writes its text. Where the writer fails, the first octets are out, as many as the sink's count rose by.
    fn put<W: Target>(&self, sink: &mut Sink<'_, W>) -> Result<(), WriteError>
        requires { count sink.old + length (der (value self.now)) < 2 ^ 64 }
        ensures { Puts (der (value self.now)) sink.old sink.new result };

    /// Octet `i` of its text, counted from 0; `None` from `size` on.
    fn octet(&self, i: u64) -> Option<u8>
        ensures { result ≡ slice_get (der (value self.now)) i };

    /// Whether the two are the same, which is to have one text.
    final fn same(&self, other: &Self) -> bool
        ensures { IsTrue result ↔ Same (value self.now) (value other.now) }
    {
        have_one_text(self, other)
    }
}

/// The text of a value. Its whole length is asked of the memory first.
pub fn der_text<T: DerText>(alloc: Global, value: &T) -> Result<Vec<u8>, AllocError>
    ensures { IfOk result (λ text. text.items ≡ der (T.value value.now)) }
{
    let size = value.size();
    let text = Vec::with_capacity(alloc, size as usize)?;
    let mut target = ToWrite::new(text);
    let mut sink = Sink::new(&mut target);
    match value.put(&mut sink) {
        Ok(()) => Ok(target.into_inner()),
        Err(_) => Err(AllocError),
    }
}

/// Whether the two have one text.
fn have_one_text<T: DerText>(value: &T, other: &T) -> bool
    ensures { IsTrue result ↔ (der (T.value value.now) ≡ der (T.value other.now)) }
{
    let size = value.size();
    if size != other.size() {
        return false;
    }
    for i in 0..size {
        let octet = value.octet(i).unwrap_or(0);
        let other_octet = other.octet(i).unwrap_or(0);
        if octet != other_octet {
            return false;
        }
    }
    true
}
