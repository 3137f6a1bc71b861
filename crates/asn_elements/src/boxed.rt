//! Elements in a box.
ghost use Rattle.std.specs.Prelude.{◌≡◌};

use crate::der_text::DerText;
use crate::element::Element;
use ber_pull::pull::Pull;
use std::alloc::Global;
use tlv_core::fault::ReadError;
use tlv_core::limits::Limits;
use tlv_core::sink::{Sink, WriteError};
use tlv_core::source::Source;
use tlv_core::tag::Tag;
use tlv_core::target::Target;

/// An element in a box: one of many fields then takes no room where it is absent, and is moved at no cost.
#[derive(Drop)]
pub struct Boxed<T: Drop>(Box<T>);

impl<T: Drop> Boxed<T> {
    /// The element.
    pub fn value(&self) -> &T
        ensures { result.now ≡ self.now.0.value }
    {
        &*self.0
    }
}

impl<T: DerText> DerText for Boxed<T> {
    ghost value = { λ x. T.value x.0.value };

    ghost one_text = { λ x y. T.one_text x.0.value y.0.value };

    fn size(&self) -> u64 {
        self.value().size()
    }

    fn put<W: Target>(&self, sink: &mut Sink<'_, W>) -> Result<(), WriteError> {
        self.value().put(sink)
    }

    fn octet(&self, i: u64) -> Option<u8> {
        self.value().octet(i)
    }
}

impl<T: Element> Element for Boxed<T> {
    ghost type_term = { T.type_term };

    ghost closed = { T.closed };

    fn fits(tag: Tag) -> bool {
        T::fits(tag)
    }

    fn read<R: Source>(alloc: Global, pull: &mut Pull<'_, R>) -> Result<Boxed<T>, ReadError> {
        let value = T::read(alloc, pull)?;
        match Box::new(alloc, value) {
            Ok(boxed) => Ok(Boxed(boxed)),
            Err(_) => Err(pull.no_memory()),
        }
    }

    fn judge(octets: &[u8], limits: Limits, left: u8) -> Option<&[u8]> {
        T::judge(octets, limits, left)
    }
}
