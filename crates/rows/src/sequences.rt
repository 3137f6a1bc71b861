//! SEQUENCE { INTEGER, BOOLEAN }, with OPTIONAL after it, and with DEFAULT FALSE, by the list of its fields.
use crate::answer::Answer;
use crate::line::Line;
use crate::reading::{Reading, Told};
use asn_elements::boolean::Bool;
use asn_elements::integer::Int;
use asn_elements::tags::universal_tag;
use asn_fields::sequence::{DefaultFalse, FirstFields, Optional, Required, read_sequence_as};
use ber_pull::pull::Pull;
use std::alloc::{AllocError, Global};
use std::marker::PhantomData;
use tlv_core::fault::ReadError;
use tlv_core::limits::Limits;
use tlv_core::reason::Reason;
use tlv_core::source::Source;

/// An INTEGER and a BOOLEAN.
pub trait IntegerAndBoolean: FirstFields {
    /// The INTEGER.
    fn integer(&self) -> &Int;

    /// Whether the BOOLEAN is TRUE, if it is there.
    fn boolean(&self) -> Option<bool>;
}

impl IntegerAndBoolean for (Required<Int>, Required<Bool>) {
    fn integer(&self) -> &Int {
        &self.0.0
    }

    fn boolean(&self) -> Option<bool> {
        Some(self.1.0.value())
    }
}

impl IntegerAndBoolean for (Required<Int>, Optional<Bool>) {
    fn integer(&self) -> &Int {
        &self.0.0
    }

    fn boolean(&self) -> Option<bool> {
        match &self.1.0 {
            Some(boolean) => Some(boolean.value()),
            None => None,
        }
    }
}

impl IntegerAndBoolean for (Required<Int>, DefaultFalse) {
    fn integer(&self) -> &Int {
        &self.0.0
    }

    fn boolean(&self) -> Option<bool> {
        Some(self.1.0)
    }
}

/// A line of the fields.
pub struct LineOf<F>(PhantomData<F>);

impl<F: IntegerAndBoolean> Reading for LineOf<F> {
    fn told<R: Source>(alloc: Global, source: &mut R, limits: Limits) -> Told {
        let mut pull = Pull::new(source, limits);
        let answer = match sequence::<R, F>(alloc, &mut pull) {
            Ok(fields) => Answer::of(line_of(alloc, &fields)),
            Err(error) => Answer::Stopped(error),
        };
        Told {
            answer,
            taken: pull.at(),
        }
    }
}

fn sequence<R: Source, F: FirstFields>(
    alloc: Global,
    pull: &mut Pull<'_, R>,
) -> Result<F, ReadError> {
    match pull.next_tag()? {
        Some(_) => read_sequence_as(alloc, pull, universal_tag(16)),
        None => Err(pull.refuse(0, Reason::Missing, None)),
    }
}

fn line_of<F: IntegerAndBoolean>(alloc: Global, fields: &F) -> Result<Vec<u8>, AllocError> {
    let mut line = Line::new(alloc);
    line.octets("integer", fields.integer().contents())?;
    match fields.boolean() {
        Some(true) => line.part("boolean true")?,
        Some(false) => line.part("boolean false")?,
        None => line.part("no boolean")?,
    }
    line.ended()
}
