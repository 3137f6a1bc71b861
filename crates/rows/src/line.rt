//! A line of parts.
use crate::printing::is_error_written;
use asn_elements::der_text::DerText;
use itoa::{Buffer, Integer};
use std::alloc::{AllocError, Global};
use tlv_core::fault::ReadError;

/// A line of parts, with something between them.
#[derive(Drop)]
pub struct Line {
    text: Vec<u8>,
    between: &'static str,
}

impl Line {
    /// A line of no parts, commas between them.
    pub fn new(alloc: Global) -> Line {
        Line::with(alloc, ", ")
    }

    /// A line of no parts, with this between them.
    pub fn with(alloc: Global, between: &'static str) -> Line {
        Line {
            text: Vec::new(alloc),
            between,
        }
    }

    /// A part of these words.
    pub fn part(&mut self, words: &str) -> Result<(), AllocError> {
        if !self.text.is_empty() {
            self.text.extend_from_slice(self.between.as_bytes())?;
        }
        self.words(words)
    }

    /// A number after its name.
    pub fn number(&mut self, name: &str, number: usize) -> Result<(), AllocError> {
        self.part(name)?;
        self.words(" ")?;
        self.digits(number)
    }

    /// Octets after their name, in hex.
    pub fn octets(&mut self, name: &str, octets: &[u8]) -> Result<(), AllocError> {
        self.part(name)?;
        self.words(" ")?;
        self.hex(octets)
    }

    /// The text of a value after its name, in hex.
    pub fn value<T: DerText>(&mut self, name: &str, value: &T) -> Result<(), AllocError> {
        self.part(name)?;
        self.words(" ")?;
        for i in 0..value.size() {
            self.octet(value.octet(i).unwrap_or(0))?;
        }
        Ok(())
    }

    /// Words that go on with the part.
    pub fn words(&mut self, words: &str) -> Result<(), AllocError> {
        self.text.extend_from_slice(words.as_bytes())
    }

    /// A number that goes on with the part.
    pub fn digits<I: Integer>(&mut self, number: I) -> Result<(), AllocError> {
        let mut buffer = Buffer::new();
        self.text
            .extend_from_slice(buffer.format(number).as_bytes())
    }

    /// Octets in hex that go on with the part.
    pub fn hex(&mut self, octets: &[u8]) -> Result<(), AllocError> {
        for octet in octets {
            self.octet(*octet)?;
        }
        Ok(())
    }

    /// The same, `-` where there are none.
    pub fn hex_or_dash(&mut self, octets: &[u8]) -> Result<(), AllocError> {
        if octets.is_empty() {
            return self.words("-");
        }
        self.hex(octets)
    }

    /// An error that goes on with the part.
    pub fn error(&mut self, error: &ReadError) -> Result<(), AllocError> {
        if is_error_written(&mut self.text, error) {
            Ok(())
        } else {
            Err(AllocError)
        }
    }

    fn octet(&mut self, octet: u8) -> Result<(), AllocError> {
        let digits = b"0123456789abcdef";
        let (high, low) = (usize::from(octet / 16), usize::from(octet % 16));
        self.text.extend_from_slice(&[digits[high], digits[low]])
    }

    /// The line, with its line feed.
    pub fn ended(self) -> Result<Vec<u8>, AllocError> {
        let mut text = self.text;
        text.extend_from_slice(b"\n")?;
        Ok(text)
    }
}
