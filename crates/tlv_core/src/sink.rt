//! What counts the octets that go out to a target.
ghost use Rattle.std.specs.Prelude.{◌≡◌, ◌+◌, ◌^◌, ◌<◌, length, false};

use crate::source::Failed;
use crate::target::Target;
use thiserror::Error;

/// The writer failed after this many octets of a sink had gone out.
#[derive(Clone, Copy, Debug, PartialEq, Eq, Error)]
#[error("writing failed after {written} octets")]
pub struct WriteError {
    pub written: u64,
}

/// A target and the number of octets that went out to it.
#[derive(Drop)]
pub struct Sink<'a, W: Target> {
    target: &'a mut W,
    written: u64,
    failed: bool,
    ghost in_step: { W.has_failed target.now ≡ failed },
}

impl<'a, W: Target> Sink<'a, W> {
    ghost use Rattle.tlv_core.specs.Sinks.{count, is_broken, target_of, target_name, Puts};

    /// A sink into this target. None of its octets is out yet.
    pub fn new(target: &'a mut W) -> Sink<'a, W>
        requires { W.has_failed target.old ≡ false }
        ensures same_writer { target_name result ≡ target.entry.ghost_name }
        ensures same { target_of result ≡ target.old }
        ensures none_out { count result ≡ 0 }
        ensures fresh { is_broken result ≡ false }
    {
        Sink {
            target,
            written: 0,
            failed: false,
        }
    }

    /// The number of octets that are out.
    pub fn written(&self) -> u64
        ensures { result ≡ count self.now }
    {
        self.written
    }

    /// Writes the octets. Where the writer fails the first of them are out, as many as `written` rose by; from then on
    /// every call answers that error and writes nothing.
    pub fn put(&mut self, octets: &[u8]) -> Result<(), WriteError>
        requires { count self.old + length octets.now < 2 ^ 64 }
        ensures { Puts octets.now self.old self.new result }
    {
        if self.failed {
            return Err(WriteError {
                written: self.written,
            });
        }
        let mut at = 0;
        while at < octets.len() {
            match self.target.write(&octets[at..]) {
                Ok(count) => {
                    at += count;
                    self.written += count as u64;
                }
                Err(Failed) => {
                    self.failed = true;
                    return Err(WriteError {
                        written: self.written,
                    });
                }
            }
        }
        Ok(())
    }
}
