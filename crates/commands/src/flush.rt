//! Targets that are flushed.
ghost use Rattle.std.specs.Prelude.{◌≡◌, ◌↔◌, Bool, IsErr, OnOk, false, true};
ghost use Rattle.std.specs.Io.KnownBytes.{Keeps};

use std::io::Write;
use tlv_core::source::Failed;
use tlv_core::target::Target;

/// A target that may keep octets back until it is flushed.
pub trait Flush: Target {
    /// Whether it is flushed: none of what was written is kept back.
    ghost is_flushed: { Self → Bool };

    /// Hands on what is kept back. `Failed` where it has failed.
    fn flush(&mut self) -> Result<(), Failed>
        requires { Self.has_failed self.old ≡ false }
        ensures kept { Keeps (Self.contents self.old) (Self.contents self.new) }
        ensures flushed { OnOk result (is_flushed self.new ≡ true) }
        ensures failed { IsErr result ↔ (Self.has_failed self.new ≡ true) };
}

/// A target over any writer. An error of it, `Interrupted` too, or 0 written of a piece that isn't empty makes the
/// target failed. It is flushed where the writer has answered so and was handed nothing since.
#[derive(Drop)]
pub struct ToFlush<W> {
    inner: W,
    failed: bool,
    flushed: bool,
}

impl<W: Write> ToFlush<W> {
    ghost use Rattle.commands.specs.Flushed.{flush_failed, writer_under};

    /// The target over this writer.
    pub fn new(inner: W) -> ToFlush<W>
        ensures over { writer_under result ≡ inner }
        ensures fresh { flush_failed result ≡ false }
    {
        ToFlush {
            inner,
            failed: false,
            flushed: false,
        }
    }

    /// The writer.
    pub fn into_inner(self) -> W
        ensures { result ≡ writer_under self }
    {
        self.inner
    }
}

impl<W: Write> Target for ToFlush<W> {
    ghost use Rattle.commands.specs.Flushed.{flush_failed, writer_under};

    ghost contents = { λ target. W.contents (writer_under target) };

    ghost has_failed = { λ target. flush_failed target };

    fn write(&mut self, piece: &[u8]) -> Result<usize, Failed> {
        self.flushed = false;
        match self.inner.write(piece) {
            Ok(count) if count > 0 || piece.is_empty() => Ok(count),
            _ => {
                self.failed = true;
                Err(Failed)
            }
        }
    }

    fn failed(&self) -> bool {
        self.failed
    }
}

impl<W: Write> Flush for ToFlush<W> {
    ghost use Rattle.commands.specs.Flushed.{none_kept};

    ghost is_flushed = { λ target. none_kept target };

    fn flush(&mut self) -> Result<(), Failed> {
        match self.inner.flush() {
            Ok(()) => {
                self.flushed = true;
                Ok(())
            }
            Err(_) => {
                self.failed = true;
                Err(Failed)
            }
        }
    }
}
