//! Writers that say what they contain, and whether they have failed.
ghost use Rattle.std.specs.Prelude.{◌≡◌, ◌↔◌, ℕ, Bool, true, false, Option, List, length, IsErr, IfOk};
ghost use Rattle.std.specs.Io.{WritesAtMost};
ghost use Rattle.std.specs.Io.KnownBytes.{WriteAppends};

use crate::source::Failed;
use std::io::Write;

/// A writer of octets. One that has failed is handed no more.
pub trait Target {
    /// The octets that were written, where it tells them.
    ghost contents: { Self → Option (List ℕ) };

    /// Whether it has failed.
    ghost has_failed: { Self → Bool };

    /// Appends the first octets of the piece and answers their number: 0 only for an empty piece. `Failed` where it has
    /// failed; none is then appended.
    fn write(&mut self, piece: &[u8]) -> Result<usize, Failed>
        requires { has_failed self.old ≡ false }
        ensures bound { WritesAtMost result piece.now }
        ensures progress { IfOk result (λ count. count ≡ 0 → length piece.now ≡ 0) }
        ensures octets { WriteAppends (contents self.old) (contents self.new) result piece.now }
        ensures failed { IsErr result ↔ (has_failed self.new ≡ true) };

    /// Whether it has failed.
    fn failed(&self) -> bool
        ensures { result ≡ has_failed self.now };
}

/// A target over any writer. An error of it, `Interrupted` too, or 0 written of a piece that isn't empty makes the
/// target failed.
#[derive(Drop)]
pub struct ToWrite<W> {
    inner: W,
    failed: bool,
}

impl<W: Write> ToWrite<W> {
    ghost use Rattle.tlv_core.specs.Targets.{writer_of, write_failed};

    /// The target over this writer.
    pub fn new(inner: W) -> ToWrite<W>
        ensures over { writer_of result ≡ inner }
        ensures fresh { write_failed result ≡ false }
    {
        ToWrite {
            inner,
            failed: false,
        }
    }

    /// The writer.
    pub fn into_inner(self) -> W
        ensures { result ≡ writer_of self }
    {
        self.inner
    }
}

impl<W: Write> Target for ToWrite<W> {
    ghost use Rattle.tlv_core.specs.Targets.{writer_of, write_failed};

    ghost contents = { λ target. W.contents (writer_of target) };

    ghost has_failed = { λ target. write_failed target };

    fn write(&mut self, piece: &[u8]) -> Result<usize, Failed> {
        match self.inner.write(piece) {
            Ok(count) if count > 0 || piece.is_empty() => Ok(count),
            _ => {
                self.failed = true;
                Err(Failed)
            }
        }
    }

    fn failed(&self) -> bool {
        self.failed
    }
}
