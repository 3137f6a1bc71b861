//! Readers that say what they still tell, and whether they have failed.
ghost use Rattle.std.specs.Prelude.{◌≡◌, ◌≤◌, ◌↔◌, ℕ, Bool, true, false, Option, None, Some, List, [], IsErr};
ghost use Rattle.std.specs.Prelude.{IsSome, length, take};
ghost use Rattle.std.specs.Io.{ReadsAtMost};
ghost use Rattle.std.specs.Io.KnownBytes.{Consumes, ReadConsumes};

use std::io::Read;

/// A reader or a writer has failed.
#[derive(Clone, Copy, Debug, PartialEq, Eq)]
pub struct Failed;

/// A reader of octets. One that has failed is asked for no more.
pub trait Source {
    /// The octets that it still tells, where it tells them.
    ghost remaining: { Self → Option (List ℕ) };

    /// Whether it has failed.
    ghost has_failed: { Self → Bool };

    /// What no read changes, as numbers: the names of the references that it holds, and what it tells in its life.
    ghost frame: { Self → List ℕ };

    /// The next octets, as many as it has at hand: they need no read.
    ghost at_hand: { Self → List ℕ };

    /// Puts the next octets into `room` and answers their number: 0 only where `room` or what is left is empty.
    /// `Failed` where it has failed; the octets that it told are then still told.
    fn read(&mut self, room: &mut [u8]) -> Result<usize, Failed>
        requires { has_failed self.old ≡ false }
        ensures bound { ReadsAtMost result room.new }
        ensures octets { ReadConsumes (remaining self.old) (remaining self.new) result room.new }
        ensures failed { IsErr result ↔ (has_failed self.new ≡ true) }
        ensures frame { frame self.new ≡ frame self.old }
        // One that doesn't tell its octets doesn't begin to.
        ensures silent { remaining self.old ≡ None → remaining self.new ≡ None };

    /// Whether it has failed.
    fn failed(&self) -> bool
        ensures { result ≡ has_failed self.now };

    /// The next octets that it has at hand; none, where they have to be read.
    fn held(&self) -> &[u8]
        ensures { result.now ≡ at_hand self.now };

    /// Passes so many of the octets that it has at hand.
    fn pass(&mut self, count: usize)
        requires { count ≤ length (at_hand self.old) }
        ensures octets { Consumes (remaining self.old) (remaining self.new)
            (take count (at_hand self.old)) }
        ensures failed { has_failed self.new ≡ has_failed self.old }
        ensures frame { frame self.new ≡ frame self.old }
        ensures silent { remaining self.old ≡ None → remaining self.new ≡ None };
}

/// A slice tells its octets and never fails.
impl Source for &[u8] {
    ghost remaining = { λ octets. Some octets.now };

    ghost has_failed = { λ _. false };

    ghost frame = { λ _. [] };

    ghost at_hand = { λ octets. octets.now };

    fn read(&mut self, room: &mut [u8]) -> Result<usize, Failed> {
        if room.len() == 1 && !self.is_empty() {
            room[0] = self[0];
            *self = &self[1..];
            return Ok(1);
        }
        match Read::read(self, room) {
            Ok(count) => Ok(count),
            Err(_) => unreachable!(),
        }
    }

    fn failed(&self) -> bool {
        false
    }

    fn held(&self) -> &[u8] {
        self
    }

    fn pass(&mut self, count: usize) {
        *self = &self[count..];
    }
}

/// A source over any reader. An error of it, `Interrupted` too, makes the source failed.
#[derive(Drop)]
pub struct FromRead<R: Read> {
    inner: R,
    /// A reader may begin to tell its octets, and a source may not: so it is settled when the source is made.
    telling: bool,
    failed: bool,
    ghost told: { telling ≡ true → IsSome (R.remaining inner) },
}

impl<R: Read> FromRead<R> {
    ghost use Rattle.tlv_core.specs.Sources.{reader_of, is_telling, read_failed};

    /// The source over this reader. It doesn't tell its octets, whether the reader does or not.
    pub fn new(inner: R) -> FromRead<R>
        ensures over { reader_of result ≡ inner }
        ensures silent { is_telling result ≡ false }
        ensures fresh { read_failed result ≡ false }
    {
        FromRead {
            inner,
            telling: false,
            failed: false,
        }
    }

    /// The source over a reader that tells its octets. It tells the same.
    pub fn telling(inner: R) -> FromRead<R>
        requires { IsSome (R.remaining inner) }
        ensures over { reader_of result ≡ inner }
        ensures tells { is_telling result ≡ true }
        ensures fresh { read_failed result ≡ false }
    {
        FromRead {
            inner,
            telling: true,
            failed: false,
        }
    }

    /// The reader.
    pub fn into_inner(self) -> R
        ensures { result ≡ reader_of self }
    {
        self.inner
    }
}

impl<R: Read> Source for FromRead<R> {
    ghost use Rattle.tlv_core.specs.Sources.{reader_of, is_telling, read_failed, told_by, no_frame, none_at_hand};

    ghost remaining = { λ source. told_by (is_telling source) (R.remaining (reader_of source)) };

    ghost has_failed = { λ source. read_failed source };

    ghost frame = { λ _. no_frame };

    ghost at_hand = { λ _. none_at_hand };

    // The trait's clauses, and `reader`: whether or not it tells, it hands on what its reader gives.
    fn read(&mut self, room: &mut [u8]) -> Result<usize, Failed>
        requires { read_failed self.old ≡ false }
        ensures bound { ReadsAtMost result room.new }
        ensures octets { ReadConsumes
            (told_by (is_telling self.old) (R.remaining (reader_of self.old)))
            (told_by (is_telling self.new) (R.remaining (reader_of self.new))) result room.new }
        ensures failed { IsErr result ↔ (read_failed self.new ≡ true) }
        ensures frame { no_frame ≡ no_frame }
        ensures silent { told_by (is_telling self.old) (R.remaining (reader_of self.old)) ≡ None
            → told_by (is_telling self.new) (R.remaining (reader_of self.new)) ≡ None }
        ensures reader { ReadConsumes (R.remaining (reader_of self.old))
            (R.remaining (reader_of self.new)) result room.new }
    {
        match self.inner.read(room) {
            Ok(count) => Ok(count),
            Err(_) => {
                self.failed = true;
                Err(Failed)
            }
        }
    }

    fn failed(&self) -> bool {
        self.failed
    }

    fn held(&self) -> &[u8] {
        &[]
    }

    fn pass(&mut self, _count: usize) {}
}
