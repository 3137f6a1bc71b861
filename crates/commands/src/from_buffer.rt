//! A source over a buffered reader.
ghost use Rattle.std.specs.Prelude.{◌≡◌, ◌≤◌, ◌↔◌, true, false, None, IsErr, IsSome, length, take};
ghost use Rattle.std.specs.Io.{ReadsAtMost};
ghost use Rattle.std.specs.Io.Buffered.{reader_remaining};
ghost use Rattle.std.specs.Io.KnownBytes.{Consumes, Keeps, ReadConsumes};
ghost use Rattle.tlv_core.specs.Sources.{no_frame, told_by};

use std::io::{BufRead, BufReader, Read};
use tlv_core::source::{Failed, Source};

/// A source that has at hand what was read ahead. An error of its reader, `Interrupted` too, makes it failed.
#[derive(Drop)]
pub struct FromBuffer<R: Read> {
    inner: BufReader<R>,
    /// A reader may begin to tell its octets, and a source may not: so it is settled when the source is made.
    telling: bool,
    /// The next octets couldn't be read ahead, as the next read answers.
    unread: bool,
    failed: bool,
    ghost told: { telling ≡ true → IsSome (reader_remaining R.remaining inner) },
}

impl<R: Read> FromBuffer<R> {
    ghost use Rattle.commands.specs.Buffers.{reader_of, left_in_reader, is_telling, read_failed};

    /// The source over this reader. It doesn't tell its octets, whether the reader does or not.
    pub fn new(inner: BufReader<R>) -> FromBuffer<R>
        ensures over { reader_of result ≡ inner }
        ensures silent { is_telling result ≡ false }
        ensures fresh { read_failed result ≡ false }
    {
        FromBuffer {
            inner,
            telling: false,
            unread: false,
            failed: false,
        }
    }

    /// The source over a reader that tells its octets. It tells the same.
    pub fn telling(inner: BufReader<R>) -> FromBuffer<R>
        requires { IsSome (reader_remaining R.remaining inner) }
        ensures over { reader_of result ≡ inner }
        ensures tells { is_telling result ≡ true }
        ensures fresh { read_failed result ≡ false }
    {
        FromBuffer {
            inner,
            telling: true,
            unread: false,
            failed: false,
        }
    }

    /// Reads a block ahead, where none is at hand. That it can't be read is answered by the next read.
    pub fn fill(&mut self)
        requires { read_failed self.old ≡ false }
        ensures reader { Keeps (left_in_reader self.old) (left_in_reader self.new) }
        ensures telling { is_telling self.new ≡ is_telling self.old }
        ensures fresh { read_failed self.new ≡ false }
    {
        if self.inner.fill_buf().is_err() {
            self.unread = true;
        }
    }
}

impl<R: Read> Source for FromBuffer<R> {
    ghost use Rattle.commands.specs.Buffers.{left_in_reader, read_ahead, is_telling, read_failed};

    ghost remaining = { λ source. told_by (is_telling source) (left_in_reader source) };

    ghost has_failed = { λ source. read_failed source };

    ghost frame = { λ _. no_frame };

    ghost at_hand = { λ source. read_ahead source };

    // The trait's clauses, and `reader`: whether or not it tells, it hands on what its reader gives.
    fn read(&mut self, room: &mut [u8]) -> Result<usize, Failed>
        requires { read_failed self.old ≡ false }
        ensures bound { ReadsAtMost result room.new }
        ensures octets { ReadConsumes (told_by (is_telling self.old) (left_in_reader self.old))
            (told_by (is_telling self.new) (left_in_reader self.new)) result room.new }
        ensures failed { IsErr result ↔ (read_failed self.new ≡ true) }
        ensures frame { no_frame ≡ no_frame }
        ensures silent { told_by (is_telling self.old) (left_in_reader self.old) ≡ None
            → told_by (is_telling self.new) (left_in_reader self.new) ≡ None }
        ensures reader { ReadConsumes (left_in_reader self.old) (left_in_reader self.new) result
            room.new }
    {
        if self.unread {
            self.failed = true;
            return Err(Failed);
        }
        match self.inner.read(room) {
            Ok(count) => Ok(count),
            Err(_) => {
                self.failed = true;
                Err(Failed)
            }
        }
    }

    fn failed(&self) -> bool {
        self.failed
    }

    fn held(&self) -> &[u8] {
        self.inner.buffer()
    }

    // The same: `reader`.
    fn pass(&mut self, count: usize)
        requires { count ≤ length (read_ahead self.old) }
        ensures octets { Consumes (told_by (is_telling self.old) (left_in_reader self.old))
            (told_by (is_telling self.new) (left_in_reader self.new))
            (take count (read_ahead self.old)) }
        ensures failed { read_failed self.new ≡ read_failed self.old }
        ensures frame { no_frame ≡ no_frame }
        ensures silent { told_by (is_telling self.old) (left_in_reader self.old) ≡ None
            → told_by (is_telling self.new) (left_in_reader self.new) ≡ None }
        ensures reader { Consumes (left_in_reader self.old) (left_in_reader self.new)
            (take count (read_ahead self.old)) }
    {
        self.inner.consume(count);
    }
}
