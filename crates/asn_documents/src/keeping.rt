//! A source that keeps what it gives.
ghost use Rattle.std.specs.Prelude.{◌≡◌, true, false};

use tlv_core::source::{Failed, Source};

/// Keeps the octets that its source gives. It makes room for octets before it asks for them, and fails where there is
/// no memory.
#[derive(Drop)]
pub(crate) struct Keeping<'a, R: Source> {
    pub(crate) src: &'a mut R,
    pub(crate) kept: &'a mut Vec<u8>,
    pub(crate) refused: bool,
    pub(crate) failed: bool,
    pub ghost live: { failed ≡ false → R.has_failed src.now ≡ false },
    pub ghost memory: { refused ≡ true → (failed ≡ true) × (R.has_failed src.now ≡ false) },
    pub ghost broken: { failed ≡ true → refused ≡ false → R.has_failed src.now ≡ true },
}

impl<'a, R: Source> Keeping<'a, R> {
    ghost use Rattle.asn_documents.specs.Keepings.{reference, source, kept, failed};

    pub(crate) fn new(src: &'a mut R, room: &'a mut Vec<u8>) -> Keeping<'a, R>
        requires { R.has_failed src.old ≡ false }
        ensures same_source { reference result ≡ src.entry.ghost_name }
        ensures same { source result ≡ src.old }
        ensures none { kept result ≡ room.old.items }
        ensures fresh { failed result ≡ false }
    {
        Keeping {
            src,
            kept: room,
            refused: false,
            failed: false,
        }
    }
}

impl<R: Source> Source for Keeping<'_, R> {
    ghost use Rattle.asn_documents.specs.Keepings.{source, failed, frame, held};

    ghost remaining = { λ keeping. R.remaining (source keeping) };

    ghost has_failed = { λ keeping. failed keeping };

    ghost frame = { λ keeping. frame keeping };

    ghost at_hand = { λ keeping. held keeping };

    fn read(&mut self, room: &mut [u8]) -> Result<usize, Failed> {
        if self.kept.reserve(room.len()).is_err() {
            self.refused = true;
            self.failed = true;
            return Err(Failed);
        }
        match self.src.read(room) {
            Ok(count) => {
                keep(self.kept, &room[..count]);
                Ok(count)
            }
            Err(Failed) => {
                self.failed = true;
                Err(Failed)
            }
        }
    }

    fn failed(&self) -> bool {
        self.failed
    }

    // (passing octets can't ask for memory: those that there is no room for have to be read)
    fn held(&self) -> &[u8] {
        let held = self.src.held();
        let room = self.kept.capacity() - self.kept.len();
        &held[..held.len().min(room)]
    }

    fn pass(&mut self, count: usize) {
        keep(self.kept, &self.src.held()[..count]);
        self.src.pass(count);
    }
}

ghost use Rattle.std.specs.Prelude.{◌++◌, ◌+◌, ◌≤◌, length};
ghost use Rattle.std.specs.Vec.{vec_capacity, vec_len};

/// Octets that there is room for, after those kept. One alone, as those of headers come, needs no call that copies.
#[inline(always)]
fn keep(kept: &mut Vec<u8>, octets: &[u8])
    requires { vec_len kept.old + length octets.now ≤ vec_capacity kept.old }
    ensures { kept.new.items ≡ kept.old.items ++ octets.now }
{
    if octets.len() == 1 {
        return kept.push_reserved(octets[0]);
    }
    match kept.extend_from_slice(octets) {
        Ok(()) => {}
        Err(_) => unreachable!(),
    }
}
