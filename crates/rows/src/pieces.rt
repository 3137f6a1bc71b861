//! A source for tests: it gives its octets in pieces, and fails where they end or doesn't.
ghost use Rattle.std.specs.Prelude.{◌≡◌, ◌<◌, ◌≤◌, ◌↔◌, true, false, None, Some, [], IfOk, IsErr};
ghost use Rattle.std.specs.Io.{ReadsAtMost};
ghost use Rattle.std.specs.Io.KnownBytes.{ReadConsumes};
ghost use Rattle.tlv_core.specs.Sources.{no_frame, none_at_hand};

use std::io::Read;
use tlv_core::source::{Failed, Source};

/// Gives at most `piece` octets per read, and after the last one its end or a failure.
#[derive(Drop)]
pub struct Pieces<'a> {
    left: &'a [u8],
    piece: usize,
    fails: bool,
    broken: bool,
    ghost some: { 0 < piece },
    ghost at_its_end: { broken ≡ true → (left.now ≡ []) × (fails ≡ true) },
}

impl<'a> Pieces<'a> {
    ghost use Rattle.rows.specs.Pieces.{octets_left, pieces_failed, piece_size, fails_at_end};

    /// A source of `octets`, at most `piece` of them per read, that fails where they end if `fails`.
    pub fn new(octets: &'a [u8], piece: usize, fails: bool) -> Pieces<'a>
        requires { 0 < piece }
        ensures tells { octets_left result ≡ octets.now }
        ensures fresh { pieces_failed result ≡ false }
        ensures size { piece_size result ≡ piece }
        ensures end { fails_at_end result ≡ fails }
    {
        Pieces {
            left: octets,
            piece,
            fails,
            broken: false,
        }
    }
}

impl Source for Pieces<'_> {
    ghost use Rattle.rows.specs.Pieces.{octets_left, pieces_failed, piece_size, fails_at_end};

    ghost remaining = { λ source. Some (octets_left source) };

    ghost has_failed = { λ source. pieces_failed source };

    ghost frame = { λ _. no_frame };

    ghost at_hand = { λ _. none_at_hand };

    // The trait's clauses, and what the numbers of `new` say.
    fn read(&mut self, room: &mut [u8]) -> Result<usize, Failed>
        requires { pieces_failed self.old ≡ false }
        ensures bound { ReadsAtMost result room.new }
        ensures octets { ReadConsumes (Some (octets_left self.old)) (Some (octets_left self.new))
            result room.new }
        ensures failed { IsErr result ↔ (pieces_failed self.new ≡ true) }
        ensures frame { no_frame ≡ no_frame }
        ensures silent { Some (octets_left self.old) ≡ None → Some (octets_left self.new) ≡ None }
        ensures size { IfOk result (λ count. count ≤ piece_size self.old) }
        ensures end { octets_left self.old ≡ [] → fails_at_end self.old ≡ true → IsErr result }
        ensures same { (piece_size self.new ≡ piece_size self.old)
            × (fails_at_end self.new ≡ fails_at_end self.old) }
    {
        if self.left.is_empty() && self.fails {
            self.broken = true;
            return Err(Failed);
        }
        let most = room.len().min(self.piece);
        match Read::read(&mut self.left, &mut room[..most]) {
            Ok(count) => Ok(count),
            Err(_) => unreachable!(),
        }
    }

    fn failed(&self) -> bool {
        self.broken
    }

    fn held(&self) -> &[u8] {
        &[]
    }

    fn pass(&mut self, _count: usize) {}
}
