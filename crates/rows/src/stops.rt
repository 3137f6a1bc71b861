//! A target for tests: it takes what it is handed in pieces, and fails once it is full.
ghost use Rattle.std.specs.Prelude.{◌≡◌, ◌<◌, ◌≤◌, ◌↔◌, true, false, Some, [], length, IfOk, IsErr};
ghost use Rattle.std.specs.Io.{WritesAtMost};
ghost use Rattle.std.specs.Io.KnownBytes.{WriteAppends};

use std::alloc::{AllocError, Global};
use tlv_core::source::Failed;
use tlv_core::target::Target;

/// Takes at most `piece` octets per write, `room` in all, and then fails.
#[derive(Drop)]
pub struct Stops {
    room: Vec<u8>,
    used: usize,
    piece: usize,
    broken: bool,
    ghost within: { used ≤ length room.items },
    ghost some: { 0 < piece },
    ghost full: { broken ≡ true → used ≡ length room.items },
}

impl Stops {
    ghost use Rattle.rows.specs.Stops.{octets_taken, room_in_all, piece_taken, stops_failed};

    /// A target that takes at most `piece` octets per write and `room` in all. All its memory is taken here.
    pub fn new(alloc: Global, room: usize, piece: usize) -> Result<Stops, AllocError>
        requires { 0 < piece }
        ensures empty { IfOk result (λ target. octets_taken target ≡ []) }
        ensures fresh { IfOk result (λ target. stops_failed target ≡ false) }
        ensures size { IfOk result (λ target. piece_taken target ≡ piece) }
        ensures whole { IfOk result (λ target. room_in_all target ≡ room) }
    {
        Ok(Stops {
            room: vec![in alloc; 0; room]?,
            used: 0,
            piece,
            broken: false,
        })
    }

    /// The octets that were taken, in order.
    pub fn octets(&self) -> &[u8]
        ensures { result.now ≡ octets_taken self.now }
    {
        &self.room[..self.used]
    }
}

impl Target for Stops {
    ghost use Rattle.rows.specs.Stops.{octets_taken, room_in_all, piece_taken, stops_failed};

    ghost contents = { λ target. Some (octets_taken target) };

    ghost has_failed = { λ target. stops_failed target };

    // The trait's clauses, and what the numbers of `new` say.
    fn write(&mut self, piece: &[u8]) -> Result<usize, Failed>
        requires { stops_failed self.old ≡ false }
        ensures bound { WritesAtMost result piece.now }
        ensures progress { IfOk result (λ count. count ≡ 0 → length piece.now ≡ 0) }
        ensures octets { WriteAppends (Some (octets_taken self.old)) (Some (octets_taken self.new))
            result piece.now }
        ensures failed { IsErr result ↔ (stops_failed self.new ≡ true) }
        ensures size { IfOk result (λ count. count ≤ piece_taken self.old) }
        ensures same { (piece_taken self.new ≡ piece_taken self.old)
            × (room_in_all self.new ≡ room_in_all self.old) }
    {
        let left = self.room.len() - self.used;
        let count = piece.len().min(self.piece).min(left);
        if count == 0 && !piece.is_empty() {
            self.broken = true;
            return Err(Failed);
        }
        self.room[self.used..self.used + count].copy_from_slice(&piece[..count]);
        self.used += count;
        Ok(count)
    }

    fn failed(&self) -> bool {
        self.broken
    }
}
