//! Contents octets, in pieces into a buffer that grows with what came.
ghost use Rattle.std.specs.Prelude.{◌≡◌, ◌<◌, ◌≤◌, ◌+◌, ◌-◌, ◌^◌, ◌↔◌, ℕ, None, Some, IfOk, IfSome, IsSome, IsTrue};
ghost use Rattle.std.specs.Prelude.{OnOk, length};
ghost use Rattle.x690.specs.ReadHeaders.{next_octets, primitive_contents};
ghost use Rattle.ber_pull.specs.Calls.{read_primitive};
ghost use Rattle.ber_pull.specs.Hears.{heard};
ghost use Rattle.ber_pull.specs.declared.state.Given.{Given};
ghost use Rattle.ber_pull.specs.Standing.{enclosing};

use crate::pull::Pull;
use crate::state::Halted;
use std::alloc::Global;
use tlv_core::fault::ReadError;
use tlv_core::reason::Reason;
use tlv_core::source::{Failed, Source};

/// How many octets are asked for at once, at most.
const PIECE: usize = 1024;

/// Pieces of no more than these are read into rooms of their own, which takes less than to make the vector longer
/// first.
const SHORT: usize = 32;

/// Longer pieces of no more than these, as keys and signatures of curves are, get the next larger ones.
const MIDDLE: usize = 160;

impl<R: Source> Pull<'_, R> {
    ghost use Rattle.ber_pull.specs.View.{FailsThere, answered, standing, source, SameSource, Repeats, ReadsFail};
    ghost use Rattle.ber_pull.specs.View.{Onward, Answers, Moves, Uses, Frame};
    ghost use Rattle.ber_pull.specs.Contents.{AddsPiece, octet_or};

    /// The contents of the primitive element that `next_tag` gave.
    ///
    /// Faults: `WrongForm` of a constructed element, `BadLength`, `PastEnd`, `TooLong` at the identifier; `Truncated`.
    pub fn primitive(&mut self, alloc: Global) -> Result<Vec<u8>, ReadError>
        requires { (standing self.old).error ≡ None → IsSome (standing self.old).given }
        ensures frame { Frame self.old self.new result }
        ensures repeats { Repeats self.old self.new result }
        ensures reads { (g : Given) → (standing self.old).error ≡ None
            → (standing self.old).given ≡ Some g
            → Answers self.old self.new (read_primitive (standing self.old) g)
            (heard (λ v. v.items) result) }
        ensures stands { OnOk result (Uses self.old self.new) }
        ensures fails { FailsThere self.old self.new result }
    {
        let mut octets = Vec::new(alloc);
        self.primitive_into(&mut octets)?;
        Ok(octets)
    }

    /// The same, in place of what the vector holds: its room is used again, so that many small elements need no
    /// allocation each. What the vector holds after an error isn't said.
    #[inline(always)]
    pub fn primitive_into(&mut self, octets: &mut Vec<u8>) -> Result<(), ReadError>
        requires { (standing self.old).error ≡ None → IsSome (standing self.old).given }
        ensures frame { Frame self.old self.new result }
        ensures repeats { Repeats self.old self.new result }
        ensures reads { (g : Given) → (standing self.old).error ≡ None
            → (standing self.old).given ≡ Some g
            → Answers self.old self.new (read_primitive (standing self.old) g)
            (heard (λ _. octets.new.items) result) }
        ensures stands { OnOk result (Uses self.old self.new) }
        ensures fails { FailsThere self.old self.new result }
    {
        if self.state.has_failed() {
            return Err(self.state.failure());
        }
        let given = self.state.given().unwrap();
        if given.constructed {
            return Err(self.stop(given.at, Reason::WrongForm));
        }
        match self.primitive_contents(octets, given.at) {
            Ok(()) => Ok(()),
            Err(Halted) => Err(self.state.failure()),
        }
    }

    /// The contents of the primitive element that `next_tag` gave, where they are one octet: no memory is asked for it.
    /// `None` where they are others, which stand in `others` then, in place of what it holds.
    ///
    /// Faults: those of `primitive`.
    #[inline(always)]
    pub fn primitive_octet(&mut self, others: &mut Vec<u8>) -> Result<Option<u8>, ReadError>
        requires { (standing self.old).error ≡ None → IsSome (standing self.old).given }
        ensures frame { Frame self.old self.new result }
        ensures repeats { Repeats self.old self.new result }
        ensures reads { (g : Given) → (standing self.old).error ≡ None
            → (standing self.old).given ≡ Some g
            → Answers self.old self.new (read_primitive (standing self.old) g)
            (heard (octet_or others.new.items) result) }
        ensures others { IfOk result (λ octet. octet ≡ None → length others.new.items ≡ 1 → ⊥) }
        ensures stands { OnOk result (Uses self.old self.new) }
        ensures fails { FailsThere self.old self.new result }
    {
        if self.state.has_failed() {
            return Err(self.state.failure());
        }
        let given = self.state.given().unwrap();
        if given.constructed {
            return Err(self.stop(given.at, Reason::WrongForm));
        }
        match self.octet_or_others(others, given.at) {
            Ok(octet) => Ok(octet),
            Err(Halted) => Err(self.state.failure()),
        }
    }

    /// The same, where its identifier stands at `start`.
    #[inline(always)]
    fn octet_or_others(&mut self, others: &mut Vec<u8>, start: u32) -> Result<Option<u8>, Halted>
        requires { (standing self.old).error ≡ None }
        ensures frame { Frame self.old self.new (answered self.new result) }
        ensures reads { Answers self.old self.new
            (primitive_contents (standing self.old).limits (enclosing (standing self.old)) start)
            (heard (octet_or others.new.items) (answered self.new result)) }
        ensures others { IfOk result (λ octet. octet ≡ None → length others.new.items ≡ 1 → ⊥) }
        ensures stands { OnOk result (Uses self.old self.new) }
        ensures fails { FailsThere self.old self.new (answered self.new result) }
    {
        if let Some(extent) = self.extent_at_hand() {
            if extent.size == 1 {
                return Ok(Some(self.pass_octet(extent)));
            }
        }
        let count = self.definite_length(start)?;
        if count == 1 {
            let octet = self.next_octet()?;
            self.state.use_given();
            return Ok(Some(octet));
        }
        self.contents(others, count)?;
        self.state.use_given();
        Ok(None)
    }

    /// The length and the contents of the primitive element whose identifier at `start` is given.
    #[inline(always)]
    pub(crate) fn primitive_contents(
        &mut self,
        octets: &mut Vec<u8>,
        start: u32,
    ) -> Result<(), Halted>
        requires { (standing self.old).error ≡ None }
        ensures frame { Frame self.old self.new (answered self.new result) }
        ensures reads { Answers self.old self.new
            (primitive_contents (standing self.old).limits (enclosing (standing self.old)) start)
            (heard (λ _. octets.new.items) (answered self.new result)) }
        ensures stands { OnOk result (Uses self.old self.new) }
        ensures fails { FailsThere self.old self.new (answered self.new result) }
    {
        if let Some(extent) = self.extent_at_hand() {
            return self.copy_extent(octets, extent);
        }
        let count = self.definite_length(start)?;
        self.contents(octets, count)?;
        self.state.use_given();
        Ok(())
    }

    /// The next `count` octets, in place of what the vector holds.
    fn contents(&mut self, octets: &mut Vec<u8>, count: u32) -> Result<(), Halted>
        requires live { (standing self.old).error ≡ None }
        requires within { (standing self.old).taken + count ≤ (standing self.old).limits.octets }
        ensures same_source { SameSource self.old self.new }
        ensures reads { Answers self.old self.new (next_octets count)
            (heard (λ _. octets.new.items) (answered self.new result)) }
        ensures all { OnOk result (length octets.new.items ≡ count) }
        ensures stands { Moves self.old self.new (answered self.new result) }
        ensures read { ReadsFail self.old self.new (answered self.new result) }
        ensures onward { Onward self.old self.new }
    {
        let size = count as usize;
        octets.clear();
        // (of what a length only claims no more than a piece)
        let sure = PIECE.max(self.src.held().len());
        if octets.reserve_exact(size.min(sure)).is_err() {
            return Err(self.halt_without_memory());
        }
        while octets.len() < size {
            let left = size - octets.len();
            self.piece(octets, left)?;
        }
        Ok(())
    }

    /// Some of the next `most` octets, at least one, after those that came before.
    fn piece(&mut self, octets: &mut Vec<u8>, most: usize) -> Result<(), Halted>
        requires live { (standing self.old).error ≡ None }
        requires some { 0 < most }
        requires short { most < 2 ^ 32 }
        requires within { (standing self.old).taken + most ≤ (standing self.old).limits.octets }
        ensures same_source { SameSource self.old self.new }
        ensures adds { AddsPiece self.old self.new octets.old.items octets.new.items most
            (answered self.new result) }
        ensures stands { Moves self.old self.new (answered self.new result) }
        ensures read { ReadsFail self.old self.new (answered self.new result) }
        ensures onward { Onward self.old self.new }
    {
        if self.has_octets_at_hand() {
            return self.copy_held(octets, most);
        }
        if most <= SHORT {
            let mut room = [0u8; SHORT];
            return self.fill(octets, &mut room[..most]);
        }
        if most <= MIDDLE {
            let mut room = [0u8; MIDDLE];
            return self.fill(octets, &mut room[..most]);
        }
        self.fill_behind(octets, most.min(PIECE))
    }

    /// The next octet needs no read.
    #[inline(always)]
    fn has_octets_at_hand(&self) -> bool
        ensures { IsTrue result ↔ (0 < length (R.at_hand (source self.now))) }
    {
        !self.src.held().is_empty()
    }

    /// The same, of those that the source has at hand.
    #[inline(always)]
    fn copy_held(&mut self, octets: &mut Vec<u8>, most: usize) -> Result<(), Halted>
        requires live { (standing self.old).error ≡ None }
        requires some { 0 < most }
        requires short { most < 2 ^ 32 }
        requires held { 0 < length (R.at_hand (source self.old)) }
        requires within { (standing self.old).taken + most ≤ (standing self.old).limits.octets }
        ensures same_source { SameSource self.old self.new }
        ensures adds { AddsPiece self.old self.new octets.old.items octets.new.items most
            (answered self.new result) }
        ensures stands { Moves self.old self.new (answered self.new result) }
        ensures read { ReadsFail self.old self.new (answered self.new result) }
        ensures onward { Onward self.old self.new }
    {
        let held = self.src.held();
        let size = most.min(held.len());
        if octets.extend_from_slice(&held[..size]).is_err() {
            return Err(self.halt_without_memory());
        }
        self.src.pass(size);
        self.state.take(size as u32);
        Ok(())
    }

    /// Some of the next octets, at least one and at most as many as the room, after those that came before.
    #[inline(always)]
    fn fill(&mut self, octets: &mut Vec<u8>, room: &mut [u8]) -> Result<(), Halted>
        requires live { (standing self.old).error ≡ None }
        requires some { 0 < length room.old }
        requires short { length room.old ≤ 1024 }
        requires within { (standing self.old).taken + length room.old
            ≤ (standing self.old).limits.octets }
        ensures same_source { SameSource self.old self.new }
        ensures adds { (most : ℕ) → length room.old ≤ most
            → AddsPiece self.old self.new octets.old.items octets.new.items most
            (answered self.new result) }
        ensures stands { Moves self.old self.new (answered self.new result) }
        ensures read { ReadsFail self.old self.new (answered self.new result) }
        ensures onward { Onward self.old self.new }
    {
        match self.src.read(room) {
            Ok(0) => Err(self.truncated()),
            Ok(count) => {
                self.state.take(count as u32);
                match octets.extend_from_slice(&room[..count]) {
                    Ok(()) => Ok(()),
                    Err(_) => Err(self.halt_without_memory()),
                }
            }
            Err(Failed) => Err(self.state.fail_reading()),
        }
    }

    /// The same, straight into the vector: at least one octet, and at most so many.
    fn fill_behind(&mut self, octets: &mut Vec<u8>, size: usize) -> Result<(), Halted>
        requires live { (standing self.old).error ≡ None }
        requires some { 0 < size }
        requires short { size ≤ 1024 }
        requires within { (standing self.old).taken + size ≤ (standing self.old).limits.octets }
        ensures same_source { SameSource self.old self.new }
        ensures adds { (most : ℕ) → size ≤ most
            → AddsPiece self.old self.new octets.old.items octets.new.items most
            (answered self.new result) }
        ensures stands { Moves self.old self.new (answered self.new result) }
        ensures read { ReadsFail self.old self.new (answered self.new result) }
        ensures onward { Onward self.old self.new }
    {
        let before = octets.len();
        if octets.resize(before + size, 0).is_err() {
            return Err(self.halt_without_memory());
        }
        match self.src.read(&mut octets[before..]) {
            Ok(0) => Err(self.truncated()),
            Ok(count) => {
                self.state.take(count as u32);
                octets.truncate(before + count);
                Ok(())
            }
            Err(Failed) => Err(self.state.fail_reading()),
        }
    }
}
