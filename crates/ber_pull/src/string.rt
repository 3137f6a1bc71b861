//! Strings in one piece or in segments of any nesting (X.690 8.6, 8.7).
ghost use Rattle.std.specs.Prelude.{◌≡◌, ◌<◌, ◌≤◌, ◌+◌, ◌*◌, ◌==◌, ◌||◌, ◌&&◌, ◌++◌, ◌∷◌, [], not, Bool, List, ℕ};
ghost use Rattle.std.specs.Prelude.{None, Some, IfOk, IsSome, OnOk, length, false, true};
ghost use Rattle.x690.specs.Contents as values;
ghost use Rattle.x690.specs.Layouts.{same_tag, universal};
ghost use Rattle.x690.specs.ReadContents as reading;
ghost use Rattle.ber_pull.specs.Calls.{read_octets, read_bits, read_segments};
ghost use Rattle.ber_pull.specs.Hears.{heard};
ghost use Rattle.ber_pull.specs.declared.state.Container.{Container};
ghost use Rattle.ber_pull.specs.declared.state.Given.{Given};
ghost use Rattle.ber_pull.specs.Standing.{among, enclosing};

use crate::bits::{is_bit_segment, without_last_bits};
use crate::pull::Pull;
use crate::state::Halted;
use std::alloc::{AllocError, Global};
use tlv_core::fault::ReadError;
use tlv_core::reason::Reason;
use tlv_core::source::Source;
use tlv_core::tag::{Class, Tag};

/// The primitive segments of a string that came, joined.
#[derive(Drop)]
pub struct Joined {
    /// They are those of a BIT STRING: each begins with its number of unused bits, which only the last may have.
    is_bits: bool,
    /// The unused bits of the last one.
    unused: u8,
    octets: Vec<u8>,
    ghost few: { unused ≤ 7 },
}

impl Joined {
    ghost use Rattle.ber_pull.specs.Segments.{Joins, segment_number};

    /// No segment yet.
    fn new(alloc: Global, is_bits: bool) -> Joined
        ensures kind { result.is_bits ≡ is_bits }
        ensures none { Joins result [] }
    {
        Joined {
            is_bits,
            unused: 0,
            octets: Vec::new(alloc),
        }
    }

    /// Segments have this tag.
    fn is_segment_tag(&self, tag: Tag) -> bool
        ensures { result ≡ same_tag tag (universal (segment_number self.now.is_bits)) }
    {
        let number = if self.is_bits { 3 } else { 4 };
        tag.class() == Class::Universal && tag.number() == number
    }

    /// A primitive segment with these contents may follow.
    fn may_follow(&self, contents: &[u8]) -> bool
        ensures { result ≡ (not self.now.is_bits
            || (reading.is_bit_segment contents.now && (self.now.unused == 0))) }
    {
        !self.is_bits || (is_bit_segment(contents) && self.unused == 0)
    }

    /// One segment more.
    fn add(&mut self, mut contents: Vec<u8>) -> Result<(), AllocError>
        requires { self.old.is_bits ≡ true → reading.is_bit_segment contents.items ≡ true }
        ensures kind { self.new.is_bits ≡ self.old.is_bits }
        ensures more { OnOk result ((s : List (List ℕ)) → Joins self.old s
            → Joins self.new (s ++ (contents.items ∷ []))) }
    {
        if self.is_bits {
            self.unused = contents.remove(0);
        }
        self.append(contents)?;
        Ok(())
    }

    /// More octets after those that came.
    fn append(&mut self, octets: Vec<u8>) -> Result<(), AllocError>
        ensures kind { self.new.is_bits ≡ self.old.is_bits }
        ensures unused { self.new.unused ≡ self.old.unused }
        ensures more { OnOk result (self.new.octets.items ≡ self.old.octets.items ++ octets.items) }
    {
        if self.octets.is_empty() {
            self.octets = octets;
            return Ok(());
        }
        self.octets.extend_from_slice(&octets)?;
        Ok(())
    }
}

/// The octets with the last `unused` bits set to 0.
fn clear_unused(mut octets: Vec<u8>, unused: u8) -> Vec<u8>
    requires { unused ≤ 7 }
    ensures { result.items ≡ values.clear_unused unused octets.items }
{
    if octets.is_empty() {
        return octets;
    }
    let last = octets.len() - 1;
    octets[last] = without_last_bits(octets[last], unused);
    octets
}

impl<R: Source> Pull<'_, R> {
    ghost use Rattle.ber_pull.specs.View.{answered, standing, Repeats, Answers, Uses, Frame};
    ghost use Rattle.ber_pull.specs.Segments.{AddsSegment, AnswersJoined, Joins, Level, Stacked, Steps};
    ghost use Rattle.ber_pull.specs.Segments.{read_one_segment, read_rest, segment_number};

    /// The octets of the string that `next_tag` gave, its segments joined. Segments have the tag of OCTET STRING.
    ///
    /// Faults: those of `primitive`, and at a segment's identifier those of `next_tag`, `enter` and `WrongTag`.
    pub fn octets(&mut self, alloc: Global) -> Result<Vec<u8>, ReadError>
        requires { (standing self.old).error ≡ None → IsSome (standing self.old).given }
        ensures frame { Frame self.old self.new result }
        ensures repeats { Repeats self.old self.new result }
        ensures reads { (g : Given) → (standing self.old).error ≡ None
            → (standing self.old).given ≡ Some g
            → Answers self.old self.new (read_octets (standing self.old) g)
            (heard (λ v. v.items) result) }
        ensures stands { OnOk result (Uses self.old self.new) }
    {
        if self.state.has_failed() {
            return Err(self.state.failure());
        }
        let joined = self.joined(alloc, false)?;
        Ok(joined.octets)
    }

    /// The same, in place of what the vector holds: for a primitive string its room is used again. What the vector
    /// holds after an error isn't said.
    pub fn octets_into(&mut self, alloc: Global, octets: &mut Vec<u8>) -> Result<(), ReadError>
        requires { (standing self.old).error ≡ None → IsSome (standing self.old).given }
        ensures frame { Frame self.old self.new result }
        ensures repeats { Repeats self.old self.new result }
        ensures reads { (g : Given) → (standing self.old).error ≡ None
            → (standing self.old).given ≡ Some g
            → Answers self.old self.new (read_octets (standing self.old) g)
            (heard (λ _. octets.new.items) result) }
        ensures stands { OnOk result (Uses self.old self.new) }
    {
        if self.state.has_failed() {
            return Err(self.state.failure());
        }
        let given = self.state.given().unwrap();
        if given.constructed {
            let joined = self.octets(alloc)?;
            *octets = joined;
            return Ok(());
        }
        match self.primitive_contents(octets, given.at) {
            Ok(()) => Ok(()),
            Err(Halted) => Err(self.state.failure()),
        }
    }

    /// The number of unused bits of the BIT STRING that `next_tag` gave, and its octets, segments joined and unused
    /// bits 0.
    ///
    /// Faults: those of `octets`, and `BadBits` at the identifier of a primitive segment.
    pub fn bits(&mut self, alloc: Global) -> Result<(u8, Vec<u8>), ReadError>
        requires { (standing self.old).error ≡ None → IsSome (standing self.old).given }
        ensures frame { Frame self.old self.new result }
        ensures repeats { Repeats self.old self.new result }
        ensures reads { (g : Given) → (standing self.old).error ≡ None
            → (standing self.old).given ≡ Some g
            → Answers self.old self.new (read_bits (standing self.old) g)
            (heard (λ v. (v.0, v.1.items)) result) }
        ensures stands { OnOk result (Uses self.old self.new) }
    {
        if self.state.has_failed() {
            return Err(self.state.failure());
        }
        let joined = self.joined(alloc, true)?;
        let unused = joined.unused;
        Ok((unused, clear_unused(joined.octets, unused)))
    }

    /// The segments of the string that was given.
    #[inline(always)]
    fn joined(&mut self, alloc: Global, is_bits: bool) -> Result<Joined, ReadError>
        requires live { (standing self.old).error ≡ None }
        requires given { IsSome (standing self.old).given }
        ensures frame { Frame self.old self.new result }
        ensures reads { (g : Given) → (standing self.old).given ≡ Some g
            → AnswersJoined self.old self.new
            (read_segments (segment_number is_bits) (standing self.old) g) result }
        ensures kind { IfOk result (λ joined. joined.is_bits ≡ is_bits) }
        ensures stands { OnOk result (Uses self.old self.new) }
    {
        let mut joined = Joined::new(alloc, is_bits);
        let given = self.state.given().unwrap();
        if !given.constructed {
            return match self.segment(alloc, given.at, &mut joined) {
                Ok(()) => Ok(joined),
                Err(Halted) => Err(self.state.failure()),
            };
        }
        let outside = self.state.depth();
        self.enter()?;
        while self.state.depth() > outside {
            self.step(alloc, &mut joined)?;
        }
        Ok(joined)
    }

    /// One step through the segments: into a constructed one, over a primitive one, or out of one that has ended.
    fn step(&mut self, alloc: Global, joined: &mut Joined) -> Result<(), ReadError>
        requires live { (standing self.old).error ≡ None }
        requires unused { (standing self.old).given ≡ None }
        requires inside { 0 < length (standing self.old).containers }
        requires depth { length (standing self.old).containers ≤ (standing self.old).limits.depth }
        ensures frame { Frame self.old self.new result }
        ensures reads { (around : List Container) (v : Level) (vs : List Level) (s : List (List ℕ))
            → Stacked (standing self.old) around (v ∷ vs) (standing self.old).containers
            → Joins joined.old s
            → Steps self.old self.new around (segment_number joined.old.is_bits)
            (read_rest (segment_number joined.old.is_bits) (standing self.old).limits (v ∷ vs) s)
            joined.new result }
        ensures kind { joined.new.is_bits ≡ joined.old.is_bits }
        ensures stands { OnOk result (standing self.new
            ≡ among (standing self.new) (standing self.old)) }
        ensures falls { OnOk result (2 * (standing self.old).taken
            + length (standing self.new).containers < 2 * (standing self.new).taken
            + length (standing self.old).containers) }
    {
        let start = self.state.taken();
        let Some(next) = self.next_tag()? else {
            self.state.close();
            return Ok(());
        };
        let (tag, constructed) = next;
        if !joined.is_segment_tag(tag) {
            return Err(self.stop(start, Reason::WrongTag));
        }
        if constructed {
            self.enter()?;
            return Ok(());
        }
        match self.segment(alloc, start, joined) {
            Ok(()) => Ok(()),
            Err(Halted) => Err(self.state.failure()),
        }
    }

    /// The primitive segment whose identifier at `start` was given.
    #[inline(always)]
    fn segment(&mut self, alloc: Global, start: u32, joined: &mut Joined) -> Result<(), Halted>
        requires live { (standing self.old).error ≡ None }
        ensures frame { Frame self.old self.new (answered self.new result) }
        ensures reads { (s : List (List ℕ)) → Joins joined.old s
            → AddsSegment self.old self.new
            (read_one_segment (segment_number joined.old.is_bits) (standing self.old).limits
            (enclosing (standing self.old)) s start) joined.new (answered self.new result) }
        ensures kind { joined.new.is_bits ≡ joined.old.is_bits }
        ensures stands { OnOk result (Uses self.old self.new) }
    {
        let mut contents = Vec::new(alloc);
        self.primitive_contents(&mut contents, start)?;
        if !joined.may_follow(&contents) {
            return Err(self.halt(start, Reason::BadBits));
        }
        match joined.add(contents) {
            Ok(()) => Ok(()),
            Err(_) => Err(self.halt_without_memory()),
        }
    }
}
