//! Lengths and contents that a source has at hand are looked at in one piece, where reading them would succeed.
ghost use Rattle.std.specs.Prelude.{◌≡◌, ◌<◌, ◌≤◌, ◌+◌, ◌^◌, ◌++◌, ◌∷◌, [], ℕ, List, None, Some, Ok, IfSome, OnOk};
ghost use Rattle.std.specs.Prelude.{drop, length, take};
ghost use Rattle.tlv_core.specs.Length.{SpellsLength};
ghost use Rattle.x690.specs.ReadHeaders.{primitive_contents};
ghost use Rattle.x690.specs.Reading.{Took, run};
ghost use Rattle.x690.specs.Reads.{Said};
ghost use Rattle.ber_pull.specs.Calls.{read_primitive};
ghost use Rattle.ber_pull.specs.Hears.{heard};
ghost use Rattle.ber_pull.specs.Standing.{enclosing};
ghost use Rattle.ber_pull.specs.declared.state.Given.{Given};
ghost use Rattle.ber_pull.specs.AtHand.{AreAtHand, StandAtHand};

use crate::pull::Pull;
use crate::state::Halted;
use tlv_core::source::Source;

/// Where contents stand in octets that begin with their length.
#[derive(Clone, Copy)]
pub struct Extent {
    /// How many length octets there are.
    from: usize,
    /// How many contents octets.
    pub(crate) size: usize,
}

/// The definite length that octets begin with, where it has three octets or fewer (X.690 8.1.3.4, 8.1.3.5).
#[inline(always)]
fn short_length(octets: &[u8]) -> Option<Extent>
    ensures spells { IfSome result (λ x. SpellsLength x.size (take x.from octets.now)) }
    ensures within { IfSome result (λ x. x.from ≤ length octets.now) }
    ensures small { IfSome result (λ x. x.size < 2 ^ 16) }
    ensures short { IfSome result (λ x. x.from ≤ 3) }
    ensures all { (text rest : List ℕ) (n : ℕ) → octets.now ≡ text ++ rest → SpellsLength n text
        → length text ≤ 3 → result ≡ Some (record { from = length text; size = n }) }
{
    if octets.is_empty() {
        return None;
    }
    let first = octets[0];
    if first < 128 {
        let size = usize::from(first);
        return Some(Extent { from: 1, size });
    }
    if first == 129 {
        if octets.len() < 2 {
            return None;
        }
        let size = usize::from(octets[1]);
        return Some(Extent { from: 2, size });
    }
    if first == 130 {
        if octets.len() < 3 {
            return None;
        }
        let size = usize::from(octets[1]) * 256 + usize::from(octets[2]);
        return Some(Extent { from: 3, size });
    }
    None
}

impl<R: Source> Pull<'_, R> {
    ghost use Rattle.ber_pull.specs.View.{FailsThere, answered, standing, source, Answers, Uses, Frame};

    /// The contents of the primitive element that `next_tag` gave, where the source has all of them at hand, and their
    /// length before them in three octets or fewer: exactly where reading them would succeed. Nothing is taken.
    #[inline(always)]
    pub fn contents_at_hand(&self) -> Option<&[u8]>
        ensures are { IfSome result (λ contents.
            AreAtHand (standing self.now) (R.at_hand (source self.now)) contents.now) }
        ensures all { result ≡ None → (contents : List ℕ)
            → AreAtHand (standing self.now) (R.at_hand (source self.now)) contents → ⊥ }
    {
        if self.state.has_failed() || !self.is_primitive() {
            return None;
        }
        let extent = self.extent_at_hand()?;
        let held = self.src.held();
        Some(&held[extent.from..extent.from + extent.size])
    }

    /// Takes the element whose contents are at hand.
    pub fn pass_contents(&mut self)
        requires { (contents : List ℕ)
            × AreAtHand (standing self.old) (R.at_hand (source self.old)) contents }
        ensures frame { Frame self.old self.new (Ok (tt {0})) }
        ensures reads { (g : Given) (contents : List ℕ) → (standing self.old).given ≡ Some g
            → AreAtHand (standing self.old) (R.at_hand (source self.old)) contents
            → Answers self.old self.new (read_primitive (standing self.old) g) (Said contents) }
        ensures stands { Uses self.old self.new }
    {
        let Some(extent) = self.extent_at_hand() else {
            unreachable!()
        };
        self.pass_extent(extent);
    }

    /// How far a length and its contents reach that are at hand, whatever the identifier before them.
    #[inline(always)]
    pub(crate) fn extent_at_hand(&self) -> Option<Extent>
        ensures stand { IfSome result (λ x.
            StandAtHand (standing self.now) (R.at_hand (source self.now)) x.from x.size) }
        ensures all { result ≡ None → (place end : ℕ) (contents rest : List ℕ)
            → run (primitive_contents (standing self.now).limits (enclosing (standing self.now)) place)
            (standing self.now).taken (R.at_hand (source self.now)) ≡ Took contents end rest
            → end ≤ (standing self.now).taken + 3 + length contents → ⊥ }
    {
        let held = self.src.held();
        let extent = short_length(held)?;
        let end = extent.from + extent.size;
        if held.len() < end || !self.state.has_room(end as u64) {
            return None;
        }
        Some(extent)
    }

    /// Takes a length and contents that are at hand.
    #[inline(always)]
    fn pass_extent(&mut self, extent: Extent)
        requires live { (standing self.old).error ≡ None }
        requires stand { StandAtHand (standing self.old) (R.at_hand (source self.old))
            extent.from extent.size }
        ensures frame { Frame self.old self.new (Ok (tt {0})) }
        ensures reads { (place : ℕ) → Answers self.old self.new
            (primitive_contents (standing self.old).limits (enclosing (standing self.old)) place)
            (Said (take extent.size (drop extent.from (R.at_hand (source self.old))))) }
        ensures stands { Uses self.old self.new }
    {
        let end = extent.from + extent.size;
        self.src.pass(end);
        self.state.take(end as u32);
        self.state.use_given();
    }

    /// Takes a length and contents of one octet that are at hand.
    #[inline(always)]
    pub(crate) fn pass_octet(&mut self, extent: Extent) -> u8
        requires live { (standing self.old).error ≡ None }
        requires stand { StandAtHand (standing self.old) (R.at_hand (source self.old))
            extent.from extent.size }
        requires one { extent.size ≡ 1 }
        ensures frame { Frame self.old self.new (Ok (tt {0})) }
        ensures reads { (place : ℕ) → Answers self.old self.new
            (primitive_contents (standing self.old).limits (enclosing (standing self.old)) place)
            (Said (result ∷ [])) }
        ensures stands { Uses self.old self.new }
    {
        let octet = self.src.held()[extent.from];
        self.pass_extent(extent);
        octet
    }

    /// Contents that are at hand, in place of what the vector holds, which gets room for them alone.
    #[inline(always)]
    pub(crate) fn copy_extent(&mut self, octets: &mut Vec<u8>, extent: Extent) -> Result<(), Halted>
        requires live { (standing self.old).error ≡ None }
        requires stand { StandAtHand (standing self.old) (R.at_hand (source self.old))
            extent.from extent.size }
        ensures frame { Frame self.old self.new (answered self.new result) }
        ensures reads { (place : ℕ) → Answers self.old self.new
            (primitive_contents (standing self.old).limits (enclosing (standing self.old)) place)
            (heard (λ _. octets.new.items) (answered self.new result)) }
        ensures stands { OnOk result (Uses self.old self.new) }
        ensures fails { FailsThere self.old self.new (answered self.new result) }
    {
        octets.clear();
        if octets.reserve_exact(extent.size).is_err() {
            return Err(self.halt_without_memory());
        }
        let held = self.src.held();
        if octets
            .extend_from_slice(&held[extent.from..extent.from + extent.size])
            .is_err()
        {
            return Err(self.halt_without_memory());
        }
        self.pass_extent(extent);
        Ok(())
    }
}
