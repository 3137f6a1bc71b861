//! Header octets: identifiers, lengths and ends of contents, octet by octet (X.690 8.1.2, 8.1.3, 8.1.5).
ghost use Rattle.std.specs.Prelude.{◌≡◌, ◌<◌, ◌≤◌, ◌+◌, ◌/◌, ◌%◌, ◌^◌, ◌*◌, None, IfOk, OnOk, true, ℕ};
ghost use Rattle.tlv_core.specs.Identifier.{IsTag};
ghost use Rattle.tlv_core.specs.declared.fault.ReadError.TheVariants.{Fault as refused};
ghost use Rattle.tlv_core.specs.declared.reason.Reason.TheVariants.{Truncated};
ghost use Rattle.x690.specs.Points.{ends_with_zeros, fault};
ghost use Rattle.x690.specs.Reading.{Ask, Done};
ghost use Rattle.x690.specs.ReadHeaders.{ContainerEnds, fit_contents, header_octet, read_big_endian};
ghost use Rattle.x690.specs.ReadHeaders.{read_high_number, read_definite_length, read_length, read_number};
ghost use Rattle.x690.specs.ReadHeaders.{read_tag_number};
ghost use Rattle.ber_pull.specs.Calls.{read_end_of_contents};
ghost use Rattle.ber_pull.specs.Hears.{heard};
ghost use Rattle.ber_pull.specs.Standing.{enclosing, ending, failed_with, is_over, moved, no_room};

use crate::pull::Pull;
use crate::state::Halted;
use tlv_core::reason::Reason;
use tlv_core::source::{Failed, Source};
use tlv_core::tag::{Class, Tag};

/// What length octets say (X.690 8.1.3).
#[derive(Clone, Copy)]
pub enum LengthForm {
    /// The number of contents octets.
    Definite(u32),
    /// The contents are ended by end-of-contents octets.
    Indefinite,
}

impl<R: Source> Pull<'_, R> {
    ghost use Rattle.ber_pull.specs.View.{AsksNoMemory, FailsThere, answered, standing, source, told, SameSource};
    ghost use Rattle.ber_pull.specs.View.{ReadsFail, Onward, Answers, Moves, Frame};
    ghost use Rattle.ber_pull.specs.Lengths.{AnswersClipped, IsClipped, IsWithin, form_of};

    /// The next octet of a header or of end-of-contents octets, which belongs to the identifier at `start`.
    #[inline(always)]
    pub(crate) fn octet(&mut self, start: u32) -> Result<u8, Halted>
        requires { (standing self.old).error ≡ None }
        ensures same_source { SameSource self.old self.new }
        ensures reads { Answers self.old self.new
            (header_octet (standing self.old).limits
            (enclosing (standing self.old)).nearest_end start)
            (heard (λ x. x) (answered self.new result)) }
        ensures stands { Moves self.old self.new (answered self.new result) }
        ensures advances { OnOk result ((standing self.new).taken ≡ (standing self.old).taken + 1) }
        ensures octet { IfOk result (λ x. x < 256) }
        ensures read { ReadsFail self.old self.new (answered self.new result) }
        ensures memory { AsksNoMemory self.old (answered self.new result) }
        ensures onward { Onward self.old self.new }
    {
        if !self.state.has_room(1) {
            return Err(self.no_room(start, 1));
        }
        self.next_octet()
    }

    /// The next octet, which stays within the limit.
    #[inline(always)]
    pub(crate) fn next_octet(&mut self) -> Result<u8, Halted>
        requires live { (standing self.old).error ≡ None }
        requires within { (standing self.old).taken + 1 ≤ (standing self.old).limits.octets }
        ensures same_source { SameSource self.old self.new }
        ensures reads { Answers self.old self.new (Ask Done)
            (heard (λ x. x) (answered self.new result)) }
        ensures stands { Moves self.old self.new (answered self.new result) }
        ensures advances { OnOk result ((standing self.new).taken ≡ (standing self.old).taken + 1) }
        ensures octet { IfOk result (λ x. x < 256) }
        ensures read { ReadsFail self.old self.new (answered self.new result) }
        ensures memory { AsksNoMemory self.old (answered self.new result) }
        ensures onward { Onward self.old self.new }
    {
        let mut room = [0u8; 1];
        match self.src.read(&mut room) {
            Ok(0) => Err(self.truncated()),
            Ok(_) => {
                self.state.take(1);
                let octet = room[0];
                Ok(octet)
            }
            Err(Failed) => Err(self.state.fail_reading()),
        }
    }

    /// The fault at the identifier where so many octets more don't stay within the container and the limit.
    #[cold]
    fn no_room(&mut self, start: u32, count: u64) -> Halted
        requires live { (standing self.old).error ≡ None }
        requires below { count < 2 ^ 40 }
        ensures same_source { SameSource self.old self.new }
        ensures same { source self.new ≡ source self.old }
        ensures stands { standing self.new ≡ failed_with
            (refused (fault start (no_room (standing self.old) count))) (standing self.old) }
    {
        let end = u64::from(self.state.taken()) + count;
        if self.state.is_past_nearest_end(end) {
            return self.halt(start, Reason::PastEnd);
        }
        self.halt(start, Reason::TooLong)
    }

    /// The octets end before one that is due.
    #[cold]
    pub(crate) fn truncated(&mut self) -> Halted
        requires { (standing self.old).error ≡ None }
        ensures same_source { SameSource self.old self.new }
        ensures same { source self.new ≡ source self.old }
        ensures stands { standing self.new ≡ failed_with
            (refused (fault (standing self.old).taken Truncated)) (standing self.old) }
    {
        let at = self.state.taken();
        self.halt(at, Reason::Truncated)
    }

    /// Ends the innermost container, after the first of its end-of-contents octets.
    #[inline(never)]
    pub(crate) fn end_of_contents(&mut self, start: u32) -> Result<(), Halted>
        requires { (standing self.old).error ≡ None }
        ensures frame { Frame self.old self.new (answered self.new result) }
        ensures reads { Answers self.old self.new
            (read_end_of_contents (standing self.old).limits
            (enclosing (standing self.old)) start)
            (heard (λ _. ContainerEnds start) (answered self.new result)) }
        ensures indefinite { OnOk result (ends_with_zeros (enclosing (standing self.old)).innermost
            ≡ true) }
        ensures stands { OnOk result (standing self.new
            ≡ ending (moved (standing self.new).taken (standing self.old))) }
        ensures ends { OnOk result (is_over (standing self.new) ≡ true) }
        ensures fails { FailsThere self.old self.new (answered self.new result) }
        ensures memory { AsksNoMemory self.old (answered self.new result) }
    {
        if !self.state.is_indefinite() {
            return Err(self.halt(start, Reason::BadEnd));
        }
        let second = self.octet(start)?;
        if second > 0 {
            return Err(self.halt(start, Reason::BadEnd));
        }
        self.state.end();
        Ok(())
    }

    /// The number of the tag whose first octet is taken.
    #[inline(always)]
    pub(crate) fn tag_number(&mut self, start: u32, first: u8) -> Result<u32, Halted>
        requires { (standing self.old).error ≡ None }
        ensures same_source { SameSource self.old self.new }
        ensures reads { Answers self.old self.new
            (read_tag_number (standing self.old).limits
            (enclosing (standing self.old)).nearest_end start first)
            (heard (λ n. n) (answered self.new result)) }
        ensures stands { Moves self.old self.new (answered self.new result) }
        ensures below { IfOk result (λ n. n < 2 ^ 28) }
        ensures low { IfOk result (λ n. n < 31 → n ≡ first % 32) }
        ensures read { ReadsFail self.old self.new (answered self.new result) }
        ensures memory { AsksNoMemory self.old (answered self.new result) }
        ensures onward { Onward self.old self.new }
    {
        let low = first % 32;
        if low < 31 {
            return Ok(u32::from(low));
        }
        self.high_tag_number(start)
    }

    /// A tag number of 31 or more, in base 128.
    #[cold]
    fn high_tag_number(&mut self, start: u32) -> Result<u32, Halted>
        requires { (standing self.old).error ≡ None }
        ensures same_source { SameSource self.old self.new }
        ensures reads { Answers self.old self.new
            (read_high_number (standing self.old).limits
            (enclosing (standing self.old)).nearest_end start 4 0)
            (heard (λ n. n) (answered self.new result)) }
        ensures stands { Moves self.old self.new (answered self.new result) }
        ensures below { IfOk result (λ n. (n < 2 ^ 28) × (31 ≤ n)) }
        ensures read { ReadsFail self.old self.new (answered self.new result) }
        ensures memory { AsksNoMemory self.old (answered self.new result) }
        ensures onward { Onward self.old self.new }
    {
        let mut number: u32 = 0;
        for _ in 0..4u8 {
            let octet = self.octet(start)?;
            if number == 0 && octet == 128 {
                return Err(self.halt(start, Reason::BadTag));
            }
            if octet < 128 {
                number = number * 128 + u32::from(octet);
                if number < 31 {
                    return Err(self.halt(start, Reason::BadTag));
                }
                return Ok(number);
            }
            number = number * 128 + u32::from(octet - 128);
        }
        Err(self.halt(start, Reason::BadTag))
    }

    /// The length of an element that may be constructed.
    #[inline(always)]
    pub(crate) fn length(&mut self, start: u32) -> Result<LengthForm, Halted>
        requires { (standing self.old).error ≡ None }
        ensures same_source { SameSource self.old self.new }
        ensures reads { Answers self.old self.new
            (read_length (standing self.old).limits
            (enclosing (standing self.old)).nearest_end start)
            (heard form_of (answered self.new result)) }
        ensures stands { Moves self.old self.new (answered self.new result) }
        ensures within { IfOk result (IsWithin (standing self.new)) }
        ensures advances { OnOk result ((standing self.old).taken < (standing self.new).taken) }
        ensures read { ReadsFail self.old self.new (answered self.new result) }
        ensures memory { AsksNoMemory self.old (answered self.new result) }
        ensures onward { Onward self.old self.new }
    {
        let first = self.octet(start)?;
        if first == 255 {
            return Err(self.halt(start, Reason::BadLength));
        }
        if first == 128 {
            return Ok(LengthForm::Indefinite);
        }
        let count = self.number(start, first)?;
        Ok(LengthForm::Definite(count))
    }

    /// The length of a primitive element.
    #[inline(always)]
    pub(crate) fn definite_length(&mut self, start: u32) -> Result<u32, Halted>
        requires { (standing self.old).error ≡ None }
        ensures same_source { SameSource self.old self.new }
        ensures reads { Answers self.old self.new
            (read_definite_length (standing self.old).limits
            (enclosing (standing self.old)).nearest_end start)
            (heard (λ n. n) (answered self.new result)) }
        ensures stands { Moves self.old self.new (answered self.new result) }
        ensures within { IfOk result (λ n. (standing self.new).taken + n
            ≤ (standing self.new).limits.octets) }
        ensures read { ReadsFail self.old self.new (answered self.new result) }
        ensures memory { AsksNoMemory self.old (answered self.new result) }
        ensures onward { Onward self.old self.new }
    {
        let first = self.octet(start)?;
        if first == 128 || first == 255 {
            return Err(self.halt(start, Reason::BadLength));
        }
        self.number(start, first)
    }

    /// The number of contents octets, after the first length octet.
    #[inline(always)]
    fn number(&mut self, start: u32, first: u8) -> Result<u32, Halted>
        requires { (standing self.old).error ≡ None }
        ensures same_source { SameSource self.old self.new }
        ensures reads { Answers self.old self.new
            (read_number (standing self.old).limits
            (enclosing (standing self.old)).nearest_end start first)
            (heard (λ n. n) (answered self.new result)) }
        ensures stands { Moves self.old self.new (answered self.new result) }
        ensures within { IfOk result (λ n. (standing self.new).taken + n
            ≤ (standing self.new).limits.octets) }
        ensures read { ReadsFail self.old self.new (answered self.new result) }
        ensures memory { AsksNoMemory self.old (answered self.new result) }
        ensures onward { Onward self.old self.new }
    {
        if first < 128 {
            return self.fit(start, u64::from(first));
        }
        let number = self.big_endian(start, first - 128)?;
        self.fit(start, number)
    }

    /// The number of `count` big-endian octets, or some number of 2^32 or more in place of one.
    #[cold]
    fn big_endian(&mut self, start: u32, count: u8) -> Result<u64, Halted>
        requires { (standing self.old).error ≡ None }
        ensures same_source { SameSource self.old self.new }
        ensures reads { AnswersClipped self.old self.new
            (read_big_endian (standing self.old).limits
            (enclosing (standing self.old)).nearest_end start count 0) (answered self.new result) }
        ensures stands { Moves self.old self.new (answered self.new result) }
        ensures below { IfOk result (λ m. m < 2 ^ 40) }
        ensures read { ReadsFail self.old self.new (answered self.new result) }
        ensures memory { AsksNoMemory self.old (answered self.new result) }
        ensures onward { Onward self.old self.new }
    {
        let mut number: u64 = 0;
        for _ in 0..count {
            let octet = self.octet(start)?;
            number = with_octet(number, octet);
        }
        Ok(number)
    }

    /// The number, where so many octets from here on stay within the container and the limit.
    #[inline(always)]
    fn fit(&mut self, start: u32, number: u64) -> Result<u32, Halted>
        requires live { (standing self.old).error ≡ None }
        requires below { number < 2 ^ 40 }
        ensures same_source { SameSource self.old self.new }
        ensures reads { (n : ℕ) → IsClipped n number
            → Answers self.old self.new
            (fit_contents (standing self.old).limits
            (enclosing (standing self.old)).nearest_end start n)
            (heard (λ m. m) (answered self.new result)) }
        ensures stands { Moves self.old self.new (answered self.new result) }
        ensures within { IfOk result (λ n. (standing self.new).taken + n
            ≤ (standing self.new).limits.octets) }
        ensures read { ReadsFail self.old self.new (answered self.new result) }
        ensures memory { AsksNoMemory self.old (answered self.new result) }
        ensures onward { Onward self.old self.new }
    {
        if !self.state.has_room(number) {
            return Err(self.no_room(start, number));
        }
        Ok(number as u32)
    }
}

ghost use Rattle.ber_pull.specs.Lengths.{IsClipped};

/// The number with one octet more; a number of 2^32 or more stays as it is.
fn with_octet(number: u64, octet: u8) -> u64
    requires { number < 2 ^ 40 }
    ensures clipped { (n : ℕ) → IsClipped n number → IsClipped (n * 256 + octet) result }
    ensures below { result < 2 ^ 40 }
{
    if number >= 1 << 32 {
        return number;
    }
    number * 256 + u64::from(octet)
}

/// The tag of an identifier with this first octet.
pub(crate) fn tag_of(first: u8, number: u32) -> Tag
    requires small { number < 2 ^ 28 }
    requires not_end { number ≡ 0 → 64 ≤ first }
    ensures is { result ≡ record { class = first / 64; number = number } }
    ensures tag { IsTag result }
{
    let class = match first / 64 {
        0 => Class::Universal,
        1 => Class::Application,
        2 => Class::Context,
        _ => Class::Private,
    };
    match Tag::new(class, number) {
        Some(tag) => tag,
        None => unreachable!(),
    }
}
