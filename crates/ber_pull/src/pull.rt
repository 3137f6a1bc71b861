//! The reader: one element after another, with a stack of the open containers in itself.
ghost use Rattle.std.specs.Prelude.{◌≡◌, ◌<◌, ◌≤◌, ◌↔◌, None, Some, Ok, IfOk, IfSome, IsSome, OnOk, false, true, ℕ};
ghost use Rattle.std.specs.Prelude.{[], length};
ghost use Rattle.tlv_core.specs.declared.fault.ReadError.{ReadError};
ghost use Rattle.tlv_core.specs.declared.fault.ReadError.TheVariants.{Fault as refused, Memory};
ghost use Rattle.tlv_core.specs.declared.reason.Reason.TheVariants.{Inner};
ghost use Rattle.ber_pull.specs.Calls.{read_next, read_entering, read_leaving};
ghost use Rattle.ber_pull.specs.Hears.{heard, next_at};
ghost use Rattle.x690.specs.Points.{fault};
ghost use Rattle.ber_pull.specs.declared.state.Given.{Given};
ghost use Rattle.ber_pull.specs.Standing.{IsAtEnd, IsGiven, TellsInside, started, place, failed_with};
ghost use Rattle.ber_pull.specs.Standing.{gives_primitive, enclosing, after_next, closing, is_done, moved, opening};

use crate::header::{LengthForm, tag_of};
use crate::state::{Container, Halted, State};
use tlv_core::fault::{Fault, ReadError};
use tlv_core::limits::Limits;
use tlv_core::reason::Reason;
use tlv_core::source::Source;
use tlv_core::tag::Tag;

/// A reader of elements from a source that it borrows.
#[derive(Drop)]
pub struct Pull<'a, R: Source> {
    pub(crate) src: &'a mut R,
    pub(crate) state: State,
    /// No more octets are taken than the limit.
    pub ghost within: { state.taken ≤ state.limits.octets },
    /// What is inside a fault is there exactly where its reason is `Inner`.
    pub ghost inside: { TellsInside state },
    ghost live: { state.error ≡ None → R.has_failed src.now ≡ false },
}

impl<'a, R: Source> Pull<'a, R> {
    ghost use Rattle.ber_pull.specs.View.{AsksNoMemory, FailsThere, answered, standing, source, SameSource, Unmoved};
    ghost use Rattle.ber_pull.specs.View.{Repeats, Answers, Opens, Frame};
    ghost use Rattle.ber_pull.specs.Lengths.{IsWithin, form_of};

    /// A reader at place 0, with no container open.
    pub fn new(src: &'a mut R, limits: Limits) -> Pull<'a, R>
        requires { R.has_failed src.old ≡ false }
        ensures same_source { result.src.ghost_name ≡ src.entry.ghost_name }
        ensures same { source result ≡ src.old }
        ensures start { standing result ≡ started limits }
    {
        let state = State::new(limits);
        Pull { src, state }
    }

    /// The limits that it was made with.
    pub fn limits(&self) -> Limits
        ensures { result ≡ (standing self.now).limits }
    {
        self.state.limits()
    }

    /// The place of the identifier that `next_tag` gave and whose element isn't used yet, else of the next octet.
    pub fn at(&self) -> u64
        ensures value { result ≡ place (standing self.now) }
    {
        match self.state.given() {
            Some(given) => u64::from(given.at),
            None => u64::from(self.state.taken()),
        }
    }

    /// Whether `next_tag` gave an element that is primitive and isn't used yet.
    pub fn is_primitive(&self) -> bool
        ensures { result ≡ gives_primitive (standing self.now) }
    {
        match self.state.given() {
            Some(given) => !given.constructed,
            None => false,
        }
    }

    /// The tag of the next element and whether its form is constructed. `None` where the innermost open container has
    /// nothing left (of an indefinite one the end-of-contents octets are then taken), and after the outermost element.
    /// Asked again before the element is used, it answers the same and takes nothing.
    ///
    /// Faults, at the identifier: `BadEnd`, `BadTag`, `TooDeep`, and `PastEnd`, `TooLong` or `Truncated` by its octets.
    #[inline(always)]
    pub fn next_tag(&mut self) -> Result<Option<(Tag, bool)>, ReadError>
        ensures frame { Frame self.old self.new result }
        ensures repeats { Repeats self.old self.new result }
        ensures reads { (standing self.old).error ≡ None
            → Answers self.old self.new (read_next (standing self.old))
            (heard (next_at (place (standing self.old))) result) }
        ensures again { IfSome (standing self.old).given
            (λ g. IfOk result (λ next. (next ≡ Some (g.tag, g.constructed))
            × Unmoved self.old self.new)) }
        ensures given { (g : Given) → (standing self.old).error ≡ None
            → (standing self.old).given ≡ Some g
            → (result ≡ Ok (Some (g.tag, g.constructed))) × Unmoved self.old self.new }
        ensures stands { (standing self.old).given ≡ None
            → IfOk result (λ next. standing self.new
            ≡ after_next (standing self.new).taken next (standing self.old)) }
        ensures gives { IfOk result (λ next. IsSome next → IsSome (standing self.new).given) }
        ensures ended { (standing self.old).error ≡ None → IsAtEnd (standing self.old)
            → (result ≡ Ok None) × Unmoved self.old self.new }
        ensures ends { (standing self.old).given ≡ None
            → IfOk result (λ next. next ≡ None → IsAtEnd (standing self.new)) }
        ensures fits { IfOk result (λ next. IfSome next (λ t. IsGiven t.0 (standing self.new))) }
        ensures tells { IfOk result (λ next. IfSome next
            (λ t. IfSome (standing self.new).given (λ g. (g.tag ≡ t.0) × (g.constructed ≡ t.1)))) }
        ensures advances { (standing self.old).given ≡ None
            → IfOk result (λ next. IsSome next
            → (standing self.old).taken < (standing self.new).taken) }
        ensures fails { FailsThere self.old self.new result }
        ensures memory { AsksNoMemory self.old result }
    {
        if self.state.has_failed() {
            return Err(self.state.failure());
        }
        if let Some(given) = self.state.given() {
            return Ok(Some((given.tag, given.constructed)));
        }
        if self.state.is_done() {
            return Ok(None);
        }
        match self.identifier() {
            Ok(next) => Ok(next),
            Err(Halted) => Err(self.state.failure()),
        }
    }

    /// The identifier octets that stand here, or the end-of-contents octets: `None`.
    #[inline(always)]
    fn identifier(&mut self) -> Result<Option<(Tag, bool)>, Halted>
        requires live { (standing self.old).error ≡ None }
        requires unused { (standing self.old).given ≡ None }
        requires more { is_done (standing self.old) ≡ false }
        ensures frame { Frame self.old self.new (answered self.new result) }
        ensures reads { Answers self.old self.new (read_next (standing self.old))
            (heard (next_at (place (standing self.old))) (answered self.new result)) }
        ensures stands { IfOk result (λ next. standing self.new
            ≡ after_next (standing self.new).taken next (standing self.old)) }
        ensures ends { IfOk result (λ next. next ≡ None → IsAtEnd (standing self.new)) }
        ensures fits { IfOk result (λ next. IfSome next (λ t. IsGiven t.0 (standing self.new))) }
        ensures advances { IfOk result (λ next. IsSome next
            → (standing self.old).taken < (standing self.new).taken) }
        ensures fails { FailsThere self.old self.new (answered self.new result) }
        ensures memory { AsksNoMemory self.old (answered self.new result) }
    {
        let start = self.state.taken();
        let first = self.octet(start)?;
        if first == 0 {
            self.end_of_contents(start)?;
            return Ok(None);
        }
        if first == 32 {
            return Err(self.halt(start, Reason::BadTag));
        }
        let number = self.tag_number(start, first)?;
        if self.state.is_deep() {
            return Err(self.halt(start, Reason::TooDeep));
        }
        let tag = tag_of(first, number);
        let constructed = first % 64 >= 32;
        self.state.give(start, tag, constructed);
        Ok(Some((tag, constructed)))
    }

    /// Opens the constructed element that `next_tag` gave, after its length.
    ///
    /// Faults, at the identifier: `WrongForm` of a primitive element, `BadLength`, `PastEnd`, `TooLong`, `Truncated`.
    #[inline(always)]
    pub fn enter(&mut self) -> Result<(), ReadError>
        requires { (standing self.old).error ≡ None → IsSome (standing self.old).given }
        ensures frame { Frame self.old self.new result }
        ensures repeats { Repeats self.old self.new result }
        ensures reads { (g : Given) → (standing self.old).error ≡ None
            → (standing self.old).given ≡ Some g
            → Answers self.old self.new (read_entering (standing self.old) g)
            (heard (λ _. enclosing (standing self.new)) result) }
        ensures stands { OnOk result (Opens self.old self.new) }
        ensures advances { OnOk result ((standing self.old).taken < (standing self.new).taken) }
        ensures fails { FailsThere self.old self.new result }
        ensures memory { AsksNoMemory self.old result }
    {
        if self.state.has_failed() {
            return Err(self.state.failure());
        }
        let given = self.state.given().unwrap();
        if !given.constructed {
            return Err(self.stop(given.at, Reason::WrongForm));
        }
        match self.length(given.at) {
            Ok(form) => {
                self.state.use_given();
                self.open(form);
                Ok(())
            }
            Err(Halted) => Err(self.state.failure()),
        }
    }

    /// Closes the innermost container, which has nothing left.
    ///
    /// Faults, at the identifier that stands there: `Extra`, and those of `next_tag`.
    pub fn leave(&mut self) -> Result<(), ReadError>
        requires { (standing self.old).error ≡ None → (standing self.old).containers ≡ [] → ⊥ }
        ensures frame { Frame self.old self.new result }
        ensures repeats { Repeats self.old self.new result }
        ensures reads { (standing self.old).error ≡ None
            → Answers self.old self.new (read_leaving (standing self.old))
            (heard (λ u. u) result) }
        ensures stands { OnOk result (standing self.new
            ≡ closing (moved (standing self.new).taken (standing self.old))) }
        ensures ended { (standing self.old).error ≡ None → IsAtEnd (standing self.old)
            → (result ≡ Ok tt) × (source self.new ≡ source self.old)
            × (standing self.new ≡ closing (standing self.old)) }
        ensures memory { AsksNoMemory self.old result }
    {
        if self.state.has_failed() {
            return Err(self.state.failure());
        }
        if let None = self.state.given() {
            if self.state.is_done() {
                self.state.close();
                return Ok(());
            }
        }
        self.leave_by_octets()
    }

    /// The same, where an identifier is given or the octets have to tell whether something is left.
    #[inline(never)]
    fn leave_by_octets(&mut self) -> Result<(), ReadError>
        requires live { (standing self.old).error ≡ None }
        requires inside { (standing self.old).containers ≡ [] → ⊥ }
        ensures frame { Frame self.old self.new result }
        ensures reads { Answers self.old self.new (read_leaving (standing self.old))
            (heard (λ u. u) result) }
        ensures stands { OnOk result (standing self.new
            ≡ closing (moved (standing self.new).taken (standing self.old))) }
        ensures ended { IsAtEnd (standing self.old)
            → (result ≡ Ok tt) × (source self.new ≡ source self.old)
            × (standing self.new ≡ closing (standing self.old)) }
        ensures memory { AsksNoMemory self.old result }
    {
        let at = self.at();
        if let Some(_) = self.next_tag()? {
            return Err(self.refuse(at, Reason::Extra, None));
        }
        self.state.close();
        Ok(())
    }

    /// A fault that a layer above found: the reader fails with it, or answers its first error again.
    pub fn refuse(&mut self, at: u64, why: Reason, inside: Option<(u64, Reason)>) -> ReadError
        requires { IsSome inside ↔ (why ≡ Inner) }
        ensures same_source { SameSource self.old self.new }
        ensures same { source self.new ≡ source self.old }
        ensures first { (standing self.old).error ≡ None
            → (result ≡ refused (record { at = at; why = why; inside = inside }))
            × (standing self.new ≡ failed_with result (standing self.old)) }
        ensures again { (error : ReadError) → (standing self.old).error ≡ Some error
            → (result ≡ error) × (standing self.new ≡ standing self.old) }
    {
        if let Some(error) = self.state.error() {
            return error;
        }
        let error = ReadError::Fault(Fault { at, why, inside });
        self.state.fail(error);
        error
    }

    /// A growth of memory was refused in a layer above: the reader fails with it, or answers its first error again.
    pub fn no_memory(&mut self) -> ReadError
        ensures same_source { SameSource self.old self.new }
        ensures same { source self.new ≡ source self.old }
        ensures first { (standing self.old).error ≡ None
            → (result ≡ Memory) × (standing self.new ≡ failed_with Memory (standing self.old)) }
        ensures again { (error : ReadError) → (standing self.old).error ≡ Some error
            → (result ≡ error) × (standing self.new ≡ standing self.old) }
    {
        if let Some(error) = self.state.error() {
            return error;
        }
        self.state.fail(ReadError::Memory);
        ReadError::Memory
    }

    /// A fault with nothing inside.
    #[cold]
    pub(crate) fn stop(&mut self, at: u32, why: Reason) -> ReadError
        requires live { (standing self.old).error ≡ None }
        requires why { why ≡ Inner → ⊥ }
        ensures same_source { SameSource self.old self.new }
        ensures same { source self.new ≡ source self.old }
        ensures is { result ≡ refused (fault at why) }
        ensures stands { standing self.new ≡ failed_with result (standing self.old) }
    {
        let error = ReadError::Fault(Fault {
            at: u64::from(at),
            why,
            inside: None,
        });
        self.state.fail(error);
        error
    }

    /// The same, where the error stays in the state.
    #[cold]
    pub(crate) fn halt(&mut self, at: u32, why: Reason) -> Halted
        requires live { (standing self.old).error ≡ None }
        requires why { why ≡ Inner → ⊥ }
        ensures same_source { SameSource self.old self.new }
        ensures same { source self.new ≡ source self.old }
        ensures stands { standing self.new
            ≡ failed_with (refused (fault at why)) (standing self.old) }
    {
        let _kept = self.stop(at, why);
        Halted
    }

    /// A growth of memory was refused, and the error stays in the state.
    #[cold]
    pub(crate) fn halt_without_memory(&mut self) -> Halted
        requires { (standing self.old).error ≡ None }
        ensures same_source { SameSource self.old self.new }
        ensures same { source self.new ≡ source self.old }
        ensures stands { standing self.new ≡ failed_with Memory (standing self.old) }
    {
        let _kept = self.no_memory();
        Halted
    }

    /// Opens a container of this length, whose contents begin here.
    fn open(&mut self, form: LengthForm)
        requires depth { length (standing self.old).containers < (standing self.old).limits.depth }
        requires used { (standing self.old).given ≡ None }
        requires within { IsWithin (standing self.old) form }
        ensures same_source { SameSource self.old self.new }
        ensures same { source self.new ≡ source self.old }
        ensures stands { standing self.new ≡ opening (form_of form) (standing self.old) }
    {
        let container = match form {
            LengthForm::Definite(count) => Container::Definite(self.state.taken() + count),
            LengthForm::Indefinite => Container::Indefinite(self.state.nearest_end()),
        };
        self.state.open(container);
    }
}
