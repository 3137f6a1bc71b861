//! What a pull reader stands at, apart from its source.
use std::marker::Model;
use tlv_core::fault::ReadError;
use tlv_core::limits::Limits;
use tlv_core::tag::Tag;

/// An open container.
#[derive(Clone, Copy)]
pub enum Container {
    /// Its length is definite: the place after its contents.
    Definite(u32),
    /// Its length is indefinite, and its end is still to come: the end of the nearest container of definite length
    /// around it.
    Indefinite(Option<u32>),
    /// Its length is indefinite, and its end-of-contents octets are taken.
    Ended(Option<u32>),
}

/// An identifier that was given, and whose element isn't used yet.
#[derive(Clone, Copy)]
pub struct Given {
    pub at: u32,
    pub tag: Tag,
    pub constructed: bool,
}

/// The reader has failed: its state keeps the error.
#[derive(Clone, Copy)]
pub struct Halted;

/// How many containers can be open at once.
const MOST: usize = 64;

/// The octets taken, the identifier given, the open containers and the error of a pull reader.
#[derive(Drop)]
pub struct State {
    limits: Limits,
    taken: u32,
    given: Option<Given>,
    containers: [Container; MOST],
    depth: usize,
    /// The first place that no octet may be taken from: the nearest end, or the limit where it comes first.
    bound: u32,
    error: Option<ReadError>,
}

impl Model for State {
    ghost use Rattle.ber_pull.specs.Standing.{Standing, bound_of, first_of, nearest_end_in};

    ghost Value = { Standing };

    ghost use Rattle.std.specs.Prelude.{take, reverse, length, IfSome, ◌≡◌, ◌<◌, ◌≤◌, ◌^◌};
    ghost use Rattle.tlv_core.specs.Identifier.{IsTag};

    ghost view = { λ s. record {
      limits = s.limits;
      taken = s.taken;
      given = s.given;
      containers
          = reverse (take s.depth s.containers);
      error = s.error;
    } };

    ghost invariant = { λ s. (s.depth ≤ s.limits.depth) × (s.limits.depth ≤ 64)
        × (s.taken ≤ s.limits.octets) × (s.limits.octets ≤ 2147483647)
        × IfSome s.given (λ g. (s.depth < s.limits.depth) × IsTag g.tag)
        × (length s.containers ≡ 64)
        × (s.bound
        ≡ bound_of s.limits.octets (nearest_end_in (first_of (reverse (take s.depth s.containers)))))
        × IfSome (nearest_end_in (first_of (reverse (take s.depth s.containers)))) (λ end. end < 2 ^ 32) };
}

ghost use Rattle.std.specs.Prelude.{◌≡◌, ◌<◌, ◌≤◌, ◌^◌, ◌+◌, IfSome, None, Some, false, is_some, length, nat_lt, not};
ghost use Rattle.std.specs.Prelude.{reverse, true};
ghost use Rattle.tlv_core.specs.declared.fault.ReadError.TheVariants.{Read};
ghost use Rattle.ber_pull.specs.Standing.{started, failed_with, failure, moved, used, giving, enclosing, first_of};
ghost use Rattle.ber_pull.specs.Standing.{has_room, nearest_end_in, bound_of, is_done, ending, closing};
ghost use Rattle.ber_pull.specs.Standing.{with_container};
ghost use Rattle.tlv_core.specs.Identifier.{IsTag};
ghost use Rattle.x690.specs.Points.{ends_with_zeros, past_end};

impl State {
    pub fn new(limits: Limits) -> State
        ensures { result ≡ started limits }
    {
        let _depth = limits.depth();
        State {
            limits,
            taken: 0,
            given: None,
            containers: [Container::Definite(0); MOST],
            depth: 0,
            bound: limits.octets(),
            error: None,
        }
    }

    pub fn limits(&self) -> Limits
        ensures { result ≡ self.now.limits }
    {
        self.limits
    }

    pub fn error(&self) -> Option<ReadError>
        ensures { result ≡ self.now.error }
    {
        self.error
    }

    /// How many octets are taken.
    pub fn taken(&self) -> u32
        ensures value { result ≡ self.now.taken }
        ensures within { result ≤ self.now.limits.octets }
        ensures bound { self.now.limits.octets ≤ 2147483647 }
    {
        self.taken
    }

    /// So many octets more stay within the nearest container of definite length and the limit.
    pub fn has_room(&self, count: u64) -> bool
        requires { count < 2 ^ 40 }
        ensures value { result ≡ has_room self.now count }
        ensures within { result ≡ true → self.now.taken + count ≤ self.now.limits.octets }
        ensures small { IfSome (enclosing self.now).nearest_end (λ end. end < 2 ^ 32) }
        ensures bound { self.now.limits.octets ≤ 2147483647 }
    {
        u64::from(self.taken) + count <= u64::from(self.bound)
    }

    /// So many octets more are taken.
    pub fn take(&mut self, count: u32)
        requires { self.old.taken + count ≤ self.old.limits.octets }
        ensures { self.new ≡ moved (self.old.taken + count) self.old }
    {
        self.taken += count;
    }

    pub fn fail(&mut self, error: ReadError)
        ensures { self.new ≡ failed_with error self.old }
    {
        self.error = Some(error);
    }

    /// A read failed at the next octet.
    #[cold]
    pub fn fail_reading(&mut self) -> Halted
        ensures { self.new ≡ failed_with (Read self.old.taken) self.old }
    {
        self.error = Some(ReadError::Read {
            at: u64::from(self.taken),
        });
        Halted
    }

    pub fn has_failed(&self) -> bool
        ensures value { result ≡ is_some self.now.error }
        ensures failed { result ≡ true → self.now.error ≡ Some (failure self.now) }
        ensures fine { result ≡ false → self.now.error ≡ None }
    {
        self.error.is_some()
    }

    /// The error that it has failed with.
    #[cold]
    pub fn failure(&self) -> ReadError
        ensures { result ≡ failure self.now }
    {
        match self.error {
            Some(error) => error,
            None => ReadError::Memory,
        }
    }

    /// The identifier that is given and not used yet.
    pub fn given(&self) -> Option<Given>
        ensures value { result ≡ self.now.given }
        ensures depth { IfSome result (λ _. length self.now.containers < self.now.limits.depth) }
        ensures tag { IfSome result (λ g. IsTag g.tag) }
        ensures bound { self.now.limits.octets ≤ 2147483647 }
    {
        self.given
    }

    /// An identifier is given.
    pub fn give(&mut self, at: u32, tag: Tag, constructed: bool)
        requires depth { length self.old.containers < self.old.limits.depth }
        requires tag { IsTag tag }
        ensures { self.new ≡ giving at tag constructed self.old }
    {
        self.given = Some(Given {
            at,
            tag,
            constructed,
        });
    }

    /// The element that was given is read.
    pub fn use_given(&mut self)
        ensures { self.new ≡ used self.old.taken self.old }
    {
        self.given = None;
    }

    /// How many containers are open.
    pub fn depth(&self) -> usize
        ensures value { result ≡ length self.now.containers }
        ensures within { result ≤ self.now.limits.depth }
    {
        self.depth
    }

    /// The innermost open container.
    fn innermost(&self) -> Option<Container>
        ensures { result ≡ first_of self.now.containers }
    {
        innermost(&self.containers[..self.depth])
    }

    /// The end of the nearest container of definite length.
    pub fn nearest_end(&self) -> Option<u32>
        ensures value { result ≡ (enclosing self.now).nearest_end }
        ensures bound { IfSome result (λ end. end < 2 ^ 32) }
    {
        nearest_end(self.innermost())
    }

    /// A place is after the end of the nearest container of definite length.
    pub fn is_past_nearest_end(&self, place: u64) -> bool
        ensures value { result ≡ past_end (enclosing self.now).nearest_end place }
        ensures small { IfSome (enclosing self.now).nearest_end (λ end. end < 2 ^ 32) }
    {
        match self.nearest_end() {
            None => false,
            Some(end) => u64::from(end) < place,
        }
    }

    /// The innermost container ends with end-of-contents octets.
    pub fn is_indefinite(&self) -> bool
        ensures { result ≡ ends_with_zeros (enclosing self.now).innermost }
    {
        match self.innermost() {
            None => false,
            Some(Container::Definite(_)) => false,
            Some(_) => true,
        }
    }

    /// No element and no end can stand here: the container's end is taken, or the outermost element is complete.
    pub fn is_done(&self) -> bool
        ensures { result ≡ is_done self.now }
    {
        match self.innermost() {
            None => self.taken > 0,
            Some(Container::Definite(end)) => end == self.taken,
            Some(Container::Indefinite(_)) => false,
            Some(Container::Ended(_)) => true,
        }
    }

    /// No further container may be open.
    pub fn is_deep(&self) -> bool
        ensures { result ≡ not (nat_lt (length self.now.containers) self.now.limits.depth) }
    {
        self.depth() >= usize::from(self.limits.depth())
    }

    /// A container is open.
    pub fn open(&mut self, container: Container)
        requires depth { length self.old.containers < self.old.limits.depth }
        requires used { self.old.given ≡ None }
        ensures { self.new ≡ with_container container self.old }
    {
        self.bound = bound(self.limits, nearest_end(Some(container)));
        self.containers[self.depth] = container;
        self.depth += 1;
    }

    /// The innermost container is no longer open.
    pub fn close(&mut self)
        ensures { self.new ≡ closing self.old }
    {
        if self.depth > 0 {
            self.depth -= 1;
            let around = innermost(&self.containers[..self.depth]);
            self.bound = bound(self.limits, nearest_end(around));
        }
    }

    /// The end of the innermost container is met.
    pub fn end(&mut self)
        ensures { self.new ≡ ending self.old }
    {
        if let Some(Container::Indefinite(around)) = self.innermost() {
            self.containers[self.depth - 1] = Container::Ended(around);
        }
    }
}

/// The innermost of these open containers, which is the last of them.
fn innermost(containers: &[Container]) -> Option<Container>
    ensures { result ≡ first_of (reverse containers.now) }
{
    if containers.is_empty() {
        return None;
    }
    Some(containers[containers.len() - 1])
}

/// The end of the nearest container of definite length.
fn nearest_end(innermost: Option<Container>) -> Option<u32>
    ensures value { result ≡ nearest_end_in innermost }
    ensures bound { IfSome result (λ end. end < 2 ^ 32) }
{
    match innermost {
        None => None,
        Some(Container::Definite(end)) => Some(end),
        Some(Container::Indefinite(around)) => around,
        Some(Container::Ended(around)) => around,
    }
}

/// The first place that no octet may be taken from.
fn bound(limits: Limits, nearest_end: Option<u32>) -> u32
    ensures { result ≡ bound_of limits.octets nearest_end }
{
    match nearest_end {
        None => limits.octets(),
        Some(end) => end.min(limits.octets()),
    }
}
