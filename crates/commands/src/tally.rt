//! What documents count as, and how many do.
ghost use Rattle.std.specs.Prelude.{◌≡◌, ◌++◌, ◌∷◌, ◌+◌, ◌<◌, ℕ, List, [], get_or, length};
ghost use Rattle.commands.specs.Tallies.{counted, kind_number, kind_row, raised, reason_number, reason_row};
ghost use Rattle.commands.specs.Tallies.{status_of_verdict, tally_of, verdict_of, verdict_row};
ghost use Rattle.commands.specs.declared.tally.Verdict.{Verdict};

use crate::outcome::Outcome;
use pk_documents::kind::Kind;
use tlv_core::reason::Reason;

/// What a document counts as, with its kind where that is known.
#[derive(Clone, Copy, Debug, PartialEq, Eq)]
pub enum Verdict {
    /// It is in DER, or shown.
    Sound(Option<Kind>),
    NotDer(Option<Kind>),
    /// It has a note that it is not to have.
    Noted(Option<Kind>),
    /// It is refused for this reason, where no kind accepts it as one of the likely kind, if there is one.
    Refused(Option<Reason>),
    Unread,
}

/// How many documents count as what, each number as far as 64 bits count, and their largest status.
#[derive(Clone, Copy, Debug, PartialEq, Eq)]
pub struct Tally {
    pub status: u8,
    pub files: u64,
    /// By the row of the verdict.
    pub verdicts: [u64; 5],
    /// By the row of the verdict and its kind.
    pub kinds: [u64; 21],
    /// By the number of the reason, and at 0 those of no kind.
    pub reasons: [u64; 28],
}

impl Tally {
    /// Of no document.
    pub fn new() -> Tally
        ensures { result ≡ tally_of [] }
    {
        Tally {
            status: 0,
            files: 0,
            verdicts: [0; 5],
            kinds: [0; 21],
            reasons: [0; 28],
        }
    }

    /// Of one document.
    pub fn of_one(verdict: Verdict) -> Tally
        ensures { result ≡ tally_of (verdict ∷ []) }
    {
        Tally::new().with(verdict)
    }

    /// With one more document.
    pub fn with(self, verdict: Verdict) -> Tally
        ensures { (all : List Verdict) → self ≡ tally_of all → result ≡ tally_of (all ++ verdict ∷ []) }
    {
        let mut tally = self;
        tally.status = tally.status.max(status_of_verdict(verdict));
        tally.files = tally.files.saturating_add(1);
        raise(&mut tally.verdicts, verdict_row(verdict));
        raise(&mut tally.kinds, kind_row(verdict));
        raise(&mut tally.reasons, reason_row(verdict));
        tally
    }

    /// With the documents of another one.
    pub fn with_all(self, other: &Tally) -> Tally
        ensures { (all : List Verdict) (others : List Verdict) → self ≡ tally_of all → other.now ≡ tally_of others
            → result ≡ tally_of (all ++ others) }
    {
        let mut tally = self;
        tally.status = tally.status.max(other.status);
        tally.files = tally.files.saturating_add(other.files);
        raise_all(&mut tally.verdicts, &other.verdicts);
        raise_all(&mut tally.kinds, &other.kinds);
        raise_all(&mut tally.reasons, &other.reasons);
        tally
    }
}

/// Counts one more in a row, if there is that row.
fn raise(counts: &mut [u64], row: usize)
    ensures { counts.new ≡ raised counts.old row }
{
    if row < counts.len() {
        counts[row] = counts[row].saturating_add(1);
    }
}

/// Counts as many more in each row as others have there.
fn raise_all(counts: &mut [u64], others: &[u64])
    requires { length others.now ≡ length counts.old }
    ensures len { length counts.new ≡ length counts.old }
    ensures sums { (row : ℕ) → row < length counts.old
        → get_or counts.new row 0 ≡ counted (get_or counts.old row 0 + get_or others.now row 0) }
{
    for row in 0..counts.len() {
        counts[row] = counts[row].saturating_add(others[row]);
    }
}

/// What a document counts as whose run ended so, with its kind where that is known.
pub fn verdict_of(outcome: &Outcome, kind: Option<Kind>) -> Verdict
    ensures { result ≡ verdict_of outcome.now kind }
{
    match outcome {
        Outcome::Done => Verdict::Sound(kind),
        Outcome::NotDer(_) => Verdict::NotDer(kind),
        Outcome::Noted => Verdict::Noted(kind),
        Outcome::Fault(fault) | Outcome::Explained(fault) => Verdict::Refused(Some(fault.why)),
        Outcome::NoKind(Some((_, fault))) => Verdict::Refused(Some(fault.why)),
        Outcome::NoKind(None) => Verdict::Refused(None),
        Outcome::ReadFailed(_) | Outcome::WriteFailed(_) | Outcome::Memory => Verdict::Unread,
    }
}

/// The exit status of a document.
fn status_of_verdict(verdict: Verdict) -> u8
    ensures { result ≡ status_of_verdict verdict }
{
    match verdict {
        Verdict::Sound(_) => 0,
        Verdict::NotDer(_) => 1,
        Verdict::Refused(_) => 2,
        Verdict::Unread => 3,
        Verdict::Noted(_) => 5,
    }
}

fn verdict_row(verdict: Verdict) -> usize
    ensures { result ≡ verdict_row verdict }
{
    match verdict {
        Verdict::Sound(_) => 0,
        Verdict::NotDer(_) => 1,
        Verdict::Noted(_) => 2,
        Verdict::Refused(_) => 3,
        Verdict::Unread => 4,
    }
}

fn kind_row(verdict: Verdict) -> usize
    ensures { result ≡ kind_row verdict }
{
    match verdict {
        Verdict::Sound(kind) => kind_number(kind),
        Verdict::NotDer(kind) => 7 + kind_number(kind),
        Verdict::Noted(kind) => 14 + kind_number(kind),
        Verdict::Refused(_) | Verdict::Unread => 21,
    }
}

pub(crate) fn kind_number(kind: Option<Kind>) -> usize
    ensures number { result ≡ kind_number kind }
    ensures small { result < 7 }
{
    match kind {
        Some(kind) => kind.row().number as usize,
        None => 0,
    }
}

fn reason_row(verdict: Verdict) -> usize
    ensures { result ≡ reason_row verdict }
{
    match verdict {
        Verdict::Refused(why) => reason_number(why),
        _ => 28,
    }
}

pub(crate) fn reason_number(why: Option<Reason>) -> usize
    ensures number { result ≡ reason_number why }
    ensures small { result < 28 }
{
    match why {
        Some(why) => why.number() as usize,
        None => 0,
    }
}
