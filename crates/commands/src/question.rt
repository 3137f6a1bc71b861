//! What is asked of two documents, and how comparing them ends.
ghost use Rattle.std.specs.Prelude.{◌≡◌};
ghost use Rattle.commands.specs.Comparisons.{compared_status};

use comparison::same::Style;
use pk_documents::kind::Kind;
use tlv_core::limits::Limits;

/// What is asked of two documents.
#[derive(Clone, Copy, Debug, PartialEq, Eq)]
pub enum Question {
    /// Whether they are the same document, and what differs.
    Document(Style),
    /// Whether they hold the same private key.
    Key,
}

/// What is asked of two documents, and what they are.
#[derive(Clone, Copy, Debug, PartialEq, Eq)]
pub struct Comparison {
    pub question: Question,
    /// What the first one is, and the second one where the question is of documents.
    pub kind: Kind,
    /// What the second one is where the question is of keys.
    pub other_kind: Kind,
    pub limits: Limits,
}

/// What two documents are called.
#[derive(Clone, Copy)]
pub struct PairNames<'a> {
    pub first: &'a str,
    pub second: &'a str,
}

/// How comparing ends.
#[derive(Clone, Copy, Debug, PartialEq, Eq)]
pub enum Compared {
    /// What they are to each other is written, and this is the status that says it.
    Answered(u8),
    /// The reader of the first document failed after so many octets, and nothing is written.
    FirstFailed(u64),
    /// The same of the second document.
    SecondFailed(u64),
    /// The writer failed after so many octets.
    WriteFailed(u64),
    /// A growth of memory was refused, and nothing is written.
    Memory,
}

/// The exit status.
pub fn compared_status(compared: &Compared) -> u8
    ensures { result ≡ compared_status compared.now }
{
    match compared {
        Compared::Answered(status) => *status,
        Compared::FirstFailed(_)
        | Compared::SecondFailed(_)
        | Compared::WriteFailed(_)
        | Compared::Memory => 3,
    }
}
