//! What a command is to do.
use explain::profile::Profile;
use explain::received::RequestPart;
use explain::written::Form;
use pk_documents::kind::Kind;
use tlv_core::limits::Limits;

/// What to do with the document.
#[derive(Clone, Copy, Debug, PartialEq, Eq)]
pub enum Action {
    /// Write what it is, in lines, or as JSON with all of its elements.
    Show {
        json: bool,
    },
    /// Write whether it is in DER, as a line or as JSON with up to so many places that aren't; if that is to be
    /// `quiet`, nothing of what is in DER.
    Check {
        json: bool,
        quiet: bool,
        places: u64,
    },
    /// Write the same and what other standards say to what is there, its notes.
    Note(Noting),
    /// Write a report of it, refused or not.
    Explain(Form),
    /// Write its DER text.
    Normalise,
    /// Write a part of a certification request.
    Signed(RequestPart),
}

/// How a check with notes is written, and ends.
#[derive(Clone, Copy, Debug, PartialEq, Eq)]
pub struct Noting {
    /// As JSON, with up to so many places that aren't in DER.
    pub json: bool,
    /// Without what is in DER, but for its notes.
    pub quiet: bool,
    pub places: u64,
    /// With the notes of this profile.
    pub profile: Profile,
    pub refuse: Refuse,
}

/// The notes that no document is to have.
#[derive(Clone, Copy, Debug, PartialEq, Eq)]
pub enum Refuse {
    Nothing,
    /// Those on what a standard forbids.
    Must,
}

/// What a command is to do, and with what document.
#[derive(Clone, Copy, Debug, PartialEq, Eq)]
pub struct Task {
    pub action: Action,
    /// What the document is: a request under `Signed`. Where it isn't told, the one kind is found that accepts it.
    pub kind: Option<Kind>,
    pub limits: Limits,
}

/// The same of a document of this kind.
#[derive(Clone, Copy, Debug, PartialEq, Eq)]
pub struct KindTask {
    pub action: Action,
    pub kind: Kind,
    pub limits: Limits,
}
