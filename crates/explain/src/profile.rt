//! The notes of a document under a profile.
ghost use Rattle.std.specs.Prelude.{◌≡◌, ◌≤◌, IfOk, length};
ghost use Rattle.explain.specs.Notes.{most_notes};
ghost use Rattle.explain.specs.ProfileNotes.{notes_in};

use crate::notes::notes_of;
use crate::notes::tls::push_tls_notes;
use reports::report::{Line, Note};
use std::alloc::{AllocError, Global};

/// What a document is for, which says what is noted of it.
#[derive(Clone, Copy, Debug, PartialEq, Eq)]
pub enum Profile {
    /// Anything.
    General,
    /// A certificate of a TLS server, which the Baseline Requirements of the CA/Browser Forum are for.
    Tls,
}

/// The notes on the lines of an accepted document: the first ones, where there are many.
pub(crate) fn notes_in(
    alloc: Global,
    profile: Profile,
    lines: &[Line],
) -> Result<Vec<Note>, AllocError>
    ensures are { IfOk result (λ notes. notes.items ≡ notes_in profile lines.now) }
    ensures few { IfOk result (λ notes. length notes.items ≤ most_notes) }
{
    let mut notes = notes_of(alloc, lines)?;
    match profile {
        Profile::General => {}
        Profile::Tls => push_tls_notes(&mut notes, lines)?,
    }
    Ok(notes)
}
