//! Files that take their place once they are whole.
ghost use Rattle.std.specs.Prelude.{◌≡◌, IfErr, IfOk, List, MatchResult, OnOk, false, true, ℕ};
ghost use Rattle.commands.specs.Endings.{Served};
ghost use Rattle.commands.specs.MadeFiles.{IsEmpty, IsMade, IsNew, Made, Unmakes, WroteMade, placed_with, removed};
ghost use Rattle.commands.specs.MadeFiles.{may_hold_keys, why_unmade};

use crate::flush::Flush;
use crate::outcome::Outcome;
use crate::streams::answer;
use crate::task::Task;
use pk_documents::document::{Document, Valued};
use pk_documents::kind::Kind;
use std::alloc::{AllocError, Global};
use std::io::{self, ErrorKind};
use tlv_core::source::Source;

/// Why a file isn't made.
#[derive(Clone, Copy, Debug, PartialEq, Eq)]
pub enum Unmade {
    /// What has its name is no regular file.
    Irregular,
    NoFolder,
    NotFolder,
    Denied,
    ReadOnly,
    Full,
    TooLong,
    Memory,
    Other,
}

impl Unmade {
    /// Why, in words.
    pub fn why(self) -> &'static str
        ensures { result.now ≡ why_unmade self }
    {
        match self {
            Unmade::Irregular => "not a regular file",
            Unmade::NoFolder => "no such folder",
            Unmade::NotFolder => "not in a folder",
            Unmade::Denied => "permission denied",
            Unmade::ReadOnly => "on a file system that is only read",
            Unmade::Full => "no space left",
            Unmade::TooLong => "the name is too long",
            Unmade::Memory => "out of memory",
            Unmade::Other => "can't be made",
        }
    }
}

impl From<io::Error> for Unmade {
    fn from(error: io::Error) -> Unmade {
        match error.kind() {
            ErrorKind::NotFound => Unmade::NoFolder,
            ErrorKind::NotADirectory => Unmade::NotFolder,
            ErrorKind::PermissionDenied => Unmade::Denied,
            ErrorKind::ReadOnlyFilesystem => Unmade::ReadOnly,
            ErrorKind::StorageFull => Unmade::Full,
            ErrorKind::InvalidFilename => Unmade::TooLong,
            ErrorKind::OutOfMemory => Unmade::Memory,
            _ => Unmade::Other,
        }
    }
}

impl From<AllocError> for Unmade {
    fn from(_error: AllocError) -> Unmade {
        Unmade::Memory
    }
}

/// Where a new file is.
#[derive(Clone, Copy, Debug, PartialEq, Eq)]
pub enum Stage {
    /// Beside the place that it is to have.
    Beside,
    InPlace,
    /// It is removed.
    Gone,
}

/// A file beside the place that it is to have.
pub trait NewFile {
    type Writer: Flush + Drop;

    /// Whose place it is to have, who may read it until then, where it is, and what is in it.
    ghost made: { Self → Made };

    /// What writes into it.
    fn writer(&self) -> Result<Self::Writer, Unmade>
        ensures empty { IfOk result (λ writer. IsEmpty (Self.Writer.contents writer)) }
        ensures writable { IfOk result (λ writer. Self.Writer.has_failed writer ≡ false) };

    /// Moves it, with all that was written, to its place; or removes it, where that fails.
    fn place(&mut self, written: Self::Writer) -> Result<(), Unmade>
        requires { Self.Writer.is_flushed written ≡ true }
        ensures placed { OnOk result
            (made self.new ≡ placed_with (made self.old) (Self.Writer.contents written)) }
        ensures removed { IfErr result (λ _. made self.new ≡ removed (made self.old)) };

    /// Removes it.
    fn remove(&mut self)
        ensures { made self.new ≡ removed (made self.old) };
}

/// Makes files beside the places that names lead to.
pub trait NewFiles {
    ghost use Rattle.commands.specs.declared.new_file.Unmade.{Unmade};

    type File: NewFile + Drop;

    /// Why no file is made that is to have the place of a name.
    ghost refuses: { Self → List ℕ → Unmade → Type 0 };

    /// Makes an empty file that is to have the place of a name; one that is private may be read by its owner alone.
    fn make(&self, name: &str, is_private: bool) -> Result<Self::File, Unmade>
        ensures new { IfOk result (λ file. IsNew name.now is_private (Self.File.made file)) }
        ensures refused { IfErr result (refuses self.now name.now) };
}

/// Writes what the task makes of a source into a new file, which takes the place of a name once it is whole.
pub fn make_file<R: Source, M: NewFiles>(
    alloc: Global,
    src: &mut R,
    files: &M,
    name: &str,
    task: &Task,
) -> Result<(Outcome, M::File), Unmade>
    requires readable { R.has_failed src.old ≡ false }
    // It has its place where all that was due is in it; otherwise it is gone. Of a kind with private keys its owner
    // alone may read it.
    ensures made { MatchResult result (λ it. IsMade name.now task.now it.0 (M.File.made it.1))
        (Unmakes M.File.made (M.refuses files.now name.now) name.now) }
    ensures answered { IfOk result (λ it. WroteMade (Served ⟦<Document as Valued>⟧.value task.now
        (R.remaining src.old) (R.remaining src.new) (R.has_failed src.new) it.0) it.0
        (M.File.made it.1)) }
{
    let mut file = files.make(name, may_hold_keys(task.kind))?;
    let mut dst = match file.writer() {
        Ok(dst) => dst,
        Err(why) => {
            file.remove();
            return Err(why);
        }
    };
    let outcome = answer(alloc, src, &mut dst, task);
    match outcome {
        Outcome::Done => file.place(dst)?,
        _ => file.remove(),
    }
    Ok((outcome, file))
}

/// Whether private keys may stand in the document as they are: where its kind isn't told, too.
fn may_hold_keys(kind: Option<Kind>) -> bool
    ensures { result ≡ may_hold_keys kind }
{
    match kind {
        Some(kind) => kind.has_plain_keys(),
        None => true,
    }
}
