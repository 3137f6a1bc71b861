//! What opens documents by their names.
ghost use Rattle.std.specs.Prelude.{◌≡◌, ℕ, IfErr, IfOk, List, Option, false};
ghost use Rattle.commands.specs.Openings.{why_of};

use std::alloc::Global;
use tlv_core::source::Source;

/// Opens documents by their names.
pub trait Opener {
    ghost use Rattle.commands.specs.declared.opener.Unopened.{Unopened};

    type Document: Source + Drop;

    /// The octets of the document of a name, where they are known.
    ghost known: { Self → List ℕ → Option (List ℕ) };

    /// Why the document of a name isn't opened.
    ghost refuses: { Self → List ℕ → Unopened → Type 0 };

    /// Opens the document of this name.
    fn open(&self, alloc: Global, name: &[u8]) -> Result<Self::Document, Unopened>
        ensures opened { IfOk result (λ source. Self.Document.remaining source
            ≡ known self.now name.now) }
        ensures readable { IfOk result (λ source. Self.Document.has_failed source ≡ false) }
        ensures refused { IfErr result (refuses self.now name.now) };

    /// The same, but what is known to be no regular file isn't opened: reading a FIFO waits for whoever writes it.
    fn open_regular(&self, alloc: Global, name: &[u8]) -> Result<Self::Document, Unopened>
        ensures opened { IfOk result (λ source. Self.Document.remaining source
            ≡ known self.now name.now) }
        ensures readable { IfOk result (λ source. Self.Document.has_failed source ≡ false) }
        ensures refused { IfErr result (refuses self.now name.now) };
}

/// Opens regular files alone, as the names of a list are to be: nobody may have looked at what they are of.
#[derive(Drop)]
pub struct RegularFiles<'a, O: Opener> {
    pub opener: &'a O,
}

impl<O: Opener> Opener for RegularFiles<'_, O> {
    type Document = O::Document;

    ghost known = { λ it. O.known it.opener.now };

    ghost refuses = { λ it. O.refuses it.opener.now };

    fn open(&self, alloc: Global, name: &[u8]) -> Result<O::Document, Unopened> {
        self.opener.open_regular(alloc, name)
    }

    fn open_regular(&self, alloc: Global, name: &[u8]) -> Result<O::Document, Unopened> {
        self.opener.open_regular(alloc, name)
    }
}

/// Why a document isn't opened.
#[derive(Clone, Copy, Debug, PartialEq, Eq)]
pub enum Unopened {
    NotFound,
    Directory,
    NotDirectory,
    Denied,
    NotUtf8,
    TooLong,
    /// A FIFO, a socket or a device, where a regular file is due.
    Irregular,
    Memory,
    Other,
}

impl Unopened {
    /// Why, in words.
    pub fn why(self) -> &'static str
        ensures { result.now ≡ why_of self }
    {
        match self {
            Unopened::NotFound => "no such file",
            Unopened::Directory => "is a directory",
            Unopened::NotDirectory => "not in a directory",
            Unopened::Denied => "permission denied",
            Unopened::NotUtf8 => "the name is not UTF-8",
            Unopened::TooLong => "the name is too long",
            Unopened::Irregular => "not a regular file",
            Unopened::Memory => "out of memory",
            Unopened::Other => "can't be opened",
        }
    }
}
