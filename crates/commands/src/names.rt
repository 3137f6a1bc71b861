//! Lists of names.
ghost use Rattle.std.specs.Prelude.{◌≡◌, ℕ, IfErr, IfOk, List, Option, map};
ghost use Rattle.std.specs.Option.{option_map};
ghost use Rattle.commands.specs.NameLists.{TakesNext, fault_of};

use std::alloc::Global;

/// A list of names, which come one after another.
pub trait Names {
    ghost use Rattle.commands.specs.declared.names.NamesFault.{NamesFault};

    /// The names that are left, where that is known.
    ghost left: { Self → Option (List (List ℕ)) };

    /// Why the next one doesn't come, before the call that says so and after it.
    ghost stops: { Self → Self → NamesFault → Type 0 };

    /// The next name, or `None` after the last one.
    fn next_name(&mut self, alloc: Global) -> Result<Option<Vec<u8>>, NamesFault>
        ensures next { IfOk result (λ next. TakesNext (left self.old) (left self.new)
            (option_map (λ name. name.items) next)) }
        ensures stopped { IfErr result (stops self.old self.new) };
}

/// Why no more names come.
#[derive(Clone, Copy, Debug, PartialEq, Eq)]
pub enum NamesFault {
    /// Reading the list failed.
    Read,
    /// A name is longer than it may be.
    TooLong,
    /// There are more names, or octets to write of their documents, than can be counted.
    TooMany,
    /// A growth of memory was refused.
    Memory,
}

impl NamesFault {
    /// Why, in words.
    pub fn why(self) -> &'static str
        ensures { result.now ≡ fault_of self }
    {
        match self {
            NamesFault::Read => "read failed",
            NamesFault::TooLong => "a name is longer than 65536 octets",
            NamesFault::TooMany => "more names than can be counted",
            NamesFault::Memory => "out of memory",
        }
    }
}

/// The names that words are.
#[derive(Drop)]
pub struct Words<'a> {
    words: &'a [&'a str],
}

impl<'a> Words<'a> {
    ghost use Rattle.commands.specs.NameLists.{words_of};

    pub fn new(words: &'a [&'a str]) -> Words<'a>
        ensures { words_of result ≡ map (λ r. r.now) words.now }
    {
        Words { words }
    }
}

impl Names for Words<'_> {
    ghost use Rattle.std.specs.Prelude.{Some};
    ghost use Rattle.commands.specs.NameLists.{words_of};
    ghost use Rattle.commands.specs.declared.names.NamesFault.TheVariants.{Memory};

    ghost left = { λ list. Some (words_of list) };

    ghost stops = { λ _ _ fault. fault ≡ Memory };

    fn next_name(&mut self, alloc: Global) -> Result<Option<Vec<u8>>, NamesFault> {
        let [word, rest @ ..] = self.words else {
            return Ok(None);
        };
        let mut name = Vec::new(alloc);
        if name.extend_from_slice(word.as_bytes()).is_err() {
            return Err(NamesFault::Memory);
        }
        self.words = rest;
        Ok(Some(name))
    }
}
