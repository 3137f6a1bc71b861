//! Lines whose memory is there before what they say is known.
ghost use Rattle.std.specs.Prelude.{◌≡◌, ◌+◌, ◌≤◌, ◌++◌, IfOk, length, string_bytes, string_capacity, string_len};
ghost use Rattle.commands.specs.Files.{line_after};
ghost use Rattle.commands.specs.Names.{shown_name};

use crate::name::shown_name;
use arrayvec::ArrayString;
use std::alloc::{AllocError, Global};

/// The words of a line, which ask for no memory.
pub type LineWords = ArrayString<192>;

/// As much room is kept after a name.
const ROOM: usize = 224;

/// A name as it is shown, and the memory for a line that begins with it.
#[derive(Drop)]
pub struct NamedLine {
    text: String,
    ghost room: { string_len text + 224 ≤ string_capacity text },
}

impl NamedLine {
    ghost use Rattle.commands.specs.Lines.{name_of_line};

    /// Takes the memory for a line that begins with this name.
    pub fn new(alloc: Global, name: &[u8]) -> Result<NamedLine, AllocError>
        ensures { IfOk result (λ named. name_of_line named ≡ shown_name name.now) }
    {
        let mut text = shown_name(alloc, name)?;
        text.reserve(ROOM)?;
        Ok(NamedLine { text })
    }

    /// The line of these words, if there are any. No memory is asked for.
    pub fn line(self, words: &str) -> String
        requires { length words.now ≤ 192 }
        ensures { string_bytes result ≡ line_after (name_of_line self) words.now }
    {
        let mut text = self.text;
        if words.is_empty() {
            text.clear();
            return text;
        }
        push_within(&mut text, ": ");
        push_within(&mut text, words);
        push_within(&mut text, "\n");
        text
    }
}

/// Appends what there is room for.
fn push_within(text: &mut String, piece: &str)
    requires { string_len text.old + length piece.now ≤ string_capacity text.old }
    ensures bytes { string_bytes text.new ≡ string_bytes text.old ++ piece.now }
    ensures len { string_len text.new ≡ string_len text.old + length piece.now }
    ensures capacity { string_capacity text.old ≤ string_capacity text.new }
{
    match text.push_str(piece) {
        Ok(()) => {}
        Err(_) => unreachable!(),
    }
}
