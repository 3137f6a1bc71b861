//! The line of words.
use crate::answer::Answer;
use std::str::SplitWhitespace;
use tlv_core::limits::Limits;

/// How often a task is done.
#[derive(Clone, Copy)]
pub enum Way {
    /// In every way that shows something.
    Checked,
    /// Once.
    Once,
    /// Once, and a reader that wanted memory is asked further.
    Again,
}

/// What a line asks for.
#[derive(Clone, Copy)]
pub struct Words<'a> {
    pub way: Way,
    pub task: &'a str,
    pub name: &'a str,
    pub limits: Limits,
    pub room: usize,
    pub piece: usize,
}

impl Words<'_> {
    /// Whether the task is done in every way that shows something.
    pub fn is_checked(&self) -> bool {
        match self.way {
            Way::Checked => true,
            _ => false,
        }
    }
}

/// The numbers of a line, or those of one without.
#[derive(Clone, Copy)]
pub struct Numbers {
    pub depth: u8,
    pub limit: u32,
    pub room: usize,
    pub piece: usize,
    pub needs: usize,
}

impl Numbers {
    /// Whether the word names a number, which is the next one then; nothing where that is no number.
    pub fn is_named(&mut self, word: &str, words: &mut SplitWhitespace<'_>) -> Option<bool> {
        match word {
            "depth" => self.depth = words.next()?.parse().ok()?,
            "limit" => self.limit = words.next()?.parse().ok()?,
            "room" => self.room = words.next()?.parse().ok()?,
            "piece" => self.piece = words.next()?.parse().ok()?,
            "needs" => self.needs = words.next()?.parse().ok()?,
            _ => return Some(false),
        }
        Some(true)
    }
}

/// What the line asks for, if it is of the form.
pub fn words_of(line: &str) -> Option<Words<'_>> {
    let mut words = line.split_whitespace();
    let first = words.next()?;
    let (way, task) = match first {
        "once" => (Way::Once, words.next()?),
        "again" => (Way::Again, words.next()?),
        _ => (Way::Checked, first),
    };
    let name = words.next()?;
    let numbers = numbers_of(&mut words)?;
    Some(Words {
        way,
        task,
        name,
        limits: Limits::new(numbers.depth, numbers.limit)?,
        room: numbers.room,
        piece: numbers.piece,
    })
}

/// The numbers that are named, each after its name.
fn numbers_of(words: &mut SplitWhitespace<'_>) -> Option<Numbers> {
    let mut numbers = Numbers {
        depth: 32,
        limit: 1_048_576,
        room: 0,
        piece: 1,
        needs: 0,
    };
    for _ in 0..4 {
        let Some(name) = words.next() else {
            break;
        };
        if !numbers.is_named(name, words)? {
            return None;
        }
    }
    if words.next().is_some() {
        return None;
    }
    Some(numbers)
}

/// The next word, which has to be a number.
pub fn number(words: &mut SplitWhitespace<'_>) -> Result<usize, Answer> {
    let Some(word) = words.next() else {
        return Err(Answer::Unknown);
    };
    match word.parse() {
        Ok(number) => Ok(number),
        Err(_) => Err(Answer::Unknown),
    }
}
