//! The commands of the program, over any streams: documents are read, and what the command says is written.
//!
//! `run` does a task over a source and a target: `reply` reads, and has the text that is then written. `streams` does
//! it and flushes the target (`flush`), `outcome` has the status and the line of how it ended, and `closing` writes
//! that line. `files` does it over the documents of a list of names: `names` and `ended_names` are such lists, `opener`
//! opens the document of a name, `file_system` in files, which are read a block ahead (`from_buffer`), `name` is how a
//! name is shown, and `lines` has the memory for a line; `tally` has how many documents count as what, and `sums` the
//! line that says it. `compare` says of two documents what they are to each other, `question` has what is asked.
//! `new_file` writes what a task makes into a file that then takes its place.
//!
//! Over the streams of a program (`standard`) `judge` says what a task has to say of documents by their names,
//! `convert` writes what it makes of one, and `pair` compares two. `each` goes through documents that stand one behind
//! another in a source, and `judge_streams` does so with files.
#![tactic(auto)]

mod any;
mod block_target;
pub mod closing;
pub mod compare;
pub mod convert;
mod each;
mod element_end;
pub mod ended_names;
pub mod file_system;
pub mod files;
pub mod flush;
pub mod from_buffer;
mod fronted;
mod input;
pub mod judge;
mod judge_streams;
pub mod laws;
pub mod lines;
pub mod name;
pub mod names;
pub mod new_file;
pub mod opener;
pub mod outcome;
pub mod pair;
pub mod question;
mod reply;
pub mod reported;
mod run;
pub mod standard;
pub mod streams;
pub mod sums;
pub mod tally;
pub mod task;
