//! Whether standard output is a terminal.

use std::fs;
use std::os::unix::fs::{FileTypeExt, MetadataExt};

/// Whether standard output is known to be a terminal.
pub fn is_terminal(rt: &HostRuntime) -> bool {
    match fs::metadata(rt, "/dev/stdout") {
        Ok(found) => found.file_type().is_char_device() && is_of_terminals(major(found.rdev())),
        Err(_) => false,
    }
}

/// The major number of a device, as Linux has it in 12 bits of the lower half.
fn major(device: u64) -> u64 {
    (device >> 8) & 0xfff
}

/// Whether devices of this major number are terminals: consoles, serial lines and pseudo-terminals.
fn is_of_terminals(major: u64) -> bool {
    major == 4 || major == 5 || (136..=143).contains(&major)
}
