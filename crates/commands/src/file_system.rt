//! Documents in files.
ghost use Rattle.std.specs.Prelude.{◌≡◌, IfOk, None, false};
ghost use Rattle.commands.specs.Buffers.{is_telling, read_failed, room_for};

use crate::from_buffer::FromBuffer;
use crate::opener::{Opener, Unopened};
use std::alloc::Global;
use std::fs::{self, File, Files, Metadata, OpenFile};
use std::io::{BufReader, ErrorKind, Read};

/// As many octets are read ahead of a file at most, and of one whose length isn't known.
const MOST: u64 = 8192;

/// There is room for as many, however short a file is: it may grow while it is read.
const LEAST: u64 = 512;

/// Opens files by their paths. What they contain isn't known.
#[derive(Drop)]
pub struct FileSystem<'a, R: Files> {
    files: &'a R,
}

impl<'a, R: Files> FileSystem<'a, R> {
    pub fn new(files: &'a R) -> FileSystem<'a, R> {
        FileSystem { files }
    }
}

impl<R: Files> Opener for FileSystem<'_, R> {
    type Document = FromBuffer<R::File>;

    ghost known = { λ _ _. None };

    // (which file a name has is the system's to say)
    ghost refuses = { λ _ _ _. Unit {0} };

    fn open(&self, alloc: Global, name: &[u8]) -> Result<FromBuffer<R::File>, Unopened> {
        let file = file_at(self.files, path_of(name)?)?;
        let found = file.metadata().ok();
        document(alloc, file, found.as_ref())
    }

    fn open_regular(&self, alloc: Global, name: &[u8]) -> Result<FromBuffer<R::File>, Unopened> {
        let path = path_of(name)?;
        let Ok(found) = fs::metadata(self.files, path) else {
            return self.open(alloc, name);
        };
        if !found.is_file() && !found.is_dir() {
            return Err(Unopened::Irregular);
        }
        document(alloc, file_at(self.files, path)?, Some(&found))
    }
}

/// The path that a name is.
fn path_of(name: &[u8]) -> Result<&str, Unopened> {
    match std::str::from_utf8(name) {
        Ok(path) => Ok(path),
        Err(_) => Err(Unopened::NotUtf8),
    }
}

/// The file that a path leads to, opened.
fn file_at<R: Files>(files: &R, path: &str) -> Result<R::File, Unopened> {
    match File::open(files, path) {
        Ok(file) => Ok(file),
        Err(error) => Err(unopened(error.kind())),
    }
}

/// The document in an open file of which this is known; none in a directory, which the system opens like a file. The
/// first block of a regular file is read: another one may have to wait for whoever writes it.
fn document<F: Read + Drop>(
    alloc: Global,
    file: F,
    found: Option<&Metadata>,
) -> Result<FromBuffer<F>, Unopened>
    ensures silent { IfOk result (λ source. is_telling source ≡ false) }
    ensures fresh { IfOk result (λ source. read_failed source ≡ false) }
{
    let (length, is_regular) = match found {
        Some(found) if found.is_dir() => return Err(Unopened::Directory),
        Some(found) => (found.len(), found.is_file()),
        None => (0, false),
    };
    let Ok(reader) = BufReader::with_capacity(alloc, room_for(length), file) else {
        return Err(Unopened::Memory);
    };
    let mut source = FromBuffer::new(reader);
    if is_regular {
        source.fill();
    }
    Ok(source)
}

/// Room for what a file has of so many octets, which the system says are 0 where it doesn't know.
fn room_for(length: u64) -> usize
    ensures { result ≡ room_for length }
{
    if length == 0 {
        return MOST as usize;
    }
    length.clamp(LEAST, MOST) as usize
}

/// Why a file isn't opened, by the kind of the error.
fn unopened(kind: ErrorKind) -> Unopened {
    match kind {
        ErrorKind::NotFound => Unopened::NotFound,
        ErrorKind::IsADirectory => Unopened::Directory,
        ErrorKind::NotADirectory => Unopened::NotDirectory,
        ErrorKind::PermissionDenied => Unopened::Denied,
        ErrorKind::InvalidFilename => Unopened::TooLong,
        ErrorKind::OutOfMemory => Unopened::Memory,
        _ => Unopened::Other,
    }
}
