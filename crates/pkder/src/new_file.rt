//! The file of `--to`, which is written whole beside its place and then moved there, or not made at all.
ghost use Rattle.std.specs.Prelude.{◌≡◌};
ghost use Rattle.pkder.specs.NewFiles.{mode_of};

use commands::flush::ToFlush;
use commands::new_file::{NewFile, NewFiles, Stage, Unmade};
use std::fs::{self, File, Metadata, OpenOptions, Permissions};
use std::io::{self, ErrorKind};
use std::os::unix::fs::{MetadataExt, OpenOptionsExt, PermissionsExt, fchown};
use std::path::PathBuf;

/// As many links are followed, as Linux does.
const LINKS: usize = 40;

/// As many names are tried beside the place.
const TRIES: u32 = 100;

/// Who may read, write and run a file.
const ACCESS: u32 = 0o777;

const ACCESS_WITHOUT_GROUP: u32 = 0o707;

/// Makes files beside the places that names lead to.
#[derive(Drop)]
pub struct FilesBeside<'a> {
    rt: &'a HostRuntime,
}

impl<'a> FilesBeside<'a> {
    pub fn new(rt: &'a HostRuntime) -> FilesBeside<'a> {
        FilesBeside { rt }
    }
}

/// A file beside the place that it is to have.
#[derive(Drop)]
pub struct FileBeside<'a> {
    rt: &'a HostRuntime,
    file: File,
    /// Leads to its place.
    name: String,
    path: String,
    place: PathBuf,
    /// What has that place now.
    replaced: Option<Metadata>,
    private: bool,
    stage: Stage,
}

impl<'a> NewFiles for FilesBeside<'a> {
    type File = FileBeside<'a>;

    // (which files the system makes is its to say)
    ghost refuses = { λ _ _ _. Unit {0} };

    fn make(&self, name: &str, is_private: bool) -> Result<FileBeside<'a>, Unmade> {
        let name = name.to_string(self.rt.alloc())?;
        let place = followed(self.rt, name.as_str())?;
        let replaced = regular(self.rt, place.as_str())?;
        let mode = mode_of(is_private || replaced.is_some());
        for number in 0..TRIES {
            let path = beside(self.rt, place.as_str(), number)?;
            match OpenOptions::new()
                .write(true)
                .create_new(true)
                .mode(mode)
                .open(self.rt, path.as_str())
            {
                Ok(file) => {
                    return Ok(FileBeside {
                        rt: self.rt,
                        file,
                        name,
                        path,
                        place,
                        replaced,
                        private: is_private,
                        stage: Stage::Beside,
                    });
                }
                Err(error) if error.kind() == ErrorKind::AlreadyExists => {}
                Err(error) => return Err(Unmade::from(error)),
            }
        }
        Err(Unmade::Other)
    }
}

impl NewFile for FileBeside<'_> {
    ghost use Rattle.pkder.specs.NewFiles.{made_of};

    type Writer = ToFlush<File>;

    ghost made = { λ file. made_of file };

    fn writer(&self) -> Result<ToFlush<File>, Unmade> {
        Ok(ToFlush::new(self.file.try_clone()?))
    }

    // With the mode and the owner of what it replaces where that is allowed.
    fn place(&mut self, _written: ToFlush<File>) -> Result<(), Unmade> {
        if let Some(old) = &self.replaced {
            // (only root sets the owner, and a member of the group may still set that; where it isn't kept, the group
            // that the file has gets no rights of another one)
            let access = match fchown(&self.file, None, Some(old.gid())) {
                Ok(()) => ACCESS,
                Err(_) => ACCESS_WITHOUT_GROUP,
            };
            let _ = fchown(&self.file, Some(old.uid()), None);
            let _ = self
                .file
                .set_permissions(Permissions::from_mode(old.mode() & access));
        }
        match moved(self.rt, &self.file, self.path.as_str(), self.place.as_str()) {
            Ok(()) => {
                self.stage = Stage::InPlace;
                Ok(())
            }
            Err(error) => {
                self.remove();
                Err(Unmade::from(error))
            }
        }
    }

    fn remove(&mut self) {
        let _ = fs::remove_file(self.rt, self.path.as_str());
        self.stage = Stage::Gone;
    }
}

/// Moves a file to its place once all of it is on the disk.
fn moved(rt: &HostRuntime, file: &File, path: &str, place: &str) -> io::Result<()> {
    file.sync_all()?;
    fs::rename(rt, path, place)
}

/// The mode that a file is made with: for its owner alone, or for all that the user's mask lets in.
fn mode_of(is_private: bool) -> u32
    ensures { result ≡ mode_of is_private }
{
    if is_private { 0o600 } else { 0o666 }
}

/// The name of a file beside this one.
fn beside(rt: &HostRuntime, place: &str, number: u32) -> io::Result<String> {
    Ok(format!(in rt.alloc(); "{place}.pkder{number}")?)
}

/// Where a name leads, through links, also where nothing is there yet.
fn followed(rt: &HostRuntime, name: &str) -> io::Result<PathBuf> {
    let mut place = PathBuf::from_str(rt.alloc(), name)?;
    for _ in 0..LINKS {
        match fs::read_link(rt, place.as_str()) {
            Ok(link) => {
                place = match place.as_path().parent() {
                    Some(folder) => folder.join(rt.alloc(), link.as_str())?,
                    None => link,
                }
            }
            // (what is no link, or isn't there)
            Err(_) => return Ok(place),
        }
    }
    Ok(place)
}

/// What is at a path, or `None` where nothing does; what isn't a regular file isn't replaced.
fn regular(rt: &HostRuntime, path: &str) -> Result<Option<Metadata>, Unmade> {
    match fs::symlink_metadata(rt, path) {
        Ok(found) if found.is_file() => Ok(Some(found)),
        Ok(_) => Err(Unmade::Irregular),
        Err(error) if error.kind() == ErrorKind::NotFound => Ok(None),
        Err(error) => Err(Unmade::from(error)),
    }
}
