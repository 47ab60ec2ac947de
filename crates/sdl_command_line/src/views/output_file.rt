//! A file that takes the place of another one only once it is whole.

use std::alloc::Global;
use std::fs::{self, File, OpenFile, OpenOptions, Permissions};
use std::io::{self, ErrorKind, Write};
use std::path::{Path, PathBuf};
use std::rt::Files;

/// So many names are tried for a file that has no name yet.
const MOST_NAMES: u32 = 1000;

/// A file that is written of a run. While it is written it is in the same folder under another name. It gets its own
/// name once it is whole, so a fault leaves what had this name before. Only what is no ordinary file, such as a pipe or
/// a device, is written in place.
pub struct OutputFile<'r, R: Files> {
    files: &'r R,
    file: R::File,
    /// Its names; none if it is written in place.
    names: Option<Names>,
    /// Why it could not be written.
    fault: Option<io::Error>,
}

/// The name of a file while it is written, and the one that it gets.
#[derive(Drop)]
struct Names {
    first: PathBuf,
    last: PathBuf,
}

/// A file that didn't get its name goes.
impl<R: Files> Drop for OutputFile<'_, R> {
    fn drop(self) {
        let OutputFile {
            files,
            file: _,
            names,
            fault: _,
        } = self;
        if let Some(names) = &names {
            let _ = fs::remove_file(files, names.first.as_str());
        }
    }
}

impl<'r, R: Files + AllocGlobal> OutputFile<'r, R> {
    /// Makes the file that is to have this name.
    pub fn create(rt: &'r R, name: &str) -> io::Result<OutputFile<'r, R>> {
        match former_of(rt, name)? {
            Former::Nothing => {
                let last = PathBuf::from_str(rt.alloc(), name)?;
                OutputFile::create_beside(rt, last)
            }
            Former::File(last, permissions) => {
                let made = OutputFile::create_beside(rt, last)?;
                made.file.set_permissions(permissions)?;
                Ok(made)
            }
            Former::Other => Ok(OutputFile {
                files: rt,
                file: File::create(rt, name)?,
                names: None,
                fault: None,
            }),
        }
    }

    /// Makes the file in the folder of the name that it gets.
    fn create_beside(rt: &'r R, last: PathBuf) -> io::Result<OutputFile<'r, R>> {
        for number in 0..MOST_NAMES {
            let first = name_beside(rt.alloc(), last.as_path(), number)?;
            match File::create_new(rt, first.as_str()) {
                Ok(file) => {
                    return Ok(OutputFile {
                        files: rt,
                        file,
                        names: Some(Names { first, last }),
                        fault: None,
                    });
                }
                Err(error) if error.kind() == ErrorKind::AlreadyExists => {}
                Err(error) => return Err(error),
            }
        }
        Err(io::Error::from(ErrorKind::AlreadyExists))
    }

    /// Gives the file its name: it is whole.
    pub fn finish(mut self) -> io::Result<()> {
        if let Some(names) = &self.names {
            fs::rename(self.files, names.first.as_str(), names.last.as_str())?;
        }
        self.names = None;
        Ok(())
    }

    /// Why it could not be written.
    pub fn fault(&mut self) -> io::Error {
        match self.fault.take() {
            Some(error) => error,
            None => io::Error::from(ErrorKind::WriteZero),
        }
    }
}

impl<R: Files> Write for OutputFile<'_, R> {
    fn write(&mut self, bytes: &[u8]) -> io::Result<usize> {
        match self.file.write(bytes) {
            Ok(count) => Ok(count),
            Err(error) => {
                let told = io::Error::from(error.kind());
                self.fault = Some(error);
                Err(told)
            }
        }
    }

    fn flush(&mut self) -> io::Result<()> {
        self.file.flush()
    }
}

/// What has a name before a file is written.
#[derive(Drop)]
enum Former {
    Nothing,
    /// An ordinary file, by its name without links, and who may use it.
    File(PathBuf, Permissions),
    /// A pipe, a device, or a link to what isn't there.
    Other,
}

/// What has this name. A folder can't be written, nor can a file that is write-protected.
fn former_of<R: Files + AllocGlobal>(rt: &R, name: &str) -> io::Result<Former> {
    let metadata = match fs::metadata(rt, name) {
        Ok(metadata) => metadata,
        Err(error) if error.kind() == ErrorKind::NotFound => return Ok(former_link(rt, name)),
        Err(error) => return Err(error),
    };
    if metadata.is_dir() {
        return Err(io::Error::from(ErrorKind::IsADirectory));
    }
    if !metadata.is_file() {
        return Ok(Former::Other);
    }
    OpenOptions::new().write(true).open(rt, name)?;
    let last = fs::canonicalize(rt, name)?;
    Ok(Former::File(last, metadata.permissions()))
}

/// What has a name that leads to nothing: a link, or nothing at all.
fn former_link(files: &impl Files, name: &str) -> Former {
    match fs::symlink_metadata(files, name) {
        Ok(_) => Former::Other,
        Err(_) => Former::Nothing,
    }
}

/// A name of a file in the folder of another one.
fn name_beside(alloc: Global, other: Path<'_>, number: u32) -> io::Result<PathBuf> {
    let name = format!(in alloc; ".sdlrun-{number}")?;
    Ok(other.with_file_name(alloc, name.as_str())?)
}
