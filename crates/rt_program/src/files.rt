// Files as they are opened and written.
ghost use Rattle.std.specs.Prelude.{◌≡◌, None};
ghost use Rattle.rt_program.specs.Held.{is_held};

use std::fs::{self, File, Files, Metadata, OpenFile, OpenOptions};
use std::io::{self, ErrorKind, Read, Write};
use std::os::unix::fs::MetadataExt;

/// A file that is opened by its first read: one that is never read need not be there.
#[derive(Drop)]
pub struct LazyFile<'a, R: Files> {
    rt: &'a R,
    path: &'a str,
    file: Option<R::File>,
}

impl<'a, R: Files> LazyFile<'a, R> {
    /// The file of a path, which is not opened yet.
    pub fn new(rt: &'a R, path: &'a str) -> Self
        ensures path { result.path.now ≡ path.now }
        ensures unopened { result.file ≡ None }
    {
        LazyFile {
            rt,
            path,
            file: None,
        }
    }
}

impl<R: Files> Read for LazyFile<'_, R> {
    ghost use Rattle.std.specs.Prelude.{None};

    ghost remaining = { λ _. None };

    fn read(&mut self, buf: &mut [u8]) -> io::Result<usize> {
        let mut file = match self.file.take() {
            Some(file) => file,
            None => fs::open(self.rt, self.path)?,
        };
        let count = file.read(buf);
        self.file = Some(file);
        count
    }
}

// How many names are tried for the file that is written beside another.
const MOST_NAMES: u32 = 100;

// Makes a file in the same folder, under a name that no file has.
fn create_beside<R: Files + AllocGlobal>(rt: &R, path: &str) -> io::Result<(R::File, String)> {
    for number in 0..MOST_NAMES {
        let name = format!(in rt.alloc(); "{path}.{number}.tmp")?;
        match File::create_new(rt, name.as_str()) {
            Ok(file) => return Ok((file, name)),
            Err(error) => {
                if error.kind() != ErrorKind::AlreadyExists {
                    return Err(error);
                }
            }
        }
    }
    Err(io::Error::from(ErrorKind::AlreadyExists))
}

fn write_through<F: Write + OpenFile>(file: &mut F, bytes: &[u8]) -> io::Result<()> {
    file.write_all(bytes)?;
    file.sync_all()
}

// Whether an error says that no file can be made beside a path, or that none can take its name: the folder can't be
// written or takes no longer name, or what has the path is held there.
fn is_held(kind: ErrorKind) -> bool
    ensures { result ≡ is_held kind }
{
    matches!(
        kind,
        ErrorKind::PermissionDenied
            | ErrorKind::ReadOnlyFilesystem
            | ErrorKind::InvalidFilename
            | ErrorKind::AlreadyExists
            | ErrorKind::ResourceBusy
    )
}

// What was tried beside a path, or false where its place is held.
fn unless_held(tried: io::Result<()>) -> io::Result<bool> {
    match tried {
        Ok(()) => Ok(true),
        Err(error) if is_held(error.kind()) => Ok(false),
        Err(error) => Err(error),
    }
}

// Gives a new file the mode of an old one. False where it would still be another's.
fn become_like<F: OpenFile>(file: &F, old: &Metadata) -> io::Result<bool> {
    let new = file.metadata()?;
    if new.uid() != old.uid() || new.gid() != old.gid() {
        return Ok(false);
    }
    unless_held(file.set_permissions(old.permissions()))
}

// Writes a file and gives it the name of another, with its mode. False where that is held.
fn take_name<R: Files>(
    rt: &R,
    file: &mut R::File,
    name: &str,
    path: &str,
    old: Option<&Metadata>,
    bytes: &[u8],
) -> io::Result<bool> {
    if let Some(old) = old {
        if !become_like(file, old)? {
            return Ok(false);
        }
    }
    write_through(file, bytes)?;
    unless_held(fs::rename(rt, name, path))
}

// Writes a file beside the path that takes its name, or leaves nothing of it. False where the place is held.
fn replace<R: Files + AllocGlobal>(
    rt: &R,
    path: &str,
    old: Option<&Metadata>,
    bytes: &[u8],
) -> io::Result<bool> {
    let (mut file, name) = match create_beside(rt, path) {
        Ok(made) => made,
        Err(error) if is_held(error.kind()) => return Ok(false),
        Err(error) => return Err(error),
    };
    let taken = take_name(rt, &mut file, name.as_str(), path, old, bytes);
    if !matches!(taken, Ok(true)) {
        let _ = fs::remove_file(rt, name.as_str());
    }
    taken
}

// Makes a file that is not there.
fn write_new<R: Files + AllocGlobal>(rt: &R, path: &str, bytes: &[u8]) -> io::Result<()> {
    if replace(rt, path, None, bytes)? {
        return Ok(());
    }
    let mut file = File::create_new(rt, path)?;
    let written = write_through(&mut file, bytes);
    if written.is_err() {
        let _ = fs::remove_file(rt, path);
    }
    written
}

// Gives a regular file other bytes, if it can be written.
fn overwrite<R: Files + AllocGlobal>(
    rt: &R,
    path: &str,
    old: &Metadata,
    bytes: &[u8],
) -> io::Result<()> {
    let mut file = OpenOptions::new().write(true).open(rt, path)?;
    if replace(rt, path, Some(old), bytes)? {
        return Ok(());
    }
    file.set_len(0)?;
    write_through(&mut file, bytes)
}

// Whether a file is there that nobody is to write, not even one whom the system would let.
fn is_protected<R: Files>(rt: &R, path: &str) -> bool {
    match fs::metadata(rt, path) {
        Ok(found) => found.is_file() && found.permissions().readonly(),
        Err(_) => false,
    }
}

/// Writes the bytes of a file. A regular file that can be written, or one that is not there yet, gets
/// them as a whole or stays as it was: they are written beside it, with its mode, and then take its
/// name. They are written in place where no file can be made beside it, or none can take its name,
/// and so are a link, a device and a pipe. The error is the system's, and `PermissionDenied` for a file
/// whose mode lets nobody write.
pub fn write_whole<R: Files + AllocGlobal>(rt: &R, path: &str, bytes: &[u8]) -> io::Result<()> {
    if is_protected(rt, path) {
        return Err(io::Error::from(ErrorKind::PermissionDenied));
    }
    let mut file = match fs::symlink_metadata(rt, path) {
        Ok(old) if old.is_file() => return overwrite(rt, path, &old, bytes),
        Ok(old) if old.is_symlink() => fs::create(rt, path)?,
        Ok(_) => OpenOptions::new().write(true).open(rt, path)?,
        Err(error) if error.kind() == ErrorKind::NotFound => return write_new(rt, path, bytes),
        Err(error) => return Err(error),
    };
    file.write_all(bytes)
}
