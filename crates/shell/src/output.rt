//! Files that are written whole or not at all.

use std::alloc::Global;
use std::fs::{self, Files, Metadata, OpenFile, OpenOptions};
use std::io::{self, ErrorKind, Write};

/// How many names are tried for the file beside the one that is written.
const NAMES: u8 = 100;

/// Puts the bytes into the file in place of what it holds: they are written beside it, and then take its name and its permissions.
/// A link is followed first. What is there and is no plain file, as a pipe, is written to where it is.
pub fn write_whole<R: Files>(files: &R, heap: Global, file: &str, bytes: &[u8]) -> io::Result<()> {
    match files.canonicalize(heap, file) {
        Ok(found) => replace(files, heap, found.as_path().as_str(), bytes),
        Err(_) => write_beside(files, heap, file, None, bytes),
    }
}

/// The same of what is there.
fn replace<R: Files>(files: &R, heap: Global, file: &str, bytes: &[u8]) -> io::Result<()> {
    let found = fs::metadata(files, file)?;
    if !found.is_file() {
        return fs::write(files, file, bytes);
    }
    // What may not be written may not be replaced either.
    OpenOptions::new().write(true).open(files, file)?;
    write_beside(files, heap, file, Some(found), bytes)
}

/// Writes a new file, which then takes the name, and the permissions of what is there.
fn write_beside<R: Files>(
    files: &R,
    heap: Global,
    file: &str,
    old: Option<Metadata>,
    bytes: &[u8],
) -> io::Result<()> {
    for number in 0..NAMES {
        let beside = format!(in heap; "{file}.{number}.part")?;
        match create_new(files, beside.as_str()) {
            Ok(new) => return fill(files, new, old, beside.as_str(), file, bytes),
            Err(error) if error.kind() == ErrorKind::AlreadyExists => {}
            Err(error) => return Err(error),
        }
    }
    Err(io::Error::from(ErrorKind::AlreadyExists))
}

fn create_new<R: Files>(files: &R, name: &str) -> io::Result<R::File> {
    OpenOptions::new()
        .write(true)
        .create_new(true)
        .open(files, name)
}

/// Fills the new file and renames it; takes it away again where that does not succeed.
fn fill<R: Files>(
    files: &R,
    new: R::File,
    old: Option<Metadata>,
    beside: &str,
    file: &str,
    bytes: &[u8],
) -> io::Result<()> {
    let placed = match write_new(new, old, bytes) {
        Ok(()) => fs::rename(files, beside, file),
        Err(error) => Err(error),
    };
    if placed.is_err() {
        let _ = fs::remove_file(files, beside);
    }
    placed
}

fn write_new<F: Write + OpenFile + Drop>(
    mut new: F,
    old: Option<Metadata>,
    bytes: &[u8],
) -> io::Result<()> {
    if let Some(old) = old {
        new.set_permissions(old.permissions())?;
    }
    new.write_all(bytes)?;
    new.sync_all()
}
