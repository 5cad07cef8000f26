// The files that a command reads, and the one that it writes.

use std::fs::File;
use std::io::{ErrorKind, Read};
use std::os::unix::fs::MetadataExt;
use std::{fs, io};

// All that stands at a path, or that standard input gives if it is `-`.
pub(crate) fn whole_of(rt: &HostRuntime, path: &str) -> io::Result<Vec<u8>> {
    if path != "-" {
        return fs::read(rt, path);
    }
    let mut text = Vec::new(rt.alloc());
    rt.reader().read_to_end(&mut text)?;
    Ok(text)
}

// Whether what is read at the first path, or from standard input if that is `-`, is the file to which the second path leads: by its
// device and number there, since one file may have several paths, and standard input none. What is no file isn't written over.
pub(crate) fn is_same(rt: &HostRuntime, first: &str, second: &str) -> bool {
    let read = if first == "-" { "/dev/stdin" } else { first };
    match (fs::metadata(rt, read), fs::metadata(rt, second)) {
        (Ok(one), Ok(other)) => {
            other.is_file() && one.dev() == other.dev() && one.ino() == other.ino()
        }
        _ => false,
    }
}

// Writes a file whole: beside its place at first, and then in place of an older one, which stays as it was where anything fails.
// What is no file, as a device or a pipe, is written as it is, and so is what a descriptor stands for, as whoever has it open looks
// there. A symbolic link stays, also one that leads to no file yet.
pub(crate) fn write_whole(rt: &HostRuntime, path: &str, bytes: &[u8]) -> io::Result<()> {
    match fs::metadata(rt, path) {
        Ok(older) if older.is_file() => match fs::canonicalize(rt, path) {
            Ok(place) if !is_descriptor(path) && is_same(rt, path, place.as_str()) => {
                replace(rt, place.as_str(), bytes)
            }
            Err(error) if error.kind() == ErrorKind::OutOfMemory => Err(error),
            _ => fs::write(rt, path, bytes),
        },
        Ok(_) => fs::write(rt, path, bytes),
        Err(error) if error.kind() != ErrorKind::NotFound => Err(error),
        Err(_) => match fs::symlink_metadata(rt, path) {
            Ok(found) if found.is_symlink() => write_through(rt, path, bytes),
            _ => replace(rt, path, bytes),
        },
    }
}

// Whether a path is that of a descriptor.
fn is_descriptor(path: &str) -> bool {
    path.starts_with("/dev/fd/") || path.starts_with("/proc/self/fd/")
}

// Writes the file to which a symbolic link leads and which isn't there yet: it is empty at first. Nothing is left of it where anything
// fails.
fn write_through(rt: &HostRuntime, link: &str, bytes: &[u8]) -> io::Result<()> {
    fs::write(rt, link, &[])?;
    let path = fs::canonicalize(rt, link)?;
    let replaced = replace(rt, path.as_str(), bytes);
    if replaced.is_err() {
        let _ = fs::remove_file(rt, path.as_str());
    }
    replaced
}

// Puts a new file at a path.
fn replace(rt: &HostRuntime, path: &str, bytes: &[u8]) -> io::Result<()> {
    let beside = beside(rt, path)?;
    let replaced = fill(rt, beside.as_str(), path, bytes);
    if replaced.is_err() {
        let _ = fs::remove_file(rt, beside.as_str());
    }
    replaced
}

// Makes an empty file in the folder of a path, under a name that no file has. It is short whatever the name of the path is, and there
// are more than runs that were killed leave.
fn beside(rt: &HostRuntime, path: &str) -> io::Result<String> {
    for number in 0..1_000_000 {
        let name = match path.rsplit_once('/') {
            Some((folder, _)) => format!(in rt.alloc(); "{folder}/.seccomptool-{number}.new")?,
            None => format!(in rt.alloc(); ".seccomptool-{number}.new")?,
        };
        match File::create_new(rt, name.as_str()) {
            Ok(_) => return Ok(name),
            Err(error) if error.kind() == ErrorKind::AlreadyExists => {}
            Err(error) => return Err(error),
        }
    }
    Err(io::Error::from(ErrorKind::AlreadyExists))
}

// Writes a file, with the permissions of the one that is at a path, if one is, and moves it there.
fn fill(rt: &HostRuntime, beside: &str, path: &str, bytes: &[u8]) -> io::Result<()> {
    fs::write(rt, beside, bytes)?;
    if let Ok(older) = fs::metadata(rt, path) {
        fs::set_permissions(rt, beside, older.permissions())?;
    }
    fs::rename(rt, beside, path)
}
