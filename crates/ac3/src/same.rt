//! Which file a path means.
use crate::desk::Sharing;
use std::fs::{self, Metadata};
use std::os::unix::fs::{FileTypeExt, MetadataExt};
use std::path::{Path, PathBuf};
use std::rt::HostRuntime;

/// The most links that are followed to a file that isn't there yet.
const LINKS: u32 = 40;

/// What the system says of a path.
#[derive(Drop)]
enum Found {
    /// A terminal, a pipe, a socket or a device such as the null device.
    Stream,
    /// A file that is there: its device, and its number there.
    File(u64, u64),
    /// A file that isn't there yet: its folder's device and number, and a path that ends in its name.
    New(u64, u64, PathBuf),
    /// Nothing.
    Unknown,
}

/// Whether any number of programs may read and write it at once: a terminal, the null device, a pipe, a socket.
fn is_free(found: &Metadata) -> bool {
    let kind = found.file_type();
    kind.is_char_device() || kind.is_fifo() || kind.is_socket()
}

/// The folder of a path.
fn folder_of<'a>(path: Path<'a>) -> Path<'a> {
    match path.parent() {
        Some(folder) if folder.as_str() != "" => folder,
        _ => Path::new("."),
    }
}

/// Follows the links that a path ends in.
fn followed(rt: &HostRuntime, path: &str) -> Option<PathBuf> {
    let mut at = PathBuf::from_str(rt.alloc(), path).ok()?;
    for _ in 0..LINKS {
        let Ok(target) = fs::read_link(rt, at.as_path().as_str()) else {
            return Some(at);
        };
        at = folder_of(at.as_path())
            .join(rt.alloc(), target.as_path().as_str())
            .ok()?;
    }
    None
}

/// What is found where no file is there yet.
fn new_at(rt: &HostRuntime, path: &str) -> Found {
    let Some(new) = followed(rt, path) else {
        return Found::Unknown;
    };
    match fs::metadata(rt, folder_of(new.as_path()).as_str()) {
        Ok(folder) => Found::New(folder.dev(), folder.ino(), new),
        Err(_) => Found::Unknown,
    }
}

fn found_at(rt: &HostRuntime, path: &str) -> Found {
    match fs::metadata(rt, path) {
        Ok(found) if is_free(&found) => Found::Stream,
        Ok(found) => Found::File(found.dev(), found.ino()),
        Err(_) => new_at(rt, path),
    }
}

/// How the things at two paths stand to each other: links are followed, and so are other ways through the folders.
pub fn sharing(rt: &HostRuntime, one: &str, other: &str) -> Sharing {
    let is_one = match (found_at(rt, one), found_at(rt, other)) {
        (Found::Stream, _) | (_, Found::Stream) => return Sharing::Free,
        (Found::File(device, number), Found::File(there, that)) => {
            device == there && number == that
        }
        (Found::New(device, number, first), Found::New(there, that, second)) => {
            let same_name = first.as_path().file_name() == second.as_path().file_name();
            device == there && number == that && same_name
        }
        _ => false,
    };
    if is_one {
        Sharing::OneFile
    } else {
        Sharing::Apart
    }
}
