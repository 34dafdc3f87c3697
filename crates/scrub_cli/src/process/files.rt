//! Raw images and maps in files of the system. Contracts don't say what a file holds, only how often an image
//! was read and how often that failed.

ghost use Rattle.std.specs.Prelude.{◌≡◌, ◌↔◌, ◌⊎◌, ◌*◌, ◌≤◌, ◌^◌, IfSome, IsTrue, None, length, true};
ghost use Rattle.scrub_cli.specs.FileKind.{IsBlockDevice, IsRegularFile};
ghost use Rattle.scrub_cli.specs.KnownFiles.{image_file, map_file};

use crate::process::images::{Images, MapReadFault};
use scrub_disk::{OutOfMemory, RawFault, RawImage};
use std::alloc::Global;
use std::fs::{File, Files, metadata};
use std::io::{ErrorKind, Read};
use std::os::unix::fs::{FileExt, MetadataExt};

/// A file that is read as a raw image. The counts are for contracts alone; no code reads them.
#[derive(Drop)]
pub struct FileImage {
    file: File,
    reads: u64,
    failures: u64,
    /// How many readers it stands for: 64 if it is the only one.
    shares: u32,
    ghost counted: { failures ≤ reads },
    ghost some: { 1 ≤ shares },
    ghost bounded: { failures ≤ 2 ^ 64 * shares },
}

impl FileImage {
    /// A file that wasn't read yet.
    fn new(file: File, shares: u32) -> FileImage
        requires { 1 ≤ shares }
        ensures unread { result.reads ≡ 0 }
        ensures shares { result.shares ≡ shares }
    {
        FileImage {
            file,
            reads: 0,
            failures: 0,
            shares,
        }
    }

    /// This reader, once it stands only for itself.
    fn shared(self) -> FileImage
        ensures reads { result.reads ≡ self.reads }
        ensures shares { result.shares ≡ 1 }
    {
        FileImage {
            file: self.file,
            reads: self.reads,
            failures: self.failures,
            shares: 1,
        }
    }
}

/// How many tries a read gets if signals interrupt it.
const TRIES: u32 = 8;

/// Reads from a file, from a byte offset on, into the front of `out`, and returns how many bytes. A read that
/// a signal interrupts is tried again.
fn read_again(file: &File, out: &mut [u8], offset: u64) -> Option<usize>
    ensures { IfSome result (λ count. count ≤ length out.new) }
{
    for _ in 0..TRIES {
        match file.read_at(out, offset) {
            Ok(count) => return Some(count),
            Err(error) if error.kind() == ErrorKind::Interrupted => {}
            Err(_) => return None,
        }
    }
    None
}

impl RawImage for FileImage {
    ghost bytes = { λ _. None };

    ghost fails = { λ _ _ _. true };

    ghost reads = { λ image. image.reads };

    ghost failures = { λ image. image.failures };

    ghost most_failures = { λ image. 2 ^ 64 * image.shares };

    ghost failures_are_reads = { λ image. image.counted };

    ghost failures_are_bounded = { λ image. image.bounded };

    fn read_at(&mut self, offset: u64, out: &mut [u8]) -> Result<usize, RawFault> {
        self.reads += 1;
        match read_again(&self.file, out, offset) {
            Some(count) => Ok(count),
            None => {
                self.failures += 1;
                Err(RawFault)
            }
        }
    }
}

/// The bits of a file's mode that say its kind, and two of the kinds, as in `inode(7)` of Linux.
const KIND_BITS: u32 = 0o170000;

const REGULAR_FILE: u32 = 0o100000;

const BLOCK_DEVICE: u32 = 0o060000;

/// Whether a file of this mode is opened. Only regular files and block devices can be read whole: every read
/// of a directory fails, and opening a pipe waits until someone writes to it.
fn is_opened(mode: u32) -> bool
    ensures { IsTrue result ↔ (IsRegularFile mode ⊎ IsBlockDevice mode) }
{
    let kind = mode & KIND_BITS;
    kind == REGULAR_FILE || kind == BLOCK_DEVICE
}

/// The regular file or block device at this path. Links are followed.
fn open_readable<R: Files<File = File>>(runtime: &R, name: &str) -> Option<File> {
    let mode = metadata(runtime, name).ok()?.mode();
    if !is_opened(mode) {
        return None;
    }
    File::open(runtime, name).ok()
}

/// The files of the system, by their paths.
#[derive(Drop)]
pub struct NamedFiles<'a, R> {
    pub runtime: &'a R,
}

impl<R: Files<File = File>> Images for NamedFiles<'_, R> {
    type Image = FileImage;

    ghost known = { λ _ _. image_file };

    ghost known_map = { λ _. map_file };

    fn image(&mut self, name: &str) -> Option<FileImage> {
        let file = open_readable(self.runtime, name)?;
        Some(FileImage::new(file, 64))
    }

    fn beside(
        &mut self,
        alloc: Global,
        image: FileImage,
        most: usize,
    ) -> Result<Vec<FileImage>, OutOfMemory> {
        let count = most.min(image.shares as usize);
        let mut readers = Vec::new(alloc);
        for _ in 1..count {
            let Ok(copy) = image.file.try_clone() else {
                break;
            };
            readers.push(FileImage::new(copy, 1))?;
        }
        readers.push(image.shared())?;
        Ok(readers)
    }

    fn map(&mut self, alloc: Global, name: &str) -> Result<Vec<u8>, MapReadFault> {
        let Some(mut file) = open_readable(self.runtime, name) else {
            return Err(MapReadFault::NotOpened);
        };
        let mut text = Vec::new(alloc);
        match file.read_to_end(&mut text) {
            Ok(_) => Ok(text),
            Err(error) if error.kind() == ErrorKind::OutOfMemory => Err(MapReadFault::OutOfMemory),
            Err(_) => Err(MapReadFault::NotOpened),
        }
    }
}
