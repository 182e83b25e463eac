//! Real files and standard output: the only part of the outside that is trusted. They tell nothing, and count their failures.

ghost use Rattle.std.specs.Prelude.{⊤, None, ◌≡◌, ◌≤◌, length, IfOk};
ghost use Rattle.std.specs.Io.{ReadsAtMost};

use crate::shelf::{Shelf, ShelfFailed};
use crate::sink::{Sink, SinkFailed};
use std::alloc::Global;
use std::fs::{File, Files};
use std::io::{Print, Write};
use std::marker::Model;
use std::os::unix::fs::FileExt;
use std::{fs, io};

// A file that was opened, and the name by which it was.
#[derive(Drop)]
struct OpenFile {
    name: String,
    file: File,
}

fn open_file<R: Files<File = File>>(
    alloc: Global,
    runtime: &R,
    name: &str,
) -> io::Result<OpenFile> {
    let file = fs::open(runtime, name)?;
    let name = String::from_str(alloc, name)?;
    Ok(OpenFile { name, file })
}

/// Real files, by their paths from the folder in which the program runs. Contracts see the number of failed reads, of all names
/// together, and nothing of what the files hold.
///
/// A missing file is a failure, and so is out of memory. The file that was read last stays open, so reading it in pieces
/// opens it once.
#[derive(Drop)]
pub struct DirShelf<'a, R: Files<File = File>> {
    alloc: Global,
    runtime: &'a R,
    open: Option<OpenFile>,
    failed: u64,
}

impl<'a, R: Files<File = File>> Model for DirShelf<'a, R> {
    ghost use Rattle.std.specs.Prelude.{ℕ};

    ghost Value = { ℕ };

    ghost view = { λ shelf. shelf.failed };
}

impl<'a, R: Files<File = File>> DirShelf<'a, R> {
    /// A shelf with no failed read yet.
    pub fn new(alloc: Global, runtime: &'a R) -> DirShelf<'a, R>
        ensures { result ≡ 0 }
    {
        DirShelf {
            alloc,
            runtime,
            open: None,
            failed: 0,
        }
    }

    // Reads from the file of this name, which is opened unless it is the one that is open. A file that fails is closed.
    fn read_open(&mut self, name: &str, at: u64, buf: &mut [u8]) -> io::Result<usize>
        ensures bound { ReadsAtMost result buf.new }
        ensures failed { self.new ≡ self.old }
    {
        let open = match self.open.take() {
            Some(open) if open.name.as_str() == name => open,
            _ => open_file(self.alloc, self.runtime, name)?,
        };
        let count = open.file.read_at(buf, at)?;
        self.open = Some(open);
        Ok(count)
    }
}

impl<R: Files<File = File>> Shelf for DirShelf<'_, R> {
    ghost told = { λ failed. None };

    ghost faults = { λ failed name. failed };

    ghost may_read = { λ failed name at size. ⊤ };

    fn read_at(&mut self, name: &str, at: u64, buf: &mut [u8]) -> Result<usize, ShelfFailed> {
        if buf.is_empty() {
            return Ok(0);
        }
        match self.read_open(name, at, buf) {
            Ok(count) => Ok(count),
            Err(_) => {
                self.failed = self.failed.saturating_add(1);
                Err(ShelfFailed)
            }
        }
    }
}

/// Standard output. Contracts see the number of failed writes. Each call writes and flushes, and to take nothing of some bytes counts as a failure.
#[derive(Drop)]
pub struct StdSink<'a, R: Print> {
    runtime: &'a R,
    failed: u64,
}

impl<'a, R: Print> Model for StdSink<'a, R> {
    ghost use Rattle.std.specs.Prelude.{ℕ};

    ghost Value = { ℕ };

    ghost view = { λ sink. sink.failed };
}

impl<'a, R: Print> StdSink<'a, R> {
    /// A sink with no failed write yet.
    pub fn new(runtime: &'a R) -> StdSink<'a, R>
        ensures { result ≡ 0 }
    {
        StdSink { runtime, failed: 0 }
    }
}

// Writes some of the bytes and flushes.
fn print_some<R: Print>(runtime: &R, bytes: &[u8]) -> io::Result<usize>
    ensures { IfOk result (λ count. count ≤ length bytes.now) }
{
    let mut out = io::writer(runtime);
    let count = out.write(bytes)?;
    out.flush()?;
    Ok(count)
}

impl<R: Print> Sink for StdSink<'_, R> {
    ghost written = { λ failed. None };

    ghost faults = { λ failed. failed };

    fn write(&mut self, bytes: &[u8]) -> Result<usize, SinkFailed> {
        if bytes.is_empty() {
            return Ok(0);
        }
        match print_some(self.runtime, bytes) {
            Ok(count) if count > 0 => Ok(count),
            _ => {
                self.failed = self.failed.saturating_add(1);
                Err(SinkFailed)
            }
        }
    }
}
