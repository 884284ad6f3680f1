//! Real files with short and interrupted writes.

use std::alloc::Allocator;
use std::fs::{Files, Metadata, OpenFile, OpenOptions};
use std::io::{self, Error, ErrorKind, Read, Seek, SeekFrom, Write};

/// A file whose writes take one byte and are interrupted by turns.
#[derive(Drop)]
pub(crate) struct FlakyFile<F> {
    file: F,
    breaks: bool,
}

impl<F: Read> Read for FlakyFile<F> {
    fn read(&mut self, buf: &mut [u8]) -> io::Result<usize> {
        self.file.read(buf)
    }
}

impl<F: Write> Write for FlakyFile<F> {
    fn write(&mut self, buf: &[u8]) -> io::Result<usize> {
        if self.breaks {
            self.breaks = false;
            return Err(Error::from(ErrorKind::Interrupted));
        }
        self.breaks = true;
        self.file.write(&buf[..buf.len().min(1)])
    }

    fn flush(&mut self) -> io::Result<()> {
        self.file.flush()
    }
}

impl<F: Seek> Seek for FlakyFile<F> {
    fn seek(&mut self, pos: SeekFrom) -> io::Result<u64> {
        self.file.seek(pos)
    }
}

impl<F: OpenFile> OpenFile for FlakyFile<F> {
    fn metadata(&self) -> io::Result<Metadata> {
        self.file.metadata()
    }

    fn set_len(&self, size: u64) -> io::Result<()> {
        self.file.set_len(size)
    }

    fn sync_all(&self) -> io::Result<()> {
        self.file.sync_all()
    }

    fn sync_data(&self) -> io::Result<()> {
        self.file.sync_data()
    }
}

/// The files of a runtime, opened as `FlakyFile`s.
#[derive(Drop)]
pub(crate) struct Flaky<'a, R>(pub(crate) &'a R);

impl<R: Files> Files for Flaky<'_, R> {
    type File = FlakyFile<R::File>;

    type Dir = R::Dir;

    fn open_file(&self, how: &OpenOptions, path: &str) -> io::Result<FlakyFile<R::File>> {
        let file = self.0.open_file(how, path)?;
        Ok(FlakyFile {
            file,
            breaks: false,
        })
    }

    fn open_dir(&self, path: &str) -> io::Result<R::Dir> {
        self.0.open_dir(path)
    }

    fn metadata(&self, path: &str) -> io::Result<Metadata> {
        self.0.metadata(path)
    }

    fn symlink_metadata(&self, path: &str) -> io::Result<Metadata> {
        self.0.symlink_metadata(path)
    }

    fn copy(&self, from: &str, to: &str) -> io::Result<u64> {
        self.0.copy(from, to)
    }

    fn rename(&self, from: &str, to: &str) -> io::Result<()> {
        self.0.rename(from, to)
    }

    fn remove_file(&self, path: &str) -> io::Result<()> {
        self.0.remove_file(path)
    }

    fn create_dir(&self, path: &str) -> io::Result<()> {
        self.0.create_dir(path)
    }

    fn remove_dir(&self, path: &str) -> io::Result<()> {
        self.0.remove_dir(path)
    }

    fn remove_dir_all<B: Allocator>(&self, alloc: B, path: &str) -> io::Result<()> {
        self.0.remove_dir_all(alloc, path)
    }
}
