//! A file system, over that of the system, of which one call fails.

use std::alloc::Allocator;
use std::fs::{File, Metadata, OpenFile, OpenOptions, Permissions};
use std::io::{self, ErrorKind, Read, Seek, SeekFrom, Write};
use std::rt;

// The call that fails, of those that store a text.
#[derive(Clone, Copy)]
pub(crate) enum Fails {
    Open,
    // The write after this many bytes.
    WriteAfter(usize),
    Sync,
    Rename,
}

#[derive(Drop)]
pub(crate) struct FailingSystem<'a> {
    pub(crate) runtime: &'a HostRuntime,
    pub(crate) fails: Fails,
}

#[derive(Drop)]
pub(crate) struct FailingFile {
    file: File,
    fails: Fails,
}

// The error of a call that fails. A call that is not needed to store a text always fails.
fn fault() -> io::Error {
    io::Error::from(ErrorKind::StorageFull)
}

impl Read for FailingFile {
    fn read(&mut self, buf: &mut [u8]) -> io::Result<usize> {
        self.file.read(buf)
    }
}

impl Write for FailingFile {
    fn write(&mut self, buf: &[u8]) -> io::Result<usize> {
        let Fails::WriteAfter(left) = self.fails else {
            return self.file.write(buf);
        };
        if left == 0 {
            return Err(fault());
        }
        let count = self.file.write(&buf[..left.min(buf.len())])?;
        self.fails = Fails::WriteAfter(left.saturating_sub(count));
        Ok(count)
    }

    fn flush(&mut self) -> io::Result<()> {
        Err(fault())
    }
}

impl Seek for FailingFile {
    fn seek(&mut self, _to: SeekFrom) -> io::Result<u64> {
        Err(fault())
    }
}

impl OpenFile for FailingFile {
    fn metadata(&self) -> io::Result<Metadata> {
        Err(fault())
    }

    fn set_len(&self, _size: u64) -> io::Result<()> {
        Err(fault())
    }

    fn sync_all(&self) -> io::Result<()> {
        match self.fails {
            Fails::Sync => Err(fault()),
            _ => self.file.sync_all(),
        }
    }

    fn sync_data(&self) -> io::Result<()> {
        Err(fault())
    }

    fn set_permissions(&self, permissions: Permissions) -> io::Result<()> {
        self.file.set_permissions(permissions)
    }
}

impl rt::Files for FailingSystem<'_> {
    type File = FailingFile;

    type Dir = <HostRuntime as rt::Files>::Dir;

    fn open_file(&self, how: &OpenOptions, path: &str) -> io::Result<FailingFile> {
        let fails = self.fails;
        if how.asks_write() && matches!(fails, Fails::Open) {
            return Err(fault());
        }
        let file = self.runtime.open_file(how, path)?;
        Ok(FailingFile { file, fails })
    }

    fn open_dir(&self, _path: &str) -> io::Result<<HostRuntime as rt::Files>::Dir> {
        Err(fault())
    }

    fn metadata(&self, path: &str) -> io::Result<Metadata> {
        self.runtime.metadata(path)
    }

    fn symlink_metadata(&self, path: &str) -> io::Result<Metadata> {
        self.runtime.symlink_metadata(path)
    }

    fn copy(&self, _from: &str, _to: &str) -> io::Result<u64> {
        Err(fault())
    }

    fn rename(&self, from: &str, to: &str) -> io::Result<()> {
        match self.fails {
            Fails::Rename => Err(fault()),
            _ => self.runtime.rename(from, to),
        }
    }

    fn remove_file(&self, path: &str) -> io::Result<()> {
        self.runtime.remove_file(path)
    }

    fn create_dir(&self, _path: &str) -> io::Result<()> {
        Err(fault())
    }

    fn remove_dir(&self, _path: &str) -> io::Result<()> {
        Err(fault())
    }

    fn remove_dir_all<B: Allocator>(&self, _alloc: B, _path: &str) -> io::Result<()> {
        Err(fault())
    }
}
