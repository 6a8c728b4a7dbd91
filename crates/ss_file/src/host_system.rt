// The real system: a thin layer over the standard library.
ghost use Rattle.std.specs.Prelude.{◌-◌, ◌^◌, ⊤};

#[cfg(test)]
mod tests;

use crate::judge::require_some;
use crate::system::{Access, Kind, Lock, Stream, System};
use std::fs::{self, File, FileType, Metadata, OpenOptions};
use std::io::{self, ErrorKind};
use std::os::unix::fs::{FileExt, FileTypeExt, MetadataExt};
use std::rt::Files;

// Three handles of a folder. Whichever of the descriptors 0, 1 and 2 was closed, one of them has taken it.
#[derive(Drop)]
struct StandIns {
    first: File,
    second: File,
    third: File,
}

// Takes the descriptors of standard streams that are closed, so that no file that is opened later gets what is meant for
// them. A read or a write of such a stream fails then.
fn hold_streams<R: Files<File = File>>(rt: &R) -> io::Result<StandIns> {
    let first = File::open(rt, "/")?;
    let second = File::open(rt, "/")?;
    let third = File::open(rt, "/")?;
    Ok(StandIns {
        first,
        second,
        third,
    })
}

fn kind_of(found: FileType) -> Kind {
    if found.is_file() {
        Kind::Regular
    } else if found.is_dir() {
        Kind::Folder
    } else if found.is_fifo() {
        Kind::Pipe
    } else if found.is_socket() {
        Kind::Socket
    } else {
        Kind::Device
    }
}

fn options_for(access: Access) -> OpenOptions {
    let mut options = OpenOptions::new();
    options.read(true);
    options.write(access != Access::Read);
    options.create(access == Access::Make);
    options
}

// Whether a descriptor leads to this file. Where the system doesn't show it, it doesn't.
fn leads_to<R: Files>(rt: &R, descriptor: &str, file: &Metadata) -> bool {
    match fs::metadata(rt, descriptor) {
        Ok(found) => found.dev() == file.dev() && found.ino() == file.ino(),
        Err(_) => false,
    }
}

/// The system that this process runs on.
#[derive(Drop)]
pub struct HostSystem<'a, R> {
    rt: &'a R,
    stand_ins: Option<StandIns>,
    file: Option<File>,
    folder: Option<File>,
}

impl<'a, R: Files<File = File>> HostSystem<'a, R> {
    pub fn new(rt: &'a R) -> HostSystem<'a, R> {
        HostSystem {
            rt,
            stand_ins: None,
            file: None,
            folder: None,
        }
    }

    fn opened(&self) -> io::Result<&File> {
        match &self.file {
            Some(file) => Ok(file),
            None => Err(io::Error::from(ErrorKind::Other)),
        }
    }
}

impl<R: Files<File = File> + AllocGlobal> System for HostSystem<'_, R> {
    ghost holds = { λ _ _. ⊤ };

    ghost fits = { λ _ _. ⊥ };

    ghost has_written = { λ _ _ _. ⊤ };

    ghost faults = { λ _. 2 ^ 64 - 1 };

    ghost nothing_written = { λ _ _. tt };

    fn kind_of(&mut self, path: &str) -> io::Result<Kind> {
        Ok(kind_of(fs::metadata(self.rt, path)?.file_type()))
    }

    fn open(&mut self, path: &str, access: Access) -> io::Result<()> {
        if self.stand_ins.is_none() {
            self.stand_ins = Some(hold_streams(self.rt)?);
        }
        self.file = Some(options_for(access).open(self.rt, path)?);
        Ok(())
    }

    fn stream_into(&mut self) -> io::Result<Option<Stream>> {
        let file = self.opened()?.metadata()?;
        Ok(if leads_to(self.rt, "/proc/self/fd/2", &file) {
            Some(Stream::Error)
        } else if leads_to(self.rt, "/proc/self/fd/1", &file) {
            Some(Stream::Output)
        } else {
            None
        })
    }

    fn lock(&mut self, how: Lock) -> io::Result<()> {
        match how {
            Lock::Exclusive => self.opened()?.try_lock()?,
            Lock::Shared => self.opened()?.try_lock_shared()?,
        }
        Ok(())
    }

    fn kind(&mut self) -> io::Result<Kind> {
        Ok(kind_of(self.opened()?.metadata()?.file_type()))
    }

    fn len(&mut self) -> io::Result<u64> {
        Ok(self.opened()?.metadata()?.len())
    }

    fn read(&mut self, at: u64, into: &mut [u8]) -> io::Result<usize> {
        self.opened()?.read_at(into, at)
    }

    fn write(&mut self, at: u64, bytes: &[u8]) -> io::Result<usize> {
        require_some(self.opened()?.write_at(bytes, at))
    }

    fn sync_data(&mut self) -> io::Result<()> {
        self.opened()?.sync_data()
    }

    fn sync_all(&mut self) -> io::Result<()> {
        self.opened()?.sync_all()
    }

    fn open_folder(&mut self, path: &str) -> io::Result<()> {
        let mut folder = fs::canonicalize(self.rt, path)?;
        folder.pop();
        self.folder = Some(File::open(self.rt, folder.as_str())?);
        Ok(())
    }

    fn sync_folder(&mut self) -> io::Result<()> {
        match self.folder.take() {
            Some(folder) => folder.sync_all(),
            None => Err(io::Error::from(ErrorKind::Other)),
        }
    }
}
