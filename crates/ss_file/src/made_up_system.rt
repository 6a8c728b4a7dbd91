// A system in memory, with one file at most. It writes down its calls, and some of them fail, are interrupted or move fewer
// bytes than they were asked for.
ghost use Rattle.std.specs.Prelude.{◌-◌, ◌^◌, ⊤};

use crate::judge::require_some;
use crate::system::{Access, Kind, Lock, Stream, System};
use std::alloc::Global;
use std::io::{self, ErrorKind};

/// The path of the file.
pub const PATH: &str = "folder/any.store";

#[derive(Drop)]
pub struct MadeUpSystem {
    /// What has the path of the file. Every other path is that of a folder.
    pub found: Option<Kind>,
    pub may_be_written: bool,
    /// The standard stream that goes into the file.
    pub stream: Option<Stream>,
    pub bytes: Vec<u8>,
    /// The call that fails, by its name, and how.
    pub failing: &'static str,
    pub error: ErrorKind,
    /// How many bytes a read or a write moves at most, and whether each is interrupted once before.
    pub most: usize,
    pub interrupts: bool,
    pub is_interrupted: bool,
    /// The calls, by their names, and a blank after each.
    pub calls: String,
}

fn name_of(access: Access) -> &'static str {
    match access {
        Access::Write => "write_there",
        Access::Make => "make",
        Access::Read => "open",
    }
}

impl MadeUpSystem {
    /// A system with an empty file, whose calls are all answered.
    pub fn new(alloc: Global) -> MadeUpSystem {
        MadeUpSystem {
            found: Some(Kind::Regular),
            may_be_written: true,
            stream: None,
            bytes: Vec::new(alloc),
            failing: "",
            error: ErrorKind::Other,
            most: 4096,
            interrupts: false,
            is_interrupted: false,
            calls: String::new(alloc),
        }
    }

    /// From now on this call fails, and no other.
    pub fn fail_at(&mut self, name: &'static str, error: ErrorKind) {
        self.failing = name;
        self.error = error;
    }

    // Writes down a call. It fails if it is to.
    fn note(&mut self, name: &str) -> io::Result<()> {
        let _ = self.calls.push_str(name);
        let _ = self.calls.push_str(" ");
        if name == self.failing {
            Err(io::Error::from(self.error))
        } else {
            Ok(())
        }
    }

    // Writes down a call that moves bytes.
    fn note_move(&mut self, name: &str) -> io::Result<()> {
        self.note(name)?;
        self.is_interrupted = self.interrupts && !self.is_interrupted;
        if self.is_interrupted {
            return Err(io::Error::from(ErrorKind::Interrupted));
        }
        Ok(())
    }

    fn kind_found(&self) -> io::Result<Kind> {
        match self.found {
            Some(kind) => Ok(kind),
            None => Err(io::Error::from(ErrorKind::NotFound)),
        }
    }

    fn put(&mut self, place: usize, byte: u8) -> io::Result<()> {
        match self.bytes.get_mut(place) {
            Some(old) => *old = byte,
            None => self.bytes.push(byte)?,
        }
        Ok(())
    }
}

impl System for MadeUpSystem {
    ghost holds = { λ _ _. ⊤ };

    ghost fits = { λ _ _. ⊥ };

    ghost has_written = { λ _ _ _. ⊤ };

    ghost faults = { λ _. 2 ^ 64 - 1 };

    ghost nothing_written = { λ _ _. tt };

    fn kind_of(&mut self, path: &str) -> io::Result<Kind> {
        if path != PATH {
            self.note("folder")?;
            return Ok(Kind::Folder);
        }
        self.note("kind_of")?;
        self.kind_found()
    }

    fn open(&mut self, _path: &str, access: Access) -> io::Result<()> {
        self.note(name_of(access))?;
        if access != Access::Read && !self.may_be_written {
            return Err(io::Error::from(ErrorKind::PermissionDenied));
        }
        if access == Access::Make && self.found.is_none() {
            self.found = Some(Kind::Regular);
        }
        self.kind_found()?;
        Ok(())
    }

    fn stream_into(&mut self) -> io::Result<Option<Stream>> {
        self.note("streams")?;
        Ok(self.stream)
    }

    fn lock(&mut self, how: Lock) -> io::Result<()> {
        match how {
            Lock::Exclusive => self.note("lock"),
            Lock::Shared => self.note("share"),
        }
    }

    fn kind(&mut self) -> io::Result<Kind> {
        self.note("kind")?;
        self.kind_found()
    }

    fn len(&mut self) -> io::Result<u64> {
        self.note("len")?;
        Ok(self.bytes.len() as u64)
    }

    fn read(&mut self, at: u64, into: &mut [u8]) -> io::Result<usize> {
        self.note_move("read")?;
        let at = at as usize;
        if at >= self.bytes.len() {
            return Ok(0);
        }
        let rest = &self.bytes[at..];
        let count = rest.len().min(into.len()).min(self.most);
        into[..count].copy_from_slice(&rest[..count]);
        Ok(count)
    }

    fn write(&mut self, at: u64, bytes: &[u8]) -> io::Result<usize> {
        self.note_move("write")?;
        let count = bytes.len().min(self.most);
        let mut place = at as usize;
        for byte in &bytes[..count] {
            self.put(place, *byte)?;
            place = place.saturating_add(1);
        }
        require_some(Ok(count))
    }

    fn sync_data(&mut self) -> io::Result<()> {
        self.note("sync_data")
    }

    fn sync_all(&mut self) -> io::Result<()> {
        self.note("sync_all")
    }

    fn open_folder(&mut self, _path: &str) -> io::Result<()> {
        self.note("open_folder")
    }

    fn sync_folder(&mut self) -> io::Result<()> {
        self.note("sync_folder")
    }
}
