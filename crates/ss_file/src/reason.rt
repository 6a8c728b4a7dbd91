// Why the file of a store can't be used.
ghost use Rattle.std.specs.Prelude.{◌≡◌, Some};
ghost use Rattle.ss_file.specs.Reason.{own};

use crate::system::{Kind, Stream};
use std::io::{self, ErrorKind};

/// What is wrong with the file.
#[derive(Clone, Copy, Debug)]
pub enum Trouble {
    NoName,
    Irregular(Kind),
    Stream(Stream),
    InUse,
    NoFolder,
    NotReadable,
    NotMakeable,
    ReadOnly,
    ReadOnlyWithWork,
    Foreign,
    Full,
    NotOpened,
    NotLocked,
    FolderNotOpened,
    NotRead,
    NotWritten,
    NotSynced,
    NoFile,
    NotChecked,
    FailedBefore,
}

impl Trouble {
    /// The same in words that follow the file's name, but for `NoName`, which stand for themselves.
    pub fn words(self) -> &'static str {
        match self {
            Trouble::NoName => "the store has no name",
            Trouble::Irregular(kind) => irregular(kind),
            Trouble::Stream(stream) => goes_into(stream),
            Trouble::InUse => "another process uses it",
            Trouble::NoFolder => "no such folder",
            Trouble::NotReadable => "may not be read",
            Trouble::NotMakeable => "may not be made",
            Trouble::ReadOnly => "may only be read",
            Trouble::ReadOnlyWithWork => READ_ONLY_WITH_WORK,
            Trouble::Foreign => "isn't formatted, but holds something: refused, and left as it was",
            Trouble::Full => "no space left on the device",
            Trouble::NotOpened => "can't be opened",
            Trouble::NotLocked => "can't be locked",
            Trouble::FolderNotOpened => "its folder can't be opened",
            Trouble::NotRead => "a read failed",
            Trouble::NotWritten => "a write failed",
            Trouble::NotSynced => "a sync failed",
            Trouble::NoFile => "no such file",
            Trouble::NotChecked => "the store is plain, and --checked wants a checked one",
            Trouble::FailedBefore => "failed before",
        }
    }
}

const READ_ONLY_WITH_WORK: &str =
    "may only be read, and an earlier run left work to do in it: run it once where it can be written";

fn goes_into(stream: Stream) -> &'static str {
    match stream {
        Stream::Output => "standard output goes into it",
        Stream::Error => "standard error goes into it",
    }
}

fn irregular(kind: Kind) -> &'static str {
    match kind {
        Kind::Regular => "is a file",
        Kind::Folder => "is a folder",
        Kind::Pipe => "is a pipe",
        Kind::Device => "is a device",
        Kind::Socket => "is a socket",
    }
}

/// Why a call failed, with the error of the system where the system refused it.
#[derive(Clone, Copy)]
pub struct Reason {
    pub trouble: Trouble,
    pub error: Option<io::Error>,
}

impl Reason {
    /// A reason that the system didn't give.
    pub fn own(trouble: Trouble) -> Reason
        ensures { result ≡ own trouble }
    {
        Reason {
            trouble,
            error: None,
        }
    }

    /// The reason of an error: this one, unless the device is full.
    pub fn of(error: io::Error, trouble: Trouble) -> Reason
        ensures { result.error ≡ Some error }
    {
        let trouble = match error.kind() {
            ErrorKind::StorageFull | ErrorKind::QuotaExceeded => Trouble::Full,
            _ => trouble,
        };
        Reason {
            trouble,
            error: Some(error),
        }
    }
}
