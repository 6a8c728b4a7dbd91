// The calls of the system that a store's file needs.
ghost use Rattle.std.specs.Prelude.{◌≡◌, ◌<◌, ◌≤◌, ◌+◌, ◌++◌, [], ℕ, List, length, take, slice_index, Ok, Some, IfOk, IfErr, OnOk, OnErr};
ghost use Rattle.std.specs.Prelude.{None};
ghost use Rattle.std.specs.IoError.{error_kind};
ghost use Rattle.std.specs.declared.io.ErrorKind.TheVariants.{NotFound, WouldBlock};
ghost use Rattle.ss_file.specs.System.{Absent, Counts, Found, GoesInto, InUse};
ghost use Rattle.ss_file.specs.System.{Fact, OpenFor, Apart, LockedBy, RegularFile, Synced, Unsyncable, FolderOpen, Durable};
ghost use Rattle.ss_file.specs.System.{KeepsAll, Keeps, lasts_open, lasts_lock, lasts_write, IsUnsyncable};

use std::io;

/// What has a path, or is open.
#[derive(Clone, Copy, Debug, PartialEq, Eq)]
pub enum Kind {
    Regular,
    Folder,
    Pipe,
    Device,
    Socket,
}

/// What a file is opened for: to be read and written, to be made before that where there is none, or to be read alone.
#[derive(Clone, Copy, Debug, PartialEq, Eq)]
pub enum Access {
    Write,
    Make,
    Read,
}

/// Whom a lock keeps away: every other one, or those that write.
#[derive(Clone, Copy, Debug, PartialEq, Eq)]
pub enum Lock {
    Exclusive,
    Shared,
}

/// A standard stream that is written.
#[derive(Clone, Copy, Debug, PartialEq, Eq)]
pub enum Stream {
    Output,
    Error,
}

/// The system, with at most one file open. A call of the open file fails where none is. No lock is waited for.
///
/// The ghost members say which calls were answered, and how. Nothing but these calls leads to them, so whatever is proved over
/// every system and promises one of them has made its call, and was answered.
pub trait System {
    /// What is known by the calls that were answered.
    ghost holds: { Self → Fact → Type 0 };

    /// The open file may hold this image by what was answered since it was opened and written.
    ghost fits: { Self → List ℕ → Type 0 };

    /// These bytes were written from the place on.
    ghost has_written: { Self → ℕ → List ℕ → Type 0 };

    /// How many calls have failed, a number of 64 bits that stands still at its greatest.
    ghost faults: { Self → ℕ };

    /// What has the path, through links.
    fn kind_of(&mut self, path: &str) -> io::Result<Kind>
        ensures finds { IfOk result (λ kind. holds self.new (Found kind)) }
        ensures absent { IfErr result (λ error. error_kind error ≡ NotFound → holds self.new Absent) }
        ensures cause { Counts (faults self.old) (faults self.new) result }
        ensures keeps { KeepsAll (holds self.old) (holds self.new) };

    /// Opens a file in the place of the one that is open.
    fn open(&mut self, path: &str, access: Access) -> io::Result<()>
        ensures opens { OnOk result (holds self.new (OpenFor access)) }
        ensures absent { IfErr result (λ error. error_kind error ≡ NotFound → holds self.new Absent) }
        ensures cause { Counts (faults self.old) (faults self.new) result }
        ensures keeps { Keeps (lasts_open access) (holds self.old) (holds self.new) };

    /// The standard stream that goes into the open file, if one does: standard error where both do.
    fn stream_into(&mut self) -> io::Result<Option<Stream>>
        ensures apart { result ≡ Ok None → holds self.new Apart }
        ensures goes { IfOk result (λ found. (stream : Stream) → found ≡ Some stream → holds self.new (GoesInto stream)) }
        ensures cause { Counts (faults self.old) (faults self.new) result }
        ensures keeps { KeepsAll (holds self.old) (holds self.new) };

    /// Locks the open file. `WouldBlock` says that another opening has a lock that keeps this one away.
    fn lock(&mut self, how: Lock) -> io::Result<()>
        ensures locks { OnOk result (holds self.new (LockedBy how)) }
        ensures in_use { IfErr result (λ error. error_kind error ≡ WouldBlock → holds self.new InUse) }
        ensures cause { Counts (faults self.old) (faults self.new) result }
        ensures keeps { Keeps lasts_lock (holds self.old) (holds self.new) };

    /// What is open.
    fn kind(&mut self) -> io::Result<Kind>
        ensures regular { result ≡ Ok Kind.Regular → holds self.new RegularFile }
        ensures finds { IfOk result (λ kind. holds self.new (Found kind)) }
        ensures cause { Counts (faults self.old) (faults self.new) result }
        ensures keeps { KeepsAll (holds self.old) (holds self.new) };

    /// How many bytes the open file has.
    fn len(&mut self) -> io::Result<u64>
        ensures measures { IfOk result (λ answer. (image : List ℕ) → fits self.new image → answer ≡ length image) }
        ensures fits { (image : List ℕ) → fits self.new image → fits self.old image }
        ensures cause { Counts (faults self.old) (faults self.new) result }
        ensures keeps { KeepsAll (holds self.old) (holds self.new) };

    /// Moves bytes from a place on to the front of the buffer, and answers how many. 0 says that none is there.
    fn read(&mut self, at: u64, into: &mut [u8]) -> io::Result<usize>
        ensures bound { IfOk result (λ count. count ≤ length into.old) }
        ensures reads { IfOk result (λ count. (image : List ℕ) → fits self.new image →
            (k : ℕ) → k < count → slice_index into.new k ≡ slice_index image (at + k)) }
        ensures ends { 0 < length into.old → result ≡ Ok 0 →
            (image : List ℕ) → fits self.new image → length image ≤ at }
        ensures fits { (image : List ℕ) → fits self.new image → fits self.old image }
        ensures cause { Counts (faults self.old) (faults self.new) result }
        ensures keeps { KeepsAll (holds self.old) (holds self.new) };

    /// Writes at least one byte from the front of the buffer to a place, and answers how many.
    fn write(&mut self, at: u64, bytes: &[u8]) -> io::Result<usize>
        requires { 0 < length bytes.now }
        ensures bound { IfOk result (λ count. (0 < count) × (count ≤ length bytes.now)) }
        ensures writes { IfOk result (λ count. (start : ℕ) (front : List ℕ) → at ≡ start + length front →
            has_written self.old start front → has_written self.new start (front ++ take count bytes.now)) }
        ensures fails { OnErr result
            ((start : ℕ) (front : List ℕ) → has_written self.old start front → has_written self.new start front) }
        ensures cause { Counts (faults self.old) (faults self.new) result }
        ensures keeps { Keeps lasts_write (holds self.old) (holds self.new) };

    /// Makes durable what the open file holds, its length too.
    fn sync_data(&mut self) -> io::Result<()>
        ensures synced { OnOk result (holds self.new Synced) }
        ensures cause { Counts (faults self.old) (faults self.new) result }
        ensures keeps { KeepsAll (holds self.old) (holds self.new) };

    /// The same, with all else that the system keeps of the file.
    fn sync_all(&mut self) -> io::Result<()>
        ensures synced { OnOk result (holds self.new Synced) }
        ensures refused { IfErr result (λ error. IsUnsyncable error → holds self.new Unsyncable) }
        ensures cause { Counts (faults self.old) (faults self.new) result }
        ensures keeps { KeepsAll (holds self.old) (holds self.new) };

    /// Opens the folder where the file really lies.
    fn open_folder(&mut self, path: &str) -> io::Result<()>
        ensures opens { OnOk result (holds self.new FolderOpen) }
        ensures cause { Counts (faults self.old) (faults self.new) result }
        ensures keeps { KeepsAll (holds self.old) (holds self.new) };

    /// Makes the file's name durable, in its folder, which is open.
    fn sync_folder(&mut self) -> io::Result<()>
        ensures durable { OnOk result (holds self.old FolderOpen → holds self.old Synced → holds self.new Durable) }
        ensures cause { Counts (faults self.old) (faults self.new) result }
        ensures keeps { KeepsAll (holds self.old) (holds self.new) };

    /// To write no bytes no call is needed.
    ghost nothing_written: { (system : Self) (at : ℕ) → has_written system at [] };
}
