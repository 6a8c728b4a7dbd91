// How the file of a store is opened.
ghost use Rattle.std.specs.Prelude.{◌≡◌, ◌⊎◌, ◌↔◌, ◌≤◌, ℕ, List, Ok, None, Some, true, false, IsTrue, IsErr, IsSome, IfErr, IfOk, OnErr, OnOk};
ghost use Rattle.ss_outside.specs.Verdict.{Rose};
ghost use Rattle.ss_file.specs.Opening.{IsHeldAs, IsLocked, IsLockedAs, IsNative, IsSettledAs, MayHold, StaysUnmade};
ghost use Rattle.ss_file.specs.Reason.{IsOwn};
ghost use Rattle.ss_file.specs.System.{Absent};
ghost use Rattle.ss_file.specs.System.{Apart, Durable, IsUnsyncable, Keeps, KeepsAll, LockedBy, Synced, Unmade, Unsyncable, Unwritten};
ghost use Rattle.ss_file.specs.System.{lasts_lock, lasts_open};

use crate::foreign::is_foreign;
use crate::reason::{Reason, Trouble};
use crate::system::{Access, Kind, Lock, System};
use std::io::{self, ErrorKind};
use std::path::Path;

/// What is done where there is no file. `Make` makes one, and none of the others does. `Fail` opens none. `ReadEmpty` reads it as
/// an empty one. `ReadFail` opens none either, and reads one that is there alone, as `ReadEmpty` does.
#[derive(Clone, Copy, Debug, PartialEq, Eq)]
pub enum Missing {
    Make,
    Fail,
    ReadEmpty,
    ReadFail,
}

/// What stands behind a disk: no file, one that may only be read, one that may be written, or one that was made here.
#[derive(Clone, Copy, Debug, PartialEq, Eq)]
pub enum Opened {
    Nothing,
    ReadOnly,
    Writable,
    Made,
}

// Fails where this isn't a regular file.
fn require_regular(found: io::Result<Kind>) -> Result<(), Reason>
    ensures regular { OnOk result (found ≡ Ok Kind.Regular) }
    ensures blames { IfErr result (λ reason. IsSome reason.error → IsErr found) }
    ensures own { IfErr result (λ reason. reason.error ≡ None →
        (kind : Kind) × (found ≡ Ok kind) × (reason.trouble ≡ Trouble.Irregular kind) × (kind ≡ Kind.Regular → ⊥)) }
{
    match found {
        Ok(Kind::Regular) => Ok(()),
        Ok(kind) => Err(Reason::own(Trouble::Irregular(kind))),
        Err(error) => Err(Reason::of(error, refusal(&error))),
    }
}

// What keeps a file from being looked at or opened.
fn refusal(error: &io::Error) -> Trouble {
    match error.kind() {
        ErrorKind::NotFound | ErrorKind::NotADirectory => Trouble::NoFolder,
        ErrorKind::PermissionDenied => Trouble::NotReadable,
        _ => Trouble::NotOpened,
    }
}

// Whether an error says that a file may not be written.
fn is_read_only(error: &io::Error) -> bool {
    match error.kind() {
        ErrorKind::PermissionDenied | ErrorKind::ReadOnlyFilesystem => true,
        _ => false,
    }
}

// Whether an error says that nothing can be synced here.
fn is_unsyncable(error: &io::Error) -> bool
    ensures { IsTrue result ↔ IsUnsyncable error.now }
{
    match error.kind() {
        ErrorKind::InvalidInput | ErrorKind::ReadOnlyFilesystem => true,
        _ => false,
    }
}

// Fails where the folder that the file would lie in is missing.
fn require_folder<S: System>(system: &mut S, path: &str) -> Result<(), Reason>
    ensures keeps { KeepsAll (S.holds system.old) (S.holds system.new) }
    ensures counts { S.faults system.old ≤ S.faults system.new }
    ensures blames { IfErr result (λ reason. IsSome reason.error → Rose (S.faults system.old) (S.faults system.new)) }
    ensures own { (path : List ℕ) → IfErr result (λ reason. reason.error ≡ None →
        IsOwn path None (S.holds system.new) (S.fits system.new) reason.trouble) }
{
    let folder = match Path::new(path).parent() {
        Some(folder) => folder.to_string_lossy(),
        None => "/",
    };
    let folder = if folder.is_empty() { "." } else { folder };
    match system.kind_of(folder) {
        Ok(_) => Ok(()),
        Err(error) => Err(Reason::of(error, refusal(&error))),
    }
}

// Fails where a standard stream goes into the open file.
fn require_apart<S: System>(system: &mut S) -> Result<(), Reason>
    ensures apart { OnOk result (S.holds system.new Apart) }
    ensures keeps { KeepsAll (S.holds system.old) (S.holds system.new) }
    ensures counts { S.faults system.old ≤ S.faults system.new }
    ensures blames { IfErr result (λ reason. IsSome reason.error → Rose (S.faults system.old) (S.faults system.new)) }
    ensures own { (path : List ℕ) → IfErr result (λ reason. reason.error ≡ None →
        IsOwn path None (S.holds system.new) (S.fits system.new) reason.trouble) }
{
    match system.stream_into() {
        Ok(None) => Ok(()),
        Ok(Some(stream)) => Err(Reason::own(Trouble::Stream(stream))),
        Err(error) => Err(Reason::of(error, Trouble::NotOpened)),
    }
}

// Locks the open file, and doesn't wait for it.
fn lock<S: System>(system: &mut S, how: Lock) -> Result<(), Reason>
    ensures locks { OnOk result (S.holds system.new (LockedBy how)) }
    ensures keeps { Keeps lasts_lock (S.holds system.old) (S.holds system.new) }
    ensures counts { S.faults system.old ≤ S.faults system.new }
    ensures blames { IfErr result (λ reason. IsSome reason.error → Rose (S.faults system.old) (S.faults system.new)) }
    ensures own { (path : List ℕ) → IfErr result (λ reason. reason.error ≡ None →
        IsOwn path None (S.holds system.new) (S.fits system.new) reason.trouble) }
{
    match system.lock(how) {
        Ok(()) => Ok(()),
        Err(error) if error.kind() == ErrorKind::WouldBlock => Err(Reason::own(Trouble::InUse)),
        Err(error) => Err(Reason::of(error, Trouble::NotLocked)),
    }
}

// Why there is no file: none was to be made, or making it failed.
fn no_file(unmade: Option<io::Error>) -> Reason
    ensures error { result.error ≡ unmade }
    ensures own { unmade ≡ None → result.trouble ≡ Trouble.NoFile }
{
    match unmade {
        None => Reason::own(Trouble::NoFile),
        Some(error) => Reason::of(error, Trouble::NotMakeable),
    }
}

// Opens a file to be read alone, and locks it against those that write. Where there is none, it may be one that couldn't be made.
fn open_to_read<S: System>(
    system: &mut S,
    path: &str,
    unmade: Option<io::Error>,
) -> Result<Opened, Reason>
    ensures read_only { IfOk result (λ opened. opened ≡ Opened.ReadOnly) }
    ensures locked { OnOk result (IsLocked Access.Read Lock.Shared (S.holds system.new)) }
    ensures apart { OnOk result (S.holds system.new Apart) }
    ensures unmade { S.holds system.old Unmade → S.holds system.new Unmade }
    ensures unwritten { S.holds system.old Unwritten → S.holds system.new Unwritten }
    ensures counts { S.faults system.old ≤ S.faults system.new }
    ensures blames { IfErr result (λ reason. IsSome reason.error → Rose (S.faults system.old) (S.faults system.new)) }
    ensures own { IfErr result (λ reason. reason.error ≡ None →
        IsOwn path.now None (S.holds system.new) (S.fits system.new) reason.trouble) }
{
    match system.open(path, Access::Read) {
        Ok(()) => {}
        Err(error) if error.kind() == ErrorKind::NotFound => return Err(no_file(unmade)),
        Err(error) => return Err(Reason::of(error, refusal(&error))),
    }
    require_apart(system)?;
    lock(system, Lock::Shared)?;
    Ok(Opened::ReadOnly)
}

// Opens the file to be written, makes it where it is missing, and locks it against every other opening. One that may only be
// read is opened so.
fn open_to_write<S: System>(system: &mut S, path: &str, is_there: bool) -> Result<Opened, Reason>
    ensures locked { IfOk result (λ opened. IsLockedAs Missing.Make opened (S.holds system.new)) }
    ensures apart { OnOk result (S.holds system.new Apart) }
    ensures unwritten { S.holds system.old Unwritten → S.holds system.new Unwritten }
    ensures counts { S.faults system.old ≤ S.faults system.new }
    ensures blames { IfErr result (λ reason. IsSome reason.error → Rose (S.faults system.old) (S.faults system.new)) }
    ensures own { IfErr result (λ reason. reason.error ≡ None →
        IsOwn path.now None (S.holds system.new) (S.fits system.new) reason.trouble) }
{
    match system.open(path, Access::Make) {
        Ok(()) => {}
        Err(error) if is_read_only(&error) => {
            return open_to_read(system, path, Some(error));
        }
        Err(error) => return Err(Reason::of(error, refusal(&error))),
    }
    require_apart(system)?;
    lock(system, Lock::Exclusive)?;
    Ok(if is_there {
        Opened::Writable
    } else {
        Opened::Made
    })
}

// Opens the file that is there to be written, and locks it against every other opening. One that may only be read is opened so.
fn open_there<S: System>(system: &mut S, path: &str) -> Result<Opened, Reason>
    ensures locked { IfOk result (λ opened. IsLockedAs Missing.Fail opened (S.holds system.new)) }
    ensures apart { OnOk result (S.holds system.new Apart) }
    ensures unmade { S.holds system.old Unmade → S.holds system.new Unmade }
    ensures unwritten { S.holds system.old Unwritten → S.holds system.new Unwritten }
    ensures counts { S.faults system.old ≤ S.faults system.new }
    ensures blames { IfErr result (λ reason. IsSome reason.error → Rose (S.faults system.old) (S.faults system.new)) }
    ensures own { IfErr result (λ reason. reason.error ≡ None →
        IsOwn path.now None (S.holds system.new) (S.fits system.new) reason.trouble) }
{
    match system.open(path, Access::Write) {
        Ok(()) => {}
        Err(error) if error.kind() == ErrorKind::NotFound => return Err(Reason::own(
            Trouble::NoFile,
        )),
        Err(error) if is_read_only(&error) => {
            return open_to_read(system, path, None);
        }
        Err(error) => return Err(Reason::of(error, refusal(&error))),
    }
    require_apart(system)?;
    lock(system, Lock::Exclusive)?;
    Ok(Opened::Writable)
}

// Opens the file and locks it. A check only reads it.
fn open_locked<S: System>(
    system: &mut S,
    path: &str,
    missing: Missing,
    is_there: bool,
) -> Result<Opened, Reason>
    ensures locked { IfOk result (λ opened. IsLockedAs missing opened (S.holds system.new)) }
    ensures apart { OnOk result (S.holds system.new Apart) }
    ensures unmade { StaysUnmade missing (S.holds system.old) (S.holds system.new) }
    ensures unwritten { S.holds system.old Unwritten → S.holds system.new Unwritten }
    ensures counts { S.faults system.old ≤ S.faults system.new }
    ensures blames { IfErr result (λ reason. IsSome reason.error → Rose (S.faults system.old) (S.faults system.new)) }
    ensures own { IfErr result (λ reason. reason.error ≡ None →
        IsOwn path.now None (S.holds system.new) (S.fits system.new) reason.trouble) }
{
    match missing {
        Missing::Make => open_to_write(system, path, is_there),
        Missing::Fail => open_there(system, path),
        Missing::ReadEmpty | Missing::ReadFail => open_to_read(system, path, None),
    }
}

// Whether something has the path. It fails where that isn't a regular file: to open a pipe or a device might wait or do
// something.
fn is_there<S: System>(system: &mut S, path: &str) -> Result<bool, Reason>
    ensures keeps { KeepsAll (S.holds system.old) (S.holds system.new) }
    ensures absent { result ≡ Ok false → S.holds system.new Absent }
    ensures counts { S.faults system.old ≤ S.faults system.new }
    ensures blames { IfErr result (λ reason. IsSome reason.error → Rose (S.faults system.old) (S.faults system.new)) }
    ensures own { IfErr result (λ reason. reason.error ≡ None →
        IsOwn path.now None (S.holds system.new) (S.fits system.new) reason.trouble) }
{
    match system.kind_of(path) {
        Err(error) if error.kind() == ErrorKind::NotFound => Ok(false),
        found => {
            require_regular(found)?;
            Ok(true)
        }
    }
}

// Makes durable what an earlier process left of the file, and then its name.
fn make_durable<S: System>(system: &mut S, path: &str) -> Result<(), Reason>
    ensures durable { OnOk result (S.holds system.new Durable) }
    ensures keeps { KeepsAll (S.holds system.old) (S.holds system.new) }
    ensures counts { S.faults system.old ≤ S.faults system.new }
    ensures blames { IfErr result (λ reason. IsSome reason.error → Rose (S.faults system.old) (S.faults system.new)) }
    ensures own { (path : List ℕ) → IfErr result (λ reason. reason.error ≡ None →
        IsOwn path None (S.holds system.new) (S.fits system.new) reason.trouble) }
{
    if let Err(error) = system.sync_all() {
        return Err(Reason::of(error, Trouble::NotSynced));
    }
    if let Err(error) = system.open_folder(path) {
        return Err(Reason::of(error, Trouble::FolderNotOpened));
    }
    match system.sync_folder() {
        Ok(()) => Ok(()),
        Err(error) => Err(Reason::of(error, Trouble::NotSynced)),
    }
}

// Makes durable what an earlier process left of a file that may only be read. It may lie where nothing can be synced.
fn make_durable_where_it_can_be<S: System>(system: &mut S) -> Result<(), Reason>
    ensures synced { OnOk result (S.holds system.new Synced ⊎ S.holds system.new Unsyncable) }
    ensures keeps { KeepsAll (S.holds system.old) (S.holds system.new) }
    ensures counts { S.faults system.old ≤ S.faults system.new }
    ensures blames { IfErr result (λ reason. IsSome reason.error → Rose (S.faults system.old) (S.faults system.new)) }
    ensures own { (path : List ℕ) → IfErr result (λ reason. reason.error ≡ None →
        IsOwn path None (S.holds system.new) (S.fits system.new) reason.trouble) }
{
    match system.sync_all() {
        Ok(()) => Ok(()),
        Err(error) if is_unsyncable(&error) => Ok(()),
        Err(error) => Err(Reason::of(error, Trouble::NotSynced)),
    }
}

// Makes durable what stands open, as far as it can be.
fn settle<S: System>(system: &mut S, path: &str, opened: Opened) -> Result<(), Reason>
    ensures settled { OnOk result (IsSettledAs opened (S.holds system.new)) }
    ensures keeps { KeepsAll (S.holds system.old) (S.holds system.new) }
    ensures counts { S.faults system.old ≤ S.faults system.new }
    ensures blames { IfErr result (λ reason. IsSome reason.error → Rose (S.faults system.old) (S.faults system.new)) }
    ensures own { (path : List ℕ) → IfErr result (λ reason. reason.error ≡ None →
        IsOwn path None (S.holds system.new) (S.fits system.new) reason.trouble) }
{
    match opened {
        Opened::Nothing => Ok(()),
        Opened::ReadOnly => make_durable_where_it_can_be(system),
        Opened::Writable | Opened::Made => make_durable(system, path),
    }
}

// Fails where the file isn't formatted, but holds something.
fn refuse_foreign<S: System>(system: &mut S) -> Result<(), Reason>
    ensures native { OnOk result ((image : List ℕ) → S.fits system.new image → IsNative image) }
    ensures keeps { KeepsAll (S.holds system.old) (S.holds system.new) }
    ensures counts { S.faults system.old ≤ S.faults system.new }
    ensures blames { IfErr result (λ reason. IsSome reason.error → Rose (S.faults system.old) (S.faults system.new)) }
    ensures own { (path : List ℕ) → IfErr result (λ reason. reason.error ≡ None →
        IsOwn path None (S.holds system.new) (S.fits system.new) reason.trouble) }
{
    match is_foreign(system) {
        Ok(false) => Ok(()),
        Ok(true) => Err(Reason::own(Trouble::Foreign)),
        Err(error) => Err(Reason::of(error, Trouble::NotRead)),
    }
}

/// Opens the file of a store. Nothing is read before its bytes and its name are durable, and nothing is written. It fails
/// where there is no file and one has to be there, where something else has the path, where a standard stream goes into the
/// file, where another opening keeps it away, and where the file isn't formatted, but holds something.
pub fn open<S: System>(system: &mut S, path: &str, missing: Missing) -> Result<Opened, Reason>
    ensures held { IfOk result (λ opened. IsHeldAs missing opened (S.holds system.new)) }
    ensures settled { IfOk result (λ opened. IsSettledAs opened (S.holds system.new)) }
    ensures native { IfOk result (λ opened.
        (image : List ℕ) → MayHold (Some opened) (S.fits system.new) image → IsNative image) }
    ensures unopened { result ≡ Ok Opened.Nothing → KeepsAll (S.holds system.old) (S.holds system.new) }
    ensures unmade { StaysUnmade missing (S.holds system.old) (S.holds system.new) }
    ensures unwritten { S.holds system.old Unwritten → S.holds system.new Unwritten }
    ensures counts { S.faults system.old ≤ S.faults system.new }
    ensures blames { IfErr result (λ reason. IsSome reason.error → Rose (S.faults system.old) (S.faults system.new)) }
    ensures own { IfErr result (λ reason. reason.error ≡ None →
        IsOwn path.now None (S.holds system.new) (S.fits system.new) reason.trouble) }
{
    if path.is_empty() {
        return Err(Reason::own(Trouble::NoName));
    }
    let is_there = is_there(system, path)?;
    if !is_there && missing != Missing::Make {
        require_folder(system, path)?;
        return if missing == Missing::ReadEmpty {
            Ok(Opened::Nothing)
        } else {
            Err(Reason::own(Trouble::NoFile))
        };
    }
    let opened = open_locked(system, path, missing, is_there)?;
    require_regular(system.kind())?;
    settle(system, path, opened)?;
    refuse_foreign(system)?;
    Ok(opened)
}
