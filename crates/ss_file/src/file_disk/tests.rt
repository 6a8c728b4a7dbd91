// The disk over a system that is made up, and once over a file.
use super::FileDisk;
use crate::host_system::HostSystem;
use crate::made_up_system::{MadeUpSystem, PATH};
use crate::opening::Missing;
use crate::system::{Kind, Stream};
use ss_outside::Disk;
use std::alloc::{AllocError, Global};
use std::fs;
use std::io::ErrorKind;
use std::test::Fail;

// What the words of a table stand for.
fn kind_named(word: &str) -> Option<Kind> {
    match word {
        "file" | "read-only" | "output" | "error" => Some(Kind::Regular),
        "folder" => Some(Kind::Folder),
        "pipe" => Some(Kind::Pipe),
        "device" => Some(Kind::Device),
        "socket" => Some(Kind::Socket),
        _ => None,
    }
}

fn stream_named(word: &str) -> Option<Stream> {
    match word {
        "output" => Some(Stream::Output),
        "error" => Some(Stream::Error),
        _ => None,
    }
}

// A system with this at the path, of which a call fails.
fn system_of(alloc: Global, found: &str, failing: &'static str, error: &str) -> MadeUpSystem {
    let mut system = MadeUpSystem::new(alloc);
    system.found = kind_named(found);
    system.stream = stream_named(found);
    system.may_be_written = found != "read-only";
    system.fail_at(failing, error_named(error));
    system
}

fn disk_over(
    alloc: Global,
    found: &str,
    failing: &'static str,
    error: &str,
    missing: Missing,
) -> Result<FileDisk<MadeUpSystem>, AllocError> {
    let path = String::from_str(alloc, PATH)?;
    Ok(FileDisk::new(system_of(alloc, found, failing, error), path, missing))
}

// Whether these are the calls so far, and these words say why one failed, none where none did.
fn has(disk: &FileDisk<MadeUpSystem>, calls: &str, words: &str) -> bool {
    let why = match disk.why() {
        Some(reason) => reason.trouble.words(),
        None => "",
    };
    disk.system.calls.as_str() == calls && why == words
}

// Whether every call fails.
fn has_ended<D: Disk>(disk: &mut D) -> bool {
    disk.len().is_err()
        && disk.read_at(0, &mut [0]).is_err()
        && disk.write_at(0, b"a").is_err()
        && disk.sync().is_err()
}

// Whether the length can be asked for, or no call of the disk can be made.
fn opens_or_ends<D: Disk>(disk: &mut D) -> bool {
    disk.len().is_ok() || has_ended(disk)
}

fn error_named(word: &str) -> ErrorKind {
    match word {
        "NotFound" => ErrorKind::NotFound,
        "NotADirectory" => ErrorKind::NotADirectory,
        "PermissionDenied" => ErrorKind::PermissionDenied,
        "StorageFull" => ErrorKind::StorageFull,
        "QuotaExceeded" => ErrorKind::QuotaExceeded,
        "WouldBlock" => ErrorKind::WouldBlock,
        "InvalidInput" => ErrorKind::InvalidInput,
        "Interrupted" => ErrorKind::Interrupted,
        _ => ErrorKind::Other,
    }
}

// A row: what has the path, the call that fails, how, the calls that are made, and what is said to be wrong.
#[derive(Clone, Copy)]
struct Row {
    found: &'static str,
    failing: &'static str,
    error: &'static str,
    calls: &'static str,
    words: &'static str,
}

fn row_of(line: &'static str) -> Row {
    let mut parts = line.split(',');
    let found = parts.next();
    let failing = parts.next();
    let error = parts.next();
    let calls = parts.next();
    let words = parts.next();
    Row {
        found: found.unwrap_or(""),
        failing: failing.unwrap_or(""),
        error: error.unwrap_or(""),
        calls: calls.unwrap_or(""),
        words: words.unwrap_or(""),
    }
}

const OPENINGS: &str = "\
none,,,kind_of make streams lock kind sync_all open_folder sync_folder len read len ,
file,,,kind_of make streams lock kind sync_all open_folder sync_folder len read len ,
read-only,,,kind_of make open streams share kind sync_all len read len ,
folder,,,kind_of ,is a folder
pipe,,,kind_of ,is a pipe
device,,,kind_of ,is a device
socket,,,kind_of ,is a socket
none,make,NotFound,kind_of make ,no such folder
none,make,PermissionDenied,kind_of make open ,may not be made
none,make,StorageFull,kind_of make ,no space left on the device
file,kind_of,PermissionDenied,kind_of ,may not be read
file,kind_of,NotADirectory,kind_of ,no such folder
file,make,Other,kind_of make ,can't be opened
read-only,open,PermissionDenied,kind_of make open ,may not be read
output,,,kind_of make streams ,standard output goes into it
error,,,kind_of make streams ,standard error goes into it
file,streams,Other,kind_of make streams ,can't be opened
file,lock,WouldBlock,kind_of make streams lock ,another process uses it
read-only,share,WouldBlock,kind_of make open streams share ,another process uses it
file,lock,Other,kind_of make streams lock ,can't be locked
file,sync_all,InvalidInput,kind_of make streams lock kind sync_all ,a sync failed
read-only,sync_all,InvalidInput,kind_of make open streams share kind sync_all len read len ,
read-only,sync_all,Other,kind_of make open streams share kind sync_all ,a sync failed
file,open_folder,PermissionDenied,kind_of make streams lock kind sync_all open_folder ,its folder can't be opened
file,sync_folder,Other,kind_of make streams lock kind sync_all open_folder sync_folder ,a sync failed
file,len,Other,kind_of make streams lock kind sync_all open_folder sync_folder len ,a read failed
file,read,Other,kind_of make streams lock kind sync_all open_folder sync_folder len read ,a read failed
";

// The same where no file is made: it is only read.
const LOOKS: &str = "\
none,,,kind_of folder ,
none,folder,NotFound,kind_of folder ,no such folder
file,,,kind_of open streams share kind sync_all len read len ,
read-only,,,kind_of open streams share kind sync_all len read len ,
output,,,kind_of open streams ,standard output goes into it
file,share,WouldBlock,kind_of open streams share ,another process uses it
";

// The same where it has to be there: none is made.
const EXISTING: &str = "\
none,,,kind_of folder ,no such file
none,folder,NotFound,kind_of folder ,no such folder
file,,,kind_of write_there streams lock kind sync_all open_folder sync_folder len read len ,
read-only,,,kind_of write_there open streams share kind sync_all len read len ,
folder,,,kind_of ,is a folder
file,write_there,NotFound,kind_of write_there ,no such file
file,write_there,Other,kind_of write_there ,can't be opened
file,lock,WouldBlock,kind_of write_there streams lock ,another process uses it
output,,,kind_of write_there streams ,standard output goes into it
";

// The same of one that is only read.
const EXISTING_LOOKS: &str = "\
none,,,kind_of folder ,no such file
none,folder,NotFound,kind_of folder ,no such folder
file,,,kind_of open streams share kind sync_all len read len ,
file,share,WouldBlock,kind_of open streams share ,another process uses it
";

fn opens_as(alloc: Global, line: &'static str, missing: Missing) -> Result<bool, AllocError> {
    let row = row_of(line);
    let mut disk = disk_over(alloc, row.found, row.failing, row.error, missing)?;
    Ok(opens_or_ends(&mut disk) && has(&disk, row.calls, row.words))
}

// Whether a file is opened as each row says.
fn all_open(alloc: Global, rows: &'static str, missing: Missing) -> Result<bool, AllocError> {
    for line in rows.lines() {
        if !opens_as(alloc, line, missing)? {
            return Ok(false);
        }
    }
    Ok(true)
}

#[test]
fn a_file_is_durable_before_it_is_read(rt: HostRuntime) -> Result<(), Fail> {
    assert!(rt; all_open(rt.alloc(), OPENINGS, Missing::Make)?);
    Ok(())
}

#[test]
fn a_look_makes_no_file(rt: HostRuntime) -> Result<(), Fail> {
    assert!(rt; all_open(rt.alloc(), LOOKS, Missing::ReadEmpty)?);
    Ok(())
}

#[test]
fn a_store_that_has_to_be_there_is_not_made(rt: HostRuntime) -> Result<(), Fail> {
    assert!(rt; all_open(rt.alloc(), EXISTING, Missing::Fail)?);
    assert!(rt; all_open(rt.alloc(), EXISTING_LOOKS, Missing::ReadFail)?);
    Ok(())
}

// Whether a disk is an empty one, which takes nothing.
fn is_empty<D: Disk>(disk: &mut D) -> bool {
    disk.len() == Ok(0) && holds(disk, 0, [0; 4]) && disk.write_at(0, b"a").is_err()
}

// Whether a disk over no file is an empty one.
fn is_nothing(alloc: Global) -> Result<bool, AllocError> {
    let mut disk = disk_over(alloc, "none", "", "", Missing::ReadEmpty)?;
    Ok(is_empty(&mut disk) && has(&disk, "kind_of folder ", "no such file"))
}

#[test]
fn no_file_is_an_empty_one(rt: HostRuntime) -> Result<(), Fail> {
    assert!(rt; is_nothing(rt.alloc())?);
    Ok(())
}

// Opens the file, and forgets the calls so far.
fn open_first(disk: &mut FileDisk<MadeUpSystem>) {
    let _ = disk.len();
    disk.system.calls.clear();
}

// An open file is asked to take a write, a read, for its length and to sync.
const LATER: &str = "\
file,,,write read len sync_data ,
file,write,StorageFull,write ,no space left on the device
file,write,QuotaExceeded,write ,no space left on the device
file,write,Other,write ,a write failed
file,read,Other,write read ,a read failed
file,len,Other,write read len ,a read failed
file,sync_data,Other,write read len sync_data ,a sync failed
file,sync_data,Interrupted,write read len sync_data ,a sync failed
";

fn does_each_call<D: Disk>(disk: &mut D) -> bool {
    disk.write_at(0, b"a").is_ok()
        && disk.read_at(0, &mut [0]).is_ok()
        && disk.len() == Ok(1)
        && disk.sync().is_ok()
}

// Whether the calls of an open file end as the row says.
fn end_as(disk: &mut FileDisk<MadeUpSystem>, row: Row) -> bool {
    open_first(disk);
    disk.system.fail_at(row.failing, error_named(row.error));
    (does_each_call(disk) || has_ended(disk)) && has(disk, row.calls, row.words)
}

fn ends_as(alloc: Global, line: &'static str) -> Result<bool, AllocError> {
    let row = row_of(line);
    let mut disk = disk_over(alloc, row.found, "", "", Missing::Make)?;
    Ok(end_as(&mut disk, row))
}

fn all_end(alloc: Global) -> Result<bool, AllocError> {
    for line in LATER.lines() {
        if !ends_as(alloc, line)? {
            return Ok(false);
        }
    }
    Ok(true)
}

#[test]
fn a_call_that_fails_is_the_last(rt: HostRuntime) -> Result<(), Fail> {
    assert!(rt; all_end(rt.alloc())?);
    Ok(())
}

// What has the path, the call that fails, how, and whether the reason has an error of the system.
const REASONS: [(&str, &str, &str, bool); 10] = [
    ("folder", "", "", false),
    ("output", "", "", false),
    ("file", "lock", "WouldBlock", false),
    ("file", "lock", "Other", true),
    ("file", "kind_of", "Other", true),
    ("none", "make", "NotFound", true),
    ("file", "open_folder", "Other", true),
    ("file", "sync_folder", "Other", true),
    ("file", "len", "Other", true),
    ("file", "read", "Other", true),
];

// Whether a call has failed, and its reason has an error of the system exactly where it is to.
fn is_blamed(disk: &FileDisk<MadeUpSystem>, has_error: bool) -> bool {
    match disk.why() {
        Some(reason) => reason.error.is_some() == has_error,
        None => false,
    }
}

fn fails_by(
    alloc: Global,
    found: &str,
    failing: &'static str,
    error: &str,
    has_error: bool,
) -> Result<bool, AllocError> {
    let mut disk = disk_over(alloc, found, failing, error, Missing::Make)?;
    Ok(disk.len().is_err() && is_blamed(&disk, has_error))
}

fn all_fail_by(alloc: Global) -> Result<bool, AllocError> {
    for (found, failing, error, has_error) in &REASONS {
        if !fails_by(alloc, *found, *failing, *error, *has_error)? {
            return Ok(false);
        }
    }
    Ok(true)
}

// Whether a write fails for a reason of the store's own where the file may only be read, and by an error of the system where
// that moves nothing.
fn write_fails_by(alloc: Global, found: &str, has_error: bool) -> Result<bool, AllocError> {
    let mut disk = disk_over(alloc, found, "", "", Missing::Make)?;
    disk.system.most = 0;
    Ok(disk.write_at(0, b"a").is_err() && is_blamed(&disk, has_error))
}

#[test]
fn a_call_fails_for_a_reason(rt: HostRuntime) -> Result<(), Fail> {
    let alloc = rt.alloc();
    assert!(rt; all_fail_by(alloc)?);
    assert!(rt; write_fails_by(alloc, "read-only", false)? && write_fails_by(alloc, "file", true)?);
    Ok(())
}

// Whether a disk holds these four bytes at a place.
fn holds<D: Disk>(disk: &mut D, at: u64, bytes: [u8; 4]) -> bool {
    let mut buffer = [7; 4];
    disk.read_at(at, &mut buffer).is_ok() && buffer == bytes
}

// How many bytes a call moves at most, whether each is interrupted once before, and the calls of a write of six bytes and
// of a read of the last two and of two that aren't there.
const MOVES: [(usize, bool, &str); 4] = [
    (4096, false, "write read read "),
    (4, false, "write write read read "),
    (
        1,
        false,
        "write write write write write write read read read ",
    ),
    (4096, true, "write write read read read read "),
];

// Whether six bytes are moved by these calls.
fn move_as(disk: &mut FileDisk<MadeUpSystem>, most: usize, interrupts: bool, calls: &str) -> bool {
    open_first(disk);
    disk.system.most = most;
    disk.system.interrupts = interrupts;
    disk.write_at(0, b"abcdef").is_ok()
        && holds(disk, 4, *b"ef\0\0")
        && disk.system.bytes.as_slice() == b"abcdef".as_slice()
        && has(disk, calls, "")
}

fn moves_as(alloc: Global, most: usize, interrupts: bool, calls: &str) -> Result<bool, AllocError> {
    let mut disk = disk_over(alloc, "file", "", "", Missing::Make)?;
    Ok(move_as(&mut disk, most, interrupts, calls))
}

fn all_move(alloc: Global) -> Result<bool, AllocError> {
    for (most, interrupts, calls) in &MOVES {
        if !moves_as(alloc, *most, *interrupts, calls)? {
            return Ok(false);
        }
    }
    Ok(true)
}

#[test]
fn what_is_moved_in_parts_is_whole(rt: HostRuntime) -> Result<(), Fail> {
    assert!(rt; all_move(rt.alloc())?);
    Ok(())
}

const WORK: &str =
    "may only be read, and an earlier run left work to do in it: run it once where it can be written";

// Where a file that may only be read is written, and what is said to be wrong.
const UNWRITTEN: [(u32, &str); 9] = [
    (0, "may only be read"),
    (9, "may only be read"),
    (512, WORK),
    (513, "may only be read"),
    (1056, WORK),
    (1057, "may only be read"),
    (35327, "may only be read"),
    (36864, WORK),
    (36993, WORK),
];

// Whether a file that may only be read is left as it is, and these words say so.
fn stay_unwritten(disk: &mut FileDisk<MadeUpSystem>, at: u32, words: &str) -> bool {
    open_first(disk);
    disk.write_at(u64::from(at), b"a").is_err() && has(disk, "", words)
}

fn stays_unwritten(alloc: Global, at: u32, words: &str) -> Result<bool, AllocError> {
    let mut disk = disk_over(alloc, "read-only", "", "", Missing::Make)?;
    Ok(stay_unwritten(&mut disk, at, words))
}

fn all_stay_unwritten(alloc: Global) -> Result<bool, AllocError> {
    for (at, words) in &UNWRITTEN {
        if !stays_unwritten(alloc, *at, words)? {
            return Ok(false);
        }
    }
    Ok(true)
}

#[test]
fn what_may_only_be_read_is_not_written(rt: HostRuntime) -> Result<(), Fail> {
    assert!(rt; all_stay_unwritten(rt.alloc())?);
    Ok(())
}

fn disk_of<'a>(
    rt: &'a HostRuntime,
    path: &str,
) -> Result<FileDisk<HostSystem<'a, HostRuntime>>, AllocError> {
    let path = String::from_str(rt.alloc(), path)?;
    Ok(FileDisk::new(HostSystem::new(rt), path, Missing::Make))
}

// Whether a disk that is empty takes two writes and a sync, and has five bytes then.
fn takes_writes<D: Disk>(disk: &mut D) -> bool {
    disk.len() == Ok(0)
        && disk.write_at(0, b"abcd").is_ok()
        && disk.write_at(3, b"XY").is_ok()
        && disk.sync().is_ok()
        && disk.len() == Ok(5)
        && holds(disk, 3, *b"XY\0\0")
}

// Whether a disk on a file works, and another on it fails meanwhile.
fn works_alone<D: Disk>(rt: &HostRuntime, path: &str, second: &mut D) -> Result<bool, AllocError> {
    let mut disk = disk_of(rt, path)?;
    Ok(takes_writes(&mut disk) && has_ended(second))
}

// The same, and that the other goes on failing when the file is free.
fn is_taken_once(rt: &HostRuntime, path: &str) -> Result<bool, AllocError> {
    let mut second = disk_of(rt, path)?;
    Ok(works_alone(rt, path, &mut second).unwrap_or(false) && has_ended(&mut second))
}

fn is_kept(rt: &HostRuntime, path: &str) -> Result<bool, AllocError> {
    let mut disk = disk_of(rt, path)?;
    Ok(holds(&mut disk, 0, *b"abcX"))
}

#[test]
fn a_file_is_a_disk(rt: HostRuntime) -> Result<(), Fail> {
    let path = "a_file_is_a_disk.store";
    let _ = fs::remove_file(&rt, path);
    assert!(rt; is_taken_once(&rt, path)? && is_kept(&rt, path)?);
    fs::remove_file(&rt, path)?;
    Ok(())
}
