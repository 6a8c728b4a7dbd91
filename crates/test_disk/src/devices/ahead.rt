// Calls of the devices in memory for which memory was taken ahead: they fail exactly where they are listed.
ghost use Rattle.std.specs.Prelude.{◌≡◌, ◌+◌, ◌<◌, ◌≤◌, ◌↔◌, length, Contains, IsErr, IsOk};
ghost use Rattle.ss_outside.specs.MemDisk.{IsListed, Suffices, told_by};

use crate::passing::pass_if;
use ss_outside::{Disk, Failed, LONGEST_DISK, MemDisk, MemSink, Sink, SteadySink};
use std::alloc::{AllocError, Global};
use std::test::Fail;

fn put_listed(sink: &mut MemSink, piece: &[u8]) -> Result<usize, Failed>
    requires piece { 0 < length piece.now }
    requires spare { length piece.now ≤ sink.old.spare }
    ensures { IsErr result ↔ Contains sink.old.failing sink.old.calls }
{
    sink.put(piece)
}

fn put_steadily(sink: &mut SteadySink, piece: &[u8]) -> Result<usize, Failed>
    requires piece { 0 < length piece.now }
    requires spare { length piece.now ≤ sink.old.spare }
    ensures { IsOk result }
{
    sink.put(piece)
}

fn write(disk: &mut MemDisk, at: u64, bytes: &[u8]) -> Result<(), Failed>
    requires within { at ≤ length (told_by disk.old).content }
    requires end { at + length bytes.now ≤ LONGEST_DISK }
    requires spare { Suffices disk.old (length bytes.now) }
    ensures { IsErr result ↔ IsListed disk.old }
{
    disk.write_at(at, bytes)
}

fn sync(disk: &mut MemDisk) -> Result<(), Failed>
    requires { Suffices disk.old 0 }
    ensures { IsErr result ↔ IsListed disk.old }
{
    disk.sync()
}

fn put_two(sink: &mut MemSink) -> Result<bool, AllocError> {
    sink.reserve(2)?;
    let put = put_listed(sink, &[1, 2]);
    Ok(put == Ok(2) && sink.short() == 0)
}

fn put_two_steadily(sink: &mut SteadySink) -> Result<bool, AllocError> {
    sink.reserve(2)?;
    let put = put_steadily(sink, &[1, 2]);
    Ok(put == Ok(2) && sink.short() == 0)
}

fn put_in_both(alloc: Global) -> bool {
    let mut sink = MemSink::new(alloc);
    let mut steady = SteadySink::new(alloc);
    put_two(&mut sink).unwrap_or(true) && put_two_steadily(&mut steady).unwrap_or(true)
}

fn write_one(alloc: Global) -> Result<bool, AllocError> {
    let mut disk = MemDisk::new(alloc, Vec::new(alloc))?;
    disk.reserve(1, 2)?;
    let wrote = write(&mut disk, 0, &[1, 2]);
    Ok(wrote == Ok(()) && disk.short() == 0)
}

fn sync_one(alloc: Global) -> Result<bool, AllocError> {
    let mut disk = MemDisk::new(alloc, Vec::new(alloc))?;
    disk.reserve(1, 0)?;
    let synced = sync(&mut disk);
    Ok(synced == Ok(()) && disk.short() == 0)
}

// Passes with and without memory: run it with each allocation failing in turn.
fn goes(alloc: Global) -> bool {
    put_in_both(alloc) && write_one(alloc).unwrap_or(true) && sync_one(alloc).unwrap_or(true)
}

#[test]
fn calls_with_memory_taken_ahead_succeed(rt: HostRuntime) -> Result<(), Fail> {
    pass_if(Ok(goes(rt.alloc())))
}
