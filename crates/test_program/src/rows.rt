// What no script of the simulator can say: devices of other kinds, and arguments that are none.
ghost use Rattle.std.specs.Prelude.{◌<◌, Some};

use crate::devices::{READINGS, REPORT, RUN, disk_of, run_anew, run_on, source_of};
use ss_outside::{Failed, MemDisk, MemSink, Sink, SteadySink, SteadySource};
use ss_program::complaint;
use std::alloc::{AllocError, Global};
use std::test::Fail;

const USAGE: &str =
    "usage: summarystore STORE [run | check | gen SEED COUNT | [sessions] [framed] [batch] | frames [batch] | follow [batch]]\n";

// Whether the worked row, on a disk with memory taken ahead, ends well and makes neither the disk nor a sink short of memory.
fn is_never_short<K: Sink>(
    alloc: Global,
    disk: &mut MemDisk,
    sink: &mut K,
) -> Result<bool, AllocError> {
    disk.reserve(100_000, 1_000_000)?;
    let mut source = SteadySource::new(READINGS.as_bytes().to_vec(alloc)?, 4096);
    let status = run_on(alloc, RUN, disk, &mut source, sink)?;
    Ok(status == 0 && disk.short() == 0)
}

fn gets_all_listed(alloc: Global) -> Result<bool, AllocError> {
    let mut disk = disk_of(alloc, &[])?;
    let mut sink = MemSink::new(alloc);
    sink.reserve(1000)?;
    let is_over = is_never_short(alloc, &mut disk, &mut sink)?;
    Ok(is_over && sink.short() == 0 && sink.held() == REPORT.as_bytes())
}

fn gets_all_steadily(alloc: Global) -> Result<bool, AllocError> {
    let mut disk = disk_of(alloc, &[])?;
    let mut sink = SteadySink::new(alloc);
    sink.reserve(1000)?;
    let is_over = is_never_short(alloc, &mut disk, &mut sink)?;
    Ok(is_over && sink.short() == 0 && sink.held() == REPORT.as_bytes())
}

#[test]
fn memory_taken_ahead_is_enough(rt: HostRuntime) -> Result<(), Fail> {
    assert!(rt; gets_all_listed(rt.alloc())?);
    assert!(rt; gets_all_steadily(rt.alloc())?);
    Ok(())
}

// A sink that takes one byte of each piece.
#[derive(Drop)]
struct ByteSink {
    inner: MemSink,
}

impl Sink for ByteSink {
    ghost held = { λ s. Some s.inner.held };

    ghost faults = { λ s. s.inner.faults };

    fn put(&mut self, piece: &[u8]) -> Result<usize, Failed> {
        self.inner.put(&piece[..1])
    }
}

// Whether such a sink gets the report of the worked row.
fn gets_all_by_bytes(alloc: Global) -> Result<bool, AllocError> {
    let mut sink = ByteSink {
        inner: MemSink::new(alloc),
    };
    let mut source = source_of(alloc, READINGS, 4096)?;
    let status = run_anew(alloc, RUN, &mut source, &mut sink)?;
    Ok(status == 0 && sink.inner.held() == REPORT.as_bytes())
}

#[test]
fn a_slow_sink_gets_all(rt: HostRuntime) -> Result<(), Fail> {
    assert!(rt; gets_all_by_bytes(rt.alloc())?);
    Ok(())
}

// Whether a run without arguments ends with the usage status, also where the usage line doesn't go out.
fn says_usage(alloc: Global, put: u64, written: &str) -> Result<bool, AllocError> {
    let mut sink = MemSink::new(alloc);
    sink.fail_at([put].as_slice().to_vec(alloc)?);
    let mut source = source_of(alloc, READINGS, 4096)?;
    let status = run_anew(alloc, &[], &mut source, &mut sink)?;
    Ok(status == 2 && sink.held() == written.as_bytes())
}

#[test]
fn no_arguments_get_the_usage_status(rt: HostRuntime) -> Result<(), Fail> {
    assert!(rt; says_usage(rt.alloc(), 1, USAGE)?);
    assert!(rt; says_usage(rt.alloc(), 0, "")?);
    Ok(())
}

#[test]
fn a_failed_run_says_why(rt: HostRuntime) {
    for (number, text) in [
        (0, None),
        (2, None),
        (3, None),
        (4, Some("summarystore: disk fault")),
        (5, Some("summarystore: input fault")),
        (6, Some("summarystore: output fault")),
        (7, Some("summarystore: out of memory")),
        (8, Some("summarystore: input too long")),
        (9, Some("summarystore: record changed")),
    ] {
        assert_eq!(rt; complaint(number), text);
    }
}
