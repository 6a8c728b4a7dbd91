// The steps of opening a store.
ghost use Rattle.std.specs.Prelude.{◌≡◌, ◌≤◌, All, map, length, IfOk, OnOk};
ghost use Rattle.std.specs.List.{IsDistinct};
ghost use Rattle.ss_outside.specs.Disk.{OfContent};
ghost use Rattle.ss_outside.specs.Step.{Step};
ghost use Rattle.ss_outside.specs.Verdict.{IsFirm};
ghost use Rattle.ss_catalog.specs.Names.{same_name};
ghost use Rattle.ss_catalog.specs.declared.TheConstants.{MOST_STREAMS};
ghost use Rattle.ss_journal.specs.Kept.{IsRunning, IsSealed};
ghost use Rattle.ss_records.specs.Kept.{AreAtRest, AreKept};
ghost use Rattle.ss_parts.specs.Held.{AreWhole, AreWholeBeside};
ghost use Rattle.ss_parts.specs.declared.parts.StreamParts.{StreamParts};
ghost use Rattle.ss_parts.specs.Reading.{verdict_of_read};
ghost use Rattle.ss_stream.specs.Held.{held_parts};
ghost use Rattle.ss_stream.specs.Indexed.{IsKeyedFor, IsScheduled};
ghost use Rattle.ss_store.specs.Settling.{ClosesAll, SomeChangedIsHeld};
ghost use Rattle.ss_store.specs.Errors.{verdict_of_opening};
ghost use Rattle.ss_store.specs.Kept.{entry_of};
ghost use Rattle.ss_store.specs.Rebuilt.{ReadsAll};
ghost use Rattle.ss_store.specs.Settling.{SettlesAll};

use crate::OpenError;
use crate::clearing::clear_all;
use ss_base::Steps;
use ss_catalog::Catalog;
use ss_journal::Journal;
use ss_outside::Disk;
use ss_parts::{ReadError, StreamParts};
use ss_records::Records;
use ss_recover::{Parts, rebuild};
use ss_stream::HeldStream;
use std::alloc::{AllocError, Global};
use std::sync::ledger::Ledger;

// Reads and judges all that a disk holds, and writes nothing.
pub fn read_all<D: Disk>(alloc: Global, disk: &mut D) -> Result<(Records, Parts), OpenError>
    ensures reads { Step (verdict_of_opening result) (D.seen disk.old) (D.seen disk.new) (ReadsAll result) }
    // Over every disk no record has changed: each was read once.
    ensures unchanged { IsFirm (verdict_of_opening result) }
    ensures whole { IfOk result (λ read. AreWholeBeside read.1.doomed.items read.1.streams.items read.0.live) }
    ensures running { IfOk result (λ read. IsRunning read.0.journal) }
    ensures sealed { IfOk result (λ read. IsSealed read.0.journal) }
{
    let journal = Journal::open(alloc, disk)?;
    let read = rebuild(alloc, journal, disk)?;
    Ok(read)
}

// The names and numbers of streams.
pub fn catalog_of(alloc: Global, streams: &[StreamParts]) -> Result<Catalog, AllocError>
    requires few { length streams.now ≤ MOST_STREAMS }
    requires names { IsDistinct same_name (map (λ (part : StreamParts). part.name) streams.now) }
    ensures { IfOk result (λ catalog. catalog ≡ map entry_of streams.now) }
{
    let mut catalog = Catalog::new(alloc);
    for stream in streams {
        match catalog.add(stream.name, stream.id) {
            Ok(()) => {}
            Err(_) => return Err(AllocError),
        }
    }
    Ok(catalog)
}

// Makes the merges that are due in each stream.
pub fn close_all<D: Disk, L: Ledger>(
    streams: &mut [HeldStream],
    records: &mut Records,
    disk: &mut D,
    steps: &mut Steps<L>,
) -> Result<(), ReadError>
    requires at_rest { AreAtRest records.old }
    requires whole { AreWhole (held_parts streams.old) records.old.live }
    requires keyed { All IsKeyedFor streams.old }
    requires one_disk { OfContent (D.seen disk.old) (AreKept records.old) }
    ensures closes { Step (verdict_of_read result) (D.seen disk.old) (D.seen disk.new)
        (ClosesAll (held_parts streams.old) (held_parts streams.new) records.new result) }
    ensures extent { OnOk result (records.new.journal.extent ≤ records.old.journal.extent) }
    ensures entries { map entry_of (held_parts streams.new) ≡ map entry_of (held_parts streams.old) }
    ensures whole { OnOk result (AreWhole (held_parts streams.new) records.new.live) }
    ensures at_rest { OnOk result (AreAtRest records.new) }
    ensures scheduled { OnOk result (All IsScheduled streams.new) }
    ensures changed { SomeChangedIsHeld (verdict_of_read result) (held_parts streams.new) }
{
    for place in 0..streams.len() {
        streams[place].close_windows(records, disk, steps)?;
    }
    Ok(())
}

// Settles the entries in use, clears the records of dropped streams, and makes the merges that are due in each stream.
pub fn settle_all<D: Disk, L: Ledger>(
    streams: &mut [HeldStream],
    doomed: &[u32],
    records: &mut Records,
    disk: &mut D,
    steps: &mut Steps<L>,
) -> Result<(), ReadError>
    requires running { IsRunning records.old.journal }
    requires sealed { IsSealed records.old.journal }
    requires whole { AreWholeBeside doomed.now (held_parts streams.old) records.old.live }
    requires keyed { All IsKeyedFor streams.old }
    requires one_disk { OfContent (D.seen disk.old) (AreKept records.old) }
    ensures settles { Step (verdict_of_read result) (D.seen disk.old) (D.seen disk.new)
        (SettlesAll doomed.now (held_parts streams.old) (held_parts streams.new) records.new result) }
    ensures extent { OnOk result (records.new.journal.extent ≤ records.old.journal.extent) }
    ensures entries { map entry_of (held_parts streams.new) ≡ map entry_of (held_parts streams.old) }
    ensures whole { OnOk result (AreWhole (held_parts streams.new) records.new.live) }
    ensures at_rest { OnOk result (AreAtRest records.new) }
    ensures scheduled { OnOk result (All IsScheduled streams.new) }
    ensures changed { SomeChangedIsHeld (verdict_of_read result) (held_parts streams.new) }
{
    records.settle(disk)?;
    clear_all(records, disk, doomed)?;
    close_all(streams, records, disk, steps)
}
