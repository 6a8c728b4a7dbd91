// Transactions of records.
ghost use Rattle.std.specs.Prelude.{◌≡◌, ◌≢◌, ◌+◌, ◌<◌, ◌≤◌, max, [], ◌∷◌, IsTrue, OnOk, OnErr};
ghost use Rattle.ss_outside.specs.Disk.{OfContent};
ghost use Rattle.ss_outside.specs.Step.{Step};
ghost use Rattle.ss_outside.specs.Verdict.{verdict};
ghost use Rattle.ss_journal.specs.Kept.{IsSettled};
ghost use Rattle.ss_journal.specs.declared.format.TheConstants.{MOST_SLOTS};
ghost use Rattle.ss_records.specs.Kept.{AreKept};
ghost use Rattle.ss_records.specs.Live.{lowest_free};
ghost use Rattle.ss_codec.specs.Record.{is_valid};
ghost use Rattle.ss_codec.specs.declared.record.Record.TheVariants.{Free};
ghost use Rattle.ss_stream.specs.Calls.{StagesAtCost};
ghost use Rattle.ss_stream.specs.Slots.{AreSomeLive, LiveSlotsGo, StagesRecord, StagesReplaced, StagesTwo, pair_put, record_put, zeros_put};
ghost use Rattle.ss_stream.specs.Slots.{StagesChange};

use ss_base::SLOT_SIZE;
use ss_codec::{Record, encode};
use ss_journal::{MOST_SLOTS, Put, Txn};
use ss_outside::{Disk, Failed};
use ss_records::Records;

// A record for one slot.
fn put_of(slot: u32, written: &Record) -> Txn
    requires { IsTrue (is_valid written.now) }
    ensures { result.items ≡ record_put slot written.now ∷ [] }
{
    let mut txn = Txn::new();
    txn.push(Put {
        slot,
        bytes: encode(written),
    });
    txn
}

/// Stages a record for the lowest free slot.
pub fn stage_record<D: Disk>(
    records: &mut Records,
    disk: &mut D,
    slot: u32,
    written: &Record,
) -> Result<(), Failed>
    requires settled { IsSettled records.old.journal }
    requires valid { IsTrue (is_valid written.now) }
    requires some { written.now ≢ Free }
    requires free { lowest_free records.old.live ≡ Some slot }
    requires one_disk { OfContent (D.seen disk.old) (AreKept records.old) }
    ensures stages { Step (verdict result) (D.seen disk.old) (D.seen disk.new)
        (StagesAtCost (StagesRecord slot written.now records.old records.new result) (slot + 1) 1 records.old records.new result) }
    ensures settled { OnOk result (IsSettled records.new.journal) }
    ensures live { OnOk result (LiveSlotsGo [] (slot ∷ []) records.old.live records.new.live) }
    ensures extent { OnOk result (records.new.journal.extent ≤ max records.old.journal.extent (slot + 1)) }
    ensures err { OnErr result (records.new.live ≡ records.old.live) }
{
    prove!(records.lowest_free() == Some(slot));
    records.make_room(disk)?;
    records.stage(&put_of(slot, written));
    Ok(())
}

/// Stages a record in place of another.
pub fn stage_replaced<D: Disk>(
    records: &mut Records,
    disk: &mut D,
    slot: u32,
    written: &Record,
) -> Result<(), Failed>
    requires settled { IsSettled records.old.journal }
    requires valid { IsTrue (is_valid written.now) }
    requires some { written.now ≢ Free }
    requires live { AreSomeLive (slot ∷ []) records.old.live }
    requires one_disk { OfContent (D.seen disk.old) (AreKept records.old) }
    ensures stages { Step (verdict result) (D.seen disk.old) (D.seen disk.new)
        (StagesAtCost (StagesReplaced slot written.now records.old records.new result) 0 1 records.old records.new result) }
    ensures changes { Step (verdict result) (D.seen disk.old) (D.seen disk.new)
        (StagesChange (record_put slot written.now ∷ []) records.old records.new result) }
    ensures settled { OnOk result (IsSettled records.new.journal) }
    ensures live { records.new.live ≡ records.old.live }
    ensures extent { OnOk result (records.new.journal.extent ≡ records.old.journal.extent) }
{
    // The records are sound: each slot that is live lies below the extent.
    prove!(records.live() <= MOST_SLOTS);
    records.make_room(disk)?;
    records.stage(&put_of(slot, written));
    Ok(())
}

// Zeros for one slot.
fn zeros_of(slot: u32) -> Txn
    ensures { result.items ≡ zeros_put slot ∷ [] }
{
    let mut txn = Txn::new();
    txn.push(Put {
        slot,
        bytes: [0; SLOT_SIZE],
    });
    txn
}

/// Stages zeros in place of a record.
pub fn stage_zeros<D: Disk>(records: &mut Records, disk: &mut D, slot: u32) -> Result<(), Failed>
    requires settled { IsSettled records.old.journal }
    requires live { AreSomeLive (slot ∷ []) records.old.live }
    requires one_disk { OfContent (D.seen disk.old) (AreKept records.old) }
    ensures changes { Step (verdict result) (D.seen disk.old) (D.seen disk.new)
        (StagesAtCost (StagesChange (zeros_put slot ∷ []) records.old records.new result) 0 1 records.old records.new result) }
    ensures settled { OnOk result (IsSettled records.new.journal) }
    ensures live { OnOk result (LiveSlotsGo (slot ∷ []) [] records.old.live records.new.live) }
    ensures extent { OnOk result (records.new.journal.extent ≡ records.old.journal.extent) }
    ensures err { OnErr result (records.new.live ≡ records.old.live) }
{
    // The records are sound: each slot that is live lies below the extent.
    prove!(records.live() <= MOST_SLOTS);
    records.make_room(disk)?;
    records.stage(&zeros_of(slot));
    Ok(())
}

// A record for one slot and zeros for another, in the order of the slots.
fn pair_of(kept: u32, freed: u32, written: &Record) -> Txn
    requires apart { kept ≢ freed }
    requires kept { kept < MOST_SLOTS }
    requires freed { freed < MOST_SLOTS }
    requires valid { IsTrue (is_valid written.now) }
    ensures { result.items ≡ pair_put kept freed written.now }
{
    let put = Put {
        slot: kept,
        bytes: encode(written),
    };
    let zeros = Put {
        slot: freed,
        bytes: [0; SLOT_SIZE],
    };
    let mut txn = Txn::new();
    if kept < freed {
        txn.push(put);
        txn.push(zeros);
    } else {
        txn.push(zeros);
        txn.push(put);
    }
    txn
}

/// Stages a record in place of another and the freeing of a second slot, both or neither.
pub fn stage_two<D: Disk>(
    records: &mut Records,
    disk: &mut D,
    kept: u32,
    freed: u32,
    written: &Record,
) -> Result<(), Failed>
    requires settled { IsSettled records.old.journal }
    requires valid { IsTrue (is_valid written.now) }
    requires some { written.now ≢ Free }
    requires live { AreSomeLive (kept ∷ freed ∷ []) records.old.live }
    requires one_disk { OfContent (D.seen disk.old) (AreKept records.old) }
    ensures stages { Step (verdict result) (D.seen disk.old) (D.seen disk.new)
        (StagesAtCost (StagesTwo kept freed written.now records.old records.new result) 0 1 records.old records.new result) }
    ensures settled { OnOk result (IsSettled records.new.journal) }
    ensures live { OnOk result (LiveSlotsGo (kept ∷ freed ∷ []) (kept ∷ []) records.old.live records.new.live) }
    ensures extent { OnOk result (records.new.journal.extent ≡ records.old.journal.extent) }
    ensures err { OnErr result (records.new.live ≡ records.old.live) }
{
    // The records are sound: each slot that is live lies below the extent.
    prove!(records.live() <= MOST_SLOTS);
    records.make_room(disk)?;
    records.stage(&pair_of(kept, freed, written));
    Ok(())
}
