// Runs of a journal, as rows of a table.
ghost use Rattle.std.specs.Prelude.{◌≡◌, ◌<◌, IfOk, IsTrue, OnOk};
ghost use Rattle.ss_outside.specs.Disk.{OfContent};
ghost use Rattle.ss_journal.specs.Kept.{IsKept, IsRunning, IsSealed, IsSettled};
ghost use Rattle.ss_journal.specs.Puts.{slots_fit, IsTxn};

use super::files::{File, Map};
use ss_journal::{Journal, JournalError, Put, Txn};
use ss_outside::{Disk, Failed};
use std::alloc::Global;

// What is committed: this byte into slot 0, and that one into slot 1. The byte 0 stands for no put.
pub type Commit = (u8, u8);

pub const NOTHING: Commit = (0, 0);

pub fn put_of(slot: u32, byte: u8) -> Put
    ensures { result.slot ≡ slot }
{
    Put {
        slot,
        bytes: [byte; 128],
    }
}

// Opens a journal. What a step of the disk means for it is said here once.
pub fn opened<D: Disk>(alloc: Global, disk: &mut D) -> Result<Journal, JournalError>
    ensures running { IfOk result (λ journal. IsRunning journal) }
    ensures sealed { IfOk result (λ journal. IsSealed journal) }
    ensures one_disk { OfContent (D.seen disk.new) (λ content. IfOk result (λ journal. IsKept journal content)) }
{
    Journal::open(alloc, disk)
}

// A journal that is opened and settled.
pub fn settled<D: Disk>(alloc: Global, disk: &mut D) -> Result<Journal, JournalError>
    ensures settled { IfOk result (λ journal. IsSettled journal) }
    ensures sealed { IfOk result (λ journal. IsSealed journal) }
    ensures one_disk { OfContent (D.seen disk.new) (λ content. IfOk result (λ journal. IsKept journal content)) }
{
    let mut journal = opened(alloc, disk)?;
    journal.settle(disk)?;
    Ok(journal)
}

// The puts of a commit, of which there is one at least, over so many slots.
pub fn commit_txn(bytes: Commit, extent: u32) -> Txn
    requires { 0 < extent }
    ensures txn { IsTxn result.items }
    ensures fit { IsTrue (slots_fit result.items extent) }
{
    let mut txn = Txn::new();
    txn.push(put_of(0, bytes.0));
    if bytes.1 == 0 {
        return txn;
    }
    txn.push(put_of(1, bytes.1));
    txn
}

// Commits, if there is a slot 0.
pub fn commit<D: Disk>(journal: &mut Journal, disk: &mut D, bytes: Commit) -> Result<(), Failed>
    requires settled { IsSettled journal.old }
    requires sealed { IsSealed journal.old }
    requires one_disk { OfContent (D.seen disk.old) (IsKept journal.old) }
    ensures settled { OnOk result (IsSettled journal.new) }
    ensures sealed { OnOk result (IsSealed journal.new) }
    ensures one_disk { OfContent (D.seen disk.new) (λ content. OnOk result (IsKept journal.new content)) }
{
    if bytes.0 == 0 || journal.extent() == 0 {
        return Ok(());
    }
    let txn = commit_txn(bytes, journal.extent());
    stage(journal, disk, &txn)?;
    journal.seal(disk)
}

// Makes room and stages.
pub fn stage<D: Disk>(journal: &mut Journal, disk: &mut D, txn: &Txn) -> Result<(), Failed>
    requires settled { IsSettled journal.old }
    requires txn { IsTxn txn.now.items }
    requires fit { IsTrue (slots_fit txn.now.items journal.old.extent) }
    requires one_disk { OfContent (D.seen disk.old) (IsKept journal.old) }
    ensures settled { OnOk result (IsSettled journal.new) }
    ensures one_disk { OfContent (D.seen disk.new) (λ content. OnOk result (IsKept journal.new content)) }
{
    journal.make_room(disk)?;
    journal.stage(txn);
    Ok(())
}

// Opens, settles and commits.
pub fn run<D: Disk>(alloc: Global, disk: &mut D, bytes: Commit) -> Result<(), JournalError> {
    let mut journal = settled(alloc, disk)?;
    match commit(&mut journal, disk, bytes) {
        Ok(()) => Ok(()),
        Err(Failed) => Err(JournalError::Disk),
    }
}

// A run over a file, the map before it and after it, and the length and the number of entries in use after it.
#[derive(Clone, Copy)]
pub struct Row {
    pub file: File,
    pub commit: Commit,
    pub before: Map<'static>,
    pub after: Map<'static>,
    pub length: usize,
    pub in_use: usize,
}

// Two entries in use share a slot, which isn't in the file yet.
pub const SHARED: Row = Row {
    file: File::Formed(&[0, 4, 0, 5], &[]),
    commit: NOTHING,
    before: &[5],
    after: &[5],
    length: 36992,
    in_use: 0,
};

// An entry after a closed gate isn't in use.
const AFTER_CLOSED: Row = Row {
    file: File::Formed(&[0, 0, 0, 5], &[3]),
    commit: NOTHING,
    before: &[3],
    after: &[3],
    length: 36992,
    in_use: 0,
};

// Of three entries the first gate is closed, and the others are open: none is in use, and settling leaves them so.
const GROUP_AFTER_CLOSED: Row = Row {
    file: File::Formed(&[0, 0, 0, 5, 0, 6], &[3]),
    commit: NOTHING,
    before: &[3],
    after: &[3],
    length: 36992,
    in_use: 0,
};

// Three entries in use, of which the last puts into the slot of the first again.
const THREE: Row = Row {
    file: File::Formed(&[0, 4, 1, 5, 0, 6], &[]),
    commit: NOTHING,
    before: &[6, 5],
    after: &[6, 5],
    length: 37120,
    in_use: 0,
};

const ONE: Row = Row {
    file: File::Formed(&[], &[3]),
    commit: (7, 0),
    before: &[3],
    after: &[7],
    length: 36992,
    in_use: 1,
};

// The second slot is next.
const TWO: Row = Row {
    file: File::Formed(&[], &[3]),
    commit: (7, 8),
    before: &[3],
    after: &[7, 8],
    length: 36992,
    in_use: 1,
};

pub const ROWS: [Row; 6] = [SHARED, AFTER_CLOSED, GROUP_AFTER_CLOSED, THREE, ONE, TWO];
