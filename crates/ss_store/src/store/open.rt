// Opening a store.
use super::Store;
use crate::OpenError;
use crate::opening::{catalog_of, read_all, settle_all};
use ss_base::Steps;
use ss_outside::Disk;
use ss_recover::Parts;
use ss_stream::held_streams;
use std::alloc::Global;
use std::marker::Brand;
use std::sync::ledger::{Blank, Ledger};

impl Store {
    ghost use Rattle.std.specs.Prelude.{◌≡◌, ◌<◌, false, IfOk};
    ghost use Rattle.ss_outside.specs.Step.{Step};
    ghost use Rattle.ss_journal.specs.Kept.{IsSealed};
    ghost use Rattle.ss_base.specs.Steps.{IsFresh};
    ghost use Rattle.ss_store.specs.Applied.{OpensStore};
    ghost use Rattle.ss_store.specs.Errors.{verdict_of_opening};

    /// Opens the store on a disk: it reads and judges all of it before it writes, settles the entries in use, clears what a
    /// crash left of dropped streams, and makes the merges that are due. At an error there is no store, and at all but `Disk`
    /// and `Changed` nothing was written.
    pub fn open<D: Disk>(alloc: Global, disk: &mut D) -> Result<Store, OpenError>
        // The streams that the content recovers to, or why it recovers to none; and nothing is written before that is known.
        ensures opens { Step (verdict_of_opening result) (D.seen disk.old) (D.seen disk.new) (OpensStore result) }
        ensures runs { IfOk result (λ store. (store.stopped ≡ false) × IsSealed store.records.journal) }
    {
        Store::open_in::<D, Brand>(alloc, disk, Blank::new(1))
    }

    // The same, with a counter.
    fn open_in<D: Disk, L: Ledger>(
        alloc: Global,
        disk: &mut D,
        blank: Blank,
    ) -> Result<Store, OpenError>
        requires { IsFresh L.name L.parts blank }
        ensures opens { Step (verdict_of_opening result) (D.seen disk.old) (D.seen disk.new) (OpensStore result) }
        ensures runs { IfOk result (λ store. (store.stopped ≡ false) × IsSealed store.records.journal) }
    {
        let (mut records, parts) = read_all(alloc, disk)?;
        let Parts { streams, doomed } = parts;
        let catalog = catalog_of(alloc, &streams)?;
        let mut steps = Steps::<L>::new(blank);
        let mut streams = held_streams(alloc, streams, &mut steps)?;
        settle_all(&mut streams, &doomed, &mut records, disk, &mut steps)?;
        Ok(Store {
            streams,
            catalog,
            records,
            stopped: false,
        })
    }
}
