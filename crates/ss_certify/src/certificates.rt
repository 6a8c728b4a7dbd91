// Evidence is made and checked over a store.
ghost use Rattle.std.specs.Prelude.{◌≡◌, ◌↔◌, true, false, IsTrue, IfOk, IfSome, Err};
ghost use Rattle.std.specs.List.{Contains};
ghost use Rattle.ss_catalog.specs.Queries.{is_certified};
ghost use Rattle.ss_catalog.specs.declared.refusal.Refusal.{Refusal};
ghost use Rattle.ss_outside.specs.Step.{Step};
ghost use Rattle.ss_outside.specs.Verdict.{IfChanged, IfUndone};
ghost use Rattle.ss_parts.specs.Held.{window_slots_of};
ghost use Rattle.ss_store.specs.Applied.{Looks, StandsOn};
ghost use Rattle.ss_store.specs.Asked.{refuses_query_held};
ghost use Rattle.ss_store.specs.Errors.{verdict_of_ask};
ghost use Rattle.ss_store.specs.Kept.{part_named};
ghost use Rattle.ss_store.specs.declared.error.AskError.{AskError};
ghost use Rattle.ss_certify.specs.Called.{ChecksEvidence, MakesEvidence};
ghost use Rattle.ss_certify.specs.Evidence.{IsRight};

use crate::Evidence;
use crate::making::evidence;
use crate::showing::shows;
use ss_catalog::{End, Query};
use ss_outside::Disk;
use ss_store::{AskError, Store};

/// Makes the evidence for an end of the answer to a query of count, sum or mean. Refusals and faults are those of `Store::ask`, and it
/// leaves the disk and the store as that does. It takes no memory.
pub fn make<D: Disk>(
    store: &mut Store,
    disk: &mut D,
    query: &Query,
    end: End,
) -> Result<Evidence, AskError>
    requires kind { IsTrue (is_certified query.now.kind) }
    requires one_disk { StandsOn store.old (D.seen disk.old) }
    // The evidence of the state that is shown, with what is staged.
    ensures makes { Step (verdict_of_ask result) (D.seen disk.old) (D.seen disk.new) (MakesEvidence store.old.records query.now end result) }
    ensures looks { Looks (verdict_of_ask result) store.old store.new (D.seen disk.old) (D.seen disk.new) }
    // A slot that has changed is that of a window of the stream.
    ensures changed { IfChanged (verdict_of_ask result) (λ slot. IfSome (part_named query.now.name store.old.streams) (λ part.
        Contains (window_slots_of part) slot)) }
    // Stopped comes first, exactly where the store had stopped, and then each refusal exactly where it applies.
    ensures stopped { (result ≡ Err AskError.Stopped) ↔ (store.old.stopped ≡ true) }
    ensures refused { store.old.stopped ≡ false → (r : Refusal) →
        (result ≡ Err (AskError.Refused r)) ↔ (refuses_query_held store.old.streams query.now ≡ Some r) }
    ensures uncalled { IfUndone (verdict_of_ask result) (disk.new ≡ disk.old) }
    ensures same { IfUndone (verdict_of_ask result) (store.new ≡ store.old) }
{
    let seen = store.see(disk, query)?;
    Ok(evidence(&seen, query.kind, end))
}

/// Checks any evidence for an end of the answer to a query of count, sum or mean: whether each window that the range splits has a
/// certificate of values that it may have had, and these with what is known give exactly this end. Refusals and faults are those of `Store::ask`, and
/// it leaves the disk and the store as that does. It takes no memory.
pub fn check<D: Disk>(
    store: &mut Store,
    disk: &mut D,
    query: &Query,
    end: End,
    w: &Evidence,
) -> Result<bool, AskError>
    requires kind { IsTrue (is_certified query.now.kind) }
    requires one_disk { StandsOn store.old (D.seen disk.old) }
    // What the state that is shown has, with what is staged. Where it is right the end that it shows may be the truth.
    ensures checks { Step (verdict_of_ask result) (D.seen disk.old) (D.seen disk.new) (ChecksEvidence store.old.records query.now end w.now result) }
    // Over every disk it is found right only where it is right by the figures that were read.
    ensures right { IfOk result (λ right. right ≡ true → IsRight query.now.kind end w.now) }
    ensures looks { Looks (verdict_of_ask result) store.old store.new (D.seen disk.old) (D.seen disk.new) }
    // A slot that has changed is that of a window of the stream.
    ensures changed { IfChanged (verdict_of_ask result) (λ slot. IfSome (part_named query.now.name store.old.streams) (λ part.
        Contains (window_slots_of part) slot)) }
    // Stopped comes first, exactly where the store had stopped, and then each refusal exactly where it applies.
    ensures stopped { (result ≡ Err AskError.Stopped) ↔ (store.old.stopped ≡ true) }
    ensures refused { store.old.stopped ≡ false → (r : Refusal) →
        (result ≡ Err (AskError.Refused r)) ↔ (refuses_query_held store.old.streams query.now ≡ Some r) }
    ensures uncalled { IfUndone (verdict_of_ask result) (disk.new ≡ disk.old) }
    ensures same { IfUndone (verdict_of_ask result) (store.new ≡ store.old) }
{
    let seen = store.see(disk, query)?;
    Ok(shows(&seen, query.kind, end, w))
}
