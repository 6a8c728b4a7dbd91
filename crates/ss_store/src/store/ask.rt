// Answering a query.
use super::Store;
use crate::AskError;
use ss_catalog::Query;
use ss_model::Outcome;
use ss_outside::Disk;
use ss_query::outcome_seen;

impl Store {
    ghost use Rattle.std.specs.Prelude.{◌≡◌, ◌↔◌, true, false, Some, IfOk, IfSome, Err};
    ghost use Rattle.std.specs.List.{Contains};
    ghost use Rattle.ss_outside.specs.Step.{Step};
    ghost use Rattle.ss_outside.specs.Verdict.{IfChanged, IfUndone};
    ghost use Rattle.ss_catalog.specs.declared.refusal.Refusal.{Refusal};
    ghost use Rattle.ss_model.specs.Answers.{IsOfKind};
    ghost use Rattle.ss_parts.specs.Held.{window_slots_of};
    ghost use Rattle.ss_store.specs.Applied.{Answers, Looks, StandsOn};
    ghost use Rattle.ss_store.specs.Asked.{refuses_query_held};
    ghost use Rattle.ss_store.specs.Errors.{verdict_of_ask};
    ghost use Rattle.ss_store.specs.Kept.{part_named};

    /// Answers a query, by what the windows of its stream say that have times in the range. It writes nothing, and takes no
    /// memory. A refusal is the first that applies, and makes no call of the disk.
    pub fn ask<D: Disk>(&mut self, disk: &mut D, query: &Query) -> Result<Outcome, AskError>
        requires one_disk { StandsOn self.old (D.seen disk.old) }
        // The answer of the state that is shown, with what is staged. It holds the truth over all values of the stream.
        ensures answers { Step (verdict_of_ask result) (D.seen disk.old) (D.seen disk.new) (Answers self.old.records query.now result) }
        ensures looks { Looks (verdict_of_ask result) self.old self.new (D.seen disk.old) (D.seen disk.new) }
        // Over every disk it is to what was asked for.
        ensures kind { IfOk result (IsOfKind query.now.kind) }
        // A slot that has changed is that of a window of the stream.
        ensures changed { IfChanged (verdict_of_ask result) (λ slot. IfSome (part_named query.now.name self.old.streams) (λ part.
            Contains (window_slots_of part) slot)) }
        // Stopped comes first, exactly where the store had stopped, and then each refusal exactly where it applies.
        ensures stopped { (result ≡ Err AskError.Stopped) ↔ (self.old.stopped ≡ true) }
        ensures refused { self.old.stopped ≡ false → (r : Refusal) →
            (result ≡ Err (AskError.Refused r)) ↔ (refuses_query_held self.old.streams query.now ≡ Some r) }
        ensures uncalled { IfUndone (verdict_of_ask result) (disk.new ≡ disk.old) }
        ensures same { IfUndone (verdict_of_ask result) (self.new ≡ self.old) }
        ensures idle { self.old.stopped ≡ true → (self.new ≡ self.old) × (disk.new ≡ disk.old) }
    {
        let seen = self.see(disk, query)?;
        Ok(outcome_seen(seen, query.kind))
    }
}
