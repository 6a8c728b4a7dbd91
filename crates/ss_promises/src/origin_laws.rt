// Laws of values that a store without filters took, each the contract of a function that does nothing.
ghost use Rattle.std.specs.Prelude.{◌≡◌, ◌⊎◌, ℕ, ℤ, List, All, Some, map};
ghost use Rattle.ss_catalog.specs.declared.query.Kind.TheVariants as kinds;
ghost use Rattle.ss_catalog.specs.declared.query.Query.{Query};
ghost use Rattle.ss_model.specs.Answers.{outcome_of};
ghost use Rattle.ss_model.specs.Origins.{as_old, unfiltered_stream};
ghost use Rattle.ss_model.specs.Refusals.{IsHistory};
ghost use Rattle.ss_model.specs.State.{state};
ghost use Rattle.ss_model.specs.declared.outcome.Outcome.TheVariants.{Has};
ghost use Rattle.ss_model.specs.declared.outcome.Presence.{Presence};
ghost use Rattle.ss_model.specs.declared.outcome.Presence.TheVariants.{Maybe};
ghost use Rattle.ss_store.specs.Recover.{Recovers, Stands};
ghost use Rattle.ss_promises.specs.Alike.{AsksPresence, HaveSameEvents};
ghost use Rattle.ss_program.specs.Line.{History, brings, line_text};
ghost use Rattle.ss_program.specs.Report.{plain_after, text_of};
ghost use Rattle.ss_program.specs.Talk.{plain_talk};

/// To plain lines a store that took its values without filters says of them what one with filters says, but for whether a value is
/// there: this may then be `maybe` where the other knows it.
pub fn old_values_change_answers_to_has_alone()
    // A file that has the streams of a history but for their filters stands for this history, with its values old.
    ensures stands { (history : History) (image : List ℕ) → IsHistory history → Recovers (map unfiltered_stream (state history)) image →
        Stands (map as_old history) image }
    // After the same events, whichever are old, each plain line adds the same event or none, and unless it asks whether a value is there
    // the same is said to it.
    ensures event { (one other : History) (line : List ℕ) → HaveSameEvents one other → (brings one line).event ≡ (brings other line).event }
    ensures text { (one other : History) (line : List ℕ) → HaveSameEvents one other → (AsksPresence line → ⊥) →
        line_text one line ≡ line_text other line }
    // So it is for lines in a row.
    ensures after { (one other : History) (ls : List (List ℕ)) → HaveSameEvents one other → HaveSameEvents (plain_after one ls) (plain_after other ls) }
    ensures report { (one other : History) (ls : List (List ℕ)) → HaveSameEvents one other → All (λ line. AsksPresence line → ⊥) ls →
        text_of (plain_talk one) ls ≡ text_of (plain_talk other) ls }
    // Of whether a value is there, that of old values is what is said of new ones, or `maybe`.
    ensures presence { (history : History) (query : Query) (value : ℤ) (known : Presence) → query.kind ≡ kinds.Has value →
        outcome_of (state (map as_old history)) query ≡ Some (Has known) →
        (known ≡ Maybe) ⊎ (outcome_of (state history) query ≡ Some (Has known)) }
{}
