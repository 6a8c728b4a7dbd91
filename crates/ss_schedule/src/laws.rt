// Laws of schedules, each the contract of a function that does nothing.
ghost use Rattle.std.specs.Prelude.{◌≡◌, ℕ, ◌+◌, ◌<◌, List, [], ◌∷◌, ◌++◌, length};
ghost use Rattle.ss_line.specs.declared.entry.At.{At};
ghost use Rattle.ss_line.specs.declared.entry.Entry.{Entry};
ghost use Rattle.ss_line.specs.Line.{StandsIn, index_of};
ghost use Rattle.ss_base.specs.declared.limits.TheConstants.{MOST_VALUES};
ghost use Rattle.ss_schedule.specs.Keyed.{IsKeyed, ScheduleState, merge_rule};
ghost use Rattle.ss_schedule.specs.Pairs.{NoPairFits};

/// A schedule that is keyed at a count at which no pair fits is keyed at the next count as well.
pub fn keyed_at_the_next_count()
    ensures { (n : ℕ) (entries : List (At × Entry)) (schedule : ScheduleState) → n < MOST_VALUES → IsKeyed n entries schedule
        → NoPairFits (merge_rule schedule) n entries → IsKeyed (n + 1) entries schedule }
{}

/// An entry that is pushed at a place that didn't stand in the line is the last one of the line.
pub fn the_last_one_pushed()
    ensures { (entries : List (At × Entry)) (at : At) (entry : Entry) → ¬ StandsIn entries at
        → index_of (entries ++ (at, entry) ∷ []) at ≡ length entries }
{}
