// A law of the windows of a stream, the contract of a function that does nothing.
ghost use Rattle.std.specs.Prelude.{◌+◌, ◌-◌, ◌*◌, ◌<◌, ◌≤◌, ℕ, List, length};
ghost use Rattle.ss_line.specs.declared.entry.Entry.{Entry};
ghost use Rattle.ss_model.specs.Decay.{cover, steps_met};
ghost use Rattle.ss_targets.specs.Rule.{Rule, without_step};
ghost use Rattle.ss_parts.specs.Held.{TileFrom};
ghost use Rattle.ss_stream.specs.Held.{ends_held, values_held};
ghost use Rattle.ss_stream.specs.Joining.{NoEntriesAreDue};

/// Where no two neighbours may be one, at most 2(K + B - 1) - 1 windows stand, where K target windows cover the values, and the
/// times of the windows lie in B steps. Without a step they lie in one, and these are 2K - 1.
pub fn few_windows_stand()
    ensures rule { (rule : Rule) (entries : List Entry) → TileFrom 1 entries →
        NoEntriesAreDue rule (values_held entries) entries → 0 < values_held entries → length entries + 1
        ≤ 2 * (cover rule.lengths (values_held entries) + steps_met rule.step (ends_held entries) - 1) }
    ensures without_step { (len : ℕ → ℕ) (entries : List Entry) → TileFrom 1 entries →
        NoEntriesAreDue (without_step len) (values_held entries) entries → 0 < values_held entries →
        length entries + 1 ≤ 2 * cover len (values_held entries) }
{}
