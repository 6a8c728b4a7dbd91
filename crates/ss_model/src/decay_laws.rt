// Laws on how many windows stand and how long each is, each the contract of a function that does nothing.
ghost use Rattle.std.specs.Prelude.{◌≡◌, ◌+◌, ◌-◌, ◌*◌, ◌<◌, ◌≤◌, ℕ, ℤ, List, length, map, All};
ghost use Rattle.ss_targets.specs.Windowing.{cut, ArePositive, NeverFall};
ghost use Rattle.ss_summary.specs.Points.{Point};
ghost use Rattle.ss_model.specs.Windows.{windows, taken};
ghost use Rattle.ss_model.specs.Closed.{closed};
ghost use Rattle.ss_targets.specs.Rule.{Rule, without_step};
ghost use Rattle.ss_model.specs.Tiling.{AreWindows};
ghost use Rattle.ss_model.specs.Decay.{cover, ends_of, steps_met, IsInStep, NoneIsDue, IsWithinTarget};
ghost use Rattle.ss_model.specs.declared.types.Window.{Window};

/// The cover is the least number of target windows that hold so many positions.
pub fn cover_is_least()
    ensures enough { (len : ℕ → ℕ) (n : ℕ) → ArePositive len → n ≤ cut len (cover len n) }
    ensures least { (len : ℕ → ℕ) (n k : ℕ) → ArePositive len → n ≤ cut len k → cover len n ≤ k }
{}

/// Once those that are due are joined, no two neighbours may be one.
pub fn closing_leaves_none_due()
    ensures { (rule : Rule) (n : ℕ) (ws : List Window) → AreWindows ws → NoneIsDue rule n (closed rule n ws) }
{}

/// Where K target windows cover the values, at most 2K - 1 windows stand under a rule without a step: those of some values, and
/// those that were just closed.
pub fn decay_bound()
    ensures of_values { (len : ℕ → ℕ) (values : List Point) → 0 < length values →
        length (windows (without_step len) values) + 1 ≤ 2 * cover len (length values) }
    ensures of_closed { (len : ℕ → ℕ) (n : ℕ) (ws : List Window) → AreWindows ws → taken ws ≡ n → 0 < n →
        length (closed (without_step len) n ws) + 1 ≤ 2 * cover len n }
{}

/// Under any rule, where K target windows cover the values and their times lie in B steps, at most 2K + B - 2 windows stand: those of some
/// values, and those that were just closed, where each lies in one step. Of any others that were just closed at most 2(K + B - 1) - 1 stand.
pub fn decay_bound_with_steps()
    ensures of_values { (rule : Rule) (values : List Point) → 0 < length values → length (windows rule values) + 2
        ≤ 2 * cover rule.lengths (length values) + steps_met rule.step (map (λ (p : Point). p.0) values) }
    ensures of_closed_within { (rule : Rule) (n : ℕ) (ws : List Window) → AreWindows ws → All (IsInStep rule.step) ws → taken ws ≡ n → 0 < n →
        length (closed rule n ws) + 2 ≤ 2 * cover rule.lengths n + steps_met rule.step (ends_of ws) }
    ensures of_closed { (rule : Rule) (n : ℕ) (ws : List Window) → AreWindows ws → taken ws ≡ n → 0 < n → length (closed rule n ws) + 1
        ≤ 2 * (cover rule.lengths n + steps_met rule.step (ends_of ws) - 1) }
{}

/// No window crosses a boundary between two steps: none of those of some values, whatever their times, and none that comes of
/// closing windows that don't.
pub fn no_window_crosses_a_step()
    ensures of_values { (rule : Rule) (values : List Point) → All (IsInStep rule.step) (windows rule values) }
    ensures of_closed { (rule : Rule) (n : ℕ) (ws : List Window) → All (IsInStep rule.step) ws → All (IsInStep rule.step) (closed rule n ws) }
{}

/// Where no target window is shorter than a newer one, each window is at most as long as the target window that holds
/// its newest value.
pub fn no_window_outgrows_its_target()
    ensures { (rule : Rule) (values : List Point) → ArePositive rule.lengths → NeverFall rule.lengths →
        All (IsWithinTarget rule.lengths (length values)) (windows rule values) }
{}
