// Laws over the definitions, each the contract of a function that does nothing.
ghost use Rattle.std.specs.Prelude.{◌≡◌, ◌+◌, ◌<◌, ◌≤◌, ℕ, List, [], ◌∷◌, ◌++◌, length, Some};
ghost use Rattle.ss_summary.specs.Figures.{IsPossible};
ghost use Rattle.ss_summary.specs.Summaries.{summary_of, joined};
ghost use Rattle.ss_summary.specs.Points.{Point};
ghost use Rattle.ss_model.specs.Windows.{windows, taken, newest_time, time_of_last};
ghost use Rattle.ss_model.specs.Closed.{closed, joined_window, last_position};
ghost use Rattle.ss_targets.specs.Rule.{Rule};
ghost use Rattle.ss_model.specs.Tiling.{AreWindows, AreNeighbours};
ghost use Rattle.ss_model.specs.declared.types.Window.{Window};

use ss_base::MOST_VALUES;

/// Incremental equals from scratch: the windows of one more value are the windows before and the new value as a
/// window of its own, where each run of neighbours that may be one is joined.
pub fn incremental_is_from_scratch()
    ensures { (rule : Rule) (values : List Point) (p : Point) →
        windows rule (values ++ p ∷ [])
        ≡ closed rule (length values + 1)
        (windows rule values ++ record { first = length values + 1; summary = summary_of (p ∷ []) } ∷ []) }
{}

/// The windows of some values hold as many.
pub fn windows_count_values()
    ensures { (rule : Rule) (values : List Point) → taken (windows rule values) ≡ length values }
{}

/// The newest time of the windows of some values is that of the last value.
pub fn windows_end_last()
    ensures { (rule : Rule) (values : List Point) → newest_time (windows rule values) ≡ time_of_last values }
{}

/// Windows stay windows when a later value is put after them as a window of its own.
pub fn append_keeps_windows()
    ensures { (ws : List Window) (p : Point) → AreWindows ws → taken ws < MOST_VALUES →
        ((old : ℕ) → newest_time ws ≡ Some old → old < p.0) → IsPossible (summary_of (p ∷ [])) →
        AreWindows (ws ++ record { first = taken ws + 1; summary = summary_of (p ∷ []) } ∷ []) }
{}

/// Windows stay windows when two side by side are joined.
pub fn joining_keeps_windows()
    ensures { (us vs : List Window) (w v : Window) → AreWindows (us ++ w ∷ v ∷ vs) →
        IsPossible (joined w.summary v.summary) → AreWindows (us ++ joined_window w v ∷ vs) }
{}

/// Windows stay windows when those that are due are joined.
pub fn closing_keeps_windows()
    ensures { (rule : Rule) (n : ℕ) (ws : List Window) → AreWindows ws → AreWindows (closed rule n ws) }
{}

/// Joining what is due loses no value.
pub fn closing_keeps_taken()
    ensures { (rule : Rule) (n : ℕ) (ws : List Window) → taken (closed rule n ws) ≡ taken ws }
{}

/// Joining what is due keeps the newest time.
pub fn closing_keeps_newest_time()
    ensures { (rule : Rule) (n : ℕ) (ws : List Window) → newest_time (closed rule n ws) ≡ newest_time ws }
{}

/// Each window begins after the values before it, and its summary is possible.
pub fn windows_stand_in_place()
    ensures place { (us vs : List Window) (w : Window) → AreWindows (us ++ w ∷ vs) → w.first ≡ taken us + 1 }
    ensures possible { (us vs : List Window) (w : Window) → AreWindows (us ++ w ∷ vs) → IsPossible w.summary }
    ensures last { (us : List Window) (w : Window) → AreWindows (us ++ w ∷ []) → last_position w ≡ taken (us ++ w ∷ []) }
{}

/// What holds of two windows side by side.
pub fn windows_are_neighbours()
    ensures { (us vs : List Window) (w v : Window) → AreWindows (us ++ w ∷ v ∷ vs) → AreNeighbours w v }
{}
