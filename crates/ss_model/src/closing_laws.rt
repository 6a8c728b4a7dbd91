// Laws on joining the windows that are due, each the contract of a function that does nothing.
ghost use Rattle.std.specs.Prelude.{◌≡◌, ◌+◌, ℕ, ℤ, List, [], ◌∷◌, ◌++◌, length, IsTrue};
ghost use Rattle.std.specs.List.{list_all};
ghost use Rattle.ss_landmarks.specs.Landmark.{Landmark};
ghost use Rattle.ss_summary.specs.Summaries.{summary_of};
ghost use Rattle.ss_summary.specs.Points.{Point};
ghost use Rattle.ss_model.specs.Windows.{newest_time, taken, windows};
ghost use Rattle.ss_model.specs.Closed.{closed};
ghost use Rattle.ss_model.specs.Decay.{NoneIsDue};
ghost use Rattle.ss_model.specs.Joins.{JoinsDue, JoinsTwo};
ghost use Rattle.ss_model.specs.Marks.{lies_free};
ghost use Rattle.ss_targets.specs.Rule.{Rule};
ghost use Rattle.ss_model.specs.Tiling.{AreWindows};
ghost use Rattle.ss_model.specs.declared.types.Window.{Window};

/// Closing is confluent: where some neighbours that are due at n were joined before, however many and in whatever order,
/// closing gives the same. So windows that a crash left partly merged close to what they would have closed to.
pub fn closing_is_confluent()
    ensures { (rule : Rule) (n : ℕ) (old new : List Window) → AreWindows old → JoinsDue rule n old new →
        closed rule n new ≡ closed rule n old }
{}

/// Closing joins neighbours that are due and does nothing else, and whatever joins them until none is due has closed the
/// windows: the order has no effect.
pub fn closing_is_joining_what_is_due()
    ensures joins { (rule : Rule) (n : ℕ) (ws : List Window) → JoinsDue rule n ws (closed rule n ws) }
    ensures only_end { (rule : Rule) (n : ℕ) (old new : List Window) → AreWindows old → JoinsDue rule n old new →
        NoneIsDue rule n new → new ≡ closed rule n old }
{}

/// One join of two neighbours that are due is joining what is due, and so are joins after joins.
pub fn joins_add_up()
    ensures one { (rule : Rule) (n : ℕ) (old new : List Window) → JoinsTwo rule n old new → JoinsDue rule n old new }
    ensures in_a_row { (rule : Rule) (n : ℕ) (old between new : List Window) →
        JoinsDue rule n old between → JoinsDue rule n between new → JoinsDue rule n old new }
{}

/// Windows stay windows when some that are due are joined. They hold as many values and keep the newest time, and those that lie
/// among landmarks still do.
pub fn joining_due_keeps_windows()
    ensures windows { (rule : Rule) (n : ℕ) (old new : List Window) → AreWindows old → JoinsDue rule n old new → AreWindows new }
    ensures taken { (rule : Rule) (n : ℕ) (old new : List Window) → JoinsDue rule n old new → taken new ≡ taken old }
    ensures newest_time { (rule : Rule) (n : ℕ) (old new : List Window) → JoinsDue rule n old new → newest_time new ≡ newest_time old }
    ensures free { (rule : Rule) (n : ℕ) (old new : List Window) (landmarks : List Landmark) → AreWindows old → JoinsDue rule n old new →
        IsTrue (list_all (lies_free landmarks) old) → IsTrue (list_all (lies_free landmarks) new) }
{}

/// Closing what is closed changes nothing: windows that were just closed stay, and so do those of some values.
pub fn closing_again_changes_nothing()
    ensures of_closed { (rule : Rule) (n : ℕ) (ws : List Window) → AreWindows ws →
        closed rule n (closed rule n ws) ≡ closed rule n ws }
    ensures of_values { (rule : Rule) (values : List Point) →
        closed rule (length values) (windows rule values) ≡ windows rule values }
{}

/// Where one more value was put after the windows of some values, and of the joins that were due then any were made, as a
/// crash may leave them, closing gives the windows of all the values.
pub fn interrupted_joins_close_to_the_windows()
    ensures { (rule : Rule) (values : List Point) (p : Point) (ws : List Window) →
        JoinsDue rule (length values + 1)
        (windows rule values ++ record { first = length values + 1; summary = summary_of (p ∷ []) } ∷ []) ws →
        closed rule (length values + 1) ws ≡ windows rule (values ++ p ∷ []) }
{}
