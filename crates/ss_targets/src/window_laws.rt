// Laws of target windows, each the contract of a function that does nothing.
ghost use Rattle.std.specs.Prelude.{◌≡◌, ◌+◌, ◌-◌, ◌*◌, ◌<◌, ◌≤◌, ◌↔◌, ℕ, true};
ghost use Rattle.ss_targets.specs.Exp.{exp_length, IsExp};
ghost use Rattle.ss_targets.specs.FirstFit.{IsFirstFit, IsFirstOfLength};
ghost use Rattle.ss_targets.specs.Groups.{grouped};
ghost use Rattle.ss_targets.specs.Windowing.{ArePositive, cut, Fits, fits, Holds, window_index, NeverFall};

/// The index of an age is that of the one window that holds it, as `window_at` gives it.
pub fn index_is_of_the_window_that_holds()
    ensures { (len : ℕ → ℕ) (i age : ℕ) → ArePositive len → Holds len i age → window_index len age ≡ i }
{}

/// The test `fits` is true exactly for positions that lie in one target window.
pub fn fits_is_one_window()
    ensures { (len : ℕ → ℕ) (l r n : ℕ) → ArePositive len → l ≤ r →
        (fits len l r n ≡ true) ↔ Fits len l r n }
{}

/// The windows of an exponential target are never empty, and never shorter than the one before.
pub fn exp_lengths_never_fall()
    ensures positive { (b r s : ℕ) → IsExp b r s → ArePositive (exp_length b r s) }
    ensures rising { (b r s : ℕ) → IsExp b r s → NeverFall (exp_length b r s) }
{}

/// Positions that lie in one target window first fit at once. Others first fit when the least later window that is long
/// enough begins at the newest of them, and never where there is no such window.
pub fn first_fit_is_now_or_in_a_longer_window()
    ensures now { (len : ℕ → ℕ) (l r n : ℕ) → Fits len l r n → IsFirstFit len l r n n }
    ensures later { (len : ℕ → ℕ) (l r n k : ℕ) → ArePositive len → l ≤ r → r ≤ n → ¬ Fits len l r n →
        IsFirstOfLength len (window_index len (n - r) + 1) (r - l + 1) k → IsFirstFit len l r n (r + cut len k) }
    ensures never { (len : ℕ → ℕ) (l r n : ℕ) → ArePositive len → l ≤ r → r ≤ n → ¬ Fits len l r n →
        ((k : ℕ) → window_index len (n - r) < k → len k < r - l + 1) → (m : ℕ) → n ≤ m → ¬ Fits len l r m }
{}

/// A group of windows starts where the groups before it end.
pub fn groups_follow_one_another()
    ensures { (sizes lengths : ℕ → ℕ) (g : ℕ) → ArePositive sizes →
        cut (grouped sizes lengths) (cut sizes g) ≡ cut (λ j. sizes j * lengths j) g }
{}
