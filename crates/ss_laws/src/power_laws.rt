// Laws on power-law targets, each the contract of a function that does nothing.
ghost use Rattle.std.specs.Prelude.{◌≡◌, ◌+◌, ◌*◌, ◌^◌, ◌<◌, ◌≤◌, ℕ};
ghost use Rattle.ss_model.specs.Decay.{cover};
ghost use Rattle.ss_targets.specs.Power.{IsPower, power_length};
ghost use Rattle.ss_targets.specs.Windowing.{window_index};

/// The target window at an age is at most s * g ^ q long, for each g whose power p + q, times r * s / (p + q), is more than the age. So
/// lengths grow as the power q / (p + q) of the age. Where s is 1, each of the newest r values has a window of its own.
pub fn power_lengths_grow_with_age()
    ensures curve { (p q r s age g : ℕ) → IsPower p q r s → (p + q) * age < r * s * g ^ (p + q)
        → power_length p q r s (window_index (power_length p q r s) age) ≤ s * g ^ q }
    ensures newest { (p q r age : ℕ) → IsPower p q r 1 → age < r → power_length p q r 1 (window_index (power_length p q r 1) age) ≡ 1 }
{}

/// r * g ^ p windows cover n values, for each g whose power p + q, times r * s / (p + q), is at least n. So they grow as the power
/// p / (p + q) of n.
pub fn power_windows_are_few()
    ensures { (p q r s n g : ℕ) → IsPower p q r s → (p + q) * n ≤ r * s * g ^ (p + q) → cover (power_length p q r s) n ≤ r * g ^ p }
{}
