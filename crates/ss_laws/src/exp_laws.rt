// Laws on exponential targets, each the contract of a function that does nothing.
ghost use Rattle.std.specs.Prelude.{◌≡◌, ◌+◌, ◌-◌, ◌*◌, ◌^◌, ◌<◌, ◌≤◌, ℕ};
ghost use Rattle.ss_model.specs.Decay.{cover};
ghost use Rattle.ss_targets.specs.Exp.{IsExp, exp_length};
ghost use Rattle.ss_targets.specs.Windowing.{window_index};

/// The target window at an age is at most (b - 1) / r times as long as the age, and s more. Where s is 1, each of the newest r values
/// has a window of its own.
pub fn exp_lengths_grow_with_age()
    ensures line { (b r s age : ℕ) → IsExp b r s → r * exp_length b r s (window_index (exp_length b r s) age) ≤ (b - 1) * age + r * s }
    ensures newest { (b r age : ℕ) → IsExp b r 1 → age < r → exp_length b r 1 (window_index (exp_length b r 1) age) ≡ 1 }
{}

/// So many groups of r windows cover n values where the lengths of these groups add up to n. That is a logarithm of n.
pub fn exp_windows_are_few()
    ensures { (b r s n g : ℕ) → IsExp b r s → (b - 1) * n ≤ r * s * (b ^ g - 1) → cover (exp_length b r s) n ≤ r * g }
{}
