// Laws of the power-law family, each the contract of a function that does nothing.
ghost use Rattle.std.specs.Prelude.{◌≡◌, ◌+◌, ◌-◌, ◌*◌, ◌<◌, ◌≤◌, ℕ};
ghost use Rattle.ss_targets.specs.Windowing.{ArePositive, cut, NeverFall};
ghost use Rattle.ss_base.specs.declared.limits.TheConstants.{MOST_VALUES};
ghost use Rattle.ss_targets.specs.Power.{group_size, IsPower, power_length};
ghost use Rattle.ss_targets.specs.PowerSum.{cap, power_sum};
ghost use Rattle.ss_targets.specs.declared.power_sum.TheConstants.{GREATEST_EXPONENT};

/// The windows of a power-law target are never empty, and never shorter than the one before.
pub fn power_lengths_never_fall()
    ensures positive { (p q r s : ℕ) → IsPower p q r s → ArePositive (power_length p q r s) }
    ensures rising { (p q r s : ℕ) → IsPower p q r s → NeverFall (power_length p q r s) }
{}

/// A group starts at r * s times the power sum of the groups before it, with the exponent p - 1 + q.
pub fn groups_start_at_power_sums()
    ensures { (p q r s g : ℕ) → IsPower p q r s →
        cut (power_length p q r s) (cut (group_size p r) g) ≡ r * s * power_sum (p - 1 + q) g }
{}

/// The sum up to each cap passes the greatest age, so the group of an age lies below the cap.
pub fn sums_at_caps_pass_every_age()
    ensures { (e : ℕ) → e ≤ GREATEST_EXPONENT → MOST_VALUES < power_sum e (cap e) }
{}
