// What some runs say of their values.
ghost use Rattle.std.specs.Prelude.{◌≡◌, ◌↔◌, ◌*◌, ◌^◌, ◌≤◌, ◌≤ℤ◌, length, unsigned_abs, IsTrue};
ghost use Rattle.ss_base.specs.declared.limits.TheConstants.{MOST_VALUES};
ghost use Rattle.ss_certify.specs.Runs.{HaveValues, LieBetween, Occurs, run_count, run_total};

use ss_base::MOST_VALUES;
use ss_model::Run;

/// The most runs that are looked at together.
pub const MOST_RUNS: usize = 3;

// Whether each run has a value.
pub fn have_values(runs: &[Run]) -> bool
    ensures { IsTrue result ↔ HaveValues runs.now }
{
    runs.iter().all(|run| 1 <= run.times)
}

// Whether the values of a run are of `min` to `max`.
fn lies_between(run: &Run, min: i64, max: i64) -> bool
    ensures { IsTrue result ↔ ((min ≤ℤ run.now.value) × (run.now.value ≤ℤ max)) }
{
    min <= run.value && run.value <= max
}

// Whether each value is one of `min` to `max`.
pub fn lie_between(runs: &[Run], min: i64, max: i64) -> bool
    ensures { IsTrue result ↔ LieBetween min max runs.now }
{
    for run in runs {
        if !lies_between(run, min, max) {
            return false;
        }
    }
    true
}

// Whether a value is among those of the runs.
pub fn contains(runs: &[Run], value: i64) -> bool
    ensures { IsTrue result ↔ Occurs value runs.now }
{
    runs.iter().any(|run| run.value == value)
}

// How many values the runs have.
pub fn count(runs: &[Run]) -> u128
    requires { length runs.now ≤ MOST_RUNS }
    ensures value { result ≡ run_count runs.now }
    ensures near { result ≤ MOST_RUNS * 2 ^ 64 }
{
    let mut count = 0;
    for run in runs {
        count += u128::from(run.times);
    }
    count
}

// What the values add up to.
pub fn total(runs: &[Run]) -> i128
    requires { run_count runs.now ≤ MOST_VALUES }
    ensures value { result ≡ run_total runs.now }
    ensures near { unsigned_abs result ≤ run_count runs.now * 2 ^ 63 }
{
    let mut total = 0;
    for run in runs {
        total += i128::from(run.times) * i128::from(run.value);
    }
    total
}
