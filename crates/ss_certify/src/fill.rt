// Values of which the number, the sum, the least and the greatest are given.
ghost use Rattle.std.specs.Prelude.{◌≡◌, ◌+◌, ◌<◌, ◌≤◌, pos, unsigned_abs, ◌+ℤ◌, ◌-ℤ◌, ◌*ℤ◌, ◌≤ℤ◌, [], ◌++◌};
ghost use Rattle.arrayvec.specs.ArrayVec.{array_vec_len};
ghost use Rattle.ss_certify.specs.Fill.{fill, raised, run_before};

use arrayvec::ArrayVec;
use ss_base::MOST_VALUES;
use ss_model::Run;

// A run more, unless it has no value.
fn add_run(runs: &mut ArrayVec<Run, 3>, value: i64, times: u64)
    requires { array_vec_len runs.old < 3 }
    ensures items { runs.new.items ≡ runs.old.items ++ run_before value times [] }
    ensures len { array_vec_len runs.new ≤ array_vec_len runs.old + 1 }
{
    if times > 0 {
        runs.push(Run { value, times });
    }
}

// How far a sum is above that of `count` times the least value.
fn above(count: u64, sum: i128, min: i64) -> u128
    requires { count ≤ MOST_VALUES }
    ensures { result ≡ unsigned_abs (sum -ℤ (pos count *ℤ min)) }
{
    sum.abs_diff(i128::from(count) * i128::from(min))
}

// `count` values: `most` times the greatest, one that is `rest` more than the least where there is a rest, and otherwise the
// least.
fn raised(count: u64, min: i64, max: i64, most: u64, rest: u64) -> ArrayVec<Run, 3>
    requires most { most ≤ count }
    requires room { 0 < rest → most < count }
    requires value { (min +ℤ pos rest) ≤ℤ max }
    ensures { result.items ≡ raised count min max most rest }
{
    let mut runs = ArrayVec::new();
    if rest == 0 {
        add_run(&mut runs, min, count - most);
    } else {
        add_run(&mut runs, min, count - most - 1);
        add_run(&mut runs, min.strict_add_unsigned(rest), 1);
    }
    add_run(&mut runs, max, most);
    runs
}

/// `count` values from `min` to `max` with this sum, from the least to the greatest: no more than one of them is neither.
pub fn fill(count: u64, sum: i128, min: i64, max: i64) -> ArrayVec<Run, 3>
    requires few { count ≤ MOST_VALUES }
    requires order { min ≤ℤ max }
    requires low { (pos count *ℤ min) ≤ℤ sum }
    requires high { sum ≤ℤ (pos count *ℤ max) }
    ensures { result.items ≡ fill count sum min max }
{
    let apart = u128::from(max.abs_diff(min));
    if apart == 0 {
        let mut runs = ArrayVec::new();
        add_run(&mut runs, min, count);
        return runs;
    }
    let above = above(count, sum, min);
    raised(
        count,
        min,
        max,
        (above / apart) as u64,
        (above % apart) as u64,
    )
}
