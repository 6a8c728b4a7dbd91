// The exponential family of targets.
ghost use Rattle.std.specs.Prelude.{◌≡◌, ◌≤◌, ◌↔◌, ℕ, IsOk, IfOk, IfSome, IfNone};
ghost use Rattle.ss_targets.specs.Exp.{exp_length, IsExp};
ghost use Rattle.ss_targets.specs.FirstFit.{FindsOfLength, NoneOfLength};
ghost use Rattle.ss_targets.specs.Windowing.{cut, Holds};

use crate::{Decay, Param, Spot};
use ss_base::MOST_VALUES;

/// The least base of an exponential target.
pub const LEAST_BASE: u32 = 2;

/// The greatest base of an exponential target.
pub const GREATEST_BASE: u32 = 16;

/// The most windows in a group of an exponential target.
pub const MOST_REPEAT: u32 = 65536;

/// The greatest length of the newest window of an exponential target.
pub const GREATEST_SCALE: u32 = 65536;

/// A target whose group g = 0, 1, 2, .. has `repeat` windows of length `scale * base^g`.
#[derive(Clone, Copy, Debug, PartialEq, Eq)]
pub struct Exp {
    base: u32,
    repeat: u32,
    scale: u32,
    ghost in_range: { IsExp base repeat scale },
}

impl Exp {
    ghost use Rattle.ss_targets.specs.ExpFamily.{exp_lengths, exp_parameters};

    /// The target of base `b`, 2 to 16, with `r` windows a group and the newest of length `s`, both 1 to 65536.
    pub fn new(b: u32, r: u32, s: u32) -> Result<Exp, Param>
        ensures exactly { IsOk result ↔ IsExp b r s }
        ensures lengths { IfOk result (λ target. exp_lengths target ≡ exp_length b r s) }
        ensures parameters { IfOk result (λ target. exp_parameters target ≡ (b, r, s)) }
    {
        let base_in_range = LEAST_BASE <= b && b <= GREATEST_BASE;
        let repeat_in_range = 1 <= r && r <= MOST_REPEAT;
        let scale_in_range = 1 <= s && s <= GREATEST_SCALE;
        if base_in_range && repeat_in_range && scale_in_range {
            Ok(Exp {
                base: b,
                repeat: r,
                scale: s,
            })
        } else {
            Err(Param)
        }
    }

    /// The base, the number of windows a group and the length of the newest, as `new` took them.
    pub fn parameters(&self) -> (u32, u32, u32)
        ensures { result ≡ exp_parameters self.now }
    {
        (self.base, self.repeat, self.scale)
    }
}

impl Decay for Exp {
    ghost use Rattle.ss_targets.specs.ExpLaws.{exp_length-never_falls, exp_length-positive};
    ghost use Rattle.ss_targets.specs.ExpFamily.{exp_lengths};

    ghost length_of = { exp_lengths };

    ghost positive = { λ target. exp_length-positive target.in_range };

    ghost never_falls = { λ target. exp_length-never_falls target.in_range };

    fn window_at(&self, age: u64) -> Spot {
        spot(
            u64::from(self.base),
            u64::from(self.repeat),
            u64::from(self.scale),
            age,
        )
    }

    fn first_at_least(&self, len: u64) -> Option<Spot> {
        first_long(
            u64::from(self.base),
            u64::from(self.repeat),
            u64::from(self.scale),
            len,
        )
    }
}

// The window of an age. The parameters come as wide as the age is.
fn spot(base: u64, repeat: u64, scale: u64, age: u64) -> Spot
    requires in_range { IsExp base repeat scale }
    requires recent { age ≤ MOST_VALUES }
    ensures holds { Holds (exp_length base repeat scale) result.index age }
    ensures start { result.start ≡ cut (exp_length base repeat scale) result.index }
    ensures len { result.len ≡ exp_length base repeat scale result.index }
{
    let mut group = 0u64;
    let mut start = 0u64;
    let mut len = scale;
    while repeat * len <= age - start {
        start += repeat * len;
        len *= base;
        group += 1;
    }
    let place = (age - start) / len;
    Spot {
        index: repeat * group + place,
        start: start + place * len,
        len,
    }
}

// The first window of the first group whose windows have at least a length.
fn first_long(base: u64, repeat: u64, scale: u64, wanted: u64) -> Option<Spot>
    requires { IsExp base repeat scale }
    ensures some { IfSome result (FindsOfLength (exp_length base repeat scale) 0 wanted) }
    ensures none { IfNone result (NoneOfLength (exp_length base repeat scale) 0 wanted) }
{
    let mut group = 0u64;
    let mut start = 0u64;
    let mut length = scale;
    while length < wanted {
        let span = repeat * length;
        if MOST_VALUES - start < span {
            return None;
        }
        start += span;
        length *= base;
        group += 1;
    }
    Some(Spot {
        index: repeat * group,
        start,
        len: length,
    })
}
