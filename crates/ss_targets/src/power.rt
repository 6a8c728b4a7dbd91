// The power-law family of targets.
ghost use Rattle.std.specs.Prelude.{◌≡◌, ◌+◌, ◌-◌, ◌*◌, ◌<◌, ◌≤◌, ◌↔◌, ℕ, IsOk, IfOk, IfSome, IfNone};
ghost use Rattle.ss_base.specs.Steps.{IsFresh};
ghost use Rattle.ss_targets.specs.FirstFit.{FindsOfLength, NoneOfLength};
ghost use Rattle.ss_targets.specs.Windowing.{cut, Holds};
ghost use Rattle.ss_targets.specs.Power.{group_length, group_size, IsPower, power_length};
ghost use Rattle.ss_targets.specs.PowerSum.{cap, power_sum};

use crate::power_sum::{cap_of_exponent, last_sum_within, power_sum_upto};
use crate::{Decay, GREATEST_SCALE, MOST_REPEAT, Param, Spot};
use ss_base::{MOST_VALUES, Steps};
use std::marker::Brand;
use std::sync::ledger::{Blank, Ledger};

/// The least P of a power-law target, by which group g has g^(P-1) times the windows of the first.
pub const LEAST_POWER: u32 = 1;

/// The greatest P of a power-law target.
pub const GREATEST_POWER: u32 = 4;

/// The greatest Q of a power-law target, by which group g has g^Q times the length of the first; the least is 0.
pub const GREATEST_WIDENING: u32 = 3;

/// How often the counter of `seek` ticks at most.
pub const MOST_TICKS: u64 = 44;

/// A target whose group g = 1, 2, 3, .. has `repeat * g^(power-1)` windows of length `scale * g^widening`, counted back from
/// the newest value. docs/DEFINITIONS.md ("Targets") has the first lengths of some.
#[derive(Clone, Copy, Debug, PartialEq, Eq)]
pub struct Power {
    power: u32,
    widening: u32,
    repeat: u32,
    scale: u32,
    ghost in_range: { IsPower power widening repeat scale },
}

impl Power {
    ghost use Rattle.ss_targets.specs.PowerFamily.{power_lengths, power_parameters};

    /// The target of P, 1 to 4, Q, 0 to 3, with `r` windows in the first group and the newest of length `s`, both 1 to
    /// 65536.
    pub fn new(p: u32, q: u32, r: u32, s: u32) -> Result<Power, Param>
        ensures exactly { IsOk result ↔ IsPower p q r s }
        ensures lengths { IfOk result (λ target. power_lengths target ≡ power_length p q r s) }
        ensures parameters { IfOk result (λ target. power_parameters target ≡ (p, q, r, s)) }
    {
        let power_in_range = LEAST_POWER <= p && p <= GREATEST_POWER;
        let repeat_in_range = 1 <= r && r <= MOST_REPEAT;
        let scale_in_range = 1 <= s && s <= GREATEST_SCALE;
        if power_in_range && q <= GREATEST_WIDENING && repeat_in_range && scale_in_range {
            Ok(Power {
                power: p,
                widening: q,
                repeat: r,
                scale: s,
            })
        } else {
            Err(Param)
        }
    }

    /// P, Q, R and S, as `new` took them.
    pub fn parameters(&self) -> (u32, u32, u32, u32)
        ensures { result ≡ power_parameters self.now }
    {
        (self.power, self.widening, self.repeat, self.scale)
    }

    /// The window that holds an age, as `window_at` gives it. Its group is found by halves, in at most `MOST_TICKS` ticks.
    pub fn seek<L: Ledger>(&self, age: u64, steps: &mut Steps<L>) -> Spot
        requires { age ≤ MOST_VALUES }
        ensures holds { Holds (power_lengths self.now) result.index age }
        ensures start { result.start ≡ cut (power_lengths self.now) result.index }
        ensures len { result.len ≡ power_lengths self.now result.index }
        ensures ticks { steps.new ≤ steps.old + MOST_TICKS }
    {
        let group = last_sum_within(self.exponent(), age / self.unit(), steps);
        let first = self.first_of_group(group, steps);
        let place = (age - first.start) / first.len;
        Spot {
            index: first.index + place,
            start: first.start + place * first.len,
            len: first.len,
        }
    }

    // The exponent of the power sums at which groups start.
    fn exponent(&self) -> u32
        ensures { result ≡ self.now.power - 1 + self.now.widening }
    {
        self.power - 1 + self.widening
    }

    // By how much a group starts later for each one more in its power sum.
    fn unit(&self) -> u64
        ensures { result ≡ self.now.repeat * self.now.scale }
    {
        u64::from(self.repeat) * u64::from(self.scale)
    }

    // The length of the windows of the group with so many newer ones.
    fn length_of_group(&self, newer: u64) -> u64
        requires { newer < cap (self.now.power - 1 + self.now.widening) }
        ensures { result ≡ group_length self.now.widening self.now.scale newer }
    {
        u64::from(self.scale) * (newer + 1).pow(self.widening)
    }

    // The first window of the group with so many newer ones, where it starts at the greatest age or before.
    fn first_of_group<L: Ledger>(&self, newer: u64, steps: &mut Steps<L>) -> Spot
        requires capped { newer < cap (self.now.power - 1 + self.now.widening) }
        requires early { self.now.repeat * self.now.scale * power_sum (self.now.power - 1 + self.now.widening) newer ≤ MOST_VALUES }
        ensures index { result.index ≡ cut (group_size self.now.power self.now.repeat) newer }
        ensures start { result.start ≡ self.now.repeat * self.now.scale * power_sum (self.now.power - 1 + self.now.widening) newer }
        ensures len { result.len ≡ group_length self.now.widening self.now.scale newer }
        ensures ticks { steps.new ≡ steps.old + 2 }
    {
        Spot {
            index: u64::from(self.repeat) * power_sum_upto(self.power - 1, newer, steps),
            start: self.unit() * power_sum_upto(self.exponent(), newer, steps),
            len: self.length_of_group(newer),
        }
    }

    // How many groups have shorter windows than a length, of those below the cap: by halves.
    fn shorter_groups(&self, len: u64) -> u64
        ensures short { (newer : ℕ) → newer < result → group_length self.now.widening self.now.scale newer < len }
        ensures long { result < cap (self.now.power - 1 + self.now.widening) → len ≤ group_length self.now.widening self.now.scale result }
        ensures capped { result ≤ cap (self.now.power - 1 + self.now.widening) }
    {
        let mut low = 0;
        let mut high = cap_of_exponent(self.exponent());
        while low < high {
            let middle = low + (high - low) / 2;
            if self.length_of_group(middle) < len {
                low = middle + 1;
            } else {
                high = middle;
            }
        }
        low
    }

    // The window of an age, and no count of the ticks.
    fn seek_uncounted<L: Ledger>(&self, age: u64, blank: Blank) -> Spot
        requires fresh { IsFresh L.name L.parts blank }
        requires recent { age ≤ MOST_VALUES }
        ensures holds { Holds (power_lengths self.now) result.index age }
        ensures start { result.start ≡ cut (power_lengths self.now) result.index }
        ensures len { result.len ≡ power_lengths self.now result.index }
    {
        self.seek(age, &mut Steps::<L>::new(blank))
    }

    // The first window of the first group whose windows have at least a length.
    fn first_long<L: Ledger>(&self, len: u64, blank: Blank) -> Option<Spot>
        requires { IsFresh L.name L.parts blank }
        ensures some { IfSome result (FindsOfLength (power_lengths self.now) 0 len) }
        ensures none { IfNone result (NoneOfLength (power_lengths self.now) 0 len) }
    {
        let mut steps = Steps::<L>::new(blank);
        let group = self.shorter_groups(len);
        if MOST_VALUES / self.unit() < power_sum_upto(self.exponent(), group, &mut steps) {
            return None;
        }
        Some(self.first_of_group(group, &mut steps))
    }
}

impl Decay for Power {
    ghost use Rattle.ss_targets.specs.PowerFamily.{power_lengths};
    ghost use Rattle.ss_targets.specs.PowerLaws.{power_length-never_falls, power_length-positive};

    ghost length_of = { power_lengths };

    ghost positive = { λ target. power_length-positive target.in_range };

    ghost never_falls = { λ target. power_length-never_falls target.in_range };

    fn window_at(&self, age: u64) -> Spot {
        self.seek_uncounted::<Brand>(age, Blank::new(1))
    }

    fn first_at_least(&self, len: u64) -> Option<Spot> {
        self.first_long::<Brand>(len, Blank::new(1))
    }
}
