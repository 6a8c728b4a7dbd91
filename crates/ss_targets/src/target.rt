// Targets of every family.
ghost use Rattle.std.specs.Prelude.{◌≡◌, ◌≤◌, ◌↔◌, ℕ, IsTrue, IsOk, IfOk, IfSome, IfNone};
ghost use Rattle.ss_targets.specs.FirstFit.{IsFirstFit};
ghost use Rattle.ss_targets.specs.Windowing.{Fits, fits};
ghost use Rattle.ss_targets.specs.Lengths.{has_target, lengths_of};
ghost use Rattle.ss_targets.specs.Rule.{in_step, rule_of, step_of};
ghost use Rattle.ss_catalog.specs.Params.{is_family, is_step, step_for};

use crate::{Decay, Exp, Param, Power, Spot};
use ss_base::MOST_VALUES;
use ss_catalog::{Family, Params};

/// The window lengths that a stream's windows are merged towards, counted back from the newest value.
/// docs/DEFINITIONS.md ("Targets") has the lengths of each family.
#[derive(Clone, Copy)]
pub enum Windows {
    Exp(Exp),
    Power(Power),
}

/// The window lengths of a stream, and the step of the clock that no window of it crosses a boundary of.
#[derive(Clone, Copy)]
pub struct Target {
    windows: Windows,
    // 0 for none.
    step: u32,
}

impl Windows {
    ghost use Rattle.ss_targets.specs.Targets.{family_of};

    // The windows of this family, if a target has them.
    fn of(family: Family) -> Result<Windows, Param>
        ensures exactly { IsOk result ↔ IsTrue (is_family family) }
        ensures family { IfOk result (λ windows. family_of windows ≡ family) }
    {
        match family {
            Family::Exp { b, r, s } => match Exp::new(b, r, s) {
                Ok(exp) => Ok(Windows::Exp(exp)),
                Err(Param) => Err(Param),
            },
            Family::Power { p, q, r, s } => match Power::new(p, q, r, s) {
                Ok(power) => Ok(Windows::Power(power)),
                Err(Param) => Err(Param),
            },
        }
    }

    // The family that they are of.
    fn family(&self) -> Family
        ensures { result ≡ family_of self.now }
    {
        match *self {
            Windows::Exp(exp) => {
                let (b, r, s) = exp.parameters();
                Family::Exp { b, r, s }
            }
            Windows::Power(power) => {
                let (p, q, r, s) = power.parameters();
                Family::Power { p, q, r, s }
            }
        }
    }
}

// The step that windows can keep to, as a number: 0 for none.
fn step_kept_to(within: Option<u32>) -> Result<u32, Param>
    ensures exactly { IsOk result ↔ IsTrue (is_step within) }
    ensures step { IfOk result (λ step. step_for step ≡ within) }
{
    match within {
        None => Ok(0),
        Some(0) => Err(Param),
        Some(step) => Ok(step),
    }
}

// Which step a time lies in.
fn step_of(step: u32, time: u64) -> u64
    ensures { result ≡ step_of step time }
{
    if step == 0 { 0 } else { time / step as u64 }
}

impl Target {
    ghost use Rattle.ss_targets.specs.Targets.{params_of};

    /// The target of these parameters. `Param` says that there is none.
    pub fn of(params: Params) -> Result<Target, Param>
        ensures exactly { IsOk result ↔ IsTrue (has_target params) }
        ensures params { IfOk result (λ target. params_of target ≡ params) }
    {
        let step = step_kept_to(params.within)?;
        let windows = Windows::of(params.family)?;
        Ok(Target { windows, step })
    }

    /// The parameters that it was made of.
    pub fn params(&self) -> Params
        ensures { result ≡ params_of self.now }
    {
        let within = if self.step == 0 {
            None
        } else {
            Some(self.step)
        };
        Params {
            family: self.windows.family(),
            within,
        }
    }

    /// Whether two times lie in one step of the clock. Without a step all do.
    pub fn in_step(&self, t: u64, u: u64) -> bool
        ensures { result ≡ in_step (rule_of (params_of self.now)).step t u }
    {
        step_of(self.step, t) == step_of(self.step, u)
    }

    /// Whether the positions l to r, counted from 1, lie in one target window when n values have been taken.
    pub fn fits(&self, l: u64, r: u64, n: u64) -> bool
        requires first { 1 ≤ l }
        requires order { l ≤ r }
        requires taken { r ≤ n }
        requires few { n ≤ MOST_VALUES }
        ensures { result ≡ fits (lengths_of (params_of self.now)) l r n }
    {
        self.window_at(n - l).start <= n - r
    }

    /// The least count, from n on, at which the positions l to r, counted from 1, lie in one target window. None says
    /// that they lie in one at no count up to the greatest. docs/DEFINITIONS.md ("First fits") has the rule.
    pub fn first_fit(&self, l: u64, r: u64, n: u64) -> Option<u64>
        requires first { 1 ≤ l }
        requires order { l ≤ r }
        requires taken { r ≤ n }
        requires few { n ≤ MOST_VALUES }
        ensures some { IfSome result (IsFirstFit (lengths_of (params_of self.now)) l r n) }
        ensures few { IfSome result (λ m. m ≤ MOST_VALUES) }
        ensures none { IfNone result ((m : ℕ) → n ≤ m → m ≤ MOST_VALUES → ¬ Fits (lengths_of (params_of self.now)) l r m) }
    {
        if self.fits(l, r, n) {
            return Some(n);
        }
        let newest = self.window_at(n - r);
        let next = self.next_at_least(newest, r - l + 1)?;
        let count = r + next.start;
        if count <= MOST_VALUES {
            Some(count)
        } else {
            None
        }
    }
}

impl Decay for Target {
    ghost use Rattle.ss_targets.specs.Targets.{lengths-never_fall, lengths-positive, target_lengths};

    ghost length_of = { target_lengths };

    ghost positive = { lengths-positive };

    ghost never_falls = { lengths-never_fall };

    fn window_at(&self, age: u64) -> Spot {
        match self.windows {
            Windows::Exp(exp) => exp.window_at(age),
            Windows::Power(power) => power.window_at(age),
        }
    }

    fn first_at_least(&self, len: u64) -> Option<Spot> {
        match self.windows {
            Windows::Exp(exp) => exp.first_at_least(len),
            Windows::Power(power) => power.first_at_least(len),
        }
    }
}
