// The parameters of a stream's target.
ghost use Rattle.std.specs.Prelude.{◌≡◌};
ghost use Rattle.ss_catalog.specs.Params.{in_range, is_family, is_scale, is_step};

/// The greatest base of an exponential target; the least is 2.
pub const GREATEST_BASE: u32 = 16;

/// The greatest P of a power-law target, by which group g has g^(P-1) times the windows of the first; the least is 1.
pub const GREATEST_POWER: u32 = 4;

/// The greatest Q of a power-law target, by which group g has g^Q times the length of the first; the least is 0.
pub const GREATEST_WIDENING: u32 = 3;

/// The greatest number of windows in a first group, and the greatest length of a first window; the least is 1.
pub const GREATEST_SCALE: u32 = 65536;

/// A family of window lengths with its parameters. docs/DEFINITIONS.md ("Targets") has the lengths that they give.
#[derive(Clone, Copy, Debug, PartialEq, Eq)]
pub enum Family {
    /// Group g = 0, 1, 2, .. has r windows of length s * b^g.
    Exp { b: u32, r: u32, s: u32 },
    /// Group g = 1, 2, 3, .. has r * g^(p-1) windows of length s * g^q.
    Power { p: u32, q: u32, r: u32, s: u32 },
}

/// The parameters of a target, as they were given: also those that no target has.
#[derive(Clone, Copy, Debug, PartialEq, Eq)]
pub struct Params {
    pub family: Family,
    /// The step of the clock, no boundary of which a window crosses, in the unit of the times. That of a target is at least 1.
    pub within: Option<u32>,
}

// Whether a number of windows or a length is one that a first group can have.
fn is_scale(value: u32) -> bool
    ensures { result ≡ is_scale value }
{
    1 <= value && value <= GREATEST_SCALE
}

// Whether windows can keep to a step.
fn is_step(within: Option<u32>) -> bool
    ensures { result ≡ is_step within }
{
    match within {
        None => true,
        Some(step) => 1 <= step,
    }
}

impl Family {
    // Whether a target has the lengths of this family.
    fn in_range(&self) -> bool
        ensures { result ≡ is_family self.now }
    {
        match *self {
            Family::Exp { b, r, s } => 2 <= b && b <= GREATEST_BASE && is_scale(r) && is_scale(s),
            Family::Power { p, q, r, s } => {
                1 <= p
                    && p <= GREATEST_POWER
                    && q <= GREATEST_WIDENING
                    && is_scale(r)
                    && is_scale(s)
            }
        }
    }
}

impl Params {
    /// Whether a target has these parameters.
    pub fn in_range(&self) -> bool
        ensures { result ≡ in_range self.now }
    {
        is_step(self.within) && self.family.in_range()
    }
}
