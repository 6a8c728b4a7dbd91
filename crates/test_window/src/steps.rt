// A counter in use, and a caller that counts nothing.
ghost use Rattle.std.specs.Prelude.{◌≡◌, ◌+◌};
ghost use Rattle.ss_base.specs.Steps.{IsFresh};

use ss_base::Steps;
use std::marker::Brand;
use std::sync::ledger::{Blank, Ledger};

fn two<L: Ledger>(steps: &mut Steps<L>) -> u32
    ensures { steps.new ≡ steps.old + 2 }
{
    steps.tick();
    steps.tick();
    2
}

fn two_uncounted<L: Ledger>(blank: Blank) -> u32
    requires { IsFresh L.name L.parts blank }
{
    two(&mut Steps::<L>::new(blank))
}

#[test]
fn a_caller_that_counts_nothing() {
    let _ = two_uncounted::<Brand>(Blank::new(1));
}
