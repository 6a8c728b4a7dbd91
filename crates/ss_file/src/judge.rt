// What a device answers where the system answers a call of it.
ghost use Rattle.std.specs.Prelude.{◌≡◌, ◌⊎◌, ◌↔◌, None, Some, IsErr, IsSome, Ok, IfErr, IfOk, OnErr, OnOk};
ghost use Rattle.ss_outside.specs.Verdict.{HasCause};
ghost use Rattle.ss_outside.specs.Memory.{one_more};

use ss_outside::Failed;
use std::io::{self, ErrorKind};

/// Passes on what the system answered. A failure is counted, and why the first one came is kept.
pub fn judge<T: Drop, E: Drop>(
    answer: Result<T, E>,
    faults: &mut u64,
    why: &mut Option<E>,
) -> Result<T, Failed>
    ensures fails { IsErr result ↔ IsErr answer }
    ensures passes { IfOk result (λ value. answer ≡ Ok value) }
    ensures counts { OnErr result (faults.new ≡ one_more faults.old) }
    ensures cause { HasCause faults.old faults.new result }
    ensures tells { IfErr answer (λ error. why.old ≡ None → why.new ≡ Some error) }
    ensures first { IsSome why.old → why.new ≡ why.old }
    ensures keeps { OnOk result (why.new ≡ why.old) }
{
    match answer {
        Ok(value) => Ok(value),
        Err(error) => {
            *faults = faults.saturating_add(1);
            if why.is_none() {
                *why = Some(error);
            }
            Err(Failed)
        }
    }
}

/// A write that moved nothing has failed.
pub fn require_some(moved: io::Result<usize>) -> io::Result<usize>
    ensures fails { IsErr result ↔ IsErr moved ⊎ (moved ≡ Ok 0) }
    ensures passes { IfOk result (λ count. moved ≡ Ok count) }
{
    match moved {
        Ok(0) => Err(io::Error::from(ErrorKind::WriteZero)),
        answer => answer,
    }
}
