// What `--checked` asks of a store before a run.
ghost use Rattle.std.specs.Prelude.{◌≡◌, not, IfOk, Ok, true};
ghost use Rattle.ss_outside.specs.Step.{Step};
ghost use Rattle.ss_outside.specs.Verdict.{verdict};
ghost use Rattle.ss_journal.specs.Calls.{MakesChecked};
ghost use Rattle.ss_journal.specs.Format.{is_plain};
ghost use Rattle.ss_journal.specs.Steps.{Finds};

#[cfg(test)]
mod tests;

use crate::file_disk::FileDisk;
use crate::reason::Trouble;
use crate::system::System;
use ss_journal::{is_plain, make_checked};
use ss_outside::{Disk, Failed};

/// What is asked of a store before a run. `Make` marks a file that isn't formatted, so that it becomes a checked store, and `Look`
/// writes nothing. Both refuse a plain store. `Nothing` makes no call.
#[derive(Clone, Copy, Debug, PartialEq, Eq)]
pub enum Demand {
    Nothing,
    Make,
    Look,
}

// Whether the store is as it has to be.
fn is_met<D: Disk>(disk: &mut D, demand: Demand) -> Result<bool, Failed>
    ensures nothing { demand ≡ Demand.Nothing → (result ≡ Ok true) × (disk.new ≡ disk.old) }
    ensures made { demand ≡ Demand.Make → Step (verdict result) (D.seen disk.old) (D.seen disk.new) (MakesChecked result) }
    ensures looked { demand ≡ Demand.Look → Step (verdict result) (D.seen disk.old) (D.seen disk.new)
        (Finds (λ content. IfOk result (λ met. met ≡ not (is_plain content)))) }
{
    match demand {
        Demand::Nothing => Ok(true),
        Demand::Make => make_checked(disk),
        Demand::Look => {
            let plain = is_plain(disk)?;
            Ok(!plain)
        }
    }
}

/// Sees to it that the store is as it has to be. Where it isn't, or a call of the file failed, each later call fails.
pub fn meet<S: System>(disk: &mut FileDisk<S>, demand: Demand)
    ensures nothing { demand ≡ Demand.Nothing → disk.new ≡ disk.old }
{
    if let Ok(false) = is_met(disk, demand) {
        disk.refuse(Trouble::NotChecked);
    }
}
