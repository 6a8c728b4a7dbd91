// Runs of which each call fails in its turn.
use super::{Play, split};
use crate::bytes::number_of;
use crate::story::{Story, story_of};
use crate::sweeps::{sweep_calls, sweep_cuts, sweep_disk, sweep_feeds, sweep_openings};
use std::alloc::{AllocError, Global};

impl Play {
    // `openings`: each call of an opening of the disk fails with all later ones, and it crashes. The lines that ask are those of `?`.
    pub(super) fn sweep_disk(&mut self) -> Result<(), AllocError> {
        let said = sweep_disk(self.alloc, self.disk.device().content(), &self.asks)?;
        self.out.push_str(said.as_str())
    }

    // `cuts`: what a check says where the disk is cut to each length.
    pub(super) fn sweep_cuts(&mut self) -> Result<(), AllocError> {
        let said = sweep_cuts(self.alloc, self.disk.device().content())?;
        self.out.push_str(said.as_str())
    }

    // `behind COUNT`: the next sweep of openings begins behind so many syncs.
    pub(super) fn set_syncs(&mut self, word: &str) -> Result<(), AllocError> {
        match number_of(word) {
            Some(count) => {
                self.syncs = count;
                Ok(())
            }
            None => self.refuse(),
        }
    }

    // `sweep KIND [WORDS]`: the input is run so often on a new store that each call of a kind fails in its turn.
    pub(super) fn sweep(&mut self, rest: &str) -> Result<(), AllocError> {
        let (kind, mode) = split(rest);
        let story = story_of(
            self.alloc,
            mode,
            self.checked,
            self.piece,
            &self.input,
            &self.asks,
        )?;
        let said = said_of_sweep(self.alloc, kind, self.syncs, &story)?;
        self.forget();
        self.asks.clear();
        self.syncs = 0;
        match said {
            Some(said) => self.out.push_str(said.as_str()),
            None => self.refuse(),
        }
    }
}

// What is said of a sweep: `stop` has all calls of the disk fail from one on, `fail` each alone, `reads` and `puts` each read and put,
// and `openings` has each opening stop after each stop of the run.
fn said_of_sweep(
    alloc: Global,
    kind: &str,
    syncs: u64,
    story: &Story,
) -> Result<Option<String>, AllocError> {
    match kind {
        "stop" => Ok(Some(sweep_calls(alloc, story, true)?)),
        "fail" => Ok(Some(sweep_calls(alloc, story, false)?)),
        "reads" => Ok(Some(sweep_feeds(alloc, story, true)?)),
        "puts" => Ok(Some(sweep_feeds(alloc, story, false)?)),
        "openings" => Ok(Some(sweep_openings(alloc, story, syncs)?)),
        _ => Ok(None),
    }
}
