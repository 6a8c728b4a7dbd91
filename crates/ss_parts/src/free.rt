// Windows among landmarks.
ghost use Rattle.std.specs.Prelude.{◌≡◌, ◌+◌, ◌≤◌};
ghost use Rattle.ss_landmarks.specs.Free.{is_free};
ghost use Rattle.ss_base.specs.declared.limits.TheConstants.{LAST_TIME};
ghost use Rattle.ss_summary.specs.Figures.{IsPossible};
ghost use Rattle.ss_model.specs.Marks.{lies_free};

use ss_base::Steps;
use ss_landmarks::Landmarks;
use ss_model::Window;
use std::sync::ledger::Ledger;

// Whether no landmark covers the time.
fn is_free<L: Ledger>(landmarks: &Landmarks, t: u64, searches: &mut Steps<L>) -> bool
    requires { t ≤ LAST_TIME }
    ensures free { result ≡ is_free landmarks.now.landmarks t }
    ensures one_search { searches.new ≡ searches.old + 1 }
{
    landmarks.free(t, t, searches) == 1
}

/// Whether no landmark covers an end of the window, and it has no more values than there are free times in it: three searches
/// of the landmarks at most.
#[tactic(auto, unfolding(ss_model::specs::Marks::lies_free))]
pub fn lies_free<L: Ledger>(landmarks: &Landmarks, window: &Window, searches: &mut Steps<L>) -> bool
    requires { IsPossible window.now.summary }
    ensures free { result ≡ lies_free landmarks.now.landmarks window.now }
    ensures searches { searches.new ≤ searches.old + 3 }
{
    let summary = window.summary;
    is_free(landmarks, summary.t_first, searches)
        && is_free(landmarks, summary.t_last, searches)
        && summary.count <= landmarks.free(summary.t_first, summary.t_last, searches)
}
