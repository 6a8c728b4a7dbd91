// Laws of frames that are written and followed, each the contract of a function that does nothing.
ghost use Rattle.std.specs.Prelude.{◌≡◌, ℕ, List, All, Option, Some, flat_map, true};
ghost use Rattle.ss_arguments.specs.declared.mode.Form.TheVariants.{Frames, Follow};
ghost use Rattle.ss_arguments.specs.declared.mode.Mode.{Mode};
ghost use Rattle.ss_arguments.specs.declared.mode.Sealing.{Sealing};
ghost use Rattle.ss_frames.specs.Frame.{FrameState, IsValidFrame, frame_spelled};
ghost use Rattle.ss_frames.specs.Pieces.{pieces};
ghost use Rattle.ss_model.specs.History.{Happened};
ghost use Rattle.ss_model.specs.Refusals.{IsHistory};
ghost use Rattle.ss_model.specs.State.{Stream, stream_named};
ghost use Rattle.ss_replica.specs.Fronts.{AreFronts, IsOfFront, drops_none};
ghost use Rattle.ss_replica.specs.Offers.{after_offers, offers};
ghost use Rattle.ss_report.specs.Text.{reply_line};
ghost use Rattle.ss_store.specs.Recover.{Recovers, Stands};
ghost use Rattle.ss_promises.specs.Followed.{AreSomeOf, FollowsPrimary, frames_after, frames_within, offer_reply, piece_replies};
ghost use Rattle.ss_program.specs.Line.{History};
ghost use Rattle.ss_program.specs.Promises.{BeginsOver, ServesBy};
ghost use Rattle.ss_program.specs.Report.{accepted, after_lines, report, text_of};
ghost use Rattle.ss_program.specs.Status.{EndsAs};
ghost use Rattle.ss_program.specs.Steps.{steps};
ghost use Rattle.ss_program.specs.Talk.{begun};

use ss_arguments::{Mode, Sealing};
use ss_outside::Disk;
use ss_program::Status;

/// What is written where frames are written is the frames of the events that are accepted of the lines, in their order, each with its
/// place among the events of its stream as the number, and nothing else. No event that is accepted there drops a stream.
pub fn reports_are_the_frames_of_accepted_events()
    ensures written { (history : History) (ls : List (List ℕ)) →
        text_of (begun Frames history) ls ≡ flat_map frame_spelled (frames_after history (accepted (begun Frames history) ls)) }
    ensures undropped { (history : History) (ls : List (List ℕ)) →
        All (λ (e : Happened). drops_none e.0 ≡ true) (accepted (begun Frames history) ls) }
{}

/// Valid frames that are followed, one after the other, are offered in their order: each has one reply, and those are applied that the
/// definitions apply. So what holds of replicas that are offered frames holds of stores that follow them.
pub fn followed_frames_are_offered()
    ensures said { (history : History) (frames : List FrameState) → All (λ f. IsValidFrame f.number f.event) frames →
        report (begun Follow history) (flat_map frame_spelled frames) ≡ flat_map (λ said. reply_line (offer_reply said)) (offers history frames) }
    ensures history { (history : History) (frames : List FrameState) → All (λ f. IsValidFrame f.number f.event) frames →
        (after_lines (begun Follow history) (steps Follow (flat_map frame_spelled frames))).history ≡ after_offers history frames }
{}

/// A follower that begins with the history of its primary, and is given all that is written there, has the history of the primary then.
pub fn followers_go_on_with_their_primary()
    ensures { (history : History) (ls : List (List ℕ)) → IsHistory history →
        (after_lines (begun Follow history) (steps Follow (text_of (begun Frames history) ls))).history ≡
        (after_lines (begun Frames history) ls).history }
{}

/// Any bytes may be followed. Each piece of 64 bytes has one reply, and so has what is left behind the last one: a valid frame is
/// offered, and each other piece is refused and adds nothing. What is added is the events of some of the valid frames, in their order,
/// each at its number.
pub fn any_bytes_are_followed()
    ensures said { (history : History) (input : List ℕ) → report (begun Follow history) input ≡ flat_map reply_line (piece_replies history (pieces input)) }
    ensures history { (history : History) (input : List ℕ) →
        (after_lines (begun Follow history) (steps Follow input)).history ≡ after_offers history (frames_within input) }
    ensures added { (history : History) (input : List ℕ) → IsHistory history →
        AreSomeOf (frames_after history (accepted (begun Follow history) (steps Follow input))) (frames_within input) }
{}

/// A store follows a primary by an input in which each valid frame is one of the primary's, whichever of them are missing, whatever is
/// broken between them and wherever it is cut (`FollowsPrimary`). Then each of its streams owns a front of what the primary's stream of the
/// same name owns, also in each image that a crash at any moment of the run may leave, and has the parameters, the windows and the
/// landmarks that this stream had after a front of the primary's history.
pub fn followers_own_fronts_of_their_primary<D: Disk>(old: &D, new: &D)
    ensures history { (primary history : History) (input : List ℕ) → FollowsPrimary primary history input → IsHistory history →
        AreFronts (after_lines (begun Follow history) (steps Follow input)).history primary }
    ensures any_moment { (mode : Option Mode) (left rest held holds : Option (List ℕ)) (number : ℕ) →
        ServesBy mode (D.seen old.now) (D.seen new.now) left rest held holds number → (status : Status) → EndsAs number status →
        (sealing : Sealing) (history : History) (input : List ℕ) → BeginsOver Follow sealing mode (D.seen old.now) left history input →
        (primary : History) → FollowsPrimary primary history input → (image : List ℕ) →
        (D.seen new.now).told.left_since (D.seen old.now).told.moment image → (then : History) × Stands then image × AreFronts then primary }
    ensures streams { (mode : Option Mode) (left rest held holds : Option (List ℕ)) (number : ℕ) →
        ServesBy mode (D.seen old.now) (D.seen new.now) left rest held holds number → (status : Status) → EndsAs number status →
        (sealing : Sealing) (history : History) (input : List ℕ) → BeginsOver Follow sealing mode (D.seen old.now) left history input →
        (primary : History) → FollowsPrimary primary history input → (image : List ℕ) →
        (D.seen new.now).told.left_since (D.seen old.now).told.moment image → (streams : List Stream) → Recovers streams image →
        (name : List ℕ) (s : Stream) → stream_named name streams ≡ Some s → IsOfFront primary name s }
{}
