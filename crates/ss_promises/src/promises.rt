// What is promised to whoever runs the program: laws of what `run` ensures, each the contract of a function that does nothing. A run
// is told by what its arguments ask for (`mode`), by its disk before and after, by what its source has left before and after (`left`,
// `rest`), by what its sink holds before and after (`held`, `holds`), and by the number that it answers. Each law begins with the
// clause of `run` from which it follows.
ghost use Rattle.std.specs.Prelude.{◌≡◌, ◌+◌, ◌-◌, ◌≤◌, ◌++◌, ℕ, List, Option, Some, None, take, length, IsTrue, IsSome};
ghost use Rattle.ss_arguments.specs.declared.mode.Form.{Form};
ghost use Rattle.ss_arguments.specs.declared.mode.Mode.{Mode};
ghost use Rattle.ss_arguments.specs.declared.mode.Sealing.{Sealing};
ghost use Rattle.ss_model.specs.State.{Stream};
ghost use Rattle.ss_outside.specs.Crash.{OnlyReads};
ghost use Rattle.ss_outside.specs.Disk.{Between, WhereTold, NothingPending};
ghost use Rattle.ss_outside.specs.Verdict.{Rose};
ghost use Rattle.ss_store.specs.Recover.{Recovers, Stands};
ghost use Rattle.ss_store.specs.Surveyed.{survey_of};
ghost use Rattle.ss_program.specs.Checked.{survey_line};
ghost use Rattle.ss_program.specs.Devices.{over};
ghost use Rattle.ss_program.specs.Ending.{IsRefusedContent};
ghost use Rattle.ss_program.specs.Generated.{summary};
ghost use Rattle.ss_program.specs.Held.{StandsForFirst, acks};
ghost use Rattle.ss_program.specs.Line.{History};
ghost use Rattle.ss_program.specs.Outcome.{steps_within};
ghost use Rattle.ss_program.specs.Promises.{BeginsOver, ChecksBy, FinishesBy, GeneratesBy, RejectsBy, ServesBy};
ghost use Rattle.ss_program.specs.Sent.{appended};
ghost use Rattle.ss_program.specs.Report.{accepted, report, report_so_far};
ghost use Rattle.ss_program.specs.Status.{EndsAs};
ghost use Rattle.ss_program.specs.Steps.{steps};
ghost use Rattle.ss_program.specs.Talk.{begun};
ghost use Rattle.ss_promises.specs.Acked.{HoldsOks};

use ss_arguments::{Mode, Sealing};
use ss_outside::Disk;
use ss_program::Status;

/// What a run over an input leaves, in fixed form: of the report, and of the events on the disk, also by a crash.
pub fn runs_hold_what_they_acknowledge<D: Disk>(old: &D, new: &D)
    // A run that ends with 0 has replied to every line of its input: the sink got the whole report, and the store holds all
    // events that were accepted.
    ensures done { (mode : Option Mode) (left rest held holds : Option (List ℕ)) (number : ℕ) →
        ServesBy mode (D.seen old.now) (D.seen new.now) left rest held holds number →
        (form : Form) (sealing : Sealing) (history : History) (input : List ℕ) →
        BeginsOver form sealing mode (D.seen old.now) left history input → EndsAs number Status.Done →
        (holds ≡ appended held (report (begun form history) input))
        × Stands (history ++ accepted (begun form history) (steps form input)) (D.seen new.now).told.content }
    // A crash at any moment of the run leaves what stood before it and some first of the events that are accepted.
    ensures any_moment { (mode : Option Mode) (left rest held holds : Option (List ℕ)) (number : ℕ) →
        ServesBy mode (D.seen old.now) (D.seen new.now) left rest held holds number → (status : Status) → EndsAs number status →
        (form : Form) (sealing : Sealing) (history : History) (input : List ℕ) →
        BeginsOver form sealing mode (D.seen old.now) left history input → (image : List ℕ) →
        (D.seen new.now).told.left_since (D.seen old.now).told.moment image →
        StandsForFirst history (accepted (begun form history) (steps form input)) image }
    // However a run ends, whatever a crash leaves after it holds each event whose reply the sink got, and at most one more where each
    // event is sealed by itself.
    ensures acked_held { (mode : Option Mode) (left rest held holds : Option (List ℕ)) (number : ℕ) →
        ServesBy mode (D.seen old.now) (D.seen new.now) left rest held holds number → (status : Status) → EndsAs number status →
        (form : Form) (history : History) (input : List ℕ) →
        BeginsOver form Sealing.Each mode (D.seen old.now) left history input → (had has : List ℕ) →
        held ≡ Some had → holds ≡ Some has → (image : List ℕ) → (D.seen new.now).told.may_leave image →
        (j : ℕ) × (acks (begun form history) (steps form input) (length has - length had) ≤ j)
        × (j ≤ acks (begun form history) (steps form input) (length has - length had) + 1)
        × Stands (history ++ take j (accepted (begun form history) (steps form input))) image }
    // Where events share seals, it holds each event whose reply the sink got, and none but those of the lines that were read.
    ensures shared_held { (mode : Option Mode) (left rest held holds : Option (List ℕ)) (number : ℕ) →
        ServesBy mode (D.seen old.now) (D.seen new.now) left rest held holds number → (status : Status) → EndsAs number status →
        (form : Form) (history : History) (input : List ℕ) →
        BeginsOver form Sealing.Shared mode (D.seen old.now) left history input → (had has : List ℕ) →
        held ≡ Some had → holds ≡ Some has → (image : List ℕ) → (D.seen new.now).told.may_leave image →
        (j : ℕ) × (read others : List ℕ) × (read ++ others ≡ input) × (rest ≡ Some others)
        × (acks (begun form history) (steps form input) (length has - length had) ≤ j)
        × (j ≤ length (accepted (begun form history) (steps_within form read others)))
        × Stands (history ++ take j (accepted (begun form history) (steps form input))) image }
    // However a run ends, whatever a crash leaves after it holds each event whose `ok` the sink got whole, though it got no more of what is
    // said to the line: at most one more where each event is sealed by itself, and none but those of the lines that were read.
    ensures ok_held { (mode : Option Mode) (left rest held holds : Option (List ℕ)) (faults faulted number : ℕ) →
        ServesBy mode (D.seen old.now) (D.seen new.now) left rest held holds number →
        FinishesBy mode (over (D.seen old.now) held faults) (over (D.seen new.now) holds faulted) number →
        (status : Status) → EndsAs number status → (form : Form) (sealing : Sealing) (history : History) (input : List ℕ) →
        BeginsOver form sealing mode (D.seen old.now) left history input → (had has : List ℕ) →
        held ≡ Some had → holds ≡ Some has → (image : List ℕ) → (D.seen new.now).told.may_leave image →
        HoldsOks sealing (begun form history) input rest (length has - length had) status image }
    // Where a read of the source fails, the sink got the whole reply to each line that had ended in what was read, and nothing more. No
    // run can know before that a read will fail, so this is what it sent before each read.
    ensures asked_again { (mode : Option Mode) (left rest held holds : Option (List ℕ)) (number : ℕ) →
        ServesBy mode (D.seen old.now) (D.seen new.now) left rest held holds number →
        (form : Form) (sealing : Sealing) (history : History) (input : List ℕ) →
        BeginsOver form sealing mode (D.seen old.now) left history input → EndsAs number Status.SourceFault →
        (read others : List ℕ) × (read ++ others ≡ input) × (rest ≡ Some others)
        × (holds ≡ appended held (report_so_far (begun form history) read)) }
    // Where memory ran out it holds no more than those whose reply the sink got.
    ensures starved { (mode : Option Mode) (left rest held holds : Option (List ℕ)) (number : ℕ) →
        ServesBy mode (D.seen old.now) (D.seen new.now) left rest held holds number →
        (form : Form) (sealing : Sealing) (history : History) (input : List ℕ) →
        BeginsOver form sealing mode (D.seen old.now) left history input → EndsAs number Status.OutOfMemory →
        (had has : List ℕ) → held ≡ Some had → holds ≡ Some has → (image : List ℕ) → (D.seen new.now).told.may_leave image →
        Stands (history ++ take (acks (begun form history) (steps form input) (length has - length had))
        (accepted (begun form history) (steps form input))) image }
{}

/// What a check and a run over a generated file say.
pub fn checks_and_generated_files_are_told<D: Disk>(old: &D, new: &D)
    // A check writes nothing, whatever the disk holds. Where it ends with 0, it has said what the store has.
    ensures check_unwritten { (held holds : Option (List ℕ)) (number : ℕ) (status : Status) →
        ChecksBy (Some Mode.Check) (D.seen old.now) (D.seen new.now) held holds number → EndsAs number status →
        Between (D.seen old.now) (D.seen new.now) OnlyReads }
    ensures checked { (held holds : Option (List ℕ)) (number : ℕ) →
        ChecksBy (Some Mode.Check) (D.seen old.now) (D.seen new.now) held holds number → EndsAs number Status.Done →
        IsTrue (D.seen old.now).tells → (streams : List Stream) → Recovers streams (D.seen old.now).told.content →
        holds ≡ appended held (survey_line (survey_of streams)) }
    // A run over a generated file that ends with 0 has said the whole summary.
    ensures generated { (held holds : Option (List ℕ)) (number seed count : ℕ) →
        GeneratesBy (Some (Mode.Gen seed count)) (D.seen old.now) (D.seen new.now) held holds number → EndsAs number Status.Done →
        WhereTold (D.seen old.now) NothingPending → IsTrue (D.seen old.now).tells → (history : History) →
        Stands history (D.seen old.now).told.content → holds ≡ appended held (summary history seed count) }
{}

/// Each status that blames something comes of it. `faults` and `faulted` are the sink's counts of faults.
pub fn statuses_have_their_causes<D: Disk>(old: &D, new: &D)
    // A store that is no store or is damaged is never written, and no reply is made of it; 3 comes only of such a store.
    ensures refused { (mode : Option Mode) (held holds : Option (List ℕ)) (faults faulted number : ℕ) →
        FinishesBy mode (over (D.seen old.now) held faults) (over (D.seen new.now) holds faulted) number → IsSome mode →
        EndsAs number Status.RefusedStore → IsTrue (D.seen old.now).tells → IsRefusedContent (D.seen old.now).told.content }
    ensures refused_unwritten { (mode : Option Mode) (held holds : Option (List ℕ)) (faults faulted number : ℕ) →
        FinishesBy mode (over (D.seen old.now) held faults) (over (D.seen new.now) holds faulted) number → IsSome mode →
        (status : Status) → EndsAs number status → IsTrue (D.seen old.now).tells → IsRefusedContent (D.seen old.now).told.content →
        OnlyReads (D.seen old.now).told (D.seen new.now).told }
    // 2 comes only of arguments that aren't known.
    ensures usage { (mode : Option Mode) (held holds : Option (List ℕ)) (faults faulted number : ℕ) →
        FinishesBy mode (over (D.seen old.now) held faults) (over (D.seen new.now) holds faulted) number →
        EndsAs number Status.Usage → mode ≡ None }
    // 4 and 6 come only of a fault of the disk and of the sink, and 9 never of a disk that tells what it holds.
    ensures faults { (mode : Option Mode) (held holds : Option (List ℕ)) (faults faulted number : ℕ) →
        FinishesBy mode (over (D.seen old.now) held faults) (over (D.seen new.now) holds faulted) number →
        RejectsBy mode (over (D.seen old.now) held faults) (over (D.seen new.now) holds faulted) number →
        (EndsAs number Status.DiskFault → Rose (D.seen old.now).faults (D.seen new.now).faults)
        × (EndsAs number Status.SinkFault → Rose faults faulted)
        × (EndsAs number Status.RecordChanged → IsTrue (D.seen old.now).tells → ⊥) }
{}
