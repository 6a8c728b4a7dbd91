// Laws of runs over one file, one after the other, each the contract of a function that does nothing.
ghost use Rattle.std.specs.Prelude.{◌≡◌, ◌+◌, ◌*◌, ◌<◌, ◌≤◌, ◌++◌, [], ◌∷◌, ℕ, List, IsTrue, length, max, take};
ghost use Rattle.ss_journal.specs.Format.{is_unborn};
ghost use Rattle.ss_journal.specs.declared.format.TheConstants.{FIRST_SLOT, MOST_SLOTS};
ghost use Rattle.ss_base.specs.declared.limits.TheConstants.{SLOT_SIZE};
ghost use Rattle.ss_stream.specs.Calls.{UsesAtMost};
ghost use Rattle.ss_store.specs.Recover.{Stands};
ghost use Rattle.ss_store.specs.Uses.{most_needed};
ghost use Rattle.ss_promises.specs.Chained.{AreLinked, ExtendsAll, Link, acked_in, offered_in};
ghost use Rattle.ss_program.specs.Line.{History};

use ss_outside::Disk;

/// Over any chain of runs, crashes and openings the file stands for one history, which holds every event whose `ok` the sink got in a run:
/// by the end of one that ended by itself, and by the crash of one that a crash cut off, seen as a run whose disk fails each call from the
/// crash on. Of a run that a crash cut off at some moment it holds some first accepted events. Each run begins over what the one before
/// left, with nothing pending, in whichever mode, and ends in whichever way: with any status, whatever a crash leaves then, or by a crash
/// at any moment of it. A call that makes a store a checked one is a link as well. And the file never gets longer than the most records
/// that the history needs at a time make it, or than it was.
pub fn chains_of_runs_hold_one_history<D: Disk>()
    // Where the file stood for a history, it stands for one in the end that goes on from this, run after run by some first of the
    // events that are accepted in the run: at least all that are acknowledged, and at a status of 0 all (`Extends`).
    ensures one_history { (links : List (Link D)) (first last : List ℕ) (history : History) →
        Stands history first → AreLinked D.seen links first last → (now : History) × ExtendsAll links history now × Stands now last }
    // A file that isn't formatted yet, such as an empty one, stands for the history without an event.
    ensures from_nothing { (links : List (Link D)) (first last : List ℕ) → IsTrue (is_unborn first) → AreLinked D.seen links first last →
        (now : History) × ExtendsAll links [] now × Stands now last }
    // The file is no longer than it was, or than the most records that the history ever needed at a time: by the slots that it used first,
    // or by these records and one more, with the room of one more slot, of which bytes may stand in the file already.
    ensures short { (links : List (Link D)) (first last : List ℕ) (used : ℕ) (history : History) → Stands history first →
        UsesAtMost used first → AreLinked D.seen links first last → (now : History) × ExtendsAll links history now × Stands now last
        × (max used (most_needed now + 1) < MOST_SLOTS → length last < FIRST_SLOT + SLOT_SIZE * (max used (most_needed now + 1) + 1)) }
    // The history before stays.
    ensures stays { (links : List (Link D)) (history now : History) → ExtendsAll links history now → (more : History) × (now ≡ history ++ more) }
    // And the events of each run stay: those that were accepted of it, in their place, with all that were acknowledged.
    ensures holds { (before after : List (Link D)) (link : Link D) (history now : History) → ExtendsAll (before ++ link ∷ after) history now →
        (here more : History) × (j : ℕ) × ExtendsAll before history here × (acked_in link here ≤ j) × (j ≤ length (offered_in link here))
        × (now ≡ (here ++ take j (offered_in link here)) ++ more) }
{}
