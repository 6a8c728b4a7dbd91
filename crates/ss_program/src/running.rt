// The top call.
ghost use Rattle.std.specs.Prelude.{
  ◌≡◌,
  ◌⊎◌,
  ◌+◌,
  ◌<◌,
  ◌≤◌,
  ℕ,
  List,
  [],
  Option,
  Some,
  None,
  length,
  drop,
  true,
  false,
  if◌then◌else◌,
  IsTrue,
  IsSome,
  IsNone,
  IfOk,
  IfErr,
  OnOk,
  OnErr,
};
ghost use Rattle.ss_outside.specs.Disk.{Between};
ghost use Rattle.ss_outside.specs.Source.{RoseBy};
ghost use Rattle.ss_outside.specs.Step.{Step};
ghost use Rattle.ss_outside.specs.Verdict.{Counted, HasCause, Rose};
ghost use Rattle.ss_store.specs.Recover.{Stands};
ghost use Rattle.ss_arguments.specs.Modes.{are_refused_at_once, mode_of, words_of};
ghost use Rattle.ss_program.specs.Amid.{IsAtFront, IsAtRest};
ghost use Rattle.ss_program.specs.Checked.{ChecksStore};
ghost use Rattle.ss_program.specs.Devices.{over};
ghost use Rattle.ss_program.specs.Ending.{Completes, Ends, Feeds, HasNumbers, IsRefusedContent, Unfed, served_by, serving};
ghost use Rattle.ss_program.specs.Generated.{GeneratesFrom};
ghost use Rattle.ss_program.specs.Line.{History};
ghost use Rattle.ss_program.specs.Outcome.{FeedsPiece, Reads, ReadsPiece, ServesInput, TakesFew};
ghost use Rattle.ss_program.specs.Progress.{sealing_by};
ghost use Rattle.ss_program.specs.Promises.{ChecksBy, FinishesBy, GeneratesBy, RejectsBy, ServesBy};
ghost use Rattle.ss_arguments.specs.declared.mode.Form.{Form};
ghost use Rattle.ss_arguments.specs.declared.mode.Sealing.{Sealing};
ghost use Rattle.ss_program.specs.Status.{EndsAs, EndsServing, disk_verdict, ended, sink_verdict, source_verdict, IsStop};

use crate::buffer::buffer_for;
use crate::check::check;
use crate::generate::generate;
use crate::input_run::InputRun;
use crate::refusing::{refuse, say_usage};
use crate::status::Status;
use ss_arguments::{Form, Mode, Sealing, mode_of};
use ss_outside::{Disk, Failed, Sink, Source};
use ss_store::Store;
use std::alloc::Global;

/// An input has at most this many bytes.
pub const LONGEST_INPUT: u64 = 1 << 36;

// Reads at most `room` bytes, as many as the buffer holds, answers each line that ends in them, and says how many there were: 0 at
// the end of the input.
fn read_piece<D: Disk, S: Source, K: Sink>(
    session: &mut InputRun,
    buffer: &mut [u8],
    room: u64,
    disk: &mut D,
    source: &mut S,
    sink: &mut K,
) -> Result<u64, Status>
    requires buffer { 0 < length buffer.old }
    requires room { 0 < room }
    // The source is asked only where no reply waits, and all is on the disk.
    requires rests { IsAtRest (D.seen disk.old) session.old }
    ensures reads { Step (disk_verdict (ended result)) (D.seen disk.old) (D.seen disk.new) (ReadsPiece room session.old session.new
        (S.left source.old) (S.left source.new) (K.held sink.old) (K.held sink.new) result) }
    ensures feeds { FeedsPiece room (length buffer.old) ((session.new ≡ session.old) × (K.held sink.new ≡ K.held sink.old) × (disk.new ≡ disk.old))
        (S.left source.old) (S.left source.new) (S.faults source.old) (S.faults source.new) (S.taken source.old) (S.taken source.new) result }
    ensures same { length buffer.new ≡ length buffer.old }
    ensures rests { OnOk result (IsAtRest (D.seen disk.new) session.new) }
    ensures status { IfErr result (λ status. (status ≡ Status.SourceFault) ⊎ IsStop (D.seen disk.old).tells status) }
    ensures sink { Counted (sink_verdict (ended result)) (K.faults sink.old) (K.faults sink.new) }
{
    let want = room.min(buffer.len() as u64) as usize;
    let into = &mut buffer[..want];
    match source.read(into) {
        Err(_) => Err(Status::SourceFault),
        Ok(count) => match session.take(&into[..count], disk, sink) {
            Ok(()) => Ok(count as u64),
            Err(status) => Err(status),
        },
    }
}

// Whether the input ends here. If not, one byte of it is gone.
fn is_at_end<S: Source>(source: &mut S) -> Result<bool, Failed>
    ensures ends { IfOk result (λ ends. (left : List ℕ) → S.left source.old ≡ Some left → ends ≡ true →
        (left ≡ []) × (S.left source.new ≡ Some [])) }
    ensures goes_on { IfOk result (λ ends. (left : List ℕ) → S.left source.old ≡ Some left → ends ≡ false →
        (0 < length left) × (S.left source.new ≡ Some (drop 1 left))) }
    ensures err { OnErr result (S.left source.new ≡ S.left source.old) }
    ensures cause { HasCause (S.faults source.old) (S.faults source.new) result }
    ensures taken { IfOk result (λ ends. RoseBy (if ends then 0 else 1) (S.taken source.old) (S.taken source.new)) }
    ensures untaken { OnErr result (S.taken source.new ≡ S.taken source.old) }
{
    let mut buffer = [0u8; 1];
    match source.read(&mut buffer) {
        Err(failed) => Err(failed),
        Ok(count) => Ok(count == 0),
    }
}

// Reads the source to its end, and answers each of its lines.
fn serve<D: Disk, S: Source, K: Sink>(
    session: &mut InputRun,
    buffer: &mut [u8],
    disk: &mut D,
    source: &mut S,
    sink: &mut K,
) -> Status
    requires buffer { 0 < length buffer.old }
    requires front { IsAtFront (D.seen disk.old) session.old }
    ensures known { EndsServing (D.seen disk.old).tells result }
    ensures source { Counted (source_verdict result) (S.faults source.old) (S.faults source.new) }
    ensures taken { TakesFew (S.taken source.old) (S.taken source.new) result }
    ensures sink { Counted (sink_verdict result) (K.faults sink.old) (K.faults sink.new) }
    ensures reads { (input : List ℕ) → S.left source.old ≡ Some input → Reads input (S.left source.new) result }
    ensures serves { Step (disk_verdict result) (D.seen disk.old) (D.seen disk.new) (λ a b. (input : List ℕ) → S.left source.old ≡ Some input →
        ServesInput session.old.form (sealing_by session.old.waiting) input (S.left source.new) (K.held sink.old) (K.held sink.new) result a b) }
{
    let mut done = 0;
    while done < LONGEST_INPUT {
        match read_piece(session, buffer, LONGEST_INPUT - done, disk, source, sink) {
            Ok(0) => return session.finish(disk, sink),
            Ok(count) => done += count,
            Err(status) => return status,
        }
    }
    match is_at_end(source) {
        Err(_) => Status::SourceFault,
        Ok(true) => session.finish(disk, sink),
        Ok(false) => Status::InputLimit,
    }
}

// Opens the store, and answers each line of the source.
fn serve_store<D: Disk, S: Source, K: Sink>(
    alloc: Global,
    form: Form,
    sealing: Sealing,
    buffer: &mut [u8],
    disk: &mut D,
    source: &mut S,
    sink: &mut K,
) -> Status
    requires { 0 < length buffer.old }
    ensures ends { Ends (over (D.seen disk.old) (K.held sink.old) (K.faults sink.old)) (over (D.seen disk.new) (K.held sink.new) (K.faults sink.new)) result }
    ensures feeds { Feeds (source.new ≡ source.old) (S.faults source.old) (S.faults source.new) (S.taken source.old) (S.taken source.new) result }
    ensures reads { (input : List ℕ) → S.left source.old ≡ Some input → Reads input (S.left source.new) result }
    ensures serves { (input : List ℕ) → S.left source.old ≡ Some input → Between (D.seen disk.old) (D.seen disk.new)
        (ServesInput form sealing input (S.left source.new) (K.held sink.old) (K.held sink.new) result) }
{
    match Store::open(alloc, disk) {
        Ok(store) => match InputRun::start(alloc, store, form, sealing) {
            Ok(mut session) => serve(&mut session, buffer, disk, source, sink),
            Err(_) => Status::OutOfMemory,
        },
        Err(error) => refuse(error, sink),
    }
}

// Takes the memory for a read, opens the store, and answers each line of the source.
fn run_source<D: Disk, S: Source, K: Sink>(
    alloc: Global,
    form: Form,
    sealing: Sealing,
    disk: &mut D,
    source: &mut S,
    sink: &mut K,
) -> Status
    ensures ends { Ends (over (D.seen disk.old) (K.held sink.old) (K.faults sink.old)) (over (D.seen disk.new) (K.held sink.new) (K.faults sink.new)) result }
    ensures feeds { Feeds (source.new ≡ source.old) (S.faults source.old) (S.faults source.new) (S.taken source.old) (S.taken source.new) result }
    ensures reads { (input : List ℕ) → S.left source.old ≡ Some input → Reads input (S.left source.new) result }
    ensures serves { (input : List ℕ) → S.left source.old ≡ Some input → Between (D.seen disk.old) (D.seen disk.new)
        (ServesInput form sealing input (S.left source.new) (K.held sink.old) (K.held sink.new) result) }
{
    match buffer_for(alloc, sealing) {
        Ok(mut buffer) => serve_store(
            alloc,
            form,
            sealing,
            buffer.as_mut_slice(),
            disk,
            source,
            sink,
        ),
        Err(_) => Status::OutOfMemory,
    }
}

// Does what a mode asks for.
fn run_mode<D: Disk, S: Source, K: Sink>(
    alloc: Global,
    mode: Mode,
    disk: &mut D,
    source: &mut S,
    sink: &mut K,
) -> Status
    requires { HasNumbers mode }
    ensures ends { Ends (over (D.seen disk.old) (K.held sink.old) (K.faults sink.old)) (over (D.seen disk.new) (K.held sink.new) (K.faults sink.new)) result }
    ensures unfed { served_by (Some mode) ≡ None → Unfed (source.new ≡ source.old) (K.held sink.old) (K.held sink.new) result }
    ensures feeds { Feeds (source.new ≡ source.old) (S.faults source.old) (S.faults source.new) (S.taken source.old) (S.taken source.new) result }
    ensures reads { IsSome (served_by (Some mode)) → (input : List ℕ) → S.left source.old ≡ Some input → Reads input (S.left source.new) result }
    ensures serves { (form : Form) (sealing : Sealing) → served_by (Some mode) ≡ Some (serving form sealing) →
        (input : List ℕ) → S.left source.old ≡ Some input →
        Between (D.seen disk.old) (D.seen disk.new) (ServesInput form sealing input (S.left source.new) (K.held sink.old) (K.held sink.new) result) }
    ensures checks { mode ≡ Mode.Check → Between (D.seen disk.old) (D.seen disk.new) (ChecksStore (K.held sink.old) (K.held sink.new) result) }
    ensures generates { (seed count : ℕ) → mode ≡ Mode.Gen seed count →
        Between (D.seen disk.old) (D.seen disk.new) (GeneratesFrom seed count (K.held sink.old) (K.held sink.new) result) }
{
    match mode {
        Mode::Serve { form, sealing } => run_source(alloc, form, sealing, disk, source, sink),
        Mode::Check => check(alloc, disk, sink),
        Mode::Gen { seed, count } => generate(alloc, seed, count, disk, sink),
    }
}

/// Runs the program over a store, a source of command lines and a sink of replies, and answers its exit status. The words
/// are the arguments of the command line, the program's name first; the disk is that of the store's path. docs/GUIDE.md has
/// the forms of lines and replies and the statuses, docs/DEFINITIONS.md what the report of an input is and what an image stands
/// for.
pub fn run<D: Disk, S: Source, K: Sink>(
    alloc: Global,
    words: &[String],
    disk: &mut D,
    source: &mut S,
    sink: &mut K,
) -> u8
    // No number but that of a status is answered.
    ensures known { (status : Status) × EndsAs result status }

    // Arguments that aren't known: the usage line is said, or memory ran out. Those that are refused at a glance want none. The disk is
    // then not called.
    ensures rejects { RejectsBy (mode_of (words_of words.now))
        (over (D.seen disk.old) (K.held sink.old) (K.faults sink.old)) (over (D.seen disk.new) (K.held sink.new) (K.faults sink.new)) result }
    ensures at_once { are_refused_at_once (words_of words.now) ≡ true → EndsAs result Status.Usage }
    ensures undone { mode_of (words_of words.now) ≡ None → disk.new ≡ disk.old }

    // Arguments that are known, whatever they ask for: which device is blamed, and what becomes of a store that is refused. No fault
    // of a device is passed over, and none is blamed without one.
    ensures ends { FinishesBy (mode_of (words_of words.now))
        (over (D.seen disk.old) (K.held sink.old) (K.faults sink.old)) (over (D.seen disk.new) (K.held sink.new) (K.faults sink.new)) result }
    // No more bytes are taken than a run may take, of a source that tells none too.
    ensures source { (status : Status) → EndsAs result status →
        Feeds (source.new ≡ source.old) (S.faults source.old) (S.faults source.new) (S.taken source.old) (S.taken source.new) status }

    // A run over the source: what is read of it, and what is written to the sink and left on the disk, also by a crash.
    ensures reads { IsSome (served_by (mode_of (words_of words.now))) → (status : Status) → EndsAs result status →
        (input : List ℕ) → S.left source.old ≡ Some input → Reads input (S.left source.new) status }
    ensures serves { ServesBy (mode_of (words_of words.now)) (D.seen disk.old) (D.seen disk.new)
        (S.left source.old) (S.left source.new) (K.held sink.old) (K.held sink.new) result }

    // Any other reads no input, and says nothing before it is done: a check, which writes nothing, and a run over a generated file,
    // with what it leaves on the disk, also by a crash.
    ensures unfed { served_by (mode_of (words_of words.now)) ≡ None → (status : Status) → EndsAs result status →
        Unfed (source.new ≡ source.old) (K.held sink.old) (K.held sink.new) status }
    ensures checks { ChecksBy (mode_of (words_of words.now)) (D.seen disk.old) (D.seen disk.new) (K.held sink.old) (K.held sink.new) result }
    ensures generates { GeneratesBy (mode_of (words_of words.now)) (D.seen disk.old) (D.seen disk.new) (K.held sink.old) (K.held sink.new) result }

    // A run that no device failed is done, or memory ran out: over a content that isn't refused, and within the limit of an input.
    ensures completes { IsSome (mode_of (words_of words.now)) → (status : Status) → EndsAs result status → IsTrue (D.seen disk.old).tells →
        (IsRefusedContent (D.seen disk.old).told.content → ⊥) → (status ≡ Status.InputLimit → ⊥) →
        (Rose (D.seen disk.old).faults (D.seen disk.new).faults → ⊥) →
        (IsSome (served_by (mode_of (words_of words.now))) → Rose (S.faults source.old) (S.faults source.new) → ⊥) →
        (Rose (K.faults sink.old) (K.faults sink.new) → ⊥) → Completes status }
{
    match mode_of(alloc, words) {
        Ok(Some(mode)) => run_mode(alloc, mode, disk, source, sink).number(),
        Ok(None) => {
            say_usage(sink);
            Status::Usage.number()
        }
        Err(_) => Status::OutOfMemory.number(),
    }
}
