// Reads of the input: what each line or frame says that ends in one is done, and then all of it is brought to the disk.
ghost use Rattle.std.specs.Prelude.{◌≡◌, ◌⊎◌, ◌↔◌, ◌<◌, ◌≤◌, [], true, length, take, IsSome, IfOk, OnOk};
ghost use Rattle.std.specs.Option.{option_copied};
ghost use Rattle.ss_outside.specs.Step.{Step};
ghost use Rattle.ss_outside.specs.Verdict.{Counted};
ghost use Rattle.ss_program.specs.Amid.{IsReadyToServe, TakesBytes, TakesLast, between, input_run_state};
ghost use Rattle.ss_program.specs.Answer.{IsOpen};
ghost use Rattle.ss_program.specs.Progress.{EndsInputRun, NoneWait, TakesPiece};
ghost use Rattle.ss_program.specs.Reading.{step_under_way};
ghost use Rattle.ss_program.specs.Status.{Continues, disk_verdict, ended, sink_verdict, IsStop};

use crate::status::Status;
use crate::step_reader::StepReader;
use crate::talk::Talk;
use ss_command::Ended;
use ss_outside::{Disk, Sink};

// The line that has ended, where it is kept.
fn line_of(reader: &StepReader, ended: Ended) -> Option<&[u8]>
    requires ended { reader.now.ended ≡ true }
    requires whole { ended ≡ Ended.Whole ↔ IsSome reader.now.step }
    ensures { option_copied result ≡ reader.now.step }
{
    match ended {
        Ended::Whole => Some(reader.step()),
        Ended::TooLong => None,
    }
}

// Takes bytes of a piece up to and with its first line end, does what the line says that ended, and answers how many bytes it took.
fn advance<D: Disk, K: Sink>(
    talk: &mut Talk,
    reader: &mut StepReader,
    piece: &[u8],
    disk: &mut D,
    sink: &mut K,
) -> Result<usize, Status>
    requires some { 0 < length piece.now }
    requires ready { IsReadyToServe (D.seen disk.old) talk.old }
    ensures takes { Step (disk_verdict (ended result)) (D.seen disk.old) (D.seen disk.new)
        (TakesBytes (λ count. take count piece.now) piece.now reader.old.form (step_under_way reader.old) (step_under_way reader.new)
        (between talk.old (K.held sink.old)) (between talk.new (K.held sink.new)) result) }
    ensures count { IfOk result (λ count. (0 < count) × (count ≤ length piece.now)) }
    ensures continues { Continues IsStop (D.seen disk.old).tells (K.faults sink.old) (K.faults sink.new)
        (IsReadyToServe (D.seen disk.new) talk.new) result }
    ensures form { reader.new.form ≡ reader.old.form }
{
    let (count, ended) = reader.feed(piece);
    match ended {
        None => Ok(count),
        Some(ended) => {
            talk.stage_line(reader.form(), line_of(reader, ended), disk, sink)?;
            Ok(count)
        }
    }
}

// Takes a piece of the input, and does what each line says that ends in it.
fn take_lines<D: Disk, K: Sink>(
    talk: &mut Talk,
    reader: &mut StepReader,
    piece: &[u8],
    disk: &mut D,
    sink: &mut K,
) -> Result<(), Status>
    requires { IsReadyToServe (D.seen disk.old) talk.old }
    ensures takes { Step (disk_verdict (ended result)) (D.seen disk.old) (D.seen disk.new)
        (TakesBytes (λ _. piece.now) piece.now reader.old.form (step_under_way reader.old) (step_under_way reader.new)
        (between talk.old (K.held sink.old)) (between talk.new (K.held sink.new)) result) }
    ensures continues { Continues IsStop (D.seen disk.old).tells (K.faults sink.old) (K.faults sink.new)
        (IsReadyToServe (D.seen disk.new) talk.new) result }
    ensures form { reader.new.form ≡ reader.old.form }
{
    let mut done = 0;
    while done < piece.len() {
        done += advance(talk, reader, &piece[done..], disk, sink)?;
    }
    Ok(())
}

/// Takes a piece of the input, and does what each line says that ends in it. Then all of it is brought to the disk, and the replies
/// to these lines are sent that wait. At an error the run stopped at one of these lines, and the session is of no more use.
pub fn take_piece<D: Disk, K: Sink>(
    talk: &mut Talk,
    reader: &mut StepReader,
    piece: &[u8],
    disk: &mut D,
    sink: &mut K,
) -> Result<(), Status>
    requires { IsOpen (D.seen disk.old) talk.old.store }
    ensures takes { Step (disk_verdict (ended result)) (D.seen disk.old) (D.seen disk.new) (TakesPiece (λ _. piece.now) piece.now
        (input_run_state talk.old reader.old)
        (input_run_state talk.new reader.new)
        (K.held sink.old) (K.held sink.new) result) }
    ensures continues { Continues IsStop (D.seen disk.old).tells (K.faults sink.old) (K.faults sink.new)
        (IsOpen (D.seen disk.new) talk.new.store) result }
    ensures none { OnOk result (NoneWait talk.new.waiting) }
    ensures form { reader.new.form ≡ reader.old.form }
{
    take_lines(talk, reader, piece, disk, sink)?;
    talk.flush(disk, sink)
}

// Ends the last line of the input, if it has bytes, and does what it says.
fn take_last<D: Disk, K: Sink>(
    talk: &mut Talk,
    reader: &mut StepReader,
    disk: &mut D,
    sink: &mut K,
) -> Result<(), Status>
    requires { IsReadyToServe (D.seen disk.old) talk.old }
    ensures takes { Step (disk_verdict (ended result)) (D.seen disk.old) (D.seen disk.new)
        (TakesLast reader.old.form (step_under_way reader.old) (between talk.old (K.held sink.old))
        (between talk.new (K.held sink.new)) result) }
    ensures continues { Continues IsStop (D.seen disk.old).tells (K.faults sink.old) (K.faults sink.new)
        (IsReadyToServe (D.seen disk.new) talk.new) result }
    ensures form { reader.new.form ≡ reader.old.form }
{
    match reader.finish() {
        None => Ok(()),
        Some(ended) => talk.stage_line(reader.form(), line_of(reader, ended), disk, sink),
    }
}

// Ends the last line of the input, and then brings all to the disk and sends what waits.
fn end_lines<D: Disk, K: Sink>(
    talk: &mut Talk,
    reader: &mut StepReader,
    disk: &mut D,
    sink: &mut K,
) -> Result<(), Status>
    requires { IsReadyToServe (D.seen disk.old) talk.old }
    ensures takes { Step (disk_verdict (ended result)) (D.seen disk.old) (D.seen disk.new)
        (TakesLast reader.old.form (step_under_way reader.old) (between talk.old (K.held sink.old))
        (between talk.new (K.held sink.new)) result) }
    ensures continues { Continues IsStop (D.seen disk.old).tells (K.faults sink.old) (K.faults sink.new)
        (IsOpen (D.seen disk.new) talk.new.store) result }
    ensures none { OnOk result (NoneWait talk.new.waiting) }
    ensures form { reader.new.form ≡ reader.old.form }
{
    take_last(talk, reader, disk, sink)?;
    talk.flush(disk, sink)
}

/// Ends the input: does what a last line says that no line end ended, brings all to the disk and sends the replies that wait.
pub fn finish_lines<D: Disk, K: Sink>(
    talk: &mut Talk,
    reader: &mut StepReader,
    disk: &mut D,
    sink: &mut K,
) -> Status
    requires { IsOpen (D.seen disk.old) talk.old.store }
    ensures ends { Step (disk_verdict result) (D.seen disk.old) (D.seen disk.new) (EndsInputRun
        (input_run_state talk.old reader.old)
        (K.held sink.old) (K.held sink.new) result) }
    ensures status { (result ≡ Status.Done) ⊎ IsStop (D.seen disk.old).tells result }
    ensures form { reader.new.form ≡ reader.old.form }
    ensures counted { Counted (sink_verdict result) (K.faults sink.old) (K.faults sink.new) }
{
    match end_lines(talk, reader, disk, sink) {
        Ok(()) => Status::Done,
        Err(status) => status,
    }
}
