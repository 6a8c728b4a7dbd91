// Whether a store is sound, and what it holds.
ghost use Rattle.std.specs.Prelude.{◌≡◌, ◌≤◌, ◌+◌, ◌++◌, length};
ghost use Rattle.ss_outside.specs.Disk.{Between};
ghost use Rattle.ss_program.specs.Checked.{ChecksStore, and_number, survey_line};
ghost use Rattle.ss_program.specs.Devices.{over};
ghost use Rattle.ss_program.specs.Ending.{Ends, IsUnfed};
ghost use Rattle.ss_program.specs.Sent.{Puts};

use crate::refusing::refuse;
use crate::sending::send;
use crate::status::Status;
use arrayvec::ArrayString;
use ss_command::put_number;
use ss_outside::{Disk, Failed, Sink};
use ss_store::{Store, Survey};
use std::alloc::Global;

// Writes a word and a number, after a space each.
fn put(word: &str, number: u32, line: &mut ArrayString<256>)
    requires word { length word.now ≤ 16 }
    requires room { length line.old.bytes + 64 ≤ 256 }
    ensures bytes { line.new.bytes ≡ line.old.bytes ++ and_number word.now number }
    ensures short { length line.new.bytes ≤ length line.old.bytes + 38 }
{
    line.push_str(" ");
    line.push_str(word);
    put_number(u64::from(number), line);
}

// Sends the line of a survey.
fn send_survey<K: Sink>(survey: Survey, sink: &mut K) -> Result<(), Failed>
    ensures { Puts (survey_line survey) (K.held sink.old) (K.faults sink.old) (K.held sink.new) (K.faults sink.new) result }
{
    let mut line = ArrayString::new();
    line.push_str("sound");
    put("streams", survey.streams, &mut line);
    put("windows", survey.windows, &mut line);
    put("landmarks", survey.landmarks, &mut line);
    put("values", survey.values, &mut line);
    line.push_str("\n");
    send(sink, line.as_str().as_bytes())
}

/// Reads the store and says what it holds, or why it is refused. It writes nothing to the disk.
pub fn check<D: Disk, K: Sink>(alloc: Global, disk: &mut D, sink: &mut K) -> Status
    ensures ends { Ends (over (D.seen disk.old) (K.held sink.old) (K.faults sink.old)) (over (D.seen disk.new) (K.held sink.new) (K.faults sink.new)) result }
    ensures unfed { IsUnfed (K.held sink.old) (K.held sink.new) result }
    ensures checks { Between (D.seen disk.old) (D.seen disk.new) (ChecksStore (K.held sink.old) (K.held sink.new) result) }
{
    match Store::survey(alloc, disk) {
        Ok(survey) => match send_survey(survey, sink) {
            Ok(()) => Status::Done,
            Err(_) => Status::SinkFault,
        },
        Err(error) => refuse(error, sink),
    }
}
