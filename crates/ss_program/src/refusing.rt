// What is said where the arguments or the store are refused.
ghost use Rattle.std.specs.Prelude.{◌≡◌, ◌≤◌, ◌++◌, [], ◌∷◌, length, IsTrue, codes, string_bytes};
ghost use Rattle.ss_store.specs.Recover.{recover};
ghost use Rattle.ss_program.specs.Refused.{AsRefused, damage_line, status_of_open};
ghost use Rattle.ss_program.specs.Sent.{SaysLine};
ghost use Rattle.ss_program.specs.Words.{usage};

use crate::sending::send;
use crate::status::Status;
use arrayvec::ArrayString;
use ss_command::put_number;
use ss_outside::Sink;
use ss_store::OpenError;

const USAGE: &str =
    "usage: summarystore STORE [run | check | gen SEED COUNT | [sessions] [framed] [batch] | frames [batch] | follow [batch]]\n";

// Says a line. A sink that fails at it changes no status.
fn say<K: Sink>(line: &[u8], sink: &mut K)
    ensures { SaysLine line.now (K.held sink.old) (K.held sink.new) (K.faults sink.old) (K.faults sink.new) }
{
    let _ = send(sink, line);
}

/// Says how the program is used.
pub fn say_usage<K: Sink>(sink: &mut K)
    ensures { SaysLine usage (K.held sink.old) (K.held sink.new) (K.faults sink.old) (K.faults sink.new) }
{
    say(USAGE.as_bytes(), sink)
}

// Says that the disk holds something else.
fn say_no_store<K: Sink>(sink: &mut K)
    ensures { SaysLine (codes "not a store" ++ 10 ∷ []) (K.held sink.old) (K.held sink.new) (K.faults sink.old) (K.faults sink.new) }
{
    say("not a store\n".as_bytes(), sink)
}

// Says what of a store is damaged, with its number.
fn say_damage<K: Sink>(what: &str, number: u32, sink: &mut K)
    requires { length what.now ≤ 32 }
    ensures { SaysLine (damage_line what.now number) (K.held sink.old) (K.held sink.new) (K.faults sink.old) (K.faults sink.new) }
{
    let mut line = ArrayString::<256>::new();
    line.push_str(what);
    put_number(u64::from(number), &mut line);
    line.push_str("\n");
    say(line.as_str().as_bytes(), sink)
}

/// The status of a run whose store was not opened. Where the store is refused, it says why.
pub fn refuse<K: Sink>(error: OpenError, sink: &mut K) -> Status
    ensures status { result ≡ status_of_open error }
    ensures says { AsRefused error (K.held sink.old) (K.held sink.new) (K.faults sink.old) (K.faults sink.new) }
{
    match error {
        OpenError::Disk => Status::DiskFault,
        OpenError::OutOfMemory => Status::OutOfMemory,
        OpenError::Changed { .. } => Status::RecordChanged,
        OpenError::NotAStore => {
            say_no_store(sink);
            Status::RefusedStore
        }
        OpenError::BadEntry { n } => {
            say_damage("damaged entry", n, sink);
            Status::RefusedStore
        }
        OpenError::BadSlot { n } => {
            say_damage("damaged slot", n, sink);
            Status::RefusedStore
        }
        OpenError::BadStream { id } => {
            say_damage("damaged stream", id, sink);
            Status::RefusedStore
        }
    }
}
