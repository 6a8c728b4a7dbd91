// A run over a generated command file.
ghost use Rattle.std.specs.Prelude.{◌≡◌, ◌⊎◌, ◌+◌, ◌-◌, ◌^◌, ◌<◌, ◌≤◌, ◌++◌, ℕ, List, []};
ghost use Rattle.std.specs.Prelude.{◌∷◌, length, IfErr, OnOk};
ghost use Rattle.ss_command.specs.Printed.{IsCommandInTime};
ghost use Rattle.ss_generator.specs.declared.TheConstants.{MOST_COUNT};
ghost use Rattle.ss_outside.specs.Disk.{Between};
ghost use Rattle.ss_outside.specs.Step.{Step};
ghost use Rattle.ss_outside.specs.Verdict.{Counted, verdict};
ghost use Rattle.ss_program.specs.Amid.{StagesBrought};
ghost use Rattle.ss_program.specs.Answer.{IsOpen, IsServing};
ghost use Rattle.ss_program.specs.Devices.{over};
ghost use Rattle.ss_program.specs.Ending.{Ends, IsUnfed};
ghost use Rattle.ss_program.specs.Generated.{GeneratesFrom, counted_line, first_lines, last_six, summary_lines};
ghost use Rattle.ss_program.specs.Line.{command_brings};
ghost use Rattle.ss_program.specs.Sent.{Puts, Sends};
ghost use Rattle.ss_program.specs.Status.{disk_verdict, ended, sink_verdict, IsApplyStop, IsStop};
ghost use Rattle.ss_program.specs.Tally.{IsSingle, RunsAll, Tallies};

use crate::answer::{Question, ask, send_replies};
use crate::refusing::refuse;
use crate::sending::send;
use crate::staging::stage;
use crate::status::Status;
use arrayvec::{ArrayString, ArrayVec};
use ss_command::{Command, put_number};
use ss_generator::Generator;
use ss_outside::{Disk, Failed, Sink};
use ss_report::Reply;
use ss_store::Store;
use std::alloc::Global;

// So many queries stand at the end of the file. The last replies are those to them.
const QUERIES: usize = 6;

// What came of the commands so far: how many there were, how many events were accepted and how many commands refused, and the
// last replies.
#[derive(Drop)]
struct Tally {
    lines: u64,
    done: u64,
    refused: u64,
    last: ArrayVec<Reply, QUERIES>,
}

// Adds a reply to the last ones.
fn slide(last: &mut ArrayVec<Reply, QUERIES>, reply: Reply)
    ensures { (all : List Reply) → last.old.items ≡ last_six all → last.new.items ≡ last_six (all ++ reply ∷ []) }
{
    if last.is_full() {
        last.remove(0);
    }
    last.push(reply);
}

impl Tally {
    // Before the first command.
    fn new() -> Tally
        ensures { Tallies 0 [] result }
    {
        Tally {
            lines: 0,
            done: 0,
            refused: 0,
            last: ArrayVec::new(),
        }
    }

    // Takes the reply to a command.
    fn take(&mut self, reply: Reply)
        requires lines { self.old.lines < 2 ^ 64 - 1 }
        requires done { self.old.done ≤ self.old.lines }
        requires refused { self.old.refused ≤ self.old.lines }
        ensures tallies { (count : ℕ) (all : List Reply) → Tallies count all self.old → Tallies (count + 1) (all ++ reply ∷ []) self.new }
        ensures lines { self.new.lines ≡ self.old.lines + 1 }
        ensures done { self.new.done ≤ self.new.lines }
        ensures refused { self.new.refused ≤ self.new.lines }
    {
        self.lines += 1;
        slide(&mut self.last, reply);
        match &reply {
            Reply::Done(_) => self.done += 1,
            Reply::Refused(_) => self.refused += 1,
            _ => {}
        }
    }
}

// Does in memory what a command of the file says, and answers the reply to it.
fn stage_command<D: Disk>(
    store: &mut Store,
    command: &Command,
    disk: &mut D,
) -> Result<Reply, Status>
    requires single { IsSingle command.now }
    requires in_time { IsCommandInTime command.now }
    requires serves { IsServing (D.seen disk.old) store.old }
    ensures stages { Step (disk_verdict (ended result)) (D.seen disk.old) (D.seen disk.new)
        (StagesBrought (λ history. command_brings history command.now) store.old.records store.new.records result) }
    ensures serves { OnOk result (IsServing (D.seen disk.new) store.new) }
    ensures status { IfErr result (IsApplyStop (D.seen disk.old).tells) }
{
    match command {
        Command::Do(event) => stage(store, event, disk),
        Command::Ask(query) => ask(store, &Question::Query(*query), disk),
        Command::Certify { .. }
        | Command::Series(_)
        | Command::Last(_)
        | Command::Values { .. }
        | Command::Windows(_)
        | Command::List => unreachable!(),
    }
}

// Does what all commands of the file say, and brings each to the disk before the next.
fn run_all<D: Disk>(store: &mut Store, seed: u64, count: u32, disk: &mut D) -> Result<Tally, Status>
    requires some { 1 ≤ count }
    requires few { count ≤ MOST_COUNT }
    requires open { IsOpen (D.seen disk.old) store.old }
    ensures runs { Step (disk_verdict (ended result)) (D.seen disk.old) (D.seen disk.new) (RunsAll seed count result) }
    ensures status { IfErr result (IsApplyStop (D.seen disk.old).tells) }
{
    let mut generator = Generator::new(seed, count);
    let mut tally = Tally::new();
    while let Some(command) = generator.next() {
        let reply = stage_command(store, &command, disk)?;
        match store.seal(disk) {
            Ok(()) => tally.take(reply),
            Err(_) => return Err(Status::DiskFault),
        }
    }
    Ok(tally)
}

// Adds a line of a word and a number.
fn put_line(word: &str, number: u64, text: &mut ArrayString<256>)
    requires word { length word.now ≤ 16 }
    requires room { length text.old.bytes + 64 ≤ 256 }
    ensures bytes { text.new.bytes ≡ text.old.bytes ++ counted_line word.now number }
    ensures short { length text.new.bytes ≤ length text.old.bytes + 38 }
{
    text.push_str(word);
    put_number(number, text);
    text.push_str("\n");
}

// Sends the first four lines of the summary.
fn send_counts<K: Sink>(seed: u64, count: u32, tally: &Tally, sink: &mut K) -> Result<(), Failed>
    ensures { Puts (first_lines seed count tally.now.lines tally.now.done tally.now.refused)
        (K.held sink.old) (K.faults sink.old) (K.held sink.new) (K.faults sink.new) result }
{
    let mut text = ArrayString::new();
    text.push_str("gen");
    put_number(seed, &mut text);
    put_number(u64::from(count), &mut text);
    text.push_str("\n");
    put_line("lines", tally.lines, &mut text);
    put_line("ok", tally.done, &mut text);
    put_line("refused", tally.refused, &mut text);
    send(sink, text.as_str().as_bytes())
}

// Sends the summary.
fn send_summary<K: Sink>(seed: u64, count: u32, tally: &Tally, sink: &mut K) -> Result<(), Failed>
    ensures sends { (lines : ℕ) (all : List Reply) → Tallies lines all tally.now →
        Sends (K.held sink.old) (K.held sink.new) (summary_lines seed count lines all) result }
    ensures counted { Counted (verdict result) (K.faults sink.old) (K.faults sink.new) }
{
    send_counts(seed, count, tally, sink)?;
    send_replies(None, tally.last.as_slice(), sink)
}

// Runs the commands of the file over a store, and sends what came of them.
fn summarize<D: Disk, K: Sink>(
    store: &mut Store,
    seed: u64,
    count: u32,
    disk: &mut D,
    sink: &mut K,
) -> Status
    requires some { 1 ≤ count }
    requires few { count ≤ MOST_COUNT }
    requires open { IsOpen (D.seen disk.old) store.old }
    ensures generates { Step (disk_verdict result) (D.seen disk.old) (D.seen disk.new)
        (GeneratesFrom seed count (K.held sink.old) (K.held sink.new) result) }
    ensures status { (result ≡ Status.Done) ⊎ IsStop (D.seen disk.old).tells result }
    ensures unfed { IsUnfed (K.held sink.old) (K.held sink.new) result }
    ensures counted { Counted (sink_verdict result) (K.faults sink.old) (K.faults sink.new) }
{
    match run_all(store, seed, count, disk) {
        Ok(tally) => match send_summary(seed, count, &tally, sink) {
            Ok(()) => Status::Done,
            Err(_) => Status::SinkFault,
        },
        Err(status) => status,
    }
}

/// Runs the generated command file of a seed, and sends what came of it, or why the store is refused.
pub fn generate<D: Disk, K: Sink>(
    alloc: Global,
    seed: u64,
    count: u32,
    disk: &mut D,
    sink: &mut K,
) -> Status
    requires some { 1 ≤ count }
    requires few { count ≤ MOST_COUNT }
    ensures ends { Ends (over (D.seen disk.old) (K.held sink.old) (K.faults sink.old)) (over (D.seen disk.new) (K.held sink.new) (K.faults sink.new)) result }
    ensures unfed { IsUnfed (K.held sink.old) (K.held sink.new) result }
    ensures generates { Between (D.seen disk.old) (D.seen disk.new) (GeneratesFrom seed count (K.held sink.old) (K.held sink.new) result) }
{
    match Store::open(alloc, disk) {
        Ok(mut store) => summarize(&mut store, seed, count, disk, sink),
        Err(error) => refuse(error, sink),
    }
}
