// The rows that a command shows, as a value: they are taken one after another.
ghost use Rattle.std.specs.Prelude.{◌≡◌, IfOk, IfErr, OnOk};
ghost use Rattle.ss_command.specs.Printed.{IsCommandInTime};
ghost use Rattle.ss_outside.specs.Step.{Step};
ghost use Rattle.ss_program.specs.Answer.{HasRows, IsOpen, ReadsAnswer};
ghost use Rattle.ss_program.specs.Rows.{AreBrought, RowsGoOn, RowsStand, TakesRow};
ghost use Rattle.ss_program.specs.Status.{disk_verdict, ended, IsDiskStop};

use crate::certifying::{begin_certificate, next_line};
use crate::listing::{begin_list, next_stream};
use crate::series::{begin_series, next_answer};
use crate::status::Status;
use crate::values::{begin_values, next_value};
use crate::windows::{begin_windows, next_window};
use arrayvec::ArrayVec;
use ss_catalog::{Series, StreamId};
use ss_command::Command;
use ss_line::At;
use ss_outside::Disk;
use ss_report::Reply;
use ss_store::{Store, ValueRange};

/// Two lines for each of the two windows that a range splits at most.
pub const MOST_LINES: usize = 4;

/// What is still to be shown of the rows of a command, and from where. Rows are taken from the store with which they began, and no
/// longer than its streams stay as they were: at an event they are let go.
#[derive(Drop)]
pub enum Rows {
    /// No row is left.
    End,
    /// The windows of a stream, from this one on.
    Windows {
        id: StreamId,
        next: Option<At>,
    },
    /// The streams in order of creation, from this place on.
    Streams {
        next: u32,
    },
    /// Values of landmarks that stand together.
    Values(ValueRange),
    /// The rows of a series, from this one on. Each is asked when it is taken.
    Series {
        series: Series,
        next: u32,
    },
    /// Lines that are made already, from this one on.
    Lines {
        lines: ArrayVec<Reply, MOST_LINES>,
        next: usize,
    },
}

impl Rows {
    /// Begins to show what a command asks for: its head, or why it is refused, and the rows behind that. A certificate is made and
    /// checked here; other rows are read when they are taken. At an error no row was shown, and the store is of no more use.
    pub fn start<D: Disk>(
        store: &mut Store,
        command: &Command,
        disk: &mut D,
    ) -> Result<(Reply, Rows), Status>
        requires in_time { IsCommandInTime command.now }
        requires rows { HasRows command.now }
        requires open { IsOpen (D.seen disk.old) store.old }
        ensures begins { Step (disk_verdict (ended result)) (D.seen disk.old) (D.seen disk.new)
            (ReadsAnswer (AreBrought command.now store.old.streams) result) }
        ensures stand { IfOk result (λ begun. RowsStand store.old.streams begun.1) }
        ensures streams { store.new.streams ≡ store.old.streams }
        ensures open { OnOk result (IsOpen (D.seen disk.new) store.new) }
        ensures status { IfErr result (IsDiskStop (D.seen disk.old).tells) }
    {
        match command {
            Command::Certify { query, end } => begin_certificate(store, query, *end, disk),
            Command::Series(series) => Ok(begin_series(store, series)),
            Command::Values { name, from, to } => Ok(begin_values(store, name, *from, *to)),
            Command::Windows(name) => Ok(begin_windows(store, name)),
            Command::List => Ok(begin_list(store)),
            Command::Do(_) | Command::Ask(_) | Command::Last(_) => unreachable!(),
        }
    }

    /// Takes the next row, if one is left. At an error the store is of no more use.
    pub fn next<D: Disk>(
        &mut self,
        store: &mut Store,
        disk: &mut D,
    ) -> Result<Option<Reply>, Status>
        requires stand { RowsStand store.old.streams self.old }
        requires open { IsOpen (D.seen disk.old) store.old }
        ensures takes { Step (disk_verdict (ended result)) (D.seen disk.old) (D.seen disk.new)
            (TakesRow store.old.streams self.old self.new result) }
        ensures goes_on { IfOk result (RowsGoOn self.old self.new store.old.streams) }
        ensures streams { store.new.streams ≡ store.old.streams }
        ensures open { OnOk result (IsOpen (D.seen disk.new) store.new) }
        ensures status { IfErr result (IsDiskStop (D.seen disk.old).tells) }
    {
        match self {
            Rows::End => Ok(None),
            Rows::Windows { id, next } => next_window(*id, next, store, disk),
            Rows::Streams { next } => Ok(next_stream(next, store)),
            Rows::Values(range) => Ok(next_value(range, store)),
            Rows::Series { series, next } => next_answer(series, next, store, disk),
            Rows::Lines { lines, next } => Ok(next_line(lines, next, store)),
        }
    }
}
