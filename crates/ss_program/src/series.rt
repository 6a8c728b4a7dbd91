// The rows of a series, one after another: each is asked by itself.
ghost use Rattle.std.specs.Prelude.{◌≡◌, None, IfOk, IfErr, OnOk};
ghost use Rattle.ss_catalog.specs.Series.{IsSeriesInRange, whole_query};
ghost use Rattle.ss_command.specs.declared.command.Command.TheVariants.{Series as AskRows};
ghost use Rattle.ss_outside.specs.Step.{Step};
ghost use Rattle.ss_store.specs.Asked.{refuses_query_held};
ghost use Rattle.ss_program.specs.Answer.{IsOpen, ReadsAnswer};
ghost use Rattle.ss_program.specs.Rows.{Begins, RowsGoOn, SeriesStands, TakesRow};
ghost use Rattle.ss_program.specs.Series.{IsAnswerIn};
ghost use Rattle.ss_program.specs.Status.{disk_verdict, ended, IsDiskStop};

use crate::rows::Rows;
use crate::status::Status;
use ss_catalog::{Query, Refusal, Series};
use ss_model::Outcome;
use ss_outside::Disk;
use ss_report::Reply;
use ss_store::{AskError, Store};

/// Why a query is refused, where it is.
pub fn refusal_of(store: &Store, query: &Query) -> Option<Refusal>
    ensures { result ≡ refuses_query_held store.now.streams query.now }
{
    if store.find(&query.name).is_none() {
        return Some(Refusal::Unknown);
    }
    if query.to < query.from {
        return Some(Refusal::Range);
    }
    None
}

// The query of the whole range of a series.
fn whole_query(series: &Series) -> Query
    ensures { result ≡ whole_query series.now }
{
    Query {
        name: series.name,
        kind: series.kind,
        from: series.from,
        to: series.to,
    }
}

// Asks a query that isn't refused.
fn answer_query<D: Disk>(store: &mut Store, query: &Query, disk: &mut D) -> Result<Outcome, Status>
    requires open { IsOpen (D.seen disk.old) store.old }
    requires taken { refuses_query_held store.old.streams query.now ≡ None }
    ensures answers { Step (disk_verdict (ended result)) (D.seen disk.old) (D.seen disk.new) (ReadsAnswer (IsAnswerIn query.now) result) }
    ensures streams { store.new.streams ≡ store.old.streams }
    ensures open { OnOk result (IsOpen (D.seen disk.new) store.new) }
    ensures status { IfErr result (IsDiskStop (D.seen disk.old).tells) }
{
    match store.ask(disk, query) {
        Ok(outcome) => Ok(outcome),
        Err(AskError::Disk) => Err(Status::DiskFault),
        Err(AskError::Changed { .. }) => Err(Status::RecordChanged),
        Err(AskError::Refused(_)) => unreachable!(),
        Err(AskError::Stopped) => unreachable!(),
    }
}

/// Begins to show the rows of a series, or says why it is refused.
pub fn begin_series(store: &Store, series: &Series) -> (Reply, Rows)
    requires { IsSeriesInRange series.now }
    ensures { Begins (AskRows series.now) store.now result }
{
    if let Some(refusal) = refusal_of(store, &whole_query(series)) {
        return (Reply::Refused(refusal), Rows::End);
    }
    let head = Reply::SeriesHead {
        kind: series.kind,
        count: series.rows(),
    };
    let rows = Rows::Series {
        series: *series,
        next: 0,
    };
    (head, rows)
}

/// Takes the next row of a series: asks its query.
pub fn next_answer<D: Disk>(
    series: &Series,
    next: &mut u32,
    store: &mut Store,
    disk: &mut D,
) -> Result<Option<Reply>, Status>
    requires stands { SeriesStands store.old.streams series.now }
    requires open { IsOpen (D.seen disk.old) store.old }
    ensures takes { Step (disk_verdict (ended result)) (D.seen disk.old) (D.seen disk.new)
        (TakesRow store.old.streams (Rows.Series series.now next.old) (Rows.Series series.now next.new) result) }
    ensures goes_on { IfOk result (RowsGoOn (Rows.Series series.now next.old) (Rows.Series series.now next.new) store.old.streams) }
    ensures streams { store.new.streams ≡ store.old.streams }
    ensures open { OnOk result (IsOpen (D.seen disk.new) store.new) }
    ensures status { IfErr result (IsDiskStop (D.seen disk.old).tells) }
{
    if *next >= series.rows() {
        return Ok(None);
    }
    let query = series.row(*next);
    let outcome = answer_query(store, &query, disk)?;
    *next += 1;
    Ok(Some(Reply::Row {
        at: query.from,
        outcome,
    }))
}
