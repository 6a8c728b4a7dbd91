// Why an end of an answer can't be narrower, filters aside: the evidence is made and checked, and then shown.
ghost use Rattle.std.specs.Prelude.{◌≡◌, true, drop, IsTrue, IfOk, IfErr, None, Ok, OnOk};
ghost use Rattle.ss_catalog.specs.Queries.{is_certified};
ghost use Rattle.ss_certify.specs.Evidence.{IsRight};
ghost use Rattle.ss_command.specs.declared.command.Command.TheVariants.{Certify};
ghost use Rattle.ss_outside.specs.Crash.{OnlyReads};
ghost use Rattle.ss_outside.specs.Disk.{OfContent};
ghost use Rattle.ss_outside.specs.Step.{Step};
ghost use Rattle.ss_store.specs.Asked.{refuses_query_held};
ghost use Rattle.ss_program.specs.Answer.{IsOpen, ReadsAnswer};
ghost use Rattle.ss_program.specs.Certifying.{AreRight, HasEvidence, sides_told};
ghost use Rattle.ss_program.specs.Rows.{AreBrought, IsFirstOf, RowsStand, TakesHeld};
ghost use Rattle.ss_program.specs.Status.{disk_verdict, ended, IsDiskStop};

use crate::rows::{MOST_LINES, Rows};
use crate::series::refusal_of;
use crate::status::Status;
use arrayvec::ArrayVec;
use ss_catalog::{End, Query};
use ss_certify::{Evidence, check, head, make, side};
use ss_outside::Disk;
use ss_report::Reply;
use ss_store::{AskError, Store};

// Makes the evidence for an end of the answer to a query that isn't refused.
fn make_evidence<D: Disk>(
    store: &mut Store,
    query: &Query,
    end: End,
    disk: &mut D,
) -> Result<Evidence, Status>
    requires kind { IsTrue (is_certified query.now.kind) }
    requires open { IsOpen (D.seen disk.old) store.old }
    requires taken { refuses_query_held store.old.streams query.now ≡ None }
    ensures finds { Step (disk_verdict (ended result)) (D.seen disk.old) (D.seen disk.new) (ReadsAnswer (HasEvidence query.now end) result) }
    ensures streams { store.new.streams ≡ store.old.streams }
    ensures open { OnOk result (IsOpen (D.seen disk.new) store.new) }
    ensures status { IfErr result (IsDiskStop (D.seen disk.old).tells) }
{
    match make(store, disk, query, end) {
        Ok(evidence) => Ok(evidence),
        Err(AskError::Disk) => Err(Status::DiskFault),
        Err(AskError::Changed { .. }) => Err(Status::RecordChanged),
        Err(AskError::Refused(_)) => unreachable!(),
        Err(AskError::Stopped) => unreachable!(),
    }
}

// Checks the evidence that was made. Only on a disk that doesn't tell its content it may be wrong: then a record has changed.
fn check_evidence<D: Disk>(
    store: &mut Store,
    query: &Query,
    end: End,
    evidence: &Evidence,
    disk: &mut D,
) -> Result<(), Status>
    requires kind { IsTrue (is_certified query.now.kind) }
    requires open { IsOpen (D.seen disk.old) store.old }
    requires taken { refuses_query_held store.old.streams query.now ≡ None }
    requires made { OfContent (D.seen disk.old) (HasEvidence query.now end evidence.now) }
    ensures reads { Step (disk_verdict (ended result)) (D.seen disk.old) (D.seen disk.new) OnlyReads }
    ensures right { OnOk result (IsRight query.now.kind end evidence.now) }
    ensures streams { store.new.streams ≡ store.old.streams }
    ensures open { OnOk result (IsOpen (D.seen disk.new) store.new) }
    ensures status { IfErr result (IsDiskStop (D.seen disk.old).tells) }
{
    match check(store, disk, query, end, evidence) {
        Ok(true) => Ok(()),
        Ok(false) => Err(Status::RecordChanged),
        Err(AskError::Disk) => Err(Status::DiskFault),
        Err(AskError::Changed { .. }) => Err(Status::RecordChanged),
        Err(AskError::Refused(_)) => unreachable!(),
        Err(AskError::Stopped) => unreachable!(),
    }
}

// Makes the evidence, and checks it.
fn find_evidence<D: Disk>(
    store: &mut Store,
    query: &Query,
    end: End,
    disk: &mut D,
) -> Result<Evidence, Status>
    requires kind { IsTrue (is_certified query.now.kind) }
    requires open { IsOpen (D.seen disk.old) store.old }
    requires taken { refuses_query_held store.old.streams query.now ≡ None }
    ensures finds { Step (disk_verdict (ended result)) (D.seen disk.old) (D.seen disk.new) (ReadsAnswer (HasEvidence query.now end) result) }
    ensures right { IfOk result (IsRight query.now.kind end) }
    ensures streams { store.new.streams ≡ store.old.streams }
    ensures open { OnOk result (IsOpen (D.seen disk.new) store.new) }
    ensures status { IfErr result (IsDiskStop (D.seen disk.old).tells) }
{
    let evidence = make_evidence(store, query, end, disk)?;
    check_evidence(store, query, end, &evidence, disk)?;
    Ok(evidence)
}

// The lines of evidence behind its head, in order.
fn sides_of(evidence: &Evidence) -> ArrayVec<Reply, MOST_LINES>
    ensures { result.items ≡ sides_told evidence.now }
{
    let mut lines = ArrayVec::new();
    for cert in evidence.certs.as_slice() {
        lines.push(side(cert, true));
        lines.push(side(cert, false));
    }
    lines
}

/// Begins to show an end of the answer to a query and why it can't be narrower, filters aside, or says why the query is refused. There
/// is no line of evidence that a check didn't find right.
pub fn begin_certificate<D: Disk>(
    store: &mut Store,
    query: &Query,
    end: End,
    disk: &mut D,
) -> Result<(Reply, Rows), Status>
    requires kind { IsTrue (is_certified query.now.kind) }
    requires open { IsOpen (D.seen disk.old) store.old }
    ensures begins { Step (disk_verdict (ended result)) (D.seen disk.old) (D.seen disk.new)
        (ReadsAnswer (AreBrought (Certify query.now end) store.old.streams) result) }
    ensures stand { IfOk result (λ begun. RowsStand store.old.streams begun.1) }
    ensures right { refuses_query_held store.old.streams query.now ≡ None → IfOk result (AreRight query.now.kind end) }
    ensures streams { store.new.streams ≡ store.old.streams }
    ensures open { OnOk result (IsOpen (D.seen disk.new) store.new) }
    ensures status { IfErr result (IsDiskStop (D.seen disk.old).tells) }
{
    if let Some(refusal) = refusal_of(store, query) {
        return Ok((Reply::Refused(refusal), Rows::End));
    }
    let evidence = find_evidence(store, query, end, disk)?;
    let lines = sides_of(&evidence);
    Ok((head(&evidence), Rows::Lines { lines, next: 0 }))
}

/// Takes the next of the lines that are made already.
pub fn next_line(
    lines: &ArrayVec<Reply, MOST_LINES>,
    next: &mut usize,
    store: &Store,
) -> Option<Reply>
    ensures takes { TakesHeld store.now (Rows.Lines lines.now next.old) (Rows.Lines lines.now next.new) result }
    // Over every disk: only a line that was made is taken, each in its turn.
    ensures first { IsFirstOf (Ok result) (drop next.old lines.now.items) (drop next.new lines.now.items) }
{
    let lines = lines.as_slice();
    if *next >= lines.len() {
        return None;
    }
    let line = lines[*next];
    *next += 1;
    Some(line)
}
