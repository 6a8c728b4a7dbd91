// The values of landmarks of a stream, one after another.
ghost use Rattle.ss_command.specs.declared.command.Command.TheVariants.{Values};
ghost use Rattle.ss_program.specs.Rows.{Begins, TakesHeld, ValuesStand};

use crate::rows::Rows;
use ss_catalog::Name;
use ss_report::Reply;
use ss_store::{Store, ValueRange};

/// Begins to show the values of landmarks of a stream that have times in `from..=to`, oldest first, if it stands.
pub fn begin_values(store: &Store, name: &Name, from: u64, to: u64) -> (Reply, Rows)
    ensures { Begins (Values name.now from to) store.now result }
{
    match store.values(name, from, to) {
        Err(refusal) => (Reply::Refused(refusal), Rows::End),
        Ok(range) => (Reply::ValuesHead(range.count), Rows::Values(range)),
    }
}

/// Takes the row of the next value.
pub fn next_value(range: &mut ValueRange, store: &Store) -> Option<Reply>
    requires { ValuesStand store.now.streams range.old }
    ensures { TakesHeld store.now (Rows.Values range.old) (Rows.Values range.new) result }
{
    if range.count == 0 {
        return None;
    }
    let (at, value) = store.value(range.id, range.first);
    range.first += 1;
    range.count -= 1;
    Some(Reply::Value { at, value })
}
