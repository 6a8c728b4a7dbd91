// The streams of a store, one after another.
ghost use Rattle.ss_command.specs.declared.command.Command.TheVariants.{List as ListAll};
ghost use Rattle.ss_program.specs.Rows.{Begins, TakesHeld};

use crate::rows::Rows;
use ss_report::Reply;
use ss_store::Store;

/// Begins to list all streams, in order of creation.
pub fn begin_list(store: &Store) -> (Reply, Rows)
    ensures { Begins ListAll store.now result }
{
    (Reply::ListHead(store.streams()), Rows::Streams { next: 0 })
}

/// Takes the row of the next stream.
pub fn next_stream(next: &mut u32, store: &Store) -> Option<Reply>
    ensures { TakesHeld store.now (Rows.Streams next.old) (Rows.Streams next.new) result }
{
    if *next >= store.streams() {
        return None;
    }
    let row = store.stream(*next);
    *next += 1;
    Some(Reply::Stream(row))
}
