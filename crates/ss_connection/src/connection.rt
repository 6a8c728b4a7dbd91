// A connection to a store.
mod events;
mod lines;
mod many;
mod questions;
mod showing;

ghost use Rattle.std.specs.Prelude.{◌≡◌};
ghost use Rattle.ss_connection.specs.Calls.{stop_of};

use crate::text::Text;
pub use many::Taken;
use ss_outside::Disk;
use ss_program::{Rows, Status};
use ss_store::{OpenError, Store};
use std::alloc::Global;
use std::marker::Model;

/// A store in the caller's own process, on a disk that it doesn't hold: each call takes the disk, as the last such call left it. It is
/// handed lines of commands, whose replies are the program's, and events and questions as values. An event that is staged comes to the
/// disk with the next call that seals, together with all that were staged before it. A call that stops ends the connection: from then
/// on each call that takes the disk answers the same status, and does nothing. Where memory runs out, all that were staged come to the disk
/// first, and the event that wanted it isn't done.
#[derive(Drop)]
pub struct Connection {
    store: Store,
    text: Text,
    // The rows of the last line that are still to be said.
    rows: Option<Rows>,
    ended: Option<Status>,
}

impl Model for Connection {
    ghost use Rattle.ss_connection.specs.Holds.{ConnectionState};

    ghost Value = { ConnectionState };

    ghost view = { λ s. record { store = s.store; said = s.text; rows = s.rows; ended = s.ended } };
}

// Why a call ends the connection, where it does.
fn stop_of<T>(answered: &Result<T, Status>) -> Option<Status>
    ensures { result ≡ stop_of answered.now }
{
    match answered {
        Ok(_) => None,
        Err(status) => Some(*status),
    }
}

impl Connection {
    ghost use Rattle.std.specs.Prelude.{[], None, IfOk};
    ghost use Rattle.ss_outside.specs.Step.{Step};
    ghost use Rattle.ss_connection.specs.Holds.{IsUsable};
    ghost use Rattle.ss_connection.specs.Opens.{OpensHeld};
    ghost use Rattle.ss_store.specs.Errors.{verdict_of_opening};

    /// Opens the store on a disk, as a run of the program does. At an error there is no connection, and `refuse` of ss_program says why.
    pub fn open<D: Disk>(alloc: Global, disk: &mut D) -> Result<Connection, OpenError>
        ensures opens { Step (verdict_of_opening result) (D.seen disk.old) (D.seen disk.new) (OpensHeld result) }
        ensures usable { IfOk result (λ connection. IsUsable (D.seen disk.new) connection) }
        ensures begins { IfOk result (λ connection. (connection.said ≡ []) × (connection.rows ≡ None) × (connection.ended ≡ None)) }
    {
        match Text::new(alloc) {
            Ok(text) => match Store::open(alloc, disk) {
                Ok(store) => Ok(Connection {
                    store,
                    text,
                    rows: None,
                    ended: None,
                }),
                Err(error) => Err(error),
            },
            Err(_) => Err(OpenError::OutOfMemory),
        }
    }

    /// The text of what was said last: by a line, or of further rows.
    pub fn said(&self) -> &[u8]
        ensures { result.now ≡ self.now.said }
    {
        self.text.as_slice()
    }

    /// Why the connection has ended, where it has.
    pub fn ended(&self) -> Option<Status>
        ensures { result ≡ self.now.ended }
    {
        self.ended
    }
}
