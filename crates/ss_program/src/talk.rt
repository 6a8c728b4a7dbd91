// A conversation over a store that goes on.
use crate::replies::Seals;
use ss_sessions::OpenCursors;
use ss_store::Store;

/// A conversation that goes on: the cursors of its sessions, its store, and how events come to the disk, with the replies that wait for
/// that. It is handed one line after another, whatever they are cut from.
#[derive(Drop)]
pub struct Talk {
    pub sessions: OpenCursors,
    pub store: Store,
    pub waiting: Seals,
}
