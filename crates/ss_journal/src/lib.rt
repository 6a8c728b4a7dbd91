//! A map from slots to their bytes on a disk, which a crash at any moment leaves as it was before a commit or after it.
#![tactic(auto)]

mod birth;
mod checks;
mod committing;
mod entry;
mod format;
mod group;
mod journal;
mod journal_error;
mod kind;
mod laws;
mod marking;
mod newest;
mod opening;
mod page;
mod paging;
mod phase;
mod put;
mod reading;
mod settling;
mod writing;

pub use format::{
    ENTRY_SIZE, FIRST_ENTRY, FIRST_SLOT, MOST_PAGES, MOST_PUTS, MOST_SLOTS, PAGE_SIZE, PAGE_SLOTS,
};
pub use journal::Journal;
pub use journal_error::JournalError;
pub use kind::Kind;
pub use laws::redo_is_idempotent;
pub use marking::{is_plain, make_checked};
pub use opening::Head;
pub use page::Page;
pub use put::{Put, Txn};
