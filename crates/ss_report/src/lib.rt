//! The report: what is replied to a line, and the text of a reply.
#![tactic(auto)]

mod certificates;
mod means;
mod reply;
mod text;

pub use reply::{Reply, Side};
pub use text::{reply_text, said_text};
