//! The program over devices: from the arguments of the command line and the bytes read to the bytes written, the store and the
//! exit status.
#![tactic(auto)]

mod answer;
mod buffer;
mod certifying;
mod check;
mod cursors;
mod frames;
mod generate;
mod input_run;
mod listing;
mod refusing;
mod replies;
mod rows;
mod running;
mod saying;
mod sending;
mod series;
mod spoken;
mod staging;
mod status;
mod step_reader;
mod taking;
mod talk;
mod values;
mod windows;

pub use answer::{Question, ask, show};
pub use refusing::refuse;
pub use rows::Rows;
pub use running::{LONGEST_INPUT, run};
pub use sending::send;
pub use staging::stage;
pub use status::{Status, complaint, exit_code};
