//! What standard error says while the program runs: why lines are refused, how far the run is, and which store it is.
#![tactic(auto)]

mod explain;
mod forms;
mod frames;
mod hints;
mod last_times;
mod numbers;
mod progress;
mod reasons;
mod replies;
mod speaker;
mod syntax;
mod terminals;
mod waiting;
mod watch;
mod watched;
mod words;

pub use explain::{Explained, Explainer, MOST_EXPLAINED, Unit};
pub use hints::is_verb;
pub use terminals::Terminals;
pub use watch::Watch;
pub use watched::Watched;
