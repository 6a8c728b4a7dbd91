//! Certificates: values that fit every window of a stream and give exactly the asked end of an answer.
#![tactic(auto)]

mod certificates;
mod checking;
mod evidence;
mod fill;
mod making;
mod making_laws;
mod runs;
mod sharp_laws;
mod showing;
mod told;
mod values;

pub use certificates::{check, make};
pub use evidence::{Answer, Cert, Evidence};
pub use making_laws::evidence_shows_the_end;
pub use sharp_laws::{answers_are_sharp, evidence_may_be_true};
pub use ss_model::Run;
pub use told::{head, side};
