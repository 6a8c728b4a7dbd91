//! The library for C: a connection to the store of a file in the caller's own process, behind a handle. It makes no call of the system:
//! its disk is an image of the file in memory, and C carries out what is noted to be done to the file.
#![tactic(auto)]

mod answer;
mod exports;
mod fill;
mod handle;
mod held;
mod image;
mod kept;
mod loose;
mod opening;
mod shapes;
mod shut;
