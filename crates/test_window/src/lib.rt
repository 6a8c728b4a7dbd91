//! Tests of windows, their targets, lines, times, summaries and intervals, and of landmarks. A crate with tests is proved twice,
//! so they stand here, and call the crates below as one above them does.
#![tactic(auto)]

#[cfg(test)]
mod bounds;
#[cfg(test)]
mod filters;
#[cfg(test)]
mod landmarks;
#[cfg(test)]
mod line;
#[cfg(test)]
mod power;
#[cfg(test)]
mod schedule;
#[cfg(test)]
mod steps;
#[cfg(test)]
mod summary;
#[cfg(test)]
mod target;
#[cfg(test)]
mod times;
#[cfg(test)]
mod windowing;
