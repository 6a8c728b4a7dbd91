//! Tests of names, numbers, arguments, commands, frames and replies as text. A crate with tests is proved twice, so they stand here, and
//! call the crates below as one above them does.
#![tactic(auto)]

#[cfg(test)]
mod arguments;
#[cfg(test)]
mod catalog;
#[cfg(test)]
mod explained;
#[cfg(test)]
mod frames;
#[cfg(test)]
mod generator;
#[cfg(test)]
mod lines;
#[cfg(test)]
mod numbers;
#[cfg(test)]
mod replies;
#[cfg(test)]
mod sessions;
#[cfg(test)]
mod tables;
