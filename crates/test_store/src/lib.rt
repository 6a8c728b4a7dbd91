//! Tests of what opening rebuilds, and of the store. A crate with tests is proved twice, so those of the two crates stand here,
//! and call them as a crate above does. They run over a disk that tells nothing, as a file does, of which no call asks anything.
#![tactic(auto)]

#[cfg(test)]
mod applying;
#[cfg(test)]
mod certificates;
#[cfg(test)]
mod changed;
#[cfg(test)]
mod images;
#[cfg(test)]
mod laws;
#[cfg(test)]
mod passing;
#[cfg(test)]
mod rebuilding;
#[cfg(test)]
mod replicas;
#[cfg(test)]
mod running;
#[cfg(test)]
mod seeing;
#[cfg(test)]
mod sessions;
#[cfg(test)]
mod silent;
#[cfg(test)]
mod steps;
#[cfg(test)]
mod texts;
