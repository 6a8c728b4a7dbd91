//! Tests of the devices in memory, of the journal and the records over them, and of what the bytes of a slot say. A crate with
//! tests is proved twice, so those of four crates stand here, and call them as a crate above does.
#![tactic(auto)]

#[cfg(test)]
mod cached;
#[cfg(test)]
mod codec;
#[cfg(test)]
mod devices;
#[cfg(test)]
mod journal;
#[cfg(test)]
mod passing;
#[cfg(test)]
mod reading;
#[cfg(test)]
mod records;
