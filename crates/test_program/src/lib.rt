//! Tests of the program over devices that no script of the simulator has. A crate with tests is proved twice, so they stand here, and
//! call the program as `summarystore` does. All others are cases of the simulator: crates/simulate/cases.
#![tactic(auto)]

#[cfg(test)]
mod devices;
#[cfg(test)]
mod rows;
