//! Tests of three crates: of the network, of the cut, and of the levels that are made with both. No crate stands on it.
//!
//! It has no public call, so no contract.
#![tactic(auto)]

#[cfg(test)]
mod cuts;
#[cfg(test)]
mod designs;
#[cfg(test)]
mod levels;
#[cfg(test)]
mod networks;
#[cfg(test)]
mod stars;
