//! The tests of the equations: of the search for chains, of systems, tables, crews, schedules and certificates, by
//! public calls alone.
//!
//! It hands out nothing, and no crate stands on it. A crate with tests of its own would be proved twice.
#![tactic(auto)]

#[cfg(test)]
mod certificate;
#[cfg(test)]
mod crew;
#[cfg(test)]
mod reach;
#[cfg(test)]
mod samples;
#[cfg(test)]
mod system;
#[cfg(test)]
mod table;
#[cfg(test)]
mod world;
