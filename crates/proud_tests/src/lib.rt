//! Tests of the top call: whole runs on designs in memory, each with its status, its output file and its report.
//!
//! It stands above `proud_top`, so that who works on that needn't prove the tests each time. It has no code of its own, and no
//! contract.
#![tactic(auto)]

#[cfg(test)]
mod cases;
#[cfg(test)]
mod exit;
#[cfg(test)]
mod grids;
#[cfg(test)]
mod levels;
#[cfg(test)]
mod limits;
#[cfg(test)]
mod overlap;
#[cfg(test)]
mod schedules;
#[cfg(test)]
mod seats;
#[cfg(test)]
mod stars;
#[cfg(test)]
mod statuses;
#[cfg(test)]
mod words;
