//! Tests of the top call where something is wrong: designs that are refused, and calls of the outside that fail or give little.
//!
//! It stands above `proud_top`, so that who works on that needn't prove the tests each time. It has no code of its own, and no
//! contract.
#![tactic(auto)]

#[cfg(test)]
mod bad_files;
#[cfg(test)]
mod changes;
#[cfg(test)]
mod failing;
#[cfg(test)]
mod faults;
#[cfg(test)]
mod reads;
#[cfg(test)]
mod standing;
