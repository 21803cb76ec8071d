//! Tests of the rows and of the wire length, on designs that are joined from their texts, and of the command line and its grid.
//!
//! It stands above `row_space`, `row_legal`, `wire_report`, `grid_design` and `proud_words`, so that who works on these needn't
//! prove the tests each time. It has no code of its own, and no contract.
#![tactic(auto)]

#[cfg(test)]
mod grid;
#[cfg(test)]
mod legal;
#[cfg(test)]
mod segments;
#[cfg(test)]
mod wire;
#[cfg(test)]
mod words;
