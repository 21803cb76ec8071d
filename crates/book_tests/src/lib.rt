//! The tests of the crates that read a design, over their public calls: they stand above all of them, and nothing is here without
//! tests. So each of those crates is proved once, and not once more with its tests.
#![tactic(auto)]

#[cfg(test)]
mod design;
#[cfg(test)]
mod files;
#[cfg(test)]
mod loading;
#[cfg(test)]
mod outer;
#[cfg(test)]
mod stuttering;
#[cfg(test)]
mod text;
