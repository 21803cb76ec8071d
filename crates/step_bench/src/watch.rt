//! The times of the steps.

use crate::made::Made;
use std::io;
use std::time::Instant;

/// What a step answers: what it made, or why the run ends.
pub type Answer<T> = Result<T, &'static str>;

/// Why a run ends where memory is wanting.
pub const NO_MEMORY: &str = "memory is wanting";

/// Measures one step after another.
#[derive(Drop)]
pub struct Watch<'a> {
    rt: &'a HostRuntime,
    begun: Instant,
}

impl<'a> Watch<'a> {
    /// A watch, and the first step begins.
    pub fn new(rt: &'a HostRuntime) -> Answer<Watch<'a>> {
        match Instant::now(rt) {
            Ok(begun) => Ok(Watch { rt, begun }),
            Err(_) => Err("the clock fails"),
        }
    }

    /// A step begins now.
    pub fn begin(&mut self) -> Answer<()> {
        match Instant::now(self.rt) {
            Ok(begun) => {
                self.begun = begun;
                Ok(())
            }
            Err(_) => Err("the clock fails"),
        }
    }

    /// A step ends: prints its time and what it made. The next one begins behind that.
    pub fn end<T: Made>(&mut self, step: &str, made: &T) -> Answer<()> {
        match self.print(step, made) {
            Ok(()) => self.begin(),
            Err(_) => Err("the clock or the output fails"),
        }
    }

    /// Prints a number that a step made.
    pub fn tell(&self, what: &str, number: u64) -> Answer<()> {
        match println!(self.rt; "{what} {number}") {
            Ok(()) => Ok(()),
            Err(_) => Err("the output fails"),
        }
    }

    fn print<T: Made>(&self, step: &str, made: &T) -> io::Result<()> {
        let microseconds = self.begun.elapsed(self.rt)?.as_micros();
        eprintln!(self.rt; "{step} {microseconds} us")?;
        let told = made.told();
        let (count, sum) = (told.count, told.sum);
        println!(self.rt; "{step} {count} {sum}")
    }
}
