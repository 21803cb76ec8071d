//! The lowest crate: lines, words and numbers of Bookshelf texts.
//!
//! A text is a list of bytes. What comes in is a text and a place in it; what goes out is the next line or the next
//! word as a span of places, or the value of a word. Nothing is copied, and only `put_micro` takes memory.
//!
//! The contract: the lines, words and values are exactly those of `specs/Lines.antt`, `specs/Whole.antt` and
//! `specs/Decimal.antt`. What is said of all texts stands on functions with an empty body, as `spaced_words`.
#![tactic(auto)]

mod coordinate;
mod decimal;
mod line;
mod memory;
mod number;

pub use coordinate::{coordinate_of, coordinates_go_back, micro_of};
pub use decimal::{
    MOST_MICRO, Micro, canonical_is_word, canonical_reads_back, put_micro, read_micro,
};
pub use line::{Line, Span, count_lines, next_line, next_word, spaced_words};
pub use memory::Memory;
pub use number::{MOST_NUMBER_BYTES, MOST_WHOLE, NumberFault, read_whole};
