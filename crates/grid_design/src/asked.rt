//! The grid that a word asks for.

ghost use Rattle.std.specs.Prelude.{◌≡◌, ◌<◌, ◌^◌, ◌≤◌, ◌↔◌, List, ℕ, IsTrue, MatchOption, decimal};
ghost use Rattle.grid_design.specs.declared.asked.Grid.{Grid};
ghost use Rattle.grid_design.specs.Asked.{IsSide, IsGridWord};

use itoa::Buffer;

/// The most rows of a grid, and the most columns. There is one at least.
pub const MOST_SIDE: u32 = 64;

/// A design of cells in rows and columns.
#[derive(Clone, Copy, Debug, PartialEq, Eq)]
pub struct Grid {
    /// How many rows there are, 1 to `MOST_SIDE`.
    pub rows: u32,
    /// How many columns there are, 1 to `MOST_SIDE`.
    pub columns: u32,
    /// The number that gives the weights of the nets.
    pub number: u64,
}

/// The grid that a word `ROWS,COLUMNS,NUMBER` asks for: three decimals without zeros in front, and nothing else.
///
/// `None` of any other word, and where the rows or the columns aren't 1 to `MOST_SIDE` or the number has more than 64 bits.
pub fn read_grid(word: &str) -> Option<Grid>
    ensures { MatchOption result ((grid : Grid) → IsGridWord word.now grid → ⊥) (λ grid. IsGridWord word.now grid) }
{
    let (rows, rest) = word.split_once(',')?;
    let (columns, number) = rest.split_once(',')?;
    Some(Grid {
        rows: read_side(rows)?,
        columns: read_side(columns)?,
        number: read_decimal(number)?,
    })
}

/// The number of rows or of columns that a word writes.
fn read_side(word: &str) -> Option<u32>
    ensures { MatchOption result ((side : ℕ) → IsSide side → word.now ≡ decimal side → ⊥) (λ side. IsSide side × (word.now ≡ decimal side)) }
{
    let side = read_decimal(word)?;
    if 1 <= side && side <= u64::from(MOST_SIDE) {
        Some(side as u32)
    } else {
        None
    }
}

/// The number that a word writes as its decimal, without zeros in front.
fn read_decimal(word: &str) -> Option<u64>
    ensures { MatchOption result ((number : ℕ) → number < 2 ^ 64 → word.now ≡ decimal number → ⊥) (λ number. (number < 2 ^ 64) × (word.now ≡ decimal number)) }
{
    let number = word.parse::<u64>().ok()?;
    if is_decimal_of(number, word) {
        Some(number)
    } else {
        None
    }
}

/// Whether the word is the decimal of the number.
fn is_decimal_of(number: u64, word: &str) -> bool
    ensures { IsTrue result ↔ (word.now ≡ decimal number) }
{
    let mut buffer = Buffer::new();
    buffer.format(number) == word
}

/// A law: a word asks for one grid at most.
pub fn one_grid()
    ensures { (word : List ℕ) (one other : Grid) → IsGridWord word one → IsGridWord word other → one ≡ other }
{}
