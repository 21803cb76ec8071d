//! The values of number words.

ghost use Rattle.std.specs.Prelude.{◌≡◌};
ghost use Rattle.book_text.specs.Whole.{whole_value};

/// What is wrong with a number word.
#[derive(Clone, Copy, Debug, PartialEq, Eq)]
pub enum NumberFault {
    /// It doesn't have a number's form.
    NotNumber,
    /// Its value is outside the range.
    OutOfRange,
}

/// The most bytes of a number word.
pub const MOST_NUMBER_BYTES: usize = 30;

/// The greatest value of a whole word, 2^40. Each count and each number of sites that a file states is at most this.
pub const MOST_WHOLE: u64 = 1 << 40;

/// The value of a whole word: 1 to `MOST_NUMBER_BYTES` digits and nothing else, or it is `NotNumber`.
///
/// The value is at most `MOST_WHOLE`, or else it is `OutOfRange`.
pub fn read_whole(word: &[u8]) -> Result<u64, NumberFault>
    ensures { result ≡ whole_value word.now }
{
    if word.is_empty() || word.len() > MOST_NUMBER_BYTES {
        return Err(NumberFault::NotNumber);
    }
    let mut value: u64 = 0;
    for byte in word {
        if !byte.is_ascii_digit() {
            return Err(NumberFault::NotNumber);
        }
        value = (value * 10 + u64::from(*byte - b'0')).min(MOST_WHOLE + 1);
    }
    if value > MOST_WHOLE {
        return Err(NumberFault::OutOfRange);
    }
    Ok(value)
}
