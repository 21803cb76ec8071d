//! Decimal numbers of millionths, read and written.

ghost use Rattle.std.specs.Prelude.{◌≡◌, ◌+◌, ◌*◌, ◌/◌, ◌^◌, ◌<◌, ◌≤◌, ◌++◌, false, length, take, vec_len, ℤ, pos, neg_ℤ, ◌≤ℤ◌, if◌then◌else◌, FitsSigned, Ok, Err, MatchOption, MatchResult, OnOk, OnErr};
ghost use Rattle.std.specs.Int.{w64};
ghost use Rattle.std.specs.Option.{SomeIff};
ghost use Rattle.std.specs.Str.Parse.{digits_value, digits_value_after, starts_with_minus, without_leading_sign};
ghost use Rattle.book_text.specs.Decimal.{micro_value, digit_at, without_trailing_zeros, fraction_text, canonical};
ghost use Rattle.book_text.specs.Lines.{IsWord};
ghost use Rattle.book_text.specs.Forms.Parts.{leading_digits, behind_digits, leading_fraction, behind_fraction, is_exponent_part, IsExponent};

use crate::Memory;
use crate::number::{MOST_NUMBER_BYTES, NumberFault};
use itoa::Buffer;

/// A number of millionths of a Bookshelf unit.
#[derive(Clone, Copy, Debug, PartialEq, Eq, PartialOrd, Ord)]
pub struct Micro(pub i64);

/// The greatest size of a number that is read, in millionths: a million units. A coordinate is a number of millionths shifted
/// by as much.
pub const MOST_MICRO: u64 = 1_000_000_000_000;

/// The most places up that keep a number other than 0 in range.
const MOST_UP: u128 = 12;

/// The most places down that can leave something of a number.
const MOST_DOWN: u128 = 30;

/// The powers of ten up to the greatest size.
static POWERS: [u64; 13] = [
    1,
    10,
    100,
    1_000,
    10_000,
    100_000,
    1_000_000,
    10_000_000,
    100_000_000,
    1_000_000_000,
    10_000_000_000,
    100_000_000_000,
    1_000_000_000_000,
];

/// What stands in front of an exponent: the digits as one number, how many there are before the point and behind it,
/// and the bytes that follow.
#[derive(Clone, Copy)]
struct Mantissa<'a> {
    number: u128,
    whole: usize,
    fraction: usize,
    rest: &'a [u8],
}

/// How many places an exponent moves the point.
#[derive(Clone, Copy)]
struct Places {
    right: u128,
    left: u128,
}

/// The value of a decimal word in millionths, with what is smaller dropped towards zero.
///
/// The word has at most `MOST_NUMBER_BYTES` bytes: an optional sign, digits with at most one point, and optionally an
/// exponent. A word of another form is `NotNumber`. The value lies from -1,000,000 to 1,000,000 units, which are
/// `MOST_MICRO` millionths, or else it is `OutOfRange`.
pub fn read_micro(word: &[u8]) -> Result<Micro, NumberFault>
    ensures { MatchResult result (λ micro. micro_value word.now ≡ Ok micro.0)
        (λ fault. micro_value word.now ≡ Err fault) }
{
    if word.len() > MOST_NUMBER_BYTES {
        return Err(NumberFault::NotNumber);
    }
    let (negative, unsigned) = split_sign(word);
    let mantissa = read_mantissa(unsigned);
    if mantissa.whole + mantissa.fraction == 0 {
        return Err(NumberFault::NotNumber);
    }
    let Some(places) = read_exponent(mantissa.rest) else {
        return Err(NumberFault::NotNumber);
    };
    let down = mantissa.fraction as u128 + places.left;
    match scaled(mantissa.number, 6 + places.right, down) {
        Some(size) => Ok(Micro(signed(negative, size))),
        None => Err(NumberFault::OutOfRange),
    }
}

/// Whether the word begins with a minus, and the word without its sign.
fn split_sign(word: &[u8]) -> (bool, &[u8])
    ensures negative { result.0 ≡ starts_with_minus word.now }
    ensures rest { result.1.now ≡ without_leading_sign word.now }
{
    match word {
        [b'-', rest @ ..] => (true, rest),
        [b'+', rest @ ..] => (false, rest),
        _ => (false, word),
    }
}

/// The digits that these bytes begin with, and those behind a point that follows.
fn read_mantissa(bytes: &[u8]) -> Mantissa<'_>
    requires { length bytes.now ≤ MOST_NUMBER_BYTES }
    ensures number { result.number
        ≡ digits_value 10 (leading_digits bytes.now ++ leading_fraction (behind_digits bytes.now)) }
    ensures small { result.number < 10 ^ MOST_NUMBER_BYTES }
    ensures whole { result.whole ≡ length (leading_digits bytes.now) }
    ensures fraction { result.fraction ≡ length (leading_fraction (behind_digits bytes.now)) }
    ensures rest { result.rest.now ≡ behind_fraction (behind_digits bytes.now) }
{
    let (number, rest) = read_digits(0, bytes);
    let whole = bytes.len() - rest.len();
    let [b'.', fraction @ ..] = rest else {
        return Mantissa {
            number,
            whole,
            fraction: 0,
            rest,
        };
    };
    let (number, rest) = read_digits(number, fraction);
    Mantissa {
        number,
        whole,
        fraction: fraction.len() - rest.len(),
        rest,
    }
}

/// How far the bytes behind a mantissa move the point: nothing, or an exponent and no more.
fn read_exponent(bytes: &[u8]) -> Option<Places>
    requires { length bytes.now ≤ MOST_NUMBER_BYTES }
    ensures { MatchOption result (is_exponent_part bytes.now ≡ false) (IsExponent bytes.now) }
{
    let signed = match bytes {
        [] => return Some(Places { right: 0, left: 0 }),
        [b'e' | b'E', signed @ ..] => signed,
        _ => return None,
    };
    let (negative, digits) = split_sign(signed);
    if digits.is_empty() {
        return None;
    }
    let (number, rest) = read_digits(0, digits);
    if !rest.is_empty() {
        return None;
    }
    Some(if negative {
        Places {
            right: 0,
            left: number,
        }
    } else {
        Places {
            right: number,
            left: 0,
        }
    })
}

/// The number that the digits at the front write behind the digits of `number`, and the bytes behind them.
fn read_digits(number: u128, bytes: &[u8]) -> (u128, &[u8])
    requires { (number + 1) * 10 ^ length bytes.now ≤ 10 ^ MOST_NUMBER_BYTES }
    ensures number { result.0 ≡ digits_value_after 10 number (leading_digits bytes.now) }
    ensures rest { result.1.now ≡ behind_digits bytes.now }
    ensures room { (result.0 + 1) * 10 ^ length result.1.now ≤ 10 ^ MOST_NUMBER_BYTES }
{
    let mut number = number;
    let mut rest = bytes;
    while let [byte, behind @ ..] = rest
        && byte.is_ascii_digit()
    {
        number = number * 10 + u128::from(*byte - b'0');
        rest = behind;
    }
    (number, rest)
}

/// The number times 10 to the power `up`, over 10 to the power `down`, rounded down, if it is at most the greatest size.
fn scaled(number: u128, up: u128, down: u128) -> Option<u64>
    requires { number < 10 ^ MOST_NUMBER_BYTES }
    ensures { SomeIff result (number * 10 ^ up / 10 ^ down ≤ MOST_MICRO) (number * 10 ^ up / 10 ^ down) }
{
    if number == 0 {
        return Some(0);
    }
    if up >= down {
        raised(number, up - down)
    } else {
        lowered(number, down - up)
    }
}

fn signed(negative: bool, size: u64) -> i64
    requires { size ≤ MOST_MICRO }
    ensures value { result ≡ (if negative then neg_ℤ (pos size) else pos size) }
    ensures fits { FitsSigned w64 result }
{
    let size = size as i64;
    if negative { -size } else { size }
}

fn raised(number: u128, places: u128) -> Option<u64>
    requires { 0 < number }
    ensures { SomeIff result (number * 10 ^ places ≤ MOST_MICRO) (number * 10 ^ places) }
{
    if places > MOST_UP || number > u128::from(MOST_MICRO) {
        return None;
    }
    within_range(number * u128::from(POWERS[places as usize]))
}

fn lowered(number: u128, places: u128) -> Option<u64>
    requires { number < 10 ^ MOST_NUMBER_BYTES }
    ensures { SomeIff result (number / 10 ^ places ≤ MOST_MICRO) (number / 10 ^ places) }
{
    if places > MOST_DOWN {
        return Some(0);
    }
    within_range(number / 10u128.pow(places as u32))
}

fn within_range(size: u128) -> Option<u64>
    ensures { SomeIff result (size ≤ MOST_MICRO) size }
{
    if size <= u128::from(MOST_MICRO) {
        Some(size as u64)
    } else {
        None
    }
}

/// Appends the canonical decimal of a number of millionths. On want of memory `out` is as before.
///
/// It has no exponent, no plus, no zeros in front but one where the whole part is 0, and none behind the point.
pub fn put_micro(out: &mut Vec<u8>, value: i128) -> Result<(), Memory>
    ensures written { OnOk result (out.new.items ≡ out.old.items ++ canonical value) }
    ensures kept { OnErr result (out.new.items ≡ out.old.items) }
{
    let length = out.len();
    let appended = append_micro(out, value);
    if appended.is_err() {
        out.truncate(length);
    }
    appended
}

/// The same, but for what is left on want of memory: a part of the decimal may stand behind what `out` held.
fn append_micro(out: &mut Vec<u8>, value: i128) -> Result<(), Memory>
    ensures written { OnOk result (out.new.items ≡ out.old.items ++ canonical value) }
    ensures kept { take (vec_len out.old) out.new.items ≡ out.old.items }
{
    let size = value.unsigned_abs();
    if value < 0 {
        out.push(b'-')?;
    }
    let mut buffer = Buffer::new();
    out.extend_from_slice(buffer.format(size / 1_000_000).as_bytes())?;
    append_fraction(out, (size % 1_000_000) as u32)
}

/// Appends the point and the digits of millionths, without zeros at the end, or nothing where there are none.
fn append_fraction(out: &mut Vec<u8>, rest: u32) -> Result<(), Memory>
    requires { rest < 1000000 }
    ensures written { OnOk result (out.new.items ≡ out.old.items ++ fraction_text rest) }
    ensures kept { take (vec_len out.old) out.new.items ≡ out.old.items }
{
    if rest == 0 {
        return Ok(());
    }
    let digits = [
        digit_at(rest, 100_000),
        digit_at(rest, 10_000),
        digit_at(rest, 1_000),
        digit_at(rest, 100),
        digit_at(rest, 10),
        digit_at(rest, 1),
    ];
    out.push(b'.')?;
    out.extend_from_slice(without_trailing_zeros(&digits))?;
    Ok(())
}

fn digit_at(rest: u32, power: u32) -> u8
    requires { 0 < power }
    ensures { result ≡ digit_at rest power }
{
    b'0' + (rest / power % 10) as u8
}

fn without_trailing_zeros(digits: &[u8]) -> &[u8]
    ensures { result.now ≡ without_trailing_zeros digits.now }
{
    let mut kept = digits;
    while let [front @ .., last] = kept
        && *last == b'0'
    {
        kept = front;
    }
    kept
}

/// A law: what `put_micro` writes of a number in the range of `read_micro` is read as that number.
pub fn canonical_reads_back()
    ensures { (z : ℤ) → neg_ℤ (pos MOST_MICRO) ≤ℤ z → z ≤ℤ pos MOST_MICRO → micro_value (canonical z) ≡ Ok z }
{}

/// A law: what `put_micro` writes of such a number is one word of a line.
pub fn canonical_is_word()
    ensures { (z : ℤ) → neg_ℤ (pos MOST_MICRO) ≤ℤ z → z ≤ℤ pos MOST_MICRO → IsWord (canonical z) }
{}
