//! Keywords, headers, numbers and count lines.

ghost use Rattle.std.specs.Prelude.{◌≡◌, map};
ghost use Rattle.std.specs.Char.{to_ascii_lowercase};
ghost use Rattle.book_files.specs.Words.{is_keyword, is_colon_word, is_header, is_keyed};
ghost use Rattle.book_files.specs.Forms.Words.{count_of, whole_of, number_of, size_of};
ghost use Rattle.book_files.specs.Forms.Progress.{Gives};

use crate::fault::TextKind;
use book_text::{Micro, read_micro, read_whole};

/// Whether the word is the keyword, which is given in small letters, in any ASCII case.
pub fn is_keyword(key: &[u8], word: &[u8]) -> bool
    requires { map to_ascii_lowercase key.now ≡ key.now }
    ensures { result ≡ is_keyword key.now word.now }
{
    word.eq_ignore_ascii_case(key)
}

/// Whether the word is a lone colon.
pub fn is_colon(word: &[u8]) -> bool
    ensures { result ≡ is_colon_word word.now }
{
    word == b":".as_slice()
}

/// Whether the line's first words are `UCLA`, the kind and `1.0`.
pub fn is_header(kind: &[u8], words: &[&[u8]]) -> bool
    requires { map to_ascii_lowercase kind.now ≡ kind.now }
    ensures { result ≡ is_header kind.now (map (λ w. w.now) words.now) }
{
    match words {
        [ucla, name, version, ..] => {
            is_keyword(b"ucla", ucla) && is_keyword(kind, name) && *version == b"1.0".as_slice()
        }
        _ => false,
    }
}

/// Whether the line's first word is the keyword and its second a colon.
pub fn is_keyed(key: &[u8], words: &[&[u8]]) -> bool
    requires { map to_ascii_lowercase key.now ≡ key.now }
    ensures { result ≡ is_keyed key.now (map (λ w. w.now) words.now) }
{
    match words {
        [word, colon, ..] => is_colon(colon) && is_keyword(key, word),
        _ => false,
    }
}

/// The number of a count line, which is keyed. It may stand once: `stood` says that it stood before.
pub fn count_of(stood: bool, words: &[&[u8]]) -> Result<u64, TextKind>
    ensures { Gives (λ n. n) result (count_of stood (map (λ w. w.now) words.now)) }
{
    match words {
        [_, _, number] if !stood => whole_of(number),
        _ => Err(TextKind::BadLine),
    }
}

/// The value of a whole word.
pub fn whole_of(word: &[u8]) -> Result<u64, TextKind>
    ensures { Gives (λ n. n) result (whole_of word.now) }
{
    read_whole(word).map_err(|_| TextKind::BadNumber)
}

/// The value of a number word.
pub fn number_of(word: &[u8]) -> Result<Micro, TextKind>
    ensures { Gives (λ number. number.0) result (number_of word.now) }
{
    read_micro(word).map_err(|_| TextKind::BadNumber)
}

/// The value of a number word that isn't negative.
pub fn size_of(word: &[u8]) -> Result<Micro, TextKind>
    ensures { Gives (λ number. number.0) result (size_of word.now) }
{
    let size = number_of(word)?;
    if size.0 < 0 {
        return Err(TextKind::BadNumber);
    }
    Ok(size)
}
