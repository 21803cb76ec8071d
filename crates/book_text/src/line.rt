//! The lines of a text and the words of a line, walked by places.

ghost use Rattle.std.specs.Prelude.{◌≡◌, ℕ, ◌+◌, ◌-◌, ◌≤◌, ◌==◌, List, [], ◌∷◌, ◌++◌, All, length, drop, slice_range, MatchOption};
ghost use Rattle.std.specs.List.{prefix_len, suffix_len, position_or_len, count_by};
ghost use Rattle.book_text.specs.Lines.{is_blank, is_colon, IsWord, spaced, NumberedLine, has_content, lines_of, words_of, content_from};
ghost use Rattle.book_text.specs.Walk.{IsNextLine, IsNextWord};

/// A part of a text: the places from `from` up to, but not including, `to`.
#[derive(Clone, Copy, Debug, PartialEq, Eq)]
pub struct Span {
    pub from: usize,
    pub to: usize,
}

/// A line of a text.
#[derive(Clone, Copy, Debug, PartialEq, Eq)]
pub struct Line {
    /// Where its bytes stand, without the line's end.
    pub words: Span,
    /// Its number, counted from 1.
    pub number: u64,
    /// Where the next line starts.
    pub next: usize,
}

const LINE_END: u8 = b'\n';

const COLON: u8 = b':';

const COMMENT: u8 = b'#';

/// The next line that has a word and is no comment, from the place `at`, where a line of the given number starts.
///
/// `None` comes where no such line is left. Lines that are passed over keep their numbers.
pub fn next_line(text: &[u8], at: usize, number: u64) -> Option<Line>
    requires at_within { at ≤ length text.now }
    requires number_within { number ≤ at + 1 }
    ensures { MatchOption result (content_from number (drop at text.now) ≡ [])
        (IsNextLine text.now at number) }
{
    let mut start = at;
    let mut line = number;
    while start < text.len() {
        let end = line_end(text, start);
        let next = text.len().min(end + 1);
        if is_kept(text, start, end) {
            return Some(Line {
                words: Span {
                    from: start,
                    to: end,
                },
                number: line,
                next,
            });
        }
        start = next;
        line += 1;
    }
    None
}

/// The number of lines of a text. A last line without a byte 10 behind it is one too.
pub fn count_lines(text: &[u8]) -> u64
    ensures { result ≡ length (lines_of text.now) }
{
    let ends = line_ends(text) as u64;
    match text {
        [.., last] if *last != LINE_END => ends + 1,
        _ => ends,
    }
}

fn line_ends(text: &[u8]) -> usize
    ensures count { result ≡ count_by (λ b. b == 10) text.now }
    ensures within { result ≤ length text.now }
{
    text.iter().filter(|byte| **byte == LINE_END).count()
}

/// Where the line that starts at `at` ends: at the next byte 10, or at the text's end.
fn line_end(text: &[u8], at: usize) -> usize
    requires { at ≤ length text.now }
    ensures place { result ≡ at + position_or_len (λ b. b == 10) (drop at text.now) }
    ensures within { result ≤ length text.now }
{
    match text[at..].iter().position(|byte| *byte == LINE_END) {
        Some(passed) => at + passed,
        None => text.len(),
    }
}

/// Whether the line at these places has a word and is no comment.
fn is_kept(text: &[u8], from: usize, to: usize) -> bool
    requires ordered { from ≤ to }
    requires within { to ≤ length text.now }
    ensures { result ≡ has_content (words_of (slice_range text.now from to)) }
{
    let first = behind_blanks(text, from, to);
    first < to && text[first] != COMMENT
}

/// The next word of a line, from the place `at` on, which doesn't lie inside a word.
///
/// `None` comes where the rest of the line has no word. A colon at the start or at the end of a run of bytes that
/// aren't blanks is a word of its own.
pub fn next_word(text: &[u8], words: Span, at: usize) -> Option<Span>
    requires at_within { at ≤ words.to }
    requires words_within { words.to ≤ length text.now }
    ensures { MatchOption result (words_of (slice_range text.now at words.to) ≡ [])
        (IsNextWord text.now at words.to) }
{
    let from = behind_blanks(text, at, words.to);
    if from == words.to {
        return None;
    }
    let to = if text[from] == COLON {
        from + 1
    } else {
        before_colons(text, from, run_end(text, from, words.to))
    };
    Some(Span { from, to })
}

/// The first of these places that holds no blank, or `to`.
fn behind_blanks(text: &[u8], from: usize, to: usize) -> usize
    requires ordered { from ≤ to }
    requires within { to ≤ length text.now }
    ensures place { result ≡ from + prefix_len is_blank (slice_range text.now from to) }
    ensures within { result ≤ to }
{
    match text[from..to].iter().position(|byte| !is_blank(*byte)) {
        Some(passed) => from + passed,
        None => to,
    }
}

/// The first of these places that holds a blank, or `to`.
fn run_end(text: &[u8], from: usize, to: usize) -> usize
    requires ordered { from ≤ to }
    requires within { to ≤ length text.now }
    ensures place { result ≡ from + position_or_len is_blank (slice_range text.now from to) }
    ensures within { result ≤ to }
{
    match text[from..to].iter().position(|byte| is_blank(*byte)) {
        Some(passed) => from + passed,
        None => to,
    }
}

/// Where the colons begin with which these places end, or `to`.
fn before_colons(text: &[u8], from: usize, to: usize) -> usize
    requires ordered { from ≤ to }
    requires within { to ≤ length text.now }
    ensures { result ≡ to - suffix_len is_colon (slice_range text.now from to) }
{
    let mut end = to;
    while from < end && text[end - 1] == COLON {
        end -= 1;
    }
    end
}

fn is_blank(byte: u8) -> bool
    ensures { result ≡ is_blank byte }
{
    matches!(byte, b' ' | b'\t' | b'\r')
}

/// A law: a line of words with one space between each two has exactly these words and is one line, and what stands in
/// the lines of any text are words.
pub fn spaced_words()
    ensures words { (words : List (List ℕ)) → All IsWord words → words_of (spaced words) ≡ words }
    ensures one_line { (words : List (List ℕ)) (text : List ℕ) → All IsWord words
        → lines_of (spaced words ++ 10 ∷ text) ≡ spaced words ∷ lines_of text }
    ensures found { (number : ℕ) (text : List ℕ)
        → All (λ (line : NumberedLine). All IsWord line.words) (content_from number text) }
{}
