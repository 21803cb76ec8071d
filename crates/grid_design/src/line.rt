//! Lines of words.

ghost use Rattle.std.specs.Prelude.{◌≡◌, [], ◌∷◌, ◌++◌, map, decimal, OnOk};
ghost use Rattle.grid_design.specs.Parts.{letter};
ghost use Rattle.grid_design.specs.Texts.{line_of};
ghost use Rattle.grid_design.specs.Forms.Words.{word_text};

use crate::parts::{Node, Side};
use book_text::Memory;
use itoa::Buffer;

/// A word of a line.
#[derive(Clone, Copy)]
pub(crate) enum Word<'a> {
    Text(&'a str),
    Number(u64),
    /// The name of a node.
    Node(Node),
    /// The name of the net of this number.
    Net(u64),
}

/// Appends the words with one blank between each two, and the line's end.
pub(crate) fn put_line(text: &mut Vec<u8>, words: &[Word<'_>]) -> Result<(), Memory>
    ensures { OnOk result (text.new.items ≡ text.old.items ++ line_of (map word_text words.now)) }
{
    let [first, others @ ..] = words else {
        return Ok(text.push(b'\n')?);
    };
    put_word(text, *first)?;
    for word in others {
        text.push(b' ')?;
        put_word(text, *word)?;
    }
    Ok(text.push(b'\n')?)
}

/// Appends a word.
fn put_word(text: &mut Vec<u8>, word: Word<'_>) -> Result<(), Memory>
    ensures { OnOk result (text.new.items ≡ text.old.items ++ word_text word.entry) }
{
    match word {
        Word::Text(word) => Ok(text.extend_from_slice(word.as_bytes())?),
        Word::Number(number) => put_number(text, number),
        Word::Node(Node::Cell(number)) => put_name(text, b'c', u64::from(number)),
        Word::Node(Node::Terminal(side, number)) => {
            put_name(text, letter(side), u64::from(number))
        }
        Word::Net(number) => put_name(text, b'n', number),
    }
}

/// Appends a letter and a number.
fn put_name(text: &mut Vec<u8>, letter: u8, number: u64) -> Result<(), Memory>
    ensures { OnOk result (text.new.items ≡ text.old.items ++ letter ∷ decimal number) }
{
    text.push(letter)?;
    put_number(text, number)
}

/// Appends the decimal of a number.
fn put_number(text: &mut Vec<u8>, number: u64) -> Result<(), Memory>
    ensures { OnOk result (text.new.items ≡ text.old.items ++ decimal number) }
{
    let mut buffer = Buffer::new();
    Ok(text.extend_from_slice(buffer.format(number).as_bytes())?)
}

/// The letter of a side's terminals.
fn letter(side: Side) -> u8
    ensures { letter side ≡ result ∷ [] }
{
    match side {
        Side::Left => b'l',
        Side::Right => b'r',
        Side::Bottom => b'b',
        Side::Top => b't',
    }
}
