//! Texts with many lines, and with a change.

use book_text::Memory;
use std::alloc::Global;

/// Some text, and behind it a line for each number below `count`, which stands in the line.
pub fn lines_of(
    alloc: Global,
    head: &str,
    before: &str,
    after: &str,
    count: u32,
) -> Result<Vec<u8>, Memory> {
    let head = Vec::from_slice(alloc, head.as_bytes())?;
    with_lines(alloc, head, before, after, count)
}

/// A text with such lines behind it.
pub fn with_lines(
    alloc: Global,
    mut text: Vec<u8>,
    before: &str,
    after: &str,
    count: u32,
) -> Result<Vec<u8>, Memory> {
    for number in 0..count {
        let line = format!(in alloc; "{before}{number}{after}\n")?;
        text.extend_from_slice(line.as_bytes())?;
    }
    Ok(text)
}

/// A text with `new` in the first place of `old`, and the text itself where that stands nowhere.
pub fn changed(alloc: Global, text: &[u8], old: &[u8], new: &[u8]) -> Result<Vec<u8>, Memory> {
    for at in 0..text.len() {
        let (before, rest) = text.split_at(at);
        if let Some(behind) = rest.strip_prefix(old) {
            let mut text = before.to_vec(alloc)?;
            text.extend_from_slice(new)?;
            text.extend_from_slice(behind)?;
            return Ok(text);
        }
    }
    Ok(text.to_vec(alloc)?)
}
