//! Finds lines and words of a file again, by their numbers.

use klp_catalog_text::Lines;
use klp_words::LineWords;

/// Returns the line with this number, counted from 1, of a catalog or a trace, without the bytes that end it. If there
/// are fewer lines, the result is empty.
pub fn line_at(text: &[u8], number: u64) -> &[u8] {
    let mut lines = Lines::new(text);
    for _ in 1..number {
        lines.next();
    }
    lines.next().unwrap_or(&[])
}

/// Returns the word with this number, counted from 1, among the words of a line. If there are fewer words, the result
/// is empty.
pub fn word_at<'a>(mut words: LineWords<'a>, number: usize) -> &'a [u8] {
    for _ in 1..number {
        words.next();
    }
    words.next().unwrap_or(&[])
}
