//! The words of a line, with one space between two.

/// The word with that index, an empty one where there are fewer.
pub fn word(line: &str, index: usize) -> &str {
    line.split(' ').nth(index).unwrap_or("")
}

/// The bytes as characters.
pub fn shown(bytes: &[u8]) -> &str {
    str::from_utf8(bytes).unwrap_or("?")
}

/// The number that the word is, or 0 where it is none.
pub fn number(word: &str) -> u64 {
    word.parse::<u64>().unwrap_or(0)
}
