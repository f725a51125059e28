// Why something failed, in the C library's words.
use std::io;
use std::io::{Print, Write};

// The longest of the C library's messages has 49 bytes; behind it std writes the error's number, ` (os error 84)`.
const MOST: usize = 128;

// Writes an error without its number.
pub fn print(stream: &impl Print, error: io::Error) -> io::Result<()> {
    let mut text = [0u8; MOST];
    let mut room = text.as_mut_slice();
    let _ = write!(room, "{error}");
    let written = MOST - room.len().min(MOST);
    stream.write_all(words(&text[..written]))
}

// The text up to the number.
fn words(text: &[u8]) -> &[u8] {
    let Ok(text) = str::from_utf8(text) else {
        return b"";
    };
    let words = text.split_once(" (os error ").map(|(words, _)| words);
    words.unwrap_or(text).as_bytes()
}
